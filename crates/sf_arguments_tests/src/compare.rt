//! What the tests share.
use std::fmt::Debug;
use std::test::Fail;

/// What is found is what is wanted; else the place is named.
pub(crate) fn is<T: Debug + PartialEq>(
    found: &T,
    wanted: &T,
    place: &impl Debug,
) -> Result<(), Fail> {
    if found == wanted {
        return Ok(());
    }
    Err(Fail::new(format_args!("at {place:?}: {found:?}, not {wanted:?}")))
}
