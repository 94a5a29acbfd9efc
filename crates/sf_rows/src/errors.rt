//! Faults as errors: `?` makes an `anyhow::Error` of each, with its text.
use crate::compare::is;
use std::alloc::Global;
use std::error::Error;
use std::test::Fail;

/// The fault, handed on.
fn handed_on<E: Error>(fault: E) -> anyhow::Result<()> {
    Err::<(), E>(fault)?;
    Ok(())
}

/// There is an error, with this text.
pub fn says(alloc: Global, error: Option<anyhow::Error>, wanted: &str) -> Result<(), Fail> {
    let Some(error) = error else {
        return Err(Fail::new(wanted));
    };
    let text = format!(in alloc; "{error}")?;
    is(&text.as_str(), &wanted, &wanted)
}

/// The fault is an error with this text.
pub fn is_error<E: Error>(alloc: Global, fault: E, wanted: &str) -> Result<(), Fail> {
    says(alloc, handed_on(fault).err(), wanted)
}
