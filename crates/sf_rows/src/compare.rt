//! Comparisons that say where they failed.
use sf_base::{Store, Value};
use sf_run::Report;
use std::fmt::Debug;
use std::test::Fail;

/// What is found is what is wanted; else the place is named.
pub fn is<T: Debug + PartialEq>(found: &T, wanted: &T, place: &impl Debug) -> Result<(), Fail> {
    if found == wanted {
        return Ok(());
    }
    Err(Fail::new(format_args!("at {place:?}: {found:?}, not {wanted:?}")))
}

/// The slots have the values in turn, and the slot behind them has none.
pub fn has_values<S: Store>(
    report: &Report<'_, S>,
    values: &[Value<'_>],
    place: &impl Debug,
) -> Result<(), Fail> {
    let mut slot = 1u8;
    for value in values {
        is(&report.value(slot), &Some(*value), place)?;
        slot = slot.saturating_add(1);
    }
    is(&report.value(slot), &None, place)
}
