//! What a loop answers, as text, beside what is wanted.
use std::alloc::Global;
use std::fmt::Display;
use std::test::Fail;

/// The most bytes of a record or a line.
pub(crate) const LIMIT: u32 = 12;

/// How many newlines the text has.
pub(crate) fn newlines_of(text: &[u8]) -> usize {
    let mut count = 0usize;
    for b in text {
        if *b == b'\n' {
            count = count.saturating_add(1);
        }
    }
    count
}

/// What is said is what is wanted; else both are named, with the place.
pub(crate) fn is(said: &str, wanted: &str, place: usize) -> Result<(), Fail> {
    if said == wanted {
        return Ok(());
    }
    Err(Fail::new(format_args!("at {place}: {said:?}, not {wanted:?}")))
}

/// A fault, as text.
pub(crate) fn fault_said<E: Display>(alloc: Global, fault: &E) -> Result<String, Fail> {
    Ok(format!(in alloc; "{fault}")?)
}

/// A row of two numbers as text, `12 -7`, or the fault.
fn row_said<E: Display>(alloc: Global, row: &Result<(i32, i32), E>) -> Result<String, Fail> {
    match row {
        Ok((left, right)) => Ok(format!(in alloc; "{left} {right}")?),
        Err(fault) => fault_said(alloc, fault),
    }
}

/// An answer of a loop over pairs of numbers, as text: `12 -7`, `end`, or the fault.
pub(crate) fn said<E: Display>(
    alloc: Global,
    answer: &Result<Option<(i32, i32)>, E>,
) -> Result<String, Fail> {
    match answer {
        Ok(Some((left, right))) => Ok(format!(in alloc; "{left} {right}")?),
        Ok(None) => Ok(format!(in alloc; "end")?),
        Err(fault) => fault_said(alloc, fault),
    }
}

/// What a `for` over rows is given at a place is what is wanted there.
pub(crate) fn is_item<E: Display>(
    alloc: Global,
    item: &Result<(i32, i32), E>,
    items: &[&str],
    place: usize,
) -> Result<(), Fail> {
    match items.get(place) {
        Some(wanted) => is(&row_said(alloc, item)?, wanted, place),
        None => Err(Fail::new("too many items")),
    }
}
