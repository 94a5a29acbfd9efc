//! Loops over rows some of whose values are missing.
use crate::answers::{fault_said, is};
use sf_format::{Profile, ScanFormat};
use sf_loops::{Lines, Records};
use sf_read::{ScanRowFault, ShapeFault, SliceSource};
use std::alloc::Global;
use std::fmt::Display;
use std::test::Fail;

/// The most bytes of a record or a line.
const LIMIT: u32 = 12;

/// Two numbers, each of which may be missing.
type Gaps = (Option<i32>, Option<i32>);

/// An answer of a loop as text: `Some(1) None`, `end`, or the fault.
fn said<E: Display>(alloc: Global, answer: &Result<Option<Gaps>, E>) -> Result<String, Fail> {
    match answer {
        Ok(Some((left, right))) => Ok(format!(in alloc; "{left:?} {right:?}")?),
        Ok(None) => Ok(format!(in alloc; "end")?),
        Err(fault) => fault_said(alloc, fault),
    }
}

static RECORDS: [&str; 6] = [
    "Some(1) Some(2)",
    "None Some(4)",
    "Some(5) None",
    "None None",
    "end",
    "end",
];

/// The answers of a loop over records, one after the other.
fn records_in<const N: usize>(
    alloc: Global,
    records: &mut Records<'_, Gaps, SliceSource<'_>, N>,
) -> Result<(), Fail> {
    for (place, wanted) in RECORDS.iter().enumerate() {
        is(&said(alloc, &records.next())?, wanted, place)?;
    }
    Ok(())
}

/// Each record ends with a `;`. (A conversion that may be missing passes over newlines, too.)
#[test]
fn records_with_gaps(rt: HostRuntime) -> Result<(), Fail> {
    let alloc = rt.alloc();
    let format = ScanFormat::parse(alloc, Profile::Three, b"%?d,%?d;")?;
    let text = b"1,2;,4;5,;,;";
    let by_one = SliceSource::new(text);
    records_in(
        alloc,
        &mut Records::<Gaps, _, 1>::new(alloc, by_one, &format, LIMIT)?,
    )?;
    let by_three = SliceSource::new(text);
    records_in(
        alloc,
        &mut Records::<Gaps, _, 3>::new(alloc, by_three, &format, LIMIT)?,
    )?;
    let at_once = SliceSource::new(text);
    records_in(
        alloc,
        &mut Records::<Gaps, _, 4096>::new(alloc, at_once, &format, LIMIT)?,
    )
}

static LINES: [&str; 7] = [
    "Some(1) Some(2)",
    "None Some(4)",
    "Some(5) None",
    "None None",
    "line 5: input failure at 2, used 1, assigned 1: \"7\"",
    "None Some(-8)",
    "end",
];

/// The answers of a loop over lines, one after the other.
fn lines_in<const N: usize>(
    alloc: Global,
    lines: &mut Lines<'_, Gaps, SliceSource<'_>, N>,
) -> Result<(), Fail> {
    for (place, wanted) in LINES.iter().enumerate() {
        is(&said(alloc, &lines.next())?, wanted, place)?;
    }
    Ok(())
}

#[test]
fn lines_with_gaps(rt: HostRuntime) -> Result<(), Fail> {
    let alloc = rt.alloc();
    let format = ScanFormat::parse(alloc, Profile::Three, b"%?d,%?d")?;
    let text = b"1,2\n,4\n5,\n,\n7\n,-8";
    let by_one = SliceSource::new(text);
    lines_in(
        alloc,
        &mut Lines::<Gaps, _, 1>::new(alloc, by_one, &format, LIMIT)?,
    )?;
    let by_three = SliceSource::new(text);
    lines_in(
        alloc,
        &mut Lines::<Gaps, _, 3>::new(alloc, by_three, &format, LIMIT)?,
    )?;
    let at_once = SliceSource::new(text);
    lines_in(
        alloc,
        &mut Lines::<Gaps, _, 4096>::new(alloc, at_once, &format, LIMIT)?,
    )
}

/// Rows of numbers alone are refused before anything is read.
#[test]
fn rows_without_gaps(rt: HostRuntime) -> Result<(), Fail> {
    let format = ScanFormat::parse(rt.alloc(), Profile::Three, b"%?d,%?d")?;
    let first = Some(ScanRowFault::ShapeDiffers(ShapeFault::Missing { slot: 1 }));
    let second = Some(ScanRowFault::ShapeDiffers(ShapeFault::Missing { slot: 2 }));
    let source = SliceSource::new(b"1,2");
    let records = Records::<(i32, Option<i32>), _, 3>::new(rt.alloc(), source, &format, LIMIT);
    assert_eq!(rt; records.err(), first);
    let source = SliceSource::new(b"1,2");
    let lines = Lines::<(Option<i32>, i32), _, 3>::new(rt.alloc(), source, &format, LIMIT);
    assert_eq!(rt; lines.err(), second);
    Ok(())
}
