//! What slots were given, taken as types of Rust.
use sf_base::HeapStore;
use sf_format::{Profile, ScanFormat};
use sf_read::sscan;
use sf_rows::{LIMIT, is};
use sf_run::{Report, Scanned};
use std::alloc::Global;
use std::test::Fail;

/// A scan of a number of each kind, and of a text.
fn scanned(alloc: Global) -> Result<Scanned<HeapStore>, Fail> {
    let text = b"%hhd %hd %d %ld %hhu %hu %u %lu %s";
    let format = ScanFormat::parse(alloc, Profile::One, text)?;
    Ok(sscan(alloc, b"-1 -2 0 -4 5 6 7 8 nine", &format, LIMIT)?)
}

fn are_of_the_kind(report: &Report<'_, HeapStore>) -> Result<(), Fail> {
    let signed = (
        report.get::<i8>(1),
        report.get::<i16>(2),
        report.get::<i32>(3),
        report.get::<i64>(4),
    );
    let unsigned = (
        report.get::<u8>(5),
        report.get::<u16>(6),
        report.get::<u32>(7),
        report.get::<u64>(8),
    );
    let wanted = (
        (Some(-1), Some(-2), Some(0), Some(-4)),
        (Some(5), Some(6), Some(7), Some(8)),
        Some(b"nine".as_slice()),
    );
    is(
        &(signed, unsigned, report.get::<&[u8]>(9)),
        &wanted,
        &"the kinds",
    )
}

fn are_of_another_kind(report: &Report<'_, HeapStore>) -> Result<(), Fail> {
    let of_a_number = (
        report.get::<u32>(3),
        report.get::<i64>(3),
        report.get::<&[u8]>(3),
    );
    // A text, no slot, and no such slot.
    let numbers = [
        report.get::<i32>(9),
        report.get::<i32>(0),
        report.get::<i32>(10),
    ];
    is(
        &(of_a_number, numbers),
        &((None, None, None), [None; 3]),
        &"other kinds",
    )
}

/// The slots are given as types of their kinds, and as no others.
fn is_given(scanned: &Scanned<HeapStore>) -> Result<(), Fail> {
    let report = scanned.report();
    are_of_the_kind(&report)?;
    are_of_another_kind(&report)?;
    is(&scanned.outcome(), &report.outcome(), &"the outcome")
}

/// Whether the slot is given a NaN, if it is given a float of 64 bits.
fn is_nan(report: &Report<'_, HeapStore>, slot: u8) -> Option<bool> {
    match report.get::<f64>(slot) {
        Some(float) => Some(float.is_nan()),
        None => None,
    }
}

/// The floats, and no values of other kinds.
fn are_floats(report: &Report<'_, HeapStore>) -> Result<(), Fail> {
    let floats = (
        report.get::<f32>(1),
        report.get::<f64>(2),
        is_nan(report, 4),
    );
    let of_another_kind = (
        report.get::<f64>(1),
        report.get::<f32>(2),
        report.get::<f64>(3),
        report.get::<i32>(2),
    );
    let wanted = (
        (Some(0.5), Some(-2.25), Some(true)),
        (None, None, None, None),
    );
    is(&(floats, of_another_kind), &wanted, &"floats")
}

/// Floats by the types of Rust; expected values are the decimals as a compiler reads them.
fn floats_are_given(alloc: Global) -> Result<(), Fail> {
    let format = ScanFormat::parse(alloc, Profile::Three, b"%f %lf %d %lf")?;
    let scanned = sscan(alloc, b"0.5 -2.25 7 nan", &format, LIMIT)?;
    are_floats(&scanned.report())
}

#[test]
fn floats_as_types(rt: HostRuntime) -> Result<(), Fail> {
    floats_are_given(rt.alloc())
}

#[test]
fn slots_as_types(rt: HostRuntime) -> Result<(), Fail> {
    is_given(&scanned(rt.alloc())?)
}
