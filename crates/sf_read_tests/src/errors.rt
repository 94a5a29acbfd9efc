//! Faults as errors: `?` makes an `anyhow::Error` of each, with its text.
use sf_base::Kind;
use sf_format::{Profile, ScanFormat};
use sf_read::{
    Lookahead, ReadStep, RowFault, ScanRowFault, ScriptSource, ShapeFault, SourceFault, scan_row,
};
use sf_rows::{Named, is_error, says};
use sf_run::{Ending, Outcome, StartFault, Status};
use std::alloc::Global;
use std::test::Fail;

/// Why a run failed, at which directive, the bytes used and the values assigned, and the text.
static RUNS: [(Status, u16, u32, u8, &str); 5] = [
    (
        Status::MatchingFailure,
        2,
        5,
        1,
        "matching failure at 2, used 5, assigned 1",
    ),
    (
        Status::InputFailure,
        1,
        0,
        0,
        "input failure at 1, used 0, assigned 0",
    ),
    (
        Status::OutOfRange,
        3,
        4294967295,
        2,
        "out of range at 3, used 4294967295, assigned 2",
    ),
    (
        Status::TooLong,
        65535,
        7,
        32,
        "too long at 65535, used 7, assigned 32",
    ),
    (
        Status::NoMemory,
        1,
        12,
        0,
        "out of memory at 1, used 12, assigned 0",
    ),
];

/// A run that used so many bytes, and has assigned.
fn failed(status: Status, at: u16, used: u32, assigned: u8) -> ScanRowFault {
    ScanRowFault::Failed(Outcome {
        status,
        at,
        assigned,
        converted: 0,
        used,
        met: Some(Ending::End),
    })
}

#[test]
fn faults_of_runs(rt: HostRuntime) -> Result<(), Fail> {
    for (status, at, used, assigned, text) in &RUNS {
        is_error(rt.alloc(), failed(*status, *at, *used, *assigned), text)?;
    }
    Ok(())
}

/// Why there is no row of a run, and the text.
static FAULTS: [(ScanRowFault, &str); 6] = [
    (
        ScanRowFault::ShapeDiffers(ShapeFault::Kinds {
            slot: 2,
            format: Kind::I32,
            row: Kind::U32,
        }),
        "slot 2: the format gives an i32, the row takes a u32",
    ),
    (
        ScanRowFault::ShapeDiffers(ShapeFault::Count { format: 2, row: 3 }),
        "values: the format gives 2, the row takes 3",
    ),
    (
        ScanRowFault::ShapeDiffers(ShapeFault::Missing { slot: 12 }),
        "slot 12: the format may leave it without a value, the row takes no Option",
    ),
    (ScanRowFault::LeftOver { at: 10 }, "left over at 10"),
    (
        ScanRowFault::Start(StartFault::BadLimit),
        "limit above 2147483647",
    ),
    (ScanRowFault::NoMemory, "out of memory"),
];

#[test]
fn faults_are_errors(rt: HostRuntime) -> Result<(), Fail> {
    for (fault, text) in &FAULTS {
        is_error(rt.alloc(), *fault, text)?;
    }
    is_error(rt.alloc(), SourceFault, "read fault")?;
    is_error(rt.alloc(), RowFault::NoMemory, "out of memory")
}

/// The number of the next row.
fn number(
    alloc: Global,
    from: &mut Lookahead<ScriptSource<'_>, 7>,
    format: &ScanFormat,
    limit: u32,
) -> Result<i32, ScanRowFault> {
    let row: Named = scan_row(alloc, from, format, limit)?;
    Ok(row.number)
}

/// The sum of the numbers of two rows, as a program makes it that only hands faults on.
fn sum(alloc: Global, format: &[u8], text: &[u8], limit: u32) -> anyhow::Result<i32> {
    let format = ScanFormat::parse(alloc, Profile::One, format)?;
    let steps = [ReadStep::Give(text)];
    let mut from = Lookahead::<ScriptSource<'_>, 7>::new(ScriptSource::new(&steps));
    let first = number(alloc, &mut from, &format, limit)?;
    let second = number(alloc, &mut from, &format, limit)?;
    Ok(first.saturating_add(second))
}

/// A format, a text, a limit, and the text of the fault.
static REFUSED: [(&[u8], &[u8], u32, &str); 5] = [
    (b"%f", b"", 8, "F5 LeftOut at 1"),
    (
        b"%d",
        b"1 a",
        8,
        "values: the format gives 1, the row takes 2",
    ),
    (b"%d %s", b"1 a", 2147483648, "limit above 2147483647"),
    (
        b"%d %s",
        b"1 a b",
        8,
        "matching failure at 1, used 1, assigned 0",
    ),
    (
        b"%d %s",
        b"1 a 2 bcdefghijk",
        8,
        "too long at 3, used 8, assigned 1",
    ),
];

#[test]
fn faults_are_handed_on(rt: HostRuntime) -> Result<(), Fail> {
    for (format, text, limit, wanted) in &REFUSED {
        says(
            rt.alloc(),
            sum(rt.alloc(), format, text, *limit).err(),
            wanted,
        )?;
    }
    Ok(())
}
