//! Rows of whole texts.
use sf_base::Kind;
use sf_format::{Profile, ScanFormat};
use sf_read::{Row, ScanRowFault, ShapeFault, sscan_row};
use sf_rows::{LIMIT, is};
use sf_run::{Ending, Outcome, StartFault, Status};
use std::alloc::Global;
use std::test::Fail;

/// A text that is scanned by `%d,%d`, and its row or why there is none.
type Pairs = (&'static [u8], Result<(i32, i32), ScanRowFault>);

static PAIRS: [Pairs; 7] = [
    (b"12,-7", Ok((12, -7))),
    (b"12,-7\n", Ok((12, -7))),
    (
        b" 2147483647,-2147483648 and more",
        Ok((2147483647, -2147483648)),
    ),
    (
        b"                                                1,2",
        Ok((1, 2)),
    ),
    (
        b"12;-7",
        Err(ScanRowFault::Failed(Outcome {
            status: Status::MatchingFailure,
            at: 2,
            assigned: 1,
            converted: 1,
            used: 2,
            met: None,
        })),
    ),
    (
        b"12,",
        Err(ScanRowFault::Failed(Outcome {
            status: Status::InputFailure,
            at: 3,
            assigned: 1,
            converted: 1,
            used: 3,
            met: Some(Ending::End),
        })),
    ),
    (
        b"",
        Err(ScanRowFault::Failed(Outcome {
            status: Status::InputFailure,
            at: 1,
            assigned: 0,
            converted: 0,
            used: 0,
            met: Some(Ending::End),
        })),
    ),
];

#[test]
fn rows_of_two_numbers(rt: HostRuntime) -> Result<(), Fail> {
    let format = ScanFormat::parse(rt.alloc(), Profile::One, b"%d,%d")?;
    for (text, row) in &PAIRS {
        is(&sscan_row(rt.alloc(), text, &format, LIMIT), row, text)?;
    }
    Ok(())
}

/// The row of a text by a format, under a limit.
fn row_of<T: Row>(
    alloc: Global,
    format: &[u8],
    text: &[u8],
    limit: u32,
) -> Result<Result<T, ScanRowFault>, Fail> {
    let format = ScanFormat::parse(alloc, Profile::One, format)?;
    Ok(sscan_row(alloc, text, &format, limit))
}

#[test]
fn rows_with_texts(rt: HostRuntime) -> Result<(), Fail> {
    let row: (i32, Vec<u8>) = row_of(rt.alloc(), b"%d %s", b"-7 up and down", LIMIT)??;
    is(
        &(row.0, row.1.as_slice()),
        &(-7, b"up".as_slice()),
        b"a number and a text",
    )
}

#[test]
fn rows_of_six_numbers(rt: HostRuntime) -> Result<(), Fail> {
    let row: (u8, u16, u32, u64, i8, i16) = row_of(
        rt.alloc(),
        b"%hhu%hu%u%lu%hhd%hd",
        b"255 65535 4294967295 18446744073709551615 -128 -32768",
        LIMIT,
    )??;
    let wanted = (255, 65535, 4294967295, 18446744073709551615, -128, -32768);
    is(&row, &wanted, b"six numbers")
}

/// A format, a text, a limit, and why there is no row of one number.
type Refused = (&'static [u8], &'static [u8], u32, ScanRowFault);

static REFUSED: [Refused; 2] = [
    (
        b"%d",
        b"1",
        2147483648,
        ScanRowFault::Start(StartFault::BadLimit),
    ),
    (
        b"%ld",
        b"1",
        LIMIT,
        ScanRowFault::ShapeDiffers(ShapeFault::Kinds {
            slot: 1,
            format: Kind::I64,
            row: Kind::I32,
        }),
    ),
];

#[test]
fn rows_that_are_refused(rt: HostRuntime) -> Result<(), Fail> {
    for (format, text, limit, fault) in &REFUSED {
        let row = row_of::<(i32,)>(rt.alloc(), format, text, *limit)?;
        is(&row.err(), &Some(*fault), format)?;
    }
    Ok(())
}

#[test]
fn a_limit_within_the_number(rt: HostRuntime) -> Result<(), Fail> {
    let row = row_of::<(i32,)>(rt.alloc(), b"%d", b"123", 2)?;
    is(&row.is_err(), &true, b"%d")
}
