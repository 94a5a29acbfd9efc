//! Texts whose whole a match has to use, texts in pieces, and rows of twelve fields.
use sf_base::{HeapStore, Value};
use sf_format::{Profile, ScanFormat};
use sf_read::{Match, Row, ScanRowFault, scan_pieces, sscan_row, sscan_row_by};
use sf_rows::{LIMIT, is};
use sf_run::Report;
use std::test::Fail;

/// A text that is scanned by `%d,%d%*1[;]%*[a-z]`, and how many bytes of it are used where the run is Done.
static TEXTS: [(&[u8], Option<u32>); 6] = [
    (b"1,2;x", Some(5)),
    (b"1,2;x ", Some(5)),
    (b"1,2;xyz7", Some(7)),
    (b"1,2", None),
    (
        b"1,2;aaaaaaaaaaaaaaaaaaaaaaaaaaaaaaaaaaaaaaaaaaaaaaaa",
        Some(52),
    ),
    (
        b"1,2;aaaaaaaaaaaaaaaaaaaaaaaaaaaaaaaaaaaaaaaaaaaaaaaa\n",
        Some(52),
    ),
];

/// A row of two numbers, or why there is none.
type Found = Result<(i32, i32), ScanRowFault>;

/// The row of a text whose whole a match has to use, from that of its front, which uses so many bytes.
fn whole_of(text: &[u8], used: Option<u32>, front: Found) -> Found {
    match used {
        Some(at) if (at as usize) < text.len() => Err(ScanRowFault::LeftOver { at }),
        _ => front,
    }
}

#[test]
fn bytes_left_over(rt: HostRuntime) -> Result<(), Fail> {
    let format = ScanFormat::parse(rt.alloc(), Profile::One, b"%d,%d%*1[;]%*[a-z]")?;
    for (text, used) in &TEXTS {
        let front = sscan_row::<(i32, i32)>(rt.alloc(), text, &format, LIMIT);
        let whole = sscan_row_by::<(i32, i32)>(rt.alloc(), text, &format, LIMIT, Match::Whole);
        let wanted = (used.is_some(), whole_of(text, *used, front));
        is(&(front.is_ok(), whole), &wanted, text)?;
    }
    Ok(())
}

/// The pieces of one text, cut in several ways.
static CUTS: [&[&[u8]]; 5] = [
    &[b"12,-7 up;"],
    &[b"12", b",-", b"7 u", b"p;"],
    &[b"1", b"2", b"", b",", b"-7", b" ", b"u", b"p", b";"],
    &[b"", b"12,-7 up", b";", b"more"],
    &[b"12,-7 ", b"up;and", b"more"],
];

/// The bytes used, and the values of the slots 2 and 3.
fn is_reported(report: &Report<'_, HeapStore>) -> Result<(), Fail> {
    let found = (report.outcome().used, report.get::<i32>(2), report.value(3));
    is(
        &found,
        &(9, Some(-7), Some(Value::Text(b"up"))),
        b"12,-7 up;",
    )
}

#[test]
fn texts_in_pieces(rt: HostRuntime) -> Result<(), Fail> {
    let format = ScanFormat::parse(rt.alloc(), Profile::One, b"%d,%d %[a-z];")?;
    for pieces in &CUTS {
        let scanned = scan_pieces(rt.alloc(), pieces, &format, LIMIT)?;
        is_reported(&scanned.report())?;
    }
    Ok(())
}

#[test]
fn no_pieces(rt: HostRuntime) -> Result<(), Fail> {
    let format = ScanFormat::parse(rt.alloc(), Profile::One, b"%d,%d%s")?;
    let none: &[&[u8]] = &[];
    let scanned = scan_pieces(rt.alloc(), none, &format, LIMIT)?;
    is(&scanned.report().c_return(), &-1, b"no pieces")
}

#[test]
fn twelve_fields(rt: HostRuntime) -> Result<(), Fail> {
    let format = ScanFormat::parse(rt.alloc(), Profile::One, b"%d%d%d%d%d%d%d%d%d%d%d%d")?;
    let text = b"1 2 3 4 5 6 7 8 9 10 11 12";
    type Twelve = (i32, i32, i32, i32, i32, i32, i32, i32, i32, i32, i32, i32);
    let row: Twelve = sscan_row_by(rt.alloc(), text, &format, LIMIT, Match::Whole)?;
    let found = (row.0, row.6, row.11, row.with_values().len());
    is(&found, &(1, 7, 12, 12), text)
}
