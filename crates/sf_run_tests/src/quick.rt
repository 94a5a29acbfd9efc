//! The quick run and the scanner side by side, and what the quick run makes of a store.
use crate::runs::scanned;
use sf_base::{HeapStore, Store, Value};
use sf_format::{Profile, ScanFormat};
use sf_rows::{Met, ScanRow, Told, is, scans};
use sf_run::{Ending, Report, Scanned, quick_run, sure_run};
use std::alloc::Global;
use std::test::Fail;

/// The scanner, which is handed the text and no more, reports what the row says.
fn scanner_agrees(
    alloc: Global,
    row: &ScanRow,
    format: &ScanFormat,
    text: &[u8],
) -> Result<(), Fail> {
    let scanned = scanned(alloc, format, row.limit, &[text], Ending::Fault)?;
    row.is_told(&scanned.report())
}

/// Whether the quick run answers for a front of the row's text. It then reports what the row says, and so does the
/// scanner.
fn is_at_once(
    alloc: Global,
    store: &mut HeapStore,
    row: &ScanRow,
    format: &ScanFormat,
    front: &[u8],
) -> Result<bool, Fail> {
    let Some(outcome) = sure_run(store, format, row.limit, front) else {
        return Ok(false);
    };
    let report = Report::new(outcome, store);
    row.is_told(&report)?;
    row.is_told(&report.copied())?;
    scanner_agrees(alloc, row, format, front)?;
    Ok(true)
}

/// Each front of the row's text; for the whole of it the quick run answers where the row says so.
fn all_fronts(alloc: Global, store: &mut HeapStore, row: &ScanRow) -> Result<(), Fail> {
    let format = row.parsed(alloc)?;
    let mut answers = false;
    for count in 0..row.text.len() + 1 {
        let (front, _) = row.text.split_at(count);
        answers = is_at_once(alloc, store, row, &format, front)?;
    }
    is(&(answers || !row.at_once), &true, &(row.format, row.text))
}

/// The rows of a table.
fn all_rows(alloc: Global, store: &mut HeapStore, rows: &[ScanRow]) -> Result<(), Fail> {
    for row in rows {
        all_fronts(alloc, store, row)?;
    }
    Ok(())
}

#[test]
fn records_read_at_once(rt: HostRuntime) -> Result<(), Fail> {
    let mut store = HeapStore::new(rt.alloc(), 0)?;
    for rows in scans() {
        all_rows(rt.alloc(), &mut store, rows)?;
    }
    Ok(())
}

/// Records one after the other. The third has no byte after it.
static RECORDS: [ScanRow; 4] = [
    ScanRow {
        profile: Profile::One,
        format: b" %s",
        limit: 99,
        text: b"first second failing",
        told: Told::Done(1, 5, Met::Byte),
        values: &[Value::Text(b"first")],
        at_once: true,
    },
    ScanRow {
        profile: Profile::One,
        format: b" %s",
        limit: 99,
        text: b" second failing",
        told: Told::Done(1, 7, Met::Byte),
        values: &[Value::Text(b"second")],
        at_once: true,
    },
    ScanRow {
        profile: Profile::One,
        format: b" %s",
        limit: 99,
        text: b" failing",
        told: Told::Done(1, 8, Met::End),
        values: &[Value::Text(b"failing")],
        at_once: false,
    },
    ScanRow {
        profile: Profile::One,
        format: b"%d %s",
        limit: 99,
        text: b"-12  abc\n",
        told: Told::Done(2, 8, Met::Byte),
        values: &[Value::I32(-12), Value::Text(b"abc")],
        at_once: true,
    },
];

/// The quick run answers for the record exactly where the row says so.
fn is_record(alloc: Global, store: &mut HeapStore, row: &ScanRow) -> Result<(), Fail> {
    let format = row.parsed(alloc)?;
    let answers = is_at_once(alloc, store, row, &format, row.text)?;
    is(&answers, &row.at_once, &row.text)
}

/// Each record leaves its own values alone in the store, and the bytes of their texts.
#[test]
fn a_store_is_used_again(rt: HostRuntime) -> Result<(), Fail> {
    let mut store = HeapStore::new(rt.alloc(), 8)?;
    for row in &RECORDS {
        is_record(rt.alloc(), &mut store, row)?;
    }
    Ok(())
}

/// A whole scan made of a record's outcome and the store of its values.
fn scanned_of(
    mut store: HeapStore,
    format: &ScanFormat,
    text: &[u8],
) -> Result<Scanned<HeapStore>, Fail> {
    match quick_run(&mut store, format, 99, text) {
        Some(outcome) => Ok(Scanned::new(outcome, store)),
        None => Err(Fail::new("a record is read")),
    }
}

/// The whole scan has the values of the last record, and gives the store back.
fn is_whole(scanned: Scanned<HeapStore>) -> Result<(), Fail> {
    RECORDS[3].is_told(&scanned.report())?;
    let text = Some(Value::Text(b"abc"));
    is(&scanned.into_store().value(2), &text, &"the store")
}

#[test]
fn scanned_of_a_record(rt: HostRuntime) -> Result<(), Fail> {
    let format = RECORDS[3].parsed(rt.alloc())?;
    let store = HeapStore::new(rt.alloc(), 8)?;
    is_whole(scanned_of(store, &format, RECORDS[3].text)?)
}
