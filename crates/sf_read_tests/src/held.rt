//! Records that are held whole.
use sf_base::{HeapStore, Store, Value};
use sf_format::{Profile, ScanFormat};
use sf_read::{Lookahead, ReadStep, ScriptSource, fscan, fscan_held, fscan_over, sscan};
use sf_rows::{LIMIT, ScanRow, is, scans};
use sf_run::{Report, Status};
use std::alloc::Global;
use std::test::Fail;

/// A script that is read by blocks of N bytes.
type Blocks<'a, const N: usize> = Lookahead<ScriptSource<'a>, N>;

/// Whether the record is read at once, its values, and how often the source was read by then.
type Record = (bool, i32, i32, u64);

/// The first record is not read yet, the second is held with a byte after it, and the third goes on in the next block.
static RECORDS: [Record; 3] = [(false, 1, 2, 1), (true, 3, 4, 1), (false, 5, 6, 2)];

/// The next record over the store, which is read at once or not.
fn next_over(
    alloc: Global,
    mut store: HeapStore,
    from: &mut Blocks<'_, 16>,
    format: &ScanFormat,
    at_once: bool,
) -> Result<HeapStore, Fail> {
    let is_held = fscan_held(&mut store, from, format, LIMIT).is_some();
    is(&is_held, &at_once, &"read at once")?;
    if is_held {
        return Ok(store);
    }
    Ok(fscan_over(alloc, store, from, format, LIMIT)?.into_store())
}

/// The store and the source are as the record says.
fn is_record(store: &HeapStore, from: &Blocks<'_, 16>, record: &Record) -> Result<(), Fail> {
    let (_, first, second, reads) = record;
    is(
        &[store.value(1), store.value(2)],
        &[Some(Value::I32(*first)), Some(Value::I32(*second))],
        record,
    )?;
    is(&from.source().reads(), reads, record)
}

/// The records one after the other, over one store.
fn are_records(alloc: Global, from: &mut Blocks<'_, 16>, format: &ScanFormat) -> Result<(), Fail> {
    let mut store = HeapStore::new(alloc, 0)?;
    for record in &RECORDS {
        store = next_over(alloc, store, from, format, record.0)?;
        is_record(&store, from, record)?;
    }
    Ok(())
}

#[test]
fn held_records(rt: HostRuntime) -> Result<(), Fail> {
    let steps = [ReadStep::Give(b"1,2\n3,4\n5,"), ReadStep::Give(b"6\n")];
    let mut from = Blocks::<'_, 16>::new(ScriptSource::new(&steps));
    let format = ScanFormat::parse(rt.alloc(), Profile::One, b"%d,%d")?;
    are_records(rt.alloc(), &mut from, &format)
}

/// A whole scan of a text reports what the row says.
fn is_scanned(alloc: Global, row: &ScanRow, format: &ScanFormat, text: &[u8]) -> Result<(), Fail> {
    let scanned = sscan(alloc, text, format, row.limit)?;
    row.is_told(&scanned.report())
}

/// What is read at once of the first bytes of the row's text, which are held, is what the row says, and what a whole
/// scan reports of them. Where nothing is, they are held still.
fn agrees(
    alloc: Global,
    store: &mut HeapStore,
    row: &ScanRow,
    format: &ScanFormat,
    from: &mut Blocks<'_, 256>,
    front: &[u8],
) -> Result<(), Fail> {
    let Some(outcome) = fscan_held(store, from, format, row.limit) else {
        return is(&from.held(), &front, &row.text);
    };
    row.is_told(&Report::new(outcome, store))?;
    is(&Some(from.held()), &front.get(row.used()..), &row.text)?;
    is_scanned(alloc, row, format, front)
}

/// Consumes a byte.
fn take_a_byte(alloc: Global, from: &mut Blocks<'_, 256>) -> Result<(), Fail> {
    let format = ScanFormat::parse(alloc, Profile::One, b"%*c")?;
    fscan(alloc, from, &format, LIMIT)?;
    Ok(())
}

/// A text after a byte.
fn after_a_byte(alloc: Global, text: &[u8]) -> Result<Vec<u8>, Fail> {
    let mut all = b";".to_vec(alloc)?;
    all.extend_from_slice(text)?;
    Ok(all)
}

/// The first bytes of the row's text, which are held once the byte before them is read.
fn front_agrees(
    alloc: Global,
    store: &mut HeapStore,
    row: &ScanRow,
    format: &ScanFormat,
    front: &[u8],
) -> Result<(), Fail> {
    let text = after_a_byte(alloc, front)?;
    let steps = [ReadStep::Give(&text)];
    let mut from = Blocks::<'_, 256>::new(ScriptSource::new(&steps));
    take_a_byte(alloc, &mut from)?;
    agrees(alloc, store, row, format, &mut from, front)
}

/// The row: a whole scan of its text, and the text cut at every place.
fn all_fronts(alloc: Global, store: &mut HeapStore, row: &ScanRow) -> Result<(), Fail> {
    let format = row.parsed(alloc)?;
    is_scanned(alloc, row, &format, row.text)?;
    for count in 0..row.text.len() + 1 {
        let (front, _) = row.text.split_at(count);
        front_agrees(alloc, store, row, &format, front)?;
    }
    Ok(())
}

/// The rows of a table.
fn all_rows(alloc: Global, store: &mut HeapStore, rows: &[ScanRow]) -> Result<(), Fail> {
    for row in rows {
        all_fronts(alloc, store, row)?;
    }
    Ok(())
}

#[test]
fn rows_cut_at_every_place(rt: HostRuntime) -> Result<(), Fail> {
    let mut store = HeapStore::new(rt.alloc(), 0)?;
    for rows in scans() {
        all_rows(rt.alloc(), &mut store, rows)?;
    }
    Ok(())
}

const DIGITS: &str = "1234567890123456789012345";

/// A number, and digits after so many blanks.
fn number_text(alloc: Global, digits: &str, blanks: usize) -> Result<Vec<u8>, Fail> {
    let mut text = b"7".to_vec(alloc)?;
    text.resize(blanks.saturating_add(1), b' ')?;
    text.extend_from_slice(digits.as_bytes())?;
    text.push(b';')?;
    Ok(text)
}

/// The report has the number of the digits, or else it was out of range.
fn is_number(report: &Report<'_, HeapStore>, digits: &str, blanks: usize) -> Result<(), Fail> {
    let wanted = match digits.parse::<u64>() {
        Ok(number) => (Status::Done, Some(Value::U64(number))),
        Err(_) => (Status::OutOfRange, None),
    };
    let found = (report.outcome().status, report.value(1));
    is(&found, &wanted, &(digits, blanks))
}

/// The second number of the source over the store, at once where it is held whole.
fn is_second(
    alloc: Global,
    mut store: HeapStore,
    from: &mut Blocks<'_, 16>,
    format: &ScanFormat,
    (digits, blanks): (&str, usize),
) -> Result<(), Fail> {
    if let Some(outcome) = fscan_held(&mut store, from, format, LIMIT) {
        return is_number(&Report::new(outcome, &store), digits, blanks);
    }
    let scanned = fscan_over(alloc, store, from, format, LIMIT)?;
    is_number(&scanned.report(), digits, blanks)
}

/// A number of these digits after so many blanks, in blocks of sixteen bytes.
fn number_over_blocks(
    alloc: Global,
    format: &ScanFormat,
    digits: &str,
    blanks: usize,
) -> Result<(), Fail> {
    let text = number_text(alloc, digits, blanks)?;
    let steps = [ReadStep::Give(&text)];
    let mut from = Blocks::<'_, 16>::new(ScriptSource::new(&steps));
    let first = HeapStore::new(alloc, 0)?;
    let store = fscan_over(alloc, first, &mut from, format, LIMIT)?.into_store();
    is_second(alloc, store, &mut from, format, (digits, blanks))
}

#[test]
fn numbers_over_block_ends(rt: HostRuntime) -> Result<(), Fail> {
    let format = ScanFormat::parse(rt.alloc(), Profile::One, b"%llu")?;
    for count in 1..26usize {
        let digits = DIGITS.get(..count).unwrap_or(DIGITS);
        for blanks in 1..18usize {
            number_over_blocks(rt.alloc(), &format, digits, blanks)?;
        }
    }
    Ok(())
}
