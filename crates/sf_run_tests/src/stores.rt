//! Scanners over a store that was used before, and a text of many pieces.
use crate::runs::ended;
use sf_base::{HeapStore, Store, Value};
use sf_format::{Profile, ScanFormat};
use sf_rows::{LIMIT, Met, Told, has_values, is};
use sf_run::{Ending, Report, Scanned, Scanner, StartFault, Status};
use std::alloc::Global;
use std::test::Fail;

/// A format, a text, and the values.
type Use = (&'static [u8], &'static [u8], &'static [Value<'static>]);

/// The last one wants more room than there is.
static USES: [Use; 4] = [
    (b"%s %d", b"up 7", &[Value::Text(b"up"), Value::I32(7)]),
    (b"%d", b"-12", &[Value::I32(-12)]),
    (b"%2s%1c", b"abc", &[Value::Text(b"ab"), Value::Text(b"c")]),
    (b"%5000s", b"wider", &[Value::Text(b"wider")]),
];

/// What a scanner over the store comes to on the text.
fn scanned_over(
    alloc: Global,
    store: HeapStore,
    format: &ScanFormat,
    text: &[u8],
) -> Result<Scanned<HeapStore>, Fail> {
    let mut scanner = Scanner::over(alloc, store, format, LIMIT)?;
    scanner.feed(text);
    scanner.end(Ending::End);
    ended(scanner)
}

/// The run is Done, with the values of the row.
fn is_use(report: &Report<'_, HeapStore>, row: &Use) -> Result<(), Fail> {
    is(&report.outcome().status, &Status::Done, row)?;
    has_values(report, row.2, row)
}

/// A scan of the row over the store, which is then given back, with the values.
fn over(alloc: Global, store: HeapStore, row: &Use) -> Result<HeapStore, Fail> {
    let format = ScanFormat::parse(alloc, Profile::One, row.0)?;
    let scanned = scanned_over(alloc, store, &format, row.1)?;
    let outcome = scanned.outcome();
    let store = scanned.into_store();
    is_use(&Report::new(outcome, &store), row)?;
    Ok(store)
}

/// No scanner is made over the store under a limit too great.
fn is_refused(alloc: Global, store: HeapStore) -> Result<(), Fail> {
    let format = ScanFormat::parse(alloc, Profile::One, b"%d")?;
    let refused = Scanner::over(alloc, store, &format, 2147483648).err();
    is(&refused, &Some(StartFault::BadLimit), &"limit")
}

#[test]
fn a_store_is_used_again(rt: HostRuntime) -> Result<(), Fail> {
    let mut store = HeapStore::new(rt.alloc(), 0)?;
    for row in &USES {
        store = over(rt.alloc(), store, row)?;
    }
    is(&(store.room() >= 4995), &true, &"room")?;
    is_refused(rt.alloc(), store)
}

const LETTERS: &[u8] =
    b"aaaaaaaaaabbbbbbbbbbccccccccccddddddddddeeeeeeeeeeffffffffffgggggggggghhhhhhhhhhiiiiiiiiiijjjjjjjjjj";

/// What the scanner comes to on the letters a thousand times.
fn letters_scanned(alloc: Global, format: &ScanFormat) -> Result<Scanned<HeapStore>, Fail> {
    let mut scanner = Scanner::new(alloc, format, LIMIT)?;
    for _ in 0..1000u16 {
        scanner.feed(LETTERS);
    }
    scanner.end(Ending::End);
    ended(scanner)
}

/// How many bytes a text of the letters has, and whether it begins and ends as they do.
fn outline(value: Value<'_>) -> (usize, bool) {
    let Value::Text(text) = value else {
        return (0, false);
    };
    let ends = text.starts_with(b"aaaaaaaaaab") && text.ends_with(b"ijjjjjjjjjj");
    (text.len(), ends)
}

/// The report has all of the letters in the first slot; or memory was refused, and the bytes before stand in no slot.
fn has_letters(report: &Report<'_, HeapStore>) -> Result<(), Fail> {
    let value = report.value(1).map(outline);
    if report.outcome().status == Status::NoMemory {
        return is(&value, &None, &"value");
    }
    let wanted = Told::Done(1, 100000, Met::End).outcome();
    is(
        &(report.outcome(), value),
        &(wanted, Some((100000, true))),
        &"the letters",
    )
}

#[test]
fn a_long_text_is_stored(rt: HostRuntime) -> Result<(), Fail> {
    let format = ScanFormat::parse(rt.alloc(), Profile::One, b"%s")?;
    has_letters(&letters_scanned(rt.alloc(), &format)?.report())
}
