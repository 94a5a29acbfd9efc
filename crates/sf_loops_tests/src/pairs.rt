//! Lists of rows by a pair.
ghost use Rattle.std.specs.Prelude.{◌≤◌};

use crate::answers::{LIMIT, fault_said, is, newlines_of};
use sf_format::{PrintFormat, Profile, ScanFormat};
use sf_pair::Pair;
use sf_pair_read::{ReadRowsFault, WriteRowsFault, read_rows, write_rows};
use sf_print::ListSink;
use sf_read::{Lookahead, ReadStep, ScanRowFault, ScriptSource};
use sf_run::Ending;
use std::alloc::Global;
use std::test::Fail;

const PRINT: &[u8] = b"%d,%d\n";

const SCAN: &[u8] = b"%3d,%3d%*1[\n]";

static TEXT: &[u8] = b"12,-7\n-99,999\n0,3\n";

static ROWS: [(i32, i32); 3] = [(12, -7), (-99, 999), (0, 3)];

/// Whether the rows are the first of ROWS.
fn are_first(rows: &[(i32, i32)]) -> bool {
    ROWS.get(..rows.len()) == Some(rows)
}

/// Why reading stopped, as text: the row at which a read failed, or what the fault says.
fn stop_said(alloc: Global, fault: &ReadRowsFault) -> Result<String, Fail> {
    if let ScanRowFault::Failed(outcome) = fault.why {
        if outcome.met == Some(Ending::Fault) {
            return Ok(format!(in alloc; "read fault at {}", fault.row)?);
        }
    }
    fault_said(alloc, fault)
}

/// What reading came to, as text: how many rows, if they are the first of ROWS; or why it stopped.
fn said(alloc: Global, answer: &Result<Vec<(i32, i32)>, ReadRowsFault>) -> Result<String, Fail> {
    match answer {
        Ok(rows) => Ok(format!(in alloc; "{} {}", rows.len(), are_first(rows))?),
        Err(fault) => stop_said(alloc, fault),
    }
}

/// At most so many rows, read in blocks of N bytes, come to this.
fn in_blocks<const N: usize>(
    alloc: Global,
    steps: &[ReadStep<'_>],
    pair: &Pair<'_>,
    most: usize,
    wanted: &str,
) -> Result<(), Fail>
    requires few { N ≤ 4096 }
    requires some { 1 ≤ N }
{
    let mut from = Lookahead::<ScriptSource<'_>, N>::new(ScriptSource::new(steps));
    let answer = read_rows(alloc, &mut from, pair, LIMIT, most);
    is(&said(alloc, &answer)?, wanted, most)
}

/// The same, in blocks of each length.
fn in_all_blocks(
    alloc: Global,
    steps: &[ReadStep<'_>],
    pair: &Pair<'_>,
    most: usize,
    wanted: &str,
) -> Result<(), Fail> {
    in_blocks::<1>(alloc, steps, pair, most, wanted)?;
    in_blocks::<2>(alloc, steps, pair, most, wanted)?;
    in_blocks::<3>(alloc, steps, pair, most, wanted)?;
    in_blocks::<7>(alloc, steps, pair, most, wanted)?;
    in_blocks::<4096>(alloc, steps, pair, most, wanted)
}

/// What is said of TEXT where the read fails that comes after so many of its newlines.
static FAULTS: [&str; 4] = [
    "read fault at 1",
    "read fault at 2",
    "read fault at 3",
    "3 true",
];

/// The rows of TEXT, with a read that fails after so many of its bytes.
fn with_failure(alloc: Global, pair: &Pair<'_>, cut: usize) -> Result<(), Fail> {
    let (front, rest) = TEXT.split_at(cut.min(TEXT.len()));
    let Some(wanted) = FAULTS.get(newlines_of(front)) else {
        return Err(Fail::new("too many newlines"));
    };
    let steps = [ReadStep::Give(front), ReadStep::Fail, ReadStep::Give(rest)];
    in_all_blocks(alloc, &steps, pair, 3, wanted)
}

/// The rows of TEXT: whole, and with a read that fails after each of its bytes.
fn cut_anywhere(alloc: Global, pair: &Pair<'_>) -> Result<(), Fail> {
    let whole = [ReadStep::Give(TEXT)];
    in_all_blocks(alloc, &whole, pair, 2, "2 true")?;
    in_all_blocks(alloc, &whole, pair, 4, "3 true")?;
    for cut in 0..=TEXT.len() {
        with_failure(alloc, pair, cut)?;
    }
    Ok(())
}

#[test]
fn rows_are_read_in_blocks(rt: HostRuntime) -> Result<(), Fail> {
    let print = PrintFormat::parse(rt.alloc(), Profile::One, PRINT)?;
    let scan = ScanFormat::parse(rt.alloc(), Profile::One, SCAN)?;
    let pair = Pair::check(&print, &scan)?;
    cut_anywhere(rt.alloc(), &pair)
}

/// Of these rows this is written; answers the fault, if there is one.
fn written(
    alloc: Global,
    pair: &Pair<'_>,
    rows: &[(i32, i32)],
    text: &[u8],
) -> Result<Option<WriteRowsFault>, Fail> {
    let mut sink = ListSink::new(alloc);
    let answer = write_rows(&mut sink, pair, rows);
    if sink.bytes() == text {
        return Ok(answer.err());
    }
    Err(Fail::new("another text"))
}

/// Rows are written as printf writes them, up to the first that would not come back.
fn are_written(alloc: Global, pair: &Pair<'_>) -> Result<(), Fail> {
    if written(alloc, pair, &ROWS, TEXT)?.is_some() {
        return Err(Fail::new("a fault"));
    }
    match written(alloc, pair, &[(1, 2), (3, 1000), (5, 6)], b"1,2\n")? {
        None => Err(Fail::new("no fault")),
        Some(fault) => is(&fault_said(alloc, &fault)?, "row 2: values do not fit", 2),
    }
}

#[test]
fn rows_are_written(rt: HostRuntime) -> Result<(), Fail> {
    let print = PrintFormat::parse(rt.alloc(), Profile::One, PRINT)?;
    let scan = ScanFormat::parse(rt.alloc(), Profile::One, SCAN)?;
    let pair = Pair::check(&print, &scan)?;
    are_written(rt.alloc(), &pair)
}
