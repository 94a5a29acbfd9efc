//! Every row of a scan from scripted sources: blocks of all lengths, and each read that fails.
ghost use Rattle.std.specs.Prelude.{◌≤◌};

use sf_base::{Store, Value};
use sf_format::{Profile, ScanFormat};
use sf_read::{Lookahead, ReadStep, ScriptSource, fscan, fscan_fixed};
use sf_rows::{LIMIT, ScanRow, is, scans};
use sf_run::{Ending, Report, StartFault};
use std::alloc::Global;
use std::test::Fail;

/// A row with its format, and a format that takes all bytes which the row leaves.
#[derive(Drop)]
struct Case<'a> {
    row: &'a ScanRow,
    format: &'a ScanFormat,
    rest: &'a ScanFormat,
}

/// A script that is read by blocks of N bytes.
type Blocks<'a, const N: usize> = Lookahead<ScriptSource<'a>, N>;

/// Gives the text, at most so many bytes at once.
fn in_pieces<'a>(alloc: Global, text: &'a [u8], most: usize) -> Result<Vec<ReadStep<'a>>, Fail> {
    let mut steps = Vec::new(alloc);
    for piece in text.chunks(most.max(1)) {
        steps.push(ReadStep::Give(piece))?;
    }
    Ok(steps)
}

/// The text that the row leaves.
fn left_of(row: &ScanRow) -> Option<Value<'_>> {
    match row.text.get(row.used()..) {
        Some(left) if !left.is_empty() => Some(Value::Text(left)),
        _ => None,
    }
}

/// The scan reports what the row says, and the next one takes what the row leaves.
fn reports<S: Store, const N: usize>(
    alloc: Global,
    case: &Case<'_>,
    report: &Report<'_, S>,
    from: &mut Blocks<'_, N>,
) -> Result<(), Fail> {
    case.row.is_told(report)?;
    let next = fscan(alloc, from, case.rest, LIMIT)?;
    is(&next.report().value(1), &left_of(case.row), &case.row.text)
}

/// The row over a store that grows.
fn by_blocks<const N: usize>(
    alloc: Global,
    case: &Case<'_>,
    from: &mut Blocks<'_, N>,
) -> Result<(), Fail> {
    let scanned = fscan(alloc, from, case.format, case.row.limit)?;
    reports(alloc, case, &scanned.report(), from)
}

/// The row over a store of fixed capacity, which is refused where the format has no width sum.
fn by_fixed_blocks<const N: usize>(
    alloc: Global,
    case: &Case<'_>,
    from: &mut Blocks<'_, N>,
) -> Result<(), Fail> {
    match fscan_fixed::<16, 4, _, N>(from, case.format, case.row.limit) {
        Ok(scanned) => reports(alloc, case, &scanned.report(), from),
        Err(fault) => is(
            &(fault, case.format.width_sum()),
            &(StartFault::Unbounded, None),
            &case.row.text,
        ),
    }
}

/// The row over both stores.
fn over_both_stores<const N: usize>(
    alloc: Global,
    case: &Case<'_>,
    steps: &[ReadStep<'_>],
) -> Result<(), Fail>
    requires few { N ≤ 4096 }
    requires some { 1 ≤ N }
{
    by_blocks(
        alloc,
        case,
        &mut Blocks::<'_, N>::new(ScriptSource::new(steps)),
    )?;
    by_fixed_blocks(
        alloc,
        case,
        &mut Blocks::<'_, N>::new(ScriptSource::new(steps)),
    )
}

/// The row by blocks of each length, from a source that gives at most so many bytes at once.
fn by_all_blocks(alloc: Global, case: &Case<'_>, steps: &[ReadStep<'_>]) -> Result<(), Fail> {
    over_both_stores::<1>(alloc, case, steps)?;
    over_both_stores::<2>(alloc, case, steps)?;
    over_both_stores::<3>(alloc, case, steps)?;
    over_both_stores::<7>(alloc, case, steps)?;
    over_both_stores::<4096>(alloc, case, steps)
}

/// The read after so many bytes fails. Where the run has ended by then, the report is the row's, and nothing has
/// failed; else the run has met the failure, and used all before it: none of it is held.
fn meets_failure<S: Store>(
    row: &ScanRow,
    report: &Report<'_, S>,
    count: usize,
    left: (usize, u64),
) -> Result<(), Fail> {
    if row.has_ended(count) {
        row.is_told(report)?;
        return is(&left.1, &0, &(row.text, count));
    }
    let outcome = report.outcome();
    let found = (outcome.met, outcome.used as usize, left);
    is(
        &found,
        &(Some(Ending::Fault), count, (0, 1)),
        &(row.text, count),
    )
}

/// The row by blocks of 7 bytes from a script, which is lent. Its read after so many bytes fails.
fn with_failure(
    alloc: Global,
    case: &Case<'_>,
    script: &mut ScriptSource<'_>,
    count: usize,
) -> Result<(), Fail> {
    let mut from = Lookahead::<&mut ScriptSource<'_>, 7>::new(script);
    let scanned = fscan(alloc, &mut from, case.format, case.row.limit)?;
    let left = (from.held().len(), from.source().failures());
    meets_failure(case.row, &scanned.report(), count, left)
}

/// Gives the one text in pieces of at most so many bytes, then fails, and then gives the other.
fn failing<'a>(
    alloc: Global,
    front: &'a [u8],
    back: &'a [u8],
    most: usize,
) -> Result<Vec<ReadStep<'a>>, Fail> {
    let mut steps = in_pieces(alloc, front, most)?;
    steps.push(ReadStep::Fail)?;
    steps.push(ReadStep::Give(back))?;
    Ok(steps)
}

/// The row with one read that fails, at each place.
fn fails_at_each_place(alloc: Global, case: &Case<'_>, most: usize) -> Result<(), Fail> {
    for count in 0..case.row.text.len() + 1 {
        let (front, back) = case.row.text.split_at(count);
        let steps = failing(alloc, front, back, most)?;
        with_failure(alloc, case, &mut ScriptSource::new(&steps), count)?;
    }
    Ok(())
}

static MOST: [usize; 4] = [1, 2, 3, 4096];

/// The row from sources that give few bytes at once, and more.
fn from_scripts(alloc: Global, row: &ScanRow, rest: &ScanFormat) -> Result<(), Fail> {
    let format = row.parsed(alloc)?;
    let case = Case {
        row,
        format: &format,
        rest,
    };
    for most in &MOST {
        by_all_blocks(alloc, &case, &in_pieces(alloc, row.text, *most)?)?;
        fails_at_each_place(alloc, &case, *most)?;
    }
    Ok(())
}

/// The rows of a table.
fn all_from_scripts(alloc: Global, rows: &[ScanRow], rest: &ScanFormat) -> Result<(), Fail> {
    for row in rows {
        from_scripts(alloc, row, rest)?;
    }
    Ok(())
}

#[test]
fn blocks_and_reads_that_fail(rt: HostRuntime) -> Result<(), Fail> {
    let rest = ScanFormat::parse(rt.alloc(), Profile::One, b"%255[\x01-\xff]")?;
    for rows in scans() {
        all_from_scripts(rt.alloc(), rows, &rest)?;
    }
    Ok(())
}
