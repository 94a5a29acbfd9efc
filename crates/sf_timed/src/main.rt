//! Calls of the library whose instructions tests/bench counts. Each prints the sum of the numbers that it reads by
//! `%d,%d`. `records` and `lines` read standard input by the library's loops, `rows` reads it by `scan_row`, `scan`
//! reads it as the command does, and sums what it stored; `sscan TEXT COUNT` scans a text so many times,
//! `over TEXT COUNT` does so over one store, and `row TEXT COUNT` makes a row of it each time. `parse TEXT COUNT`
//! parses a scan format so many times, and prints the sum of all that it counts.
#![tactic(auto)]

use sf_base::{HeapStore, Store, Value};
use sf_format::{Profile, ScanFormat};
use sf_loops::{Lines, Records};
use sf_read::{
    Lookahead, ScanRowFault, Source, StdSource, fscan_held, fscan_over, scan_row, sscan,
    sscan_over, sscan_row,
};
use sf_run::Status;
use std::alloc::Global;
use std::env;

/// The most bytes that one record may have, as `sf scan` allows.
const LIMIT: u32 = 1_048_576;

/// As many bytes as `sf scan` reads at once.
const BLOCK_BYTES: usize = 16_384;

/// The sum, and both numbers of a row.
fn with_both(sum: i64, row: (i32, i32)) -> i64 {
    sum.wrapping_add(i64::from(row.0))
        .wrapping_add(i64::from(row.1))
}

fn sum_records<S: Source>(
    mut records: Records<'_, (i32, i32), S, BLOCK_BYTES>,
) -> anyhow::Result<i64> {
    let mut sum = 0;
    for _ in 0..u64::MAX {
        let Some(row) = records.next()? else {
            break;
        };
        sum = with_both(sum, row);
    }
    Ok(sum)
}

fn sum_lines<S: Source>(mut lines: Lines<'_, (i32, i32), S, BLOCK_BYTES>) -> anyhow::Result<i64> {
    let mut sum = 0;
    for _ in 0..u64::MAX {
        let Some(row) = lines.next()? else {
            break;
        };
        sum = with_both(sum, row);
    }
    Ok(sum)
}

/// The sum, and the numbers that a store keeps in its first three slots, as many as a loop over any format looks at.
#[inline(always)]
fn with_stored<T: Store>(mut sum: i64, store: &T) -> i64 {
    for slot in 1..=3 {
        if let Some(Value::I32(number)) = store.value(slot) {
            sum = sum.wrapping_add(i64::from(number));
        }
    }
    sum
}

fn sum_scans<S: Source>(
    alloc: Global,
    mut from: Lookahead<S, BLOCK_BYTES>,
    format: &ScanFormat,
) -> anyhow::Result<i64> {
    let mut store = HeapStore::new(alloc, 0)?;
    let mut sum = 0;
    for _ in 0..u64::MAX {
        if fscan_held(&mut store, &mut from, format, LIMIT).is_some() {
            sum = with_stored(sum, &store);
            continue;
        }
        let scanned = fscan_over(alloc, store, &mut from, format, LIMIT)?;
        let status = scanned.outcome().status;
        store = scanned.into_store();
        if status != Status::Done {
            break;
        }
        sum = with_stored(sum, &store);
    }
    Ok(sum)
}

fn sum_rows<S: Source>(
    alloc: Global,
    mut from: Lookahead<S, BLOCK_BYTES>,
    format: &ScanFormat,
) -> anyhow::Result<i64> {
    let mut sum = 0;
    for _ in 0..u64::MAX {
        match scan_row::<(i32, i32), S, BLOCK_BYTES>(alloc, &mut from, format, LIMIT) {
            Ok(row) => sum = with_both(sum, row),
            Err(ScanRowFault::Failed(_)) => break,
            Err(fault) => return Err(fault.into()),
        }
    }
    Ok(sum)
}

fn sum_of_text(alloc: Global, text: &[u8], format: &ScanFormat, count: u64) -> anyhow::Result<i64> {
    let mut sum = 0;
    for _ in 0..count {
        let scanned = sscan(alloc, text, format, LIMIT)?;
        let report = scanned.report();
        if let Some(left) = report.get::<i32>(1)
            && let Some(right) = report.get::<i32>(2)
        {
            sum = with_both(sum, (left, right));
        }
    }
    Ok(sum)
}

fn sum_over(alloc: Global, text: &[u8], format: &ScanFormat, count: u64) -> anyhow::Result<i64> {
    let mut store = HeapStore::new(alloc, 0)?;
    let mut sum = 0;
    for _ in 0..count {
        let scanned = sscan_over(alloc, store, text, format, LIMIT)?;
        let report = scanned.report();
        if let Some(left) = report.get::<i32>(1)
            && let Some(right) = report.get::<i32>(2)
        {
            sum = with_both(sum, (left, right));
        }
        store = scanned.into_store();
    }
    Ok(sum)
}

fn sum_text_rows(
    alloc: Global,
    text: &[u8],
    format: &ScanFormat,
    count: u64,
) -> anyhow::Result<i64> {
    let mut sum = 0;
    for _ in 0..count {
        sum = with_both(sum, sscan_row(alloc, text, format, LIMIT)?);
    }
    Ok(sum)
}

fn sum_parses(alloc: Global, text: &[u8], count: u64) -> anyhow::Result<i64> {
    let mut sum: i64 = 0;
    for _ in 0..count {
        let format = ScanFormat::parse(alloc, Profile::One, text)?;
        sum = sum
            .wrapping_add(i64::from(format.destinations()))
            .wrapping_add(i64::from(format.assigned()))
            .wrapping_add(i64::from(format.converted()))
            .wrapping_add(i64::from(format.reserve()))
            .wrapping_add(i64::from(format.has_optional()))
            .wrapping_add(i64::from(format.ends_unbounded()));
    }
    Ok(sum)
}

fn main(rt: HostRuntime) -> anyhow::Result<()> {
    let alloc = rt.alloc();
    let words: Vec<String> = env::args(&rt)?.skip(1).collect(alloc)?;
    let format = ScanFormat::parse(alloc, Profile::One, b"%d,%d")?;
    let source = StdSource::new(rt.stdin());
    let sum = match words.as_slice() {
        [name, text, count] if name.as_str() == "over" => {
            sum_over(alloc, text.as_bytes(), &format, count.parse()?)?
        }
        [name, text, count] if name.as_str() == "row" => {
            sum_text_rows(alloc, text.as_bytes(), &format, count.parse()?)?
        }
        [name, text, count] if name.as_str() == "parse" => {
            sum_parses(alloc, text.as_bytes(), count.parse()?)?
        }
        [_, text, count] => sum_of_text(alloc, text.as_bytes(), &format, count.parse()?)?,
        [name] if name.as_str() == "records" => {
            sum_records(Records::new(alloc, source, &format, LIMIT)?)?
        }
        [name] if name.as_str() == "lines" => {
            sum_lines(Lines::new(alloc, source, &format, LIMIT)?)?
        }
        [name] if name.as_str() == "rows" => sum_rows(alloc, Lookahead::new(source), &format)?,
        _ => sum_scans(alloc, Lookahead::new(source), &format)?,
    };
    println!(rt; "{sum}")?;
    Ok(())
}
