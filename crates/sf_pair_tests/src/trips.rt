//! Values that are written and read back in pieces, and where each write and each read fails in turn.
ghost use Rattle.std.specs.Prelude.{◌≤◌};

use crate::shared::{found_of, has_read};
use sf_base::Value;
use sf_format::Profile;
use sf_pair::{Pair, WriteFault};
use sf_pair_read::{read_back, read_back_fixed};
use sf_print::{PrintFault, ScriptSink, WriteStep};
use sf_read::{Lookahead, ReadStep, ScriptSource};
use sf_rows::{LIMIT, Met, Told, is, trips};
use sf_run::Ending;
use std::alloc::Global;
use std::test::Fail;

/// How many writes a script has, of which one fails.
const WRITES: usize = 24;

/// Whether a front of the text is written, as long as the fault says; or the whole of it, where that is taken before.
fn is_written_up_to(
    alloc: Global,
    pair: &Pair<'_>,
    values: &[Value<'_>],
    text: &[u8],
    steps: &[WriteStep],
    taken: usize,
) -> bool {
    let mut to = ScriptSink::new(alloc, steps);
    let told = match pair.write(&mut to, values) {
        Ok(count) => count as usize == text.len() && text.len() <= taken,
        Err(WriteFault::Print(PrintFault::Sink { written })) => written as usize == taken
            && taken < text.len(),
        Err(_) => false,
    };
    told && to.bytes() == text.get(..taken).unwrap_or(text)
}

/// The first script by which the text isn't written as the fault says: each write takes at most so many bytes, and the
/// one after so many writes fails.
fn write_fault(
    alloc: Global,
    pair: &Pair<'_>,
    values: &[Value<'_>],
    text: &[u8],
) -> Option<(usize, usize)> {
    for size in 1..4usize {
        for writes in 0..WRITES {
            let mut steps = [WriteStep::Accept(size); WRITES];
            steps[writes] = WriteStep::Fail;
            if !is_written_up_to(alloc, pair, values, text, &steps, size * writes) {
                return Some((size, writes));
            }
        }
    }
    None
}

/// Whether the values are read back, N bytes at once, from a source that fails right after their text and isn't asked
/// there: over a store that grows, and over one of fixed capacity.
fn are_read<const N: usize>(
    alloc: Global,
    pair: &Pair<'_>,
    values: &[Value<'_>],
    text: &[u8],
) -> bool
    requires few { N ≤ 4096 }
    requires some { 1 ≤ N }
{
    let steps = [ReadStep::Give(text), ReadStep::Fail];
    let mut from = Lookahead::<ScriptSource<'_>, N>::new(ScriptSource::new(&steps));
    let is_read = match read_back(alloc, &mut from, pair, LIMIT) {
        Ok(scanned) => has_read(&scanned, values, text.len()) && from.held().is_empty(),
        Err(_) => false,
    };
    let mut again = Lookahead::<ScriptSource<'_>, N>::new(ScriptSource::new(&steps));
    let is_read_fixed = match read_back_fixed::<32, 4, _, _>(&mut again, pair, LIMIT) {
        Ok(scanned) => has_read(&scanned, values, text.len()),
        Err(_) => false,
    };
    is_read && is_read_fixed && from.source().failures() == 0 && again.source().failures() == 0
}

/// Whether the run ends with the read that fails after so many bytes, has used these, and asks no more.
fn ends_at_failure(alloc: Global, pair: &Pair<'_>, text: &[u8], count: usize) -> bool {
    let (front, back) = text.split_at(count.min(text.len()));
    let steps = [ReadStep::Give(front), ReadStep::Fail, ReadStep::Give(back)];
    let mut from = Lookahead::<ScriptSource<'_>, 7>::new(ScriptSource::new(&steps));
    let Ok(scanned) = read_back(alloc, &mut from, pair, LIMIT) else {
        return false;
    };
    let outcome = scanned.report().outcome();
    outcome.met == Some(Ending::Fault)
        && outcome.used as usize == count
        && from.source().failures() == 1
        && from.held().is_empty()
}

/// The first count of bytes after which a read that fails doesn't end the run.
fn read_fault(alloc: Global, pair: &Pair<'_>, text: &[u8]) -> Option<usize> {
    for count in 0..text.len() {
        if !ends_at_failure(alloc, pair, text, count) {
            return Some(count);
        }
    }
    None
}

/// Why the values don't go there and back, by the text.
fn fault(
    alloc: Global,
    pair: &Pair<'_>,
    values: &[Value<'_>],
    text: &[u8],
) -> Option<&'static str> {
    if write_fault(alloc, pair, values, text).is_some() {
        return Some("a write");
    }
    if read_fault(alloc, pair, text).is_some() {
        return Some("a read that fails");
    }
    let are_read = are_read::<1>(alloc, pair, values, text)
        && are_read::<2>(alloc, pair, values, text)
        && are_read::<3>(alloc, pair, values, text)
        && are_read::<64>(alloc, pair, values, text);
    if are_read { None } else { Some("a read") }
}

#[test]
fn values_there_and_back(rt: HostRuntime) -> Result<(), Fail> {
    let alloc = rt.alloc();
    for &(profile, print, scan, values, text) in trips() {
        let fault = found_of(alloc, profile, print, scan, |pair| {
            fault(alloc, pair, values, text)
        })?;
        is(&fault, &None, &text)?;
    }
    Ok(())
}

/// Whether the text of a record is read, and what follows it is left.
fn leaves_the_rest(pair: &Pair<'_>) -> bool {
    let steps = [
        ReadStep::Give(b"-004"),
        ReadStep::Give(b"20079"),
        ReadStep::Give(b"9"),
    ];
    let mut from = Lookahead::<ScriptSource<'_>, 16>::new(ScriptSource::new(&steps));
    match read_back_fixed::<0, 2, _, _>(&mut from, pair, LIMIT) {
        Ok(scanned) => scanned.report().outcome() == Told::Done(2, 8, Met::Nothing).outcome()
            && has_read(&scanned, &[Value::I32(-42), Value::U32(7)], 8)
            && from.held() == b"9".as_slice(),
        Err(_) => false,
    }
}

#[test]
fn the_rest_is_left(rt: HostRuntime) -> Result<(), Fail> {
    let alloc = rt.alloc();
    let is_left = found_of(alloc, Profile::One, b"%05d%03u", b"%5d%3u", leaves_the_rest)?;
    is(&is_left, &true, &"the rest")
}
