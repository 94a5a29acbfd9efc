//! The records of a text, one after the other.
ghost use Rattle.std.specs.Prelude.{◌≡◌, ◌⊎◌, ◌<◌, ◌≤◌, ◌↔◌, ◌+◌, ◌-◌, ◌^◌, ◌++◌, ℕ, List, pos, length, take, drop};
ghost use Rattle.std.specs.Prelude.{None, true, false};
ghost use Rattle.sf_c.specs.declared.values.SfValue.{SfValue};
ghost use Rattle.sf_c.specs.Formats.{IsNoScanFormat};
ghost use Rattle.sf_c.specs.Numbers.{profile_of};
ghost use Rattle.sf_c.specs.Records.{AreCutShort, AreEnded, IsCutShort, IsEnded, IsFirstLine, IsGoing};
ghost use Rattle.sf_c.specs.Fronts.{IsFront};
ghost use Rattle.sf_c.specs.Scans.{HasNoRoom, slots_in};
ghost use Rattle.sf_c.specs.Values.{IsRow};

use crate::codes::{BAD_LIMIT, NO_MEMORY, NO_ROOM, OK, TEXT};
use crate::formats::scan_format_of;
use crate::kinds::put_scan_kinds;
use crate::lines::put_lines;
use crate::outcome::{SfOutcome, nothing, outcome_by, outcome_too_long};
use crate::rows::{put_row, texts_len};
use crate::scan::{MOST_TEXTS, refuse};
use crate::values::SfValue;
use memchr::memchr;
use sf_base::HeapStore;
use sf_format::ScanFormat;
use sf_read::sscan_over;
use sf_run::{MOST_BYTES, Outcome, Report, Scanned, Status};
use sf_scanf::is_end;
use std::alloc::Global;

/// How far the records of a text were scanned.
#[repr(C)]
#[derive(Clone, Copy, Debug, PartialEq, Eq)]
pub struct SfDone {
    /// How many records have their values.
    pub records: usize,
    /// How many bytes of the text they have.
    pub used: usize,
    /// How many bytes of their texts were written.
    pub filled: usize,
    /// How many bytes the run after them used that is no record: of a line all, with its newline.
    pub failed: usize,
}

/// What stands there before a call.
pub(crate) const fn nothing_done() -> SfDone
    ensures { result ≡ record {
      records = 0;
      used = 0;
      filled = 0;
      failed = 0;
    } }
{
    SfDone {
        records: 0,
        used: 0,
        filled: 0,
        failed: 0,
    }
}

/// How many bytes the first line of a text has, and with its newline.
#[derive(Clone, Copy)]
struct Line {
    len: usize,
    whole: usize,
}

/// The first line of a text.
fn first_line(text: &[u8]) -> Line
    ensures { IsFirstLine text.now result.len result.whole }
{
    match memchr(b'\n', text) {
        Some(len) => Line {
            len,
            whole: len + 1,
        },
        None => Line {
            len: text.len(),
            whole: text.len(),
        },
    }
}

/// The run at the front of a text.
#[derive(Drop)]
pub(crate) enum Front {
    /// What it came to, and how many bytes its record has.
    Run(Scanned<HeapStore>, usize),
    /// The line is longer than the limit; it has so many bytes with its newline.
    TooLong(usize),
    /// Memory was refused.
    NoMemory,
}

/// Runs the format at the front of a text, which has bytes: over all of it, or over its first line.
#[inline(always)]
fn scan_front(
    alloc: Global,
    store: HeapStore,
    text: &[u8],
    lines: bool,
    format: &ScanFormat,
    limit: u32,
) -> Front
    requires limit { limit ≤ 2147483647 }
    requires some { 0 < length text.now }
    ensures front { IsFront lines format.now limit text.now result }
{
    if lines {
        let line = first_line(text);
        if line.len > limit as usize {
            return Front::TooLong(line.whole);
        }
        return match sscan_over(alloc, store, &text[..line.len], format, limit) {
            Ok(scanned) => Front::Run(scanned, line.whole),
            Err(_) => Front::NoMemory,
        };
    }
    match sscan_over(alloc, store, text, format, limit) {
        Ok(scanned) => {
            let used = scanned.outcome().used as usize;
            Front::Run(scanned, used)
        }
        Err(_) => Front::NoMemory,
    }
}

/// Whether there is a record: where a loop over records goes on, or by lines where the run is Done.
#[inline(always)]
fn is_taken(outcome: Outcome, lines: bool, format: &ScanFormat) -> bool
    ensures going { lines ≡ false → (result ≡ true ↔ IsGoing format.now outcome) }
    ensures line { lines ≡ true → (result ≡ true ↔ (outcome.status ≡ Status.Done)) }
{
    let is_done = outcome.status == Status::Done;
    if lines {
        return is_done;
    }
    is_done && outcome.used > 0 && !is_end(format, outcome)
}

/// Writes what the next record gave, and counts it. Answers false where there is no room: nothing has changed then.
#[inline(always)]
fn put_next(
    report: &Report<'_, HeapStore>,
    format: &ScanFormat,
    values: &mut [SfValue],
    at: usize,
    texts: &mut [u8],
    done: &mut SfDone,
    size: usize,
) -> bool
    requires room { at + slots_in format.now ≤ length values.old }
    requires filled { done.old.filled ≤ length texts.old }
    requires used { done.old.used + size < 2 ^ 64 }
    requires few { done.old.records + 1 < 2 ^ 64 }
    ensures full { result ≡ false → (values.new ≡ values.old) × (texts.new ≡ texts.old) × (done.new ≡ done.old) }
    ensures no_room { result ≡ false → HasNoRoom format.now report.now (length values.old)
        (length texts.old - done.old.filled) }
    ensures row { result ≡ true → (row : List SfValue)
        × (take (at + slots_in format.now) values.new ≡ take at values.old ++ row)
        × IsRow (take done.new.filled texts.new) format.now report.now.values row }
    ensures before { result ≡ true → (more : List ℕ)
        × (take done.new.filled texts.new ≡ take done.old.filled texts.old ++ more) }
    ensures records { result ≡ true → done.new.records ≡ done.old.records + 1 }
    ensures size { result ≡ true → done.new.used ≡ done.old.used + size }
    ensures within { result ≡ true → done.new.filled ≤ length texts.new }
    ensures failed { done.new.failed ≡ done.old.failed }
{
    let room = (texts.len() - done.filled).min(MOST_TEXTS);
    let Some(len) = texts_len(report, format.destinations(), room) else {
        return false;
    };
    put_row(report, format, values, at, texts, done.filled);
    done.records += 1;
    done.used += size;
    done.filled += len;
    true
}

/// Scans the records of a text one after the other.
fn scan_records(
    alloc: Global,
    first: HeapStore,
    format: &ScanFormat,
    text: &[u8],
    lines: bool,
    limit: u32,
    values: &mut [SfValue],
    texts: &mut [u8],
    outcome: &mut SfOutcome,
    done: &mut SfDone,
) -> i32
    requires limit { limit ≤ 2147483647 }
    requires nothing { done.old ≡ record {
      records = 0;
      used = 0;
      filled = 0;
      failed = 0;
    } }
    ensures ended { result ≡ pos 0
        → AreEnded lines format.now limit text.now outcome.new done.new values.new texts.new }
    ensures full { result ≡ pos 4 → AreCutShort lines format.now limit text.now done.new values.new texts.new }
    ensures codes { (result ≡ pos 0) ⊎ ((result ≡ pos 3) ⊎ (result ≡ pos 4)) }
{
    let slots = format.destinations();
    let mut block = [0; 32];
    put_scan_kinds(format, slots, &mut block);
    let kinds = &block[..slots as usize];
    let numbers = !kinds.contains(&TEXT);
    let mut store = first;
    let mut at = put_lines(
        lines, numbers, &mut store, format, slots, kinds, text, limit, values, 0, done,
    );
    'records: while done.used < text.len() {
        if values.len() - at < slots as usize {
            return NO_ROOM;
        }
        match scan_front(alloc, store, &text[done.used..], lines, format, limit) {
            Front::NoMemory => return NO_MEMORY,
            Front::TooLong(size) => {
                *outcome = outcome_too_long(slots);
                done.failed = size;
                return OK;
            }
            Front::Run(scanned, size) => {
                let report = scanned.report();
                *outcome = outcome_by(&report, slots);
                if !is_taken(scanned.outcome(), lines, format) {
                    done.failed = size;
                    return OK;
                }
                if !put_next(&report, format, values, at, texts, done, size) {
                    return NO_ROOM;
                }
                at += slots as usize;
                store = scanned.into_store();
                at = put_lines(
                    lines, numbers, &mut store, format, slots, kinds, text, limit, values, at, done,
                );
            }
        }
    }
    OK
}

/// As `sf_c_scan_many`.
pub(crate) fn scan_many(
    alloc: Global,
    profile: u8,
    format: &[u8],
    text: &[u8],
    lines: bool,
    limit: u32,
    values: &mut [SfValue],
    texts: &mut [u8],
    outcome: &mut SfOutcome,
    done: &mut SfDone,
) -> i32
    ensures ended { result ≡ pos 0
        → IsEnded profile format.now lines limit text.now outcome.new done.new values.new texts.new }
    ensures full { result ≡ pos 4 → IsCutShort profile format.now lines limit text.now done.new values.new texts.new }
    ensures refused { result ≡ pos 1 → IsNoScanFormat profile format.now outcome.new.fault outcome.new.fault_at }
    ensures limit { result ≡ pos 2 → 2147483647 < limit }
    ensures low { result ≡ pos 0 → limit ≤ 2147483647 }
    ensures profile { result ≡ pos 9 ↔ (profile_of profile ≡ None) }
{
    *outcome = nothing();
    *done = nothing_done();
    let parsed = match scan_format_of(alloc, profile, format) {
        Ok(parsed) => parsed,
        Err(refusal) => return refuse(refusal, outcome),
    };
    outcome.slots = parsed.destinations();
    if limit > MOST_BYTES {
        return BAD_LIMIT;
    }
    let Ok(store) = HeapStore::new(alloc, parsed.reserve()) else {
        return NO_MEMORY;
    };
    scan_records(
        alloc, store, &parsed, text, lines, limit, values, texts, outcome, done,
    )
}
