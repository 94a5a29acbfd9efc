//! Scans of whole texts.
ghost use Rattle.std.specs.Prelude.{◌≡◌, ◌<◌, ◌≤◌, ◌+◌, ◌++◌, ◌∷◌, ◌↔◌, ◌⊎◌, ℕ, List, [], length, take, unwrap_or};
ghost use Rattle.std.specs.Prelude.{IfOk, IfErr, IfSome, IsErrOf, IsOk, IsSome};
ghost use Rattle.sf_base.specs.stores.Kept.{buffer_of, nothing_kept};
ghost use Rattle.sf_format.specs.declared.directive.Directive.{Directive};
ghost use Rattle.sf_format.specs.Proper.{destinations_of};
ghost use Rattle.sf_format.specs.Widths.{width_sum};
ghost use Rattle.sf_run.specs.outcome.Status.TheVariants.{Done};
ghost use Rattle.sf_run.specs.Limits.{RunTold, RunWithin};
ghost use Rattle.sf_run.specs.Memory.{HoldsValues, capacity_of};
ghost use Rattle.sf_run.specs.Quick.{IsDoneWithin};
ghost use Rattle.sf_run.specs.Scanner.{kept_by, standing};
ghost use Rattle.sf_run.specs.Standing.{After};
ghost use Rattle.sf_run.specs.Views.{report_by};
ghost use Rattle.sf_read.specs.AtOnce.{IsSeenAtOnce};
ghost use Rattle.sf_read.specs.Reading.{IsFresh};

use sf_base::{HeapStore, Store};
use sf_format::ScanFormat;
use sf_run::laws::{done_runs_stay, open_inputs_are_used};
use sf_run::{
    Ending, MOST_BYTES, Outcome, Scanned, Scanner, StartFault, quick_run, quick_run_into,
};
use std::alloc::Global;

/// A text with fewer bytes is scanned at once, with a newline after it.
const BLOCK: usize = 256;

/// A text that has this many bytes or fewer is laid down in a block of `SHORT_BLOCK` bytes, which takes fewer steps to
/// clear. Sixteen bytes follow the text there, as many as are looked at at once.
const SHORT: usize = 47;

/// How many bytes a short text is laid down in.
const SHORT_BLOCK: usize = 64;

/// Moves a text to the front of the block by its first `W` bytes and its last `W` ones, which may overlap: a move of a
/// constant length takes no call.
#[inline(always)]
fn move_ends<const W: usize>(text: &[u8], block: &mut [u8])
    requires least { W ≤ length text.now }
    requires most { length text.now ≤ W + W }
    requires room { length text.now ≤ length block.old }
    ensures front { take (length text.now) block.new ≡ text.now }
    ensures len { length block.new ≡ length block.old }
{
    let len = text.len();
    block[..W].copy_from_slice(&text[..W]);
    block[len - W..len].copy_from_slice(&text[len - W..]);
}

/// Moves the text to the front of the block.
#[inline(always)]
fn move_to_front(text: &[u8], block: &mut [u8])
    requires { length text.now ≤ length block.old }
    ensures front { take (length text.now) block.new ≡ text.now }
    ensures len { length block.new ≡ length block.old }
{
    let len = text.len();
    if len > 7 {
        if len > 16 {
            block[..len].copy_from_slice(text);
        } else {
            move_ends::<8>(text, block);
        }
    } else if len > 3 {
        move_ends::<4>(text, block);
    } else if len > 1 {
        move_ends::<2>(text, block);
    } else if len > 0 {
        block[0] = text[0];
    }
}

/// Lays down the text at the front of the block, and a newline after it.
#[inline(always)]
fn lay_down(text: &[u8], block: &mut [u8])
    requires { length text.now < length block.old }
    ensures front { take (length text.now + 1) block.new ≡ text.now ++ 10 ∷ [] }
    ensures len { length block.new ≡ length block.old }
{
    move_to_front(text, block);
    block[text.len()] = b'\n';
}

/// As `scan_at_once`, into an empty store that has a slot for each destination of the format, of a text that is laid
/// down in a block of `N` bytes: its result with a newline after it, and whatever follows that, is the result of the
/// text alone. It answers wherever that run is Done before the newline is used; where it uses all of the text, its last
/// item could have gone on.
#[inline(always)]
fn scan_with_newline<K: Store, const N: usize>(
    store: &mut K,
    text: &[u8],
    format: &ScanFormat,
    limit: u32,
) -> Option<Outcome>
    requires empty { K.kept store.old ≡ nothing_kept (K.kept store.old).room }
    requires slots { length (destinations_of format.now) ≤ K.slots }
    requires shorter { length text.now < N }
    requires few { N ≤ BLOCK }
    ensures run { IfSome result (λ outcome. RunWithin format.now limit text.now Ending.End
        (report_by outcome (K.kept store.new).values)) }
    ensures done { IfSome result (λ outcome. outcome.status ≡ Done) }
    ensures answers { IsSeenAtOnce format.now limit text.now (capacity_of (K.kept store.old)) → IsSome result }
    ensures texts { IfSome result (λ _. HoldsValues (K.kept store.new)) }
    ensures room { capacity_of (K.kept store.old) ≤ capacity_of (K.kept store.new) }
{
    let _directives = format.directives();
    let mut block = [0; N];
    lay_down(text, &mut block);
    let outcome = quick_run_into(store, format, limit, &block)?;
    done_runs_stay();
    open_inputs_are_used();
    let len = text.len() as u32;
    if outcome.used != len {
        return if outcome.used < len {
            Some(outcome)
        } else {
            None
        };
    }
    if !format.ends_unbounded() {
        return None;
    }
    Some(Outcome {
        status: outcome.status,
        at: outcome.at,
        assigned: outcome.assigned,
        converted: outcome.converted,
        used: outcome.used,
        met: Some(Ending::End),
    })
}

/// Scans a whole text into an empty store where it stands. None where it isn't seen to be Done: then the store may
/// keep something.
#[inline(always)]
fn scan_in_place(
    store: &mut HeapStore,
    text: &[u8],
    format: &ScanFormat,
    limit: u32,
) -> Option<Outcome>
    requires empty { store.old ≡ nothing_kept store.old.room }
    ensures run { IfSome result (λ outcome. RunWithin format.now limit text.now Ending.End
        (report_by outcome store.new.values)) }
    ensures answers { IsDoneWithin format.now limit text.now (capacity_of store.old) → IsSome result }
    ensures texts { IfSome result (λ _. HoldsValues store.new) }
    ensures room { capacity_of store.old ≤ capacity_of store.new }
{
    let _destinations = format.destinations();
    quick_run_into(store, format, limit, text)
}

/// Scans a whole text into an empty store without a scanner, where it is seen at once to be Done: with a newline after
/// it, or where it stands, if it is long or ends in a newline. None where it isn't Done, or that isn't known here: then
/// the store may keep something.
#[inline(always)]
fn scan_at_once(
    store: &mut HeapStore,
    text: &[u8],
    format: &ScanFormat,
    limit: u32,
) -> Option<Outcome>
    requires empty { store.old ≡ nothing_kept store.old.room }
    ensures run { IfSome result (λ outcome. RunWithin format.now limit text.now Ending.End
        (report_by outcome store.new.values)) }
    ensures answers { IsDoneWithin format.now limit text.now (capacity_of store.old) → IsSome result }
    ensures ended { length text.now < 256 → IsSeenAtOnce format.now limit text.now (capacity_of store.old)
        → IsSome result }
    ensures texts { IfSome result (λ _. HoldsValues store.new) }
    ensures room { capacity_of store.old ≤ capacity_of store.new }
{
    let _destinations = format.destinations();
    if text.len() <= SHORT {
        let outcome = scan_with_newline::<HeapStore, SHORT_BLOCK>(store, text, format, limit);
        if outcome.is_some() || !text.ends_with(b"\n") {
            return outcome;
        }
        store.clear();
        return scan_in_place(store, text, format, limit);
    }
    if text.len() >= BLOCK {
        return scan_in_place(store, text, format, limit);
    }
    if text.ends_with(b"\n") {
        if let Some(outcome) = scan_in_place(store, text, format, limit) {
            return Some(outcome);
        }
        store.clear();
    }
    scan_with_newline::<HeapStore, BLOCK>(store, text, format, limit)
}

/// Scans a short text into an empty store that has a slot for each destination of the format, where it is seen at once
/// to be Done. None where it is long or isn't Done, or that isn't known here: then the store may keep something.
#[inline(always)]
pub(crate) fn scan_short<K: Store>(
    store: &mut K,
    text: &[u8],
    format: &ScanFormat,
    limit: u32,
) -> Option<Outcome>
    requires empty { K.kept store.old ≡ nothing_kept (K.kept store.old).room }
    requires slots { length (destinations_of format.now) ≤ K.slots }
    ensures run { IfSome result (λ outcome. RunWithin format.now limit text.now Ending.End
        (report_by outcome (K.kept store.new).values)) }
    ensures done { IfSome result (λ outcome. outcome.status ≡ Done) }
    ensures answers { length text.now ≤ 47 → IsSeenAtOnce format.now limit text.now (capacity_of (K.kept store.old))
        → IsSome result }
{
    if text.len() > SHORT {
        return None;
    }
    scan_with_newline::<K, SHORT_BLOCK>(store, text, format, limit)
}

/// What the run of the scanner comes to, over a whole text.
fn run_over<S: Store>(mut scanner: Scanner<'_, S>, text: &[u8]) -> Scanned<S>
    requires { IsFresh (standing scanner) }
    ensures told { (ds : List Directive) (m : ℕ) → After ds m (standing scanner.entry) []
        → RunTold ds m text.now Ending.End result.report }
    ensures bounded { (ds : List Directive) (m : ℕ) → After ds m (standing scanner.entry) [] → IsSome (width_sum ds)
        → RunWithin ds m text.now Ending.End result.report }
    ensures room { capacity_of (kept_by scanner.entry) ≤ capacity_of result.kept }
{
    scanner.feed(text);
    scanner.end(Ending::End);
    match scanner.into_scanned() {
        Ok(scanned) => scanned,
        Err(_) => unreachable!(),
    }
}

/// As `sscan_over`, by a scanner. It stands in its callers' code, so that room for a scanner is made only where one is
/// needed.
#[inline(always)]
fn scan_by_scanner(
    alloc: Global,
    store: HeapStore,
    text: &[u8],
    format: &ScanFormat,
    limit: u32,
) -> Result<Scanned<HeapStore>, StartFault>
    ensures report { IfOk result (λ s. RunTold format.now limit text.now Ending.End s.report) }
    ensures bounded { IsSome (width_sum format.now) → IfOk result
        (λ s. RunWithin format.now limit text.now Ending.End s.report) }
    ensures limit { IsErrOf result StartFault.BadLimit ↔ (2147483647 < limit) }
    ensures memory { IfErr result (λ fault. (fault ≡ StartFault.BadLimit) ⊎ (fault ≡ StartFault.NoMemory)) }
    ensures enough { limit ≤ 2147483647 → unwrap_or (width_sum format.now) 0 ≤ store.room + length (buffer_of store)
        → IsOk result }
    ensures room { IfOk result (λ s. unwrap_or (width_sum format.now) 0 ≤ capacity_of s.kept) }
    ensures as_much { IfOk result (λ s. capacity_of store ≤ capacity_of s.kept) }
{
    let scanner = Scanner::over(alloc, store, format, limit)?;
    Ok(run_over(scanner, text))
}

/// Scans a whole text by a format, as sscanf does (C11 7.21.6.7). The run consumes at most `limit` bytes.
///
/// Refuses a limit above 2147483647 with BadLimit; then it answers NoMemory where memory was refused. Where memory for
/// a text is refused later, the report has it; a format with a width sum needs none then.
#[inline(always)]
pub fn sscan(
    alloc: Global,
    text: &[u8],
    format: &ScanFormat,
    limit: u32,
) -> Result<Scanned<HeapStore>, StartFault>
    ensures report { IfOk result (λ s. RunTold format.now limit text.now Ending.End s.report) }
    ensures bounded { IsSome (width_sum format.now) → IfOk result
        (λ s. RunWithin format.now limit text.now Ending.End s.report) }
    ensures limit { IsErrOf result StartFault.BadLimit ↔ (2147483647 < limit) }
    ensures memory { IfErr result (λ fault. (fault ≡ StartFault.BadLimit) ⊎ (fault ≡ StartFault.NoMemory)) }
    ensures room { IfOk result (λ s. unwrap_or (width_sum format.now) 0 ≤ capacity_of s.kept) }
{
    if limit > MOST_BYTES {
        return Err(StartFault::BadLimit);
    }
    let Ok(mut store) = HeapStore::new(alloc, format.reserve()) else {
        return Err(StartFault::NoMemory);
    };
    if let Some(outcome) = scan_at_once(&mut store, text, format, limit) {
        return Ok(Scanned::new(outcome, store));
    }
    scan_by_scanner(alloc, store, text, format, limit)
}

/// As `sscan` (C11 7.21.6.7), over a store that was used before, as `Scanner::over` uses it: what it keeps is taken
/// away, and its memory is used again. The store of a report is given back by `Scanned::into_store`.
#[inline(always)]
pub fn sscan_over(
    alloc: Global,
    mut store: HeapStore,
    text: &[u8],
    format: &ScanFormat,
    limit: u32,
) -> Result<Scanned<HeapStore>, StartFault>
    ensures report { IfOk result (λ s. RunTold format.now limit text.now Ending.End s.report) }
    ensures bounded { IsSome (width_sum format.now) → IfOk result
        (λ s. RunWithin format.now limit text.now Ending.End s.report) }
    ensures limit { IsErrOf result StartFault.BadLimit ↔ (2147483647 < limit) }
    ensures memory { IfErr result (λ fault. (fault ≡ StartFault.BadLimit) ⊎ (fault ≡ StartFault.NoMemory)) }
    ensures enough { limit ≤ 2147483647 → unwrap_or (width_sum format.now) 0 ≤ store.room + length (buffer_of store)
        → IsOk result }
    ensures room { IfOk result (λ s. unwrap_or (width_sum format.now) 0 ≤ capacity_of s.kept) }
    ensures as_much { IfOk result (λ s. capacity_of store ≤ capacity_of s.kept) }
{
    store.clear();
    let reserve = format.reserve() as usize;
    if limit <= MOST_BYTES
        && reserve <= store.room()
        && let Some(outcome) = scan_at_once(&mut store, text, format, limit)
    {
        return Ok(Scanned::new(outcome, store));
    }
    scan_by_scanner(alloc, store, text, format, limit)
}
