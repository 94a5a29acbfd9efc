//! Scans of what a source gives.
ghost use Rattle.std.specs.Prelude.{◌≡◌, unwrap_or, IsOk, ◌≤◌, ◌<◌, ◌+◌, ◌⊎◌, ◌↔◌, ℕ, List, [], length, take, drop};
ghost use Rattle.std.specs.Prelude.{true, false, Some, IsSome, IsNone, IfSome, None, IfOk, IfErr, IsErrOf, IsSomeAnd};
ghost use Rattle.std.specs.Prelude.{if◌then◌else◌};
ghost use Rattle.sf_base.specs.stores.Kept.{buffer_of, nothing_kept};
ghost use Rattle.sf_format.specs.declared.directive.Directive.{Directive};
ghost use Rattle.sf_format.specs.Proper.{destinations_of};
ghost use Rattle.sf_format.specs.Widths.{width_sum};
ghost use Rattle.sf_run.specs.outcome.Status.TheVariants as status;
ghost use Rattle.sf_run.specs.Limits.{RunTold};
ghost use Rattle.sf_run.specs.Memory.{HoldsValues, capacity_of};
ghost use Rattle.sf_run.specs.Quick.{IsDoneWithin};
ghost use Rattle.sf_run.specs.Scanner.{kept_by, standing};
ghost use Rattle.sf_run.specs.Standing.{After, used_by};
ghost use Rattle.sf_run.specs.Stopping.{is_memory_status};
ghost use Rattle.sf_run.specs.Views.{report_by};
ghost use Rattle.sf_read.specs.source.Ahead.{input_of};
ghost use Rattle.sf_read.specs.source.Counts.{counted_on, lines_after};
ghost use Rattle.sf_read.specs.Made.{Made};
ghost use Rattle.sf_read.specs.Reading.{Driven, IsFresh};
ghost use Rattle.sf_read.specs.Reads.{WaitedFor};
ghost use Rattle.sf_read.specs.Scan.{Scan, is_fault};

use crate::source::{Lookahead, Source};
use sf_base::{FixedStore, HeapStore, Store};
use sf_format::ScanFormat;
use sf_run::{
    Ending, FeedState, MOST_BYTES, Outcome, Scanned, Scanner, StartFault, quick_run_into,
};
use std::alloc::Global;

/// Adds the newlines of these bytes. The count stays at 2^64 - 1.
pub fn count_newlines(lines: &mut u64, bytes: &[u8])
    ensures { lines.new ≡ lines_after lines.old bytes.now }
{
    let more = bytes.iter().filter(|b| **b == b'\n').count();
    *lines = lines.saturating_add(more as u64);
}

/// Feeds the run until it ends: first what is held, then block by block. The newlines that it consumes are counted,
/// where a caller asks for them: it stands in each caller's code, so that the others don't count.
#[inline(always)]
fn drive<S: Source, T: Store, const N: usize>(
    scanner: &mut Scanner<'_, T>,
    from: &mut Lookahead<S, N>,
    lines: &mut u64,
)
    requires { IsFresh (standing scanner.old) }
    ensures driven { Driven S.to_come S.reads S.failures N (standing scanner.old).directives
        (standing scanner.old).limit from.old from.new (standing scanner.new) }
    ensures lines { (t : List ℕ) → input_of S.to_come from.old ≡ Some t
        → lines.new ≡ lines_after lines.old (take (used_by (standing scanner.new)) t) }
    ensures room { capacity_of (kept_by scanner.old) ≤ capacity_of (kept_by scanner.new) }
{
    let _before = *lines;
    'refills: loop {
        let fed = scanner.feed(from.held());
        let (front, _) = from.held().split_at(fed.taken);
        count_newlines(lines, front);
        from.consume(fed.taken);
        match fed.state {
            FeedState::Ended => return,
            FeedState::Wait => {}
        }
        if from.is_at_end() {
            scanner.end(Ending::End);
            return;
        }
        match from.refill() {
            Ok(()) => {}
            Err(_) => {
                scanner.end(Ending::Fault);
                return;
            }
        }
    }
}

/// What the run of the scanner comes to, over what is held and then what the source gives.
#[inline(always)]
fn run<S: Source, T: Store, const N: usize>(
    mut scanner: Scanner<'_, T>,
    from: &mut Lookahead<S, N>,
    lines: &mut u64,
) -> Scanned<T>
    requires { IsFresh (standing scanner) }
    ensures scan { (ds : List Directive) (m : ℕ) (t : List ℕ) → After ds m (standing scanner.entry) []
        → input_of S.to_come from.old ≡ Some t
        → Scan S.to_come ds m t from.old from.new result.report }
    ensures told { (ds : List Directive) (m : ℕ) → After ds m (standing scanner.entry) []
        → (x : List ℕ) × (ending : Ending) × RunTold ds m x ending result.report }
    ensures bounded { (ds : List Directive) (m : ℕ) → After ds m (standing scanner.entry) [] → IsSome (width_sum ds)
        → is_memory_status result.report.status ≡ false }
    ensures failures { S.failures from.new.source ≡ (if is_fault result.report.met then counted_on
        (S.failures from.old.source) else S.failures from.old.source) }
    ensures reads { S.reads from.new.source ≤ S.reads from.old.source + result.report.used + 1 }
    ensures waited { (ds : List Directive) (m : ℕ) → After ds m (standing scanner.entry) []
        → WaitedFor S.to_come S.reads N ds m from.old from.new result.report.used }
    ensures made { (ds : List Directive) (m : ℕ) → After ds m (standing scanner.entry) []
        → Made S.to_come S.reads N ds m from.old from.new result.report }
    ensures end { result.report.met ≡ Some Ending.End → from.new.at_end ≡ true }
    ensures no_read { from.old.at_end ≡ true → from.new.source ≡ from.old.source }
    ensures stays { from.old.at_end ≡ true → from.new.at_end ≡ true }
    ensures lines { (t : List ℕ) → input_of S.to_come from.old ≡ Some t
        → lines.new ≡ lines_after lines.old (take result.report.used t) }
    ensures room { capacity_of (kept_by scanner.entry) ≤ capacity_of result.kept }
{
    drive(&mut scanner, from, lines);
    match scanner.into_scanned() {
        Ok(scanned) => scanned,
        Err(_) => unreachable!(),
    }
}

/// Scans what the lookahead holds, and then what its source gives, by a format, as fscanf does (C11 7.21.6.2). The run
/// consumes at most `limit` bytes; what it doesn't use stays held or unread. The source is read only where nothing is
/// held and the run waits, and never again once it has reported its end. A failing read ends the input of this scan.
///
/// Refuses a limit above 2147483647 with BadLimit; then it answers NoMemory where memory was refused. Where it refuses,
/// nothing was read. Where memory for a text is refused later, the report has it; a format with a width sum needs none
/// then.
pub fn fscan<S: Source, const N: usize>(
    alloc: Global,
    from: &mut Lookahead<S, N>,
    format: &ScanFormat,
    limit: u32,
) -> Result<Scanned<HeapStore>, StartFault>
    ensures scan { (t : List ℕ) → input_of S.to_come from.old ≡ Some t
        → IfOk result (λ s. Scan S.to_come format.now limit t from.old from.new s.report) }
    ensures told { IfOk result (λ s. (x : List ℕ) × (ending : Ending) × RunTold format.now limit x ending s.report) }
    ensures bounded { IsSome (width_sum format.now) → IfOk result (λ s. is_memory_status s.report.status ≡ false) }
    ensures failures { IfOk result (λ s. S.failures from.new.source
        ≡ (if is_fault s.report.met then counted_on (S.failures from.old.source) else S.failures from.old.source)) }
    ensures reads { IfOk result (λ s. S.reads from.new.source ≤ S.reads from.old.source + s.report.used + 1) }
    ensures waited { IfOk result (λ s. WaitedFor S.to_come S.reads N format.now limit from.old from.new s.report.used) }
    ensures made { IfOk result (λ s. Made S.to_come S.reads N format.now limit from.old from.new s.report) }
    ensures end { IfOk result (λ s. s.report.met ≡ Some Ending.End → from.new.at_end ≡ true) }
    ensures no_read { from.old.at_end ≡ true → from.new.source ≡ from.old.source }
    ensures stays { from.old.at_end ≡ true → from.new.at_end ≡ true }
    ensures limit { IsErrOf result StartFault.BadLimit ↔ (2147483647 < limit) }
    ensures memory { IfErr result (λ fault. (fault ≡ StartFault.BadLimit) ⊎ (fault ≡ StartFault.NoMemory)) }
    ensures room { IfOk result (λ s. unwrap_or (width_sum format.now) 0 ≤ capacity_of s.kept) }
    ensures unread { IfErr result (λ _. from.new ≡ from.old) }
{
    if limit > MOST_BYTES {
        return Err(StartFault::BadLimit);
    }
    let Ok(mut store) = HeapStore::new(alloc, format.width_sum().unwrap_or(0)) else {
        return Err(StartFault::NoMemory);
    };
    if let Some(outcome) = fscan_held(&mut store, from, format, limit) {
        return Ok(Scanned::new(outcome, store));
    }
    fscan_by_scanner(alloc, store, from, format, limit)
}

/// As `fscan` (C11 7.21.6.2), over a store that was used before, as `Scanner::over` uses it: what it keeps is taken
/// away, and its memory is used again. The store of a report is given back by `Scanned::into_store`. A record that is
/// held whole is scanned without a scanner, as `fscan_held` scans it, where the store has room for the format's width
/// sum.
pub fn fscan_over<S: Source, const N: usize>(
    alloc: Global,
    mut store: HeapStore,
    from: &mut Lookahead<S, N>,
    format: &ScanFormat,
    limit: u32,
) -> Result<Scanned<HeapStore>, StartFault>
    ensures scan { (t : List ℕ) → input_of S.to_come from.old ≡ Some t
        → IfOk result (λ s. Scan S.to_come format.now limit t from.old from.new s.report) }
    ensures told { IfOk result (λ s. (x : List ℕ) × (ending : Ending) × RunTold format.now limit x ending s.report) }
    ensures bounded { IsSome (width_sum format.now) → IfOk result (λ s. is_memory_status s.report.status ≡ false) }
    ensures failures { IfOk result (λ s. S.failures from.new.source
        ≡ (if is_fault s.report.met then counted_on (S.failures from.old.source) else S.failures from.old.source)) }
    ensures reads { IfOk result (λ s. S.reads from.new.source ≤ S.reads from.old.source + s.report.used + 1) }
    ensures waited { IfOk result (λ s. WaitedFor S.to_come S.reads N format.now limit from.old from.new s.report.used) }
    ensures made { IfOk result (λ s. Made S.to_come S.reads N format.now limit from.old from.new s.report) }
    ensures end { IfOk result (λ s. s.report.met ≡ Some Ending.End → from.new.at_end ≡ true) }
    ensures no_read { from.old.at_end ≡ true → from.new.source ≡ from.old.source }
    ensures stays { from.old.at_end ≡ true → from.new.at_end ≡ true }
    ensures limit { IsErrOf result StartFault.BadLimit ↔ (2147483647 < limit) }
    ensures memory { IfErr result (λ fault. (fault ≡ StartFault.BadLimit) ⊎ (fault ≡ StartFault.NoMemory)) }
    ensures enough { limit ≤ 2147483647 → unwrap_or (width_sum format.now) 0 ≤ store.room + length (buffer_of store)
        → IsOk result }
    ensures room { IfOk result (λ s. unwrap_or (width_sum format.now) 0 ≤ capacity_of s.kept) }
    ensures as_much { IfOk result (λ s. capacity_of store ≤ capacity_of s.kept) }
    ensures unread { IfErr result (λ _. from.new ≡ from.old) }
{
    store.clear();
    let reserve = format.width_sum().unwrap_or(0) as usize;
    if limit <= MOST_BYTES
        && reserve <= store.room()
        && let Some(outcome) = fscan_held(&mut store, from, format, limit)
    {
        return Ok(Scanned::new(outcome, store));
    }
    fscan_by_scanner(alloc, store, from, format, limit)
}

/// As `fscan_over`, by a scanner whatever is held; the newlines that the run consumes are added to `lines`, which stays
/// at 2^64 - 1.
pub fn fscan_counting<S: Source, const N: usize>(
    alloc: Global,
    store: HeapStore,
    from: &mut Lookahead<S, N>,
    format: &ScanFormat,
    limit: u32,
    lines: &mut u64,
) -> Result<Scanned<HeapStore>, StartFault>
    ensures scan { (t : List ℕ) → input_of S.to_come from.old ≡ Some t
        → IfOk result (λ s. Scan S.to_come format.now limit t from.old from.new s.report) }
    ensures told { IfOk result (λ s. (x : List ℕ) × (ending : Ending) × RunTold format.now limit x ending s.report) }
    ensures bounded { IsSome (width_sum format.now) → IfOk result (λ s. is_memory_status s.report.status ≡ false) }
    ensures failures { IfOk result (λ s. S.failures from.new.source
        ≡ (if is_fault s.report.met then counted_on (S.failures from.old.source) else S.failures from.old.source)) }
    ensures reads { IfOk result (λ s. S.reads from.new.source ≤ S.reads from.old.source + s.report.used + 1) }
    ensures waited { IfOk result (λ s. WaitedFor S.to_come S.reads N format.now limit from.old from.new s.report.used) }
    ensures made { IfOk result (λ s. Made S.to_come S.reads N format.now limit from.old from.new s.report) }
    ensures end { IfOk result (λ s. s.report.met ≡ Some Ending.End → from.new.at_end ≡ true) }
    ensures no_read { from.old.at_end ≡ true → from.new.source ≡ from.old.source }
    ensures stays { from.old.at_end ≡ true → from.new.at_end ≡ true }
    ensures lines { (t : List ℕ) → input_of S.to_come from.old ≡ Some t
        → IfOk result (λ s. lines.new ≡ lines_after lines.old (take s.report.used t)) }
    ensures limit { IsErrOf result StartFault.BadLimit ↔ (2147483647 < limit) }
    ensures memory { IfErr result (λ fault. (fault ≡ StartFault.BadLimit) ⊎ (fault ≡ StartFault.NoMemory)) }
    ensures enough { limit ≤ 2147483647 → unwrap_or (width_sum format.now) 0 ≤ store.room + length (buffer_of store)
        → IsOk result }
    ensures room { IfOk result (λ s. unwrap_or (width_sum format.now) 0 ≤ capacity_of s.kept) }
    ensures as_much { IfOk result (λ s. capacity_of store ≤ capacity_of s.kept) }
    ensures unread { IfErr result (λ _. from.new ≡ from.old) }
    ensures uncounted { IfErr result (λ _. lines.new ≡ lines.old) }
{
    Ok(run(Scanner::over(alloc, store, format, limit)?, from, lines))
}

/// As `fscan_over`, by a scanner whatever is held. It stands in its callers' code, so that room for a scanner is made
/// only where one is needed.
#[inline(always)]
fn fscan_by_scanner<S: Source, const N: usize>(
    alloc: Global,
    store: HeapStore,
    from: &mut Lookahead<S, N>,
    format: &ScanFormat,
    limit: u32,
) -> Result<Scanned<HeapStore>, StartFault>
    ensures scan { (t : List ℕ) → input_of S.to_come from.old ≡ Some t
        → IfOk result (λ s. Scan S.to_come format.now limit t from.old from.new s.report) }
    ensures told { IfOk result (λ s. (x : List ℕ) × (ending : Ending) × RunTold format.now limit x ending s.report) }
    ensures bounded { IsSome (width_sum format.now) → IfOk result (λ s. is_memory_status s.report.status ≡ false) }
    ensures failures { IfOk result (λ s. S.failures from.new.source
        ≡ (if is_fault s.report.met then counted_on (S.failures from.old.source) else S.failures from.old.source)) }
    ensures reads { IfOk result (λ s. S.reads from.new.source ≤ S.reads from.old.source + s.report.used + 1) }
    ensures waited { IfOk result (λ s. WaitedFor S.to_come S.reads N format.now limit from.old from.new s.report.used) }
    ensures made { IfOk result (λ s. Made S.to_come S.reads N format.now limit from.old from.new s.report) }
    ensures end { IfOk result (λ s. s.report.met ≡ Some Ending.End → from.new.at_end ≡ true) }
    ensures no_read { from.old.at_end ≡ true → from.new.source ≡ from.old.source }
    ensures stays { from.old.at_end ≡ true → from.new.at_end ≡ true }
    ensures limit { IsErrOf result StartFault.BadLimit ↔ (2147483647 < limit) }
    ensures memory { IfErr result (λ fault. (fault ≡ StartFault.BadLimit) ⊎ (fault ≡ StartFault.NoMemory)) }
    ensures enough { limit ≤ 2147483647 → unwrap_or (width_sum format.now) 0 ≤ store.room + length (buffer_of store)
        → IsOk result }
    ensures room { IfOk result (λ s. unwrap_or (width_sum format.now) 0 ≤ capacity_of s.kept) }
    ensures as_much { IfOk result (λ s. capacity_of store ≤ capacity_of s.kept) }
    ensures unread { IfErr result (λ _. from.new ≡ from.old) }
{
    let mut lines = 0;
    Ok(run(
        Scanner::over(alloc, store, format, limit)?,
        from,
        &mut lines,
    ))
}

/// As `fscan_held`, into an empty store that has a slot for each destination of the format.
#[inline(always)]
pub(crate) fn held_into<K: Store, S: Source, const N: usize>(
    store: &mut K,
    from: &mut Lookahead<S, N>,
    format: &ScanFormat,
    limit: u32,
) -> Option<Outcome>
    requires empty { K.kept store.old ≡ nothing_kept (K.kept store.old).room }
    requires slots { length (destinations_of format.now) ≤ K.slots }
    ensures scan { (t : List ℕ) → input_of S.to_come from.old ≡ Some t
        → IfSome result (λ outcome. Scan S.to_come format.now limit t from.old from.new
        (report_by outcome (K.kept store.new).values)) }
    ensures told { IfSome result (λ outcome. (x : List ℕ) × (ending : Ending)
        × RunTold format.now limit x ending (report_by outcome (K.kept store.new).values)) }
    ensures made { IfSome result (λ outcome. Made S.to_come S.reads N format.now limit from.old from.new
        (report_by outcome (K.kept store.new).values)) }
    ensures done { IfSome result (λ outcome. outcome.status ≡ status.Done) }
    ensures met { IfSome result (λ outcome. outcome.met ≡ None) }
    ensures answers { IsDoneWithin format.now limit from.old.held (capacity_of (K.kept store.old)) → IsSome result }
    ensures texts { IfSome result (λ _. HoldsValues (K.kept store.new)) }
    ensures room { capacity_of (K.kept store.old) ≤ capacity_of (K.kept store.new) }
    ensures within { IfSome result (λ outcome. outcome.used ≤ length from.old.held) }
    ensures held { IfSome result (λ outcome. from.new.held ≡ drop outcome.used from.old.held) }
    ensures no_read { from.new.source ≡ from.old.source }
    ensures stays { from.new.at_end ≡ from.old.at_end }
    ensures none { IsNone result → from.new ≡ from.old }
{
    let outcome = quick_run_into(store, format, limit, from.held())?;
    from.consume(outcome.used as usize);
    Some(outcome)
}

/// Scans a record that is held whole, without a scanner: where it is Done before a byte of what the lookahead holds is
/// lacking, it is consumed, and the store, which is emptied first, has its values; `Report::new` of both is the report
/// of the scan. The run consumes at most `limit` bytes, and the source isn't read.
///
/// It answers wherever the record is Done before a byte of what is held, or of the limit, is lacking, and the store has
/// room for its texts. Where it answers None nothing was consumed, and the store may keep something; `fscan_over` with
/// that store has the result of the record.
#[inline(always)]
pub fn fscan_held<S: Source, const N: usize>(
    store: &mut HeapStore,
    from: &mut Lookahead<S, N>,
    format: &ScanFormat,
    limit: u32,
) -> Option<Outcome>
    ensures scan { (t : List ℕ) → input_of S.to_come from.old ≡ Some t
        → IfSome result (λ outcome. Scan S.to_come format.now limit t from.old from.new
        (report_by outcome store.new.values)) }
    ensures told { IfSome result (λ outcome. (x : List ℕ) × (ending : Ending)
        × RunTold format.now limit x ending (report_by outcome store.new.values)) }
    ensures made { IfSome result (λ outcome. Made S.to_come S.reads N format.now limit from.old from.new
        (report_by outcome store.new.values)) }
    ensures done { IfSome result (λ outcome. outcome.status ≡ status.Done) }
    ensures met { IfSome result (λ outcome. outcome.met ≡ None) }
    ensures answers { IsDoneWithin format.now limit from.old.held (capacity_of store.old) → IsSome result }
    ensures texts { IfSome result (λ _. HoldsValues store.new) }
    ensures room { capacity_of store.old ≤ capacity_of store.new }
    ensures within { IfSome result (λ outcome. outcome.used ≤ length from.old.held) }
    ensures held { IfSome result (λ outcome. from.new.held ≡ drop outcome.used from.old.held) }
    ensures no_read { from.new.source ≡ from.old.source }
    ensures stays { from.new.at_end ≡ from.old.at_end }
    ensures none { IsNone result → from.new ≡ from.old }
{
    let _destinations = format.destinations();
    store.clear();
    held_into(store, from, format, limit)
}

/// As `fscan` (C11 7.21.6.2), over a store of fixed capacity: `CAP` bytes of texts and `SLOTS` values. It takes no
/// memory.
///
/// Refuses a limit above 2147483647 with BadLimit, then a format without a width sum with Unbounded, then one whose
/// width sum is above CAP or that has more than SLOTS destinations with TooSmall. Where it refuses, nothing was read.
pub fn fscan_fixed<const CAP: usize, const SLOTS: usize, S: Source, const N: usize>(
    from: &mut Lookahead<S, N>,
    format: &ScanFormat,
    limit: u32,
) -> Result<Scanned<FixedStore<CAP, SLOTS>>, StartFault>
    ensures scan { (t : List ℕ) → input_of S.to_come from.old ≡ Some t
        → IfOk result (λ s. Scan S.to_come format.now limit t from.old from.new s.report) }
    ensures told { IfOk result (λ s. (x : List ℕ) × (ending : Ending) × RunTold format.now limit x ending s.report) }
    ensures bounded { IfOk result (λ s. is_memory_status s.report.status ≡ false) }
    ensures failures { IfOk result (λ s. S.failures from.new.source
        ≡ (if is_fault s.report.met then counted_on (S.failures from.old.source) else S.failures from.old.source)) }
    ensures reads { IfOk result (λ s. S.reads from.new.source ≤ S.reads from.old.source + s.report.used + 1) }
    ensures waited { IfOk result (λ s. WaitedFor S.to_come S.reads N format.now limit from.old from.new s.report.used) }
    ensures made { IfOk result (λ s. Made S.to_come S.reads N format.now limit from.old from.new s.report) }
    ensures end { IfOk result (λ s. s.report.met ≡ Some Ending.End → from.new.at_end ≡ true) }
    ensures no_read { from.old.at_end ≡ true → from.new.source ≡ from.old.source }
    ensures stays { from.old.at_end ≡ true → from.new.at_end ≡ true }
    ensures limit { IsErrOf result StartFault.BadLimit ↔ (2147483647 < limit) }
    ensures unbounded { IsErrOf result StartFault.Unbounded ↔ ((limit ≤ 2147483647) × (width_sum format.now ≡ None)) }
    ensures small { IsErrOf result StartFault.TooSmall ↔ ((limit ≤ 2147483647)
        × IsSomeAnd (width_sum format.now) (λ n. (CAP < n) ⊎ (SLOTS < length (destinations_of format.now)))) }
    ensures memory { IsErrOf result StartFault.NoMemory → ⊥ }
    ensures unread { IfErr result (λ _. from.new ≡ from.old) }
{
    let scanner = Scanner::<FixedStore<CAP, SLOTS>>::fixed(format, limit)?;
    let mut lines = 0;
    Ok(run(scanner, from, &mut lines))
}
