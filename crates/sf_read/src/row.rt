//! Rows of what a source gives.
ghost use Rattle.std.specs.Prelude.{◌≡◌, length, ◌≤◌, ◌<◌, ◌+◌, ◌⊎◌, ◌↔◌, ℕ, List, true, false, Some, IfErr, IfOk};
ghost use Rattle.std.specs.Prelude.{IfSome, IsErrOf, IsNone, IsOk, IsSome, None, unwrap_or, if◌then◌else◌};
ghost use Rattle.sf_base.specs.stores.Kept.{nothing_kept};
ghost use Rattle.sf_format.specs.Proper.{IsAccepted, destinations_of};
ghost use Rattle.sf_format.specs.Widths.{width_sum};
ghost use Rattle.sf_run.specs.Limits.{RunTold};
ghost use Rattle.sf_run.specs.Memory.{capacity_of};
ghost use Rattle.sf_run.specs.outcome.Status.TheVariants.{Done};
ghost use Rattle.sf_run.specs.Quick.{IsDoneWithin};
ghost use Rattle.sf_run.specs.Stopping.{is_memory_status};
ghost use Rattle.sf_read.specs.source.Ahead.{input_of};
ghost use Rattle.sf_read.specs.source.Counts.{counted_on};
ghost use Rattle.sf_read.specs.Made.{Made};
ghost use Rattle.sf_read.specs.Reads.{WaitedFor};
ghost use Rattle.sf_read.specs.field.Rows.{AreGivenAs, present, slots_by};
ghost use Rattle.sf_read.specs.RowScans.{Answers, HasShape, IsOfFew, RowScan, difference_of, is_run};
ghost use Rattle.sf_read.specs.Scan.{Scan, is_fault};
ghost use Rattle.sf_read.specs.Shapes.{IsDifference};

use crate::field::{Row, RowFault};
use crate::shape::{ShapeFault, check_shape};
use crate::source::{Lookahead, Source};
use crate::stream::held_into;
use crate::{fscan, fscan_over};
use sf_base::{FixedStore, HeapStore, Store};
use sf_format::ScanFormat;
use sf_run::{Ending, MOST_BYTES, Outcome, Report, Scanned, StartFault, Status};
use std::alloc::Global;
use std::error::Error;
use std::fmt;

/// The most numbers that are kept without memory.
pub(crate) const FEW_NUMBERS: usize = 8;

/// Why there is no row.
#[derive(Clone, Copy, Debug, PartialEq, Eq)]
pub enum ScanRowFault {
    /// The slots of the row and their kinds are not the destinations of the format and theirs, or one of these may be
    /// missing and not so in the row: how they differ.
    ShapeDiffers(ShapeFault),
    /// The run was not started.
    Start(StartFault),
    /// The run didn't end as Done.
    Failed(Outcome),
    /// The run is Done and leaves bytes of a text that it had to use whole.
    LeftOver {
        /// How many bytes the run used.
        at: u32,
    },
    /// Memory for the row was refused.
    NoMemory,
}

/// Of a run that failed what it came to, as `matching failure at 2, used 5, assigned 1`.
impl fmt::Display for ScanRowFault {
    ghost use Rattle.std.specs.Prelude.{Some};
    ghost use Rattle.sf_read.specs.Texts.{scan_row_fault_text};

    ghost output = { λ fault. Some (scan_row_fault_text fault) };

    fn fmt<W: fmt::Write>(&self, f: &mut fmt::Formatter<W>) -> fmt::Result {
        match *self {
            ScanRowFault::ShapeDiffers(by) => write!(f, "{by}"),
            ScanRowFault::Start(fault) => write!(f, "{fault}"),
            ScanRowFault::Failed(outcome) => write!(f, "{outcome}"),
            ScanRowFault::LeftOver { at } => write!(f, "left over at {at}"),
            ScanRowFault::NoMemory => write!(f, "out of memory"),
        }
    }
}

impl Error for ScanRowFault {}

/// The row of a report, where that is Done.
pub(crate) fn row_of<T: Row, K: Store>(
    alloc: Global,
    scanned: &Scanned<K>,
) -> Result<T, ScanRowFault>
    requires { scanned.now.report.status ≡ Done → AreGivenAs T.kinds T.optional scanned.now.report.values }
    ensures report { Answers T.kinds (slots_by T.given T.listed) scanned.now.report result }
    ensures listed { IfOk result (λ row. T.listed row ≡ present (slots_by T.given T.listed row)) }
{
    let report = scanned.report();
    let outcome = report.outcome();
    if outcome.status != Status::Done {
        return Err(ScanRowFault::Failed(outcome));
    }
    match T::from_report(alloc, &report) {
        Ok(row) => Ok(row),
        Err(RowFault::NoMemory) => Err(ScanRowFault::NoMemory),
    }
}

/// Scans as `fscan_over` does with the store, where there is one, and else as `fscan` does.
fn scan_with<S: Source, const N: usize>(
    alloc: Global,
    store: Option<HeapStore>,
    from: &mut Lookahead<S, N>,
    format: &ScanFormat,
    limit: u32,
) -> Result<Scanned<HeapStore>, StartFault>
    ensures scan { (t : List ℕ) → input_of S.to_come from.old ≡ Some t
        → IfOk result (λ s. Scan S.to_come format.now limit t from.old from.new s.report) }
    ensures told { IfOk result (λ s. (x : List ℕ) × (ending : Ending) × RunTold format.now limit x ending s.report) }
    ensures bounded { IsSome (width_sum format.now) → IfOk result (λ s. is_memory_status s.report.status ≡ false) }
    ensures failures { IfOk result (λ s. S.failures from.new.source
        ≡ (if is_fault s.report.met then counted_on (S.failures from.old.source) else S.failures from.old.source)) }
    ensures reads { IfOk result (λ s. S.reads from.new.source ≤ S.reads from.old.source + s.report.used + 1) }
    ensures waited { IfOk result (λ s. WaitedFor S.to_come S.reads N format.now limit from.old from.new s.report.used) }
    ensures made { IfOk result (λ s. Made S.to_come S.reads N format.now limit from.old from.new s.report) }
    ensures end { IfOk result (λ s. s.report.met ≡ Some Ending.End → from.new.at_end ≡ true) }
    ensures no_read { from.old.at_end ≡ true → from.new.source ≡ from.old.source }
    ensures stays { from.old.at_end ≡ true → from.new.at_end ≡ true }
    ensures limit { IsErrOf result StartFault.BadLimit ↔ (2147483647 < limit) }
    ensures memory { IfErr result (λ fault. (fault ≡ StartFault.BadLimit) ⊎ (fault ≡ StartFault.NoMemory)) }
    ensures enough { IfSome store (λ s. limit ≤ 2147483647 → unwrap_or (width_sum format.now) 0 ≤ capacity_of s
        → IsOk result) }
    ensures as_much { IfSome store (λ old. IfOk result (λ s. capacity_of old ≤ capacity_of s.kept)) }
    ensures unread { IfErr result (λ _. from.new ≡ from.old) }
{
    match store {
        Some(store) => fscan_over(alloc, store, from, format, limit),
        None => fscan(alloc, from, format, limit),
    }
}

/// Makes a store for the texts of the format where there is none. False where memory for it was refused.
#[inline(always)]
fn has_store(alloc: Global, store: &mut Option<HeapStore>, format: &ScanFormat) -> bool
    ensures made { result ≡ true → IsSome store.new }
    ensures same { IsSome store.old → (result ≡ true) × (store.new ≡ store.old) }
{
    if store.is_some() {
        return true;
    }
    match HeapStore::new(alloc, format.width_sum().unwrap_or(0)) {
        Ok(made) => {
            *store = Some(made);
            true
        }
        Err(_) => false,
    }
}

/// As `row_held`, into an empty store that has a slot for each destination of the format.
#[inline(always)]
fn row_held_into<T: Row, K: Store, S: Source, const N: usize>(
    alloc: Global,
    store: &mut K,
    from: &mut Lookahead<S, N>,
    format: &ScanFormat,
    limit: u32,
) -> Option<Result<T, ScanRowFault>>
    requires empty { K.kept store.old ≡ nothing_kept (K.kept store.old).room }
    requires slots { length (destinations_of format.now) ≤ K.slots }
    requires accepted { IsAccepted format.now }
    requires shape { HasShape T.kinds T.optional format.now }
    ensures run { IfSome result (λ row. RowScan S.to_come S.reads S.failures N T.kinds
        (slots_by T.given T.listed) format.now limit from.old from.new row) }
    ensures is_run { IfSome result (λ row. is_run row ≡ true) }
    ensures shape { IfSome result (λ row. difference_of row ≡ None) }
    ensures listed { IfSome result (λ row. IfOk row (λ made. T.listed made
        ≡ present (slots_by T.given T.listed made))) }
    ensures answers { IsDoneWithin format.now limit from.old.held (capacity_of (K.kept store.old)) → IsSome result }
    ensures no_read { from.new.source ≡ from.old.source }
    ensures stays { from.new.at_end ≡ from.old.at_end }
    ensures none { IsNone result → from.new ≡ from.old }
    ensures room { capacity_of (K.kept store.old) ≤ capacity_of (K.kept store.new) }
{
    let outcome = held_into(store, from, format, limit)?;
    let report = Report::new(outcome, store);
    match T::from_report(alloc, &report) {
        Ok(row) => Some(Ok(row)),
        Err(RowFault::NoMemory) => Some(Err(ScanRowFault::NoMemory)),
    }
}

/// The row of a record that is held whole, where it is seen at once to be Done: then the record is consumed, and the
/// store keeps its values. None where that isn't so: then nothing was consumed, and the store may keep something.
#[inline(always)]
fn row_held<T: Row, S: Source, const N: usize>(
    alloc: Global,
    store: &mut HeapStore,
    from: &mut Lookahead<S, N>,
    format: &ScanFormat,
    limit: u32,
) -> Option<Result<T, ScanRowFault>>
    requires accepted { IsAccepted format.now }
    requires shape { HasShape T.kinds T.optional format.now }
    ensures run { IfSome result (λ row. RowScan S.to_come S.reads S.failures N T.kinds
        (slots_by T.given T.listed) format.now limit from.old from.new row) }
    ensures is_run { IfSome result (λ row. is_run row ≡ true) }
    ensures shape { IfSome result (λ row. difference_of row ≡ None) }
    ensures listed { IfSome result (λ row. IfOk row (λ made. T.listed made
        ≡ present (slots_by T.given T.listed made))) }
    ensures no_read { from.new.source ≡ from.old.source }
    ensures stays { from.new.at_end ≡ from.old.at_end }
    ensures none { IsNone result → from.new ≡ from.old }
    ensures room { capacity_of store.old ≤ capacity_of store.new }
{
    let _destinations = format.destinations();
    store.clear();
    row_held_into(alloc, store, from, format, limit)
}

/// As `row_held`, where the format stores a few numbers and no texts: they need no memory. None also where the limit is
/// too high.
#[inline(always)]
fn row_of_few<T: Row, S: Source, const N: usize>(
    alloc: Global,
    from: &mut Lookahead<S, N>,
    format: &ScanFormat,
    limit: u32,
) -> Option<Result<T, ScanRowFault>>
    requires accepted { IsAccepted format.now }
    requires shape { HasShape T.kinds T.optional format.now }
    ensures run { IfSome result (λ row. RowScan S.to_come S.reads S.failures N T.kinds
        (slots_by T.given T.listed) format.now limit from.old from.new row) }
    ensures is_run { IfSome result (λ row. is_run row ≡ true) }
    ensures shape { IfSome result (λ row. difference_of row ≡ None) }
    ensures listed { IfSome result (λ row. IfOk row (λ made. T.listed made
        ≡ present (slots_by T.given T.listed made))) }
    ensures limit { IsSome result → limit ≤ 2147483647 }
    ensures answers { limit ≤ 2147483647 → IsOfFew format.now → IsDoneWithin format.now limit from.old.held 0
        → IsSome result }
    ensures no_read { from.new.source ≡ from.old.source }
    ensures stays { from.new.at_end ≡ from.old.at_end }
    ensures none { IsNone result → from.new ≡ from.old }
{
    if limit > MOST_BYTES
        || format.width_sum() != Some(0)
        || format.destinations() as usize > FEW_NUMBERS
    {
        return None;
    }
    let mut store = FixedStore::<0, FEW_NUMBERS>::new();
    row_held_into(alloc, &mut store, from, format, limit)
}

/// As `row_over`, by a scan whatever is held.
#[inline(never)]
fn row_by_scan<T: Row, S: Source, const N: usize>(
    alloc: Global,
    store: &mut Option<HeapStore>,
    from: &mut Lookahead<S, N>,
    format: &ScanFormat,
    limit: u32,
) -> Result<T, ScanRowFault>
    requires accepted { IsAccepted format.now }
    requires shape { HasShape T.kinds T.optional format.now }
    ensures shape { difference_of result ≡ None }
    ensures limit { IsErrOf result (ScanRowFault.Start StartFault.BadLimit) ↔ (2147483647 < limit) }
    ensures start { (fault : StartFault) → IsErrOf result (ScanRowFault.Start fault)
        → (fault ≡ StartFault.BadLimit) ⊎ (fault ≡ StartFault.NoMemory) }
    ensures unread { is_run result ≡ false → from.new ≡ from.old }
    ensures run { is_run result ≡ true → RowScan S.to_come S.reads S.failures N T.kinds
        (slots_by T.given T.listed) format.now limit from.old from.new result }
    ensures listed { IfOk result (λ row. T.listed row ≡ present (slots_by T.given T.listed row)) }
    ensures no_read { from.old.at_end ≡ true → from.new.source ≡ from.old.source }
    ensures stays { from.old.at_end ≡ true → from.new.at_end ≡ true }
    ensures enough { IfSome store.old (λ s. unwrap_or (width_sum format.now) 0 ≤ capacity_of s
        → IsErrOf result (ScanRowFault.Start StartFault.NoMemory) → ⊥) }
    ensures left { is_run result ≡ true → IsSome store.new }
    ensures as_much { is_run result ≡ true → IfSome store.old
        (λ old. IfSome store.new (λ s. capacity_of old ≤ capacity_of s)) }
{
    match scan_with(alloc, store.take(), from, format, limit) {
        Ok(scanned) => {
            let row = row_of(alloc, &scanned);
            *store = Some(scanned.into_store());
            row
        }
        Err(fault) => Err(ScanRowFault::Start(fault)),
    }
}

/// As `scan_row_over`, of a row that has the format's shape.
fn row_over<T: Row, S: Source, const N: usize>(
    alloc: Global,
    store: &mut Option<HeapStore>,
    from: &mut Lookahead<S, N>,
    format: &ScanFormat,
    limit: u32,
) -> Result<T, ScanRowFault>
    requires accepted { IsAccepted format.now }
    requires shape { HasShape T.kinds T.optional format.now }
    ensures shape { difference_of result ≡ None }
    ensures limit { IsErrOf result (ScanRowFault.Start StartFault.BadLimit) ↔ (2147483647 < limit) }
    ensures start { (fault : StartFault) → IsErrOf result (ScanRowFault.Start fault)
        → (fault ≡ StartFault.BadLimit) ⊎ (fault ≡ StartFault.NoMemory) }
    ensures unread { is_run result ≡ false → from.new ≡ from.old }
    ensures run { is_run result ≡ true → RowScan S.to_come S.reads S.failures N T.kinds
        (slots_by T.given T.listed) format.now limit from.old from.new result }
    ensures listed { IfOk result (λ row. T.listed row ≡ present (slots_by T.given T.listed row)) }
    ensures no_read { from.old.at_end ≡ true → from.new.source ≡ from.old.source }
    ensures stays { from.old.at_end ≡ true → from.new.at_end ≡ true }
    ensures enough { IfSome store.old (λ s. unwrap_or (width_sum format.now) 0 ≤ capacity_of s
        → IsErrOf result (ScanRowFault.Start StartFault.NoMemory) → ⊥) }
    ensures left { is_run result ≡ true → IsSome store.new }
    ensures as_much { is_run result ≡ true → IfSome store.old
        (λ old. IfSome store.new (λ s. capacity_of old ≤ capacity_of s)) }
{
    if limit > MOST_BYTES {
        return Err(ScanRowFault::Start(StartFault::BadLimit));
    }
    if !has_store(alloc, store, format) {
        return Err(ScanRowFault::Start(StartFault::NoMemory));
    }
    if let Some(kept) = store
        && let Some(row) = row_held(alloc, kept, from, format, limit)
    {
        return row;
    }
    row_by_scan(alloc, store, from, format, limit)
}

/// Scans as `fscan` does (C11 7.21.6.2), and makes a row of the values.
///
/// Refuses with ShapeDiffers where the slots of the row and their kinds are not the destinations of the format and
/// theirs, or one of these may be missing and not so in the row: it says how they differ first. Then it refuses with
/// Start where `fscan` refuses; nothing was read then. A run that doesn't end as Done is reported by Failed, and its
/// bytes are consumed. Last comes NoMemory, where memory for the row was refused; its bytes are consumed too. The
/// numbers of a format that stores at most eight, and no texts, are kept without memory where the record is held whole.
///
/// At the end of the input a format with a `?` or a group is Done, where each of its items may be missing: the row has
/// no value then. So with such a format loop by `sf_loops::Records`, which ends there.
pub fn scan_row<T: Row, S: Source, const N: usize>(
    alloc: Global,
    from: &mut Lookahead<S, N>,
    format: &ScanFormat,
    limit: u32,
) -> Result<T, ScanRowFault>
    ensures shape { IsSome (difference_of result) ↔ (HasShape T.kinds T.optional format.now → ⊥) }
    ensures differs { IfSome (difference_of result) (IsDifference T.kinds T.optional format.now) }
    ensures limit { IsErrOf result (ScanRowFault.Start StartFault.BadLimit) ↔
        (HasShape T.kinds T.optional format.now × (2147483647 < limit)) }
    ensures start { (fault : StartFault) → IsErrOf result (ScanRowFault.Start fault)
        → (fault ≡ StartFault.BadLimit) ⊎ (fault ≡ StartFault.NoMemory) }
    ensures unread { is_run result ≡ false → from.new ≡ from.old }
    ensures run { is_run result ≡ true → RowScan S.to_come S.reads S.failures N T.kinds
        (slots_by T.given T.listed) format.now limit from.old from.new result }
    ensures listed { IfOk result (λ row. T.listed row ≡ present (slots_by T.given T.listed row)) }
    ensures no_read { from.old.at_end ≡ true → from.new.source ≡ from.old.source }
    ensures stays { from.old.at_end ≡ true → from.new.at_end ≡ true }
    ensures few { IsOfFew format.now → IsDoneWithin format.now limit from.old.held 0
        → IsErrOf result (ScanRowFault.Start StartFault.NoMemory) → ⊥ }
{
    if let Err(by) = check_shape::<T>(format) {
        return Err(ScanRowFault::ShapeDiffers(by));
    }
    if let Some(row) = row_of_few(alloc, from, format, limit) {
        return row;
    }
    let mut store = None;
    row_over(alloc, &mut store, from, format, limit)
}

/// As `scan_row` (C11 7.21.6.2), over the store of a row before, whose memory is used again: `None` at first, and then
/// what the call before left there. A call that scans leaves its store there.
pub fn scan_row_over<T: Row, S: Source, const N: usize>(
    alloc: Global,
    store: &mut Option<HeapStore>,
    from: &mut Lookahead<S, N>,
    format: &ScanFormat,
    limit: u32,
) -> Result<T, ScanRowFault>
    ensures shape { IsSome (difference_of result) ↔ (HasShape T.kinds T.optional format.now → ⊥) }
    ensures differs { IfSome (difference_of result) (IsDifference T.kinds T.optional format.now) }
    ensures limit { IsErrOf result (ScanRowFault.Start StartFault.BadLimit) ↔
        (HasShape T.kinds T.optional format.now × (2147483647 < limit)) }
    ensures start { (fault : StartFault) → IsErrOf result (ScanRowFault.Start fault)
        → (fault ≡ StartFault.BadLimit) ⊎ (fault ≡ StartFault.NoMemory) }
    ensures unread { is_run result ≡ false → from.new ≡ from.old }
    ensures run { is_run result ≡ true → RowScan S.to_come S.reads S.failures N T.kinds
        (slots_by T.given T.listed) format.now limit from.old from.new result }
    ensures listed { IfOk result (λ row. T.listed row ≡ present (slots_by T.given T.listed row)) }
    ensures no_read { from.old.at_end ≡ true → from.new.source ≡ from.old.source }
    ensures stays { from.old.at_end ≡ true → from.new.at_end ≡ true }
    ensures enough { IfSome store.old (λ s. unwrap_or (width_sum format.now) 0 ≤ capacity_of s
        → IsErrOf result (ScanRowFault.Start StartFault.NoMemory) → ⊥) }
    ensures left { is_run result ≡ true → IsSome store.new }
    ensures as_much { is_run result ≡ true → IfSome store.old
        (λ old. IfSome store.new (λ s. capacity_of old ≤ capacity_of s)) }
{
    if let Err(by) = check_shape::<T>(format) {
        return Err(ScanRowFault::ShapeDiffers(by));
    }
    row_over(alloc, store, from, format, limit)
}
