//! Reading by a pair.
ghost use Rattle.std.specs.Prelude.{◌≡◌, ◌≤◌, ◌<◌, ◌+◌, ◌++◌, ◌⊎◌, ◌↔◌, ℕ, List, length, true, false, Some, IfOk};
ghost use Rattle.std.specs.Prelude.{IfErr, IsOk, IsErrOf, IsSomeAnd, unwrap_or, if◌then◌else◌};
ghost use Rattle.sf_base.specs.Data.{Datum};
ghost use Rattle.sf_base.specs.stores.Kept.{buffer_of, texts_in};
ghost use Rattle.sf_format.specs.Proper.{destinations_of};
ghost use Rattle.sf_format.specs.Widths.{width_sum};
ghost use Rattle.sf_print.specs.Printed.{printed};
ghost use Rattle.sf_run.specs.outcome.Ending.{Ending};
ghost use Rattle.sf_run.specs.outcome.Ending.TheVariants.{End};
ghost use Rattle.sf_run.specs.Limits.{RunTold};
ghost use Rattle.sf_run.specs.Memory.{capacity_of};
ghost use Rattle.sf_run.specs.Stopping.{is_memory_status};
ghost use Rattle.sf_read.specs.source.Ahead.{input_of};
ghost use Rattle.sf_read.specs.source.Counts.{counted_on};
ghost use Rattle.sf_read.specs.Made.{Made};
ghost use Rattle.sf_read.specs.Reads.{WaitedFor};
ghost use Rattle.sf_read.specs.Scan.{Scan, is_fault};
ghost use Rattle.sf_pair.specs.Fits.{Fit};
ghost use Rattle.sf_pair_read.specs.Reading.{ReadsBackWhole};

use crate::below::pair_laws;
use sf_base::{FixedStore, HeapStore};
use sf_pair::Pair;
use sf_read::{Lookahead, Source, fscan, fscan_fixed, fscan_over};
use sf_run::{Scanned, StartFault};
use std::alloc::Global;

/// Scans by the pair's scan format, as `fscan` does (C11 7.21.6.2). What was printed of values that fit is read back.
pub fn read_back<S: Source, const N: usize>(
    alloc: Global,
    from: &mut Lookahead<S, N>,
    pair: &Pair<'_>,
    limit: u32,
) -> Result<Scanned<HeapStore>, StartFault>
    ensures scan { (t : List ℕ) → input_of S.to_come from.old ≡ Some t
        → IfOk result (λ s. Scan S.to_come pair.now.scan limit t from.old from.new s.report) }
    ensures told { IfOk result (λ s. (x : List ℕ) × (ending : Ending)
        × RunTold pair.now.scan limit x ending s.report) }
    ensures stored { IfOk result (λ s. is_memory_status s.report.status ≡ false) }
    ensures held { IfOk result (λ s. (n : ℕ) → width_sum pair.now.scan ≡ Some n
        → length (texts_in s.report.values) ≤ n) }
    ensures back { (values : List Datum) → Fit pair.now.print pair.now.scan values → (z : List ℕ)
        → input_of S.to_come from.old ≡ Some (printed pair.now.print values ++ z)
        → length (printed pair.now.print values) ≤ limit
        → IfOk result (λ s. ReadsBackWhole S.to_come S.reads N pair.now.print pair.now.scan values z from.old
        from.new s.report) }
    ensures failures { IfOk result (λ s. S.failures from.new.source
        ≡ (if is_fault s.report.met then counted_on (S.failures from.old.source) else S.failures from.old.source)) }
    ensures reads { IfOk result (λ s. S.reads from.new.source ≤ S.reads from.old.source + s.report.used + 1) }
    ensures waited { IfOk result (λ s. WaitedFor S.to_come S.reads N pair.now.scan limit from.old from.new
        s.report.used) }
    ensures made { IfOk result (λ s. Made S.to_come S.reads N pair.now.scan limit from.old from.new s.report) }
    ensures end { IfOk result (λ s. s.report.met ≡ Some End → from.new.at_end ≡ true) }
    ensures no_read { from.old.at_end ≡ true → from.new.source ≡ from.old.source }
    ensures stays { from.old.at_end ≡ true → from.new.at_end ≡ true }
    ensures limit { IsErrOf result StartFault.BadLimit ↔ (2147483647 < limit) }
    ensures memory { IfErr result (λ fault. (fault ≡ StartFault.BadLimit) ⊎ (fault ≡ StartFault.NoMemory)) }
    ensures room { IfOk result (λ s. unwrap_or (width_sum pair.now.scan) 0 ≤ capacity_of s.kept) }
    ensures unread { IfErr result (λ _. from.new ≡ from.old) }
{
    pair_laws();
    fscan(alloc, from, pair.scan(), limit)
}

/// As `read_back` (C11 7.21.6.2), over a store that was used before, as `fscan_over` uses it: its memory is used again.
pub fn read_back_over<S: Source, const N: usize>(
    alloc: Global,
    store: HeapStore,
    from: &mut Lookahead<S, N>,
    pair: &Pair<'_>,
    limit: u32,
) -> Result<Scanned<HeapStore>, StartFault>
    ensures scan { (t : List ℕ) → input_of S.to_come from.old ≡ Some t
        → IfOk result (λ s. Scan S.to_come pair.now.scan limit t from.old from.new s.report) }
    ensures told { IfOk result (λ s. (x : List ℕ) × (ending : Ending)
        × RunTold pair.now.scan limit x ending s.report) }
    ensures stored { IfOk result (λ s. is_memory_status s.report.status ≡ false) }
    ensures held { IfOk result (λ s. (n : ℕ) → width_sum pair.now.scan ≡ Some n
        → length (texts_in s.report.values) ≤ n) }
    ensures back { (values : List Datum) → Fit pair.now.print pair.now.scan values → (z : List ℕ)
        → input_of S.to_come from.old ≡ Some (printed pair.now.print values ++ z)
        → length (printed pair.now.print values) ≤ limit
        → IfOk result (λ s. ReadsBackWhole S.to_come S.reads N pair.now.print pair.now.scan values z from.old
        from.new s.report) }
    ensures failures { IfOk result (λ s. S.failures from.new.source
        ≡ (if is_fault s.report.met then counted_on (S.failures from.old.source) else S.failures from.old.source)) }
    ensures reads { IfOk result (λ s. S.reads from.new.source ≤ S.reads from.old.source + s.report.used + 1) }
    ensures waited { IfOk result (λ s. WaitedFor S.to_come S.reads N pair.now.scan limit from.old from.new
        s.report.used) }
    ensures made { IfOk result (λ s. Made S.to_come S.reads N pair.now.scan limit from.old from.new s.report) }
    ensures end { IfOk result (λ s. s.report.met ≡ Some End → from.new.at_end ≡ true) }
    ensures no_read { from.old.at_end ≡ true → from.new.source ≡ from.old.source }
    ensures stays { from.old.at_end ≡ true → from.new.at_end ≡ true }
    ensures limit { IsErrOf result StartFault.BadLimit ↔ (2147483647 < limit) }
    ensures memory { IfErr result (λ fault. (fault ≡ StartFault.BadLimit) ⊎ (fault ≡ StartFault.NoMemory)) }
    ensures enough { limit ≤ 2147483647 → unwrap_or (width_sum pair.now.scan) 0
        ≤ store.room + length (buffer_of store) → IsOk result }
    ensures as_much { IfOk result (λ s. capacity_of store ≤ capacity_of s.kept) }
    ensures room { IfOk result (λ s. unwrap_or (width_sum pair.now.scan) 0 ≤ capacity_of s.kept) }
    ensures unread { IfErr result (λ _. from.new ≡ from.old) }
{
    pair_laws();
    fscan_over(alloc, store, from, pair.scan(), limit)
}

/// As `read_back` (C11 7.21.6.2), over a store of fixed capacity, as `fscan_fixed`. It takes no memory.
pub fn read_back_fixed<const CAP: usize, const SLOTS: usize, S: Source, const N: usize>(
    from: &mut Lookahead<S, N>,
    pair: &Pair<'_>,
    limit: u32,
) -> Result<Scanned<FixedStore<CAP, SLOTS>>, StartFault>
    ensures scan { (t : List ℕ) → input_of S.to_come from.old ≡ Some t
        → IfOk result (λ s. Scan S.to_come pair.now.scan limit t from.old from.new s.report) }
    ensures told { IfOk result (λ s. (x : List ℕ) × (ending : Ending)
        × RunTold pair.now.scan limit x ending s.report) }
    ensures stored { IfOk result (λ s. is_memory_status s.report.status ≡ false) }
    ensures held { IfOk result (λ s. (n : ℕ) → width_sum pair.now.scan ≡ Some n
        → length (texts_in s.report.values) ≤ n) }
    ensures back { (values : List Datum) → Fit pair.now.print pair.now.scan values → (z : List ℕ)
        → input_of S.to_come from.old ≡ Some (printed pair.now.print values ++ z)
        → length (printed pair.now.print values) ≤ limit
        → IfOk result (λ s. ReadsBackWhole S.to_come S.reads N pair.now.print pair.now.scan values z from.old
        from.new s.report) }
    ensures failures { IfOk result (λ s. S.failures from.new.source
        ≡ (if is_fault s.report.met then counted_on (S.failures from.old.source) else S.failures from.old.source)) }
    ensures reads { IfOk result (λ s. S.reads from.new.source ≤ S.reads from.old.source + s.report.used + 1) }
    ensures waited { IfOk result (λ s. WaitedFor S.to_come S.reads N pair.now.scan limit from.old from.new
        s.report.used) }
    ensures made { IfOk result (λ s. Made S.to_come S.reads N pair.now.scan limit from.old from.new s.report) }
    ensures end { IfOk result (λ s. s.report.met ≡ Some End → from.new.at_end ≡ true) }
    ensures no_read { from.old.at_end ≡ true → from.new.source ≡ from.old.source }
    ensures stays { from.old.at_end ≡ true → from.new.at_end ≡ true }
    ensures limit { IsErrOf result StartFault.BadLimit ↔ (2147483647 < limit) }
    ensures small { IsErrOf result StartFault.TooSmall ↔ ((limit ≤ 2147483647)
        × IsSomeAnd (width_sum pair.now.scan) (λ n. (CAP < n) ⊎ (SLOTS < length (destinations_of pair.now.scan)))) }
    ensures bounded { IsErrOf result StartFault.Unbounded → ⊥ }
    ensures memory { IsErrOf result StartFault.NoMemory → ⊥ }
    ensures unread { IfErr result (λ _. from.new ≡ from.old) }
{
    pair_laws();
    fscan_fixed(from, pair.scan(), limit)
}
