//! Laws of scans.
ghost use Rattle.std.specs.Prelude.{◌≡◌, ◌≤◌, ◌+◌, ◌++◌, ◌∷◌, ℕ, List, [], length, false, unwrap_or};
ghost use Rattle.std.specs.Prelude.{IfOk, IfSome, IsOk, IsSome, Some};
ghost use Rattle.std.specs.List.{concat};
ghost use Rattle.sf_base.specs.stores.Kept.{buffer_of};
ghost use Rattle.sf_format.specs.Widths.{width_sum};
ghost use Rattle.sf_read.specs.source.Ahead.{input_of};
ghost use Rattle.sf_read.specs.Laws.{AreOneInput, RunsInTurn};
ghost use Rattle.sf_read.specs.Reads.{counted_by};
ghost use Rattle.sf_read.specs.Scan.{MayFollow, is_fault};
ghost use Rattle.sf_run.specs.Limits.{RunWithin};

use sf_base::HeapStore;
use sf_format::ScanFormat;
use sf_read::laws::{reads_are_one_input, scans_are_runs};
use sf_read::{Lookahead, Source, fscan, fscan_over};
use sf_run::{Ending, Scanned, StartFault};
use std::alloc::Global;

/// The limit of these runs.
const LIMIT: u32 = 1000;

/// Two scans of a lookahead are two runs of its input, the second of what the first has left.
pub fn two_scans<S: Source, const N: usize>(
    alloc: Global,
    from: &mut Lookahead<S, N>,
    first: &ScanFormat,
    second: &ScanFormat,
) -> Option<(Scanned<HeapStore>, Scanned<HeapStore>)>
    ensures { (t : List ℕ) → input_of S.to_come from.old ≡ Some t
        → IfSome result (λ both. (left : List ℕ) × (input_of S.to_come from.new ≡ Some left)
        × RunsInTurn t (record { directives = first.now; limit = 1000; report = both.0.report } ∷ record
        { directives = second.now; limit = 1000; report = both.1.report } ∷ []) left) }
{
    scans_are_runs::<S>();
    let Ok(before) = fscan(alloc, from, first, LIMIT) else {
        return None;
    };
    let Ok(after) = fscan(alloc, from, second, LIMIT) else {
        return None;
    };
    Some((before, after))
}

/// Two scans of a lookahead are two runs of what it held and then of what their reads gave, whatever its source says of
/// itself.
pub fn two_scans_read<S: Source, const N: usize>(
    alloc: Global,
    from: &mut Lookahead<S, N>,
    first: &ScanFormat,
    second: &ScanFormat,
) -> Option<(Scanned<HeapStore>, Scanned<HeapStore>)>
    ensures { IfSome result (λ both. (bytes : List ℕ) × (blocks : List (List ℕ))
        × AreOneInput S.to_come S.reads from.old from.new (record
        { directives = first.now; limit = 1000; report = both.0.report } ∷ record
        { directives = second.now; limit = 1000; report = both.1.report } ∷ []) bytes blocks) }
{
    reads_are_one_input::<S, N>();
    let Ok(before) = fscan(alloc, from, first, LIMIT) else {
        return None;
    };
    let Ok(after) = fscan(alloc, from, second, LIMIT) else {
        return None;
    };
    Some((before, after))
}

/// A scan by a format with a width sum, over a store that has room for it: it begins, and its report is that of the run
/// alone, never that of a want of memory. So it is of the bytes that its source shows, and of those that its reads gave
/// where it shows none.
pub fn scan_with_room<S: Source, const N: usize>(
    alloc: Global,
    store: HeapStore,
    from: &mut Lookahead<S, N>,
    format: &ScanFormat,
) -> Result<Scanned<HeapStore>, StartFault>
    ensures begins { unwrap_or (width_sum format.now) 0 ≤ store.room + length (buffer_of store) → IsOk result }
    ensures shown { IsSome (width_sum format.now) → (t : List ℕ) → input_of S.to_come from.old ≡ Some t
        → IfOk result (λ s. is_fault s.report.met ≡ false → RunWithin format.now 1000 t Ending.End s.report) }
    ensures read { IsSome (width_sum format.now) → IfOk result (λ s. (blocks : List (List ℕ))
        × (S.reads from.new.source ≡ counted_by (length blocks) (S.reads from.old.source))
        × (is_fault s.report.met ≡ false → (z : List ℕ) (ending : Ending) → MayFollow from.new z ending
        → RunWithin format.now 1000 (from.old.held ++ concat blocks ++ z) ending s.report)) }
{
    fscan_over(alloc, store, from, format, LIMIT)
}
