//! The run of one record: at once where it is held, and else by a scanner.
ghost use Rattle.std.specs.Prelude.{◌≡◌, ◌≤◌, ◌<◌, ◌+◌, length, Bool, true, None, IfSome, IsNone, IsSome};
ghost use Rattle.std.specs.Prelude.{unwrap_or};
ghost use Rattle.sf_base.specs.stores.Kept.{buffer_of};
ghost use Rattle.sf_format.specs.Widths.{width_sum};
ghost use Rattle.sf_run.specs.outcome.Status.TheVariants as status;
ghost use Rattle.sf_run.specs.Memory.{HoldsValues, capacity_of};
ghost use Rattle.sf_run.specs.Quick.{IsDoneWithin};
ghost use Rattle.sf_run.specs.Views.{report_by};
ghost use Rattle.sf_loops.specs.declared.turn.Turn.TheVariants.{Goes};
ghost use Rattle.sf_loops.specs.Runs.{IsNextRun};
ghost use Rattle.sf_loops.specs.Turns.{turn_by};

use crate::newlines::count_front;
use sf_base::HeapStore;
use sf_format::ScanFormat;
use sf_read::{Lookahead, Source, fscan_counting};
use sf_run::{Outcome, Scanned, quick_run};
use std::alloc::Global;

/// Runs the format over a record that is held whole, as `sf_read::fscan_held` does, and counts the newlines that the
/// run consumes. It answers wherever that does and the record has some byte; where it answers None nothing was
/// consumed.
#[inline(always)]
pub(crate) fn take_held<S: Source, const N: usize>(
    store: &mut HeapStore,
    from: &mut Lookahead<S, N>,
    format: &ScanFormat,
    limit: u32,
    lines: &mut u64,
) -> Option<Outcome>
    ensures run { IfSome result (λ outcome. IsNextRun S.to_come S.reads S.failures N format.now limit from.old from.new
        lines.old lines.new (report_by outcome store.new.values)) }
    ensures answers { (done : IsDoneWithin format.now limit from.old.held (capacity_of store.old))
        → 0 < done.report.used → IsSome result }
    ensures room { capacity_of store.old ≤ capacity_of store.new }
    ensures no_read { from.new.source ≡ from.old.source }
    ensures stays { from.new.at_end ≡ from.old.at_end }
    ensures goes { IfSome result (λ outcome. (optional : Bool) → turn_by optional outcome ≡ Goes) }
    ensures none { IsNone result → from.new ≡ from.old }
    ensures uncounted { IsNone result → lines.new ≡ lines.old }
{
    let _directives = format.directives();
    let outcome = quick_run(store, format, limit, from.held())?;
    if outcome.used == 0 {
        return None;
    }
    count_front(lines, from.held(), outcome.used as usize);
    from.consume(outcome.used as usize);
    Some(outcome)
}

/// Runs the format over the next record by a scanner, and counts the newlines that the run consumes.
pub(crate) fn take_next<S: Source, const N: usize>(
    alloc: Global,
    store: HeapStore,
    from: &mut Lookahead<S, N>,
    format: &ScanFormat,
    limit: u32,
    lines: &mut u64,
) -> Scanned<HeapStore>
    requires limit { limit ≤ 2147483647 }
    requires room { unwrap_or (width_sum format.now) 0 ≤ capacity_of store }
    ensures run { IsNextRun S.to_come S.reads S.failures N format.now limit from.old from.new lines.old lines.new
        result.report }
    ensures no_read { from.old.at_end ≡ true → from.new.source ≡ from.old.source }
    ensures stays { from.old.at_end ≡ true → from.new.at_end ≡ true }
    ensures room { capacity_of store ≤ capacity_of result.kept }
{
    match fscan_counting(alloc, store, from, format, limit, lines) {
        Ok(scanned) => scanned,
        Err(_) => unreachable!(),
    }
}
