//! The run over a line, where that is seen at once to be Done.
ghost use Rattle.std.specs.Prelude.{◌≡◌, ◌≤◌, ◌<◌, ◌++◌, ◌∷◌, ℕ, List, [], length, IfSome, IsSome, vec_capacity};
ghost use Rattle.sf_run.specs.Limits.{RunWithin};
ghost use Rattle.sf_run.specs.Memory.{capacity_of};
ghost use Rattle.sf_run.specs.Views.{report_by};
ghost use Rattle.sf_run.specs.outcome.Ending.TheVariants.{End};
ghost use Rattle.sf_read.specs.AtOnce.{IsSeenAtOnce};

use sf_base::HeapStore;
use sf_format::ScanFormat;
use sf_run::laws::{done_runs_stay, open_inputs_are_used};
use sf_run::{Ending, Outcome, quick_run};

/// Runs the format over a text that has its newline here, as over the line alone. It answers wherever that is seen at
/// once to be Done; where it answers None the store may keep something.
fn run_ended(
    store: &mut HeapStore,
    ended: &[u8],
    format: &ScanFormat,
    limit: u32,
) -> Option<Outcome>
    ensures run { (line : List ℕ) → ended.now ≡ line ++ 10 ∷ []
        → IfSome result (λ outcome. RunWithin format.now limit line End (report_by outcome store.new.values)) }
    ensures answers { (line : List ℕ) → ended.now ≡ line ++ 10 ∷ []
        → IsSeenAtOnce format.now limit line (capacity_of store.old) → IsSome result }
    ensures room { capacity_of store.old ≤ capacity_of store.new }
{
    let _directives = format.directives();
    let outcome = quick_run(store, format, limit, ended)?;
    done_runs_stay();
    open_inputs_are_used();
    let left = ended.len() - outcome.used as usize;
    if left > 1 {
        return Some(outcome);
    }
    if left == 0 || !format.ends_unbounded() {
        return None;
    }
    Some(Outcome {
        status: outcome.status,
        at: outcome.at,
        assigned: outcome.assigned,
        converted: outcome.converted,
        used: outcome.used,
        met: Some(Ending::End),
    })
}

/// Runs the format over a line, with a newline after it meanwhile. It answers wherever that is seen at once to be Done
/// and the line has room for the newline; it may answer None where memory for that was refused.
pub(crate) fn run_at_once(
    store: &mut HeapStore,
    line: &mut Vec<u8>,
    format: &ScanFormat,
    limit: u32,
) -> Option<Outcome>
    ensures run { IfSome result (λ outcome. RunWithin format.now limit line.old.items End
        (report_by outcome store.new.values)) }
    ensures answers { length line.old.items < vec_capacity line.old
        → IsSeenAtOnce format.now limit line.old.items (capacity_of store.old) → IsSome result }
    ensures line { line.new.items ≡ line.old.items }
    ensures kept { vec_capacity line.old ≤ vec_capacity line.new }
    ensures room { capacity_of store.old ≤ capacity_of store.new }
{
    if line.push(b'\n').is_err() {
        return None;
    }
    let outcome = run_ended(store, line, format, limit);
    let _newline = line.pop();
    outcome
}
