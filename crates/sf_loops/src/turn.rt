//! What a loop over records does after the run of each.
ghost use Rattle.std.specs.Prelude.{◌≡◌};
ghost use Rattle.sf_loops.specs.Turns.{turn_by};

use crate::fault::RecordWhy;
use sf_run::{Ending, Outcome, Status};

/// What a loop over records does after a run.
#[derive(Clone, Copy, Debug, PartialEq, Eq)]
pub(crate) enum Turn {
    /// The record is answered, and the next run follows.
    Goes,
    /// The record is answered, and then the fault of the read that failed after it.
    Cut,
    /// The input has no further record.
    Ends,
    /// There is no record.
    Stops(RecordWhy),
}

/// What the loop does after a run; `optional` says whether items of the format may be missing.
pub(crate) fn next_turn(outcome: Outcome, optional: bool) -> Turn
    ensures { result ≡ turn_by optional outcome }
{
    match (outcome.status, outcome.met) {
        (Status::NoMemory, _) => Turn::Stops(RecordWhy::NoMemory),
        (Status::Done, Some(Ending::Fault)) => {
            if outcome.used == 0 {
                Turn::Stops(RecordWhy::Read)
            } else {
                Turn::Cut
            }
        }
        (_, Some(Ending::Fault)) => Turn::Stops(RecordWhy::Read),
        (Status::Done, Some(Ending::End)) if optional && outcome.converted == 0 => Turn::Ends,
        (Status::Done, _) => {
            if outcome.used == 0 {
                Turn::Stops(RecordWhy::Stalled)
            } else {
                Turn::Goes
            }
        }
        (Status::InputFailure, Some(Ending::End)) => {
            if outcome.converted == 0 {
                Turn::Ends
            } else {
                Turn::Stops(RecordWhy::Failed(outcome))
            }
        }
        _ => Turn::Stops(RecordWhy::Failed(outcome)),
    }
}
