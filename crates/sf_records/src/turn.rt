//! What the record loop does after a run.
ghost use Rattle.std.specs.Prelude.{◌≡◌};
ghost use Rattle.sf_records.specs.Turns.{turn_by, writes};

use sf_run::{Ending, Outcome, Status};

/// What the record loop does after a run.
#[derive(Clone, Copy, Debug, PartialEq, Eq)]
pub(crate) enum Turn {
    /// The record's line is written, and the next run follows.
    Goes,
    /// The input has no further record: it ended before the first item, or each item is missing at its end.
    Ends,
    /// The source failed; a record that was complete by then is written.
    Cut { written: bool },
    /// The record is no match.
    Failed,
    /// The record has no byte, so that the next run would be the same.
    Stalled,
    /// The record can't be written.
    Unfit,
    /// Memory for a text of the record was refused.
    RanOut,
}

impl Turn {
    /// Whether the record's line is written.
    #[inline(always)]
    pub(crate) fn writes(self) -> bool
        ensures { result ≡ writes self }
    {
        matches!(self, Turn::Goes | Turn::Cut { written: true })
    }
}

/// What the record loop does after a run; `optional` says whether items of the format may be missing. After most it
/// goes on, which is answered first.
#[inline(always)]
pub(crate) fn next_turn(outcome: Outcome, optional: bool) -> Turn
    ensures { result ≡ turn_by optional outcome.status outcome.met outcome.used outcome.converted }
{
    if let (Status::Done, None) = (outcome.status, outcome.met)
        && outcome.used > 0
    {
        return Turn::Goes;
    }
    turn_after(outcome, optional)
}

#[inline(never)]
fn turn_after(outcome: Outcome, optional: bool) -> Turn
    ensures { result ≡ turn_by optional outcome.status outcome.met outcome.used outcome.converted }
{
    match (outcome.status, outcome.met) {
        (Status::NoMemory, _) => Turn::RanOut,
        (Status::Done, Some(Ending::Fault)) => Turn::Cut {
            written: outcome.used > 0,
        },
        (_, Some(Ending::Fault)) => Turn::Cut { written: false },
        (Status::Done, Some(Ending::End)) if optional && outcome.converted == 0 => Turn::Ends,
        (Status::Done, _) => {
            if outcome.used == 0 {
                Turn::Stalled
            } else {
                Turn::Goes
            }
        }
        (Status::InputFailure, Some(Ending::End)) => {
            if outcome.converted == 0 {
                Turn::Ends
            } else {
                Turn::Failed
            }
        }
        _ => Turn::Failed,
    }
}
