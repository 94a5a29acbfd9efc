//! Questions about how a run ended.
ghost use Rattle.std.specs.Prelude.{◌≡◌, ◌↔◌, IsTrue};
ghost use Rattle.sf_run.specs.outcome.Outcome.{Outcome};
ghost use Rattle.sf_run.specs.outcome.Status.TheVariants as status;
ghost use Rattle.sf_loops.specs.Turns.{IsEnd};

use sf_format::ScanFormat;
use sf_run::{Ending, Outcome, Status};

/// Questions about how a run ended, as methods of its `Outcome`.
pub trait Ended {
    // What the run came to, but for its values.
    ghost outcome: { Self → Outcome };

    /// Whether each directive has passed, so that fscanf would return the number of items assigned (C11 7.21.6.2p16).
    fn is_done(&self) -> bool
        ensures { IsTrue result ↔ ((outcome self.now).status ≡ status.Done) };

    /// Whether the input has no further record: it ended before the first conversion had completed, so that fscanf
    /// would return EOF (C11 7.21.6.2p16), and no read failed; or each item of a format with a `?` or a group was
    /// missing there.
    fn is_end(&self, format: &ScanFormat) -> bool
        ensures { IsTrue result ↔ IsEnd format.now (outcome self.now) };
}

impl Ended for Outcome {
    ghost outcome = { λ outcome. outcome };

    fn is_done(&self) -> bool {
        is_done(*self)
    }

    fn is_end(&self, format: &ScanFormat) -> bool {
        is_end(format, *self)
    }
}

/// Whether each directive has passed, so that fscanf would return the number of items assigned (C11 7.21.6.2p16).
pub fn is_done(outcome: Outcome) -> bool
    ensures { IsTrue result ↔ (outcome.status ≡ status.Done) }
{
    outcome.status == Status::Done
}

/// Whether the input has no further record: it ended before the first conversion had completed, so that fscanf would
/// return EOF (C11 7.21.6.2p16), and no read failed; or each item of a format with a `?` or a group was missing there.
/// A loop over records ends there, as `Reports` does.
pub fn is_end(format: &ScanFormat, outcome: Outcome) -> bool
    ensures { IsTrue result ↔ IsEnd format.now outcome }
{
    let ended = match outcome.status {
        Status::InputFailure => true,
        Status::Done => format.has_optional(),
        _ => false,
    };
    ended && outcome.converted == 0 && outcome.met == Some(Ending::End)
}
