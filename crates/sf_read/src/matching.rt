//! How much of a text a match has to use.
ghost use Rattle.std.specs.Prelude.{◌≡◌};
ghost use Rattle.sf_read.specs.Matches.{leaves};

use sf_run::{Outcome, Status};

/// How much of a text, or of a line, a match has to use.
#[derive(Clone, Copy, Debug, PartialEq, Eq)]
pub enum Match {
    /// Its front: what the format leaves is not looked at, as with sscanf (C11 7.21.6.7).
    Front,
    /// The whole of it: a text of which bytes are left over is no match.
    Whole,
}

impl Match {
    /// Whether a run that came to this is Done and leaves some of a text of `len` bytes that it had to use.
    #[inline(always)]
    pub fn leaves(self, outcome: Outcome, len: usize) -> bool
        ensures { result ≡ leaves self outcome.status outcome.used len }
    {
        match (self, outcome.status) {
            (Match::Whole, Status::Done) => (outcome.used as usize) < len,
            _ => false,
        }
    }
}
