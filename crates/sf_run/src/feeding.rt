//! What a scanner answers when it is started and fed.
use std::error::Error;
use std::fmt;

/// Why a run was not started.
#[derive(Clone, Copy, Debug, PartialEq, Eq)]
pub enum StartFault {
    /// Memory was refused.
    NoMemory,
    /// The limit is above 2147483647.
    BadLimit,
    /// The format has no width sum.
    Unbounded,
    /// The store is too small for the width sum or the destinations.
    TooSmall,
}

impl fmt::Display for StartFault {
    ghost use Rattle.std.specs.Prelude.{Some};
    ghost use Rattle.sf_run.specs.Wording.{start_fault_text};

    ghost output = { λ fault. Some (start_fault_text fault) };

    fn fmt<W: fmt::Write>(&self, f: &mut fmt::Formatter<W>) -> fmt::Result {
        match *self {
            StartFault::NoMemory => write!(f, "out of memory"),
            StartFault::BadLimit => write!(f, "limit above 2147483647"),
            StartFault::Unbounded => write!(f, "the format has no width sum"),
            StartFault::TooSmall => write!(f, "the store is too small"),
        }
    }
}

impl Error for StartFault {}

/// Whether a scanner may take another byte.
#[derive(Clone, Copy, Debug, PartialEq, Eq)]
pub enum FeedState {
    /// Some byte would be taken next.
    Wait,
    /// The run has ended.
    Ended,
}

/// How many bytes of a piece were taken, and what the scanner does now.
#[derive(Clone, Copy, Debug, PartialEq, Eq)]
pub struct Fed {
    /// How many bytes of the piece the run has consumed, from its first on.
    pub taken: usize,
    /// Whether the scanner waits for more bytes.
    pub state: FeedState,
}
