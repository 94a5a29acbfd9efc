//! How a run ended.
use std::fmt;

/// How an input ends.
#[derive(Clone, Copy, Debug, PartialEq, Eq)]
pub enum Ending {
    /// No byte follows.
    End,
    /// A read failed.
    Fault,
}

/// How a run ended.
#[derive(Clone, Copy, Debug, PartialEq, Eq)]
pub enum Status {
    /// Each directive has passed.
    Done,
    /// The input ended, or a read failed, where a byte was due (C11 7.21.6.2p4).
    InputFailure,
    /// The bytes that stand there don't match (C11 7.21.6.2p4).
    MatchingFailure,
    /// The destination's kind doesn't hold the integer.
    OutOfRange,
    /// The run would consume more bytes than its limit.
    TooLong,
    /// Memory for a text was refused.
    NoMemory,
}

impl Status {
    ghost use Rattle.std.specs.Prelude.{◌≡◌};
    ghost use Rattle.sf_report.specs.Wording.{status_text};

    /// The words for it, as `input failure`.
    pub fn text(self) -> &'static str
        ensures { result.now ≡ status_text self }
    {
        match self {
            Status::Done => "done",
            Status::InputFailure => "input failure",
            Status::MatchingFailure => "matching failure",
            Status::OutOfRange => "out of range",
            Status::TooLong => "too long",
            Status::NoMemory => "out of memory",
        }
    }
}

/// What a run came to, but for its values.
#[derive(Clone, Copy, Debug, PartialEq, Eq)]
pub struct Outcome {
    /// Whether each directive has passed, and else how the run failed (C11 7.21.6.2p4).
    pub status: Status,
    /// The directive that failed, counted from 1; 0 for Done.
    pub at: u16,
    /// How many conversions stored an item.
    pub assigned: u8,
    /// How many conversions completed, the suppressed ones too.
    pub converted: u16,
    /// How many bytes were consumed.
    pub used: u32,
    /// The ending of the input, where the run met it.
    pub met: Option<Ending>,
}

/// As `matching failure at 2, used 5, assigned 1`.
impl fmt::Display for Outcome {
    ghost use Rattle.std.specs.Prelude.{Some};
    ghost use Rattle.sf_report.specs.Wording.{outcome_text};

    ghost output = { λ outcome. Some (outcome_text outcome) };

    fn fmt<W: fmt::Write>(&self, f: &mut fmt::Formatter<W>) -> fmt::Result {
        let status = self.status.text();
        let at = self.at;
        let used = self.used;
        let assigned = self.assigned;
        write!(f, "{status} at {at}, used {used}, assigned {assigned}")
    }
}
