//! Why a loop over records stopped before the end of its input.
use sf_run::Outcome;
use std::error::Error;
use std::fmt;

/// Why there is no next record, where the input has not ended cleanly.
#[derive(Clone, Copy, Debug, PartialEq, Eq)]
pub enum RecordWhy {
    /// The run of the record was no match.
    Failed(Outcome),
    /// The run of the record consumed no byte, so that the next one would be the same.
    Stalled,
    /// A read failed.
    Read,
    /// Memory was refused, for a text of the record or for its row.
    NoMemory,
}

/// Where and why a loop over records stopped.
#[derive(Clone, Copy, Debug, PartialEq, Eq)]
pub struct RecordFault {
    /// The record, from 1; it stays at 2^64 - 1.
    pub number: u64,
    /// The line where its run stopped, from 1: one more than the newlines that the runs consumed; it stays at 2^64 - 1.
    pub line: u64,
    /// Why there is no such record.
    pub why: RecordWhy,
}

/// As `matching failure at 2, used 5, assigned 1`.
impl fmt::Display for RecordWhy {
    ghost use Rattle.std.specs.Prelude.{Some};
    ghost use Rattle.sf_loops.specs.Texts.{why_text};

    ghost output = { λ why. Some (why_text why) };

    fn fmt<W: fmt::Write>(&self, f: &mut fmt::Formatter<W>) -> fmt::Result {
        match *self {
            RecordWhy::Failed(outcome) => write!(f, "{outcome}"),
            RecordWhy::Stalled => write!(f, "no byte was used"),
            RecordWhy::Read => write!(f, "read fault"),
            RecordWhy::NoMemory => write!(f, "out of memory"),
        }
    }
}

/// As `record 3, line 3: matching failure at 2, used 5, assigned 1`.
impl fmt::Display for RecordFault {
    ghost use Rattle.std.specs.Prelude.{Some};
    ghost use Rattle.sf_loops.specs.Texts.{fault_text};

    ghost output = { λ fault. Some (fault_text fault) };

    fn fmt<W: fmt::Write>(&self, f: &mut fmt::Formatter<W>) -> fmt::Result {
        let number = self.number;
        let line = self.line;
        let why = self.why;
        write!(f, "record {number}, line {line}: {why}")
    }
}

impl Error for RecordFault {}
