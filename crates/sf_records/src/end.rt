//! How the loop over the records of an input ends.
ghost use Rattle.std.specs.Prelude.{◌≡◌, Some};
ghost use Rattle.sf_records.specs.Records.{ended, status_by};
ghost use Rattle.sf_records.specs.Texts.{tool_fault_text};

use sf_run::Outcome;
use std::error::Error;
use std::fmt;

/// Why the records of an input stopped before its end.
#[derive(Clone, Copy, Debug, PartialEq, Eq)]
pub enum ToolFault {
    /// The run with this number, counted from 1, was no match.
    Failed { number: u32, outcome: Outcome },
    /// The run with this number, counted from 1, consumed no byte.
    Stalled { number: u32 },
    /// The values of the run with this number, counted from 1, don't fit the pair of formats.
    Unfit { number: u32 },
    /// As many records were written as may be.
    TooMany,
    /// The source failed in the run with this number, counted from 1.
    Read { number: u32 },
    /// The sink failed.
    Write,
    /// Memory was refused.
    Memory,
}

/// How the loop over the records of an input ended.
#[derive(Clone, Copy, Debug, PartialEq, Eq)]
pub struct ToolEnd {
    /// The exit status.
    pub status: u8,
    /// How many records were written in full.
    pub records: u32,
    /// None for a clean end.
    pub fault: Option<ToolFault>,
}

impl ToolFault {
    /// The exit status where this is the fault.
    pub fn status(self) -> u8
        ensures { result ≡ status_by (Some self) }
    {
        match self {
            ToolFault::Failed { .. }
            | ToolFault::Stalled { .. }
            | ToolFault::Unfit { .. }
            | ToolFault::TooMany => 1,
            ToolFault::Read { .. } | ToolFault::Write => 3,
            ToolFault::Memory => 4,
        }
    }
}

/// The end after this many records.
pub(crate) fn ended_by(records: u32, fault: ToolFault) -> ToolEnd
    ensures { result ≡ ended records (Some fault) }
{
    ToolEnd {
        status: fault.status(),
        records,
        fault: Some(fault),
    }
}

impl fmt::Display for ToolFault {
    ghost output = { λ fault. Some (tool_fault_text fault) };

    fn fmt<W: fmt::Write>(&self, f: &mut fmt::Formatter<W>) -> fmt::Result {
        match *self {
            ToolFault::Failed { number, outcome } => write!(f, "record {number}: {outcome}"),
            ToolFault::Stalled { number } => write!(f, "record {number}: stalled"),
            ToolFault::Unfit { number } => write!(f, "record {number}: values do not fit"),
            ToolFault::TooMany => write!(f, "too many records"),
            ToolFault::Read { number } => write!(f, "record {number}: read fault"),
            ToolFault::Write => write!(f, "write fault"),
            ToolFault::Memory => write!(f, "out of memory"),
        }
    }
}

impl Error for ToolFault {}
