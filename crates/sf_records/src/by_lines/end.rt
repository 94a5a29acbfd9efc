//! Why a line fails, and how the loop over the lines of an input ends.
ghost use Rattle.std.specs.Prelude.{◌≡◌, ◌<◌, ◌-◌, ◌^◌, Some};
ghost use Rattle.sf_records.specs.by_lines.Coming.{counted, next_by};
ghost use Rattle.sf_records.specs.by_lines.Loops.{fault_after, status_by};
ghost use Rattle.sf_records.specs.by_lines.Texts.{line_fault_text, lines_fault_text};

use crate::by_lines::judge::Judged;
use sf_read::LineRead;
use sf_run::Outcome;
use std::error::Error;
use std::fmt;

/// Why a line fails.
#[derive(Clone, Copy, Debug, PartialEq, Eq)]
pub enum LineFault {
    /// No format is Done on it; the last one came to this.
    Failed { outcome: Outcome },
    /// The last format is Done, and leaves the bytes from this offset on.
    LeftOver { at: u32 },
    /// It has more bytes than the limit.
    TooLong,
    /// It matches, and its values don't fit.
    Unfit,
}

/// Why the lines of an input stopped before its end, where it was none of them.
#[derive(Clone, Copy, Debug, PartialEq, Eq)]
pub enum LinesFault {
    /// The source failed in the line with this number, counted from 1.
    Read { line: u64 },
    /// The sink failed.
    Write,
    /// Memory was refused.
    Memory,
    /// There are 2^64 - 1 lines or more, or a line has 2^63 bytes or more.
    TooMany,
}

/// How the loop over the lines of an input ended.
#[derive(Clone, Copy, Debug, PartialEq, Eq)]
pub struct LinesEnd {
    /// The exit status: 0 where no line failed.
    pub status: u8,
    /// How many lines were written in full.
    pub written: u64,
    /// How many lines failed.
    pub failed: u64,
    /// None where the loop came to the end of the input, or to a line at which it stops.
    pub fault: Option<LinesFault>,
}

/// How many lines were written, and how many failed.
#[derive(Clone, Copy)]
pub(crate) struct Counts {
    pub(crate) written: u64,
    pub(crate) failed: u64,
}

/// Without the number of the line.
impl fmt::Display for LineFault {
    ghost output = { λ fault. Some (line_fault_text fault) };

    fn fmt<W: fmt::Write>(&self, f: &mut fmt::Formatter<W>) -> fmt::Result {
        match *self {
            LineFault::Failed { outcome } => write!(f, "{outcome}"),
            LineFault::LeftOver { at } => write!(f, "left over at {at}"),
            LineFault::TooLong => write!(f, "too long"),
            LineFault::Unfit => write!(f, "values do not fit"),
        }
    }
}

impl Error for LineFault {}

impl fmt::Display for LinesFault {
    ghost output = { λ fault. Some (lines_fault_text fault) };

    fn fmt<W: fmt::Write>(&self, f: &mut fmt::Formatter<W>) -> fmt::Result {
        match *self {
            LinesFault::Read { line } => write!(f, "line {line}: read fault"),
            LinesFault::Write => write!(f, "write fault"),
            LinesFault::Memory => write!(f, "out of memory"),
            LinesFault::TooMany => write!(f, "too many lines"),
        }
    }
}

impl Error for LinesFault {}

impl LinesFault {
    /// The exit status where this is the fault, whatever the lines before it came to.
    pub fn status(self) -> u8
        ensures { result ≡ status_by 0 (Some self) }
    {
        match self {
            LinesFault::TooMany => 1,
            LinesFault::Read { .. } | LinesFault::Write => 3,
            LinesFault::Memory => 4,
        }
    }
}

/// The exit status after so many lines that failed.
pub(crate) fn status(failed: u64, fault: Option<LinesFault>) -> u8
    ensures { result ≡ status_by failed fault }
{
    match fault {
        None => u8::from(failed > 0),
        Some(fault) => fault.status(),
    }
}

impl Counts {
    /// With what came of one more line.
    pub(crate) fn with(self, judged: &Judged) -> Counts
        requires written { self.written < 2 ^ 64 - 1 }
        requires failed { self.failed < 2 ^ 64 - 1 }
        ensures { result ≡ counted judged.now self }
    {
        let mut counts = self;
        match judged {
            Judged::Written => counts.written += 1,
            Judged::Failed | Judged::Cut(_) => counts.failed += 1,
            Judged::Skipped | Judged::Stopped(_) | Judged::Unread(_) => {}
        }
        counts
    }

    /// The end of the loop after these.
    pub(crate) fn ended(self, fault: Option<LinesFault>) -> LinesEnd
        ensures { result ≡ record {
          status = status_by self.failed fault;
          written = self.written;
          failed =
              self.failed;
          fault = fault;
        } }
    {
        LinesEnd {
            status: status(self.failed, fault),
            written: self.written,
            failed: self.failed,
            fault,
        }
    }
}

/// Why the loop stops where the line with this number was not read, or its rest was not.
pub(crate) fn read_fault(read: LineRead, line: u64) -> Option<LinesFault>
    ensures { result ≡ fault_after line read }
{
    match read {
        LineRead::Line | LineRead::TooLong | LineRead::End => None,
        LineRead::Fault => Some(LinesFault::Read { line }),
        LineRead::Endless => Some(LinesFault::TooMany),
        LineRead::NoMemory => Some(LinesFault::Memory),
    }
}

/// Whether the loop goes on after the line with this number; else the fault with which it ends.
pub(crate) fn next_step(
    judged: Judged,
    keep_going: bool,
    number: u64,
) -> Result<(), Option<LinesFault>>
    ensures { result ≡ next_by keep_going number judged }
{
    match judged {
        Judged::Skipped | Judged::Written => Ok(()),
        Judged::Failed => { if keep_going { Ok(()) } else { Err(None) } }
        Judged::Stopped(fault) => Err(Some(fault)),
        Judged::Cut(read) | Judged::Unread(read) => Err(read_fault(read, number)),
    }
}
