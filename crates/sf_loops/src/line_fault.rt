//! Why a loop over lines has no row of a line.
use crate::shown::Shown;
use sf_run::Outcome;
use std::error::Error;
use std::fmt;

/// Why there is no row, or no report, of a line.
#[derive(Clone, Copy, Debug, PartialEq, Eq)]
pub enum LineWhy {
    /// The run over the line was no match. The loop goes on with the next line.
    Failed(Outcome),
    /// The run is Done and leaves bytes of a line that it had to use whole. The loop goes on with the next line.
    LeftOver {
        /// How many bytes the run used.
        at: u32,
    },
    /// The line has more bytes than the limit. The loop goes on with the next line.
    TooLong,
    /// A read failed within the line.
    Read,
    /// The line has 2^63 bytes or more.
    Endless,
    /// Memory was refused: for the line, for a text of its values, or for its row.
    NoMemory,
}

/// A line that has no row: which one, what it says, and why.
#[derive(Debug, Drop)]
pub struct LineFault {
    /// The line, from 1; it stays at 2^64 - 1.
    pub number: u64,
    /// The line without its newline. Of one that is too long, its first bytes; of one that wasn't read, nothing.
    pub text: Vec<u8>,
    /// Why it has no row.
    pub why: LineWhy,
}

/// Where and why a loop over lines has ended before the end of its input.
#[derive(Clone, Copy, Debug, PartialEq, Eq)]
pub(crate) struct LineStop {
    pub(crate) number: u64,
    pub(crate) why: LineWhy,
}

impl LineWhy {
    ghost use Rattle.std.specs.Prelude.{◌≡◌};
    ghost use Rattle.sf_loops.specs.LineTexts.{goes_on};

    /// Whether the loop goes on with the next line: the line is no match, has bytes left over, or is too long. After
    /// any other fault it answers that fault again.
    pub fn goes_on(self) -> bool
        ensures { result ≡ goes_on self }
    {
        matches!(
            self,
            LineWhy::Failed(_) | LineWhy::LeftOver { .. } | LineWhy::TooLong
        )
    }
}

/// As `matching failure at 2, used 5, assigned 1`.
impl fmt::Display for LineWhy {
    ghost use Rattle.std.specs.Prelude.{Some};
    ghost use Rattle.sf_loops.specs.LineTexts.{line_why_text};

    ghost output = { λ why. Some (line_why_text why) };

    fn fmt<W: fmt::Write>(&self, f: &mut fmt::Formatter<W>) -> fmt::Result {
        match *self {
            LineWhy::Failed(outcome) => write!(f, "{outcome}"),
            LineWhy::LeftOver { at } => write!(f, "left over at {at}"),
            LineWhy::TooLong => write!(f, "too long"),
            LineWhy::Read => write!(f, "read fault"),
            LineWhy::Endless => write!(f, "endless"),
            LineWhy::NoMemory => write!(f, "out of memory"),
        }
    }
}

/// As `line 3: matching failure at 2, used 5, assigned 1: "12;-7"`.
impl fmt::Display for LineFault {
    ghost use Rattle.std.specs.Prelude.{Some};
    ghost use Rattle.sf_loops.specs.LineTexts.{line_fault_text};

    ghost output = { λ fault. Some (line_fault_text fault) };

    fn fmt<W: fmt::Write>(&self, f: &mut fmt::Formatter<W>) -> fmt::Result {
        let number = self.number;
        let why = self.why;
        write!(f, "line {number}: {why}")?;
        if why.goes_on() {
            let text = Shown(&self.text);
            write!(f, ": {text}")?;
        }
        Ok(())
    }
}

impl Error for LineFault {}
