//! Why a list of rows was not written, or not read.
use sf_pair::WriteFault;
use sf_read::ScanRowFault;
use std::error::Error;
use std::fmt;

/// Which row of a list was not written, and why.
#[derive(Clone, Copy, Debug, PartialEq, Eq)]
pub struct WriteRowsFault {
    /// The row, from 1.
    pub row: u64,
    /// What `Pair::write` answered for it.
    pub why: WriteFault,
}

/// Which row of a list was not read, and why.
#[derive(Clone, Copy, Debug, PartialEq, Eq)]
pub struct ReadRowsFault {
    /// The row, from 1.
    pub row: u64,
    /// What the reading of the row came to; Failed where it is no match, or a read failed.
    pub why: ScanRowFault,
}

/// As `row 3: values do not fit`.
impl fmt::Display for WriteRowsFault {
    fn fmt<W: fmt::Write>(&self, f: &mut fmt::Formatter<W>) -> fmt::Result {
        let row = self.row;
        let why = self.why;
        write!(f, "row {row}: {why}")
    }
}

impl Error for WriteRowsFault {}

/// As `row 3: matching failure at 2, used 5, assigned 1`.
impl fmt::Display for ReadRowsFault {
    ghost use Rattle.std.specs.Prelude.{Some};
    ghost use Rattle.sf_pair_read.specs.rows.Texts.{read_rows_fault_text};

    ghost output = { λ fault. Some (read_rows_fault_text fault) };

    fn fmt<W: fmt::Write>(&self, f: &mut fmt::Formatter<W>) -> fmt::Result {
        let ReadRowsFault { row, why } = *self;
        write!(f, "row {row}: {why}")
    }
}

impl Error for ReadRowsFault {}
