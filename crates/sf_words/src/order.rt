//! What the words of a command ask for, or why they ask for nothing.
ghost use Rattle.std.specs.Prelude.{◌≡◌};
ghost use Rattle.sf_words.specs.declared.order.WordsFault.TheVariants.{NoMemory};

use std::alloc::AllocError;
use thiserror::Error;

/// What is done with the formats.
#[derive(Clone, Copy, PartialEq, Eq, Debug)]
pub enum Verb {
    /// The directives of a scan format are shown.
    Show,
    /// The records of the input are scanned, or its lines.
    Scan,
    /// Values are printed.
    Print,
    /// A print format and a scan format are checked as a pair.
    Check,
    /// The records of the input, or its lines, are scanned by one format and printed by another.
    Copy,
}

/// By which grammar the formats are read.
#[derive(Clone, Copy, PartialEq, Eq, Debug)]
pub enum Profile {
    /// That of C, without what is left out here.
    One,
    /// The same, with base 2.
    Two,
    /// That of `Two`, with floats, what may be missing, and `!`.
    Three,
}

/// In which form the values of a record are written.
#[derive(Clone, Copy, PartialEq, Eq, Debug)]
pub enum Output {
    /// Values between blanks, texts between quotes.
    Plain,
    /// Values between tabs.
    Tsv,
    /// An array of values.
    Json,
    /// Values between commas, texts between quotes where they need them (RFC 4180).
    Csv,
}

/// When more is said of a fault than its line.
#[derive(Clone, Copy, PartialEq, Eq, Debug)]
pub enum Notes {
    /// Always.
    Always,
    /// Where the error output is a terminal.
    OnTerminal,
    /// Never.
    Never,
}

/// How lines are scanned, each as an input of its own.
#[derive(Clone, Copy, PartialEq, Eq, Debug)]
pub struct LineOptions {
    /// How many lines are passed over first.
    pub skip: u64,
    /// Whether a line that isn't used whole has failed: so it is, too, where formats are read strictly.
    pub whole: bool,
    /// Whether the scan goes on after a line that failed.
    pub keep_going: bool,
    /// Whether nothing is reported of lines that failed.
    pub quiet: bool,
    /// Whether a line that no format reads is passed over.
    pub matching: bool,
}

/// What the words ask for.
#[derive(Debug, Drop)]
pub struct Order {
    /// What is done.
    pub verb: Verb,
    /// By which grammar the formats are read.
    pub profile: Profile,
    /// The most bytes of one record, or of one line.
    pub limit: u32,
    /// Whether what a record gives is written before the next record.
    pub line_buffered: bool,
    /// When more is said of a fault than its line.
    pub notes: Notes,
    /// In which form the values of a record are written: plain for each command but `scan`.
    pub output: Output,
    /// Whether each conversion of a scan is read as if `!` stood in it.
    pub strict: bool,
    /// How lines are scanned, where not records but lines are: for `scan` and `copy`.
    pub lines: Option<LineOptions>,
    /// The print format by which a scan writes its records, as it was given.
    pub print: Option<String>,
    /// The names of a scan's columns, as one text with commas between them.
    pub names: Option<String>,
    /// Whether a scan writes the number of the format that counted.
    pub tag: bool,
    /// The formats of the lines that a scan passes over, as they were given.
    pub ignored: Vec<String>,
    /// Whether the values of a print have no escapes.
    pub raw: bool,
    /// The width of the texts in the scan format that a check answers, 1 to 65535.
    pub width: Option<u16>,
    /// The formats and then the values, as they were given. A scan has one format; one of lines has one or more. A
    /// check has a print format, or that and a scan format.
    pub texts: Vec<String>,
    /// The files that a scan or a copy reads one after the other, as they were given. There are none where it reads
    /// standard input.
    pub files: Vec<String>,
    /// Which of the files is read, by its place among them; as the words are read, none.
    pub file: Option<usize>,
}

/// Why the words ask for nothing that can be done.
#[derive(Debug, Drop, Error)]
pub enum WordsFault {
    /// They ask for help, or for the version: this text.
    #[error("{0}")]
    Help(String),
    /// They are at fault, as this text says.
    #[error("{0}")]
    Usage(String),
    /// Memory was refused.
    #[error("out of memory")]
    NoMemory,
}

impl From<AllocError> for WordsFault {
    ghost from_gives = { λ _ fault. fault ≡ NoMemory };

    fn from(_error: AllocError) -> WordsFault {
        WordsFault::NoMemory
    }
}
