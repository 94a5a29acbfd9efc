//! Why the command ends, and what it says then.
ghost use Rattle.std.specs.Prelude.{◌≡◌, Some};
ghost use Rattle.sf_messages.specs.Texts.{command_fault_text, status_of};
ghost use Rattle.sf_messages.specs.Faults.{format_fault, print_format_fault};
ghost use Rattle.sf_messages.specs.declared.fault.CommandFault.TheVariants.{Memory};

use crate::names::name_text;
use sf_arguments::{ArgumentFault, kind_text};
use sf_format::{FormatFault, FormatWhy};
use sf_forms::PrintMismatch;
use sf_pair::PairFault;
use sf_records::{LinesFault, ToolFault};
use std::alloc::AllocError;
use std::error::Error;
use std::fmt;

/// Which of a command's formats.
#[derive(Clone, Copy, Debug, PartialEq, Eq)]
pub enum FormatName {
    Scan,
    Print,
}

/// Why the command did not end cleanly.
#[derive(Clone, Copy, Debug, PartialEq, Eq)]
pub enum CommandFault {
    /// A format's text has a bad escape, by the offset of its backslash in the word.
    BadEscape { name: FormatName, at: usize },
    /// The scan format is refused.
    Format(FormatFault),
    /// The print format is refused.
    PrintFormat(FormatFault),
    /// The words after the print format were not printed, or not whole.
    Values(ArgumentFault),
    /// The records stopped before the end of the input.
    Record(ToolFault),
    /// The lines stopped before the end of the input.
    Lines(LinesFault),
    /// The output could not be written.
    Write,
    /// Memory was refused.
    Memory,
    /// The formats are no pair, by its first fault.
    Pair(PairFault),
    /// The print format can't print what a scan format gives.
    Unprintable(PrintMismatch),
    /// A scan format gives `expected` values, and there are `got` names.
    NameCount { expected: u8, got: usize },
    /// The name with this number is empty. Names are counted from 1.
    NameEmpty { number: usize },
    /// The name with this number stands twice. `name_twice_line` is the line that says the name itself.
    NameTwice { number: usize },
}

/// The command's fault for that of a scan format.
pub fn format_fault(fault: FormatFault) -> CommandFault
    ensures { result ≡ format_fault fault }
{
    match fault.why {
        FormatWhy::NoMemory => CommandFault::Memory,
        _ => CommandFault::Format(fault),
    }
}

/// The command's fault for that of a print format.
pub fn print_format_fault(fault: FormatFault) -> CommandFault
    ensures { result ≡ print_format_fault fault }
{
    match fault.why {
        FormatWhy::NoMemory => CommandFault::Memory,
        _ => CommandFault::PrintFormat(fault),
    }
}

impl From<AllocError> for CommandFault {
    ghost from_gives = { λ _ given. given ≡ Memory };

    fn from(_error: AllocError) -> CommandFault {
        CommandFault::Memory
    }
}

impl CommandFault {
    /// The exit status of the command.
    pub fn status(self) -> u8
        ensures { result ≡ status_of self }
    {
        match self {
            CommandFault::Record(fault) => fault.status(),
            CommandFault::Lines(fault) => fault.status(),
            CommandFault::Values(fault) => fault.status(),
            CommandFault::BadEscape { .. }
            | CommandFault::Format(_)
            | CommandFault::PrintFormat(_)
            | CommandFault::Pair(_)
            | CommandFault::Unprintable(_)
            | CommandFault::NameCount { .. }
            | CommandFault::NameEmpty { .. }
            | CommandFault::NameTwice { .. } => 2,
            CommandFault::Write => 3,
            CommandFault::Memory => 4,
        }
    }
}

/// The line on standard error, without its newline.
impl fmt::Display for CommandFault {
    ghost output = { λ fault. Some (command_fault_text fault) };

    fn fmt<W: fmt::Write>(&self, f: &mut fmt::Formatter<W>) -> fmt::Result {
        match *self {
            CommandFault::BadEscape { name, at } => {
                let name = name_text(name);
                write!(f, "sf: {name}: bad escape at {at}")
            }
            CommandFault::Format(fault) => {
                let name = name_text(FormatName::Scan);
                let why = fault.why.text();
                let at = fault.at;
                write!(f, "sf: {name}: {why} at {at}")
            }
            CommandFault::PrintFormat(fault) => {
                let name = name_text(FormatName::Print);
                let why = fault.why.text();
                let at = fault.at;
                write!(f, "sf: {name}: {why} at {at}")
            }
            CommandFault::Values(fault) => write!(f, "{fault}"),
            CommandFault::Record(fault) => write!(f, "sf: {fault}"),
            CommandFault::Lines(fault) => write!(f, "sf: {fault}"),
            CommandFault::Write => write!(f, "sf: write fault"),
            CommandFault::Memory => write!(f, "sf: out of memory"),
            CommandFault::Pair(fault) => {
                let why = fault.why.text();
                let at = fault.at;
                write!(f, "sf: pair: {why} at {at}")
            }
            CommandFault::Unprintable(mismatch) => match mismatch {
                PrintMismatch::Count {
                    values,
                    destinations,
                } => write!(
                    f,
                    "sf: print format: {values} values, the scan format gives {destinations}"
                ),
                PrintMismatch::Kinds { slot, print, scan } => {
                    let print = kind_text(print);
                    let scan = kind_text(scan);
                    write!(
                        f,
                        "sf: print format: value {slot} is {print}, the scan format gives {scan}"
                    )
                }
            },
            CommandFault::NameCount { expected, got } => {
                write!(f, "sf: names: expected {expected}, got {got}")
            }
            CommandFault::NameEmpty { number } => write!(f, "sf: names: name {number} is empty"),
            CommandFault::NameTwice { number } => {
                write!(f, "sf: names: name {number} stands twice")
            }
        }
    }
}

impl Error for CommandFault {}
