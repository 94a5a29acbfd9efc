//! Why words are not printed.
ghost use Rattle.std.specs.Prelude.{◌≡◌, Some};
ghost use Rattle.sf_arguments.specs.Texts.{argument_fault_text, argument_status};
ghost use Rattle.sf_arguments.specs.declared.argument_fault.ArgumentFault.TheVariants.{Memory};

use crate::names::kind_text;
use sf_base::Kind;
use std::alloc::AllocError;
use std::error::Error;
use std::fmt;

/// Why words were not printed by a format, or not whole.
#[derive(Clone, Copy, Debug, PartialEq, Eq)]
pub enum ArgumentFault {
    /// There are not as many words as the format has values.
    WrongCount { expected: u8, got: usize },
    /// The word of this slot, counted from 1, has a bad escape, by the offset of its backslash.
    BadEscape { at: u8, offset: usize },
    /// The word of this slot, counted from 1, is no number of the kind.
    NotInKind { at: u8, kind: Kind },
    /// The word of this slot, which `c` prints, hasn't exactly one byte.
    NotOneByte { at: u8 },
    /// The printed text has more than 2147483647 bytes.
    TooLong,
    /// The output could not be written.
    Write,
    /// Memory was refused.
    Memory,
}

impl From<AllocError> for ArgumentFault {
    ghost from_gives = { λ _ given. given ≡ Memory };

    fn from(_error: AllocError) -> ArgumentFault {
        ArgumentFault::Memory
    }
}

impl ArgumentFault {
    /// The exit status of the command.
    pub fn status(self) -> u8
        ensures { result ≡ argument_status self }
    {
        match self {
            ArgumentFault::WrongCount { .. }
            | ArgumentFault::BadEscape { .. }
            | ArgumentFault::NotInKind { .. }
            | ArgumentFault::NotOneByte { .. }
            | ArgumentFault::TooLong => 2,
            ArgumentFault::Write => 3,
            ArgumentFault::Memory => 4,
        }
    }
}

/// The line on standard error, without its newline.
impl fmt::Display for ArgumentFault {
    ghost output = { λ fault. Some (argument_fault_text fault) };

    fn fmt<W: fmt::Write>(&self, f: &mut fmt::Formatter<W>) -> fmt::Result {
        match *self {
            ArgumentFault::WrongCount { expected, got } => {
                write!(f, "sf: expected {expected} values, got {got}")
            }
            ArgumentFault::BadEscape { at, offset } => {
                write!(f, "sf: value {at}: bad escape at {offset}")
            }
            ArgumentFault::NotInKind { at, kind } => {
                let name = kind_text(kind);
                write!(f, "sf: value {at}: expected {name}")
            }
            ArgumentFault::NotOneByte { at } => write!(f, "sf: value {at}: expected one byte"),
            ArgumentFault::TooLong => write!(f, "sf: text too long"),
            ArgumentFault::Write => write!(f, "sf: write fault"),
            ArgumentFault::Memory => write!(f, "sf: out of memory"),
        }
    }
}

impl Error for ArgumentFault {}
