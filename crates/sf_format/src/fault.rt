//! What is wrong with a format.
use std::alloc::{AllocError, AllocFailed};
use std::error::Error;
use std::fmt;

/// Why a format is refused.
#[derive(Clone, Copy, Debug, PartialEq, Eq)]
pub enum FormatWhy {
    /// F1: the text ends inside a conversion specification, before its letter.
    Truncated,
    /// F2: the width is 0.
    ZeroWidth,
    /// F3: the width is above 65535.
    TooWide,
    /// F4: a byte that is no letter of a conversion stands where one is due.
    UnknownLetter,
    /// F5: a letter, a length or a mark that C or POSIX has and formats here do not.
    LeftOut,
    /// F6: a length other than `l` with `c`, `s`, `[` or the letter of a float.
    BadLength,
    /// F7: the scanlist does not close.
    OpenSet,
    /// F8: a range of a scanlist whose low end is above its high end.
    BackwardRange,
    /// F9: `n` with `*`, `?` or a width.
    BadCount,
    /// F10: a destination or value with a number and one without.
    MixedNumbering,
    /// F11: the number of a destination or value is 0 or above 32, or stands with a `*`.
    BadNumber,
    /// F12: a number stands twice.
    NumberTwice,
    /// F13: a number is above the count of the destinations or values.
    NumberGap,
    /// F14: a NUL.
    Nul,
    /// F15: more than 4096 bytes.
    FormatTooLong,
    /// F16: the 33rd destination or value without numbers.
    TooManyDestinations,
    /// F17: a flag or a precision that the letter does not have.
    BadFlag,
    /// F18: the precision is above 255.
    PrecisionTooLarge,
    /// F19: memory was refused.
    NoMemory,
    /// F20: `!` with `c`, `[` or `n`, or `=` with `c`, `n` or without a width, in scan formats of profile 3.
    BadMark,
    /// F21: a group that is empty, open or in another, or begins with white space, `n` or a conversion with `?`; or a
    /// `%)` without a group. In scan formats of profile 3.
    BadGroup,
}

/// Why a format is refused, and the byte at which that was found, counted from 0.
#[derive(Clone, Copy, Debug, PartialEq, Eq)]
pub struct FormatFault {
    /// The byte of the text at which it was found, from 0.
    pub at: u16,
    /// Why the text is no format.
    pub why: FormatWhy,
}

impl<T: Drop> From<AllocFailed<T>> for FormatFault {
    ghost use Rattle.std.specs.Prelude.{◌≡◌};
    ghost use Rattle.sf_format.specs.Faults.{no_memory};

    ghost from_gives = { λ _ fault. fault ≡ no_memory };

    fn from(_refused: AllocFailed<T>) -> FormatFault {
        FormatFault {
            at: 0,
            why: FormatWhy::NoMemory,
        }
    }
}

impl From<AllocError> for FormatFault {
    ghost use Rattle.std.specs.Prelude.{◌≡◌};
    ghost use Rattle.sf_format.specs.Faults.{no_memory};

    ghost from_gives = { λ _ fault. fault ≡ no_memory };

    fn from(_refused: AllocError) -> FormatFault {
        FormatFault {
            at: 0,
            why: FormatWhy::NoMemory,
        }
    }
}

impl FormatWhy {
    ghost use Rattle.std.specs.Prelude.{◌≡◌};
    ghost use Rattle.sf_format.specs.Texts.{why_text};

    /// Its code and its name, as `F8 BackwardRange`.
    pub fn text(self) -> &'static str
        ensures { result.now ≡ why_text self }
    {
        match self {
            FormatWhy::Truncated => "F1 Truncated",
            FormatWhy::ZeroWidth => "F2 ZeroWidth",
            FormatWhy::TooWide => "F3 TooWide",
            FormatWhy::UnknownLetter => "F4 UnknownLetter",
            FormatWhy::LeftOut => "F5 LeftOut",
            FormatWhy::BadLength => "F6 BadLength",
            FormatWhy::OpenSet => "F7 OpenSet",
            FormatWhy::BackwardRange => "F8 BackwardRange",
            FormatWhy::BadCount => "F9 BadCount",
            FormatWhy::MixedNumbering => "F10 MixedNumbering",
            FormatWhy::BadNumber => "F11 BadNumber",
            FormatWhy::NumberTwice => "F12 NumberTwice",
            FormatWhy::NumberGap => "F13 NumberGap",
            FormatWhy::Nul => "F14 Nul",
            FormatWhy::FormatTooLong => "F15 FormatTooLong",
            FormatWhy::TooManyDestinations => "F16 TooManyDestinations",
            FormatWhy::BadFlag => "F17 BadFlag",
            FormatWhy::PrecisionTooLarge => "F18 PrecisionTooLarge",
            FormatWhy::NoMemory => "F19 NoMemory",
            FormatWhy::BadMark => "F20 BadMark",
            FormatWhy::BadGroup => "F21 BadGroup",
        }
    }
}

/// The code and the name, as `F8 BackwardRange`.
impl fmt::Display for FormatWhy {
    ghost use Rattle.std.specs.Prelude.{Some};
    ghost use Rattle.sf_format.specs.Texts.{why_text};

    ghost output = { λ why. Some (why_text why) };

    fn fmt<W: fmt::Write>(&self, f: &mut fmt::Formatter<W>) -> fmt::Result {
        let text = self.text();
        write!(f, "{text}")
    }
}

impl Error for FormatWhy {}

/// The code, the name and the place, as `F8 BackwardRange at 2`.
impl fmt::Display for FormatFault {
    ghost use Rattle.std.specs.Prelude.{Some};
    ghost use Rattle.sf_format.specs.Texts.{fault_text};

    ghost output = { λ fault. Some (fault_text fault) };

    fn fmt<W: fmt::Write>(&self, f: &mut fmt::Formatter<W>) -> fmt::Result {
        let FormatFault { at, why } = *self;
        write!(f, "{why} at {at}")
    }
}

impl Error for FormatFault {}
