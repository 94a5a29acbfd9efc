//! What a call answers, and what variants are in C.
ghost use Rattle.std.specs.Prelude.{◌≡◌};
ghost use Rattle.sf_c.specs.Numbers.{format_number, kind_number, met_number, pair_number, profile_of, slot_number};
ghost use Rattle.sf_c.specs.Numbers.{status_number};

use sf_base::Kind;
use sf_format::{FormatWhy, Profile};
use sf_pair::PairWhy;
use sf_run::{Ending, Status};

/// The call did what it was asked for.
pub(crate) const OK: i32 = 0;

/// The format is none; of a pair, the print format.
pub(crate) const BAD_FORMAT: i32 = 1;

/// The limit is above 2147483647.
pub(crate) const BAD_LIMIT: i32 = 2;

/// Memory was refused.
pub(crate) const NO_MEMORY: i32 = 3;

/// There is no room for the values, or for their texts.
pub(crate) const NO_ROOM: i32 = 4;

/// A value to print has no kind, or its number isn't of its kind, or its text isn't within the texts; or there are more
/// than 32.
pub(crate) const BAD_VALUE: i32 = 5;

/// The values aren't those of the print format.
pub(crate) const NOT_PRINTED: i32 = 6;

/// The scan format of a pair is none.
pub(crate) const BAD_SCAN_FORMAT: i32 = 7;

/// The formats are no pair.
pub(crate) const NO_PAIR: i32 = 8;

/// There is no such profile.
pub(crate) const BAD_PROFILE: i32 = 9;

/// The number of the kind of a text.
pub(crate) const TEXT: u8 = 9;

/// The profile with this number.
pub(crate) fn profile_of(number: u8) -> Option<Profile>
    ensures { result ≡ profile_of number }
{
    if number == 1 {
        Some(Profile::One)
    } else if number == 2 {
        Some(Profile::Two)
    } else if number == 3 {
        Some(Profile::Three)
    } else {
        None
    }
}

/// The number of a fault, as the 8 of F8.
pub(crate) fn format_number(why: FormatWhy) -> u8
    ensures { result ≡ format_number why }
{
    match why {
        FormatWhy::Truncated => 1,
        FormatWhy::ZeroWidth => 2,
        FormatWhy::TooWide => 3,
        FormatWhy::UnknownLetter => 4,
        FormatWhy::LeftOut => 5,
        FormatWhy::BadLength => 6,
        FormatWhy::OpenSet => 7,
        FormatWhy::BackwardRange => 8,
        FormatWhy::BadCount => 9,
        FormatWhy::MixedNumbering => 10,
        FormatWhy::BadNumber => 11,
        FormatWhy::NumberTwice => 12,
        FormatWhy::NumberGap => 13,
        FormatWhy::Nul => 14,
        FormatWhy::FormatTooLong => 15,
        FormatWhy::TooManyDestinations => 16,
        FormatWhy::BadFlag => 17,
        FormatWhy::PrecisionTooLarge => 18,
        FormatWhy::NoMemory => 19,
        FormatWhy::BadMark => 20,
        FormatWhy::BadGroup => 21,
    }
}

/// The number of a fault, as the 6 of Q6.
pub(crate) fn pair_number(why: PairWhy) -> u8
    ensures { result ≡ pair_number why }
{
    match why {
        PairWhy::NotAligned => 1,
        PairWhy::KindDiffers => 2,
        PairWhy::NumberDiffers => 3,
        PairWhy::NoWidth => 4,
        PairWhy::TooNarrow => 5,
        PairWhy::RunsOn => 6,
        PairWhy::OpenEnd => 7,
        PairWhy::LeadingZero => 8,
        PairWhy::NotWritten => 9,
        PairWhy::BadFlagHere => 10,
        PairWhy::NoValues => 11,
        PairWhy::MayBeMissing => 13,
        PairWhy::BadMark => 14,
    }
}

/// The number of a kind.
pub(crate) fn kind_number(kind: Kind) -> u8
    ensures { result ≡ kind_number kind }
{
    match kind {
        Kind::I8 => 1,
        Kind::I16 => 2,
        Kind::I32 => 3,
        Kind::I64 => 4,
        Kind::U8 => 5,
        Kind::U16 => 6,
        Kind::U32 => 7,
        Kind::U64 => 8,
        Kind::Text => 9,
        Kind::F32 => 10,
        Kind::F64 => 11,
    }
}

/// The number of the kind of a slot; 0 where there is no such slot.
pub(crate) fn slot_number(kind: Option<Kind>) -> u8
    ensures { result ≡ slot_number kind }
{
    match kind {
        Some(kind) => kind_number(kind),
        None => 0,
    }
}

/// The number of a status.
pub(crate) fn status_number(status: Status) -> u8
    ensures { result ≡ status_number status }
{
    match status {
        Status::Done => 0,
        Status::InputFailure => 1,
        Status::MatchingFailure => 2,
        Status::OutOfRange => 3,
        Status::TooLong => 4,
        Status::NoMemory => 5,
    }
}

/// 1 where the run met the end of the text.
pub(crate) fn met_number(met: Option<Ending>) -> u8
    ensures { result ≡ met_number met }
{
    match met {
        None => 0,
        Some(_) => 1,
    }
}
