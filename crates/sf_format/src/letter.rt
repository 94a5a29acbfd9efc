//! Letters and lengths of conversion specifications.
ghost use Rattle.std.specs.Prelude.{◌≡◌};
ghost use Rattle.sf_format.specs.Letters.{has_doubles, letter_of, stored_values, sized_kind};
ghost use Rattle.sf_format.specs.Faults.{is_left_out};
ghost use Rattle.sf_format.specs.Rules.{takes_text, takes_double, has_length, is_l};

use crate::directive::{Base, Profile};
use sf_base::Kind;

/// What a letter converts.
#[derive(Clone, Copy)]
pub enum Letter {
    Signed(Base),
    Unsigned(Base),
    Chars,
    Text,
    Set,
    Count,
    Float,
}

/// What a letter stores or prints: numbers with a sign, numbers without one, or texts.
#[derive(Clone, Copy)]
pub enum Values {
    Signed,
    Unsigned,
    Text,
    /// Floats of binary64, which a print format prints.
    Double,
    /// Floats of binary32, or of binary64 with an `l`, which a scan format stores.
    Float,
}

/// The length between the width and the letter.
#[derive(Clone, Copy)]
pub enum Length {
    NoLength,
    HH,
    H,
    LL,
    L,
    J,
    Z,
    T,
}

/// What the byte converts as a letter: the table of the letters of scan formats.
pub fn letter_of(profile: Profile, b: u8) -> Option<Letter>
    ensures { result ≡ letter_of profile b }
{
    match b {
        b'd' => Some(Letter::Signed(Base::Dec)),
        b'i' => match profile {
            Profile::One => Some(Letter::Signed(Base::Auto)),
            Profile::Two | Profile::Three => Some(Letter::Signed(Base::AutoBin)),
        },
        b'u' => Some(Letter::Unsigned(Base::Dec)),
        b'o' => Some(Letter::Unsigned(Base::Oct)),
        b'x' | b'X' => Some(Letter::Unsigned(Base::Hex)),
        b's' => Some(Letter::Text),
        b'[' => Some(Letter::Set),
        b'c' => Some(Letter::Chars),
        b'n' => Some(Letter::Count),
        b'b' => match profile {
            Profile::One => None,
            Profile::Two | Profile::Three => Some(Letter::Unsigned(Base::Bin)),
        },
        _ if has_doubles(profile) && of_double(b) => Some(Letter::Float),
        _ => None,
    }
}

/// Whether the profile has the letters of floats, and `?`, `=` and `!` in its scan formats.
pub fn has_doubles(profile: Profile) -> bool
    ensures { result ≡ has_doubles profile }
{
    match profile {
        Profile::One | Profile::Two => false,
        Profile::Three => true,
    }
}

/// Whether the byte is a letter or a length that C or POSIX has and scan formats of the profile do not.
pub fn left_out(profile: Profile, b: u8) -> bool
    ensures { result ≡ is_left_out profile b }
{
    b"mLpCS".contains(&b) || (of_double(b) && !has_doubles(profile))
}

/// Whether the letter is one of those of floats.
pub fn of_double(b: u8) -> bool
    ensures { result ≡ takes_double b }
{
    b"aAeEfFgG".contains(&b)
}

/// Whether the letter takes a text.
pub fn of_text(b: u8) -> bool
    ensures { result ≡ takes_text b }
{
    b"cs[".contains(&b)
}

impl Length {
    /// Whether it is `l`.
    pub fn is_l(self) -> bool
        ensures { result ≡ is_l self }
    {
        matches!(self, Length::L)
    }

    /// Whether a length is written.
    pub fn is_written(self) -> bool
        ensures { result ≡ has_length self }
    {
        !matches!(self, Length::NoLength)
    }
}

impl Values {
    /// The kind of such a value with the length, if it has that length. The sizes are those of LP64.
    pub fn kind(self, size: Length) -> Option<Kind>
        ensures { result ≡ sized_kind self size }
    {
        match (self, size) {
            (Values::Signed, Length::NoLength) => Some(Kind::I32),
            (Values::Signed, Length::HH) => Some(Kind::I8),
            (Values::Signed, Length::H) => Some(Kind::I16),
            (Values::Signed, _) => Some(Kind::I64),
            (Values::Unsigned, Length::NoLength) => Some(Kind::U32),
            (Values::Unsigned, Length::HH) => Some(Kind::U8),
            (Values::Unsigned, Length::H) => Some(Kind::U16),
            (Values::Unsigned, _) => Some(Kind::U64),
            (Values::Text, Length::NoLength) => Some(Kind::Text),
            (Values::Text, _) => None,
            (Values::Double, Length::NoLength | Length::L) => Some(Kind::F64),
            (Values::Double, _) => None,
            (Values::Float, Length::NoLength) => Some(Kind::F32),
            (Values::Float, Length::L) => Some(Kind::F64),
            (Values::Float, _) => None,
        }
    }
}

impl Letter {
    /// What a conversion by the letter stores.
    pub fn values(self) -> Values
        ensures { result ≡ stored_values self }
    {
        match self {
            Letter::Signed(_) | Letter::Count => Values::Signed,
            Letter::Unsigned(_) => Values::Unsigned,
            Letter::Text | Letter::Set | Letter::Chars => Values::Text,
            Letter::Float => Values::Float,
        }
    }
}
