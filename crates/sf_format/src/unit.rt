//! The units of a print format.
use sf_base::Kind;

/// How the digits of a float are written: the letters `f`, `e`, `g` and `a`.
#[derive(Clone, Copy, Debug, PartialEq, Eq)]
pub enum FloatStyle {
    Fixed,
    Exponent,
    General,
    Hexadecimal,
}

/// What a conversion of a print format prints: the letters `d i`, `u`, `o`, `x`, `X`, `b`, `s` and `c`, and those of
/// floats.
#[derive(Clone, Copy, Debug, PartialEq, Eq)]
pub enum PrintLetter {
    Signed,
    Unsigned,
    Octal,
    HexLower,
    HexUpper,
    /// Of profile 2.
    Binary,
    Text,
    /// A text of one byte.
    One,
    /// A float: how its digits are written, and whether the letter is a capital. Of profile 3.
    Float(FloatStyle, bool),
}

/// A conversion of a print format.
#[derive(Clone, Copy, Debug, PartialEq, Eq)]
pub struct PrintConv {
    pub letter: PrintLetter,
    pub kind: Kind,
    /// The number of the value, from 1.
    pub slot: u8,
    /// The flag `-`.
    pub minus: bool,
    /// The flag `+`.
    pub plus: bool,
    /// The flag space.
    pub blank: bool,
    /// The flag `#`.
    pub alt: bool,
    /// The flag `0`.
    pub zero: bool,
    /// The least number of bytes; 0 if there is none.
    pub width: u16,
    /// The least number of digits of an integer, the greatest number of bytes of a text, or how many digits of a float
    /// stand after the point (of `g`: in all).
    pub precision: Option<u8>,
}

/// A unit of a print format (C11 7.21.6.1p3).
#[derive(Clone, Copy, Debug, PartialEq, Eq)]
pub enum Unit {
    /// One byte, printed as it is; `%%` is the byte `%`.
    Byte(u8),
    Conv(PrintConv),
}
