//! The directives of a scan format.
ghost use Rattle.std.specs.Prelude.{◌≡◌};
ghost use Rattle.sf_format.specs.Proper.{more_of};
ghost use Rattle.sf_format.specs.Leads.{has_minus, has_plus, has_prefix, is_strict, is_strict_lead};

use sf_base::{ByteSet, Kind};

/// Which conversions a format may have.
#[derive(Clone, Copy, Debug, PartialEq, Eq)]
pub enum Profile {
    /// Those of C11.
    One,
    /// Those, the letter `b` of unsigned binary numbers, and `0b` under `i`.
    Two,
    /// Those, and the letters of floats, `a A e E f F g G`. Scan formats also have `?`, for what may be missing, `=`,
    /// for a column, `!`, for a number and nothing else, and groups between `%?(` and `%)`, which may be missing.
    Three,
}

/// How the digits of an integer are read.
#[derive(Clone, Copy, Debug, PartialEq, Eq)]
pub enum Base {
    Dec,
    Oct,
    Hex,
    /// Binary, perhaps after `0b`. Of profile 2.
    Bin,
    /// Decimal, octal after `0`, hexadecimal after `0x`.
    Auto,
    /// As `Auto`, and binary after `0b`. Of profile 2.
    AutoBin,
}

/// What may stand before the digits of a number, or before the bytes of a text.
#[derive(Clone, Copy, Debug, PartialEq, Eq)]
pub enum Lead {
    /// What C allows: white space, which is skipped; before the digits of a number also either sign, and the prefix of
    /// its base.
    Any,
    /// A minus, under `!`. No white space is skipped.
    Minus,
    /// Nothing, under `!`.
    Nothing,
}

/// How an integer is written.
#[derive(Clone, Copy, Debug, PartialEq, Eq)]
pub struct Numeral {
    pub base: Base,
    pub lead: Lead,
}

/// What a conversion takes.
#[derive(Debug, Drop)]
pub enum Shape {
    Int(Numeral),
    Text(Lead),
    Set(ByteSet),
    Chars,
    /// A float, as text: `1.5`, `1e-3`, `0x1p4`, `inf` or `nan`; without `Lead::Any`, a decimal one. Of profile 3.
    Float(Lead),
    /// The number of bytes consumed so far; takes none.
    Count,
}

impl Lead {
    /// Whether a plus may stand there.
    pub fn has_plus(self) -> bool
        ensures { result ≡ has_plus self }
    {
        matches!(self, Lead::Any)
    }

    /// Whether a minus may stand there.
    pub fn has_minus(self) -> bool
        ensures { result ≡ has_minus self }
    {
        !matches!(self, Lead::Nothing)
    }

    /// Whether the prefix of the base may stand there.
    pub fn has_prefix(self) -> bool
        ensures { result ≡ has_prefix self }
    {
        !matches!(self, Lead::Nothing)
    }

    /// Whether it is that of `!`: no white space is skipped.
    pub fn is_strict(self) -> bool
        ensures { result ≡ is_strict_lead self }
    {
        !matches!(self, Lead::Any)
    }
}

impl Shape {
    /// Whether it is that of a conversion with `!`.
    pub fn is_strict(&self) -> bool
        ensures { result ≡ is_strict self.now }
    {
        match self {
            Shape::Int(numeral) => numeral.lead.is_strict(),
            Shape::Text(lead) | Shape::Float(lead) => lead.is_strict(),
            Shape::Set(_) | Shape::Chars | Shape::Count => false,
        }
    }
}

/// A conversion. One without a slot is suppressed.
#[derive(Debug, Drop)]
pub struct Conversion {
    pub shape: Shape,
    pub kind: Kind,
    pub width: Option<u16>,
    pub slot: Option<u8>,
    /// Whether it has a `?` or opens a group: where its item is missing it passes, and its slot has no value. Of
    /// profile 3.
    pub optional: bool,
    /// Where it opens a group, how many directives the group has after it: where its item is missing, so are they. Of
    /// profile 3.
    pub opens: Option<u16>,
    /// Whether it has a `=`: it takes a column, which is the next `width` bytes, and reads the text in it. Of
    /// profile 3.
    pub column: bool,
}

/// A directive that takes bytes that the format names.
#[derive(Clone, Copy, Debug, PartialEq, Eq)]
pub enum Literal {
    /// One ordinary byte.
    Byte(u8),
    /// `%%`.
    Percent,
}

/// A literal that opens a group: where its byte doesn't stand next, the group is missing. Of profile 3.
#[derive(Clone, Copy, Debug, PartialEq, Eq)]
pub struct Opener {
    pub literal: Literal,
    /// How many directives the group has after it.
    pub more: u16,
}

/// A directive of a scan format (C11 7.21.6.2p3).
#[derive(Debug, Drop)]
pub enum Directive {
    /// A run of white space.
    Space,
    /// One ordinary byte.
    Byte(u8),
    /// `%%`.
    Percent,
    Conv(Conversion),
    /// The first directive of a group that may be missing, where that is a literal.
    Opens(Opener),
}

impl Directive {
    /// How many directives after it are missing where it is: those of the group that it opens.
    pub fn more(&self) -> u16
        ensures { result ≡ more_of self.now }
    {
        match self {
            Directive::Conv(conversion) if conversion.optional => conversion.opens.unwrap_or(0),
            Directive::Opens(opener) => opener.more,
            _ => 0,
        }
    }
}
