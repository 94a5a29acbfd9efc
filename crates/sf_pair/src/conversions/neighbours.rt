//! What may stand first in a unit's text, and what an item would run on into.
ghost use Rattle.std.specs.Prelude.{◌≡◌, ◌==◌, ◌≤◌, length};
ghost use Rattle.std.specs.Char.{is_digit};
ghost use Rattle.sf_base.specs.Bytes.{is_white};
ghost use Rattle.sf_item.specs.Tests.{is_ink};
ghost use Rattle.sf_print.specs.texts.Text.{pads_with_zeros};
ghost use Rattle.sf_print.specs.texts.Visible.{least};
ghost use Rattle.sf_pair.specs.conversions.Neighbours.{sign_or_digit, number_first, integer_first, float_digit};
ghost use Rattle.sf_pair.specs.conversions.Neighbours.{float_first, first_by_letter};
ghost use Rattle.sf_pair.specs.conversions.Neighbours.{is_float, fills_with_zeros, fills_with_blanks, inked_first};
ghost use Rattle.sf_pair.specs.conversions.Neighbours.{bare_first, column_first, first_read, suits_column};
ghost use Rattle.sf_pair.specs.conversions.Neighbours.{text_first, first_by, is_auto_base, integer_stops};
ghost use Rattle.sf_pair.specs.conversions.Neighbours.{fraction_stops, is_prefix_letter};
ghost use Rattle.sf_pair.specs.conversions.Neighbours.{whole_stops, float_stops, stop_set};

use crate::conversions::reals::has_point;
use sf_base::{digit_value, is_space};
use sf_format::{Base, Conversion, FloatStyle, Numeral, PrintConv, PrintLetter, Shape, Unit};
use sf_item::{prefix_radix, radices_of};

/// Whether the byte is a digit of the base.
pub fn has_digit(base: u8, b: u8) -> bool
    requires { base ≤ 16 }
    ensures { result ≡ is_digit b base }
{
    digit_value(b, base).is_some()
}

fn is_ink(b: u8) -> bool
    ensures { result ≡ is_ink b }
{
    !is_space(b)
}

fn sign_or_digit(conv: &PrintConv, b: u8) -> bool
    ensures { result ≡ sign_or_digit conv.now b }
{
    if conv.plus {
        b == b'+'
    } else if conv.blank {
        b == b' '
    } else {
        has_digit(10, b)
    }
}

fn number_first(conv: &PrintConv, b: u8) -> bool
    ensures { result ≡ number_first conv.now.letter conv.now b }
{
    match conv.letter {
        PrintLetter::Signed => b == b'-' || sign_or_digit(conv, b),
        PrintLetter::Octal => has_digit(8, b),
        PrintLetter::HexLower | PrintLetter::HexUpper => has_digit(16, b),
        PrintLetter::Binary => has_digit(2, b),
        PrintLetter::Unsigned | PrintLetter::Text | PrintLetter::One | PrintLetter::Float(..) =>
            has_digit(10, b),
    }
}

/// Whether the flag `0` counts.
pub fn pads_with_zeros(conv: &PrintConv) -> bool
    ensures { result ≡ pads_with_zeros conv.now }
{
    conv.zero && !conv.minus && conv.precision.is_none()
}

fn integer_first(conv: &PrintConv, b: u8) -> bool
    ensures { result ≡ integer_first conv.now b }
{
    if conv.width > 0 && !pads_with_zeros(conv) {
        b == b' ' || number_first(conv, b)
    } else {
        number_first(conv, b)
    }
}

fn float_digit(conv: &PrintConv, b: u8) -> bool
    ensures { result ≡ float_digit conv.now b }
{
    b == b'-' || sign_or_digit(conv, b)
}

fn float_first(conv: &PrintConv, b: u8) -> bool
    ensures { result ≡ float_first conv.now b }
{
    if conv.width > 0 && (!conv.zero || conv.minus) {
        b == b' ' || float_digit(conv, b)
    } else {
        float_digit(conv, b)
    }
}

fn text_first(conv: &PrintConv, read: &Shape, b: u8) -> bool
    ensures { result ≡ text_first conv.now read.now b }
{
    match read {
        Shape::Text(_) => {
            if conv.width > 0 {
                b == b' ' || is_ink(b)
            } else {
                is_ink(b)
            }
        }
        Shape::Set(members) => members.contains(b),
        Shape::Chars => true,
        Shape::Int(_) | Shape::Float(_) | Shape::Count => false,
    }
}

/// Whether the byte may stand first in the conversion's text, where an item of the shape reads it.
fn item_first(conv: &PrintConv, read: &Shape, b: u8) -> bool
    ensures { result ≡ first_by_letter conv.now.letter conv.now read.now b }
{
    match conv.letter {
        PrintLetter::Text => text_first(conv, read, b),
        PrintLetter::One => matches!(read, Shape::Chars),
        PrintLetter::Float(..) => float_first(conv, b),
        _ => integer_first(conv, b),
    }
}

fn is_float(letter: PrintLetter) -> bool
    ensures { result ≡ is_float letter }
{
    matches!(letter, PrintLetter::Float(..))
}

/// Whether zeros fill the width.
pub fn fills_with_zeros(conv: &PrintConv) -> bool
    ensures { result ≡ fills_with_zeros conv.now }
{
    conv.zero && !conv.minus && (is_float(conv.letter) || conv.precision.is_none())
}

/// Whether blanks may fill the width in front, in a column that reads so.
fn fills_with_blanks(conv: &PrintConv, read: &Shape) -> bool
    ensures { result ≡ fills_with_blanks conv.now read.now }
{
    conv.width > 0 && !conv.minus && !fills_with_zeros(conv) && !read.is_strict()
}

/// Whether a column that reads so takes what the letter prints: a number, or a text that is read by `s` or `[`.
fn suits_column(letter: PrintLetter, read: &Shape) -> bool
    ensures { result ≡ suits_column letter read.now }
{
    match letter {
        PrintLetter::Text => matches!(read, Shape::Text(_) | Shape::Set(_)),
        PrintLetter::One => false,
        _ => true,
    }
}

/// Whether a text in a column that reads so may begin with the byte.
fn inked_first(read: &Shape, b: u8) -> bool
    ensures { result ≡ inked_first read.now b }
{
    match read {
        Shape::Text(_) => is_ink(b),
        Shape::Set(members) => members.contains(b) && is_ink(b),
        Shape::Int(_) | Shape::Float(_) | Shape::Chars | Shape::Count => false,
    }
}

/// Whether the byte may stand first after those blanks.
fn bare_first(conv: &PrintConv, read: &Shape, b: u8) -> bool
    ensures { result ≡ bare_first conv.now.letter conv.now read.now b }
{
    match conv.letter {
        PrintLetter::Text => inked_first(read, b),
        PrintLetter::One => false,
        PrintLetter::Float(..) => float_digit(conv, b),
        _ => number_first(conv, b),
    }
}

/// Whether the byte may stand first in the conversion's text, where a column of the shape reads it.
fn column_first(conv: &PrintConv, read: &Shape, b: u8) -> bool
    ensures { result ≡ column_first conv.now read.now b }
{
    if suits_column(conv.letter, read) && fills_with_blanks(conv, read) {
        b == b' ' || bare_first(conv, read, b)
    } else {
        bare_first(conv, read, b)
    }
}

/// Whether the byte may stand first in the conversion's text, where it is read by that one.
fn first_read(conv: &PrintConv, read: &Conversion, b: u8) -> bool
    ensures { result ≡ first_read conv.now read.now b }
{
    if read.column {
        column_first(conv, &read.shape, b)
    } else {
        item_first(conv, &read.shape, b)
    }
}

/// Whether the byte may stand first in the unit's text, where it is read by that conversion.
pub fn may_begin(unit: &Unit, read: &Conversion, b: u8) -> bool
    ensures { result ≡ first_by unit.now read.now b }
{
    match unit {
        Unit::Byte(byte) => b == *byte,
        Unit::Conv(conv) => first_read(conv, read, b),
    }
}

/// Whether the radix comes of the first digits, as for `i`.
pub fn is_auto_base(base: Base) -> bool
    ensures { result ≡ is_auto_base base }
{
    matches!(base, Base::Auto | Base::AutoBin)
}

/// Whether an integer that is written so would go on with the byte, after a text that may be a 0 alone or is longer.
fn integer_goes_on(numeral: Numeral, lone: bool, b: u8) -> bool
    ensures { result ≡ integer_stops numeral lone b }
{
    let letter = prefix_radix(numeral, b).is_some();
    ((lone || is_auto_base(numeral.base)) && letter) || has_digit(radices_of(numeral.base).first, b)
}

fn fraction_goes_on(b: u8) -> bool
    ensures { result ≡ fraction_stops b }
{
    has_digit(10, b) || b == b'e' || b == b'E'
}

fn is_prefix_letter(b: u8) -> bool
    ensures { result ≡ is_prefix_letter b }
{
    b == b'x' || b == b'X'
}

fn whole_goes_on(b: u8) -> bool
    ensures { result ≡ whole_stops b }
{
    fraction_goes_on(b) || b == b'.' || is_prefix_letter(b)
}

/// Whether a float of every form would go on with the byte, after the conversion's text.
fn float_goes_on(conv: &PrintConv, b: u8) -> bool
    ensures { result ≡ float_stops conv.now.letter conv.now b }
{
    match conv.letter {
        PrintLetter::Float(FloatStyle::Exponent | FloatStyle::Hexadecimal, _) => has_digit(10, b),
        PrintLetter::Float(FloatStyle::Fixed, _) => {
            if has_point(conv) {
                fraction_goes_on(b)
            } else {
                whole_goes_on(b)
            }
        }
        PrintLetter::Float(FloatStyle::General, _) => whole_goes_on(b),
        _ => false,
    }
}

/// Whether an item of the shape would go on with the byte, after the conversion's text. `lone` is whether its least
/// text has one byte.
pub fn goes_on(conv: &PrintConv, read: &Shape, lone: bool, b: u8) -> bool
    requires { lone ≡ (length (least conv.now) == 1) }
    ensures { result ≡ stop_set read.now conv.now b }
{
    match read {
        Shape::Int(numeral) => integer_goes_on(*numeral, lone, b),
        Shape::Text(_) => is_ink(b),
        Shape::Set(members) => members.contains(b),
        Shape::Float(lead) => float_goes_on(conv, b) && !(lead.is_strict() && is_prefix_letter(b)),
        Shape::Chars | Shape::Count => false,
    }
}
