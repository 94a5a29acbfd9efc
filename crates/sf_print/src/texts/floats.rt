//! The text of a float, in pieces.
ghost use Rattle.std.specs.Prelude.{◌≡◌};
ghost use Rattle.std.specs.List.{flat_map};
ghost use Rattle.sf_base.specs.Data.{datum_of};
ghost use Rattle.sf_print.specs.texts.Floats.{number_of, real_of, style_of, is_capital, float_conv, real_text};
ghost use Rattle.sf_print.specs.texts.Runs.{piece_bytes};

use crate::texts::piece::{Piece, Pieces};
use sf_base::{Real, Value};
use sf_float::{FloatConv, ROOM, Style, write_float};
use sf_format::{FloatStyle, PrintConv, PrintLetter};
use std::num::{f32_from_bits_with_nan, f64_from_bits_with_nan};

/// The bytes that the digits of any float fit.
pub const FLOAT_BYTES: usize = ROOM;

/// The float that a value is.
#[inline(always)]
pub fn real_of(value: &Value<'_>) -> Option<Real>
    ensures { result ≡ real_of (datum_of value.now) }
{
    match *value {
        Value::F32(bits) => Some(Real::F32(bits)),
        Value::F64(bits) => Some(Real::F64(bits)),
        _ => None,
    }
}

/// Its number; each `f32` is an `f64`.
fn number_of(real: Real) -> f64
    ensures { result ≡ number_of real }
{
    match real {
        Real::F32(bits) => f64::from(f32_from_bits_with_nan(bits)),
        Real::F64(bits) => f64_from_bits_with_nan(bits),
    }
}

fn style_of(letter: PrintLetter) -> Style
    ensures { result ≡ style_of letter }
{
    match letter {
        PrintLetter::Float(FloatStyle::Exponent, _) => Style::Exponent,
        PrintLetter::Float(FloatStyle::General, _) => Style::General,
        PrintLetter::Float(FloatStyle::Hexadecimal, _) => Style::Hexadecimal,
        _ => Style::Fixed,
    }
}

fn is_capital(letter: PrintLetter) -> bool
    ensures { result ≡ is_capital letter }
{
    match letter {
        PrintLetter::Float(_, upper) => upper,
        _ => false,
    }
}

fn float_conv(conv: &PrintConv) -> FloatConv
    ensures { result ≡ float_conv conv.now }
{
    FloatConv {
        style: style_of(conv.letter),
        upper: is_capital(conv.letter),
        minus: conv.minus,
        plus: conv.plus,
        blank: conv.blank,
        alt: conv.alt,
        zero: conv.zero,
        width: conv.width,
        precision: conv.precision,
    }
}

/// The pieces of a float's text; its digits are written to the buffer.
pub fn float_pieces<'a>(conv: &PrintConv, real: Real, buf: &'a mut [u8; FLOAT_BYTES]) -> Pieces<'a>
    ensures { flat_map piece_bytes result ≡ real_text conv.now real }
{
    let (field, len) = write_float(&float_conv(conv), number_of(real), buf);
    [
        Piece::Run(b' ', field.left),
        Piece::Bytes(field.sign),
        Piece::Bytes(field.mark),
        Piece::Run(b'0', field.zeros),
        Piece::Bytes(&buf[..len]),
        Piece::Run(b' ', field.right),
    ]
}
