//! The text of any float by a conversion, in parts: sign, mark, zeros and digits, between blanks.
ghost use Rattle.std.specs.Prelude.{◌≡◌, ℕ, ◌+◌, ◌≤◌, ◌<◌, ◌^◌, ◌&&◌, ◌++◌, List, length, take, map, replicate, IsTrue};
ghost use Rattle.std.specs.Prelude.{if◌then◌else◌};
ghost use Rattle.std.specs.Char.{to_ascii_uppercase};
ghost use Rattle.std.specs.Float.{float_is_finite, is_sign_negative};
ghost use Rattle.sf_float.specs.Computed.{float_text};
ghost use Rattle.sf_float.specs.Printed.{IsDigitsText, IsSizeText, IsSize, IsFloatText, in_case, sign, mark};
ghost use Rattle.sf_float.specs.Printed.{is_hexadecimal, pads_with_zeros, bare_len, left_blanks, inner_zeros};
ghost use Rattle.sf_float.specs.Printed.{right_blanks, field_text};

use crate::fixed::write_fixed;
use crate::general::write_general;
use crate::hexadecimal::write_hexadecimal;
use crate::scientific::{ROOM, put, write_scientific};

/// How the digits of a float are written: `f`, `e`, `g` and `a`.
#[derive(Clone, Copy, Debug, PartialEq, Eq)]
pub enum Style {
    Fixed,
    Exponent,
    General,
    Hexadecimal,
}

/// A conversion of a float.
#[derive(Clone, Copy, Debug, PartialEq, Eq)]
pub struct FloatConv {
    pub style: Style,
    /// A capital letter.
    pub upper: bool,
    /// The flag `-`.
    pub minus: bool,
    /// The flag `+`.
    pub plus: bool,
    /// The flag blank.
    pub blank: bool,
    /// The flag `#`.
    pub alt: bool,
    /// The flag `0`.
    pub zero: bool,
    /// The least number of bytes; 0 where there is no width.
    pub width: u16,
    pub precision: Option<u8>,
}

/// The digits of a finite float.
fn write_digits(conv: &FloatConv, x: f64, out: &mut [u8; ROOM]) -> usize
    requires { IsTrue (float_is_finite x) }
    ensures end { result ≤ 565 }
    ensures text { IsDigitsText conv.now.style conv.now.alt conv.now.precision x (take result out.new) }
{
    let precision = conv.precision.unwrap_or(6);
    match conv.style {
        Style::Fixed => write_fixed(x, precision, conv.alt, out),
        Style::Exponent => write_scientific(x, precision, conv.alt, out),
        Style::General => write_general(x, precision, conv.alt, out),
        Style::Hexadecimal => write_hexadecimal(x, conv.precision, conv.alt, out),
    }
}

/// `inf` or `nan`.
fn write_word(word: [u8; 3], out: &mut [u8; ROOM]) -> usize
    ensures end { result ≤ 565 }
    ensures text { take result out.new ≡ word }
{
    let end = put(word[0], out, 0);
    let end = put(word[1], out, end);
    put(word[2], out, end)
}

fn write_lower(conv: &FloatConv, x: f64, out: &mut [u8; ROOM]) -> usize
    ensures end { result ≤ 565 }
    ensures text { IsSizeText conv.now.style conv.now.alt conv.now.precision x (take result out.new) }
{
    if x.is_nan() {
        return write_word(*b"nan", out);
    }
    if x.is_infinite() {
        return write_word(*b"inf", out);
    }
    write_digits(conv, x, out)
}

/// The size of a float, without its sign and without the `0x` of `a`.
fn write_size(conv: &FloatConv, x: f64, out: &mut [u8; ROOM]) -> usize
    ensures end { result ≤ 565 }
    ensures text { IsSize conv.now x (take result out.new) }
{
    let len = write_lower(conv, x, out);
    if conv.upper {
        out[..len].make_ascii_uppercase();
    }
    len
}

/// Whether it has a minus; a NaN has none.
fn is_minus(x: f64) -> bool
    ensures { result ≡ is_sign_negative x }
{
    if x.is_nan() {
        return false;
    }
    x.is_sign_negative()
}

fn sign_of(conv: &FloatConv, x: f64) -> &'static [u8]
    ensures text { result.now ≡ sign conv.now x }
    ensures short { length result.now ≤ 1 }
{
    if is_minus(x) {
        b"-"
    } else if conv.plus {
        b"+"
    } else if conv.blank {
        b" "
    } else {
        b""
    }
}

fn mark_of(conv: &FloatConv, x: f64) -> &'static [u8]
    ensures text { result.now ≡ mark conv.now x }
    ensures short { length result.now ≤ 2 }
{
    match conv.style {
        Style::Hexadecimal if x.is_finite() => { if conv.upper { b"0X" } else { b"0x" } },
        _ => b"",
    }
}

/// What stands around the digits of a float.
#[derive(Clone, Copy, Debug)]
pub struct FloatField {
    /// Blanks on the left.
    pub left: u32,
    pub sign: &'static [u8],
    /// `0x`, `0X` or nothing.
    pub mark: &'static [u8],
    /// Zeros before the digits.
    pub zeros: u32,
    /// Blanks on the right.
    pub right: u32,
}

/// What stands around so many digits.
fn field_around(conv: &FloatConv, x: f64, len: usize) -> FloatField
    requires { len ≤ 565 }
    ensures { (size : List ℕ) → length size ≡ len →
        replicate result.left 32 ++ result.sign.now ++ result.mark.now ++ replicate result.zeros 48 ++ size ++
        replicate result.right 32 ≡ field_text conv.now x size }
{
    let sign = sign_of(conv, x);
    let mark = mark_of(conv, x);
    let short = (conv.width as u32).saturating_sub((sign.len() + mark.len() + len) as u32);
    let zeros = conv.zero && !conv.minus && x.is_finite();
    FloatField {
        left: if conv.minus || zeros { 0 } else { short },
        sign,
        mark,
        zeros: if zeros { short } else { 0 },
        right: if conv.minus { short } else { 0 },
    }
}

/// Writes the digits of a float by a conversion, and answers what stands around them and how many bytes they are (C11
/// 7.21.6.1).
pub fn write_float(conv: &FloatConv, x: f64, out: &mut [u8; ROOM]) -> (FloatField, usize)
    ensures end { result.1 ≤ 565 }
    ensures text { IsFloatText conv.now x (replicate result.0.left 32 ++ result.0.sign.now ++ result.0.mark.now ++
        replicate result.0.zeros 48
        ++ take result.1 out.new ++ replicate result.0.right 32) }
    ensures computed { replicate result.0.left 32 ++ result.0.sign.now ++ result.0.mark.now ++
        replicate result.0.zeros 48
        ++ take result.1 out.new ++ replicate result.0.right 32 ≡ float_text conv.now x }
{
    let len = write_size(conv, x, out);
    (field_around(conv, x, len), len)
}
