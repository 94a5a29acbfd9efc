//! The text of an integer, in pieces.
ghost use Rattle.std.specs.Prelude.{◌≡◌, ◌+◌, ◌<◌, ◌≤◌, ◌^◌, ◌++◌, IsTrue, length, replicate};
ghost use Rattle.std.specs.Fmt.{digits};
ghost use Rattle.std.specs.List.{flat_map, slice_range};
ghost use Rattle.sf_print.specs.texts.Runs.{piece_bytes};
ghost use Rattle.sf_print.specs.texts.Text.{integer_text, with_sign, sign, mark, base_of, is_upper, is_octal, numeral};
ghost use Rattle.sf_print.specs.texts.Text.{pads_with_zeros, least_digits, with_octal_zero, filled, left_blanks};
ghost use Rattle.sf_print.specs.texts.Text.{inner_zeros};
ghost use Rattle.sf_print.specs.texts.Text.{right_blanks};

use crate::digits::{write_decimal, write_digits};
use crate::texts::piece::{Piece, Pieces};
use sf_format::{PrintConv, PrintLetter};

/// The bytes that the digits of any integer fit.
pub const DIGIT_BYTES: usize = 64;

fn sign_bytes(conv: &PrintConv, negative: bool, magnitude: u64) -> &'static [u8]
    requires { IsTrue negative → 0 < magnitude }
    ensures text { result.now ≡ sign conv.now (with_sign negative magnitude) }
    ensures short { length result.now ≤ 1 }
{
    if negative {
        b"-"
    } else if conv.plus {
        b"+"
    } else if conv.blank {
        b" "
    } else {
        b""
    }
}

fn mark_bytes(conv: &PrintConv, magnitude: u64) -> &'static [u8]
    ensures text { result.now ≡ mark conv.now magnitude }
    ensures short { length result.now ≤ 2 }
{
    if !conv.alt || magnitude == 0 {
        return b"";
    }
    match conv.letter {
        PrintLetter::HexLower => b"0x",
        PrintLetter::HexUpper => b"0X",
        PrintLetter::Binary => b"0b",
        _ => b"",
    }
}

/// The least number of digits.
pub(crate) fn least(conv: &PrintConv) -> u32
    ensures value { result ≡ least_digits conv.now }
    ensures most { result < 256 }
{
    match conv.precision {
        Some(least) => least as u32,
        None => 1,
    }
}

fn is_octal_letter(letter: PrintLetter) -> bool
    ensures { result ≡ is_octal letter }
{
    match letter {
        PrintLetter::Octal => true,
        _ => false,
    }
}

/// How many zeros stand before the digits, up to the precision and by `#`.
fn leading_zeros(conv: &PrintConv, digits: &[u8]) -> u32
    requires { length digits.now ≤ 64 }
    ensures text { replicate result 48 ++ digits.now ≡ with_octal_zero conv.now (filled conv.now digits.now) }
    ensures most { result < 257 }
{
    let filled = least(conv).saturating_sub(digits.len() as u32);
    if filled > 0 || !is_octal_letter(conv.letter) || !conv.alt {
        return filled;
    }
    if !digits.is_empty() && digits[0] == b'0' {
        return filled;
    }
    1
}

fn zero_padded(conv: &PrintConv) -> bool
    ensures { result ≡ pads_with_zeros conv.now }
{
    conv.zero && !conv.minus && conv.precision.is_none()
}

/// The blanks on the left, the zeros inside and the blanks on the right of a part with this many bytes.
fn padding(conv: &PrintConv, len: u32) -> (u32, u32, u32)
    ensures left { result.0 ≡ left_blanks conv.now len }
    ensures inner { result.1 ≡ inner_zeros conv.now len }
    ensures right { result.2 ≡ right_blanks conv.now len }
    ensures most { result.1 < 2 ^ 16 }
{
    let short = (conv.width as u32).saturating_sub(len);
    if conv.minus {
        (0, 0, short)
    } else if zero_padded(conv) {
        (0, short, 0)
    } else {
        (short, 0, 0)
    }
}

/// The pieces of an integer's text, around its digits.
fn around_digits<'a>(
    conv: &PrintConv,
    negative: bool,
    magnitude: u64,
    digits: &'a [u8],
) -> Pieces<'a>
    requires minus { IsTrue negative → 0 < magnitude }
    requires digits { digits.now ≡ numeral conv.now magnitude }
    requires short { length digits.now ≤ 64 }
    ensures { flat_map piece_bytes result ≡ integer_text conv.now (with_sign negative magnitude) }
{
    let sign = sign_bytes(conv, negative, magnitude);
    let mark = mark_bytes(conv, magnitude);
    let lead = leading_zeros(conv, digits);
    let len = sign.len() as u32 + mark.len() as u32 + lead + digits.len() as u32;
    let (left, inner, right) = padding(conv, len);
    [
        Piece::Run(b' ', left),
        Piece::Bytes(sign),
        Piece::Bytes(mark),
        Piece::Run(b'0', inner + lead),
        Piece::Bytes(digits),
        Piece::Run(b' ', right),
    ]
}

/// Writes the digits of a magnitude in the letter's base to the buffer, and answers where they start and end.
#[inline(always)]
pub(crate) fn write_magnitude(
    letter: PrintLetter,
    magnitude: u64,
    buf: &mut [u8; DIGIT_BYTES],
) -> (usize, usize)
    ensures within { (result.0 ≤ result.1) × (result.1 ≤ 64) }
    ensures written { slice_range buf.new result.0 result.1 ≡ digits (base_of letter) (is_upper letter) magnitude }
{
    match letter {
        PrintLetter::Octal => (
            write_digits(8, false, magnitude, buf, DIGIT_BYTES),
            DIGIT_BYTES,
        ),
        PrintLetter::HexLower => (
            write_digits(16, false, magnitude, buf, DIGIT_BYTES),
            DIGIT_BYTES,
        ),
        PrintLetter::HexUpper => (
            write_digits(16, true, magnitude, buf, DIGIT_BYTES),
            DIGIT_BYTES,
        ),
        PrintLetter::Binary => (
            write_digits(2, false, magnitude, buf, DIGIT_BYTES),
            DIGIT_BYTES,
        ),
        _ => (0, write_decimal(magnitude, buf, 0)),
    }
}

/// The pieces of an integer's text; its digits are written to the buffer.
pub(crate) fn integer_pieces<'a>(
    conv: &PrintConv,
    negative: bool,
    magnitude: u64,
    buf: &'a mut [u8; DIGIT_BYTES],
) -> Pieces<'a>
    requires { IsTrue negative → 0 < magnitude }
    ensures { flat_map piece_bytes result ≡ integer_text conv.now (with_sign negative magnitude) }
{
    if magnitude == 0 && least(conv) == 0 {
        return around_digits(conv, negative, magnitude, &[]);
    }
    let (start, end) = write_magnitude(conv.letter, magnitude, buf);
    around_digits(conv, negative, magnitude, &buf[start..end])
}
