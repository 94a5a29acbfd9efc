//! The text of a value, in pieces.
ghost use Rattle.std.specs.Prelude.{◌≡◌, None};
ghost use Rattle.std.specs.List.{flat_map};
ghost use Rattle.sf_base.specs.Data.{datum_of};
ghost use Rattle.sf_print.specs.texts.Floats.{real_of};
ghost use Rattle.sf_print.specs.texts.Runs.{piece_bytes};
ghost use Rattle.sf_print.specs.texts.Printables.{IsOf};
ghost use Rattle.sf_print.specs.texts.Text.{bytes_text, shown_bytes, value_text};

use crate::texts::integer::{DIGIT_BYTES, integer_pieces};
use crate::texts::piece::{Piece, Pieces};
use sf_base::Value;
use sf_format::{PrintConv, PrintLetter};

/// The bytes that are printed of a text: those up to the precision of `s`, or all.
fn shown<'a>(conv: &PrintConv, bytes: &'a [u8]) -> &'a [u8]
    ensures { result.now ≡ shown_bytes conv.now.letter conv.now.precision bytes.entry.now }
{
    match (conv.letter, conv.precision) {
        (PrintLetter::Text, Some(most)) => &bytes[..bytes.len().min(most as usize)],
        _ => bytes,
    }
}

/// The pieces of a text.
pub(crate) fn text_pieces<'a>(conv: &PrintConv, bytes: &'a [u8]) -> Pieces<'a>
    ensures { flat_map piece_bytes result ≡ bytes_text conv.now bytes.entry.now }
{
    let shown = shown(conv, bytes);
    let short = (conv.width as usize).saturating_sub(shown.len()) as u32;
    let (left, right) = if conv.minus { (0, short) } else { (short, 0) };
    [
        Piece::Run(b' ', left),
        Piece::Bytes(shown),
        Piece::Run(b' ', right),
        Piece::Bytes(&[]),
        Piece::Bytes(&[]),
        Piece::Bytes(&[]),
    ]
}

/// What is printed of a value other than a float: a sign (true: a minus) and a magnitude, or bytes. Of a float none.
pub(crate) enum Printable<'a> {
    Number(bool, u64),
    Bytes(&'a [u8]),
}

#[inline]
pub(crate) fn printable_of<'a>(value: Value<'a>) -> Printable<'a>
    ensures { IsOf result (datum_of value.entry) }
{
    if let Value::Text(bytes) = value {
        return Printable::Bytes(bytes);
    }
    match value.sign_and_magnitude() {
        Some((negative, magnitude)) => Printable::Number(negative, magnitude),
        None => Printable::Bytes(&[]),
    }
}

/// The pieces of the text of a value other than a float; the digits of an integer are written to the buffer.
pub fn value_pieces<'a>(
    conv: &PrintConv,
    value: Value<'a>,
    buf: &'a mut [u8; DIGIT_BYTES],
) -> Pieces<'a>
    requires { real_of (datum_of value) ≡ None }
    ensures { flat_map piece_bytes result ≡ value_text conv.now (datum_of value.entry) }
{
    match printable_of(value) {
        Printable::Number(negative, magnitude) => integer_pieces(conv, negative, magnitude, buf),
        Printable::Bytes(bytes) => text_pieces(conv, bytes),
    }
}
