//! How long an integer's text is as a scan sees it: without the blanks before it.
ghost use Rattle.std.specs.Prelude.{◌≡◌, ◌<◌, ◌^◌, true, length};
ghost use Rattle.std.specs.List.{flat_map};
ghost use Rattle.sf_base.specs.Data.{datum_of, is_number};
ghost use Rattle.sf_print.specs.texts.Runs.{piece_bytes};
ghost use Rattle.sf_print.specs.texts.Text.{value_text};
ghost use Rattle.sf_print.specs.texts.Visible.{without_blanks, least};

use crate::digits::decimal_len;
use crate::texts::integer::{DIGIT_BYTES, integer_pieces, least};
use crate::texts::piece::Piece;
use crate::texts::plain::plain_number;
use crate::texts::text::value_pieces;
use sf_base::Value;
use sf_format::PrintConv;

/// The length of a text without the blanks before it.
#[inline(always)]
pub fn visible_len(text: &[u8]) -> usize
    ensures { result ≡ length (without_blanks text.now) }
{
    let mut len = text.len();
    for byte in text {
        if *byte != b' ' {
            return len;
        }
        len -= 1;
    }
    len
}

/// The text without the blanks before it.
#[inline(always)]
pub fn visible_bytes(text: &[u8]) -> &[u8]
    ensures { result.now ≡ without_blanks text.entry.now }
{
    for i in 0..text.len() {
        if text[i] != b' ' {
            return &text[i..];
        }
    }
    &text[text.len()..]
}

/// The length of the piece after the blanks that stand first.
fn visible_piece(piece: &Piece<'_>) -> u64
    ensures { result ≡ length (without_blanks (piece_bytes piece.now)) }
{
    match *piece {
        Piece::Run(b' ', _) => 0,
        Piece::Run(_, count) => count as u64,
        Piece::Bytes(bytes) => visible_len(bytes) as u64,
    }
}

/// The length of the pieces after the blanks that stand first.
fn visible_pieces(pieces: &[Piece<'_>]) -> u64
    requires { length (flat_map piece_bytes pieces.now) < 2 ^ 32 }
    ensures { result ≡ length (without_blanks (flat_map piece_bytes pieces.now)) }
{
    let mut len = 0;
    for piece in pieces {
        len = if len == 0 {
            visible_piece(piece)
        } else {
            len + piece.len()
        };
    }
    len
}

/// The length of the text that the conversion prints of a number, without the blanks before it.
#[inline(always)]
pub fn core_len(conv: &PrintConv, value: Value<'_>) -> u32
    requires { is_number value ≡ true }
    ensures { result ≡ length (without_blanks (value_text conv.now (datum_of value.entry))) }
{
    if let Some((negative, magnitude)) = plain_number(conv, &value) {
        return negative as u32 + decimal_len(magnitude) as u32;
    }
    // read for the ranges of their types, which bound the length
    let (_width, _digits) = (conv.width, least(conv));
    let mut buf = [0; DIGIT_BYTES];
    visible_pieces(&value_pieces(conv, value, &mut buf)) as u32
}

/// The length of the text that the conversion prints of 0, without the blanks before it.
///
/// Where the conversion is one of an integer, no number of its kind has a shorter one, unless a `-` pads on the right
/// or the precision is 0.
pub fn least_len(conv: &PrintConv) -> u32
    ensures { result ≡ length (least conv.now) }
{
    // read for the ranges of their types, which bound the length
    let (_width, _digits) = (conv.width, least(conv));
    let mut buf = [0; DIGIT_BYTES];
    visible_pieces(&integer_pieces(conv, false, 0, &mut buf)) as u32
}
