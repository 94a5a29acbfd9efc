//! Texts of values, written in place.
ghost use Rattle.std.specs.Prelude.{◌≡◌, ◌≤◌, ◌+◌, ◌++◌, ◌∷◌, [], length, map, replicate, take, true};
ghost use Rattle.std.specs.Prelude.{IfSome, IsSome, Option, Some};
ghost use Rattle.std.specs.List.{flat_map};
ghost use Rattle.sf_base.specs.Data.{Bytes, Datum, datum_of, datum_of_number, datum_of_shown};
ghost use Rattle.sf_format.specs.declared.unit.PrintConv.{PrintConv as Conv};
ghost use Rattle.sf_print.specs.InPlace.{AreSuited, IsSuited, Suits, printed_by, text_by};
ghost use Rattle.sf_print.specs.texts.Floats.{real_text};
ghost use Rattle.sf_print.specs.Printed.{text_or_none, value_at};
ghost use Rattle.sf_print.specs.texts.Plain.{is_field, minus};
ghost use Rattle.sf_print.specs.texts.Runs.{piece_bytes};
ghost use Rattle.sf_print.specs.texts.Text.{bytes_text, text_around, value_text};
ghost use Rattle.sf_print.specs.texts.Visible.{without_blanks};

use crate::digits::{copy_over, write_number};
use crate::judging::{suits_shown, value_of_slot};
use crate::texts::{
    DIGIT_BYTES, FLOAT_BYTES, Piece, float_pieces, integer_pieces, is_field_conv, is_plain_conv,
    text_pieces, visible_bytes, write_magnitude,
};
use sf_base::{Number, Real, Shown, Value};
use sf_format::{PrintConv, PrintFormat, Unit};

/// A minus and the digits of any number.
const NUMBER_BYTES: usize = 21;

/// A run of at most so many bytes is written as one vector.
const RUN_BYTES: usize = 16;

/// Values, as the conversions find them.
pub trait Printables {
    /// The value of a conversion, where there is one.
    ghost value_of: { Self → Conv → Option Datum };

    /// The value of a conversion. None where there is none, or where it isn't known at once.
    fn shown_by(&self, conv: &PrintConv) -> Option<Shown<'_>>
        ensures { IfSome result (λ shown. value_of self.now conv.now ≡ Some (datum_of_shown shown)) };
}

/// Values by their slots.
#[derive(Drop)]
pub(crate) struct Row<'a, 'b> {
    pub(crate) values: &'b [Value<'a>],
}

impl Printables for Row<'_, '_> {
    ghost value_of = { λ row conv. value_at (map datum_of row.values.now) conv.slot };

    #[inline(always)]
    fn shown_by(&self, conv: &PrintConv) -> Option<Shown<'_>> {
        Some((*value_of_slot(self.values, conv.slot)?).shown())
    }
}

/// Writes a piece from a place on, and answers where it ends. None where there is no room.
#[inline(always)]
fn write_piece(piece: &Piece<'_>, buf: &mut [u8], at: usize) -> Option<usize>
    requires { at ≤ length buf.old }
    ensures within { IfSome result (λ end. end ≤ length buf.new) }
    ensures written { IfSome result (λ end. take end buf.new ≡ take at buf.old ++ piece_bytes piece.now) }
    ensures answers { at + length (piece_bytes piece.now) ≤ length buf.old → IsSome result }
{
    match *piece {
        Piece::Run(byte, count) => {
            if count as usize > buf.len() - at {
                return None;
            }
            let end = at + count as usize;
            buf[at..end].fill(byte);
            Some(end)
        }
        Piece::Bytes(bytes) => {
            if bytes.len() > buf.len() - at {
                return None;
            }
            copy_over(bytes, buf, at);
            Some(at + bytes.len())
        }
    }
}

/// Writes the pieces one after the other from a place on, and answers where they end. None where there is no room.
fn write_pieces(pieces: &[Piece<'_>], buf: &mut [u8], at: usize) -> Option<usize>
    requires { at ≤ length buf.old }
    ensures within { IfSome result (λ end. end ≤ length buf.new) }
    ensures written { IfSome result (λ end. take end buf.new ≡ take at buf.old ++ flat_map piece_bytes pieces.now) }
    ensures answers { at + length (flat_map piece_bytes pieces.now) ≤ length buf.old → IsSome result }
{
    let mut end = at;
    for piece in pieces {
        end = write_piece(piece, buf, end)?;
    }
    Some(end)
}

/// Writes the text of a float, by its pieces. It is a call of its own, so that other values pay for no such buffer.
#[inline(never)]
fn write_real(conv: &PrintConv, real: Real, buf: &mut [u8], at: usize) -> Option<usize>
    requires { at ≤ length buf.old }
    ensures within { IfSome result (λ end. end ≤ length buf.new) }
    ensures written { IfSome result (λ end. take end buf.new ≡ take at buf.old ++ real_text conv.now real) }
    ensures answers { at + length (real_text conv.now real) ≤ length buf.old → IsSome result }
{
    let mut digits = [0; FLOAT_BYTES];
    let pieces = float_pieces(conv, real, &mut digits);
    write_pieces(&pieces, buf, at)
}

/// The piece without the blanks that stand first.
fn visible_of<'a>(piece: &Piece<'a>) -> Piece<'a>
    ensures { piece_bytes result ≡ without_blanks (piece_bytes piece.now) }
{
    match *piece {
        Piece::Run(b' ', _) => Piece::Bytes(&[]),
        Piece::Run(byte, count) => Piece::Run(byte, count),
        Piece::Bytes(bytes) => Piece::Bytes(visible_bytes(bytes)),
    }
}

/// Writes the pieces one after the other, without the blanks that stand first, and answers where they end. None where
/// there is no room.
fn write_visible_pieces(pieces: &[Piece<'_>], buf: &mut [u8]) -> Option<usize>
    ensures within { IfSome result (λ end. end ≤ length buf.new) }
    ensures written { IfSome result (λ end. take end buf.new ≡ without_blanks (flat_map piece_bytes pieces.now)) }
    ensures answers { length (without_blanks (flat_map piece_bytes pieces.now)) ≤ length buf.old → IsSome result }
{
    let mut end = 0;
    for piece in pieces {
        end = if end == 0 {
            write_piece(&visible_of(piece), buf, 0)?
        } else {
            write_piece(piece, buf, end)?
        };
    }
    Some(end)
}

/// Writes the text that the conversion prints of a float, without the blanks before it, and answers its length. None
/// where it is longer than the buffer.
pub fn write_visible(conv: &PrintConv, real: Real, buf: &mut [u8]) -> Option<usize>
    ensures within { IfSome result (λ end. end ≤ length buf.new) }
    ensures written { IfSome result (λ end. take end buf.new ≡ without_blanks (real_text conv.now real)) }
    ensures answers { length (without_blanks (real_text conv.now real)) ≤ length buf.old → IsSome result }
{
    let mut digits = [0; FLOAT_BYTES];
    let pieces = float_pieces(conv, real, &mut digits);
    write_visible_pieces(&pieces, buf)
}

/// Writes a byte this many times from a place on, where a vector has room after it.
#[inline(always)]
fn write_run(byte: u8, count: usize, buf: &mut [u8], at: usize)
    requires { at + count + RUN_BYTES ≤ length buf.old }
    ensures { take (at + count) buf.new ≡ take at buf.old ++ replicate count byte }
{
    if count <= RUN_BYTES {
        copy_over(&[byte; RUN_BYTES], buf, at);
    } else {
        buf[at..at + count].fill(byte);
    }
}

/// Writes a minus, if there is one, so many zeros and digits from a place on, and answers where they end.
#[inline(always)]
fn write_signed(negative: bool, zeros: usize, digits: &[u8], buf: &mut [u8], at: usize) -> usize
    requires { at + length (minus negative) + zeros + length digits.now + RUN_BYTES ≤ length buf.old }
    ensures end { result ≡ at + length (minus negative) + zeros + length digits.now }
    ensures written { take result buf.new ≡ take at buf.old ++ (minus negative ++ (replicate zeros 48 ++ digits.now)) }
{
    buf[at] = b'-';
    let start = at + negative as usize;
    if zeros > 0 {
        write_run(b'0', zeros, buf, start);
    }
    copy_over(digits, buf, start + zeros);
    start + zeros + digits.len()
}

/// Writes a minus, if there is one, and digits from a place on, padded to the width, and answers where they end. None
/// where there may be no room.
#[inline(always)]
fn write_around(
    conv: &PrintConv,
    negative: bool,
    digits: &[u8],
    buf: &mut [u8],
    at: usize,
) -> Option<usize>
    requires place { at ≤ length buf.old }
    requires short { length digits.now ≤ 64 }
    requires field { is_field conv.now ≡ true }
    ensures within { IfSome result (λ end. end ≤ length buf.new) }
    ensures written { IfSome result (λ end. take end buf.new
        ≡ take at buf.old ++ text_around conv.now (minus negative) digits.now) }
    ensures answers { at + length (text_around conv.now (minus negative) digits.now) + 21 ≤ length buf.old
        → IsSome result }
{
    let len = negative as usize + digits.len();
    let short = (conv.width as usize).saturating_sub(len);
    if buf.len() - at < short + len + RUN_BYTES {
        return None;
    }
    if conv.minus {
        let end = write_signed(negative, 0, digits, buf, at);
        write_run(b' ', short, buf, end);
        return Some(end + short);
    }
    if conv.zero {
        return Some(write_signed(negative, short, digits, buf, at));
    }
    write_run(b' ', short, buf, at);
    Some(write_signed(negative, 0, digits, buf, at + short))
}

/// Writes the text that the conversion prints of a number from a place on, whatever its flags, and answers where it
/// ends. None where there may be no room. It is a call of its own, so that plain numbers don't pay for it.
#[inline(never)]
fn write_padded_number(conv: &PrintConv, number: Number, buf: &mut [u8], at: usize) -> Option<usize>
    requires { at ≤ length buf.old }
    ensures within { IfSome result (λ end. end ≤ length buf.new) }
    ensures written { IfSome result (λ end. take end buf.new
        ≡ take at buf.old ++ value_text conv.now (datum_of_number number)) }
    ensures answers { at + length (value_text conv.now (datum_of_number number)) + 21 ≤ length buf.old
        → IsSome result }
{
    let mut digits = [0; DIGIT_BYTES];
    if is_field_conv(conv) {
        let (start, end) = write_magnitude(conv.letter, number.magnitude, &mut digits);
        return write_around(conv, number.negative, &digits[start..end], buf, at);
    }
    let pieces = integer_pieces(conv, number.negative, number.magnitude, &mut digits);
    write_pieces(&pieces, buf, at)
}

/// Writes the text that the conversion prints of a number from a place on, and answers where it ends. It answers
/// wherever 21 bytes more than the text have room; None says that there is too little.
#[inline(always)]
pub fn write_integer(conv: &PrintConv, number: Number, buf: &mut [u8], at: usize) -> Option<usize>
    requires { at ≤ length buf.old }
    ensures within { IfSome result (λ end. end ≤ length buf.new) }
    ensures written { IfSome result (λ end. take end buf.new
        ≡ take at buf.old ++ value_text conv.now (datum_of_number number)) }
    ensures before { IfSome result (λ _. take at buf.new ≡ take at buf.old) }
    ensures answers { at + length (value_text conv.now (datum_of_number number)) + 21 ≤ length buf.old
        → IsSome result }
{
    if !is_plain_conv(conv) {
        return write_padded_number(conv, number, buf, at);
    }
    if buf.len() - at < NUMBER_BYTES {
        return None;
    }
    Some(write_number(number.negative, number.magnitude, buf, at))
}

/// Writes bytes, padded to the width, from a place on, and answers where they end. It is a call of its own, so that
/// plain texts don't pay for it.
#[inline(never)]
fn write_padded_text(conv: &PrintConv, bytes: &[u8], buf: &mut [u8], at: usize) -> Option<usize>
    requires { at ≤ length buf.old }
    ensures within { IfSome result (λ end. end ≤ length buf.new) }
    ensures written { IfSome result (λ end. take end buf.new ≡ take at buf.old ++ bytes_text conv.now bytes.now) }
    ensures answers { at + length (bytes_text conv.now bytes.now) ≤ length buf.old → IsSome result }
{
    let pieces = text_pieces(conv, bytes);
    write_pieces(&pieces, buf, at)
}

/// Writes bytes that the conversion prints as they are from a place on, and answers where they end. None where it
/// prints them otherwise, or where there is no room.
#[inline(always)]
pub fn write_plain_bytes(conv: &PrintConv, bytes: &[u8], buf: &mut [u8], at: usize) -> Option<usize>
    requires { at ≤ length buf.old }
    ensures within { IfSome result (λ end. end ≤ length buf.new) }
    ensures written { IfSome result (λ end. take end buf.new ≡ take at buf.old ++ bytes.now) }
    ensures plain { IfSome result (λ _. value_text conv.now (Bytes bytes.now) ≡ bytes.now) }
    ensures before { take at buf.new ≡ take at buf.old }
{
    if conv.width > 0 || conv.precision.is_some() || buf.len() - at < bytes.len() {
        return None;
    }
    copy_over(bytes, buf, at);
    Some(at + bytes.len())
}

/// Writes the text that the conversion prints of a value from a place on, and answers where it ends (C11 7.21.6.1). It
/// answers wherever 21 bytes more than the text have room; None says that there is too little. It takes no memory.
#[inline(always)]
pub fn write_value(conv: &PrintConv, value: Shown<'_>, buf: &mut [u8], at: usize) -> Option<usize>
    requires { at ≤ length buf.old }
    ensures within { IfSome result (λ end. end ≤ length buf.new) }
    ensures written { IfSome result (λ end. take end buf.new
        ≡ take at buf.old ++ value_text conv.now (datum_of_shown value.entry)) }
    ensures answers { at + length (value_text conv.now (datum_of_shown value.entry)) + 21 ≤ length buf.old
        → IsSome result }
{
    match value {
        Shown::Number(number) => write_integer(conv, number, buf, at),
        Shown::Text(bytes) => {
            if conv.width > 0 || conv.precision.is_some() {
                return write_padded_text(conv, bytes, buf, at);
            }
            write_piece(&Piece::Bytes(bytes), buf, at)
        }
        Shown::Real(real) => write_real(conv, real, buf, at),
    }
}

/// Writes a byte from a place on, and answers where it ends. None where there is no room.
#[inline(always)]
pub fn write_byte(byte: u8, buf: &mut [u8], at: usize) -> Option<usize>
    requires { at ≤ length buf.old }
    ensures within { IfSome result (λ end. end ≤ length buf.new) }
    ensures written { IfSome result (λ end. take end buf.new ≡ take at buf.old ++ byte ∷ []) }
    ensures answers { at + 1 ≤ length buf.old → IsSome result }
{
    if at == buf.len() {
        return None;
    }
    buf[at] = byte;
    Some(at + 1)
}

/// Writes the text that the conversion prints of its value from a place on, and answers where it ends. None where there
/// is no value, where it doesn't suit, or where there is too little room.
#[inline(always)]
fn write_suited<V: Printables>(
    conv: &PrintConv,
    values: &V,
    buf: &mut [u8],
    at: usize,
) -> Option<usize>
    requires { at ≤ length buf.old }
    ensures within { IfSome result (λ end. end ≤ length buf.new) }
    ensures written { IfSome result (λ end. take end buf.new
        ≡ take at buf.old ++ text_or_none conv.now (V.value_of values.now conv.now)) }
    ensures suited { IfSome result (λ _. Suits conv.now (V.value_of values.now conv.now)) }
{
    let shown = values.shown_by(conv)?;
    if !suits_shown(conv, shown) {
        return None;
    }
    write_value(conv, shown, buf, at)
}

/// Writes the text of a unit from a place on, and answers where it ends. None where its value is missing or doesn't
/// suit, or where there is too little room.
#[inline(always)]
fn write_unit<V: Printables>(unit: &Unit, values: &V, buf: &mut [u8], at: usize) -> Option<usize>
    requires { at ≤ length buf.old }
    ensures within { IfSome result (λ end. end ≤ length buf.new) }
    ensures written { IfSome result (λ end. take end buf.new
        ≡ take at buf.old ++ text_by (V.value_of values.now) unit.now) }
    ensures suited { IfSome result (λ _. IsSuited (V.value_of values.now) unit.now) }
{
    match unit {
        Unit::Byte(byte) => write_byte(*byte, buf, at),
        Unit::Conv(conv) => write_suited(conv, values, buf, at),
    }
}

/// Writes the texts of the units, one after the other, and answers where they end. None where a value is missing or
/// doesn't suit its conversion, or where there is too little room.
#[inline(always)]
fn write_units<V: Printables>(units: &[Unit], values: &V, buf: &mut [u8]) -> Option<usize>
    ensures within { IfSome result (λ end. end ≤ length buf.new) }
    ensures written { IfSome result (λ end. take end buf.new ≡ printed_by (V.value_of values.now) units.now) }
    ensures suited { IfSome result (λ _. AreSuited (V.value_of values.now) units.now) }
{
    let mut end = 0;
    for unit in units {
        end = write_unit(unit, values, buf, end)?;
    }
    Some(end)
}

/// Writes what the format prints of values to a buffer, and answers its length. None where a value is missing or
/// doesn't suit its conversion, or where there is too little room.
#[inline(always)]
pub fn write_printed<V: Printables>(
    format: &PrintFormat,
    values: &V,
    buf: &mut [u8],
) -> Option<usize>
    ensures within { IfSome result (λ end. end ≤ length buf.new) }
    ensures written { IfSome result (λ end. take end buf.new ≡ printed_by (V.value_of values.now) format.now) }
    ensures suited { IfSome result (λ _. AreSuited (V.value_of values.now) format.now) }
{
    write_units(format.directives(), values, buf)
}
