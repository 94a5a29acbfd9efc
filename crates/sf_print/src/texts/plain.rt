//! Values whose text is not padded: numbers that are a minus and decimal digits alone, and bytes that are printed as
//! they are.
ghost use Rattle.std.specs.Prelude.{◌≡◌, ◌≤◌, ◌<◌, ◌^◌, ◌++◌, is_some, length, IfSome};
ghost use Rattle.std.specs.Fmt.{decimal};
ghost use Rattle.sf_base.specs.Data.{datum_of};
ghost use Rattle.sf_print.specs.texts.Plain.{is_decimal, is_field, is_plain, is_plain_number, is_plain_text, minus};
ghost use Rattle.sf_print.specs.texts.Text.{value_text};

use crate::texts::text::{Printable, printable_of};
use sf_base::Value;
use sf_format::{PrintConv, PrintLetter};

#[inline]
fn is_decimal_letter(letter: PrintLetter) -> bool
    ensures { result ≡ is_decimal letter }
{
    match letter {
        PrintLetter::Signed | PrintLetter::Unsigned => true,
        _ => false,
    }
}

/// Whether the conversion prints a number of its kind as a minus, if there is one, and decimal digits alone.
#[inline]
pub fn is_plain_conv(conv: &PrintConv) -> bool
    ensures { result ≡ is_plain conv.now }
{
    is_decimal_letter(conv.letter)
        && conv.width == 0
        && !conv.plus
        && !conv.blank
        && conv.precision.is_none()
}

/// Whether the conversion prints a number as a minus, if there is one, and its digits, padded to the width.
#[inline(always)]
pub fn is_field_conv(conv: &PrintConv) -> bool
    ensures { result ≡ is_field conv.now }
{
    !conv.plus && !conv.blank && !conv.alt && conv.precision.is_none()
}

/// The sign (true: a minus) and the magnitude of a value that is printed by its digits alone.
#[inline]
pub fn plain_number(conv: &PrintConv, value: &Value<'_>) -> Option<(bool, u64)>
    ensures text { IfSome result (λ p. value_text conv.now (datum_of value.now) ≡ minus p.0 ++ decimal p.1) }
    ensures short { IfSome result (λ p. length (decimal p.1) ≤ 20) }
    ensures fits { IfSome result (λ p. p.1 < 2 ^ 64) }
    ensures answers { is_some result ≡ is_plain_number conv.now (datum_of value.now) }
{
    if !is_plain_conv(conv) {
        return None;
    }
    match printable_of(*value) {
        Printable::Number(negative, magnitude) => Some((negative, magnitude)),
        Printable::Bytes(_) => None,
    }
}

/// The bytes of a text that is printed as it is.
#[inline]
pub fn plain_bytes<'a>(conv: &PrintConv, value: &Value<'a>) -> Option<&'a [u8]>
    ensures text { IfSome result (λ bytes. value_text conv.now (datum_of value.now) ≡ bytes.now) }
    ensures answers { is_some result ≡ is_plain_text conv.now (datum_of value.now) }
{
    if conv.width > 0 || conv.precision.is_some() {
        return None;
    }
    match *value {
        Value::Text(bytes) => Some(bytes),
        _ => None,
    }
}
