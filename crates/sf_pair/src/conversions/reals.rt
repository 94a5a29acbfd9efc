//! Floats of a pair: the length of the text of 0, and that of the longest text.
ghost use Rattle.std.specs.Prelude.{false, not, ◌≡◌, ◌≤◌, ◌+◌, ◌&&◌, ◌||◌, nat_lt, if◌then◌else◌, length, max};
ghost use Rattle.std.specs.Prelude.{unwrap_or};
ghost use Rattle.sf_base.specs.declared.real.Real.TheVariants as reals;
ghost use Rattle.sf_float.specs.Computed.{size_text};
ghost use Rattle.sf_float.specs.Printed.{is_hexadecimal};
ghost use Rattle.sf_format.specs.declared.unit.PrintLetter.TheVariants.{Float};
ghost use Rattle.sf_print.specs.texts.Floats.{number_of, style_of};
ghost use Rattle.sf_pair.specs.conversions.Reals.{zero_seen, has_point};
ghost use Rattle.sf_pair.specs.conversions.Widths.{written_style, pointed, significant, longest_digits, mark_digits};
ghost use Rattle.sf_pair.specs.conversions.Widths.{longest_by, longest_float};

use sf_format::{FloatStyle, PrintConv, PrintLetter};

/// Whether `f` writes a point.
pub(crate) fn has_point(conv: &PrintConv) -> bool
    ensures { result ≡ has_point conv.now }
{
    conv.precision.unwrap_or(6) > 0 || conv.alt
}

/// How the letter writes digits; of the others, which print no float, as `f` does.
fn float_style(letter: PrintLetter) -> FloatStyle
    ensures style { result ≡ written_style letter }
    ensures text { style_of (Float result false) ≡ style_of letter }
{
    match letter {
        PrintLetter::Float(style, _) => style,
        _ => FloatStyle::Fixed,
    }
}

/// How many bytes a digit, a point and so many digits after it have; the point stands where these do, or where it is
/// asked for.
fn pointed_len(decimals: u8, asked: bool) -> u32
    ensures len { result ≡ 1 + (if nat_lt 0 decimals || asked then 1 + decimals else 0) }
    ensures short { result ≤ 257 }
{
    if decimals > 0 || asked {
        decimals as u32 + 2
    } else {
        1
    }
}

/// How many bytes the digits of 0 have, without its sign and without the `0x` of `a`.
fn zero_digits_len(style: FloatStyle, conv: &PrintConv) -> u32
    ensures len { result ≡ length (size_text (style_of (Float style false)) conv.now.alt conv.now.precision
        (number_of (reals.F64 0))) }
    ensures short { result ≤ 261 }
{
    let decimals = conv.precision.unwrap_or(6);
    match style {
        FloatStyle::Fixed => pointed_len(decimals, conv.alt),
        FloatStyle::Exponent => pointed_len(decimals, conv.alt) + 4,
        FloatStyle::General => {
            if conv.alt {
                pointed_len(decimals.max(1) - 1, true)
            } else {
                1
            }
        }
        FloatStyle::Hexadecimal => pointed_len(conv.precision.unwrap_or(0), conv.alt) + 3,
    }
}

/// How many bytes the sign of 0 has.
fn sign_len(conv: &PrintConv) -> u32
    ensures { result ≡ (if conv.now.plus || conv.now.blank then 1 else 0) }
{
    (conv.plus || conv.blank) as u32
}

/// Whether that is a blank, which isn't seen.
fn hidden_len(conv: &PrintConv) -> u32
    ensures { result ≡ (if conv.now.blank && not conv.now.plus then 1 else 0) }
{
    (conv.blank && !conv.plus) as u32
}

fn mark_len(style: FloatStyle) -> u32
    ensures { result ≡ (if is_hexadecimal (style_of (Float style false)) then 2 else 0) }
{
    match style {
        FloatStyle::Hexadecimal => 2,
        _ => 0,
    }
}

/// How many bytes there are with the zeros before the digits, or the blanks after them, if there are any.
fn filled_len(conv: &PrintConv, bare: u32) -> u32
    ensures { result ≡ (if conv.now.zero || conv.now.minus then max bare conv.now.width else bare) }
{
    if conv.zero || conv.minus {
        bare.max(conv.width as u32)
    } else {
        bare
    }
}

/// The length of the text that the conversion prints of 0, without the blanks before it.
pub fn zero_len(conv: &PrintConv) -> u32
    ensures { result ≡ length (zero_seen conv.now) }
{
    let style = float_style(conv.letter);
    let bare = sign_len(conv) + mark_len(style) + zero_digits_len(style, conv);
    filled_len(conv, bare) - hidden_len(conv)
}

/// How many bytes the digits of a double have at most, without its sign and without the `0x` of `a`.
fn longest_digits_len(style: FloatStyle, conv: &PrintConv) -> u32
    ensures len { result ≡ longest_digits style conv.now }
    ensures short { result ≤ 565 }
    ensures few { unwrap_or conv.now.precision 6 ≤ 255 }
{
    let decimals = conv.precision.unwrap_or(6);
    match style {
        FloatStyle::Fixed => pointed_len(decimals, conv.alt) + 308,
        FloatStyle::Exponent => pointed_len(decimals, conv.alt) + 5,
        FloatStyle::General => {
            let digits = decimals.max(1);
            if digits > 1 || conv.alt {
                digits as u32 + 6
            } else {
                6
            }
        }
        FloatStyle::Hexadecimal => pointed_len(conv.precision.unwrap_or(13), conv.alt) + 6,
    }
}

/// The length of the longest text that the conversion prints of a finite double, without the blanks before it.
pub(crate) fn longest_float_len(conv: &PrintConv) -> u32
    ensures len { result ≡ longest_float conv.now }
    ensures few { unwrap_or conv.now.precision 6 ≤ 255 }
{
    let style = float_style(conv.letter);
    let mark = match style {
        FloatStyle::Hexadecimal => 2,
        _ => 0,
    };
    let bare = 1 + mark + longest_digits_len(style, conv);
    if conv.zero {
        bare.max(conv.width as u32)
    } else {
        bare
    }
}
