//! Values that a column carries over: what is printed of one is the column, and the text in it is read as the value.
ghost use Rattle.std.specs.Prelude.{◌≡◌, ◌≤◌, ◌+◌, true, length};
ghost use Rattle.std.specs.List.{list_all, list_any};
ghost use Rattle.sf_base.specs.Blanks.{trimmed};
ghost use Rattle.sf_base.specs.Data.{datum_of, datum_of_shown};
ghost use Rattle.sf_base.specs.declared.real.Real.TheVariants as reals;
ghost use Rattle.sf_item.specs.ColumnTests.{column_text};
ghost use Rattle.sf_print.specs.texts.Floats.{real_text};
ghost use Rattle.sf_print.specs.texts.Text.{base_of, value_text};
ghost use Rattle.sf_pair.specs.conversions.Neighbours.{digits_in};
ghost use Rattle.sf_pair.specs.Groups.{width_of};
ghost use Rattle.sf_pair.specs.Fits.{is_byte, is_uncut, is_trimmed, stands_apart, text_stands, real_stands, stands};
ghost use Rattle.sf_pair.specs.Fits.{column_fits};

use crate::conversions::has_digit;
use crate::doubles::{is_finite, is_read_as};
use crate::fitting::{are_members, has_no_space};
use crate::pairing::width_of;
use sf_base::{Kind, Real, Shown, Value, is_space, trimmed_end};
use sf_format::{Conversion, PrintConv, PrintLetter, Shape};
use sf_print::write_value;

/// Columns of at most so many bytes are written to a small buffer.
const SHORT: usize = 1024;

/// No scan has a greater width.
const WIDEST: usize = 65535;

/// What a text wants of room beyond its own length.
const SPARE: usize = 21;

/// The bytes without the white space at both ends.
fn trimmed(bytes: &[u8]) -> &[u8]
    ensures { result.now ≡ trimmed bytes.entry.now }
{
    for i in 0..bytes.len() {
        if !is_space(bytes[i]) {
            return trimmed_end(&bytes[i..]);
        }
    }
    &bytes[bytes.len()..]
}

/// The text in a column with these bytes.
fn column_text<'a>(scan: &Conversion, bytes: &'a [u8]) -> &'a [u8]
    ensures { result.now ≡ column_text scan.now bytes.entry.now }
{
    if scan.shape.is_strict() {
        bytes
    } else {
        trimmed(bytes)
    }
}

/// The base that a letter writes digits in.
fn base_of(letter: PrintLetter) -> u8
    ensures base { result ≡ base_of letter }
    ensures small { result ≤ 16 }
{
    match letter {
        PrintLetter::Octal => 8,
        PrintLetter::HexLower | PrintLetter::HexUpper => 16,
        PrintLetter::Binary => 2,
        _ => 10,
    }
}

/// Whether a byte of the text is a digit of the base.
fn holds_digit(base: u8, text: &[u8]) -> bool
    requires { base ≤ 16 }
    ensures { result ≡ list_any (digits_in base) text.now }
{
    for byte in text {
        if has_digit(base, *byte) {
            return true;
        }
    }
    false
}

/// Whether no precision cuts the text.
fn is_uncut(precision: Option<u8>, bytes: &[u8]) -> bool
    ensures { result ≡ is_uncut precision bytes.now }
{
    match precision {
        None => true,
        Some(most) => bytes.len() <= most as usize,
    }
}

/// Whether the text has a byte, and no white space at its ends.
fn is_trimmed(bytes: &[u8]) -> bool
    ensures { result ≡ is_trimmed bytes.now }
{
    !bytes.is_empty() && trimmed(bytes).len() == bytes.len()
}

/// Whether the text is told from what stands around it in a column of the width.
fn stands_apart(strict: bool, width: u32, bytes: &[u8]) -> bool
    ensures { result ≡ stands_apart strict width bytes.now }
{
    if strict {
        bytes.len() == width as usize && has_no_space(bytes)
    } else {
        is_trimmed(bytes)
    }
}

/// Whether a column of the shape and width can have the text.
#[tactic(auto, using(crate::proofs::FitTests::all_bytes))]
fn text_stands(read: &Shape, width: u32, bytes: &[u8]) -> bool
    ensures stands { result ≡ text_stands read.now width bytes.now }
    ensures bytes { list_all is_byte bytes.now ≡ true }
{
    match read {
        Shape::Text(lead) => stands_apart(lead.is_strict(), width, bytes),
        Shape::Set(members) => is_trimmed(bytes) && are_members(members, bytes),
        Shape::Int(_) | Shape::Float(_) | Shape::Chars | Shape::Count => false,
    }
}

/// Whether the text that was printed of a double is read in its column as that double.
fn double_stands(conv: &PrintConv, scan: &Conversion, bits: u64, text: &[u8]) -> bool
    requires { text.now ≡ real_text conv.now (reals.F64 bits) }
    ensures { result ≡ real_stands conv.now scan.now (reals.F64 bits) }
{
    conv.kind == Kind::F64 && is_finite(bits) && is_read_as(column_text(scan, text), bits)
}

/// Whether the value stands in a column that is the text which was printed of it.
fn stands(conv: &PrintConv, scan: &Conversion, value: Shown<'_>, text: &[u8]) -> bool
    requires { text.now ≡ value_text conv.now (datum_of_shown value) }
    ensures { result ≡ stands conv.now scan.now (datum_of_shown value.entry) }
{
    match value {
        Shown::Text(bytes) => is_uncut(conv.precision, bytes)
            && text_stands(&scan.shape, width_of(scan), bytes),
        Shown::Number(number) => number.kind == conv.kind
            && holds_digit(base_of(conv.letter), text),
        Shown::Real(Real::F32(_)) => false,
        Shown::Real(Real::F64(bits)) => double_stands(conv, scan, bits, text),
    }
}

/// Whether the scan's conversion, which takes a column, reads the text that the other printed of the value.
pub(crate) fn column_is_read(
    conv: &PrintConv,
    scan: &Conversion,
    value: Shown<'_>,
    text: &[u8],
) -> bool
    requires { text.now ≡ value_text conv.now (datum_of_shown value) }
    ensures { result ≡ column_fits conv.now scan.now (datum_of_shown value.entry) }
{
    text.len() == width_of(scan) as usize && stands(conv, scan, value, text)
}

/// Whether the text that the conversion prints of a value, written to the buffer, is read in a column.
fn column_fits_in(conv: &PrintConv, scan: &Conversion, value: Value<'_>, buf: &mut [u8]) -> bool
    requires { width_of scan.now + SPARE ≤ length buf.old }
    ensures { result ≡ column_fits conv.now scan.now (datum_of value.entry) }
{
    let shown = value.shown();
    match write_value(conv, shown, buf, 0) {
        Some(end) => column_is_read(conv, scan, shown, &buf[..end]),
        None => false,
    }
}

/// The same for a column of any width. It is a call of its own, so that others pay for no such buffer.
#[inline(never)]
fn column_fits_wide(conv: &PrintConv, scan: &Conversion, value: Value<'_>) -> bool
    ensures { result ≡ column_fits conv.now scan.now (datum_of value.entry) }
{
    let mut buf = [0; WIDEST + SPARE];
    let _width = width_of(scan);
    column_fits_in(conv, scan, value, &mut buf)
}

/// Whether the scan's conversion, which takes a column, reads the text that the other prints of the value. It takes no
/// memory.
pub(crate) fn column_fits(conv: &PrintConv, scan: &Conversion, value: Value<'_>) -> bool
    ensures { result ≡ column_fits conv.now scan.now (datum_of value.entry) }
{
    if width_of(scan) as usize > SHORT {
        return column_fits_wide(conv, scan, value);
    }
    let mut buf = [0; SHORT + SPARE];
    column_fits_in(conv, scan, value, &mut buf)
}
