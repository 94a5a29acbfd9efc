//! Texts of values that a pair carries over, written in place.
ghost use Rattle.std.specs.Prelude.{◌≡◌, ◌≤◌, ◌+◌, ◌∷◌, ◌++◌, [], true, None, Some, MatchOption, IfSome, IsSome};
ghost use Rattle.std.specs.Prelude.{length, map, take};
ghost use Rattle.std.specs.Option.{option_map};
ghost use Rattle.sf_base.specs.Data.{datum_of_shown};
ghost use Rattle.sf_print.specs.texts.Text.{value_text};
ghost use Rattle.sf_print.specs.Printed.{printed, text_or_none, value_at};
ghost use Rattle.sf_pair.specs.Fits.{item_fits, value_fits, fits_or_not, all_fit, conversions, assigned_conversions};

use crate::as_shown::AsShown;
use crate::columns::column_is_read;
use crate::doubles::double_is_read;
use crate::fitting::{assigned, text_fits};
use crate::pairing::width_of;
use crate::quick::{write_number_read, write_text_read};
use sf_base::{Real, Shown};
use sf_format::{Conversion, Directive, PrintConv, Unit};
use sf_print::{visible_len, write_byte, write_value};

/// The next conversion that assigns a value, and the directives after it.
#[inline(always)]
fn next_assigned(directives: &[Directive]) -> Option<(&Conversion, &[Directive])>
    ensures { MatchOption result (assigned_conversions directives.entry.now ≡ [])
        (λ next. assigned_conversions directives.entry.now ≡ next.0.now ∷ assigned_conversions next.1.now) }
{
    for i in 0..directives.len() {
        if let Some(scan) = assigned(&directives[i]) {
            return Some((scan, &directives[i + 1..]));
        }
    }
    None
}

/// Whether an item of the scan's conversion can be the text that the other printed of the value.
#[inline(always)]
fn item_is_read(conv: &PrintConv, scan: &Conversion, value: Shown<'_>, text: &[u8]) -> bool
    requires { text.now ≡ value_text conv.now (datum_of_shown value) }
    ensures { result ≡ item_fits conv.now scan.now (datum_of_shown value.entry) }
{
    match value {
        Shown::Text(bytes) => text_fits(&scan.shape, width_of(scan), bytes),
        Shown::Number(number) => {
            number.kind == conv.kind && visible_len(text) <= width_of(scan) as usize
        }
        Shown::Real(Real::F32(_)) => false,
        Shown::Real(Real::F64(bits)) => double_is_read(conv, scan, bits, text),
    }
}

/// Whether the scan's conversion reads the text that the other printed of the value.
#[inline(always)]
pub(crate) fn text_is_read(
    conv: &PrintConv,
    scan: &Conversion,
    value: Shown<'_>,
    text: &[u8],
) -> bool
    requires { text.now ≡ value_text conv.now (datum_of_shown value) }
    ensures { result ≡ value_fits conv.now scan.now (datum_of_shown value.entry) }
{
    if scan.column {
        column_is_read(conv, scan, value, text)
    } else {
        item_is_read(conv, scan, value, text)
    }
}

/// The value of a slot, where there is one. Slots are counted from 1.
#[inline(always)]
fn value_in<V: AsShown>(values: &[V], slot: u8) -> Option<&V>
    ensures { MatchOption result (value_at (map V.datum values.entry.now) slot ≡ None)
        (λ value. value_at (map V.datum values.entry.now) slot ≡ Some (V.datum value.now)) }
{
    let place = slot as usize;
    if place == 0 || values.len() < place {
        return None;
    }
    Some(&values[place - 1])
}

/// Writes the text that the conversion prints of a value from a place on, and answers where it ends. None where the
/// scan's conversion doesn't read it, or where there is no room. It is a call of its own, so that most values don't pay
/// for it.
#[inline(never)]
fn write_any<V: AsShown>(
    conv: &PrintConv,
    scan: &Conversion,
    value: &V,
    buf: &mut [u8],
    at: usize,
) -> Option<usize>
    requires { at ≤ length buf.old }
    ensures within { IfSome result (λ end. end ≤ length buf.new) }
    ensures written { IfSome result (λ end. take end buf.new
        ≡ take at buf.old ++ value_text conv.now (V.datum value.now)) }
    ensures fits { IfSome result (λ _. value_fits conv.now scan.now (V.datum value.now) ≡ true) }
    ensures answers { value_fits conv.now scan.now (V.datum value.now) ≡ true
        → at + length (value_text conv.now (V.datum value.now)) + 21 ≤ length buf.old → IsSome result }
{
    let shown = value.as_shown();
    let end = write_value(conv, shown, buf, at)?;
    if text_is_read(conv, scan, shown, &buf[at..end]) {
        Some(end)
    } else {
        None
    }
}

/// Writes the text that the conversion prints of its value from a place on, and answers where it ends. None where the
/// scan's conversion doesn't read it, where there is no value, or where there is no room.
#[inline(always)]
fn write_fitting<V: AsShown>(
    conv: &PrintConv,
    scan: &Conversion,
    values: &[V],
    buf: &mut [u8],
    at: usize,
) -> Option<usize>
    requires { at ≤ length buf.old }
    ensures within { IfSome result (λ end. end ≤ length buf.new) }
    ensures written { IfSome result (λ end. take end buf.new
        ≡ take at buf.old ++ text_or_none conv.now (value_at (map V.datum values.now) conv.now.slot)) }
    ensures fits { IfSome result (λ _. fits_or_not conv.now scan.now
        (value_at (map V.datum values.now) conv.now.slot) ≡ true) }
    ensures answers { fits_or_not conv.now scan.now (value_at (map V.datum values.now) conv.now.slot) ≡ true
        → at + length (text_or_none conv.now (value_at (map V.datum values.now) conv.now.slot)) + 21 ≤ length buf.old
        → IsSome result }
{
    let value = value_in(values, conv.slot)?;
    if let Some(number) = value.as_number() {
        return write_number_read(conv, scan, number, buf, at);
    }
    if let Some(bytes) = value.as_text() {
        if let Some(end) = write_text_read(conv, scan, bytes, buf, at) {
            return Some(end);
        }
    }
    write_any(conv, scan, value, buf, at)
}

/// Writes the texts of the units, one after the other, and answers where they end: each value fits the conversion that
/// reads it. None where one doesn't, or where there is too little room.
pub(crate) fn write_units<V: AsShown>(
    units: &[Unit],
    directives: &[Directive],
    values: &[V],
    buf: &mut [u8],
) -> Option<usize>
    ensures within { IfSome result (λ end. end ≤ length buf.new) }
    ensures written { IfSome result (λ end. take end buf.new ≡ printed units.now (map V.datum values.now)) }
    ensures fits { IfSome result (λ _. all_fit (map V.datum values.now) (conversions units.now)
        (assigned_conversions directives.now) ≡ true) }
    ensures answers { all_fit (map V.datum values.now) (conversions units.now)
        (assigned_conversions directives.now) ≡ true
        → length (printed units.now (map V.datum values.now)) + 21 ≤ length buf.old → IsSome result }
{
    let mut left = directives;
    let mut end = 0;
    for unit in units {
        match unit {
            Unit::Byte(byte) => end = write_byte(*byte, buf, end)?,
            Unit::Conv(conv) => {
                let Some((scan, rest)) = next_assigned(left) else {
                    return None;
                };
                end = write_fitting(conv, scan, values, buf, end)?;
                left = rest;
            }
        }
    }
    if next_assigned(left).is_some() {
        return None;
    }
    Some(end)
}
