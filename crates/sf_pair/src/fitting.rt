//! Values that a pair carries over.
ghost use Rattle.std.specs.Prelude.{◌≡◌, ◌≤◌, ◌∷◌, [], true, Option, Some, None, MatchOption, length, map, ◌&&◌};
ghost use Rattle.std.specs.Prelude.{nat_lt, nat_le};
ghost use Rattle.std.specs.List.{list_all};
ghost use Rattle.sf_item.specs.Tests.{is_ink};
ghost use Rattle.sf_base.specs.Sets.{has_byte};
ghost use Rattle.sf_base.specs.Data.{datum_of};
ghost use Rattle.sf_print.specs.Printed.{value_at};
ghost use Rattle.sf_pair.specs.Groups.{width_of};
ghost use Rattle.sf_pair.specs.Fits.{is_byte, is_item_of, text_fits, item_fits, value_fits, fits_or_not, all_fit};
ghost use Rattle.sf_pair.specs.Fits.{conversions, assigned_conversions, assigned_by, fits};

use crate::columns::column_fits;
use crate::doubles::double_fits;
use crate::pairing::width_of;
use sf_base::{ByteSet, Value, is_space};
use sf_format::{Conversion, Directive, PrintConv, Shape, Unit};
use sf_print::{core_len, value_of_slot};

/// Whether the bytes are some, and at most so many.
#[inline]
pub(crate) fn is_between(bytes: &[u8], width: u32) -> bool
    ensures { result ≡ (nat_lt 0 (length bytes.now) && nat_le (length bytes.now) width) }
{
    !bytes.is_empty() && bytes.len() <= width as usize
}

/// Whether no white space is among the bytes.
pub(crate) fn has_no_space(bytes: &[u8]) -> bool
    ensures { result ≡ list_all is_ink bytes.now }
{
    for byte in bytes {
        if is_space(*byte) {
            return false;
        }
    }
    true
}

pub(crate) fn are_members(members: &ByteSet, bytes: &[u8]) -> bool
    ensures { result ≡ list_all (has_byte members.now) bytes.now }
{
    for byte in bytes {
        if !members.contains(*byte) {
            return false;
        }
    }
    true
}

/// Whether a conversion of the shape and width can read the text, and no more of it.
#[tactic(auto, using(crate::proofs::FitTests::all_bytes))]
pub(crate) fn text_fits(read: &Shape, width: u32, bytes: &[u8]) -> bool
    ensures fits { result ≡ text_fits read.now width bytes.now }
    ensures bytes { list_all is_byte bytes.now ≡ true }
{
    match read {
        Shape::Text(_) => is_between(bytes, width) && has_no_space(bytes),
        Shape::Set(members) => is_between(bytes, width) && are_members(members, bytes),
        Shape::Chars => bytes.len() == width as usize,
        Shape::Int(_) | Shape::Float(_) | Shape::Count => false,
    }
}

/// Whether an item of the scan's conversion can be the text that the other prints of the value.
fn item_fits(conv: &PrintConv, scan: &Conversion, value: Value<'_>) -> bool
    ensures { result ≡ item_fits conv.now scan.now (datum_of value.entry) }
{
    match value {
        Value::Text(bytes) => text_fits(&scan.shape, width_of(scan), bytes),
        Value::F32(_) => false,
        Value::F64(bits) => double_fits(conv, scan, bits),
        number => number.kind() == conv.kind && core_len(conv, number) <= width_of(scan),
    }
}

/// Whether the scan's conversion reads the text that the other prints of the value.
fn value_fits(conv: &PrintConv, scan: &Conversion, value: Value<'_>) -> bool
    ensures { result ≡ value_fits conv.now scan.now (datum_of value.entry) }
{
    if scan.column {
        column_fits(conv, scan, value)
    } else {
        item_fits(conv, scan, value)
    }
}

/// Whether the conversion's value is there, and fits.
fn slot_fits(conv: &PrintConv, scan: &Conversion, values: &[Value<'_>]) -> bool
    ensures { result ≡ fits_or_not conv.now scan.now (value_at (map datum_of values.now) conv.now.slot) }
{
    match value_of_slot(values, conv.slot) {
        None => false,
        Some(value) => value_fits(conv, scan, *value),
    }
}

/// The first conversion of the units, and the units after it.
fn next_conversion(units: &[Unit]) -> Option<(&PrintConv, &[Unit])>
    ensures { MatchOption result (conversions units.entry.now ≡ [])
        (λ next. conversions units.entry.now ≡ next.0.now ∷ conversions next.1.now) }
{
    for i in 0..units.len() {
        if let Unit::Conv(conv) = &units[i] {
            return Some((conv, &units[i + 1..]));
        }
    }
    None
}

/// The conversion of the directive, where it assigns a value.
pub(crate) fn assigned(directive: &Directive) -> Option<&Conversion>
    ensures { MatchOption result (assigned_by directive.entry.now ≡ None)
        (λ scan. assigned_by directive.entry.now ≡ Some scan.now) }
{
    match directive {
        Directive::Conv(scan) if scan.slot.is_some() => Some(scan),
        _ => None,
    }
}

/// Whether each conversion's value fits the conversion that reads it.
#[inline(never)]
pub(crate) fn all_fit(units: &[Unit], directives: &[Directive], values: &[Value<'_>]) -> bool
    ensures { result ≡ all_fit (map datum_of values.now) (conversions units.now) (assigned_conversions directives.now) }
{
    let mut left = units;
    for directive in directives {
        if let Some(scan) = assigned(directive) {
            let Some((conv, rest)) = next_conversion(left) else {
                return false;
            };
            if !slot_fits(conv, scan, values) {
                return false;
            }
            left = rest;
        }
    }
    next_conversion(left).is_none()
}
