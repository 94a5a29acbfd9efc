//! What is refused before anything is printed.
ghost use Rattle.std.specs.Prelude.{◌≡◌, is_none, map, MatchOption, Some, None};
ghost use Rattle.sf_base.specs.Data.{datum_of, datum_of_shown};
ghost use Rattle.sf_print.specs.Printed.{same_kind, is_printed_as, suits, value_fault, value_at, fault_or_none};
ghost use Rattle.sf_print.specs.Printed.{unit_fault, slot_of, lower, lowest_fault};

use crate::fault::PrintFault;
use sf_base::{Kind, Real, Shown, Value};
use sf_format::{PrintConv, PrintLetter, Unit};

#[inline(always)]
fn are_same(a: Kind, b: Kind) -> bool
    ensures { result ≡ same_kind a b }
{
    a == b
}

/// Whether a value of the kind is printed where the other is due: an `f32` is an `f64`, too.
#[inline(always)]
fn is_printed_as(kind: Kind, due: Kind) -> bool
    ensures { result ≡ is_printed_as kind due }
{
    match (kind, due) {
        (Kind::F32, Kind::F64) => true,
        _ => are_same(kind, due),
    }
}

/// Whether `c` prints one byte; other letters print every value.
#[inline(always)]
fn suits_letter(letter: PrintLetter, value: &Value<'_>) -> bool
    ensures { result ≡ suits letter (datum_of value.now) }
{
    match (letter, value) {
        (PrintLetter::One, Value::Text(bytes)) => bytes.len() == 1,
        _ => true,
    }
}

/// What is wrong with a value.
#[inline(always)]
pub(crate) fn fault_of(conv: &PrintConv, value: &Value<'_>) -> Option<PrintFault>
    ensures { result ≡ value_fault conv.now (datum_of value.now) }
{
    if !is_printed_as(value.kind(), conv.kind) {
        return Some(PrintFault::WrongKind { at: conv.slot });
    }
    if !suits_letter(conv.letter, value) {
        return Some(PrintFault::NotOneByte { at: conv.slot });
    }
    None
}

/// Whether nothing is wrong with a value.
#[inline(always)]
pub(crate) fn suits_shown(conv: &PrintConv, shown: Shown<'_>) -> bool
    ensures { result ≡ is_none (value_fault conv.now (datum_of_shown shown.entry)) }
{
    match shown {
        Shown::Number(number) => are_same(number.kind, conv.kind),
        Shown::Text(bytes) => {
            are_same(Kind::Text, conv.kind) && suits_letter(conv.letter, &Value::Text(bytes))
        }
        Shown::Real(Real::F32(_)) => is_printed_as(Kind::F32, conv.kind),
        Shown::Real(Real::F64(_)) => are_same(Kind::F64, conv.kind),
    }
}

/// The value of a slot, where there is one. Slots are counted from 1.
#[inline]
pub fn value_of_slot<'a, 'b>(values: &'b [Value<'a>], slot: u8) -> Option<&'b Value<'a>>
    ensures { MatchOption result (value_at (map datum_of values.entry.now) slot ≡ None)
        (λ v. value_at (map datum_of values.entry.now) slot ≡ Some (datum_of v.now)) }
{
    let place = slot as usize;
    if place == 0 || values.len() < place {
        return None;
    }
    Some(&values[place - 1])
}

/// What is wrong with the value of a unit.
#[inline(always)]
fn fault_of_unit(unit: &Unit, values: &[Value<'_>]) -> Option<PrintFault>
    ensures { result ≡ unit_fault (map datum_of values.now) unit.now }
{
    match unit {
        Unit::Byte(_) => None,
        Unit::Conv(conv) => match value_of_slot(values, conv.slot) {
            None => None,
            Some(value) => fault_of(conv, value),
        },
    }
}

fn slot_at_fault(fault: &PrintFault) -> u8
    ensures { result ≡ slot_of fault.now }
{
    match fault {
        PrintFault::WrongKind { at } | PrintFault::NotOneByte { at } => *at,
        _ => 0,
    }
}

/// Of two faults the one of the lower slot.
pub(crate) fn lower_of(first: Option<PrintFault>, second: Option<PrintFault>) -> Option<PrintFault>
    ensures { result ≡ lower first second }
{
    match (first, second) {
        (None, _) => second,
        (Some(_), None) => first,
        (Some(f), Some(g)) => {
            if slot_at_fault(&f) <= slot_at_fault(&g) {
                first
            } else {
                second
            }
        }
    }
}

/// The fault of the lowest slot at fault.
pub(crate) fn find_lowest_fault(units: &[Unit], values: &[Value<'_>]) -> Option<PrintFault>
    ensures { result ≡ lowest_fault units.now (map datum_of values.now) }
{
    let mut found = None;
    for unit in units {
        if let Some(fault) = fault_of_unit(unit, values) {
            found = lower_of(found, Some(fault));
        }
    }
    found
}
