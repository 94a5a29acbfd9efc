//! Prints of reports by a print format, without a pair.
ghost use Rattle.std.specs.Prelude.{◌≡◌, ◌≤◌, ℕ, map, is_ok, refl, None, Some, IfNone, IfSome, if◌then◌else◌};
ghost use Rattle.std.specs.Option.{option_map};
ghost use Rattle.sf_base.specs.Data.{datum_of, datum_of_number, datum_of_shown};
ghost use Rattle.sf_format.specs.Slots.{kind_with};
ghost use Rattle.sf_format.specs.Units.{values_of};
ghost use Rattle.sf_print.specs.Given.{given_measured, given_printed};
ghost use Rattle.sf_print.specs.Printed.{measured, printed};
ghost use Rattle.sf_print.specs.sink.Sinks.{counted_on};
ghost use Rattle.sf_forms.specs.makers.Prints.{IsPrint, in_kind, printed_at, printed_row, printing, real_in};
ghost use Rattle.sf_forms.specs.makers.Prints.{value_found};
ghost use Rattle.sf_forms.specs.makers.Works.{Writes, sink_failed};

use crate::makers::maker::{Maker, Unwritten};
use crate::makers::printable::holds_all;
use crate::makers::rows::{FEW_VALUES, MOST_VALUES};
use arrayvec::ArrayVec;
use sf_base::{Kind, Number, Real, Shown, Store, Value};
use sf_format::{PrintConv, PrintFormat, ScanFormat};
use sf_print::{PrintFault, Printables, Sink, WritesInPlace, fprint, fprint_given, write_printed};
use sf_report::Report;
use std::marker::Model;
use std::num::{f32_from_bits_with_nan, f64_to_bits_with_nan};

/// The greatest length of a printed text.
const MOST_BYTES: usize = 2147483647;

/// Prints the values of each report by a print format.
#[derive(Drop)]
pub struct PrintMaker<'p> {
    print: &'p PrintFormat,
}

impl<'p> Model for PrintMaker<'p> {
    ghost use Rattle.std.specs.Prelude.{List};
    ghost use Rattle.sf_format.specs.declared.unit.Unit.{Unit as PrintUnit};

    ghost Value = { List PrintUnit };

    ghost view = { λ maker. maker.print.now };
}

impl<'p> PrintMaker<'p> {
    /// Of prints by this format.
    pub fn new(print: &'p PrintFormat) -> PrintMaker<'p>
        ensures { result ≡ print.entry.now }
    {
        PrintMaker { print }
    }
}

/// A number of a kind that another holds, as one of that.
fn widened(number: Number, wide: Kind) -> Number
    ensures { datum_of_number result ≡ in_kind (Some wide) (datum_of_number number) }
{
    if number.kind == wide {
        return number;
    }
    if !holds_all(wide, number.kind) {
        return number;
    }
    match wide.number(number.negative, number.magnitude) {
        Some(same) => same,
        None => unreachable!(),
    }
}

/// The float as one of the kind, where that is f64.
fn real_in(real: Real, kind: Kind) -> Real
    ensures { result ≡ real_in kind real }
{
    match (real, kind) {
        (Real::F32(bits), Kind::F64) => {
            Real::F64(f64_to_bits_with_nan(f64::from(f32_from_bits_with_nan(bits))))
        }
        _ => real,
    }
}

/// The value, a number as one of the kind where that holds each of its own.
#[inline(always)]
fn in_kind<'a>(shown: Shown<'a>, kind: Option<Kind>) -> Shown<'a>
    ensures { datum_of_shown result ≡ in_kind kind (datum_of_shown shown.entry) }
{
    match (shown, kind) {
        (Shown::Number(number), Some(wide)) => Shown::Number(widened(number, wide)),
        (Shown::Real(real), Some(wide)) => Shown::Real(real_in(real, wide)),
        _ => shown,
    }
}

/// The value of a slot, as one of the kind that the print format has there. None where it is missing.
#[inline]
fn value_at<'r, T: Store>(
    report: &Report<'r, T>,
    print: &PrintFormat,
    slot: u8,
) -> Option<Value<'r>>
    requires { 1 ≤ slot }
    ensures { option_map datum_of result ≡ printed_at print.now report.now.values slot }
{
    match report.shown(slot) {
        Some(shown) => Some(in_kind(shown, print.kind(slot)).value()),
        None => None,
    }
}

/// The values of a record, slot by slot, each as one of the kind that the print format has there. None where one is
/// missing.
fn row<'r, T: Store, const MOST: usize>(
    report: &Report<'r, T>,
    print: &PrintFormat,
    destinations: u8,
) -> Option<ArrayVec<Value<'r>, MOST>>
    requires { destinations ≤ MOST }
    ensures values { IfSome result (λ values.
        map Some (map datum_of values.items) ≡ printed_row print.now destinations report.now.values) }
    ensures missing { IfNone result ((slot : ℕ) × (1 ≤ slot) × (slot ≤ destinations)
        × (printed_at print.now report.now.values slot ≡ None)) }
{
    let mut values = ArrayVec::new();
    for before in 0..destinations {
        match value_at(report, print, before + 1) {
            Some(value) => values.push(value),
            None => return None,
        }
    }
    Some(values)
}

/// The same where some may be missing.
fn given_row<'r, T: Store, const MOST: usize>(
    report: &Report<'r, T>,
    print: &PrintFormat,
    destinations: u8,
) -> ArrayVec<Option<Value<'r>>, MOST>
    requires { destinations ≤ MOST }
    ensures { map (option_map datum_of) result.items ≡ printed_row print.now destinations report.now.values }
{
    let mut given = ArrayVec::new();
    for before in 0..destinations {
        given.push(value_at(report, print, before + 1));
    }
    given
}

/// Prints the values, if the format can print them.
fn print_row<K: Sink>(
    to: &mut K,
    print: &PrintFormat,
    values: &[Value<'_>],
) -> Result<(), Unwritten>
    ensures made { Writes (is_ok (measured print.now (map datum_of values.now)))
        (printed print.now (map datum_of values.now)) (K.contents to.old) (K.contents to.new) result }
    ensures failures { K.failures to.new
        ≡ (if sink_failed result then counted_on (K.failures to.old) else K.failures to.old) }
{
    match fprint(to, print, values) {
        Ok(_) => Ok(()),
        Err(PrintFault::Sink { .. }) => Err(Unwritten::Write),
        Err(_) => Err(Unwritten::Unfit),
    }
}

/// Prints values of which some may be missing, if the format can print them.
fn print_given<K: Sink>(
    to: &mut K,
    print: &PrintFormat,
    given: &[Option<Value<'_>>],
) -> Result<(), Unwritten>
    ensures made { Writes (is_ok (given_measured print.now (map (option_map datum_of) given.now)))
        (given_printed print.now (map (option_map datum_of) given.now)) (K.contents to.old) (K.contents to.new)
        result }
    ensures failures { K.failures to.new
        ≡ (if sink_failed result then counted_on (K.failures to.old) else K.failures to.old) }
{
    match fprint_given(to, print, given) {
        Ok(_) => Ok(()),
        Err(PrintFault::Sink { .. }) => Err(Unwritten::Write),
        Err(_) => Err(Unwritten::Unfit),
    }
}

/// Prints a record of which some values are missing, if the format can print it. It is a call of its own, so that
/// other records don't pay for it.
#[cold]
#[inline(never)]
fn print_missing<K: Sink, T: Store>(
    to: &mut K,
    print: &PrintFormat,
    report: &Report<'_, T>,
    destinations: u8,
) -> Result<(), Unwritten>
    requires { destinations ≤ 32 }
    ensures made { Writes (is_ok (given_measured print.now (printed_row print.now destinations report.now.values)))
        (given_printed print.now (printed_row print.now destinations report.now.values)) (K.contents to.old)
        (K.contents to.new) result }
    ensures failures { K.failures to.new
        ≡ (if sink_failed result then counted_on (K.failures to.old) else K.failures to.old) }
{
    let given = given_row::<T, MOST_VALUES>(report, print, destinations);
    print_given(to, print, &given)
}

/// Prints a record that isn't printed in the sink's block. It is a call of its own, so that others don't pay for it.
#[inline(never)]
fn print_apart<K: Sink, T: Store>(
    to: &mut K,
    print: &PrintFormat,
    report: &Report<'_, T>,
    destinations: u8,
) -> Result<(), Unwritten>
    requires { destinations ≤ 32 }
    ensures made { Writes (is_ok (given_measured print.now (printed_row print.now destinations report.now.values)))
        (given_printed print.now (printed_row print.now destinations report.now.values)) (K.contents to.old)
        (K.contents to.new) result }
    ensures failures { K.failures to.new
        ≡ (if sink_failed result then counted_on (K.failures to.old) else K.failures to.old) }
{
    if destinations as usize <= FEW_VALUES {
        if let Some(values) = row::<T, FEW_VALUES>(report, print, destinations) {
            return print_row(to, print, &values);
        }
    } else if let Some(values) = row::<T, MOST_VALUES>(report, print, destinations) {
        return print_row(to, print, &values);
    }
    print_missing(to, print, report, destinations)
}

/// The print of a record.
#[derive(Drop)]
struct RecordPrint<'a, 'r, T: Store> {
    print: &'a PrintFormat,
    report: &'a Report<'r, T>,
    destinations: u8,
}

impl<T: Store> Printables for RecordPrint<'_, '_, T> {
    ghost value_of = { λ printed conv. value_found printed.report.now.values conv };

    #[inline(always)]
    fn shown_by(&self, conv: &PrintConv) -> Option<Shown<'_>> {
        Some(in_kind(self.report.shown(conv.slot)?, Some(conv.kind)))
    }
}

impl<T: Store> WritesInPlace for RecordPrint<'_, '_, T> {
    ghost Writes = { λ old new text. IsPrint old.print.now old.destinations old.report.now.values text };

    // It may write nothing: the values are judged as they are written.
    ghost Surely = { λ printed room. ⊥ };

    #[inline(always)]
    fn write_in(&mut self, room: &mut [u8]) -> Option<usize> {
        if self.print.values() != self.destinations {
            return None;
        }
        let len = write_printed(self.print, &*self, room)?;
        if len > MOST_BYTES {
            return None;
        }
        Some(len)
    }
}

impl Maker for PrintMaker<'_> {
    ghost work = { λ units number ds. printing units ds };

    fn write<K: Sink, T: Store>(
        &mut self,
        to: &mut K,
        format: &ScanFormat,
        _number: usize,
        report: &Report<'_, T>,
    ) -> Result<(), Unwritten> {
        let destinations = format.destinations();
        let mut record = RecordPrint {
            print: self.print,
            report,
            destinations,
        };
        if to.lend(&mut record) {
            return Ok(());
        }
        print_apart(to, self.print, report, destinations)
    }

    ghost unmet = { λ units number ds report met. record { fits = refl; text = refl } };
}
