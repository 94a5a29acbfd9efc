//! Printing values of which some may be missing.
ghost use Rattle.std.specs.Prelude.{◌≡◌, ◌<◌, ◌≤◌, ◌+◌, ◌^◌, length, map, min, None, Some, Ok, Err, OnOk, IfErr};
ghost use Rattle.std.specs.Prelude.{MatchOption, MatchResult, is_err, if◌then◌else◌};
ghost use Rattle.std.specs.Option.{option_map};
ghost use Rattle.sf_base.specs.Data.{datum_of};
ghost use Rattle.sf_format.specs.Units.{values_of};
ghost use Rattle.sf_print.specs.Given.{given_at, given_fault, given_measured, given_printed, given_text, given_unit};
ghost use Rattle.sf_print.specs.Given.{lowest_given_fault};
ghost use Rattle.sf_print.specs.Printed.{WritesText, fault_or_none, is_sink_fault, length_or_fault};
ghost use Rattle.sf_print.specs.sink.Sinks.{counted_on};
ghost use Rattle.sf_print.specs.Staged.{Puts, Writes};

use crate::fault::PrintFault;
use crate::handing::{flush, put_byte, put_run};
use crate::judging::{fault_of, lower_of};
use crate::print::{MOST_BYTES, put_value, value_len};
use crate::sink::{Sink, SinkFault};
use crate::stage::Stage;
use sf_base::Value;
use sf_format::{PrintConv, PrintFormat, Unit};

/// What a slot has: a value, or none. Slots are counted from 1.
fn given_of_slot<'a, 'b>(given: &'b [Option<Value<'a>>], slot: u8) -> Option<&'b Option<Value<'a>>>
    ensures { MatchOption result (given_at (map (option_map datum_of) given.entry.now) slot ≡ None)
        (λ v. given_at (map (option_map datum_of) given.entry.now) slot ≡ Some (option_map datum_of v.now)) }
{
    let place = slot as usize;
    if place == 0 || given.len() < place {
        return None;
    }
    Some(&given[place - 1])
}

/// What is wrong with what a conversion is given: nothing, where it is missing.
fn fault_of_one(conv: &PrintConv, given: &Option<Value<'_>>) -> Option<PrintFault>
    ensures { result ≡ fault_or_none conv.now (option_map datum_of given.now) }
{
    match given {
        Some(value) => fault_of(conv, value),
        None => None,
    }
}

/// What is wrong with the value of a unit.
fn fault_of_given(unit: &Unit, given: &[Option<Value<'_>>]) -> Option<PrintFault>
    ensures { result ≡ given_fault (map (option_map datum_of) given.now) unit.now }
{
    match unit {
        Unit::Byte(_) => None,
        Unit::Conv(conv) => match given_of_slot(given, conv.slot) {
            None => None,
            Some(one) => fault_of_one(conv, one),
        },
    }
}

/// The fault of the lowest slot at fault.
fn find_lowest_given_fault(units: &[Unit], given: &[Option<Value<'_>>]) -> Option<PrintFault>
    ensures { result ≡ lowest_given_fault units.now (map (option_map datum_of) given.now) }
{
    let mut found = None;
    for unit in units {
        found = lower_of(found, fault_of_given(unit, given));
    }
    found
}

/// The length of the text of what a conversion is given, or the most where it is longer.
fn one_len(conv: &PrintConv, given: &Option<Value<'_>>, most: u64) -> u64
    requires { most < 2 ^ 32 }
    ensures { result ≡ min most (length (given_text conv.now (option_map datum_of given.now))) }
{
    match given {
        Some(value) => value_len(conv, value, most),
        None => most.min(conv.width as u64),
    }
}

/// The length of a unit's text, or the most where it is longer.
fn given_len(unit: &Unit, given: &[Option<Value<'_>>], most: u64) -> u64
    requires { most < 2 ^ 32 }
    ensures { result ≡ min most (length (given_unit (map (option_map datum_of) given.now) unit.now)) }
{
    match unit {
        Unit::Byte(_) => most.min(1),
        Unit::Conv(conv) => match given_of_slot(given, conv.slot) {
            None => 0,
            Some(one) => one_len(conv, one, most),
        },
    }
}

/// The length of the printed text, or the most where it is longer.
fn all_len(units: &[Unit], given: &[Option<Value<'_>>], most: u64) -> u64
    requires { most < 2 ^ 32 }
    ensures { result ≡ min most (length (given_printed units.now (map (option_map datum_of) given.now))) }
{
    let mut sum = 0;
    for unit in units {
        if sum == most {
            return most;
        }
        sum += given_len(unit, given, most - sum);
    }
    sum
}

/// Puts the text of what a conversion is given.
fn put_one<K: Sink>(
    to: &mut K,
    stage: &mut Stage,
    conv: &PrintConv,
    given: &Option<Value<'_>>,
) -> Result<(), SinkFault>
    requires { stage.old.written + stage.old.len
        + length (given_text conv.now (option_map datum_of given.now)) < 2 ^ 32 }
    ensures text { Puts (K.contents to.old) stage.old (K.contents to.new) stage.new
        (given_text conv.now (option_map datum_of given.now)) result }
    ensures count { OnOk result (stage.new.written + stage.new.len
        ≡ stage.old.written + stage.old.len + length (given_text conv.now (option_map datum_of given.now))) }
    ensures failures { K.failures to.new
        ≡ (if is_err result then counted_on (K.failures to.old) else K.failures to.old) }
{
    match given {
        Some(value) => put_value(to, stage, conv, value),
        None => put_run(to, stage, b' ', conv.width as u32),
    }
}

/// Puts the text of a unit.
fn put_given<K: Sink>(
    to: &mut K,
    stage: &mut Stage,
    unit: &Unit,
    given: &[Option<Value<'_>>],
) -> Result<(), SinkFault>
    requires { stage.old.written + stage.old.len
        + length (given_unit (map (option_map datum_of) given.now) unit.now) < 2 ^ 32 }
    ensures text { Puts (K.contents to.old) stage.old (K.contents to.new) stage.new
        (given_unit (map (option_map datum_of) given.now) unit.now) result }
    ensures count { OnOk result (stage.new.written + stage.new.len
        ≡ stage.old.written + stage.old.len + length (given_unit (map (option_map datum_of) given.now) unit.now)) }
    ensures failures { K.failures to.new
        ≡ (if is_err result then counted_on (K.failures to.old) else K.failures to.old) }
{
    match unit {
        Unit::Byte(byte) => put_byte(to, stage, *byte),
        Unit::Conv(conv) => match given_of_slot(given, conv.slot) {
            None => Ok(()),
            Some(one) => put_one(to, stage, conv, one),
        },
    }
}

/// Puts the texts of the units, one after the other.
fn put_all<K: Sink>(
    to: &mut K,
    stage: &mut Stage,
    units: &[Unit],
    given: &[Option<Value<'_>>],
) -> Result<(), SinkFault>
    requires { stage.old.written + stage.old.len
        + length (given_printed units.now (map (option_map datum_of) given.now)) < 2 ^ 32 }
    ensures text { Puts (K.contents to.old) stage.old (K.contents to.new) stage.new
        (given_printed units.now (map (option_map datum_of) given.now)) result }
    ensures count { OnOk result (stage.new.written + stage.new.len
        ≡ stage.old.written + stage.old.len + length (given_printed units.now (map (option_map datum_of) given.now))) }
    ensures failures { K.failures to.new
        ≡ (if is_err result then counted_on (K.failures to.old) else K.failures to.old) }
{
    for unit in units {
        put_given(to, stage, unit, given)?;
    }
    Ok(())
}

/// Hands the sink the texts of the units, and answers how many bytes it took, or where it failed had taken.
fn write_all<K: Sink>(to: &mut K, units: &[Unit], given: &[Option<Value<'_>>]) -> Result<u32, u32>
    requires { length (given_printed units.now (map (option_map datum_of) given.now)) < 2 ^ 32 }
    ensures text { Writes (K.contents to.old) (K.contents to.new)
        (given_printed units.now (map (option_map datum_of) given.now)) result }
    ensures failures { K.failures to.new
        ≡ (if is_err result then counted_on (K.failures to.old) else K.failures to.old) }
{
    let mut stage = Stage::new();
    match put_all(to, &mut stage, units, given) {
        Ok(()) => {}
        Err(_) => return Err(stage.written),
    }
    match flush(to, &mut stage) {
        Ok(()) => Ok(stage.written),
        Err(_) => Err(stage.written),
    }
}

/// Refuses the number of values, then the lowest slot whose value is wrong.
fn refuse_given(units: &[Unit], count: u8, given: &[Option<Value<'_>>]) -> Result<(), PrintFault>
    requires { count ≡ length (values_of units.now) }
    ensures { MatchResult result
        (λ _. given_measured units.now (map (option_map datum_of) given.now)
        ≡ length_or_fault None (length (given_printed units.now (map (option_map datum_of) given.now))))
        (λ f. given_measured units.now (map (option_map datum_of) given.now) ≡ Err f) }
{
    if given.len() != count as usize {
        return Err(PrintFault::WrongCount);
    }
    match find_lowest_given_fault(units, given) {
        Some(fault) => Err(fault),
        None => Ok(()),
    }
}

/// Refuses what `fprint_given` refuses, before anything is written.
fn measure_given(format: &PrintFormat, given: &[Option<Value<'_>>]) -> Result<(), PrintFault>
    ensures told { MatchResult result
        (λ _. given_measured format.now (map (option_map datum_of) given.now)
        ≡ Ok (length (given_printed format.now (map (option_map datum_of) given.now))))
        (λ f. given_measured format.now (map (option_map datum_of) given.now) ≡ Err f) }
    ensures most { OnOk result (length (given_printed format.now (map (option_map datum_of) given.now)) ≤ 2147483647) }
{
    let units = format.directives();
    refuse_given(units, format.values(), given)?;
    if all_len(units, given, MOST_BYTES as u64 + 1) > MOST_BYTES as u64 {
        return Err(PrintFault::TooLong);
    }
    Ok(())
}

/// Prints the values by the format to the sink, as `fprint` does, where some may be missing. A missing value is blanks,
/// as many as the width of its conversion, whatever flags, precision and letter it has.
pub fn fprint_given<K: Sink>(
    to: &mut K,
    format: &PrintFormat,
    given: &[Option<Value<'_>>],
) -> Result<u32, PrintFault>
    ensures refused { IfErr (given_measured format.now (map (option_map datum_of) given.now))
        (λ f. (result ≡ Err f) × (to.new ≡ to.old)) }
    ensures written { OnOk (given_measured format.now (map (option_map datum_of) given.now))
        (WritesText (K.contents to.old) (K.contents to.new)
        (given_printed format.now (map (option_map datum_of) given.now)) result) }
    ensures failures { K.failures to.new
        ≡ (if is_sink_fault result then counted_on (K.failures to.old) else K.failures to.old) }
{
    measure_given(format, given)?;
    match write_all(to, format.directives(), given) {
        Ok(len) => Ok(len),
        Err(written) => Err(PrintFault::Sink { written }),
    }
}
