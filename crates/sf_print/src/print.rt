//! Printing values by a format.
ghost use Rattle.std.specs.Prelude.{◌≡◌, ◌<◌, ◌≤◌, ◌+◌, ◌^◌, length, map, min, take, None, Ok, Err, OnOk, IfErr};
ghost use Rattle.std.specs.Prelude.{IfSome, MatchResult, is_err, if◌then◌else◌};
ghost use Rattle.sf_base.specs.Data.{datum_of};
ghost use Rattle.sf_format.specs.Units.{values_of};
ghost use Rattle.sf_print.specs.sink.Sinks.{counted_on};
ghost use Rattle.sf_print.specs.Staged.{Puts, Writes};
ghost use Rattle.sf_print.specs.texts.Floats.{real_text};
ghost use Rattle.sf_print.specs.texts.Text.{value_text};
ghost use Rattle.sf_print.specs.Short.{is_short, are_short};
ghost use Rattle.sf_print.specs.Printed.{unit_text, printed, length_or_fault, measured, WritesText, is_sink_fault};

use crate::digits::decimal_len;
use crate::fault::PrintFault;
use crate::handing::{flush, put, put_byte, put_number, write_text};
use crate::in_place::{Row, write_printed};
use crate::judging::{find_lowest_fault, value_of_slot};
use crate::piece::put_pieces;
use crate::sink::{Sink, SinkFault};
use crate::stage::Stage;
use crate::texts::{
    DIGIT_BYTES, FLOAT_BYTES, float_pieces, pieces_len, plain_bytes, plain_number, real_of,
    value_pieces,
};
use sf_base::{Real, Value};
use sf_format::{PrintConv, PrintFormat, Unit};

/// The greatest length of a printed text.
pub(crate) const MOST_BYTES: u32 = 2147483647;

/// The greatest length of a text that needs no measuring: 4096 units of which each prints one, padded to the
/// greatest width, are within `MOST_BYTES`.
const SHORT_BYTES: usize = 65536;

/// A text that is written at once, before the sink is handed it.
const LINE_BYTES: usize = 160;

/// Puts the text of a float, by its pieces. It is a call of its own, so that other values pay for no such buffer.
#[inline(never)]
fn put_float<K: Sink>(
    to: &mut K,
    stage: &mut Stage,
    conv: &PrintConv,
    real: Real,
) -> Result<(), SinkFault>
    requires { stage.old.written + stage.old.len + length (real_text conv.now real) < 2 ^ 32 }
    ensures text { Puts (K.contents to.old) stage.old (K.contents to.new) stage.new (real_text conv.now real) result }
    ensures count { OnOk result (stage.new.written + stage.new.len
        ≡ stage.old.written + stage.old.len + length (real_text conv.now real)) }
    ensures failures { K.failures to.new
        ≡ (if is_err result then counted_on (K.failures to.old) else K.failures to.old) }
{
    let mut buf = [0; FLOAT_BYTES];
    let pieces = float_pieces(conv, real, &mut buf);
    put_pieces(to, stage, &pieces)
}

/// Puts the text of any value, by its pieces. It is a call of its own, so that plain values pay for no buffer.
#[inline(never)]
fn put_padded<K: Sink>(
    to: &mut K,
    stage: &mut Stage,
    conv: &PrintConv,
    value: &Value<'_>,
) -> Result<(), SinkFault>
    requires { stage.old.written + stage.old.len + length (value_text conv.now (datum_of value.now)) < 2 ^ 32 }
    ensures text { Puts (K.contents to.old) stage.old (K.contents to.new) stage.new
        (value_text conv.now (datum_of value.now)) result }
    ensures count { OnOk result (stage.new.written + stage.new.len
        ≡ stage.old.written + stage.old.len + length (value_text conv.now (datum_of value.now))) }
    ensures failures { K.failures to.new
        ≡ (if is_err result then counted_on (K.failures to.old) else K.failures to.old) }
{
    if let Some(real) = real_of(value) {
        return put_float(to, stage, conv, real);
    }
    let mut buf = [0; DIGIT_BYTES];
    let pieces = value_pieces(conv, *value, &mut buf);
    put_pieces(to, stage, &pieces)
}

/// Puts the text of a value.
#[inline]
pub(crate) fn put_value<K: Sink>(
    to: &mut K,
    stage: &mut Stage,
    conv: &PrintConv,
    value: &Value<'_>,
) -> Result<(), SinkFault>
    requires { stage.old.written + stage.old.len + length (value_text conv.now (datum_of value.now)) < 2 ^ 32 }
    ensures text { Puts (K.contents to.old) stage.old (K.contents to.new) stage.new
        (value_text conv.now (datum_of value.now)) result }
    ensures count { OnOk result (stage.new.written + stage.new.len
        ≡ stage.old.written + stage.old.len + length (value_text conv.now (datum_of value.now))) }
    ensures failures { K.failures to.new
        ≡ (if is_err result then counted_on (K.failures to.old) else K.failures to.old) }
{
    if let Some((negative, magnitude)) = plain_number(conv, value) {
        return put_number(to, stage, negative, magnitude);
    }
    if let Some(bytes) = plain_bytes(conv, value) {
        return put(to, stage, bytes);
    }
    put_padded(to, stage, conv, value)
}

/// The length of a float's text, or the most where it is longer.
#[inline(never)]
fn float_len(conv: &PrintConv, real: Real, most: u64) -> u64
    requires { most < 2 ^ 32 }
    ensures { result ≡ min most (length (real_text conv.now real)) }
{
    let mut buf = [0; FLOAT_BYTES];
    pieces_len(&float_pieces(conv, real, &mut buf), most)
}

/// The length of a value's text, or the most where it is longer.
#[inline]
pub(crate) fn value_len(conv: &PrintConv, value: &Value<'_>, most: u64) -> u64
    requires { most < 2 ^ 32 }
    ensures { result ≡ min most (length (value_text conv.now (datum_of value.now))) }
{
    if let Some((negative, magnitude)) = plain_number(conv, value) {
        return most.min(negative as u64 + decimal_len(magnitude) as u64);
    }
    if let Some(bytes) = plain_bytes(conv, value) {
        return most.min(bytes.len() as u64);
    }
    if let Some(real) = real_of(value) {
        return float_len(conv, real, most);
    }
    let mut buf = [0; DIGIT_BYTES];
    pieces_len(&value_pieces(conv, *value, &mut buf), most)
}

/// Puts the text of a unit.
fn put_unit<K: Sink>(
    to: &mut K,
    stage: &mut Stage,
    unit: &Unit,
    values: &[Value<'_>],
) -> Result<(), SinkFault>
    requires { stage.old.written + stage.old.len + length (unit_text (map datum_of values.now) unit.now) < 2 ^ 32 }
    ensures text { Puts (K.contents to.old) stage.old (K.contents to.new) stage.new
        (unit_text (map datum_of values.now) unit.now) result }
    ensures count { OnOk result (stage.new.written + stage.new.len
        ≡ stage.old.written + stage.old.len + length (unit_text (map datum_of values.now) unit.now)) }
    ensures failures { K.failures to.new
        ≡ (if is_err result then counted_on (K.failures to.old) else K.failures to.old) }
{
    match unit {
        Unit::Byte(byte) => put_byte(to, stage, *byte),
        Unit::Conv(conv) => match value_of_slot(values, conv.slot) {
            None => Ok(()),
            Some(value) => put_value(to, stage, conv, value),
        },
    }
}

/// Puts the texts of the units, one after the other.
fn put_units<K: Sink>(
    to: &mut K,
    stage: &mut Stage,
    units: &[Unit],
    values: &[Value<'_>],
) -> Result<(), SinkFault>
    requires { stage.old.written + stage.old.len + length (printed units.now (map datum_of values.now)) < 2 ^ 32 }
    ensures text { Puts (K.contents to.old) stage.old (K.contents to.new) stage.new
        (printed units.now (map datum_of values.now)) result }
    ensures count { OnOk result (stage.new.written + stage.new.len
        ≡ stage.old.written + stage.old.len + length (printed units.now (map datum_of values.now))) }
    ensures failures { K.failures to.new
        ≡ (if is_err result then counted_on (K.failures to.old) else K.failures to.old) }
{
    for unit in units {
        put_unit(to, stage, unit, values)?;
    }
    Ok(())
}

/// Hands the sink the texts of the units, and answers how many bytes it took, or where it failed had taken.
fn write_units<K: Sink>(to: &mut K, units: &[Unit], values: &[Value<'_>]) -> Result<u32, u32>
    requires { length (printed units.now (map datum_of values.now)) < 2 ^ 32 }
    ensures text { Writes (K.contents to.old) (K.contents to.new) (printed units.now (map datum_of values.now)) result }
    ensures failures { K.failures to.new
        ≡ (if is_err result then counted_on (K.failures to.old) else K.failures to.old) }
{
    let mut stage = Stage::new();
    match put_units(to, &mut stage, units, values) {
        Ok(()) => {}
        Err(_) => return Err(stage.written),
    }
    match flush(to, &mut stage) {
        Ok(()) => Ok(stage.written),
        Err(_) => Err(stage.written),
    }
}

/// The length of a unit's text, or the most where it is longer.
fn unit_len(unit: &Unit, values: &[Value<'_>], most: u64) -> u64
    requires { most < 2 ^ 32 }
    ensures { result ≡ min most (length (unit_text (map datum_of values.now) unit.now)) }
{
    match unit {
        Unit::Byte(_) => most.min(1),
        Unit::Conv(conv) => match value_of_slot(values, conv.slot) {
            None => 0,
            Some(value) => value_len(conv, value, most),
        },
    }
}

/// The length of the printed text, or the most where it is longer.
fn units_len(units: &[Unit], values: &[Value<'_>], most: u64) -> u64
    requires { most < 2 ^ 32 }
    ensures { result ≡ min most (length (printed units.now (map datum_of values.now))) }
{
    let mut sum = 0;
    for unit in units {
        if sum == most {
            return most;
        }
        sum += unit_len(unit, values, most - sum);
    }
    sum
}

/// Refuses the number of values, then the lowest slot whose value is wrong.
fn refuse_values(units: &[Unit], count: u8, values: &[Value<'_>]) -> Result<(), PrintFault>
    requires { count ≡ length (values_of units.now) }
    ensures { MatchResult result
        (λ _. measured units.now (map datum_of values.now)
        ≡ length_or_fault None (length (printed units.now (map datum_of values.now))))
        (λ f. measured units.now (map datum_of values.now) ≡ Err f) }
{
    if values.len() != count as usize {
        return Err(PrintFault::WrongCount);
    }
    match find_lowest_fault(units, values) {
        Some(fault) => Err(fault),
        None => Ok(()),
    }
}

/// The length of the printed text in bytes (C11 7.21.6.1).
///
/// It refuses the number of values, then the lowest slot whose value is wrong, then a text of more than
/// 2147483647 bytes. It takes no memory.
pub fn printed_len(format: &PrintFormat, values: &[Value<'_>]) -> Result<u32, PrintFault>
    ensures { result ≡ measured format.now (map datum_of values.now) }
{
    let units = format.directives();
    refuse_values(units, format.values(), values)?;
    let len = units_len(units, values, MOST_BYTES as u64 + 1) as u32;
    if len > MOST_BYTES {
        return Err(PrintFault::TooLong);
    }
    Ok(len)
}

/// Whether the value is a number or a short text.
fn is_short(value: &Value<'_>) -> bool
    ensures { result ≡ is_short (datum_of value.now) }
{
    match value {
        Value::Text(bytes) => bytes.len() <= SHORT_BYTES,
        Value::F32(_) | Value::F64(_) => false,
        _ => true,
    }
}

/// Whether each value is a number or a short text. Of such values no format makes a text that is too long.
fn are_short(values: &[Value<'_>]) -> bool
    ensures { result ≡ are_short (map datum_of values.now) }
{
    for value in values {
        if !is_short(value) {
            return false;
        }
    }
    true
}

/// Refuses what `printed_len` refuses. It measures the text only where it may be too long.
fn refuse(format: &PrintFormat, values: &[Value<'_>]) -> Result<(), PrintFault>
    ensures told { MatchResult result
        (λ _. measured format.now (map datum_of values.now)
        ≡ Ok (length (printed format.now (map datum_of values.now))))
        (λ f. measured format.now (map datum_of values.now) ≡ Err f) }
    ensures most { OnOk result (length (printed format.now (map datum_of values.now)) ≤ 2147483647) }
{
    let units = format.directives();
    if are_short(values) {
        return refuse_values(units, format.values(), values);
    }
    match printed_len(format, values) {
        Ok(_) => Ok(()),
        Err(fault) => Err(fault),
    }
}

/// As `fprint`, of a text that is longer than a line. It is a call of its own, so that others don't pay for its stage.
#[inline(never)]
fn fprint_long<K: Sink>(
    to: &mut K,
    format: &PrintFormat,
    values: &[Value<'_>],
) -> Result<u32, PrintFault>
    ensures refused { IfErr (measured format.now (map datum_of values.now))
        (λ f. (result ≡ Err f) × (to.new ≡ to.old)) }
    ensures written { OnOk (measured format.now (map datum_of values.now))
        (WritesText (K.contents to.old) (K.contents to.new) (printed format.now (map datum_of values.now)) result) }
    ensures failures { K.failures to.new
        ≡ (if is_sink_fault result then counted_on (K.failures to.old) else K.failures to.old) }
{
    refuse(format, values)?;
    match write_units(to, format.directives(), values) {
        Ok(len) => Ok(len),
        Err(written) => Err(PrintFault::Sink { written }),
    }
}

/// Writes what the format prints of the values to a buffer, and answers its length. None where it refuses them, or
/// where there is too little room.
#[inline(always)]
fn write_row(format: &PrintFormat, values: &[Value<'_>], buf: &mut [u8]) -> Option<usize>
    requires { length buf.old ≤ 2147483647 }
    ensures within { IfSome result (λ end. end ≤ length buf.new) }
    ensures written { IfSome result (λ end. take end buf.new ≡ printed format.now (map datum_of values.now)) }
    ensures measured { IfSome result (λ end. measured format.now (map datum_of values.now) ≡ Ok end) }
{
    if values.len() != format.values() as usize {
        return None;
    }
    write_printed(format, &Row { values }, buf)
}

/// Prints the values by the format to the sink, and answers how many bytes were printed (C11 7.21.6.1).
///
/// It refuses as `printed_len` does, before anything is written. Where the sink fails, `PrintFault::Sink` has how many
/// bytes of the text it had taken: less than all. It takes no memory but what the sink takes.
pub fn fprint<K: Sink>(
    to: &mut K,
    format: &PrintFormat,
    values: &[Value<'_>],
) -> Result<u32, PrintFault>
    ensures refused { IfErr (measured format.now (map datum_of values.now))
        (λ f. (result ≡ Err f) × (to.new ≡ to.old)) }
    ensures written { OnOk (measured format.now (map datum_of values.now))
        (WritesText (K.contents to.old) (K.contents to.new) (printed format.now (map datum_of values.now)) result) }
    ensures failures { K.failures to.new
        ≡ (if is_sink_fault result then counted_on (K.failures to.old) else K.failures to.old) }
{
    let mut line = [0; LINE_BYTES];
    if let Some(len) = write_row(format, values, &mut line) {
        return write_text(to, &line[..len]);
    }
    fprint_long(to, format, values)
}
