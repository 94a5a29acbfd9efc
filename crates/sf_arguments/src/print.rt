//! Printing words by a format.
ghost use Rattle.std.specs.Prelude.{◌≡◌, ◌≤◌, ◌<◌, ◌+◌, ℕ, List, length, map, slice_get, string_bytes, IsSome};
ghost use Rattle.std.specs.Prelude.{IsNone, IfSome, IfNone, IfOk, IfErr, if◌then◌else◌};
ghost use Rattle.sf_base.specs.Data.{Datum, datum_of};
ghost use Rattle.sf_format.specs.Units.{AreProperUnits, values_of};
ghost use Rattle.sf_format.specs.Slots.{AreSlots};
ghost use Rattle.sf_print.specs.sink.Sinks.{counted_on};
ghost use Rattle.sf_arguments.specs.Arguments.{AllStand, IsAtFault, IsLowestFault, IsTextAt, StandsAt, TextsOf};
ghost use Rattle.sf_arguments.specs.Arguments.{ValuesOf, conv_at};
ghost use Rattle.sf_arguments.specs.Prints.{Answers, IsUnwritten, is_write_fault, print_fault};
ghost use Rattle.sf_arguments.specs.declared.word_reading.WordReading.TheVariants.{Escaped};

use crate::argument::{fault_of_word, text_of_word, value_of_word};
use crate::argument_fault::ArgumentFault;
use crate::word_reading::WordReading;
use sf_base::Value;
use sf_format::{PrintConv, PrintFormat, Unit};
use sf_print::{PrintFault, Sink, fprint};
use std::alloc::{AllocError, Global};

/// The conversion that prints the value of the slot.
fn conv_of_slot(units: &[Unit], slot: u8) -> Option<PrintConv>
    ensures { result ≡ conv_at units.now slot }
{
    for unit in units {
        if let Unit::Conv(conv) = unit {
            if conv.slot == slot {
                return Some(*conv);
            }
        }
    }
    None
}

/// Why the word of a slot stands for no value; None where it stands for one.
fn fault_at(how: WordReading, units: &[Unit], slot: u8, word: &str) -> Option<ArgumentFault>
    requires { IsSome (conv_at units.now slot) }
    ensures fault { IfSome result (IsAtFault how units.now slot word.now) }
    ensures none { IfNone result ((value : Datum) × StandsAt how units.now slot word.now value) }
{
    let Some(conv) = conv_of_slot(units, slot) else {
        unreachable!()
    };
    fault_of_word(how, &conv, word)
}

/// The bytes of the word of a slot, if its value is a text.
fn text_at(
    alloc: Global,
    how: WordReading,
    units: &[Unit],
    slot: u8,
    word: &str,
) -> Result<Vec<u8>, AllocError>
    requires { (value : Datum) × StandsAt how units.now slot word.now value }
    ensures { IfOk result (λ text. IsTextAt how units.now slot word.now text.items) }
{
    let Some(conv) = conv_of_slot(units, slot) else {
        unreachable!()
    };
    text_of_word(alloc, how, &conv, word)
}

/// The value that the word of a slot stands for; `text` has its bytes if it is a text.
fn value_at<'a>(how: WordReading, units: &[Unit], slot: u8, word: &str, text: &'a [u8]) -> Value<'a>
    requires text { IsTextAt how units.now slot word.now text.now }
    requires stands { (value : Datum) × StandsAt how units.now slot word.now value }
    ensures { StandsAt how units.now slot word.now (datum_of result) }
{
    let Some(conv) = conv_of_slot(units, slot) else {
        unreachable!()
    };
    value_of_word(how, &conv, word, text)
}

/// The fault of the first word that stands for no value.
fn find_lowest_fault(how: WordReading, units: &[Unit], words: &[String]) -> Option<ArgumentFault>
    requires slots { AreSlots (values_of units.now) }
    requires few { length (values_of units.now) ≤ 32 }
    requires count { length words.now ≡ length (values_of units.now) }
    ensures found { IfSome result (λ fault. IsLowestFault how units.now (map string_bytes words.now) fault) }
    ensures none { IfNone result (AllStand how units.now (map string_bytes words.now) (length words.now)) }
{
    for at in 0..words.len() {
        if let Some(fault) = fault_at(how, units, at as u8 + 1, words[at].as_str()) {
            return Some(fault);
        }
    }
    None
}

/// The bytes of the words whose values are texts, each at its word's place.
fn texts_of_words(
    alloc: Global,
    how: WordReading,
    units: &[Unit],
    words: &[String],
) -> Result<Vec<Vec<u8>>, AllocError>
    requires few { length words.now ≤ 32 }
    requires stand { AllStand how units.now (map string_bytes words.now) (length words.now) }
    ensures { IfOk result (λ texts. TextsOf how units.now (map string_bytes words.now)
        (map (λ text. text.items) texts.items)) }
{
    let mut texts = Vec::with_capacity(alloc, words.len())?;
    for at in 0..words.len() {
        let text = text_at(alloc, how, units, at as u8 + 1, words[at].as_str())?;
        texts.push_reserved(text);
    }
    Ok(texts)
}

/// The values that the words stand for; `texts` has the bytes of those that are texts.
fn values_of_words<'a>(
    alloc: Global,
    how: WordReading,
    units: &[Unit],
    words: &[String],
    texts: &'a [Vec<u8>],
) -> Result<Vec<Value<'a>>, AllocError>
    requires few { length words.now ≤ 32 }
    requires count { length words.now ≡ length (values_of units.now) }
    requires stand { AllStand how units.now (map string_bytes words.now) (length words.now) }
    requires texts { TextsOf how units.now (map string_bytes words.now) (map (λ text. text.items) texts.now) }
    ensures { IfOk result (λ values. ValuesOf how units.now (map string_bytes words.now) (map datum_of values.items)) }
{
    let mut values = Vec::with_capacity(alloc, words.len())?;
    for at in 0..words.len() {
        let value = value_at(
            how,
            units,
            at as u8 + 1,
            words[at].as_str(),
            texts[at].as_slice(),
        );
        values.push_reserved(value);
    }
    Ok(values)
}

/// Why the values that words stand for were not printed.
fn fault_of_print(fault: PrintFault) -> ArgumentFault
    ensures { result ≡ print_fault fault }
{
    match fault {
        PrintFault::TooLong => ArgumentFault::TooLong,
        _ => ArgumentFault::Write,
    }
}

/// Prints the values that the words after a print format stand for, the first word for slot 1, to the sink. The words
/// of texts are read in this way.
///
/// An integer's word is an optional sign and decimal digits, within its kind; that of `c` is one byte, that of `s` any
/// text. It refuses the number of words, then the first word that stands for no value, then want of memory, then a text
/// of more than 2147483647 bytes; nothing is written then. Where the sink fails, a front of the text was written, and
/// not all of it.
pub fn print_words<K: Sink>(
    alloc: Global,
    how: WordReading,
    format: &PrintFormat,
    words: &[String],
    out: &mut K,
) -> Result<(), ArgumentFault>
    ensures answer { Answers how format.now (map string_bytes words.now) (K.contents out.old)
        (K.contents out.new) result }
    ensures unwritten { IfErr result (λ fault. IsUnwritten fault out.old out.new) }
    ensures failures { K.failures out.new
        ≡ (if is_write_fault result then counted_on (K.failures out.old) else K.failures out.old) }
{
    let expected = format.values();
    if words.len() != expected as usize {
        return Err(ArgumentFault::WrongCount {
            expected,
            got: words.len(),
        });
    }
    let units = format.directives();
    if let Some(fault) = find_lowest_fault(how, units, words) {
        return Err(fault);
    }
    let texts = texts_of_words(alloc, how, units, words)?;
    let values = values_of_words(alloc, how, units, words, &texts)?;
    match fprint(out, format, &values) {
        Ok(_) => Ok(()),
        Err(fault) => Err(fault_of_print(fault)),
    }
}

/// As `print_words`, with the escapes in the words of texts resolved.
pub fn print_values<K: Sink>(
    alloc: Global,
    format: &PrintFormat,
    words: &[String],
    out: &mut K,
) -> Result<(), ArgumentFault>
    ensures answer { Answers Escaped format.now (map string_bytes words.now) (K.contents out.old) (K.contents out.new)
        result }
    ensures unwritten { IfErr result (λ fault. IsUnwritten fault out.old out.new) }
    ensures failures { K.failures out.new
        ≡ (if is_write_fault result then counted_on (K.failures out.old) else K.failures out.old) }
{
    print_words(alloc, WordReading::Escaped, format, words, out)
}
