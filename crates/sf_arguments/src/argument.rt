//! What a word stands for.
ghost use Rattle.std.specs.Prelude.{◌≡◌, ℤ, IfOk, IfSome, IfNone};
ghost use Rattle.std.specs.Int.RustNames.{FitsSigned};
ghost use Rattle.std.specs.Int.{w128};
ghost use Rattle.sf_base.specs.Data.{Datum, datum_of};
ghost use Rattle.sf_format.specs.declared.unit.PrintLetter.TheVariants.{One, Text};
ghost use Rattle.sf_arguments.specs.Arguments.{IsNoFloat, IsNoNumber, IsRefusedBy};
ghost use Rattle.sf_arguments.specs.Words.{Denotes, IsFloatOf, IsNumberOf, IsReading, StandsFor};

use crate::argument_fault::ArgumentFault;
use crate::word_reading::{WordReading, bytes_of, read};
use sf_base::{Kind, Value};
use sf_float_read::{is_float, value_f64};
use sf_format::{PrintConv, PrintLetter};
use std::alloc::{AllocError, Global};

/// The number that a word denotes. None if it denotes none, or one that no kind holds.
fn number_of(word: &str) -> Option<i128>
    ensures some { IfSome result (λ z. Denotes word.now z) }
    ensures none { IfNone result ((z : ℤ) → Denotes word.now z → ¬ (FitsSigned w128 z)) }
{
    word.parse::<i128>().ok()
}

/// The value of a kind that a word denotes: an optional sign and decimal digits, of any number.
fn integer_of_word<'a>(kind: Kind, word: &str) -> Option<Value<'a>>
    ensures some { IfSome result (λ v. IsNumberOf kind word.now (datum_of v)) }
    ensures none { IfNone result ((value : Datum) → ¬ (IsNumberOf kind word.now value)) }
{
    let number = number_of(word)?;
    kind.value(number)
}

/// The float that a word denotes: one matching sequence of a scan's float, the nearest of binary64, where that is in
/// range.
fn float_of_word<'a>(word: &str) -> Option<Value<'a>>
    ensures some { IfSome result (λ v. IsFloatOf word.now (datum_of v)) }
    ensures none { IfNone result ((value : Datum) → ¬ (IsFloatOf word.now value)) }
{
    let text = word.as_bytes();
    if !is_float(text) {
        return None;
    }
    match value_f64(text) {
        Some(bits) => Some(Value::F64(bits)),
        None => None,
    }
}

/// The value that a word stands for where the conversion prints it; `text` has its bytes if it is a text.
pub(crate) fn value_of_word<'a>(
    how: WordReading,
    conv: &PrintConv,
    word: &str,
    text: &'a [u8],
) -> Value<'a>
    requires text { IsReading how conv.now.letter word.now text.now }
    requires stands { (value : Datum) × StandsFor how conv.now.letter conv.now.kind word.now value }
    ensures { StandsFor how conv.now.letter conv.now.kind word.now (datum_of result) }
{
    match conv.letter {
        PrintLetter::Text | PrintLetter::One => Value::Text(text),
        PrintLetter::Signed
        | PrintLetter::Unsigned
        | PrintLetter::Octal
        | PrintLetter::HexLower
        | PrintLetter::HexUpper
        | PrintLetter::Binary => match integer_of_word(conv.kind, word) {
            Some(value) => value,
            None => unreachable!(),
        },
        PrintLetter::Float(..) => match float_of_word(word) {
            Some(value) => value,
            None => unreachable!(),
        },
    }
}

/// Why a word stands for no text.
fn fault_of_text(how: WordReading, conv: &PrintConv, word: &str) -> Option<ArgumentFault>
    ensures fault { IfSome result (IsRefusedBy how Text conv.now word.now) }
    ensures none { IfNone result ((value : Datum) × StandsFor how Text conv.now.kind word.now value) }
{
    match bytes_of(how, word.as_bytes()) {
        Ok(_) => None,
        Err(offset) => Some(ArgumentFault::BadEscape {
            at: conv.slot,
            offset,
        }),
    }
}

/// Why a word stands for no text of one byte.
fn fault_of_one(how: WordReading, conv: &PrintConv, word: &str) -> Option<ArgumentFault>
    ensures fault { IfSome result (IsRefusedBy how One conv.now word.now) }
    ensures none { IfNone result ((value : Datum) × StandsFor how One conv.now.kind word.now value) }
{
    match bytes_of(how, word.as_bytes()) {
        Ok(1) => None,
        Ok(_) => Some(ArgumentFault::NotOneByte { at: conv.slot }),
        Err(offset) => Some(ArgumentFault::BadEscape {
            at: conv.slot,
            offset,
        }),
    }
}

/// Why a word stands for no number of the conversion's kind.
fn fault_of_number(conv: &PrintConv, word: &str) -> Option<ArgumentFault>
    ensures fault { IfSome result (IsNoNumber conv.now word.now) }
    ensures none { IfNone result ((value : Datum) × IsNumberOf conv.now.kind word.now value) }
{
    match integer_of_word(conv.kind, word) {
        Some(_) => None,
        None => Some(ArgumentFault::NotInKind {
            at: conv.slot,
            kind: conv.kind,
        }),
    }
}

/// Why a word stands for no float.
fn fault_of_float(conv: &PrintConv, word: &str) -> Option<ArgumentFault>
    ensures fault { IfSome result (IsNoFloat conv.now word.now) }
    ensures none { IfNone result ((value : Datum) × IsFloatOf word.now value) }
{
    match float_of_word(word) {
        Some(_) => None,
        None => Some(ArgumentFault::NotInKind {
            at: conv.slot,
            kind: conv.kind,
        }),
    }
}

/// Why a word stands for no value that the conversion prints; None where it stands for one. It takes no memory.
pub(crate) fn fault_of_word(how: WordReading, conv: &PrintConv, word: &str) -> Option<ArgumentFault>
    ensures fault { IfSome result (IsRefusedBy how conv.now.letter conv.now word.now) }
    ensures none { IfNone result ((value : Datum) × StandsFor how conv.now.letter conv.now.kind word.now value) }
{
    match conv.letter {
        PrintLetter::Text => fault_of_text(how, conv, word),
        PrintLetter::One => fault_of_one(how, conv, word),
        PrintLetter::Signed
        | PrintLetter::Unsigned
        | PrintLetter::Octal
        | PrintLetter::HexLower
        | PrintLetter::HexUpper
        | PrintLetter::Binary => fault_of_number(conv, word),
        PrintLetter::Float(..) => fault_of_float(conv, word),
    }
}

/// The bytes of a word whose value is a text.
pub(crate) fn text_of_word(
    alloc: Global,
    how: WordReading,
    conv: &PrintConv,
    word: &str,
) -> Result<Vec<u8>, AllocError>
    requires { (value : Datum) × StandsFor how conv.now.letter conv.now.kind word.now value }
    ensures { IfOk result (λ text. IsReading how conv.now.letter word.now text.items) }
{
    match conv.letter {
        PrintLetter::Text | PrintLetter::One => read(alloc, how, word.as_bytes()),
        PrintLetter::Signed
        | PrintLetter::Unsigned
        | PrintLetter::Octal
        | PrintLetter::HexLower
        | PrintLetter::HexUpper
        | PrintLetter::Binary
        | PrintLetter::Float(..) => Ok(Vec::new(alloc)),
    }
}
