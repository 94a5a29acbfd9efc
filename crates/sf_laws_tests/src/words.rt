//! Laws of words: those of the command line, and those that a print is given.
ghost use Rattle.std.specs.Prelude.{◌≡◌, ◌≢◌, ◌<◌, ◌^◌, ◌∷◌, ℕ, List, [], Err, IfErr, codes, length, map, string_bytes};
ghost use Rattle.std.specs.List.{AllByRecursion};
ghost use Rattle.clap.specs.Words.{Text};
ghost use Rattle.sf_arguments.specs.Arguments.{IsLowestFault, ValuesOf};
ghost use Rattle.sf_arguments.specs.Words.{StandsFor};
ghost use Rattle.sf_arguments.specs.declared.argument_fault.ArgumentFault.{ArgumentFault};
ghost use Rattle.sf_arguments.specs.declared.argument_fault.ArgumentFault.TheVariants.{WrongCount};
ghost use Rattle.sf_arguments.specs.declared.word_reading.WordReading.TheVariants.{Escaped};
ghost use Rattle.sf_base.specs.Data.{Datum};
ghost use Rattle.sf_base.specs.declared.values.Kind.{Kind};
ghost use Rattle.sf_format.specs.declared.unit.PrintLetter.{PrintLetter};
ghost use Rattle.sf_format.specs.Units.{values_of};
ghost use Rattle.sf_words.specs.Laws.{IsPlain, with_flags};
ghost use Rattle.sf_words.specs.Orders.{HasTexts, IsRefusal, verb_text};
ghost use Rattle.sf_words.specs.declared.order.Verb.{Verb};

use sf_arguments::laws::{count_is_told, first_is_told, one_list, one_value};
use sf_arguments::{ArgumentFault, print_values};
use sf_format::PrintFormat;
use sf_print::ListSink;
use sf_words::laws::{formats_of_lines, plain_texts, texts_behind_dashes};
use sf_words::{Order, WordsFault, read_words};
use std::alloc::Global;

/// Reads words. Any texts after `--`, others that don't begin with a hyphen, and formats of lines each after `-e` are
/// refused for want of memory alone.
pub fn taken_words(alloc: Global, words: &[String]) -> Result<Order, WordsFault>
    ensures behind { (verb : Verb) (texts : List Text) → HasTexts verb texts → length texts < 2 ^ 64
        → map string_bytes words.now ≡ verb_text verb ∷ codes "--" ∷ texts → IfErr result (IsRefusal []) }
    ensures plain { (verb : Verb) (texts : List Text) → HasTexts verb texts → AllByRecursion IsPlain texts
        → length texts < 2 ^ 64 → map string_bytes words.now ≡ verb_text verb ∷ texts
        → IfErr result (IsRefusal []) }
    ensures formats { (format : Text) (more : List Text) → AllByRecursion IsPlain (format ∷ more)
        → map string_bytes words.now ≡ codes "scan" ∷ codes "--lines" ∷ with_flags (format ∷ more)
        → IfErr result (IsRefusal []) }
{
    texts_behind_dashes();
    plain_texts();
    formats_of_lines();
    read_words(alloc, words)
}

/// Prints the values that words stand for. Where these are not as many, or one stands for none, the answer is that;
/// each word stands for one value at most, and so do all of them.
pub fn printed_words(
    alloc: Global,
    format: &PrintFormat,
    words: &[String],
) -> (Result<(), ArgumentFault>, ListSink)
    ensures count { length (map string_bytes words.now) ≢ length (values_of format.now)
        → result.0 ≡ Err (WrongCount (length (values_of format.now)) (length (map string_bytes words.now))) }
    ensures first { (fault : ArgumentFault) → IsLowestFault Escaped format.now (map string_bytes words.now) fault
        → result.0 ≡ Err fault }
    ensures value { (letter : PrintLetter) (kind : Kind) (word : List ℕ) (a b : Datum)
        → StandsFor Escaped letter kind word a → StandsFor Escaped letter kind word b → a ≡ b }
    ensures values { (a b : List Datum) → ValuesOf Escaped format.now (map string_bytes words.now) a
        → ValuesOf Escaped format.now (map string_bytes words.now) b → a ≡ b }
{
    count_is_told();
    first_is_told();
    one_value();
    one_list();
    let mut out = ListSink::new(alloc);
    let answer = print_values(alloc, format, words, &mut out);
    (answer, out)
}
