//! How the words of a command are read.
ghost use Rattle.std.specs.Prelude.{◌≡◌, ◌≤◌, true, [], ◌∷◌, ◌++◌, IfErr, IfOk, OnOk, codes, map, option_map};
ghost use Rattle.std.specs.Prelude.{string_bytes};
ghost use Rattle.clap.specs.Words.{first_of, found_of, one_of, rows_of, subcommand_rows_of};
ghost use Rattle.clap.specs.Walk.{texts};
ghost use Rattle.sf_words.specs.Orders.{HasLines, IsOrder, IsOrderOf, IsRefusal, IsRefusalOf, IsWidth};
ghost use Rattle.clap.specs.declared.error.kind.ErrorKind.TheVariants.{DisplayHelp};
ghost use Rattle.sf_words.specs.Orders.{asks_formats, order_faults};
ghost use Rattle.sf_words.specs.Orders.{entered_faults, faults_of, files_by, form_given, is_form, is_set, notes_by};
ghost use Rattle.sf_words.specs.Orders.{number_by, number_in, output_text, profile_number, scan_formats, texts_by};
ghost use Rattle.sf_words.specs.Orders.{values_at};
ghost use Rattle.sf_words.specs.Orders.{verb_text};
ghost use Rattle.sf_words.specs.Taken.{IsTaken, IsVerb, IsWithin};

use crate::help;
use crate::hyphens::clap_words;
use crate::line::line;
use crate::misuse::{form_given, has_texts, is_set, misuse_of, refusal};
use crate::order::{LineOptions, Notes, Order, Output, Profile, Verb, WordsFault};
use crate::tips::usage_fault;
use clap::error::ErrorKind;
use clap::{ArgMatches, Error};
use std::alloc::{AllocError, Global};

/// The limit of a command that has none.
const DEFAULT_LIMIT: u32 = 1048576;

/// The number of the profile of a command that has none.
const DEFAULT_PROFILE: u32 = 1;

/// What is reported where clap gave no matches of the words.
fn fault_of(alloc: Global, words: &[String], error: &Error) -> WordsFault
    ensures { IsRefusalOf error.now.kind result }
{
    let kind = error.kind();
    if kind == ErrorKind::OutOfMemory {
        return WordsFault::NoMemory;
    }
    let Ok(text) = error.to_string(alloc) else {
        return WordsFault::NoMemory;
    };
    match kind {
        ErrorKind::DisplayHelp | ErrorKind::DisplayVersion => WordsFault::Help(text),
        _ => usage_fault(alloc, words, text.as_str()),
    }
}

/// What the word of a subcommand asks for.
fn verb_of(name: &str) -> Verb
    requires { IsVerb name.now }
    ensures { name.now ≡ verb_text result }
{
    match name {
        "show" => Verb::Show,
        "scan" => Verb::Scan,
        "print" => Verb::Print,
        "check" => Verb::Check,
        "copy" => Verb::Copy,
        _ => unreachable!(),
    }
}

/// The words of a command, after the program's name.
fn named<'a>(alloc: Global, words: &'a [String]) -> Result<Vec<&'a str>, AllocError>
    ensures { IfOk result (λ all. texts all.items ≡ codes "sf" ∷ map string_bytes words.entry.now) }
{
    let mut all = Vec::new(alloc);
    all.push("sf")?;
    for word in words {
        all.push(word.as_str())?;
    }
    Ok(all)
}

/// Appends copies of texts.
fn push_all(alloc: Global, values: &[&str], out: &mut Vec<String>) -> Result<(), AllocError>
    ensures { OnOk result (map string_bytes out.new.items ≡ map string_bytes out.old.items ++ texts values.now) }
{
    for value in values {
        out.push(String::from_str(alloc, value)?)?;
    }
    Ok(())
}

/// Appends what an argument was given.
fn push_given(
    alloc: Global,
    given: &ArgMatches<'_>,
    id: &str,
    out: &mut Vec<String>,
) -> Result<(), AllocError>
    ensures { OnOk result (map string_bytes out.new.items
        ≡ map string_bytes out.old.items ++ values_at id.now (rows_of (found_of given.now))) }
{
    match given.get_strs(id) {
        Some(values) => push_all(alloc, values, out),
        None => Ok(()),
    }
}

/// The argument that has the formats of a scan.
fn formats_id(given: &ArgMatches<'_>) -> &'static str
    ensures { values_at result.now (rows_of (found_of given.now)) ≡ scan_formats (rows_of (found_of given.now)) }
{
    if has_texts(given, "formats") {
        "formats"
    } else {
        "FORMAT"
    }
}

/// The formats and then the values.
fn texts_of(alloc: Global, verb: Verb, given: &ArgMatches<'_>) -> Result<Vec<String>, AllocError>
    ensures { IfOk result (λ all. map string_bytes all.items ≡ texts_by verb (rows_of (found_of given.now))) }
{
    let mut all = Vec::new(alloc);
    match verb {
        Verb::Show => push_given(alloc, given, "FORMAT", &mut all)?,
        Verb::Scan => push_given(alloc, given, formats_id(given), &mut all)?,
        Verb::Print => {
            push_given(alloc, given, "FORMAT", &mut all)?;
            push_given(alloc, given, "VALUES", &mut all)?;
        }
        Verb::Check | Verb::Copy => {
            push_given(alloc, given, "PRINT", &mut all)?;
            push_given(alloc, given, "SCAN", &mut all)?;
        }
    }
    Ok(all)
}

/// The files.
fn files_of(alloc: Global, verb: Verb, given: &ArgMatches<'_>) -> Result<Vec<String>, AllocError>
    ensures { IfOk result (λ all. map string_bytes all.items ≡ files_by verb (rows_of (found_of given.now))) }
{
    let mut all = Vec::new(alloc);
    match verb {
        Verb::Scan => {
            if has_texts(given, "formats") {
                push_given(alloc, given, "FORMAT", &mut all)?;
            }
            push_given(alloc, given, "FILE", &mut all)?;
        }
        Verb::Copy => push_given(alloc, given, "FILE", &mut all)?,
        Verb::Show | Verb::Print | Verb::Check => {}
    }
    Ok(all)
}

/// The most bytes of one record.
fn limit_of(given: &ArgMatches<'_>) -> u32
    requires { IsWithin 0 2147483647 (one_of (codes "limit") (rows_of (found_of given.now))) }
    ensures value { result ≡ number_by 1048576 (one_of (codes "limit") (rows_of (found_of given.now))) }
    ensures small { result ≤ 2147483647 }
{
    given.get_one("limit").unwrap_or(DEFAULT_LIMIT)
}

/// By which grammar the formats are read.
fn profile_of(given: &ArgMatches<'_>) -> Profile
    requires { IsWithin 1 3 (one_of (codes "profile") (rows_of (found_of given.now))) }
    ensures { profile_number result ≡ number_by 1 (one_of (codes "profile") (rows_of (found_of given.now))) }
{
    match given.get_one("profile").unwrap_or(DEFAULT_PROFILE) {
        2 => Profile::Two,
        3 => Profile::Three,
        _ => Profile::One,
    }
}

/// In which form values are written.
fn output_of(given: &ArgMatches<'_>) -> Output
    requires { is_form (form_given (rows_of (found_of given.now))) ≡ true }
    ensures { output_text result ≡ form_given (rows_of (found_of given.now)) }
{
    match form_given(given) {
        "tsv" => Output::Tsv,
        "json" => Output::Json,
        "csv" => Output::Csv,
        _ => Output::Plain,
    }
}

/// When more is said of a fault than its line.
fn notes_of(given: &ArgMatches<'_>) -> Notes
    ensures { result ≡ notes_by (rows_of (found_of given.now)) }
{
    if is_set(given, "explain") {
        Notes::Always
    } else if is_set(given, "no-explain") {
        Notes::Never
    } else {
        Notes::OnTerminal
    }
}

/// A copy of the text that an option was given, if it was.
fn text_given(alloc: Global, given: &ArgMatches<'_>, id: &str) -> Result<Option<String>, AllocError>
    ensures { IfOk result (λ copy. option_map string_bytes copy
        ≡ first_of id.now (rows_of (found_of given.now))) }
{
    match given.get_str(id) {
        Some(text) => Ok(Some(String::from_str(alloc, text)?)),
        None => Ok(None),
    }
}

/// The formats of the lines that are passed over.
fn ignored_of(alloc: Global, given: &ArgMatches<'_>) -> Result<Vec<String>, AllocError>
    ensures { IfOk result (λ all. map string_bytes all.items
        ≡ values_at (codes "ignore") (rows_of (found_of given.now))) }
{
    let mut all = Vec::new(alloc);
    push_given(alloc, given, "ignore", &mut all)?;
    Ok(all)
}

/// The width of the texts in a scan format that is answered, if one was given.
fn width_of(given: &ArgMatches<'_>) -> Option<u16>
    requires { IsWithin 1 65535 (one_of (codes "width") (rows_of (found_of given.now))) }
    ensures value { result ≡ option_map number_in (one_of (codes "width") (rows_of (found_of given.now))) }
    ensures wide { IsWidth result }
{
    given.get_one("width")
}

/// How many lines are passed over first.
fn skip_of(given: &ArgMatches<'_>) -> u64
    requires { IsWithin 0 9223372036854775807 (one_of (codes "skip") (rows_of (found_of given.now))) }
    ensures { result ≡ number_by 0 (one_of (codes "skip") (rows_of (found_of given.now))) }
{
    given.get_one("skip").unwrap_or(0)
}

/// How lines are scanned, if they are.
fn lines_of(given: &ArgMatches<'_>) -> Option<LineOptions>
    requires { IsWithin 0 9223372036854775807 (one_of (codes "skip") (rows_of (found_of given.now))) }
    ensures { HasLines (rows_of (found_of given.now)) result }
{
    if !is_set(given, "lines") {
        return None;
    }
    Some(LineOptions {
        skip: skip_of(given),
        whole: is_set(given, "whole") || is_set(given, "strict"),
        keep_going: is_set(given, "keep-going"),
        quiet: is_set(given, "quiet"),
        matching: is_set(given, "matching"),
    })
}

/// What matches ask for.
fn order_of(alloc: Global, matches: &ArgMatches<'_>) -> Result<Order, WordsFault>
    requires { IsTaken (subcommand_rows_of matches.now) }
    ensures order { IfOk result (IsOrderOf (subcommand_rows_of matches.now)) }
    ensures taken { IfOk result (λ _. entered_faults (subcommand_rows_of matches.now) ≡ []) }
    ensures refused { IfErr result (IsRefusal (entered_faults (subcommand_rows_of matches.now))) }
{
    let Some((name, given)) = matches.subcommand() else {
        unreachable!();
    };
    let verb = verb_of(name);
    if let Some(misuse) = misuse_of(verb, given) {
        return Err(refusal(alloc, verb, misuse));
    }
    Ok(Order {
        verb,
        profile: profile_of(given),
        limit: limit_of(given),
        line_buffered: is_set(given, "line-buffered"),
        notes: notes_of(given),
        output: output_of(given),
        strict: is_set(given, "strict"),
        lines: lines_of(given),
        print: text_given(alloc, given, "print")?,
        names: text_given(alloc, given, "names")?,
        tag: is_set(given, "tag"),
        ignored: ignored_of(alloc, given)?,
        raw: is_set(given, "raw"),
        width: width_of(given),
        texts: texts_of(alloc, verb, given)?,
        files: files_of(alloc, verb, given)?,
        file: None,
    })
}

/// What the words ask for, where they aren't those for the page on formats.
fn read_order(alloc: Global, words: &[String]) -> Result<Order, WordsFault>
    ensures order { IfOk result (IsOrder (map string_bytes words.now)) }
    ensures taken { IfOk result (λ _. order_faults (map string_bytes words.now) ≡ []) }
    ensures refused { IfErr result (IsRefusal (order_faults (map string_bytes words.now))) }
{
    let joined = clap_words(alloc, words)?;
    let all = named(alloc, &joined)?;
    let line = line(alloc)?;
    match line.try_get_matches_from(all.as_slice()) {
        Ok(matches) => order_of(alloc, &matches),
        Err(error) => Err(fault_of(alloc, &joined, &error)),
    }
}

/// Whether the words ask for the page on formats.
fn asks_formats(words: &[String]) -> bool
    ensures { result ≡ asks_formats (map string_bytes words.now) }
{
    match words {
        [first, second] => first.as_str() == "help" && second.as_str() == "formats",
        _ => false,
    }
}

/// The page on formats.
fn formats_page(alloc: Global) -> WordsFault
    ensures { IsRefusalOf DisplayHelp result }
{
    match String::from_str(alloc, help::FORMATS) {
        Ok(text) => WordsFault::Help(text),
        Err(_) => WordsFault::NoMemory,
    }
}

/// Reads the words of a command, which are those after the program's name.
///
/// # Errors
///
/// `Help` where they ask for help or for the version, `Usage` where they are at fault in another
/// way, and `NoMemory` where memory was refused.
pub fn read_words(alloc: Global, words: &[String]) -> Result<Order, WordsFault>
    ensures order { IfOk result (IsOrder (map string_bytes words.now)) }
    ensures taken { IfOk result (λ _. faults_of (map string_bytes words.now) ≡ []) }
    ensures refused { IfErr result (IsRefusal (faults_of (map string_bytes words.now))) }
{
    if asks_formats(words) {
        return Err(formats_page(alloc));
    }
    read_order(alloc, words)
}
