//! What the definitions of the command line leave to the command to refuse.
ghost use Rattle.std.specs.Prelude.{◌≡◌, [], ◌∷◌, codes, is_some, option_map};
ghost use Rattle.clap.specs.Walk.{texts};
ghost use Rattle.clap.specs.Words.{first_of, found_of, rows_of};
ghost use Rattle.sf_words.specs.Misuses.{misuse_kind, misuse_kinds};
ghost use Rattle.sf_words.specs.Options.{is_given_by};
ghost use Rattle.sf_words.specs.Conflicts.{AreConflicts, are_both_given};
ghost use Rattle.sf_words.specs.Orders.{IsRefusal, are_comma_and_blank, blank_faults, column_faults, form_given};
ghost use Rattle.sf_words.specs.Orders.{format_faults, has_blank_name, has_conflict, has_line_option, has_texts};
ghost use Rattle.sf_words.specs.Orders.{is_blank, is_form, is_given, is_set, last_text, own_faults, verb_text};

use crate::help;
use crate::options::{CommandOption, FORMS, OptionValue, all_options};
use crate::order::{Verb, WordsFault};
use clap::ArgMatches;
use clap::parser::ValueSource;
use std::alloc::{AllocError, Global};

/// Two arguments that are not taken together.
#[derive(Clone, Copy)]
pub(crate) struct Conflict {
    pub one: &'static str,
    pub other: &'static str,
}

/// The table.
static CONFLICTS: [Conflict; 7] = [
    Conflict {
        one: "explain",
        other: "no-explain",
    },
    Conflict {
        one: "print",
        other: "output",
    },
    Conflict {
        one: "print",
        other: "names",
    },
    Conflict {
        one: "print",
        other: "tag",
    },
    Conflict {
        one: "matching",
        other: "keep-going",
    },
    Conflict {
        one: "matching",
        other: "quiet",
    },
    Conflict {
        one: "width",
        other: "SCAN",
    },
];

/// Why words that clap takes are refused.
#[derive(Clone, Copy)]
pub(crate) enum Misuse<'a> {
    /// No form has this name.
    Form(&'a str),
    /// This option is one of lines.
    NoLines(&'static CommandOption),
    /// These two are not taken together.
    Together(&'static Conflict),
    /// The plain form has no names.
    PlainNames,
    /// `--tag` stands without `-e`.
    TagAlone,
    /// A blank stands around one of these names.
    BlankName(&'a str),
    /// There is no format.
    NoFormat,
}

/// Whether an option without a value was given.
pub(crate) fn is_set(given: &ArgMatches<'_>, name: &str) -> bool
    ensures { result ≡ is_set name.now (rows_of (found_of given.now)) }
{
    given.get_one(name).unwrap_or(false)
}

/// The last of some texts, or another.
fn last_text<'a>(other: &'a str, given: &[&'a str]) -> &'a str
    ensures { result.now ≡ last_text other.entry.now (texts given.now) }
{
    let mut last = other;
    let mut rest = given;
    while let [text, more @ ..] = rest {
        last = *text;
        rest = more;
    }
    last
}

/// The last text of `--output`, as given or by default; that of a command without it.
pub(crate) fn form_given<'a>(given: &ArgMatches<'a>) -> &'a str
    ensures { result.now ≡ form_given (rows_of (found_of given.now)) }
{
    match given.get_strs("output") {
        Some(values) => last_text("plain", values),
        None => "plain",
    }
}

/// Whether a form has this name.
fn is_form(name: &str) -> bool
    ensures { result ≡ is_form name.now }
{
    for form in FORMS {
        if name == *form {
            return true;
        }
    }
    false
}

/// Whether an argument was given texts.
pub(crate) fn has_texts(given: &ArgMatches<'_>, id: &str) -> bool
    ensures { result ≡ has_texts id.now (rows_of (found_of given.now)) }
{
    match given.get_strs(id) {
        Some(values) => !values.is_empty(),
        None => false,
    }
}

/// Whether an argument was given, and doesn't have its default.
fn is_given(given: &ArgMatches<'_>, id: &str) -> bool
    ensures { result ≡ is_given id.now (rows_of (found_of given.now)) }
{
    matches!(given.value_source(id), Some(ValueSource::CommandLine))
}

/// Whether an option was given.
fn has_option(given: &ArgMatches<'_>, option: &CommandOption) -> bool
    ensures { result ≡ is_given_by option.now.value option.now.name.now (rows_of (found_of given.now)) }
{
    match option.value {
        OptionValue::Nothing => is_set(given, option.name),
        _ => has_texts(given, option.name),
    }
}

/// The first option of the table that was given and is one of lines.
fn line_option(given: &ArgMatches<'_>) -> Option<&'static CommandOption>
    ensures { is_some result ≡ has_line_option (rows_of (found_of given.now)) }
{
    for option in all_options() {
        if option.of.is_of_lines() && has_option(given, option) {
            return Some(option);
        }
    }
    None
}

/// The table of conflicts.
fn all_conflicts() -> &'static [Conflict]
    ensures { AreConflicts result.now }
{
    &CONFLICTS
}

/// Whether both arguments were given.
fn are_both_given(given: &ArgMatches<'_>, conflict: &Conflict) -> bool
    ensures { result ≡ are_both_given (rows_of (found_of given.now)) conflict.now }
{
    is_given(given, conflict.one) && is_given(given, conflict.other)
}

/// The first conflict of the table of which both arguments were given.
fn conflict_of(given: &ArgMatches<'_>) -> Option<&'static Conflict>
    ensures { is_some result ≡ has_conflict (rows_of (found_of given.now)) }
{
    for conflict in all_conflicts() {
        if are_both_given(given, conflict) {
            return Some(conflict);
        }
    }
    None
}

/// Whether a byte is a blank.
fn is_blank(b: u8) -> bool
    ensures { result ≡ is_blank b }
{
    matches!(b, b' ' | b'\t')
}

/// Whether one of two bytes is a comma, and the other a blank.
fn are_comma_and_blank(a: u8, b: u8) -> bool
    ensures { result ≡ are_comma_and_blank a b }
{
    (a == b',' && is_blank(b)) || (is_blank(a) && b == b',')
}

/// Whether a blank stands around one of the names, between which there are commas.
fn has_blank_name(names: &[u8]) -> bool
    ensures { result ≡ has_blank_name names.now }
{
    let mut before = b',';
    let mut rest = names;
    while let [b, more @ ..] = rest {
        if are_comma_and_blank(before, *b) {
            return true;
        }
        before = *b;
        rest = more;
    }
    are_comma_and_blank(before, b',')
}

/// What is at fault in these names.
fn blank_misuse<'a>(names: Option<&'a str>) -> Option<Misuse<'a>>
    ensures { misuse_kinds result ≡ blank_faults (option_map (λ text. text.now) names.entry) }
{
    match names {
        Some(names) if has_blank_name(names.as_bytes()) => Some(Misuse::BlankName(names)),
        _ => None,
    }
}

/// What is at fault in the names that were given.
fn name_misuse<'a>(given: &ArgMatches<'a>) -> Option<Misuse<'a>>
    ensures { misuse_kinds result ≡ blank_faults (first_of (codes "names") (rows_of (found_of given.now))) }
{
    blank_misuse(given.get_str("names"))
}

/// What is at fault in the names and the number of a format.
fn column_misuse<'a>(given: &ArgMatches<'a>) -> Option<Misuse<'a>>
    ensures { misuse_kinds result ≡ column_faults (rows_of (found_of given.now)) }
{
    if is_given(given, "names") && form_given(given) == "plain" {
        Some(Misuse::PlainNames)
    } else if is_given(given, "tag") && !has_texts(given, "formats") {
        Some(Misuse::TagAlone)
    } else {
        name_misuse(given)
    }
}

/// What is at fault in the formats of a scan.
fn format_misuse<'a>(given: &ArgMatches<'_>) -> Option<Misuse<'a>>
    ensures { misuse_kinds result ≡ format_faults (rows_of (found_of given.now)) }
{
    if has_texts(given, "formats") || has_texts(given, "FORMAT") {
        None
    } else {
        Some(Misuse::NoFormat)
    }
}

/// The first thing at fault.
pub(crate) fn misuse_of<'a>(verb: Verb, given: &ArgMatches<'a>) -> Option<Misuse<'a>>
    ensures { misuse_kinds result ≡ own_faults (verb_text verb) (rows_of (found_of given.now)) }
{
    let form = form_given(given);
    if !is_form(form) {
        return Some(Misuse::Form(form));
    }
    if !is_set(given, "lines") {
        if let Some(option) = line_option(given) {
            return Some(Misuse::NoLines(option));
        }
    }
    if let Some(conflict) = conflict_of(given) {
        return Some(Misuse::Together(conflict));
    }
    if let Some(misuse) = column_misuse(given) {
        return Some(misuse);
    }
    match verb {
        Verb::Scan => format_misuse(given),
        Verb::Show | Verb::Print | Verb::Check | Verb::Copy => None,
    }
}

/// An option as it is written, as `--skip <N>`.
pub(crate) fn push_option(text: &mut String, option: &CommandOption) -> Result<(), AllocError> {
    match option.short {
        Some(letter) if !option.has_long => write!(text, "-{letter}")?,
        _ => write!(text, "--{}", option.name)?,
    }
    match option.value {
        OptionValue::Nothing => Ok(()),
        OptionValue::Number { .. } => text.push_str(" <N>"),
        OptionValue::Text { name }
        | OptionValue::LastText { name, .. }
        | OptionValue::Texts { name } => write!(text, " <{name}>"),
    }
}

/// An argument as it is written.
fn push_argument(text: &mut String, id: &str) -> Result<(), AllocError> {
    for option in all_options() {
        if option.name == id {
            return push_option(text, option);
        }
    }
    write!(text, "<{id}>")?;
    Ok(())
}

/// An argument that is not taken so, as clap writes it: `how` stands before the other one.
fn push_refused(text: &mut String, one: &str, how: &str, other: &str) -> Result<(), AllocError> {
    text.push_str("the argument '")?;
    push_argument(text, one)?;
    write!(text, "' cannot be used {how} '")?;
    push_argument(text, other)?;
    text.push_str("'")
}

/// The names of forms, as clap writes the values that an option takes.
fn push_forms(text: &mut String, forms: &[&str]) -> Result<(), AllocError> {
    text.push_str("\n  [possible values: ")?;
    let mut between = "";
    for form in forms {
        write!(text, "{between}{form}")?;
        between = ", ";
    }
    text.push_str("]")
}

/// A name that no form has.
fn push_no_form(text: &mut String, name: &str) -> Result<(), AllocError> {
    write!(text, "invalid value '{name}' for '")?;
    push_argument(text, "output")?;
    text.push_str("'")?;
    push_forms(text, FORMS)
}

/// Names of values in the plain form, which has none.
fn push_plain_names(text: &mut String) -> Result<(), AllocError> {
    text.push_str("the argument '")?;
    push_argument(text, "names")?;
    write!(text, "' cannot be used with '--output {}'", FORMS[0])?;
    push_forms(text, &FORMS[1..])
}

/// Names with a blank around one of them, and how to write them.
fn push_blank_name(text: &mut String, names: &str) -> Result<(), AllocError> {
    write!(text, "invalid value '{names}' for '")?;
    push_argument(text, "names")?;
    text.push_str("': a blank stands around a name: write --names '")?;
    let mut is_first = true;
    for name in names.split(',') {
        if !is_first {
            text.push_str(",")?;
        }
        text.push_str(name.trim())?;
        is_first = false;
    }
    text.push_str("'")
}

/// The text of a misuse, in the form of those that come of clap.
fn text_of(alloc: Global, verb: Verb, misuse: Misuse<'_>) -> Result<String, AllocError> {
    let mut text = String::from_str(alloc, "sf: ")?;
    match misuse {
        Misuse::Form(name) => push_no_form(&mut text, name)?,
        Misuse::NoLines(option) => push_refused(&mut text, option.name, "without", "lines")?,
        Misuse::Together(conflict) => push_refused(
            &mut text,
            conflict.one,
            "with",
            conflict.other,
        )?,
        Misuse::PlainNames => push_plain_names(&mut text)?,
        Misuse::TagAlone => push_refused(&mut text, "tag", "without", "formats")?,
        Misuse::BlankName(names) => push_blank_name(&mut text, names)?,
        Misuse::NoFormat => text.push_str(
            "the following required arguments were not provided:\n  <FORMAT>",
        )?,
    }
    write!(
        text,
        "\n\nUsage: {}\n\nFor more information, try '--help'.\n",
        help::usage(verb)
    )?;
    Ok(text)
}

/// What is reported of a misuse.
pub(crate) fn refusal(alloc: Global, verb: Verb, misuse: Misuse<'_>) -> WordsFault
    ensures { IsRefusal (misuse_kind misuse.entry ∷ []) result }
{
    match text_of(alloc, verb, misuse) {
        Ok(text) => WordsFault::Usage(text),
        Err(_) => WordsFault::NoMemory,
    }
}
