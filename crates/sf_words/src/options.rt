//! The options of the command, in one table: `clap`'s line, the help and the misuses of `--lines` come of it.
ghost use Rattle.std.specs.Prelude.{◌≡◌, false};
ghost use Rattle.clap.specs.Words.{rule_of};
ghost use Rattle.sf_words.specs.Options.{AreOptions, is_line_option, is_of, long_rule, option_rule, short_rule};
ghost use Rattle.sf_words.specs.Options.{value_rule};

use crate::order::Verb;
use clap::builder::ValueParser;
use clap::{Arg, ArgAction};
use std::alloc::Global;

/// What stands after an option.
#[derive(Clone, Copy)]
pub(crate) enum OptionValue {
    /// Nothing: the option is given or it isn't.
    Nothing,
    /// A number of this range. Where none is given, it is that of the text, if there is one.
    Number {
        least: i64,
        most: i64,
        default: Option<&'static str>,
    },
    /// A text.
    Text {
        name: &'static str,
    },
    /// A text, as often as the option is given, of which the last counts. Where none is given, it is the other.
    LastText {
        name: &'static str,
        default: &'static str,
    },
    /// A text, as often as the option is given.
    Texts {
        name: &'static str,
    },
}

/// The commands that have an option.
#[derive(Clone, Copy)]
pub(crate) enum OptionOf {
    /// Each of the five.
    All,
    /// Those that scan records: `scan` and `copy`.
    Records,
    /// `scan`.
    Scan,
    /// Those that scan records, with `--lines` alone.
    Lines,
    /// `scan`, with `--lines` alone.
    ScanLines,
    /// `print`.
    Print,
    /// `check`.
    Check,
}

/// An option.
#[derive(Clone, Copy)]
pub(crate) struct CommandOption {
    /// What its values are kept under, and its long name, where it has one.
    pub name: &'static str,
    /// Whether `--` and its name stand for it.
    pub has_long: bool,
    /// The letter that stands for it after one hyphen.
    pub short: Option<char>,
    /// What stands after it.
    pub value: OptionValue,
    /// The commands that have it.
    pub of: OptionOf,
    /// The line of the help.
    pub help: &'static str,
}

/// The names of the forms in which the values of a record are written, the plain one first.
pub(crate) const FORMS: &[&str] = &["plain", "tsv", "json", "csv"];

/// The table.
static OPTIONS: [CommandOption; 20] = [
    CommandOption {
        name: "lines",
        has_long: true,
        short: Some('l'),
        value: OptionValue::Nothing,
        of: OptionOf::Records,
        help: "Take each line as an input of its own",
    },
    CommandOption {
        name: "whole",
        has_long: true,
        short: Some('w'),
        value: OptionValue::Nothing,
        of: OptionOf::Lines,
        help: "With -l: fail a line that isn't read to its end",
    },
    CommandOption {
        name: "strict",
        has_long: true,
        short: Some('S'),
        value: OptionValue::Nothing,
        of: OptionOf::Scan,
        help: "No space or plus before a value; with -l, as with -w",
    },
    CommandOption {
        name: "formats",
        has_long: false,
        short: Some('e'),
        value: OptionValue::Texts { name: "FORMAT" },
        of: OptionOf::ScanLines,
        help: "With -l: a format; the first that is done counts",
    },
    CommandOption {
        name: "keep-going",
        has_long: true,
        short: Some('k'),
        value: OptionValue::Nothing,
        of: OptionOf::Lines,
        help: "With -l: go on after a line that fails",
    },
    CommandOption {
        name: "quiet",
        has_long: true,
        short: Some('q'),
        value: OptionValue::Nothing,
        of: OptionOf::Lines,
        help: "With -l: don't report lines that fail",
    },
    CommandOption {
        name: "matching",
        has_long: true,
        short: None,
        value: OptionValue::Nothing,
        of: OptionOf::ScanLines,
        help: "With -l: pass over lines that no format reads",
    },
    CommandOption {
        name: "ignore",
        has_long: true,
        short: None,
        value: OptionValue::Texts { name: "FORMAT" },
        of: OptionOf::ScanLines,
        help: "With -l: pass over lines that this format reads whole",
    },
    CommandOption {
        name: "skip",
        has_long: true,
        short: Some('s'),
        value: OptionValue::Number {
            least: 0,
            most: 9223372036854775807,
            default: None,
        },
        of: OptionOf::Lines,
        help: "With -l: pass over the first N lines",
    },
    CommandOption {
        name: "output",
        has_long: true,
        short: Some('o'),
        value: OptionValue::LastText {
            name: "FORM",
            default: "plain",
        },
        of: OptionOf::Scan,
        help: "plain, tsv, json, csv; the last counts",
    },
    CommandOption {
        name: "names",
        has_long: true,
        short: None,
        value: OptionValue::Text { name: "NAMES" },
        of: OptionOf::Scan,
        help: "Names a,b: keys of json, header of tsv and csv",
    },
    CommandOption {
        name: "print",
        has_long: true,
        short: None,
        value: OptionValue::Text { name: "PRINT" },
        of: OptionOf::Scan,
        help: "Write records by this print format, and no newline",
    },
    CommandOption {
        name: "tag",
        has_long: true,
        short: None,
        value: OptionValue::Nothing,
        of: OptionOf::Scan,
        help: "With -e: begin with the number of the one that counted",
    },
    CommandOption {
        name: "raw",
        has_long: true,
        short: None,
        value: OptionValue::Nothing,
        of: OptionOf::Print,
        help: "Take the values as they stand, without escapes",
    },
    CommandOption {
        name: "width",
        has_long: true,
        short: None,
        value: OptionValue::Number {
            least: 1,
            most: 65535,
            default: None,
        },
        of: OptionOf::Check,
        help: "Without SCAN: the most bytes of a text, 1 to 65535",
    },
    CommandOption {
        name: "profile",
        has_long: true,
        short: Some('p'),
        value: OptionValue::Number {
            least: 1,
            most: 3,
            default: Some("1"),
        },
        of: OptionOf::All,
        help: "1: as in C; 2: and base 2; 3: and floats",
    },
    CommandOption {
        name: "limit",
        has_long: true,
        short: None,
        value: OptionValue::Number {
            least: 0,
            most: 2147483647,
            default: Some("1048576"),
        },
        of: OptionOf::Records,
        help: "The most bytes of one record",
    },
    CommandOption {
        name: "line-buffered",
        has_long: true,
        short: None,
        value: OptionValue::Nothing,
        of: OptionOf::Records,
        help: "Write what each record gives at once, not in blocks",
    },
    CommandOption {
        name: "explain",
        has_long: true,
        short: None,
        value: OptionValue::Nothing,
        of: OptionOf::All,
        help: "Say more of a fault: the default on a terminal",
    },
    CommandOption {
        name: "no-explain",
        has_long: true,
        short: None,
        value: OptionValue::Nothing,
        of: OptionOf::All,
        help: "Say no more of a fault than its first line",
    },
];

/// The options, in the order of the help.
pub(crate) fn all_options() -> &'static [CommandOption]
    ensures { AreOptions result.now }
{
    &OPTIONS
}

impl OptionOf {
    /// Whether the command has such an option.
    pub(crate) fn has(self, verb: Verb) -> bool
        ensures { result ≡ is_of self verb }
    {
        match self {
            OptionOf::All => true,
            OptionOf::Records | OptionOf::Lines => matches!(verb, Verb::Scan | Verb::Copy),
            OptionOf::Scan | OptionOf::ScanLines => matches!(verb, Verb::Scan),
            OptionOf::Print => matches!(verb, Verb::Print),
            OptionOf::Check => matches!(verb, Verb::Check),
        }
    }

    /// Whether such an option stands with `--lines` alone.
    pub(crate) fn is_of_lines(self) -> bool
        ensures { result ≡ is_line_option self }
    {
        matches!(self, OptionOf::Lines | OptionOf::ScanLines)
    }
}

/// An argument that takes this.
fn with_value<'a>(arg: Arg<'a>, value: OptionValue) -> Arg<'a>
    ensures rule { rule_of result ≡ value_rule value (rule_of arg.entry) }
    ensures local { result.global ≡ arg.entry.global }
{
    match value {
        OptionValue::Nothing => arg.action(ArgAction::SetTrue),
        OptionValue::Number {
            least,
            most,
            default: None,
        } => arg
            .value_name("N")
            .value_parser(ValueParser::Signed(least, most)),
        OptionValue::Number {
            least,
            most,
            default: Some(text),
        } => arg
            .value_name("N")
            .value_parser(ValueParser::Signed(least, most))
            .default_value(text),
        OptionValue::Text { name } => arg.value_name(name),
        OptionValue::LastText { name, default } => arg
            .value_name(name)
            .default_value(default)
            .action(ArgAction::Append),
        OptionValue::Texts { name } => arg.value_name(name).action(ArgAction::Append),
    }
}

/// An argument for which this letter stands, if there is one.
fn with_short<'a>(arg: Arg<'a>, short: Option<char>) -> Arg<'a>
    ensures rule { rule_of result ≡ short_rule short (rule_of arg.entry) }
    ensures local { result.global ≡ arg.entry.global }
{
    match short {
        Some(letter) => arg.short(letter),
        None => arg,
    }
}

/// An argument for which this name stands, where it does.
fn with_long<'a>(arg: Arg<'a>, name: &'a str, has_long: bool) -> Arg<'a>
    ensures rule { rule_of result ≡ long_rule name.entry.now has_long (rule_of arg.entry) }
    ensures local { result.global ≡ arg.entry.global }
{
    if has_long { arg.long(name) } else { arg }
}

/// The argument of an option.
pub(crate) fn argument<'a>(alloc: Global, option: CommandOption) -> Arg<'a>
    ensures rule { rule_of result ≡ option_rule option }
    ensures local { result.global ≡ false }
{
    let bare = Arg::new(alloc, option.name).help(option.help);
    let named = with_long(with_short(bare, option.short), option.name, option.has_long);
    with_value(named, option.value)
}
