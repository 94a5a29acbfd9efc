//! The command line of `sf`, as `clap` has it.
ghost use Rattle.std.specs.Prelude.{◌≡◌, IfOk, false, codes, fold};
ghost use Rattle.clap.specs.Words.{App, new_app, new_rule, rule_of};
ghost use Rattle.sf_words.specs.Line.{IsLine, check_app, copy_app, options_of, print_app, scan_app};
ghost use Rattle.sf_words.specs.Line.{sf_app, show_app, word_rule, words_rule};
ghost use Rattle.sf_words.specs.Options.{with_option};

use crate::help;
use crate::options::{CommandOption, all_options, argument};
use crate::order::Verb;
use clap::{Arg, Command};
use std::alloc::{AllocError, Global};

/// The version that `sf --version` writes.
const VERSION: &str = "0.3.0";

/// A word that may be left out.
fn optional<'a>(alloc: Global, name: &'a str, help: &'a str) -> Arg<'a>
    ensures rule { rule_of result ≡ new_rule name.entry.now }
    ensures local { result.global ≡ false }
{
    Arg::new(alloc, name).help(help)
}

/// A word that has to be given.
fn word<'a>(alloc: Global, name: &'a str, help: &'a str) -> Arg<'a>
    ensures rule { rule_of result ≡ word_rule name.entry.now }
    ensures local { result.global ≡ false }
{
    Arg::new(alloc, name).required(true).help(help)
}

/// Any number of words.
fn words<'a>(alloc: Global, name: &'a str, help: &'a str) -> Arg<'a>
    ensures rule { rule_of result ≡ words_rule name.entry.now }
    ensures local { result.global ≡ false }
{
    Arg::new(alloc, name).num_args(0..).help(help)
}

/// The files that are read.
fn files<'a>(alloc: Global) -> Arg<'a>
    ensures rule { rule_of result ≡ words_rule (codes "FILE") }
    ensures local { result.global ≡ false }
{
    words(
        alloc,
        "FILE",
        "The files to read in turn; - is standard input, and so is none",
    )
}

/// A command without arguments, whose help begins and ends with these texts.
fn command<'a>(alloc: Global, name: &'a str, about: &'a str, end: &'a str) -> Command<'a>
    ensures { IsLine (new_app name.entry.now) result }
{
    Command::new(alloc, name).about(about).after_help(end)
}

/// A command with the option, where the verb has it.
fn with_option<'a>(
    alloc: Global,
    verb: Verb,
    command: Command<'a>,
    option: CommandOption,
) -> Result<Command<'a>, AllocError>
    ensures { (app : App) → IsLine app command.entry → IfOk result (IsLine (with_option verb app option)) }
{
    if option.of.has(verb) {
        command.arg(argument(alloc, option))
    } else {
        Ok(command)
    }
}

/// A command with those of the options that the verb has.
fn with_each<'a>(
    alloc: Global,
    verb: Verb,
    bare: Command<'a>,
    options: &[CommandOption],
) -> Result<Command<'a>, AllocError>
    ensures { (app : App) → IsLine app bare.entry → IfOk result (IsLine (fold (with_option verb) app options.now)) }
{
    let mut command = bare;
    for option in options {
        command = with_option(alloc, verb, command, *option)?;
    }
    Ok(command)
}

/// The command of a verb, with its options, whose help begins and ends with these texts.
fn with_options<'a>(
    alloc: Global,
    verb: Verb,
    name: &'a str,
    about: &'a str,
    end: &'a str,
) -> Result<Command<'a>, AllocError>
    ensures { IfOk result (IsLine (options_of verb (new_app name.entry.now))) }
{
    with_each(alloc, verb, command(alloc, name, about, end), all_options())
}

fn show<'a>(alloc: Global) -> Result<Command<'a>, AllocError>
    ensures { IfOk result (IsLine show_app) }
{
    with_options(
        alloc,
        Verb::Show,
        "show",
        "Show the directives of a scan format, each on a line",
        help::SHOW,
    )?
    .arg(word(alloc, "FORMAT", "The scan format"))
}

fn scan<'a>(alloc: Global) -> Result<Command<'a>, AllocError>
    ensures { IfOk result (IsLine scan_app) }
{
    with_options(
        alloc,
        Verb::Scan,
        "scan",
        "Scan standard input or files by a format, a line for each record",
        help::SCAN,
    )?
    .override_usage(help::SCAN_USAGE)
    .arg(optional(
        alloc,
        "FORMAT",
        "The scan format of one record, or of one line",
    ))?
    .arg(files(alloc))
}

fn print<'a>(alloc: Global) -> Result<Command<'a>, AllocError>
    ensures { IfOk result (IsLine print_app) }
{
    with_options(
        alloc,
        Verb::Print,
        "print",
        "Print values by a format, without a newline of its own",
        help::PRINT,
    )?
    .arg(word(alloc, "FORMAT", "The print format"))?
    .arg(words(
        alloc,
        "VALUES",
        "The values; one that begins with - and no digit stands after --",
    ))
}

fn check<'a>(alloc: Global) -> Result<Command<'a>, AllocError>
    ensures { IfOk result (IsLine check_app) }
{
    with_options(
        alloc,
        Verb::Check,
        "check",
        "Say whether SCAN reads back what PRINT writes, or write a SCAN",
        help::CHECK,
    )?
    .arg(word(alloc, "PRINT", "The print format"))?
    .arg(optional(alloc, "SCAN", "The scan format; without it, one is written"))
}

fn copy<'a>(alloc: Global) -> Result<Command<'a>, AllocError>
    ensures { IfOk result (IsLine copy_app) }
{
    with_options(
        alloc,
        Verb::Copy,
        "copy",
        "Scan standard input or files by one format, and print by another",
        help::COPY,
    )?
    .arg(word(alloc, "PRINT", "The print format of one record"))?
    .arg(word(
        alloc,
        "SCAN",
        "The scan format of one record, or of one line",
    ))?
    .arg(files(alloc))
}

/// The command with its subcommands.
pub(crate) fn line<'a>(alloc: Global) -> Result<Command<'a>, AllocError>
    ensures { IfOk result (IsLine sf_app) }
{
    command(
        alloc,
        "sf",
        "Scan and print records by formats, as fscanf and fprintf of C do",
        help::SF,
    )
    .version(VERSION)
    .arg_required_else_help(true)
    .subcommand_required(true)
    .subcommand(show(alloc)?)?
    .subcommand(scan(alloc)?)?
    .subcommand(print(alloc)?)?
    .subcommand(check(alloc)?)?
    .subcommand(copy(alloc)?)
}
