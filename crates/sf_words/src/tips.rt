//! What is said of words that `clap` refuses: its text as the command says it, with tips that help.
ghost use Rattle.std.specs.Prelude.{◌≡◌, ◌≢◌, false};
ghost use Rattle.clap.specs.declared.error.kind.ErrorKind.{ErrorKind};
ghost use Rattle.clap.specs.declared.error.kind.ErrorKind.TheVariants.{OutOfMemory};
ghost use Rattle.sf_words.specs.Orders.{IsRefusalOf, is_request};

use crate::numbers::{blames_number, first_range};
use crate::options::{CommandOption, OptionValue, all_options};
use crate::order::WordsFault;
use std::alloc::{AllocError, Global};

/// An option of another tool, and what stands for it here.
struct Known {
    option: &'static str,
    tip: &'static str,
}

/// What separates values.
const SEPARATOR: &str = "the format says what separates the values: '%[^,],%d'";

/// The table.
static KNOWN: [Known; 6] = [
    Known {
        option: "-d",
        tip: SEPARATOR,
    },
    Known {
        option: "-F",
        tip: SEPARATOR,
    },
    Known {
        option: "--json",
        tip: "'-o json' writes JSON",
    },
    Known {
        option: "--csv",
        tip: "'-o csv' writes CSV",
    },
    Known {
        option: "--tsv",
        tip: "'-o tsv' writes TSV",
    },
    Known {
        option: "-v",
        tip: "'sf --version' writes the version",
    },
];

/// What helps.
enum Tip<'a> {
    /// This.
    Text(&'static str),
    /// A scan by this format.
    Scan(&'a str),
    /// What `clap` says, if anything.
    None,
}

/// What stands between these two parts of a line.
fn between<'a>(line: &'a str, front: &str, end: &str) -> Option<&'a str> {
    line.strip_prefix(front)?.strip_suffix(end)
}

/// What stands for an option of another tool.
fn known_tip(option: &str) -> Option<&'static str> {
    for known in &KNOWN {
        if known.option == option {
            return Some(known.tip);
        }
    }
    None
}

/// Whether one of the words begins with a hyphen and has a percent sign.
fn has_format_like_option(words: &[String]) -> bool {
    for word in words {
        if word.as_str().starts_with("-") && word.as_str().contains("%") {
            return true;
        }
    }
    false
}

/// What helps where an option is unknown.
fn option_tip<'a>(words: &[String], option: &str) -> Tip<'a> {
    match known_tip(option) {
        Some(tip) => Tip::Text(tip),
        None if has_format_like_option(words) => {
            Tip::Text("a format that begins with - stands after --: sf show -- '-%d'")
        }
        None => Tip::None,
    }
}

/// What helps where a command is unknown.
fn command_tip<'a>(name: &'a str) -> Tip<'a> {
    if name == "version" {
        Tip::Text("'sf --version' writes the version")
    } else if name.contains("%") {
        Tip::Scan(name)
    } else {
        Tip::None
    }
}

/// What helps, by the words and the first line of `clap`'s text.
fn tip_of<'a>(words: &[String], line: &'a str) -> Tip<'a> {
    if let Some(option) = between(line, "unexpected argument '", "' found") {
        return option_tip(words, option);
    }
    match between(line, "unrecognized subcommand '", "'") {
        Some(name) => command_tip(name),
        None => Tip::None,
    }
}

/// Whether the command is one whose words may be values.
fn is_print(words: &[String]) -> bool {
    match words {
        [verb, ..] => verb.as_str() == "print",
        [] => false,
    }
}

/// What stands after the first line of `clap`'s text, without the tip to hand on a word as a value.
fn without_tip(rest: &str) -> &str {
    match rest.split_once("\n\n") {
        Some((tip, after)) if tip.starts_with("  tip: to pass '") => after,
        _ => rest,
    }
}

/// The number option that `clap` writes so.
fn number_option(written: &str) -> Option<&'static CommandOption> {
    let name = between(written, "--", " <N>")?;
    for option in all_options() {
        if option.name == name {
            return Some(option);
        }
    }
    None
}

/// Appends what is said of a word that is no number; false where the line isn't of one.
fn push_no_number(text: &mut String, line: &str) -> Result<bool, AllocError> {
    let Some(front) = line.strip_suffix("': invalid digit found in string") else {
        return Ok(false);
    };
    let Some((_, written)) = front.rsplit_once("' for '") else {
        return Ok(false);
    };
    let Some(
        CommandOption {
            value: OptionValue::Number { least, most, .. },
            ..
        },
    ) = number_option(written)
    else {
        return Ok(false);
    };
    write!(text, "{front}': it is no number from {least} to {most}")?;
    Ok(true)
}

/// Appends the first line.
fn push_line(text: &mut String, line: &str) -> Result<(), AllocError> {
    if push_no_number(text, line)? {
        Ok(())
    } else {
        text.push_str(line)
    }
}

/// Appends what stands after the first line, with what helps.
fn push_rest(
    text: &mut String,
    words: &[String],
    line: &str,
    rest: &str,
) -> Result<(), AllocError> {
    text.push_str("\n\n")?;
    match tip_of(words, line) {
        Tip::Text(tip) => {
            write!(text, "  tip: {tip}\n\n")?;
            text.push_str(without_tip(rest))
        }
        Tip::Scan(format) => {
            write!(
                text,
                "  tip: a command stands first: sf scan '{format}'\n\n"
            )?;
            text.push_str(without_tip(rest))
        }
        Tip::None if is_print(words) => text.push_str(rest),
        Tip::None => text.push_str(without_tip(rest)),
    }
}

/// The text of a fault, as the command says it, of `clap`'s text.
fn said_of(alloc: Global, words: &[String], fault: &str) -> Result<String, AllocError> {
    let Some(body) = fault.strip_prefix("error: ") else {
        return String::from_str(alloc, fault);
    };
    let mut text = String::from_str(alloc, "sf: ")?;
    match body.split_once("\n\n") {
        Some((line, rest)) => {
            push_line(&mut text, line)?;
            push_rest(&mut text, words, line, rest)?;
        }
        None => text.push_str(body)?,
    }
    Ok(text)
}

/// The same; where `clap` blames a number below zero, the range of its option.
fn usage_text(alloc: Global, words: &[String], fault: &str) -> Result<String, AllocError> {
    if blames_number(fault.as_bytes()) {
        if let Some(range) = first_range(alloc, words)? {
            return Ok(range);
        }
    }
    said_of(alloc, words, fault)
}

/// What is reported of words that `clap` refuses with this text.
pub(crate) fn usage_fault(alloc: Global, words: &[String], fault: &str) -> WordsFault
    ensures { (found : ErrorKind) → is_request found ≡ false → found ≢ OutOfMemory → IsRefusalOf found result }
{
    match usage_text(alloc, words, fault) {
        Ok(text) => WordsFault::Usage(text),
        Err(_) => WordsFault::NoMemory,
    }
}
