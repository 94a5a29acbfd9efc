//! Words that begin with a hyphen and are no options, which `clap` takes for some. A format after `-e` gets there as
//! `-e=FORMAT` in one word, and so does what stands after `--ignore` and `--print`. A value of a print that is a number
//! below zero gets there after `--`.
ghost use Rattle.std.specs.Prelude.{◌≡◌, ◌∷◌, ◌++◌, [], List, Some, None, IfOk, OnOk, codes, map, string_bytes};
ghost use Rattle.clap.specs.Words.{Text};
ghost use Rattle.sf_words.specs.Hyphens.{asks_format, asks_number, begins_with_hyphen, clap_words, is_format_flag};
ghost use Rattle.sf_words.specs.Hyphens.{is_negative, joined, left_of, letters_ask, valued, words_after};

use std::alloc::{AllocError, Global};

/// What the next word is.
#[derive(Clone, Copy)]
pub(crate) enum Next<'a> {
    /// The name of a command.
    Command,
    /// A word of a scan.
    Word,
    /// The format that this word asks for.
    Format(&'a str),
    /// A word of a print; whether the word before it asks for a number.
    Value(bool),
    /// A word that is handed on as it is.
    Other,
}

/// Whether letters are those of options without a value, and then `e`.
fn letters_ask(letters: &[u8]) -> bool
    ensures { result ≡ letters_ask letters.now }
{
    let mut rest = letters;
    while let [b'S' | b'k' | b'l' | b'q' | b'w', more @ ..] = rest {
        rest = more;
    }
    matches!(rest, [b'e'])
}

/// Whether the word is `-e`, or has the letters of options before it.
fn is_format_flag(word: &str) -> bool
    ensures { result ≡ is_format_flag word.now }
{
    match word.as_bytes() {
        [b'-', letters @ ..] => letters_ask(letters),
        _ => false,
    }
}

/// Whether the word is one after which a format stands.
fn asks_format(word: &str) -> bool
    ensures { result ≡ asks_format word.now }
{
    is_format_flag(word) || word == "--ignore" || word == "--print"
}

/// Whether the word begins with a minus and a digit.
fn is_negative(word: &str) -> bool
    ensures { result ≡ is_negative word.now }
{
    matches!(word.as_bytes(), [b'-', b'0'..=b'9', ..])
}

/// Whether the word is an option of a print after which a number stands.
fn asks_number(word: &str) -> bool
    ensures { result ≡ asks_number word.now }
{
    word == "-p" || word == "--profile"
}

fn begins_with_hyphen(word: &str) -> bool
    ensures { result ≡ begins_with_hyphen word.now }
{
    matches!(word.as_bytes(), [b'-', ..])
}

/// Appends a copy of a word.
fn push_word(alloc: Global, word: &str, out: &mut Vec<String>) -> Result<(), AllocError>
    ensures { OnOk result (map string_bytes out.new.items ≡ map string_bytes out.old.items ++ word.now ∷ []) }
{
    out.push(String::from_str(alloc, word)?)?;
    Ok(())
}

/// Appends `-e=FORMAT`.
fn push_joined(
    alloc: Global,
    asking: &str,
    format: &str,
    out: &mut Vec<String>,
) -> Result<(), AllocError>
    ensures { OnOk result (map string_bytes out.new.items
        ≡ map string_bytes out.old.items ++ (asking.now ++ codes "=" ++ format.now) ∷ []) }
{
    let mut word = String::from_str(alloc, asking)?;
    word.push_str("=")?;
    word.push_str(format)?;
    out.push(word)?;
    Ok(())
}

/// Appends the format that a word asks for, with that word.
fn push_format(
    alloc: Global,
    asking: &str,
    format: &str,
    out: &mut Vec<String>,
) -> Result<(), AllocError>
    ensures { OnOk result ((rest : List Text) → map string_bytes out.new.items ++ joined None rest
        ≡ map string_bytes out.old.items ++ joined (Some asking.now) (format.now ∷ rest)) }
{
    if begins_with_hyphen(format) {
        push_joined(alloc, asking, format, out)
    } else {
        push_word(alloc, asking, out)?;
        push_word(alloc, format, out)
    }
}

/// What the word after the name of a command is.
fn after_name<'a>(name: &str) -> Next<'a>
    ensures { (rest : List Text) → left_of result rest ≡ words_after name.now rest }
{
    match name {
        "scan" => Next::Word,
        "print" => Next::Value(false),
        _ => Next::Other,
    }
}

/// Reads one word of a print, and answers what the next one is.
fn value_turn<'a>(
    alloc: Global,
    asked: bool,
    word: &str,
    out: &mut Vec<String>,
) -> Result<Next<'a>, AllocError>
    ensures { IfOk result (λ then. (rest : List Text) → map string_bytes out.new.items ++ left_of then rest
        ≡ map string_bytes out.old.items ++ valued asked (word.now ∷ rest)) }
{
    if asked {
        push_word(alloc, word, out)?;
        return Ok(Next::Value(false));
    }
    if is_negative(word) {
        push_word(alloc, "--", out)?;
        push_word(alloc, word, out)?;
        return Ok(Next::Other);
    }
    push_word(alloc, word, out)?;
    if word == "--" {
        return Ok(Next::Other);
    }
    Ok(Next::Value(asks_number(word)))
}

/// Reads one word, and answers what the next one is.
fn turn<'a>(
    alloc: Global,
    next: Next<'a>,
    word: &'a str,
    out: &mut Vec<String>,
) -> Result<Next<'a>, AllocError>
    ensures { IfOk result (λ then. (rest : List Text) → map string_bytes out.new.items ++ left_of then rest
        ≡ map string_bytes out.old.items ++ left_of next.entry (word.now ∷ rest)) }
{
    match next {
        Next::Format(asking) => {
            push_format(alloc, asking, word, out)?;
            Ok(Next::Word)
        }
        Next::Word if asks_format(word) => Ok(Next::Format(word)),
        Next::Word => {
            push_word(alloc, word, out)?;
            Ok(if word == "--" {
                Next::Other
            } else {
                Next::Word
            })
        }
        Next::Command => {
            push_word(alloc, word, out)?;
            Ok(after_name(word))
        }
        Next::Value(asked) => value_turn(alloc, asked, word, out),
        Next::Other => {
            push_word(alloc, word, out)?;
            Ok(Next::Other)
        }
    }
}

/// The words as `clap` gets them.
pub(crate) fn clap_words(alloc: Global, words: &[String]) -> Result<Vec<String>, AllocError>
    ensures { IfOk result (λ all. map string_bytes all.items ≡ clap_words (map string_bytes words.now)) }
{
    let mut all = Vec::new(alloc);
    let mut next = Next::Command;
    for word in words {
        next = turn(alloc, next, word.as_str(), &mut all)?;
    }
    if let Next::Format(asking) = next {
        push_word(alloc, asking, &mut all)?;
    }
    Ok(all)
}
