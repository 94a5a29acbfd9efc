//! A number below zero after an option: `clap` takes such a word for options, and has no tip that helps.
ghost use Rattle.std.specs.Prelude.{◌≡◌, true, IfSome, int_lt, pos};

use crate::misuse::push_option;
use crate::options::{CommandOption, OptionValue, all_options};
use std::alloc::{AllocError, Global};

/// Whether `clap` blames a word that begins with a hyphen and a digit, by its text.
pub(crate) fn blames_number(text: &[u8]) -> bool {
    matches!(
        text.strip_prefix(b"error: unexpected argument '-"),
        Some([b'0'..=b'9', ..])
    )
}

/// The number that a word stands for, where it is below zero.
fn below_zero(word: &str) -> Option<i64>
    ensures { IfSome result (λ number. int_lt number (pos 0) ≡ true) }
{
    match word.parse::<i64>() {
        Ok(number) if number < 0 => Some(number),
        _ => None,
    }
}

/// Whether a word stands for an option.
fn is_word_of(option: &CommandOption, word: &str) -> bool {
    match option.short {
        Some(letter) if matches!(word.as_bytes(), [b'-', byte] if char::from(*byte) == letter) =>
            true,
        _ => option.has_long && word.strip_prefix("--") == Some(option.name),
    }
}

/// The line of a word that isn't in the range of the option before it, as `clap` has it for one that is too large.
fn range_text(
    alloc: Global,
    option: &CommandOption,
    word: &str,
    number: i64,
) -> Result<Option<String>, AllocError> {
    let OptionValue::Number { least, most, .. } = option.value else {
        return Ok(None);
    };
    let dots = if most == i64::MAX { ".." } else { "..=" };
    let mut text = String::from_str(alloc, "sf: invalid value '")?;
    write!(text, "{word}' for '")?;
    push_option(&mut text, option)?;
    write!(
        text,
        "': {number} is not in {least}{dots}{most}\n\nFor more information, try '--help'.\n"
    )?;
    Ok(Some(text))
}

/// The same of two words of a command, where the first is an option that takes a number, and the second is one below
/// zero.
fn range_of_words(alloc: Global, asking: &str, word: &str) -> Result<Option<String>, AllocError> {
    let Some(number) = below_zero(word) else {
        return Ok(None);
    };
    for option in all_options() {
        if is_word_of(option, asking) {
            return range_text(alloc, option, word, number);
        }
    }
    Ok(None)
}

/// The same of the first such two of the words.
pub(crate) fn first_range(alloc: Global, words: &[String]) -> Result<Option<String>, AllocError> {
    for two in words.windows(2) {
        if let [asking, word] = two {
            if let Some(text) = range_of_words(alloc, asking.as_str(), word.as_str())? {
                return Ok(Some(text));
            }
        }
    }
    Ok(None)
}
