//! What helps where a word stands for a file and was meant for a format, and where a format of lines that are passed
//! over stands for less than it seems to.
ghost use Rattle.std.specs.Prelude.{◌≡◌, ◌⊎◌, ◌++◌, option_map, map, slice_get, string_bytes};
ghost use Rattle.std.specs.List.{list_any};
ghost use Rattle.sf_command.specs.entry.Hints.{has_failed, has_ink, has_percent, hint_by, hint_of, is_anchored};
ghost use Rattle.sf_command.specs.entry.Hints.{is_format_like, passed_by, passed_hint};

use crate::jobs::is_headed;
use sf_messages::CommandFault;
use sf_words::Order;
use std::alloc::Global;

/// Whether a text has a percent sign.
fn has_percent(text: &[u8]) -> bool
    ensures { result ≡ has_percent text.now }
{
    for b in text {
        if *b == b'%' {
            return true;
        }
    }
    false
}

/// The first of an order's formats.
fn first_format(order: &Order) -> Option<&str>
    ensures { option_map (λ given. given.now) result ≡ slice_get (map string_bytes order.entry.now.texts.items) 0 }
{
    match order.texts.get(0) {
        Some(text) => Some(text.as_str()),
        None => None,
    }
}

/// Whether a word has a percent sign.
fn is_format_like(word: Option<&str>) -> bool
    ensures { result ≡ is_format_like (option_map (λ given. given.now) word.entry) }
{
    match word {
        Some(word) => has_percent(word.as_bytes()),
        None => false,
    }
}

/// What helps, by whether more is said, whether the name has a percent sign, and whether the format has one.
fn hint_by(explain: bool, name: bool, format: bool) -> &'static str
    ensures { result.now ≡ hint_by explain name format }
{
    match (explain, name, format) {
        (true, true, true) => {
            "  a format with spaces stands between quotes, and after -e each word is a file\n"
        }
        (true, true, false) => "  the format stands before the files\n",
        _ => "",
    }
}

/// The notes of a file that can't be opened, with what helps, where memory for it is there.
pub(crate) fn with_hint(explain: bool, order: &Order, name: &str, notes: Vec<u8>) -> Vec<u8>
    ensures { (result.items ≡ notes.items ++ hint_of explain order.now name.now) ⊎ (result.items ≡ notes.items) }
{
    let mut all = notes;
    let format = is_format_like(first_format(order));
    let hint = hint_by(explain, has_percent(name.as_bytes()), format);
    let _ = all.extend_from_slice(hint.as_bytes());
    all
}

/// Whether a text begins with a `^`, as a regular expression may.
fn is_anchored(text: &[u8]) -> bool
    ensures { result ≡ is_anchored text.now }
{
    matches!(text, [b'^', ..])
}

/// Whether a text has a byte that is no blank.
fn has_ink(text: &[u8]) -> bool
    ensures { result ≡ has_ink text.now }
{
    for b in text {
        if !matches!(*b, b' ' | b'\t') {
            return true;
        }
    }
    false
}

/// Whether one of the words begins with a `^`.
fn is_one_anchored(words: &[String]) -> bool
    ensures { result ≡ list_any (λ word. is_anchored (string_bytes word)) words.now }
{
    for word in words {
        if is_anchored(word.as_bytes()) {
            return true;
        }
    }
    false
}

/// Whether one of the words has a percent sign.
fn has_one_percent(words: &[String]) -> bool
    ensures { result ≡ list_any (λ word. has_percent (string_bytes word)) words.now }
{
    for word in words {
        if has_percent(word.as_bytes()) {
            return true;
        }
    }
    false
}

/// Whether one of the words has a byte that is no blank.
fn has_one_ink(words: &[String]) -> bool
    ensures { result ≡ list_any (λ word. has_ink (string_bytes word)) words.now }
{
    for word in words {
        if has_ink(word.as_bytes()) {
            return true;
        }
    }
    false
}

/// Whether a line failed.
fn has_failed(answer: Result<u8, CommandFault>) -> bool
    ensures { result ≡ has_failed answer }
{
    match answer {
        Ok(status) => status != 0,
        Err(_) => false,
    }
}

/// What helps, by whether a format of lines that are passed over begins with a `^`; and where a line failed, whether
/// one of these has a conversion, and one more than blanks.
fn passed_by(anchored: bool, failed: bool, converts: bool, inked: bool) -> &'static str
    ensures { result.now ≡ passed_by anchored failed converts inked }
{
    match (anchored, failed, converts, inked) {
        (true, _, _, _) => {
            "  --ignore takes a scan format, in which ^ stands for itself: '#%*[^\\n]' passes over lines that begin \
             with #\n"
        }
        (false, true, false, true) => {
            "  --ignore passes over lines that its format reads to their end: '#' a lone #, '#%*[^\\n]' a # and \
             what follows\n"
        }
        _ => "",
    }
}

/// The same by the words of these formats.
fn hint_of_words(words: &[String], failed: bool) -> &'static str
    ensures { result.now ≡ passed_by (list_any (λ word. is_anchored (string_bytes word)) words.now) failed
        (list_any (λ word. has_percent (string_bytes word)) words.now)
        (list_any (λ word. has_ink (string_bytes word)) words.now) }
{
    passed_by(
        is_one_anchored(words),
        failed,
        has_one_percent(words),
        has_one_ink(words),
    )
}

/// What helps after the first of the inputs of an order of lines, where more is said.
fn passed_hint(explain: bool, order: &Order, answer: Result<u8, CommandFault>) -> &'static str
    ensures { result.now ≡ passed_hint explain order.now answer }
{
    if explain && is_headed(order) {
        hint_of_words(&order.ignored, has_failed(answer))
    } else {
        ""
    }
}

/// The notes of an order of lines that has ended with this answer, with what helps, where memory for it is there.
pub(crate) fn with_passed_hint(
    explain: bool,
    order: &Order,
    answer: Result<u8, CommandFault>,
    notes: Vec<u8>,
) -> Vec<u8>
    ensures { (result.items ≡ notes.items ++ passed_hint explain order.now answer) ⊎ (result.items ≡ notes.items) }
{
    let mut all = notes;
    let hint = passed_hint(explain, order, answer);
    let _ = all.extend_from_slice(hint.as_bytes());
    all
}
