//! Fronts of texts, and what follows them.
ghost use Rattle.std.specs.Prelude.{◌≡◌, ◌+◌, length, drop, if◌then◌else◌};
ghost use Rattle.sf_format.specs.Lists.{front, behind, mark_at};
ghost use Rattle.sf_format.specs.Letters.{length_text};
ghost use Rattle.sf_format.specs.Classes.{test_of};
ghost use Rattle.sf_format.specs.Cut.{number_at, length_at};

use crate::letter::Length;
use sf_base::is_space;

/// A class of bytes.
#[derive(Clone, Copy)]
pub enum Class {
    White,
    Digit,
    /// What does not close a scanlist.
    Inner,
    Flag,
}

fn belongs(b: u8, class: Class) -> bool
    ensures { result ≡ test_of class b }
{
    match class {
        Class::White => is_space(b),
        Class::Digit => 48 <= b && b <= 57,
        Class::Inner => b != 93,
        Class::Flag => matches!(b, b'-' | b'+' | b' ' | b'#' | b'0'),
    }
}

/// The longest front of the class, and what follows it.
pub fn split_front(text: &[u8], class: Class) -> (&[u8], &[u8])
    ensures front { result.0.now ≡ front (test_of class) text.now }
    ensures behind { result.1.now ≡ behind (test_of class) text.now }
{
    for (i, b) in text.iter().enumerate() {
        if !belongs(*b, class) {
            return text.split_at(i);
        }
    }
    text.split_at(text.len())
}

/// The digits of the number in front, and what follows its `$`. It has no digits if no number stands there.
pub fn number(text: &[u8]) -> (&[u8], &[u8])
    ensures number { result.0.now ≡ (number_at text.now).0 }
    ensures rest { result.1.now ≡ (number_at text.now).1 }
{
    let (number, after) = split_front(text, Class::Digit);
    if number.is_empty() {
        return (&text[..0], text);
    }
    match after {
        [b'$', rest @ ..] => (number, rest),
        _ => (&text[..0], text),
    }
}

/// Whether the mark stands in front, and what follows it.
pub fn mark(mark: u8, text: &[u8]) -> (bool, &[u8])
    ensures found { result.0 ≡ (mark_at mark text.now).0 }
    ensures rest { result.1.now ≡ (mark_at mark text.now).1 }
    ensures length { length result.1.now + (if result.0 then 1 else 0) ≡ length text.now }
{
    match text {
        [b, rest @ ..] if *b == mark => (true, rest),
        _ => (false, text),
    }
}

/// The longest length that stands in front, and what follows it.
pub fn size(text: &[u8]) -> (Length, &[u8])
    ensures size { result.0 ≡ length_at text.now }
    ensures rest { result.1.now ≡ drop (length (length_text (length_at text.now))) text.now }
{
    match text {
        [b'h', b'h', rest @ ..] => (Length::HH, rest),
        [b'h', rest @ ..] => (Length::H, rest),
        [b'l', b'l', rest @ ..] => (Length::LL, rest),
        [b'l', rest @ ..] => (Length::L, rest),
        [b'j', rest @ ..] => (Length::J, rest),
        [b'z', rest @ ..] => (Length::Z, rest),
        [b't', rest @ ..] => (Length::T, rest),
        _ => (Length::NoLength, text),
    }
}
