//! Mistakes that an input and a format show.
ghost use Rattle.std.specs.Prelude.{◌≡◌, option_map};
ghost use Rattle.sf_messages.specs.Mistakes.{are_class, begins_marked, begins_wide, byte_after_text, byte_at};
ghost use Rattle.sf_messages.specs.Mistakes.{byte_of_text, goes_on, is_carriage, is_class, is_class_shape, is_cut};
ghost use Rattle.sf_messages.specs.Mistakes.{goes_on_before, is_cut_by, is_open_text};

use crate::sentences::is_digit;
use sf_format::{Conversion, Directive, FormatFault, FormatWhy, Shape};

/// Whether bytes begin with a byte order mark.
pub(crate) fn begins_marked(rest: &[u8]) -> bool
    ensures { result ≡ begins_marked rest.now }
{
    matches!(rest, [0xef, 0xbb, 0xbf, ..])
}

/// Whether bytes begin as those of UTF-16 do.
pub(crate) fn begins_wide(rest: &[u8]) -> bool
    ensures { result ≡ begins_wide rest.now }
{
    matches!(rest, [0xff, 0xfe, ..] | [0xfe, 0xff, ..])
}

/// Whether there is a carriage return, and no more.
pub(crate) fn is_carriage(rest: &[u8]) -> bool
    ensures { result ≡ is_carriage rest.now }
{
    matches!(rest, [b'\r'])
}

/// Whether a set has the bytes with which a class of POSIX begins.
fn is_class_shape(shape: &Shape) -> bool
    ensures { result ≡ is_class_shape shape.now }
{
    match shape {
        Shape::Set(members) => members.contains(b'[') && members.contains(b':'),
        Shape::Int(_) | Shape::Text(_) | Shape::Chars | Shape::Float(_) | Shape::Count => false,
    }
}

/// Whether two directives are what a class of POSIX makes in a scan format: such a set, and a `]`.
fn are_class(first: Option<&Directive>, next: Option<&Directive>) -> bool
    ensures { result ≡ are_class (option_map (λ given. given.now) first.entry)
        (option_map (λ given. given.now) next.entry) }
{
    match (first, next) {
        (Some(Directive::Conv(conversion)), Some(Directive::Byte(b))) => {
            *b == b']' && is_class_shape(&conversion.shape)
        }
        _ => false,
    }
}

/// Whether a class of POSIX stands at the directive with this number.
pub(crate) fn is_class(directives: &[Directive], number: u16) -> bool
    ensures { result ≡ is_class directives.now number }
{
    let next = usize::from(number);
    are_class(directives.get(next.saturating_sub(1)), directives.get(next))
}

/// Whether a conversion takes a text up to white space, however long. A column has a width.
fn is_open_text(conversion: &Conversion) -> bool
    ensures { result ≡ is_open_text conversion.now }
{
    matches!(conversion.shape, Shape::Text(_)) && conversion.width.is_none()
}

/// The byte that has to stand after such a text, where the two directives are these.
fn byte_of_text(first: Option<&Directive>, next: Option<&Directive>) -> Option<u8>
    ensures { result ≡ byte_of_text (option_map (λ given. given.now) first.entry)
        (option_map (λ given. given.now) next.entry) }
{
    match (first, next) {
        (Some(Directive::Conv(conversion)), Some(Directive::Byte(b))) if is_open_text(conversion) =>
            { Some(*b) }
        _ => None,
    }
}

/// The same at the directive with this number.
pub(crate) fn byte_after_text(directives: &[Directive], number: u16) -> Option<u8>
    ensures { result ≡ byte_after_text directives.now number }
{
    let next = usize::from(number);
    byte_of_text(
        directives.get(next.saturating_sub(2)),
        directives.get(next.saturating_sub(1)),
    )
}

/// Whether a byte goes on with a conversion after its width.
fn goes_on(b: u8) -> bool
    ensures { result ≡ goes_on b }
{
    matches!(b, b'A'..=b'[' | b'a'..=b'z' | b'!' | b'\'' | b'*' | b'.' | b'?' | b'_')
}

/// Whether a byte does, by the one after it: a `=` before a letter seems to be a mark that stands in the wrong place.
fn goes_on_before(b: u8, next: u8) -> bool
    ensures { result ≡ goes_on_before b next }
{
    goes_on(b) || (b == b'=' && goes_on(next))
}

/// Whether a conversion has digits and no letter, by the byte before the fault, that at it and the next one.
fn is_cut_by(why: FormatWhy, before: u8, b: u8, next: u8) -> bool
    ensures { result ≡ is_cut_by why before b next }
{
    match why {
        FormatWhy::Truncated => is_digit(before),
        FormatWhy::UnknownLetter => is_digit(before) && !goes_on_before(b, next),
        _ => false,
    }
}

/// The byte at this place of a text.
pub(crate) fn byte_at(text: &[u8], at: usize) -> u8
    ensures { result ≡ byte_at text.now at }
{
    text.get(at).copied().unwrap_or(0)
}

/// Whether a format's fault is that a conversion has digits and no letter, as where a shell took `$d` out of it.
pub(crate) fn is_cut(text: &[u8], fault: FormatFault) -> bool
    ensures { result ≡ is_cut text.now fault }
{
    let at = usize::from(fault.at);
    is_cut_by(
        fault.why,
        byte_at(text, at.saturating_sub(1)),
        byte_at(text, at),
        byte_at(text, at + 1),
    )
}
