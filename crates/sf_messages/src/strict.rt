//! What is said of conversions with `!`: what they want, and what stands there that they don't take.
ghost use Rattle.std.specs.Prelude.{◌≡◌, option_map};
ghost use Rattle.sf_messages.specs.Strict.{barred_sentence, digits_text, is_barred, is_barred_by, is_barred_prefix};
ghost use Rattle.sf_messages.specs.Strict.{is_barred_sign, is_barred_there, is_mismatch, is_prefix_after};
ghost use Rattle.sf_messages.specs.Strict.{is_prefix_left, is_prefix_letter, is_prefix_there, lead_of};
ghost use Rattle.sf_messages.specs.Strict.{strict_prefix_sentence, strict_text};

use crate::columns::is_column;
use crate::newlines::begins_white;
use sf_base::is_space;
use sf_format::{Base, Directive, Lead, Shape};
use sf_run::{Outcome, Status};

/// What the digits of an integer are to be.
fn digits_text(lead: Lead) -> &'static str
    ensures { result.now ≡ digits_text lead }
{
    match lead {
        Lead::Any => "",
        Lead::Minus => "digits, and nothing but a minus before them",
        Lead::Nothing => "digits alone, and no sign, prefix or white space before them",
    }
}

/// What a conversion with `!` wants.
pub(crate) fn strict_text(shape: &Shape) -> &'static str
    ensures { result.now ≡ strict_text shape.now }
{
    match shape {
        Shape::Int(numeral) => digits_text(numeral.lead),
        Shape::Text(_) => "a text, and no white space before it",
        Shape::Float(_) => "a decimal number, and nothing but a minus before it",
        Shape::Set(_) | Shape::Chars | Shape::Count => "",
    }
}

/// What may stand before the digits of a number, or before the bytes of a text.
fn lead_of(shape: &Shape) -> Lead
    ensures { result ≡ lead_of shape.now }
{
    match shape {
        Shape::Int(numeral) => numeral.lead,
        Shape::Text(lead) | Shape::Float(lead) => *lead,
        Shape::Set(_) | Shape::Chars | Shape::Count => Lead::Any,
    }
}

/// Whether a byte is a sign that may not stand there.
fn is_barred_sign(lead: Lead, b: u8) -> bool
    ensures { result ≡ is_barred_sign lead b }
{
    (b == b'+' && !lead.has_plus()) || (b == b'-' && !lead.has_minus())
}

/// Whether a byte is such a sign, or white space where none is skipped.
fn is_barred(lead: Lead, b: u8) -> bool
    ensures { result ≡ is_barred lead b }
{
    (lead.is_strict() && is_space(b)) || is_barred_sign(lead, b)
}

/// Whether the bytes begin with one that may not stand where the directive begins. They are none of a column.
fn is_barred_by(directive: Option<&Directive>, rest: &[u8]) -> bool
    ensures { result ≡ is_barred_by (option_map (λ given. given.now) directive.entry) rest.now }
{
    match (directive, rest) {
        (Some(Directive::Conv(conversion)), [b, ..]) => {
            !conversion.column && is_barred(lead_of(&conversion.shape), *b)
        }
        _ => false,
    }
}

/// Whether a byte is the letter of a prefix.
fn is_prefix_letter(base: Base, b: u8) -> bool
    ensures { result ≡ is_prefix_letter base b }
{
    match base {
        Base::Hex => b == b'x' || b == b'X',
        Base::Bin => b == b'b' || b == b'B',
        Base::Dec | Base::Oct | Base::Auto | Base::AutoBin => false,
    }
}

/// Whether it is that of a prefix which these numbers have, but not with `!`.
fn is_barred_prefix(shape: &Shape, b: u8) -> bool
    ensures { result ≡ is_barred_prefix shape.now b }
{
    match shape {
        Shape::Int(numeral) => !numeral.lead.has_prefix() && is_prefix_letter(numeral.base, b),
        Shape::Text(_) | Shape::Set(_) | Shape::Chars | Shape::Float(_) | Shape::Count => false,
    }
}

/// Whether the bytes after those of such a number begin so. What follows a column is no part of its number.
fn is_prefix_after(directive: Option<&Directive>, rest: &[u8]) -> bool
    ensures { result ≡ is_prefix_after (option_map (λ given. given.now) directive.entry) rest.now }
{
    match (directive, rest) {
        (Some(Directive::Conv(conversion)), [b, ..]) => {
            !conversion.column && is_barred_prefix(&conversion.shape, *b)
        }
        _ => false,
    }
}

/// Whether the bytes of the input were no match.
fn is_mismatch(status: Status) -> bool
    ensures { result ≡ is_mismatch status }
{
    matches!(status, Status::MatchingFailure)
}

/// Whether a run failed at a byte that may not stand where its directive begins.
pub(crate) fn is_barred_there(directives: &[Directive], outcome: Outcome, rest: &[u8]) -> bool
    ensures { result ≡ is_barred_there directives.now outcome rest.now }
{
    let place = usize::from(outcome.at).saturating_sub(1);
    is_mismatch(outcome.status) && is_barred_by(directives.get(place), rest)
}

/// Whether a run failed after a number, at the letter of a prefix. A column that failed took it.
pub(crate) fn is_prefix_there(directives: &[Directive], outcome: Outcome, rest: &[u8]) -> bool
    ensures { result ≡ is_prefix_there directives.now outcome rest.now }
{
    let at = usize::from(outcome.at);
    is_mismatch(outcome.status)
        && !is_column(directives.get(at.saturating_sub(1)))
        && is_prefix_after(directives.get(at.saturating_sub(2)), rest)
}

/// Whether such a letter was left after the last directive.
pub(crate) fn is_prefix_left(directives: &[Directive], rest: &[u8]) -> bool
    ensures { result ≡ is_prefix_left directives.now rest.now }
{
    is_prefix_after(directives.get(directives.len().saturating_sub(1)), rest)
}

/// What is said of a byte that may not stand there, with which the bytes begin.
pub(crate) fn barred_sentence(rest: &[u8]) -> &'static str
    ensures { result.now ≡ barred_sentence rest.now }
{
    if begins_white(rest) {
        "white space stands there, which a strict conversion doesn't skip: a blank before it in the format does"
    } else {
        "a sign stands there that this strict conversion doesn't take"
    }
}

/// What is said of a prefix.
pub(crate) fn strict_prefix_sentence() -> &'static str
    ensures { result.now ≡ strict_prefix_sentence }
{
    "a strict conversion takes no prefix, of 0x1f the 0 alone: the format has it before the conversion, as in 0x%x"
}
