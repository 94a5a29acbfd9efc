//! Where a record and a line don't begin and end together.
ghost use Rattle.std.specs.Prelude.{◌≡◌};
ghost use Rattle.sf_messages.specs.Newlines.{begins_white, is_left_white, is_lone_newline, is_newline_taken};
ghost use Rattle.sf_messages.specs.Newlines.{is_over_newline, is_white_first, shape_takes_newline};
ghost use Rattle.sf_messages.specs.Newlines.{takes_newline};

use crate::places::Place;
use sf_base::is_space;
use sf_format::{Directive, Shape};
use sf_run::{Ending, Outcome};

/// Whether bytes begin with white space.
pub(crate) fn begins_white(rest: &[u8]) -> bool
    ensures { result ≡ begins_white rest.now }
{
    match rest {
        [] => false,
        [b, ..] => is_space(*b),
    }
}

/// Whether a record took nothing, and failed at its first directive on white space.
pub(crate) fn is_white_first(outcome: Outcome, rest: &[u8]) -> bool
    ensures { result ≡ is_white_first outcome rest.now }
{
    outcome.at == 1 && outcome.used == 0 && begins_white(rest)
}

/// Whether that is a record after the first.
pub(crate) fn is_left_white(number: u32, outcome: Outcome, rest: &[u8]) -> bool
    ensures { result ≡ is_left_white number outcome rest.now }
{
    1 < number && is_white_first(outcome, rest)
}

/// Whether a record after the first used a newline alone, and the input ended there.
pub(crate) fn is_lone_newline(number: u32, outcome: Outcome, place: Option<Place>) -> bool
    ensures { result ≡ is_lone_newline number outcome place }
{
    let Some(Place { column, .. }) = place else {
        return false;
    };
    1 < number && outcome.used == 1 && column == 1 && matches!(outcome.met, Some(Ending::End))
}

/// Whether a conversion that takes no column takes a newline as it takes other bytes: a set that has it, or characters.
fn shape_takes_newline(shape: &Shape) -> bool
    ensures { result ≡ shape_takes_newline shape.now }
{
    match shape {
        Shape::Set(members) => members.contains(b'\n'),
        Shape::Chars => true,
        Shape::Int(_) | Shape::Text(_) | Shape::Float(_) | Shape::Count => false,
    }
}

/// Whether a format's first directive does, or takes a column, which has any bytes.
fn takes_newline(directives: &[Directive]) -> bool
    ensures { result ≡ takes_newline directives.now }
{
    match directives {
        [Directive::Conv(conversion), ..] => {
            conversion.column || shape_takes_newline(&conversion.shape)
        }
        _ => false,
    }
}

/// Whether a record after the first began with a newline, which its first directive took, and held no other.
pub(crate) fn is_newline_taken(
    directives: &[Directive],
    number: u32,
    outcome: Outcome,
    place: Option<Place>,
) -> bool
    ensures { result ≡ is_newline_taken directives.now number outcome place }
{
    let Some(Place { column, .. }) = place else {
        return false;
    };
    1 < number && column == u64::from(outcome.used) && takes_newline(directives)
}

/// Whether a record that failed after its first directive holds a newline after its first byte.
pub(crate) fn is_over_newline(outcome: Outcome, place: Option<Place>) -> bool
    ensures { result ≡ is_over_newline outcome place }
{
    let Some(Place { column, .. }) = place else {
        return false;
    };
    1 < outcome.at && column < u64::from(outcome.used)
}
