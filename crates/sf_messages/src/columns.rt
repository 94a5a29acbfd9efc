//! What is said of columns: the bytes of one that failed, and the white space of the format before it.
ghost use Rattle.std.specs.Prelude.{◌≡◌, option_map};
ghost use Rattle.sf_messages.specs.Columns.{column_width, failed_column, is_after_space, is_column, is_column_read};
ghost use Rattle.sf_messages.specs.Columns.{is_failure, is_space, last_bytes, space_sentence, whole_text};

use sf_format::Directive;
use sf_run::{Outcome, Status};

/// Whether a directive takes a column.
pub(crate) fn is_column(directive: Option<&Directive>) -> bool
    ensures { result ≡ is_column (option_map (λ given. given.now) directive.entry) }
{
    match directive {
        Some(Directive::Conv(conversion)) => conversion.column,
        _ => false,
    }
}

/// How many bytes the column of a directive has, or 0 where it takes none.
fn column_width(directive: Option<&Directive>) -> usize
    ensures { result ≡ column_width (option_map (λ given. given.now) directive.entry) }
{
    match directive {
        Some(Directive::Conv(conversion)) if conversion.column => {
            usize::from(conversion.width.unwrap_or(1))
        }
        _ => 0,
    }
}

/// Whether a run failed at bytes that were read, and met no end: then a column at which it failed was read whole.
fn is_column_read(outcome: Outcome) -> bool
    ensures { result ≡ is_column_read outcome }
{
    matches!(outcome.status, Status::MatchingFailure | Status::OutOfRange) && outcome.met.is_none()
}

/// The last of some bytes, where there are so many, or none.
fn last_bytes(bytes: &[u8], count: usize) -> &[u8]
    ensures { result.now ≡ last_bytes count bytes.entry.now }
{
    if count <= bytes.len() {
        &bytes[bytes.len() - count..]
    } else {
        &[]
    }
}

/// The bytes of the column at which a run failed that had this line for its input, where it has one and read all of it.
pub(crate) fn failed_column<'l>(
    directives: &[Directive],
    outcome: Outcome,
    line: &'l [u8],
) -> &'l [u8]
    ensures { result.now ≡ failed_column directives.now outcome line.entry.now }
{
    if !is_column_read(outcome) {
        return &[];
    }
    let place = usize::from(outcome.at).saturating_sub(1);
    let read = &line[..(outcome.used as usize).min(line.len())];
    last_bytes(read, column_width(directives.get(place)))
}

/// Whether a directive is white space.
fn is_space(directive: Option<&Directive>) -> bool
    ensures { result ≡ is_space (option_map (λ given. given.now) directive.entry) }
{
    matches!(directive, Some(Directive::Space))
}

/// Whether a run failed by what its input has, or hasn't.
fn is_failure(status: Status) -> bool
    ensures { result ≡ is_failure status }
{
    matches!(
        status,
        Status::InputFailure | Status::MatchingFailure | Status::OutOfRange
    )
}

/// Whether a run failed at a column before which the format has white space.
pub(crate) fn is_after_space(directives: &[Directive], outcome: Outcome) -> bool
    ensures { result ≡ is_after_space directives.now outcome }
{
    let at = usize::from(outcome.at);
    is_failure(outcome.status)
        && is_space(directives.get(at.saturating_sub(2)))
        && is_column(directives.get(at.saturating_sub(1)))
}

/// What is said of white space before a column.
pub(crate) fn space_sentence() -> &'static str
    ensures { result.now ≡ space_sentence }
{
    "white space in the format takes the blanks of the column after it, too: write %*c for a byte that is passed over"
}

/// Where what a conversion with `!` wants has to stand.
pub(crate) fn whole_text(column: bool) -> &'static str
    ensures { result.now ≡ whole_text column }
{
    if column { ", in the whole column" } else { "" }
}
