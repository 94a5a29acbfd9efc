//! The record of a report under names, as an object of JSON, written in place where it is short.
ghost use Rattle.std.specs.Prelude.{◌≡◌, ◌+◌, ◌≤◌, length, take, is_some, IfSome, IsSome};
ghost use Rattle.sf_forms.specs.declared.form.OutputForm.TheVariants.{Json};
ghost use Rattle.sf_forms.specs.Columns.{name_at};
ghost use Rattle.sf_forms.specs.Heads.{column_names, columns, head, object_front, object_text};

use crate::escape::{write_all, write_byte};
use crate::form::OutputForm;
use crate::heads::TAG_HEAD;
use crate::makers::Names;
use crate::short_line::{Heads, NUMBER_BYTES, write_tag, write_values};
use sf_base::Store;
use sf_print::TextInPlace;
use sf_report::Report;

impl Heads for Names<'_> {
    ghost text = { λ names number. head (name_at names number) };

    #[inline(always)]
    fn write(&self, number: usize, buf: &mut [u8], at: usize) -> Option<usize> {
        let head = self.head(number);
        if buf.len() - at < head.len() + NUMBER_BYTES {
            return None;
        }
        Some(write_all(head, buf, at))
    }
}

/// Writes what stands before the names of an object's values, so many: a brace, and the number of the format, if it is
/// given. None where there is no room.
#[inline(always)]
fn write_front(tag: Option<u64>, destinations: u8, buf: &mut [u8]) -> Option<usize>
    ensures within { IfSome result (λ end. end ≤ length buf.new) }
    ensures written { IfSome result (λ end. take end buf.new ≡ object_front tag destinations) }
    ensures answers { length (object_front tag destinations) + 22 ≤ length buf.old → IsSome result }
{
    if buf.len() < 1 + TAG_HEAD.len() {
        return None;
    }
    let brace = write_byte(b'{', buf, 0);
    if tag.is_none() {
        return Some(brace);
    }
    let start = write_all(TAG_HEAD, buf, brace);
    write_tag(OutputForm::Json, tag, destinations, buf, start)
}

/// Writes the record of a format as an object of JSON: first the number of the format, if it is
/// given, then the values, each by its name. None where there is no room.
#[inline(always)]
fn write_object<S: Store>(
    names: &Names<'_>,
    tag: Option<u64>,
    report: &Report<'_, S>,
    destinations: u8,
    buf: &mut [u8],
) -> Option<usize>
    ensures within { IfSome result (λ end. end ≤ length buf.new) }
    ensures written { IfSome result (λ end. take end buf.new
        ≡ object_text (column_names (is_some tag) names.now) (columns Json tag destinations report.now)) }
    ensures answers { length (object_text (column_names (is_some tag) names.now)
        (columns Json tag destinations report.now)) + 21 ≤ length buf.old → IsSome result }
{
    let start = write_front(tag, destinations, buf)?;
    let form = OutputForm::Json;
    let end = write_values::<false, Names<'_>, S>(form, names, report, destinations, buf, start)?;
    if buf.len() - end < 2 {
        return None;
    }
    let brace = write_byte(b'}', buf, end);
    Some(write_byte(b'\n', buf, brace))
}

/// The record of a format as an object of JSON: first the number of the format, if it is given, then the values, each
/// by its name.
#[derive(Drop)]
pub(crate) struct NamedRecord<'a, 'n, 'r, S: Store> {
    pub(crate) names: &'a Names<'n>,
    pub(crate) tag: Option<u64>,
    pub(crate) report: &'a Report<'r, S>,
    pub(crate) destinations: u8,
}

impl<S: Store> TextInPlace for NamedRecord<'_, '_, '_, S> {
    ghost text = { λ r. object_text (column_names (is_some r.tag) r.names.now)
        (columns Json r.tag r.destinations r.report.now) };

    ghost Fits = { λ r. Unit {0} };

    #[inline(always)]
    fn write_in(&self, room: &mut [u8]) -> Option<usize> {
        write_object(self.names, self.tag, self.report, self.destinations, room)
    }
}
