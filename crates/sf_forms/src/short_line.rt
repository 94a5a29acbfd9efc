//! The record of a report, written in place where it is short.
ghost use Rattle.std.specs.Prelude.{◌≡◌, ◌++◌, ◌+◌, ◌<◌, ◌≤◌, ◌∷◌, [], ℕ, List, if◌then◌else◌, map, length, take};
ghost use Rattle.std.specs.Prelude.{IfSome, IsSome, Some, true};
ghost use Rattle.std.specs.List.{join_with_byte, range_with_len};
ghost use Rattle.sf_base.specs.Data.{Bytes, Real as RealOf};
ghost use Rattle.sf_base.specs.declared.real.Real.TheVariants.{F32, F64};
ghost use Rattle.sf_forms.specs.Columns.{after_head};
ghost use Rattle.sf_forms.specs.Lone.{is_lone_in};
ghost use Rattle.sf_forms.specs.declared.form.OutputForm.TheVariants.{Plain};
ghost use Rattle.sf_forms.specs.Forms.{closing, framed, missing_text, opening, separator, slot_text, value_text};
ghost use Rattle.sf_forms.specs.Heads.{columns, tag_text};

use crate::csv::write_csv_text;
use crate::escape::{write_all, write_byte};
use crate::form::OutputForm;
use crate::json::write_string;
use crate::quote::write_between;
use crate::real::write_real;
use crate::tables::write_tsv_text;
use sf_base::{Real, Shown, Store};
use sf_print::{TextInPlace, write_number};
use sf_report::Report;

/// The room for a short line: 1,023 bytes, and as many as the longest number has.
pub(crate) const LINE_BYTES: usize = 1044;

/// A minus and the digits of any number, and a separator.
pub(crate) const NUMBER_BYTES: usize = 22;

/// What stands before each value of a record.
pub(crate) trait Heads {
    /// What stands before the value with this number, from 1 on.
    ghost text: { Self → ℕ → List ℕ };

    /// Writes it from a place on, and answers where it ends. None where there is no room for it, or none for a number
    /// and a separator after it.
    fn write(&self, number: usize, buf: &mut [u8], at: usize) -> Option<usize>
        requires some { 0 < number }
        requires place { at ≤ length buf.old }
        ensures within { IfSome result (λ end. end + 22 ≤ length buf.new) }
        ensures written { IfSome result (λ end. take end buf.new ≡ take at buf.old ++ text self.now number) }
        ensures answers { at + length (text self.now number) + 22 ≤ length buf.old → IsSome result };
}

/// Nothing stands before the values.
#[derive(Drop)]
pub(crate) struct NoHeads;

impl Heads for NoHeads {
    ghost text = { λ heads number. [] };

    #[inline(always)]
    fn write(&self, _number: usize, buf: &mut [u8], at: usize) -> Option<usize> {
        if buf.len() - at < NUMBER_BYTES {
            return None;
        }
        Some(at)
    }
}

/// Writes a text from a place on, and answers where it ends. None where there is no room.
#[inline(always)]
pub(crate) fn write_text(form: OutputForm, text: &[u8], buf: &mut [u8], at: usize) -> Option<usize>
    requires { at + 21 ≤ length buf.old }
    ensures within { IfSome result (λ end. end ≤ length buf.new) }
    ensures written { IfSome result (λ end. take end buf.new ≡ take at buf.old ++ value_text form (Bytes text.now)) }
    ensures answers { at + length (value_text form (Bytes text.now)) + 21 ≤ length buf.old → IsSome result }
{
    match form {
        OutputForm::Plain => write_between(text, buf, at),
        OutputForm::Tsv => write_tsv_text(text, buf, at),
        OutputForm::Json => write_string(text, buf, at),
        OutputForm::Csv => write_csv_text(text, buf, at),
    }
}

/// Writes what stands for a slot that was given nothing, and answers where it ends.
#[inline(never)]
fn write_missing(form: OutputForm, buf: &mut [u8], at: usize) -> usize
    requires { at + 4 ≤ length buf.old }
    ensures within { result ≤ length buf.new }
    ensures written { take result buf.new ≡ take at buf.old ++ missing_text form }
{
    match form {
        OutputForm::Plain => write_byte(b'-', buf, at),
        OutputForm::Tsv | OutputForm::Csv => at,
        OutputForm::Json => write_all(b"null", buf, at),
    }
}

/// Writes a text that a slot was given, as `write_slot` does. This and the next two are calls of their own, so that
/// numbers don't pay for them.
#[inline(never)]
fn write_given_text<const PLAIN: bool>(
    form: OutputForm,
    text: &[u8],
    buf: &mut [u8],
    at: usize,
) -> usize
    requires plain { PLAIN ≡ true → form ≡ Plain }
    requires room { at + 22 ≤ length buf.old }
    ensures within { result ≤ length buf.new }
    ensures written { result < length buf.new → take result buf.new
        ≡ take at buf.old ++ value_text form (Bytes text.now) }
    ensures answers { at + length (value_text form (Bytes text.now)) + 21 ≤ length buf.old
        → result < length buf.new }
{
    let end = if PLAIN {
        write_between(text, buf, at)
    } else {
        write_text(form, text, buf, at)
    };
    end.unwrap_or(buf.len())
}

/// As `write_given_text`, of a float of binary32.
#[inline(never)]
fn write_given_f32(form: OutputForm, bits: u32, buf: &mut [u8], at: usize) -> usize
    requires { at + 22 ≤ length buf.old }
    ensures within { result ≤ length buf.new }
    ensures written { result < length buf.new → take result buf.new
        ≡ take at buf.old ++ value_text form (RealOf (F32 bits)) }
    ensures answers { at + length (value_text form (RealOf (F32 bits))) + 21 ≤ length buf.old
        → result < length buf.new }
{
    write_real(form, Real::F32(bits), buf, at).unwrap_or(buf.len())
}

/// As `write_given_text`, of a float of binary64.
#[inline(never)]
fn write_given_f64(form: OutputForm, bits: u64, buf: &mut [u8], at: usize) -> usize
    requires { at + 22 ≤ length buf.old }
    ensures within { result ≤ length buf.new }
    ensures written { result < length buf.new → take result buf.new
        ≡ take at buf.old ++ value_text form (RealOf (F64 bits)) }
    ensures answers { at + length (value_text form (RealOf (F64 bits))) + 21 ≤ length buf.old
        → result < length buf.new }
{
    write_real(form, Real::F64(bits), buf, at).unwrap_or(buf.len())
}

/// Writes what a slot was given from a place on, and answers where it ends, which is before the end of the buffer.
/// Where there is no room for it, the answer is the length of the buffer: one test then shows both.
#[inline(always)]
fn write_slot<const PLAIN: bool, S: Store>(
    form: OutputForm,
    report: &Report<'_, S>,
    slot: u8,
    buf: &mut [u8],
    at: usize,
) -> usize
    requires plain { PLAIN ≡ true → form ≡ Plain }
    requires room { at + 22 ≤ length buf.old }
    ensures within { result ≤ length buf.new }
    ensures written { result < length buf.new → take result buf.new
        ≡ take at buf.old ++ slot_text form report.now slot }
    ensures answers { at + length (slot_text form report.now slot) + 21 ≤ length buf.old → result < length buf.new }
{
    match report.shown(slot) {
        Some(Shown::Number(number)) => write_number(number.negative, number.magnitude, buf, at),
        Some(Shown::Text(text)) => write_given_text::<PLAIN>(form, text, buf, at),
        Some(Shown::Real(Real::F32(bits))) => write_given_f32(form, bits, buf, at),
        Some(Shown::Real(Real::F64(bits))) => write_given_f64(form, bits, buf, at),
        None => write_missing(form, buf, at),
    }
}

/// Writes the number of a format, and a separator where values follow, from a place on, and answers where they end.
/// None where there is no room. It is a call of its own, so that records without such a number don't pay for it.
#[inline(never)]
fn write_tag_number(
    form: OutputForm,
    number: u64,
    destinations: u8,
    buf: &mut [u8],
    at: usize,
) -> Option<usize>
    requires { at ≤ length buf.old }
    ensures within { IfSome result (λ end. end ≤ length buf.new) }
    ensures written { IfSome result (λ end. take end buf.new
        ≡ take at buf.old ++ tag_text (separator form) (Some number) destinations) }
    ensures answers { at + length (tag_text (separator form) (Some number) destinations) + 22 ≤ length buf.old
        → IsSome result }
{
    if buf.len() - at < NUMBER_BYTES {
        return None;
    }
    let end = write_number(false, number, buf, at);
    if destinations == 0 {
        return Some(end);
    }
    Some(write_byte(form.separator(), buf, end))
}

/// As `write_tag_number`, where a number is given; else nothing is written.
#[inline(always)]
pub(crate) fn write_tag(
    form: OutputForm,
    tag: Option<u64>,
    destinations: u8,
    buf: &mut [u8],
    at: usize,
) -> Option<usize>
    requires { at ≤ length buf.old }
    ensures within { IfSome result (λ end. end ≤ length buf.new) }
    ensures written { IfSome result (λ end. take end buf.new
        ≡ take at buf.old ++ tag_text (separator form) tag destinations) }
    ensures answers { at + length (tag_text (separator form) tag destinations) + 22 ≤ length buf.old
        → IsSome result }
{
    match tag {
        Some(number) => write_tag_number(form, number, destinations, buf, at),
        None => Some(at),
    }
}

/// Writes the values of a record from a place on, each after its head, and answers where they end. None where there is
/// no room. After the last value stands a separator, too, so that each turn of the loop is the same.
#[inline(always)]
pub(crate) fn write_values<const PLAIN: bool, H: Heads, S: Store>(
    form: OutputForm,
    heads: &H,
    report: &Report<'_, S>,
    destinations: u8,
    buf: &mut [u8],
    at: usize,
) -> Option<usize>
    requires plain { PLAIN ≡ true → form ≡ Plain }
    requires place { at ≤ length buf.old }
    ensures within { IfSome result (λ end. end ≤ length buf.new) }
    ensures written { IfSome result (λ end. take end buf.new ≡ take at buf.old ++ join_with_byte (separator form)
        (map (after_head (H.text heads.now) (slot_text form report.now)) (range_with_len 1 destinations))) }
    ensures answers { at + length (join_with_byte (separator form)
        (map (after_head (H.text heads.now) (slot_text form report.now)) (range_with_len 1 destinations))) + 22
        ≤ length buf.old → IsSome result }
{
    let separator = form.separator();
    let mut end = at;
    let mut next = at;
    for before in 0..destinations as usize {
        let start = heads.write(before + 1, buf, next)?;
        end = write_slot::<PLAIN, S>(form, report, before as u8 + 1, buf, start);
        if end == buf.len() {
            return None;
        }
        next = write_byte(separator, buf, end);
    }
    Some(end)
}

/// Writes what stands before the values of a record, and answers where it ends. None where there is no room.
#[inline(always)]
fn write_opening<const PLAIN: bool>(form: OutputForm, buf: &mut [u8]) -> Option<usize>
    requires plain { PLAIN ≡ true → form ≡ Plain }
    ensures within { IfSome result (λ end. end ≤ length buf.new) }
    ensures written { IfSome result (λ end. take end buf.new ≡ opening form) }
    ensures answers { 1 ≤ length buf.old → IsSome result }
{
    if PLAIN {
        return Some(0);
    }
    match form {
        OutputForm::Plain | OutputForm::Tsv | OutputForm::Csv => Some(0),
        OutputForm::Json if buf.is_empty() => None,
        OutputForm::Json => Some(write_byte(b'[', buf, 0)),
    }
}

/// Writes the quotes of a record of so many columns, whose texts are so long, where it has only these, and answers
/// where they end.
#[inline(always)]
fn write_filler(form: OutputForm, columns: usize, len: usize, buf: &mut [u8], at: usize) -> usize
    requires { at + 2 ≤ length buf.old }
    ensures most { result ≤ at + 2 }
    ensures written { take result buf.new
        ≡ take at buf.old ++ (if is_lone_in form columns len then 34 ∷ 34 ∷ [] else []) }
{
    if form.is_lone(columns, len) {
        let end = write_byte(b'"', buf, at);
        return write_byte(b'"', buf, end);
    }
    at
}

/// Writes what stands after them, and answers where the record ends.
#[inline(always)]
fn write_closing(form: OutputForm, buf: &mut [u8], at: usize) -> usize
    requires { at + 2 ≤ length buf.old }
    ensures within { result ≤ length buf.new }
    ensures written { take result buf.new ≡ take at buf.old ++ closing form }
{
    match form {
        OutputForm::Plain | OutputForm::Tsv | OutputForm::Csv => write_byte(b'\n', buf, at),
        OutputForm::Json => {
            let end = write_byte(b']', buf, at);
            write_byte(b'\n', buf, end)
        }
    }
}

/// Writes the record in a form, as `write_line` does. Plain records have instances of their own of the functions that
/// are PLAIN, which the compiler makes for that form alone.
#[inline(always)]
fn write_record<const PLAIN: bool, S: Store>(
    form: OutputForm,
    tag: Option<u64>,
    report: &Report<'_, S>,
    destinations: u8,
    buf: &mut [u8],
) -> Option<usize>
    requires { PLAIN ≡ true → form ≡ Plain }
    ensures within { IfSome result (λ end. end ≤ length buf.new) }
    ensures written { IfSome result (λ end. take end buf.new ≡ framed form (columns form tag destinations report.now)) }
    ensures answers { length (framed form (columns form tag destinations report.now)) + 21 ≤ length buf.old
        → IsSome result }
{
    let opened = write_opening::<PLAIN>(form, buf)?;
    let start = write_tag(form, tag, destinations, buf, opened)?;
    let values_end = write_values::<PLAIN, NoHeads, S>(
        form,
        &NoHeads,
        report,
        destinations,
        buf,
        start,
    )?;
    if buf.len() - values_end < 4 {
        return None;
    }
    let end = write_filler(
        form,
        destinations as usize + usize::from(tag.is_some()),
        values_end - opened,
        buf,
        values_end,
    );
    Some(write_closing(form, buf, end))
}

/// Writes the record in a form other than the plain one. It is a call of its own, with a report of its own, so that
/// plain records don't pay for it.
#[inline(never)]
fn write_other<S: Store>(
    form: OutputForm,
    tag: Option<u64>,
    report: Report<'_, S>,
    destinations: u8,
    buf: &mut [u8],
) -> Option<usize>
    ensures within { IfSome result (λ end. end ≤ length buf.new) }
    ensures written { IfSome result (λ end. take end buf.new
        ≡ framed form (columns form tag destinations report.entry)) }
    ensures answers { length (framed form (columns form tag destinations report.entry)) + 21 ≤ length buf.old
        → IsSome result }
{
    write_record::<false, S>(form, tag, &report, destinations, buf)
}

/// Writes the record, in this form, of a format that has so many destinations, by the report of a run: first the number
/// of the format, if it is given, and then the values. Answers where it ends. None where it isn't known to be short
/// enough.
#[inline(always)]
pub(crate) fn write_line<S: Store>(
    form: OutputForm,
    tag: Option<u64>,
    report: &Report<'_, S>,
    destinations: u8,
    buf: &mut [u8],
) -> Option<usize>
    ensures within { IfSome result (λ end. end ≤ length buf.new) }
    ensures written { IfSome result (λ end. take end buf.new ≡ framed form (columns form tag destinations report.now)) }
    ensures answers { length (framed form (columns form tag destinations report.now)) + 21 ≤ length buf.old
        → IsSome result }
{
    match form {
        OutputForm::Plain => {
            write_record::<true, S>(OutputForm::Plain, tag, report, destinations, buf)
        }
        OutputForm::Tsv | OutputForm::Json | OutputForm::Csv => {
            write_other(form, tag, report.copied(), destinations, buf)
        }
    }
}

/// The record, in this form, of a format that has so many destinations, by the report of a run, with the number of the
/// format, if it is given.
#[derive(Drop)]
pub(crate) struct Record<'a, 'r, S: Store> {
    pub(crate) form: OutputForm,
    pub(crate) tag: Option<u64>,
    pub(crate) report: &'a Report<'r, S>,
    pub(crate) destinations: u8,
}

impl<S: Store> TextInPlace for Record<'_, '_, S> {
    ghost text = { λ r. framed r.form (columns r.form r.tag r.destinations r.report.now) };

    ghost Fits = { λ r. Unit {0} };

    #[inline(always)]
    fn write_in(&self, room: &mut [u8]) -> Option<usize> {
        write_line(self.form, self.tag, self.report, self.destinations, room)
    }
}

/// The plain record of such a format.
#[derive(Drop)]
pub(crate) struct PlainRecord<'a, 'r, S: Store> {
    pub(crate) tag: Option<u64>,
    pub(crate) report: &'a Report<'r, S>,
    pub(crate) destinations: u8,
}

impl<S: Store> TextInPlace for PlainRecord<'_, '_, S> {
    ghost text = { λ r. framed Plain (columns Plain r.tag r.destinations r.report.now) };

    ghost Fits = { λ r. Unit {0} };

    #[inline(always)]
    fn write_in(&self, room: &mut [u8]) -> Option<usize> {
        let form = OutputForm::Plain;
        write_record::<true, S>(form, self.tag, self.report, self.destinations, room)
    }
}
