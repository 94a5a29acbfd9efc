//! Values written in place one by one, each with its separator, and records that are made of them there.
ghost use Rattle.std.specs.Prelude.{◌≡◌, ◌≢◌, ◌++◌, ◌+◌, ◌-◌, ◌<◌, ◌≤◌, ◌∷◌, [], ℕ, List, drop, length, take};
ghost use Rattle.std.specs.Prelude.{IfSome, IsSome};
ghost use Rattle.std.specs.List.{flat_map};
ghost use Rattle.sf_base.specs.Data.{Bytes, Real as RealOf, datum_of_number};
ghost use Rattle.sf_forms.specs.declared.form.OutputForm.TheVariants.{Csv};
ghost use Rattle.sf_forms.specs.Forms.{framed, value_text};
ghost use Rattle.sf_forms.specs.InPlace.{lead, looked_in, parted, quote, trail};
ghost use Rattle.sf_forms.specs.Quotes.{escaped};

use crate::escape::{write_byte, write_sixteen};
use crate::form::OutputForm;
use crate::quote::{LANES, write_rest};
use crate::real::write_real;
use crate::short_line::write_text;
use sf_base::{Number, Real};
use sf_print::write_number;

/// The room for any number, and for its separator; so much is asked for before a float or a text, too.
const VALUE_BYTES: usize = 22;

/// In which form the bytes of a short text stay as they are: in JSON, plain ones are known to be UTF-8.
#[inline(always)]
fn looked_in(form: OutputForm) -> OutputForm
    ensures { result ≡ looked_in form }
{
    match form {
        OutputForm::Json => OutputForm::Plain,
        OutputForm::Plain | OutputForm::Tsv | OutputForm::Csv => form,
    }
}

/// Writes what stands before a value, and answers where it ends.
#[inline(always)]
fn put_lead(form: OutputForm, buf: &mut [u8], at: usize) -> usize
    requires { at + length (lead form) ≤ length buf.old }
    ensures end { result ≡ at + length (lead form) }
    ensures written { take result buf.new ≡ take at buf.old ++ lead form }
{
    match form {
        OutputForm::Plain | OutputForm::Tsv | OutputForm::Csv => at,
        OutputForm::Json => write_byte(form.separator(), buf, at),
    }
}

/// Writes what stands after a value, and answers where it ends.
#[inline(always)]
fn put_trail(form: OutputForm, buf: &mut [u8], at: usize) -> usize
    requires { at + length (trail form) ≤ length buf.old }
    ensures end { result ≡ at + length (trail form) }
    ensures written { take result buf.new ≡ take at buf.old ++ trail form }
{
    match form {
        OutputForm::Plain | OutputForm::Tsv | OutputForm::Csv => {
            write_byte(form.separator(), buf, at)
        }
        OutputForm::Json => at,
    }
}

/// Writes what stands before and after a text whose bytes stay as they are, and answers where it ends.
#[inline(always)]
fn put_quote(form: OutputForm, buf: &mut [u8], at: usize) -> usize
    requires { at + length (quote form) ≤ length buf.old }
    ensures end { result ≡ at + length (quote form) }
    ensures written { take result buf.new ≡ take at buf.old ++ quote form }
{
    match form {
        OutputForm::Plain | OutputForm::Json => write_byte(b'"', buf, at),
        OutputForm::Tsv | OutputForm::Csv => at,
    }
}

/// As `put_trail`. None where there is no byte of room.
#[inline(always)]
fn write_trail(form: OutputForm, buf: &mut [u8], at: usize) -> Option<usize>
    requires { at ≤ length buf.old }
    ensures within { IfSome result (λ end. end ≤ length buf.new) }
    ensures written { IfSome result (λ end. take end buf.new ≡ take at buf.old ++ trail form) }
    ensures answers { at < length buf.old → IsSome result }
{
    if at == buf.len() {
        return None;
    }
    Some(put_trail(form, buf, at))
}

/// Writes a number with its separator from a place on, and answers where they end. None where there is no room.
#[inline(always)]
pub fn write_number_value(
    form: OutputForm,
    number: Number,
    buf: &mut [u8],
    at: usize,
) -> Option<usize>
    requires { at ≤ length buf.old }
    ensures within { IfSome result (λ end. end ≤ length buf.new) }
    ensures written { IfSome result (λ end. take end buf.new
        ≡ take at buf.old ++ parted form (value_text form (datum_of_number number))) }
    ensures answers { at + length (parted form (value_text form (datum_of_number number))) + 22 ≤ length buf.old
        → IsSome result }
{
    if buf.len() - at < VALUE_BYTES {
        return None;
    }
    let start = put_lead(form, buf, at);
    let end = write_number(number.negative, number.magnitude, buf, start);
    Some(put_trail(form, buf, end))
}

/// As `write_number_value`, of a float.
#[inline(always)]
pub fn write_real_value(form: OutputForm, real: Real, buf: &mut [u8], at: usize) -> Option<usize>
    requires { at ≤ length buf.old }
    ensures within { IfSome result (λ end. end ≤ length buf.new) }
    ensures written { IfSome result (λ end. take end buf.new
        ≡ take at buf.old ++ parted form (value_text form (RealOf real))) }
    ensures answers { at + length (parted form (value_text form (RealOf real))) + 22 ≤ length buf.old
        → IsSome result }
{
    if buf.len() - at < VALUE_BYTES {
        return None;
    }
    let start = put_lead(form, buf, at);
    let end = write_real(form, real, buf, start)?;
    write_trail(form, buf, end)
}

/// As `write_number_value`, of any text. It is a call of its own, so that short texts don't pay for it.
#[inline(never)]
fn write_any_text(form: OutputForm, text: &[u8], buf: &mut [u8], at: usize) -> Option<usize>
    requires { at ≤ length buf.old }
    ensures within { IfSome result (λ end. end ≤ length buf.new) }
    ensures written { IfSome result (λ end. take end buf.new
        ≡ take at buf.old ++ parted form (value_text form (Bytes text.now))) }
    ensures answers { at + length (parted form (value_text form (Bytes text.now))) + 22 ≤ length buf.old
        → IsSome result }
{
    if buf.len() - at < VALUE_BYTES {
        return None;
    }
    let start = put_lead(form, buf, at);
    let end = write_text(form, text, buf, start)?;
    write_trail(form, buf, end)
}

/// Writes what follows the plain bytes at the front of a text of the plain form, and a blank. It is a call of its own,
/// so that plain texts don't pay for it.
#[inline(never)]
fn write_plain_rest(rest: &[u8], buf: &mut [u8], at: usize) -> Option<usize>
    requires { at ≤ length buf.old }
    ensures within { IfSome result (λ end. end ≤ length buf.new) }
    ensures written { IfSome result (λ end. take end buf.new
        ≡ take at buf.old ++ ((flat_map escaped rest.now ++ 34 ∷ []) ++ 32 ∷ [])) }
    ensures answers { at + length (flat_map escaped rest.now) + 22 ≤ length buf.old → IsSome result }
{
    let end = write_rest(rest, buf, at)?;
    write_trail(OutputForm::Plain, buf, end)
}

/// As `write_number_value`, of what the first `count` bytes of a piece are written as. What follows them in the piece
/// may be looked at, so that a short text takes no loop: sixteen bytes are copied, whatever its length.
#[inline(always)]
pub fn write_text_value(
    form: OutputForm,
    piece: &[u8],
    count: usize,
    buf: &mut [u8],
    at: usize,
) -> Option<usize>
    requires of { count ≤ length piece.now }
    requires place { at ≤ length buf.old }
    ensures within { IfSome result (λ end. end ≤ length buf.new) }
    ensures written { IfSome result (λ end. take end buf.new
        ≡ take at buf.old ++ parted form (value_text form (Bytes (take count piece.now)))) }
    ensures answers { at + length (parted form (value_text form (Bytes (take count piece.now)))) + 22
        ≤ length buf.old → IsSome result }
{
    if count > LANES || piece.len() < LANES || buf.len() - at < VALUE_BYTES {
        return write_any_text(form, &piece[..count], buf, at);
    }
    let text = put_lead(form, buf, at);
    let start = put_quote(form, buf, text);
    let kept = write_sixteen(looked_in(form), piece, count, buf, start);
    if kept == count {
        let end = put_quote(form, buf, start + count);
        return Some(put_trail(form, buf, end));
    }
    match form {
        OutputForm::Plain => write_plain_rest(&piece[kept..count], buf, start + kept),
        OutputForm::Tsv | OutputForm::Json | OutputForm::Csv => {
            write_any_text(form, &piece[..count], buf, at)
        }
    }
}

/// Ends a line in the place of the separator after its last value.
#[inline(always)]
fn end_line(buf: &mut [u8], end: usize)
    requires some { 0 < end }
    requires within { end ≤ length buf.old }
    ensures { take end buf.new ≡ take (end - 1) buf.old ++ 10 ∷ [] }
{
    buf[end - 1] = b'\n';
}

/// Makes a row of values that stand there: that of one column that is empty has quotes. Answers where it ends. None
/// where there is no room for these.
#[inline(always)]
fn end_row(buf: &mut [u8], end: usize) -> Option<usize>
    requires some { 0 < end }
    requires within { end ≤ length buf.old }
    ensures within { IfSome result (λ to. to ≤ length buf.new) }
    ensures ended { (texts : List (List ℕ)) → take end buf.old ≡ flat_map (parted Csv) texts
        → IfSome result (λ to. take to buf.new ≡ framed Csv texts) }
    ensures answers { end + 2 ≤ length buf.old → IsSome result }
{
    if end > 1 {
        end_line(buf, end);
        return Some(end);
    }
    if buf.len() < 3 {
        return None;
    }
    let second = write_byte(b'"', buf, 0);
    let third = write_byte(b'"', buf, second);
    Some(write_byte(b'\n', buf, third))
}

/// Opens an array in the place of the separator before its first value, closes it, and answers where it ends. None
/// where there is no room.
#[inline(always)]
fn close_array(buf: &mut [u8], end: usize) -> Option<usize>
    requires some { 0 < end }
    requires within { end ≤ length buf.old }
    ensures within { IfSome result (λ to. to ≤ length buf.new) }
    ensures written { IfSome result (λ to. take to buf.new ≡ 91 ∷ (drop 1 (take end buf.old) ++ 93 ∷ 10 ∷ [])) }
    ensures answers { end + 2 ≤ length buf.old → IsSome result }
{
    if buf.len() - end < 2 {
        return None;
    }
    buf[0] = b'[';
    let to = write_byte(b']', buf, end);
    Some(write_byte(b'\n', buf, to))
}

/// Makes a record of values that stand with their separators at the front of the buffer up to this place, and answers
/// where it ends. None where there is no room, or no value.
#[inline(always)]
pub fn end_values(form: OutputForm, buf: &mut [u8], end: usize) -> Option<usize>
    requires { end ≤ length buf.old }
    ensures within { IfSome result (λ to. to ≤ length buf.new) }
    ensures ended { (texts : List (List ℕ)) → take end buf.old ≡ flat_map (parted form) texts
        → IfSome result (λ to. take to buf.new ≡ framed form texts) }
    ensures answers { (texts : List (List ℕ)) → texts ≢ [] → take end buf.old ≡ flat_map (parted form) texts
        → end + 2 ≤ length buf.old → IsSome result }
{
    if end == 0 {
        return None;
    }
    match form {
        OutputForm::Json => close_array(buf, end),
        OutputForm::Csv => end_row(buf, end),
        OutputForm::Plain | OutputForm::Tsv => {
            end_line(buf, end);
            Some(end)
        }
    }
}
