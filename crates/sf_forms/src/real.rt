//! Texts of floats.
ghost use Rattle.std.specs.Prelude.{◌≡◌, ◌++◌, ◌+◌, ◌<◌, ◌≤◌, length, take, IfSome, IsSome, OnErr, OnOk};
ghost use Rattle.sf_forms.specs.Growing.{IsGrown};
ghost use Rattle.sf_forms.specs.Reals.{is_finite, is_string, real_text};

use crate::escape::write_all;
use crate::form::OutputForm;
use crate::json::{push_json_string, write_json_string};
use sf_base::Real;
use sf_float::fewest::ROOM;
use sf_float::write_shortest;
use std::alloc::AllocError;
use std::num::{f32_from_bits_with_nan, f64_from_bits_with_nan};

/// Whether a float is no infinity and no NaN.
fn is_finite(real: Real) -> bool
    ensures { result ≡ is_finite real }
{
    match real {
        Real::F32(bits) => f32_from_bits_with_nan(bits).is_finite(),
        Real::F64(bits) => f64_from_bits_with_nan(bits).is_finite(),
    }
}

/// Whether a float is a string in this form: in JSON, where no number stands for it.
fn is_string(form: OutputForm, real: Real) -> bool
    ensures { result ≡ is_string form real }
{
    match form {
        OutputForm::Json => !is_finite(real),
        OutputForm::Plain | OutputForm::Tsv | OutputForm::Csv => false,
    }
}

/// Appends a float: the shortest text that reads as it.
#[inline(never)]
pub(crate) fn push_real(
    output: &mut Vec<u8>,
    form: OutputForm,
    real: Real,
) -> Result<(), AllocError>
    ensures pushed { OnOk result (output.new.items ≡ output.old.items ++ real_text form real) }
    ensures refused { OnErr result (IsGrown output.old.items output.new.items) }
{
    let mut text = [0; ROOM];
    let end = write_shortest(real, &mut text);
    if is_string(form, real) {
        return push_json_string(output, &text[..end]);
    }
    output.extend_from_slice(&text[..end])
}

/// Writes a float from a place on, and answers where its text ends. None where there is no room.
#[inline(never)]
pub fn write_real(form: OutputForm, real: Real, buf: &mut [u8], at: usize) -> Option<usize>
    requires { at < length buf.old }
    ensures within { IfSome result (λ end. end ≤ length buf.new) }
    ensures written { IfSome result (λ end. take end buf.new ≡ take at buf.old ++ real_text form real) }
    ensures answers { at + length (real_text form real) + 21 ≤ length buf.old → IsSome result }
{
    let mut text = [0; ROOM];
    let len = write_shortest(real, &mut text);
    if is_string(form, real) {
        return write_json_string(&text[..len], buf, at);
    }
    if buf.len() - at < len {
        return None;
    }
    Some(write_all(&text[..len], buf, at))
}
