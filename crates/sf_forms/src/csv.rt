//! Fields of rows of comma-separated values.
ghost use Rattle.std.specs.Prelude.{◌≡◌, ◌++◌, ◌+◌, ◌<◌, ◌≤◌, ◌∷◌, [], length, take, IfSome, IsSome, OnErr, OnOk};
ghost use Rattle.std.specs.List.{flat_map, list_all};
ghost use Rattle.sf_forms.specs.Csv.{csv_escaped, csv_text, is_bare};
ghost use Rattle.sf_forms.specs.Growing.{IsGrown};

use crate::escape::{push_each, write_all, write_byte, write_each};
use crate::form::OutputForm;
use std::alloc::AllocError;

/// Whether the byte may stand in a field without quotes.
fn is_bare_byte(b: u8) -> bool
    ensures { result ≡ is_bare b }
{
    b != b',' && (b != b'"' && (b != b'\n' && b != b'\r'))
}

/// Whether the bytes stand without quotes.
fn is_bare(bytes: &[u8]) -> bool
    ensures { result ≡ list_all is_bare bytes.now }
{
    for b in bytes {
        if !is_bare_byte(*b) {
            return false;
        }
    }
    true
}

/// Appends the bytes as a field of a row: as they are, or, where a byte has to stand between quotes, so, each quote
/// twice.
pub(crate) fn push_csv_text(output: &mut Vec<u8>, bytes: &[u8]) -> Result<(), AllocError>
    ensures pushed { OnOk result (output.new.items ≡ output.old.items ++ csv_text bytes.now) }
    ensures refused { OnErr result (IsGrown output.old.items output.new.items) }
{
    if is_bare(bytes) {
        return output.extend_from_slice(bytes);
    }
    output.push(b'"')?;
    push_each(output, OutputForm::Csv, bytes)?;
    output.push(b'"')?;
    Ok(())
}

/// Writes the bytes between quotes, each quote twice, and answers where they end. None where there is no room.
#[inline(always)]
fn write_between(bytes: &[u8], buf: &mut [u8], at: usize) -> Option<usize>
    requires { at < length buf.old }
    ensures within { IfSome result (λ end. end ≤ length buf.new) }
    ensures written { IfSome result (λ end. take end buf.new
        ≡ take at buf.old ++ (34 ∷ (flat_map csv_escaped bytes.now ++ 34 ∷ []))) }
    ensures answers { at + length (34 ∷ (flat_map csv_escaped bytes.now ++ 34 ∷ [])) + 21 ≤ length buf.old
        → IsSome result }
{
    let start = write_byte(b'"', buf, at);
    let end = write_each(OutputForm::Csv, bytes, buf, start)?;
    if end == buf.len() {
        return None;
    }
    Some(write_byte(b'"', buf, end))
}

/// Writes the bytes as a field of a row from a place on, and answers where it ends. None where there is no room.
#[inline(never)]
pub(crate) fn write_csv_text(bytes: &[u8], buf: &mut [u8], at: usize) -> Option<usize>
    requires { at < length buf.old }
    ensures within { IfSome result (λ end. end ≤ length buf.new) }
    ensures written { IfSome result (λ end. take end buf.new ≡ take at buf.old ++ csv_text bytes.now) }
    ensures answers { at + length (csv_text bytes.now) + 21 ≤ length buf.old → IsSome result }
{
    if !is_bare(bytes) {
        return write_between(bytes, buf, at);
    }
    if buf.len() - at < bytes.len() {
        return None;
    }
    Some(write_all(bytes, buf, at))
}
