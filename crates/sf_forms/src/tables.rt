//! Fields of tables.
ghost use Rattle.std.specs.Prelude.{◌≡◌, ◌++◌, ◌+◌, ◌≤◌, length, take, IfSome, IsSome, OnErr, OnOk};
ghost use Rattle.std.specs.List.{flat_map};
ghost use Rattle.sf_forms.specs.Growing.{IsGrown};
ghost use Rattle.sf_forms.specs.Tables.{tsv_escaped, tsv_text};

use crate::escape::{push_each, write_each};
use crate::form::OutputForm;
use crate::quote::plain_run;
use std::alloc::AllocError;

/// Appends the bytes one by one.
#[inline(never)]
fn push_mixed(output: &mut Vec<u8>, bytes: &[u8]) -> Result<(), AllocError>
    ensures pushed { OnOk result (output.new.items ≡ output.old.items ++ flat_map tsv_escaped bytes.now) }
    ensures refused { OnErr result (IsGrown output.old.items output.new.items) }
{
    push_each(output, OutputForm::Tsv, bytes)
}

/// Appends the bytes as a field of a table: a tab, a line end, a carriage return and a backslash by two bytes each, all
/// others as they are.
pub(crate) fn push_tsv_text(output: &mut Vec<u8>, bytes: &[u8]) -> Result<(), AllocError>
    ensures pushed { OnOk result (output.new.items ≡ output.old.items ++ tsv_text bytes.now) }
    ensures refused { OnErr result (IsGrown output.old.items output.new.items) }
{
    if plain_run(bytes) == bytes.len() {
        return output.extend_from_slice(bytes);
    }
    push_mixed(output, bytes)
}

/// Writes the bytes as a field of a table from a place on, and answers where they end. None where there is no room.
#[inline(never)]
pub(crate) fn write_tsv_text(bytes: &[u8], buf: &mut [u8], at: usize) -> Option<usize>
    requires { at ≤ length buf.old }
    ensures within { IfSome result (λ end. end ≤ length buf.new) }
    ensures written { IfSome result (λ end. take end buf.new ≡ take at buf.old ++ tsv_text bytes.now) }
    ensures answers { at + length (tsv_text bytes.now) + 21 ≤ length buf.old → IsSome result }
{
    write_each(OutputForm::Tsv, bytes, buf, at)
}
