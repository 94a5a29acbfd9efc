//! Columns of a line, one after the other.
ghost use Rattle.std.specs.Prelude.{◌≡◌, ◌++◌, ◌<◌, ◌≤◌, ◌∷◌, [], ℕ, List, if◌then◌else◌, map, OnErr, OnOk};
ghost use Rattle.std.specs.List.{join_with_byte, range_with_len};
ghost use Rattle.sf_forms.specs.Forms.{closing, framed, opening};
ghost use Rattle.sf_forms.specs.Growing.{IsGrown};
ghost use Rattle.sf_forms.specs.Lone.{is_lone_in};

use crate::form::OutputForm;
use std::alloc::AllocError;

/// Columns of a line.
pub(crate) trait Columns {
    /// The text of each, from 1 on.
    ghost text: { Self → ℕ → List ℕ };

    /// How many there are.
    ghost count: { Self → ℕ };

    /// Appends the text of a column.
    fn push(&self, output: &mut Vec<u8>, column: usize) -> Result<(), AllocError>
        requires some { 0 < column }
        requires within { column ≤ count self.now }
        ensures pushed { OnOk result (output.new.items ≡ output.old.items ++ text self.now column) }
        ensures refused { OnErr result (IsGrown output.old.items output.new.items) };
}

/// Appends all columns, with a byte between each two.
pub(crate) fn push_columns<C: Columns>(
    output: &mut Vec<u8>,
    columns: &C,
    count: usize,
    separator: u8,
) -> Result<(), AllocError>
    requires { count ≤ C.count columns.now }
    ensures pushed { OnOk result (output.new.items ≡ output.old.items
        ++ join_with_byte separator (map (C.text columns.now) (range_with_len 1 count))) }
    ensures refused { OnErr result (IsGrown output.old.items output.new.items) }
{
    for before in 0..count {
        if before > 0 {
            output.push(separator)?;
        }
        columns.push(output, before + 1)?;
    }
    Ok(())
}

/// Appends what stands before the values of a record.
fn push_opening(output: &mut Vec<u8>, form: OutputForm) -> Result<(), AllocError>
    ensures pushed { OnOk result (output.new.items ≡ output.old.items ++ opening form) }
    ensures refused { OnErr result (output.new.items ≡ output.old.items) }
{
    match form {
        OutputForm::Plain | OutputForm::Tsv | OutputForm::Csv => {}
        OutputForm::Json => output.push(b'[')?,
    }
    Ok(())
}

/// Appends the quotes of a record of so many columns, whose texts are so long, where it has only these.
fn push_filler(
    output: &mut Vec<u8>,
    form: OutputForm,
    columns: usize,
    len: usize,
) -> Result<(), AllocError>
    ensures pushed { OnOk result (output.new.items
        ≡ output.old.items ++ (if is_lone_in form columns len then 34 ∷ 34 ∷ [] else [])) }
    ensures refused { OnErr result (output.new.items ≡ output.old.items) }
{
    if form.is_lone(columns, len) {
        output.extend_from_slice(b"\"\"")?;
    }
    Ok(())
}

/// Appends what stands after them.
fn push_closing(output: &mut Vec<u8>, form: OutputForm) -> Result<(), AllocError>
    ensures pushed { OnOk result (output.new.items ≡ output.old.items ++ closing form) }
    ensures refused { OnErr result (IsGrown output.old.items output.new.items) }
{
    match form {
        OutputForm::Plain | OutputForm::Tsv | OutputForm::Csv => {}
        OutputForm::Json => output.push(b']')?,
    }
    output.push(b'\n')?;
    Ok(())
}

/// Appends the line of these columns, or, where memory is refused, a part of it.
pub(crate) fn push_framed<C: Columns>(
    output: &mut Vec<u8>,
    form: OutputForm,
    columns: &C,
    count: usize,
) -> Result<(), AllocError>
    requires { count ≤ C.count columns.now }
    ensures pushed { OnOk result (output.new.items
        ≡ output.old.items ++ framed form (map (C.text columns.now) (range_with_len 1 count))) }
    ensures refused { OnErr result (IsGrown output.old.items output.new.items) }
{
    push_opening(output, form)?;
    let start = output.len();
    push_columns(output, columns, count, form.separator())?;
    let values = output.len() - start;
    push_filler(output, form, count, values)?;
    push_closing(output, form)
}
