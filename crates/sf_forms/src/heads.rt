//! Records under heads: the names of their columns, and a first column that has the number of the format that counted.
ghost use Rattle.std.specs.Prelude.{◌≡◌, ◌++◌, ◌+◌, ◌-◌, ◌∷◌, ◌<◌, ◌≤◌, [], is_some, length, map, IfOk, OnErr};
ghost use Rattle.std.specs.Prelude.{OnOk};
ghost use Rattle.std.specs.List.{join_with_byte, range_with_len};
ghost use Rattle.sf_base.specs.Data.{Bytes};
ghost use Rattle.sf_forms.specs.Columns.{name_at, tagged_column, texts};
ghost use Rattle.sf_forms.specs.Forms.{framed, value_text};
ghost use Rattle.sf_forms.specs.Growing.{IsGrown};
ghost use Rattle.sf_forms.specs.Heads.{column_names, columns, head, member, names_line, object_text};

use crate::columns::{Columns, push_columns, push_framed};
use crate::form::OutputForm;
use crate::json::push_json_string;
use crate::line::{Slots, push_text};
use crate::makers::Names;
use sf_base::Store;
use sf_print::push_number;
use sf_report::Report;
use std::alloc::{AllocError, Global};

/// The name of the column that has the number of the format that counted.
pub const TAG_NAME: &str = "format";

/// What stands before that number in an object of JSON.
pub(crate) const TAG_HEAD: &[u8] = b"\"format\":";

/// The name of a column, counted from 1, or an empty one.
fn name_of<'n>(names: &[&'n str], tagged: bool, column: usize) -> &'n str
    requires { 0 < column }
    ensures { result.now ≡ name_at (column_names tagged (texts names.now)) column }
{
    if tagged && column == 1 {
        return TAG_NAME;
    }
    let place = column - 1 - usize::from(tagged);
    match names.get(place) {
        Some(name) => name,
        None => "",
    }
}

/// A column that has the number of the format, and others after it.
#[derive(Drop)]
struct Tagged<C: Columns> {
    number: u64,
    others: C,
}

impl<C: Columns> Columns for Tagged<C> {
    ghost text = { λ t. tagged_column t.number (C.text t.others) };

    ghost count = { λ t. C.count t.others + 1 };

    fn push(&self, output: &mut Vec<u8>, column: usize) -> Result<(), AllocError> {
        if column == 1 {
            return push_number(output, false, self.number);
        }
        self.others.push(output, column - 1)
    }
}

/// What stands before the value of this name in an object of JSON.
fn head_of(alloc: Global, name: &str) -> Result<Vec<u8>, AllocError>
    ensures { IfOk result (λ text. text.items ≡ head name.now) }
{
    let mut text = Vec::new(alloc);
    push_json_string(&mut text, name.as_bytes())?;
    text.push(b':')?;
    Ok(text)
}

/// What stands before the value of each of these names. It is laid out once, for all records.
pub(crate) fn heads_of(alloc: Global, names: &[&str]) -> Result<Vec<Vec<u8>>, AllocError>
    ensures { IfOk result (λ heads. map (λ text. text.items) heads.items ≡ map head (texts names.now)) }
{
    let mut heads = Vec::new(alloc);
    for name in names {
        heads.push(head_of(alloc, name)?)?;
    }
    Ok(heads)
}

/// What stands before the value of a column, counted from 1, in an object of JSON.
fn head_at<'h>(names: &'h Names<'_>, tagged: bool, column: usize) -> &'h [u8]
    requires { 0 < column }
    ensures { result.now ≡ head (name_at (column_names tagged names.now) column) }
{
    if tagged && column == 1 {
        return TAG_HEAD;
    }
    names.head(column - usize::from(tagged))
}

/// Columns as members of an object of JSON.
#[derive(Drop)]
struct Named<'a, 'n, C: Columns> {
    names: &'a Names<'n>,
    tagged: bool,
    columns: C,
}

impl<C: Columns> Columns for Named<'_, '_, C> {
    ghost text = { λ n k. member (name_at (column_names n.tagged n.names.now) k) (C.text n.columns k) };

    ghost count = { λ n. C.count n.columns };

    fn push(&self, output: &mut Vec<u8>, column: usize) -> Result<(), AllocError> {
        output.extend_from_slice(head_at(self.names, self.tagged, column))?;
        self.columns.push(output, column)
    }
}

/// The names of columns as their texts.
#[derive(Drop)]
struct NameTexts<'a, 'n> {
    form: OutputForm,
    names: &'a [&'n str],
    tagged: bool,
}

impl Columns for NameTexts<'_, '_> {
    ghost text = { λ n k. value_text n.form (Bytes (name_at (column_names n.tagged (texts n.names.now)) k)) };

    ghost count = { λ n. length n.names.now + 1 };

    fn push(&self, output: &mut Vec<u8>, column: usize) -> Result<(), AllocError> {
        push_text(
            output,
            self.form,
            name_of(self.names, self.tagged, column).as_bytes(),
        )
    }
}

/// Appends the object of these members.
fn push_members<C: Columns>(
    output: &mut Vec<u8>,
    members: &C,
    count: usize,
) -> Result<(), AllocError>
    requires { count ≤ C.count members.now }
    ensures pushed { OnOk result (output.new.items ≡ output.old.items
        ++ 123 ∷ (join_with_byte 44 (map (C.text members.now) (range_with_len 1 count)) ++ 125 ∷ 10 ∷ [])) }
    ensures refused { OnErr result (IsGrown output.old.items output.new.items) }
{
    output.push(b'{')?;
    push_columns(output, members, count, b',')?;
    output.extend_from_slice(b"}\n")
}

/// Appends, in this form, the record of a format, by the report of a run: first the number of the format, if it is
/// given, then the values. Where memory is refused, a part of it.
pub(crate) fn push_tagged<S: Store>(
    output: &mut Vec<u8>,
    form: OutputForm,
    tag: Option<u64>,
    report: &Report<'_, S>,
    destinations: u8,
) -> Result<(), AllocError>
    ensures pushed { OnOk result (output.new.items
        ≡ output.old.items ++ framed form (columns form tag destinations report.now)) }
    ensures refused { OnErr result (IsGrown output.old.items output.new.items) }
{
    let others = Slots { form, report };
    match tag {
        Some(number) => {
            let columns = Tagged { number, others };
            push_framed(output, form, &columns, destinations as usize + 1)
        }
        None => push_framed(output, form, &others, destinations as usize),
    }
}

/// Appends the record of a format as an object of JSON, by the report of a run: first the number of the format, if it
/// is given, then the values, each by its name. Where memory is refused, a part of it.
pub(crate) fn push_object<S: Store>(
    output: &mut Vec<u8>,
    names: &Names<'_>,
    tag: Option<u64>,
    report: &Report<'_, S>,
    destinations: u8,
) -> Result<(), AllocError>
    ensures pushed { OnOk result (output.new.items ≡ output.old.items
        ++ object_text (column_names (is_some tag) names.now)
        (columns OutputForm.Json tag destinations report.now)) }
    ensures refused { OnErr result (IsGrown output.old.items output.new.items) }
{
    let form = OutputForm::Json;
    let slots = Slots { form, report };
    match tag {
        Some(number) => {
            let columns = Tagged {
                number,
                others: slots,
            };
            let members = Named {
                names,
                tagged: true,
                columns,
            };
            push_members(output, &members, destinations as usize + 1)
        }
        None => {
            let members = Named {
                names,
                tagged: false,
                columns: slots,
            };
            push_members(output, &members, destinations as usize)
        }
    }
}

/// Appends the line of the names, in a form that has one. Where memory is refused, a part of it.
pub(crate) fn push_names(
    output: &mut Vec<u8>,
    form: OutputForm,
    names: &[&str],
    tagged: bool,
) -> Result<(), AllocError>
    ensures pushed { OnOk result (output.new.items
        ≡ output.old.items ++ names_line form (column_names tagged (texts names.now))) }
    ensures refused { OnErr result (IsGrown output.old.items output.new.items) }
{
    match form {
        OutputForm::Plain | OutputForm::Json => Ok(()),
        OutputForm::Tsv | OutputForm::Csv => {
            let columns = NameTexts {
                form,
                names,
                tagged,
            };
            push_framed(output, form, &columns, names.len() + usize::from(tagged))
        }
    }
}
