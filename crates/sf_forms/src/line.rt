//! The text of a record.
ghost use Rattle.std.specs.Prelude.{◌≡◌, ◌++◌, OnErr, OnOk};
ghost use Rattle.sf_base.specs.Data.{Bytes};
ghost use Rattle.sf_forms.specs.Growing.{IsGrown};
ghost use Rattle.sf_forms.specs.Forms.{record_text, slot_text, value_text};

use crate::columns::Columns;
use crate::csv::push_csv_text;
use crate::form::OutputForm;
use crate::heads::push_tagged;
use crate::json::push_json_string;
use crate::quote::push_quoted;
use crate::real::push_real;
use crate::tables::push_tsv_text;
use sf_base::{Shown, Store};
use sf_print::push_number;
use sf_report::Report;
use std::alloc::AllocError;

/// Appends a text.
pub(crate) fn push_text(
    output: &mut Vec<u8>,
    form: OutputForm,
    text: &[u8],
) -> Result<(), AllocError>
    ensures pushed { OnOk result (output.new.items ≡ output.old.items ++ value_text form (Bytes text.now)) }
    ensures refused { OnErr result (IsGrown output.old.items output.new.items) }
{
    match form {
        OutputForm::Plain => push_quoted(output, text),
        OutputForm::Tsv => push_tsv_text(output, text),
        OutputForm::Json => push_json_string(output, text),
        OutputForm::Csv => push_csv_text(output, text),
    }
}

/// Appends what a slot was given.
pub(crate) fn push_slot<S: Store>(
    output: &mut Vec<u8>,
    form: OutputForm,
    report: &Report<'_, S>,
    slot: u8,
) -> Result<(), AllocError>
    ensures pushed { OnOk result (output.new.items ≡ output.old.items ++ slot_text form report.now slot) }
    ensures refused { OnErr result (IsGrown output.old.items output.new.items) }
{
    match report.shown(slot) {
        Some(Shown::Number(number)) => push_number(output, number.negative, number.magnitude),
        Some(Shown::Text(text)) => push_text(output, form, text),
        Some(Shown::Real(real)) => push_real(output, form, real),
        None => output.extend_from_slice(form.missing()),
    }
}

/// The slots of a report.
#[derive(Drop)]
pub(crate) struct Slots<'a, 'r, S: Store> {
    pub(crate) form: OutputForm,
    pub(crate) report: &'a Report<'r, S>,
}

impl<S: Store> Columns for Slots<'_, '_, S> {
    ghost text = { λ s. slot_text s.form s.report.now };

    ghost count = { λ s. 255 };

    fn push(&self, output: &mut Vec<u8>, column: usize) -> Result<(), AllocError> {
        push_slot(output, self.form, self.report, column as u8)
    }
}

/// Appends, in this form, the record of a format that has so many destinations, by the report of a run. Where memory is
/// refused, nothing is appended.
pub fn push_record<S: Store>(
    output: &mut Vec<u8>,
    form: OutputForm,
    report: &Report<'_, S>,
    destinations: u8,
) -> Result<(), AllocError>
    ensures pushed { OnOk result (output.new.items ≡ output.old.items ++ record_text form destinations report.now) }
    ensures refused { OnErr result (output.new.items ≡ output.old.items) }
{
    let start = output.len();
    match push_tagged(output, form, None, report, destinations) {
        Ok(()) => Ok(()),
        Err(AllocError) => {
            output.truncate(start);
            Err(AllocError)
        }
    }
}
