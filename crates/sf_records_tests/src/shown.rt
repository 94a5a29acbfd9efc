//! One record in each form, and how it reads back, as a caller sees it by the laws of rows.
ghost use Rattle.std.specs.Prelude.{◌≡◌, ◌++◌, List, [], ◌∷◌, false, map, Option, Some, IfSome, IsUtf8};
ghost use Rattle.sf_base.specs.Data.{Datum};
ghost use Rattle.sf_format.specs.Proper.{has_optional};
ghost use Rattle.sf_forms.specs.Csv.{csv_rows};
ghost use Rattle.sf_forms.specs.Forms.{record_text};
ghost use Rattle.sf_forms.specs.JsonReading.{element_given, element_of, json_rows};
ghost use Rattle.sf_forms.specs.ReadingBack.{table_fields, text_given, text_of_value};
ghost use Rattle.sf_forms.specs.Tables.{table_of, tsv_rows};
ghost use Rattle.sf_run.specs.Rows.{kinds_of};

use sf_base::Store;
use sf_format::ScanFormat;
use sf_forms::laws::{
    csv_reads_back, json_is_utf8, json_reads_back, missing_values_read_back, records_are_given,
    records_are_rows, tsv_reads_back,
};
use sf_forms::{OutputForm, push_record};
use sf_read::sscan;
use sf_run::laws::done_runs_have_rows;
use sf_run::{Report, Status};
use std::alloc::Global;

/// The most bytes that a run uses here.
const LIMIT: u32 = 1048576;

/// A record in three forms.
#[derive(Drop)]
pub struct Shown {
    pub csv: Vec<u8>,
    pub json: Vec<u8>,
    pub table: Vec<u8>,
}

/// The record of a report in a form. None where memory was refused.
fn record_in<S: Store>(
    alloc: Global,
    form: OutputForm,
    report: &Report<'_, S>,
    destinations: u8,
) -> Option<Vec<u8>>
    ensures { IfSome result (λ text. text.items ≡ record_text form destinations report.now) }
{
    let mut text = Vec::new(alloc);
    if push_record(&mut text, form, report, destinations).is_err() {
        return None;
    }
    Some(text)
}

/// The record of the values that a text gives a format, in three forms. Each reads back: as what the slots were given,
/// and, where no value may be missing, as the row of their values. None where the run isn't Done, or memory was
/// refused.
pub fn show_record(alloc: Global, text: &[u8], format: &ScanFormat) -> Option<Shown>
    ensures given { IfSome result (λ shown. (row : List (Option Datum))
        × (csv_rows shown.csv.items ≡ Some (map text_given row ∷ []))
        × (json_rows shown.json.items ≡ Some (map element_given row ∷ []))
        × (table_of shown.table.items ≡ table_fields row ∷ [])) }
    ensures rows { has_optional format.now ≡ false → IfSome result (λ shown. (row : List Datum)
        × (csv_rows shown.csv.items ≡ Some (map text_of_value row ∷ []))
        × (json_rows shown.json.items ≡ Some (map element_of row ∷ []))
        × (tsv_rows (kinds_of format.now) shown.table.items ≡ row ∷ [])
        × IsUtf8 shown.json.items) }
{
    done_runs_have_rows();
    records_are_given();
    records_are_rows();
    missing_values_read_back();
    csv_reads_back();
    json_reads_back();
    json_is_utf8();
    tsv_reads_back();
    let destinations = format.destinations();
    let Ok(scanned) = sscan(alloc, text, format, LIMIT) else {
        return None;
    };
    let report = scanned.report();
    let Status::Done = report.outcome().status else {
        return None;
    };
    let csv = record_in(alloc, OutputForm::Csv, &report, destinations)?;
    let json = record_in(alloc, OutputForm::Json, &report, destinations)?;
    let table = record_in(alloc, OutputForm::Tsv, &report, destinations)?;
    Some(Shown { csv, json, table })
}
