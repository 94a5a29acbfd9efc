//! One record under names, and how it reads back, as a caller sees it by the laws of rows.
ghost use Rattle.std.specs.Prelude.{◌==◌, ◌≡◌, ◌++◌, ℕ, List, [], ◌∷◌, false, length, map, Some, IfSome};
ghost use Rattle.std.specs.List.{slice_split};
ghost use Rattle.sf_base.specs.Data.{Datum};
ghost use Rattle.sf_format.specs.Proper.{destinations_of, has_optional};
ghost use Rattle.sf_forms.specs.Csv.{csv_rows};
ghost use Rattle.sf_forms.specs.Heads.{header_text, headed_text};
ghost use Rattle.sf_forms.specs.JsonReading.{element_of, json_objects};
ghost use Rattle.sf_forms.specs.ReadingBack.{text_of_value, with_names};

use sf_base::Store;
use sf_format::ScanFormat;
use sf_forms::laws::{headed_records_are_rows, json_objects_read_back, names_read_back};
use sf_forms::{FormMaker, Maker, Names, OutputForm};
use sf_print::ListSink;
use sf_read::sscan;
use sf_run::laws::done_runs_have_rows;
use sf_run::{Report, Status};
use std::alloc::Global;

/// The most bytes that a run uses here.
const LIMIT: u32 = 1048576;

/// The record of a report under names, after the line of names where the form has one. None where memory was refused.
fn record_under<S: Store>(
    alloc: Global,
    form: OutputForm,
    names: Names<'_>,
    format: &ScanFormat,
    report: &Report<'_, S>,
) -> Option<ListSink>
    ensures { IfSome result (λ to. to.bytes
        ≡ header_text (record { form = form; names = Some names.entry; tagged = false })
        ++ headed_text (record { form = form; names = Some names.entry; tagged = false }) 1
        (length (destinations_of format.now)) report.now) }
{
    let mut maker = FormMaker::headed(alloc, form, Some(names), false);
    let mut to = ListSink::new(alloc);
    if maker.write_header(&mut to).is_err() {
        return None;
    }
    if maker.write(&mut to, format, 1, report).is_err() {
        return None;
    }
    Some(to)
}

/// The values that a text gives a format, as a row of comma-separated values under a line of names. It reads as the
/// names, and then the texts of the values. None where the run isn't Done, or memory was refused.
pub fn show_titled(alloc: Global, text: &[u8], format: &ScanFormat, names: &str) -> Option<ListSink>
    ensures { has_optional format.now ≡ false → IfSome result (λ shown. (row : List Datum)
        × (csv_rows shown.bytes
        ≡ Some (slice_split (λ b. b == 44) names.now ∷ map text_of_value row ∷ []))) }
{
    done_runs_have_rows();
    headed_records_are_rows();
    names_read_back();
    let _destinations = format.destinations();
    let Ok(columns) = Names::split(alloc, names) else {
        return None;
    };
    let Ok(scanned) = sscan(alloc, text, format, LIMIT) else {
        return None;
    };
    let report = scanned.report();
    let Status::Done = report.outcome().status else {
        return None;
    };
    record_under(alloc, OutputForm::Csv, columns, format, &report)
}

/// The values that a text gives a format, as an object of JSON. It reads as the names, each with its value. None where
/// the run isn't Done, where there are not as many names as slots, or where memory was refused.
pub fn show_object(alloc: Global, text: &[u8], format: &ScanFormat, names: &str) -> Option<ListSink>
    ensures { has_optional format.now ≡ false → IfSome result (λ shown. (row : List Datum)
        × (json_objects shown.bytes
        ≡ Some (with_names (slice_split (λ b. b == 44) names.now) (map element_of row) ∷ []))) }
{
    done_runs_have_rows();
    headed_records_are_rows();
    json_objects_read_back();
    let Ok(columns) = Names::split(alloc, names) else {
        return None;
    };
    let destinations = format.destinations();
    if columns.len() != destinations as usize {
        return None;
    }
    let Ok(scanned) = sscan(alloc, text, format, LIMIT) else {
        return None;
    };
    let report = scanned.report();
    let Status::Done = report.outcome().status else {
        return None;
    };
    record_under(alloc, OutputForm::Json, columns, format, &report)
}
