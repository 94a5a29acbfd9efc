//! What a scan wrote reads back as its values, as a caller sees it by the laws.
ghost use Rattle.std.specs.Prelude.{◌==◌};
ghost use Rattle.std.specs.Prelude.{◌≡◌, ◌≤◌, ◌<◌, ◌++◌, ℕ, List, [], ◌∷◌, false, codes, length, map, pos};
ghost use Rattle.std.specs.Prelude.{Option, Some, IfSome};
ghost use Rattle.std.specs.Io.KnownBytes.{Appends};
ghost use Rattle.std.specs.List.{flat_map, slice_split};
ghost use Rattle.sf_base.specs.Data.{Datum, Number};
ghost use Rattle.sf_base.specs.declared.values.Kind.TheVariants.{U64};
ghost use Rattle.sf_format.specs.Proper.{has_optional};
ghost use Rattle.sf_forms.specs.Csv.{csv_rows};
ghost use Rattle.sf_forms.specs.Forms.{given_row_text};
ghost use Rattle.sf_forms.specs.ReadingBack.{table_fields, text_given, with_names};
ghost use Rattle.sf_run.specs.Rows.{kinds_of};
ghost use Rattle.sf_records.specs.form.OutputForm.TheVariants.{Tsv};
ghost use Rattle.sf_records.specs.Forms.{row_text};
ghost use Rattle.sf_records.specs.JsonReading.{element_given, json_objects, json_rows};
ghost use Rattle.sf_records.specs.Judging.{is_write};
ghost use Rattle.sf_records.specs.Tables.{table_of, tsv_rows};
ghost use Rattle.sf_records.specs.by_lines.Loops.{is_write as is_write_of_lines};

use crate::silent::{Silent, see_formats};
use sf_format::ScanFormat;
use sf_forms::{FormMaker, Names};
use sf_print::{ListSink, Sink};
use sf_read::{Lookahead, SliceSource};
use sf_records::by_lines::laws::lines_read_back;
use sf_records::laws::{records_read_back, written_reads_back};
use sf_records::{
    LineFormats, LinesEnd, LinesOptions, OutputForm, ToolEnd, run_lines, run_records, run_scan_as,
};
use std::alloc::Global;

/// The most bytes that a run uses here.
const LIMIT: u32 = 2_000_000_000;

/// Records that were written, and how the loop over them ended.
#[derive(Drop)]
pub struct Written {
    pub text: ListSink,
    pub end: ToolEnd,
}

/// Lines of which records were written, and how the loop over them ended.
#[derive(Drop)]
pub struct LinesWritten {
    pub text: ListSink,
    pub end: LinesEnd,
}

/// Writes the records of a text as a table. The sink took the records of rows, some values of which may be missing,
/// and, where the sink failed, a part of one more. The table reads as the texts of the rows; and as the rows
/// themselves, where no value may be missing.
pub fn write_table<K: Sink>(alloc: Global, text: &[u8], format: &ScanFormat, to: &mut K) -> ToolEnd
    ensures texts { (rows : List (List (Option Datum))) × (part : List ℕ)
        × Appends (K.contents to.old) (K.contents to.new) (flat_map (given_row_text Tsv) rows ++ part)
        × (is_write result.fault ≡ false → part ≡ [])
        × (table_of (flat_map (given_row_text Tsv) rows) ≡ map table_fields rows)
        × (length rows ≡ result.records) }
    ensures reads { has_optional format.now ≡ false → (rows : List (List Datum)) × (part : List ℕ)
        × Appends (K.contents to.old) (K.contents to.new) (flat_map (row_text Tsv) rows ++ part)
        × (is_write result.fault ≡ false → part ≡ [])
        × (tsv_rows (kinds_of format.now) (flat_map (row_text Tsv) rows) ≡ rows) }
{
    let _destinations = format.destinations();
    written_reads_back::<SliceSource<'_>>();
    let mut from: Lookahead<SliceSource<'_>, 64> = Lookahead::new(SliceSource::new(text));
    run_scan_as(alloc, &mut from, to, format, OutputForm::Tsv, LIMIT)
}

/// Writes the records of a text as comma-separated values, under a line of names, each with the number of the format in
/// a first column. They read as the names, and then the texts of the rows. None where memory for the names or their
/// line was refused.
pub fn write_named(alloc: Global, text: &[u8], format: &ScanFormat, names: &str) -> Option<Written>
    ensures { IfSome result (λ written. (rows : List (List (Option Datum))) × (records : List ℕ) × (part : List ℕ)
        × (written.text.bytes ≡ records ++ part) × (is_write written.end.fault ≡ false → part ≡ [])
        × (length rows ≡ written.end.records)
        × (csv_rows records ≡ Some ((codes "format" ∷ slice_split (λ b. b == 44) names.now)
        ∷ map (λ row. map text_given (Some (Number U64 (pos 1)) ∷ row)) rows))) }
{
    let _destinations = format.destinations();
    records_read_back::<SliceSource<'_>>();
    let Ok(columns) = Names::split(alloc, names) else {
        return None;
    };
    let mut maker = FormMaker::headed(alloc, OutputForm::Csv, Some(columns), true);
    let mut to = ListSink::new(alloc);
    if maker.write_header(&mut to).is_err() {
        return None;
    }
    let mut from: Lookahead<SliceSource<'_>, 64> = Lookahead::new(SliceSource::new(text));
    let end = run_records(alloc, &mut from, &mut to, &mut maker, format, LIMIT);
    Some(Written { text: to, end })
}

/// Writes the records of a text as objects of JSON. They read as the names, each with what the slot was given. None
/// where there are not as many names as slots, or memory for the names was refused.
pub fn write_objects(
    alloc: Global,
    text: &[u8],
    format: &ScanFormat,
    names: &str,
) -> Option<Written>
    ensures { IfSome result (λ written. (rows : List (List (Option Datum))) × (records : List ℕ) × (part : List ℕ)
        × (written.text.bytes ≡ records ++ part) × (is_write written.end.fault ≡ false → part ≡ [])
        × (length rows ≡ written.end.records)
        × (json_objects records ≡ Some
        (map (λ row. with_names (slice_split (λ b. b == 44) names.now) (map element_given row)) rows))) }
{
    records_read_back::<SliceSource<'_>>();
    let Ok(columns) = Names::split(alloc, names) else {
        return None;
    };
    if columns.len() != format.destinations() as usize {
        return None;
    }
    let mut maker = FormMaker::headed(alloc, OutputForm::Json, Some(columns), false);
    let mut to = ListSink::new(alloc);
    let mut from: Lookahead<SliceSource<'_>, 64> = Lookahead::new(SliceSource::new(text));
    let end = run_records(alloc, &mut from, &mut to, &mut maker, format, LIMIT);
    Some(Written { text: to, end })
}

/// Writes an array of JSON for each line of a text that matches one of the formats. They read as the number of the
/// format, and what its slots were given.
pub fn write_lines(
    alloc: Global,
    text: &[u8],
    formats: &[ScanFormat],
    options: LinesOptions,
) -> LinesWritten
    requires some { 0 < length formats.now }
    requires limit { options.limit ≤ 2147483647 }
    ensures { (rows : List (ℕ × List (Option Datum))) × (records : List ℕ) × (part : List ℕ)
        × (result.text.bytes ≡ records ++ part) × (is_write_of_lines result.end.fault ≡ false → part ≡ [])
        × (length rows ≡ result.end.written)
        × (json_rows records ≡ Some
        (map (λ row. map element_given (Some (Number U64 (pos row.0)) ∷ row.1)) rows)) }
{
    let _count = see_formats(formats);
    lines_read_back::<SliceSource<'_>>();
    let mut maker = FormMaker::headed(alloc, OutputForm::Json, None, true);
    let mut to = ListSink::new(alloc);
    let mut from: Lookahead<SliceSource<'_>, 64> = Lookahead::new(SliceSource::new(text));
    let by = LineFormats {
        ignored: &[],
        tried: formats,
    };
    let mut silent = Silent;
    let end = run_lines(
        alloc,
        &mut from,
        &mut to,
        &mut maker,
        &mut silent,
        &by,
        options,
    );
    LinesWritten { text: to, end }
}
