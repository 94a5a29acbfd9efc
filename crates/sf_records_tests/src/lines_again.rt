//! Loops over the lines of one text, as a caller sees them by the laws of lines.
ghost use Rattle.std.specs.Prelude.{◌≡◌, ◌≤◌, ◌<◌, List, [], None, length};
ghost use Rattle.sf_forms.specs.Heads.{bare};
ghost use Rattle.sf_forms.specs.declared.form.OutputForm.TheVariants.{Json};
ghost use Rattle.sf_forms.specs.makers.Forms.{writing_under};
ghost use Rattle.sf_read.specs.line.Cut.{lines_of};
ghost use Rattle.sf_records.specs.by_lines.Loops.{AreTurns, ended, texts};
ghost use Rattle.sf_records.specs.by_lines.Turns.{Turn, work_of};
ghost use Rattle.sf_records_tests.specs.Silence.{no_note};

use crate::reading_back::LinesWritten;
use crate::silent::{Silent, see_formats};
use sf_format::ScanFormat;
use sf_forms::FormMaker;
use sf_print::ListSink;
use sf_read::{Lookahead, SliceSource};
use sf_records::by_lines::laws::lines_have_one_turn;
use sf_records::{LineFormats, LinesOptions, OutputForm, run_lines};
use std::alloc::Global;

/// Writes arrays of JSON of the lines of a text. Where nothing cuts the loop short, they are those of the lines' turns.
fn lines_in(
    alloc: Global,
    text: &[u8],
    formats: &[ScanFormat],
    options: LinesOptions,
) -> LinesWritten
    requires some { 0 < length formats.now }
    requires limit { options.limit ≤ 2147483647 }
    ensures { result.end.fault ≡ None → (turns : List Turn)
        × AreTurns (work_of options [] formats.now (writing_under (bare Json)) no_note) 0 (lines_of text.now) turns
        × (result.text.bytes ≡ texts turns) × (result.end ≡ ended turns None) }
{
    let mut maker = FormMaker::new(alloc, OutputForm::Json);
    let mut to = ListSink::new(alloc);
    let mut from: Lookahead<SliceSource<'_>, 64> = Lookahead::new(SliceSource::new(text));
    let by = LineFormats {
        ignored: &[],
        tried: formats,
    };
    let mut silent = Silent;
    let end = run_lines(
        alloc,
        &mut from,
        &mut to,
        &mut maker,
        &mut silent,
        &by,
        options,
    );
    LinesWritten { text: to, end }
}

/// Writes arrays of JSON of the lines of a text, twice. Where nothing cuts either loop short, both wrote the same, and
/// ended alike.
pub fn lines_twice(
    alloc: Global,
    text: &[u8],
    formats: &[ScanFormat],
    options: LinesOptions,
) -> (LinesWritten, LinesWritten)
    requires some { 0 < length formats.now }
    requires limit { options.limit ≤ 2147483647 }
    ensures { result.0.end.fault ≡ None → result.1.end.fault ≡ None
        → (result.0.text.bytes ≡ result.1.text.bytes) × (result.0.end ≡ result.1.end) }
{
    lines_have_one_turn();
    let _count = see_formats(formats);
    let first = lines_in(alloc, text, formats, options);
    let second = lines_in(alloc, text, formats, options);
    (first, second)
}
