//! Laws of lines. None of these functions does anything: its contract is the law.
ghost use Rattle.sf_records.specs.by_lines.Copied.{CopyingLinesTwice};
ghost use Rattle.sf_records.specs.by_lines.Laws.{LinesHaveOneTurn};
ghost use Rattle.sf_records.specs.by_lines.ReadingBack.{LinesReadBack};

use sf_forms::laws::{missing_values_read_back, names_read_back, records_are_given};
use sf_pair::laws::{aligned_is_whole, fits_is_fit, round_trip, slots_agree};
use sf_read::Source;
pub use sf_read::line::laws::{lines_are_cut, lines_are_joined, texts_are_cut};
use sf_run::laws::{done_runs_have_rows, done_runs_stay, one_report, runs_are_computed};

/// By formats that are accepted, something comes of the lines of an input, and nothing else: what `run_lines` writes,
/// reports and answers is one thing for each input.
pub fn lines_have_one_turn()
    ensures { LinesHaveOneTurn }
{}

/// What `run_lines` wrote by accepted formats, with a maker of records in a form, of the lines of an input of bytes,
/// is the records of what each line that matches gave to the slots of the format that counts on it. They read back as
/// that, as `records_read_back` has it of the records of an input; the column of the format's number is read too.
pub fn lines_read_back<S: Source>()
    ensures { LinesReadBack S.to_come }
{
    done_runs_have_rows();
    records_are_given();
    missing_values_read_back();
    names_read_back();
}

/// What a copy by lines wrote is copied as it is: by a pair whose scan format ends in a conversion that reads one byte
/// and stores nothing, each line being read by what stands before that, and where each text that was written is a line
/// with its newline.
pub fn lines_copied_twice()
    ensures { CopyingLinesTwice }
{
    round_trip();
    slots_agree();
    fits_is_fit();
    one_report();
    runs_are_computed();
    aligned_is_whole();
    done_runs_stay();
    lines_are_joined();
}
