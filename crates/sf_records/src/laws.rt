//! Laws of records. None of these functions does anything: its contract is the law.
ghost use Rattle.sf_records.specs.Copied.{CopyingTwiceIsCopyingOnce, JoinedTextsGiveTheirRows};
ghost use Rattle.sf_records.specs.Laws.{EachHasOneEnd};
ghost use Rattle.sf_records.specs.ReadingBack.{RecordsReadBack, WrittenReadsBack};

pub use sf_forms::laws::{
    csv_reads_back, headed_records_are_rows, json_is_utf8, json_objects_read_back, json_reads_back,
    missing_values_read_back, names_read_back, records_are_given, records_are_rows, tsv_reads_back,
};
use sf_pair::laws::{ends_on_nothing, fits_is_fit, prints_some, round_trip, slots_agree};
use sf_read::Source;
use sf_run::laws::{done_runs_have_rows, one_report};

/// The records of an input by a format have one output, use so many bytes and end in one way, whatever is made of each.
pub fn one_end()
    ensures { EachHasOneEnd }
{
    one_report();
}

/// The records of the joined texts of values that fit a pair are these values, and the loop over them ends cleanly; a
/// copy of the texts is the same texts.
pub fn joined_texts()
    ensures { JoinedTextsGiveTheirRows }
{
    round_trip();
    slots_agree();
    prints_some();
    ends_on_nothing();
    fits_is_fit();
}

/// Where a copy has ended cleanly, a copy of what it wrote ends cleanly and writes the same.
pub fn copied_twice()
    ensures { CopyingTwiceIsCopyingOnce }
{
    round_trip();
    slots_agree();
    prints_some();
    ends_on_nothing();
    fits_is_fit();
}

/// What `run_records` wrote by an accepted format, with a maker of records in a form, of the records of an input of
/// bytes, is the records of what the input's runs gave to the slots. They read back as that: the texts of the values
/// from a table or from rows of comma-separated values, and the values from JSON. The names, and the column of the
/// format's number, are read too. Where the sink failed, a part of one more record follows.
pub fn records_read_back<S: Source>()
    ensures { RecordsReadBack S.to_come }
{
    done_runs_have_rows();
    records_are_given();
    missing_values_read_back();
    names_read_back();
    tsv_reads_back();
}

/// The same of what `run_scan_as` wrote.
pub fn written_reads_back<S: Source>()
    ensures { WrittenReadsBack S.to_come }
{
    records_read_back::<S>();
}
