//! The records of an input, each written in a form.
ghost use Rattle.std.specs.Prelude.{◌≡◌, ◌≤◌, ℕ, List, Some, true, if◌then◌else◌};
ghost use Rattle.sf_print.specs.sink.Sinks.{counted_on};
ghost use Rattle.sf_read.specs.source.Ahead.{input_of};
ghost use Rattle.sf_records.specs.Judging.{is_write};
ghost use Rattle.sf_records.specs.Forms.{writing};
ghost use Rattle.sf_records.specs.Lines.{scanning};
ghost use Rattle.sf_records.specs.Records.{Loops, status_by};

use crate::end::ToolEnd;
use crate::records::run_records;
use sf_format::ScanFormat;
use sf_forms::{FormMaker, OutputForm};
use sf_print::Sink;
use sf_read::{Lookahead, Source};
use std::alloc::Global;

/// Scans record after record of what the lookahead holds and its source gives, by runs of at most `limit` bytes, and
/// writes a line for each: the values of its slots, joined by blanks. It ends cleanly where fscanf would return EOF at
/// the end of the input (C11 7.21.6.2p16); else it reports why, and the lines of the records before stand. What the
/// runs did not use stays held or unread.
pub fn run_scan<S: Source, K: Sink, const N: usize>(
    alloc: Global,
    from: &mut Lookahead<S, N>,
    to: &mut K,
    format: &ScanFormat,
    limit: u32,
) -> ToolEnd
    requires { limit ≤ 2147483647 }
    ensures loops { (t : List ℕ) → input_of S.to_come from.old ≡ Some t
        → Loops (scanning format.now) S.to_come format.now limit t from.new (S.failures from.old.source)
        (S.failures from.new.source) (K.contents to.old) (K.contents to.new) result }
    ensures status { result.status ≡ status_by result.fault }
    ensures sink { K.failures to.new
        ≡ (if is_write result.fault then counted_on (K.failures to.old) else K.failures to.old) }
    ensures no_read { from.old.at_end ≡ true → from.new.source ≡ from.old.source }
    ensures stays { from.old.at_end ≡ true → from.new.at_end ≡ true }
{
    run_scan_as(alloc, from, to, format, OutputForm::Plain, limit)
}

/// As `run_scan`, but each record is written in this form.
pub fn run_scan_as<S: Source, K: Sink, const N: usize>(
    alloc: Global,
    from: &mut Lookahead<S, N>,
    to: &mut K,
    format: &ScanFormat,
    form: OutputForm,
    limit: u32,
) -> ToolEnd
    requires { limit ≤ 2147483647 }
    ensures loops { (t : List ℕ) → input_of S.to_come from.old ≡ Some t
        → Loops (writing form format.now) S.to_come format.now limit t from.new (S.failures from.old.source)
        (S.failures from.new.source) (K.contents to.old) (K.contents to.new) result }
    ensures status { result.status ≡ status_by result.fault }
    ensures sink { K.failures to.new
        ≡ (if is_write result.fault then counted_on (K.failures to.old) else K.failures to.old) }
    ensures no_read { from.old.at_end ≡ true → from.new.source ≡ from.old.source }
    ensures stays { from.old.at_end ≡ true → from.new.at_end ≡ true }
{
    let mut maker = FormMaker::new(alloc, form);
    run_records(alloc, from, to, &mut maker, format, limit)
}
