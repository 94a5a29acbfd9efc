//! The records of an input, printed by the other format of a pair, or by a print format.
ghost use Rattle.std.specs.Prelude.{◌≡◌, ◌≤◌, ℕ, List, Some, true, if◌then◌else◌};
ghost use Rattle.sf_print.specs.sink.Sinks.{counted_on};
ghost use Rattle.sf_read.specs.source.Ahead.{input_of};
ghost use Rattle.sf_records.specs.Copies.{copying, printing};
ghost use Rattle.sf_records.specs.Judging.{is_write};
ghost use Rattle.sf_records.specs.Records.{Loops, status_by};

use crate::copy_maker::CopyMaker;
use crate::end::ToolEnd;
use crate::records::run_records;
use sf_format::{PrintFormat, ScanFormat};
use sf_forms::PrintMaker;
use sf_pair::Pair;
use sf_print::Sink;
use sf_read::{Lookahead, Source};
use std::alloc::Global;

/// Copies record after record of what the lookahead holds and its source gives, by runs of at most `limit` bytes: scans
/// it by the pair's scan format, and prints its values by the print format. A record whose values don't fit the pair
/// ends the copy, and nothing is written for it. It ends cleanly where fscanf would return EOF at the end of the input
/// (C11 7.21.6.2p16); else it reports why, and the records before stand. What the runs did not use stays held or
/// unread.
///
/// A copy that ended cleanly is read back: copied again, by a limit that no text of its records passes, it stays
/// as it is.
pub fn run_copy<S: Source, K: Sink, const N: usize>(
    alloc: Global,
    from: &mut Lookahead<S, N>,
    to: &mut K,
    pair: &Pair<'_>,
    limit: u32,
) -> ToolEnd
    requires { limit ≤ 2147483647 }
    ensures loops { (t : List ℕ) → input_of S.to_come from.old ≡ Some t
        → Loops (copying pair.now.print pair.now.scan) S.to_come pair.now.scan limit t from.new
        (S.failures from.old.source) (S.failures from.new.source) (K.contents to.old) (K.contents to.new)
        result }
    ensures status { result.status ≡ status_by result.fault }
    ensures sink { K.failures to.new
        ≡ (if is_write result.fault then counted_on (K.failures to.old) else K.failures to.old) }
    ensures no_read { from.old.at_end ≡ true → from.new.source ≡ from.old.source }
    ensures stays { from.old.at_end ≡ true → from.new.at_end ≡ true }
{
    let mut maker = CopyMaker::new(pair);
    run_records(alloc, from, to, &mut maker, pair.scan(), limit)
}

/// Prints record after record of what the lookahead holds and its source gives, by runs of at most `limit` bytes:
/// scans it by the scan format, and prints its values by the print format, each number as one of the kind that the
/// print format has there. No pair is asked for. A record whose values the print format can't print ends the loop, and
/// nothing is written for it: where `sf_forms::check_print` accepts the formats, one whose text for `c` hasn't one
/// byte, or whose printed text is longer than one may be. It ends as `run_copy` does.
pub fn run_scan_print<S: Source, K: Sink, const N: usize>(
    alloc: Global,
    from: &mut Lookahead<S, N>,
    to: &mut K,
    format: &ScanFormat,
    print: &PrintFormat,
    limit: u32,
) -> ToolEnd
    requires { limit ≤ 2147483647 }
    ensures loops { (t : List ℕ) → input_of S.to_come from.old ≡ Some t
        → Loops (printing print.now format.now) S.to_come format.now limit t from.new (S.failures from.old.source)
        (S.failures from.new.source) (K.contents to.old) (K.contents to.new) result }
    ensures status { result.status ≡ status_by result.fault }
    ensures sink { K.failures to.new
        ≡ (if is_write result.fault then counted_on (K.failures to.old) else K.failures to.old) }
    ensures no_read { from.old.at_end ≡ true → from.new.source ≡ from.old.source }
    ensures stays { from.old.at_end ≡ true → from.new.at_end ≡ true }
{
    let mut maker = PrintMaker::new(print);
    run_records(alloc, from, to, &mut maker, format, limit)
}
