//! The loop over the lines of an input.
ghost use Rattle.std.specs.Prelude.{◌≡◌, ◌≤◌, ◌<◌, ℕ, List, Some, IfOk, true, max, length, if◌then◌else◌};
ghost use Rattle.std.specs.List.{AllByRecursion};
ghost use Rattle.sf_base.specs.stores.Kept.{nothing_kept};
ghost use Rattle.sf_format.specs.Proper.{AreProper};
ghost use Rattle.sf_print.specs.sink.Sinks.{counted_on};
ghost use Rattle.sf_read.specs.source.Ahead.{input_of};
ghost use Rattle.sf_records.specs.by_lines.Loops.{Loops, TellsLines, is_write, status_by};
ghost use Rattle.sf_records.specs.by_lines.Rooms.{most_width, width_of};
ghost use Rattle.sf_records.specs.by_lines.Telling.{faults_by};
ghost use Rattle.sf_records.specs.by_lines.Turns.{LineWork, work_of};
ghost use Rattle.sf_records.specs.declared.by_lines.end.LineFault.{LineFault};

use crate::by_lines::end::{Counts, LinesEnd, LinesFault, next_step};
use crate::by_lines::formats::LineFormats;
use crate::by_lines::in_place::{form_of_lines, write_lines};
use crate::by_lines::options::LinesOptions;
use crate::by_lines::teller::Teller;
use crate::by_lines::turn::turn;
use sf_base::HeapStore;
use sf_format::ScanFormat;
use sf_forms::Maker;
use sf_print::Sink;
use sf_read::{Lookahead, Source};
use sf_run::laws::done_runs_stay;
use std::alloc::{AllocError, Global};

/// The most lines that one loop reads.
const MOST_LINES: u64 = 18446744073709551615;

/// The room that is made at once for the texts of a line where a format leaves their lengths open: that of some short
/// ones.
const TEXT_BYTES: u32 = 64;

/// The bytes of text that a format stores at most, where it has a sum of widths; else those of some short texts.
fn width_of(format: &ScanFormat) -> u32
    ensures proper { AreProper format.now }
    ensures width { result ≡ width_of format.now }
{
    if format.destinations() == 0 {
        return 0;
    }
    format.width_sum().unwrap_or(TEXT_BYTES)
}

/// The greater of two widths.
fn wider(one: u32, other: u32) -> u32
    ensures { result ≡ max one other }
{
    if one < other { other } else { one }
}

/// The room that is made at once for the texts of a line: the greatest of the formats' widths.
fn room_for(formats: &[ScanFormat]) -> u32
    ensures proper { AllByRecursion AreProper formats.now }
    ensures most { result ≡ most_width formats.now }
{
    let mut room = 0;
    for format in formats {
        room = wider(room, width_of(format));
    }
    room
}

/// The store for the texts of the lines.
fn store_for(alloc: Global, formats: &LineFormats<'_>) -> Result<HeapStore, AllocError>
    ensures ignored { AllByRecursion AreProper formats.now.ignored.now }
    ensures proper { AllByRecursion AreProper formats.now.tried.now }
    ensures room { IfOk result (λ store. store
        ≡ nothing_kept (max (most_width formats.now.ignored.now) (most_width formats.now.tried.now))) }
{
    HeapStore::new(
        alloc,
        wider(room_for(formats.ignored), room_for(formats.tried)),
    )
}

/// Scans each line of what the lookahead holds and its source gives as an input of its own, as C programs do with fgets
/// and sscanf (C11 7.21.7.2, 7.21.6.7): up to byte 10, which is no part of it, or to the end of the input.
///
/// - The first lines are passed over, as many as `skip` is.
/// - A line of more than `limit` bytes fails, by its first ones, and is reported once more of it were met.
/// - A line that one of `ignored` is Done on, and uses whole, is passed over.
/// - Of any other the first of `tried` counts that it matches: that is Done on it, and, with `whole`, uses all of it.
///   The maker writes what it makes of that; where the values don't fit, the line fails.
/// - A line that matches none fails by the last of them. With `matching` it is passed over instead, unless the last one
///   met a number out of range.
///
/// Each line that fails goes to the teller, and the loop stops there, unless it is to keep going. Where the teller is
/// refused memory, the loop ends with that fault, and the line isn't counted. What is after the lines that were read
/// stays held or unread. The rest of a line above the limit is passed over, and takes no memory, where the loop keeps
/// going; else nothing more is read, and the rest stays held or unread too. Where the source fails in that rest, the
/// line counts as one that fails, and the loop ends with that fault.
///
/// The status is 0 where no line fails, 1 where one does, 3 where a read or the sink failed, and 4 where memory
/// was refused.
pub fn run_lines<M: Maker, E: Teller<K>, S: Source, K: Sink, const N: usize>(
    alloc: Global,
    from: &mut Lookahead<S, N>,
    to: &mut K,
    maker: &mut M,
    teller: &mut E,
    formats: &LineFormats<'_>,
    options: LinesOptions,
) -> LinesEnd
    requires limit { options.limit ≤ 2147483647 }
    requires some { 0 < length formats.now.tried.now }
    ensures loops { (telling : ℕ → List ℕ → LineFault → List ℕ) (t : List ℕ) → E.says teller.old telling
        → input_of S.to_come from.old ≡ Some t
        → Loops (work_of options formats.now.ignored.now formats.now.tried.now (M.work maker.old) telling) S.to_come t
        from.new (S.failures from.old.source) (S.failures from.new.source) (K.contents to.old) (K.contents to.new)
        (E.failed teller.new) (E.told teller.old) (E.told teller.new) result }
    ensures tells { (telling : ℕ → List ℕ → LineFault → List ℕ) (t : List ℕ) → E.says teller.old telling
        → input_of S.to_come from.old ≡ Some t
        → TellsLines (work_of options formats.now.ignored.now formats.now.tried.now (M.work maker.old) telling)
        S.to_come t from.new (S.failures from.old.source) (S.failures from.new.source) (K.contents to.old)
        (K.contents to.new)
        (E.failed teller.old) (E.failed teller.new) (E.told teller.old) (E.told teller.new) result }
    ensures kept { E.kept teller.new ≡ E.kept teller.old }
    ensures faults { E.faults teller.new ≡ faults_by (E.failed teller.old) (E.failed teller.new) (E.faults teller.old) }
    ensures status { result.status ≡ status_by result.failed result.fault }
    ensures sink { K.failures to.new
        ≡ (if is_write result.fault then counted_on (K.failures to.old) else K.failures to.old) }
    ensures no_read { from.old.at_end ≡ true → from.new.source ≡ from.old.source }
    ensures stays { from.old.at_end ≡ true → from.new.at_end ≡ true }
{
    let mut counts = Counts {
        written: 0,
        failed: 0,
    };
    let Ok(made) = store_for(alloc, formats) else {
        return counts.ended(Some(LinesFault::Memory));
    };
    let mut store = Some(made);
    let mut line = Vec::new(alloc);
    let format = &formats.tried[0];
    let asked = form_of_lines(maker, format, formats, &options);
    done_runs_stay();
    let mut number = 0;
    'lines: loop {
        let passed = write_lines(asked, from, to, format, &options, number);
        counts.written += passed;
        let before = number + passed;
        if before == MOST_LINES {
            return counts.ended(Some(LinesFault::TooMany));
        }
        number = before + 1;
        let judged = turn(
            alloc, from, &mut line, &mut store, to, maker, teller, formats, &options, before,
        );
        counts = counts.with(&judged);
        match next_step(judged, options.keep_going, number) {
            Ok(()) => {}
            Err(fault) => return counts.ended(fault),
        }
    }
}
