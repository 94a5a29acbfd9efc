//! What comes of the next line of an input.
ghost use Rattle.std.specs.Prelude.{◌≡◌, ◌≤◌, ◌<◌, ◌+◌, ◌-◌, ◌^◌, ◌++◌, ◌∷◌, false, ℕ, List, Some, IfSome, true};
ghost use Rattle.std.specs.Prelude.{length, take, if◌then◌else◌};
ghost use Rattle.std.specs.List.{AllByRecursion};
ghost use Rattle.sf_format.specs.Proper.{AreProper};
ghost use Rattle.sf_print.specs.sink.Sinks.{counted_on};
ghost use Rattle.sf_records.specs.by_lines.Coming.{Passes, PassesRest, Turns, TurnsLong, is_read_fault};
ghost use Rattle.sf_read.specs.line.Cut.{IsLine};
ghost use Rattle.sf_records.specs.by_lines.Judging.{is_write_fault};
ghost use Rattle.sf_read.specs.line.Reading.{IsHeld};
ghost use Rattle.sf_records.specs.by_lines.Telling.{Stays};
ghost use Rattle.sf_records.specs.by_lines.Turns.{LineWork, work_of};
ghost use Rattle.sf_records.specs.declared.by_lines.end.LineFault.{LineFault};

use crate::by_lines::end::LineFault;
use crate::by_lines::formats::LineFormats;
use crate::by_lines::judge::{Judged, judge};
use crate::by_lines::options::LinesOptions;
use crate::by_lines::teller::Teller;
use sf_base::HeapStore;
use sf_forms::Maker;
use sf_print::Sink;
use sf_read::{LineRead, Lookahead, Source, held_line, next_line, read_front};
use std::alloc::Global;

/// How many bytes after a line are looked at with it: its newline and some of the next line, so that the last item of
/// the line is read at once, as the others are.
const BYTES_AFTER: usize = 17;

/// Takes the next line, of so many bytes, and judges it where it stands.
#[inline(always)]
fn take_held<M: Maker, E: Teller<K>, S: Source, K: Sink, const N: usize>(
    alloc: Global,
    from: &mut Lookahead<S, N>,
    len: usize,
    store: &mut Option<HeapStore>,
    to: &mut K,
    maker: &mut M,
    teller: &mut E,
    formats: &LineFormats<'_>,
    options: &LinesOptions,
    number: u64,
) -> Judged
    requires ignored { AllByRecursion AreProper formats.now.ignored.now }
    requires proper { AllByRecursion AreProper formats.now.tried.now }
    requires open { from.old.at_end ≡ false }
    requires held { IsHeld from.old.held len }
    requires short { len ≤ options.now.limit }
    requires counts { options.now.skip < number }
    ensures same { M.work maker.new ≡ M.work maker.old }
    ensures turns { (telling : ℕ → List ℕ → LineFault → List ℕ) → E.says teller.old telling
        → Turns S.to_come from.old from.new
        (work_of options.now formats.now.ignored.now formats.now.tried.now (M.work maker.old) telling) number
        (K.contents to.old) (K.contents to.new) (E.failed teller.old) (E.failed teller.new) (E.told teller.old)
        (E.told teller.new) result }
    ensures stays { Stays E.says E.kept E.failed E.faults teller.old teller.new }
    ensures source { S.failures from.new.source
        ≡ (if is_read_fault result then counted_on (S.failures from.old.source) else S.failures from.old.source) }
    ensures sink { K.failures to.new
        ≡ (if is_write_fault result then counted_on (K.failures to.old) else K.failures to.old) }
    ensures no_read { from.new.source ≡ from.old.source }
    ensures ended { from.new.at_end ≡ from.old.at_end }
{
    let held = from.held();
    let (seen, _) = held.split_at(held.len().min(len + BYTES_AFTER));
    let (line, _) = held.split_at(len);
    let judged = judge(
        alloc, store, line, seen, number, to, maker, teller, formats, options,
    );
    from.consume(len + 1);
    judged
}

/// Takes the rest of a line: passes over it, if the loop is to keep going. It takes no memory.
fn pass_rest<S: Source, const N: usize>(
    from: &mut Lookahead<S, N>,
    line: &mut Vec<u8>,
    keep_going: bool,
) -> Judged
    ensures rest { PassesRest S.to_come from.old from.new keep_going result }
    ensures source { S.failures from.new.source
        ≡ (if is_read_fault result then counted_on (S.failures from.old.source) else S.failures from.old.source) }
    ensures sound { is_write_fault result ≡ false }
    ensures no_read { from.old.at_end ≡ true → from.new.source ≡ from.old.source }
    ensures ended { from.old.at_end ≡ true → from.new.at_end ≡ true }
{
    if !keep_going {
        return Judged::Cut(LineRead::TooLong);
    }
    let read = next_line(from, line, 0);
    match read {
        LineRead::Line | LineRead::TooLong | LineRead::End => Judged::Failed,
        _ => Judged::Cut(read),
    }
}

/// Reports the line with this number, which is above the limit and of which more bytes than that were taken. Then its
/// rest is passed over, if the loop is to keep going.
fn tell_long<E: Teller<K>, S: Source, K: Sink, const N: usize>(
    from: &mut Lookahead<S, N>,
    line: &mut Vec<u8>,
    to: &mut K,
    teller: &mut E,
    options: &LinesOptions,
    number: u64,
) -> Judged
    requires counts { options.now.skip < number }
    ensures turns { (w : LineWork) → w.options ≡ options.now → E.says teller.old w.telling
        → TurnsLong S.to_come from.old from.new w number line.old.items (K.contents to.old) (K.contents to.new)
        (E.failed teller.old) (E.failed teller.new) (E.told teller.old) (E.told teller.new) result }
    ensures stays { Stays E.says E.kept E.failed E.faults teller.old teller.new }
    ensures source { S.failures from.new.source
        ≡ (if is_read_fault result then counted_on (S.failures from.old.source) else S.failures from.old.source) }
    ensures sink { K.failures to.new ≡ K.failures to.old }
    ensures sound { is_write_fault result ≡ false }
    ensures no_read { from.old.at_end ≡ true → from.new.source ≡ from.old.source }
    ensures ended { from.old.at_end ≡ true → from.new.at_end ≡ true }
{
    match teller.tell(to, number, line, LineFault::TooLong) {
        Ok(()) => pass_rest(from, line, options.keep_going),
        Err(_) => Judged::Unread(LineRead::NoMemory),
    }
}

/// Reads the line with this number, and judges it. One above the limit is reported as soon as it is.
fn read_line<M: Maker, E: Teller<K>, S: Source, K: Sink, const N: usize>(
    alloc: Global,
    from: &mut Lookahead<S, N>,
    line: &mut Vec<u8>,
    store: &mut Option<HeapStore>,
    to: &mut K,
    maker: &mut M,
    teller: &mut E,
    formats: &LineFormats<'_>,
    options: &LinesOptions,
    number: u64,
) -> Judged
    requires ignored { AllByRecursion AreProper formats.now.ignored.now }
    requires proper { AllByRecursion AreProper formats.now.tried.now }
    requires counts { options.now.skip < number }
    ensures same { M.work maker.new ≡ M.work maker.old }
    ensures turns { (telling : ℕ → List ℕ → LineFault → List ℕ) → E.says teller.old telling
        → Turns S.to_come from.old from.new
        (work_of options.now formats.now.ignored.now formats.now.tried.now (M.work maker.old) telling) number
        (K.contents to.old) (K.contents to.new) (E.failed teller.old) (E.failed teller.new) (E.told teller.old)
        (E.told teller.new) result }
    ensures stays { Stays E.says E.kept E.failed E.faults teller.old teller.new }
    ensures source { S.failures from.new.source
        ≡ (if is_read_fault result then counted_on (S.failures from.old.source) else S.failures from.old.source) }
    ensures sink { K.failures to.new
        ≡ (if is_write_fault result then counted_on (K.failures to.old) else K.failures to.old) }
    ensures no_read { from.old.at_end ≡ true → from.new.source ≡ from.old.source }
    ensures ended { from.old.at_end ≡ true → from.new.at_end ≡ true }
{
    let read = read_front(from, line, options.limit as usize);
    match read {
        LineRead::Line => judge(
            alloc, store, line, line, number, to, maker, teller, formats, options,
        ),
        LineRead::TooLong => tell_long(from, line, to, teller, options, number),
        _ => Judged::Unread(read),
    }
}

/// Passes over the next line.
fn pass_line<S: Source, const N: usize>(from: &mut Lookahead<S, N>, line: &mut Vec<u8>) -> Judged
    ensures passes { Passes S.to_come from.old from.new result }
    ensures source { S.failures from.new.source
        ≡ (if is_read_fault result then counted_on (S.failures from.old.source) else S.failures from.old.source) }
    ensures sound { is_write_fault result ≡ false }
    ensures no_read { from.old.at_end ≡ true → from.new.source ≡ from.old.source }
    ensures ended { from.old.at_end ≡ true → from.new.at_end ≡ true }
{
    let read = next_line(from, line, 0);
    match read {
        LineRead::Line | LineRead::TooLong => Judged::Skipped,
        _ => Judged::Unread(read),
    }
}

/// Takes the line after the first `before`. One that is to be skipped is passed over, and takes no memory. Any other is
/// judged, where it stands if it is held whole: then it is not copied.
pub(crate) fn turn<M: Maker, E: Teller<K>, S: Source, K: Sink, const N: usize>(
    alloc: Global,
    from: &mut Lookahead<S, N>,
    line: &mut Vec<u8>,
    store: &mut Option<HeapStore>,
    to: &mut K,
    maker: &mut M,
    teller: &mut E,
    formats: &LineFormats<'_>,
    options: &LinesOptions,
    before: u64,
) -> Judged
    requires ignored { AllByRecursion AreProper formats.now.ignored.now }
    requires proper { AllByRecursion AreProper formats.now.tried.now }
    requires few { before < 2 ^ 64 - 1 }
    ensures same { M.work maker.new ≡ M.work maker.old }
    ensures turns { (telling : ℕ → List ℕ → LineFault → List ℕ) → E.says teller.old telling
        → Turns S.to_come from.old from.new
        (work_of options.now formats.now.ignored.now formats.now.tried.now (M.work maker.old) telling) (before + 1)
        (K.contents to.old) (K.contents to.new) (E.failed teller.old) (E.failed teller.new) (E.told teller.old)
        (E.told teller.new) result }
    ensures stays { Stays E.says E.kept E.failed E.faults teller.old teller.new }
    ensures source { S.failures from.new.source
        ≡ (if is_read_fault result then counted_on (S.failures from.old.source) else S.failures from.old.source) }
    ensures sink { K.failures to.new
        ≡ (if is_write_fault result then counted_on (K.failures to.old) else K.failures to.old) }
    ensures no_read { from.old.at_end ≡ true → from.new.source ≡ from.old.source }
    ensures ended { from.old.at_end ≡ true → from.new.at_end ≡ true }
    ensures uncopied { (whole rest : List ℕ) → IsLine whole → from.old.held ≡ whole ++ 10 ∷ rest
        → length whole ≤ options.now.limit
        → options.now.skip ≤ before → line.new ≡ line.old }
{
    if before < options.skip {
        return pass_line(from, line);
    }
    match held_line(from, options.limit as usize) {
        Some(len) => take_held(
            alloc,
            from,
            len,
            store,
            to,
            maker,
            teller,
            formats,
            options,
            before + 1,
        ),
        None => read_line(
            alloc,
            from,
            line,
            store,
            to,
            maker,
            teller,
            formats,
            options,
            before + 1,
        ),
    }
}
