//! Lines whose records are written as they are read.
ghost use Rattle.std.specs.Prelude.{◌≡◌, ◌++◌, ◌+◌, ◌-◌, ◌<◌, ◌≤◌, ℕ, List, Option, Some, IfSome, IsSome, length, take};
ghost use Rattle.std.specs.Prelude.{drop, false};
ghost use Rattle.sf_format.specs.Proper.{AreInOrder};
ghost use Rattle.sf_forms.specs.declared.form.OutputForm.{OutputForm};
ghost use Rattle.sf_forms.specs.makers.Forms.{IsBare};
ghost use Rattle.sf_read.specs.line.Reading.{IsHeld};
ghost use Rattle.sf_run.specs.Runs.{RunReport};
ghost use Rattle.sf_records.specs.by_lines.InPlace.{AreLineRecords, CanFollowLine, IsLineRecord, WritesLines};

use crate::by_lines::formats::LineFormats;
use crate::by_lines::options::LinesOptions;
use crate::in_place::{form_in_place, write_runs_in};
use sf_base::run_before;
use sf_format::ScanFormat;
use sf_forms::{Maker, OutputForm};
use sf_print::{Sink, WritesInPlace};
use sf_read::{Lookahead, Source};

/// In which form the records of the lines may be written as they are read, by this format, which is the first of those
/// that are tried. None where there is another one, or lines are passed over, or where its records can't be written so,
/// and where a line may lack a value: such a line would be read twice.
pub(crate) fn form_of_lines<M: Maker>(
    maker: &M,
    format: &ScanFormat,
    formats: &LineFormats<'_>,
    options: &LinesOptions,
) -> Option<OutputForm>
    ensures ignored { IsSome result → length formats.now.ignored.now ≡ 0 }
    ensures form { (form : OutputForm) → result ≡ Some form → (number : ℕ) (report : RunReport)
        → IsBare form (M.work maker.now number format.now) format.now report }
    ensures order { (form : OutputForm) → result ≡ Some form → AreInOrder format.now }
{
    if options.matching || format.has_optional() {
        return None;
    }
    if formats.tried.len() > 1 || formats.ignored.len() > 0 {
        return None;
    }
    form_in_place(maker, format)
}

/// The length of the line that the piece begins with, where its newline stands in the piece.
#[inline(always)]
fn line_len(piece: &[u8]) -> Option<usize>
    ensures held { IfSome result (IsHeld piece.now) }
    ensures answers { (len : ℕ) → IsHeld piece.now len → result ≡ Some len }
{
    let len = run_before(b'\n', piece);
    if len < piece.len() { Some(len) } else { None }
}

/// A line whose record is written.
#[derive(Clone, Copy)]
struct WrittenLine {
    /// How many bytes it has, with its newline.
    bytes: usize,
    /// Where its record ends.
    end: usize,
}

/// Scans the line that the piece begins with, and writes its record in this form as it is read. None where the line
/// isn't held with its newline, isn't seen to match, or there is no room.
#[inline(always)]
fn write_line(
    form: OutputForm,
    format: &ScanFormat,
    options: &LinesOptions,
    piece: &[u8],
    room: &mut [u8],
) -> Option<WrittenLine>
    ensures written { IfSome result (λ line. IsLineRecord form format.now options.now piece.now line.bytes
        (take line.end room.new)) }
    ensures within { IfSome result (λ line. line.bytes ≤ length piece.now) }
    ensures place { IfSome result (λ line. line.end ≤ length room.new) }
    ensures answers { CanFollowLine form format.now options.now piece.now (length room.old) → IsSome result }
{
    // What this has for each format: it is accepted.
    let _ = format.destinations();
    let runs = write_runs_in(form, format, options.limit, piece, room, 1);
    if runs.records == 0 {
        return None;
    }
    let len = line_len(piece)?;
    if len < runs.used || (options.limit as usize) < len {
        return None;
    }
    if options.whole && runs.used < len {
        return None;
    }
    Some(WrittenLine {
        bytes: len + 1,
        end: runs.end,
    })
}

/// As `write_line`, after the first `end` bytes of the room, which stay.
#[inline(always)]
fn write_after(
    form: OutputForm,
    format: &ScanFormat,
    options: &LinesOptions,
    piece: &[u8],
    room: &mut [u8],
    end: usize,
) -> Option<WrittenLine>
    requires { end ≤ length room.old }
    ensures written { IfSome result (λ line. (bytes : List ℕ)
        × IsLineRecord form format.now options.now piece.now line.bytes bytes
        × (take (end + line.end) room.new ≡ take end room.old ++ bytes)) }
    ensures within { IfSome result (λ line. line.bytes ≤ length piece.now) }
    ensures place { IfSome result (λ line. end + line.end ≤ length room.new) }
    ensures before { take end room.new ≡ take end room.old }
    ensures answers { CanFollowLine form format.now options.now piece.now (length room.old - end) → IsSome result }
{
    write_line(form, format, options, piece, &mut room[end..])
}

/// Lines whose records are written, one after the other.
#[derive(Clone, Copy)]
struct WrittenLines {
    /// How many they are.
    lines: u64,
    /// How many bytes they have, with their newlines.
    used: usize,
    /// Where the last record ends.
    end: usize,
}

/// Scans the lines at the front of the piece, at most so many, and writes their records in this form as they are read.
/// It stops before one for which `write_line` answers nothing.
#[inline(always)]
fn write_each(
    form: OutputForm,
    format: &ScanFormat,
    options: &LinesOptions,
    piece: &[u8],
    room: &mut [u8],
    most: u64,
) -> WrittenLines
    ensures runs { AreLineRecords form format.now options.now piece.now result.lines result.used
        (take result.end room.new) }
    ensures most { result.lines ≤ most }
    ensures used { result.used ≤ length piece.now }
    ensures place { result.end ≤ length room.new }
    ensures answers { result.lines < most → CanFollowLine form format.now options.now (drop result.used piece.now)
        (length room.new - result.end) → ⊥ }
{
    let mut runs = WrittenLines {
        lines: 0,
        used: 0,
        end: 0,
    };
    while runs.lines < most {
        let (_, rest) = piece.split_at(runs.used);
        let Some(line) = write_after(form, format, options, rest, room, runs.end) else {
            return runs;
        };
        runs.lines += 1;
        runs.used += line.bytes;
        runs.end += line.end;
    }
    runs
}

/// Lines at the front of a piece whose records are written as they are read.
#[derive(Drop)]
struct LineRuns<'a> {
    form: OutputForm,
    format: &'a ScanFormat,
    options: &'a LinesOptions,
    piece: &'a [u8],
    /// The most that are written.
    most: u64,
    /// How many are, and how many bytes they have with their newlines.
    lines: u64,
    used: usize,
}

impl WritesInPlace for LineRuns<'_> {
    ghost Writes = { λ old new text. (new.lines ≤ old.most) × (new.used ≤ length old.piece.now)
        × AreLineRecords old.form old.format.now old.options.now old.piece.now new.lines new.used text };

    ghost Surely = { λ runs room. (0 < runs.most)
        × CanFollowLine runs.form runs.format.now runs.options.now runs.piece.now room };

    #[inline(always)]
    fn write_in(&mut self, room: &mut [u8]) -> Option<usize> {
        let runs = write_each(
            self.form,
            self.format,
            self.options,
            self.piece,
            room,
            self.most,
        );
        if runs.lines == 0 {
            return None;
        }
        self.lines = runs.lines;
        self.used = runs.used;
        Some(runs.end)
    }
}

/// Scans the lines that are held whole, at most so many, and writes their records in this form as they are read.
/// Answers how many: they are consumed. It stops before one that isn't seen to match, or for which the sink has no
/// room.
#[inline(never)]
fn write_held_in<S: Source, K: Sink, const N: usize>(
    form: OutputForm,
    from: &mut Lookahead<S, N>,
    to: &mut K,
    format: &ScanFormat,
    options: &LinesOptions,
    most: u64,
) -> u64
    ensures most { result ≤ most }
    ensures open { 0 < result → from.old.at_end ≡ false }
    ensures written { WritesLines form format.now options.now from.old from.new (K.contents to.old) (K.contents to.new)
        result }
    ensures failures { K.failures to.new ≡ K.failures to.old }
{
    if from.is_at_end() {
        return 0;
    }
    let mut runs = LineRuns {
        form,
        format,
        options,
        piece: from.held(),
        most,
        lines: 0,
        used: 0,
    };
    if !to.lend(&mut runs) {
        return 0;
    }
    let (lines, used) = (runs.lines, runs.used);
    from.consume(used);
    lines
}

/// As `write_held_in`, after so many lines, where a form is asked for and no line is skipped.
#[inline(always)]
pub(crate) fn write_lines<S: Source, K: Sink, const N: usize>(
    asked: Option<OutputForm>,
    from: &mut Lookahead<S, N>,
    to: &mut K,
    format: &ScanFormat,
    options: &LinesOptions,
    before: u64,
) -> u64
    ensures most { before + result ≤ 18446744073709551615 }
    ensures open { 0 < result → from.old.at_end ≡ false }
    ensures skip { 0 < result → options.now.skip ≤ before }
    ensures written { (form : OutputForm) × (0 < result → asked ≡ Some form) × WritesLines form format.now options.now
        from.old from.new (K.contents to.old) (K.contents to.new) result }
    ensures failures { K.failures to.new ≡ K.failures to.old }
{
    match asked {
        Some(form) if options.skip <= before => {
            write_held_in(form, from, to, format, options, u64::MAX - before)
        }
        _ => 0,
    }
}
