//! Runs that begin and pass within a piece of the input, read at once, whose values are written as they are read.
ghost use Rattle.std.specs.Prelude.{◌≡◌, ◌≢◌, ◌↔◌, ◌<◌, ◌≤◌, ◌+◌, ◌-◌, ◌++◌, ℕ, List, [], length, slice_get, take};
ghost use Rattle.std.specs.Prelude.{drop, true, false, Some, IfSome, IsNone, IsSome};
ghost use Rattle.sf_base.specs.Data.{Assigned, Bytes, Datum, Real as RealOf, datum_of_number};
ghost use Rattle.sf_format.specs.declared.directive.Directive.{Directive};
ghost use Rattle.sf_format.specs.Layout.{row_of};
ghost use Rattle.sf_format.specs.Proper.{AreInOrder, has_group};
ghost use Rattle.sf_report.specs.Runs.{passed};
ghost use Rattle.sf_report.specs.Steps.{StepEnd};
ghost use Rattle.sf_run.specs.Phases.{IsNumberGiven, end_of};
ghost use Rattle.sf_run.specs.Pieces.{EndsAtOnce, EndsWithAll};
ghost use Rattle.sf_run.specs.Texts.{IsSound};
ghost use Rattle.sf_run.specs.Quick.{IsDoneWithin, IsSure};
ghost use Rattle.sf_run.specs.Written.{AreRecords, CanFollow, IsRecord, IsWritten, IsWrittenSurely, PassesWriting};
ghost use Rattle.sf_run.specs.Written.{text_given, texts_by};

use crate::directive::{
    Ended, EndedColumn, Finished, ReadReal, byte_at_once, characters_at_once, ended_within,
    members_at_once, number_at_once, rarer_at_once, real_at_once, strict_number_at_once,
    strict_text_at_once, text_at_once, until_at_once, whole_space,
};
use crate::number::real_within;
use sf_base::{Number, Real};
use sf_format::{Base, Directive, Lead, Row, ScanFormat, Way};

/// Writes the values of a run, each into room that is lent for it.
pub trait ValueWriter {
    /// The text of a value.
    ghost text: { Datum → List ℕ };

    /// The record of values, which are one at least.
    ghost whole: { List Assigned → List ℕ };

    /// How many bytes of room are enough after what is written.
    ghost spare: { ℕ };

    /// Writes the text of a number from a place on, and answers where it ends. None where there is no room.
    fn write_number(number: Number, room: &mut [u8], at: usize) -> Option<usize>
        requires { at ≤ length room.old }
        ensures within { IfSome result (λ end. end ≤ length room.new) }
        ensures written { IfSome result (λ end. take end room.new
            ≡ take at room.old ++ text (datum_of_number number)) }
        ensures answers { at + length (text (datum_of_number number)) + spare ≤ length room.old → IsSome result };

    /// Writes the text of a float, likewise.
    fn write_real(real: Real, room: &mut [u8], at: usize) -> Option<usize>
        requires { at ≤ length room.old }
        ensures within { IfSome result (λ end. end ≤ length room.new) }
        ensures written { IfSome result (λ end. take end room.new ≡ take at room.old ++ text (RealOf real)) }
        ensures answers { at + length (text (RealOf real)) + spare ≤ length room.old → IsSome result };

    /// Writes what a text is written as, likewise: it is the first `count` bytes of the piece.
    fn write_text(piece: &[u8], count: usize, room: &mut [u8], at: usize) -> Option<usize>
        requires of { count ≤ length piece.now }
        requires place { at ≤ length room.old }
        ensures within { IfSome result (λ end. end ≤ length room.new) }
        ensures written { IfSome result (λ end. take end room.new
            ≡ take at room.old ++ text (Bytes (take count piece.now))) }
        ensures answers { at + length (text (Bytes (take count piece.now))) + spare ≤ length room.old
            → IsSome result };

    /// Makes a record of the texts of values, which stand at the front of the room up to this place, and answers where
    /// it ends. None where there is no room, or there is no value.
    fn end_record(room: &mut [u8], end: usize) -> Option<usize>
        requires { end ≤ length room.old }
        ensures within { IfSome result (λ to. to ≤ length room.new) }
        ensures ended { (values : List Assigned) → take end room.old ≡ texts_by text values
            → IfSome result (λ to. take to room.new ≡ whole values) }
        ensures answers { (values : List Assigned) → values ≢ [] → take end room.old ≡ texts_by text values
            → length (texts_by text values) + spare ≤ length room.old → IsSome result };
}

/// A run, or a directive of it, that has passed, and whose values are written.
#[derive(Clone, Copy)]
struct WrittenRun {
    /// How many bytes it used.
    used: usize,
    /// Where the text of the values ends.
    end: usize,
}

/// How a directive ends that took nothing yet, where it is seen at once to do so within the piece, the way that its row
/// says. It is the first of so many directives of a format that are left. Each writer has an instance of its own, which
/// is called at one place, and so compiled in there.
#[inline(always)]
fn ended_at_once<W: ValueWriter>(
    format: &ScanFormat,
    left: usize,
    directive: &Directive,
    row: &Row,
    piece: &[u8],
) -> Option<Ended>
    requires some { 0 < left }
    requires within { left ≤ length format.now }
    requires first { slice_get format.now (length format.now - left) ≡ Some directive.now }
    requires row { row.now ≡ row_of directive.now }
    ensures { (n : ℕ) → IfSome result (EndsAtOnce directive.now n piece.now) }
{
    let _directive = directive;
    match row.way {
        Way::Space => whole_space(piece),
        Way::Byte => byte_at_once(row, piece),
        Way::Decimal => number_at_once(row, Base::Dec, piece),
        Way::Hexadecimal => number_at_once(row, Base::Hex, piece),
        Way::Text => text_at_once(row, piece),
        Way::StrictSigned => strict_number_at_once(row, Lead::Minus, Base::Dec, piece),
        Way::StrictDecimal => strict_number_at_once(row, Lead::Nothing, Base::Dec, piece),
        Way::StrictHexadecimal => strict_number_at_once(row, Lead::Nothing, Base::Hex, piece),
        Way::StrictText => strict_text_at_once(row, piece),
        Way::Until => until_at_once(row, piece),
        Way::Members => members_at_once(row, format, left, piece),
        Way::Characters => characters_at_once(row, piece),
        Way::Octal | Way::Automatic | Way::AutomaticBinary | Way::Another => None,
    }
}

/// Writes, from a place on, what a directive gives that ends so within the piece, and answers where that ends. None
/// where the directive fails, or where there is no room.
#[inline(always)]
fn write_given<W: ValueWriter>(
    ended: Ended,
    piece: &[u8],
    room: &mut [u8],
    at: usize,
) -> Option<usize>
    requires place { at ≤ length room.old }
    requires number { IsNumberGiven ended.finished }
    requires within { ended.before + ended.item ≤ length piece.now }
    ensures within { IfSome result (λ end. end ≤ length room.new) }
    ensures written { IfSome result (λ end. take end room.new ≡ take at room.old
        ++ text_given W.text (end_of (take ended.item (drop ended.before piece.now)) ended.finished)) }
    ensures passes { IfSome result (λ _. passed (end_of (take ended.item (drop ended.before piece.now)) ended.finished)
        ≡ true) }
    ensures answers { passed (end_of (take ended.item (drop ended.before piece.now)) ended.finished) ≡ true
        → at + length (text_given W.text (end_of (take ended.item (drop ended.before piece.now)) ended.finished))
        + W.spare ≤ length room.old → IsSome result }
{
    match ended.finished {
        Finished::Passes => Some(at),
        Finished::Stores {
            kind,
            negative,
            magnitude,
            ..
        } => {
            let number = Number {
                kind,
                negative,
                magnitude,
            };
            W::write_number(number, room, at)
        }
        Finished::Closes { .. } => {
            let (_, rest) = piece.split_at(ended.before);
            W::write_text(rest, ended.item, room, at)
        }
        Finished::Reads { kind, .. } => {
            let (_, rest) = piece.split_at(ended.before);
            W::write_real(real_within(kind, rest, ended.item)?, room, at)
        }
        Finished::Misses | Finished::Fails(_) => None,
    }
}

/// Passes a directive that ends so within the piece, and writes what it gives. None where it fails, or where there is
/// no room.
#[inline(always)]
fn pass_so<W: ValueWriter>(
    directive: &Directive,
    ended: Ended,
    piece: &[u8],
    used: u32,
    room: &mut [u8],
    at: usize,
) -> Option<WrittenRun>
    requires place { at ≤ length room.old }
    requires ends { EndsAtOnce directive.now used piece.now ended }
    ensures passes { IsSound directive.now → IfSome result (λ run. PassesWriting W.text directive.now used piece.now
        run.used (take at room.old) (take run.end room.new)) }
    ensures within { IfSome result (λ run. run.used ≤ length piece.now) }
    ensures place { IfSome result (λ run. run.end ≤ length room.new) }
    ensures sure { IsSound directive.now → (free : ℕ) → IsWrittenSurely W.text directive.now used piece.now free
        → at + free + W.spare ≤ length room.old → IsSome result }
{
    let _directive = directive;
    let _used = used;
    let end = write_given::<W>(ended, piece, room, at)?;
    Some(WrittenRun {
        used: ended.before + ended.item,
        end,
    })
}

/// As `pass_so`, of a directive that is seen at once to give a float.
#[inline(always)]
fn pass_real<W: ValueWriter>(
    directive: &Directive,
    read: ReadReal,
    piece: &[u8],
    used: u32,
    room: &mut [u8],
    at: usize,
) -> Option<WrittenRun>
    requires place { at ≤ length room.old }
    requires ends { EndsAtOnce directive.now used piece.now read.ended }
    requires real { end_of (take read.ended.item (drop read.ended.before piece.now)) read.ended.finished
        ≡ StepEnd.Stores read.slot (RealOf read.real) }
    ensures passes { IsSound directive.now → IfSome result (λ run. PassesWriting W.text directive.now used piece.now
        run.used (take at room.old) (take run.end room.new)) }
    ensures within { IfSome result (λ run. run.used ≤ length piece.now) }
    ensures place { IfSome result (λ run. run.end ≤ length room.new) }
    ensures sure { IsSound directive.now → (free : ℕ) → IsWrittenSurely W.text directive.now used piece.now free
        → at + free + W.spare ≤ length room.old → IsSome result }
{
    let _directive = directive;
    let _piece = piece;
    let _used = used;
    let end = W::write_real(read.real, room, at)?;
    Some(WrittenRun {
        used: read.ended.before + read.ended.item,
        end,
    })
}

/// As `pass_so`, of a directive that may take bytes that are no part of its item too.
#[inline(always)]
fn pass_column<W: ValueWriter>(
    directive: &Directive,
    column: EndedColumn,
    piece: &[u8],
    used: u32,
    room: &mut [u8],
    at: usize,
) -> Option<WrittenRun>
    requires place { at ≤ length room.old }
    requires ends { EndsWithAll directive.now used piece.now column }
    ensures passes { IsSound directive.now → IfSome result (λ run. PassesWriting W.text directive.now used piece.now
        run.used (take at room.old) (take run.end room.new)) }
    ensures within { IfSome result (λ run. run.used ≤ length piece.now) }
    ensures place { IfSome result (λ run. run.end ≤ length room.new) }
    ensures sure { IsSound directive.now → (free : ℕ) → IsWrittenSurely W.text directive.now used piece.now free
        → at + free + W.spare ≤ length room.old → IsSome result }
{
    let _directive = directive;
    let _used = used;
    let ended = column.ended;
    let end = write_given::<W>(ended, piece, room, at)?;
    Some(WrittenRun {
        used: ended.before + ended.item + column.after,
        end,
    })
}

/// How the directive ends, which took nothing yet and is read by its shape, where it does so within the piece, which
/// comes so many bytes into the run.
#[inline(always)]
fn ended_by_shape(directive: &Directive, piece: &[u8], used: u32) -> Option<EndedColumn>
    ensures ends { IfSome result (EndsWithAll directive.now used piece.now) }
    ensures waits { IsNone result → IsSound directive.now → (room : ℕ) → IsSure directive.now used piece.now room → ⊥ }
{
    if let Some(ended) = rarer_at_once(directive, piece) {
        return Some(EndedColumn { ended, after: 0 });
    }
    ended_within(directive, piece, used)
}

/// As `pass_so`, whichever directive it is. None only where it may go on after the piece, where it fails, or where
/// there is no room.
#[inline(always)]
fn pass_whole<W: ValueWriter>(
    directive: &Directive,
    piece: &[u8],
    used: u32,
    room: &mut [u8],
    at: usize,
) -> Option<WrittenRun>
    requires place { at ≤ length room.old }
    ensures passes { IsSound directive.now → IfSome result (λ run. PassesWriting W.text directive.now used piece.now
        run.used (take at room.old) (take run.end room.new)) }
    ensures within { IfSome result (λ run. run.used ≤ length piece.now) }
    ensures place { IfSome result (λ run. run.end ≤ length room.new) }
    ensures sure { IsSound directive.now → (free : ℕ) → IsWrittenSurely W.text directive.now used piece.now free
        → at + free + W.spare ≤ length room.old → IsSome result }
{
    if let Some(read) = real_at_once(directive, piece) {
        return pass_real::<W>(directive, read, piece, used, room, at);
    }
    let ended = ended_by_shape(directive, piece, used)?;
    pass_column::<W>(directive, ended, piece, used, room, at)
}

/// As `pass_whole`, of the first of so many directives of a format that are left. It looks the directive up itself, so
/// that a run by rows alone doesn't.
#[cold]
#[inline(never)]
fn pass_later<W: ValueWriter>(
    format: &ScanFormat,
    left: usize,
    piece: &[u8],
    used: u32,
    room: &mut [u8],
    at: usize,
) -> Option<WrittenRun>
    requires some { 0 < left }
    requires within { left ≤ length format.now }
    requires place { at ≤ length room.old }
    ensures passes { (d : Directive) → slice_get format.now (length format.now - left) ≡ Some d → IsSound d
        → IfSome result (λ run. PassesWriting W.text d used piece.now run.used (take at room.old)
        (take run.end room.new)) }
    ensures within { IfSome result (λ run. run.used ≤ length piece.now) }
    ensures place { IfSome result (λ run. run.end ≤ length room.new) }
    ensures sure { (d : Directive) → slice_get format.now (length format.now - left) ≡ Some d → IsSound d
        → (free : ℕ) → IsWrittenSurely W.text d used piece.now free → at + free + W.spare ≤ length room.old
        → IsSome result }
{
    let directives = format.directives();
    let index = directives.len() - left;
    let directive = &directives[index];
    pass_whole::<W>(directive, piece, used, room, at)
}

/// Reads a record at once that begins and passes within a piece of the input, and writes its values at the front of the
/// room, in the order of their directives. None where the record isn't seen to be Done whatever follows the piece, or
/// where there is no room.
#[inline(always)]
fn write_values<W: ValueWriter>(
    format: &ScanFormat,
    limit: u32,
    piece: &[u8],
    room: &mut [u8],
) -> Option<WrittenRun>
    ensures run { IfSome result (λ run. IsWritten W.text format.now limit piece.now run.used (take run.end room.new)) }
    ensures used { IfSome result (λ run. run.used ≤ length piece.now) }
    ensures place { IfSome result (λ run. run.end ≤ length room.new) }
    ensures answers { has_group format.now ≡ false
        → (capacity : ℕ) (done : IsDoneWithin format.now limit piece.now capacity)
        → length (texts_by W.text done.report.values) + W.spare ≤ length room.old → IsSome result }
{
    let most = (limit as usize).min(piece.len());
    let (front, _) = piece.split_at(most);
    let directives = format.directives();
    let rows = format.rows();
    let mut rest = front;
    let mut left = rows;
    let mut end = 0;
    while let Some(row) = left.first() {
        let at = rows.len() - left.len();
        let directive = &directives[at];
        let used = (front.len() - rest.len()) as u32;
        let passed = match ended_at_once::<W>(format, left.len(), directive, row, rest) {
            Some(ended) => pass_so::<W>(directive, ended, rest, used, room, end)?,
            None => pass_later::<W>(format, left.len(), rest, used, room, end)?,
        };
        end = passed.end;
        let (_, after) = rest.split_at(passed.used);
        rest = after;
        // cut last, so that the loop's test is that of the count just taken down
        let (_, others) = left.split_at(1);
        left = others;
    }
    Some(WrittenRun {
        used: front.len() - rest.len(),
        end,
    })
}

/// As `write_values`, and makes a record of them. None, too, where the record has no byte.
#[inline(always)]
fn write_record<W: ValueWriter>(
    format: &ScanFormat,
    limit: u32,
    piece: &[u8],
    room: &mut [u8],
) -> Option<WrittenRun>
    ensures written { IfSome result (λ run. IsRecord W.whole format.now limit piece.now run.used
        (take run.end room.new)) }
    ensures place { IfSome result (λ run. run.end ≤ length room.new) }
    ensures answers { CanFollow W.text W.spare format.now limit piece.now (length room.old) → IsSome result }
{
    // What this has for each format: its directives are proper.
    let _ = format.directives();
    let run = write_values::<W>(format, limit, piece, room)?;
    if run.used == 0 {
        return None;
    }
    let end = W::end_record(room, run.end)?;
    Some(WrittenRun {
        used: run.used,
        end,
    })
}

/// As `write_record`, after the first `end` bytes of the room, which stay.
#[inline(always)]
fn write_after<W: ValueWriter>(
    format: &ScanFormat,
    limit: u32,
    piece: &[u8],
    room: &mut [u8],
    end: usize,
) -> Option<WrittenRun>
    requires { end ≤ length room.old }
    ensures written { IfSome result (λ run. (bytes : List ℕ)
        × IsRecord W.whole format.now limit piece.now run.used bytes
        × (take (end + run.end) room.new ≡ take end room.old ++ bytes)) }
    ensures place { IfSome result (λ run. end + run.end ≤ length room.new) }
    ensures before { take end room.new ≡ take end room.old }
    ensures answers { CanFollow W.text W.spare format.now limit piece.now (length room.old - end) → IsSome result }
{
    write_record::<W>(format, limit, piece, &mut room[end..])
}

/// Runs that have passed one after the other, and whose records are written.
#[derive(Clone, Copy, Debug, PartialEq, Eq)]
pub struct WrittenRuns {
    /// How many they are.
    pub records: u32,
    /// How many bytes they used.
    pub used: usize,
    /// Where the last record ends.
    pub end: usize,
}

/// Reads records at once, one after the other, as long as each begins and passes within what those before it left of a
/// piece of the input, and writes them into room that is lent for them: at most so many. What it answers is the result
/// of these runs on every input that begins with the piece, with every ending; each consumes one byte at least and at
/// most `limit` bytes.
///
/// It stops before a record that isn't Done before a byte of the piece or of the limit is lacking, of which an item is
/// missing, that has no byte or no value, or for whose values, and the bytes that the writer wants spare, there is no
/// room: before no other. Of that record it says nothing, and what the room holds after the last one may be anything.
#[inline(never)]
pub fn write_runs<W: ValueWriter>(
    format: &ScanFormat,
    limit: u32,
    piece: &[u8],
    room: &mut [u8],
    most: u32,
) -> WrittenRuns
    ensures runs { AreRecords W.whole format.now limit piece.now result.records result.used (take result.end room.new) }
    ensures most { result.records ≤ most }
    ensures used { result.used ≤ length piece.now }
    ensures place { result.end ≤ length room.new }
    ensures answers { result.records < most → CanFollow W.text W.spare format.now limit (drop result.used piece.now)
        (length room.new - result.end) → ⊥ }
{
    let mut runs = WrittenRuns {
        records: 0,
        used: 0,
        end: 0,
    };
    while runs.records < most {
        let (_, rest) = piece.split_at(runs.used);
        let Some(run) = write_after::<W>(format, limit, rest, room, runs.end) else {
            return runs;
        };
        runs.records += 1;
        runs.used += run.used;
        runs.end += run.end;
    }
    runs
}

/// Whether the values of the format come in the order of their slots, so that `write_runs` writes them in that order.
pub fn is_in_order(format: &ScanFormat) -> bool
    ensures { (result ≡ true) ↔ AreInOrder format.now }
{
    // What this has for each format: it has few destinations.
    let _ = format.destinations();
    let mut next = 1;
    for row in format.rows() {
        if let Some(slot) = row.slot {
            if slot != next {
                return false;
            }
            next = slot.saturating_add(1);
        }
    }
    true
}
