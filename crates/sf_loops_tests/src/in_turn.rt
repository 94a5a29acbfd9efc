//! The first answers of loops, as a caller sees them by the laws.
ghost use Rattle.std.specs.Prelude.{◌≡◌, ◌++◌, ℕ, List, [], ◌∷◌, IfSome, None, Ok};
ghost use Rattle.sf_read.specs.field.Rows.{slots_by};
ghost use Rattle.sf_read.specs.declared.matching.Match.TheVariants.{Front};
ghost use Rattle.sf_read.specs.line.Cut.{lines_of};
ghost use Rattle.sf_loops.specs.Laws.{AreRecords, AreRecordsRead};
ghost use Rattle.sf_loops.specs.LineLaws.{AreAnswersOf};
ghost use Rattle.sf_loops.specs.Loops.{Loop};

use sf_format::ScanFormat;
use sf_loops::laws::{answers_are_lines, answers_are_records, none_is_the_end, reads_are_records};
use sf_loops::{Lines, Records};
use sf_read::{Row, SliceSource, Source};
use std::alloc::Global;

/// The most bytes of a record or a line here.
const LIMIT: u32 = 1000;

/// The first two records of a text, as rows. The first is that of a run of the format from the start of the text. None
/// where there are fewer, or memory was refused.
pub fn two_records<T: Row + Drop>(alloc: Global, text: &[u8], format: &ScanFormat) -> Option<(T, T)>
    ensures { IfSome result (λ rows. (left : List ℕ) × AreRecords T.kinds (slots_by T.given T.listed) format.now 1000
        text.now (rows.0 ∷ []) left) }
{
    answers_are_records::<T, SliceSource<'_>, 64>();
    let Ok(mut records) = Records::<T, _, 64>::new(alloc, SliceSource::new(text), format, LIMIT)
    else {
        return None;
    };
    let Ok(Some(first)) = records.next() else {
        return None;
    };
    let Ok(Some(second)) = records.next() else {
        return None;
    };
    Some((first, second))
}

/// The next two records of a loop, as rows, whatever its source says of itself. The first is the record of what was
/// read ahead and then of what the loop read for it. None where there are fewer, or the loop stops.
pub fn two_read<T: Row + Drop, S: Source, const N: usize>(
    records: &mut Records<'_, T, S, N>,
) -> Option<(T, T)>
    ensures { records.old.over ≡ None → IfSome result (λ rows. (mid : Loop S) × (blocks : List (List ℕ))
        × AreRecordsRead S.to_come S.reads T.kinds (slots_by T.given T.listed) records.old mid (rows.0 ∷ []) blocks) }
{
    reads_are_records::<T, S, N>();
    let Ok(Some(first)) = records.next() else {
        return None;
    };
    let Ok(Some(second)) = records.next() else {
        return None;
    };
    Some((first, second))
}

/// The first two lines of a text, as rows, each of which is that of its line. None where there are fewer, where one
/// doesn't match, or where memory was refused.
pub fn two_lines<T: Row + Drop>(alloc: Global, text: &[u8], format: &ScanFormat) -> Option<(T, T)>
    ensures { IfSome result (λ rows. (lines : List (List ℕ)) × (left : List ℕ)
        × (lines_of text.now ≡ lines ++ lines_of left)
        × AreAnswersOf T.kinds (slots_by T.given T.listed) format.now 1000 Front 0 lines (Ok rows.0 ∷ Ok rows.1 ∷ [])) }
{
    answers_are_lines::<T, SliceSource<'_>, 64>();
    let Ok(mut lines) = Lines::<T, _, 64>::new(alloc, SliceSource::new(text), format, LIMIT) else {
        return None;
    };
    let Ok(Some(first)) = lines.next() else {
        return None;
    };
    let Ok(Some(second)) = lines.next() else {
        return None;
    };
    Some((first, second))
}

/// The row of the one line that a text has. None where it has another number of lines, where the line doesn't match, or
/// where memory was refused.
pub fn only_line<T: Row + Drop>(alloc: Global, text: &[u8], format: &ScanFormat) -> Option<T>
    ensures { IfSome result (λ row. AreAnswersOf T.kinds (slots_by T.given T.listed) format.now 1000 Front 0
        (lines_of text.now) (Ok row ∷ [])) }
{
    none_is_the_end::<T, SliceSource<'_>, 64>();
    let Ok(mut lines) = Lines::<T, _, 64>::new(alloc, SliceSource::new(text), format, LIMIT) else {
        return None;
    };
    let Ok(Some(row)) = lines.next() else {
        return None;
    };
    let Ok(None) = lines.next() else {
        return None;
    };
    Some(row)
}
