//! Copies of copies, as a caller sees them by the laws.
ghost use Rattle.std.specs.Prelude.{◌≡◌, ◌<◌, ℕ, List, length, IfSome};
ghost use Rattle.sf_base.specs.Data.{Datum};
ghost use Rattle.sf_run.specs.outcome.Ending.TheVariants.{End};
ghost use Rattle.sf_records.specs.Copied.{AreFitting, joined};
ghost use Rattle.sf_records.specs.Copies.{copying};
ghost use Rattle.sf_records.specs.Records.{EndsWith, most_records, status_by};

use sf_pair::Pair;
use sf_pair::laws::aligned_is_accepted;
use sf_print::ListSink;
use sf_read::{Lookahead, SliceSource};
use sf_records::laws::{copied_twice, joined_texts, one_end};
use sf_records::{ToolEnd, run_copy};
use std::alloc::Global;

/// The most bytes that a run uses here, which is the most that a text of a record has.
const MOST: u32 = 2147483647;

/// A copy, and how it ended.
#[derive(Drop)]
pub struct Copied {
    pub text: ListSink,
    pub end: ToolEnd,
}

/// Copies a text by a pair. A copy of the joined texts of rows that fit is that text, with a record for each row.
pub fn copy_of(alloc: Global, text: &[u8], pair: &Pair<'_>) -> Copied
    ensures clean { result.end.status ≡ 0 → (used : ℕ) × EndsWith (copying pair.now.print pair.now.scan)
        pair.now.scan 2147483647 text.now End result.text.bytes used result.end }
    ensures status { result.end.status ≡ status_by result.end.fault }
    ensures rows { (rows : List (List Datum)) → length rows < most_records
        → AreFitting pair.now.print pair.now.scan 2147483647 rows → text.now ≡ joined pair.now.print rows
        → result.end.status ≡ 0 → (result.text.bytes ≡ text.now) × (result.end.records ≡ length rows) }
{
    aligned_is_accepted();
    joined_texts();
    one_end();
    let _print = pair.print();
    let mut from: Lookahead<SliceSource<'_>, 64> = Lookahead::new(SliceSource::new(text));
    let mut to = ListSink::new(alloc);
    let end = run_copy(alloc, &mut from, &mut to, pair, MOST);
    Copied { text: to, end }
}

/// Copies a text by a pair, and then the copy. Where both copies end cleanly, they are the same, with as many records.
/// None where the first is longer than a run may be.
pub fn copied_again(alloc: Global, text: &[u8], pair: &Pair<'_>) -> Option<(Copied, Copied)>
    ensures same { IfSome result (λ copies. copies.0.end.status ≡ 0 → copies.1.end.status ≡ 0
        → (copies.1.text.bytes ≡ copies.0.text.bytes) × (copies.1.end.records ≡ copies.0.end.records)) }
{
    aligned_is_accepted();
    copied_twice();
    one_end();
    let _print = pair.print();
    let first = copy_of(alloc, text, pair);
    if first.text.bytes().len() > MOST as usize {
        return None;
    }
    let second = copy_of(alloc, first.text.bytes(), pair);
    Some((first, second))
}
