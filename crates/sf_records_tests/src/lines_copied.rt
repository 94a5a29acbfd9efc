//! Copies of lines, copied again, as a caller sees them by the laws of lines.
ghost use Rattle.std.specs.Prelude.{◌≡◌, ◌≤◌, ◌++◌, ◌∷◌, Bool, List, [], None};
ghost use Rattle.std.specs.List.{AllByRecursion};
ghost use Rattle.sf_read.specs.line.Cut.{lines_of};
ghost use Rattle.sf_records.specs.by_lines.Copied.{IsLineText, copying_lines, reads_one};
ghost use Rattle.sf_records.specs.by_lines.Loops.{AreTurns, ended, texts};
ghost use Rattle.sf_records.specs.by_lines.Turns.{Turn};
ghost use Rattle.sf_records_tests.specs.Silence.{no_note};

use crate::reading_back::LinesWritten;
use crate::silent::Silent;
use sf_format::ScanFormat;
use sf_pair::Pair;
use sf_pair::laws::aligned_is_accepted;
use sf_print::ListSink;
use sf_read::{Lookahead, SliceSource};
use sf_records::by_lines::laws::{lines_copied_twice, lines_have_one_turn};
use sf_records::{CopyMaker, LineFormats, LinesOptions, run_lines};
use std::alloc::Global;
use std::slice;

/// Copies the lines of a text by a pair, each being read by `front`. Where nothing cuts the loop short, what it wrote
/// is that of the lines' turns.
fn lines_in(
    alloc: Global,
    text: &[u8],
    pair: &Pair<'_>,
    front: &ScanFormat,
    options: LinesOptions,
) -> LinesWritten
    requires limit { options.limit ≤ 2147483647 }
    ensures { result.end.fault ≡ None → (turns : List Turn)
        × AreTurns (copying_lines options pair.now.print pair.now.scan front.now no_note) 0 (lines_of text.now) turns
        × (result.text.bytes ≡ texts turns) × (result.end ≡ ended turns None) }
{
    let mut maker = CopyMaker::new(pair);
    let mut to = ListSink::new(alloc);
    let mut from: Lookahead<SliceSource<'_>, 64> = Lookahead::new(SliceSource::new(text));
    let by = LineFormats {
        ignored: &[],
        tried: slice::from_ref(front),
    };
    let mut silent = Silent;
    let end = run_lines(
        alloc,
        &mut from,
        &mut to,
        &mut maker,
        &mut silent,
        &by,
        options,
    );
    LinesWritten { text: to, end }
}

/// Copies the lines of a text by a pair whose scan format ends in a conversion that reads one byte and stores nothing,
/// each line being read by what stands before that; and then the copy. Where each text that was written is a line, and
/// nothing cuts either loop short, both copies are the same.
pub fn lines_copied_again(
    alloc: Global,
    text: &[u8],
    pair: &Pair<'_>,
    front: &ScanFormat,
    options: LinesOptions,
) -> (LinesWritten, LinesWritten)
    requires limit { options.limit ≤ 2147483647 }
    requires skip { options.skip ≡ 0 }
    ensures { (members : List Bool) → pair.now.scan ≡ front.now ++ reads_one members ∷ [] → (turns : List Turn)
        → AreTurns (copying_lines options pair.now.print pair.now.scan front.now no_note) 0 (lines_of text.now) turns
        → AllByRecursion (IsLineText options.limit) turns → result.0.end.fault ≡ None → result.1.end.fault ≡ None
        → result.1.text.bytes ≡ result.0.text.bytes }
{
    aligned_is_accepted();
    lines_copied_twice();
    lines_have_one_turn();
    let _print = pair.print();
    let _directives = front.directives();
    let first = lines_in(alloc, text, pair, front, options);
    let second = lines_in(alloc, first.text.bytes(), pair, front, options);
    (first, second)
}
