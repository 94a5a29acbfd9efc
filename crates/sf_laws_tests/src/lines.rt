//! Laws of lines.
ghost use Rattle.std.specs.Prelude.{◌≡◌, ◌+◌, ◌⊎◌, ◌++◌, ◌∷◌, [], IfSome, drop, take};
ghost use Rattle.std.specs.List.{AllByRecursion};
ghost use Rattle.sf_read.specs.line.Cut.{IsLine, joined, lines_of};

use sf_read::line::laws::{lines_are_cut, lines_are_joined, texts_are_cut};
use sf_read::{Lookahead, Source, held_line};

/// How many bytes the first line has, where it is held with its newline. It is the first of the lines of what is held,
/// and the others are those of the rest. With its newline it is a text of one line. All these lines, with theirs, are
/// what is held, or that with a last newline.
pub fn first_line<S: Source, const N: usize>(from: &Lookahead<S, N>) -> Option<usize>
    ensures cut { IfSome result (λ n. lines_of from.now.held
        ≡ take n from.now.held ∷ lines_of (drop (n + 1) from.now.held)) }
    ensures alone { IfSome result (λ n. lines_of (joined (take n from.now.held ∷ [])) ≡ take n from.now.held ∷ []) }
    ensures lines { AllByRecursion IsLine (lines_of from.now.held) }
    ensures whole { (joined (lines_of from.now.held) ≡ from.now.held)
        ⊎ (joined (lines_of from.now.held) ≡ from.now.held ++ 10 ∷ []) }
{
    lines_are_cut();
    lines_are_joined();
    texts_are_cut();
    held_line(from, usize::MAX)
}
