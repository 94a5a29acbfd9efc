//! Laws of items.
ghost use Rattle.std.specs.Prelude.{◌≡◌, ◌≤◌, ◌↔◌, ◌++◌, ℕ, true, false, IsTrue, List, IfSome, None, Some, length, min};
ghost use Rattle.sf_format.specs.declared.directive.Conversion.{Conversion};
ghost use Rattle.sf_format.specs.declared.directive.Lead.{Lead};
ghost use Rattle.sf_format.specs.declared.directive.Shape.TheVariants.{Text};
ghost use Rattle.sf_base.specs.Blanks.{are_white};
ghost use Rattle.sf_item.specs.Columns.{column_width, Fills, IsTextOf};
ghost use Rattle.sf_item.specs.Matching.{IsItem};
ghost use Rattle.sf_item.specs.Tests.{has_item};

use sf_format::Conversion;
use sf_item::laws::{columns_are_computed, ended_items_stay, one_item, widths_cut_items};
use sf_item::{ColumnScan, ItemEnd, text_item};

/// How many bytes the word has that ends within the piece. It is the item of each input that begins with the piece,
/// each such input has no other, and with a width it is cut at that.
pub fn word_item(piece: &[u8]) -> Option<usize>
    ensures only { (c : Conversion) (lead : Lead) → c.shape ≡ Text lead → c.width ≡ None → (z : List ℕ) (k : ℕ)
        → IsItem c (piece.now ++ z) k → IfSome result (λ n. k ≡ n) }
    ensures stays { (c : Conversion) (lead : Lead) → c.shape ≡ Text lead → c.width ≡ None → (z : List ℕ)
        → IfSome result (λ n. IsItem c (piece.now ++ z) n) }
    ensures cut { (c : Conversion) (lead : Lead) → c.shape ≡ Text lead → c.width ≡ None → (w : ℕ)
        → IfSome result (λ n. IsItem (record c { width = Some w }) piece.now (min n w)) }
{
    one_item();
    ended_items_stay();
    widths_cut_items();
    text_item(usize::MAX, piece)
}

/// Whether the text of a column that is no white space alone is one that the conversion takes: its one text is.
pub fn column_fills(conversion: &Conversion, column: &[u8]) -> bool
    requires item { has_item conversion.now.shape ≡ true }
    requires whole { length column.now ≤ column_width conversion.now }
    requires some { are_white column.now ≡ false }
    ensures { (t : List ℕ) → IsTextOf conversion.now column.now t → IsTrue result ↔ Fills conversion.now t }
{
    columns_are_computed();
    let mut scan = ColumnScan::start(conversion);
    scan.take_run(column);
    matches!(scan.finish(), ItemEnd::Matched | ItemEnd::Integer { .. })
}
