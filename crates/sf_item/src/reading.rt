//! How an item is read, by the shape of its conversion.
ghost use Rattle.std.specs.Prelude.{◌≡◌, ◌↔◌, ◌<◌, ◌≤◌, ◌+◌, true, false, IsTrue, if◌then◌else◌, ℕ, List, [], ◌∷◌};
ghost use Rattle.std.specs.Prelude.{◌++◌, length, take, Some, None};
ghost use Rattle.sf_item.specs.Matching.{forms_of};
ghost use Rattle.sf_item.specs.ColumnScans.{column_shape};
ghost use Rattle.sf_item.specs.Tests.{has_item};
ghost use Rattle.sf_item.specs.Scan.{shape_of, HasRead, ReadsNext, EndsReading};

use crate::integer::{advance, integer_front};
use crate::reached::Reached;
use sf_base::{ByteSet, is_space, text_run};
use sf_float_read::{FloatScan, Forms};
use sf_format::{Lead, Numeral, Shape};

/// What an item is read as, and of an integer or a float how far.
#[derive(Clone, Copy)]
pub enum Reading<'c> {
    /// An integer that is written so.
    Integer(Numeral, Reached),
    /// Bytes that are no white space.
    Text(Lead),
    /// Members of the set.
    Set(&'c ByteSet),
    /// As many bytes as the width is, whichever they are.
    Chars,
    /// A float.
    Float(Lead, FloatScan),
}

// The forms of a float, with `!` or without.
fn forms_of(lead: Lead) -> Forms
    ensures { result ≡ forms_of lead }
{
    if lead.is_strict() {
        Forms::Decimal
    } else {
        Forms::All
    }
}

// How an item of the shape is read, of which no byte was taken yet.
pub fn reading_of(shape: &Shape) -> Reading<'_>
    requires { has_item shape.now ≡ true }
    ensures shape { shape_of result ≡ shape.now }
    ensures nothing { HasRead result [] }
{
    match shape {
        Shape::Int(numeral) => Reading::Integer(*numeral, Reached::Start),
        Shape::Text(lead) => Reading::Text(*lead),
        Shape::Set(members) => Reading::Set(members),
        Shape::Chars => Reading::Chars,
        Shape::Float(lead) => Reading::Float(*lead, FloatScan::start(forms_of(*lead))),
        Shape::Count => unreachable!(),
    }
}

// How the text of a column is read, of which no byte was taken yet: a text without `!` may have any bytes.
pub fn column_reading_of(shape: &Shape) -> Reading<'_>
    requires { has_item shape.now ≡ true }
    ensures shape { shape_of result ≡ column_shape shape.now }
    ensures nothing { HasRead result [] }
{
    match shape {
        Shape::Text(lead) if !lead.is_strict() => Reading::Chars,
        _ => reading_of(shape),
    }
}

// Reads one more byte if the item goes on with it. Answers whether it did.
pub fn read_on(reading: &mut Reading<'_>, b: u8) -> bool
    ensures next { (f : List ℕ) → HasRead reading.old f → ReadsNext reading.old
        (if result then Some reading.new else None) (f ++ b ∷ []) }
    ensures refused { result ≡ false → reading.new ≡ reading.old }
{
    match reading {
        Reading::Integer(numeral, reached) => advance(*numeral, reached, b),
        Reading::Text(_) => !is_space(b),
        Reading::Set(members) => members.contains(b),
        Reading::Chars => true,
        Reading::Float(_, scan) => scan.step(b),
    }
}

// Reads the bytes of the piece, one after the other, as long as the item goes on with them, and answers how many.
pub fn read_all(reading: &mut Reading<'_>, piece: &[u8]) -> usize
    ensures within { result ≤ length piece.now }
    ensures read { (f : List ℕ) → HasRead reading.old f → ReadsNext reading.old (Some reading.new)
        (f ++ take result piece.now) }
    ensures stops { (f : List ℕ) → HasRead reading.old f → result < length piece.now
        → ReadsNext reading.old None (f ++ take (result + 1) piece.now) }
    ensures nothing { result ≡ 0 → reading.new ≡ reading.old }
{
    match reading {
        Reading::Integer(numeral, reached) => integer_front(*numeral, reached, piece),
        Reading::Text(_) => text_run(piece),
        Reading::Set(members) => members.run(piece),
        Reading::Chars => piece.len(),
        Reading::Float(_, scan) => scan.take_run(piece),
    }
}

// Whether no byte could be read, whichever it is, however many the width leaves: after `infinity` and the like.
pub fn is_closed(reading: &Reading<'_>) -> bool
    ensures { IsTrue result ↔ EndsReading reading.now }
{
    match reading {
        Reading::Float(_, scan) => scan.is_closed(),
        _ => false,
    }
}
