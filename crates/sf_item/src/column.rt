//! A column, byte by byte, and the text in it.
ghost use Rattle.std.specs.Prelude.{◌≡◌, ◌≢◌, ◌↔◌, ◌<◌, ◌+◌, ◌&&◌, nat_eq, true, false, IsTrue, ℕ, List, [], ◌∷◌, ◌++◌};
ghost use Rattle.std.specs.Prelude.{length, take, drop, min, get_or};
ghost use Rattle.sf_base.specs.Bytes.{is_white};
ghost use Rattle.sf_base.specs.Blanks.{are_white, trimmed_front, trimmed_end};
ghost use Rattle.sf_format.specs.declared.directive.Conversion.{Conversion};
ghost use Rattle.sf_format.specs.Leads.{is_strict};
ghost use Rattle.sf_item.specs.Columns.{column_width};
ghost use Rattle.sf_item.specs.ColumnScans.{HasTakenColumn, column_left, conversion_of, is_blank_place};
ghost use Rattle.sf_item.specs.ColumnScans.{column_shape, IsAfterByte, HasReached, TextEnds};
ghost use Rattle.sf_item.specs.ColumnTests.{ColumnEnds};
ghost use Rattle.sf_item.specs.Scan.{shape_of, HasRead};
ghost use Rattle.sf_item.specs.Tests.{has_item};

use crate::item::{ItemEnd, end_of, end_of_float};
use crate::reading::{Reading, column_reading_of, read_on};
use sf_base::is_space;
use sf_format::Conversion;

/// How far the text of a column has come.
#[derive(Clone, Copy)]
enum Place {
    /// Nothing was taken, or white space alone.
    Blank,
    /// The text may go on, and was read so far.
    Inside,
    /// After it stood white space that is no part of it.
    After,
    /// It is no matching sequence, whatever follows.
    Broken,
}

/// A column of a conversion with a `=`, as far as it was read: the next bytes, as many as the width, whichever they
/// are.
///
/// ```
/// let mut scan = ColumnScan::start(&conversion); // of `%=5d`
/// scan.take_run(b"  42;"); // before: 2, text: 3
/// scan.finish(); // Unmatched
/// ```
#[derive(Clone, Copy)]
pub struct ColumnScan<'c> {
    conversion: &'c Conversion,
    // how many bytes it has left
    left: u16,
    // how the text was read, without the white space after it
    reading: Reading<'c>,
    place: Place,
}

/// Bytes that were taken of a column.
#[derive(Clone, Copy, Debug, PartialEq, Eq)]
pub struct ColumnTaken {
    /// White space before its text.
    pub before: usize,
    /// Bytes of the text, and what stands after it.
    pub text: usize,
}

// The place after one more byte of the text, or of the white space after it.
fn after_byte(reading: &mut Reading<'_>, strict: bool, b: u8) -> Place
    ensures text { is_blank_place result ≡ false }
    ensures byte { (f : List ℕ) → HasRead reading.old f
        → IsAfterByte strict b reading.old reading.new (f ++ b ∷ []) result }
{
    if read_on(reading, b) {
        Place::Inside
    } else if is_space(b) && !strict {
        Place::After
    } else {
        Place::Broken
    }
}

// The place after one more byte where nothing came before it but white space; with ! that is part of the text.
fn after_blanks(reading: &mut Reading<'_>, strict: bool, first: bool, b: u8) -> Place
    ensures reached { (c : Conversion) (f : List ℕ) → is_strict c.shape ≡ strict → nat_eq (length f) 0 ≡ first
        → HasReached c reading.old Place.Blank f → HasReached c reading.new result (f ++ b ∷ []) }
    ensures blank { is_blank_place result ≡ is_white b }
{
    if is_space(b) {
        Place::Blank
    } else if strict && !first {
        Place::Broken
    } else {
        after_byte(reading, strict, b)
    }
}

// The place after one more byte, which is the first of the column or isn't.
fn place_after(reading: &mut Reading<'_>, place: Place, strict: bool, first: bool, b: u8) -> Place
    ensures reached { (c : Conversion) (f : List ℕ) → is_strict c.shape ≡ strict → nat_eq (length f) 0 ≡ first
        → HasReached c reading.old place f → HasReached c reading.new result (f ++ b ∷ []) }
    ensures blank { is_blank_place result ≡ (is_blank_place place && is_white b) }
{
    match place {
        Place::Blank => after_blanks(reading, strict, first, b),
        Place::Inside => after_byte(reading, strict, b),
        Place::After if is_space(b) => Place::After,
        Place::After | Place::Broken => Place::Broken,
    }
}

// What the text is that was read so, without the white space at its end.
fn end_of_reading(reading: Reading<'_>) -> ItemEnd
    ensures { (c : Conversion) (t : List ℕ) → shape_of reading.entry ≡ column_shape c.shape → HasRead reading.entry t
        → are_white t ≡ false → TextEnds c (trimmed_end t) result }
{
    match reading {
        Reading::Integer(_, reached) => end_of(reached),
        Reading::Text(_) | Reading::Set(_) | Reading::Chars => ItemEnd::Matched,
        Reading::Float(_, scan) => end_of_float(scan),
    }
}

impl<'c> ColumnScan<'c> {
    /// The column of the conversion, of which no byte was taken yet. The number of bytes consumed has no column.
    pub fn start(conversion: &'c Conversion) -> ColumnScan<'c>
        requires { has_item conversion.now.shape ≡ true }
        ensures conversion { conversion_of result ≡ conversion.now }
        ensures nothing { HasTakenColumn result [] }
        ensures left { column_left result ≡ column_width conversion.now }
    {
        ColumnScan {
            conversion,
            left: conversion.width.unwrap_or(1),
            reading: column_reading_of(&conversion.shape),
            place: Place::Blank,
        }
    }

    // Takes one more byte, and answers whether what was taken is white space alone.
    fn take(&mut self, b: u8) -> bool
        requires { column_left self.old ≢ 0 }
        ensures conversion { conversion_of self.new ≡ conversion_of self.old }
        ensures left { column_left self.new + 1 ≡ column_left self.old }
        ensures taken { (f : List ℕ) → HasTakenColumn self.old f → HasTakenColumn self.new (f ++ b ∷ []) }
        ensures blank { result ≡ (is_blank_place self.old.place && is_white b) }
        ensures place { is_blank_place self.new.place ≡ result }
    {
        let first = self.conversion.width.unwrap_or(1) == self.left;
        let strict = self.conversion.shape.is_strict();
        self.place = place_after(&mut self.reading, self.place, strict, first, b);
        self.left -= 1;
        matches!(self.place, Place::Blank)
    }

    /// Takes as many bytes of the piece as the column has left, and answers how many: those before its text, which are
    /// white space, and those of the text and after it.
    pub fn take_run(&mut self, piece: &[u8]) -> ColumnTaken
        ensures conversion { conversion_of self.new ≡ conversion_of self.old }
        ensures all { result.before + result.text ≡ min (length piece.now) (column_left self.old) }
        ensures left { column_left self.new + (result.before + result.text) ≡ column_left self.old }
        ensures taken { (f : List ℕ) → HasTakenColumn self.old f
            → HasTakenColumn self.new (f ++ take (result.before + result.text) piece.now) }
        ensures white { (k : ℕ) → k < result.before → is_white (get_or piece.now k 0) ≡ true }
        ensures text { (f : List ℕ) → HasTakenColumn self.old f
            → trimmed_front (f ++ take (result.before + result.text) piece.now)
            ≡ trimmed_front f ++ take result.text (drop result.before piece.now) }
    {
        let mut taken = ColumnTaken { before: 0, text: 0 };
        for b in piece {
            if self.left == 0 {
                return taken;
            }
            if self.take(*b) {
                taken.before += 1;
            } else {
                taken.text += 1;
            }
        }
        taken
    }

    /// Whether it has no byte left.
    pub fn is_full(&self) -> bool
        ensures { IsTrue result ↔ (column_left self.now ≡ 0) }
    {
        self.left == 0
    }

    /// Whether what was taken is white space alone.
    pub fn is_blank(&self) -> bool
        ensures { (f : List ℕ) → HasTakenColumn self.now f → result ≡ are_white f }
    {
        matches!(self.place, Place::Blank)
    }

    /// What the bytes that were taken are; `Empty` is white space alone. The column may go on after it.
    pub fn finish(&self) -> ItemEnd
        ensures { (f : List ℕ) → HasTakenColumn self.now f → ColumnEnds (conversion_of self.now) f result }
    {
        match self.place {
            Place::Blank => ItemEnd::Empty,
            Place::Inside | Place::After => end_of_reading(self.reading),
            Place::Broken => ItemEnd::Unmatched,
        }
    }
}
