//! The input item of one conversion, byte by byte (C11 7.21.6.2p9).
ghost use Rattle.std.specs.Prelude.{◌≡◌, ◌≢◌, ◌<◌, ◌≤◌, ◌+◌, ◌↔◌, if◌then◌else◌, true, ℕ, List, [], ◌∷◌, ◌++◌, length};
ghost use Rattle.std.specs.Prelude.{take, IsTrue, Option, Some};
ghost use Rattle.sf_format.specs.Layout.{most_of};
ghost use Rattle.sf_format.specs.Proper.{IsProperShape};
ghost use Rattle.sf_float_read.specs.item.Tests.{is_whole};
ghost use Rattle.sf_item.specs.Tests.{has_item};
ghost use Rattle.sf_item.specs.Progress.{Progress, integer_of};
ghost use Rattle.sf_item.specs.Scan.{Shows, most_bytes, HasLeft, FitsLeft, IsOneLess};
ghost use Rattle.sf_item.specs.Taking.{HasTaken, CanTake, conversion_of, left_of, Ends, EndsAt};

use crate::reached::Reached;
use crate::reading::{Reading, is_closed, read_all, read_on, reading_of};
use sf_float_read::FloatScan;
use sf_format::{Conversion, Shape};

/// Whether the item goes on with a byte.
#[derive(Clone, Copy, Debug, PartialEq, Eq)]
pub enum Step {
    /// The byte is part of the item.
    Taken,
    /// The item ends before the byte, which stays with the input. The scan is as before.
    Refused,
}

/// What the bytes of an item are (C11 7.21.6.2p9, p10).
#[derive(Clone, Copy, Debug, PartialEq, Eq)]
pub enum ItemEnd {
    /// No byte was taken.
    Empty,
    /// Some were, and they only begin a matching sequence, as a lone sign, `0x` or the `1e` of a float.
    Unmatched,
    /// They are a matching sequence of a conversion that is of no integer.
    Matched,
    /// They are an integer.
    Integer {
        /// Whether it has a minus.
        negative: bool,
        /// Its number without the sign; 0 where that is above `u64::MAX`.
        magnitude: u64,
        /// Whether it is above `u64::MAX`.
        overflowed: bool,
    },
}

/// The item of a conversion, as far as it was read. White space before an item is the caller's to skip.
///
/// ```
/// let mut scan = ItemScan::start(&conversion);
/// scan.step(b'7'); // Taken
/// scan.step(b';'); // Refused
/// scan.finish(); // Integer { negative: false, magnitude: 7, overflowed: false }
/// ```
#[derive(Clone, Copy)]
pub struct ItemScan<'c> {
    conversion: &'c Conversion,
    // whether a byte was taken
    begun: bool,
    // how many more bytes the item may have; None: any number
    left: Option<u16>,
    reading: Reading<'c>,
}

// How many bytes an item may have; None: any number. Characters are one where no width is written.
fn most_bytes(shape: &Shape, width: Option<u16>) -> Option<u16>
    ensures { result ≡ most_bytes shape.now width }
{
    match shape {
        Shape::Chars => Some(width.unwrap_or(1)),
        _ => width,
    }
}

// Whether no byte is left.
fn is_used_up(left: Option<u16>) -> bool
    ensures { IsTrue result ↔ (left ≡ Some 0) }
{
    matches!(left, Some(0))
}

// What is left with one byte less.
fn one_less(left: Option<u16>) -> Option<u16>
    requires { left ≢ Some 0 }
    ensures { IsOneLess left result }
{
    match left {
        None => None,
        Some(n) => Some(n - 1),
    }
}

// As many of the bytes as the item may still have.
#[inline(always)]
pub fn cut(piece: &[u8], left: Option<u16>) -> &[u8]
    ensures front { result.now ≡ take (length result.now) piece.now }
    ensures room { (k : ℕ) → k ≤ length result.now → FitsLeft left k }
    ensures whole { length result.now < length piece.now → left ≡ Some (length result.now) }
{
    match left {
        Some(n) if (n as usize) < piece.len() => &piece[..n as usize],
        _ => piece,
    }
}

// As `cut`, where the most bytes of the item are known: without a width the most that there are.
#[inline(always)]
pub fn cut_at(piece: &[u8], most: usize) -> &[u8]
    ensures front { result.now ≡ take (length result.now) piece.now }
    ensures room { (width : Option ℕ) → most ≡ most_of width → (k : ℕ) → k ≤ length result.now → FitsLeft width k }
    ensures whole { (width : Option ℕ) → most ≡ most_of width → length result.now < length piece.now
        → width ≡ Some (length result.now) }
{
    if most < piece.len() {
        &piece[..most]
    } else {
        piece
    }
}

// What is left with so many bytes less.
fn less(left: Option<u16>, count: usize) -> Option<u16>
    requires { FitsLeft left count }
    ensures { HasLeft left result count }
{
    match left {
        None => None,
        Some(n) => Some(n - count as u16),
    }
}

// What an integer is that was read so far.
pub fn end_of(reached: Reached) -> ItemEnd
    ensures { (p : Progress) → Shows reached p → EndsAt (integer_of p) result }
{
    match reached {
        Reached::Start | Reached::Signed(_) | Reached::Prefix(_) => ItemEnd::Unmatched,
        Reached::Zero(negative) => ItemEnd::Integer {
            negative,
            magnitude: 0,
            overflowed: false,
        },
        Reached::Digits(digits) => ItemEnd::Integer {
            negative: digits.negative,
            magnitude: digits.magnitude,
            overflowed: digits.overflowed,
        },
    }
}

// What a float is that was read so far.
pub fn end_of_float(scan: FloatScan) -> ItemEnd
    ensures { result ≡ (if is_whole scan.reached then ItemEnd.Matched else ItemEnd.Unmatched) }
{
    if scan.is_match() {
        ItemEnd::Matched
    } else {
        ItemEnd::Unmatched
    }
}

impl<'c> ItemScan<'c> {
    /// The item of the conversion, of which no byte was taken yet. The number of bytes consumed has no item.
    pub fn start(conversion: &'c Conversion) -> ItemScan<'c>
        requires { has_item conversion.now.shape ≡ true }
        ensures conversion { conversion_of result ≡ conversion.now }
        ensures nothing { HasTaken result [] }
        ensures left { left_of result ≡ most_bytes conversion.now.shape conversion.now.width }
    {
        ItemScan {
            conversion,
            begun: false,
            left: most_bytes(&conversion.shape, conversion.width),
            reading: reading_of(&conversion.shape),
        }
    }

    /// Takes the byte if the item goes on with it: if what was taken and the byte are within the width and begin a
    /// matching sequence. The width does not bound what may follow them, but it is the number of bytes of characters.
    pub fn step(&mut self, b: u8) -> Step
        ensures conversion { conversion_of self.new ≡ conversion_of self.old }
        ensures taken { (f : List ℕ) → HasTaken self.old f
            → ((result ≡ Step.Taken) ↔ CanTake (conversion_of self.old) (f ++ b ∷ [])) }
        ensures after { (f : List ℕ) → HasTaken self.old f → result ≡ Step.Taken → HasTaken self.new (f ++ b ∷ []) }
        ensures refused { result ≡ Step.Refused → self.new ≡ self.old }
        ensures left { result ≡ Step.Taken → IsOneLess (left_of self.old) (left_of self.new) }
    {
        if is_used_up(self.left) {
            return Step::Refused;
        }
        if !read_on(&mut self.reading, b) {
            return Step::Refused;
        }
        self.left = one_less(self.left);
        self.begun = true;
        Step::Taken
    }

    /// Takes the bytes of the piece, one after the other, as long as the item goes on with them, and answers how many:
    /// as many `step`s take the same. A byte that is refused stays with the input.
    pub fn take_run(&mut self, piece: &[u8]) -> usize
        ensures conversion { conversion_of self.new ≡ conversion_of self.old }
        ensures within { result ≤ length piece.now }
        ensures taken { (f : List ℕ) → HasTaken self.old f → HasTaken self.new (f ++ take result piece.now) }
        ensures each { (f : List ℕ) → HasTaken self.old f → (k : ℕ) → k < result
            → CanTake (conversion_of self.old) (f ++ take (k + 1) piece.now) }
        ensures stops { (f : List ℕ) → HasTaken self.old f → result < length piece.now
            → CanTake (conversion_of self.old) (f ++ take (result + 1) piece.now) → ⊥ }
        ensures nothing { result ≡ 0 → self.new ≡ self.old }
        ensures left { HasLeft (left_of self.old) (left_of self.new) result }
    {
        let count = read_all(&mut self.reading, cut(piece, self.left));
        self.left = less(self.left, count);
        self.begun |= count > 0;
        count
    }

    /// As `take_run`.
    pub fn take_all(&mut self, piece: &[u8]) -> usize
        ensures conversion { conversion_of self.new ≡ conversion_of self.old }
        ensures within { result ≤ length piece.now }
        ensures taken { (f : List ℕ) → HasTaken self.old f → HasTaken self.new (f ++ take result piece.now) }
        ensures each { (f : List ℕ) → HasTaken self.old f → (k : ℕ) → k < result
            → CanTake (conversion_of self.old) (f ++ take (k + 1) piece.now) }
        ensures stops { (f : List ℕ) → HasTaken self.old f → result < length piece.now
            → CanTake (conversion_of self.old) (f ++ take (result + 1) piece.now) → ⊥ }
        ensures nothing { result ≡ 0 → self.new ≡ self.old }
        ensures left { HasLeft (left_of self.old) (left_of self.new) result }
    {
        self.take_run(piece)
    }

    /// Whether `step` would take no byte, whichever it is. For a set without a member, which no format has, it answers
    /// only whether the width is used up.
    pub fn is_full(&self) -> bool
        ensures { (f : List ℕ) → HasTaken self.now f → IsProperShape (conversion_of self.now).shape
            → (IsTrue result ↔ ((b : ℕ) → b < 256 → CanTake (conversion_of self.now) (f ++ b ∷ []) → ⊥)) }
    {
        is_used_up(self.left) || is_closed(&self.reading)
    }

    /// What the bytes that were taken are. The item may go on after it.
    pub fn finish(&self) -> ItemEnd
        ensures { (f : List ℕ) → HasTaken self.now f → Ends (conversion_of self.now) f result }
    {
        if !self.begun {
            return ItemEnd::Empty;
        }
        match self.reading {
            Reading::Integer(_, reached) => end_of(reached),
            Reading::Text(_) | Reading::Set(_) => ItemEnd::Matched,
            Reading::Chars if is_used_up(self.left) => ItemEnd::Matched,
            Reading::Chars => ItemEnd::Unmatched,
            Reading::Float(_, scan) => end_of_float(scan),
        }
    }
}
