//! The input item of a floating-point conversion.
ghost use Rattle.std.specs.Prelude.{◌≡◌, ◌↔◌, ◌+◌, ◌<◌, ◌≤◌, ◌∷◌, ◌++◌, if◌then◌else◌, ℕ, List, [], length, take, Some};
ghost use Rattle.std.specs.Prelude.{None, IsTrue, IsFalse};
ghost use Rattle.sf_float_read.specs.item.Sequences.{IsFloat, IsFloatOf};
ghost use Rattle.sf_float_read.specs.item.Steps.{HasRead, BeginsFloat};
ghost use Rattle.sf_float_read.specs.item.Tests.{next, read, is_whole, start_of};

use crate::item::digits::digit_run;
use crate::item::reached::{Forms, Reached};

/// The item, as far as it was read. No byte of it is kept.
#[derive(Clone, Copy, Debug)]
pub struct FloatScan {
    pub reached: Reached,
}

impl FloatScan {
    /// The item of a number in one of these forms, of which no byte was taken yet.
    pub fn start(forms: Forms) -> FloatScan
        ensures nothing { HasRead forms result.reached [] }
        ensures start { result.reached ≡ start_of forms }
    {
        FloatScan {
            reached: forms.start(),
        }
    }

    /// Takes the byte if what was taken and the byte begin a matching sequence.
    pub fn step(&mut self, b: u8) -> bool
        ensures taken { (forms : Forms) (f : List ℕ) → HasRead forms self.old.reached f
            → (IsTrue result ↔ BeginsFloat forms (f ++ b ∷ [])) }
        ensures after { (forms : Forms) (f : List ℕ) → HasRead forms self.old.reached f → IsTrue result
            → HasRead forms self.new.reached (f ++ b ∷ []) }
        ensures refused { IsFalse result → self.new ≡ self.old }
        ensures next { (if result then Some self.new.reached else None) ≡ next self.old.reached b }
    {
        match self.reached.then(b) {
            Some(next) => {
                self.reached = next;
                true
            }
            None => false,
        }
    }

    /// How many bytes the piece begins with that are digits, where a digit leaves the place as it is.
    #[inline(always)]
    fn digits_ahead(&self, piece: &[u8]) -> usize
        ensures within { result ≤ length piece.now }
        ensures stays { read (Some self.now.reached) (take result piece.now) ≡ Some self.now.reached }
    {
        if self.reached.takes_digits() {
            digit_run(piece)
        } else {
            0
        }
    }

    /// Takes the bytes of the piece, one after the other, as long as what was taken and they begin a matching sequence,
    /// and answers how many: as many `step`s take the same.
    pub fn take_run(&mut self, piece: &[u8]) -> usize
        ensures within { result ≤ length piece.now }
        ensures read { read (Some self.old.reached) (take result piece.now) ≡ Some self.new.reached }
        ensures stops { result < length piece.now
            → read (Some self.old.reached) (take (result + 1) piece.now) ≡ None }
        ensures nothing { result ≡ 0 → self.new ≡ self.old }
    {
        let mut at = 0;
        while at < piece.len() {
            at += self.digits_ahead(&piece[at..]);
            if at == piece.len() {
                return at;
            }
            if !self.step(piece[at]) {
                return at;
            }
            at += 1;
        }
        at
    }

    /// Whether what was taken is a matching sequence.
    pub fn is_match(&self) -> bool
        ensures matches { (forms : Forms) (f : List ℕ) → HasRead forms self.now.reached f
            → (IsTrue result ↔ IsFloatOf forms f) }
        ensures whole { result ≡ is_whole self.now.reached }
    {
        self.reached.is_match()
    }

    /// Whether `step` would take no byte, whichever it is.
    pub fn is_closed(&self) -> bool
        ensures { IsTrue result ↔ ((b : ℕ) → b < 256 → next self.now.reached b ≡ None) }
    {
        self.reached.is_closed()
    }
}

/// Whether a text is a matching sequence as it stands.
pub fn is_float(text: &[u8]) -> bool
    ensures { IsTrue result ↔ IsFloat text.now }
{
    let mut scan = FloatScan::start(Forms::All);
    let taken = scan.take_run(text);
    taken == text.len() && scan.is_match()
}
