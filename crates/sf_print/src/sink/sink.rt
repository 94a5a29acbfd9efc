//! Where printed bytes go.
ghost use Rattle.std.specs.Prelude.{◌≡◌, ◌<◌, ◌≤◌, ◌+◌, ℕ, List, Option, length, take, IfOk, IfSome, IsNone, IsSome};
ghost use Rattle.std.specs.Prelude.{is_err, if◌then◌else◌};
ghost use Rattle.std.specs.Bool.{OnTrue, OnFalse};
ghost use Rattle.std.specs.Io.{WritesAtMost};
ghost use Rattle.std.specs.Io.KnownBytes.{Appends};
ghost use Rattle.std.specs.Io.KnownBytes.{WriteAppends};
ghost use Rattle.sf_print.specs.sink.Sinks.{counted_on};

use thiserror::Error;

/// A write failed.
#[derive(Clone, Copy, Debug, Error, PartialEq, Eq)]
#[error("write fault")]
pub struct SinkFault;

/// A text that is written into room that is lent for it.
pub trait TextInPlace {
    /// The text.
    ghost text: { Self → List ℕ };

    /// What holds wherever it is written.
    ghost Fits: { Self → Type 0 };

    /// Writes the text at the start of the room, and answers its length. None where it doesn't fit, or where the room
    /// has fewer than 21 bytes more than the text, as many as the longest number has.
    fn write_in(&self, room: &mut [u8]) -> Option<usize>
        ensures within { IfSome result (λ len. len ≤ length room.new) }
        ensures written { IfSome result (λ len. take len room.new ≡ text self.now) }
        ensures fits { IfSome result (λ _. Fits self.now) }
        ensures answers { Fits self.now → length (text self.now) + 21 ≤ length room.old → IsSome result };
}

/// What writes into room that is lent for it, and keeps what it learns by that.
pub trait WritesInPlace {
    /// What it may write, by what it was and what it is then.
    ghost Writes: { Self → Self → List ℕ → Type 0 };

    /// It writes something for sure, in room for so many bytes.
    ghost Surely: { Self → ℕ → Type 0 };

    /// Writes at the start of the room, and answers how many bytes. None where nothing is to be taken.
    fn write_in(&mut self, room: &mut [u8]) -> Option<usize>
        ensures within { IfSome result (λ len. len ≤ length room.new) }
        ensures written { IfSome result (λ len. Writes self.old self.new (take len room.new)) }
        ensures answers { Surely self.old (length room.old) → IsSome result };
}

/// What takes bytes.
pub trait Sink {
    /// All bytes that it took, where they are known.
    ghost contents: { Self → Option (List ℕ) };

    /// How often it failed, up to the greatest `u64`.
    ghost failures: { Self → ℕ };

    /// Takes the first bytes of the piece, and answers how many: one at least, unless the piece is empty.
    /// A write that fails takes none.
    fn write(&mut self, bytes: &[u8]) -> Result<usize, SinkFault>
        ensures most { WritesAtMost result bytes.now }
        ensures some { 0 < length bytes.now → IfOk result (λ n. 0 < n) }
        ensures took { WriteAppends (contents self.old) (contents self.new) result bytes.now }
        ensures failures { failures self.new
            ≡ (if is_err result then counted_on (failures self.old) else failures self.old) };

    /// Has the text written into a block of its own, where it takes it whole and can't fail, and answers its length.
    /// None, and nothing is taken, where there is no block, or the text isn't written there. A sink without a block
    /// leaves this as it is.
    fn take_in_place<T: TextInPlace>(&mut self, text: &T) -> Option<usize>
        ensures took { IfSome result (λ len. Appends (contents self.old) (contents self.new) (T.text text.now)) }
        ensures len { IfSome result (λ len. len ≡ length (T.text text.now)) }
        ensures fits { IfSome result (λ len. T.Fits text.now) }
        ensures refused { IsNone result → contents self.new ≡ contents self.old }
        ensures failures { failures self.new ≡ failures self.old }
    {
        let _ = text;
        None
    }

    /// Lends the writer room in a block of its own, and takes what is written there, which can't fail. False, and
    /// nothing is taken, where there is no block, or nothing is to be taken. A sink without a block leaves this as it
    /// is.
    fn lend<T: WritesInPlace>(&mut self, writer: &mut T) -> bool
        ensures took { OnTrue result ((text : List ℕ) × T.Writes writer.old writer.new text
            × Appends (contents self.old) (contents self.new) text) }
        ensures refused { OnFalse result (contents self.new ≡ contents self.old) }
        ensures failures { failures self.new ≡ failures self.old }
    {
        let _ = writer;
        false
    }
}

impl<K: Sink> Sink for &mut K {
    ghost contents = { λ s. K.contents s.now };

    ghost failures = { λ s. K.failures s.now };

    fn write(&mut self, bytes: &[u8]) -> Result<usize, SinkFault> {
        Sink::write(&mut **self, bytes)
    }

    #[inline(always)]
    fn take_in_place<T: TextInPlace>(&mut self, text: &T) -> Option<usize> {
        Sink::take_in_place(&mut **self, text)
    }

    #[inline(always)]
    fn lend<T: WritesInPlace>(&mut self, writer: &mut T) -> bool {
        Sink::lend(&mut **self, writer)
    }
}
