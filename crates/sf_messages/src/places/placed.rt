//! A source that knows where in its input it is.
ghost use Rattle.std.specs.Prelude.{◌≡◌, ◌≤◌, ◌++◌, ◌↔◌, [], ℕ, List, Option, Some, IfSome, IsSome, IfOk, IfErr};
ghost use Rattle.std.specs.Prelude.{is_err, if◌then◌else◌, length, take};
ghost use Rattle.std.specs.Io.{ReadsAtMost};
ghost use Rattle.std.specs.Io.KnownBytes.{ReadConsumes};
ghost use Rattle.sf_read.specs.source.Counts.{counted_on};
ghost use Rattle.sf_messages.specs.places.Behind.{IsBehind};

use crate::places::Place;
use arrayvec::ArrayVec;
use sf_read::{Source, SourceFault};
use std::marker::{Brand, Model, PhantomData};

/// The most bytes that one read gives.
pub const BLOCK_BYTES: usize = 16_384;

/// The whole input of a source, where that is known. A call picks it.
pub trait Input {
    ghost input: { Option (List ℕ) };
}

impl Input for Brand {
    ghost use Rattle.std.specs.Prelude.{None};

    ghost input = { None };
}

/// A source with an account of the lines that it has given. It keeps the bytes of the last read, and gives at most
/// `BLOCK_BYTES` at once.
#[derive(Drop)]
pub struct Placed<S: Source, I: Input> {
    source: S,
    last: ArrayVec<u8, BLOCK_BYTES>,
    place: Place,
    of: PhantomData<I>,
}

impl<S: Source, I: Input> Model for Placed<S, I> {
    ghost use Rattle.sf_messages.specs.places.Accounts.{Account, IsKept, account_code};

    ghost Value = { Account S };

    ghost coded = { account_code S.code };

    ghost view = { λ p. record { source = p.source; last = p.last.items; place = p.place } };

    ghost invariant = { λ p. IsKept I.input (S.to_come p.source) p.last.items p.place };
}

impl<S: Source, I: Input> Placed<S, I> {
    /// Has given nothing yet.
    pub fn new(source: S) -> Self
        requires { I.input ≡ S.to_come source }
        ensures { result.source ≡ source }
    {
        Placed {
            source,
            last: ArrayVec::new(),
            place: Place::first(),
            of: PhantomData,
        }
    }

    /// The source.
    pub fn source(&self) -> &S
        ensures { result.now ≡ self.now.source }
    {
        &self.source
    }

    /// The source, given back.
    pub fn into_source(self) -> S
        ensures { result ≡ self.source }
    {
        self.source
    }

    /// The place before the bytes that it gave last. None where they are more than those of the last read.
    pub fn place_before(&self, held: &[u8]) -> Option<Place>
        ensures known { IsSome result ↔ (length held.now ≤ length self.now.last) }
        ensures behind { IfSome result (λ place. (c z : List ℕ) → I.input ≡ Some (c ++ (held.now ++ z))
            → S.to_come self.now.source ≡ Some z → IsBehind c place) }
    {
        let count = self.last.len().checked_sub(held.len())?;
        Some(self.place.behind(&self.last[..count]))
    }

    /// Moves the place past the bytes of the last read.
    fn pass(&mut self)
        ensures last { self.new.last ≡ [] }
        ensures source { self.new.source ≡ self.old.source }
    {
        self.place = self.place.behind(&self.last);
        self.last.clear();
    }
}

impl<S: Source, I: Input> Source for Placed<S, I> {
    ghost to_come = { λ p. S.to_come p.source };

    ghost reads = { λ p. S.reads p.source };

    ghost failures = { λ p. S.failures p.source };

    /// Keeps the bytes that it gave, and none where it failed.
    fn read(&mut self, buf: &mut [u8]) -> Result<usize, SourceFault>
        ensures bound { ReadsAtMost result buf.new }
        ensures bytes { ReadConsumes (S.to_come self.old.source) (S.to_come self.new.source) result buf.new }
        ensures reads { S.reads self.new.source ≡ counted_on (S.reads self.old.source) }
        ensures failures { S.failures self.new.source ≡ (if is_err result then counted_on
            (S.failures self.old.source) else S.failures self.old.source) }
        ensures kept { IfOk result (λ count. self.new.last ≡ take count buf.new) }
        ensures failed { IfErr result (λ _. self.new.last ≡ []) }
    {
        self.pass();
        let room = buf.len().min(BLOCK_BYTES);
        let count = self.source.read(&mut buf[..room])?;
        let _ = self.last.try_extend_from_slice(&buf[..count]);
        Ok(count)
    }
}
