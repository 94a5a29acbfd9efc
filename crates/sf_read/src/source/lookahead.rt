//! Bytes that were read ahead.
ghost use Rattle.std.specs.Prelude.{◌≡◌, ◌≤◌, ◌<◌, ◌⊎◌, ℕ, [], true, false, length, drop, IfOk, IfErr, is_err};
ghost use Rattle.std.specs.Prelude.{if◌then◌else◌};
ghost use Rattle.std.specs.Io.KnownBytes.{Consumes, IsAtEnd};
ghost use Rattle.sf_read.specs.source.Counts.{counted_on};

use crate::source::{Source, SourceFault};
use std::marker::Model;

/// A source, and at most `N` bytes that were read from it and are not consumed yet. `N` is at least 1.
#[derive(Drop)]
pub struct Lookahead<S: Source, const N: usize> {
    source: S,
    block: [u8; N],
    start: usize,
    end: usize,
    at_end: bool,
}

impl<S: Source, const N: usize> Model for Lookahead<S, N> {
    ghost use Rattle.std.specs.Prelude.{◌≤◌, ◌≡◌, true, slice_range, length};
    ghost use Rattle.std.specs.Io.KnownBytes.{IsAtEnd};
    ghost use Rattle.sf_read.specs.source.Ahead.{Ahead, ahead_code};

    ghost Value = { Ahead S };

    ghost coded = { ahead_code S.code };

    ghost view = { λ a. record { held = slice_range a.block a.start a.end; source = a.source; at_end = a.at_end } };

    ghost invariant = { λ a. record {
      ordered : a.start ≤ a.end;
      within : a.end ≤ N;
      sized : length a.block ≡ N;
      some_room : 1 ≤ N;
      used_up : a.at_end ≡ true → a.start ≡ a.end;
      told : a.at_end ≡ true → IsAtEnd (S.to_come a.source);
    } };
}

impl<S: Source, const N: usize> Lookahead<S, N> {
    /// Holds nothing yet.
    pub fn new(source: S) -> Self
        requires { 1 ≤ N }
        ensures held { result.held ≡ [] }
        ensures source { result.source ≡ source }
        ensures fresh { result.at_end ≡ false }
    {
        Lookahead {
            source,
            block: [0; N],
            start: 0,
            end: 0,
            at_end: false,
        }
    }

    /// The bytes that were read and are not consumed yet.
    pub fn held(&self) -> &[u8]
        ensures held { result.now ≡ self.now.held }
        ensures few { length result.now ≤ N }
    {
        let all = &self.block[..];
        &all[self.start..self.end]
    }

    /// The source behind them.
    pub fn source(&self) -> &S
        ensures { result.now ≡ self.now.source }
    {
        &self.source
    }

    /// The source, given back. What is held is dropped.
    pub fn into_source(self) -> S
        ensures source { result ≡ self.source }
        ensures few { length self.held ≤ N }
    {
        self.source
    }

    /// Whether the source has told its end; then nothing is held, and nothing is to come.
    pub fn is_at_end(&self) -> bool
        ensures is { result ≡ self.now.at_end }
        ensures held { result ≡ true → self.now.held ≡ [] }
        ensures told { result ≡ true → IsAtEnd (S.to_come self.now.source) }
    {
        self.at_end
    }

    /// Takes away so many of the bytes that are held, from the first on.
    pub fn consume(&mut self, count: usize)
        requires { count ≤ length self.old.held }
        ensures held { self.new.held ≡ drop count self.old.held }
        ensures source { self.new.source ≡ self.old.source }
        ensures at_end { self.new.at_end ≡ self.old.at_end }
        ensures told { self.new.at_end ≡ true → IsAtEnd (S.to_come self.new.source) }
    {
        self.start += count;
    }

    /// Reads a block, where nothing is held and the source has not told its end: afterwards it has, or some bytes are
    /// held. Where the read fails, nothing is held, and the source may be read again.
    pub fn refill(&mut self) -> Result<(), SourceFault>
        requires empty { self.old.held ≡ [] }
        requires open { self.old.at_end ≡ false }
        ensures reads { S.reads self.new.source ≡ counted_on (S.reads self.old.source) }
        ensures failures { S.failures self.new.source ≡ (if is_err result then counted_on
            (S.failures self.old.source) else S.failures self.old.source) }
        ensures bytes { Consumes (S.to_come self.old.source) (S.to_come self.new.source) self.new.held }
        ensures few { length self.new.held ≤ N }
        ensures read { IfOk result (λ _. ((self.new.at_end ≡ false) × (0 < length self.new.held))
            ⊎ ((self.new.at_end ≡ true) × (self.new.held ≡ []))) }
        ensures failed { IfErr result (λ _. (self.new.at_end ≡ false) × (self.new.held ≡ [])) }
    {
        match self.source.read(&mut self.block) {
            Ok(count) => {
                self.start = 0;
                self.end = count;
                self.at_end = count == 0;
                Ok(())
            }
            Err(SourceFault) => Err(SourceFault),
        }
    }
}
