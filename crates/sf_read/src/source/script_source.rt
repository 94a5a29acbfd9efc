//! A source that follows a script, for tests.
ghost use Rattle.std.specs.Prelude.{◌≡◌, ◌≢◌, ◌<◌, ◌++◌, ◌∷◌, [], None, Some, IfOk, IfErr, IsOk, is_err, if◌then◌else◌};
ghost use Rattle.std.specs.Prelude.{length, min, take};
ghost use Rattle.std.specs.Counts.{IsPrefixLen};
ghost use Rattle.std.specs.Io.{ReadsAtMost};
ghost use Rattle.std.specs.Io.KnownBytes.{ReadConsumes};
ghost use Rattle.sf_read.specs.source.Counts.{counted_on};
ghost use Rattle.sf_read.specs.source.Scripts.{given, events, bytes_of, left_of};

use crate::source::{Source, SourceFault};
use std::marker::Model;

/// What a script does next.
#[derive(Clone, Copy, Debug)]
pub enum ReadStep<'a> {
    /// Reads give these bytes, each as many as its buffer holds. An empty text is passed over.
    Give(&'a [u8]),
    /// One read fails.
    Fail,
}

/// Gives what a script has, and then nothing more.
#[derive(Drop)]
pub struct ScriptSource<'a> {
    present: &'a [u8],
    steps: &'a [ReadStep<'a>],
    reads: u64,
    failures: u64,
}

impl<'a> Model for ScriptSource<'a> {
    ghost use Rattle.sf_read.specs.source.Scripts.{ScriptState, events};

    ghost Value = { ScriptState };

    ghost view = { λ s. record {
      present = s.present.now;
      later = events s.steps.now;
      reads = s.reads;
      failures =
          s.failures;
    } };
}

impl<'a> ScriptSource<'a> {
    pub fn new(steps: &'a [ReadStep<'a>]) -> ScriptSource<'a>
        ensures { result ≡ record { present = []; later = events steps.entry.now; reads = 0; failures = 0 } }
    {
        ScriptSource {
            present: &[],
            steps,
            reads: 0,
            failures: 0,
        }
    }

    /// How many reads there were.
    pub fn reads(&self) -> u64
        ensures { result ≡ self.now.reads }
    {
        self.reads
    }

    /// How many reads failed.
    pub fn failures(&self) -> u64
        ensures { result ≡ self.now.failures }
    {
        self.failures
    }

    /// Makes the next text the present one, where the present one is used up.
    fn advance(&mut self) -> Result<(), SourceFault>
        ensures left { IfOk result (λ _. left_of self.new ≡ left_of self.old) }
        ensures failed { IfErr result (λ _. left_of self.old ≡ None ∷ left_of self.new) }
        ensures ready { IfOk result (λ _. self.new.present ≡ [] → self.new.later ≡ []) }
        ensures reads { self.new.reads ≡ self.old.reads }
        ensures failures { self.new.failures ≡ (if is_err result then counted_on self.old.failures else
            self.old.failures) }
        ensures stays { self.old.present ≢ [] → (self.new.present ≡ self.old.present) × IsOk result }
    {
        'steps: while self.present.is_empty() {
            match self.steps {
                [] => return Ok(()),
                [ReadStep::Give(text), rest @ ..] => {
                    self.present = text;
                    self.steps = rest;
                }
                [ReadStep::Fail, rest @ ..] => {
                    self.steps = rest;
                    self.failures = self.failures.saturating_add(1);
                    return Err(SourceFault);
                }
            }
        }
        Ok(())
    }

    /// Gives bytes of the present text.
    fn give(&mut self, buf: &mut [u8]) -> usize
        ensures bound { IsPrefixLen result buf.new }
        ensures present { self.old.present ≡ take result buf.new ++ self.new.present }
        ensures count { result ≡ min (length buf.new) (length self.old.present) }
        ensures filled { result < length buf.new → self.new.present ≡ [] }
        ensures later { self.new.later ≡ self.old.later }
        ensures end { result ≡ 0 → 0 < length buf.new → self.new.present ≡ [] }
        ensures reads { self.new.reads ≡ self.old.reads }
        ensures failures { self.new.failures ≡ self.old.failures }
    {
        let count = buf.len().min(self.present.len());
        let (front, rest) = self.present.split_at(count);
        buf[..count].copy_from_slice(front);
        self.present = rest;
        count
    }
}

impl Source for ScriptSource<'_> {
    ghost use Rattle.std.specs.Prelude.{Some};
    ghost use Rattle.sf_read.specs.source.Scripts.{bytes_of, left_of};

    ghost to_come = { λ s. Some (bytes_of (left_of s)) };

    ghost reads = { λ s. s.reads };

    ghost failures = { λ s. s.failures };

    /// Fails exactly where the script has a failure next. Else it gives as many bytes of the present text as the buffer
    /// holds.
    fn read(&mut self, buf: &mut [u8]) -> Result<usize, SourceFault>
        ensures bound { ReadsAtMost result buf.new }
        ensures bytes { ReadConsumes (Some (bytes_of (left_of self.old)))
            (Some (bytes_of (left_of self.new))) result buf.new }
        ensures reads { self.new.reads ≡ counted_on self.old.reads }
        ensures failures { self.new.failures ≡ (if is_err result then counted_on self.old.failures else
            self.old.failures) }
        ensures gave { IfOk result (λ count. left_of self.old ≡ given (take count buf.new) ++ left_of self.new) }
        ensures end { IfOk result (λ count. count ≡ 0 → 0 < length buf.new → left_of self.old ≡ []) }
        ensures count { self.old.present ≢ [] → IfOk result
            (λ count. count ≡ min (length buf.new) (length self.old.present)) }
        ensures filled { IfOk result (λ count. count < length buf.new → self.new.present ≡ []) }
        ensures failed { IfErr result (λ _. left_of self.old ≡ None ∷ left_of self.new) }
    {
        self.reads = self.reads.saturating_add(1);
        self.advance()?;
        Ok(self.give(buf))
    }
}
