//! A sink that follows a script, for tests.
ghost use Rattle.std.specs.Prelude.{◌≡◌, ◌<◌, ◌≤◌, ◌-◌, [], ◌∷◌, Some, None, is_none, IfSome, OnSome, IfOk, length};
ghost use Rattle.std.specs.Prelude.{is_err, if◌then◌else◌};
ghost use Rattle.sf_print.specs.declared.sink.script_sink.WriteStep.TheVariants.{Accept};
ghost use Rattle.std.specs.Result.{result_ok};
ghost use Rattle.std.specs.Io.{WritesAtMost};
ghost use Rattle.std.specs.Io.KnownBytes.{WriteAppends};
ghost use Rattle.sf_print.specs.sink.Scripts.{allowed, ready, left_by};
ghost use Rattle.sf_print.specs.sink.Sinks.{counted_on};

use crate::sink::sink::{Sink, SinkFault};
use std::alloc::Global;
use std::marker::Model;

/// A step of a script.
#[derive(Clone, Copy, Debug)]
pub enum WriteStep {
    /// The next bytes are taken, this many, over as many writes as come.
    Accept(usize),
    /// One write fails.
    Fail,
}

/// What is left of a script: of its present step, and the steps after it.
#[derive(Debug, Drop)]
struct Script<'a> {
    left: usize,
    steps: &'a [WriteStep],
}

impl Script<'_> {
    /// How many bytes of so many the next write takes; None where it fails.
    fn allow(&mut self, len: usize) -> Option<usize>
        ensures value { result ≡ allowed len (Accept self.old.left ∷ self.old.steps.now) }
        ensures most { IfSome result (λ n. n ≤ len) }
        ensures some { 0 < len → IfSome result (λ n. 0 < n) }
        ensures at { OnSome result (self.new.left ≡ 0 → self.new.steps.now ≡ []) }
        ensures script { let old = ready (Accept self.old.left ∷ self.old.steps.now) in
            ready (Accept self.new.left ∷ self.new.steps.now) ≡ (if is_none result then left_by None old else old) }
    {
        'steps: while self.left == 0 {
            match self.steps {
                [] => return Some(len),
                [WriteStep::Accept(n), rest @ ..] => {
                    self.left = *n;
                    self.steps = rest;
                }
                [WriteStep::Fail, rest @ ..] => {
                    self.steps = rest;
                    return None;
                }
            }
        }
        Some(len.min(self.left))
    }

    /// So many bytes were taken.
    fn pass(&mut self, taken: usize)
        ensures left { self.new.left ≡ self.old.left - taken }
        ensures steps { self.new.steps.now ≡ self.old.steps.now }
    {
        self.left = self.left.saturating_sub(taken);
    }
}

/// A list that grows by the steps of a script; after them it takes all. A refused growth is a failed write.
#[derive(Debug, Drop)]
pub struct ScriptSink<'a> {
    list: Vec<u8>,
    script: Script<'a>,
    failures: u64,
}

impl<'a> Model for ScriptSink<'a> {
    ghost use Rattle.std.specs.Prelude.{◌∷◌};
    ghost use Rattle.sf_print.specs.declared.sink.script_sink.WriteStep.TheVariants.{Accept};
    ghost use Rattle.sf_print.specs.sink.Scripts.{Scripted};

    ghost Value = { Scripted };

    ghost view = { λ s. record {
      bytes = s.list.items;
      failures = s.failures;
      script =
          Accept s.script.left ∷ s.script.steps.now;
    } };
}

impl<'a> ScriptSink<'a> {
    /// An empty list, at the first step.
    pub fn new(alloc: Global, steps: &'a [WriteStep]) -> ScriptSink<'a>
        ensures { result ≡ record { bytes = []; failures = 0; script = Accept 0 ∷ steps.entry.now } }
    {
        ScriptSink {
            list: Vec::new(alloc),
            script: Script { left: 0, steps },
            failures: 0,
        }
    }

    /// All bytes that it took.
    pub fn bytes(&self) -> &[u8]
        ensures { result.now ≡ self.now.bytes }
    {
        self.list.as_slice()
    }
}

impl Sink for ScriptSink<'_> {
    ghost contents = { λ s. Some s.bytes };

    ghost failures = { λ s. s.failures };

    fn write(&mut self, bytes: &[u8]) -> Result<usize, SinkFault>
        ensures most { WritesAtMost result bytes.now }
        ensures some { 0 < length bytes.now → IfOk result (λ n. 0 < n) }
        ensures took { WriteAppends (Some self.old.bytes) (Some self.new.bytes) result bytes.now }
        ensures failures { self.new.failures
            ≡ (if is_err result then counted_on self.old.failures else self.old.failures) }
        ensures allowed { IfOk result (λ n. allowed (length bytes.now) self.old.script ≡ Some n) }
        ensures script { ready self.new.script ≡ left_by (result_ok result) (ready self.old.script) }
    {
        if let Some(taken) = self.script.allow(bytes.len()) {
            if self.list.extend_from_slice(&bytes[..taken]).is_ok() {
                self.script.pass(taken);
                return Ok(taken);
            }
        }
        self.failures = self.failures.saturating_add(1);
        Err(SinkFault)
    }
}
