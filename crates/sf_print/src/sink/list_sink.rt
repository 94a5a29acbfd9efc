//! A sink in memory.
ghost use Rattle.std.specs.Prelude.{◌≡◌, ◌<◌, Some, [], IfOk, length, is_err, if◌then◌else◌};
ghost use Rattle.std.specs.Io.{WritesAtMost};
ghost use Rattle.std.specs.Io.KnownBytes.{WriteAppends};
ghost use Rattle.sf_print.specs.sink.Sinks.{counted_on};

use crate::sink::sink::{Sink, SinkFault};
use std::alloc::Global;
use std::marker::Model;

/// A list that grows. A write fails only where the growth was refused.
#[derive(Debug, Drop)]
pub struct ListSink {
    list: Vec<u8>,
    failures: u64,
}

impl Model for ListSink {
    ghost use Rattle.sf_print.specs.sink.Sinks.{Listed};

    ghost Value = { Listed };

    ghost view = { λ s. record { bytes = s.list.items; failures = s.failures } };
}

impl ListSink {
    /// An empty list.
    pub fn new(alloc: Global) -> ListSink
        ensures { result ≡ record { bytes = []; failures = 0 } }
    {
        ListSink {
            list: Vec::new(alloc),
            failures: 0,
        }
    }

    /// All bytes that it took.
    pub fn bytes(&self) -> &[u8]
        ensures { result.now ≡ self.now.bytes }
    {
        self.list.as_slice()
    }
}

impl Sink for ListSink {
    ghost contents = { λ s. Some s.bytes };

    ghost failures = { λ s. s.failures };

    /// Takes the whole piece, or fails.
    fn write(&mut self, bytes: &[u8]) -> Result<usize, SinkFault>
        ensures most { WritesAtMost result bytes.now }
        ensures some { 0 < length bytes.now → IfOk result (λ n. 0 < n) }
        ensures took { WriteAppends (Some self.old.bytes) (Some self.new.bytes) result bytes.now }
        ensures failures { self.new.failures
            ≡ (if is_err result then counted_on self.old.failures else self.old.failures) }
        ensures all { IfOk result (λ n. n ≡ length bytes.now) }
    {
        match self.list.extend_from_slice(bytes) {
            Ok(()) => Ok(bytes.len()),
            Err(_) => {
                self.failures = self.failures.saturating_add(1);
                Err(SinkFault)
            }
        }
    }
}
