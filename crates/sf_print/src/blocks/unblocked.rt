//! A writer with nothing in front of it.
ghost use Rattle.std.specs.Prelude.{◌≡◌};

use crate::blocks::writing::write_some;
use crate::{Sink, SinkFault};
use std::io::Write;

/// A writer that is handed each text at once. What it took is known as far as the writer's contract knows its bytes.
#[derive(Drop)]
pub struct Unblocked<W: Write + Drop> {
    writer: W,
    failures: u64,
}

impl<W: Write + Drop> Unblocked<W> {
    /// A sink that hands on to the writer.
    pub fn new(writer: W) -> Unblocked<W>
        ensures contents { ⟦<Unblocked<W> as Sink>⟧.contents result ≡ W.contents writer }
        ensures failures { ⟦<Unblocked<W> as Sink>⟧.failures result ≡ 0 }
    {
        Unblocked {
            writer,
            failures: 0,
        }
    }

    /// The writer, given back.
    pub fn into_writer(self) -> W
        ensures { W.contents result ≡ ⟦<Unblocked<W> as Sink>⟧.contents self }
    {
        self.writer
    }
}

impl<W: Write + Drop> Sink for Unblocked<W> {
    ghost contents = { λ s. W.contents s.writer };

    ghost failures = { λ s. s.failures };

    fn write(&mut self, bytes: &[u8]) -> Result<usize, SinkFault> {
        if bytes.is_empty() {
            return Ok(0);
        }
        match write_some(&mut self.writer, bytes) {
            Ok(count) => Ok(count),
            Err(_) => {
                self.failures = self.failures.saturating_add(1);
                Err(SinkFault)
            }
        }
    }
}
