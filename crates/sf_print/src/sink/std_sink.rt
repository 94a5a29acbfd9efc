//! Any writer as a sink.
ghost use Rattle.std.specs.Prelude.{◌≡◌};

use crate::sink::sink::{Sink, SinkFault};
use std::io::Write;

/// A writer. Its bytes are known as far as the writer's contract knows them. A writer that takes no byte of a nonempty
/// piece has failed.
#[derive(Drop)]
pub struct StdSink<W: Write + Drop> {
    writer: W,
    failures: u64,
}

impl<W: Write + Drop> StdSink<W> {
    /// A sink that hands on to the writer.
    pub fn new(writer: W) -> StdSink<W>
        ensures contents { ⟦<StdSink<W> as Sink>⟧.contents result ≡ W.contents writer }
        ensures failures { ⟦<StdSink<W> as Sink>⟧.failures result ≡ 0 }
    {
        StdSink {
            writer,
            failures: 0,
        }
    }

    /// The writer, as for a flush.
    pub fn into_writer(self) -> W
        ensures { W.contents result ≡ ⟦<StdSink<W> as Sink>⟧.contents self }
    {
        self.writer
    }
}

impl<W: Write + Drop> Sink for StdSink<W> {
    ghost contents = { λ s. W.contents s.writer };

    ghost failures = { λ s. s.failures };

    fn write(&mut self, bytes: &[u8]) -> Result<usize, SinkFault> {
        match self.writer.write(bytes) {
            Ok(n) if n > 0 || bytes.is_empty() => Ok(n),
            _ => {
                self.failures = self.failures.saturating_add(1);
                Err(SinkFault)
            }
        }
    }
}
