//! Bytes of a reader of std.
ghost use Rattle.std.specs.Prelude.{◌≡◌, ◌<◌, ◌↔◌, IsSome};

use crate::source::{Source, SourceFault};
use std::io::{self, Read};

/// Gives the bytes of a reader. They are known as far as the reader's contract knows them.
///
/// Each read is one read of the reader. An interrupted one has failed, and is not asked again.
#[derive(Drop)]
pub struct StdSource<R: Read + Drop> {
    reader: R,
    reads: u64,
    failures: u64,
    /// Why the last of its reads failed that did.
    last_error: Option<io::Error>,
    ghost known: { 0 < failures → IsSome last_error },
    ghost failed: { IsSome last_error → 0 < failures },
}

impl<R: Read + Drop> StdSource<R> {
    /// A source of the bytes that the reader will give. Nothing is read yet, and it takes no memory.
    pub fn new(reader: R) -> StdSource<R>
        ensures to_come { ⟦<StdSource<R> as Source>⟧.to_come result ≡ R.remaining reader }
        ensures reads { ⟦<StdSource<R> as Source>⟧.reads result ≡ 0 }
        ensures failures { ⟦<StdSource<R> as Source>⟧.failures result ≡ 0 }
    {
        StdSource {
            reader,
            reads: 0,
            failures: 0,
            last_error: None,
        }
    }

    /// Why the last of its reads failed that did, as the reader answered it. None where none failed.
    ///
    /// A loop over `&mut` of the source leaves it to be asked after the loop.
    pub fn last_error(&self) -> Option<io::Error>
        ensures known { IsSome result ↔ (0 < ⟦<StdSource<R> as Source>⟧.failures self.now) }
    {
        self.last_error
    }
}

impl<R: Read + Drop> Source for StdSource<R> {
    ghost to_come = { λ s. R.remaining s.reader };

    ghost reads = { λ s. s.reads };

    ghost failures = { λ s. s.failures };

    fn read(&mut self, buf: &mut [u8]) -> Result<usize, SourceFault> {
        self.reads = self.reads.saturating_add(1);
        match self.reader.read(buf) {
            Ok(count) => Ok(count),
            Err(error) => {
                self.last_error = Some(error);
                self.failures = self.failures.saturating_add(1);
                Err(SourceFault)
            }
        }
    }
}
