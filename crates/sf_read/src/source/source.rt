//! Where bytes come from.
ghost use Rattle.std.specs.Prelude.{◌≡◌, ℕ, List, Option, is_err, if◌then◌else◌};
ghost use Rattle.std.specs.Io.{ReadsAtMost};
ghost use Rattle.std.specs.Io.KnownBytes.{ReadConsumes};
ghost use Rattle.sf_read.specs.source.Counts.{counted_on};

use thiserror::Error;

/// A read failed.
#[derive(Clone, Copy, Debug, Error, PartialEq, Eq)]
#[error("read fault")]
pub struct SourceFault;

/// Gives bytes, some at each read.
pub trait Source: Drop {
    // The bytes that reads will give, where they are known.
    ghost to_come: { Self → Option (List ℕ) };

    // How many reads there were, and how many of them failed. Both stay at 2^64 - 1.
    ghost reads: { Self → ℕ };

    ghost failures: { Self → ℕ };

    /// Writes the next bytes to the front of the buffer, and answers how many. Writes none only where none are to come,
    /// or where the buffer is empty. A read that failed gave no bytes.
    fn read(&mut self, buf: &mut [u8]) -> Result<usize, SourceFault>
        ensures bound { ReadsAtMost result buf.new }
        ensures bytes { ReadConsumes (to_come self.old) (to_come self.new) result buf.new }
        ensures reads { reads self.new ≡ counted_on (reads self.old) }
        ensures failures { failures self.new ≡ (if is_err result then counted_on
            (failures self.old) else failures self.old) };
}

impl<S: Source> Source for &mut S {
    ghost to_come = { λ s. S.to_come s.now };

    ghost reads = { λ s. S.reads s.now };

    ghost failures = { λ s. S.failures s.now };

    fn read(&mut self, buf: &mut [u8]) -> Result<usize, SourceFault> {
        Source::read(&mut **self, buf)
    }
}
