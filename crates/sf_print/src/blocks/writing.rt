//! What a writer takes of some bytes.
ghost use Rattle.std.specs.Prelude.{◌<◌, IfOk};
ghost use Rattle.std.specs.Io.{WritesAtMost};
ghost use Rattle.std.specs.Io.KnownBytes.{Keeps, WriteAppends};

use std::io::{self, ErrorKind, Write};

/// How often the writer is asked anew where a write is interrupted.
const TRIES: u64 = u64::MAX;

/// What the writer takes of the bytes: some, or why it failed. A write that is interrupted is tried again; one that
/// takes no byte has failed.
pub(crate) fn write_some<W: Write>(writer: &mut W, bytes: &[u8]) -> io::Result<usize>
    ensures most { WritesAtMost result bytes.now }
    ensures some { IfOk result (λ n. 0 < n) }
    ensures took { WriteAppends (W.contents writer.old) (W.contents writer.new) result bytes.now }
{
    for _ in 0..TRIES {
        match writer.write(bytes) {
            Ok(count) if count > 0 => return Ok(count),
            Ok(_) => return Err(io::Error::from(ErrorKind::WriteZero)),
            Err(error) if error.kind() == ErrorKind::Interrupted => {}
            Err(error) => return Err(error),
        }
    }
    Err(io::Error::from(ErrorKind::Interrupted))
}
