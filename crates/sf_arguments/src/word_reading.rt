//! How the bytes of a word are read.
ghost use Rattle.std.specs.Prelude.{◌≡◌, ℕ, List, IfOk, IfErr, length};
ghost use Rattle.sf_arguments.specs.Readings.{IsUnread, Reads};

use crate::escape::{escapes_of, resolve};
use std::alloc::{AllocError, Global};

/// How a word whose value is a text is read.
#[derive(Clone, Copy, Debug, PartialEq, Eq)]
pub enum WordReading {
    /// Its escapes are resolved.
    Escaped,
    /// As it stands: a backslash is a byte as any other.
    Raw,
}

/// How many bytes a word stands for; or the offset of the backslash of its first bad escape. It takes no memory.
pub(crate) fn bytes_of(how: WordReading, word: &[u8]) -> Result<usize, usize>
    ensures count { IfOk result (λ count. (bytes : List ℕ) × Reads how word.now bytes × (count ≡ length bytes)) }
    ensures bad { IfErr result (IsUnread how word.now) }
{
    match how {
        WordReading::Escaped => escapes_of(word),
        WordReading::Raw => Ok(word.len()),
    }
}

/// The bytes that a word without a bad escape stands for.
pub(crate) fn read(alloc: Global, how: WordReading, word: &[u8]) -> Result<Vec<u8>, AllocError>
    requires { (bytes : List ℕ) × Reads how word.now bytes }
    ensures { IfOk result (λ bytes. Reads how word.now bytes.items) }
{
    match how {
        WordReading::Escaped => resolve(alloc, word),
        WordReading::Raw => {
            let mut bytes = Vec::new(alloc);
            bytes.extend_from_slice(word)?;
            Ok(bytes)
        }
    }
}
