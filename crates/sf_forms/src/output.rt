//! Whole texts on their way to a sink.
ghost use Rattle.std.specs.Prelude.{◌≡◌, ◌∷◌, ◌++◌, ℕ, List, IfOk, IfErr, is_err, if◌then◌else◌};
ghost use Rattle.std.specs.Io.KnownBytes.{Appends};
ghost use Rattle.sf_print.specs.sink.Sinks.{counted_on};

use sf_print::{Sink, SinkFault};

/// Hands the sink all bytes of what is left of a text, as `write_whole` does.
#[cold]
#[inline(never)]
fn write_rest<K: Sink>(to: &mut K, rest: &[u8]) -> Result<(), SinkFault>
    ensures took { IfOk result (λ _. Appends (K.contents to.old) (K.contents to.new) rest.now) }
    ensures failed { IfErr result (λ _. (front : List ℕ) × (missing : ℕ) × (after : List ℕ)
        × (rest.now ≡ front ++ missing ∷ after) × Appends (K.contents to.old) (K.contents to.new) front) }
    ensures failures { K.failures to.new
        ≡ (if is_err result then counted_on (K.failures to.old) else K.failures to.old) }
{
    let mut done = 0;
    while done < rest.len() {
        match to.write(&rest[done..]) {
            Ok(count) => done += count,
            Err(fault) => return Err(fault),
        }
    }
    Ok(())
}

/// Hands the sink all bytes of a text. Where it fails, it has taken a front of them, and some are missing.
#[inline(always)]
pub fn write_whole<K: Sink>(to: &mut K, bytes: &[u8]) -> Result<(), SinkFault>
    ensures took { IfOk result (λ _. Appends (K.contents to.old) (K.contents to.new) bytes.now) }
    ensures failed { IfErr result (λ _. (front : List ℕ) × (missing : ℕ) × (rest : List ℕ)
        × (bytes.now ≡ front ++ missing ∷ rest) × Appends (K.contents to.old) (K.contents to.new) front) }
    ensures failures { K.failures to.new
        ≡ (if is_err result then counted_on (K.failures to.old) else K.failures to.old) }
{
    if bytes.is_empty() {
        return Ok(());
    }
    match to.write(bytes) {
        Ok(count) if count < bytes.len() => write_rest(to, &bytes[count..]),
        Ok(_) => Ok(()),
        Err(fault) => Err(fault),
    }
}
