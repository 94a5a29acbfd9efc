//! The output and the error output of a command, and what a message makes of the output.
ghost use Rattle.std.specs.Prelude.{◌≡◌, ℕ, List, Option, IfOk, IfErr, is_err, if◌then◌else◌};
ghost use Rattle.std.specs.Io.KnownBytes.{Appends, Keeps};
ghost use Rattle.std.specs.declared.io.Error.{Error};
ghost use Rattle.sf_print.specs.sink.Sinks.{counted_on};
ghost use Rattle.sf_records.specs.Judging.{TakesPart};

use sf_print::{BlockSink, Sink, SinkFault, Unblocked};
use sf_records::write_whole;
use std::io::{self, Write};

/// How an output of records and an error output of messages stand together. What waits in the output goes before the
/// message that follows it: no text goes to the error output but where the output is handed on.
pub trait Console<K: Sink, E> {
    // All bytes that the error output took, where they are known.
    ghost said: { E → Option (List ℕ) };

    // How often the error output failed, up to the greatest `u64`.
    ghost unsaid: { E → ℕ };

    // What becomes of the output where a message comes.
    ghost Hands: { K → K → Type 0 };

    // Why the last of the writes and flushes of the output failed that did, where that is known.
    ghost why: { K → Option Error };

    // Nothing waits in the output, or it can't be handed on.
    ghost IsHandedOn: { K → Type 0 };

    /// Hands on what waits in the output.
    fn hand_on(out: &mut K)
        ensures hands { Hands out.old out.new }
        ensures ready { IsHandedOn out.new }
        ensures taken { Keeps (K.contents out.old) (K.contents out.new) }
        ensures failures { K.failures out.new ≡ K.failures out.old };

    /// Why the last of the writes and flushes of the output failed that did, where that is known.
    fn why(out: &K) -> Option<io::Error>
        ensures { result ≡ why out.now };

    /// Hands the error output all bytes of a text, at once.
    fn write(out: &K, err: &mut E, text: &[u8]) -> Result<(), SinkFault>
        requires { IsHandedOn out.now }
        ensures took { IfOk result (λ _. Appends (said err.old) (said err.new) text.now) }
        ensures failed { IfErr result (λ _. TakesPart (said err.old) (said err.new) text.now) }
        ensures failures { unsaid err.new ≡ (if is_err result then counted_on (unsaid err.old) else unsaid err.old) };
}

/// Two sinks of a caller: a message leaves the output alone.
pub struct Apart;

impl<K: Sink, E: Sink> Console<K, E> for Apart {
    ghost said = { E.contents };

    ghost unsaid = { E.failures };

    ghost use Rattle.std.specs.Prelude.{None};

    ghost Hands = { λ before after. after ≡ before };

    ghost why = { λ out. None };

    ghost IsHandedOn = { λ out. Unit {0} };

    fn hand_on(_out: &mut K) {}

    fn why(_out: &K) -> Option<io::Error> {
        None
    }

    fn write(_out: &K, err: &mut E, text: &[u8]) -> Result<(), SinkFault> {
        write_whole(err, text)
    }
}

/// The streams of a program: what waits in the block of the output is handed on before a message.
pub struct InOrder;

impl<W: Write + Drop, E: Write + Drop> Console<BlockSink<W>, Unblocked<E>> for InOrder {
    ghost use Rattle.sf_print.specs.blocks.Blocks.{IsHandedOn, last_error_of};
    ghost use Rattle.sf_command.specs.console.Hands.{HandsOn};

    ghost said = { ⟦<Unblocked<E> as Sink>⟧.contents };

    ghost unsaid = { ⟦<Unblocked<E> as Sink>⟧.failures };

    ghost Hands = { HandsOn };

    ghost why = { last_error_of };

    ghost IsHandedOn = { IsHandedOn };

    fn hand_on(out: &mut BlockSink<W>) {
        match out.flush() {
            Ok(()) => {}
            Err(_) => {}
        }
    }

    fn why(out: &BlockSink<W>) -> Option<io::Error> {
        out.last_error()
    }

    fn write(_out: &BlockSink<W>, err: &mut Unblocked<E>, text: &[u8]) -> Result<(), SinkFault> {
        write_whole(err, text)
    }
}
