//! What an order to scan lines says after the line of its answer, by the law that it is one text.
ghost use Rattle.std.specs.Prelude.{◌≡◌, None, false, map, string_bytes};
ghost use Rattle.sf_command_tests.specs.Once.{RunsOnce};

use sf_command::entry::laws::one_is_said;
use sf_command::run_words;
use sf_print::Sink;
use sf_read::{Lookahead, Source};
use std::alloc::Global;

/// Runs the command of the words. Of an order to scan lines, each text that is to be said after the line of its answer
/// is the one that is said, or none is.
pub fn said_once<S: Source, K: Sink, E: Sink, const N: usize>(
    alloc: Global,
    words: &[String],
    from: &mut Lookahead<S, N>,
    out: &mut K,
    err: &mut E,
) -> u8
    ensures { RunsOnce K.contents K.failures (λ before after. after ≡ before) E.contents E.failures S.to_come S.failures
        (λ source. None) (λ out. None) false (map string_bytes words.now) from.old from.new out.old out.new err.old
        err.new result }
{
    one_is_said();
    run_words(alloc, words, from, out, err)
}
