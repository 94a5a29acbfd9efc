//! Records copied by a print format and a scan format that are a pair.
ghost use Rattle.std.specs.Prelude.{◌≤◌, IfErr};
ghost use Rattle.sf_command.specs.jobs.Commands.{Copies, CopiesWords, Counts, Unread};

use sf_format::{PrintFormat, Profile, ScanFormat};
use sf_messages::CommandFault;
use sf_pair::Pair;
use sf_print::Sink;
use sf_read::{Lookahead, Source};
use sf_records::run_copy;
use std::alloc::Global;

/// Copies the records of an input by the formats, where they are a pair.
pub(crate) fn copy_by<S: Source, K: Sink, const N: usize>(
    alloc: Global,
    print: &PrintFormat,
    scan: &ScanFormat,
    limit: u32,
    from: &mut Lookahead<S, N>,
    out: &mut K,
) -> Result<u8, CommandFault>
    requires { limit ≤ 2147483647 }
    ensures copies { Copies S.to_come S.failures limit print.now scan.now from.old from.new (K.contents out.old)
        (K.contents out.new) result }
    ensures unread { IfErr result (λ fault. Unread fault from.old from.new out.old out.new) }
    ensures failures { Counts (K.failures out.old) (K.failures out.new) result }
{
    let pair = match Pair::check(print, scan) {
        Ok(pair) => pair,
        Err(fault) => return Err(CommandFault::Pair(fault)),
    };
    match run_copy(alloc, from, out, &pair, limit).fault {
        None => Ok(0),
        Some(fault) => Err(CommandFault::Record(fault)),
    }
}
