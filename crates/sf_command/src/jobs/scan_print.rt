//! Records that a scan writes by a print format.
ghost use Rattle.std.specs.Prelude.{◌≤◌, IfErr};
ghost use Rattle.sf_forms.specs.makers.Prints.{IsPrintable};
ghost use Rattle.sf_command.specs.jobs.Commands.{Counts, ScansPrint, Unread};

use sf_format::{PrintFormat, ScanFormat};
use sf_messages::CommandFault;
use sf_print::Sink;
use sf_read::{Lookahead, Source};
use sf_records::run_scan_print;
use std::alloc::Global;

/// Scans the records of an input by the one format, and prints each by the other, which can print them.
pub(crate) fn scan_print_by<S: Source, K: Sink, const N: usize>(
    alloc: Global,
    print: &PrintFormat,
    scan: &ScanFormat,
    limit: u32,
    from: &mut Lookahead<S, N>,
    out: &mut K,
) -> Result<u8, CommandFault>
    requires limit { limit ≤ 2147483647 }
    requires printable { IsPrintable print.now scan.now }
    ensures scans { ScansPrint S.to_come S.failures limit print.now scan.now from.old from.new (K.contents out.old)
        (K.contents out.new) result }
    ensures unread { IfErr result (λ fault. Unread fault from.old from.new out.old out.new) }
    ensures failures { Counts (K.failures out.old) (K.failures out.new) result }
{
    match run_scan_print(alloc, from, out, scan, print, limit).fault {
        None => Ok(0),
        Some(fault) => Err(CommandFault::Record(fault)),
    }
}
