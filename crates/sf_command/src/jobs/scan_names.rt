//! Records that a scan writes under names.
ghost use Rattle.std.specs.Prelude.{◌≡◌, ◌≤◌};
ghost use Rattle.sf_command.specs.jobs.Commands.{ScansByNames, ScansUnder};

use crate::jobs::heads::{header_fault, named_maker, write_header};
use sf_format::ScanFormat;
use sf_forms::FormMaker;
use sf_messages::CommandFault;
use sf_print::Sink;
use sf_read::{Lookahead, Source};
use sf_records::{OutputForm, run_records};
use std::alloc::Global;
use std::slice;

/// Writes the header, where it is due, and then scans the records of an input by the format, and has each written.
fn scan_under<S: Source, K: Sink, const N: usize>(
    alloc: Global,
    maker: &mut FormMaker<'_>,
    due: bool,
    format: &ScanFormat,
    limit: u32,
    from: &mut Lookahead<S, N>,
    out: &mut K,
) -> Result<u8, CommandFault>
    requires { limit ≤ 2147483647 }
    ensures { ScansUnder S.to_come S.failures K.contents K.failures due maker.old limit format.now from.old from.new
        out.old out.new result }
{
    if let Err(why) = write_header(maker, due, out) {
        return Err(header_fault(why));
    }
    match run_records(alloc, from, out, maker, format, limit).fault {
        None => Ok(0),
        Some(fault) => Err(CommandFault::Record(fault)),
    }
}

/// Scans the records of an input by the format, and writes them in this form under the names of the text, where these
/// are names of its values. `due`: whether a header is.
pub(crate) fn scan_named<S: Source, K: Sink, const N: usize>(
    alloc: Global,
    form: OutputForm,
    due: bool,
    names: &str,
    format: &ScanFormat,
    limit: u32,
    from: &mut Lookahead<S, N>,
    out: &mut K,
) -> Result<u8, CommandFault>
    requires { limit ≤ 2147483647 }
    ensures { ScansByNames S.to_come S.failures K.contents K.failures form due names.now limit format.now from.old
        from.new out.old out.new result }
{
    let mut maker = named_maker(alloc, form, names, false, slice::from_ref(format))?;
    scan_under(alloc, &mut maker, due, format, limit, from, out)
}
