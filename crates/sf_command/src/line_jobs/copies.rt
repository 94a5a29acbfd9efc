//! The lines of an input, each copied by a pair of formats.
ghost use Rattle.std.specs.Prelude.{◌≡◌, ◌≤◌, IfErr};
ghost use Rattle.sf_format.specs.Grammar.{Spells};
ghost use Rattle.sf_command.specs.jobs.Commands.{grammar_of};
ghost use Rattle.sf_command.specs.jobs.CopyFormats.{IsOwnUnpaired, line_of};
ghost use Rattle.sf_command.specs.line_jobs.Copies.{CopiesAligned, CopiesPair, line_options};
ghost use Rattle.sf_command.specs.console.Fronts.{file_name};

use crate::console::Console;
use crate::jobs::CopyFormats;
use crate::line_jobs::lines::{LineScan, lines_with};
use sf_messages::CommandFault;
use sf_pair::Pair;
use sf_print::Sink;
use sf_read::{Lookahead, Source};
use sf_records::{CopyMaker, LineFormats};
use sf_words::{LineOptions, Order};
use std::alloc::Global;
use std::slice;

/// How lines are scanned for a copy: a line has to be used whole where its newline stands in the format.
fn line_options(options: LineOptions, formats: &CopyFormats) -> LineOptions
    ensures { result ≡ line_options options formats.now }
{
    LineOptions {
        whole: options.whole || formats.front.is_some(),
        ..options
    }
}

/// Copies the lines by a pair; the format by which a line is read, and its bytes, are among its formats.
fn copy_by_pair<S: Source, K: Sink, E, C: Console<K, E>, const N: usize>(
    alloc: Global,
    explain: bool,
    pair: &Pair<'_>,
    formats: &CopyFormats,
    order: &Order,
    options: LineOptions,
    from: &mut Lookahead<S, N>,
    out: &mut K,
    err: &mut E,
) -> Result<u8, CommandFault>
    requires limit { order.now.limit ≤ 2147483647 }
    requires pair { pair.now ≡ record { print = formats.now.print; scan = formats.now.scan.format } }
    requires line { Spells (grammar_of order.now.profile) (line_of formats.now).text.items
        (line_of formats.now).format }
    ensures { CopiesAligned S.to_come S.failures K.contents K.failures C.said C.unsaid (file_name order.now)
        (grammar_of order.now.profile) options explain order.now.limit formats.now from.old from.new out.old out.new
        err.old err.new result }
{
    let mut maker = CopyMaker::new(pair);
    let line = formats.line();
    let tried = LineFormats {
        ignored: &[],
        tried: slice::from_ref(&line.format),
    };
    let how = line_options(options, formats);
    let scan = LineScan {
        explain,
        formats: &tried,
        text: &line.text,
        order,
        options: how,
    };
    lines_with::<CopyMaker<'_, '_>, S, K, E, C, N>(alloc, &scan, &mut maker, from, out, err)
}

/// Copies the lines of what the lookahead holds and its source gives by the formats, where they are a pair, and answers
/// the exit status. What is to be said of lines that fail is said as they come; where that fails, nothing more is said
/// of lines. Err says why nothing was read, or why the lines stopped before the end of the input.
pub fn copy_by_formats<S: Source, K: Sink, E, C: Console<K, E>, const N: usize>(
    alloc: Global,
    explain: bool,
    formats: &CopyFormats,
    order: &Order,
    options: LineOptions,
    from: &mut Lookahead<S, N>,
    out: &mut K,
    err: &mut E,
) -> Result<u8, CommandFault>
    requires limit { order.now.limit ≤ 2147483647 }
    requires line { Spells (grammar_of order.now.profile) (line_of formats.now).text.items
        (line_of formats.now).format }
    ensures copies { CopiesPair S.to_come S.failures K.contents K.failures C.said C.unsaid (file_name order.now)
        (grammar_of order.now.profile) options explain order.now.limit formats.now from.old from.new out.old out.new
        err.old err.new result }
    ensures own { IfErr result (IsOwnUnpaired formats.now) }
{
    match Pair::check(&formats.print, &formats.scan.format) {
        Ok(pair) => copy_by_pair::<S, K, E, C, N>(
            alloc, explain, &pair, formats, order, options, from, out, err,
        ),
        Err(fault) => Err(CommandFault::Pair(fault)),
    }
}
