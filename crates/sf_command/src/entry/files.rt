//! The files that words name, read one after the other.
ghost use Rattle.std.specs.Prelude.{◌≡◌, ◌≤◌, ℕ, Bool, false, List, [], Some, IsSome, length, map, max, string_bytes};
ghost use Rattle.sf_words.specs.Orders.{HasTextsFor};
ghost use Rattle.sf_command.specs.entry.Files.{EndsFile, RunsFile, RunsFiles, RunsInputs, keeps_going, turn_of};
ghost use Rattle.sf_command.specs.console.Fronts.{file_name};

use crate::console::{Console, Reasons, exit_of, file_name, tell};
use crate::entry::hints::with_hint;
use crate::entry::invocation::{is_explained, run_source};
use crate::reasons::{LastError, is_of_input, is_read_fault, reason_alone};
use sf_messages::CommandFault;
use sf_print::Sink;
use sf_words::Order;
use std::alloc::Global;

/// The exit status where a file can't be opened.
const UNOPENED: u8 = 3;

/// An input, or what stands for one that can't be opened.
#[derive(Drop)]
pub struct Opened<S: Drop> {
    /// Its bytes; none where it can't be opened.
    pub source: S,
    /// Whether it is open.
    pub is_open: bool,
}

/// What opens the files that words name.
pub trait Opener<S: LastError> {
    // What comes of opening a file by its name: the source of its bytes, and whether it is open.
    ghost Opens: { Self → Self → List ℕ → S → Bool → Type 0 };

    /// Opens a file by its name. One that can't be opened has no bytes, and knows why it couldn't.
    fn open(&mut self, name: &str) -> Opened<S>
        ensures opens { Opens self.old self.new name.now result.source result.is_open }
        ensures empty { result.is_open ≡ false → S.to_come result.source ≡ Some [] }
        ensures why { result.is_open ≡ false → IsSome (S.last_error result.source) };
}

/// What the run over one file makes of the whole.
#[derive(Clone, Copy)]
pub(crate) struct Turn {
    /// Its exit status.
    pub(crate) status: u8,
    /// Whether the next file is read.
    pub(crate) goes_on: bool,
}

/// Whether a scan goes on after a line that failed.
fn keeps_going(order: &Order) -> bool
    ensures { result ≡ keeps_going order.now }
{
    match order.lines {
        Some(options) => options.keep_going,
        None => false,
    }
}

/// What the answer for one file makes of the whole.
fn turn_of(keep_going: bool, answer: Result<u8, CommandFault>) -> Turn
    ensures { result ≡ turn_of keep_going answer }
{
    match answer {
        Ok(status) => Turn {
            status,
            goes_on: status == 0 || keep_going,
        },
        Err(fault) => Turn {
            status: fault.status(),
            goes_on: is_read_fault(fault),
        },
    }
}

/// Reports a file that can't be opened, after what was done without its bytes. The notes are said after that.
fn end_unopened<K: Sink, E, C: Console<K, E>>(
    name: &str,
    notes: &[u8],
    answer: Result<u8, CommandFault>,
    out: &mut K,
    err: &mut E,
) -> Turn
    ensures { (keep_going : Bool) → EndsFile C.Hands C.said C.unsaid false keep_going name.now notes.now answer
        out.old out.new err.old err.new result }
{
    match answer {
        Err(fault) if !is_of_input(fault) => Turn {
            status: fault.status(),
            goes_on: false,
        },
        _ => {
            tell::<K, E, C>(out, err, Some(name), b"sf: can't be opened\n", notes);
            Turn {
                status: UNOPENED,
                goes_on: true,
            }
        }
    }
}

/// What follows the run over a file.
fn end_file<K: Sink, E, C: Console<K, E>>(
    is_open: bool,
    keep_going: bool,
    name: &str,
    notes: &[u8],
    answer: Result<u8, CommandFault>,
    out: &mut K,
    err: &mut E,
) -> Turn
    ensures { EndsFile C.Hands C.said C.unsaid is_open keep_going name.now notes.now answer out.old out.new
        err.old err.new result }
{
    if is_open {
        turn_of(keep_going, answer)
    } else {
        end_unopened::<K, E, C>(name, notes, answer, out, err)
    }
}

/// The greater one of two exit statuses.
fn greater(one: u8, other: u8) -> u8
    ensures { result ≡ max one other }
{
    if one < other { other } else { one }
}

/// Opens the file that the order names, and does with it what the order asks for.
fn run_file<S: LastError, K: Sink, E, C: Console<K, E> + Reasons<S>, F: Opener<S>>(
    alloc: Global,
    watched: bool,
    order: &Order,
    files: &mut F,
    out: &mut K,
    err: &mut E,
) -> Turn
    requires limit { order.now.limit ≤ 2147483647 }
    requires texts { HasTextsFor order.now.lines order.now.verb (map string_bytes order.now.texts.items) }
    requires named { (name : List ℕ) × (file_name order.now ≡ Some name) }
    ensures { RunsFile F.Opens K.contents K.failures C.Hands C.said C.unsaid S.to_come S.failures C.why_unread C.why
        watched order.now files.old files.new out.old out.new err.old err.new result }
{
    let Some(name) = file_name(order) else {
        unreachable!()
    };
    let Opened { source, is_open } = files.open(name);
    let why = C::why_unread(&source);
    let explain = is_explained(watched, order.notes);
    let notes = with_hint(explain, order, name, reason_alone(alloc, explain, why));
    let mut source = source;
    let answer = run_source::<S, K, E, C>(alloc, watched, order, &mut source, out, err);
    end_file::<K, E, C>(is_open, keeps_going(order), name, &notes, answer, out, err)
}

/// Reads the files of an order one after the other, and answers the greatest of their exit statuses.
fn run_files<S: LastError, K: Sink, E, C: Console<K, E> + Reasons<S>, F: Opener<S>>(
    alloc: Global,
    watched: bool,
    order: &mut Order,
    files: &mut F,
    out: &mut K,
    err: &mut E,
) -> u8
    requires limit { order.old.limit ≤ 2147483647 }
    requires texts { HasTextsFor order.old.lines order.old.verb (map string_bytes order.old.texts.items) }
    ensures { RunsFiles F.Opens K.contents K.failures C.Hands C.said C.unsaid S.to_come S.failures C.why_unread C.why
        watched (length order.old.files.items) order.old 0 0 files.old files.new out.old out.new err.old err.new
        result }
{
    let mut worst = 0;
    for place in 0..order.files.len() {
        order.file = Some(place);
        let turn = run_file::<S, K, E, C, F>(alloc, watched, order, files, out, err);
        worst = greater(worst, turn.status);
        if !turn.goes_on {
            return worst;
        }
    }
    worst
}

/// Does what an order asks for on its inputs: on its files, or on the source where it has none.
pub(crate) fn run_inputs<S: LastError, K: Sink, E, C: Console<K, E> + Reasons<S>, F: Opener<S>>(
    alloc: Global,
    watched: bool,
    order: Order,
    from: &mut S,
    files: &mut F,
    out: &mut K,
    err: &mut E,
) -> u8
    requires limit { order.limit ≤ 2147483647 }
    requires texts { HasTextsFor order.lines order.verb (map string_bytes order.texts.items) }
    ensures { RunsInputs F.Opens K.contents K.failures C.Hands C.said C.unsaid S.to_come S.failures C.why_unread C.why
        watched (length order.files.items) order from.old from.new files.old files.new out.old out.new err.old err.new
        result }
{
    let mut order = order;
    if order.files.is_empty() {
        return exit_of(run_source::<S, K, E, C>(alloc, watched, &order, from, out, err));
    }
    run_files::<S, K, E, C, F>(alloc, watched, &mut order, files, out, err)
}
