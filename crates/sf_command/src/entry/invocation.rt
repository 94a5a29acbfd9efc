//! One run of the command, from its words to its exit status.
ghost use Rattle.std.specs.Prelude.{◌≡◌, ◌≤◌, ◌<◌, None, Some, Ok, true, false, length, map, string_bytes};
ghost use Rattle.sf_words.specs.Orders.{HasTexts, HasTextsFor};
ghost use Rattle.sf_words.specs.declared.order.Verb.TheVariants.{Copy};
ghost use Rattle.sf_command.specs.entry.Exits.{CanRun, Declines, Does, DoesOn, DoesOrder, EndsCopies, EndsLines};
ghost use Rattle.sf_command.specs.entry.Exits.{EndsRefused};
ghost use Rattle.sf_command.specs.entry.Exits.{EndsScans};
ghost use Rattle.sf_command.specs.entry.Exits.{Exits, ExitsOn, ExitsSomewhere, Helps, is_explained};
ghost use Rattle.sf_command.specs.entry.Rooms.{TakesAWord};

use crate::console::{Apart, Console, Lent, Reasons, end, end_known, exit_of, say};
use crate::entry::hints::with_passed_hint;
use crate::entry::loans::{ByNamed, Name, Named, Tied};
use crate::jobs::{RefusedWord, form_of, grammar_of, lines_job, prepare, prepare_copies, run};
use crate::line_jobs::{copy_by_formats, notes_of_lines, scan_lines};
use crate::notes::{Left, notes_of_copies, notes_of_job, notes_of_refused};
use sf_messages::{BLOCK_BYTES, CommandFault, Input, Placed};
use sf_print::Sink;
use sf_read::{Lookahead, Source};
use sf_records::write_whole;
use sf_words::{LineOptions, Notes, Order, Verb, WordsFault, read_words};
use std::alloc::Global;
use std::marker::Brand;

/// What was read of the words of a command.
pub(crate) type Asked = Result<Order, WordsFault>;

/// Writes help that was asked for.
fn help<K: Sink>(text: &str, out: &mut K) -> Result<u8, CommandFault>
    ensures { Helps K.contents K.failures text.now out.old out.new result }
{
    match write_whole(out, text.as_bytes()) {
        Ok(()) => Ok(0),
        Err(_) => Err(CommandFault::Write),
    }
}

/// Help that was asked for goes to the output; what else the words are refused for, to the error output.
pub(crate) fn decline<K: Sink, E, C: Console<K, E>>(
    fault: &WordsFault,
    out: &mut K,
    err: &mut E,
) -> Result<u8, CommandFault>
    ensures { Declines K.contents K.failures C.Hands C.said C.unsaid fault.now out.old out.new err.old err.new result }
{
    match fault {
        WordsFault::Help(text) => {
            let answer = help(text.as_str(), out);
            end::<K, E, C>(out, err, answer, &[])
        }
        WordsFault::Usage(text) => {
            say::<K, E, C>(out, err, text.as_bytes());
            Ok(2)
        }
        WordsFault::NoMemory => end::<K, E, C>(out, err, Err(CommandFault::Memory), &[]),
    }
}

/// Ends an order of which a word is refused. Why is said after the line, where that is asked for.
fn end_refused<S, K: Sink, E, C: Console<K, E>, R: Reasons<S>>(
    alloc: Global,
    watched: bool,
    explain: bool,
    order: &Order,
    source: &S,
    out: &mut K,
    err: &mut E,
    refused: RefusedWord<'_>,
) -> Result<u8, CommandFault>
    ensures { EndsRefused C.Hands C.said C.unsaid watched explain (R.why_unread source.now) (C.why out.old) order.now
        refused.entry.word.now refused.entry.fault out.old out.new err.old err.new result }
{
    let notes = notes_of_refused(alloc, explain, refused);
    let answer = Err(refused.fault);
    end_known::<S, K, E, C, R>(
        alloc, watched, explain, order, source, out, err, answer, &notes,
    )
}

/// Copies lines by an order, and says why the command doesn't end cleanly where it doesn't.
fn end_copies<S: Source, K: Sink, E, C: Console<K, E>, R: Reasons<S>, const N: usize>(
    alloc: Global,
    watched: bool,
    explain: bool,
    order: &Order,
    options: LineOptions,
    from: &mut Lookahead<S, N>,
    out: &mut K,
    err: &mut E,
) -> Result<u8, CommandFault>
    requires limit { order.now.limit ≤ 2147483647 }
    requires copy { order.now.verb ≡ Copy }
    requires texts { HasTexts Copy (map string_bytes order.now.texts.items) }
    ensures { EndsCopies K.contents K.failures C.Hands C.said C.unsaid S.to_come S.failures R.why_unread C.why watched
        explain options order.now from.old from.new out.old out.new err.old err.new result }
{
    match prepare_copies(alloc, order) {
        Ok(formats) => {
            let answer = copy_by_formats::<S, K, E, C, N>(
                alloc, explain, &formats, order, options, from, out, err,
            );
            let notes = notes_of_copies(alloc, explain, order, &formats, answer);
            let source = from.source();
            end_known::<S, K, E, C, R>(
                alloc, watched, explain, order, source, out, err, answer, &notes,
            )
        }
        Err(refused) => end_refused::<S, K, E, C, R>(
            alloc,
            watched,
            explain,
            order,
            from.source(),
            out,
            err,
            refused,
        ),
    }
}

/// Scans lines by an order, and says why the command doesn't end cleanly where it doesn't.
fn end_scans<S: Source, K: Sink, E, C: Console<K, E>, R: Reasons<S>, const N: usize>(
    alloc: Global,
    watched: bool,
    explain: bool,
    order: &Order,
    options: LineOptions,
    from: &mut Lookahead<S, N>,
    out: &mut K,
    err: &mut E,
) -> Result<u8, CommandFault>
    requires limit { order.now.limit ≤ 2147483647 }
    requires some { 0 < length order.now.texts.items }
    ensures { EndsScans K.contents K.failures C.Hands C.said C.unsaid S.to_come S.failures R.why_unread C.why watched
        explain options order.now from.old from.new out.old out.new err.old err.new result }
{
    let profile = grammar_of(order.profile);
    match lines_job(alloc, profile, form_of(order.output), order) {
        Ok(job) => {
            let answer = scan_lines::<S, K, E, C, N>(
                alloc, explain, &job, order, options, from, out, err,
            );
            let notes = notes_of_lines(alloc, explain, answer);
            let all = with_passed_hint(explain, order, answer, notes);
            let source = from.source();
            end_known::<S, K, E, C, R>(
                alloc, watched, explain, order, source, out, err, answer, &all,
            )
        }
        Err(refused) => end_refused::<S, K, E, C, R>(
            alloc,
            watched,
            explain,
            order,
            from.source(),
            out,
            err,
            refused,
        ),
    }
}

/// Does what an order of lines asks for: a scan, or a copy.
fn end_lines<S: Source, K: Sink, E, C: Console<K, E>, R: Reasons<S>, const N: usize>(
    alloc: Global,
    watched: bool,
    explain: bool,
    order: &Order,
    options: LineOptions,
    from: &mut Lookahead<S, N>,
    out: &mut K,
    err: &mut E,
) -> Result<u8, CommandFault>
    requires limit { order.now.limit ≤ 2147483647 }
    requires texts { HasTextsFor (Some options) order.now.verb (map string_bytes order.now.texts.items) }
    ensures { EndsLines K.contents K.failures C.Hands C.said C.unsaid S.to_come S.failures R.why_unread C.why watched
        explain options order.now order.now.verb from.old from.new out.old out.new err.old err.new result }
{
    match order.verb {
        Verb::Copy => end_copies::<S, K, E, C, R, N>(
            alloc, watched, explain, order, options, from, out, err,
        ),
        Verb::Scan | Verb::Show | Verb::Print | Verb::Check => end_scans::<S, K, E, C, R, N>(
            alloc, watched, explain, order, options, from, out, err,
        ),
    }
}

/// Does what an order of records asks for, and says why the command doesn't end cleanly where it doesn't.
fn run_records<S: Source, K: Sink, E, C: Console<K, E>, R: Reasons<S>, const N: usize>(
    alloc: Global,
    watched: bool,
    explain: bool,
    order: &Order,
    from: &mut Lookahead<S, N>,
    out: &mut K,
    err: &mut E,
) -> Result<u8, CommandFault>
    requires limit { order.now.limit ≤ 2147483647 }
    requires texts { HasTexts order.now.verb (map string_bytes order.now.texts.items) }
    ensures { DoesOrder K.contents K.failures C.Hands C.said C.unsaid S.to_come S.failures R.why_unread C.why watched
        explain None order.now None from.old from.new out.old out.new err.old err.new result }
{
    match prepare(alloc, order) {
        Ok(job) => {
            let answer = run(alloc, &job, order, from, out);
            let left = Left {
                place: None,
                held: from.held(),
            };
            let notes = notes_of_job(alloc, explain, order, &job, left, answer);
            let source = from.source();
            end_known::<S, K, E, C, R>(
                alloc, watched, explain, order, source, out, err, answer, &notes,
            )
        }
        Err(refused) => end_refused::<S, K, E, C, R>(
            alloc,
            watched,
            explain,
            order,
            from.source(),
            out,
            err,
            refused,
        ),
    }
}

/// Does what an order asks for on what the lookahead holds and its source gives. The place in the input isn't told, as
/// what was used of it before isn't known.
fn run_order<S: Source, K: Sink, E, C: Console<K, E>, R: Reasons<S>, const N: usize>(
    alloc: Global,
    watched: bool,
    explain: bool,
    order: &Order,
    from: &mut Lookahead<S, N>,
    out: &mut K,
    err: &mut E,
) -> Result<u8, CommandFault>
    requires limit { order.now.limit ≤ 2147483647 }
    requires texts { HasTextsFor order.now.lines order.now.verb (map string_bytes order.now.texts.items) }
    ensures { DoesOrder K.contents K.failures C.Hands C.said C.unsaid S.to_come S.failures R.why_unread C.why watched
        explain order.now.lines order.now None
        from.old from.new out.old out.new err.old err.new result }
{
    match order.lines {
        None => run_records::<S, K, E, C, R, N>(alloc, watched, explain, order, from, out, err),
        Some(options) => end_lines::<S, K, E, C, R, N>(
            alloc, watched, explain, order, options, from, out, err,
        ),
    }
}

/// Whether more is said of a fault than its line. `watched`: the error output is a terminal.
pub(crate) fn is_explained(watched: bool, notes: Notes) -> bool
    ensures { result ≡ is_explained watched notes }
{
    match notes {
        Notes::Always => true,
        Notes::OnTerminal => watched,
        Notes::Never => false,
    }
}

/// Runs the command on what the lookahead holds and its source gives.
fn run_ahead<S: Source, K: Sink, E, C: Console<K, E>, R: Reasons<S>, const N: usize>(
    alloc: Global,
    watched: bool,
    asked: &Asked,
    from: &mut Lookahead<S, N>,
    out: &mut K,
    err: &mut E,
) -> Result<u8, CommandFault>
    requires { CanRun asked.now }
    ensures { Does K.contents K.failures C.Hands C.said C.unsaid S.to_come S.failures R.why_unread C.why watched
        asked.now None
        from.old from.new out.old out.new err.old err.new result }
{
    match asked {
        Ok(order) => {
            let explain = is_explained(watched, order.notes);
            run_order::<S, K, E, C, R, N>(alloc, watched, explain, order, from, out, err)
        }
        Err(fault) => decline::<K, E, C>(fault, out, err),
    }
}

/// Runs the command of the words, which are those after the program's name, on what the lookahead holds and its source
/// gives, and answers its exit status. Where it does not end cleanly, it says why in one line on `err`, with more lines
/// after it where the words ask for them; a fault in writing these is ignored. Where lines are scanned, a line for each
/// that is no match stands before that. The place in the input isn't told, as what was used of it before isn't known.
/// What is written to `out` isn't flushed.
pub fn run_words<S: Source, K: Sink, E: Sink, const N: usize>(
    alloc: Global,
    words: &[String],
    from: &mut Lookahead<S, N>,
    out: &mut K,
    err: &mut E,
) -> u8
    ensures { Exits K.contents K.failures (λ before after. after ≡ before) E.contents E.failures S.to_come S.failures
        (λ source. None) (λ out. None) false (map string_bytes words.now) None from.old from.new out.old out.new
        err.old err.new result }
{
    let asked = read_words(alloc, words);
    exit_of(run_ahead::<S, K, E, Apart, Apart, N>(alloc, false, &asked, from, out, err))
}

/// The answer of a run on a source, which is given back with what the run left in it.
#[derive(Drop)]
struct Ran<R: Drop> {
    answer: Result<u8, CommandFault>,
    source: R,
}

/// Carries out an order of records with an account of the lines of its input, so that the place in the input can be
/// told.
fn run_placed<R: Named, K: Sink, E, C: Console<K, E>, Q: Reasons<R>, B: Name + Input>(
    alloc: Global,
    watched: bool,
    order: &Order,
    from: R,
    out: &mut K,
    err: &mut E,
) -> Ran<R>
    requires small { TakesAWord R.row }
    requires named { B.name ≡ R.name_of from }
    requires input { B.input ≡ R.to_come from }
    requires records { order.now.lines ≡ None }
    requires explained { is_explained watched order.now.notes ≡ true }
    requires limit { order.now.limit ≤ 2147483647 }
    requires texts { HasTexts order.now.verb (map string_bytes order.now.texts.items) }
    ensures same { R.name_of result.source ≡ R.name_of from }
    ensures does { DoesOn K.contents K.failures C.Hands C.said C.unsaid R.to_come R.failures Q.why_unread C.why watched
        (Ok order.now) from result.source out.old out.new err.old err.new result.answer }
{
    let job = match prepare(alloc, order) {
        Ok(job) => job,
        Err(refused) => {
            let answer = end_refused::<R, K, E, C, Q>(
                alloc, watched, true, order, &from, out, err, refused,
            );
            return Ran {
                answer,
                source: from,
            };
        }
    };
    let placed = Placed::<Tied<R, B>, B>::new(Tied::new(from));
    let mut ahead = Lookahead::<Placed<Tied<R, B>, B>, BLOCK_BYTES>::new(placed);
    let answer = run(alloc, &job, order, &mut ahead, out);
    let held = ahead.held();
    let place = ahead.source().place_before(held);
    let notes = notes_of_job(alloc, true, order, &job, Left { place, held }, answer);
    let source = ahead.source().source();
    let answer = end_known::<Tied<R, B>, K, E, C, ByNamed<Q>>(
        alloc, watched, true, order, source, out, err, answer, &notes,
    );
    Ran {
        answer,
        source: ahead.into_source().into_source().into_source(),
    }
}

/// Does what an order asks for on what a source gives, block by block.
fn run_unplaced<R: Named, K: Sink, E, C: Console<K, E>, Q: Reasons<R>, B: Name>(
    alloc: Global,
    watched: bool,
    order: &Order,
    from: R,
    out: &mut K,
    err: &mut E,
) -> Ran<R>
    requires small { TakesAWord R.row }
    requires named { B.name ≡ R.name_of from }
    requires limit { order.now.limit ≤ 2147483647 }
    requires texts { HasTextsFor order.now.lines order.now.verb (map string_bytes order.now.texts.items) }
    ensures same { R.name_of result.source ≡ R.name_of from }
    ensures does { DoesOn K.contents K.failures C.Hands C.said C.unsaid R.to_come R.failures Q.why_unread C.why watched
        (Ok order.now) from result.source out.old out.new err.old err.new result.answer }
{
    let mut ahead = Lookahead::<Tied<R, B>, BLOCK_BYTES>::new(Tied::new(from));
    let explain = is_explained(watched, order.notes);
    let answer = run_order::<Tied<R, B>, K, E, C, ByNamed<Q>, BLOCK_BYTES>(
        alloc, watched, explain, order, &mut ahead, out, err,
    );
    Ran {
        answer,
        source: ahead.into_source().into_source(),
    }
}

/// Does what an order asks for on what a source gives. An account of its lines is kept only where it is asked for.
pub(crate) fn run_source<S: Source, K: Sink, E, C: Console<K, E> + Reasons<S>>(
    alloc: Global,
    watched: bool,
    order: &Order,
    from: &mut S,
    out: &mut K,
    err: &mut E,
) -> Result<u8, CommandFault>
    requires limit { order.now.limit ≤ 2147483647 }
    requires texts { HasTextsFor order.now.lines order.now.verb (map string_bytes order.now.texts.items) }
    ensures { DoesOn K.contents K.failures C.Hands C.said C.unsaid S.to_come S.failures C.why_unread C.why watched
        (Ok order.now) from.old from.new out.old out.new err.old err.new result }
{
    match order.lines {
        None if is_explained(watched, order.notes) => {
            run_placed::<&mut S, K, E, C, Lent<C>, Brand>(
                alloc, watched, order, from, out, err,
            ).answer
        }
        _ => {
            run_unplaced::<&mut S, K, E, C, Lent<C>, Brand>(
                alloc, watched, order, from, out, err,
            ).answer
        }
    }
}

/// Runs the command on what a source gives. `watched`: the error output is a terminal.
pub(crate) fn run_asked<S: Source, K: Sink, E, C: Console<K, E> + Reasons<S>>(
    alloc: Global,
    watched: bool,
    asked: &Asked,
    from: &mut S,
    out: &mut K,
    err: &mut E,
) -> Result<u8, CommandFault>
    requires { CanRun asked.now }
    ensures { DoesOn K.contents K.failures C.Hands C.said C.unsaid S.to_come S.failures C.why_unread C.why watched
        asked.now from.old from.new out.old out.new err.old err.new result }
{
    match asked {
        Ok(order) => run_source::<S, K, E, C>(alloc, watched, order, from, out, err),
        Err(fault) => decline::<K, E, C>(fault, out, err),
    }
}

/// As `tool`, on a source that is lent. What it still gives afterwards begins at most a block after what was used.
pub fn tool_over<S: Source, K: Sink, E: Sink>(
    alloc: Global,
    words: &[String],
    from: &mut S,
    out: &mut K,
    err: &mut E,
) -> u8
    ensures { ExitsOn K.contents K.failures (λ before after. after ≡ before) E.contents E.failures S.to_come
        S.failures
        (λ source. None) (λ out. None) false (map string_bytes words.now) from.old from.new out.old out.new err.old
        err.new result }
{
    let asked = read_words(alloc, words);
    exit_of(run_asked::<S, K, E, Apart>(alloc, false, &asked, from, out, err))
}

/// Runs the command of the words, which are those after the program's name, on what the source gives, and answers its
/// exit status. Where it does not end cleanly, it says why in one line on `err`, after those of lines that are no
/// match; a fault in writing that is ignored. What is written to `out` isn't flushed. Files that the words name aren't
/// opened: the source is read in their place, once.
///
/// 0: it ended cleanly. 1: a record failed or took no byte, a line is no match, a pair is refused, or there are too
/// many records or lines. 2: a format, a pair, a value or the words are refused. 3: a read or a write failed. 4: memory
/// was refused.
pub fn tool<S: Source, K: Sink, E: Sink>(
    alloc: Global,
    words: &[String],
    from: S,
    out: &mut K,
    err: &mut E,
) -> u8
    ensures { ExitsSomewhere K.contents K.failures (λ before after. after ≡ before) E.contents E.failures S.to_come
        S.failures
        (λ source. None) (λ out. None) false (map string_bytes words.now) from out.old out.new err.old err.new result }
{
    let mut lent = from;
    tool_over(alloc, words, &mut lent, out, err)
}
