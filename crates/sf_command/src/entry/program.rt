//! The program: the command of its words, on its streams.
ghost use Rattle.std.specs.Prelude.{◌≡◌, ◌↔◌, ℕ, map, string_bytes, true};
ghost use Rattle.sf_print.specs.blocks.Blocks.{faults_of, handed_to, has_failed_flush, last_error_of, taken_by};
ghost use Rattle.sf_print.specs.blocks.Blocks.{write_failures, writer_of};
ghost use Rattle.sf_messages.specs.Texts.{error_line};
ghost use Rattle.sf_command.specs.entry.Exits.{CanRun};
ghost use Rattle.sf_command.specs.entry.Files.{RunsAsked};
ghost use Rattle.sf_command.specs.entry.Programs.{Closes, IsAwaited, Reports, RunsOn, RunsProgram, SaysUnwritten};
ghost use Rattle.sf_command.specs.entry.Programs.{is_explained_by};
ghost use Rattle.sf_command.specs.console.Hands.{HandsOn};
ghost use Rattle.sf_command.specs.console.Saying.{SaysText};

use crate::console::{InOrder, exit_of};
use crate::entry::files::{Opener, run_inputs};
use crate::entry::invocation::{Asked, decline, is_explained};
use crate::reasons::{LastError, is_unheard, with_reason};
use sf_messages::{CommandFault, error_line};
use sf_print::{BlockSink, Unblocked};
use sf_records::write_whole;
use sf_words::read_words;
use std::alloc::Global;
use std::io::{self, Write};

/// Which of the program's streams are terminals.
#[derive(Clone, Copy, Debug, PartialEq, Eq)]
pub struct Terminals {
    pub output: bool,
    pub errors: bool,
}

/// The exit status of the program, and the writers of its output and its error output.
#[derive(Drop)]
pub struct Ended<W: Write + Drop, E: Write + Drop> {
    pub status: u8,
    pub output: W,
    pub errors: E,
}

/// Whether somebody waits for each record: the output is a terminal, or the words say so.
fn is_awaited(terminal: bool, asked: &Asked) -> bool
    ensures { result ≡ true ↔ IsAwaited terminal asked.now }
{
    match asked {
        Ok(order) => terminal || order.line_buffered,
        Err(_) => terminal,
    }
}

/// Whether more is said of a fault than its line.
fn is_explained_by(watched: bool, asked: &Asked) -> bool
    ensures { result ≡ is_explained_by watched asked.now }
{
    match asked {
        Ok(order) => is_explained(watched, order.notes),
        Err(_) => watched,
    }
}

/// Hands the error output a text. A fault of it is ignored.
fn say_text<E: Write + Drop>(errors: &mut Unblocked<E>, text: &[u8])
    ensures { SaysText (handed_to ⟦<E as Write>⟧) faults_of text.now errors.old errors.new }
{
    match write_whole(errors, text) {
        Ok(()) => {}
        Err(_) => {}
    }
}

/// Hands the error output the line of a fault. A fault of it is ignored.
fn say_fault<E: Write + Drop>(errors: &mut Unblocked<E>, fault: CommandFault)
    ensures { SaysText (handed_to ⟦<E as Write>⟧) faults_of (error_line fault) errors.old errors.new }
{
    say_text(errors, error_line(fault).as_str().as_bytes())
}

/// What is said of a write fault.
#[derive(Clone, Copy)]
struct Telling {
    /// Whether the error output is a terminal.
    watched: bool,
    /// Whether more is said of a fault than its line.
    explain: bool,
}

/// Reports that the output could not be written, and why, where more is said than the line. On a terminal nothing is
/// said where nobody reads it any more.
fn say_unwritten<E: Write + Drop>(
    alloc: Global,
    telling: Telling,
    why: Option<io::Error>,
    errors: &mut Unblocked<E>,
)
    ensures { SaysUnwritten ⟦<E as Write>⟧ telling.watched telling.explain why errors.old errors.new }
{
    if is_unheard(telling.watched, why, CommandFault::Write) {
        return;
    }
    let line = error_line(CommandFault::Write);
    let line = line.as_str().as_bytes();
    match with_reason(alloc, telling.explain, why, line) {
        Some(text) => say_text(errors, &text),
        None => say_text(errors, line),
    }
}

/// Reports a flush that failed, unless the line of a write that failed has done so.
fn report<E: Write + Drop>(
    alloc: Global,
    telling: Telling,
    why: Option<io::Error>,
    failures: u64,
    errors: &mut Unblocked<E>,
)
    ensures { Reports ⟦<E as Write>⟧ telling.watched telling.explain why failures errors.old errors.new }
{
    match failures {
        0 => say_unwritten(alloc, telling, why, errors),
        _ => {}
    }
}

/// Flushes the output after the command has ended with this status. The status of the program is 3 where that or an
/// earlier flush failed, which is reported once.
fn close<W: Write + Drop, E: Write + Drop>(
    alloc: Global,
    telling: Telling,
    output: &mut BlockSink<W>,
    errors: &mut Unblocked<E>,
    status: u8,
) -> u8
    ensures { Closes ⟦<W as Write>⟧ ⟦<E as Write>⟧ telling.watched telling.explain output.old output.new errors.old
        errors.new status result }
{
    let _ = output.flush();
    if !output.has_failed_flush() {
        return status;
    }
    report(
        alloc,
        telling,
        output.last_error(),
        output.failures(),
        errors,
    );
    CommandFault::Write.status()
}

/// The exit status of the program, and the writer of its output.
#[derive(Drop)]
struct Closed<W: Write + Drop> {
    status: u8,
    output: W,
}

/// Does what was read of the words on their inputs, with the streams of a program.
fn run_asked_inputs<S: LastError, W: Write + Drop, E: Write + Drop, F: Opener<S>>(
    alloc: Global,
    watched: bool,
    asked: Asked,
    from: &mut S,
    files: &mut F,
    output: &mut BlockSink<W>,
    errors: &mut Unblocked<E>,
) -> u8
    requires { CanRun asked }
    ensures { RunsAsked F.Opens taken_by write_failures HandsOn (handed_to ⟦<E as Write>⟧) faults_of S.to_come
        S.failures S.last_error last_error_of watched asked from.old from.new files.old files.new output.old output.new
        errors.old errors.new result }
{
    match asked {
        Ok(order) => run_inputs::<S, BlockSink<W>, Unblocked<E>, InOrder, F>(
            alloc, watched, order, from, files, output, errors,
        ),
        Err(fault) => exit_of(decline::<BlockSink<W>, Unblocked<E>, InOrder>(
            &fault, output, errors,
        )),
    }
}

/// Runs the command on the streams, and flushes its output.
fn run_open<S: LastError, W: Write + Drop, E: Write + Drop, F: Opener<S>>(
    alloc: Global,
    watched: bool,
    asked: Asked,
    from: &mut S,
    files: &mut F,
    output: BlockSink<W>,
    errors: &mut Unblocked<E>,
) -> Closed<W>
    requires { CanRun asked }
    ensures { (ran : BlockSink W ⟦<W as Write>⟧) × ((closed : BlockSink W ⟦<W as Write>⟧)
        × ((said : Unblocked E) × ((answer : ℕ)
        × RunsAsked F.Opens taken_by write_failures HandsOn (handed_to ⟦<E as Write>⟧) faults_of S.to_come S.failures
        S.last_error last_error_of watched asked from.old from.new files.old files.new output ran errors.old said answer
        × Closes ⟦<W as Write>⟧ ⟦<E as Write>⟧ watched (is_explained_by watched asked) ran closed said errors.new
        answer result.status
        × (result.output ≡ writer_of closed)))) }
{
    let telling = Telling {
        watched,
        explain: is_explained_by(watched, &asked),
    };
    let mut output = output;
    let ended = run_asked_inputs::<S, W, E, F>(
        alloc,
        watched,
        asked,
        from,
        files,
        &mut output,
        errors,
    );
    let status = close(alloc, telling, &mut output, errors, ended);
    Closed {
        status,
        output: output.into_writer(),
    }
}

/// Runs the program of the words, which are those after its name, on its streams, and gives its writers back with its
/// exit status. `from` is its standard input, of which it takes a block at most after what the command used, and none
/// where the words name files; `files` opens these. A message goes to the error
/// output at once, after all that was written to the output before it. At a terminal, or where the words ask for it,
/// each record goes to the output at once; else they go in blocks. The output is flushed before the end; where that or
/// an earlier flush fails, the status is 3, and one line reports it. The other statuses are those of `tool`.
///
/// Where more is said than a line, a second one says why a read, a write or the opening of a file failed. Where nobody
/// reads the output any more, and the error output is a terminal, nothing is said of that.
pub fn run_program<S: LastError, W: Write + Drop, E: Write + Drop, F: Opener<S>>(
    alloc: Global,
    words: &[String],
    terminals: Terminals,
    from: &mut S,
    files: &mut F,
    output: W,
    errors: E,
) -> Ended<W, E>
    ensures { RunsProgram ⟦<W as Write>⟧ ⟦<E as Write>⟧ F.Opens S.to_come S.failures S.last_error
        (map string_bytes words.now) terminals from.old from.new files.old files.new output result.output errors
        result.errors result.status }
{
    let asked = read_words(alloc, words);
    let mut errors = Unblocked::new(errors);
    match BlockSink::open(alloc, is_awaited(terminals.output, &asked), output) {
        Ok(opened) => {
            let closed = run_open(
                alloc,
                terminals.errors,
                asked,
                from,
                files,
                opened,
                &mut errors,
            );
            Ended {
                status: closed.status,
                output: closed.output,
                errors: errors.into_writer(),
            }
        }
        Err(output) => {
            say_fault(&mut errors, CommandFault::Memory);
            Ended {
                status: CommandFault::Memory.status(),
                output,
                errors: errors.into_writer(),
            }
        }
    }
}
