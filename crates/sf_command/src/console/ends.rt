//! The end of a command: its exit status, or why there is none in a line on the error output.
ghost use Rattle.std.specs.Prelude.{◌≡◌, IfSome, option_map};
ghost use Rattle.sf_command.specs.jobs.Heads.{names_text};
ghost use Rattle.sf_command.specs.console.Ends.{Ends, EndsOrder, IsTwiceLine, SaysFault, SaysNotes, exit_of};
ghost use Rattle.sf_command.specs.console.Fronts.{file_name};

use crate::console::console::Console;
use crate::console::error_output::{say, tell};
use crate::console::fronts::file_name;
use crate::jobs::names_text;
use crate::reasons::file_of;
use sf_forms::Names;
use sf_messages::{CommandFault, error_line, name_twice_line};
use sf_print::Sink;
use sf_words::Order;
use std::alloc::Global;

/// Hands the error output the notes, if there are any. A fault of it is ignored.
fn tell_notes<K: Sink, E, C: Console<K, E>>(out: &mut K, err: &mut E, notes: &[u8])
    ensures { SaysNotes C.Hands C.said C.unsaid notes.now out.old out.new err.old err.new }
{
    match notes {
        [] => {}
        _ => say::<K, E, C>(out, err, notes),
    }
}

/// Ends with this exit status, or says why not in a line on the error output. The notes are said after that. What it
/// ends with is handed on.
pub fn end<K: Sink, E, C: Console<K, E>>(
    out: &mut K,
    err: &mut E,
    answer: Result<u8, CommandFault>,
    notes: &[u8],
) -> Result<u8, CommandFault>
    ensures { Ends C.Hands C.said C.unsaid notes.now answer out.old out.new err.old err.new result }
{
    match answer {
        Ok(status) => {
            tell_notes::<K, E, C>(out, err, notes);
            Ok(status)
        }
        Err(fault) => {
            tell::<K, E, C>(out, err, None, error_line(fault).as_str().as_bytes(), notes);
            Err(fault)
        }
    }
}

/// The line that says the name itself, where the fault is that it stands twice, and memory is there.
fn named_line(alloc: Global, names: Option<&str>, fault: CommandFault) -> Option<Vec<u8>>
    ensures { IfSome result (λ line. IsTwiceLine (option_map (λ given. given.now) names.entry) fault line.items) }
{
    let CommandFault::NameTwice { number } = fault else {
        return None;
    };
    let Some(text) = names else {
        return None;
    };
    if number == 0 {
        return None;
    }
    let Ok(names) = Names::split(alloc, text) else {
        return None;
    };
    match name_twice_line(alloc, names.name(number)) {
        Ok(line) => Some(line),
        Err(_) => None,
    }
}

/// Says why an order doesn't end cleanly, in a line on the error output, and the notes after that. Of a fault of the
/// input, the name of the file stands in front.
fn tell_fault<K: Sink, E, C: Console<K, E>>(
    alloc: Global,
    order: &Order,
    out: &mut K,
    err: &mut E,
    fault: CommandFault,
    notes: &[u8],
)
    ensures { SaysFault C.Hands C.said C.unsaid (names_text order.now) (file_name order.now) notes.now fault
        out.old out.new err.old err.new }
{
    let file = file_of(fault, file_name(order));
    match named_line(alloc, names_text(order), fault) {
        Some(line) => tell::<K, E, C>(out, err, file, &line, notes),
        None => tell::<K, E, C>(out, err, file, error_line(fault).as_str().as_bytes(), notes),
    }
}

/// Ends an order, as `end` does.
pub fn end_order<K: Sink, E, C: Console<K, E>>(
    alloc: Global,
    order: &Order,
    out: &mut K,
    err: &mut E,
    answer: Result<u8, CommandFault>,
    notes: &[u8],
) -> Result<u8, CommandFault>
    ensures { EndsOrder C.Hands C.said C.unsaid order.now notes.now answer out.old out.new err.old err.new result }
{
    match answer {
        Ok(status) => {
            tell_notes::<K, E, C>(out, err, notes);
            Ok(status)
        }
        Err(fault) => {
            tell_fault::<K, E, C>(alloc, order, out, err, fault, notes);
            Err(fault)
        }
    }
}

/// The exit status of an answer.
pub fn exit_of(answer: Result<u8, CommandFault>) -> u8
    ensures { result ≡ exit_of answer }
{
    match answer {
        Ok(status) => status,
        Err(fault) => fault.status(),
    }
}
