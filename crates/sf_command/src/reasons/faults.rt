//! Why a fault of a command came, what is said of that, and which file is named with it.
ghost use Rattle.std.specs.Prelude.{◌≡◌, [], true, Some, IfOk, IfSome, option_map};
ghost use Rattle.sf_command.specs.reasons.Faults.{IsWithReason, file_of, is_broken_pipe, is_of_input, is_read_fault};
ghost use Rattle.sf_command.specs.reasons.Faults.{is_stalled, is_unheard, is_unsaid, is_write_fault, reason_of};

use crate::reasons::words::reason_notes;
use sf_messages::{ArgumentFault, CommandFault};
use sf_records::{LinesFault, ToolFault};
use std::alloc::{AllocError, Global};
use std::io::{self, ErrorKind};

/// Whether an input could not be read to its end.
pub fn is_read_fault(fault: CommandFault) -> bool
    ensures { result ≡ is_read_fault fault }
{
    matches!(
        fault,
        CommandFault::Record(ToolFault::Read { .. }) | CommandFault::Lines(LinesFault::Read { .. })
    )
}

/// Whether the output could not be written.
fn is_write_fault(fault: CommandFault) -> bool
    ensures { result ≡ is_write_fault fault }
{
    matches!(
        fault,
        CommandFault::Values(ArgumentFault::Write)
            | CommandFault::Record(ToolFault::Write)
            | CommandFault::Lines(LinesFault::Write)
            | CommandFault::Write
    )
}

/// Why a fault came, by why the input and why the output failed last.
pub fn reason_of(
    unread: Option<io::Error>,
    unwritten: Option<io::Error>,
    fault: CommandFault,
) -> Option<io::Error>
    ensures { result ≡ reason_of unread unwritten fault }
{
    if is_read_fault(fault) {
        unread
    } else if is_write_fault(fault) {
        unwritten
    } else {
        None
    }
}

/// Whether a fault is one of the input, and not of the output or of memory.
pub fn is_of_input(fault: CommandFault) -> bool
    ensures { result ≡ is_of_input fault }
{
    match fault {
        CommandFault::Record(fault) => !matches!(fault, ToolFault::Write | ToolFault::Memory),
        CommandFault::Lines(fault) => !matches!(fault, LinesFault::Write | LinesFault::Memory),
        _ => false,
    }
}

/// The file that is named with a fault.
pub fn file_of(fault: CommandFault, file: Option<&str>) -> Option<&str>
    ensures { option_map (λ given. given.now) result ≡ file_of fault (option_map (λ given. given.now) file.entry) }
{
    if is_of_input(fault) { file } else { None }
}

/// Whether nobody reads the output any more.
fn is_broken_pipe(why: Option<io::Error>) -> bool
    ensures { result ≡ is_broken_pipe why }
{
    match why {
        Some(error) => matches!(error.kind(), ErrorKind::BrokenPipe),
        None => false,
    }
}

/// Whether nothing is said of a fault: nobody reads the output any more, and the error output is a terminal
/// (`watched`).
pub fn is_unheard(watched: bool, unwritten: Option<io::Error>, fault: CommandFault) -> bool
    ensures { result ≡ is_unheard watched unwritten fault }
{
    watched && (is_write_fault(fault) && is_broken_pipe(unwritten))
}

/// Whether a record took nothing.
fn is_stalled(fault: CommandFault) -> bool
    ensures { result ≡ is_stalled fault }
{
    matches!(fault, CommandFault::Record(ToolFault::Stalled { .. }))
}

/// Whether nothing is said of a fault: as `is_unheard`, or a record took nothing of an input that can't be opened,
/// which is said by itself.
pub fn is_unsaid(
    watched: bool,
    unread: Option<io::Error>,
    unwritten: Option<io::Error>,
    fault: CommandFault,
) -> bool
    ensures { result ≡ is_unsaid watched unread unwritten fault }
{
    is_unheard(watched, unwritten, fault) || (is_stalled(fault) && unread.is_some())
}

/// The text, and after it the line of why something failed.
fn followed_by(alloc: Global, text: &[u8], error: io::Error) -> Result<Vec<u8>, AllocError>
    ensures { IfOk result (λ all. IsWithReason true (Some error) text.now all.items) }
{
    let mut all = Vec::new(alloc);
    all.extend_from_slice(text)?;
    all.extend_from_slice(&reason_notes(alloc, error)?)?;
    Ok(all)
}

/// The text, and after it why something failed. None where no more is said than the text, where that isn't known, or
/// where memory for it is refused.
pub fn with_reason(
    alloc: Global,
    explain: bool,
    why: Option<io::Error>,
    text: &[u8],
) -> Option<Vec<u8>>
    ensures { IfSome result (λ all. IsWithReason explain why text.now all.items) }
{
    match why {
        Some(error) if explain => match followed_by(alloc, text, error) {
            Ok(all) => Some(all),
            Err(_) => None,
        },
        _ => None,
    }
}

/// The line of why something failed, or nothing.
pub fn reason_alone(alloc: Global, explain: bool, why: Option<io::Error>) -> Vec<u8>
    ensures { IsWithReason explain why [] result.items }
{
    match with_reason(alloc, explain, why, &[]) {
        Some(line) => line,
        None => Vec::new(alloc),
    }
}
