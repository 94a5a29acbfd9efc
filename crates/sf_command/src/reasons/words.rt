//! Why the system refused a read, a write or the opening of a file.
ghost use Rattle.std.specs.Prelude.{◌≡◌, IfOk, option_map};
ghost use Rattle.sf_command.specs.reasons.Reasons.{IsReason, IsReasonNote, kind_reason};

use std::alloc::{AllocError, Global};
use std::io::{self, ErrorKind};

/// The words of the C library for a kind that stands for one error number of POSIX alone.
fn kind_reason(kind: ErrorKind) -> Option<&'static str>
    ensures { option_map (λ text. text.now) result ≡ kind_reason kind }
{
    match kind {
        ErrorKind::NotFound => Some("No such file or directory"),
        ErrorKind::NotADirectory => Some("Not a directory"),
        ErrorKind::IsADirectory => Some("Is a directory"),
        ErrorKind::FileTooLarge => Some("File too large"),
        ErrorKind::StorageFull => Some("No space left on device"),
        ErrorKind::BrokenPipe => Some("Broken pipe"),
        _ => None,
    }
}

/// Appends what the system says of an error. The number that std writes after it is left out.
fn push_system_text(
    alloc: Global,
    output: &mut Vec<u8>,
    error: io::Error,
) -> Result<(), AllocError> {
    let text = error.to_string(alloc)?;
    let Some(code) = error.raw_os_error() else {
        return output.extend_from_slice(text.as_bytes());
    };
    let number = format!(in alloc; " (os error {code})")?;
    let bytes = text.as_bytes();
    output.extend_from_slice(bytes.strip_suffix(number.as_bytes()).unwrap_or(bytes))
}

/// The words for an error.
fn reason_text(alloc: Global, error: io::Error) -> Result<Vec<u8>, AllocError>
    ensures { IfOk result (λ text. IsReason error text.items) }
{
    let mut text = Vec::new(alloc);
    match kind_reason(error.kind()) {
        Some(known) => text.extend_from_slice(known.as_bytes())?,
        None => push_system_text(alloc, &mut text, error)?,
    }
    Ok(text)
}

/// What is said of why a read, a write or the opening of a file failed: a line of what the system says.
pub fn reason_notes(alloc: Global, error: io::Error) -> Result<Vec<u8>, AllocError>
    ensures { IfOk result (λ notes. IsReasonNote error notes.items) }
{
    let mut notes = Vec::new(alloc);
    notes.extend_from_slice(b"  ")?;
    notes.extend_from_slice(&reason_text(alloc, error)?)?;
    notes.extend_from_slice(b"\n")?;
    Ok(notes)
}
