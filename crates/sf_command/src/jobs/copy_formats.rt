//! The formats of a copy of lines.
ghost use Rattle.std.specs.Prelude.{◌≡◌, IfOk, IfErr, map, string_bytes};
ghost use Rattle.sf_words.specs.Orders.{HasTexts};
ghost use Rattle.sf_words.specs.declared.order.Verb.TheVariants.{Copy};
ghost use Rattle.sf_command.specs.jobs.Commands.{grammar_of};
ghost use Rattle.sf_command.specs.jobs.CopyFormats.{AreCopies, AreCopyFormats, AreNoCopies, HasFront, line_of};
ghost use Rattle.sf_command.specs.jobs.Jobs.{AreNoTwo};

use crate::jobs::command::grammar_of;
use crate::jobs::formats::{RefusedWord, ScanText};
use crate::jobs::job::two_of;
use sf_format::{FormatWhy, PrintFormat, Profile, ScanFormat};
use sf_messages::CommandFault;
use sf_words::Order;
use std::alloc::{AllocError, Global};

/// The formats of a copy of lines.
#[derive(Drop)]
pub struct CopyFormats {
    /// The format by which a record is printed.
    pub print: PrintFormat,
    /// The format that reads it back.
    pub scan: ScanText,
    /// What stands in that before a newline at its end, if it ends so.
    pub front: Option<ScanText>,
}

impl CopyFormats {
    /// The format by which a line is read, which has no newline.
    pub fn line(&self) -> &ScanText
        ensures { result.now ≡ line_of self.entry.now }
    {
        match &self.front {
            Some(front) => front,
            None => &self.scan,
        }
    }
}

/// A format and the bytes that spell it, which are copied.
fn with_bytes(alloc: Global, format: ScanFormat, bytes: &[u8]) -> Result<ScanText, AllocError>
    ensures bytes { IfOk result (λ scan. scan.text.items ≡ bytes.now) }
    ensures format { IfOk result (λ scan. scan.format ≡ format) }
{
    let mut text = Vec::new(alloc);
    text.extend_from_slice(bytes)?;
    Ok(ScanText { text, format })
}

/// What stands in a scan format before a newline at its end, if it ends so and that is a format by itself.
fn front_of(alloc: Global, profile: Profile, own: &[u8]) -> Result<Option<ScanText>, AllocError>
    ensures { IfOk result (HasFront profile own.now) }
{
    let Some(front) = own.strip_suffix(b"%*1[\n]") else {
        return Ok(None);
    };
    match ScanFormat::parse(alloc, profile, front) {
        Ok(format) => {
            let scan = with_bytes(alloc, format, front)?;
            Ok(Some(scan))
        }
        Err(fault) => match fault.why {
            FormatWhy::NoMemory => Err(AllocError),
            _ => Ok(None),
        },
    }
}

/// The formats that the words of a copy of lines spell. The print format is judged first.
fn read_copy_formats<'o>(
    alloc: Global,
    profile: Profile,
    print: &'o str,
    scan: &'o str,
) -> Result<CopyFormats, RefusedWord<'o>>
    ensures ok { IfOk result (AreCopyFormats profile print.entry.now scan.entry.now) }
    ensures err { IfErr result (λ refused. AreNoTwo profile print.entry.now scan.entry.now refused.word.now
        refused.fault) }
{
    let two = match two_of(alloc, profile, print, scan) {
        Ok(two) => two,
        Err(refused) => return Err(refused),
    };
    match front_of(alloc, profile, &two.scan.text) {
        Ok(front) => Ok(CopyFormats {
            print: two.print,
            scan: two.scan,
            front,
        }),
        Err(_) => Err(RefusedWord {
            word: scan,
            fault: CommandFault::Memory,
        }),
    }
}

/// The formats of an order to copy lines, by its words; or the word that is refused, and why.
pub fn prepare_copies(alloc: Global, order: &Order) -> Result<CopyFormats, RefusedWord<'_>>
    requires { HasTexts Copy (map string_bytes order.now.texts.items) }
    ensures ok { IfOk result (AreCopies (grammar_of order.entry.now.profile)
        (map string_bytes order.entry.now.texts.items)) }
    ensures err { IfErr result (λ refused. AreNoCopies (grammar_of order.entry.now.profile)
        (map string_bytes order.entry.now.texts.items) refused.word.now refused.fault) }
{
    let [print, scan] = order.texts.as_slice() else {
        unreachable!()
    };
    let profile = grammar_of(order.profile);
    read_copy_formats(alloc, profile, print.as_str(), scan.as_str())
}
