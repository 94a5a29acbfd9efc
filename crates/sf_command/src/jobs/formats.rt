//! Formats as words: their escapes, then what they spell.
ghost use Rattle.std.specs.Prelude.{◌≡◌, IfOk, IfErr};
ghost use Rattle.sf_command.specs.jobs.Checks.{IsNoPrintWord, IsNoScanWord, IsPrintWord, IsReadWord, as_read};
ghost use Rattle.sf_command.specs.jobs.Commands.{IsBadText};
ghost use Rattle.sf_command.specs.jobs.Jobs.{IsNoPrint, IsNoScan, IsPrint, IsScan};
ghost use Rattle.sf_arguments.specs.Escapes.{Unescapes};

use sf_arguments::{EscapeFault, unescape};
use sf_format::{PrintFormat, Profile, ScanFormat};
use sf_messages::{CommandFault, FormatName, format_fault, print_format_fault};
use std::alloc::Global;

/// A word that spells no format, and why.
#[derive(Clone, Copy)]
pub struct RefusedWord<'w> {
    /// The word; empty where no word by itself is at fault.
    pub word: &'w str,
    /// Why it is refused.
    pub fault: CommandFault,
}

/// The bytes of a format's text.
pub(crate) fn resolved(alloc: Global, name: FormatName, word: &str) -> Result<Vec<u8>, CommandFault>
    ensures ok { IfOk result (λ text. Unescapes word.now text.items) }
    ensures err { IfErr result (IsBadText name word.now) }
{
    match unescape(alloc, word.as_bytes()) {
        Ok(text) => Ok(text),
        Err(EscapeFault::Bad { at }) => Err(CommandFault::BadEscape { name, at }),
        Err(EscapeFault::Memory) => Err(CommandFault::Memory),
    }
}

/// A scan format as it is read: with `--strict`, each conversion as if it had `!`.
fn as_read(strict: bool, format: ScanFormat) -> ScanFormat
    ensures { result ≡ as_read strict format }
{
    if strict { format.strict() } else { format }
}

/// A scan format as it is read, and the bytes that spell it.
#[derive(Drop)]
pub struct ScanText {
    /// The bytes.
    pub text: Vec<u8>,
    /// What they spell, as it is read.
    pub format: ScanFormat,
}

/// The scan format that a word spells, as it is read, and its bytes.
pub(crate) fn read_scan_text(
    alloc: Global,
    strict: bool,
    profile: Profile,
    word: &str,
) -> Result<ScanText, CommandFault>
    ensures ok { IfOk result (IsScan strict profile word.now) }
    ensures err { IfErr result (IsNoScan profile word.now) }
{
    let text = resolved(alloc, FormatName::Scan, word)?;
    match ScanFormat::parse(alloc, profile, &text) {
        Ok(format) => Ok(ScanText {
            text,
            format: as_read(strict, format),
        }),
        Err(fault) => Err(format_fault(fault)),
    }
}

/// The print format that a word spells.
pub(crate) fn read_print_text(
    alloc: Global,
    profile: Profile,
    word: &str,
) -> Result<PrintFormat, CommandFault>
    ensures ok { IfOk result (λ format. IsPrint profile word.now format) }
    ensures err { IfErr result (IsNoPrint profile word.now) }
{
    let text = resolved(alloc, FormatName::Print, word)?;
    match PrintFormat::parse(alloc, profile, &text) {
        Ok(format) => Ok(format),
        Err(fault) => Err(print_format_fault(fault)),
    }
}

/// The print format that a word spells.
pub fn read_print(alloc: Global, profile: Profile, word: &str) -> Result<PrintFormat, CommandFault>
    ensures ok { IfOk result (λ format. IsPrintWord profile word.now format) }
    ensures err { IfErr result (IsNoPrintWord profile word.now) }
{
    let text = resolved(alloc, FormatName::Print, word)?;
    match PrintFormat::parse(alloc, profile, &text) {
        Ok(format) => Ok(format),
        Err(fault) => Err(print_format_fault(fault)),
    }
}

/// The scan format that a word spells, as it is read.
pub fn read_scan(
    alloc: Global,
    strict: bool,
    profile: Profile,
    word: &str,
) -> Result<ScanFormat, CommandFault>
    ensures ok { IfOk result (λ format. IsReadWord strict profile word.now format) }
    ensures err { IfErr result (IsNoScanWord profile word.now) }
{
    let text = resolved(alloc, FormatName::Scan, word)?;
    match ScanFormat::parse(alloc, profile, &text) {
        Ok(format) => Ok(as_read(strict, format)),
        Err(fault) => Err(format_fault(fault)),
    }
}
