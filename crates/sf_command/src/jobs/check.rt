//! The check of a print format and a scan format as a pair.
ghost use Rattle.std.specs.Prelude.{◌≡◌, ◌++◌, ◌≤◌, ◌∷◌, [], ℕ, List, IfOk, IfErr, length, map, string_bytes};
ghost use Rattle.sf_arguments.specs.answer.Escaped.{escaped};
ghost use Rattle.sf_command.specs.jobs.Checks.{AnswersUnits, AnswersWord, Checks, ChecksWords, IsNoPrintWord};
ghost use Rattle.sf_command.specs.jobs.Checks.{IsNoScanWord};
ghost use Rattle.sf_command.specs.jobs.Checks.{IsPrintWord, IsScanWord, IsVerdict, TellsLine};
ghost use Rattle.sf_command.specs.jobs.Checks.{verdict_status, verdict_text};
ghost use Rattle.sf_command.specs.jobs.Commands.{ChecksTexts, Counts, IsUnwrittenBy};

use itoa::Buffer;
use sf_arguments::{NoScanText, escaped, scan_text};
use sf_format::{PrintFormat, Profile, ScanFormat};
use sf_messages::{CommandFault, ErrorLine, format_fault, joined};
use sf_pair::{Pair, PairFault, PairWhy};
use sf_print::Sink;
use sf_records::write_whole;
use std::alloc::{AllocError, Global};

/// The line that tells of a pair's fault.
fn refusal_line(why: PairWhy, at: u16) -> ErrorLine
    ensures { result.bytes ≡ verdict_text (Some (record { at = at; why = why })) ++ 10 ∷ [] }
{
    let mut number = Buffer::new();
    let number = number.format(at);
    joined(&["refused: ", why.text(), " at ", number, "\n"])
}

/// The line that tells a verdict.
fn verdict_line(verdict: Option<PairFault>) -> ErrorLine
    ensures { result.bytes ≡ verdict_text verdict ++ 10 ∷ [] }
{
    match verdict {
        None => joined(&["accepted\n"]),
        Some(fault) => refusal_line(fault.why, fault.at),
    }
}

/// The exit status of a verdict.
fn verdict_status(verdict: Option<PairFault>) -> u8
    ensures { result ≡ verdict_status verdict }
{
    match verdict {
        None => 0,
        Some(_) => 1,
    }
}

/// Why the formats are no pair; None where they are one.
pub fn verdict_of(print: &PrintFormat, scan: &ScanFormat) -> Option<PairFault>
    ensures { IsVerdict print.now scan.now result }
{
    match Pair::check(print, scan) {
        Ok(_) => None,
        Err(fault) => Some(fault),
    }
}

/// Writes a line, and answers this exit status.
fn write_line<K: Sink>(line: &[u8], status: u8, out: &mut K) -> Result<u8, CommandFault>
    ensures tells { (text : List ℕ) → line.now ≡ text ++ 10 ∷ []
        → TellsLine text status (K.contents out.old) (K.contents out.new) result }
    ensures unwritten { IfErr result (λ fault. IsUnwrittenBy fault out.old out.new) }
    ensures failures { Counts (K.failures out.old) (K.failures out.new) result }
{
    match write_whole(out, line) {
        Ok(()) => Ok(status),
        Err(_) => Err(CommandFault::Write),
    }
}

/// Tells a verdict in a line.
pub(crate) fn tell_verdict<K: Sink>(
    verdict: Option<PairFault>,
    out: &mut K,
) -> Result<u8, CommandFault>
    ensures tells { TellsLine (verdict_text verdict) (verdict_status verdict) (K.contents out.old) (K.contents out.new)
        result }
    ensures unwritten { IfErr result (λ fault. IsUnwrittenBy fault out.old out.new) }
    ensures failures { Counts (K.failures out.old) (K.failures out.new) result }
{
    let line = verdict_line(verdict);
    write_line(line.as_str().as_bytes(), verdict_status(verdict), out)
}

/// The line of a scan format, as a word.
fn format_line(alloc: Global, text: &[u8]) -> Result<Vec<u8>, AllocError>
    ensures { IfOk result (λ line. line.items ≡ escaped text.now ++ 10 ∷ []) }
{
    let mut line = escaped(alloc, text)?;
    line.push(b'\n')?;
    Ok(line)
}

/// Tells the scan format that reads the print format back in a line, or why there is none; `width` is that of texts.
pub(crate) fn answer_format<K: Sink>(
    alloc: Global,
    profile: Profile,
    width: Option<u16>,
    print: &PrintFormat,
    out: &mut K,
) -> Result<u8, CommandFault>
    ensures answers { AnswersUnits profile width print.now (K.contents out.old) (K.contents out.new) result }
    ensures unwritten { IfErr result (λ fault. IsUnwrittenBy fault out.old out.new) }
    ensures failures { Counts (K.failures out.old) (K.failures out.new) result }
{
    match scan_text(alloc, profile, print, width) {
        Ok(text) => {
            let line = format_line(alloc, &text)?;
            write_line(&line, 0, out)
        }
        Err(NoScanText::Unpaired(fault)) => tell_verdict(Some(fault), out),
        Err(NoScanText::NoFormat(fault)) => Err(format_fault(fault)),
        Err(NoScanText::NoMemory) => Err(CommandFault::Memory),
    }
}
