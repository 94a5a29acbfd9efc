//! How a scan writes its records.
ghost use Rattle.std.specs.Prelude.{◌≡◌, IfOk, IfErr, option_map};
ghost use Rattle.sf_command.specs.jobs.Writings.{IsNoWriting, IsUnsuited, IsUnsuitedBy, IsWriting, Suits, SuitsAll};

use crate::jobs::formats::{RefusedWord, read_print};
use sf_format::{PrintFormat, Profile, ScanFormat};
use sf_forms::check_print;
use sf_messages::CommandFault;
use sf_records::OutputForm;
use std::alloc::Global;

/// How a scan writes its records.
#[derive(Drop)]
pub enum Writing {
    /// In a form.
    Form(OutputForm),
    /// By a print format.
    Print(PrintFormat),
}

/// How an order's scan writes its records: in its form, or by the print format that its word spells, where it has one.
pub fn read_writing(
    alloc: Global,
    profile: Profile,
    form: OutputForm,
    print: Option<&str>,
) -> Result<Writing, RefusedWord<'_>>
    ensures ok { IfOk result (λ writing. IsWriting profile form (option_map (λ word. word.now) print.entry) writing) }
    ensures err { IfErr result (λ refused. IsNoWriting profile (option_map (λ word. word.now) print.entry)
        refused.word.now refused.fault) }
{
    let Some(word) = print else {
        return Ok(Writing::Form(form));
    };
    match read_print(alloc, profile, word) {
        Ok(print) => Ok(Writing::Print(print)),
        Err(fault) => Err(RefusedWord { word, fault }),
    }
}

/// Whether the records of a format can be written so, or why not.
fn check_format(writing: &Writing, format: &ScanFormat) -> Result<(), CommandFault>
    ensures ok { IfOk result (λ _. Suits writing.now format.now) }
    ensures err { IfErr result (IsUnsuitedBy writing.now format.now) }
{
    match writing {
        Writing::Form(_) => Ok(()),
        Writing::Print(print) => match check_print(print, format) {
            Ok(()) => Ok(()),
            Err(why) => Err(CommandFault::Unprintable(why)),
        },
    }
}

/// Whether the records of each format can be written so, or why those of the first one can't that can't.
pub fn check_formats(writing: &Writing, formats: &[ScanFormat]) -> Result<(), CommandFault>
    ensures ok { IfOk result (λ _. SuitsAll writing.now formats.now) }
    ensures err { IfErr result (IsUnsuited writing.now formats.now) }
{
    for format in formats {
        if let Err(fault) = check_format(writing, format) {
            return Err(fault);
        }
    }
    Ok(())
}
