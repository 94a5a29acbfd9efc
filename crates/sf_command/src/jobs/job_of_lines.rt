//! What an order of lines asks for, with its formats read.
ghost use Rattle.std.specs.Prelude.{◌++◌, IfOk, IfErr, map, option_map, string_bytes};
ghost use Rattle.sf_command.specs.jobs.LinesJobs.{AreScanWords, IsFirstRefused, IsRefused};
ghost use Rattle.sf_command.specs.jobs.Writings.{IsWriting, SuitsAll};

use crate::jobs::formats::{RefusedWord, read_scan};
use crate::jobs::heads::text_of;
use crate::jobs::writing::{Writing, check_formats, read_writing};
use sf_format::{Profile, ScanFormat};
use sf_messages::CommandFault;
use sf_records::OutputForm;
use sf_words::Order;
use std::alloc::Global;

/// The scan formats that the words spell, in their order, as they are read; or the first that spells none.
fn formats_of(
    alloc: Global,
    strict: bool,
    profile: Profile,
    words: &[String],
) -> Result<Vec<ScanFormat>, RefusedWord<'_>>
    ensures ok { IfOk result (λ formats. AreScanWords strict profile (map string_bytes words.entry.now) formats.items) }
    ensures err { IfErr result (λ refused. IsFirstRefused profile
        (map string_bytes words.entry.now) refused.word.now refused.fault) }
{
    let mut formats = Vec::new(alloc);
    for given in words {
        let word = given.as_str();
        let format = match read_scan(alloc, strict, profile, word) {
            Ok(format) => format,
            Err(fault) => return Err(RefusedWord { word, fault }),
        };
        if formats.push(format).is_err() {
            let fault = CommandFault::Memory;
            return Err(RefusedWord { word, fault });
        }
    }
    Ok(formats)
}

/// The scan formats of an order of lines.
#[derive(Drop)]
pub struct ScanFormats {
    /// By which lines are passed over.
    pub ignored: Vec<ScanFormat>,
    /// By which lines are scanned.
    pub tried: Vec<ScanFormat>,
}

/// The scan formats that the words spell, those by which lines are passed over first; or the first that spells none.
fn scan_formats<'w>(
    alloc: Global,
    strict: bool,
    profile: Profile,
    ignored: &'w [String],
    words: &'w [String],
) -> Result<ScanFormats, RefusedWord<'w>>
    ensures ignored { IfOk result (λ formats. AreScanWords strict profile (map string_bytes ignored.entry.now)
        formats.ignored.items) }
    ensures tried { IfOk result (λ formats. AreScanWords strict profile (map string_bytes words.entry.now)
        formats.tried.items) }
    ensures err { IfErr result (λ refused. IsFirstRefused profile
        (map string_bytes ignored.entry.now ++ map string_bytes words.entry.now) refused.word.now refused.fault) }
{
    let ignored = match formats_of(alloc, strict, profile, ignored) {
        Ok(formats) => formats,
        Err(refused) => return Err(refused),
    };
    match formats_of(alloc, strict, profile, words) {
        Ok(tried) => Ok(ScanFormats { ignored, tried }),
        Err(refused) => Err(refused),
    }
}

/// The formats of an order of lines.
#[derive(Drop)]
pub struct LinesJob {
    /// How records are written.
    pub writing: Writing,
    /// By which formats lines are scanned.
    pub formats: ScanFormats,
}

/// The formats that the words of an order of lines spell. The print format is judged first, where there is one, then
/// the scan formats, and then whether it can print what they give.
pub fn lines_job<'o>(
    alloc: Global,
    profile: Profile,
    form: OutputForm,
    order: &'o Order,
) -> Result<LinesJob, RefusedWord<'o>>
    ensures writing { IfOk result (λ job. IsWriting profile form (option_map string_bytes order.entry.now.print)
        job.writing) }
    ensures ignored { IfOk result (λ job. AreScanWords order.entry.now.strict profile
        (map string_bytes order.entry.now.ignored.items) job.formats.ignored.items) }
    ensures tried { IfOk result (λ job. AreScanWords order.entry.now.strict profile
        (map string_bytes order.entry.now.texts.items) job.formats.tried.items) }
    ensures suits { IfOk result (λ job. SuitsAll job.writing job.formats.tried.items) }
    ensures err { IfErr result (λ refused. IsRefused order.entry.now.strict profile form
        (option_map string_bytes order.entry.now.print) (map string_bytes order.entry.now.ignored.items)
        (map string_bytes order.entry.now.texts.items) refused.word.now refused.fault) }
{
    let writing = match read_writing(alloc, profile, form, text_of(order.print.as_ref())) {
        Ok(writing) => writing,
        Err(refused) => return Err(refused),
    };
    let formats = match scan_formats(alloc, order.strict, profile, &order.ignored, &order.texts) {
        Ok(formats) => formats,
        Err(refused) => return Err(refused),
    };
    match check_formats(&writing, &formats.tried) {
        Ok(()) => Ok(LinesJob { writing, formats }),
        Err(fault) => Err(RefusedWord { word: "", fault }),
    }
}
