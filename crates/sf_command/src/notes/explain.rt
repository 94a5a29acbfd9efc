//! What is said after the line of a fault, where the words ask for more.
ghost use Rattle.std.specs.Prelude.{◌≡◌, ◌++◌, ℕ, [], Bool, None, List, Option, IfErr, IfOk, map, option_map};
ghost use Rattle.std.specs.Prelude.{slice_get, string_bytes};
ghost use Rattle.sf_format.specs.Language.{Scan};
ghost use Rattle.sf_format.specs.Grammar.{IsFormat};
ghost use Rattle.std.specs.Option.{ForSome};
ghost use Rattle.sf_format.specs.Pieces.{Piece, text_at, text_of};
ghost use Rattle.sf_messages.specs.Notes.{failed_notes, value_notes};
ghost use Rattle.sf_messages.specs.declared.fault.FormatName.{FormatName};
ghost use Rattle.sf_messages.specs.declared.fault.CommandFault.{CommandFault};
ghost use Rattle.sf_command.specs.jobs.Commands.{grammar_of};
ghost use Rattle.sf_command.specs.jobs.Checks.{IsPrintWord};
ghost use Rattle.sf_command.specs.jobs.Jobs.{IsJob, IsJobBy, IsOwnFault};
ghost use Rattle.sf_records.specs.form.OutputForm.{OutputForm};
ghost use Rattle.sf_words.specs.declared.order.Verb.{Verb};
ghost use Rattle.sf_words.specs.declared.order.Verb.TheVariants.{Copy};
ghost use Rattle.sf_command.specs.jobs.CopyFormats.{AreCopies, IsOwnUnpaired};
ghost use Rattle.sf_command.specs.notes.Explains.{AreSpansOf, Explains, MaySay, OfBoth, OfWord, SaysClean, SaysFailed};
ghost use Rattle.sf_command.specs.notes.Explains.{SaysAlone, SaysFormat, SaysMore, SaysMoreOfRefused, SaysPair};
ghost use Rattle.sf_command.specs.notes.Explains.{SaysRefused};
ghost use Rattle.sf_command.specs.notes.Explains.{IsMoreOfLine, is_strict_of};
ghost use Rattle.sf_command.specs.notes.Explains.{told_at, told_of_line, value_number, value_word};
ghost use Rattle.sf_command.specs.notes.Explains.{verdict_notes};
ghost use Rattle.sf_command.specs.notes.Explains.{word_by};

use crate::jobs::{CopyFormats, Job, RefusedWord, ScanText, grammar_of};
use sf_arguments::{EscapeFault, NoScanText, scan_text, unescape};
use sf_format::{FormatFault, PrintFormat, Profile, ScanFormat, Spans, directive_text};
use sf_messages::{
    ArgumentFault, CommandFault, Place, alone_notes, escape_notes, failed_notes, format_notes,
    input_notes, line_notes, mismatch_notes, name_count_notes, pair_notes, push_directive,
    stalled_notes, value_notes,
};
use sf_pair::PairFault;
use sf_records::{LineFault, ToolFault, push_quoted};
use sf_run::Outcome;
use sf_words::Order;
use std::alloc::{AllocError, Global};

/// What a run left: where in the input it stopped, if that is known, and the bytes that were read and not used.
#[derive(Clone, Copy)]
pub struct Left<'b> {
    pub place: Option<Place>,
    pub held: &'b [u8],
}

/// The number of the value at fault, where one is; 0, which is the format, where the number of words is wrong.
fn value_number(fault: ArgumentFault) -> Option<u8>
    ensures { result ≡ value_number fault }
{
    match fault {
        ArgumentFault::NotInKind { at, .. }
        | ArgumentFault::NotOneByte { at }
        | ArgumentFault::BadEscape { at, .. } => Some(at),
        ArgumentFault::WrongCount { .. } => Some(0),
        _ => None,
    }
}

/// The word of the value at fault, which stands after that of the format, or the format's.
fn value_word(order: &Order, fault: ArgumentFault) -> Option<&str>
    ensures { option_map (λ given. given.now) result ≡ value_word (map string_bytes order.entry.now.texts.items) fault }
{
    let number = value_number(fault)?;
    match order.texts.get(usize::from(number)) {
        Some(text) => Some(text.as_str()),
        None => None,
    }
}

/// What is said of a value that isn't what is expected of it.
fn of_value(alloc: Global, word: Option<&str>, fault: ArgumentFault) -> Result<Vec<u8>, AllocError>
    ensures { IfOk result (λ notes. OfWord (λ word said. said ≡ value_notes word fault)
        (option_map (λ given. given.now) word.entry) notes.items) }
{
    match word {
        Some(word) => value_notes(alloc, word.as_bytes(), fault),
        None => Ok(Vec::new(alloc)),
    }
}

/// What is said of a format that is refused, by its word.
fn of_format_word(alloc: Global, word: &str, fault: FormatFault) -> Result<Vec<u8>, AllocError>
    ensures { IfOk result (λ notes. SaysFormat fault word.now notes.items) }
{
    match unescape(alloc, word.as_bytes()) {
        Ok(text) => format_notes(alloc, &text, fault),
        Err(EscapeFault::Bad { .. }) => Ok(Vec::new(alloc)),
        Err(EscapeFault::Memory) => Err(AllocError),
    }
}

/// What is said of a word that is refused.
fn of_refused(alloc: Global, refused: RefusedWord<'_>) -> Result<Vec<u8>, AllocError>
    ensures { IfOk result (λ notes. SaysRefused refused.entry.word.now refused.entry.fault notes.items) }
{
    match refused.fault {
        CommandFault::BadEscape { at, .. } => escape_notes(alloc, refused.word.as_bytes(), at),
        CommandFault::Format(fault) => of_format_word(alloc, refused.word, fault),
        CommandFault::PrintFormat(fault) => of_format_word(alloc, refused.word, fault),
        CommandFault::Unprintable(mismatch) => mismatch_notes(alloc, mismatch),
        _ => Ok(Vec::new(alloc)),
    }
}

/// What is said after the line of a word that is refused, where that is asked for and memory is there.
pub fn notes_of_refused(alloc: Global, explain: bool, refused: RefusedWord<'_>) -> Vec<u8>
    ensures { SaysMoreOfRefused explain refused.entry.word.now refused.entry.fault result.items }
{
    if !explain {
        return Vec::new(alloc);
    }
    match of_refused(alloc, refused) {
        Ok(notes) => notes,
        Err(_) => Vec::new(alloc),
    }
}

/// Where the directives stand in the bytes of a format, where that is asked for and memory is there.
pub fn known_spans(alloc: Global, explain: bool, profile: Profile, text: &[u8]) -> Option<Spans>
    ensures { ForSome result (AreSpansOf profile text.now) }
{
    if !explain {
        return None;
    }
    match Spans::of(alloc, profile, text) {
        Ok(spans) => Some(spans),
        Err(_) => None,
    }
}

/// The text of a directive as it stands in the bytes of its format: by where the directives stand, where that is known.
fn own_text<'t>(
    profile: Profile,
    spans: Option<&Spans>,
    text: &'t [u8],
    number: u16,
) -> Option<&'t [u8]>
    requires { ForSome spans (λ spans. AreSpansOf profile text.now spans.now) }
    ensures { (pieces : List Piece) → IsFormat (Scan profile) pieces → text.entry.now ≡ text_of pieces
        → option_map (λ own. own.now) result ≡ text_at number pieces }
{
    match spans {
        Some(spans) => spans.text_of(text, number),
        None => directive_text(profile, text, number),
    }
}

/// How a directive is told: its text as it stands in the format, and how it is shown.
fn told_at(
    alloc: Global,
    profile: Profile,
    spans: Option<&Spans>,
    text: &[u8],
    format: &ScanFormat,
    number: u16,
) -> Result<Vec<u8>, AllocError>
    requires { ForSome spans (λ spans. AreSpansOf profile text.now spans.now) }
    ensures { IfOk result (λ told. (pieces : List Piece) → IsFormat (Scan profile) pieces → text.now ≡ text_of pieces
        → told.items ≡ told_at pieces format.now number) }
{
    let mut told = Vec::new(alloc);
    let own = own_text(profile, spans, text, number).unwrap_or(&[]);
    push_quoted(&mut told, own)?;
    told.extend_from_slice(b", ")?;
    push_directive(alloc, &mut told, format.directives(), number)?;
    Ok(told)
}

/// How the directive is told at which a line failed, by the format and its bytes.
fn told_of_line(
    alloc: Global,
    profile: Profile,
    spans: Option<&Spans>,
    text: &[u8],
    format: &ScanFormat,
    fault: LineFault,
) -> Result<Vec<u8>, AllocError>
    requires { ForSome spans (λ spans. AreSpansOf profile text.now spans.now) }
    ensures { IfOk result (λ told. (pieces : List Piece) → IsFormat (Scan profile) pieces → text.now ≡ text_of pieces
        → told.items ≡ told_of_line pieces format.now fault) }
{
    match fault {
        LineFault::Failed { outcome } => {
            told_at(alloc, profile, spans, text, format, outcome.at)
        }
        LineFault::LeftOver { .. } | LineFault::TooLong | LineFault::Unfit => Ok(Vec::new(alloc)),
    }
}

/// What is said after the line of one that is no match, where that is asked for, by the format that counts on it, its
/// bytes, and where its directives stand in these, where that is known.
pub fn more_of_line(
    alloc: Global,
    explain: bool,
    profile: Profile,
    spans: Option<&Spans>,
    text: &[u8],
    format: &ScanFormat,
    line: &[u8],
    fault: LineFault,
) -> Result<Vec<u8>, AllocError>
    requires { ForSome spans (λ spans. AreSpansOf profile text.now spans.now) }
    ensures { IfOk result (λ notes. IsMoreOfLine profile explain text.now format.now line.now fault notes.items) }
{
    if !explain {
        return Ok(Vec::new(alloc));
    }
    let told = told_of_line(alloc, profile, spans, text, format, fault)?;
    line_notes(alloc, format.directives(), &told, line, fault)
}

/// What is said of a record that is no match, by its format and what the run left.
fn of_failed(
    alloc: Global,
    profile: Profile,
    scan: &ScanText,
    number: u32,
    outcome: Outcome,
    left: Left<'_>,
) -> Result<Vec<u8>, AllocError>
    ensures { IfOk result (λ notes. (pieces : List Piece) → IsFormat (Scan profile) pieces
        → scan.now.text.items ≡ text_of pieces → notes.items ≡ failed_notes scan.now.format
        (told_at pieces scan.now.format outcome.at) number outcome left.entry.place left.entry.held.now) }
{
    let format = &scan.format;
    let told = told_at(alloc, profile, None, &scan.text, format, outcome.at)?;
    failed_notes(
        alloc,
        format.directives(),
        &told,
        number,
        outcome,
        left.place,
        left.held,
    )
}

/// What is said of a verdict on two formats: why they are no pair.
fn of_verdict(
    alloc: Global,
    profile: Profile,
    print: &PrintFormat,
    scan: &ScanText,
    verdict: Option<PairFault>,
) -> Result<Vec<u8>, AllocError>
    ensures { IfOk result (λ notes. (pieces : List Piece) → IsFormat (Scan profile) pieces
        → scan.now.text.items ≡ text_of pieces → notes.items ≡ verdict_notes print.now pieces scan.now.format verdict) }
{
    let Some(fault) = verdict else {
        return Ok(Vec::new(alloc));
    };
    let told = told_at(alloc, profile, None, &scan.text, &scan.format, fault.at)?;
    pair_notes(
        alloc,
        print.directives(),
        scan.format.directives(),
        &told,
        fault,
    )
}

/// What is said after the line of a copy of lines, where that is asked for and memory is there: why its formats are no
/// pair.
pub fn notes_of_copies(
    alloc: Global,
    explain: bool,
    order: &Order,
    formats: &CopyFormats,
    answer: Result<u8, CommandFault>,
) -> Vec<u8>
    requires copy { order.now.verb ≡ Copy }
    requires formats { AreCopies (grammar_of order.now.profile) (map string_bytes order.now.texts.items) formats.now }
    requires own { IfErr answer (IsOwnUnpaired formats.now) }
    ensures { SaysMore explain order.now None [] answer result.items }
{
    if !explain {
        return Vec::new(alloc);
    }
    let Err(CommandFault::Pair(fault)) = answer else {
        return Vec::new(alloc);
    };
    let profile = grammar_of(order.profile);
    match of_verdict(alloc, profile, &formats.print, &formats.scan, Some(fault)) {
        Ok(notes) => notes,
        Err(_) => Vec::new(alloc),
    }
}

/// What is said of a print format: why no scan format reads it back, if none does; `width` is that of texts.
fn of_answer(
    alloc: Global,
    profile: Profile,
    width: Option<u16>,
    print: &PrintFormat,
) -> Result<Vec<u8>, AllocError>
    ensures { (word : List ℕ) → IsPrintWord profile word print.now
        → IfOk result (λ notes. MaySay (SaysAlone profile width word) notes.items) }
{
    match scan_text(alloc, profile, print, width) {
        Err(NoScanText::Unpaired(fault)) => alone_notes(alloc, print.directives(), fault),
        Err(NoScanText::NoMemory) => Err(AllocError),
        Ok(_) | Err(NoScanText::NoFormat(_)) => Ok(Vec::new(alloc)),
    }
}

/// What is said of a job that was done: of a check, why the formats are no pair, or why none reads the print format
/// back.
fn of_clean_end(
    alloc: Global,
    profile: Profile,
    width: Option<u16>,
    job: &Job,
) -> Result<Vec<u8>, AllocError>
    ensures { (strict : Bool) (form : OutputForm) (print : Option (List ℕ)) (of : Verb) (texts : List (List ℕ))
        → IsJobBy strict profile form print job.now of texts
        → IfOk result (λ notes. MaySay (SaysClean profile width of texts) notes.items) }
{
    match job {
        Job::Check {
            print,
            scan,
            verdict,
        } => of_verdict(alloc, profile, print, scan, *verdict),
        Job::Answer { print } => of_answer(alloc, profile, width, print),
        _ => Ok(Vec::new(alloc)),
    }
}

/// What is said of the fault of a pair: a copy ends with it.
fn of_pair_fault(
    alloc: Global,
    profile: Profile,
    job: &Job,
    fault: PairFault,
) -> Result<Vec<u8>, AllocError>
    ensures { (strict : Bool) (form : OutputForm) (print : Option (List ℕ)) (of : Verb) (texts : List (List ℕ))
        → IsJobBy strict profile form print job.now of texts → IsOwnFault job.now (CommandFault.Pair fault)
        → IfOk result (λ notes. MaySay (OfBoth (SaysPair profile) texts) notes.items) }
{
    match job {
        Job::Copy { print, scan } => of_verdict(alloc, profile, print, scan, Some(fault)),
        _ => Ok(Vec::new(alloc)),
    }
}

/// What is said of a record that is no match, by the scan format of the job.
fn of_failed_job(
    alloc: Global,
    profile: Profile,
    job: &Job,
    number: u32,
    outcome: Outcome,
    left: Left<'_>,
) -> Result<Vec<u8>, AllocError>
    ensures { (strict : Bool) (form : OutputForm) (print : Option (List ℕ)) (of : Verb) (texts : List (List ℕ))
        → IsJobBy strict profile form print job.now of texts
        → IfOk result (λ notes. MaySay (OfWord (SaysFailed (is_strict_of of strict) profile number outcome
        left.entry.place left.entry.held.now) (word_by print of texts FormatName.Scan)) notes.items) }
{
    match job.scan() {
        Some(scan) => of_failed(alloc, profile, scan, number, outcome, left),
        None => Ok(Vec::new(alloc)),
    }
}

/// What is said of the fault that a job ended with, by what the run left.
fn of_fault(
    alloc: Global,
    profile: Profile,
    order: &Order,
    job: &Job,
    left: Left<'_>,
    fault: CommandFault,
) -> Result<Vec<u8>, AllocError>
    ensures { (strict : Bool) (form : OutputForm)
        → IsJobBy strict profile form (option_map string_bytes order.now.print) job.now order.now.verb
        (map string_bytes order.now.texts.items) → IsOwnFault job.now fault
        → IfOk result (λ notes. MaySay (Explains strict profile (option_map string_bytes order.now.print)
        order.now.verb (map string_bytes order.now.texts.items) left.entry.place left.entry.held.now fault)
        notes.items) }
{
    match fault {
        CommandFault::Record(ToolFault::Failed { number, outcome }) => {
            of_failed_job(alloc, profile, job, number, outcome, left)
        }
        CommandFault::Record(ToolFault::Stalled { .. }) => stalled_notes(alloc, left.place),
        CommandFault::Record(ToolFault::Unfit { .. } | ToolFault::Read { .. }) => {
            input_notes(alloc, left.place)
        }
        CommandFault::Values(fault) => of_value(alloc, value_word(order, fault), fault),
        CommandFault::Pair(fault) => of_pair_fault(alloc, profile, job, fault),
        CommandFault::Unprintable(mismatch) => mismatch_notes(alloc, mismatch),
        CommandFault::NameCount { expected, got } => name_count_notes(alloc, expected, got),
        _ => Ok(Vec::new(alloc)),
    }
}

/// What is said after the line of a job's answer, where that is asked for and memory is there, by what the run left.
pub fn notes_of_job(
    alloc: Global,
    explain: bool,
    order: &Order,
    job: &Job,
    left: Left<'_>,
    answer: Result<u8, CommandFault>,
) -> Vec<u8>
    requires job { IsJob order.now job.now }
    requires own { IfErr answer (IsOwnFault job.now) }
    ensures { SaysMore explain order.now left.entry.place left.entry.held.now answer result.items }
{
    if !explain {
        return Vec::new(alloc);
    }
    let profile = grammar_of(order.profile);
    let said = match answer {
        Ok(_) => of_clean_end(alloc, profile, order.width, job),
        Err(fault) => of_fault(alloc, profile, order, job, left, fault),
    };
    match said {
        Ok(notes) => notes,
        Err(_) => Vec::new(alloc),
    }
}
