//! The lines of an input, each scanned by the formats of an order.
ghost use Rattle.std.specs.Borrow.{GName};
ghost use Rattle.std.specs.Prelude.{◌≡◌, ◌≤◌, ◌<◌, ◌-◌, ◌++◌, ℕ, List, Some, true, false, IfOk, IfErr, length, map};
ghost use Rattle.std.specs.Prelude.{Option, option_map, refl, slice_get, string_bytes};
ghost use Rattle.sf_format.specs.declared.directive.Directive.{Directive};
ghost use Rattle.sf_format.specs.declared.directive.Profile.{Profile};
ghost use Rattle.sf_records.specs.declared.by_lines.end.LineFault.{LineFault};
ghost use Rattle.sf_command.specs.jobs.Commands.{form_of, grammar_of};
ghost use Rattle.sf_command.specs.jobs.Heads.{is_headed, names_text};
ghost use Rattle.sf_command.specs.jobs.LinesJobs.{AreScanWords};
ghost use Rattle.sf_command.specs.jobs.Writings.{IsWriting, SuitsAll};
ghost use Rattle.sf_arguments.specs.Escapes.{Unescapes};
ghost use Rattle.sf_command.specs.notes.Explains.{OfWord};
ghost use Rattle.sf_command.specs.console.Fronts.{file_name};
ghost use Rattle.sf_command.specs.line_jobs.Lines.{KnowsSpans, RunsForm, RunsLines, RunsUnder, RunsWriting, SaysBy};
ghost use Rattle.sf_command.specs.line_jobs.Lines.{SaysLines, SaysMoreOfLines};
ghost use Rattle.sf_command.specs.line_jobs.Lines.{ScansLines, SomeIsSaid, SomeIsSaidBy, answer_by};

use crate::console::{Console, file_name, write_told};
use crate::jobs::{
    LinesJob, Writing, grammar_of, header_fault, is_headed, named_maker, write_header,
};
use crate::notes::{known_spans, more_of_line};
use sf_arguments::unescape;
use sf_format::{Profile, ScanFormat, Spans};
use sf_forms::{FormMaker, Maker, PrintMaker};
use sf_messages::{CommandFault, line_fault_line, name_count_notes};
use sf_print::Sink;
use sf_read::{Lookahead, Source};
use sf_records::{LineFault, LineFormats, LinesEnd, LinesOptions, OutputForm, Teller, run_lines};
use sf_words::{LineOptions, Order};
use std::alloc::{AllocError, Global};
use std::marker::PhantomData;

/// What is said of lines that are no match.
#[derive(Clone, Copy)]
struct Voice<'t, 's> {
    /// Whether nothing is said.
    quiet: bool,
    /// Whether more is said of a line, by the last format and its bytes.
    explain: bool,
    /// By which grammar the format is read.
    profile: Profile,
    /// The bytes of the last format, where more is said.
    text: &'t [u8],
    /// Where the directives stand in these bytes, where that is known.
    spans: Option<&'s Spans>,
    /// The last format.
    format: &'t ScanFormat,
    /// The name of the file that is read, if it has one.
    file: Option<&'t str>,
}

/// How an order scans its lines, and by which format and bytes more is said of one that is no match.
#[derive(Clone, Copy)]
pub(crate) struct LineScan<'t> {
    /// Whether more is said of a line, by the last format and its bytes.
    pub(crate) explain: bool,
    /// By which formats lines are scanned.
    pub(crate) formats: &'t LineFormats<'t>,
    /// The bytes of the last format, where more is said.
    pub(crate) text: &'t [u8],
    pub(crate) order: &'t Order,
    pub(crate) options: LineOptions,
    ghost limit: { order.now.limit ≤ 2147483647 },
    ghost some: { 0 < length formats.now.tried.now },
    ghost said: { (ds : List Directive)
        → slice_get formats.now.tried.now (length formats.now.tried.now - 1) ≡ Some ds
        → SomeIsSaid (file_name order.now) (grammar_of order.now.profile) options.quiet explain text.now ds },
}

/// Says of each line that is no match what is to be said, as it comes. Where the error output has failed, nothing more
/// is said.
#[derive(Drop)]
struct LineNotes<'e, 'v, K: Sink, E, C: Console<K, E>> {
    alloc: Global,
    err: &'e mut E,
    of: PhantomData<(K, C)>,
    failed: bool,
    voice: &'v Voice<'v, 'v>,
    ghost some: { SomeIsSaidBy voice.now },
    ghost known: { KnowsSpans voice.now },
}

impl<K: Sink, E, C: Console<K, E>> Teller<K> for LineNotes<'_, '_, K, E, C> {
    ghost says = { λ notes telling. SaysBy notes.voice.now telling };

    ghost some = { λ notes. notes.some };

    ghost told = { λ notes. C.said notes.err.now };

    ghost failed = { λ notes. notes.failed };

    ghost faults = { λ notes. C.unsaid notes.err.now };

    ghost Kept = { GName };

    ghost kept = { λ notes. notes.err.ghost_name };

    fn tell(
        &mut self,
        to: &mut K,
        number: u64,
        line: &[u8],
        fault: LineFault,
    ) -> Result<(), AllocError> {
        let voice = self.voice;
        if voice.quiet || self.failed {
            return Ok(());
        }
        let more = more_of_line(
            self.alloc,
            voice.explain,
            voice.profile,
            voice.spans,
            voice.text,
            voice.format,
            line,
            fault,
        )?;
        let told = line_fault_line(number, fault);
        let line = told.as_str().as_bytes();
        self.failed = write_told::<K, E, C>(to, self.err, voice.file, line, &more);
        Ok(())
    }
}

/// What the command answers where the loop over the lines has ended.
fn answer_by(end: LinesEnd) -> Result<u8, CommandFault>
    ensures { result ≡ answer_by end.status end.fault }
{
    match end.fault {
        Some(fault) => Err(CommandFault::Lines(fault)),
        None => Ok(end.status),
    }
}

/// Scans the lines by the formats, and writes what the maker makes of them; the notes say what is said of them.
fn loop_lines<M: Maker, S: Source, K: Sink, E, C: Console<K, E>, const N: usize>(
    alloc: Global,
    maker: &mut M,
    formats: &LineFormats<'_>,
    options: LineOptions,
    limit: u32,
    from: &mut Lookahead<S, N>,
    out: &mut K,
    notes: &mut LineNotes<'_, '_, K, E, C>,
) -> Result<u8, CommandFault>
    requires limit { limit ≤ 2147483647 }
    requires some { 0 < length formats.now.tried.now }
    requires fresh { notes.old.failed ≡ false }
    ensures runs { (telling : ℕ → List ℕ → LineFault → List ℕ)
        → SaysBy notes.old.voice.now telling
        → RunsLines S.to_come S.failures K.contents K.failures C.said C.unsaid (M.work maker.old) options limit
        formats.now.ignored.now formats.now.tried.now telling from.old from.new out.old out.new
        notes.old.err.now notes.new.err.now result }
    ensures kept { notes.new.err.ghost_name ≡ notes.old.err.ghost_name }
{
    let how = LinesOptions {
        limit,
        skip: options.skip,
        whole: options.whole,
        keep_going: options.keep_going,
        matching: options.matching,
    };
    let end = run_lines(alloc, from, out, maker, notes, formats, how);
    answer_by(end)
}

/// What is said after the line of an answer, where that is asked for and memory is there: which names are due.
pub fn notes_of_lines(alloc: Global, explain: bool, answer: Result<u8, CommandFault>) -> Vec<u8>
    ensures { (profile : Profile) (print : Option (List ℕ)) (words : List (List ℕ))
        → SaysMoreOfLines explain profile print words answer result.items }
{
    if !explain {
        return Vec::new(alloc);
    }
    let Err(CommandFault::NameCount { expected, got }) = answer else {
        return Vec::new(alloc);
    };
    match name_count_notes(alloc, expected, got) {
        Ok(notes) => notes,
        Err(_) => Vec::new(alloc),
    }
}

/// The last of the words.
fn last_word(words: &[String]) -> Option<&str>
    ensures { option_map (λ given. given.now) result ≡ slice_get (map string_bytes words.entry.now)
        (length words.entry.now - 1) }
{
    match words.get(words.len().saturating_sub(1)) {
        Some(text) => Some(text.as_str()),
        None => None,
    }
}

/// The bytes of a format's word, where they are asked for. The word spells a format, so that what is refused is memory
/// alone.
fn text_of_last(alloc: Global, explain: bool, word: Option<&str>) -> Result<Vec<u8>, CommandFault>
    ensures ok { IfOk result (λ text. explain ≡ true → OfWord Unescapes
        (option_map (λ given. given.now) word.entry) text.items) }
    ensures err { IfErr result (λ fault. fault ≡ CommandFault.Memory) }
{
    if !explain {
        return Ok(Vec::new(alloc));
    }
    let Some(word) = word else {
        return Ok(Vec::new(alloc));
    };
    match unescape(alloc, word.as_bytes()) {
        Ok(text) => Ok(text),
        Err(_) => Err(CommandFault::Memory),
    }
}

/// Scans the lines by the formats, and writes what the maker makes of them; the voice says what is said of lines.
fn lines_told<M: Maker, S: Source, K: Sink, E, C: Console<K, E>, const N: usize>(
    alloc: Global,
    maker: &mut M,
    formats: &LineFormats<'_>,
    voice: &Voice<'_, '_>,
    options: LineOptions,
    limit: u32,
    from: &mut Lookahead<S, N>,
    out: &mut K,
    err: &mut E,
) -> Result<u8, CommandFault>
    requires limit { limit ≤ 2147483647 }
    requires some { 0 < length formats.now.tried.now }
    requires said { SomeIsSaidBy voice.now }
    requires known { KnowsSpans voice.now }
    ensures { (telling : ℕ → List ℕ → LineFault → List ℕ) → SaysBy voice.now telling
        → RunsLines S.to_come S.failures K.contents K.failures C.said C.unsaid (M.work maker.old) options limit
        formats.now.ignored.now formats.now.tried.now telling from.old from.new out.old out.new err.old err.new result }
{
    let mut notes = LineNotes::<K, E, C> {
        alloc,
        err,
        of: PhantomData,
        failed: false,
        voice,
    };
    loop_lines(alloc, maker, formats, options, limit, from, out, &mut notes)
}

/// Scans the lines, and writes what the maker makes of them.
pub(crate) fn lines_with<M: Maker, S: Source, K: Sink, E, C: Console<K, E>, const N: usize>(
    alloc: Global,
    scan: &LineScan<'_>,
    maker: &mut M,
    from: &mut Lookahead<S, N>,
    out: &mut K,
    err: &mut E,
) -> Result<u8, CommandFault>
    ensures { (ds : List Directive) (telling : ℕ → List ℕ → LineFault → List ℕ)
        → slice_get scan.now.formats.now.tried.now (length scan.now.formats.now.tried.now - 1) ≡ Some ds
        → SaysLines (file_name scan.now.order.now) (grammar_of scan.now.order.now.profile) scan.now.options.quiet
        scan.now.explain scan.now.text.now ds telling
        → RunsLines S.to_come S.failures K.contents K.failures C.said C.unsaid (M.work maker.old) scan.now.options
        scan.now.order.now.limit scan.now.formats.now.ignored.now scan.now.formats.now.tried.now telling
        from.old from.new out.old out.new err.old err.new result }
{
    let profile = grammar_of(scan.order.profile);
    let spans = known_spans(alloc, scan.explain, profile, scan.text);
    let formats = scan.formats;
    let voice = Voice {
        quiet: scan.options.quiet,
        explain: scan.explain,
        profile,
        text: scan.text,
        spans: spans.as_ref(),
        format: &formats.tried[formats.tried.len() - 1],
        file: file_name(scan.order),
    };
    lines_told::<M, S, K, E, C, N>(
        alloc,
        maker,
        formats,
        &voice,
        scan.options,
        scan.order.limit,
        from,
        out,
        err,
    )
}

/// Writes the header, where it is due, and then scans the lines.
fn lines_under<S: Source, K: Sink, E, C: Console<K, E>, const N: usize>(
    alloc: Global,
    scan: &LineScan<'_>,
    maker: &mut FormMaker<'_>,
    from: &mut Lookahead<S, N>,
    out: &mut K,
    err: &mut E,
) -> Result<u8, CommandFault>
    ensures { (ds : List Directive) (telling : ℕ → List ℕ → LineFault → List ℕ)
        → slice_get scan.now.formats.now.tried.now (length scan.now.formats.now.tried.now - 1) ≡ Some ds
        → SaysLines (file_name scan.now.order.now) (grammar_of scan.now.order.now.profile) scan.now.options.quiet
        scan.now.explain scan.now.text.now ds telling
        → RunsUnder S.to_come S.failures K.contents K.failures C.said C.unsaid (is_headed scan.now.order.now.file)
        maker.old scan.now.options scan.now.order.now.limit scan.now.formats.now.ignored.now
        scan.now.formats.now.tried.now telling from.old from.new out.old out.new err.old err.new result }
{
    if let Err(why) = write_header(maker, is_headed(scan.order), out) {
        return Err(header_fault(why));
    }
    lines_with::<FormMaker<'_>, S, K, E, C, N>(alloc, scan, maker, from, out, err)
}

/// Scans the lines, and writes their records in this form, under the order's names, where it has any.
fn lines_in_form<S: Source, K: Sink, E, C: Console<K, E>, const N: usize>(
    alloc: Global,
    scan: &LineScan<'_>,
    form: OutputForm,
    from: &mut Lookahead<S, N>,
    out: &mut K,
    err: &mut E,
) -> Result<u8, CommandFault>
    ensures { (ds : List Directive) (telling : ℕ → List ℕ → LineFault → List ℕ)
        → slice_get scan.now.formats.now.tried.now (length scan.now.formats.now.tried.now - 1) ≡ Some ds
        → SaysLines (file_name scan.now.order.now) (grammar_of scan.now.order.now.profile) scan.now.options.quiet
        scan.now.explain scan.now.text.now ds telling
        → RunsForm S.to_come S.failures K.contents K.failures C.said C.unsaid form scan.now.order.now.tag
        (is_headed scan.now.order.now.file) (names_text scan.now.order.now) scan.now.options
        scan.now.order.now.limit scan.now.formats.now.ignored.now scan.now.formats.now.tried.now telling
        from.old from.new out.old out.new err.old err.new result }
{
    let order = scan.order;
    match &order.names {
        None => {
            let mut maker = FormMaker::headed(alloc, form, None, order.tag);
            lines_with::<FormMaker<'_>, S, K, E, C, N>(alloc, scan, &mut maker, from, out, err)
        }
        Some(names) => {
            let tried = scan.formats.tried;
            let mut maker = named_maker(alloc, form, names.as_str(), order.tag, tried)?;
            lines_under::<S, K, E, C, N>(alloc, scan, &mut maker, from, out, err)
        }
    }
}

/// Scans the lines, and writes their records so.
fn lines_by<S: Source, K: Sink, E, C: Console<K, E>, const N: usize>(
    alloc: Global,
    scan: &LineScan<'_>,
    writing: &Writing,
    from: &mut Lookahead<S, N>,
    out: &mut K,
    err: &mut E,
) -> Result<u8, CommandFault>
    ensures { (ds : List Directive) (telling : ℕ → List ℕ → LineFault → List ℕ)
        → slice_get scan.now.formats.now.tried.now (length scan.now.formats.now.tried.now - 1) ≡ Some ds
        → SaysLines (file_name scan.now.order.now) (grammar_of scan.now.order.now.profile) scan.now.options.quiet
        scan.now.explain scan.now.text.now ds telling
        → RunsWriting S.to_come S.failures K.contents K.failures C.said C.unsaid scan.now.order.now.tag
        (is_headed scan.now.order.now.file) (names_text scan.now.order.now) writing.now scan.now.options
        scan.now.order.now.limit scan.now.formats.now.ignored.now scan.now.formats.now.tried.now telling
        from.old from.new out.old out.new err.old err.new result }
{
    match writing {
        Writing::Form(form) => {
            lines_in_form::<S, K, E, C, N>(alloc, scan, *form, from, out, err)
        }
        Writing::Print(print) => {
            let mut maker = PrintMaker::new(print);
            lines_with::<PrintMaker<'_>, S, K, E, C, N>(alloc, scan, &mut maker, from, out, err)
        }
    }
}

/// Scans the lines of what the lookahead holds and its source gives, by the formats of an order's words, and answers
/// the exit status. What is to be said of lines that are no match is said as they come; where that fails, nothing more
/// is said of lines. Err says why the lines stopped before the end of the input.
pub fn scan_lines<S: Source, K: Sink, E, C: Console<K, E>, const N: usize>(
    alloc: Global,
    explain: bool,
    job: &LinesJob,
    order: &Order,
    options: LineOptions,
    from: &mut Lookahead<S, N>,
    out: &mut K,
    err: &mut E,
) -> Result<u8, CommandFault>
    requires limit { order.now.limit ≤ 2147483647 }
    requires some { 0 < length order.now.texts.items }
    requires ignored { AreScanWords order.now.strict (grammar_of order.now.profile)
        (map string_bytes order.now.ignored.items) job.now.formats.ignored.items }
    requires tried { AreScanWords order.now.strict (grammar_of order.now.profile)
        (map string_bytes order.now.texts.items) job.now.formats.tried.items }
    requires suits { SuitsAll job.now.writing job.now.formats.tried.items }
    requires writing { IsWriting (grammar_of order.now.profile) (form_of order.now.output)
        (option_map string_bytes order.now.print) job.now.writing }
    ensures { ScansLines S.to_come S.failures K.contents K.failures C.said C.unsaid (file_name order.now)
        (is_headed order.now.file) order.now.strict (grammar_of order.now.profile)
        (form_of order.now.output) order.now.tag (names_text order.now) (option_map string_bytes order.now.print)
        options explain order.now.limit
        (map string_bytes order.now.ignored.items) (map string_bytes order.now.texts.items) from.old from.new
        out.old out.new err.old err.new result }
{
    let text = text_of_last(alloc, explain, last_word(&order.texts))?;
    let formats = LineFormats {
        ignored: &job.formats.ignored,
        tried: &job.formats.tried,
    };
    let scan = LineScan {
        explain,
        formats: &formats,
        text: &text,
        order,
        options,
    };
    lines_by::<S, K, E, C, N>(alloc, &scan, &job.writing, from, out, err)
}
