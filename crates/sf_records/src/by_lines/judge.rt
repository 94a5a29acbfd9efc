//! What comes of one line.
ghost use Rattle.std.specs.Prelude.{◌≡◌, ◌≤◌, ◌<◌, ◌++◌, ℕ, List, IfSome, IsSome, true, false, if◌then◌else◌, length};
ghost use Rattle.std.specs.Io.KnownBytes.{Keeps};
ghost use Rattle.std.specs.List.{AllByRecursion};
ghost use Rattle.sf_format.specs.Proper.{AreProper};
ghost use Rattle.sf_forms.specs.makers.Works.{Work};
ghost use Rattle.sf_print.specs.sink.Sinks.{counted_on};
ghost use Rattle.sf_run.specs.Memory.{capacity_of};
ghost use Rattle.sf_run.specs.Stopping.{is_memory_status};
ghost use Rattle.sf_run.specs.Views.{report_by};
ghost use Rattle.sf_records.specs.by_lines.Coming.{Came, IsTold, is_read_fault};
ghost use Rattle.sf_records.specs.by_lines.Judging.{BeginsWith, IgnoresOrNot, IsRunOn, IsSeen, MatchesOrNot, Tries};
ghost use Rattle.sf_records.specs.by_lines.Judging.{TriesEach};
ghost use Rattle.sf_records.specs.by_lines.Judging.{is_matched, is_unwritten, is_write_fault, verdict_by};
ghost use Rattle.sf_records.specs.by_lines.Telling.{Stays};
ghost use Rattle.sf_records.specs.by_lines.Turns.{Misses, fault_of, is_other, used_whole, work_of};
ghost use Rattle.sf_records.specs.declared.by_lines.end.LineFault.{LineFault};

use crate::by_lines::end::{LineFault, LinesFault};
use crate::by_lines::formats::LineFormats;
use crate::by_lines::options::LinesOptions;
use crate::by_lines::teller::Teller;
use sf_base::{HeapStore, Store};
use sf_format::ScanFormat;
use sf_forms::{Maker, Unwritten};
use sf_print::Sink;
use sf_read::{LineRead, sscan_over};
use sf_run::laws::{done_runs_stay, early_runs_stay};
use sf_run::{Outcome, Report, Status, sure_run};
use std::alloc::{AllocError, Global};

/// What came of the next line.
#[derive(Clone, Copy, Drop)]
pub(crate) enum Judged {
    /// It was passed over.
    Skipped,
    /// It matches, and was written.
    Written,
    /// It fails, and was reported.
    Failed,
    /// It is above the limit, and was reported, and the loop stops within it: TooLong, where it isn't to keep going;
    /// else what the reading of the rest came to.
    Cut(LineRead),
    /// It counts as nothing, and the loop stops.
    Stopped(LinesFault),
    /// No line was read.
    Unread(LineRead),
}

/// What came of a line by a format, or by the formats in turn.
#[derive(Clone, Copy, Drop)]
enum Tried {
    /// It matches, and the maker answered this.
    Matched(Result<(), Unwritten>),
    /// It doesn't match.
    Missed(LineFault),
    /// Memory was refused.
    Refused,
}

/// What comes of a line, or why it fails.
#[derive(Clone, Copy, Drop)]
enum Verdict {
    Is(Judged),
    Fails(LineFault),
}

/// Why the line doesn't match by a run with this report.
#[inline(always)]
fn line_fault<T: Store>(
    report: &Report<'_, T>,
    line: &[u8],
    options: LinesOptions,
) -> Option<LineFault>
    ensures { result ≡ fault_of options line.now report.now }
{
    let outcome = report.outcome();
    if outcome.status != Status::Done {
        return Some(LineFault::Failed { outcome });
    }
    if options.whole && (outcome.used as usize) < line.len() {
        return Some(LineFault::LeftOver { at: outcome.used });
    }
    None
}

/// Whether memory was refused in a run with this report.
fn ran_out<T: Store>(report: &Report<'_, T>) -> bool
    ensures { result ≡ is_memory_status report.now.status }
{
    matches!(report.outcome().status, Status::NoMemory)
}

/// Scans the line at once where it stands, in front of these bytes. It answers wherever the run ends on them before one
/// is lacking, the store has room for the texts, and it leaves a byte of the line or is Done at its end. Else None, and
/// the store may keep something.
#[inline(always)]
fn seen(
    store: &mut HeapStore,
    line: &[u8],
    ended: &[u8],
    format: &ScanFormat,
    options: &LinesOptions,
) -> Option<Outcome>
    requires front { BeginsWith ended.now line.now }
    requires proper { AreProper format.now }
    ensures ran { IfSome result (λ outcome. IsRunOn options.now format.now line.now
        (report_by outcome store.new.values)) }
    ensures answers { IsSeen options.now format.now line.now ended.now (capacity_of store.old) → IsSome result }
{
    let outcome = sure_run(store, format, options.limit, ended)?;
    done_runs_stay();
    early_runs_stay();
    let used = outcome.used as usize;
    // the status first: one that is Done is not asked for it again
    match outcome.status {
        Status::Done => {
            if used > line.len() {
                return None;
            }
            Some(outcome)
        }
        _ => {
            if used >= line.len() {
                return None;
            }
            Some(outcome)
        }
    }
}

/// Scans the line by a format, which has this number, over the store, and writes what is made of it if it matches.
fn try_over<M: Maker, K: Sink>(
    alloc: Global,
    store: &mut Option<HeapStore>,
    line: &[u8],
    to: &mut K,
    maker: &mut M,
    format: &ScanFormat,
    format_number: usize,
    options: &LinesOptions,
) -> Tried
    requires proper { AreProper format.now }
    ensures same { M.work maker.new ≡ M.work maker.old }
    ensures tried { Tries options.now format.now (M.work maker.old format_number format.now)
        line.now (K.contents to.old)
        (K.contents to.new) result }
    ensures failures { K.failures to.new
        ≡ (if is_unwritten result then counted_on (K.failures to.old) else K.failures to.old) }
    ensures untouched { is_matched result ≡ false → to.new ≡ to.old }
{
    let Some(kept) = store.take() else {
        return Tried::Refused;
    };
    let Ok(scanned) = sscan_over(alloc, kept, line, format, options.limit) else {
        return Tried::Refused;
    };
    let report = scanned.report();
    if ran_out(&report) {
        return Tried::Refused;
    }
    let tried = match line_fault(&report, line, *options) {
        Some(fault) => Tried::Missed(fault),
        None => Tried::Matched(maker.write(to, format, format_number, &report)),
    };
    *store = Some(scanned.into_store());
    tried
}

/// Scans the line, which stands in front of these bytes, by a format, which has this number, and writes what is made of
/// it if it matches. The store is None once memory for one was refused.
#[inline(always)]
fn try_format<M: Maker, K: Sink>(
    alloc: Global,
    store: &mut Option<HeapStore>,
    line: &[u8],
    ended: &[u8],
    to: &mut K,
    maker: &mut M,
    format: &ScanFormat,
    format_number: usize,
    options: &LinesOptions,
) -> Tried
    requires front { BeginsWith ended.now line.now }
    requires proper { AreProper format.now }
    ensures same { M.work maker.new ≡ M.work maker.old }
    ensures tried { Tries options.now format.now (M.work maker.old format_number format.now)
        line.now (K.contents to.old)
        (K.contents to.new) result }
    ensures failures { K.failures to.new
        ≡ (if is_unwritten result then counted_on (K.failures to.old) else K.failures to.old) }
    ensures untouched { is_matched result ≡ false → to.new ≡ to.old }
{
    if let Some(kept) = store
        && let Some(outcome) = seen(kept, line, ended, format, options)
    {
        let report = Report::new(outcome, kept);
        if let Some(fault) = line_fault(&report, line, *options) {
            return Tried::Missed(fault);
        }
        return Tried::Matched(maker.write(to, format, format_number, &report));
    }
    try_over(
        alloc,
        store,
        line,
        to,
        maker,
        format,
        format_number,
        options,
    )
}

/// The same by each format, numbered from 1, up to the first that the line matches; where it matches none, the last
/// counts.
#[inline(always)]
fn try_each<M: Maker, K: Sink>(
    alloc: Global,
    store: &mut Option<HeapStore>,
    line: &[u8],
    ended: &[u8],
    to: &mut K,
    maker: &mut M,
    formats: &[ScanFormat],
    options: &LinesOptions,
) -> Tried
    requires front { BeginsWith ended.now line.now }
    requires proper { AllByRecursion AreProper formats.now }
    ensures same { M.work maker.new ≡ M.work maker.old }
    ensures tried { TriesEach options.now formats.now (M.work maker.old)
        line.now (K.contents to.old) (K.contents to.new)
        result }
    ensures failures { K.failures to.new
        ≡ (if is_unwritten result then counted_on (K.failures to.old) else K.failures to.old) }
    ensures untouched { is_matched result ≡ false → to.new ≡ to.old }
{
    for (before, format) in formats.iter().enumerate() {
        let format_number = before + 1;
        let tried = try_format(
            alloc,
            store,
            line,
            ended,
            to,
            maker,
            format,
            format_number,
            options,
        );
        match tried {
            Tried::Missed(fault) => {
                if format_number == formats.len() {
                    return Tried::Missed(fault);
                }
            }
            _ => return tried,
        }
    }
    Tried::Refused
}

/// Whether the line, which stands in front of these bytes, matches a format. Err where memory was refused.
fn matches_line(
    alloc: Global,
    store: &mut Option<HeapStore>,
    line: &[u8],
    ended: &[u8],
    format: &ScanFormat,
    options: &LinesOptions,
) -> Result<bool, AllocError>
    requires front { BeginsWith ended.now line.now }
    requires proper { AreProper format.now }
    ensures { MatchesOrNot options.now line.now format.now result }
{
    if let Some(kept) = store
        && let Some(outcome) = seen(kept, line, ended, format, options)
    {
        let report = Report::new(outcome, kept);
        return Ok(line_fault(&report, line, *options).is_none());
    }
    let Some(kept) = store.take() else {
        return Err(AllocError);
    };
    let Ok(scanned) = sscan_over(alloc, kept, line, format, options.limit) else {
        return Err(AllocError);
    };
    let report = scanned.report();
    if ran_out(&report) {
        return Err(AllocError);
    }
    let matches = line_fault(&report, line, *options).is_none();
    *store = Some(scanned.into_store());
    Ok(matches)
}

/// Whether one of these formats uses all of the line, which stands in front of these bytes. Err where memory was
/// refused.
#[inline(always)]
fn is_ignored(
    alloc: Global,
    store: &mut Option<HeapStore>,
    line: &[u8],
    ended: &[u8],
    ignored: &[ScanFormat],
    options: &LinesOptions,
) -> Result<bool, AllocError>
    requires front { BeginsWith ended.now line.now }
    requires proper { AllByRecursion AreProper ignored.now }
    ensures { IgnoresOrNot options.now line.now ignored.now result }
{
    for format in ignored {
        let wholly = LinesOptions {
            whole: true,
            ..*options
        };
        let matches = matches_line(alloc, store, line, ended, format, &wholly)?;
        if matches {
            return Ok(true);
        }
    }
    Ok(false)
}

/// Whether a line that fails so matches no format, in a way that leaves open no number.
fn is_other(fault: LineFault) -> bool
    ensures { result ≡ is_other fault }
{
    match fault {
        LineFault::Failed { outcome } => outcome.status != Status::OutOfRange,
        LineFault::LeftOver { .. } => true,
        LineFault::TooLong | LineFault::Unfit => false,
    }
}

/// What comes of a line of which this came by the formats, or why it fails.
#[inline(always)]
fn verdict_of(tried: Tried, matching: bool) -> Verdict
    ensures { result ≡ verdict_by matching tried }
{
    match tried {
        Tried::Matched(Ok(())) => Verdict::Is(Judged::Written),
        Tried::Matched(Err(Unwritten::Unfit)) => Verdict::Fails(LineFault::Unfit),
        Tried::Matched(Err(Unwritten::Write)) => Verdict::Is(Judged::Stopped(LinesFault::Write)),
        Tried::Matched(Err(Unwritten::Memory)) => Verdict::Is(Judged::Stopped(LinesFault::Memory)),
        Tried::Missed(fault) => {
            if matching && is_other(fault) {
                Verdict::Is(Judged::Skipped)
            } else {
                Verdict::Fails(fault)
            }
        }
        Tried::Refused => Verdict::Is(Judged::Stopped(LinesFault::Memory)),
    }
}

/// Reports that the line with this number, of which this was read, fails.
pub(crate) fn tell<E: Teller<K>, K: Sink>(
    to: &mut K,
    teller: &mut E,
    number: u64,
    read: &[u8],
    fault: LineFault,
) -> Judged
    ensures told { (telling : ℕ → List ℕ → LineFault → List ℕ) → E.says teller.old telling
        → IsTold (E.failed teller.old) (E.failed teller.new) (E.told teller.old) (E.told teller.new)
        (telling number read.now fault) result }
    ensures taken { Keeps (K.contents to.old) (K.contents to.new) }
    ensures sink { K.failures to.new ≡ K.failures to.old }
    ensures stays { Stays E.says E.kept E.failed E.faults teller.old teller.new }
    ensures read { is_read_fault result ≡ false }
    ensures sound { is_write_fault result ≡ false }
{
    match teller.tell(to, number, read, fault) {
        Ok(()) => Judged::Failed,
        Err(_) => Judged::Stopped(LinesFault::Memory),
    }
}

/// Scans the line with this number, which stands in front of these bytes and isn't ignored; writes what is made of it
/// if it matches and its values fit, and reports it if it fails.
#[inline(always)]
fn judge_read<M: Maker, E: Teller<K>, K: Sink>(
    alloc: Global,
    store: &mut Option<HeapStore>,
    line: &[u8],
    ended: &[u8],
    number: u64,
    to: &mut K,
    maker: &mut M,
    teller: &mut E,
    formats: &LineFormats<'_>,
    options: &LinesOptions,
) -> Judged
    requires front { BeginsWith ended.now line.now }
    requires proper { AllByRecursion AreProper formats.now.tried.now }
    requires short { length line.now ≤ options.now.limit }
    requires counts { options.now.skip < number }
    requires read { AllByRecursion (Misses (used_whole options.now) line.now) formats.now.ignored.now }
    ensures same { M.work maker.new ≡ M.work maker.old }
    ensures came { (telling : ℕ → List ℕ → LineFault → List ℕ) → E.says teller.old telling
        → Came (work_of options.now formats.now.ignored.now formats.now.tried.now (M.work maker.old) telling) number
        line.now (K.contents to.old) (K.contents to.new)
        (E.failed teller.old) (E.failed teller.new) (E.told teller.old) (E.told teller.new) result }
    ensures stays { Stays E.says E.kept E.failed E.faults teller.old teller.new }
    ensures failures { K.failures to.new
        ≡ (if is_write_fault result then counted_on (K.failures to.old) else K.failures to.old) }
    ensures read { is_read_fault result ≡ false }
{
    let tried = try_each(alloc, store, line, ended, to, maker, formats.tried, options);
    match verdict_of(tried, options.matching) {
        Verdict::Is(judged) => judged,
        Verdict::Fails(fault) => tell(to, teller, number, line, fault),
    }
}

/// Judges the line with this number, which stands in front of these bytes: passes over it if it is ignored; else writes
/// what is made of it if it matches and its values fit, and reports it if it fails.
#[inline(always)]
pub(crate) fn judge<M: Maker, E: Teller<K>, K: Sink>(
    alloc: Global,
    store: &mut Option<HeapStore>,
    line: &[u8],
    ended: &[u8],
    number: u64,
    to: &mut K,
    maker: &mut M,
    teller: &mut E,
    formats: &LineFormats<'_>,
    options: &LinesOptions,
) -> Judged
    requires front { BeginsWith ended.now line.now }
    requires ignored { AllByRecursion AreProper formats.now.ignored.now }
    requires proper { AllByRecursion AreProper formats.now.tried.now }
    requires short { length line.now ≤ options.now.limit }
    requires counts { options.now.skip < number }
    ensures same { M.work maker.new ≡ M.work maker.old }
    ensures came { (telling : ℕ → List ℕ → LineFault → List ℕ) → E.says teller.old telling
        → Came (work_of options.now formats.now.ignored.now formats.now.tried.now (M.work maker.old) telling) number
        line.now (K.contents to.old) (K.contents to.new)
        (E.failed teller.old) (E.failed teller.new) (E.told teller.old) (E.told teller.new) result }
    ensures stays { Stays E.says E.kept E.failed E.faults teller.old teller.new }
    ensures failures { K.failures to.new
        ≡ (if is_write_fault result then counted_on (K.failures to.old) else K.failures to.old) }
    ensures read { is_read_fault result ≡ false }
{
    match is_ignored(alloc, store, line, ended, formats.ignored, options) {
        Ok(false) => judge_read(
            alloc, store, line, ended, number, to, maker, teller, formats, options,
        ),
        Ok(true) => Judged::Skipped,
        Err(AllocError) => Judged::Stopped(LinesFault::Memory),
    }
}
