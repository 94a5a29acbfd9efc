//! The loop over the records of an input.
ghost use Rattle.std.specs.Prelude.{◌≡◌, ◌≢◌, ◌<◌, ◌≤◌, ℕ, List, Some, None, true, if◌then◌else◌, IfOk, IfErr, IfSome};
ghost use Rattle.std.specs.Prelude.{MatchOption};
ghost use Rattle.std.specs.Result.{result_err};
ghost use Rattle.sf_print.specs.sink.Sinks.{counted_on};
ghost use Rattle.sf_read.specs.source.Ahead.{input_of};
ghost use Rattle.sf_records.specs.Judging.{Judges, fault_by, fault_of, is_write};
ghost use Rattle.sf_run.specs.Runs.{RunReport};
ghost use Rattle.sf_run.specs.outcome.Status.TheVariants as Status;
ghost use Rattle.sf_records.specs.Records.{Loops, end_by, ended, status_by};
ghost use Rattle.sf_records.specs.Works.{turn_in};

use crate::end::{ToolEnd, ToolFault, ended_by};
use crate::in_place::{form_in_place, write_records};
use crate::turn::{Turn, next_turn};
use sf_base::{HeapStore, Store};
use sf_format::ScanFormat;
use sf_forms::{Maker, Unwritten};
use sf_print::Sink;
use sf_read::{Lookahead, Source, fscan_held, fscan_over};
use sf_run::Report;
use std::alloc::Global;

/// The most records that one loop writes.
const MOST_RECORDS: u32 = 2147483647;

/// The room that is made at once for the texts of a record where the format leaves their lengths open: that of some
/// short ones.
const TEXT_BYTES: u32 = 64;

/// The number of the one format by which records are scanned.
const ONLY_FORMAT: usize = 1;

/// The loop's fault where the record of the run with this number was not written in full.
fn fault_by(why: Unwritten, number: u32) -> ToolFault
    ensures { result ≡ fault_by number why }
{
    match why {
        Unwritten::Unfit => ToolFault::Unfit { number },
        Unwritten::Write => ToolFault::Write,
        Unwritten::Memory => ToolFault::Memory,
    }
}

/// The loop's end after this turn, where it stops. `records` were written before.
#[inline(never)]
fn end_after<T: Store>(turn: Turn, report: Report<'_, T>, records: u32) -> Option<ToolEnd>
    requires { records < 2147483647 }
    ensures { MatchOption result (turn ≡ Turn.Goes) (λ end. (turn ≢ Turn.Goes)
        × (end ≡ end_by turn records report.entry)) }
{
    let outcome = report.outcome();
    let number = records + 1;
    match turn {
        Turn::Goes => None,
        Turn::Ends => Some(ToolEnd {
            status: 0,
            records,
            fault: None,
        }),
        Turn::Cut { written } => {
            let records = records + u32::from(written);
            Some(ended_by(records, ToolFault::Read { number }))
        }
        Turn::Failed => Some(ended_by(records, ToolFault::Failed { number, outcome })),
        Turn::Stalled => Some(ended_by(records, ToolFault::Stalled { number })),
        Turn::Unfit => Some(ended_by(records, ToolFault::Unfit { number })),
        Turn::RanOut => Some(ended_by(records, ToolFault::Memory)),
    }
}

/// Writes the record of a run where one is due, and answers the loop's end where it stops. `records` were written
/// before.
#[inline(always)]
fn judge<M: Maker, K: Sink, T: Store>(
    maker: &mut M,
    to: &mut K,
    format: &ScanFormat,
    report: &Report<'_, T>,
    records: u32,
) -> Option<ToolEnd>
    requires { records < 2147483647 }
    ensures same { M.work maker.new ≡ M.work maker.old }
    ensures judged { Judges records ((M.work maker.old 1 format.now).text report.now)
        (turn_in (M.work maker.old 1 format.now) format.now report.now) report.now (K.contents to.old) (K.contents
        to.new) result }
    ensures status { IfSome result (λ end. end.status ≡ status_by end.fault) }
    ensures failures { K.failures to.new
        ≡ (if is_write (fault_of result) then counted_on (K.failures to.old) else K.failures to.old) }
{
    let turn = next_turn(report.outcome(), format.has_optional());
    if turn.writes()
        && let Err(why) = maker.write(to, format, ONLY_FORMAT, report)
    {
        return Some(ended_by(records, fault_by(why, records + 1)));
    }
    match turn {
        Turn::Goes => None,
        _ => end_after(turn, report.copied(), records),
    }
}

/// Writes the record of a run that is Done, met nothing and used a byte: as `judge`, where the loop goes on after the
/// record unless that can't be written in full.
#[inline(always)]
fn write_held<M: Maker, K: Sink, T: Store>(
    maker: &mut M,
    to: &mut K,
    format: &ScanFormat,
    report: &Report<'_, T>,
    records: u32,
) -> Result<(), ToolFault>
    requires records { records < 2147483647 }
    requires done { report.now.status ≡ Status.Done }
    requires met { report.now.met ≡ None }
    requires used { 0 < report.now.used }
    ensures same { M.work maker.new ≡ M.work maker.old }
    ensures written { IfOk result (λ _. Judges records ((M.work maker.old 1 format.now).text report.now)
        (turn_in (M.work maker.old 1 format.now) format.now report.now) report.now (K.contents to.old) (K.contents
        to.new) None) }
    ensures unwritten { IfErr result (λ fault. Judges records ((M.work maker.old 1 format.now).text report.now)
        (turn_in (M.work maker.old 1 format.now) format.now report.now) report.now (K.contents to.old) (K.contents
        to.new)
        (Some (ended records (Some fault)))) }
    ensures failures { K.failures to.new
        ≡ (if is_write (result_err result) then counted_on (K.failures to.old) else K.failures to.old) }
{
    match maker.write(to, format, ONLY_FORMAT, report) {
        Ok(()) => Ok(()),
        Err(why) => Err(fault_by(why, records + 1)),
    }
}

/// Scans record after record of what the lookahead holds and its source gives, by runs of at most `limit` bytes, and
/// has each written by a maker, to which the format has the number 1. It ends cleanly where fscanf would return EOF at
/// the end of the input (C11 7.21.6.2p16); else it reports why, and the records before stand. What the runs did not use
/// stays held or unread.
pub fn run_records<M: Maker, S: Source, K: Sink, const N: usize>(
    alloc: Global,
    from: &mut Lookahead<S, N>,
    to: &mut K,
    maker: &mut M,
    format: &ScanFormat,
    limit: u32,
) -> ToolEnd
    requires { limit ≤ 2147483647 }
    ensures loops { (t : List ℕ) → input_of S.to_come from.old ≡ Some t
        → Loops (M.work maker.old 1 format.now) S.to_come format.now limit t from.new (S.failures from.old.source)
        (S.failures from.new.source) (K.contents to.old) (K.contents to.new) result }
    ensures status { result.status ≡ status_by result.fault }
    ensures sink { K.failures to.new
        ≡ (if is_write result.fault then counted_on (K.failures to.old) else K.failures to.old) }
    ensures no_read { from.old.at_end ≡ true → from.new.source ≡ from.old.source }
    ensures stays { from.old.at_end ≡ true → from.new.at_end ≡ true }
{
    // What this has for each format: it is accepted.
    let _ = format.destinations();
    let Ok(mut store) = HeapStore::new(alloc, format.width_sum().unwrap_or(TEXT_BYTES)) else {
        return ended_by(0, ToolFault::Memory);
    };
    let asked = form_in_place(maker, format);
    let mut records = 0;
    'records: loop {
        let passed = records
            + write_records(asked, from, to, format, limit, MOST_RECORDS - records);
        if passed == MOST_RECORDS {
            return ended_by(MOST_RECORDS, ToolFault::TooMany);
        }
        records = passed + 1;
        if let Some(outcome) = fscan_held(&mut store, from, format, limit) {
            let report = Report::new(outcome, &store);
            if outcome.used > 0 {
                match write_held(maker, to, format, &report, passed) {
                    Ok(()) => continue,
                    Err(fault) => return ended_by(passed, fault),
                }
            }
            if let Some(end) = judge(maker, to, format, &report, passed) {
                return end;
            }
            continue;
        }
        let Ok(scanned) = fscan_over(alloc, store, from, format, limit) else {
            return ended_by(passed, ToolFault::Memory);
        };
        if let Some(end) = judge(maker, to, format, &scanned.report(), passed) {
            return end;
        }
        store = scanned.into_store();
    }
}
