//! The lines of an input, one after the other, as reports.
ghost use Rattle.std.specs.Prelude.{◌≡◌, ◌≤◌, ◌<◌, ◌⊎◌, ◌↔◌, [], true, false, length, Option, None, Some, Ok, IfErr};
ghost use Rattle.std.specs.Prelude.{IfOk, IfSome, IsErrOf, IsSome, unwrap_or};
ghost use Rattle.sf_format.specs.Proper.{AreKinded, IsAccepted};
ghost use Rattle.sf_format.specs.Widths.{width_sum};
ghost use Rattle.sf_run.specs.Limits.{RunTold, RunWithin};
ghost use Rattle.sf_run.specs.outcome.Ending.TheVariants.{End};
ghost use Rattle.sf_read.specs.AtOnce.{IsSeenAtOnce};
ghost use Rattle.sf_read.specs.source.Counts.{counted_on};
ghost use Rattle.sf_loops.specs.declared.line_fault.LineStop.{LineStop};
ghost use Rattle.sf_loops.specs.Lines.{IsLineFault, IsNextLine, IsScanned, Judged, LineEndedWith};
ghost use Rattle.sf_loops.specs.Turns.{outcome_of};

use crate::at_once::run_at_once;
use crate::line_fault::{LineFault, LineStop, LineWhy};
use sf_base::HeapStore;
use sf_format::ScanFormat;
use sf_read::{LineRead, Lookahead, Match, Source, next_line, sscan_over};
use sf_run::{MOST_BYTES, Outcome, Report, StartFault, Status};
use std::alloc::Global;
use std::marker::Model;
use std::mem::replace;

/// A loop over the lines of an input, by a format: each line is an input of its own, as C programs have it with fgets
/// and sscanf (C11 7.21.7.2, 7.21.6.7). A newline ends a line and is no part of it; the last line may lack it.
///
/// A line that is no match, or has more bytes than the limit, is reported as a fault, and the loop goes on with the
/// next line. A match uses the front of a line, or by `matching` the whole of it. `N` is how many bytes are read at
/// once, at least 1. Nothing is read while a whole line is held, nor once the source has reported its end. The memory
/// of a line and of its values is used again for the next one: a line that is no longer than one before it needs no
/// more, unless a line that fails came between them, which takes its text.
#[derive(Drop)]
pub struct LineReports<'f, S: Source, const N: usize> {
    alloc: Global,
    from: Lookahead<S, N>,
    format: &'f ScanFormat,
    limit: u32,
    matching: Match,
    line: Vec<u8>,
    store: Option<HeapStore>,
    outcome: Outcome,
    read: u64,
    over: Option<Option<LineStop>>,
}

impl<'f, S: Source, const N: usize> Model for LineReports<'f, S, N> {
    ghost use Rattle.std.specs.Prelude.{◌≤◌, IsSomeAnd, unwrap_or, vec_capacity};
    ghost use Rattle.sf_format.specs.Widths.{width_sum};
    ghost use Rattle.sf_run.specs.Memory.{capacity_of};
    ghost use Rattle.sf_run.specs.Views.{report_by};
    ghost use Rattle.sf_loops.specs.Lines.{LineLoop};
    ghost use Rattle.sf_loops.specs.Loops.{values_in};

    ghost Value = { LineLoop S };

    ghost view = { λ r. record {
      ahead = r.from;
      format = r.format.now;
      limit = r.limit;
      matching = r.matching;
      read = r.read;
      line = r.line.items;
      room = vec_capacity r.line;
      report = report_by r.outcome (values_in r.store);
      over = r.over;
    } };

    ghost invariant = { λ r. record {
      low : r.limit ≤ 2147483647;
      roomy : IsSomeAnd r.store (λ s. unwrap_or (width_sum r.format.now) 0 ≤ capacity_of s);
    } };
}

impl<'f, S: Source, const N: usize> LineReports<'f, S, N> {
    /// The loop before the first line. Each line has at most `limit` bytes. A match uses the front of a line.
    ///
    /// Refuses a limit above 2147483647 with BadLimit, and answers NoMemory where memory was refused.
    pub fn new(
        alloc: Global,
        source: S,
        format: &'f ScanFormat,
        limit: u32,
    ) -> Result<Self, StartFault>
        requires { 1 ≤ N }
        ensures held { IfOk result (λ r. r.ahead.held ≡ []) }
        ensures source { IfOk result (λ r. r.ahead.source ≡ source) }
        ensures fresh { IfOk result (λ r. r.ahead.at_end ≡ false) }
        ensures format { IfOk result (λ r. (r.format ≡ format.entry.now) × (r.limit ≡ limit)) }
        ensures matching { IfOk result (λ r. r.matching ≡ Match.Front) }
        ensures none_yet { IfOk result (λ r. (r.read ≡ 0) × (r.line ≡ []) × (r.over ≡ None)) }
        ensures limit { IsErrOf result StartFault.BadLimit ↔ (2147483647 < limit) }
        ensures memory { IfErr result (λ fault. (fault ≡ StartFault.BadLimit) ⊎ (fault ≡ StartFault.NoMemory)) }
    {
        LineReports::over(alloc, Lookahead::new(source), format, limit)
    }

    /// As `new`, over bytes that were read ahead already, as after a header line.
    pub fn over(
        alloc: Global,
        from: Lookahead<S, N>,
        format: &'f ScanFormat,
        limit: u32,
    ) -> Result<Self, StartFault>
        ensures ahead { IfOk result (λ r. r.ahead ≡ from) }
        ensures format { IfOk result (λ r. (r.format ≡ format.entry.now) × (r.limit ≡ limit)) }
        ensures matching { IfOk result (λ r. r.matching ≡ Match.Front) }
        ensures none_yet { IfOk result (λ r. (r.read ≡ 0) × (r.line ≡ []) × (r.over ≡ None)) }
        ensures limit { IsErrOf result StartFault.BadLimit ↔ (2147483647 < limit) }
        ensures memory { IfErr result (λ fault. (fault ≡ StartFault.BadLimit) ⊎ (fault ≡ StartFault.NoMemory)) }
    {
        if limit > MOST_BYTES {
            return Err(StartFault::BadLimit);
        }
        let Ok(store) = HeapStore::new(alloc, format.width_sum().unwrap_or(0)) else {
            return Err(StartFault::NoMemory);
        };
        Ok(LineReports {
            alloc,
            from,
            format,
            limit,
            matching: Match::Front,
            line: Vec::new(alloc),
            store: Some(store),
            outcome: Outcome {
                status: Status::Done,
                at: 0,
                assigned: 0,
                converted: 0,
                used: 0,
                met: None,
            },
            read: 0,
            over: None,
        })
    }

    /// The same loop, in which a match uses so much of a line. By `Match::Whole` a line is a fault where the format
    /// leaves bytes of it.
    pub fn matching(mut self, matching: Match) -> Self
        ensures { result ≡ record self.entry { matching = matching } }
    {
        self.matching = matching;
        self
    }

    /// What was read ahead and the source, given back, wherever the loop stands.
    pub fn into_lookahead(self) -> Lookahead<S, N>
        ensures { result ≡ self.entry.ahead }
    {
        let LineReports { from, .. } = self;
        from
    }

    /// Runs the format over the line that was read, where that is seen at once to be Done. It answers wherever the line
    /// has room for a newline, and the texts are no longer than the format's width sum.
    fn scan_at_once(&mut self) -> Option<Outcome>
        ensures run { IfSome result (λ _. RunWithin self.old.format self.old.limit self.old.line End self.new.report) }
        ensures outcome { IfSome result (λ outcome. outcome ≡ outcome_of self.new.report) }
        ensures answers { length self.old.line < self.old.room
            → IsSeenAtOnce self.old.format self.old.limit self.old.line (unwrap_or (width_sum self.old.format) 0)
            → IsSome result }
        ensures rest { self.new ≡ record self.old { report = self.new.report; room = self.new.room } }
        ensures room { self.old.room ≤ self.new.room }
    {
        let Some(store) = &mut self.store else {
            unreachable!();
        };
        match run_at_once(store, &mut self.line, self.format, self.limit) {
            Some(outcome) => {
                self.outcome = outcome;
                Some(outcome)
            }
            None => None,
        }
    }

    /// Runs the format over the line that was read, by a scanner where it isn't seen at once to be Done.
    fn scan_by_scanner(&mut self) -> Outcome
        ensures scanned { IsScanned self.old self.new self.old.line }
        ensures outcome { result ≡ outcome_of self.new.report }
        ensures rest { self.new ≡ record self.old { report = self.new.report } }
    {
        let Some(store) = self.store.take() else {
            unreachable!();
        };
        match sscan_over(self.alloc, store, &self.line, self.format, self.limit) {
            Ok(scanned) => {
                let outcome = scanned.outcome();
                self.store = Some(scanned.into_store());
                self.outcome = outcome;
                outcome
            }
            Err(_) => unreachable!(),
        }
    }

    /// Runs the format over the line that was read.
    fn scan(&mut self) -> Outcome
        ensures scanned { IsScanned self.old self.new self.old.line }
        ensures outcome { result ≡ outcome_of self.new.report }
        ensures rest { self.new ≡ record self.old { report = self.new.report; room = self.new.room } }
        ensures room { self.old.room ≤ self.new.room }
    {
        match self.scan_at_once() {
            Some(outcome) => outcome,
            None => self.scan_by_scanner(),
        }
    }

    /// The fault of the line that was read, whose text it takes. The loop goes on after it.
    fn miss(&mut self, why: LineWhy) -> LineFault
        ensures fault { IsLineFault result (counted_on self.old.read) self.old.line why }
        ensures rest { self.new ≡ record self.old { read = counted_on self.old.read; line = []; room = self.new.room } }
    {
        let number = self.read.saturating_add(1);
        let text = replace(&mut self.line, Vec::new(self.alloc));
        self.read = number;
        LineFault { number, text, why }
    }

    /// The fault by which the loop has ended.
    fn ended_by(&self, stop: LineStop) -> LineFault
        ensures { IsLineFault result stop.number [] stop.why }
    {
        LineFault {
            number: stop.number,
            text: Vec::new(self.alloc),
            why: stop.why,
        }
    }

    /// Ends the loop at the line that comes next.
    fn stop(&mut self, why: LineWhy) -> LineFault
        ensures fault { IsLineFault result (counted_on self.old.read) [] why }
        ensures rest { self.new ≡ record self.old {
          over = Some (Some (record {
            number = counted_on self.old.read;
            why = why;
          }));
        } }
    {
        let stop = LineStop {
            number: self.read.saturating_add(1),
            why,
        };
        self.over = Some(Some(stop));
        self.ended_by(stop)
    }

    /// Scans the line that was read, and says whether it has a report.
    fn judge(&mut self) -> Result<bool, LineFault>
        ensures scanned { IsScanned self.old self.new self.old.line }
        ensures ahead { self.new.ahead ≡ self.old.ahead }
        ensures judged { self.old.over ≡ None → Judged self.old self.new self.new.report.status self.old.line result }
        ensures kept { result ≡ Ok true → self.old.room ≤ self.new.room }
        ensures roomy { result ≡ Ok true → length self.new.line ≤ self.new.room }
        ensures format { self.new.format ≡ self.old.format }
        ensures matching { self.new.matching ≡ self.old.matching }
    {
        let outcome = self.scan();
        if self.matching.leaves(outcome, self.line.len()) {
            return Err(self.miss(LineWhy::LeftOver { at: outcome.used }));
        }
        match outcome.status {
            Status::Done => {
                self.read = self.read.saturating_add(1);
                Ok(true)
            }
            Status::NoMemory => Err(self.stop(LineWhy::NoMemory)),
            _ => Err(self.miss(LineWhy::Failed(outcome))),
        }
    }

    /// Goes on to the next line, and says whether there is one: `report` has its report then, and `line` its text.
    ///
    /// A line that is no match, has bytes left over, or is too long, is a fault with the text of the line; the call
    /// after it goes on with the next line. After the end of the input, and after any other fault, it answers the same
    /// again.
    pub fn advance(&mut self) -> Result<bool, LineFault>
        ensures over { (end : Option LineStop) → self.old.over ≡ Some end → (self.new ≡ self.old)
            × LineEndedWith false end result }
        ensures next { self.old.over ≡ None → IsNextLine S.to_come S.reads S.failures N self.old self.new result }
        ensures no_read { self.old.ahead.at_end ≡ true → self.new.ahead.source ≡ self.old.ahead.source }
        ensures stays { self.old.ahead.at_end ≡ true → self.new.ahead.at_end ≡ true }
        ensures format { self.new.format ≡ self.old.format }
    {
        match self.over {
            Some(None) => return Ok(false),
            Some(Some(stop)) => return Err(self.ended_by(stop)),
            None => {}
        }
        match next_line(&mut self.from, &mut self.line, self.limit as usize) {
            LineRead::Line => self.judge(),
            LineRead::TooLong => Err(self.miss(LineWhy::TooLong)),
            LineRead::End => {
                self.over = Some(None);
                Ok(false)
            }
            LineRead::Fault => Err(self.stop(LineWhy::Read)),
            LineRead::Endless => Err(self.stop(LineWhy::Endless)),
            LineRead::NoMemory => Err(self.stop(LineWhy::NoMemory)),
        }
    }

    /// The report of the last run: after `advance` has answered true, that of the line.
    pub fn report(&self) -> Report<'_, HeapStore>
        ensures value { result ≡ self.now.report }
        ensures kinded { AreKinded self.now.format }
        ensures accepted { IsAccepted self.now.format }
    {
        let _directives = self.format.directives();
        match &self.store {
            Some(store) => Report::new(self.outcome, store),
            None => unreachable!(),
        }
    }

    /// The line, without its newline, after `advance` has answered true.
    pub fn line(&self) -> &[u8]
        ensures { result.now ≡ self.now.line }
    {
        &self.line
    }

    /// Ends the loop at a line whose row was refused for want of memory.
    pub(crate) fn refuse_row(&mut self) -> LineFault
        ensures fault { IsLineFault result self.old.read [] LineWhy.NoMemory }
        ensures over { self.new ≡ record self.old {
          over = Some (Some (record {
            number = self.old.read;
            why = LineWhy.NoMemory;
          }));
        } }
    {
        let stop = LineStop {
            number: self.read,
            why: LineWhy::NoMemory,
        };
        self.over = Some(Some(stop));
        self.ended_by(stop)
    }

    /// The allocator of the loop.
    pub(crate) fn allocator(&self) -> Global {
        self.alloc
    }

    /// How many lines were read.
    pub fn lines(&self) -> u64
        ensures { result ≡ self.now.read }
    {
        self.read
    }
}
