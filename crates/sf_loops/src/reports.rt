//! The records of an input, one after the other, as reports.
ghost use Rattle.std.specs.Prelude.{◌≡◌, ◌≤◌, ◌<◌, ◌⊎◌, ◌↔◌, [], true, false, Option, None, Some, Ok, IfErr, IfOk};
ghost use Rattle.std.specs.Prelude.{IsErrOf, unwrap_or};
ghost use Rattle.sf_format.specs.Proper.{AreKinded, IsAccepted};
ghost use Rattle.sf_format.specs.Widths.{width_sum};
ghost use Rattle.sf_run.specs.Quick.{IsDoneWithin};
ghost use Rattle.sf_read.specs.source.Counts.{counted_on};
ghost use Rattle.sf_loops.specs.Loops.{IsNext, ended_with, fault_of};
ghost use Rattle.sf_loops.specs.Runs.{IsNextRun};
ghost use Rattle.sf_loops.specs.Turns.{IsEnd, outcome_of};

use crate::fault::{RecordFault, RecordWhy};
use crate::held::{take_held, take_next};
use crate::turn::{Turn, next_turn};
use sf_base::HeapStore;
use sf_format::ScanFormat;
use sf_read::{Lookahead, Source};
use sf_run::{MOST_BYTES, Outcome, Report, StartFault, Status};
use std::alloc::Global;
use std::marker::Model;

/// A loop over the records of an input, by a format: each run is of what the one before it left. It ends where fscanf
/// would return EOF at the end of the input (C11 7.21.6.2p16), or where by a format with a `?` or a group each item is
/// missing there; or at the first record that is no match.
///
/// `N` is how many bytes are read at once, at least 1. A source that has reported its end is not read again. The store
/// of a record is used again for the next one.
#[derive(Drop)]
pub struct Reports<'f, S: Source, const N: usize> {
    alloc: Global,
    from: Lookahead<S, N>,
    format: &'f ScanFormat,
    limit: u32,
    store: Option<HeapStore>,
    outcome: Outcome,
    answered: u64,
    lines: u64,
    over: Option<Option<RecordFault>>,
}

impl<'f, S: Source, const N: usize> Model for Reports<'f, S, N> {
    ghost use Rattle.std.specs.Prelude.{◌≤◌, IsSomeAnd, unwrap_or};
    ghost use Rattle.sf_format.specs.Widths.{width_sum};
    ghost use Rattle.sf_run.specs.Memory.{capacity_of};
    ghost use Rattle.sf_run.specs.Views.{report_by};
    ghost use Rattle.sf_loops.specs.Loops.{Loop, values_in};

    ghost Value = { Loop S };

    ghost view = { λ r. record {
      ahead = r.from;
      format = r.format.now;
      limit = r.limit;
      answered = r.answered;
      lines = r.lines;
      report = report_by r.outcome (values_in r.store);
      over = r.over;
    } };

    ghost invariant = { λ r. record {
      low : r.limit ≤ 2147483647;
      roomy : IsSomeAnd r.store (λ s. unwrap_or (width_sum r.format.now) 0 ≤ capacity_of s);
    } };
}

impl<'f, S: Source, const N: usize> Reports<'f, S, N> {
    /// The loop before the first record. Each run uses at most `limit` bytes.
    ///
    /// Refuses a limit above 2147483647 with BadLimit, and answers NoMemory where memory was refused.
    pub fn new(
        alloc: Global,
        source: S,
        format: &'f ScanFormat,
        limit: u32,
    ) -> Result<Self, StartFault>
        requires { 1 ≤ N }
        ensures held { IfOk result (λ r. r.ahead.held ≡ []) }
        ensures source { IfOk result (λ r. r.ahead.source ≡ source) }
        ensures fresh { IfOk result (λ r. r.ahead.at_end ≡ false) }
        ensures format { IfOk result (λ r. (r.format ≡ format.entry.now) × (r.limit ≡ limit)) }
        ensures none_yet { IfOk result (λ r. (r.answered ≡ 0) × (r.lines ≡ 0) × (r.over ≡ None)) }
        ensures limit { IsErrOf result StartFault.BadLimit ↔ (2147483647 < limit) }
        ensures memory { IfErr result (λ fault. (fault ≡ StartFault.BadLimit) ⊎ (fault ≡ StartFault.NoMemory)) }
    {
        Reports::over(alloc, Lookahead::new(source), format, limit)
    }

    /// As `new`, over bytes that were read ahead already, as after a header line.
    pub fn over(
        alloc: Global,
        from: Lookahead<S, N>,
        format: &'f ScanFormat,
        limit: u32,
    ) -> Result<Self, StartFault>
        ensures ahead { IfOk result (λ r. r.ahead ≡ from) }
        ensures format { IfOk result (λ r. (r.format ≡ format.entry.now) × (r.limit ≡ limit)) }
        ensures none_yet { IfOk result (λ r. (r.answered ≡ 0) × (r.lines ≡ 0) × (r.over ≡ None)) }
        ensures limit { IsErrOf result StartFault.BadLimit ↔ (2147483647 < limit) }
        ensures memory { IfErr result (λ fault. (fault ≡ StartFault.BadLimit) ⊎ (fault ≡ StartFault.NoMemory)) }
    {
        if limit > MOST_BYTES {
            return Err(StartFault::BadLimit);
        }
        let Ok(store) = HeapStore::new(alloc, format.width_sum().unwrap_or(0)) else {
            return Err(StartFault::NoMemory);
        };
        Ok(Reports {
            alloc,
            from,
            format,
            limit,
            store: Some(store),
            outcome: Outcome {
                status: Status::Done,
                at: 0,
                assigned: 0,
                converted: 0,
                used: 0,
                met: None,
            },
            answered: 0,
            lines: 0,
            over: None,
        })
    }

    /// What was read ahead and the source, given back, wherever the loop stands: what the last run left comes next.
    pub fn into_lookahead(self) -> Lookahead<S, N>
        ensures { result ≡ self.entry.ahead }
    {
        let Reports { from, .. } = self;
        from
    }

    /// Goes on to the next record wherever that is held whole and is Done, as most are, and its texts are no longer
    /// than the format's width sum. Else the report alone has changed.
    #[inline(always)]
    fn advance_at_once(&mut self) -> bool
        ensures next { result ≡ true → IsNext S.to_come S.reads S.failures N self.old self.new (Ok true) }
        ensures open { result ≡ true → self.old.over ≡ None }
        ensures answers { self.old.over ≡ None
            → (done : IsDoneWithin self.old.format self.old.limit self.old.ahead.held
            (unwrap_or (width_sum self.old.format) 0))
            → 0 < done.report.used → result ≡ true }
        ensures format { result ≡ true → self.new.format ≡ self.old.format }
        ensures limit { result ≡ true → self.new.limit ≡ self.old.limit }
        ensures no_read { self.new.ahead.source ≡ self.old.ahead.source }
        ensures stays { self.new.ahead.at_end ≡ self.old.ahead.at_end }
        ensures rest { result ≡ false → self.new ≡ record self.old { report = self.new.report } }
        ensures ended { (end : Option RecordFault) → self.old.over ≡ Some end → self.new ≡ self.old }
    {
        match self.over {
            None => {}
            Some(_) => return false,
        }
        let Some(store) = &mut self.store else {
            unreachable!();
        };
        match take_held(
            store,
            &mut self.from,
            self.format,
            self.limit,
            &mut self.lines,
        ) {
            Some(outcome) => {
                self.outcome = outcome;
                self.answered = self.answered.saturating_add(1);
                true
            }
            None => false,
        }
    }

    /// Runs the format over the next record, by a scanner whatever is held.
    fn scan(&mut self)
        ensures run { IsNextRun S.to_come S.reads S.failures N self.old.format self.old.limit self.old.ahead
            self.new.ahead self.old.lines self.new.lines self.new.report }
        ensures format { self.new.format ≡ self.old.format }
        ensures limit { self.new.limit ≡ self.old.limit }
        ensures answered { self.new.answered ≡ self.old.answered }
        ensures over { self.new.over ≡ self.old.over }
        ensures no_read { self.old.ahead.at_end ≡ true → self.new.ahead.source ≡ self.old.ahead.source }
        ensures stays { self.old.ahead.at_end ≡ true → self.new.ahead.at_end ≡ true }
    {
        let Some(store) = self.store.take() else {
            unreachable!();
        };
        let scanned = take_next(
            self.alloc,
            store,
            &mut self.from,
            self.format,
            self.limit,
            &mut self.lines,
        );
        self.outcome = scanned.outcome();
        self.store = Some(scanned.into_store());
    }

    /// The fault of the next record.
    fn fault(&self, why: RecordWhy) -> RecordFault
        ensures { result ≡ fault_of self.now.answered self.now.lines why }
    {
        RecordFault {
            number: self.answered.saturating_add(1),
            line: self.lines.saturating_add(1),
            why,
        }
    }

    /// As `advance`, by a scanner whatever is held.
    #[cold]
    #[inline(never)]
    fn advance_on(&mut self) -> Result<bool, RecordFault>
        ensures over { (end : Option RecordFault) → self.old.over ≡ Some end
            → (self.new ≡ self.old) × (result ≡ ended_with false end) }
        ensures next { self.old.over ≡ None → IsNext S.to_come S.reads S.failures N self.old self.new result }
        ensures no_read { self.old.ahead.at_end ≡ true → self.new.ahead.source ≡ self.old.ahead.source }
        ensures stays { self.old.ahead.at_end ≡ true → self.new.ahead.at_end ≡ true }
        ensures format { self.new.format ≡ self.old.format }
        ensures limit { self.new.limit ≡ self.old.limit }
    {
        match self.over {
            Some(None) => return Ok(false),
            Some(Some(fault)) => return Err(fault),
            None => {}
        }
        let optional = self.format.has_optional();
        self.scan();
        match next_turn(self.outcome, optional) {
            Turn::Goes => {
                self.answered = self.answered.saturating_add(1);
                Ok(true)
            }
            Turn::Cut => {
                self.over = Some(Some(self.fault(RecordWhy::Read)));
                self.answered = self.answered.saturating_add(1);
                Ok(true)
            }
            Turn::Ends => {
                self.over = Some(None);
                Ok(false)
            }
            Turn::Stops(why) => {
                let fault = self.fault(why);
                self.over = Some(Some(fault));
                Err(fault)
            }
        }
    }

    /// Goes on to the next record, and says whether there is one; `report` has it then. After the end, or a fault, it
    /// answers the same again. A record that was complete when a read failed is there, and the fault comes next.
    #[inline(always)]
    pub fn advance(&mut self) -> Result<bool, RecordFault>
        ensures over { (end : Option RecordFault) → self.old.over ≡ Some end
            → (self.new ≡ self.old) × (result ≡ ended_with false end) }
        ensures next { self.old.over ≡ None → IsNext S.to_come S.reads S.failures N self.old self.new result }
        ensures ends { self.old.over ≡ None → (result ≡ Ok false ↔ IsEnd self.old.format (outcome_of self.new.report)) }
        ensures no_read { self.old.ahead.at_end ≡ true → self.new.ahead.source ≡ self.old.ahead.source }
        ensures stays { self.old.ahead.at_end ≡ true → self.new.ahead.at_end ≡ true }
        ensures format { self.new.format ≡ self.old.format }
        ensures limit { self.new.limit ≡ self.old.limit }
    {
        if self.advance_at_once() {
            return Ok(true);
        }
        self.advance_on()
    }

    /// The report of the last run: after `advance` has answered true, that of the record.
    pub fn report(&self) -> Report<'_, HeapStore>
        ensures value { result ≡ self.now.report }
        ensures kinded { AreKinded self.now.format }
        ensures accepted { IsAccepted self.now.format }
    {
        let _directives = self.format.directives();
        match &self.store {
            Some(store) => Report::new(self.outcome, store),
            None => unreachable!(),
        }
    }

    /// Ends the loop after a record whose row was refused for want of memory.
    pub(crate) fn refuse_row(&mut self) -> RecordFault
        ensures fault { result ≡ record {
          number = self.old.answered;
          line = counted_on self.old.lines;
          why =
              RecordWhy.NoMemory;
        } }
        ensures over { self.new ≡ record self.old { over = Some (Some result) } }
    {
        let fault = RecordFault {
            number: self.answered,
            line: self.lines.saturating_add(1),
            why: RecordWhy::NoMemory,
        };
        self.over = Some(Some(fault));
        fault
    }

    /// The allocator of the loop.
    pub(crate) fn allocator(&self) -> Global {
        self.alloc
    }

    /// How many records there were.
    pub fn records(&self) -> u64
        ensures { result ≡ self.now.answered }
    {
        self.answered
    }
}
