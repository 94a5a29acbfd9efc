//! The lines of an input, one after the other, as rows.
ghost use Rattle.std.specs.Prelude.{◌≡◌, ◌≤◌, ◌<◌, ◌⊎◌, ◌↔◌, [], true, false, Option, None, Some, IfErr, IfOk, IfSome};
ghost use Rattle.std.specs.Prelude.{IsErrOf, IsSome};
ghost use Rattle.sf_run.specs.declared.feeding.StartFault.TheVariants as start;
ghost use Rattle.sf_read.specs.RowScans.{HasShape, difference_in, difference_of};
ghost use Rattle.sf_read.specs.Shapes.{IsDifference};
ghost use Rattle.sf_read.specs.field.Rows.{present, slots_by};
ghost use Rattle.sf_loops.specs.declared.line_fault.LineStop.{LineStop};
ghost use Rattle.sf_loops.specs.Lines.{IsNextLineRow, LineEndedWith};

use crate::line_fault::LineFault;
use crate::line_reports::LineReports;
use sf_format::ScanFormat;
use sf_read::{Lookahead, Match, Row, RowFault, ScanRowFault, Source, check_shape};
use std::alloc::Global;
use std::marker::{Model, PhantomData};

/// A loop over the lines of an input as rows: tuples of one to twelve values, or a type of the caller's. Each line is
/// an input of its own, as C programs have it with fgets and sscanf (C11 7.21.7.2, 7.21.6.7).
///
/// `N` is how many bytes are read at once, at least 1. The memory of a line and of its values is used again for the
/// next one.
#[derive(Drop)]
pub struct Lines<'f, T: Row, S: Source, const N: usize> {
    reports: LineReports<'f, S, N>,
    of: PhantomData<T>,
}

impl<'f, T: Row, S: Source, const N: usize> Model for Lines<'f, T, S, N> {
    ghost use Rattle.sf_read.specs.RowScans.{HasShape};
    ghost use Rattle.sf_loops.specs.Lines.{LineLoop};

    ghost Value = { LineLoop S };

    ghost view = { λ r. r.reports };

    ghost invariant = { λ r. HasShape T.kinds T.optional r.reports.format };
}

impl<'f, T: Row, S: Source, const N: usize> Lines<'f, T, S, N> {
    /// The loop before the first line. Each line has at most `limit` bytes. A match uses the front of a line.
    ///
    /// Refuses with ShapeDiffers where the slots of the row and their kinds are not the destinations of the format and
    /// theirs; then with Start: a limit above 2147483647 with BadLimit, and NoMemory where memory was refused.
    pub fn new(
        alloc: Global,
        source: S,
        format: &'f ScanFormat,
        limit: u32,
    ) -> Result<Self, ScanRowFault>
        requires { 1 ≤ N }
        ensures held { IfOk result (λ r. r.ahead.held ≡ []) }
        ensures source { IfOk result (λ r. r.ahead.source ≡ source) }
        ensures fresh { IfOk result (λ r. r.ahead.at_end ≡ false) }
        ensures format { IfOk result (λ r. (r.format ≡ format.entry.now) × (r.limit ≡ limit)) }
        ensures matching { IfOk result (λ r. r.matching ≡ Match.Front) }
        ensures none_yet { IfOk result (λ r. (r.read ≡ 0) × (r.line ≡ []) × (r.over ≡ None)) }
        ensures shape { IsSome (difference_of result) ↔ (HasShape T.kinds T.optional format.entry.now → ⊥) }
        ensures differs { IfSome (difference_of result) (IsDifference T.kinds T.optional format.entry.now) }
        ensures limit { HasShape T.kinds T.optional format.entry.now
            → (IsErrOf result (ScanRowFault.Start start.BadLimit) ↔ (2147483647 < limit)) }
        ensures memory { IfErr result (λ fault. IsSome (difference_in fault)
            ⊎ (fault ≡ ScanRowFault.Start start.BadLimit) ⊎ (fault ≡ ScanRowFault.Start start.NoMemory)) }
    {
        Lines::over(alloc, Lookahead::new(source), format, limit)
    }

    /// As `new`, over bytes that were read ahead already, as after a header line.
    pub fn over(
        alloc: Global,
        from: Lookahead<S, N>,
        format: &'f ScanFormat,
        limit: u32,
    ) -> Result<Self, ScanRowFault>
        ensures ahead { IfOk result (λ r. r.ahead ≡ from) }
        ensures format { IfOk result (λ r. (r.format ≡ format.entry.now) × (r.limit ≡ limit)) }
        ensures matching { IfOk result (λ r. r.matching ≡ Match.Front) }
        ensures none_yet { IfOk result (λ r. (r.read ≡ 0) × (r.line ≡ []) × (r.over ≡ None)) }
        ensures shape { IsSome (difference_of result) ↔ (HasShape T.kinds T.optional format.entry.now → ⊥) }
        ensures differs { IfSome (difference_of result) (IsDifference T.kinds T.optional format.entry.now) }
        ensures limit { HasShape T.kinds T.optional format.entry.now
            → (IsErrOf result (ScanRowFault.Start start.BadLimit) ↔ (2147483647 < limit)) }
        ensures memory { IfErr result (λ fault. IsSome (difference_in fault)
            ⊎ (fault ≡ ScanRowFault.Start start.BadLimit) ⊎ (fault ≡ ScanRowFault.Start start.NoMemory)) }
    {
        if let Err(by) = check_shape::<T>(format) {
            return Err(ScanRowFault::ShapeDiffers(by));
        }
        match LineReports::over(alloc, from, format, limit) {
            Ok(reports) => Ok(Lines {
                reports,
                of: PhantomData,
            }),
            Err(fault) => Err(ScanRowFault::Start(fault)),
        }
    }

    /// The same loop, in which a match uses so much of a line. By `Match::Whole` a line is a fault where the format
    /// leaves bytes of it.
    pub fn matching(self, matching: Match) -> Self
        ensures { result ≡ record self.entry { matching = matching } }
    {
        let Lines { reports, of } = self;
        Lines {
            reports: reports.matching(matching),
            of,
        }
    }

    /// What was read ahead and the source, given back, wherever the loop stands.
    pub fn into_lookahead(self) -> Lookahead<S, N>
        ensures { result ≡ self.entry.ahead }
    {
        let Lines { reports, .. } = self;
        reports.into_lookahead()
    }

    /// The row of the next line; None at the end of the input.
    ///
    /// A line that is no match, has bytes left over, or is too long, is a fault with the text of the line; the call
    /// after it goes on with the next line. After None, and after any other fault, it answers the same again.
    pub fn next(&mut self) -> Result<Option<T>, LineFault>
        ensures over { (end : Option LineStop) → self.old.over ≡ Some end
            → (self.new ≡ self.old) × LineEndedWith None end result }
        ensures next { self.old.over ≡ None → IsNextLineRow S.to_come S.reads S.failures N T.kinds
            (slots_by T.given T.listed) self.old self.new result }
        ensures no_read { self.old.ahead.at_end ≡ true → self.new.ahead.source ≡ self.old.ahead.source }
        ensures stays { self.old.ahead.at_end ≡ true → self.new.ahead.at_end ≡ true }
        ensures listed { IfOk result (λ found. IfSome found
            (λ row. T.listed row ≡ present (slots_by T.given T.listed row))) }
    {
        match self.reports.advance() {
            Ok(true) => {}
            Ok(false) => return Ok(None),
            Err(fault) => return Err(fault),
        }
        let alloc = self.reports.allocator();
        match T::from_report(alloc, &self.reports.report()) {
            Ok(row) => Ok(Some(row)),
            Err(RowFault::NoMemory) => Err(self.reports.refuse_row()),
        }
    }

    /// As `next`, by a name that no iterator has.
    pub fn read_row(&mut self) -> Result<Option<T>, LineFault>
        ensures over { (end : Option LineStop) → self.old.over ≡ Some end
            → (self.new ≡ self.old) × LineEndedWith None end result }
        ensures next { self.old.over ≡ None → IsNextLineRow S.to_come S.reads S.failures N T.kinds
            (slots_by T.given T.listed) self.old self.new result }
        ensures no_read { self.old.ahead.at_end ≡ true → self.new.ahead.source ≡ self.old.ahead.source }
        ensures stays { self.old.ahead.at_end ≡ true → self.new.ahead.at_end ≡ true }
        ensures listed { IfOk result (λ found. IfSome found
            (λ row. T.listed row ≡ present (slots_by T.given T.listed row))) }
    {
        self.next()
    }

    /// The text of the last line, without its newline, after `next` has answered a row.
    pub fn line(&self) -> &[u8]
        ensures { result.now ≡ self.now.line }
    {
        self.reports.line()
    }

    /// How many lines were read.
    pub fn lines(&self) -> u64
        ensures { result ≡ self.now.read }
    {
        self.reports.lines()
    }
}
