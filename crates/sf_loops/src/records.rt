//! The records of an input, one after the other, as rows.
ghost use Rattle.std.specs.Prelude.{◌≡◌, ◌≤◌, ◌<◌, ◌⊎◌, ◌↔◌, [], true, false, Option, None, Some, IfErr, IfOk, IfSome};
ghost use Rattle.std.specs.Prelude.{IsErrOf, IsSome};
ghost use Rattle.sf_run.specs.declared.feeding.StartFault.TheVariants as start;
ghost use Rattle.sf_read.specs.RowScans.{HasShape, difference_in, difference_of};
ghost use Rattle.sf_read.specs.Shapes.{IsDifference};
ghost use Rattle.sf_read.specs.field.Rows.{present, slots_by};
ghost use Rattle.sf_loops.specs.Loops.{IsNextRow, ended_with};

use crate::fault::RecordFault;
use crate::reports::Reports;
use sf_format::ScanFormat;
use sf_read::{Lookahead, Row, RowFault, ScanRowFault, Source, check_shape};
use std::alloc::Global;
use std::marker::{Model, PhantomData};

/// A loop over the records of an input as rows: tuples of one to twelve values, or a type of the caller's. It ends
/// where fscanf would return EOF at the end of the input (C11 7.21.6.2p16), or where by a format with a `?` or a group
/// each item is missing there; or at the first record that is no match.
///
/// `N` is how many bytes are read at once, at least 1. A source that has reported its end is not read again. The store
/// of a record is used again for the next one.
#[derive(Drop)]
pub struct Records<'f, T: Row, S: Source, const N: usize> {
    reports: Reports<'f, S, N>,
    of: PhantomData<T>,
}

impl<'f, T: Row, S: Source, const N: usize> Model for Records<'f, T, S, N> {
    ghost use Rattle.sf_read.specs.RowScans.{HasShape};
    ghost use Rattle.sf_loops.specs.Loops.{Loop};

    ghost Value = { Loop S };

    ghost view = { λ r. r.reports };

    ghost invariant = { λ r. HasShape T.kinds T.optional r.reports.format };
}

impl<'f, T: Row, S: Source, const N: usize> Records<'f, T, S, N> {
    /// The loop before the first record. Each run uses at most `limit` bytes.
    ///
    /// Refuses with ShapeDiffers where the slots of the row and their kinds are not the destinations of the format and
    /// theirs; then with Start: a limit above 2147483647 with BadLimit, and NoMemory where memory was refused.
    pub fn new(
        alloc: Global,
        source: S,
        format: &'f ScanFormat,
        limit: u32,
    ) -> Result<Self, ScanRowFault>
        requires { 1 ≤ N }
        ensures held { IfOk result (λ r. r.ahead.held ≡ []) }
        ensures source { IfOk result (λ r. r.ahead.source ≡ source) }
        ensures fresh { IfOk result (λ r. r.ahead.at_end ≡ false) }
        ensures format { IfOk result (λ r. (r.format ≡ format.entry.now) × (r.limit ≡ limit)) }
        ensures none_yet { IfOk result (λ r. (r.answered ≡ 0) × (r.lines ≡ 0) × (r.over ≡ None)) }
        ensures shape { IsSome (difference_of result) ↔ (HasShape T.kinds T.optional format.entry.now → ⊥) }
        ensures differs { IfSome (difference_of result) (IsDifference T.kinds T.optional format.entry.now) }
        ensures limit { HasShape T.kinds T.optional format.entry.now
            → (IsErrOf result (ScanRowFault.Start start.BadLimit) ↔ (2147483647 < limit)) }
        ensures memory { IfErr result (λ fault. IsSome (difference_in fault)
            ⊎ (fault ≡ ScanRowFault.Start start.BadLimit) ⊎ (fault ≡ ScanRowFault.Start start.NoMemory)) }
    {
        Records::over(alloc, Lookahead::new(source), format, limit)
    }

    /// As `new`, over bytes that were read ahead already, as after a header line.
    pub fn over(
        alloc: Global,
        from: Lookahead<S, N>,
        format: &'f ScanFormat,
        limit: u32,
    ) -> Result<Self, ScanRowFault>
        ensures ahead { IfOk result (λ r. r.ahead ≡ from) }
        ensures format { IfOk result (λ r. (r.format ≡ format.entry.now) × (r.limit ≡ limit)) }
        ensures none_yet { IfOk result (λ r. (r.answered ≡ 0) × (r.lines ≡ 0) × (r.over ≡ None)) }
        ensures shape { IsSome (difference_of result) ↔ (HasShape T.kinds T.optional format.entry.now → ⊥) }
        ensures differs { IfSome (difference_of result) (IsDifference T.kinds T.optional format.entry.now) }
        ensures limit { HasShape T.kinds T.optional format.entry.now
            → (IsErrOf result (ScanRowFault.Start start.BadLimit) ↔ (2147483647 < limit)) }
        ensures memory { IfErr result (λ fault. IsSome (difference_in fault)
            ⊎ (fault ≡ ScanRowFault.Start start.BadLimit) ⊎ (fault ≡ ScanRowFault.Start start.NoMemory)) }
    {
        if let Err(by) = check_shape::<T>(format) {
            return Err(ScanRowFault::ShapeDiffers(by));
        }
        match Reports::over(alloc, from, format, limit) {
            Ok(reports) => Ok(Records {
                reports,
                of: PhantomData,
            }),
            Err(fault) => Err(ScanRowFault::Start(fault)),
        }
    }

    /// What was read ahead and the source, given back, wherever the loop stands: what the last run left comes next.
    pub fn into_lookahead(self) -> Lookahead<S, N>
        ensures { result ≡ self.entry.ahead }
    {
        let Records { reports, .. } = self;
        reports.into_lookahead()
    }

    /// The row of the next record; None at the end of the input. After None, or a fault, it answers the same again. A
    /// record that was complete when a read failed is answered, and the fault comes next.
    pub fn next(&mut self) -> Result<Option<T>, RecordFault>
        ensures over { (end : Option RecordFault) → self.old.over ≡ Some end
            → (self.new ≡ self.old) × (result ≡ ended_with None end) }
        ensures next { self.old.over ≡ None → IsNextRow S.to_come S.reads S.failures N T.kinds
            (slots_by T.given T.listed) self.old self.new result }
        ensures no_read { self.old.ahead.at_end ≡ true → self.new.ahead.source ≡ self.old.ahead.source }
        ensures stays { self.old.ahead.at_end ≡ true → self.new.ahead.at_end ≡ true }
        ensures listed { IfOk result (λ found. IfSome found
            (λ row. T.listed row ≡ present (slots_by T.given T.listed row))) }
    {
        match self.reports.advance() {
            Ok(true) => {}
            Ok(false) => return Ok(None),
            Err(fault) => return Err(fault),
        }
        let alloc = self.reports.allocator();
        match T::from_report(alloc, &self.reports.report()) {
            Ok(row) => Ok(Some(row)),
            Err(RowFault::NoMemory) => Err(self.reports.refuse_row()),
        }
    }

    /// As `next`, by a name that no iterator has.
    pub fn read_row(&mut self) -> Result<Option<T>, RecordFault>
        ensures over { (end : Option RecordFault) → self.old.over ≡ Some end
            → (self.new ≡ self.old) × (result ≡ ended_with None end) }
        ensures next { self.old.over ≡ None → IsNextRow S.to_come S.reads S.failures N T.kinds
            (slots_by T.given T.listed) self.old self.new result }
        ensures no_read { self.old.ahead.at_end ≡ true → self.new.ahead.source ≡ self.old.ahead.source }
        ensures stays { self.old.ahead.at_end ≡ true → self.new.ahead.at_end ≡ true }
        ensures listed { IfOk result (λ found. IfSome found
            (λ row. T.listed row ≡ present (slots_by T.given T.listed row))) }
    {
        self.next()
    }

    /// How many records there were.
    pub fn records(&self) -> u64
        ensures { result ≡ self.now.answered }
    {
        self.reports.records()
    }
}
