//! The loops as iterators, for a `for`.
ghost use Rattle.std.specs.Prelude.{◌≡◌, ◌<◌, ◌-◌, if◌then◌else◌};
ghost use Rattle.sf_loops.specs.LineTexts.{goes_on};

use crate::fault::RecordFault;
use crate::line_fault::{LineFault, LineWhy};
use crate::lines::Lines;
use crate::records::Records;
use sf_read::{Row, Source};
use std::marker::Model;

/// The rows of the records of an input, one after the other, as `Records::next` answers them. The first fault is the
/// last item. `for row in records` makes one.
///
/// It ends after 2^64 - 1 items in any case.
#[derive(Drop)]
pub struct RecordItems<'f, T: Row, S: Source, const N: usize> {
    records: Records<'f, T, S, N>,
    left: u64,
}

impl<'f, T: Row, S: Source, const N: usize> Model for RecordItems<'f, T, S, N> {
    ghost use Rattle.sf_loops.specs.Items.{RecordsLeft};

    ghost Value = { RecordsLeft S };

    ghost view = { λ r. record { now = r.records; left = r.left } };
}

impl<'f, T: Row, S: Source, const N: usize> Iterator for RecordItems<'f, T, S, N> {
    type Item = Result<T, RecordFault>;

    ghost use Rattle.std.specs.Iterator.{at_most};
    ghost use Rattle.sf_read.specs.field.Rows.{slots_by};
    ghost use Rattle.sf_loops.specs.Items.{GivesRecord};

    ghost next_gives = { λ old result new. GivesRecord S.to_come S.reads S.failures N T.kinds
        (slots_by T.given T.listed) old result new };

    ghost remaining = { λ r. at_most r.left };

    fn next(&mut self) -> Option<Result<T, RecordFault>> {
        if self.left == 0 {
            return None;
        }
        match self.records.next() {
            Ok(Some(row)) => {
                self.left -= 1;
                Some(Ok(row))
            }
            Ok(None) => {
                self.left = 0;
                None
            }
            Err(last) => {
                self.left = 0;
                Some(Err(last))
            }
        }
    }
}

impl<'f, T: Row, S: Source, const N: usize> IntoIterator for Records<'f, T, S, N> {
    type Item = Result<T, RecordFault>;

    type IntoIter = RecordItems<'f, T, S, N>;

    ghost use Rattle.std.specs.Prelude.{◌≡◌};
    ghost use Rattle.sf_loops.specs.Items.{most_items};

    ghost into_iter_gives = { λ records rows. rows ≡ record { now = records; left = most_items } };

    fn into_iter(self) -> RecordItems<'f, T, S, N> {
        RecordItems {
            records: self,
            left: u64::MAX,
        }
    }
}

/// The most items that are left after the fault of a line.
fn left_after(left: u64, why: LineWhy) -> u64
    requires { 0 < left }
    ensures left { result ≡ (if goes_on why then left - 1 else 0) }
    ensures less { result < left }
{
    if why.goes_on() { left - 1 } else { 0 }
}

/// The rows of the lines of an input, one after the other, as `Lines::next` answers them. A line that is no match, or
/// is too long, is a fault, and the items go on; any other fault is the last item. `for row in lines` makes one.
///
/// It ends after 2^64 - 1 items in any case.
#[derive(Drop)]
pub struct LineItems<'f, T: Row, S: Source, const N: usize> {
    lines: Lines<'f, T, S, N>,
    left: u64,
}

impl<'f, T: Row, S: Source, const N: usize> Model for LineItems<'f, T, S, N> {
    ghost use Rattle.sf_loops.specs.Items.{LinesLeft};

    ghost Value = { LinesLeft S };

    ghost view = { λ r. record { now = r.lines; left = r.left } };
}

impl<'f, T: Row, S: Source, const N: usize> Iterator for LineItems<'f, T, S, N> {
    type Item = Result<T, LineFault>;

    ghost use Rattle.std.specs.Iterator.{at_most};
    ghost use Rattle.sf_read.specs.field.Rows.{slots_by};
    ghost use Rattle.sf_loops.specs.Items.{GivesLine};

    ghost next_gives = { λ old result new. GivesLine S.to_come S.reads S.failures N T.kinds
        (slots_by T.given T.listed) old result new };

    ghost remaining = { λ r. at_most r.left };

    fn next(&mut self) -> Option<Result<T, LineFault>> {
        if self.left == 0 {
            return None;
        }
        match self.lines.next() {
            Ok(Some(row)) => {
                self.left -= 1;
                Some(Ok(row))
            }
            Ok(None) => {
                self.left = 0;
                None
            }
            Err(fault) => {
                let left = left_after(self.left, fault.why);
                self.left = left;
                Some(Err(fault))
            }
        }
    }
}

impl<'f, T: Row, S: Source, const N: usize> IntoIterator for Lines<'f, T, S, N> {
    type Item = Result<T, LineFault>;

    type IntoIter = LineItems<'f, T, S, N>;

    ghost use Rattle.std.specs.Prelude.{◌≡◌};
    ghost use Rattle.sf_loops.specs.Items.{most_items};

    ghost into_iter_gives = { λ lines rows. rows ≡ record { now = lines; left = most_items } };

    fn into_iter(self) -> LineItems<'f, T, S, N> {
        LineItems {
            lines: self,
            left: u64::MAX,
        }
    }
}
