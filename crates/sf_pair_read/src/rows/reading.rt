//! Reading rows by a pair.
ghost use Rattle.std.specs.Prelude.{◌≡◌, ◌≤◌, ◌⊎◌, ◌++◌, ℕ, List, map, vec_len, true, Some, ◌↔◌};
ghost use Rattle.std.specs.Prelude.{IfOk, IfErr, IsErrAnd, IsOk};
ghost use Rattle.std.specs.List.{AllByRecursion};
ghost use Rattle.sf_base.specs.Data.{Datum};
ghost use Rattle.sf_pair.specs.Joined.{joined};
ghost use Rattle.sf_read.specs.field.Rows.{present, slots_by};
ghost use Rattle.sf_read.specs.source.Ahead.{input_of};
ghost use Rattle.sf_read.specs.RowScans.{HasShape};
ghost use Rattle.sf_read.specs.source.Counts.{counted_on};
ghost use Rattle.sf_pair_read.specs.rows.Reading.{AreReadable, IsMemory, IsUnshaped, ReadsRows, StopsBefore, is_end};

use crate::rows::below::pair_laws;
use crate::rows::fault::ReadRowsFault;
use sf_format::ScanFormat;
use sf_pair::Pair;
use sf_read::{Lookahead, Row, ScanRowFault, Source, check_shape, scan_row_over};
use sf_run::{Ending, Status};
use std::alloc::Global;

/// Whether there was no row, since the input ended before one.
fn is_end(why: ScanRowFault) -> bool
    ensures { result ≡ is_end why }
{
    match why {
        ScanRowFault::Failed(outcome) => match (outcome.status, outcome.met) {
            (Status::InputFailure, Some(Ending::End)) => outcome.converted == 0,
            _ => false,
        },
        _ => false,
    }
}

/// The fault of the first row, where rows haven't the slots of the scan format.
fn check_rows<T: Row>(format: &ScanFormat) -> Result<(), ReadRowsFault>
    ensures same { IsOk result ↔ HasShape T.kinds T.optional format.now }
    ensures differs { IfErr result (IsUnshaped T.kinds T.optional format.now) }
{
    match check_shape::<T>(format) {
        Ok(()) => Ok(()),
        Err(by) => Err(fault_after(0, ScanRowFault::ShapeDiffers(by))),
    }
}

/// Reads rows by the pair's scan format, one after the other, as fscanf would (C11 7.21.6.2): at most so many, and
/// fewer where the input ends before that. What `write_rows` wrote is read back, whatever follows, and what follows it
/// is left.
///
/// Refuses with ShapeDiffers where the slots of the row and their kinds are not the destinations of the scan format
/// and theirs: it says how they differ first. It refuses a limit above 2147483647 with Start: nothing was read then. It
/// stops at the first row that is no match, or for which memory was refused: the rows before it are lost.
pub fn read_rows<T: Row + Drop, S: Source, const N: usize>(
    alloc: Global,
    from: &mut Lookahead<S, N>,
    pair: &Pair<'_>,
    limit: u32,
    most: usize,
) -> Result<Vec<T>, ReadRowsFault>
    ensures back { (rows : List (List Datum)) (z : List ℕ) → AreReadable pair.now.print pair.now.scan limit most rows z
        → HasShape T.kinds T.optional pair.now.scan
        → input_of S.to_come from.old ≡ Some (joined pair.now.print rows ++ z)
        → S.failures from.new.source ≡ 0
        → IfOk result (λ v. (map T.listed v.items ≡ rows) × (input_of S.to_come from.new ≡ Some z)) }
    ensures refused { (rows : List (List Datum)) (z : List ℕ) → AreReadable pair.now.print pair.now.scan limit most rows
        z → HasShape T.kinds T.optional pair.now.scan
        → input_of S.to_come from.old ≡ Some (joined pair.now.print rows ++ z)
        → S.failures from.new.source ≡ 0 → IfErr result (λ fault. IsMemory fault.why) }
    ensures rows { IfOk result (λ v. ReadsRows S.to_come S.reads S.failures N T.kinds (slots_by T.given T.listed)
        pair.now.scan limit most from.old from.new v.items) }
    ensures listed { IfOk result (λ v. AllByRecursion (λ row. T.listed row ≡ present (slots_by T.given T.listed row))
        v.items) }
    ensures stops { IfErr result (λ fault. StopsBefore S.to_come S.reads S.failures N T.kinds T.optional
        (slots_by T.given T.listed) pair.now.scan limit from.old from.new fault) }
    ensures no_read { from.old.at_end ≡ true → from.new.source ≡ from.old.source }
    ensures stays { from.old.at_end ≡ true → from.new.at_end ≡ true }
    ensures few { IfOk result (λ v. vec_len v ≤ most) }
    ensures ended { IfOk result (λ v. (vec_len v ≡ most) ⊎ (from.new.at_end ≡ true)) }
    ensures shape { (HasShape T.kinds T.optional pair.now.scan → ⊥)
        → IsErrAnd result (IsUnshaped T.kinds T.optional pair.now.scan) × (from.new ≡ from.old) }
{
    check_rows::<T>(pair.scan())?;
    pair_laws();
    let mut rows = Vec::new(alloc);
    let mut store = None;
    for _ in 0..most {
        match scan_row_over(alloc, &mut store, from, pair.scan(), limit) {
            Ok(row) => match rows.push(row) {
                Ok(()) => {}
                Err(_) => return Err(fault_after(rows.len(), ScanRowFault::NoMemory)),
            },
            Err(why) => {
                if is_end(why) {
                    return Ok(rows);
                }
                return Err(fault_after(rows.len(), why));
            }
        }
    }
    Ok(rows)
}

/// The fault of the row after so many.
fn fault_after(rows: usize, why: ScanRowFault) -> ReadRowsFault
    ensures { result ≡ record { row = counted_on rows; why = why } }
{
    ReadRowsFault {
        row: (rows as u64).saturating_add(1),
        why,
    }
}
