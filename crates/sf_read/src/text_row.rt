//! Rows of whole texts.
ghost use Rattle.std.specs.Prelude.{◌≡◌, ◌≤◌, ◌<◌, ◌⊎◌, ◌↔◌, length, true, IfOk, IfSome, IsErrOf, IsSome, None};
ghost use Rattle.sf_format.specs.Proper.{IsAccepted};
ghost use Rattle.sf_read.specs.field.Rows.{present, slots_by};
ghost use Rattle.sf_read.specs.RowScans.{HasShape, TextRow, difference_of, is_run};
ghost use Rattle.sf_read.specs.Shapes.{IsDifference};

use crate::field::{Row, RowFault};
use crate::row::{FEW_NUMBERS, row_of};
use crate::whole::scan_short;
use crate::{Match, ScanRowFault, check_shape, sscan};
use sf_base::FixedStore;
use sf_format::ScanFormat;
use sf_run::{MOST_BYTES, Report, StartFault};
use std::alloc::Global;

/// The row of a short text, where the format stores a few numbers and no texts, and the text is seen at once to be
/// Done: the numbers need no memory. None where that isn't so, and where the limit is too high.
#[inline(always)]
fn row_of_short<T: Row>(
    alloc: Global,
    text: &[u8],
    format: &ScanFormat,
    limit: u32,
    matching: Match,
) -> Option<Result<T, ScanRowFault>>
    requires accepted { IsAccepted format.now }
    requires shape { HasShape T.kinds T.optional format.now }
    ensures run { IfSome result (λ row. TextRow T.kinds (slots_by T.given T.listed) format.now limit text.now
        matching row) }
    ensures is_run { IfSome result (λ row. is_run row ≡ true) }
    ensures shape { IfSome result (λ row. difference_of row ≡ None) }
    ensures listed { IfSome result (λ row. IfOk row (λ made. T.listed made
        ≡ present (slots_by T.given T.listed made))) }
    ensures limit { IsSome result → limit ≤ 2147483647 }
{
    if limit > MOST_BYTES
        || format.width_sum() != Some(0)
        || format.destinations() as usize > FEW_NUMBERS
    {
        return None;
    }
    let mut store = FixedStore::<0, FEW_NUMBERS>::new();
    let outcome = scan_short(&mut store, text, format, limit)?;
    if matching.leaves(outcome, text.len()) {
        return Some(Err(ScanRowFault::LeftOver { at: outcome.used }));
    }
    match T::from_report(alloc, &Report::new(outcome, &store)) {
        Ok(row) => Some(Ok(row)),
        Err(RowFault::NoMemory) => Some(Err(ScanRowFault::NoMemory)),
    }
}

/// As `sscan_row_by`, of a row that has the format's shape, whatever the text is.
#[inline(never)]
fn row_by_sscan<T: Row>(
    alloc: Global,
    text: &[u8],
    format: &ScanFormat,
    limit: u32,
    matching: Match,
) -> Result<T, ScanRowFault>
    requires accepted { IsAccepted format.now }
    requires shape { HasShape T.kinds T.optional format.now }
    ensures shape { difference_of result ≡ None }
    ensures limit { IsErrOf result (ScanRowFault.Start StartFault.BadLimit) ↔ (2147483647 < limit) }
    ensures start { (fault : StartFault) → IsErrOf result (ScanRowFault.Start fault)
        → (fault ≡ StartFault.BadLimit) ⊎ (fault ≡ StartFault.NoMemory) }
    ensures run { is_run result ≡ true → TextRow T.kinds (slots_by T.given T.listed) format.now limit text.now matching
        result }
    ensures listed { IfOk result (λ row. T.listed row ≡ present (slots_by T.given T.listed row)) }
{
    match sscan(alloc, text, format, limit) {
        Ok(scanned) => {
            let outcome = scanned.outcome();
            if matching.leaves(outcome, text.len()) {
                return Err(ScanRowFault::LeftOver { at: outcome.used });
            }
            row_of(alloc, &scanned)
        }
        Err(fault) => Err(ScanRowFault::Start(fault)),
    }
}

/// Scans a whole text by a format, as sscanf does (C11 7.21.6.7), and makes a row of the values. The run consumes at
/// most `limit` bytes. A match uses the front of the text, or the whole of it.
///
/// Refuses with ShapeDiffers where the slots of the row and their kinds are not the destinations of the format and
/// theirs, or one of these may be missing and not so in the row: it says how they differ first. Then it refuses with
/// Start where `sscan` refuses. A run that doesn't end as Done is reported by Failed, and by LeftOver one that is Done
/// and leaves bytes of a text whose whole it had to use. Last comes NoMemory, where memory for the row was refused. The
/// numbers of a short text are kept without memory, where the format stores at most eight, and no texts.
#[inline(always)]
pub fn sscan_row_by<T: Row>(
    alloc: Global,
    text: &[u8],
    format: &ScanFormat,
    limit: u32,
    matching: Match,
) -> Result<T, ScanRowFault>
    ensures shape { IsSome (difference_of result) ↔ (HasShape T.kinds T.optional format.now → ⊥) }
    ensures differs { IfSome (difference_of result) (IsDifference T.kinds T.optional format.now) }
    ensures limit { IsErrOf result (ScanRowFault.Start StartFault.BadLimit) ↔
        (HasShape T.kinds T.optional format.now × (2147483647 < limit)) }
    ensures start { (fault : StartFault) → IsErrOf result (ScanRowFault.Start fault)
        → (fault ≡ StartFault.BadLimit) ⊎ (fault ≡ StartFault.NoMemory) }
    ensures run { is_run result ≡ true → TextRow T.kinds (slots_by T.given T.listed) format.now limit text.now matching
        result }
    ensures listed { IfOk result (λ row. T.listed row ≡ present (slots_by T.given T.listed row)) }
{
    if let Err(by) = check_shape::<T>(format) {
        return Err(ScanRowFault::ShapeDiffers(by));
    }
    if let Some(row) = row_of_short(alloc, text, format, limit, matching) {
        return row;
    }
    row_by_sscan(alloc, text, format, limit, matching)
}

/// As `sscan_row_by` (C11 7.21.6.7), where a match uses the front of the text: what the format leaves of it is not
/// looked at.
pub fn sscan_row<T: Row>(
    alloc: Global,
    text: &[u8],
    format: &ScanFormat,
    limit: u32,
) -> Result<T, ScanRowFault>
    ensures shape { IsSome (difference_of result) ↔ (HasShape T.kinds T.optional format.now → ⊥) }
    ensures differs { IfSome (difference_of result) (IsDifference T.kinds T.optional format.now) }
    ensures limit { IsErrOf result (ScanRowFault.Start StartFault.BadLimit) ↔
        (HasShape T.kinds T.optional format.now × (2147483647 < limit)) }
    ensures start { (fault : StartFault) → IsErrOf result (ScanRowFault.Start fault)
        → (fault ≡ StartFault.BadLimit) ⊎ (fault ≡ StartFault.NoMemory) }
    ensures run { is_run result ≡ true → TextRow T.kinds (slots_by T.given T.listed) format.now limit text.now
        Match.Front result }
    ensures listed { IfOk result (λ row. T.listed row ≡ present (slots_by T.given T.listed row)) }
{
    sscan_row_by(alloc, text, format, limit, Match::Front)
}
