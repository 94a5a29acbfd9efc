//! Scanners that are handed their input in pieces: rows of pieces, and each row of a scan in every cutting of its text.
use crate::runs::ended;
use sf_base::{FixedStore, Store};
use sf_format::{Profile, ScanFormat};
use sf_rows::{PieceRow, ScanRow, is, pieces, scans};
use sf_run::{Ending, FeedState, Scanner};
use std::alloc::Global;
use std::test::Fail;

/// A piece, how many bytes of it are taken, and the state after it.
type Piece<'a> = (&'a [u8], usize, FeedState);

/// The scanner takes so much of the piece, is in the state then, and has a report exactly where it has ended.
fn takes<S: Store>(scanner: &mut Scanner<'_, S>, piece: &Piece<'_>) -> Result<(), Fail> {
    let (bytes, taken, state) = piece;
    let fed = scanner.feed(bytes);
    let reports = scanner.report().is_some();
    let found = (fed.taken, fed.state, scanner.state(), reports);
    let wanted = (*taken, *state, *state, *state == FeedState::Ended);
    is(&found, &wanted, bytes)
}

/// The scanner takes the pieces in turn, and nothing after the ending.
fn takes_all<S: Store>(
    scanner: &mut Scanner<'_, S>,
    pieces: &[Piece<'_>],
    ending: Ending,
) -> Result<(), Fail> {
    for piece in pieces {
        takes(scanner, piece)?;
    }
    scanner.end(ending);
    takes(scanner, &(b"1", 0, FeedState::Ended))
}

/// The scanner takes the pieces, and then reports what the row says.
fn reports<S: Store>(
    mut scanner: Scanner<'_, S>,
    row: &ScanRow,
    pieces: &[Piece<'_>],
    ending: Ending,
) -> Result<(), Fail> {
    takes_all(&mut scanner, pieces, ending)?;
    let scanned = ended(scanner)?;
    row.is_told(&scanned.report())
}

/// What is to be reported of the pieces, as a row of a scan.
fn in_pieces(row: &PieceRow) -> ScanRow {
    ScanRow {
        profile: Profile::One,
        format: row.format,
        limit: row.limit,
        text: row.format,
        told: row.told,
        values: row.values,
        at_once: false,
    }
}

/// The row of pieces holds.
fn is_run(alloc: Global, row: &PieceRow) -> Result<(), Fail> {
    let format = ScanFormat::parse(alloc, Profile::One, row.format)?;
    let scanner = Scanner::new(alloc, &format, row.limit)?;
    reports(scanner, &in_pieces(row), row.pieces, row.ending)
}

#[test]
fn inputs_in_pieces(rt: HostRuntime) -> Result<(), Fail> {
    for row in pieces() {
        is_run(rt.alloc(), row)?;
    }
    Ok(())
}

/// The bytes of the row's text between two places: the run takes those that it uses, and then waits as the row says.
fn piece(row: &ScanRow, from: usize, to: usize) -> Piece<'_> {
    let bytes = row.text.get(from..to).unwrap_or(row.text);
    let taken = to.min(row.used()).saturating_sub(from);
    let state = if row.has_ended(to) {
        FeedState::Ended
    } else {
        FeedState::Wait
    };
    (bytes, taken, state)
}

/// The row in these pieces, over both stores.
fn over_both_stores(
    alloc: Global,
    row: &ScanRow,
    format: &ScanFormat,
    pieces: &[Piece<'_>],
) -> Result<(), Fail> {
    let scanner = Scanner::new(alloc, format, row.limit)?;
    reports(scanner, row, pieces, Ending::End)?;
    if format.width_sum().is_none() {
        return Ok(());
    }
    let scanner = Scanner::<FixedStore<16, 4>>::fixed(format, row.limit)?;
    reports(scanner, row, pieces, Ending::End)
}

/// The row in every cutting of its text into three pieces, empty ones too.
fn every_cutting(alloc: Global, row: &ScanRow) -> Result<(), Fail> {
    let format = row.parsed(alloc)?;
    let length = row.text.len();
    for second in 0..length + 1 {
        for first in 0..second + 1 {
            let pieces = [
                piece(row, 0, first),
                piece(row, first, second),
                piece(row, second, length),
            ];
            over_both_stores(alloc, row, &format, &pieces)?;
        }
    }
    Ok(())
}

/// The rows of a table.
fn all_cuttings(alloc: Global, rows: &[ScanRow]) -> Result<(), Fail> {
    for row in rows {
        every_cutting(alloc, row)?;
    }
    Ok(())
}

#[test]
fn every_cutting_over_both_stores(rt: HostRuntime) -> Result<(), Fail> {
    for rows in scans() {
        all_cuttings(rt.alloc(), rows)?;
    }
    Ok(())
}
