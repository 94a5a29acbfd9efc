//! Scans of both profiles.
use crate::scan_rows::{LIMIT, ScanRow};
use crate::told::{Met, Told};
use sf_base::Value;
use sf_format::Profile;
use sf_run::Status;

static BINARY: [ScanRow; 8] = [
    ScanRow {
        profile: Profile::Two,
        format: b"%b",
        limit: LIMIT,
        text: b"0b101,",
        told: Told::Done(1, 5, Met::Byte),
        values: &[Value::U32(5)],
        at_once: false,
    },
    ScanRow {
        profile: Profile::Two,
        format: b"%b",
        limit: LIMIT,
        text: b"0b2",
        told: Told::Failed(Status::MatchingFailure, 1, 0, 2, Met::Byte),
        values: &[],
        at_once: false,
    },
    ScanRow {
        profile: Profile::Two,
        format: b"%2b",
        limit: LIMIT,
        text: b"0b1",
        told: Told::Failed(Status::MatchingFailure, 1, 0, 2, Met::Nothing),
        values: &[],
        at_once: false,
    },
    ScanRow {
        profile: Profile::Two,
        format: b"%hhb",
        limit: LIMIT,
        text: b"100000000",
        told: Told::Failed(Status::OutOfRange, 1, 0, 9, Met::End),
        values: &[],
        at_once: false,
    },
    ScanRow {
        profile: Profile::Two,
        format: b"%i",
        limit: LIMIT,
        text: b"-0B11",
        told: Told::Done(1, 5, Met::End),
        values: &[Value::I32(-3)],
        at_once: false,
    },
    ScanRow {
        profile: Profile::Two,
        format: b"%i",
        limit: LIMIT,
        text: b"0b",
        told: Told::Failed(Status::MatchingFailure, 1, 0, 2, Met::End),
        values: &[],
        at_once: false,
    },
    ScanRow {
        profile: Profile::One,
        format: b"%i",
        limit: LIMIT,
        text: b"0b11",
        told: Told::Done(1, 1, Met::Byte),
        values: &[Value::I32(0)],
        at_once: false,
    },
    ScanRow {
        profile: Profile::Two,
        format: b"%d",
        limit: LIMIT,
        text: b"0b11",
        told: Told::Done(1, 1, Met::Byte),
        values: &[Value::I32(0)],
        at_once: false,
    },
];

/// Integers of base 2, and what the first profile makes of them.
pub(crate) fn binary_scans() -> &'static [ScanRow] {
    &BINARY
}
