//! Scans of groups, which may be missing as one.
use crate::scan_rows::{LIMIT, ScanRow};
use crate::told::{Met, Told};
use sf_base::Value;
use sf_format::Profile;
use sf_run::Status;

static GROUPS: [ScanRow; 14] = [
    ScanRow {
        profile: Profile::Three,
        format: b"%d%?(,%d%)",
        limit: LIMIT,
        text: b"1,2;",
        told: Told::Done(2, 3, Met::Byte),
        values: &[Value::I32(1), Value::I32(2)],
        at_once: true,
    },
    ScanRow {
        profile: Profile::Three,
        format: b"%d%?(,%d%)",
        limit: LIMIT,
        text: b"1;",
        told: Told::Done(1, 1, Met::Byte),
        values: &[Value::I32(1)],
        at_once: true,
    },
    ScanRow {
        profile: Profile::Three,
        format: b"%d%?(,%d%)",
        limit: LIMIT,
        text: b"1",
        told: Told::Done(1, 1, Met::End),
        values: &[Value::I32(1)],
        at_once: false,
    },
    ScanRow {
        profile: Profile::Three,
        format: b"%d%?(,%d%)",
        limit: LIMIT,
        text: b"1,x",
        told: Told::Failed(Status::MatchingFailure, 3, 1, 2, Met::Byte),
        values: &[Value::I32(1)],
        at_once: false,
    },
    ScanRow {
        profile: Profile::Three,
        format: b"%d%?(,%d%)",
        limit: LIMIT,
        text: b"1,",
        told: Told::Failed(Status::InputFailure, 3, 1, 2, Met::End),
        values: &[Value::I32(1)],
        at_once: false,
    },
    ScanRow {
        profile: Profile::Three,
        format: b"%?([%d]%)x",
        limit: LIMIT,
        text: b"[7]x;",
        told: Told::Done(1, 4, Met::Nothing),
        values: &[Value::I32(7)],
        at_once: true,
    },
    ScanRow {
        profile: Profile::Three,
        format: b"%?([%d]%)x",
        limit: LIMIT,
        text: b"x;",
        told: Told::Done(0, 1, Met::Nothing),
        values: &[],
        at_once: true,
    },
    ScanRow {
        profile: Profile::Three,
        format: b"%?(%%%d%)%c",
        limit: LIMIT,
        text: b"  %5z;",
        told: Told::Done(2, 5, Met::Nothing),
        values: &[Value::I32(5), Value::Text(b"z")],
        at_once: true,
    },
    ScanRow {
        profile: Profile::Three,
        format: b"%?(%%%*d%)%c",
        limit: LIMIT,
        text: b"  z;",
        told: Told::Done(1, 3, Met::Nothing),
        values: &[Value::Text(b"z")],
        at_once: true,
    },
    ScanRow {
        profile: Profile::Three,
        format: b"%d%?(,%n%)",
        limit: LIMIT,
        text: b"1;",
        told: Told::Done(1, 1, Met::Byte),
        values: &[Value::I32(1)],
        at_once: true,
    },
    ScanRow {
        profile: Profile::Three,
        format: b"%d%?(,%n%)",
        limit: LIMIT,
        text: b"1,;",
        told: Told::Done(1, 2, Met::Nothing),
        values: &[Value::I32(1), Value::I32(2)],
        at_once: true,
    },
    ScanRow {
        profile: Profile::Three,
        format: b"%?(%=3d,%*d%);",
        limit: LIMIT,
        text: b"   ;x",
        told: Told::Done(0, 4, Met::Nothing),
        values: &[],
        at_once: true,
    },
    ScanRow {
        profile: Profile::Three,
        format: b"%?(%d%)",
        limit: LIMIT,
        text: b"",
        told: Told::Done(0, 0, Met::End),
        values: &[],
        at_once: false,
    },
    ScanRow {
        profile: Profile::Three,
        format: b"%d%?(:%?d;%)x",
        limit: LIMIT,
        text: b"1:;x.",
        told: Told::Done(1, 4, Met::Nothing),
        values: &[Value::I32(1)],
        at_once: true,
    },
];

/// Rows of groups.
pub(crate) fn group_scans() -> &'static [ScanRow] {
    &GROUPS
}
