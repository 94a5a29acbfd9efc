//! Faults as errors: `?` makes an `anyhow::Error` of each, with its text.
use sf_forms::Unwritten;
use sf_records::{LineFault, LinesFault};
use sf_rows::is_error;
use sf_run::{Outcome, Status};
use std::test::Fail;

/// What the run of `%d,%d` over `12,ab` comes to.
const NO_MATCH: Outcome = Outcome {
    status: Status::MatchingFailure,
    at: 3,
    assigned: 1,
    converted: 1,
    used: 3,
    met: None,
};

/// Why a line doesn't match, and the texts.
static LINES: [(LineFault, &str); 4] = [
    (
        LineFault::Failed { outcome: NO_MATCH },
        "matching failure at 3, used 3, assigned 1",
    ),
    (
        LineFault::LeftOver { at: 4294967295 },
        "left over at 4294967295",
    ),
    (LineFault::TooLong, "too long"),
    (LineFault::Unfit, "values do not fit"),
];

/// The faults of a loop over lines, their texts, and their exit statuses.
static LOOPS: [(LinesFault, &str, u8); 4] = [
    (
        LinesFault::Read {
            line: 18446744073709551615,
        },
        "line 18446744073709551615: read fault",
        3,
    ),
    (LinesFault::Write, "write fault", 3),
    (LinesFault::Memory, "out of memory", 4),
    (LinesFault::TooMany, "too many lines", 1),
];

/// Why a record was not written, and the texts.
static UNWRITTEN: [(Unwritten, &str); 3] = [
    (Unwritten::Unfit, "values do not fit"),
    (Unwritten::Write, "a record was not written in full"),
    (Unwritten::Memory, "no memory for the text of a record"),
];

#[test]
fn faults_have_texts(rt: HostRuntime) -> Result<(), Fail> {
    for &(fault, wanted) in &LINES {
        is_error(rt.alloc(), fault, wanted)?;
    }
    for &(fault, wanted, status) in &LOOPS {
        is_error(rt.alloc(), fault, wanted)?;
        assert_eq!(rt; fault.status(), status, "{wanted}");
    }
    for &(fault, wanted) in &UNWRITTEN {
        is_error(rt.alloc(), fault, wanted)?;
    }
    Ok(())
}
