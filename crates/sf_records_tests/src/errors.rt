//! Faults as errors: `?` makes an `anyhow::Error` of each, with its text.
use sf_records::{RecordFault, ToolFault};
use sf_rows::is_error;
use sf_run::{Outcome, Status};
use std::test::Fail;

/// What the first run of `%d` over letters comes to.
const NO_MATCH: Outcome = Outcome {
    status: Status::MatchingFailure,
    at: 1,
    assigned: 0,
    converted: 0,
    used: 2,
    met: None,
};

/// The faults of a loop over records, and their texts.
static FAULTS: [(ToolFault, &str); 7] = [
    (
        ToolFault::Failed {
            number: 3,
            outcome: NO_MATCH,
        },
        "record 3: matching failure at 1, used 2, assigned 0",
    ),
    (ToolFault::Stalled { number: 1 }, "record 1: stalled"),
    (
        ToolFault::Unfit { number: 4294967295 },
        "record 4294967295: values do not fit",
    ),
    (ToolFault::TooMany, "too many records"),
    (ToolFault::Read { number: 12 }, "record 12: read fault"),
    (ToolFault::Write, "write fault"),
    (ToolFault::Memory, "out of memory"),
];

/// Why a record was not written, and the texts.
static UNWRITTEN: [(RecordFault, &str); 2] = [
    (RecordFault::Write, "a record was not written in full"),
    (RecordFault::Memory, "no memory for the text of a record"),
];

#[test]
fn faults_have_texts(rt: HostRuntime) -> Result<(), Fail> {
    for &(fault, wanted) in &FAULTS {
        is_error(rt.alloc(), fault, wanted)?;
    }
    for &(fault, wanted) in &UNWRITTEN {
        is_error(rt.alloc(), fault, wanted)?;
    }
    Ok(())
}
