//! What is said of how a run ended, and of why none was started.
use sf_format::{Profile, ScanFormat};
use sf_rows::{is, is_error, says};
use sf_run::{Scanner, StartFault, Status};
use std::alloc::Global;
use std::test::Fail;

static FAULTS: [(StartFault, &str); 4] = [
    (StartFault::NoMemory, "out of memory"),
    (StartFault::BadLimit, "limit above 2147483647"),
    (StartFault::Unbounded, "the format has no width sum"),
    (StartFault::TooSmall, "the store is too small"),
];

#[test]
fn faults_of_starts(rt: HostRuntime) -> Result<(), Fail> {
    for (fault, text) in &FAULTS {
        is_error(rt.alloc(), *fault, text)?;
    }
    Ok(())
}

/// Makes a scanner under the limit, and hands the fault on.
fn start(alloc: Global, format: &ScanFormat, limit: u32) -> anyhow::Result<()> {
    let _scanner = Scanner::new(alloc, format, limit)?;
    Ok(())
}

#[test]
fn a_fault_is_handed_on(rt: HostRuntime) -> Result<(), Fail> {
    let format = ScanFormat::parse(rt.alloc(), Profile::One, b"%d")?;
    start(rt.alloc(), &format, 2147483647)?;
    let refused = start(rt.alloc(), &format, 2147483648).err();
    says(rt.alloc(), refused, "limit above 2147483647")
}

static STATUSES: [(Status, &str); 6] = [
    (Status::Done, "done"),
    (Status::InputFailure, "input failure"),
    (Status::MatchingFailure, "matching failure"),
    (Status::OutOfRange, "out of range"),
    (Status::TooLong, "too long"),
    (Status::NoMemory, "out of memory"),
];

#[test]
fn words_for_a_status(_rt: HostRuntime) -> Result<(), Fail> {
    for (status, text) in &STATUSES {
        is(&status.text(), text, status)?;
    }
    Ok(())
}
