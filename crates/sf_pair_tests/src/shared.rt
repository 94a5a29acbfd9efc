//! What the tests share.
use sf_base::{Store, Value};
use sf_format::{PrintFormat, Profile, ScanFormat};
use sf_pair::Pair;
use sf_run::{Report, Scanned, Status};
use std::alloc::Global;
use std::test::Fail;

/// What is found of the pair of these formats.
pub(crate) fn found_of<R, F: FnOnce(&Pair<'_>) -> R>(
    alloc: Global,
    profile: Profile,
    print: &[u8],
    scan: &[u8],
    find: F,
) -> Result<R, Fail>
    requires { F.IsAlwaysCallable find }
{
    let print = PrintFormat::parse(alloc, profile, print)?;
    let scan = ScanFormat::parse(alloc, profile, scan)?;
    let pair = Pair::check(&print, &scan)?;
    Ok(find(&pair))
}

/// Whether the slots have these values in turn, and no other slot has one.
fn has_just<S: Store>(report: &Report<'_, S>, values: &[Value<'_>]) -> bool {
    for before in 0..32u8 {
        if report.value(before + 1) != values.get(before as usize).copied() {
            return false;
        }
    }
    true
}

/// Whether the run is Done with so many bytes, met nothing, and has exactly the values.
pub(crate) fn has_read<S: Store>(scanned: &Scanned<S>, values: &[Value<'_>], count: usize) -> bool {
    let report = scanned.report();
    let outcome = report.outcome();
    outcome.status == Status::Done
        && outcome.used as usize == count
        && outcome.met.is_none()
        && has_just(&report, values)
}
