//! Values that don't fit a pair.
use crate::shared::found_of;
use sf_base::Value;
use sf_format::Profile;
use sf_pair::{Pair, WriteFault};
use sf_print::ListSink;
use sf_rows::{is, unfit};
use std::alloc::Global;
use std::test::Fail;

/// Whether the values don't fit, and nothing of them is written.
fn are_refused(alloc: Global, pair: &Pair<'_>, values: &[Value<'_>]) -> bool {
    let mut to = ListSink::new(alloc);
    !pair.fits(values)
        && pair.write(&mut to, values) == Err(WriteFault::NotFitting)
        && to.bytes().is_empty()
}

#[test]
fn values_that_do_not_fit_are_refused(rt: HostRuntime) -> Result<(), Fail> {
    let alloc = rt.alloc();
    for &(print, scan, values) in unfit() {
        let refused = found_of(alloc, Profile::One, print, scan, |pair| {
            are_refused(alloc, pair, values)
        })?;
        is(&refused, &true, &print)?;
    }
    Ok(())
}
