//! The least and the greatest value of each kind and letter, read back with each byte after them.
use crate::shared::{found_of, has_read};
use sf_base::Value;
use sf_format::Profile;
use sf_pair::Pair;
use sf_pair_read::read_back;
use sf_print::{ListSink, Sink};
use sf_read::{Lookahead, SliceSource};
use sf_rows::{LIMIT, bounds, is};
use std::alloc::Global;
use std::test::Fail;

/// Whether the value is read back, and the byte after it is left.
fn is_read_back(alloc: Global, pair: &Pair<'_>, value: Value<'_>, after: u8) -> bool {
    let mut to = ListSink::new(alloc);
    let Ok(count) = pair.write(&mut to, &[value]) else {
        return false;
    };
    if to.write(&[after]).is_err() {
        return false;
    }
    let mut from = Lookahead::<SliceSource<'_>, 64>::new(SliceSource::new(to.bytes()));
    match read_back(alloc, &mut from, pair, LIMIT) {
        Ok(scanned) => has_read(&scanned, &[value], count as usize)
            && from.held() == [after].as_slice(),
        Err(_) => false,
    }
}

/// The byte after which one of the values isn't read back.
pub(crate) fn first_fault(
    alloc: Global,
    pair: &Pair<'_>,
    least: Value<'_>,
    greatest: Value<'_>,
) -> Option<u8> {
    for after in 0..=255u8 {
        if !is_read_back(alloc, pair, least, after) || !is_read_back(alloc, pair, greatest, after) {
            return Some(after);
        }
    }
    None
}

#[test]
fn values_go_there_and_back(rt: HostRuntime) -> Result<(), Fail> {
    let alloc = rt.alloc();
    for &(print, scan, least, greatest) in bounds() {
        let fault = found_of(alloc, Profile::One, print, scan, |pair| {
            first_fault(alloc, pair, least, greatest)
        })?;
        is(&fault, &None, &print)?;
    }
    Ok(())
}
