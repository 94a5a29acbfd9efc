//! The values of a record.
ghost use Rattle.std.specs.Prelude.{◌≡◌, ◌≤◌, length, map, take};
ghost use Rattle.sf_base.specs.Data.{datum_of, datum_of_shown};
ghost use Rattle.sf_forms.specs.makers.Row.{row_of};

use arrayvec::ArrayVec;
use sf_base::{Shown, Store, Value};
use sf_report::Report;

/// The most values that a record has.
pub const MOST_VALUES: usize = 32;

/// As many as the records of most formats have: a list of so many places is made at less cost.
pub const FEW_VALUES: usize = 4;

/// The values of a record, slot by slot.
pub fn row<'r, T: Store, const MOST: usize>(
    report: &Report<'r, T>,
    destinations: u8,
) -> ArrayVec<Value<'r>, MOST>
    requires { destinations ≤ MOST }
    ensures { map datum_of result.items ≡ row_of destinations report.now.values }
{
    let mut values = ArrayVec::new();
    for before in 0..destinations {
        match report.shown(before + 1) {
            Some(shown) => values.push(shown.value()),
            None => {}
        }
    }
    values
}

/// Lays down the values of a record, slot by slot, without the Rust types that hold them, and answers how many there
/// are. There is a place for each destination.
#[inline(always)]
pub fn shown_row<'r, T: Store>(
    report: &Report<'r, T>,
    destinations: u8,
    places: &mut [Shown<'r>],
) -> usize
    requires { destinations ≤ length places.old }
    ensures within { result ≤ length places.new }
    ensures row { map datum_of_shown (take result places.new) ≡ row_of destinations report.now.values }
{
    let mut count = 0;
    for before in 0..destinations {
        match report.shown(before + 1) {
            Some(shown) => {
                places[count] = shown;
                count += 1;
            }
            None => {}
        }
    }
    count
}
