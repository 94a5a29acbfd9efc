//! The laws of the crates below, in one place.
ghost use Rattle.sf_pair.specs.conversions.Below.{LawsBelow};

use sf_float_read::item::laws::{plain_floats_parse, tests_are_sequences};
use sf_float_read::value::laws::stored_is_computed;
use sf_format::laws::slots_have_kinds;
use sf_item::laws::fronts_go_on;
use sf_print::laws::{are_numerals, only_numeral};
use sf_report::laws::{bytes_are_tried, one_report, runs_are_computed, steps_are_computed};

/// It does nothing: its contract is their laws.
pub fn laws_below()
    ensures { LawsBelow }
{
    slots_have_kinds();
    are_numerals();
    only_numeral();
    tests_are_sequences();
    plain_floats_parse();
    stored_is_computed();
    fronts_go_on();
    steps_are_computed();
    runs_are_computed();
    one_report();
    bytes_are_tried();
}
