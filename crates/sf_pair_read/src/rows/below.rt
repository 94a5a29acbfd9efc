//! What the laws of pairs say, in one place.
ghost use Rattle.sf_pair_read.specs.Below.{PairLaws};
ghost use Rattle.sf_pair.specs.Fits.{FitsIsFit};
ghost use Rattle.sf_pair.specs.Laws.{AlignedEndsOnNothing};
ghost use Rattle.sf_report.specs.Laws.{EachHasOneReport};

use sf_pair::laws::{
    aligned_is_accepted, aligned_is_bounded, ends_on_nothing, fits_is_fit, held_is_bounded,
    read_within, round_trip, slots_agree,
};
use sf_report::laws::one_report;

/// It does nothing: its contract is what the laws of pairs say.
pub(crate) fn pair_laws()
    ensures laws { PairLaws }
    ensures nothing { AlignedEndsOnNothing }
    ensures one { EachHasOneReport }
    ensures fits { FitsIsFit }
{
    aligned_is_accepted();
    aligned_is_bounded();
    ends_on_nothing();
    fits_is_fit();
    held_is_bounded();
    one_report();
    read_within();
    round_trip();
    slots_agree();
}
