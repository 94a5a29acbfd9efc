//! What the laws of pairs say, in one place.
ghost use Rattle.sf_pair_read.specs.Below.{PairLaws};

use sf_pair::laws::{
    aligned_is_accepted, aligned_is_bounded, held_is_bounded, read_within, round_trip, slots_agree,
};

/// It does nothing: its contract is what the laws of pairs say.
pub(crate) fn pair_laws()
    ensures { PairLaws }
{
    aligned_is_accepted();
    aligned_is_bounded();
    held_is_bounded();
    read_within();
    round_trip();
    slots_agree();
}
