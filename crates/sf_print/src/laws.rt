//! Laws of the definitions that the contracts cite.
//! None of these functions does anything: its contract is the law.
ghost use Rattle.sf_print.specs.Laws.{LowestIsTold};

pub use crate::digits::laws::{are_numerals, only_numeral};

/// The fault that is reported is that of the lowest slot at fault, and none only where there is none.
pub fn lowest_is_told()
    ensures { LowestIsTold }
{}
