//! Rules of formats, as tables.
ghost use Rattle.std.specs.Prelude.{◌≡◌, map};
ghost use Rattle.sf_format.specs.Rules.{first_of};
ghost use Rattle.sf_format.specs.Passing.{fault_in, row_of};

use crate::fault::{FormatFault, FormatWhy};
use sf_base::{Rule, first_fault};

/// A rule of a format: why a format that breaks it is refused, at which place, and whether this one breaks it.
pub fn rule(why: FormatWhy, at: u16, applies: bool) -> Rule<FormatFault>
    ensures { result ≡ record { why = record { at = at; why = why }; applies = applies } }
{
    Rule {
        why: FormatFault { at, why },
        applies,
    }
}

/// The fault by the first rule of the table that applies.
pub fn fault_by(rules: &[Rule<FormatFault>]) -> Option<FormatFault>
    ensures { fault_in result ≡ first_of (map row_of rules.now) }
{
    first_fault(rules)
}
