//! What a run has counted so far.
ghost use Rattle.std.specs.Prelude.{◌≡◌, ◌+◌, ◌-◌, ◌<◌, ◌≤◌, ◌^◌, List, if◌then◌else◌, true};
ghost use Rattle.sf_base.specs.Data.{Assigned};
ghost use Rattle.sf_format.specs.Layout.{takes_item};
ghost use Rattle.sf_report.specs.Residual.{counted};
ghost use Rattle.sf_report.specs.Runs.{has_stored, is_conversion};
ghost use Rattle.sf_report.specs.Steps.{StepEnd};
ghost use Rattle.sf_run.specs.Tallies.{tally_of, values_with, PassesSo};

use sf_format::{Directive, Shape};

/// The bytes that were used, and what the directives that have passed count.
#[derive(Clone, Copy)]
pub(crate) struct Tally {
    pub(crate) used: u32,
    pub(crate) assigned: u8,
    pub(crate) converted: u16,
}

/// Whether the directive counts as a conversion: `%%` and `%n` don't.
#[inline(always)]
pub(crate) fn is_conversion(directive: &Directive) -> bool
    ensures is { result ≡ is_conversion directive.now }
    ensures item { result ≡ takes_item directive.now }
{
    match directive {
        Directive::Conv(conversion) => !matches!(conversion.shape, Shape::Count),
        _ => false,
    }
}

impl Tally {
    /// Nothing was used or counted yet.
    pub(crate) fn new() -> Self
        ensures used { result.used ≡ 0 }
        ensures assigned { result.assigned ≡ 0 }
        ensures converted { result.converted ≡ 0 }
    {
        Tally {
            used: 0,
            assigned: 0,
            converted: 0,
        }
    }

    /// With a directive that has passed, and stored something or not.
    pub(crate) fn counted(self, directive: &Directive, stores: bool) -> Tally
        requires assigned { stores ≡ true → self.assigned < 2 ^ 8 - 1 }
        requires converted { self.converted < 2 ^ 16 - 1 }
        ensures tally { (end : StepEnd) (values : List Assigned) → PassesSo end stores
            → tally_of result (values_with end values) ≡ counted directive.now end (tally_of self values) }
        ensures used { result.used ≡ self.used }
        ensures assigned { result.assigned ≤ self.assigned + (if stores then 1 else 0) }
        ensures converted { result.converted ≤ self.converted + 1 }
    {
        if !is_conversion(directive) {
            return self;
        }
        Tally {
            used: self.used,
            assigned: if stores {
                self.assigned + 1
            } else {
                self.assigned
            },
            converted: self.converted + 1,
        }
    }
}
