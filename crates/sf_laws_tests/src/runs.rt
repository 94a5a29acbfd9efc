//! Laws of runs.
ghost use Rattle.std.specs.Prelude.{◌≡◌, ◌≤◌, ◌++◌, ◌∷◌, ℕ, List, [], length, Some, None, IfSome, IsSome, false};
ghost use Rattle.sf_format.specs.declared.directive.Directive.{Directive};
ghost use Rattle.sf_format.specs.Widths.{width_sum};
ghost use Rattle.sf_report.specs.Computed.{part_of, ran_of, step_of};
ghost use Rattle.sf_report.specs.Examples.{fourth_format, number, report};
ghost use Rattle.sf_report.specs.Limits.{RunWithin};
ghost use Rattle.sf_report.specs.Machine.{Skipping};
ghost use Rattle.sf_report.specs.Residual.{nothing_yet, one_from, run_of};
ghost use Rattle.sf_format.specs.Proper.{has_optional};
ghost use Rattle.sf_report.specs.Rows.{FillsSlots, HasRow};
ghost use Rattle.sf_report.specs.Runs.{IsOpen, report_of, values_stored};
ghost use Rattle.sf_run.specs.outcome.Ending.TheVariants.{End};
ghost use Rattle.sf_run.specs.outcome.Status.TheVariants.{Done, InputFailure};

use sf_base::{FixedStore, HeapStore};
use sf_format::ScanFormat;
use sf_read::sscan;
use sf_report::laws::{
    closed_inputs_stay, done_runs_have_rows, one_report, open_inputs_are_used, runs_are_computed,
    steps_are_computed, worked_examples,
};
use sf_report::{Ending, Scanned};
use sf_run::Scanner;
use sf_run::laws::stores_report_alike;
use std::alloc::Global;

/// The limit of these runs.
const LIMIT: u32 = 1000;

/// A text that is scanned twice has the same report twice.
pub fn scanned_twice(
    alloc: Global,
    format: &ScanFormat,
    text: &[u8],
) -> Option<(Scanned<HeapStore>, Scanned<HeapStore>)>
    ensures { IsSome (width_sum format.now) → IfSome result (λ both. both.0.report ≡ both.1.report) }
{
    one_report();
    let _directives = format.directives();
    let Ok(first) = sscan(alloc, text, format, LIMIT) else {
        return None;
    };
    let Ok(second) = sscan(alloc, text, format, LIMIT) else {
        return None;
    };
    Some((first, second))
}

/// What is told of a text after which no byte would be consumed is told of every longer one.
pub fn on_longer_inputs(
    alloc: Global,
    format: &ScanFormat,
    text: &[u8],
) -> Option<Scanned<HeapStore>>
    ensures { IsSome (width_sum format.now) → (IsOpen format.now text.now → ⊥) → (z : List ℕ) (ending : Ending)
        → IfSome result (λ s. RunWithin format.now 1000 (text.now ++ z) ending s.report) }
{
    closed_inputs_stay();
    let _directives = format.directives();
    let Ok(scanned) = sscan(alloc, text, format, LIMIT) else {
        return None;
    };
    Some(scanned)
}

/// A text after which some byte would be consumed is used, where the limit lets it be.
pub fn open_is_used(alloc: Global, format: &ScanFormat, text: &[u8]) -> Option<Scanned<HeapStore>>
    ensures { IsSome (width_sum format.now) → IsOpen format.now text.now
        → IfSome result (λ s. s.report.status ≡ Done → s.report.used ≡ length text.now) }
{
    open_inputs_are_used();
    let _directives = format.directives();
    let Ok(scanned) = sscan(alloc, text, format, LIMIT) else {
        return None;
    };
    Some(scanned)
}

/// A Done report has given each slot something, or it may be missing; where none may be, it has a row.
pub fn has_row(alloc: Global, format: &ScanFormat, text: &[u8]) -> Option<Scanned<HeapStore>>
    ensures slots { IfSome result (λ s. s.report.status ≡ Done → FillsSlots format.now s.report.values) }
    ensures row { has_optional format.now ≡ false → IfSome result
        (λ s. s.report.status ≡ Done → HasRow format.now s.report.values) }
{
    done_runs_have_rows();
    let _directives = format.directives();
    let Ok(scanned) = sscan(alloc, text, format, LIMIT) else {
        return None;
    };
    Some(scanned)
}

/// A Done report is that of the steps that are computed, and that of the running totals.
pub fn computed(alloc: Global, format: &ScanFormat, text: &[u8]) -> Option<Scanned<HeapStore>>
    ensures values { IsSome (width_sum format.now) → IfSome result
        (λ s. s.report.status ≡ Done → s.report.values ≡ values_stored (ran_of format.now text.now 0)) }
    ensures told { run_of None format.now 1 nothing_yet text.now ≡ report_of (ran_of format.now text.now 0) None }
    ensures step { (d : Directive) → format.now ≡ d ∷ []
        → one_from d Skipping 0 text.now ≡ part_of 0 text.now (step_of d text.now 0) }
    ensures within { (d : Directive) → format.now ≡ d ∷ [] → (step_of d text.now 0).0 ≤ length text.now }
{
    steps_are_computed();
    runs_are_computed();
    let _directives = format.directives();
    let Ok(scanned) = sscan(alloc, text, format, LIMIT) else {
        return None;
    };
    Some(scanned)
}

/// A text that is fed to two scanners, one over a store that grows and one over a store of fixed capacity, has one
/// report. None where memory was refused, or the format asks for more than the fixed store has.
pub fn over_two_stores(
    alloc: Global,
    format: &ScanFormat,
    text: &[u8],
) -> Option<(Scanned<HeapStore>, Scanned<FixedStore<64, 8>>)>
    ensures { IfSome result (λ both. both.0.report ≡ both.1.report) }
{
    stores_report_alike();
    let _directives = format.directives();
    let Some(_sum) = format.width_sum() else {
        return None;
    };
    let Ok(mut growing) = Scanner::new(alloc, format, LIMIT) else {
        return None;
    };
    let Ok(mut fixed) = Scanner::<FixedStore<64, 8>>::fixed(format, LIMIT) else {
        return None;
    };
    growing.feed(text);
    growing.end(Ending::End);
    fixed.feed(text);
    fixed.end(Ending::End);
    let Ok(first) = growing.into_scanned() else {
        return None;
    };
    let Ok(second) = fixed.into_scanned() else {
        return None;
    };
    Some((first, second))
}

/// C11's EXAMPLE 4: of `123` a format that is `%d%n%n%d` stores 123, 3 and 3, and then meets the end.
pub fn fourth_example(alloc: Global, format: &ScanFormat) -> Option<Scanned<HeapStore>>
    ensures { format.now ≡ fourth_format → IfSome result (λ s. s.report
        ≡ report InputFailure 4 1 1 3 (Some End) (number 1 123 ∷ number 2 3 ∷ number 3 3 ∷ [])) }
{
    worked_examples();
    let Ok(scanned) = sscan(alloc, b"123", format, 2147483647) else {
        return None;
    };
    Some(scanned)
}
