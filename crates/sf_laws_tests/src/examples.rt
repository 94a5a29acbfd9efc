//! Worked examples by the paragraphs of C11 7.21.6.2: a format's text, an input, and what public calls make of them.
ghost use Rattle.std.specs.Prelude.{◌≡◌, ◌⊎◌, IfSome};
ghost use Rattle.std.specs.List.{AllByRecursion};
ghost use Rattle.sf_run.specs.outcome.Status.TheVariants.{NoMemory};
ghost use Rattle.sf_laws_tests.specs.Examples.{AreTold, Example, IsTold, examples};

use sf_base::HeapStore;
use sf_format::laws::{one_list, proper};
use sf_format::{Profile, ScanFormat};
use sf_read::sscan;
use sf_report::Scanned;
use std::alloc::Global;

/// Of each example the format's text spells directives that give the report of the example, and no other.
pub fn examples_are_told()
    ensures { AllByRecursion AreTold examples }
{
    proper();
}

/// By the text of an example's format, `sscan` gives of its input the report of the example, unless memory is refused.
pub fn example(
    alloc: Global,
    profile: Profile,
    format: &[u8],
    input: &[u8],
) -> Option<Scanned<HeapStore>>
    ensures { (e : Example) → IsTold e → profile ≡ e.profile → format.now ≡ e.format → input.now ≡ e.input
        → IfSome result (λ s. (s.report ≡ e.told) ⊎ (s.report.status ≡ NoMemory)) }
{
    one_list();
    let Ok(parsed) = ScanFormat::parse(alloc, profile, format) else {
        return None;
    };
    let Ok(scanned) = sscan(alloc, input, &parsed, 2147483647) else {
        return None;
    };
    Some(scanned)
}
