//! A teller that reports nothing, and what formats have.
ghost use Rattle.std.specs.Prelude.{◌≡◌, ◌<◌, ◌^◌, [], false, length, Some, refl};
ghost use Rattle.std.specs.List.{AllByRecursion};
ghost use Rattle.sf_format.specs.Proper.{IsAccepted};
ghost use Rattle.sf_records_tests.specs.Silence.{no_note};

use sf_format::ScanFormat;
use sf_print::Sink;
use sf_records::{LineFault, Teller};
use std::alloc::AllocError;

/// Reports nothing.
#[derive(Clone, Copy)]
pub struct Silent;

impl<K: Sink> Teller<K> for Silent {
    ghost says = { λ silent telling. telling ≡ no_note };

    ghost some = { λ silent. ∣ (no_note, refl) ∣₁ };

    ghost told = { λ silent. Some [] };

    ghost failed = { λ silent. false };

    ghost faults = { λ silent. 0 };

    ghost kept = { λ silent. tt };

    fn tell(
        &mut self,
        _to: &mut K,
        _number: u64,
        _line: &[u8],
        _fault: LineFault,
    ) -> Result<(), AllocError> {
        Ok(())
    }
}

/// Each format is an accepted one, and there are as many as a length can say.
pub fn see_formats(formats: &[ScanFormat]) -> usize
    ensures accepted { AllByRecursion IsAccepted formats.now }
    ensures count { result ≡ length formats.now }
    ensures few { length formats.now < 2 ^ 64 }
{
    for format in formats {
        let _destinations = format.destinations();
    }
    formats.len()
}
