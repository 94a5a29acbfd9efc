//! Formats as C hands them over.
ghost use Rattle.std.specs.Prelude.{◌≡◌, ◌⊎◌, pos, None, IfErr, IfOk};
ghost use Rattle.sf_c.specs.Formats.{IsNoPrintFormat, IsNoScanFormat, IsPrintFormat, IsScanFormat};
ghost use Rattle.sf_c.specs.Numbers.{format_number, profile_of};

use crate::codes::{BAD_FORMAT, BAD_PROFILE, NO_MEMORY, format_number, profile_of};
use sf_format::{FormatFault, FormatWhy, PrintFormat, ScanFormat};
use std::alloc::Global;

/// Why there is no format: the answer, and the number and the place of its fault, where it has one.
#[derive(Clone, Copy, Debug, PartialEq, Eq)]
pub(crate) struct Refusal {
    pub(crate) code: i32,
    pub(crate) fault: u8,
    pub(crate) at: u16,
}

/// The answer where there is no such profile.
fn no_profile() -> Refusal
    ensures { result.code ≡ pos 9 }
{
    Refusal {
        code: BAD_PROFILE,
        fault: 0,
        at: 0,
    }
}

/// The answer to a fault.
fn refusal_of(found: FormatFault) -> Refusal
    ensures code { (result.code ≡ pos 1) ⊎ (result.code ≡ pos 3) }
    ensures fault { result.fault ≡ format_number found.why }
    ensures place { result.at ≡ found.at }
    ensures memory { result.code ≡ pos 3 → found.why ≡ FormatWhy.NoMemory }
{
    Refusal {
        code: if found.why == FormatWhy::NoMemory {
            NO_MEMORY
        } else {
            BAD_FORMAT
        },
        fault: format_number(found.why),
        at: found.at,
    }
}

/// The scan format that the bytes spell.
pub(crate) fn scan_format_of(
    alloc: Global,
    profile: u8,
    format: &[u8],
) -> Result<ScanFormat, Refusal>
    ensures format { IfOk result (λ f. IsScanFormat profile format.now f) }
    ensures fault { IfErr result (λ r. r.code ≡ pos 1 → IsNoScanFormat profile format.now r.fault r.at) }
    ensures no_profile { IfErr result (λ r. r.code ≡ pos 9 → profile_of profile ≡ None) }
    ensures profile { profile_of profile ≡ None → IfErr result (λ r. r.code ≡ pos 9) }
    ensures codes { IfErr result (λ r. (r.code ≡ pos 1) ⊎ ((r.code ≡ pos 3) ⊎ (r.code ≡ pos 9))) }
{
    let Some(profile) = profile_of(profile) else {
        return Err(no_profile());
    };
    match ScanFormat::parse(alloc, profile, format) {
        Ok(parsed) => Ok(parsed),
        Err(found) => Err(refusal_of(found)),
    }
}

/// The print format that the bytes spell.
pub(crate) fn print_format_of(
    alloc: Global,
    profile: u8,
    format: &[u8],
) -> Result<PrintFormat, Refusal>
    ensures format { IfOk result (λ f. IsPrintFormat profile format.now f) }
    ensures fault { IfErr result (λ r. r.code ≡ pos 1 → IsNoPrintFormat profile format.now r.fault r.at) }
    ensures no_profile { IfErr result (λ r. r.code ≡ pos 9 → profile_of profile ≡ None) }
    ensures profile { profile_of profile ≡ None → IfErr result (λ r. r.code ≡ pos 9) }
    ensures codes { IfErr result (λ r. (r.code ≡ pos 1) ⊎ ((r.code ≡ pos 3) ⊎ (r.code ≡ pos 9))) }
{
    let Some(profile) = profile_of(profile) else {
        return Err(no_profile());
    };
    match PrintFormat::parse(alloc, profile, format) {
        Ok(parsed) => Ok(parsed),
        Err(found) => Err(refusal_of(found)),
    }
}
