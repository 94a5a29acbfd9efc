//! Pairs of formats.
ghost use Rattle.std.specs.Prelude.{◌≡◌, ◌↔◌, pos, None};
ghost use Rattle.sf_c.specs.Formats.{IsNoPair, IsNoPrintFormat, IsNoScanFormat, IsPair};
ghost use Rattle.sf_c.specs.Numbers.{profile_of};

use crate::codes::{BAD_FORMAT, BAD_SCAN_FORMAT, NO_PAIR, OK, pair_number};
use crate::formats::{Refusal, print_format_of, scan_format_of};
use sf_pair::Pair;
use std::alloc::Global;

/// What is wrong with a format, or with a pair.
#[repr(C)]
#[derive(Clone, Copy, Debug, PartialEq, Eq)]
pub struct SfFault {
    /// The byte of the format at which it was found, from 0; of a pair the directive of the scan format, from 1.
    pub at: u16,
    /// Its number, as the 8 of F8 or the 6 of Q6; 0 for none.
    pub number: u8,
}

/// What stands there before a call.
pub(crate) const fn no_fault() -> SfFault
    ensures { result ≡ record { at = 0; number = 0 } }
{
    SfFault { at: 0, number: 0 }
}

/// Says why there is no format.
fn refuse(refusal: Refusal, fault: &mut SfFault) -> i32
    ensures code { result ≡ refusal.code }
    ensures fault { fault.new.number ≡ refusal.fault }
    ensures place { fault.new.at ≡ refusal.at }
{
    *fault = SfFault {
        at: refusal.at,
        number: refusal.fault,
    };
    refusal.code
}

/// Says why there is no scan format, which has an answer of its own.
fn refuse_scan(refusal: Refusal, fault: &mut SfFault) -> i32
    ensures other { (refusal.code ≡ pos 1 → ⊥) → result ≡ refusal.code }
    ensures code { refusal.code ≡ pos 1 → result ≡ pos 7 }
    ensures fault { fault.new.number ≡ refusal.fault }
    ensures place { fault.new.at ≡ refusal.at }
{
    if refuse(refusal, fault) == BAD_FORMAT {
        return BAD_SCAN_FORMAT;
    }
    refusal.code
}

/// As `sf_c_check`.
pub(crate) fn check_pair(
    alloc: Global,
    profile: u8,
    print: &[u8],
    scan: &[u8],
    fault: &mut SfFault,
) -> i32
    ensures pair { result ≡ pos 0 → IsPair profile print.now scan.now }
    ensures no_pair { result ≡ pos 8 → IsNoPair profile print.now scan.now fault.new.number fault.new.at }
    ensures no_print { result ≡ pos 1 → IsNoPrintFormat profile print.now fault.new.number fault.new.at }
    ensures no_scan { result ≡ pos 7 → IsNoScanFormat profile scan.now fault.new.number fault.new.at }
    ensures profile { result ≡ pos 9 ↔ (profile_of profile ≡ None) }
{
    *fault = no_fault();
    let print = match print_format_of(alloc, profile, print) {
        Ok(parsed) => parsed,
        Err(refusal) => return refuse(refusal, fault),
    };
    let scan = match scan_format_of(alloc, profile, scan) {
        Ok(parsed) => parsed,
        Err(refusal) => return refuse_scan(refusal, fault),
    };
    match Pair::check(&print, &scan) {
        Ok(_) => OK,
        Err(found) => {
            *fault = SfFault {
                at: found.at,
                number: pair_number(found.why),
            };
            NO_PAIR
        }
    }
}
