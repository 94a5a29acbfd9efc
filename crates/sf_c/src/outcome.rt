//! What a scan came to.
ghost use Rattle.std.specs.Prelude.{◌≡◌, negsuc};
ghost use Rattle.sf_c.specs.Records.{outcome_too_long};
ghost use Rattle.sf_c.specs.Scans.{outcome_by};

use crate::codes::{met_number, status_number};
use sf_base::Store;
use sf_run::Report;

/// What a scan came to.
#[repr(C)]
#[derive(Clone, Copy, Debug, PartialEq, Eq)]
pub struct SfOutcome {
    /// What fscanf returns.
    pub c_return: i32,
    /// How many bytes were consumed.
    pub used: u32,
    /// The directive that failed, from 1; 0 for none.
    pub at: u16,
    /// How many conversions have completed.
    pub converted: u16,
    /// The byte of the format at which its fault was found.
    pub fault_at: u16,
    /// How many conversions stored an item.
    pub assigned: u8,
    /// 0 done, 1 input failure, 2 matching failure, 3 out of range, 4 too long, 5 out of memory.
    pub status: u8,
    /// 1 where the run met the end of the text; else 0.
    pub met: u8,
    /// The number of the format's fault, as the 8 of F8; 0 for none.
    pub fault: u8,
    /// How many slots the format has.
    pub slots: u8,
}

/// What stands there before a scan.
pub(crate) const fn nothing() -> SfOutcome
    ensures { result ≡ record {
      c_return = negsuc 0;
      used = 0;
      at = 0;
      converted = 0;
      fault_at = 0;
      assigned = 0;
      status = 0;
      met = 0;
      fault = 0;
      slots = 0;
    } }
{
    SfOutcome {
        c_return: -1,
        used: 0,
        at: 0,
        converted: 0,
        fault_at: 0,
        assigned: 0,
        status: 0,
        met: 0,
        fault: 0,
        slots: 0,
    }
}

/// What a report says but for its values, of a format with so many slots.
#[inline(always)]
pub(crate) fn outcome_by<S: Store>(report: &Report<'_, S>, slots: u8) -> SfOutcome
    ensures { result ≡ outcome_by report.now slots }
{
    let outcome = report.outcome();
    SfOutcome {
        c_return: report.c_return(),
        used: outcome.used,
        at: outcome.at,
        converted: outcome.converted,
        fault_at: 0,
        assigned: outcome.assigned,
        status: status_number(outcome.status),
        met: met_number(outcome.met),
        fault: 0,
        slots,
    }
}

/// What is said of a line that is longer than the limit, which is not scanned.
pub(crate) fn outcome_too_long(slots: u8) -> SfOutcome
    ensures { result ≡ outcome_too_long slots }
{
    SfOutcome {
        c_return: 0,
        used: 0,
        at: 0,
        converted: 0,
        fault_at: 0,
        assigned: 0,
        status: 4,
        met: 0,
        fault: 0,
        slots,
    }
}
