//! Scans of one text.
ghost use Rattle.std.specs.Prelude.{◌≡◌, ◌⊎◌, ◌<◌, ◌≤◌, ◌↔◌, pos, length, drop, None};
ghost use Rattle.sf_c.specs.Formats.{IsNoScanFormat};
ghost use Rattle.sf_c.specs.Numbers.{profile_of};
ghost use Rattle.sf_c.specs.Scans.{IsScanned, IsScannedBy, LacksRoom, LacksRoomBy, slots_in};

use crate::codes::{BAD_LIMIT, NO_MEMORY, NO_ROOM, OK};
use crate::formats::{Refusal, scan_format_of};
use crate::outcome::{SfOutcome, nothing, outcome_by};
use crate::rows::{put_row, texts_len};
use crate::values::SfValue;
use sf_format::ScanFormat;
use sf_read::sscan;
use sf_run::StartFault;
use std::alloc::Global;

/// The most bytes of the texts of one run.
pub(crate) const MOST_TEXTS: usize = 0xFFFF_FFFF;

/// Says why there is no format.
pub(crate) fn refuse(refusal: Refusal, outcome: &mut SfOutcome) -> i32
    ensures code { result ≡ refusal.code }
    ensures fault { outcome.new.fault ≡ refusal.fault }
    ensures place { outcome.new.fault_at ≡ refusal.at }
{
    outcome.fault = refusal.fault;
    outcome.fault_at = refusal.at;
    refusal.code
}

/// The answer to a run that could not begin.
pub(crate) fn start_code(fault: StartFault) -> i32
    ensures limit { result ≡ pos 2 ↔ (fault ≡ StartFault.BadLimit) }
    ensures codes { (result ≡ pos 2) ⊎ (result ≡ pos 3) }
{
    match fault {
        StartFault::BadLimit => BAD_LIMIT,
        _ => NO_MEMORY,
    }
}

/// As `sf_c_scan`, by a format that was parsed.
pub(crate) fn scan_by(
    alloc: Global,
    format: &ScanFormat,
    text: &[u8],
    limit: u32,
    values: &mut [SfValue],
    texts: &mut [u8],
    outcome: &mut SfOutcome,
) -> i32
    ensures scanned { result ≡ pos 0 → IsScannedBy format.now text.now limit outcome.new values.new texts.new }
    ensures no_room { result ≡ pos 4 → LacksRoomBy format.now text.now limit outcome.new (length values.old)
        (length texts.old) }
    ensures limit { result ≡ pos 2 ↔ (2147483647 < limit) }
    ensures untouched { (result ≡ pos 0 → ⊥) → (values.new ≡ values.old) × (texts.new ≡ texts.old) }
    ensures rest { drop (slots_in format.now) values.new ≡ drop (slots_in format.now) values.old }
    ensures codes { (result ≡ pos 0) ⊎ ((result ≡ pos 2) ⊎ ((result ≡ pos 3) ⊎ (result ≡ pos 4))) }
{
    let slots = format.destinations();
    let scanned = match sscan(alloc, text, format, limit) {
        Ok(scanned) => scanned,
        Err(fault) => return start_code(fault),
    };
    let report = scanned.report();
    *outcome = outcome_by(&report, slots);
    if values.len() < slots as usize {
        return NO_ROOM;
    }
    match texts_len(&report, slots, texts.len().min(MOST_TEXTS)) {
        None => NO_ROOM,
        Some(_) => {
            put_row(&report, format, values, 0, texts, 0);
            OK
        }
    }
}

/// As `sf_c_scan`.
pub(crate) fn scan_one(
    alloc: Global,
    profile: u8,
    format: &[u8],
    text: &[u8],
    limit: u32,
    values: &mut [SfValue],
    texts: &mut [u8],
    outcome: &mut SfOutcome,
) -> i32
    ensures scanned { result ≡ pos 0
        → IsScanned profile format.now text.now limit outcome.new values.new texts.new }
    ensures no_room { result ≡ pos 4
        → LacksRoom profile format.now text.now limit outcome.new (length values.old) (length texts.old) }
    ensures refused { result ≡ pos 1 → IsNoScanFormat profile format.now outcome.new.fault outcome.new.fault_at }
    ensures limit { result ≡ pos 2 → 2147483647 < limit }
    ensures low { result ≡ pos 0 → limit ≤ 2147483647 }
    ensures profile { result ≡ pos 9 ↔ (profile_of profile ≡ None) }
    ensures untouched { (result ≡ pos 0 → ⊥) → (values.new ≡ values.old) × (texts.new ≡ texts.old) }
{
    *outcome = nothing();
    match scan_format_of(alloc, profile, format) {
        Ok(parsed) => scan_by(alloc, &parsed, text, limit, values, texts, outcome),
        Err(refusal) => refuse(refusal, outcome),
    }
}
