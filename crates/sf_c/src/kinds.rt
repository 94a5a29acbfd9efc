//! The kinds of a format's slots.
ghost use Rattle.std.specs.Prelude.{◌≡◌, ◌⊎◌, ◌≤◌, ◌<◌, ◌↔◌, ◌++◌, ℤ, pos, length, take, drop, None, true, false};
ghost use Rattle.sf_format.specs.Proper.{kind_at};
ghost use Rattle.sf_format.specs.Slots.{kind_with};
ghost use Rattle.sf_format.specs.Units.{values_of};
ghost use Rattle.sf_c.specs.Formats.{IsKindsOf, IsNoPrintFormat, IsNoScanFormat, IsPrintKindsOf, kinds_to};
ghost use Rattle.sf_c.specs.Numbers.{profile_of};

use crate::codes::{NO_ROOM, OK, slot_number};
use crate::formats::{Refusal, print_format_of, scan_format_of};
use sf_format::{PrintFormat, ScanFormat};
use std::alloc::Global;

/// How many slots a format has, or why it is none.
#[repr(C)]
#[derive(Clone, Copy, Debug, PartialEq, Eq)]
pub struct SfKinds {
    /// The byte of the format at which its fault was found.
    pub fault_at: u16,
    /// The number of the format's fault, as the 8 of F8; 0 for none.
    pub fault: u8,
    /// How many slots it has.
    pub slots: u8,
}

/// What stands there before a call.
pub(crate) const fn no_kinds() -> SfKinds
    ensures { result ≡ record { fault_at = 0; fault = 0; slots = 0 } }
{
    SfKinds {
        fault_at: 0,
        fault: 0,
        slots: 0,
    }
}

/// Says why there is no format.
fn refuse(refusal: Refusal, found: &mut SfKinds) -> i32
    ensures code { result ≡ refusal.code }
    ensures fault { found.new.fault ≡ refusal.fault }
    ensures place { found.new.fault_at ≡ refusal.at }
{
    found.fault = refusal.fault;
    found.fault_at = refusal.at;
    refusal.code
}

/// Writes the kinds of a scan format's slots.
pub(crate) fn put_scan_kinds(format: &ScanFormat, slots: u8, kinds: &mut [u8])
    requires { slots ≤ length kinds.old }
    ensures front { take slots kinds.new ≡ kinds_to slots (λ slot. kind_at slot format.now) }
    ensures rest { drop slots kinds.new ≡ drop slots kinds.old }
{
    for index in 0..slots {
        kinds[index as usize] = slot_number(format.kind(index + 1));
    }
}

/// Writes the kinds of a print format's values.
fn put_print_kinds(format: &PrintFormat, slots: u8, kinds: &mut [u8])
    requires { slots ≤ length kinds.old }
    ensures front { take slots kinds.new ≡ kinds_to slots (λ slot. kind_with slot (values_of format.now)) }
    ensures rest { drop slots kinds.new ≡ drop slots kinds.old }
{
    for index in 0..slots {
        kinds[index as usize] = slot_number(format.kind(index + 1));
    }
}

/// As `sf_c_kinds`, of a scan format.
fn scan_kinds(
    alloc: Global,
    profile: u8,
    format: &[u8],
    kinds: &mut [u8],
    found: &mut SfKinds,
) -> i32
    ensures kinds { result ≡ pos 0 → IsKindsOf profile format.now found.new.slots kinds.new }
    ensures refused { result ≡ pos 1 → IsNoScanFormat profile format.now found.new.fault found.new.fault_at }
    ensures untouched { (result ≡ pos 0 → ⊥) → kinds.new ≡ kinds.old }
    ensures rest { drop found.new.slots kinds.new ≡ drop found.new.slots kinds.old }
    ensures no_room { result ≡ pos 4 → length kinds.old < found.new.slots }
    ensures profile { result ≡ pos 9 ↔ (profile_of profile ≡ None) }
{
    let parsed = match scan_format_of(alloc, profile, format) {
        Ok(parsed) => parsed,
        Err(refusal) => return refuse(refusal, found),
    };
    let slots = parsed.destinations();
    found.slots = slots;
    if kinds.len() < slots as usize {
        return NO_ROOM;
    }
    put_scan_kinds(&parsed, slots, kinds);
    OK
}

/// As `sf_c_kinds`, of a print format.
fn print_kinds(
    alloc: Global,
    profile: u8,
    format: &[u8],
    kinds: &mut [u8],
    found: &mut SfKinds,
) -> i32
    ensures kinds { result ≡ pos 0 → IsPrintKindsOf profile format.now found.new.slots kinds.new }
    ensures refused { result ≡ pos 1 → IsNoPrintFormat profile format.now found.new.fault found.new.fault_at }
    ensures untouched { (result ≡ pos 0 → ⊥) → kinds.new ≡ kinds.old }
    ensures rest { drop found.new.slots kinds.new ≡ drop found.new.slots kinds.old }
    ensures no_room { result ≡ pos 4 → length kinds.old < found.new.slots }
    ensures profile { result ≡ pos 9 ↔ (profile_of profile ≡ None) }
{
    let parsed = match print_format_of(alloc, profile, format) {
        Ok(parsed) => parsed,
        Err(refusal) => return refuse(refusal, found),
    };
    let slots = parsed.values();
    found.slots = slots;
    if kinds.len() < slots as usize {
        return NO_ROOM;
    }
    put_print_kinds(&parsed, slots, kinds);
    OK
}

/// As `sf_c_kinds`.
pub(crate) fn put_kinds(
    alloc: Global,
    profile: u8,
    print: bool,
    format: &[u8],
    kinds: &mut [u8],
    found: &mut SfKinds,
) -> i32
    ensures scan { print ≡ false → result ≡ pos 0 → IsKindsOf profile format.now found.new.slots kinds.new }
    ensures print { print ≡ true → result ≡ pos 0 → IsPrintKindsOf profile format.now found.new.slots kinds.new }
    ensures no_scan { print ≡ false → result ≡ pos 1
        → IsNoScanFormat profile format.now found.new.fault found.new.fault_at }
    ensures no_print { print ≡ true → result ≡ pos 1
        → IsNoPrintFormat profile format.now found.new.fault found.new.fault_at }
    ensures untouched { (result ≡ pos 0 → ⊥) → kinds.new ≡ kinds.old }
    ensures rest { drop found.new.slots kinds.new ≡ drop found.new.slots kinds.old }
    ensures no_room { result ≡ pos 4 → length kinds.old < found.new.slots }
    ensures profile { result ≡ pos 9 ↔ (profile_of profile ≡ None) }
{
    *found = no_kinds();
    if print {
        print_kinds(alloc, profile, format, kinds, found)
    } else {
        scan_kinds(alloc, profile, format, kinds, found)
    }
}
