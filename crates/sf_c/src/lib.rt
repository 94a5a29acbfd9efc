//! scanf and printf with typed values over memory that C lends (C11 7.21.6), for c/sf.h and for Python.
//!
//! Everything crosses as numbers, slices and structs of numbers. Nothing is kept after a call, and there is no state:
//! any thread may call, with memory that no other writes. An answer is 0 where the call did what it was asked for; else
//! it is one of the numbers of `codes`.
#![tactic(auto)]

ghost use Rattle.std.specs.Prelude.{◌≡◌, ◌↔◌, ◌<◌, ◌≤◌, pos, length, take, drop, None, true, false};
ghost use Rattle.sf_c.specs.Formats.{IsKindsOf, IsNoPair, IsNoPrintFormat, IsNoScanFormat, IsPair, IsPrintKindsOf};
ghost use Rattle.sf_c.specs.Numbers.{profile_of};
ghost use Rattle.sf_c.specs.Prints.{HasNoValue, IsNotPrinted, IsPrinted};
ghost use Rattle.sf_c.specs.Records.{IsCutShort, IsEnded};
ghost use Rattle.sf_c.specs.Scans.{IsScanned, LacksRoom};
ghost use Rattle.sf_c.specs.Words.{words_for};

mod codes;
mod formats;
mod kinds;
mod lines;
mod outcome;
mod pair;
mod print;
mod records;
mod rows;
mod scan;
mod values;
mod words;

pub use kinds::SfKinds;
use kinds::put_kinds;
pub use outcome::SfOutcome;
pub use pair::SfFault;
use pair::check_pair;
pub use print::SfPrinted;
use print::print_values;
pub use records::SfDone;
use records::scan_many;
use scan::scan_one;
use std::alloc::Global;
pub use values::SfValue;
use words::put_words;

/// Scans a text by a format, as sscanf does (C11 7.21.6.7). What slot 1 was given goes to `values[0]`, and so on; the
/// bytes of the texts go to `texts`, one after the other. They are written wherever there is room for all, also of a
/// run that failed; else nothing is written, and the answer is 4.
#[unsafe(no_mangle)]
pub extern "C" fn sf_c_scan(
    alloc: Global,
    profile: u8,
    format: &[u8],
    text: &[u8],
    limit: u32,
    values: &mut [SfValue],
    texts: &mut [u8],
    outcome: &mut SfOutcome,
) -> i32
    ensures scanned { result ≡ pos 0
        → IsScanned profile format.now text.now limit outcome.new values.new texts.new }
    ensures no_room { result ≡ pos 4
        → LacksRoom profile format.now text.now limit outcome.new (length values.old) (length texts.old) }
    ensures refused { result ≡ pos 1 → IsNoScanFormat profile format.now outcome.new.fault outcome.new.fault_at }
    ensures limit { result ≡ pos 2 → 2147483647 < limit }
    ensures low { result ≡ pos 0 → limit ≤ 2147483647 }
    ensures profile { result ≡ pos 9 ↔ (profile_of profile ≡ None) }
    ensures untouched { (result ≡ pos 0 → ⊥) → (values.new ≡ values.old) × (texts.new ≡ texts.old) }
{
    scan_one(alloc, profile, format, text, limit, values, texts, outcome)
}

/// Scans one record after the other, each of what the one before it left, as a loop around fscanf does; with `lines`
/// each line, as an input of its own. The cells of each stand in `values` after those of the one before. The answer is
/// 0 at the end of the text, or at a run that is no record, whose outcome is then `outcome`; it is 4 where there is no
/// room for a record more. What `done` doesn't count may have been written over.
#[unsafe(no_mangle)]
pub extern "C" fn sf_c_scan_many(
    alloc: Global,
    profile: u8,
    format: &[u8],
    text: &[u8],
    lines: bool,
    limit: u32,
    values: &mut [SfValue],
    texts: &mut [u8],
    outcome: &mut SfOutcome,
    done: &mut SfDone,
) -> i32
    ensures ended { result ≡ pos 0
        → IsEnded profile format.now lines limit text.now outcome.new done.new values.new texts.new }
    ensures full { result ≡ pos 4 → IsCutShort profile format.now lines limit text.now done.new values.new texts.new }
    ensures refused { result ≡ pos 1 → IsNoScanFormat profile format.now outcome.new.fault outcome.new.fault_at }
    ensures limit { result ≡ pos 2 → 2147483647 < limit }
    ensures low { result ≡ pos 0 → limit ≤ 2147483647 }
    ensures profile { result ≡ pos 9 ↔ (profile_of profile ≡ None) }
{
    scan_many(
        alloc, profile, format, text, lines, limit, values, texts, outcome, done,
    )
}

/// Prints values by a format, as snprintf does (C11 7.21.6.5), without a NUL: `len` counts all bytes of the text, and
/// the first ones, as many as `output` has room for, are written there.
#[unsafe(no_mangle)]
pub extern "C" fn sf_c_print(
    alloc: Global,
    profile: u8,
    format: &[u8],
    values: &[SfValue],
    texts: &[u8],
    output: &mut [u8],
    printed: &mut SfPrinted,
) -> i32
    ensures printed { result ≡ pos 0
        → IsPrinted profile format.now values.now texts.now output.new printed.new.len }
    ensures not_printed { result ≡ pos 6
        → IsNotPrinted profile format.now values.now texts.now printed.new.why printed.new.slot }
    ensures refused { result ≡ pos 1 → IsNoPrintFormat profile format.now printed.new.fault printed.new.fault_at }
    ensures no_value { result ≡ pos 5 → HasNoValue profile format.now values.now texts.now }
    ensures untouched { (result ≡ pos 0 → ⊥) → output.new ≡ output.old }
    ensures rest { drop printed.new.len output.new ≡ drop printed.new.len output.old }
    ensures profile { result ≡ pos 9 ↔ (profile_of profile ≡ None) }
{
    print_values(alloc, profile, format, values, texts, output, printed)
}

/// Whether the scan format reads back what the print format prints of values that fit, whatever follows.
#[unsafe(no_mangle)]
pub extern "C" fn sf_c_check(
    alloc: Global,
    profile: u8,
    print: &[u8],
    scan: &[u8],
    fault: &mut SfFault,
) -> i32
    ensures pair { result ≡ pos 0 → IsPair profile print.now scan.now }
    ensures no_pair { result ≡ pos 8 → IsNoPair profile print.now scan.now fault.new.number fault.new.at }
    ensures no_print { result ≡ pos 1 → IsNoPrintFormat profile print.now fault.new.number fault.new.at }
    ensures no_scan { result ≡ pos 7 → IsNoScanFormat profile scan.now fault.new.number fault.new.at }
    ensures profile { result ≡ pos 9 ↔ (profile_of profile ≡ None) }
{
    check_pair(alloc, profile, print, scan, fault)
}

/// The kinds of a format's slots, a byte each: of a scan format, or with `print` of a print format.
#[unsafe(no_mangle)]
pub extern "C" fn sf_c_kinds(
    alloc: Global,
    profile: u8,
    print: bool,
    format: &[u8],
    kinds: &mut [u8],
    found: &mut SfKinds,
) -> i32
    ensures scan { print ≡ false → result ≡ pos 0 → IsKindsOf profile format.now found.new.slots kinds.new }
    ensures print { print ≡ true → result ≡ pos 0 → IsPrintKindsOf profile format.now found.new.slots kinds.new }
    ensures no_scan { print ≡ false → result ≡ pos 1
        → IsNoScanFormat profile format.now found.new.fault found.new.fault_at }
    ensures no_print { print ≡ true → result ≡ pos 1
        → IsNoPrintFormat profile format.now found.new.fault found.new.fault_at }
    ensures untouched { (result ≡ pos 0 → ⊥) → kinds.new ≡ kinds.old }
    ensures rest { drop found.new.slots kinds.new ≡ drop found.new.slots kinds.old }
    ensures no_room { result ≡ pos 4 → length kinds.old < found.new.slots }
    ensures profile { result ≡ pos 9 ↔ (profile_of profile ≡ None) }
{
    put_kinds(alloc, profile, print, format, kinds, found)
}

/// The words for the status with this number, as `matching failure`: how many bytes they have, of which the first ones,
/// as many as `output` has room for, are written there. None for a number that no status has.
#[unsafe(no_mangle)]
pub extern "C" fn sf_c_words(number: u8, output: &mut [u8]) -> usize
    ensures len { result ≡ length (words_for number) }
    ensures front { take (length (words_for number)) output.new ≡ take (length output.old) (words_for number) }
    ensures rest { drop (length (words_for number)) output.new ≡ drop (length (words_for number)) output.old }
{
    put_words(number, output)
}
