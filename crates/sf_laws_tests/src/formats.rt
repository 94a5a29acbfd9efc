//! Laws of formats.
ghost use Rattle.std.specs.Prelude.{◌≡◌, ◌≤◌, ◌⊎◌, ◌↔◌, ℕ, List, length, true, false, IfSome};
ghost use Rattle.sf_format.specs.declared.directive.Directive.{Directive};
ghost use Rattle.sf_format.specs.declared.fault.FormatWhy.{FormatWhy};
ghost use Rattle.sf_format.specs.declared.fault.FormatWhy.TheVariants as why;
ghost use Rattle.sf_format.specs.Faults.{Fault};
ghost use Rattle.sf_format.specs.Grammar.{ArePlaced, MeanAll, Means, Spells, destinations};
ghost use Rattle.sf_format.specs.Pieces.{Piece, text_of};
ghost use Rattle.sf_format.specs.Profiles.{AreOfTwo, HaveBases, IsNotBin, IsOfOne, in_two};
ghost use Rattle.sf_format.specs.Proper.{AreInOrder, IsAccepted, destinations_of};
ghost use Rattle.sf_format.specs.Strictness.{marked};

use sf_format::laws::{
    either, in_order, marks_make_strict, not_both, one_fault, one_list, profile_three, profiles,
    proper, slots_have_kinds,
};
use sf_format::{FormatFault, PrintFormat, Profile, ScanFormat};
use std::alloc::Global;

/// A text that is parsed twice gives the same format twice.
pub fn parsed_twice(
    alloc: Global,
    profile: Profile,
    text: &[u8],
) -> Option<(ScanFormat, ScanFormat)>
    ensures { IfSome result (λ formats. formats.0 ≡ formats.1) }
{
    one_list();
    let Ok(first) = ScanFormat::parse(alloc, profile, text) else {
        return None;
    };
    let Ok(second) = ScanFormat::parse(alloc, profile, text) else {
        return None;
    };
    Some((first, second))
}

/// The same of a print format.
pub fn print_parsed_twice(
    alloc: Global,
    profile: Profile,
    text: &[u8],
) -> Option<(PrintFormat, PrintFormat)>
    ensures { IfSome result (λ formats. formats.0 ≡ formats.1) }
{
    one_list();
    let Ok(first) = PrintFormat::parse(alloc, profile, text) else {
        return None;
    };
    let Ok(second) = PrintFormat::parse(alloc, profile, text) else {
        return None;
    };
    Some((first, second))
}

/// The format of the text, made strict: its directives are what the parts of the text stand for with a `!` in each that
/// can have one.
pub fn strict_format(alloc: Global, profile: Profile, text: &[u8]) -> Option<ScanFormat>
    ensures { IfSome result (λ format. (pieces : List Piece) × (text.now ≡ text_of pieces)
        × MeanAll (λ opens place piece d. Means profile opens place (marked profile piece) d) false 1 pieces format) }
{
    marks_make_strict();
    let Ok(format) = ScanFormat::parse(alloc, profile, text) else {
        return None;
    };
    Some(format.strict())
}

/// A text that is refused twice is refused twice for the same fault, unless for memory.
pub fn faulted_twice(
    alloc: Global,
    profile: Profile,
    text: &[u8],
) -> Option<(FormatFault, FormatFault)>
    ensures { IfSome result (λ faults. (faults.0.why ≡ why.NoMemory) ⊎ (faults.1.why ≡ why.NoMemory)
        ⊎ (faults.0.at ≡ faults.1.at) × (faults.0.why ≡ faults.1.why)) }
{
    one_fault();
    let Err(first) = ScanFormat::parse(alloc, profile, text) else {
        return None;
    };
    let Err(second) = ScanFormat::parse(alloc, profile, text) else {
        return None;
    };
    Some((first, second))
}

/// A text that was parsed is refused for want of memory alone.
pub fn parsed_and_refused(alloc: Global, profile: Profile, text: &[u8]) -> Option<FormatFault>
    ensures { IfSome result (λ fault. fault.why ≡ why.NoMemory) }
{
    not_both();
    let Ok(_format) = ScanFormat::parse(alloc, profile, text) else {
        return None;
    };
    let Err(fault) = ScanFormat::parse(alloc, profile, text) else {
        return None;
    };
    Some(fault)
}

/// A text is parsed, or has a fault, or memory is refused.
pub fn spelled_or_faulty(profile: Profile, text: &[u8])
    ensures { ((ds : List Directive) × Spells profile text.now ds)
        ⊎ ((at : ℕ) × (why : FormatWhy) × Fault profile text.now at why) }
{
    either();
}

/// What was parsed is proper.
pub fn parsed_again(alloc: Global, profile: Profile, text: &[u8]) -> Option<ScanFormat>
    ensures { IfSome result (λ format. IsAccepted format) }
{
    proper();
    let Ok(format) = ScanFormat::parse(alloc, profile, text) else {
        return None;
    };
    Some(format)
}

/// The slots of what was parsed are in order, where the text has no numbers.
pub fn in_their_order(alloc: Global, profile: Profile, text: &[u8]) -> Option<ScanFormat>
    ensures { IfSome result (λ format. (pieces : List Piece) × (text.now ≡ text_of pieces)
        × (ArePlaced (destinations pieces) → AreInOrder format)) }
{
    in_order();
    let Ok(format) = ScanFormat::parse(alloc, profile, text) else {
        return None;
    };
    Some(format)
}

/// A format has a destination with the slot just where that is between 1 and their count.
pub fn has_slot(format: &ScanFormat, slot: u8) -> bool
    ensures { result ≡ true ↔ ((1 ≤ slot) × (slot ≤ length (destinations_of format.now))) }
{
    slots_have_kinds();
    let _count = format.destinations();
    format.kind(slot).is_some()
}

/// A text that is parsed by both profiles gives the same format, with `AutoBin` for `Auto`.
pub fn both_profiles(alloc: Global, text: &[u8]) -> Option<(ScanFormat, ScanFormat)>
    ensures { IfSome result (λ formats. (formats.1 ≡ in_two formats.0) × HaveBases IsOfOne formats.0) }
{
    one_list();
    profiles();
    let Ok(first) = ScanFormat::parse(alloc, Profile::One, text) else {
        return None;
    };
    let Ok(second) = ScanFormat::parse(alloc, Profile::Two, text) else {
        return None;
    };
    Some((first, second))
}

/// What profile 2 parses without base 2, profile 1 refuses for want of memory alone.
pub fn one_profile(alloc: Global, text: &[u8]) -> Option<(ScanFormat, FormatFault)>
    ensures { IfSome result (λ told. HaveBases IsNotBin told.0 → told.1.why ≡ why.NoMemory) }
{
    profiles();
    let Ok(second) = ScanFormat::parse(alloc, Profile::Two, text) else {
        return None;
    };
    let Err(first) = ScanFormat::parse(alloc, Profile::One, text) else {
        return None;
    };
    Some((second, first))
}

/// A text that is parsed by profiles 2 and 3 gives the same format, without a float and without a `?`.
pub fn third_profile(alloc: Global, text: &[u8]) -> Option<(ScanFormat, ScanFormat)>
    ensures { IfSome result (λ formats. (formats.1 ≡ formats.0) × AreOfTwo formats.0) }
{
    one_list();
    profile_three();
    let Ok(second) = ScanFormat::parse(alloc, Profile::Two, text) else {
        return None;
    };
    let Ok(third) = ScanFormat::parse(alloc, Profile::Three, text) else {
        return None;
    };
    Some((second, third))
}
