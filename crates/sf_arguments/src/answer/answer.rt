//! The scan format that reads back what a print format prints, or why there is none.
ghost use Rattle.std.specs.Prelude.{◌≡◌, ◌++◌, not, IfOk, IsErrOf, OnOk, drop};
ghost use Rattle.sf_format.specs.declared.fault.FormatFault.{FormatFault};
ghost use Rattle.sf_pair.specs.declared.fault.PairFault.{PairFault};
ghost use Rattle.sf_arguments.specs.answer.Parts.{in_order, AreParts, IsFirstPart, IsPart, IsScanText};
ghost use Rattle.sf_arguments.specs.answer.Answers.{IsNoFormat, IsUnpaired, ReadsBack};

use crate::answer::parts::{are_in_order, push_part};
use sf_format::{FormatFault, FormatWhy, PrintFormat, Profile, ScanFormat, Unit};
use sf_pair::{Pair, PairFault};
use std::alloc::{AllocError, Global};

/// Why no scan format is answered.
#[derive(Clone, Copy, Debug, PartialEq, Eq, thiserror::Error)]
pub enum NoScanText {
    /// With the text that is due the print format is no pair.
    #[error(transparent)]
    Unpaired(PairFault),
    /// The text that is due is no scan format: it has more than 4096 bytes, say.
    #[error(transparent)]
    NoFormat(FormatFault),
    /// Memory was refused.
    #[error("out of memory")]
    NoMemory,
}

/// The parts that read the units, one after the other.
fn text_for(alloc: Global, width: Option<u16>, units: &[Unit]) -> Result<Vec<u8>, AllocError>
    ensures { IfOk result (λ text. IsScanText width units.now text.items) }
{
    let numbered = !are_in_order(units);
    let mut text = Vec::new(alloc);
    for i in 0..units.len() {
        push_part(&mut text, numbered, width, &units[i], &units[i + 1..])?;
    }
    Ok(text)
}

/// The text of the scan format that reads back whatever the print format prints of values that fit: for `%d,%s` and a
/// newline, with the width 20, `%11d,%20s%*1[` newline `]`.
///
/// Each number gets the width of its longest text, without the blanks before it; each text gets `width`, and is read up
/// to the literal that follows it, if one does that is no white space. White space is read byte by byte.
///
/// It answers nothing that `Pair::check` wouldn't accept. Where it answers none, the text that was due isn't accepted:
/// `Unpaired` has the fault and the directive of that text, as `Pair::check` reports it. A text without a width is
/// refused as NoWidth.
pub fn scan_text(
    alloc: Global,
    profile: Profile,
    print: &PrintFormat,
    width: Option<u16>,
) -> Result<Vec<u8>, NoScanText>
    ensures text { IfOk result (λ text. IsScanText width print.now text.items) }
    ensures reads { IfOk result (λ text. ReadsBack profile print.now text.items) }
    ensures unpaired { (fault : PairFault) → IsErrOf result (NoScanText.Unpaired fault)
        → IsUnpaired profile width print.now fault }
    ensures no_format { (fault : FormatFault) → IsErrOf result (NoScanText.NoFormat fault)
        → IsNoFormat profile width print.now fault }
{
    let Ok(text) = text_for(alloc, width, print.directives()) else {
        return Err(NoScanText::NoMemory);
    };
    let scan = match ScanFormat::parse(alloc, profile, &text) {
        Ok(scan) => scan,
        Err(fault) if fault.why == FormatWhy::NoMemory => return Err(NoScanText::NoMemory),
        Err(fault) => return Err(NoScanText::NoFormat(fault)),
    };
    if let Err(fault) = Pair::check(print, &scan) {
        return Err(NoScanText::Unpaired(fault));
    }
    Ok(text)
}

/// The part of a scan format that reads the first of the units, as `scan_text` writes it: `%11d` for `%d`. Empty where
/// there is none. It is what to write in place of a directive that doesn't read them: of one without a width, say.
pub fn scan_part(alloc: Global, units: &[Unit], width: Option<u16>) -> Result<Vec<u8>, AllocError>
    ensures { IfOk result (λ part. IsFirstPart width units.now part.items) }
{
    let mut part = Vec::new(alloc);
    if let Some((unit, rest)) = units.split_first() {
        push_part(&mut part, false, width, unit, rest)?;
    }
    Ok(part)
}
