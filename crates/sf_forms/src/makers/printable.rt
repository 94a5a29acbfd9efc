//! Whether a print format can print the records of a scan format.
ghost use Rattle.std.specs.Prelude.{◌≡◌, ◌≤◌, ◌<◌, ◌+◌, Some, None, IfOk, IfErr, IfSome, MatchOption, length, true, ℕ};
ghost use Rattle.sf_format.specs.Proper.{destinations_of};
ghost use Rattle.sf_format.specs.Units.{is_signed, is_text, values_of};
ghost use Rattle.sf_forms.specs.makers.Prints.{IsMismatch, IsPrintable, bits_of, holds_all, holds_floats, is_float};
ghost use Rattle.sf_forms.specs.makers.Prints.{suits};

use sf_base::Kind;
use sf_format::{PrintFormat, ScanFormat};

/// Why a print format can't print the records of a scan format.
#[derive(Clone, Copy, Debug, PartialEq, Eq)]
pub enum PrintMismatch {
    /// It prints so many values, and the scan format gives so many.
    Count { values: u8, destinations: u8 },
    /// The lowest value that doesn't suit: it prints one kind there, which doesn't hold each value of the kind that the
    /// scan format gives. Slots are counted from 1.
    Kinds { slot: u8, print: Kind, scan: Kind },
}

fn is_text(kind: Kind) -> bool
    ensures { result ≡ is_text kind }
{
    matches!(kind, Kind::Text)
}

fn is_signed(kind: Kind) -> bool
    ensures { result ≡ is_signed kind }
{
    matches!(kind, Kind::I8 | Kind::I16 | Kind::I32 | Kind::I64)
}

/// How many bits the numbers of a kind have beside the sign.
fn bits_of(kind: Kind) -> u8
    ensures { result ≡ bits_of kind }
{
    match kind {
        Kind::I8 => 7,
        Kind::I16 => 15,
        Kind::I32 => 31,
        Kind::I64 => 63,
        Kind::U8 => 8,
        Kind::U16 => 16,
        Kind::U32 => 32,
        Kind::U64 => 64,
        Kind::Text | Kind::F32 | Kind::F64 => 0,
    }
}

fn is_float(kind: Kind) -> bool
    ensures { result ≡ is_float kind }
{
    matches!(kind, Kind::F32 | Kind::F64)
}

/// Whether a kind has each float of another.
fn holds_floats(wide: Kind, narrow: Kind) -> bool
    ensures { result ≡ holds_floats wide narrow }
{
    matches!(
        (wide, narrow),
        (Kind::F64, Kind::F64 | Kind::F32) | (Kind::F32, Kind::F32)
    )
}

/// Whether a kind has each value of another.
pub(crate) fn holds_all(wide: Kind, narrow: Kind) -> bool
    ensures { result ≡ holds_all wide narrow }
{
    if is_float(wide) || is_float(narrow) {
        return holds_floats(wide, narrow);
    }
    if is_text(narrow) {
        return is_text(wide);
    }
    !is_text(wide) && (is_signed(wide) || !is_signed(narrow)) && bits_of(narrow) <= bits_of(wide)
}

/// Why the value with a slot doesn't suit.
fn mismatch_at(print: &PrintFormat, scan: &ScanFormat, slot: u8) -> Option<PrintMismatch>
    requires counted { 1 ≤ slot }
    requires within { slot ≤ length (values_of print.now) }
    requires same { length (values_of print.now) ≡ length (destinations_of scan.now) }
    requires lower { (lower : ℕ) → 1 ≤ lower → lower < slot → suits print.now scan.now lower ≡ true }
    ensures { MatchOption result (suits print.now scan.now slot ≡ true)
        (λ why. IsMismatch print.now scan.now why) }
{
    match (print.kind(slot), scan.kind(slot)) {
        (Some(print), Some(scan)) => {
            if holds_all(print, scan) {
                None
            } else {
                Some(PrintMismatch::Kinds { slot, print, scan })
            }
        }
        _ => unreachable!(),
    }
}

/// Whether the print format can print the records of the scan format: it prints as many values as that gives, and each
/// of a kind that has each value of the kind that is given there, as i16 has each of i8 and of u8, and f64 each of f32.
/// Else the counts, or the lowest value that doesn't suit. It takes no memory.
pub fn check_print(print: &PrintFormat, scan: &ScanFormat) -> Result<(), PrintMismatch>
    ensures printable { IfOk result (λ _. IsPrintable print.now scan.now) }
    ensures mismatch { IfErr result (λ why. IsMismatch print.now scan.now why) }
{
    let values = print.values();
    let destinations = scan.destinations();
    if values != destinations {
        return Err(PrintMismatch::Count {
            values,
            destinations,
        });
    }
    for before in 0..values {
        if let Some(why) = mismatch_at(print, scan, before + 1) {
            return Err(why);
        }
    }
    Ok(())
}
