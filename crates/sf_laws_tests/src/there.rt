//! Doubles that are printed and read again by a pair.
ghost use Rattle.std.specs.Prelude.{◌≡◌, ◌∷◌, ℕ, [], true, length, from_bits, Some, IfOk, IfSome, IsErrOf};
ghost use Rattle.std.specs.Float.{float_is_finite};
ghost use Rattle.std.specs.Float.Ieee.{binary64};
ghost use Rattle.sf_base.specs.declared.values.Value.TheVariants as kinds;
ghost use Rattle.sf_format.specs.declared.directive.Conversion.{Conversion};
ghost use Rattle.sf_format.specs.declared.unit.PrintConv.{PrintConv};
ghost use Rattle.sf_format.specs.Units.{values_of};
ghost use Rattle.sf_pair.specs.Doubles.{CarriesDoubles};
ghost use Rattle.sf_pair.specs.Fits.{conversions, assigned_conversions};

use crate::doubles::double_fits;
use sf_base::Value;
use sf_format::{PrintFormat, Profile, ScanFormat};
use sf_pair::Pair;
use sf_pair::laws::fits_is_fit;
use sf_pair_read::read_back;
use sf_print::ListSink;
use sf_read::{Lookahead, SliceSource};
use std::alloc::Global;

/// The most bytes that a run uses, and so the longest text that is read again.
const LIMIT: u32 = 2147483647;

/// Why a double didn't come back.
#[derive(Clone, Copy, Debug, PartialEq, Eq)]
pub enum Lost {
    /// It doesn't fit the pair.
    Unfit,
    /// Memory was refused, or its text is too long for a print.
    Memory,
}

/// The double that a slot was given, if it was given one.
fn double_in(value: Option<Value<'_>>) -> Option<u64>
    ensures { (bits : ℕ) → value.entry ≡ Some (kinds.F64 bits) → result ≡ Some bits }
{
    match value {
        Some(Value::F64(bits)) => Some(bits),
        _ => None,
    }
}

/// Prints a double by a pair of one conversion, and reads its text again: what comes back is the double, bit for bit. A
/// finite one always fits, where the conversion writes 17 digits and the scan has room for them.
pub fn carried(alloc: Global, pair: &Pair<'_>, bits: u64) -> Result<u64, Lost>
    ensures same { IfOk result (λ back. back ≡ bits) }
    ensures fits { (c : PrintConv) (s : Conversion) → conversions pair.now.print ≡ c ∷ []
        → assigned_conversions pair.now.scan ≡ s ∷ []
        → length (values_of pair.now.print) ≡ 1 → c.slot ≡ 1 → CarriesDoubles c s
        → float_is_finite (from_bits binary64 bits) ≡ true → IsErrOf result Lost.Unfit → ⊥ }
{
    fits_is_fit();
    if !double_fits(pair, bits) {
        return Err(Lost::Unfit);
    }
    let values = [Value::F64(bits)];
    let mut text = ListSink::new(alloc);
    if pair.write(&mut text, &values).is_err() {
        return Err(Lost::Memory);
    }
    let mut from: Lookahead<SliceSource<'_>, 64> = Lookahead::new(SliceSource::new(text.bytes()));
    let Ok(scanned) = read_back(alloc, &mut from, pair, LIMIT) else {
        return Err(Lost::Memory);
    };
    let Some(back) = double_in(scanned.report().value(1)) else {
        unreachable!()
    };
    Ok(back)
}

/// The same by `%.17g` and a newline. None where it doesn't fit, or memory was refused.
pub fn through(alloc: Global, bits: u64) -> Option<u64>
    ensures { IfSome result (λ back. back ≡ bits) }
{
    let Ok(print) = PrintFormat::parse(alloc, Profile::Three, b"%.17g\n") else {
        return None;
    };
    let Ok(scan) = ScanFormat::parse(alloc, Profile::Three, b"%25lf%*1[\n]") else {
        return None;
    };
    let Ok(pair) = Pair::check(&print, &scan) else {
        return None;
    };
    carried(alloc, &pair, bits).ok()
}
