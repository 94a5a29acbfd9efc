//! Laws of doubles and of missing values, of pairs.
ghost use Rattle.std.specs.Prelude.{◌≡◌, ◌∷◌, ℕ, [], false, true, length, from_bits};
ghost use Rattle.std.specs.Float.{float_is_finite};
ghost use Rattle.std.specs.Float.Ieee.{binary64};
ghost use Rattle.sf_format.specs.declared.directive.Conversion.{Conversion};
ghost use Rattle.sf_format.specs.declared.unit.PrintConv.{PrintConv};
ghost use Rattle.sf_format.specs.Proper.{has_optional, may_miss};
ghost use Rattle.sf_format.specs.Units.{values_of};
ghost use Rattle.sf_pair.specs.Doubles.{CarriesDoubles};
ghost use Rattle.sf_base.specs.Data.{Real};
ghost use Rattle.sf_base.specs.declared.real.Real.TheVariants.{F64};
ghost use Rattle.sf_pair.specs.Fits.{conversions, assigned_conversions, fits};

use sf_base::Value;
use sf_format::ScanFormat;
use sf_pair::Pair;
use sf_pair::laws::{aligned_is_accepted, aligned_is_whole, finite_doubles_fit, fits_is_fit};

/// Whether a double fits a pair of one conversion: each finite one does, where the conversion writes 17 digits and the
/// scan has room for them.
pub fn double_fits(pair: &Pair<'_>, bits: u64) -> bool
    ensures finite { (c : PrintConv) (s : Conversion) → conversions pair.now.print ≡ c ∷ []
        → assigned_conversions pair.now.scan ≡ s ∷ []
        → length (values_of pair.now.print) ≡ 1 → c.slot ≡ 1 → CarriesDoubles c s
        → float_is_finite (from_bits binary64 bits) ≡ true → result ≡ true }
    ensures test { result ≡ fits pair.now.print pair.now.scan (Real (F64 bits) ∷ []) }
{
    aligned_is_accepted();
    fits_is_fit();
    finite_doubles_fit();
    let _print = pair.print();
    pair.fits(&[Value::F64(bits)])
}

/// The scan format of a pair, none of whose slots may be missing.
pub fn whole_scan<'f>(pair: &Pair<'f>) -> &'f ScanFormat
    ensures whole { has_optional result.now ≡ false }
    ensures slots { (slot : ℕ) → may_miss slot result.now ≡ false }
{
    aligned_is_accepted();
    aligned_is_whole();
    pair.scan()
}
