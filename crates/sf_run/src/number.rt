//! Numbers and floats of the kinds that a destination can have.
ghost use Rattle.std.specs.Prelude.{◌≡◌, ◌≤◌, true, None, ℕ, List, length, take, if◌then◌else◌};
ghost use Rattle.std.specs.Option.{option_map};
ghost use Rattle.sf_base.specs.Data.{Number as NumberOf, datum_of_number, value_of};
ghost use Rattle.sf_float_read.specs.item.Decimals.{IsDecimal};
ghost use Rattle.sf_report.specs.Machine.{real_at};

use sf_base::{Kind, Number, Real};
use sf_float_read::{
    Decimal, decimal_value_f32, decimal_value_f64, is_float, numeral_within, value_f32, value_f64,
};

/// The number with the sign (true: a minus) and the magnitude, where the kind holds it.
#[inline(always)]
pub(crate) fn number_of(
    kind: Kind,
    negative: bool,
    magnitude: u64,
    overflowed: bool,
) -> Option<Number>
    ensures { option_map datum_of_number result ≡ option_map (NumberOf kind)
        (if overflowed then None else value_of kind negative magnitude) }
{
    if overflowed {
        return None;
    }
    kind.number(negative, magnitude)
}

/// The float of the kind that a matching sequence gives; None where it is out of range, where the bytes are no matching
/// sequence, or the kind is of no float.
pub(crate) fn real_of(kind: Kind, item: &[u8]) -> Option<Real>
    ensures { result ≡ real_at kind item.now }
{
    if !is_float(item) {
        return None;
    }
    match kind {
        Kind::F32 => Some(Real::F32(value_f32(item)?)),
        Kind::F64 => Some(Real::F64(value_f64(item)?)),
        _ => None,
    }
}

/// As `real_of`, of a decimal numeral that was read.
#[inline(always)]
pub(crate) fn decimal_real(kind: Kind, decimal: Decimal) -> Option<Real>
    ensures { (item : List ℕ) → IsDecimal item decimal.negative decimal.digits decimal.places
        → result ≡ real_at kind item }
{
    let Decimal {
        negative,
        digits,
        places,
        ..
    } = decimal;
    match kind {
        Kind::F32 => Some(Real::F32(decimal_value_f32(negative, digits, places)?)),
        Kind::F64 => Some(Real::F64(decimal_value_f64(negative, digits, places)?)),
        _ => None,
    }
}

/// The most bytes of an item that `numeral_within` reads: a minus, a point and nineteen digits.
const LONGEST_NUMERAL: usize = 21;

/// As `real_of`, of an item of so many bytes at the front of the piece. It stands apart, so that a run that reads no
/// float so is as it was.
#[inline(never)]
pub(crate) fn real_within(kind: Kind, piece: &[u8], bytes: usize) -> Option<Real>
    requires within { bytes ≤ length piece.now }
    ensures { result ≡ real_at kind (take bytes piece.now) }
{
    if bytes <= LONGEST_NUMERAL {
        if let Some(decimal) = numeral_within(piece) {
            if decimal.bytes == bytes {
                return decimal_real(kind, decimal);
            }
        }
    }
    let (item, _) = piece.split_at(bytes);
    real_of(kind, item)
}
