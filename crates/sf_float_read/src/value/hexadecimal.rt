//! The value of a hexadecimal numeral.
ghost use Rattle.std.specs.Prelude.{◌≡◌, ℕ, ◌+◌, ◌*◌, ◌^◌, ◌<◌, ◌≤◌, true, false, from_bits};
ghost use Rattle.std.specs.Float.Ieee.{hid, ones};
ghost use Rattle.fast_float.specs.Rounding.{IsNearestBits};
ghost use Rattle.sf_float_read.specs.item.Sequences.{IsNumber};
ghost use Rattle.sf_float_read.specs.declared.item.reached.Radix.TheVariants.{Sixteen};
ghost use Rattle.sf_float_read.specs.value.Formats.{format_of};
ghost use Rattle.sf_float_read.specs.value.Values.{IsHexValue};
ghost use Rattle.sf_float_read.specs.value.Hexadecimals.{IsFront, IsCapped};

use crate::value::digits::{Digits, read_digits, read_exponent};
use crate::value::nearest::{FloatKind, infinity, nearest};

/// With an exponent that raises the number.
fn raised(digits: Digits, exponent: u128, kind: FloatKind) -> u64
    requires few { (digits.m < 2 ^ 60) × (exponent < 2 ^ 104) }
    requires known { digits.lost ≡ true → 2 ^ 56 ≤ digits.m }
    ensures { (value number : ℕ) → IsFront value digits.m digits.cut digits.lost → IsCapped number exponent
        → IsNearestBits (format_of kind) (value * 2 ^ number) (2 ^ (4 * digits.places)) result }
{
    if digits.m == 0 {
        return 0;
    }
    if exponent >= 1 << 100 {
        return infinity(kind);
    }
    nearest(
        digits.m,
        digits.lost,
        4 * digits.cut as u128 + exponent,
        4 * digits.places as u128,
        kind,
    )
}

/// With one that lowers it.
fn lowered(digits: Digits, exponent: u128, kind: FloatKind) -> u64
    requires few { (digits.m < 2 ^ 60) × (exponent < 2 ^ 104) }
    requires known { digits.lost ≡ true → 2 ^ 56 ≤ digits.m }
    ensures { (value number : ℕ) → IsFront value digits.m digits.cut digits.lost → IsCapped number exponent
        → IsNearestBits (format_of kind) (value * 2 ^ 0) (2 ^ (4 * digits.places + number)) result }
{
    if digits.m == 0 {
        return 0;
    }
    if exponent >= 1 << 100 {
        return 0;
    }
    nearest(
        digits.m,
        digits.lost,
        4 * digits.cut as u128,
        4 * digits.places as u128 + exponent,
        kind,
    )
}

/// The pattern of the float nearest to a hexadecimal numeral.
pub(crate) fn hexadecimal(numeral: &[u8], kind: FloatKind) -> u64
    requires { IsNumber Sixteen numeral.now }
    ensures value { IsHexValue (format_of kind) false numeral.now (from_bits (format_of kind) result) }
    ensures most { result ≤ ones (format_of kind) * hid (format_of kind) }
{
    let (digits, at) = read_digits(numeral);
    let (negative, exponent) = read_exponent(&numeral[at..]);
    if negative {
        lowered(digits, exponent, kind)
    } else {
        raised(digits, exponent, kind)
    }
}
