//! The first 17 digits of twice a float's size, exactly.
ghost use Rattle.std.specs.Prelude.{◌≡◌, ◌⊎◌, ℕ, ◌+◌, ◌-◌, ◌*◌, ◌/◌, ◌^◌, ◌<◌, ◌≤◌, IsTrue, IfSome, IfNone};
ghost use Rattle.std.specs.Float.{float_is_finite};
ghost use Rattle.sf_float.specs.Quotient.{IsQuotient};
ghost use Rattle.sf_float.specs.Scaled.{is_zero};
ghost use Rattle.sf_float.specs.fewest.Cut.{IsCut};

use crate::fewest::fives::five_to;
use crate::{Natural, Size, sign_and_bits, size_of};

/// Twice a size over 10^(first - 416), cut to a whole number, and whether anything was cut off. The first digit of the
/// size is that of 10^(first - 400).
#[derive(Clone, Copy, Debug)]
pub(crate) struct Cut {
    pub(crate) first: u32,
    pub(crate) twice: u64,
    pub(crate) lost: bool,
}

/// A lower bound of the power of ten of the first digit, plus 400. It is at most 1 too low.
fn guess(size: Size) -> u32
    requires { (0 < size.m) × (size.m < 2 ^ 53) × (size.up < 972) × (size.down ≤ 1074) }
    ensures from { 10 ^ result * 2 ^ size.down ≤ 10 ^ 400 * (size.m * 2 ^ size.up) }
    ensures below { 10 ^ 400 * (size.m * 2 ^ size.up) < 2 * 10 ^ (result + 1) * 2 ^ size.down }
    ensures few { result < 900 }
{
    let t = size.m.ilog2() + size.up + 1074 - size.down;
    (t * 78_913 + 20_105_038) / 262_144
}

/// A number of at most 18 digits.
fn value_of(n: &Natural) -> u64
    requires { n.now < 10 ^ 18 }
    ensures { result ≡ n.now }
{
    let mut value: u64 = 0;
    let mut k = 18;
    while k > 0 {
        k -= 1;
        value = value * 10 + n.digit(k) as u64;
    }
    value
}

/// Where 128 bits hold the size's digits times 2 * 5^fives; the powers of two of the tens are taken off the divisor.
fn is_short(size: Size, first: u32) -> bool
    ensures { IsTrue result → (size.up ≡ 0) × (385 ≤ first) × (first ≤ 416) × (416 - first ≤ size.down)
        × (size.down ≤ 543 - first) }
{
    size.up == 0
        && first >= 385
        && first <= 416
        && size.down >= 416 - first
        && size.down <= 543 - first
}

/// In 128 bits.
fn twice_short(size: Size, first: u32) -> (u64, bool)
    requires few { (size.m < 2 ^ 53) × (385 ≤ first) × (first ≤ 416) × (416 - first ≤ size.down)
        × (size.down ≤ 543 - first) }
    requires most { 2 * (size.m * 10 ^ (416 - first)) < 10 ^ 18 * 2 ^ size.down }
    ensures { IsQuotient (2 * (size.m * 10 ^ (416 - first))) (2 ^ size.down) result.0 result.1 }
{
    let fives = 416 - first;
    let few = fives.min(27);
    let wide = (size.m * five_to(fives - few)) as u128 * five_to(few) as u128 * 2;
    let down = size.down - fives;
    let whole = wide >> down;
    (whole as u64, whole << down != wide)
}

/// By limbs.
fn twice_in_limbs(size: Size, first: u32) -> (Natural, bool)
    requires few { (size.m < 2 ^ 53) × (size.up < 972) × (size.down ≤ 1074) }
    requires from { 10 ^ 400 * (size.m * 2 ^ size.up) < 2 * 10 ^ (first + 1) * 2 ^ size.down }
    ensures { IsQuotient (2 * (size.m * 2 ^ size.up * 10 ^ (416 - first))) (2 ^ size.down * 10 ^ (first - 416))
        result.0 result.1 }
{
    let mut n = Natural::new(size.m);
    n.times_two_to(size.up + 1);
    n.times_ten_to(416u32.saturating_sub(first));
    let lost = n.over_two_to(size.down, false);
    let lost = n.over_ten_to(first.saturating_sub(416), lost);
    (n, lost)
}

fn twice_long(size: Size, first: u32) -> (u64, bool)
    requires few { (size.m < 2 ^ 53) × (size.up < 972) × (size.down ≤ 1074) }
    requires from { 10 ^ 400 * (size.m * 2 ^ size.up) < 2 * 10 ^ (first + 1) * 2 ^ size.down }
    ensures { IsQuotient (2 * (size.m * 2 ^ size.up * 10 ^ (416 - first))) (2 ^ size.down * 10 ^ (first - 416))
        result.0 result.1 }
{
    let (n, lost) = twice_in_limbs(size, first);
    (value_of(&n), lost)
}

fn twice(size: Size, first: u32) -> (u64, bool)
    requires few { (size.m < 2 ^ 53) × (size.up < 972) × (size.down ≤ 1074) }
    requires from { 10 ^ 400 * (size.m * 2 ^ size.up) < 2 * 10 ^ (first + 1) * 2 ^ size.down }
    ensures { IsQuotient (2 * (size.m * 2 ^ size.up * 10 ^ (416 - first))) (2 ^ size.down * 10 ^ (first - 416))
        result.0 result.1 }
{
    if is_short(size, first) {
        return twice_short(size, first);
    }
    twice_long(size, first)
}

/// With one digit less, where there are 18.
fn fitted(first: u32, twice: u64, lost: bool) -> Cut
    requires { first < 1000 }
    ensures same { (a c : ℕ) → 0 < c
        → IsQuotient (2 * (a * 10 ^ (416 - first))) (c * 10 ^ (first - 416)) twice lost
        → IsQuotient (2 * (a * 10 ^ (416 - result.first))) (c * 10 ^ (result.first - 416)) result.twice result.lost }
    ensures first { (twice < 2 * 10 ^ 17) × (result.first ≡ first) × (result.twice ≡ twice)
        ⊎ (2 * 10 ^ 17 ≤ twice) × (result.first ≡ first + 1) × (result.twice ≡ twice / 10) }
{
    if twice < 200_000_000_000_000_000 {
        return Cut { first, twice, lost };
    }
    Cut {
        first: first + 1,
        twice: twice / 10,
        lost: lost || twice % 10 != 0,
    }
}

/// None of 0.
pub(crate) fn cut_of(x: f64) -> Option<Cut>
    requires finite { IsTrue (float_is_finite x) }
    ensures cut { IfSome result (λ r. IsCut x r.first r.twice r.lost) }
    ensures few { IfSome result (λ r. (16 ≤ r.first) × (r.first ≤ 900)) }
    ensures zero { IfNone result (is_zero x) }
{
    let (_, bits) = sign_and_bits(x);
    let size = size_of(bits);
    if size.m == 0 {
        return None;
    }
    let first = guess(size);
    let (twice, lost) = twice(size, first);
    Some(fitted(first, twice, lost))
}
