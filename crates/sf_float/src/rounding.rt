//! A float times a power of ten, rounded to the nearest whole number, a tie to the even one.
ghost use Rattle.std.specs.Prelude.{◌≡◌, ℕ, ◌+◌, ◌*◌, ◌^◌, ◌<◌, ◌≤◌};
ghost use Rattle.std.specs.Float.Ieee.Nearest.{closest};
ghost use Rattle.sf_float.specs.Limbs.{limb_weight};
ghost use Rattle.sf_float.specs.Quotient.{IsQuotient};

use crate::natural::Natural;
use crate::short::nearest_short;

/// Twice m * 2^up / 2^down * 10^tens_up / 10^tens_down, cut to a whole number, and whether something was cut off.
pub fn twice_scaled(m: u64, up: u32, down: u32, tens_up: u32, tens_down: u32) -> (Natural, bool)
    requires few { up < 2000 }
    requires room { m * 2 ^ (up + 1) * 10 ^ tens_up < limb_weight 65 }
    ensures { IsQuotient (2 * (m * 2 ^ up * 10 ^ tens_up)) (2 ^ down * 10 ^ tens_down) result.0 result.1 }
{
    let mut n = Natural::new(m);
    n.times_two_to(up + 1);
    n.times_ten_to(tens_up);
    let lost = n.over_two_to(down, false);
    let lost = n.over_ten_to(tens_down, lost);
    (n, lost)
}

/// The whole number nearest to half of n, from which something may have been cut off.
pub fn halved(n: Natural, lost: bool) -> Natural
    ensures { (a b : ℕ) → 0 < b → IsQuotient (2 * a) b n lost → result ≡ closest a b }
{
    let mut half = n;
    if half.div(2) == 0 {
        return half;
    }
    if lost {
        half.mul_add(1, 1);
        return half;
    }
    if half.is_odd() {
        half.mul_add(1, 1);
    }
    half
}

/// m * 2^up / 2^down * 10^tens_up / 10^tens_down, rounded to the nearest whole number, a tie to the even one.
pub fn nearest_scaled(m: u64, up: u32, down: u32, tens_up: u32, tens_down: u32) -> Natural
    requires few { up < 2000 }
    requires room { m * 2 ^ (up + 1) * 10 ^ tens_up < limb_weight 65 }
    ensures { result ≡ closest (m * 2 ^ up * 10 ^ tens_up) (2 ^ down * 10 ^ tens_down) }
{
    if up == 0 && tens_down == 0 {
        if let Some(n) = nearest_short(m, down, tens_up) {
            return Natural::new(n);
        }
    }
    let (twice, lost) = twice_scaled(m, up, down, tens_up, tens_down);
    halved(twice, lost)
}
