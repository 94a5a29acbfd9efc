//! The text of a float in the style ddd.ddd.
ghost use Rattle.std.specs.Prelude.{◌≡◌, ℕ, ◌+◌, ◌^◌, ◌<◌, ◌≤◌, take, IsTrue};
ghost use Rattle.std.specs.Float.{float_is_finite};
ghost use Rattle.sf_float.specs.Scaled.{scaled};
ghost use Rattle.sf_float.specs.Texts.{fixed_text, IsCount};

use crate::finite::fixed_number;
use crate::natural::Natural;
use crate::scientific::{ROOM, put_digits, put_point};
use crate::short::{put_short, short_fixed};

/// How many digits stand before the point.
pub(crate) fn whole_count(n: &Natural, decimals: usize) -> usize
    requires few { decimals ≤ 258 }
    requires most { n.now < 10 ^ (309 + decimals) }
    ensures count { IsCount decimals n.now result }
    ensures most { result ≤ 309 }
{
    let total = n.count();
    if total > decimals {
        total - decimals
    } else {
        1
    }
}

/// Writes the size of a finite float, rounded to so many digits after the point, and answers how long the text is.
pub fn write_fixed(x: f64, decimals: u8, alt: bool, out: &mut [u8; ROOM]) -> usize
    requires { IsTrue (float_is_finite x) }
    ensures end { result ≤ 565 }
    ensures text { (count : ℕ) × IsCount decimals (scaled x decimals 0) count
        × (take result out.new ≡ fixed_text alt decimals (scaled x decimals 0) count) }
{
    if let Some(n) = short_fixed(x, decimals as u32) {
        return put_short(n, decimals as usize, alt, out);
    }
    let n = fixed_number(x, decimals as u32);
    let count = whole_count(&n, decimals as usize);
    let end = put_digits(&n, count + decimals as usize, decimals as usize, out, 0);
    put_point(&n, decimals as usize, alt, out, end)
}
