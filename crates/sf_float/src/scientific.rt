//! The text of a float in the style d.ddde+dd.
ghost use Rattle.std.specs.Prelude.{◌≡◌, ℕ, ◌+◌, ◌-◌, ◌*◌, ◌/◌, ◌^◌, ◌<◌, ◌≤◌, ◌++◌, ◌∷◌, [], length, take, true};
ghost use Rattle.std.specs.Prelude.{IsTrue};
ghost use Rattle.std.specs.Float.{float_is_finite};
ghost use Rattle.ryu.specs.Plain.{text_with};
ghost use Rattle.sf_float.specs.Scaled.{IsScientific};
ghost use Rattle.sf_float.specs.Texts.{fixed_digits, exponent_digits, exponent_size, scientific, exponent_text};
ghost use Rattle.sf_float.specs.Texts.{point_text};

use crate::leading::significant;
use crate::natural::Natural;
use crate::short::{put_last, without};

/// Room for the longest text: the 309 digits of the greatest float, a point, and 255 digits after it.
pub const ROOM: usize = 565;

pub(crate) fn put(b: u8, out: &mut [u8; ROOM], at: usize) -> usize
    requires { at < 565 }
    ensures end { result ≡ at + 1 }
    ensures written { take (at + 1) out.new ≡ take at out.old ++ b ∷ [] }
{
    out[at] = b;
    at + 1
}

/// Writes the digits after which `to` others or more stand, and fewer than `from`.
pub(crate) fn put_digits(
    n: &Natural,
    from: usize,
    to: usize,
    out: &mut [u8; ROOM],
    at: usize,
) -> usize
    requires { (to ≤ from) × (at + (from - to) ≤ 565) }
    ensures end { result ≡ at + (from - to) }
    ensures written { take result out.new ≡ take at out.old ++ fixed_digits (from - to) (n.now / 10 ^ to) }
{
    if let Some(value) = n.as_u64() {
        return put_last(without(value, to), from - to, out, at);
    }
    let mut k = from;
    let mut end = at;
    while k > to {
        k -= 1;
        end = put(b'0' + n.digit(k), out, end);
    }
    end
}

pub(crate) fn put_point(
    n: &Natural,
    decimals: usize,
    alt: bool,
    out: &mut [u8; ROOM],
    at: usize,
) -> usize
    requires { (decimals ≤ 255) × (at + 256 ≤ 565) }
    ensures end { (at ≤ result) × (result ≤ at + 256) }
    ensures written { take result out.new ≡ take at out.old ++ point_text alt decimals n.now }
{
    if decimals == 0 && !alt {
        return at;
    }
    let end = put(b'.', out, at);
    put_digits(n, decimals, 0, out, end)
}

pub(crate) fn put_exponent(power: u32, out: &mut [u8; ROOM], at: usize) -> usize
    requires { (power < 1000) × (at + 5 ≤ 565) }
    ensures end { (at ≤ result) × (result ≤ at + 5) }
    ensures written { take result out.new ≡ take at out.old ++ exponent_text power }
{
    let end = put(b'e', out, at);
    let end = put(if power < 400 { b'-' } else { b'+' }, out, end);
    let size = power.saturating_sub(400) + 400u32.saturating_sub(power);
    put_last(size as u64, if size < 100 { 2 } else { 3 }, out, end)
}

fn put_scientific(
    n: &Natural,
    power: u32,
    decimals: usize,
    alt: bool,
    out: &mut [u8; ROOM],
) -> usize
    requires { (decimals ≤ 255) × (power < 1000) }
    ensures end { result ≤ 565 }
    ensures text { take result out.new ≡ text_with true (scientific alt decimals n.now power) }
{
    let end = put_digits(n, decimals + 1, decimals, out, 0);
    let end = put_point(n, decimals, alt, out, end);
    put_exponent(power, out, end)
}

/// Writes the size of a finite float, rounded to so many digits after the point of the style d.ddde+dd, and answers how
/// long the text is.
pub fn write_scientific(x: f64, decimals: u8, alt: bool, out: &mut [u8; ROOM]) -> usize
    requires { IsTrue (float_is_finite x) }
    ensures end { result ≤ 565 }
    ensures text { (n : ℕ) × (power : ℕ) × IsScientific x decimals n power
        × (take result out.new ≡ text_with true (scientific alt decimals n power)) }
{
    match significant(x, decimals as u32 + 1) {
        Some((n, power)) => put_scientific(&n, power, decimals as usize, alt, out),
        None => put_scientific(&Natural::new(0), 400, decimals as usize, alt, out),
    }
}
