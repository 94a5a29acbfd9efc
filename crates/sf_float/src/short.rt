//! A float times a power of ten in 128 bits, and the text of a number of 64 bits.
ghost use Rattle.std.specs.Prelude.{◌≡◌, ℕ, ◌+◌, ◌-◌, ◌*◌, ◌/◌, ◌^◌, ◌<◌, ◌≤◌, ◌++◌, take, IsTrue, IfSome};
ghost use Rattle.std.specs.Float.{float_is_finite};
ghost use Rattle.std.specs.Float.Ieee.Nearest.{closest};
ghost use Rattle.sf_float.specs.Scaled.{scaled};
ghost use Rattle.sf_float.specs.Texts.{fixed_digits, fixed_text, point_text, IsCount};

use crate::finite::{sign_and_bits, size_of};
use crate::scientific::{ROOM, put};
use crate::tens::ten_to;

/// The whole number nearest to n / 2^down, a tie to the even one.
fn shifted(n: u128, down: u32) -> u128
    requires { (n < 2 ^ 127) × (down ≤ 126) }
    ensures { result ≡ closest n (2 ^ down) }
{
    let whole = n >> down;
    let twice = (n - (whole << down)) * 2;
    let one = 1u128 << down;
    if twice < one {
        return whole;
    }
    if twice > one {
        return whole + 1;
    }
    whole + whole % 2
}

/// m * 10^tens / 2^down, rounded to the nearest whole number, a tie to the even one, where 128 bits hold the product
/// and 19 digits the result.
pub(crate) fn nearest_short(m: u64, down: u32, tens: u32) -> Option<u64>
    ensures { IfSome result (λ n. n ≡ closest (m * 10 ^ tens) (2 ^ down)) }
{
    if m >= 0x20_0000_0000_0000 || down > 126 || tens > 22 {
        return None;
    }
    let few = tens.min(19);
    let wide = (m * ten_to(tens - few)) as u128 * ten_to(few) as u128;
    let n = shifted(wide, down);
    if n >= 10_000_000_000_000_000_000 {
        return None;
    }
    Some(n as u64)
}

/// A finite float times 10^decimals, rounded to the nearest whole number, where that is seen at once.
pub(crate) fn short_fixed(x: f64, decimals: u32) -> Option<u64>
    requires { IsTrue (float_is_finite x) }
    ensures value { IfSome result (λ n. n ≡ scaled x decimals 0) }
    ensures few { IfSome result (λ n. decimals ≤ 19) }
{
    let (_, bits) = sign_and_bits(x);
    let size = size_of(bits);
    if size.up > 0 || decimals > 19 {
        return None;
    }
    nearest_short(size.m, size.down, decimals)
}

/// A number of digits that a number has at least, near to what it has.
fn least_count(n: u64) -> usize
    ensures { (0 < result) × (result ≤ 20) × (1 < result → 10 ^ (result - 1) ≤ n) }
{
    if n < 10_000 {
        1
    } else if n < 1_000_000_000 {
        5
    } else {
        10
    }
}

/// How many digits a number has.
fn count_of(n: u64) -> usize
    ensures count { IsCount 0 n result }
    ensures few { result ≤ 20 }
{
    let mut count = least_count(n);
    while count < 20 && n >= ten_to(count as u32) {
        count += 1;
    }
    count
}

/// A number without its last digits, so many.
pub(crate) fn without(n: u64, places: usize) -> u64
    ensures { result ≡ n / 10 ^ places }
{
    if places > 19 {
        return 0;
    }
    n / ten_to(places as u32)
}

/// Writes the last digits of a number, so many.
pub(crate) fn put_last(n: u64, count: usize, out: &mut [u8; ROOM], at: usize) -> usize
    requires { at + count ≤ 565 }
    ensures end { result ≡ at + count }
    ensures written { take result out.new ≡ take at out.old ++ fixed_digits count n }
{
    let end = at + count;
    let mut left = n;
    let mut k = end;
    while k > at {
        k -= 1;
        out[k] = b'0' + (left % 10) as u8;
        left /= 10;
    }
    end
}

/// Writes the point and the last digits of a number, so many, where there are any, or a point is asked for.
fn put_fraction(n: u64, decimals: usize, alt: bool, out: &mut [u8; ROOM], at: usize) -> usize
    requires { (decimals ≤ 19) × (at ≤ 20) }
    ensures end { (at ≤ result) × (result ≤ at + 20) }
    ensures written { take result out.new ≡ take at out.old ++ point_text alt decimals n }
{
    if decimals == 0 && !alt {
        return at;
    }
    let end = put(b'.', out, at);
    put_last(n, decimals, out, end)
}

/// Writes the text of n / 10^decimals in the style ddd.ddd.
pub(crate) fn put_short(n: u64, decimals: usize, alt: bool, out: &mut [u8; ROOM]) -> usize
    requires { decimals ≤ 19 }
    ensures end { result ≤ 565 }
    ensures text { (count : ℕ) × IsCount decimals n count × (take result out.new ≡ fixed_text alt decimals n count) }
{
    let whole = n / ten_to(decimals as u32);
    let end = put_last(whole, count_of(whole), out, 0);
    put_fraction(n, decimals, alt, out, end)
}
