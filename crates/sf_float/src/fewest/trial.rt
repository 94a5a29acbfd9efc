//! The shortest digits that are read as a float, found by trial.
ghost use Rattle.std.specs.Prelude.{◌≡◌, ◌⊎◌, ℕ, ◌+◌, ◌-◌, ◌*◌, ◌%◌, ◌^◌, ◌<◌, ◌≤◌, true, false, IsTrue, IsFalse};
ghost use Rattle.std.specs.Prelude.{IfSome};
ghost use Rattle.std.specs.Float.{float_is_finite};
ghost use Rattle.std.specs.Float.Ieee.{Float};
ghost use Rattle.sf_float.specs.fewest.Cut.{IsCut};
ghost use Rattle.sf_float.specs.fewest.Full.{IsFullDouble};
ghost use Rattle.sf_float.specs.fewest.Digits.{number_of, most_decimals, near, other, reads_back, tried, searched};
ghost use Rattle.sf_float.specs.fewest.Digits.{trimmed};
ghost use Rattle.sf_float.specs.fewest.Digits.{shortest};

use crate::fewest::cut::Cut;
use crate::{Size, sign_and_bits, size_of, ten_to};
use fast_float::from_parts;
use sf_base::Real;
use std::num::{
    f32_from_bits_with_nan, f32_to_bits_with_nan, f64_from_bits_with_nan, f64_to_bits_with_nan,
};

/// Its number; each `f32` is an `f64`.
pub(crate) fn number_of(real: Real) -> f64
    ensures { result ≡ number_of real }
{
    match real {
        Real::F32(bits) => f64::from(f32_from_bits_with_nan(bits)),
        Real::F64(bits) => f64_from_bits_with_nan(bits),
    }
}

fn most_decimals(real: Real) -> u32
    ensures value { result ≡ most_decimals real }
    ensures few { result ≤ 16 }
{
    match real {
        Real::F32(_) => 8,
        Real::F64(_) => 16,
    }
}

/// Whether n * 10^(last - 400) is read as the float.
#[inline(always)]
fn reads_back(real: Real, n: u64, last: u32) -> bool
    requires finite { IsTrue (float_is_finite (number_of real)) }
    requires few { last ≤ 1000 }
    ensures { result ≡ reads_back real n last }
{
    let exponent = last as i64 - 400;
    match real {
        Real::F32(bits) => {
            let x = f32_from_bits_with_nan(bits);
            let read: f32 = from_parts(x.is_sign_negative(), n, exponent);
            f32_to_bits_with_nan(read) == f32_to_bits_with_nan(x)
        },
        Real::F64(bits) => {
            let x = f64_from_bits_with_nan(bits);
            let read: f64 = from_parts(x.is_sign_negative(), n, exponent);
            f64_to_bits_with_nan(read) == f64_to_bits_with_nan(x)
        },
    }
}

/// Whether the float is nearer to the decimal below it, or as near and that is even. A step has `2 * half` parts, and
/// of those the float is `rest` above it.
fn is_nearer_below(low: u64, rest: u64, half: u64, lost: bool) -> bool
    ensures yes { IsTrue result → (rest < half) ⊎ (rest ≡ half) × (lost ≡ false) × (low % 2 ≡ 0) }
    ensures no { IsFalse result → (half < rest) ⊎ (rest ≡ half) × ((lost ≡ true) ⊎ (low % 2 ≡ 1)) }
{
    rest < half || rest == half && !lost && low % 2 == 0
}

/// The decimals with so many digits after the first on both sides of a float, the nearest first.
fn sides(cut: Cut, decimals: u32) -> (u64, u64)
    requires few { (decimals ≤ 16) × (decimals ≤ cut.first) × (cut.first ≤ 900) }
    requires size { cut.twice < 2 * 10 ^ 17 }
    ensures near { (x : Float) → IsCut x cut.first cut.twice cut.lost → result.0 ≡ near x (cut.first - decimals) }
    ensures other { (x : Float) → IsCut x cut.first cut.twice cut.lost → result.1 ≡ other x (cut.first - decimals) }
    ensures few { (result.0 ≤ 10 ^ 17) × (result.1 ≤ 10 ^ 17) }
{
    let half = ten_to(16 - decimals);
    let low = cut.twice / (2 * half);
    let rest = cut.twice % (2 * half);
    if is_nearer_below(low, rest, half, cut.lost) {
        return (low, low + 1);
    }
    (low + 1, low)
}

/// Which of them reads back, the nearest first.
#[inline(always)]
fn tried(real: Real, cut: Cut, decimals: u32) -> Option<u64>
    requires finite { IsTrue (float_is_finite (number_of real)) }
    requires few { (decimals ≤ 16) × (decimals ≤ cut.first) × (cut.first ≤ 900) }
    requires cut { IsCut (number_of real) cut.first cut.twice cut.lost }
    ensures value { result ≡ tried real (cut.first - decimals) }
    ensures few { IfSome result (λ n. n ≤ 10 ^ 17) }
{
    let last = cut.first - decimals;
    let (near, other) = sides(cut, decimals);
    if reads_back(real, near, last) {
        return Some(near);
    }
    if reads_back(real, other, last) {
        return Some(other);
    }
    None
}

/// Twice the float's binary digits, as a number. Its size over that is half of the gap to the next float.
fn twice_digits(real: Real) -> u64
    ensures { 0 < result }
{
    match real {
        Real::F32(bits) => (bits as u64 % 0x80_0000 + 0x80_0000) * 2,
        Real::F64(bits) => (bits % 0x10_0000_0000_0000 + 0x10_0000_0000_0000) * 2,
    }
}

/// A guess of how many digits after the first are needed: those of the shortest decimal that is no further from the
/// float than half of the gap to the next one. No result depends on it.
fn guessed(real: Real, cut: Cut) -> u32
    requires size { cut.twice < 2 * 10 ^ 17 }
    ensures { result ≤ most_decimals real }
{
    let most = most_decimals(real);
    let half_gap = cut.twice / twice_digits(real);
    let parts = 2 * ten_to(16 - most);
    let mut low = cut.twice.saturating_sub(half_gap + 1) / parts;
    let mut high = (cut.twice + half_gap) / parts;
    for zeros in 0..most {
        low /= 10;
        high /= 10;
        if low == high {
            return most - zeros;
        }
    }
    0
}

/// The fewest digits of which one reads back, and where the last stands, with so many after the first or more.
#[inline(never)]
fn searched_from(real: Real, cut: Cut, from: u32) -> (u64, u32)
    requires finite { IsTrue (float_is_finite (number_of real)) }
    requires few { (16 ≤ cut.first) × (cut.first ≤ 900) }
    requires cut { IsCut (number_of real) cut.first cut.twice cut.lost }
    requires from { from ≤ most_decimals real }
    ensures value { result ≡ searched real (most_decimals real - from) (cut.first - from) }
    ensures few { (result.0 ≤ 10 ^ 17) × (result.1 ≤ 900) }
{
    let most = most_decimals(real);
    let mut decimals = from;
    while decimals < most {
        if let Some(n) = tried(real, cut, decimals) {
            return (n, cut.first - decimals);
        }
        decimals += 1;
    }
    (sides(cut, most).0, cut.first - most)
}

/// The fewest digits of which one reads back, and where the last stands. Where none of so many does, none of fewer
/// does, so the search begins at a guess.
#[cold]
#[inline(never)]
fn searched(real: Real, cut: Cut) -> (u64, u32)
    requires finite { IsTrue (float_is_finite (number_of real)) }
    requires few { (16 ≤ cut.first) × (cut.first ≤ 900) }
    requires cut { IsCut (number_of real) cut.first cut.twice cut.lost }
    ensures value { result ≡ searched real (most_decimals real) cut.first }
    ensures few { (result.0 ≤ 10 ^ 17) × (result.1 ≤ 900) }
{
    let mut from = guessed(real, cut);
    while from > 0 {
        if tried(real, cut, from - 1).is_none() {
            return searched_from(real, cut, from);
        }
        from -= 1;
    }
    searched_from(real, cut, 0)
}

/// Without so many zeros at the end, where there are as many; so many were taken off before.
#[inline(always)]
fn without(n: u64, zeros: u32, tens: u64, more: u32) -> (u64, u32)
    requires tens { tens ≡ 10 ^ more }
    requires few { zeros + more ≤ 17 }
    ensures same { (last : ℕ) → trimmed (17 - zeros) n (last + zeros)
        ≡ trimmed (17 - result.1) result.0 (last + result.1) }
    ensures few { (result.0 ≤ n) × (result.1 ≤ zeros + more) }
{
    if n % tens == 0 {
        (n / tens, zeros + more)
    } else {
        (n, zeros)
    }
}

/// Without the zeros at the end. Eight are taken off at once, and then four and two.
fn trimmed(n: u64, last: u32) -> (u64, u32)
    requires { last ≤ 900 }
    ensures value { result ≡ trimmed 17 n last }
    ensures few { (result.0 ≤ n) × (result.1 ≤ last + 17) }
{
    let (value, zeros) = without(n, 0, 100_000_000, 8);
    let (value, zeros) = without(value, zeros, 10_000, 4);
    let (mut value, mut zeros) = without(value, zeros, 100, 2);
    while zeros < 17 && value % 10 == 0 {
        value /= 10;
        zeros += 1;
    }
    (value, last + zeros)
}

/// Whether the size has 53 binary digits and no power of two above 0; the greatest such number is left out.
#[inline(always)]
fn is_full_size(size: Size) -> bool
    ensures up { IsTrue result → size.up ≡ 0 }
    ensures least { IsTrue result → 2 ^ 52 ≤ size.m }
    ensures most { IsTrue result → size.m + 1 < 2 ^ 53 }
{
    size.up == 0 && size.m >= 0x10_0000_0000_0000 && size.m < 0x1f_ffff_ffff_ffff
}

/// The binary digits of a double that has 53 of them and is no more than 2^53: no two decimals with fifteen digits are
/// read as such a one.
#[inline(always)]
fn full_digits(real: Real) -> Option<u64>
    requires { IsTrue (float_is_finite (number_of real)) }
    ensures { IfSome result (IsFullDouble real) }
{
    match real {
        Real::F32(_) => None,
        Real::F64(bits) => {
            let (_, pattern) = sign_and_bits(f64_from_bits_with_nan(bits));
            let size = size_of(pattern);
            if is_full_size(size) {
                Some(size.m)
            } else {
                None
            }
        },
    }
}

/// Whether both decimals with fifteen digits beside a double with the binary digits m are further from it than the next
/// double. Twice the double over m is twice that gap; of the 200 parts from one decimal to the next, `rest` lie below
/// the double, and one more may begin.
#[inline(always)]
fn is_far(twice: u64, m: u64) -> bool
    requires { m < 2 ^ 53 }
    ensures low { IsTrue result → twice < m * (twice % 200) }
    ensures high { IsTrue result → twice < m * (199 - twice % 200) }
{
    let rest = twice % 200;
    m * rest > twice && m * (199 - rest) > twice
}

/// As `tried` with fifteen digits, of a double with these binary digits.
#[inline(always)]
fn tried_short(real: Real, cut: Cut, m: u64) -> Option<u64>
    requires finite { IsTrue (float_is_finite (number_of real)) }
    requires few { (16 ≤ cut.first) × (cut.first ≤ 900) }
    requires cut { IsCut (number_of real) cut.first cut.twice cut.lost }
    requires full { IsFullDouble real m }
    ensures value { result ≡ tried real (cut.first - 14) }
    ensures few { IfSome result (λ n. n ≤ 10 ^ 17) }
{
    if is_far(cut.twice, m) {
        return None;
    }
    tried(real, cut, 14)
}

/// As `searched`, of a double with these binary digits: where a decimal with fifteen digits is read as it, that has the
/// digits. Without the zeros at their end they are the same.
#[inline(always)]
fn searched_full(real: Real, cut: Cut, m: u64) -> (u64, u32)
    requires finite { IsTrue (float_is_finite (number_of real)) }
    requires few { (16 ≤ cut.first) × (cut.first ≤ 900) }
    requires cut { IsCut (number_of real) cut.first cut.twice cut.lost }
    requires full { IsFullDouble real m }
    ensures same { trimmed 17 result.0 result.1 ≡ shortest real }
    ensures few { (result.0 ≤ 10 ^ 17) × (result.1 ≤ 900) }
{
    if let Some(n) = tried_short(real, cut, m) {
        return (n, cut.first - 14);
    }
    searched_from(real, cut, 15)
}

/// Digits that are the shortest ones without the zeros at their end, and where the last stands.
#[inline(always)]
fn found(real: Real, cut: Cut) -> (u64, u32)
    requires finite { IsTrue (float_is_finite (number_of real)) }
    requires few { (16 ≤ cut.first) × (cut.first ≤ 900) }
    requires cut { IsCut (number_of real) cut.first cut.twice cut.lost }
    ensures same { trimmed 17 result.0 result.1 ≡ shortest real }
    ensures few { (result.0 ≤ 10 ^ 17) × (result.1 ≤ 900) }
{
    match full_digits(real) {
        Some(m) => searched_full(real, cut, m),
        None => searched(real, cut),
    }
}

/// The shortest digits, and the power of ten of the last, plus 400.
pub(crate) fn shortest(real: Real, cut: Cut) -> (u64, u32)
    requires finite { IsTrue (float_is_finite (number_of real)) }
    requires few { (16 ≤ cut.first) × (cut.first ≤ 900) }
    requires cut { IsCut (number_of real) cut.first cut.twice cut.lost }
    ensures value { result ≡ shortest real }
    ensures few { (result.0 ≤ 10 ^ 17) × (result.1 ≤ 1000) }
{
    let (n, last) = found(real, cut);
    trimmed(n, last)
}
