//! The text of a float in the style of `%a`, without its `0x`.
ghost use Rattle.std.specs.Prelude.{◌≡◌, ◌≢◌, ℕ, ◌+◌, ◌-◌, ◌*◌, ◌/◌, ◌%◌, ◌^◌, ◌<◌, ◌≤◌, ◌++◌, List, false, from_bits};
ghost use Rattle.std.specs.Prelude.{replicate, take, Some, None, IsTrue};
ghost use Rattle.std.specs.Float.{float_is_finite, binary64};
ghost use Rattle.std.specs.Float.Ieee.Exact.{HasValue};
ghost use Rattle.std.specs.Float.Ieee.Nearest.{closest};
ghost use Rattle.sf_float.specs.General.{IsShortened};
ghost use Rattle.sf_float.specs.Hexadecimal.{hex_digit, hex_digits, hex_point, hex_text, binary_power};
ghost use Rattle.sf_float.specs.Hexadecimal.{IsBinaryExponent, IsHexNumeral, IsHexadecimalText};

use crate::finite::{HIDDEN, sign_and_bits};
use crate::fixed::whole_count;
use crate::natural::Natural;
use crate::scientific::{ROOM, put, put_digits};

/// The hexadecimal digits after the point that a double has.
const DIGITS: usize = 13;

/// The digits m and the power of two of the float with this pattern: m / 2^52 * 2^(power - 1022).
fn binary_of(bits: u64) -> (u64, u32)
    requires { bits < 0x7ff0_0000_0000_0000 }
    ensures value { HasValue (from_bits binary64 bits) false (result.0 * 2 ^ result.1) (2 ^ 1074) }
    ensures most { (result.0 < 2 ^ 53) × (result.1 < 2046) }
    ensures normal { 0 < result.1 → 2 ^ 52 ≤ result.0 }
{
    let field = (bits / HIDDEN) as u32;
    let digits = bits % HIDDEN;
    if field == 0 {
        return (digits, 0);
    }
    (HIDDEN + digits, field - 1)
}

/// m / 2^bits, rounded to the nearest whole number, a tie to the even one.
fn nearest_shifted(m: u64, bits: u32) -> u64
    requires { (bits ≤ 52) × (m < 2 ^ 53) }
    ensures value { result ≡ closest m (2 ^ bits) }
    ensures most { result ≤ 2 ^ 53 }
{
    let unit = 1u64 << bits;
    let whole = m / unit;
    let rest = m % unit;
    if 2 * rest < unit {
        return whole;
    }
    if 2 * rest > unit {
        return whole + 1;
    }
    whole + whole % 2
}

/// The digit after which n digits stand.
fn digit_at(m: u64, n: usize) -> u8
    requires { n < 16 }
    ensures value { result ≡ m / 16 ^ n % 16 }
    ensures few { result < 16 }
{
    ((m >> (4 * n as u32)) % 16) as u8
}

fn byte_of(digit: u8) -> u8
    requires { digit < 16 }
    ensures { result ≡ hex_digit digit }
{
    if digit < 10 {
        b'0' + digit
    } else {
        b'a' + (digit - 10)
    }
}

/// Writes the digits after which `to` others or more stand, and fewer than `from`.
fn put_hex(m: u64, from: usize, to: usize, out: &mut [u8; ROOM], at: usize) -> usize
    requires { (to ≤ from) × (from ≤ 16) × (at + (from - to) ≤ 565) }
    ensures end { result ≡ at + (from - to) }
    ensures written { take result out.new ≡ take at out.old ++ hex_digits (from - to) (m / 16 ^ to) }
{
    let mut k = from;
    let mut end = at;
    while k > to {
        k -= 1;
        end = put(byte_of(digit_at(m, k)), out, end);
    }
    end
}

/// Writes the point and the digits after it but for the last `left_out`.
fn put_hex_point(
    m: u64,
    decimals: usize,
    left_out: usize,
    alt: bool,
    out: &mut [u8; ROOM],
    at: usize,
) -> usize
    requires { (left_out ≤ decimals) × (decimals ≤ 13) × (at + 14 ≤ 565) }
    ensures end { (at ≤ result) × (result ≤ at + 14) }
    ensures written { take result out.new ≡ take at out.old ++ hex_point alt (decimals - left_out) (m / 16 ^ left_out) }
{
    if decimals == left_out && !alt {
        return at;
    }
    let end = put(b'.', out, at);
    put_hex(m, decimals, left_out, out, end)
}

fn put_zeros(count: usize, out: &mut [u8; ROOM], at: usize) -> usize
    requires { at + count ≤ 565 }
    ensures end { result ≡ at + count }
    ensures written { take result out.new ≡ take at out.old ++ replicate count 48 }
{
    let mut end = at;
    let mut left = count;
    while left > 0 {
        left -= 1;
        end = put(b'0', out, end);
    }
    end
}

/// How many of the last digits after the point are zeros.
fn hex_zeros(m: u64) -> usize
    ensures few { result ≤ 13 }
    ensures zeros { m ≡ m / 16 ^ result * 16 ^ result }
    ensures next { result < 13 → m / 16 ^ result % 16 ≢ 0 }
{
    let mut zeros = 0;
    while zeros < DIGITS {
        if digit_at(m, zeros) != 0 {
            return zeros;
        }
        zeros += 1;
    }
    zeros
}

/// As many digits as are needed.
fn put_needed(m: u64, alt: bool, out: &mut [u8; ROOM]) -> usize
    ensures end { result ≤ 15 }
    ensures written { IsHexNumeral alt None m (take result out.new) }
{
    let left_out = hex_zeros(m);
    let end = put_hex(m, DIGITS + 1, DIGITS, out, 0);
    put_hex_point(m, DIGITS, left_out, alt, out, end)
}

/// At most as many digits after the point as a double has.
fn put_few(m: u64, decimals: usize, alt: bool, out: &mut [u8; ROOM]) -> usize
    requires { (decimals ≤ 13) × (m < 2 ^ 53) }
    ensures end { result ≤ 15 }
    ensures written { IsHexNumeral alt (Some decimals) m (take result out.new) }
{
    let n = nearest_shifted(m, 52 - 4 * decimals as u32);
    let end = put_hex(n, decimals + 1, decimals, out, 0);
    put_hex_point(n, decimals, 0, alt, out, end)
}

/// All digits, and zeros after them.
fn put_many(m: u64, decimals: usize, alt: bool, out: &mut [u8; ROOM]) -> usize
    requires { (13 < decimals) × (decimals ≤ 255) × (m < 2 ^ 53) }
    ensures end { result ≤ 257 }
    ensures written { IsHexNumeral alt (Some decimals) m (take result out.new) }
{
    let end = put_hex(m, DIGITS + 1, DIGITS, out, 0);
    let end = put(b'.', out, end);
    let end = put_hex(m, DIGITS, 0, out, end);
    put_zeros(decimals - DIGITS, out, end)
}

fn put_numeral(m: u64, precision: Option<u8>, alt: bool, out: &mut [u8; ROOM]) -> usize
    requires { m < 2 ^ 53 }
    ensures end { result ≤ 257 }
    ensures written { IsHexNumeral alt precision m (take result out.new) }
{
    match precision {
        None => put_needed(m, alt, out),
        Some(decimals) if decimals as usize <= DIGITS => put_few(m, decimals as usize, alt, out),
        Some(decimals) => put_many(m, decimals as usize, alt, out),
    }
}

fn put_binary_exponent(m: u64, power: u32, out: &mut [u8; ROOM], at: usize) -> usize
    requires { (power < 2046) × (at ≤ 257) }
    ensures end { result ≤ 565 }
    ensures text { (t : List ℕ) × IsBinaryExponent (binary_power m power) t
        × (take result out.new ≡ take at out.old ++ t) }
{
    let power = if m == 0 { 1022 } else { power };
    let end = put(b'p', out, at);
    let end = put(if power < 1022 { b'-' } else { b'+' }, out, end);
    let size = power.saturating_sub(1022) + 1022u32.saturating_sub(power);
    let digits = Natural::new(size as u64);
    let count = whole_count(&digits, 0);
    put_digits(&digits, count, 0, out, end)
}

/// Writes the size of a finite float in the style of `%a`, without its `0x`, and answers how long the text is (C11
/// 7.21.6.1p8). Without a precision it has as many digits as are needed.
pub fn write_hexadecimal(x: f64, precision: Option<u8>, alt: bool, out: &mut [u8; ROOM]) -> usize
    requires { IsTrue (float_is_finite x) }
    ensures end { result ≤ 565 }
    ensures text { IsHexadecimalText alt precision x (take result out.new) }
{
    let (_, bits) = sign_and_bits(x);
    let (m, power) = binary_of(bits);
    let end = put_numeral(m, precision, alt, out);
    put_binary_exponent(m, power, out, end)
}
