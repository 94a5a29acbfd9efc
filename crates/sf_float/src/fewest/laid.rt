//! Digits laid out as text.
ghost use Rattle.std.specs.Prelude.{◌≡◌, ℕ, ◌+◌, ◌-◌, ◌*◌, ◌/◌, ◌%◌, ◌^◌, ◌<◌, ◌≤◌, ◌++◌, ◌∷◌, [], take, IsTrue};
ghost use Rattle.std.specs.Prelude.{IsFalse, nat_lt};
ghost use Rattle.std.specs.Fmt.{sign_text};
ghost use Rattle.sf_float.specs.Texts.{fixed_digits, exponent_size, IsCount};
ghost use Rattle.sf_float.specs.Computed.{count_of};
ghost use Rattle.sf_float.specs.fewest.Laid.{is_plain, plain_text, raised_text, laid_out};

use crate::ten_to;
use sf_base::{Real, pair_of};

/// Room for a text: a sign, `0.00000`, and 19 digits.
pub const ROOM: usize = 32;

pub(crate) fn put(b: u8, out: &mut [u8; ROOM], at: usize) -> usize
    requires { at < 32 }
    ensures end { result ≡ at + 1 }
    ensures written { take (at + 1) out.new ≡ take at out.old ++ b ∷ [] }
{
    out[at] = b;
    at + 1
}

pub(crate) fn put_sign(negative: bool, out: &mut [u8; ROOM], at: usize) -> usize
    requires { at < 32 }
    ensures end { (at ≤ result) × (result ≤ at + 1) }
    ensures written { take result out.new ≡ take at out.old ++ sign_text negative }
{
    if negative {
        return put(b'-', out, at);
    }
    at
}

/// A number without its last digits, so many.
fn without(n: u64, places: u32) -> u64
    ensures { result ≡ n / 10 ^ places }
{
    if places > 19 {
        return 0;
    }
    n / ten_to(places)
}

/// Writes the last digits of a number, so many: two at a time, from the end.
fn put_last(n: u64, count: u32, out: &mut [u8; ROOM], at: usize) -> usize
    requires { at + count ≤ 32 }
    ensures end { result ≡ at + count }
    ensures written { take result out.new ≡ take at out.old ++ fixed_digits count n }
{
    let end = at + count as usize;
    let mut left = n;
    let mut k = end;
    while k >= at + 2 {
        let (tens, ones) = pair_of(left % 100);
        out[k - 1] = ones;
        out[k - 2] = tens;
        k -= 2;
        left /= 100;
    }
    if k > at {
        out[at] = b'0' + (left % 10) as u8;
    }
    end
}

/// Writes the digits after which `to` others or more stand, and fewer than `from`.
fn put_digits(n: u64, from: u32, to: u32, out: &mut [u8; ROOM], at: usize) -> usize
    requires { (to ≤ from) × (at + (from - to) ≤ 32) }
    ensures end { result ≡ at + (from - to) }
    ensures written { take result out.new ≡ take at out.old ++ fixed_digits (from - to) (n / 10 ^ to) }
{
    put_last(without(n, to), from - to, out, at)
}

/// A number of digits that a number has at least, near to what it has.
fn least_count(n: u64) -> u32
    ensures { (0 < result) × (result ≤ 20) × (1 < result → 10 ^ (result - 1) ≤ n) }
{
    if n < 10_000 {
        1
    } else if n < 100_000_000 {
        5
    } else if n < 1_000_000_000_000_000 {
        9
    } else {
        16
    }
}

/// How many digits a number has.
fn count_of(n: u64) -> u32
    ensures count { IsCount 0 n result }
    ensures value { result ≡ count_of 0 n }
    ensures few { result ≤ 20 }
    ensures below { (k : ℕ) → 0 < k → n < 10 ^ k → result ≤ k }
{
    let mut count = least_count(n);
    while count < 20 && n >= ten_to(count) {
        count += 1;
    }
    count
}

fn put_plain(n: u64, last: u32, point: u32, out: &mut [u8; ROOM], at: usize) -> usize
    requires digits { n < 10 ^ (point - last) }
    requires range { (395 ≤ point) × (point ≤ 416) × (last < point) × (point ≤ last + 18) }
    requires room { at ≤ 1 }
    ensures end { (at < result) × (result ≤ 32) }
    ensures written { take result out.new ≡ take at out.old ++ plain_text n last point }
{
    let decimals = 400u32.saturating_sub(last).max(1);
    let whole = point.saturating_sub(400).max(1);
    let number = n * ten_to(last + decimals - 400);
    let end = put_digits(number, whole + decimals, decimals, out, at);
    let end = put(b'.', out, end);
    put_digits(number, decimals, 0, out, end)
}

fn put_exponent(power: u32, out: &mut [u8; ROOM], at: usize) -> usize
    requires { (power ≤ 1100) × (at ≤ 20) }
    ensures end { (at < result) × (result ≤ at + 5) }
    ensures written { take result out.new ≡ take at out.old ++ 101 ∷ (sign_text (nat_lt power 400)
        ++ fixed_digits (count_of 0 (exponent_size power)) (exponent_size power)) }
{
    let end = put(b'e', out, at);
    let end = put_sign(power < 400, out, end);
    let size = power.saturating_sub(400) + 400u32.saturating_sub(power);
    put_digits(size as u64, count_of(size as u64), 0, out, end)
}

fn put_raised(n: u64, count: u32, point: u32, out: &mut [u8; ROOM], at: usize) -> usize
    requires { (0 < count) × (count ≤ 18) × (0 < point) × (point ≤ 1100) × (at ≤ 1) }
    ensures end { (at < result) × (result ≤ 32) }
    ensures written { take result out.new ≡ take at out.old ++ raised_text n count point }
{
    let end = put_digits(n, count, count - 1, out, at);
    let end = if count > 1 { put(b'.', out, end) } else { end };
    let end = put_digits(n, count - 1, 0, out, end);
    put_exponent(point - 1, out, end)
}

/// Whether there is no exponent.
fn is_plain(real: Real, point: u32) -> bool
    ensures value { result ≡ is_plain real point }
    ensures range { IsTrue result → (395 ≤ point) × (point ≤ 416) }
{
    match real {
        Real::F32(_) => 395 <= point && point <= 413,
        Real::F64(_) => 396 <= point && point <= 416,
    }
}

/// Writes the digits of a float of this kind.
pub(crate) fn put_laid_out(real: Real, n: u64, last: u32, out: &mut [u8; ROOM], at: usize) -> usize
    requires { (n < 10 ^ 18) × (last ≤ 1000) × (at ≤ 1) }
    ensures end { (at < result) × (result ≤ 32) }
    ensures written { take result out.new ≡ take at out.old ++ laid_out real n last }
{
    let count = count_of(n);
    let point = count + last;
    if is_plain(real, point) {
        put_plain(n, last, point, out, at)
    } else {
        put_raised(n, count, point, out, at)
    }
}
