//! Decimal digits, three or two at a time.
ghost use Rattle.std.specs.Prelude.{◌≡◌, ◌+◌, ◌<◌, ◌≤◌, ◌++◌, [], ◌∷◌, length, take, OnOk, OnErr};
ghost use Rattle.std.specs.Fmt.{decimal};
ghost use Rattle.sf_print.specs.digits.Decimals.{two_digits, three_digits, four_digits, eight_digits};
ghost use Rattle.sf_print.specs.digits.Decimals.{minus};

use crate::digits::copies::copy_over;
use crate::digits::triples::TRIPLES;
use sf_base::pair_of;
use std::alloc::AllocError;

/// A minus, and room after it for the digits of any number.
const MINUS_AND_ROOM: [u8; 24] = [b'-'; 24];

/// Writes two digits.
#[inline(always)]
fn write_pair(pair: u64, buf: &mut [u8], at: usize)
    requires { (pair < 100) × (at + 2 ≤ length buf.old) }
    ensures { take (at + 2) buf.new ≡ take at buf.old ++ two_digits pair }
{
    let (tens, ones) = pair_of(pair);
    buf[at] = tens;
    buf[at + 1] = ones;
}

/// The three digits of a number, with zeros in front, and a byte after them.
#[inline(always)]
fn triple_of(three: u64) -> [u8; 4]
    requires { three < 1000 }
    ensures { result ≡ three_digits three ++ 48 ∷ [] }
{
    TRIPLES[three as usize]
}

/// Writes three digits, with zeros in front, and a byte after them that is of no account.
#[inline(always)]
fn put_three(three: u64, buf: &mut [u8], at: usize)
    requires { (three < 1000) × (at + 4 ≤ length buf.old) }
    ensures { take (at + 3) buf.new ≡ take at buf.old ++ three_digits three }
{
    copy_over(&triple_of(three), buf, at);
}

/// Writes the digits of a number below 1000 from a place on, and answers where they end. A byte after them is of no
/// account.
#[inline(always)]
fn put_first(number: u64, buf: &mut [u8], at: usize) -> usize
    requires { (number < 1000) × (at + length (decimal number) < length buf.old) }
    ensures end { result ≡ at + length (decimal number) }
    ensures written { take result buf.new ≡ take at buf.old ++ decimal number }
{
    if number < 10 {
        buf[at] = b'0' + number as u8;
        return at + 1;
    }
    if number < 100 {
        write_pair(number, buf, at);
        return at + 2;
    }
    put_three(number, buf, at);
    at + 3
}

/// Writes the digits of a number below 1000000.
#[inline(always)]
fn put_short(number: u64, buf: &mut [u8], at: usize) -> usize
    requires { (number < 1000000) × (at + length (decimal number) < length buf.old) }
    ensures end { result ≡ at + length (decimal number) }
    ensures written { take result buf.new ≡ take at buf.old ++ decimal number }
{
    if number < 1000 {
        return put_first(number, buf, at);
    }
    let end = put_first(number / 1000, buf, at);
    put_three(number % 1000, buf, end);
    end + 3
}

/// Writes four digits, with zeros in front.
#[inline(always)]
fn put_four(four: u64, buf: &mut [u8], at: usize)
    requires { (four < 10000) × (at + 4 ≤ length buf.old) }
    ensures { take (at + 4) buf.new ≡ take at buf.old ++ four_digits four }
{
    write_pair(four / 100, buf, at);
    write_pair(four % 100, buf, at + 2);
}

/// Writes the digits of a number below 1000000000.
#[inline(always)]
fn put_medium(number: u64, buf: &mut [u8], at: usize) -> usize
    requires { (number < 1000000000) × (at + length (decimal number) < length buf.old) }
    ensures end { result ≡ at + length (decimal number) }
    ensures written { take result buf.new ≡ take at buf.old ++ decimal number }
{
    if number < 1_000_000 {
        return put_short(number, buf, at);
    }
    let end = put_short(number / 1000, buf, at);
    put_three(number % 1000, buf, end);
    end + 3
}

/// Writes eight digits, with zeros in front.
#[inline(always)]
fn put_eight(eight: u64, buf: &mut [u8], at: usize)
    requires { (eight < 100000000) × (at + 8 ≤ length buf.old) }
    ensures { take (at + 8) buf.new ≡ take at buf.old ++ eight_digits eight }
{
    put_four(eight / 10_000, buf, at);
    put_four(eight % 10_000, buf, at + 4);
}

/// Writes the digits of a number below 100000000000000000. A byte after them is of no account.
#[inline(always)]
fn put_high(number: u64, buf: &mut [u8], at: usize) -> usize
    requires { (number < 100000000000000000) × (at + length (decimal number) < length buf.old) }
    ensures end { result ≡ at + length (decimal number) }
    ensures written { take result buf.new ≡ take at buf.old ++ decimal number }
{
    if number < 1_000_000_000 {
        return put_medium(number, buf, at);
    }
    let end = put_medium(number / 100_000_000, buf, at);
    put_eight(number % 100_000_000, buf, end);
    end + 8
}

/// Writes the digits of a number of ten digits.
#[inline(always)]
fn put_ten(number: u64, buf: &mut [u8], at: usize) -> usize
    requires least { 1000000000 ≤ number }
    requires below { number < 10000000000 }
    requires room { at + length (decimal number) ≤ length buf.old }
    ensures end { result ≡ at + length (decimal number) }
    ensures written { take result buf.new ≡ take at buf.old ++ decimal number }
{
    write_pair(number / 100_000_000, buf, at);
    let end = at + 2;
    put_eight(number % 100_000_000, buf, end);
    end + 8
}

/// Writes the digits of a number of eleven digits at least. It is a call of its own, so that ten digits are written
/// without the registers that it needs.
#[inline(never)]
fn put_longer(number: u64, buf: &mut [u8], at: usize) -> usize
    requires { (10000000000 ≤ number) × (at + length (decimal number) ≤ length buf.old) }
    ensures end { result ≡ at + length (decimal number) }
    ensures written { take result buf.new ≡ take at buf.old ++ decimal number }
{
    let end = put_high(number / 100_000_000, buf, at);
    put_eight(number % 100_000_000, buf, end);
    end + 8
}

/// Writes the digits of a number of ten digits at least. It is a call of its own, so that others don't pay for it.
#[inline(never)]
fn put_long(number: u64, buf: &mut [u8], at: usize) -> usize
    requires { (1000000000 ≤ number) × (at + length (decimal number) ≤ length buf.old) }
    ensures end { result ≡ at + length (decimal number) }
    ensures written { take result buf.new ≡ take at buf.old ++ decimal number }
{
    if number < 10_000_000_000 {
        return put_ten(number, buf, at);
    }
    put_longer(number, buf, at)
}

/// Writes the decimal digits of a number from a place on, and answers where they end.
#[inline(always)]
pub fn write_decimal(number: u64, buf: &mut [u8], at: usize) -> usize
    requires digits { at + length (decimal number) ≤ length buf.old }
    requires room { at + 10 ≤ length buf.old }
    ensures end { result ≡ at + length (decimal number) }
    ensures written { take result buf.new ≡ take at buf.old ++ decimal number }
{
    if number < 1_000_000 {
        return put_short(number, buf, at);
    }
    if number < 1_000_000_000 {
        return put_medium(number, buf, at);
    }
    put_long(number, buf, at)
}

/// Writes a minus, if there is one, and the decimal digits of a number from a place on, and answers where they end.
#[inline(always)]
pub fn write_number(negative: bool, magnitude: u64, buf: &mut [u8], at: usize) -> usize
    requires { at + 21 ≤ length buf.old }
    ensures end { result ≡ at + length (minus negative ++ decimal magnitude) }
    ensures most { result ≤ at + 21 }
    ensures written { take result buf.new ≡ take at buf.old ++ (minus negative ++ decimal magnitude) }
{
    buf[at] = b'-';
    write_decimal(magnitude, buf, at + negative as usize)
}

/// Appends a minus, if there is one, and the decimal digits of a number. Where memory is refused, nothing is appended.
#[inline]
pub fn push_number(output: &mut Vec<u8>, negative: bool, magnitude: u64) -> Result<(), AllocError>
    ensures appended { OnOk result (output.new.items ≡ output.old.items ++ (minus negative ++ decimal magnitude)) }
    ensures refused { OnErr result (output.new.items ≡ output.old.items) }
{
    let start = output.len() + negative as usize;
    output.extend_from_slice(&MINUS_AND_ROOM)?;
    let end = write_decimal(magnitude, output, start);
    output.truncate(end);
    Ok(())
}

/// How many decimal digits a number has.
#[inline]
pub fn decimal_len(number: u64) -> usize
    ensures { result ≡ length (decimal number) }
{
    let mut left = number;
    let mut count = 0;
    while left >= 10_000 {
        left /= 10_000;
        count += 4;
    }
    if left >= 1000 {
        count + 4
    } else if left >= 100 {
        count + 3
    } else if left >= 10 {
        count + 2
    } else {
        count + 1
    }
}
