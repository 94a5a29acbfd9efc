//! What is stored of a matching sequence: the pattern of the nearest float, a tie to the even one.
ghost use Rattle.std.specs.Prelude.{◌≡◌, ◌^◌, ℕ, List, true, Some, to_bits};
ghost use Rattle.std.specs.Float.{binary32, binary64};
ghost use Rattle.std.specs.Float.Ieee.{Float, inf, nan, round};
ghost use Rattle.std.specs.Float.Parse.{parse_float, is_float_text};
ghost use Rattle.sf_float_read.specs.item.Decimals.{IsDecimal};
ghost use Rattle.sf_float_read.specs.item.Sequences.{IsFloat, IsNumber};
ghost use Rattle.sf_float_read.specs.declared.item.reached.Radix.TheVariants.{Sixteen};
ghost use Rattle.sf_float_read.specs.value.Values.{IsHexValue, IsStored, stored};

use crate::value::form::{Form, form_of, split};
use crate::value::hexadecimal::hexadecimal;
use crate::value::nearest::FloatKind;
use fast_float::from_parts;

/// The pattern of the one NaN of binary64.
const NAN_F64: u64 = 0x7ff8_0000_0000_0000;

const NAN_F32: u32 = 0x7fc0_0000;

const INFINITY_F64: u64 = 0x7ff0_0000_0000_0000;

const INFINITY_F32: u32 = 0x7f80_0000;

const SIGN_F64: u64 = 0x8000_0000_0000_0000;

const SIGN_F32: u32 = 0x8000_0000;

fn stored_f64(x: f64) -> Option<u64>
    ensures { result ≡ stored binary64 x }
{
    if x.is_nan() {
        return Some(NAN_F64);
    }
    if x.is_infinite() {
        return None;
    }
    Some(x.to_bits())
}

fn stored_f32(x: f32) -> Option<u32>
    ensures { result ≡ stored binary32 x }
{
    if x.is_nan() {
        return Some(NAN_F32);
    }
    if x.is_infinite() {
        return None;
    }
    Some(x.to_bits())
}

/// The nearest `f64` of a decimal numeral, `inf`, `infinity` or `nan`.
fn decimal_f64(item: &[u8]) -> Option<u64>
    requires { is_float_text item.now ≡ true }
    ensures { (x : Float) × (parse_float binary64 item.now ≡ Some x) × (result ≡ stored binary64 x) }
{
    match fast_float::parse(item) {
        Ok(x) => stored_f64(x),
        Err(_) => None,
    }
}

/// The nearest `f32`, rounded once.
fn decimal_f32(item: &[u8]) -> Option<u32>
    requires { is_float_text item.now ≡ true }
    ensures { (x : Float) × (parse_float binary32 item.now ≡ Some x) × (result ≡ stored binary32 x) }
{
    match fast_float::parse(item) {
        Ok(x) => stored_f32(x),
        Err(_) => None,
    }
}

fn infinity_f64(negative: bool) -> u64
    ensures { result ≡ to_bits binary64 (inf negative) }
{
    if negative {
        SIGN_F64 + INFINITY_F64
    } else {
        INFINITY_F64
    }
}

fn infinity_f32(negative: bool) -> u32
    ensures { result ≡ to_bits binary32 (inf negative) }
{
    if negative {
        SIGN_F32 + INFINITY_F32
    } else {
        INFINITY_F32
    }
}

/// A hexadecimal numeral; the sign is the highest bit of the pattern.
fn hexadecimal_f64(negative: bool, numeral: &[u8]) -> Option<u64>
    requires { IsNumber Sixteen numeral.now }
    ensures { (x : Float) × IsHexValue binary64 negative numeral.now x × (result ≡ stored binary64 x) }
{
    let bits = hexadecimal(numeral, FloatKind::F64);
    if bits == INFINITY_F64 {
        return None;
    }
    Some(if negative { SIGN_F64 + bits } else { bits })
}

fn hexadecimal_f32(negative: bool, numeral: &[u8]) -> Option<u32>
    requires { IsNumber Sixteen numeral.now }
    ensures { (x : Float) × IsHexValue binary32 negative numeral.now x × (result ≡ stored binary32 x) }
{
    let bits = hexadecimal(numeral, FloatKind::F32) as u32;
    if bits == INFINITY_F32 {
        return None;
    }
    Some(if negative { SIGN_F32 + bits } else { bits })
}

/// What a conversion to `f64` stores of a matching sequence, as a pattern: the nearest number, rounded once. Nothing
/// where a finite number rounds to an infinity, which is out of range. Of `nan` the one NaN (C11 7.21.6.2p10,
/// 7.22.1.3).
pub fn value_f64(item: &[u8]) -> Option<u64>
    requires { IsFloat item.now }
    ensures { IsStored binary64 item.now result }
{
    let (negative, start) = split(item);
    let size = &item[start..];
    match form_of(size) {
        Form::Decimal => decimal_f64(item),
        Form::Hexadecimal => hexadecimal_f64(negative, &size[2..]),
        Form::Infinity => Some(infinity_f64(negative)),
        Form::Nan => Some(NAN_F64),
    }
}

/// What one to `f32` stores: rounded straight to it, not by way of an `f64`.
pub fn value_f32(item: &[u8]) -> Option<u32>
    requires { IsFloat item.now }
    ensures { IsStored binary32 item.now result }
{
    let (negative, start) = split(item);
    let size = &item[start..];
    match form_of(size) {
        Form::Decimal => decimal_f32(item),
        Form::Hexadecimal => hexadecimal_f32(negative, &size[2..]),
        Form::Infinity => Some(infinity_f32(negative)),
        Form::Nan => Some(NAN_F32),
    }
}

/// The `f64` nearest to the number over so many powers of ten, with the sign.
#[inline(always)]
fn quotient_f64(negative: bool, number: u64, tens: u32) -> f64
    ensures { result ≡ round binary64 negative number (10 ^ tens) }
{
    let exponent = 0 - tens as i64;
    from_parts(negative, number, exponent)
}

#[inline(always)]
fn quotient_f32(negative: bool, number: u64, tens: u32) -> f32
    ensures { result ≡ round binary32 negative number (10 ^ tens) }
{
    let exponent = 0 - tens as i64;
    from_parts(negative, number, exponent)
}

/// As `value_f64`, of a decimal numeral of which the number of its digits is known, and how many stand after the point.
#[inline(always)]
pub fn decimal_value_f64(negative: bool, digits: u64, places: u32) -> Option<u64>
    ensures { (item : List ℕ) → IsDecimal item negative digits places → IsStored binary64 item result }
{
    stored_f64(quotient_f64(negative, digits, places))
}

/// As `value_f32`, of such a numeral.
#[inline(always)]
pub fn decimal_value_f32(negative: bool, digits: u64, places: u32) -> Option<u32>
    ensures { (item : List ℕ) → IsDecimal item negative digits places → IsStored binary32 item result }
{
    stored_f32(quotient_f32(negative, digits, places))
}
