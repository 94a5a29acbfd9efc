//! Hexadecimal digits, eight bytes at once.
ghost use Rattle.std.specs.Prelude.{◌≡◌, ◌<◌, ◌≤◌, ◌^◌, ℕ, get_or, length, map, nat_lt, not, slice_index, take};
ghost use Rattle.std.specs.Char.{digit_value};
ghost use Rattle.std.specs.List.{prefix_len};
ghost use Rattle.sf_item.specs.Wholes.{ReadsIn, is_hex_digit};
ghost use lib.Lanes.{mask_l, chunk};

use crate::eight::{LANES, lanes_before};
use std::simd::prelude::*;

/// What the first to the last of eight digits are worth, and nothing for what follows them. The worths of fewer digits
/// begin later.
static WORTHS: [u32; 16] = [
    0x10000000, 0x1000000, 0x100000, 0x10000, 0x1000, 0x100, 0x10, 1, 0, 0, 0, 0, 0, 0, 0, 0,
];

/// The bit that a small letter has, and its capital lacks.
const CASE: u8 = 32;

/// The values of those of the first eight bytes that are hexadecimal digits, and 16 at least of the others: the lesser
/// one of what a byte is as a digit and as a letter.
#[inline(always)]
fn values_of(piece: &[u8]) -> u8x8
    requires { 8 ≤ length piece.now }
    ensures eight { length result ≡ 8 }
    ensures digits { (i : ℕ) → i < 8 → digit_value (get_or piece.now i 0) < 16
        → get_or result i 0 ≡ digit_value (get_or piece.now i 0) }
    ensures others { map (λ v. nat_lt v 16) result ≡ map is_hex_digit (chunk 0 8 piece.now) }
{
    let lanes = u8x8::from_slice(piece);
    // moved so that `9` is the last byte: the seven bytes from `:` to `@` become 0 to 6, and then 16
    let digits = (lanes + u8x8::splat(255 - b'9')).simd_max(u8x8::splat(6)) - u8x8::splat(246);
    let letters = (lanes & u8x8::splat(!CASE)) - u8x8::splat(b'A');
    digits.simd_min(letters.simd_min(u8x8::splat(245)) + u8x8::splat(10))
}

/// Which of the first eight bytes are no hexadecimal digits: a bit each, the first byte's the lowest.
#[inline(always)]
fn other_mask(piece: &[u8]) -> u64
    requires { 8 ≤ length piece.now }
    ensures { result ≡ mask_l (map (λ b. not (is_hex_digit b)) (chunk 0 8 piece.now)) }
{
    values_of(piece).simd_ge(u8x8::splat(16)).to_bitmask()
}

/// How many hexadecimal digits the first eight bytes begin with.
#[inline(always)]
fn digit_run(piece: &[u8]) -> usize
    requires { 8 ≤ length piece.now }
    ensures { result ≡ prefix_len is_hex_digit (take 8 piece.now) }
{
    lanes_before(other_mask(piece))
}

/// The number of so many digits: each of the eight bytes is weighed, those after them with 0.
#[inline(always)]
fn weighed(piece: &[u8], count: usize) -> u32
    requires room { 8 ≤ length piece.now }
    requires digits { count ≤ prefix_len is_hex_digit (take 8 piece.now) }
    ensures read { ReadsIn 16 0 (take count piece.now) result }
    ensures small { result < 16 ^ count }
{
    let values = values_of(piece).to_array();
    let mut number: u32 = 0;
    for i in 0..LANES {
        number += WORTHS[LANES - count + i] * values[i] as u32;
    }
    number
}

/// The hexadecimal digits that the piece begins with, eight and so many at most: their number, and how many. Of fewer
/// than eight bytes none are taken.
#[inline(always)]
pub(crate) fn first_hex_digits(piece: &[u8], most: usize) -> (u64, usize)
    ensures within { result.1 ≤ length piece.now }
    ensures most { result.1 ≤ most }
    ensures read { ReadsIn 16 0 (take result.1 piece.now) result.0 }
    ensures small { result.0 < 16 ^ result.1 }
    ensures few { result.1 ≤ LANES }
    ensures stops { 0 < result.1 → result.1 < 8 → result.1 < most → 16 ≤ digit_value (slice_index piece.now result.1) }
{
    if piece.len() < LANES {
        return (0, 0);
    }
    let count = digit_run(piece).min(most);
    (weighed(piece, count) as u64, count)
}
