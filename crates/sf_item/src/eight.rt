//! Decimal digits, eight bytes at once.
ghost use Rattle.std.specs.Prelude.{◌≡◌, ◌+◌, ◌<◌, ◌≤◌, ◌%◌, ◌^◌, ℕ, Bool, List, length, map, not, slice_index, take};
ghost use Rattle.std.specs.Char.{digit_value, is_ascii_digit};
ghost use Rattle.std.specs.List.{prefix_len};
ghost use Rattle.sf_item.specs.Scan.{ReadsDecimal};
ghost use lib.Lanes.{mask_l, chunk};

use std::simd::prelude::*;

/// How many bytes are looked at at once.
pub(crate) const LANES: usize = 8;

/// What the first to the last of eight digits are worth, and nothing for what follows them. The worths of fewer digits
/// begin later.
static WORTHS: [u32; 16] = [
    10_000_000, 1_000_000, 100_000, 10_000, 1000, 100, 10, 1, 0, 0, 0, 0, 0, 0, 0, 0,
];

/// Which of the first eight bytes are no decimal digits: a bit each, the first byte's the lowest.
#[inline(always)]
fn other_mask(piece: &[u8]) -> u64
    requires { 8 ≤ length piece.now }
    ensures { result ≡ mask_l (map (λ b. not (is_ascii_digit b)) (chunk 0 8 piece.now)) }
{
    let values = u8x8::from_slice(piece) - u8x8::splat(b'0');
    values.simd_ge(u8x8::splat(10)).to_bitmask()
}

/// How many of eight lanes come before the first that the mask marks.
#[inline(always)]
pub(crate) fn lanes_before(mask: u64) -> usize
    ensures { (p : ℕ → Bool) (lanes : List ℕ) → length lanes ≡ 8 → mask ≡ mask_l (map (λ b. not (p b)) lanes)
        → result ≡ prefix_len p lanes }
{
    if mask == 0 {
        LANES
    } else {
        mask.trailing_zeros() as usize
    }
}

/// How many decimal digits the first eight bytes begin with.
#[inline(always)]
fn digit_run(piece: &[u8]) -> usize
    requires { 8 ≤ length piece.now }
    ensures { result ≡ prefix_len is_ascii_digit (take 8 piece.now) }
{
    lanes_before(other_mask(piece))
}

/// How far each of the first eight bytes is above `0`, modulo 256.
#[inline(always)]
fn values_of(piece: &[u8]) -> [u8; LANES]
    requires { 8 ≤ length piece.now }
    ensures { result ≡ map (λ b. (b + 208) % 256) (chunk 0 8 piece.now) }
{
    (u8x8::from_slice(piece) - u8x8::splat(b'0')).to_array()
}

/// The number of so many digits: each of the eight bytes is weighed, those after them with 0.
#[inline(always)]
fn weighed(piece: &[u8], count: usize) -> u32
    requires room { 8 ≤ length piece.now }
    requires digits { count ≤ prefix_len is_ascii_digit (take 8 piece.now) }
    ensures read { ReadsDecimal 0 (take count piece.now) result }
    ensures small { result < 10 ^ count }
{
    let values = values_of(piece);
    let mut number: u32 = 0;
    for i in 0..LANES {
        number += WORTHS[LANES - count + i] * values[i] as u32;
    }
    number
}

/// The decimal digits that the piece begins with, eight and so many at most: their number, and how many. Of fewer than
/// eight bytes none are taken.
#[inline(always)]
pub(crate) fn first_digits(piece: &[u8], most: usize) -> (u64, usize)
    ensures within { result.1 ≤ length piece.now }
    ensures most { result.1 ≤ most }
    ensures read { ReadsDecimal 0 (take result.1 piece.now) result.0 }
    ensures small { result.0 < 10 ^ result.1 }
    ensures few { result.1 ≤ LANES }
    ensures stops { 0 < result.1 → result.1 < 8 → result.1 < most → 10 ≤ digit_value (slice_index piece.now result.1) }
{
    if piece.len() < LANES {
        return (0, 0);
    }
    let count = digit_run(piece).min(most);
    (weighed(piece, count) as u64, count)
}
