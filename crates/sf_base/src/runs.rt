//! Runs of white space, of bytes that are none, and of bytes before a given one, sixteen bytes at once.
ghost use Rattle.std.specs.Prelude.{◌≡◌, ◌+◌, ◌==◌, ◌≤◌, not, length, map};
ghost use Rattle.std.specs.List.{prefix_len};
ghost use Rattle.sf_base.specs.Bytes.{is_white, is_ink, is_of_run, is_other, IsSkip, IsLongestFront};
ghost use lib.Lanes.{mask_l, chunk};

use crate::bytes::is_space;
use memchr::memchr;
use std::simd::prelude::*;

const LANES: usize = 16;

/// Whether the byte belongs to a run: of white space, or of bytes that are none.
#[inline(always)]
fn belongs(white: bool, b: u8) -> bool
    ensures { result ≡ is_of_run white b }
{
    is_space(b) == white
}

/// Which of the sixteen bytes from the place on don't belong to the run: a bit each, the first byte's the lowest.
#[inline(always)]
fn others_mask(white: bool, piece: &[u8], at: usize) -> u64
    requires { at + LANES ≤ length piece.now }
    ensures { result ≡ mask_l (map (λ b. not (is_of_run white b)) (chunk at 16 piece.now)) }
{
    let lanes = u8x16::from_slice(&piece[at..]);
    let spaces = (lanes - u8x16::splat(9)).simd_lt(u8x16::splat(5))
        | lanes.simd_eq(u8x16::splat(32));
    if white {
        return (!spaces).to_bitmask();
    }
    spaces.to_bitmask()
}

/// The length of the longest front that is a run.
#[inline(always)]
fn run(white: bool, piece: &[u8]) -> usize
    ensures longest { IsLongestFront (is_of_run white) piece.now result }
    ensures count { result ≡ prefix_len (is_of_run white) piece.now }
{
    let mut at = 0;
    while piece.len() - at >= LANES {
        let others = others_mask(white, piece, at);
        if others != 0 {
            return at + others.trailing_zeros() as usize;
        }
        at += LANES;
    }
    while at < piece.len() {
        if !belongs(white, piece[at]) {
            return at;
        }
        at += 1;
    }
    at
}

/// How much white space the bytes begin with: the length of their longest front that is all white space.
pub fn space_run(piece: &[u8]) -> usize
    ensures longest { IsSkip piece.now result }
    ensures count { result ≡ prefix_len is_white piece.now }
{
    run(true, piece)
}

/// How many bytes stand before the first white space: the length of the longest front that holds none.
pub fn text_run(piece: &[u8]) -> usize
    ensures longest { IsLongestFront is_ink piece.now result }
    ensures count { result ≡ prefix_len is_ink piece.now }
{
    run(false, piece)
}

/// Which of the first sixteen bytes are this one: a bit each, the first byte's the lowest.
#[inline(always)]
fn end_mask(end: u8, bytes: &[u8]) -> u64
    requires { 16 ≤ length bytes.now }
    ensures { result ≡ mask_l (map (λ b. b == end) (chunk 0 16 bytes.now)) }
{
    u8x16::from_slice(bytes)
        .simd_eq(u8x16::splat(end))
        .to_bitmask()
}

/// How many bytes stand before the first that is this one; all, where none is. Most fields are short, so the first
/// bytes are looked at without a call.
#[inline(always)]
pub fn run_before(end: u8, bytes: &[u8]) -> usize
    ensures { result ≡ prefix_len (is_other end) bytes.now }
{
    if bytes.len() >= LANES {
        let ends = end_mask(end, bytes);
        if ends != 0 {
            return ends.trailing_zeros() as usize;
        }
    }
    match memchr(end, bytes) {
        Some(at) => at,
        None => bytes.len(),
    }
}
