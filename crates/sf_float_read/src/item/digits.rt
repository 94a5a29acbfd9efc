//! Runs of decimal digits, eight bytes at once.
ghost use Rattle.std.specs.Prelude.{◌≡◌, ◌≤◌, length, map, not, take};
ghost use Rattle.std.specs.Char.{is_ascii_digit};
ghost use Rattle.std.specs.List.{prefix_len};
ghost use lib.Lanes.{mask_l, chunk};

use std::simd::prelude::*;

const LANES: usize = 8;

/// Which of the first eight bytes are no decimal digits: a bit each, the first byte's the lowest.
#[inline(always)]
fn other_mask(piece: &[u8]) -> u64
    requires { 8 ≤ length piece.now }
    ensures { result ≡ mask_l (map (λ b. not (is_ascii_digit b)) (chunk 0 8 piece.now)) }
{
    let values = u8x8::from_slice(piece) - u8x8::splat(b'0');
    values.simd_ge(u8x8::splat(10)).to_bitmask()
}

/// How many decimal digits the first eight bytes begin with.
#[inline(always)]
fn first_run(piece: &[u8]) -> usize
    requires { 8 ≤ length piece.now }
    ensures { result ≡ prefix_len is_ascii_digit (take 8 piece.now) }
{
    let others = other_mask(piece);
    if others == 0 {
        LANES
    } else {
        others.trailing_zeros() as usize
    }
}

/// How many decimal digits the piece begins with.
pub(crate) fn digit_run(piece: &[u8]) -> usize
    ensures { result ≡ prefix_len is_ascii_digit piece.now }
{
    let mut at = 0;
    while piece.len() - at >= LANES {
        let run = first_run(&piece[at..]);
        at += run;
        if run < LANES {
            return at;
        }
    }
    while at < piece.len() {
        if !piece[at].is_ascii_digit() {
            return at;
        }
        at += 1;
    }
    at
}
