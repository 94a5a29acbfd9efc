//! Newlines, sixteen bytes at once.
ghost use Rattle.std.specs.Prelude.{◌≡◌, ◌≤◌, length, take};
ghost use Rattle.sf_read.specs.source.Counts.{lines_after, newlines};

use sf_read::count_newlines;
use std::simd::prelude::*;

/// How many bytes are looked at at once.
const LANES: usize = 16;

/// How many of the first `count` bytes are newlines.
#[inline(always)]
fn newlines_of(bytes: &[u8], count: usize) -> u32
    requires room { 16 ≤ length bytes.now }
    requires few { count ≤ 16 }
    ensures { result ≡ newlines (take count bytes.now) }
{
    let found = u8x16::from_slice(bytes)
        .simd_eq(u8x16::splat(b'\n'))
        .to_bitmask();
    (found % (1 << count)).count_ones()
}

/// Adds the newlines of the first `count` bytes, sixteen bytes at once. The count of lines stays at 2^64 - 1.
#[inline(never)]
fn count_long(lines: &mut u64, bytes: &[u8], count: usize)
    requires { count ≤ length bytes.now }
    ensures { lines.new ≡ lines_after lines.old (take count bytes.now) }
{
    let mut rest = bytes;
    let mut left = count;
    while left > 0 && rest.len() >= LANES {
        let now = left.min(LANES);
        *lines = lines.saturating_add(newlines_of(rest, now) as u64);
        let (_, after) = rest.split_at(now);
        rest = after;
        left -= now;
    }
    let (front, _) = rest.split_at(left);
    count_newlines(lines, front);
}

/// Adds the newlines of the first `count` bytes. The count of lines stays at 2^64 - 1. Most records are short, and are
/// looked at without a call.
#[inline(always)]
pub(crate) fn count_front(lines: &mut u64, bytes: &[u8], count: usize)
    requires { count ≤ length bytes.now }
    ensures { lines.new ≡ lines_after lines.old (take count bytes.now) }
{
    if bytes.len() < LANES || count > LANES {
        count_long(lines, bytes, count);
        return;
    }
    *lines = lines.saturating_add(newlines_of(bytes, count) as u64);
}
