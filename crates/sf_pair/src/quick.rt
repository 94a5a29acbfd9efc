//! Texts of most values, written and judged at once: decimal numbers, padded at most, and short texts as they are.
ghost use Rattle.std.specs.Prelude.{◌≡◌, ◌≤◌, ◌+◌, ◌++◌, true, IfSome, IsSome, length, map, take};
ghost use Rattle.std.specs.List.{list_all, slice_range};
ghost use Rattle.sf_base.specs.Bytes.{is_white};
ghost use Rattle.sf_base.specs.Data.{Bytes, datum_of_number};
ghost use Rattle.sf_item.specs.Tests.{is_ink};
ghost use Rattle.sf_print.specs.texts.Text.{value_text};
ghost use Rattle.sf_pair.specs.Fits.{value_fits};
ghost use lib.Lanes.{mask_l, chunk};

use crate::fitting::is_between;
use crate::in_place::text_is_read;
use crate::pairing::width_of;
use sf_base::{Number, Shown};
use sf_format::{Conversion, PrintConv, Shape};
use sf_print::{write_integer, write_plain_bytes};
use std::simd::prelude::*;

const LANES: usize = 16;

/// Which of the sixteen bytes from the place on are white space: a bit each, the first byte's the lowest.
#[inline(always)]
fn white_mask(bytes: &[u8], at: usize) -> u64
    requires { at + LANES ≤ length bytes.now }
    ensures { result ≡ mask_l (map is_white (chunk at 16 bytes.now)) }
{
    let lanes = u8x16::from_slice(&bytes[at..]);
    let white = (lanes - u8x16::splat(9)).simd_lt(u8x16::splat(5))
        | lanes.simd_eq(u8x16::splat(32));
    white.to_bitmask()
}

/// Whether none of so many bytes from the place on is white space.
#[inline(always)]
fn are_ink(bytes: &[u8], at: usize, count: usize) -> bool
    requires { (at + LANES ≤ length bytes.now) × (count ≤ 16) }
    ensures { result ≡ list_all is_ink (slice_range bytes.now at (at + count)) }
{
    count <= white_mask(bytes, at).trailing_zeros() as usize
}

/// Writes the text that the conversion prints of a number from a place on, and answers where it ends. None where the
/// scan's conversion doesn't read it, or where there is no room.
#[inline(always)]
pub(crate) fn write_number_read(
    conv: &PrintConv,
    scan: &Conversion,
    number: Number,
    buf: &mut [u8],
    at: usize,
) -> Option<usize>
    requires { at ≤ length buf.old }
    ensures within { IfSome result (λ end. end ≤ length buf.new) }
    ensures written { IfSome result (λ end. take end buf.new
        ≡ take at buf.old ++ value_text conv.now (datum_of_number number)) }
    ensures fits { IfSome result (λ _. value_fits conv.now scan.now (datum_of_number number) ≡ true) }
    ensures answers { value_fits conv.now scan.now (datum_of_number number) ≡ true
        → at + length (value_text conv.now (datum_of_number number)) + 21 ≤ length buf.old → IsSome result }
{
    let end = write_integer(conv, number, buf, at)?;
    if !text_is_read(conv, scan, Shown::Number(number), &buf[at..end]) {
        return None;
    }
    Some(end)
}

/// Writes the text that the conversion prints of bytes from a place on, and answers where it ends. None where it isn't
/// known at once that the scan's conversion reads it.
#[inline(always)]
pub(crate) fn write_text_read(
    conv: &PrintConv,
    scan: &Conversion,
    bytes: &[u8],
    buf: &mut [u8],
    at: usize,
) -> Option<usize>
    requires { at ≤ length buf.old }
    ensures within { IfSome result (λ end. end ≤ length buf.new) }
    ensures written { IfSome result (λ end. take end buf.new
        ≡ take at buf.old ++ value_text conv.now (Bytes bytes.now)) }
    ensures fits { IfSome result (λ _. value_fits conv.now scan.now (Bytes bytes.now) ≡ true) }
    ensures before { take at buf.new ≡ take at buf.old }
{
    if scan.column || bytes.len() > LANES || buf.len() - at < LANES {
        return None;
    }
    if !is_between(bytes, width_of(scan)) {
        return None;
    }
    let Shape::Text(_) = scan.shape else {
        return None;
    };
    let end = write_plain_bytes(conv, bytes, buf, at)?;
    if !are_ink(buf, at, bytes.len()) {
        return None;
    }
    Some(end)
}
