//! Bytes between quotes.
ghost use Rattle.std.specs.Prelude.{◌≡◌, ◌++◌, ◌+◌, ◌<◌, ◌≤◌, [], ◌∷◌, ℕ, length, map, nat_eq, take, drop, not, IfSome};
ghost use Rattle.std.specs.Prelude.{IsSome, OnErr, OnOk};
ghost use Rattle.std.specs.List.{flat_map, list_all, prefix_len};
ghost use Rattle.sf_forms.specs.Growing.{IsGrown};
ghost use Rattle.sf_forms.specs.Quotes.{hex_digit, escaped, is_plain, quoted};
ghost use lib.Lanes.{mask_l, chunk};

use crate::escape::{push_each, write_byte, write_each};
use crate::form::OutputForm;
use sf_print::copy_over;
use std::alloc::AllocError;
use std::simd::prelude::*;

pub(crate) const LANES: usize = 16;

/// A quote, and after it room for sixteen bytes and a quote.
const QUOTES_AND_ROOM: [u8; 24] = [b'"'; 24];

pub(crate) fn hex_digit(n: u8) -> u8
    requires { n < 16 }
    ensures { result ≡ hex_digit n }
{
    if n < 10 { b'0' + n } else { b'a' + (n - 10) }
}

/// Which of the sixteen bytes from the place on are not plain: a bit each, the first byte's the lowest.
#[inline(always)]
pub(crate) fn odd_mask(bytes: &[u8], at: usize) -> u64
    requires { at + LANES ≤ length bytes.now }
    ensures { result ≡ mask_l (map (λ b. not (is_plain b)) (chunk at 16 bytes.now)) }
{
    let lanes = u8x16::from_slice(&bytes[at..]);
    let odd = (lanes - u8x16::splat(32)).simd_ge(u8x16::splat(95))
        | lanes.simd_eq(u8x16::splat(b'"'))
        | lanes.simd_eq(u8x16::splat(b'\\'));
    odd.to_bitmask()
}

/// How many plain bytes stand in front of fewer than sixteen: they are looked at in an array that has room for sixteen.
#[inline(always)]
fn short_run(bytes: &[u8]) -> usize
    requires { length bytes.now < 16 }
    ensures within { result ≤ length bytes.now }
    ensures count { result ≡ prefix_len is_plain bytes.now }
{
    let mut lanes = [0; LANES];
    lanes[..bytes.len()].copy_from_slice(bytes);
    let odd = odd_mask(&lanes, 0);
    bytes.len().min(odd.trailing_zeros() as usize)
}

/// How many plain bytes stand in front.
#[inline(always)]
pub(crate) fn plain_run(bytes: &[u8]) -> usize
    ensures within { result ≤ length bytes.now }
    ensures count { result ≡ prefix_len is_plain bytes.now }
{
    let mut at = 0;
    while bytes.len() - at >= LANES {
        let odd = odd_mask(bytes, at);
        if odd != 0 {
            return at + odd.trailing_zeros() as usize;
        }
        at += LANES;
    }
    at + short_run(&bytes[at..])
}

/// Appends the bytes as they stand between quotes.
#[inline(never)]
fn push_mixed(output: &mut Vec<u8>, bytes: &[u8]) -> Result<(), AllocError>
    ensures pushed { OnOk result (output.new.items ≡ output.old.items ++ flat_map escaped bytes.now) }
    ensures refused { OnErr result (IsGrown output.old.items output.new.items) }
{
    push_each(output, OutputForm::Plain, bytes)
}

/// Appends the bytes between quotes.
#[inline(never)]
fn push_long(output: &mut Vec<u8>, bytes: &[u8]) -> Result<(), AllocError>
    ensures pushed { OnOk result (output.new.items ≡ output.old.items ++ quoted bytes.now) }
    ensures refused { OnErr result (IsGrown output.old.items output.new.items) }
{
    output.push(b'"')?;
    if plain_run(bytes) == bytes.len() {
        output.extend_from_slice(bytes)?;
    } else {
        push_mixed(output, bytes)?;
    }
    output.push(b'"')?;
    Ok(())
}

/// The first and the last bytes, so many each, and blanks. None of these is odd exactly if all bytes are plain.
#[inline(always)]
fn ends_of(bytes: &[u8], width: usize) -> [u8; LANES]
    requires width { (width ≤ length bytes.now) × (length bytes.now ≤ width + width) × (width ≤ 8) }
    ensures { (odd : ℕ) → odd ≡ mask_l (map (λ b. not (is_plain b)) (chunk 0 16 result))
        → nat_eq odd 0 ≡ list_all is_plain bytes.now }
{
    let mut lanes = [b' '; LANES];
    lanes[..width].copy_from_slice(&bytes[..width]);
    lanes[width..width + width].copy_from_slice(&bytes[bytes.len() - width..]);
    lanes
}

/// Whether at most sixteen bytes are plain.
#[inline(always)]
fn is_short_plain(bytes: &[u8]) -> bool
    requires { length bytes.now ≤ 16 }
    ensures { result ≡ list_all is_plain bytes.now }
{
    let lanes = match bytes.len() {
        0 => return true,
        1 => ends_of(bytes, 1),
        2..=3 => ends_of(bytes, 2),
        4..=7 => ends_of(bytes, 4),
        _ => ends_of(bytes, 8),
    };
    odd_mask(&lanes, 0) == 0
}

/// Whether the bytes are plain.
#[inline(always)]
pub(crate) fn are_plain(bytes: &[u8]) -> bool
    ensures { result ≡ list_all is_plain bytes.now }
{
    plain_run(bytes) == bytes.len()
}

/// Writes the bytes between quotes as they are, from a place on, and answers where they end. None where there is no
/// room.
#[inline(always)]
pub(crate) fn write_plain(bytes: &[u8], buf: &mut [u8], at: usize) -> Option<usize>
    requires room { at ≤ length buf.old }
    ensures within { IfSome result (λ end. end ≤ length buf.new) }
    ensures written { IfSome result (λ end. take end buf.new
        ≡ take at buf.old ++ (34 ∷ (bytes.now ++ 34 ∷ []))) }
    ensures answers { at + length bytes.now + 2 ≤ length buf.old → IsSome result }
{
    if buf.len() - at < bytes.len() + 2 {
        return None;
    }
    let end = at + 1 + bytes.len();
    buf[at] = b'"';
    copy_over(bytes, buf, at + 1);
    buf[end] = b'"';
    Some(end + 1)
}

/// Writes a quote and at most sixteen bytes as they are from a place on, and answers how many of these are plain
/// before the first that isn't.
#[inline(always)]
pub(crate) fn write_front(bytes: &[u8], buf: &mut [u8], at: usize) -> usize
    requires short { length bytes.now ≤ 16 }
    requires room { at + 17 ≤ length buf.old }
    ensures within { result ≤ length bytes.now }
    ensures count { result ≡ prefix_len is_plain bytes.now }
    ensures written { take (at + 1 + length bytes.now) buf.new ≡ take at buf.old ++ 34 ∷ bytes.now }
{
    buf[at] = b'"';
    copy_over(bytes, buf, at + 1);
    let odd = odd_mask(buf, at + 1);
    bytes.len().min(odd.trailing_zeros() as usize)
}

/// Writes the bytes as they stand between quotes, and a quote, from a place on, and answers where they end. None where
/// there is no room.
#[inline(never)]
pub(crate) fn write_rest(bytes: &[u8], buf: &mut [u8], at: usize) -> Option<usize>
    requires { at ≤ length buf.old }
    ensures within { IfSome result (λ end. end ≤ length buf.new) }
    ensures written { IfSome result (λ end. take end buf.new
        ≡ take at buf.old ++ (flat_map escaped bytes.now ++ 34 ∷ [])) }
    ensures answers { at + length (flat_map escaped bytes.now) + 22 ≤ length buf.old → IsSome result }
{
    let end = write_each(OutputForm::Plain, bytes, buf, at)?;
    if end == buf.len() {
        return None;
    }
    Some(write_byte(b'"', buf, end))
}

/// Writes the bytes between quotes from a place on, each that isn't plain by its escape, and answers where they end.
/// None where there is no room.
#[inline(never)]
fn write_quoted(bytes: &[u8], buf: &mut [u8], at: usize) -> Option<usize>
    requires { at < length buf.old }
    ensures within { IfSome result (λ end. end ≤ length buf.new) }
    ensures written { IfSome result (λ end. take end buf.new ≡ take at buf.old ++ quoted bytes.now) }
    ensures answers { at + length (quoted bytes.now) + 21 ≤ length buf.old → IsSome result }
{
    let start = write_byte(b'"', buf, at);
    write_rest(bytes, buf, start)
}

/// As `write_between`, of more than sixteen bytes. It is a call of its own, so that short texts don't pay for it.
#[inline(never)]
fn write_long(bytes: &[u8], buf: &mut [u8], at: usize) -> Option<usize>
    requires { at < length buf.old }
    ensures within { IfSome result (λ end. end ≤ length buf.new) }
    ensures written { IfSome result (λ end. take end buf.new ≡ take at buf.old ++ quoted bytes.now) }
    ensures answers { at + length (quoted bytes.now) + 21 ≤ length buf.old → IsSome result }
{
    if are_plain(bytes) {
        return write_plain(bytes, buf, at);
    }
    write_quoted(bytes, buf, at)
}

/// Writes the bytes between quotes from a place on, and answers where they end. None where there is no room. Most texts
/// are short: they are written as they are, and only what follows the first byte that isn't plain is written anew.
#[inline(always)]
pub(crate) fn write_between(bytes: &[u8], buf: &mut [u8], at: usize) -> Option<usize>
    requires { at + 21 ≤ length buf.old }
    ensures within { IfSome result (λ end. end ≤ length buf.new) }
    ensures written { IfSome result (λ end. take end buf.new ≡ take at buf.old ++ quoted bytes.now) }
    ensures answers { at + length (quoted bytes.now) + 21 ≤ length buf.old → IsSome result }
{
    if bytes.len() > LANES {
        return write_long(bytes, buf, at);
    }
    let plain = write_front(bytes, buf, at);
    if plain == bytes.len() {
        return Some(write_byte(b'"', buf, at + 1 + plain));
    }
    write_rest(&bytes[plain..], buf, at + 1 + plain)
}

/// Appends at most sixteen bytes between quotes.
#[inline(always)]
fn push_short(output: &mut Vec<u8>, bytes: &[u8]) -> Result<(), AllocError>
    requires { length bytes.now ≤ 16 }
    ensures pushed { OnOk result (output.new.items ≡ output.old.items ++ (34 ∷ (bytes.now ++ 34 ∷ []))) }
    ensures refused { OnErr result (output.new.items ≡ output.old.items) }
{
    let start = output.len() + 1;
    output.extend_from_slice(&QUOTES_AND_ROOM)?;
    copy_over(bytes, output, start);
    output.truncate(start + bytes.len() + 1);
    Ok(())
}

/// Appends the bytes between quotes: printable ones as they are, a quote and a backslash after a backslash, and every
/// other by its two digits of base 16. Where memory is refused, nothing is appended.
pub fn push_quoted(output: &mut Vec<u8>, bytes: &[u8]) -> Result<(), AllocError>
    ensures pushed { OnOk result (output.new.items ≡ output.old.items ++ quoted bytes.now) }
    ensures refused { OnErr result (output.new.items ≡ output.old.items) }
{
    if bytes.len() <= LANES && is_short_plain(bytes) {
        return push_short(output, bytes);
    }
    let start = output.len();
    match push_long(output, bytes) {
        Ok(()) => Ok(()),
        Err(AllocError) => {
            output.truncate(start);
            Err(AllocError)
        }
    }
}
