//! Copies of short texts.
ghost use Rattle.std.specs.Prelude.{◌≡◌, ◌+◌, ◌≤◌, ◌++◌, length, take, drop};

use std::simd::prelude::*;

/// Copies bytes over a part of a buffer: four, eight or sixteen as one vector, since a loop would first ask whether
/// both overlap.
#[inline(always)]
fn copy_part(bytes: &[u8], buf: &mut [u8], at: usize)
    requires { at + length bytes.now ≤ length buf.old }
    ensures { buf.new ≡ take at buf.old ++ (bytes.now ++ drop (at + length bytes.now) buf.old) }
{
    match bytes.len() {
        16 => u8x16::from_slice(bytes).copy_to_slice(&mut buf[at..]),
        8 => u8x8::from_slice(bytes).copy_to_slice(&mut buf[at..]),
        4 => u8x4::from_slice(bytes).copy_to_slice(&mut buf[at..]),
        count => buf[at..at + count].copy_from_slice(bytes),
    }
}

/// Copies the first and the last bytes, so many each, over a part of a buffer: all bytes, where there are at most twice
/// as many. By a constant it takes no call.
#[inline(always)]
fn copy_ends(bytes: &[u8], width: usize, buf: &mut [u8], at: usize)
    requires width { (width ≤ length bytes.now) × (length bytes.now ≤ width + width) }
    requires room { at + length bytes.now ≤ length buf.old }
    ensures { buf.new ≡ take at buf.old ++ (bytes.now ++ drop (at + length bytes.now) buf.old) }
{
    let (len, end) = (bytes.len(), at + bytes.len());
    copy_part(&bytes[..width], buf, at);
    copy_part(&bytes[len - width..], buf, end - width);
}

/// Copies at most sixteen bytes over a part of a buffer. Longer ones are asked for first, as most words have four
/// letters and more.
#[inline(always)]
fn copy_short(bytes: &[u8], buf: &mut [u8], at: usize)
    requires short { length bytes.now ≤ 16 }
    requires room { at + length bytes.now ≤ length buf.old }
    ensures { buf.new ≡ take at buf.old ++ (bytes.now ++ drop (at + length bytes.now) buf.old) }
{
    let len = bytes.len();
    if len >= 8 {
        copy_ends(bytes, 8, buf, at);
    } else if len >= 4 {
        copy_ends(bytes, 4, buf, at);
    } else if len >= 2 {
        copy_ends(bytes, 2, buf, at);
    } else if len == 1 {
        copy_ends(bytes, 1, buf, at);
    }
}

/// Copies bytes over a part of a buffer; at most 32 without a call.
#[inline(always)]
pub fn copy_over(bytes: &[u8], buf: &mut [u8], at: usize)
    requires { at + length bytes.now ≤ length buf.old }
    ensures { buf.new ≡ take at buf.old ++ (bytes.now ++ drop (at + length bytes.now) buf.old) }
{
    if bytes.len() <= 16 {
        return copy_short(bytes, buf, at);
    }
    if bytes.len() <= 32 {
        return copy_ends(bytes, 16, buf, at);
    }
    buf[at..at + bytes.len()].copy_from_slice(bytes);
}
