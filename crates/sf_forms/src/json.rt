//! Strings of JSON.
ghost use Rattle.std.specs.Prelude.{◌≡◌, ◌++◌, ◌+◌, ◌<◌, ◌≤◌, length, take, IfSome, IsSome, OnErr, OnOk};
ghost use Rattle.std.specs.List.{flat_map};
ghost use Rattle.std.specs.Str.Lossy.{utf8_valid_len};
ghost use Rattle.sf_forms.specs.Growing.{IsGrown};
ghost use Rattle.sf_forms.specs.JsonStrings.{json_escaped, json_from, json_string, stray};

use crate::escape::{push_each, write_all, write_byte, write_each};
use crate::form::OutputForm;
use crate::quote::{LANES, are_plain, hex_digit, plain_run, write_front, write_plain};
use std::alloc::AllocError;

/// Appends a byte that is no part of UTF-8.
fn push_stray(output: &mut Vec<u8>, b: u8) -> Result<(), AllocError>
    ensures pushed { OnOk result (output.new.items ≡ output.old.items ++ stray b) }
    ensures refused { OnErr result (output.new.items ≡ output.old.items) }
{
    output.extend_from_slice(&[
        b'\\',
        b'u',
        b'd',
        b'c',
        hex_digit(b / 16),
        hex_digit(b % 16),
    ])
}

/// Writes such a byte, and answers where it ends.
fn write_stray(b: u8, buf: &mut [u8], at: usize) -> usize
    requires { at + 6 ≤ length buf.old }
    ensures end { result ≡ at + 6 }
    ensures written { take result buf.new ≡ take at buf.old ++ stray b }
{
    let digits = [hex_digit(b / 16), hex_digit(b % 16)];
    write_all(&[b'\\', b'u', b'd', b'c', digits[0], digits[1]], buf, at)
}

/// Appends bytes that are UTF-8.
#[inline(never)]
fn push_kept(output: &mut Vec<u8>, bytes: &[u8]) -> Result<(), AllocError>
    ensures pushed { OnOk result (output.new.items ≡ output.old.items ++ flat_map json_escaped bytes.now) }
    ensures refused { OnErr result (IsGrown output.old.items output.new.items) }
{
    push_each(output, OutputForm::Json, bytes)
}

/// Writes bytes that are UTF-8, and answers where they end. None where there is no room.
#[inline(never)]
fn write_kept(bytes: &[u8], buf: &mut [u8], at: usize) -> Option<usize>
    requires { at ≤ length buf.old }
    ensures within { IfSome result (λ end. end ≤ length buf.new) }
    ensures written { IfSome result (λ end. take end buf.new ≡ take at buf.old ++ flat_map json_escaped bytes.now) }
    ensures answers { at + length (flat_map json_escaped bytes.now) + 21 ≤ length buf.old → IsSome result }
{
    write_each(OutputForm::Json, bytes, buf, at)
}

/// How many bytes the longest front has that is UTF-8.
fn utf8_front(bytes: &[u8]) -> usize
    ensures within { result ≤ length bytes.now }
    ensures count { result ≡ utf8_valid_len bytes.now }
{
    match str::from_utf8(bytes) {
        Ok(_) => bytes.len(),
        Err(fault) => fault.valid_up_to(),
    }
}

/// Appends the characters that stand for the bytes.
#[inline(never)]
fn push_characters(output: &mut Vec<u8>, bytes: &[u8]) -> Result<(), AllocError>
    ensures pushed { OnOk result (output.new.items ≡ output.old.items ++ json_from 0 bytes.now) }
    ensures refused { OnErr result (IsGrown output.old.items output.new.items) }
{
    let mut done = 0;
    while done < bytes.len() {
        let kept = utf8_front(&bytes[done..]);
        if kept == 0 {
            push_stray(output, bytes[done])?;
            done += 1;
        } else {
            push_kept(output, &bytes[done..done + kept])?;
            done += kept;
        }
    }
    Ok(())
}

/// Appends the bytes as a string of JSON (RFC 8259, 7): what is UTF-8 is kept, but for quotes, backslashes and bytes
/// below the blank, which are escaped; each other byte stands as a lone surrogate, `\udc80` to `\udcff`.
pub(crate) fn push_json_string(output: &mut Vec<u8>, bytes: &[u8]) -> Result<(), AllocError>
    ensures pushed { OnOk result (output.new.items ≡ output.old.items ++ json_string bytes.now) }
    ensures refused { OnErr result (IsGrown output.old.items output.new.items) }
{
    output.push(b'"')?;
    if plain_run(bytes) == bytes.len() {
        output.extend_from_slice(bytes)?;
    } else {
        push_characters(output, bytes)?;
    }
    output.push(b'"')?;
    Ok(())
}

/// Writes the characters that stand for the bytes, and answers where they end. None where there is no room.
#[inline(always)]
fn write_characters(bytes: &[u8], buf: &mut [u8], at: usize) -> Option<usize>
    requires { at ≤ length buf.old }
    ensures within { IfSome result (λ end. end ≤ length buf.new) }
    ensures written { IfSome result (λ end. take end buf.new ≡ take at buf.old ++ json_from 0 bytes.now) }
    ensures answers { at + length (json_from 0 bytes.now) + 21 ≤ length buf.old → IsSome result }
{
    let mut done = 0;
    let mut end = at;
    while done < bytes.len() {
        let kept = utf8_front(&bytes[done..]);
        if kept == 0 {
            if buf.len() - end < 6 {
                return None;
            }
            end = write_stray(bytes[done], buf, end);
            done += 1;
        } else {
            end = write_kept(&bytes[done..done + kept], buf, end)?;
            done += kept;
        }
    }
    Some(end)
}

/// Writes the bytes as a string of JSON from a place on, and answers where it ends. None where there is no room.
#[inline(never)]
pub(crate) fn write_json_string(bytes: &[u8], buf: &mut [u8], at: usize) -> Option<usize>
    requires { at < length buf.old }
    ensures within { IfSome result (λ end. end ≤ length buf.new) }
    ensures written { IfSome result (λ end. take end buf.new ≡ take at buf.old ++ json_string bytes.now) }
    ensures answers { at + length (json_string bytes.now) + 21 ≤ length buf.old → IsSome result }
{
    let start = write_byte(b'"', buf, at);
    let end = write_characters(bytes, buf, start)?;
    if end == buf.len() {
        return None;
    }
    Some(write_byte(b'"', buf, end))
}

/// As `write_string`, of more than sixteen bytes. It is a call of its own, so that short texts don't pay for it.
#[inline(never)]
fn write_long(bytes: &[u8], buf: &mut [u8], at: usize) -> Option<usize>
    requires { at < length buf.old }
    ensures within { IfSome result (λ end. end ≤ length buf.new) }
    ensures written { IfSome result (λ end. take end buf.new ≡ take at buf.old ++ json_string bytes.now) }
    ensures answers { at + length (json_string bytes.now) + 21 ≤ length buf.old → IsSome result }
{
    if are_plain(bytes) {
        return write_plain(bytes, buf, at);
    }
    write_json_string(bytes, buf, at)
}

/// Writes the bytes as a string of JSON from a place on, and answers where it ends. None where there is no room. Most
/// texts are short and plain: they are written as they are.
#[inline(always)]
pub(crate) fn write_string(bytes: &[u8], buf: &mut [u8], at: usize) -> Option<usize>
    requires { at + 21 ≤ length buf.old }
    ensures within { IfSome result (λ end. end ≤ length buf.new) }
    ensures written { IfSome result (λ end. take end buf.new ≡ take at buf.old ++ json_string bytes.now) }
    ensures answers { at + length (json_string bytes.now) + 21 ≤ length buf.old → IsSome result }
{
    if bytes.len() > LANES {
        return write_long(bytes, buf, at);
    }
    let plain = write_front(bytes, buf, at);
    if plain == bytes.len() {
        return Some(write_byte(b'"', buf, at + 1 + plain));
    }
    write_json_string(bytes, buf, at)
}
