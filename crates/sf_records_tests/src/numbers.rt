//! Copies of many random numbers of each kind and letter: what they come to is written by std.
use crate::copies::Formats;
use crate::random::{Records, before, next};
use std::alloc::Global;
use std::io;
use std::io::Write;
use std::test::Fail;

/// How the digits of a number are written.
#[derive(Clone, Copy)]
enum Letter {
    /// By `d`.
    Signed,
    /// By `i`, where zeros before the digits would make them octal.
    Auto,
    /// By `u`.
    Unsigned,
    /// By `o`.
    Octal,
    /// By `x`.
    Hex,
    /// By `x` after `0x`, but for 0.
    Prefixed,
    /// By `X`.
    UpperHex,
}

/// A pair of formats for one number, the greatest number of its kind, and its letter.
type Row = (Formats, u64, Letter);

const MOST_I8: u64 = 127;

const MOST_I16: u64 = 32767;

const MOST_I32: u64 = 2147483647;

const MOST_I64: u64 = 9223372036854775807;

const MOST_U8: u64 = 255;

const MOST_U16: u64 = 65535;

const MOST_U32: u64 = 4294967295;

const MOST_U64: u64 = 18446744073709551615;

static ROWS: [Row; 29] = [
    (("%hhd;", "%24hhd;"), MOST_I8, Letter::Signed),
    (("%hd;", "%24hd;"), MOST_I16, Letter::Signed),
    (("%d;", "%24d;"), MOST_I32, Letter::Signed),
    (("%ld;", "%24ld;"), MOST_I64, Letter::Signed),
    (("%lld;", "%24lld;"), MOST_I64, Letter::Signed),
    (("%jd;", "%24jd;"), MOST_I64, Letter::Signed),
    (("%zd;", "%24zd;"), MOST_I64, Letter::Signed),
    (("%td;", "%24td;"), MOST_I64, Letter::Signed),
    (("%hhi;", "%24hhi;"), MOST_I8, Letter::Auto),
    (("%hi;", "%24hi;"), MOST_I16, Letter::Auto),
    (("%i;", "%24i;"), MOST_I32, Letter::Auto),
    (("%li;", "%24li;"), MOST_I64, Letter::Auto),
    (("%hhu;", "%24hhu;"), MOST_U8, Letter::Unsigned),
    (("%hu;", "%24hu;"), MOST_U16, Letter::Unsigned),
    (("%u;", "%24u;"), MOST_U32, Letter::Unsigned),
    (("%lu;", "%24lu;"), MOST_U64, Letter::Unsigned),
    (("%hho;", "%24hho;"), MOST_U8, Letter::Octal),
    (("%ho;", "%24ho;"), MOST_U16, Letter::Octal),
    (("%o;", "%24o;"), MOST_U32, Letter::Octal),
    (("%lo;", "%26lo;"), MOST_U64, Letter::Octal),
    (("%hhx;", "%24hhx;"), MOST_U8, Letter::Hex),
    (("%hx;", "%24hx;"), MOST_U16, Letter::Hex),
    (("%x;", "%24x;"), MOST_U32, Letter::Hex),
    (("%lx;", "%24lx;"), MOST_U64, Letter::Hex),
    (("%#x;", "%24x;"), MOST_U32, Letter::Prefixed),
    (("%#lx;", "%24lX;"), MOST_U64, Letter::Prefixed),
    (("%hhX;", "%24hhX;"), MOST_U8, Letter::UpperHex),
    (("%X;", "%24x;"), MOST_U32, Letter::UpperHex),
    (("%lX;", "%24lX;"), MOST_U64, Letter::UpperHex),
];

/// A number up to the greatest, of any length.
fn magnitude(state: u64, most: u64) -> u64 {
    let number = (state ^ (state >> 32)) & most;
    match (state >> 58) % 4 {
        0 => number,
        1 => number % 100,
        2 => number % 1000003,
        _ => number / 3,
    }
}

/// Zeros that may stand before digits.
static ZEROS: [&str; 4] = ["", "0", "", "000"];

/// Zeros before the digits, where they count for nothing.
fn zeros(letter: Letter, state: u64) -> &'static str {
    match letter {
        Letter::Auto | Letter::Prefixed => "",
        _ => ZEROS[(state >> 36) as usize % 4],
    }
}

/// Appends the digits of a number, and what ends it.
fn push_digits(text: &mut Vec<u8>, letter: Letter, magnitude: u64) -> io::Result<()> {
    match letter {
        Letter::Signed | Letter::Auto | Letter::Unsigned => write!(text, "{magnitude};"),
        Letter::Octal => write!(text, "{magnitude:o};"),
        Letter::Prefixed if magnitude > 0 => write!(text, "0x{magnitude:x};"),
        Letter::Hex | Letter::Prefixed => write!(text, "{magnitude:x};"),
        Letter::UpperHex => write!(text, "{magnitude:X};"),
    }
}

/// The sign of a number, and as it may be written.
fn signs(negative: bool, state: u64) -> (&'static str, &'static str) {
    if negative {
        ("-", "-")
    } else if (state >> 47) % 4 == 1 {
        ("", "+")
    } else {
        ("", "")
    }
}

/// Appends a number as it may be written, and as it is copied.
fn push_number(records: &mut Records, row: &Row, state: u64) -> Result<(), Fail> {
    let (_, most, letter) = *row;
    let is_signed = matches!(letter, Letter::Signed | Letter::Auto);
    let negative = is_signed && (state >> 45) % 2 == 1;
    let magnitude = magnitude(state, most).saturating_add(u64::from(negative));
    let (minus, sign) = signs(negative, state);
    for part in [before(state), sign, zeros(letter, state)] {
        records.text.extend_from_slice(part.as_bytes())?;
    }
    push_digits(&mut records.text, letter, magnitude)?;
    records.copy.extend_from_slice(minus.as_bytes())?;
    Ok(push_digits(&mut records.copy, letter, magnitude)?)
}

/// Many numbers of the row.
fn numbers(alloc: Global, row: &Row) -> Result<Records, Fail> {
    let mut records = Records::new(alloc);
    let mut state = 11;
    for _ in 0..100000 {
        state = next(state);
        push_number(&mut records, row, state)?;
    }
    records.count = 100000;
    Ok(records)
}

#[test]
fn many_numbers(rt: HostRuntime) -> Result<(), Fail> {
    for row in &ROWS {
        numbers(rt.alloc(), row)?.are_copied(&rt, row.0)?;
    }
    Ok(())
}
