//! Copies of many random texts of each letter.
use crate::copies::Formats;
use crate::random::{Records, before, next};
use std::alloc::Global;
use std::test::Fail;

/// What a text may hold.
#[derive(Clone, Copy)]
enum Letter {
    /// No white space; white space before it is skipped.
    Word,
    /// Any byte but `;`.
    Member,
    /// Any byte, so many of them.
    Chars(u32),
}

/// A pair of formats for one text, its letter, and the byte that ends it.
type Row = (Formats, Letter, &'static [u8]);

static TEXTS: [Row; 5] = [
    (("%s\n", "%24s%*1[\n]"), Letter::Word, b"\n"),
    (("%s;", "%24[^;];"), Letter::Member, b";"),
    (("%c", "%c"), Letter::Chars(1), b""),
    (("%s;", "%3c;"), Letter::Chars(3), b";"),
    (("%s", "%17c"), Letter::Chars(17), b""),
];

/// A byte that the letter takes.
fn byte(letter: Letter, state: u64) -> u8 {
    let byte = (state >> 56) as u8;
    match (letter, byte) {
        (Letter::Word, 9..=13 | b' ') => b'w',
        (Letter::Member, b';') => b'm',
        _ => byte,
    }
}

/// How many bytes a text has.
fn length(letter: Letter, state: u64) -> u32 {
    match letter {
        Letter::Chars(count) => count,
        _ => (state >> 40) as u32 % 24 + 1,
    }
}

/// Appends the bytes of a text, as it is written and as it is copied; the state after it.
fn push_bytes(records: &mut Records, letter: Letter, state: u64) -> Result<u64, Fail> {
    let mut state = state;
    for _ in 0..length(letter, state) {
        state = next(state);
        let byte = byte(letter, state);
        records.text.push(byte)?;
        records.copy.push(byte)?;
    }
    Ok(state)
}

/// What may stand before a text.
fn front(letter: Letter, state: u64) -> &'static str {
    match letter {
        Letter::Word => before(state),
        _ => "",
    }
}

/// Appends a text as it may be written, and as it is copied; the state after it.
fn push_text(records: &mut Records, row: &Row, state: u64) -> Result<u64, Fail> {
    let (_, letter, end) = *row;
    let state = next(state);
    let front = front(letter, state);
    records.text.extend_from_slice(front.as_bytes())?;
    let state = push_bytes(records, letter, state)?;
    records.text.extend_from_slice(end)?;
    records.copy.extend_from_slice(end)?;
    Ok(state)
}

/// Many texts of the row.
fn texts(alloc: Global, row: &Row) -> Result<Records, Fail> {
    let mut records = Records::new(alloc);
    let mut state = 13;
    for _ in 0..100000 {
        state = push_text(&mut records, row, state)?;
    }
    records.count = 100000;
    Ok(records)
}

#[test]
fn many_texts(rt: HostRuntime) -> Result<(), Fail> {
    for row in &TEXTS {
        texts(rt.alloc(), row)?.are_copied(&rt, row.0)?;
    }
    Ok(())
}
