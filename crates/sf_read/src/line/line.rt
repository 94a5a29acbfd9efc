//! Lines of a source.
ghost use Rattle.std.specs.Prelude.{◌≡◌, ◌==◌, ◌≤◌, ◌<◌, ◌+◌, ◌++◌, ◌∷◌, ◌⊎◌, true, false, ℕ, List, length, map, take};
ghost use Rattle.std.specs.Prelude.{drop};
ghost use Rattle.std.specs.Prelude.{vec_capacity, vec_len, IfErr, IfOk, IfSome, Some, if◌then◌else◌};
ghost use Rattle.memchr.specs.Find.{IsFirstByte, is_byte};
ghost use lib.Lanes.{chunk, mask_l};
ghost use Rattle.sf_read.specs.source.Counts.{counted_on};
ghost use Rattle.sf_read.specs.line.Cut.{IsLine};
ghost use Rattle.sf_read.specs.line.Reading.{IsHeld, Outgrows, Reads, ReadsFront, UsesBy, UsesFront, UsesLine};
ghost use Rattle.sf_read.specs.line.Reading.{is_failed, waits_by};

use crate::{Lookahead, Source};
use memchr::memchr;
use std::alloc::AllocError;
use std::simd::prelude::*;

/// How many bytes are looked at at once.
const LANES: usize = 16;

/// What the reading of a line came to.
#[derive(Clone, Copy, Debug, PartialEq, Eq)]
pub enum LineRead {
    /// A line was read.
    Line,
    /// The line is longer than the limit; its first bytes were read.
    TooLong,
    /// The input has no further line.
    End,
    /// The source failed within the line.
    Fault,
    /// The line has 2^63 bytes or more.
    Endless,
    /// Memory for the line was refused.
    NoMemory,
}

/// The front of what is held, up to a newline.
#[derive(Clone, Copy)]
struct Piece {
    /// How many bytes it has.
    len: usize,
    /// Whether a newline follows.
    ended: bool,
}

/// Appends the first bytes of what is held to a line that was gathered so far, up to the limit. Answers whether the
/// line is longer.
fn gather(
    line: &mut Vec<u8>,
    held: &[u8],
    len: usize,
    limit: usize,
    long: bool,
) -> Result<bool, AllocError>
    requires within { len ≤ length held.now }
    requires kept { vec_len line.old ≤ limit }
    ensures longer { IfOk result (λ l. l ≡ true → (long ≡ true) ⊎ (limit < vec_len line.old + len)) }
    ensures short { IfOk result (λ l. l ≡ false → (long ≡ false) × (vec_len line.old + len ≤ limit)) }
    ensures front { IfOk result (λ _. line.new.items ≡ take limit (line.old.items ++ take len held.now)) }
    ensures refused { IfErr result (λ _. vec_capacity line.old < vec_len line.old + len) }
    ensures within { IfErr result (λ _. vec_capacity line.old < limit) }
    ensures room { IfErr result (λ _. vec_len line.old < limit) }
    ensures capacity { vec_capacity line.old ≤ vec_capacity line.new }
{
    let room = limit - line.len();
    if room == 0 {
        return Ok(long || len > 0);
    }
    let (piece, _) = held.split_at(len.min(room));
    line.extend_from_slice(piece)?;
    Ok(long || len > room)
}

/// What was read where the input ended within a line, or after the last one.
fn last_read(long: bool, is_empty: bool) -> LineRead
    ensures read { result ≡ (if long then LineRead.TooLong else (if is_empty then LineRead.End else LineRead.Line)) }
    ensures sound { is_failed result ≡ false }
{
    if long {
        LineRead::TooLong
    } else if is_empty {
        LineRead::End
    } else {
        LineRead::Line
    }
}

/// Which of the first sixteen bytes are newlines: a bit each, the first byte's the lowest.
#[inline(always)]
fn newline_mask(bytes: &[u8]) -> u64
    requires { 16 ≤ length bytes.now }
    ensures { result ≡ mask_l (map (λ b. b == 10) (chunk 0 16 bytes.now)) }
{
    u8x16::from_slice(bytes)
        .simd_eq(u8x16::splat(b'\n'))
        .to_bitmask()
}

/// The place of the first newline. Many lines are short, so the first bytes are looked at without a call.
#[inline(always)]
fn find_newline(bytes: &[u8]) -> Option<usize>
    ensures { IsFirstByte (is_byte 10) bytes.now result }
{
    if bytes.len() >= LANES {
        let newlines = newline_mask(bytes);
        if newlines != 0 {
            return Some(newlines.trailing_zeros() as usize);
        }
    }
    memchr(b'\n', bytes)
}

/// The bytes of the present line that are held.
fn piece_of(held: &[u8]) -> Piece
    ensures within { result.len ≤ length held.now }
    ensures line { IsLine (take result.len held.now) }
    ensures ended { result.ended ≡ true → held.now ≡ take result.len held.now ++ 10 ∷ drop (result.len + 1) held.now }
    ensures all { result.ended ≡ false → result.len ≡ length held.now }
{
    match find_newline(held) {
        Some(len) => Piece { len, ended: true },
        None => Piece {
            len: held.len(),
            ended: false,
        },
    }
}

/// How many bytes the next line has, where it is held whole, with its newline, and is within the limit.
#[inline(always)]
pub fn held_line<S: Source, const N: usize>(from: &Lookahead<S, N>, limit: usize) -> Option<usize>
    ensures held { IfSome result (λ len. IsHeld from.now.held len) }
    ensures open { IfSome result (λ len. from.now.at_end ≡ false) }
    ensures short { IfSome result (λ len. len ≤ limit) }
    ensures answers { (line rest : List ℕ) → IsLine line → from.now.held ≡ line ++ 10 ∷ rest → length line ≤ limit
        → result ≡ Some (length line) }
{
    if from.is_at_end() {
        return None;
    }
    let piece = piece_of(from.held());
    if piece.ended && piece.len <= limit {
        Some(piece.len)
    } else {
        None
    }
}

/// Whether a line that is longer than the limit, if it is, is left.
fn is_left(long: bool, all: bool) -> bool
    ensures left { result ≡ true → (long ≡ true) × (all ≡ false) }
    ensures stays { result ≡ false → all ≡ false → long ≡ false }
{
    long && !all
}

/// Gathers the next line, up to the limit. One that is longer is passed over to its end, if all of it is to be taken;
/// else it is left once more bytes of it than the limit were met.
fn gather_line<S: Source, const N: usize>(
    from: &mut Lookahead<S, N>,
    line: &mut Vec<u8>,
    limit: usize,
    all: bool,
) -> LineRead
    ensures reads { all ≡ true → Reads S.to_come from.old from.new limit line.new.items result }
    ensures fronts { all ≡ false → ReadsFront S.to_come from.old from.new limit line.new.items result }
    ensures waited { UsesBy (waits_by all limit) S.to_come S.reads N from.old from.new limit line.new.items result }
    ensures failures { S.failures from.new.source
        ≡ (if is_failed result then counted_on (S.failures from.old.source) else S.failures from.old.source) }
    ensures refused { result ≡ LineRead.NoMemory → Outgrows S.to_come from.old limit (vec_capacity line.old) }
    ensures capacity { vec_capacity line.old ≤ vec_capacity line.new }
    ensures unkept { limit ≡ 0 → result ≡ LineRead.NoMemory → ⊥ }
    ensures enough { limit ≤ vec_capacity line.old → result ≡ LineRead.NoMemory → ⊥ }
    ensures no_read { from.old.at_end ≡ true → from.new.source ≡ from.old.source }
    ensures stays { from.old.at_end ≡ true → from.new.at_end ≡ true }
{
    line.clear();
    let mut long = false;
    for _block in 0..u64::MAX {
        if from.is_at_end() {
            return last_read(long, line.is_empty());
        }
        let held = from.held();
        let piece = piece_of(held);
        match gather(line, held, piece.len, limit, long) {
            Ok(longer) => long = longer,
            Err(_) => return LineRead::NoMemory,
        }
        if is_left(long, all) {
            from.consume(piece.len);
            return LineRead::TooLong;
        }
        if piece.ended {
            from.consume(piece.len + 1);
            return if long {
                LineRead::TooLong
            } else {
                LineRead::Line
            };
        }
        from.consume(piece.len);
        if from.refill().is_err() {
            return LineRead::Fault;
        }
    }
    LineRead::Endless
}

/// Reads the next line of what the lookahead holds and its source gives, without its newline, in place of what was read
/// last, as fgets reads one (C11 7.21.7.2). Of a line of more than `limit` bytes these first ones are read, and the
/// others passed over; by the limit 0 each line is passed over. No memory is taken where the vector has room for the
/// line, or for `limit` bytes; where it is refused, the answer is NoMemory, and what was read of the line is lost.
pub fn next_line<S: Source, const N: usize>(
    from: &mut Lookahead<S, N>,
    line: &mut Vec<u8>,
    limit: usize,
) -> LineRead
    ensures reads { Reads S.to_come from.old from.new limit line.new.items result }
    ensures waited { UsesLine S.to_come S.reads N from.old from.new limit line.new.items result }
    ensures failures { S.failures from.new.source
        ≡ (if is_failed result then counted_on (S.failures from.old.source) else S.failures from.old.source) }
    ensures refused { result ≡ LineRead.NoMemory → Outgrows S.to_come from.old limit (vec_capacity line.old) }
    ensures capacity { vec_capacity line.old ≤ vec_capacity line.new }
    ensures unkept { limit ≡ 0 → result ≡ LineRead.NoMemory → ⊥ }
    ensures enough { limit ≤ vec_capacity line.old → result ≡ LineRead.NoMemory → ⊥ }
    ensures no_read { from.old.at_end ≡ true → from.new.source ≡ from.old.source }
    ensures stays { from.old.at_end ≡ true → from.new.at_end ≡ true }
{
    gather_line(from, line, limit, true)
}

/// Reads the next line as `next_line` does, but for one of more than `limit` bytes: once more of it were met, the first
/// `limit` ones are the answer, with TooLong, and nothing more is read. What stands after the bytes that were met is
/// held or to come; `next_line` with the limit 0 passes over the rest of the line.
pub fn read_front<S: Source, const N: usize>(
    from: &mut Lookahead<S, N>,
    line: &mut Vec<u8>,
    limit: usize,
) -> LineRead
    ensures reads { ReadsFront S.to_come from.old from.new limit line.new.items result }
    ensures waited { UsesFront S.to_come S.reads N from.old from.new limit line.new.items result }
    ensures failures { S.failures from.new.source
        ≡ (if is_failed result then counted_on (S.failures from.old.source) else S.failures from.old.source) }
    ensures refused { result ≡ LineRead.NoMemory → Outgrows S.to_come from.old limit (vec_capacity line.old) }
    ensures capacity { vec_capacity line.old ≤ vec_capacity line.new }
    ensures unkept { limit ≡ 0 → result ≡ LineRead.NoMemory → ⊥ }
    ensures enough { limit ≤ vec_capacity line.old → result ≡ LineRead.NoMemory → ⊥ }
    ensures no_read { from.old.at_end ≡ true → from.new.source ≡ from.old.source }
    ensures stays { from.old.at_end ≡ true → from.new.at_end ≡ true }
{
    gather_line(from, line, limit, false)
}
