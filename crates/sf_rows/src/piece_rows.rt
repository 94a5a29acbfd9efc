//! Inputs that are handed to a scanner in pieces.
use crate::told::{Met, Told};
use sf_base::Value;
use sf_run::{Ending, FeedState, Status};

/// A format, a limit, the pieces with the bytes taken and the state after each, the input's ending, and what is told.
#[derive(Drop)]
pub struct PieceRow {
    pub format: &'static [u8],
    pub limit: u32,
    pub pieces: &'static [(&'static [u8], usize, FeedState)],
    pub ending: Ending,
    pub told: Told,
    pub values: &'static [Value<'static>],
}

const WAIT: FeedState = FeedState::Wait;

const ENDED: FeedState = FeedState::Ended;

static PIECES: [PieceRow; 17] = [
    PieceRow {
        format: b"",
        limit: 9,
        pieces: &[(b"", 0, ENDED), (b"a", 0, ENDED)],
        ending: Ending::End,
        told: Told::Done(0, 0, Met::Nothing),
        values: &[],
    },
    PieceRow {
        format: b"%d",
        limit: 9,
        pieces: &[(b"12", 2, WAIT)],
        ending: Ending::End,
        told: Told::Done(1, 2, Met::End),
        values: &[Value::I32(12)],
    },
    PieceRow {
        format: b"%d",
        limit: 9,
        pieces: &[(b"12", 2, WAIT)],
        ending: Ending::Fault,
        told: Told::Done(1, 2, Met::Fault),
        values: &[Value::I32(12)],
    },
    PieceRow {
        format: b"%d ",
        limit: 9,
        pieces: &[(b"5", 1, WAIT), (b"\n", 1, WAIT), (b"x", 0, ENDED)],
        ending: Ending::End,
        told: Told::Done(1, 2, Met::Byte),
        values: &[Value::I32(5)],
    },
    PieceRow {
        format: b"%da",
        limit: 9,
        pieces: &[(b"12", 2, WAIT), (b"", 0, WAIT), (b"ab", 1, ENDED)],
        ending: Ending::End,
        told: Told::Done(1, 3, Met::Nothing),
        values: &[Value::I32(12)],
    },
    PieceRow {
        format: b"%d,%d",
        limit: 9,
        pieces: &[(b"12,", 3, WAIT), (b"-", 1, WAIT), (b"7\n", 1, ENDED)],
        ending: Ending::End,
        told: Told::Done(2, 5, Met::Byte),
        values: &[Value::I32(12), Value::I32(-7)],
    },
    PieceRow {
        format: b"%d %d",
        limit: 9,
        pieces: &[(b"1  ", 3, WAIT)],
        ending: Ending::End,
        told: Told::Failed(Status::InputFailure, 3, 1, 3, Met::End),
        values: &[Value::I32(1)],
    },
    PieceRow {
        format: b"%d",
        limit: 9,
        pieces: &[(b"+", 1, WAIT), (b"-5", 0, ENDED)],
        ending: Ending::End,
        told: Told::Failed(Status::MatchingFailure, 1, 0, 1, Met::Byte),
        values: &[],
    },
    PieceRow {
        format: b"%d",
        limit: 9,
        pieces: &[(b"-", 1, WAIT)],
        ending: Ending::End,
        told: Told::Failed(Status::MatchingFailure, 1, 0, 1, Met::End),
        values: &[],
    },
    PieceRow {
        format: b"%d",
        limit: 20,
        pieces: &[(b"2147483648 ", 10, ENDED)],
        ending: Ending::End,
        told: Told::Failed(Status::OutOfRange, 1, 0, 10, Met::Byte),
        values: &[],
    },
    PieceRow {
        format: b"%d",
        limit: 3,
        pieces: &[(b"123", 3, WAIT), (b"4", 0, ENDED)],
        ending: Ending::End,
        told: Told::Failed(Status::TooLong, 1, 0, 3, Met::Byte),
        values: &[],
    },
    PieceRow {
        format: b"%d",
        limit: 3,
        pieces: &[(b"123", 3, WAIT), (b" ", 0, ENDED)],
        ending: Ending::End,
        told: Told::Done(1, 3, Met::Byte),
        values: &[Value::I32(123)],
    },
    PieceRow {
        format: b"%d",
        limit: 3,
        pieces: &[(b"123", 3, WAIT)],
        ending: Ending::End,
        told: Told::Done(1, 3, Met::End),
        values: &[Value::I32(123)],
    },
    PieceRow {
        format: b"%s",
        limit: 3,
        pieces: &[(b"abc", 3, WAIT), (b"d", 0, ENDED)],
        ending: Ending::End,
        told: Told::Failed(Status::TooLong, 1, 0, 3, Met::Byte),
        values: &[],
    },
    PieceRow {
        format: b"%s",
        limit: 3,
        pieces: &[(b"abc", 3, WAIT), (b" ", 0, ENDED)],
        ending: Ending::End,
        told: Told::Done(1, 3, Met::Byte),
        values: &[Value::Text(b"abc")],
    },
    PieceRow {
        format: b"%x",
        limit: 9,
        pieces: &[(b"0", 1, WAIT), (b"x1", 2, WAIT), (b"f ", 1, ENDED)],
        ending: Ending::End,
        told: Told::Done(1, 4, Met::Byte),
        values: &[Value::U32(31)],
    },
    PieceRow {
        format: b"%d",
        limit: 0,
        pieces: &[(b"1", 0, ENDED)],
        ending: Ending::End,
        told: Told::Failed(Status::TooLong, 1, 0, 0, Met::Byte),
        values: &[],
    },
];

/// Inputs in pieces, which end in each way, within their limit and not.
pub fn pieces() -> &'static [PieceRow] {
    &PIECES
}
