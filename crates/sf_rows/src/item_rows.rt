//! Items of single conversions.
use sf_format::{Base, Lead};

/// What reads an item.
#[derive(Clone, Copy)]
pub enum Reader {
    Integer(Lead, Base),
    Text,
    /// A set of the decimal digits.
    Digits,
    Characters,
}

/// What an item is.
#[derive(Clone, Copy)]
pub enum Found {
    Empty,
    Unmatched,
    Matched,
    /// Whether a minus stands there, and the number.
    Integer(bool, u64),
    /// Whether a minus stands before a number that is too great.
    Overflowed(bool),
}

/// A reader and its width, a text, how many bytes of it are taken, whether the item is then full, and what it is.
pub type ItemRow = (Reader, Option<u16>, &'static [u8], usize, bool, Found);

const DEC: Reader = Reader::Integer(Lead::Any, Base::Dec);

const OCT: Reader = Reader::Integer(Lead::Any, Base::Oct);

const HEX: Reader = Reader::Integer(Lead::Any, Base::Hex);

const AUTO: Reader = Reader::Integer(Lead::Any, Base::Auto);

const BIN: Reader = Reader::Integer(Lead::Any, Base::Bin);

const AUTO_BIN: Reader = Reader::Integer(Lead::Any, Base::AutoBin);

/// As `%!d`.
const SIGNED: Reader = Reader::Integer(Lead::Minus, Base::Dec);

/// As `%!i`.
const SIGNED_AUTO: Reader = Reader::Integer(Lead::Minus, Base::Auto);

/// As `%!u`.
const BARE: Reader = Reader::Integer(Lead::Nothing, Base::Dec);

/// As `%!x`.
const BARE_HEX: Reader = Reader::Integer(Lead::Nothing, Base::Hex);

/// As `%!b`.
const BARE_BIN: Reader = Reader::Integer(Lead::Nothing, Base::Bin);

static ITEMS: [ItemRow; 106] = [
    (DEC, None, b"", 0, false, Found::Empty),
    (DEC, None, b" 5", 0, false, Found::Empty),
    (DEC, None, b"-", 1, false, Found::Unmatched),
    (DEC, None, b"+-5", 1, false, Found::Unmatched),
    (DEC, None, b"-12;", 3, false, Found::Integer(true, 12)),
    (DEC, None, b"0x1", 1, false, Found::Integer(false, 0)),
    (DEC, None, b"09", 2, false, Found::Integer(false, 9)),
    (OCT, None, b"178", 2, false, Found::Integer(false, 15)),
    (OCT, None, b"08", 1, false, Found::Integer(false, 0)),
    (HEX, None, b"+0xF", 4, false, Found::Integer(false, 15)),
    (HEX, None, b"0xg", 2, false, Found::Unmatched),
    (HEX, None, b"0f", 2, false, Found::Integer(false, 15)),
    (AUTO, None, b"09", 1, false, Found::Integer(false, 0)),
    (AUTO, None, b"0b", 1, false, Found::Integer(false, 0)),
    (AUTO, None, b"019", 2, false, Found::Integer(false, 1)),
    (AUTO, None, b"19", 2, false, Found::Integer(false, 19)),
    (AUTO, None, b"-0X1fG", 5, false, Found::Integer(true, 31)),
    (AUTO, None, b"0xx", 2, false, Found::Unmatched),
    (HEX, Some(2), b"0x1", 2, true, Found::Unmatched),
    (HEX, Some(3), b"0x1", 3, true, Found::Integer(false, 1)),
    (DEC, Some(1), b"12", 1, true, Found::Integer(false, 1)),
    (DEC, Some(1), b"-2", 1, true, Found::Unmatched),
    (DEC, Some(3), b"12", 2, false, Found::Integer(false, 12)),
    (DEC, Some(65535), b"12", 2, false, Found::Integer(false, 12)),
    (
        DEC,
        None,
        b"0000000000000000000000000000007",
        31,
        false,
        Found::Integer(false, 7),
    ),
    (
        DEC,
        None,
        b"18446744073709551615",
        20,
        false,
        Found::Integer(false, 18446744073709551615),
    ),
    (
        DEC,
        None,
        b"18446744073709551616",
        20,
        false,
        Found::Overflowed(false),
    ),
    (
        DEC,
        None,
        b"-184467440737095516160;",
        22,
        false,
        Found::Overflowed(true),
    ),
    (DEC, None, b"x1", 0, false, Found::Empty),
    (DEC, None, b"+7 8", 2, false, Found::Integer(false, 7)),
    (OCT, None, b"0178", 3, false, Found::Integer(false, 15)),
    (HEX, None, b"+0XfFz", 5, false, Found::Integer(false, 255)),
    (HEX, None, b"00x1", 2, false, Found::Integer(false, 0)),
    (AUTO, None, b"-0x1fG", 5, false, Found::Integer(true, 31)),
    (AUTO, None, b"0789", 2, false, Found::Integer(false, 7)),
    (AUTO, None, b"1099a", 4, false, Found::Integer(false, 1099)),
    (DEC, Some(3), b"-1234", 3, true, Found::Integer(true, 12)),
    (DEC, Some(1), b"+5", 1, true, Found::Unmatched),
    (
        DEC,
        Some(65535),
        b"12 ",
        2,
        false,
        Found::Integer(false, 12),
    ),
    (
        DEC,
        None,
        b"0000000000000000000000000000007x",
        31,
        false,
        Found::Integer(false, 7),
    ),
    (
        DEC,
        None,
        b"1844674407370955160;",
        19,
        false,
        Found::Integer(false, 1844674407370955160),
    ),
    (
        DEC,
        None,
        b"1844674407370955161",
        19,
        false,
        Found::Integer(false, 1844674407370955161),
    ),
    (
        DEC,
        None,
        b"1844674407370955162",
        19,
        false,
        Found::Integer(false, 1844674407370955162),
    ),
    (
        DEC,
        None,
        b"9999999999999999999 ",
        19,
        false,
        Found::Integer(false, 9999999999999999999),
    ),
    (
        DEC,
        None,
        b"18446744073709551609",
        20,
        false,
        Found::Integer(false, 18446744073709551609),
    ),
    (
        DEC,
        None,
        b"000018446744073709551615 ",
        24,
        false,
        Found::Integer(false, 18446744073709551615),
    ),
    (
        DEC,
        None,
        b"-99999999999999999999",
        21,
        false,
        Found::Overflowed(true),
    ),
    (
        DEC,
        None,
        b"184467440737095516150,",
        21,
        false,
        Found::Overflowed(false),
    ),
    (
        HEX,
        None,
        b"ffffffffffffffffg",
        16,
        false,
        Found::Integer(false, 18446744073709551615),
    ),
    (
        HEX,
        None,
        b"0x10000000000000000",
        19,
        false,
        Found::Overflowed(false),
    ),
    (
        OCT,
        None,
        b"1777777777777777777777",
        22,
        false,
        Found::Integer(false, 18446744073709551615),
    ),
    (
        OCT,
        None,
        b"2000000000000000000000",
        22,
        false,
        Found::Overflowed(false),
    ),
    (Reader::Text, None, b" a", 0, false, Found::Empty),
    (Reader::Text, None, b"", 0, false, Found::Empty),
    (Reader::Text, None, b"+-5\n", 3, false, Found::Matched),
    (Reader::Text, None, b"a\x0bb", 1, false, Found::Matched),
    (
        Reader::Text,
        None,
        b"\x00\x0e\x7f ",
        3,
        false,
        Found::Matched,
    ),
    (Reader::Text, Some(5), b"abcdefg", 5, true, Found::Matched),
    (Reader::Text, Some(5), b"abc", 3, false, Found::Matched),
    (Reader::Text, Some(1), b" ", 0, false, Found::Empty),
    (Reader::Text, None, b"ab\x0bb", 2, false, Found::Matched),
    (Reader::Text, None, b"abcdef", 6, false, Found::Matched),
    (Reader::Text, Some(3), b"abcdef", 3, true, Found::Matched),
    (Reader::Text, Some(3), b"ab cdef", 2, false, Found::Matched),
    (Reader::Digits, None, b"1", 1, false, Found::Matched),
    (Reader::Digits, None, b" ", 0, false, Found::Empty),
    (Reader::Digits, None, b"-1", 0, false, Found::Empty),
    (Reader::Digits, None, b"0090a", 4, false, Found::Matched),
    (Reader::Digits, Some(2), b"123", 2, true, Found::Matched),
    (Reader::Digits, None, b"", 0, false, Found::Empty),
    (Reader::Characters, Some(3), b"", 0, false, Found::Empty),
    (
        Reader::Characters,
        Some(3),
        b"ab",
        2,
        false,
        Found::Unmatched,
    ),
    (Reader::Characters, Some(3), b"ab ", 3, true, Found::Matched),
    (
        Reader::Characters,
        Some(3),
        b" \n\tabc",
        3,
        true,
        Found::Matched,
    ),
    (Reader::Characters, None, b" b", 1, true, Found::Matched),
    (Reader::Characters, None, b"", 0, false, Found::Empty),
    (
        Reader::Characters,
        Some(3),
        b"a ",
        2,
        false,
        Found::Unmatched,
    ),
    (BIN, None, b"0b101,", 5, false, Found::Integer(false, 5)),
    (BIN, None, b"102", 2, false, Found::Integer(false, 2)),
    (BIN, None, b"2", 0, false, Found::Empty),
    (BIN, None, b"0b2", 2, false, Found::Unmatched),
    (BIN, None, b"0x1", 1, false, Found::Integer(false, 0)),
    (BIN, Some(2), b"0b1", 2, true, Found::Unmatched),
    (BIN, None, b"+0B1", 4, false, Found::Integer(false, 1)),
    (AUTO_BIN, None, b"-0B11", 5, false, Found::Integer(true, 3)),
    (AUTO_BIN, None, b"0b", 2, false, Found::Unmatched),
    (AUTO_BIN, None, b"0x1f", 4, false, Found::Integer(false, 31)),
    (AUTO_BIN, None, b"019", 2, false, Found::Integer(false, 1)),
    (AUTO_BIN, None, b"19", 2, false, Found::Integer(false, 19)),
    (AUTO, None, b"0b11", 1, false, Found::Integer(false, 0)),
    (HEX, None, b"0b1", 3, false, Found::Integer(false, 177)),
    (SIGNED, None, b" 5", 0, false, Found::Empty),
    (SIGNED, None, b"+5", 0, false, Found::Empty),
    (SIGNED, None, b"-042;", 4, false, Found::Integer(true, 42)),
    (SIGNED, None, b"--1", 1, false, Found::Unmatched),
    (SIGNED, None, b"7", 1, false, Found::Integer(false, 7)),
    (SIGNED, Some(2), b"-12", 2, true, Found::Integer(true, 1)),
    (
        SIGNED_AUTO,
        None,
        b"-0x1f",
        5,
        false,
        Found::Integer(true, 31),
    ),
    (SIGNED_AUTO, None, b"+0x1f", 0, false, Found::Empty),
    (SIGNED_AUTO, None, b"0x", 2, false, Found::Unmatched),
    (BARE, None, b"-5", 0, false, Found::Empty),
    (BARE, None, b"007;", 3, false, Found::Integer(false, 7)),
    (BARE_HEX, None, b"0x1f", 1, false, Found::Integer(false, 0)),
    (BARE_HEX, None, b"fFg", 2, false, Found::Integer(false, 255)),
    (BARE_BIN, None, b"0b1", 1, false, Found::Integer(false, 0)),
    (BARE_BIN, None, b"102", 2, false, Found::Integer(false, 2)),
];

/// Items of each shape.
pub fn items() -> &'static [ItemRow] {
    &ITEMS
}

/// A width, a text, and where its first bytes are a decimal integer that is told at once: how many bytes, whether a
/// minus stands there, and the number. None is told where none ends within the text, or where it has more digits than
/// surely fit.
pub type DecimalRow = (Option<u16>, &'static [u8], Option<(usize, bool, u64)>);

static DECIMALS: [DecimalRow; 20] = [
    (None, b"12,", Some((2, false, 12))),
    (None, b"-7 ", Some((2, true, 7))),
    (None, b"+0;", Some((2, false, 0))),
    (None, b"007x", Some((3, false, 7))),
    (None, b"0x1f", Some((1, false, 0))),
    (
        None,
        b"1844674407370955160,",
        Some((19, false, 1844674407370955160)),
    ),
    (None, b"0000000000000000042\n", Some((19, false, 42))),
    (None, b"00000000000000000000042\n", Some((23, false, 42))),
    (None, b"-18446744073709551615,", Some((21, true, u64::MAX))),
    (None, b"18446744073709551616,", None),
    (Some(2), b"123", Some((2, false, 12))),
    (Some(2), b"-12", Some((2, true, 1))),
    (Some(1), b"-1,", None),
    (None, b"12", None),
    (Some(2), b"12", None),
    (None, b"-", None),
    (None, b"-,", None),
    (None, b"--1,", None),
    (None, b" 1,", None),
    (None, b"", None),
];

/// Texts whose first bytes may be told at once as a decimal integer.
pub fn decimals() -> &'static [DecimalRow] {
    &DECIMALS
}
