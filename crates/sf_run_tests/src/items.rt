//! Items of each shape, byte by byte and in every cutting into two pieces.
ghost use Rattle.std.specs.Prelude.{◌≡◌, ◌≤◌, length, true};
ghost use Rattle.sf_item.specs.Tests.{has_item};

use sf_base::{ByteSet, Kind};
use sf_format::{Base, Conversion, Lead, Numeral, Shape};
use sf_item::{
    ItemEnd, ItemScan, Radices, Step, WholeInteger, characters_item, decimal_within, hex_within,
    members_item, prefix_radix, radices_of, text_item, unprefixed_within, until_item,
    whole_decimal, whole_hex, whole_unprefixed,
};
use sf_rows::{DecimalRow, Found, ItemRow, Reader, decimals, is, items};
use std::test::Fail;

fn integer(negative: bool, magnitude: u64) -> ItemEnd {
    ItemEnd::Integer {
        negative,
        magnitude,
        overflowed: false,
    }
}

/// How many bytes of a text are taken, whether the item is then full, and what it is.
type Taken = (usize, bool, ItemEnd);

/// What the item of a row is.
fn end_of(found: Found) -> ItemEnd {
    match found {
        Found::Empty => ItemEnd::Empty,
        Found::Unmatched => ItemEnd::Unmatched,
        Found::Matched => ItemEnd::Matched,
        Found::Integer(negative, magnitude) => integer(negative, magnitude),
        Found::Overflowed(negative) => ItemEnd::Integer {
            negative,
            magnitude: 0,
            overflowed: true,
        },
    }
}

/// A decimal integer as C reads it.
const DEC: Numeral = Numeral {
    base: Base::Dec,
    lead: Lead::Any,
};

fn shape_of(reader: Reader) -> Shape
    ensures { has_item result ≡ true }
{
    match reader {
        Reader::Integer(lead, base) => Shape::Int(Numeral { base, lead }),
        Reader::Text => Shape::Text(Lead::Any),
        Reader::Digits => {
            let mut digits = ByteSet::empty();
            digits.insert_range(b'0', b'9');
            Shape::Set(digits)
        }
        Reader::Characters => Shape::Chars,
    }
}

fn conversion_of(shape: Shape, width: Option<u16>) -> Conversion
    ensures { result.shape ≡ shape }
{
    Conversion {
        shape,
        kind: Kind::I32,
        width,
        slot: None,
        optional: false,
        opens: None,
        column: false,
    }
}

/// The item byte by byte.
fn taken(mut scan: ItemScan<'_>, text: &[u8]) -> Taken {
    for i in 0..text.len() {
        if scan.step(text[i]) == Step::Refused {
            return (i, scan.is_full(), scan.finish());
        }
    }
    (text.len(), scan.is_full(), scan.finish())
}

/// The item in two pieces.
fn taken_in_two(mut scan: ItemScan<'_>, text: &[u8], at: usize) -> Taken
    requires { at ≤ length text.now }
{
    let (front, rest) = text.split_at(at);
    let mut count = scan.take_all(front);
    if count == at {
        count += scan.take_all(rest);
    }
    (count, scan.is_full(), scan.finish())
}

/// The item is so byte by byte, and wherever the text is cut.
fn each_way_is(scan: ItemScan<'_>, text: &[u8], wanted: Taken) -> Result<(), Fail> {
    for at in 0..text.len() + 1 {
        is(&taken_in_two(scan, text, at), &wanted, &(text, at))?;
    }
    is(&taken(scan, text), &wanted, &text)
}

/// The row holds each way.
fn is_item(row: &ItemRow) -> Result<(), Fail> {
    let (reader, width, text, count, full, found) = row;
    let conversion = conversion_of(shape_of(*reader), *width);
    let wanted = (*count, *full, end_of(*found));
    each_way_is(ItemScan::start(&conversion), text, wanted)
}

#[test]
fn items_are_the_longest_fronts(rt: HostRuntime) -> Result<(), Fail> {
    for row in items() {
        is_item(row)?;
    }
    Ok(())
}

#[test]
fn a_copy_goes_its_own_way(_rt: HostRuntime) -> Result<(), Fail> {
    let conversion = conversion_of(Shape::Int(DEC), None);
    let mut scan = ItemScan::start(&conversion);
    let before = scan;
    let steps = (scan.step(b'7'), scan.step(b'x'));
    let found = (steps, scan.finish(), before.finish());
    let steps = (Step::Taken, Step::Refused);
    let wanted = (steps, integer(false, 7), ItemEnd::Empty);
    is(&found, &wanted, &"7x")
}

/// A piece, how many bytes of it are taken, and the number that stands after the minus then.
static PIECES: [(&[u8], usize, u64); 6] = [
    (b"-1", 2, 1),
    (b"", 0, 1),
    (b"2;", 1, 12),
    (b";3", 0, 12),
    (b"345", 1, 123),
    (b"4", 0, 123),
];

#[test]
fn pieces_are_taken(_rt: HostRuntime) -> Result<(), Fail> {
    let conversion = conversion_of(Shape::Int(DEC), Some(4));
    let mut scan = ItemScan::start(&conversion);
    for (piece, count, magnitude) in &PIECES {
        let taken = scan.take_all(piece);
        let wanted = (*count, integer(true, *magnitude));
        is(&(taken, scan.finish()), &wanted, piece)?;
    }
    Ok(())
}

/// Texts whose first bytes may be a hexadecimal integer that is known at once.
static HEXES: [DecimalRow; 25] = [
    (None, b"1f,", Some((2, false, 31))),
    (None, b"-0X1F ", Some((5, true, 31))),
    (None, b"0,", Some((1, false, 0))),
    (None, b"+00,", Some((3, false, 0))),
    (None, b"0x0,", Some((3, false, 0))),
    (None, b"0x,", None),
    (None, b"0xg", None),
    (Some(1), b"0x1,", Some((1, false, 0))),
    (Some(2), b"0x1,", None),
    (None, b"ffffffffffffffff,", Some((16, false, u64::MAX))),
    (None, b"0x0000000000000000000001f,", Some((25, false, 31))),
    (None, b"10000000000000000,", None),
    (None, b"1f", None),
    (None, b"-,", None),
    (None, b"1f,45678", Some((2, false, 31))),
    (None, b"1234567G,", Some((7, false, 0x1234567))),
    (None, b"1234567`,", Some((7, false, 0x1234567))),
    (None, b"@1234567,", None),
    (None, b"12abcdef,", Some((8, false, 0x12ABCDEF))),
    (None, b"0xFFFFFFFF,", Some((10, false, 4294967295))),
    (None, b"-DEADBEEF ", Some((9, true, 3735928559))),
    (None, b"12345678", None),
    (None, b"123456789,", Some((9, false, 0x123456789))),
    (Some(4), b"12345678,", Some((4, false, 0x1234))),
    (Some(8), b"123456789", Some((8, false, 0x12345678))),
];

/// Texts whose first bytes may be an integer of `%i`, which is read at once where no zero begins it.
static AUTOS: [DecimalRow; 10] = [
    (None, b"12,", Some((2, false, 12))),
    (None, b"-70 ", Some((3, true, 70))),
    (None, b"+9x", Some((2, false, 9))),
    (Some(1), b"12,", Some((1, false, 1))),
    (Some(1), b"-1,", None),
    (None, b"18446744073709551615,", Some((20, false, u64::MAX))),
    (None, b"18446744073709551616,", None),
    (None, b"017,", None),
    (None, b"-0x1f,", None),
    (None, b"12", None),
];

/// The most bytes of an item with the width.
fn most_of(width: Option<u16>) -> usize {
    width.map_or(usize::MAX, |width| width as usize)
}

/// The bytes of a whole integer, whether a minus stands there, and the number.
fn parts(whole: WholeInteger) -> (usize, bool, u64) {
    (whole.bytes, whole.negative, whole.magnitude)
}

/// The integer is known both ways, or neither, as the row says.
fn is_whole(ways: [Option<WholeInteger>; 2], row: &DecimalRow) -> Result<(), Fail> {
    let [one, other] = ways;
    is(&[one.map(parts), other.map(parts)], &[row.2, row.2], row)
}

#[test]
fn whole_decimals_end_within(_rt: HostRuntime) -> Result<(), Fail> {
    for row in decimals() {
        let (width, text, _) = row;
        let within = decimal_within(Lead::Any, most_of(*width), text);
        is_whole([whole_decimal(*width, text), within], row)?;
    }
    Ok(())
}

#[test]
fn whole_hexadecimals_end_within(_rt: HostRuntime) -> Result<(), Fail> {
    for row in &HEXES {
        let (width, text, _) = row;
        let within = hex_within(Lead::Any, most_of(*width), text);
        is_whole([whole_hex(*width, text), within], row)?;
    }
    Ok(())
}

#[test]
fn whole_integers_of_any_base_end_within(_rt: HostRuntime) -> Result<(), Fail> {
    for row in &AUTOS {
        let (width, text, _) = row;
        for base in [Base::Auto, Base::AutoBin] {
            let within = unprefixed_within(base, most_of(*width), text);
            is_whole([whole_unprefixed(base, *width, text), within], row)?;
        }
    }
    Ok(())
}

/// Texts whose first bytes may be an octal integer.
static OCTALS: [DecimalRow; 7] = [
    (None, b"17,", Some((2, false, 15))),
    (None, b"-20 ", Some((3, true, 16))),
    (None, b"18,", Some((1, false, 1))),
    (Some(2), b"777,", Some((2, false, 63))),
    (
        None,
        b"1777777777777777777777,",
        Some((22, false, u64::MAX)),
    ),
    (None, b"2000000000000000000000,", None),
    (None, b"8,", None),
];

#[test]
fn whole_octals_end_within(_rt: HostRuntime) -> Result<(), Fail> {
    for row in &OCTALS {
        let (width, text, _) = row;
        let within = unprefixed_within(Base::Oct, most_of(*width), text);
        is_whole([whole_unprefixed(Base::Oct, *width, text), within], row)?;
    }
    Ok(())
}

/// A reader and its width, a text, and how many bytes the item has that ends within it.
static WHOLES: [(Reader, Option<u16>, &[u8], Option<usize>); 13] = [
    (Reader::Text, None, b"ab c", Some(2)),
    (Reader::Text, Some(1), b"ab c", Some(1)),
    (Reader::Text, None, b"abc", None),
    (Reader::Text, None, b" ab ", None),
    (Reader::Text, None, b"abcdefghijklmnopqr s", Some(18)),
    (Reader::Text, Some(17), b"abcdefghijklmnopqr s", Some(17)),
    (Reader::Digits, None, b"12,", Some(2)),
    (Reader::Digits, Some(1), b"12,", Some(1)),
    (Reader::Digits, None, b",12", None),
    (Reader::Characters, Some(1), b" a", Some(1)),
    (Reader::Characters, Some(2), b" a", None),
    (Reader::Characters, Some(2), b" ab", Some(2)),
    (Reader::Integer(Lead::Any, Base::Dec), None, b"1,", None),
];

/// How many bytes the item of a reader has that ends within the text; none of an integer.
fn whole_item(reader: Reader, width: Option<u16>, text: &[u8]) -> Option<usize> {
    match shape_of(reader) {
        Shape::Text(_) => text_item(most_of(width), text),
        Shape::Set(members) => members_item(&members, most_of(width), text),
        Shape::Chars => characters_item(most_of(width), text),
        Shape::Int(_) | Shape::Float(_) | Shape::Count => None,
    }
}

#[test]
fn whole_bytes_end_within(_rt: HostRuntime) -> Result<(), Fail> {
    for (reader, width, text, wanted) in &WHOLES {
        is(&whole_item(*reader, *width, text), wanted, text)?;
    }
    Ok(())
}

/// A byte that ends an item, a width, a text, and how many bytes the item has that ends within it.
static UNTILS: [(u8, Option<u16>, &[u8], Option<usize>); 7] = [
    (b',', None, b"ab,c", Some(2)),
    (b',', Some(1), b"ab,c", Some(1)),
    (b',', Some(2), b"ab,c", Some(2)),
    (b',', None, b",ab", None),
    (b',', None, b"abc", None),
    (b'\n', None, b"a b, c and\t more than that\n", Some(26)),
    (0, Some(17), b"abcdefghijklmnopqr s", Some(17)),
];

/// The set of all bytes but one.
fn all_but(stop: u8) -> ByteSet {
    let mut set = ByteSet::empty();
    set.insert(stop);
    set.complement();
    set
}

#[test]
fn items_end_before_a_byte(_rt: HostRuntime) -> Result<(), Fail> {
    for (stop, width, text, wanted) in &UNTILS {
        let most = most_of(*width);
        let found = [
            until_item(*stop, most, text),
            members_item(&all_but(*stop), most, text),
        ];
        is(&found, &[*wanted, *wanted], text)?;
    }
    Ok(())
}

/// Where a whole integer ends within the text, stepping takes the same bytes, to the same integer.
fn is_as_steps(width: Option<u16>, text: &[u8]) -> Result<(), Fail> {
    let Some(whole) = whole_decimal(width, text) else {
        return Ok(());
    };
    let conversion = conversion_of(Shape::Int(DEC), width);
    let (count, _, end) = taken(ItemScan::start(&conversion), text);
    let number = integer(whole.negative, whole.magnitude);
    is(&(count, end), &(whole.bytes, number), &(text, width))
}

static WIDTHS: [Option<u16>; 5] = [None, Some(1), Some(8), Some(19), Some(21)];

/// So it is with each width.
fn are_as_steps(text: &[u8]) -> Result<(), Fail> {
    for width in &WIDTHS {
        is_as_steps(*width, text)?;
    }
    Ok(())
}

#[test]
fn whole_decimals_are_as_steps(rt: HostRuntime) -> Result<(), Fail> {
    let digits = b"-98765432101234567890123456,";
    for from in 0..digits.len() {
        are_as_steps(&digits[from..])?;
    }
    Ok(())
}

/// The radices of digits that may begin with a prefix or a `0`.
static RADICES: [(Base, Radices); 2] = [
    (
        Base::Auto,
        Radices {
            first: 10,
            zero: 8,
            x: Some(16),
            b: None,
        },
    ),
    (
        Base::AutoBin,
        Radices {
            first: 10,
            zero: 8,
            x: Some(16),
            b: Some(2),
        },
    ),
];

/// What leads an integer, its base, a letter after a `0`, and the radix of the digits after both.
static PREFIXES: [(Lead, Base, u8, Option<u8>); 6] = [
    (Lead::Any, Base::Bin, b'B', Some(2)),
    (Lead::Any, Base::Hex, b'b', None),
    (Lead::Any, Base::Hex, b'X', Some(16)),
    (Lead::Any, Base::Dec, b'x', None),
    (Lead::Minus, Base::Auto, b'x', Some(16)),
    (Lead::Nothing, Base::Hex, b'x', None),
];

#[test]
fn each_base_has_its_radices(_rt: HostRuntime) -> Result<(), Fail> {
    for (base, radices) in &RADICES {
        is(&radices_of(*base), radices, base)?;
    }
    Ok(())
}

#[test]
fn each_prefix_has_its_radix(_rt: HostRuntime) -> Result<(), Fail> {
    for (lead, base, letter, radix) in &PREFIXES {
        let numeral = Numeral {
            base: *base,
            lead: *lead,
        };
        is(&prefix_radix(numeral, *letter), radix, letter)?;
    }
    Ok(())
}
