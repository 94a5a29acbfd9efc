//! Columns, in one piece and in every cutting into two.
ghost use Rattle.std.specs.Prelude.{◌≡◌, ◌≤◌, length, true};
ghost use Rattle.sf_item.specs.Tests.{has_item};

use sf_base::{ByteSet, Kind, trimmed_end};
use sf_format::{Base, Conversion, Lead, Numeral, Shape};
use sf_item::{ColumnScan, ColumnTaken, ItemEnd};
use sf_rows::is;
use std::test::Fail;

/// What a column is of.
#[derive(Clone, Copy, Debug)]
enum Of {
    Decimal(Lead),
    Text(Lead),
    /// Members of a set of letters and the blank.
    Letters,
    Float(Lead),
}

fn shape_of(of: Of) -> Shape
    ensures { has_item result ≡ true }
{
    match of {
        Of::Decimal(lead) => Shape::Int(Numeral {
            base: Base::Dec,
            lead,
        }),
        Of::Text(lead) => Shape::Text(lead),
        Of::Letters => {
            let mut letters = ByteSet::empty();
            letters.insert_range(b'a', b'z');
            letters.insert(b' ');
            Shape::Set(letters)
        }
        Of::Float(lead) => Shape::Float(lead),
    }
}

fn number(negative: bool, magnitude: u64) -> ItemEnd {
    ItemEnd::Integer {
        negative,
        magnitude,
        overflowed: false,
    }
}

/// A column of four bytes of a text: how many bytes before its text and of it are taken, and what they are.
type Row = (Of, &'static [u8], usize, usize, ItemEnd);

static COLUMNS: [Row; 22] = [
    (Of::Text(Lead::Any), b"", 0, 0, ItemEnd::Empty),
    (Of::Text(Lead::Any), b"   ", 3, 0, ItemEnd::Empty),
    (Of::Text(Lead::Any), b"    x", 4, 0, ItemEnd::Empty),
    (Of::Text(Lead::Any), b" a bc", 1, 3, ItemEnd::Matched),
    (Of::Text(Lead::Any), b"ab", 0, 2, ItemEnd::Matched),
    (Of::Text(Lead::Nothing), b"abcd", 0, 4, ItemEnd::Matched),
    (Of::Text(Lead::Nothing), b"ab d", 0, 4, ItemEnd::Unmatched),
    (Of::Text(Lead::Nothing), b" abc", 1, 3, ItemEnd::Unmatched),
    (Of::Letters, b" a b;", 1, 3, ItemEnd::Matched),
    (Of::Letters, b"ab\t;", 0, 4, ItemEnd::Unmatched),
    (Of::Letters, b"ab\t ;", 0, 4, ItemEnd::Matched),
    (Of::Letters, b"ab1 ", 0, 4, ItemEnd::Unmatched),
    (Of::Float(Lead::Any), b" .5 x", 1, 3, ItemEnd::Matched),
    (Of::Float(Lead::Any), b" 1e ", 1, 3, ItemEnd::Unmatched),
    (Of::Float(Lead::Any), b"inf ", 0, 4, ItemEnd::Matched),
    (Of::Float(Lead::Minus), b"-1.5", 0, 4, ItemEnd::Matched),
    (Of::Float(Lead::Minus), b"inf", 0, 3, ItemEnd::Unmatched),
    (Of::Float(Lead::Minus), b"1.5 ", 0, 4, ItemEnd::Unmatched),
    (Of::Decimal(Lead::Any), b" 4 2", 1, 3, ItemEnd::Unmatched),
    (Of::Decimal(Lead::Any), b" - ", 1, 2, ItemEnd::Unmatched),
    (Of::Decimal(Lead::Any), b"\t\n  5", 4, 0, ItemEnd::Empty),
    (Of::Decimal(Lead::Minus), b"4 ", 0, 2, ItemEnd::Unmatched),
];

/// The same of numbers: the minus, and the magnitude.
static NUMBERS: [(Lead, &[u8], usize, usize, bool, u64); 5] = [
    (Lead::Any, b" +4 ;", 1, 3, false, 4),
    (Lead::Any, b"-042;", 0, 4, true, 42),
    (Lead::Any, b"12345", 0, 4, false, 1234),
    (Lead::Minus, b"-042", 0, 4, true, 42),
    (Lead::Nothing, b"7", 0, 1, false, 7),
];

/// What is taken of a text in two pieces, and what it is then.
fn taken_in_two(mut scan: ColumnScan<'_>, text: &[u8], at: usize) -> (usize, usize, bool, ItemEnd)
    requires { at ≤ length text.now }
{
    let (front, rest) = text.split_at(at);
    let ColumnTaken { before, text } = scan.take_run(front);
    let then = scan.take_run(rest);
    let before = before.saturating_add(then.before);
    let text = text.saturating_add(then.text);
    (before, text, scan.is_full(), scan.finish())
}

/// The row holds wherever the text is cut.
fn is_column(row: &Row) -> Result<(), Fail> {
    let (of, text, before, count, end) = row;
    let conversion = Conversion {
        shape: shape_of(*of),
        kind: Kind::I32,
        width: Some(4),
        slot: None,
        optional: false,
        opens: None,
        column: true,
    };
    let full = before.saturating_add(*count) == 4;
    let wanted = (*before, *count, full, *end);
    for at in 0..text.len() + 1 {
        let scan = ColumnScan::start(&conversion);
        is(&scan.is_blank(), &true, of)?;
        is(&taken_in_two(scan, text, at), &wanted, &(*of, *text, at))?;
    }
    Ok(())
}

#[test]
fn columns_are_their_bytes(_rt: HostRuntime) -> Result<(), Fail> {
    for row in &COLUMNS {
        is_column(row)?;
    }
    for (lead, text, before, count, negative, magnitude) in &NUMBERS {
        let end = number(*negative, *magnitude);
        is_column(&(Of::Decimal(*lead), text, *before, *count, end))?;
    }
    Ok(())
}

/// Texts, and what is left of each without the white space at its end.
static ENDS: [(&[u8], &[u8]); 6] = [
    (b"", b""),
    (b"a", b"a"),
    (b" a \t\n\x0b\x0c\r", b" a"),
    (b"   ", b""),
    (b"a b", b"a b"),
    (b"a\0 ", b"a\0"),
];

#[test]
fn white_space_at_the_end_goes(_rt: HostRuntime) -> Result<(), Fail> {
    for (text, wanted) in &ENDS {
        is(&trimmed_end(text), wanted, text)?;
    }
    Ok(())
}
