//! Rows that are tuples, of one to six fields.
use sf_base::{Kind, Value};
use sf_format::{Profile, ScanFormat};
use sf_read::{
    GivenRow, Lookahead, Row, ScanRowFault, ShapeFault, SliceSource, scan_row, sscan_row,
};
use sf_rows::{LIMIT, is};
use std::alloc::Global;
use std::test::Fail;

/// A format, a text, and the values.
type Fields = (&'static [u8], &'static [u8], &'static [Value<'static>]);

/// Tuples of one field to six, in turn.
static TUPLES: [Fields; 6] = [
    (
        b"%lu",
        b" 18446744073709551615",
        &[Value::U64(18446744073709551615)],
    ),
    (
        b"%d %s",
        b"-7 up and down",
        &[Value::I32(-7), Value::Text(b"up")],
    ),
    (
        b"%[^:]:%hu:%s",
        b"a b:65535:c",
        &[Value::Text(b"a b"), Value::U16(65535), Value::Text(b"c")],
    ),
    (
        b"%hhd%hhd%hhd%hhd",
        b"1 -2 3 -128",
        &[Value::I8(1), Value::I8(-2), Value::I8(3), Value::I8(-128)],
    ),
    (
        b"%hhu%1c%hhu%1c%hhu",
        b"255.0.1",
        &[
            Value::U8(255),
            Value::Text(b"."),
            Value::U8(0),
            Value::Text(b"."),
            Value::U8(1),
        ],
    ),
    (
        b"%hd %ld %u %d %lx %s",
        b"-32768 -9223372036854775808 4294967295 2147483647 ff end",
        &[
            Value::I16(-32768),
            Value::I64(-9223372036854775808),
            Value::U32(4294967295),
            Value::I32(2147483647),
            Value::U64(255),
            Value::Text(b"end"),
        ],
    ),
];

/// The row of a text by a format.
fn row_of<T: Row>(
    alloc: Global,
    format: &[u8],
    text: &[u8],
) -> Result<Result<T, ScanRowFault>, Fail> {
    let format = ScanFormat::parse(alloc, Profile::One, format)?;
    let mut from = Lookahead::<SliceSource<'_>, 8>::new(SliceSource::new(text));
    Ok(scan_row::<T, _, 8>(alloc, &mut from, &format, LIMIT))
}

/// The row has the values in turn.
fn has_row<T: Row + Drop>(alloc: Global, fields: &Fields) -> Result<(), Fail> {
    let (format, text, values) = fields;
    let row: T = row_of(alloc, format, text)??;
    is(&row.with_values().as_slice(), values, text)
}

#[test]
fn one_field(rt: HostRuntime) -> Result<(), Fail> {
    has_row::<(u64,)>(rt.alloc(), &TUPLES[0])
}

#[test]
fn two_fields(rt: HostRuntime) -> Result<(), Fail> {
    has_row::<(i32, Vec<u8>)>(rt.alloc(), &TUPLES[1])
}

#[test]
fn three_fields(rt: HostRuntime) -> Result<(), Fail> {
    has_row::<(Vec<u8>, u16, Vec<u8>)>(rt.alloc(), &TUPLES[2])
}

#[test]
fn four_fields(rt: HostRuntime) -> Result<(), Fail> {
    has_row::<(i8, i8, i8, i8)>(rt.alloc(), &TUPLES[3])
}

#[test]
fn five_fields(rt: HostRuntime) -> Result<(), Fail> {
    has_row::<(u8, Vec<u8>, u8, Vec<u8>, u8)>(rt.alloc(), &TUPLES[4])
}

#[test]
fn six_fields(rt: HostRuntime) -> Result<(), Fail> {
    has_row::<(i16, i64, u32, i32, u64, Vec<u8>)>(rt.alloc(), &TUPLES[5])
}

/// Formats whose destinations are not a number and a text, and how.
static OTHERS: [(&[u8], ShapeFault); 5] = [
    (b"%d", ShapeFault::Count { format: 1, row: 2 }),
    (
        b"%s %d",
        ShapeFault::Kinds {
            slot: 1,
            format: Kind::Text,
            row: Kind::I32,
        },
    ),
    (
        b"%d %d",
        ShapeFault::Kinds {
            slot: 2,
            format: Kind::I32,
            row: Kind::Text,
        },
    ),
    (
        b"%ld %s",
        ShapeFault::Kinds {
            slot: 1,
            format: Kind::I64,
            row: Kind::I32,
        },
    ),
    (b"%d %s %d", ShapeFault::Count { format: 3, row: 2 }),
];

#[test]
fn other_shapes(rt: HostRuntime) -> Result<(), Fail> {
    for (format, by) in &OTHERS {
        let found = row_of::<(i32, Vec<u8>)>(rt.alloc(), format, b"1 2 3")?;
        is(&found.err(), &Some(ScanRowFault::ShapeDiffers(*by)), format)?;
    }
    Ok(())
}

/// A format whose conversions may be missing, a text, and what each slot is given.
type Gaps = (
    &'static [u8],
    &'static [u8],
    &'static [Option<Value<'static>>],
);

/// Tuples of one field to six in turn, of which fields are missing. The sixth has an Option in each slot, though only
/// the second may be missing. The last two are of a group, the last also of a column.
static GAPS: [Gaps; 8] = [
    (b"%?ld", b"", &[None]),
    (b"%?d %s", b" up 7", &[None, Some(Value::Text(b"up"))]),
    (
        b"%?d,%?d,%?d",
        b"1,,3",
        &[Some(Value::I32(1)), None, Some(Value::I32(3))],
    ),
    (
        b"%2$?d;%1$?[a-z];%4$?hhu;%3$?s",
        b"-5;;;",
        &[None, Some(Value::I32(-5)), None, None],
    ),
    (
        b"%?x%u%?x%u%?1c",
        b"ff 16 -1 7",
        &[
            Some(Value::U32(255)),
            Some(Value::U32(16)),
            Some(Value::U32(4294967295)),
            Some(Value::U32(7)),
            None,
        ],
    ),
    (
        b"%d%?[,]%d%hd%hu%lu",
        b"1 2 3 4 5",
        &[
            Some(Value::I32(1)),
            None,
            Some(Value::I32(2)),
            Some(Value::I16(3)),
            Some(Value::U16(4)),
            Some(Value::U64(5)),
        ],
    ),
    (b"%d%?(,%d:%n%);", b"1;", &[Some(Value::I32(1)), None, None]),
    (
        b"%=8s%u%?(-%u%)",
        b"gzip    7",
        &[Some(Value::Text(b"gzip")), Some(Value::U32(7)), None],
    ),
];

/// The row of a text by a format of profile 3, from a source and of the text.
fn gap_row<T: Row>(
    alloc: Global,
    format: &[u8],
    text: &[u8],
) -> Result<(Result<T, ScanRowFault>, Result<T, ScanRowFault>), Fail> {
    let format = ScanFormat::parse(alloc, Profile::Three, format)?;
    let mut from = Lookahead::<SliceSource<'_>, 3>::new(SliceSource::new(text));
    let read = scan_row::<T, _, 3>(alloc, &mut from, &format, LIMIT);
    Ok((read, sscan_row(alloc, text, &format, LIMIT)))
}

/// The slots of the row are given these in turn.
fn has_gaps<T: GivenRow + Drop>(alloc: Global, gaps: &Gaps) -> Result<(), Fail> {
    let (format, text, given) = gaps;
    let (read, scanned) = gap_row::<T>(alloc, format, text)?;
    is(&read?.with_given().as_slice(), given, text)?;
    is(&scanned?.with_given().as_slice(), given, text)
}

#[test]
fn one_gap(rt: HostRuntime) -> Result<(), Fail> {
    has_gaps::<(Option<i64>,)>(rt.alloc(), &GAPS[0])
}

#[test]
fn a_gap_before_a_text(rt: HostRuntime) -> Result<(), Fail> {
    has_gaps::<(Option<i32>, Vec<u8>)>(rt.alloc(), &GAPS[1])
}

#[test]
fn gaps_of_three(rt: HostRuntime) -> Result<(), Fail> {
    has_gaps::<(Option<i32>, Option<i32>, Option<i32>)>(rt.alloc(), &GAPS[2])
}

#[test]
fn gaps_of_four(rt: HostRuntime) -> Result<(), Fail> {
    has_gaps::<(Option<Vec<u8>>, Option<i32>, Option<Vec<u8>>, Option<u8>)>(rt.alloc(), &GAPS[3])
}

#[test]
fn gaps_of_five(rt: HostRuntime) -> Result<(), Fail> {
    has_gaps::<(Option<u32>, u32, Option<u32>, u32, Option<Vec<u8>>)>(rt.alloc(), &GAPS[4])
}

/// Six fields, of which one is missing.
type Six = (
    Option<i32>,
    Option<Vec<u8>>,
    Option<i32>,
    Option<i16>,
    Option<u16>,
    Option<u64>,
);

#[test]
fn gaps_of_six(rt: HostRuntime) -> Result<(), Fail> {
    has_gaps::<Six>(rt.alloc(), &GAPS[5])
}

#[test]
fn gaps_of_a_group(rt: HostRuntime) -> Result<(), Fail> {
    has_gaps::<(i32, Option<i32>, Option<i32>)>(rt.alloc(), &GAPS[6])
}

#[test]
fn gaps_after_a_column(rt: HostRuntime) -> Result<(), Fail> {
    has_gaps::<(Vec<u8>, u32, Option<u32>)>(rt.alloc(), &GAPS[7])
}

/// The values of a row that are there.
#[test]
fn values_that_are_there(rt: HostRuntime) -> Result<(), Fail> {
    let (read, _scanned) = gap_row::<(Option<i32>, Option<f64>, Option<u8>)>(
        rt.alloc(),
        b"%?d;%?lf;%?hhu",
        b"7;;8",
    )?;
    let row = read?;
    let values: &[Value<'_>] = &[Value::I32(7), Value::U8(8)];
    let listed = row.with_values();
    let found = ((row.0, row.1, row.2), listed.as_slice());
    is(&found, &((Some(7), None, Some(8)), values), b"7;;8")
}

/// Whether the row has another shape than the format.
fn differs(row: Result<(Option<i32>, u32), ScanRowFault>) -> bool {
    matches!(row, Err(ScanRowFault::ShapeDiffers(_)))
}

/// A format, and whether a row of an Option and of a number has another shape.
static SHAPES: [(&[u8], bool); 3] = [(b"%?d%u", false), (b"%d%?u", true), (b"%?d%d", true)];

/// A type that is no Option doesn't take a slot that may be missing.
#[test]
fn slots_that_need_a_value(rt: HostRuntime) -> Result<(), Fail> {
    for (format, wanted) in &SHAPES {
        let (read, scanned) = gap_row(rt.alloc(), format, b"1 2")?;
        is(
            &[differs(read), differs(scanned)],
            &[*wanted, *wanted],
            format,
        )?;
    }
    Ok(())
}

/// A conversion that assigns no slot may be missing.
#[test]
fn a_slot_after_a_gap(rt: HostRuntime) -> Result<(), Fail> {
    let (read, _scanned) = gap_row::<(u32,)>(rt.alloc(), b"%*?d;%u", b";2")?;
    is(&read, &Ok((2,)), b";2")
}
