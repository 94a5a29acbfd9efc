//! Values of matching sequences, as glibc's strtod and strtof read them, and input items.
use sf_base::Value;
use sf_float_read::{
    FloatScan, Forms, decimal_value_f32, decimal_value_f64, is_float, numeral_within, value_f32,
    value_f64,
};
use std::test::Fail;

/// A matching sequence and its patterns; none where it is out of range.
type Row = (&'static [u8], Option<u64>, Option<u32>);

/// Ties, subnormals, the greatest numbers, and numbers that by way of an `f64` would be rounded twice.
static VALUES: [Row; 35] = [
    (b"1e23", Some(0x44b5_2d02_c7e1_4af6), Some(0x65a9_6816)),
    (
        b"9007199254740993",
        Some(0x4340_0000_0000_0000),
        Some(0x5a00_0000),
    ),
    (
        b"9007199254740992.9999999999",
        Some(0x4340_0000_0000_0000),
        Some(0x5a00_0000),
    ),
    (
        b"2.2250738585072011e-308",
        Some(0x000f_ffff_ffff_ffff),
        Some(0x0000_0000),
    ),
    (b"4.9e-324", Some(0x0000_0000_0000_0001), Some(0x0000_0000)),
    (
        b"2.4703282292062327e-324",
        Some(0x0000_0000_0000_0000),
        Some(0x0000_0000),
    ),
    (
        b"2.4703282292062328e-324",
        Some(0x0000_0000_0000_0001),
        Some(0x0000_0000),
    ),
    (b"-0", Some(0x8000_0000_0000_0000), Some(0x8000_0000)),
    (b"1.7976931348623158e308", Some(0x7fef_ffff_ffff_ffff), None),
    (b"1.7976931348623159e308", None, None),
    (b"16777217", Some(0x4170_0000_1000_0000), Some(0x4b80_0000)),
    (
        b"16777217.0000001",
        Some(0x4170_0000_1000_001b),
        Some(0x4b80_0001),
    ),
    (
        b"1.00000017881393432617187499",
        Some(0x3ff0_0000_3000_0000),
        Some(0x3f80_0001),
    ),
    (
        b"1.00000017881393432617187500",
        Some(0x3ff0_0000_3000_0000),
        Some(0x3f80_0002),
    ),
    (
        b"1.00000017881393432617187501",
        Some(0x3ff0_0000_3000_0000),
        Some(0x3f80_0002),
    ),
    (b"0x1p-1074", Some(0x0000_0000_0000_0001), Some(0x0000_0000)),
    (
        b"0x1.8p-1075",
        Some(0x0000_0000_0000_0001),
        Some(0x0000_0000),
    ),
    (b"0x1p-1075", Some(0x0000_0000_0000_0000), Some(0x0000_0000)),
    (
        b"0x1.00000000000008p0",
        Some(0x3ff0_0000_0000_0000),
        Some(0x3f80_0000),
    ),
    (
        b"0x1.00000000000018p0",
        Some(0x3ff0_0000_0000_0002),
        Some(0x3f80_0000),
    ),
    (
        b"0x1.000001p0",
        Some(0x3ff0_0000_1000_0000),
        Some(0x3f80_0000),
    ),
    (
        b"0x1.000001000000000000001p0",
        Some(0x3ff0_0000_1000_0000),
        Some(0x3f80_0001),
    ),
    (b"0xA.Bp4", Some(0x4065_6000_0000_0000), Some(0x432b_0000)),
    (b"-0X.8P+1", Some(0xbff0_0000_0000_0000), Some(0xbf80_0000)),
    (b"0x1p1024", None, None),
    (
        b"3.4028235677973366e38",
        Some(0x47ef_ffff_f000_0000),
        Some(0x7f7f_ffff),
    ),
    (
        b"3.4028235677973365e38",
        Some(0x47ef_ffff_f000_0000),
        Some(0x7f7f_ffff),
    ),
    (b"inf", Some(0x7ff0_0000_0000_0000), Some(0x7f80_0000)),
    (b"-INFINITY", Some(0xfff0_0000_0000_0000), Some(0xff80_0000)),
    (b"1e-400", Some(0x0000_0000_0000_0000), Some(0x0000_0000)),
    (b"0x1p99999999999999999999", None, None),
    (
        b"0x1p-99999999999999999999",
        Some(0x0000_0000_0000_0000),
        Some(0x0000_0000),
    ),
    (
        b"0x0p99999999999999999999",
        Some(0x0000_0000_0000_0000),
        Some(0x0000_0000),
    ),
    (b"1e999999999999999999999", None, None),
    (
        b"0e999999999999",
        Some(0x0000_0000_0000_0000),
        Some(0x0000_0000),
    ),
];

#[test]
fn values_are_those_of_strtod() -> Result<(), Fail> {
    for row in &VALUES {
        let right = is_float(row.0) && value_f64(row.0) == row.1 && value_f32(row.0) == row.2;
        if !right {
            return Err(Fail::new(format_args!("{:?}", row.0)));
        }
    }
    Ok(())
}

/// Exponents that do not fit 64 bits count exactly, and so does one that many zeros take back.
#[test]
fn long_exponents_count() -> Result<(), Fail> {
    let mut text = [b'0'; 700];
    text[0] = b'1';
    text[695] = b'e';
    text[696] = b'-';
    text[697] = b'6';
    text[698] = b'9';
    text[699] = b'4';
    let text = text.as_slice();
    if is_float(text) && value_f64(text) == Some(0x3ff0_0000_0000_0000) {
        return Ok(());
    }
    Err(Fail::new(format_args!("not 1")))
}

/// An input, how many bytes of it are the item, and whether that is a matching sequence (C11 7.21.6.2p9, and its
/// example `100ergs`).
type Item = (&'static [u8], usize, bool);

static ITEMS: [Item; 20] = [
    (b"100ergs", 4, false),
    (b"1e+x", 3, false),
    (b".", 1, false),
    (b"-", 1, false),
    (b"0x", 2, false),
    (b"0x.p", 3, false),
    (b"0x1p", 4, false),
    (b"infi", 4, false),
    (b"nan(a b", 5, false),
    (b"1.5.2", 3, true),
    (b"1e5e5", 3, true),
    (b"info", 3, true),
    (b"0x1g", 3, true),
    (b"+.5,", 3, true),
    (b"5.;", 2, true),
    (b"INFINITYx", 8, true),
    (b"nan(_1)2", 7, true),
    (b"NaN ", 3, true),
    (b"0X.8P-1 ", 7, true),
    (b"x", 0, false),
];

/// Items of decimal floats: a minus or none, and a decimal number.
static DECIMAL_ITEMS: [Item; 20] = [
    (b"-1.5", 4, true),
    (b"+1", 0, false),
    (b"0x1p4", 1, true),
    (b"-0X1", 2, true),
    (b"1e", 2, false),
    (b"1e+x", 3, false),
    (b"1p4", 1, true),
    (b"inf", 0, false),
    (b"-inf", 1, false),
    (b"nan", 0, false),
    (b"-NaN", 1, false),
    (b".5", 2, true),
    (b"5.", 2, true),
    (b".", 1, false),
    (b"-.", 2, false),
    (b"-", 1, false),
    (b"--1", 1, false),
    (b" 1", 0, false),
    (b"00.5e+05e", 8, true),
    (b"1.5.2", 3, true),
];

fn are_items(forms: Forms, rows: &[Item]) -> Result<(), Fail> {
    for row in rows {
        let mut scan = FloatScan::start(forms);
        let mut taken = 0usize;
        for b in row.0 {
            if !scan.step(*b) {
                break;
            }
            taken = taken.saturating_add(1);
        }
        if taken != row.1 || scan.is_match() != row.2 {
            return Err(Fail::new(format_args!("{:?}", row.0)));
        }
    }
    Ok(())
}

#[test]
fn items_are_the_longest_fronts() -> Result<(), Fail> {
    are_items(Forms::All, &ITEMS)?;
    are_items(Forms::Decimal, &DECIMAL_ITEMS)
}

/// A piece that begins with a decimal numeral, how many bytes that has, and its patterns, as strtod and strtof read it.
type Numeral = (&'static [u8], usize, u64, u32);

static NUMERALS: [Numeral; 12] = [
    (b"123.456000,", 10, 0x405e_dd2f_1a9f_be77, 0x42f6_e979),
    (b"-7.125;", 6, 0xc01c_8000_0000_0000, 0xc0e4_0000),
    (b"0.1 ", 3, 0x3fb9_9999_9999_999a, 0x3dcc_cccd),
    (b"00.30\n", 5, 0x3fd3_3333_3333_3333, 0x3e99_999a),
    (b"5.,", 2, 0x4014_0000_0000_0000, 0x40a0_0000),
    (b"-0.0x", 4, 0x8000_0000_0000_0000, 0x8000_0000),
    (
        b"1234567890123.456789;",
        20,
        0x4271_f71f_b04c_b74f,
        0x538f_b8fe,
    ),
    (b"16777217.0000001,", 16, 0x4170_0000_1000_001b, 0x4b80_0001),
    (
        b"9007199254740.993 ",
        17,
        0x42a0_624d_d2f1_a9fc,
        0x5503_126f,
    ),
    (
        b"123456789012345678.9,",
        20,
        0x437b_69b4_ba63_0f35,
        0x5bdb_4da6,
    ),
    (
        b"1234567890123456789.,",
        20,
        0x43b1_2210_f47d_e981,
        0x5d89_1088,
    ),
    (
        b"-999.99999999999989,",
        19,
        0xc08f_3fff_ffff_ffff,
        0xc47a_0000,
    ),
];

/// Pieces of which it isn't seen at once: no byte follows, an exponent does, there is no point, no digit before it, a
/// plus, or more than nineteen digits.
static OTHERS: [&[u8]; 10] = [
    b"1.5",
    b"1.5e3,",
    b"1.5E3,",
    b".5,",
    b"+1.5,",
    b"15,",
    b"x",
    b"-.5,",
    b"12345678901234567890.,",
    b"1234567890123456789.0,",
];

#[test]
fn decimal_numerals_are_read_at_once() -> Result<(), Fail> {
    for row in &NUMERALS {
        let right = match numeral_within(row.0) {
            Some(it) => {
                it.bytes == row.1
                    && decimal_value_f64(it.negative, it.digits, it.places) == Some(row.2)
                    && decimal_value_f32(it.negative, it.digits, it.places) == Some(row.3)
            }
            None => false,
        };
        if !right {
            return Err(Fail::new(format_args!("{:?}", row.0)));
        }
    }
    for piece in &OTHERS {
        if numeral_within(piece).is_some() {
            return Err(Fail::new(format_args!("{:?}", piece)));
        }
    }
    Ok(())
}

/// A float is a value of its pattern, a negative zero with its sign (IEEE 754 3.4).
#[test]
fn a_float_is_a_value_of_its_pattern() -> Result<(), Fail> {
    if Value::from(1.5) != Value::F64(0x3ff8_0000_0000_0000) {
        return Err(Fail::new(format_args!("1.5")));
    }
    if Value::from(-0.0) != Value::F64(0x8000_0000_0000_0000) {
        return Err(Fail::new(format_args!("-0")));
    }
    Ok(())
}
