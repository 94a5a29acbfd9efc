//! Texts of floats, as glibc's printf writes them.
use sf_float::{FloatConv, FloatField, ROOM, Style, write_float};
use std::num::f64_from_bits_with_nan;
use std::test::Fail;

/// Flags, width, precision and letter of a conversion; a pattern, and its text.
type Row = (&'static [u8], u16, Option<u8>, u8, u64, &'static [u8]);

/// Ties, subnormals, 17 digits around powers of ten and two, the styles that `%g` chooses, and each flag.
static ROWS: [Row; 49] = [
    (b"", 0, None, b'f', 0x3fd5_5555_5555_5555, b"0.333333"),
    (b"", 0, Some(0), b'f', 0x3fe0_0000_0000_0000, b"0"),
    (b"", 0, Some(0), b'f', 0x3ff8_0000_0000_0000, b"2"),
    (b"", 0, Some(0), b'f', 0x4004_0000_0000_0000, b"2"),
    (b"#", 0, Some(0), b'f', 0x4004_0000_0000_0000, b"2."),
    (b"", 0, Some(1), b'f', 0x3fd0_0000_0000_0000, b"0.2"),
    (b"", 0, Some(2), b'f', 0x3fc0_0000_0000_0000, b"0.12"),
    (b"", 0, Some(3), b'f', 0x408f_4001_0624_dd2f, b"1000.000"),
    (b"", 0, Some(2), b'f', 0x3f74_7ae1_47ae_147b, b"0.01"),
    (
        b"",
        0,
        Some(0),
        b'f',
        0x44b5_2d02_c7e1_4af6,
        b"99999999999999991611392",
    ),
    (b"+", 0, Some(2), b'f', 0x4028_b0a3_d70a_3d71, b"+12.35"),
    (b" 0", 8, Some(2), b'f', 0x8000_0000_0000_0000, b"-0000.00"),
    (b"0", 8, Some(2), b'f', 0x4009_21f9_f01b_866e, b"00003.14"),
    (b"-", 8, Some(1), b'f', 0x4000_0000_0000_0000, b"2.0     "),
    (b"", 0, None, b'e', 0x0000_0000_0000_0000, b"0.000000e+00"),
    (b"", 0, Some(2), b'e', 0x4023_fd70_a3d7_0a3d, b"9.99e+00"),
    (b"", 0, Some(2), b'e', 0x4023_fced_9168_72b0, b"9.99e+00"),
    (
        b"",
        0,
        Some(16),
        b'e',
        0x0000_0000_0000_0001,
        b"4.9406564584124654e-324",
    ),
    (b"", 0, Some(0), b'e', 0x7fef_ffff_ffff_ffff, b"2e+308"),
    (b"#", 0, Some(0), b'e', 0x54b2_49ad_2594_c37d, b"1.e+100"),
    (
        b"",
        0,
        Some(16),
        b'e',
        0x4340_0000_0000_0000,
        b"9.0071992547409920e+15",
    ),
    (b"", 0, None, b'E', 0x01a5_6e1f_c2f8_f359, b"1.000000E-300"),
    (b"", 0, None, b'g', 0x40f8_6a00_0000_0000, b"100000"),
    (b"", 0, None, b'g', 0x412e_8480_0000_0000, b"1e+06"),
    (b"", 0, None, b'g', 0x3f1a_36e2_eb1c_432d, b"0.0001"),
    (b"", 0, None, b'g', 0x3ee4_f8b5_88e3_68f1, b"1e-05"),
    (b"#", 0, None, b'g', 0x3ff0_0000_0000_0000, b"1.00000"),
    (b"", 0, None, b'g', 0x412e_847f_0000_0000, b"1e+06"),
    (b"", 0, Some(0), b'g', 0x3f20_2e4b_6ce5_dc68, b"0.0001"),
    (
        b"",
        0,
        Some(17),
        b'g',
        0x3fb9_9999_9999_999a,
        b"0.10000000000000001",
    ),
    (
        b"",
        0,
        Some(17),
        b'g',
        0x44b5_2d02_c7e1_4af6,
        b"9.9999999999999992e+22",
    ),
    (
        b"",
        0,
        Some(15),
        b'g',
        0x0000_0000_0000_0001,
        b"4.94065645841247e-324",
    ),
    (b"", 0, None, b'G', 0x3ddb_7cdf_d9d7_bdbb, b"1E-10"),
    (
        b"",
        0,
        Some(17),
        b'g',
        0x4340_0000_0000_0000,
        b"9007199254740992",
    ),
    (b"", 0, Some(3), b'g', 0x40c3_8780_0000_0000, b"1e+04"),
    (b"", 0, None, b'a', 0x3ff0_0000_0000_0000, b"0x1p+0"),
    (
        b"",
        0,
        None,
        b'a',
        0x3fb9_9999_9999_999a,
        b"0x1.999999999999ap-4",
    ),
    (
        b"",
        0,
        None,
        b'a',
        0x0000_0000_0000_0001,
        b"0x0.0000000000001p-1022",
    ),
    (b"", 0, None, b'a', 0x0000_0000_0000_0000, b"0x0p+0"),
    (b"", 0, Some(0), b'a', 0x3ff8_0000_0000_0000, b"0x2p+0"),
    (b"", 0, Some(1), b'a', 0x3fff_8000_0000_0000, b"0x2.0p+0"),
    (b"", 0, Some(2), b'A', 0x406f_ffae_147a_e148, b"0X2.00P+7"),
    (b"#", 0, None, b'a', 0x4000_0000_0000_0000, b"0x1.p+1"),
    (
        b"",
        0,
        Some(15),
        b'a',
        0x4008_0000_0000_0000,
        b"0x1.800000000000000p+1",
    ),
    (b"0", 12, None, b'a', 0x3ff0_0000_0000_0000, b"0x0000001p+0"),
    (b"", 0, Some(0), b'a', 0x3fe0_0000_0000_0000, b"0x1p-1"),
    (b"", 0, None, b'f', 0x7ff0_0000_0000_0000, b"inf"),
    (b"0", 12, None, b'F', 0xfff0_0000_0000_0000, b"        -INF"),
    (b"+", 0, None, b'a', 0x7ff0_0000_0000_0000, b"+inf"),
];

/// Floats that 128 bits hold times their power of ten, or just not; results of 19 digits and of 20.
static AT_LIMITS: [Row; 30] = [
    (b"", 0, Some(0), b'f', 0x4023_0000_0000_0000, b"10"),
    (b"", 0, Some(0), b'f', 0x4025_0000_0000_0000, b"10"),
    (b"", 0, Some(2), b'f', 0x3fd8_0000_0000_0000, b"0.38"),
    (
        b"",
        0,
        Some(6),
        b'f',
        0x412e_847f_ffff_ef39,
        b"999999.999999",
    ),
    (b"", 0, Some(6), b'f', 0x409d_db33_ad5b_ee3d, b"1910.800466"),
    (b"", 0, Some(1), b'f', 0xc087_4a00_0000_0000, b"-745.2"),
    (
        b"",
        0,
        Some(7),
        b'f',
        0x423c_be99_1a14_587e,
        b"123456789012.3456726",
    ),
    (
        b"",
        0,
        Some(8),
        b'f',
        0x423c_be99_1a14_587e,
        b"123456789012.34567261",
    ),
    (
        b"",
        0,
        Some(18),
        b'f',
        0x3fb9_9999_9999_999a,
        b"0.100000000000000006",
    ),
    (
        b"",
        0,
        Some(19),
        b'f',
        0x3fb9_9999_9999_999a,
        b"0.1000000000000000056",
    ),
    (
        b"",
        0,
        Some(20),
        b'f',
        0x3fb9_9999_9999_999a,
        b"0.10000000000000000555",
    ),
    (
        b"",
        0,
        Some(22),
        b'f',
        0x3fb9_9999_9999_999a,
        b"0.1000000000000000055511",
    ),
    (
        b"",
        0,
        Some(23),
        b'f',
        0x3fb9_9999_9999_999a,
        b"0.10000000000000000555112",
    ),
    (
        b"",
        0,
        Some(3),
        b'f',
        0x433f_ffff_ffff_ffff,
        b"9007199254740991.000",
    ),
    (
        b"",
        0,
        Some(3),
        b'f',
        0x4340_0000_0000_0000,
        b"9007199254740992.000",
    ),
    (
        b"",
        0,
        Some(3),
        b'f',
        0x4340_0000_0000_0001,
        b"9007199254740994.000",
    ),
    (
        b"",
        0,
        Some(0),
        b'f',
        0x43ab_c16d_674e_c800,
        b"1000000000000000000",
    ),
    (
        b"",
        0,
        Some(0),
        b'f',
        0x43e1_58e4_6091_3d00,
        b"10000000000000000000",
    ),
    (
        b"",
        0,
        Some(2),
        b'f',
        0x4330_0000_0000_0002,
        b"4503599627370498.00",
    ),
    (
        b"",
        0,
        Some(25),
        b'f',
        0x3bc7_9ca1_0c92_4223,
        b"0.0000000000000000000100000",
    ),
    (
        b"",
        0,
        Some(19),
        b'f',
        0x3e40_0000_0000_0000,
        b"0.0000000074505805969",
    ),
    (b"", 0, Some(6), b'f', 0x37f0_0000_0000_0000, b"0.000000"),
    (
        b"",
        0,
        Some(18),
        b'e',
        0x40fe_240c_9fbe_76c9,
        b"1.234567890000000043e+05",
    ),
    (
        b"",
        0,
        Some(19),
        b'e',
        0x40fe_240c_9fbe_76c9,
        b"1.2345678900000000431e+05",
    ),
    (b"", 0, Some(3), b'f', 0x0000_0000_0000_0001, b"0.000"),
    (
        b"",
        0,
        Some(17),
        b'g',
        0x3fd3_3333_3333_3333,
        b"0.29999999999999999",
    ),
    (
        b"",
        0,
        Some(17),
        b'g',
        0x419d_6f34_5480_0000,
        b"123456789.125",
    ),
    (
        b"",
        0,
        Some(17),
        b'g',
        0x430c_6bf5_2634_0000,
        b"1000000000000000",
    ),
    (b"", 0, Some(0), b'e', 0x4004_0000_0000_0000, b"2e+00"),
    (b"", 0, Some(0), b'e', 0x400c_0000_0000_0000, b"4e+00"),
];

fn conv_of(row: &Row) -> FloatConv {
    let (flags, width, precision, letter, _, _) = *row;
    FloatConv {
        style: match letter.to_ascii_lowercase() {
            b'f' => Style::Fixed,
            b'e' => Style::Exponent,
            b'g' => Style::General,
            _ => Style::Hexadecimal,
        },
        upper: letter.is_ascii_uppercase(),
        minus: flags.contains(&b'-'),
        plus: flags.contains(&b'+'),
        blank: flags.contains(&b' '),
        alt: flags.contains(&b'#'),
        zero: flags.contains(&b'0'),
        width,
        precision,
    }
}

/// What follows so many of the byte.
fn after_run(text: &[u8], count: u32, b: u8) -> Option<&[u8]> {
    let mut rest = text;
    for _ in 0..count {
        match rest.split_first() {
            Some((first, after)) if *first == b => rest = after,
            _ => return None,
        }
    }
    Some(rest)
}

/// What follows the digits and what stands around them.
fn after_field<'a>(text: &'a [u8], field: &FloatField, digits: &[u8]) -> Option<&'a [u8]> {
    let text = after_run(text, field.left, b' ')?;
    let text = text.strip_prefix(field.sign)?;
    let text = text.strip_prefix(field.mark)?;
    let text = after_run(text, field.zeros, b'0')?;
    let text = text.strip_prefix(digits)?;
    after_run(text, field.right, b' ')
}

/// Whether the text of the row is what is written.
fn is_written(row: &Row) -> bool {
    let mut out = [0u8; ROOM];
    let (field, len) = write_float(&conv_of(row), f64_from_bits_with_nan(row.4), &mut out);
    let digits = out.get(..len).unwrap_or(&out);
    match after_field(row.5, &field, digits) {
        Some(rest) => rest.is_empty(),
        None => false,
    }
}

#[test]
fn texts_are_those_of_printf() -> Result<(), Fail> {
    for row in &ROWS {
        if !is_written(row) {
            return Err(Fail::new(format_args!("{:?}", row.5)));
        }
    }
    Ok(())
}

#[test]
fn texts_at_limits_are_those_of_printf() -> Result<(), Fail> {
    for row in &AT_LIMITS {
        if !is_written(row) {
            return Err(Fail::new(format_args!("{:?}", row.5)));
        }
    }
    Ok(())
}
