//! Texts of floats: those that the C library of glibc prints, but that a NaN has no minus.
use crate::printing::prints;
use sf_base::{Kind, Value};
use sf_format::{
    FloatStyle, FormatFault, FormatWhy, PrintConv, PrintFormat, PrintLetter, Profile, ScanFormat,
    Unit,
};
use sf_print::{ListSink, PrintFault, fprint, printed_len, write_value};
use sf_rows::is;
use std::alloc::Global;
use std::test::Fail;

/// A print format of one float and perhaps a literal, the pattern of a double, and the text.
type FloatRow = (&'static [u8], u64, &'static [u8]);

/// Of `%f`.
static FIXED: [FloatRow; 26] = [
    (b"%f", 0x0000_0000_0000_0000, b"0.000000"),
    (b"%f", 0x8000_0000_0000_0000, b"-0.000000"),
    (b"%f", 0x3ff0_0000_0000_0000, b"1.000000"),
    (b"%f", 0x3fb9_9999_9999_999a, b"0.100000"),
    (b"%f", 0xc009_21fb_5444_2d11, b"-3.141593"),
    (b"%lf", 0x40fe_240c_9fbe_76c9, b"123456.789000"),
    (b"%.0f", 0x3fe0_0000_0000_0000, b"0"),
    (b"%.0f", 0x3ff8_0000_0000_0000, b"2"),
    (b"%.0f", 0x4004_0000_0000_0000, b"2"),
    (b"%#.0f", 0x4008_0000_0000_0000, b"3."),
    (b"%.1f", 0x3fd0_0000_0000_0000, b"0.2"),
    (b"%.1f", 0x3fd6_6666_6666_6666, b"0.3"),
    (b"%.2f", 0x4005_6666_6666_6666, b"2.67"),
    (b"%.3f", 0x430c_6bf5_2634_0000, b"1000000000000000.000"),
    (b"%.20f", 0x3fb9_9999_9999_999a, b"0.10000000000000000555"),
    (b"%.0f", 0x4480_f0cf_064d_d592, b"10000000000000000000000"),
    (b"%.0f", 0x4340_0000_0000_0000, b"9007199254740992"),
    (b"%.10f", 0x0000_0000_0000_0001, b"0.0000000000"),
    (
        b"%F",
        0x444b_1ae4_d6e2_ef50,
        b"1000000000000000000000.000000",
    ),
    (b"%10.2f|", 0x4009_21f9_f01b_866e, b"      3.14|"),
    (b"%-10.2f|", 0x4009_21f9_f01b_866e, b"3.14      |"),
    (b"%010.2f|", 0xc009_21f9_f01b_866e, b"-000003.14|"),
    (b"%+.1f", 0x4000_0000_0000_0000, b"+2.0"),
    (b"% .1f", 0x4000_0000_0000_0000, b" 2.0"),
    (b"%+ .1f", 0x4000_0000_0000_0000, b"+2.0"),
    (b"%-010.1f|", 0x4000_0000_0000_0000, b"2.0       |"),
];

/// Of `%e`.
static SCIENTIFIC: [FloatRow; 16] = [
    (b"%e", 0x0000_0000_0000_0000, b"0.000000e+00"),
    (b"%e", 0x8000_0000_0000_0000, b"-0.000000e+00"),
    (b"%e", 0x3ff0_0000_0000_0000, b"1.000000e+00"),
    (b"%.2e", 0x4023_fced_9168_72b0, b"9.99e+00"),
    (b"%.2e", 0x4023_fd70_a3d7_0a3d, b"9.99e+00"),
    (b"%.2e", 0x4023_fdf3_b645_a1cb, b"1.00e+01"),
    (b"%.0e", 0x40c8_1c80_0000_0000, b"1e+04"),
    (b"%#.0e", 0x40c8_1c80_0000_0000, b"1.e+04"),
    (b"%E", 0x7e41_eb2d_6600_5835, b"1.500000E+300"),
    (b"%.3e", 0x0000_0000_0000_0001, b"4.941e-324"),
    (b"%.16e", 0x3fb9_9999_9999_999a, b"1.0000000000000001e-01"),
    (b"%le", 0x54b2_49ad_2594_c37d, b"1.000000e+100"),
    (b"%015.3e|", 0xbe7a_d7f2_9abc_af48, b"-000001.000e-07|"),
    (b"%.0e", 0x3fe0_0000_0000_0000, b"5e-01"),
    (b"%.0e", 0x4039_0000_0000_0000, b"2e+01"),
    (b"%.0e", 0x4041_8000_0000_0000, b"4e+01"),
];

/// Of `%g`.
static GENERAL: [FloatRow; 22] = [
    (b"%g", 0x0000_0000_0000_0000, b"0"),
    (b"%g", 0x40f8_6a00_0000_0000, b"100000"),
    (b"%g", 0x412e_8480_0000_0000, b"1e+06"),
    (b"%g", 0x3f1a_36e2_eb1c_432d, b"0.0001"),
    (b"%g", 0x3ee4_f8b5_88e3_68f1, b"1e-05"),
    (b"%g", 0x3fb9_9999_9999_999a, b"0.1"),
    (b"%#g", 0x3ff0_0000_0000_0000, b"1.00000"),
    (b"%.0g", 0x405e_c000_0000_0000, b"1e+02"),
    (b"%.3g", 0x4093_4800_0000_0000, b"1.23e+03"),
    (b"%.10g", 0x4093_4a00_0000_0000, b"1234.5"),
    (b"%G", 0x3ddb_7cdf_d9d7_bdbb, b"1E-10"),
    (b"%.17g", 0x3fb9_9999_9999_999a, b"0.10000000000000001"),
    (b"%g", 0x40fe_2408_0000_0000, b"123456"),
    (b"%g", 0x412e_847f_0000_0000, b"1e+06"),
    (b"%#.3g", 0x4059_0000_0000_0000, b"100."),
    (b"%+g", 0x3ff8_0000_0000_0000, b"+1.5"),
    (b"%12g|", 0x3ff8_0000_0000_0000, b"         1.5|"),
    (b"%-12g|", 0x3ff8_0000_0000_0000, b"1.5         |"),
    (b"%012g|", 0xbff8_0000_0000_0000, b"-000000001.5|"),
    (b"%g", 0x7e37_e43c_8800_759c, b"1e+300"),
    (b"%.2g", 0x4058_e000_0000_0000, b"1e+02"),
    (b"%.255g", 0x3fe0_0000_0000_0000, b"0.5"),
];

/// Of `%a`.
static HEXADECIMAL: [FloatRow; 19] = [
    (b"%a", 0x0000_0000_0000_0000, b"0x0p+0"),
    (b"%a", 0x8000_0000_0000_0000, b"-0x0p+0"),
    (b"%a", 0x3ff0_0000_0000_0000, b"0x1p+0"),
    (b"%a", 0x3fb9_9999_9999_999a, b"0x1.999999999999ap-4"),
    (b"%.3a", 0x3fb9_9999_9999_999a, b"0x1.99ap-4"),
    (b"%.0a", 0x3ff8_0000_0000_0000, b"0x2p+0"),
    (b"%.0a", 0x4004_0000_0000_0000, b"0x1p+1"),
    (b"%#.0a", 0x3ff0_0000_0000_0000, b"0x1.p+0"),
    (b"%A", 0x406f_f000_0000_0000, b"0X1.FFP+7"),
    (b"%a", 0x0000_0000_0000_0001, b"0x0.0000000000001p-1022"),
    (b"%a", 0x7fef_ffff_ffff_ffff, b"0x1.fffffffffffffp+1023"),
    (b"%.1a", 0x3fff_8000_0000_0000, b"0x2.0p+0"),
    (b"%.0a", 0x3fff_ff97_2474_538f, b"0x2p+0"),
    (b"%020.2a|", 0xc008_0000_0000_0000, b"-0x00000000001.80p+1|"),
    (b"%20a|", 0x4008_0000_0000_0000, b"            0x1.8p+1|"),
    (b"%.15a", 0x3ff0_0000_0000_0000, b"0x1.000000000000000p+0"),
    (b"%#a", 0x3ff0_0000_0000_0000, b"0x1.p+0"),
    (b"%+a", 0x3ff0_0000_0000_0000, b"+0x1p+0"),
    (b"%la", 0x0010_0000_0000_0000, b"0x1p-1022"),
];

/// Of infinities and NaNs, and six more numbers.
static OTHERS: [FloatRow; 20] = [
    (b"%f", 0x7ff0_0000_0000_0000, b"inf"),
    (b"%F", 0xfff0_0000_0000_0000, b"-INF"),
    (b"%e", 0x7ff0_0000_0000_0000, b"inf"),
    (b"%G", 0x7ff0_0000_0000_0000, b"INF"),
    (b"%a", 0xfff0_0000_0000_0000, b"-inf"),
    (b"%08f|", 0x7ff0_0000_0000_0000, b"     inf|"),
    (b"%-8f|", 0x7ff0_0000_0000_0000, b"inf     |"),
    (b"%+f", 0x7ff0_0000_0000_0000, b"+inf"),
    (b"% g", 0x7ff0_0000_0000_0000, b" inf"),
    (b"%f", 0x7ff8_0000_0000_0000, b"nan"),
    (b"%A", 0x7ff8_0000_0000_0000, b"NAN"),
    (b"%08e|", 0x7ff8_0000_0000_0000, b"     nan|"),
    (b"%+g", 0x7ff8_0000_0000_0000, b"+nan"),
    (b"% g", 0x7ff8_0000_0000_0000, b" nan"),
    (
        b"%.40f",
        0x0010_0000_0000_0000,
        b"0.0000000000000000000000000000000000000000",
    ),
    (b"%.1f", 0x3fa9_9999_9999_999a, b"0.1"),
    (b"%.1f", 0x3fc3_3333_3333_3333, b"0.1"),
    (b"%.1f", 0x3fd0_0000_0000_0000, b"0.2"),
    (b"%.1f", 0x3fdc_cccc_cccc_cccd, b"0.5"),
    (b"%.0f", 0x4330_0000_0000_0002, b"4503599627370498"),
];

/// What is written in place of the first unit, where the text of the float is the whole text or all but one byte.
fn is_written_in_place(conv: &PrintConv, bits: u64, text: &[u8]) -> Result<(), Fail> {
    let mut buf = [0u8; 128];
    let shown = Value::F64(bits).shown();
    let Some(end) = write_value(conv, shown, &mut buf, 3) else {
        return Err(Fail::new("there is room"));
    };
    let written = buf.get(3..end).unwrap_or(b"");
    let rest = text.len().saturating_sub(written.len());
    is(
        &(text.starts_with(written), rest <= 1),
        &(true, true),
        &bits,
    )
}

/// The float is printed so, by a sink and in place.
fn is_printed(alloc: Global, row: &FloatRow) -> Result<(), Fail> {
    let (text, bits, printed) = *row;
    let format = PrintFormat::parse(alloc, Profile::Three, text)?;
    prints(alloc, &format, &[Value::F64(bits)], printed)?;
    match format.directives() {
        [Unit::Conv(conv), ..] => is_written_in_place(conv, bits, printed),
        _ => Ok(()),
    }
}

/// The rows of a table. (What the proof of a function that names a table takes grows faster than the table.)
fn are_printed(alloc: Global, rows: &[FloatRow]) -> Result<(), Fail> {
    for row in rows {
        is_printed(alloc, row)?;
    }
    Ok(())
}

#[test]
fn fixed_texts(rt: HostRuntime) -> Result<(), Fail> {
    are_printed(rt.alloc(), &FIXED)
}

#[test]
fn scientific_texts(rt: HostRuntime) -> Result<(), Fail> {
    are_printed(rt.alloc(), &SCIENTIFIC)
}

#[test]
fn general_texts(rt: HostRuntime) -> Result<(), Fail> {
    are_printed(rt.alloc(), &GENERAL)
}

#[test]
fn hexadecimal_texts(rt: HostRuntime) -> Result<(), Fail> {
    are_printed(rt.alloc(), &HEXADECIMAL)
}

#[test]
fn other_texts(rt: HostRuntime) -> Result<(), Fail> {
    are_printed(rt.alloc(), &OTHERS)
}

/// The longest text: the greatest double with 255 digits after the point.
#[test]
fn the_longest_float(rt: HostRuntime) -> Result<(), Fail> {
    let format = PrintFormat::parse(rt.alloc(), Profile::Three, b"%.255f")?;
    let greatest = [Value::of_f64(-f64::MAX)];
    let mut sink = ListSink::new(rt.alloc());
    let found = [
        printed_len(&format, &greatest),
        fprint(&mut sink, &format, &greatest),
    ];
    is(&found, &[Ok(566), Ok(566)], &"longest")?;
    let text = sink.bytes();
    let found = (
        text.starts_with(b"-17976931348623157081452742373170435"),
        text.get(304..311),
        text.ends_with(b"00000000000000000000"),
    );
    let point = Some(b"858368.".as_slice());
    is(&found, &(true, point, true), &"digits, the point and zeros")
}

#[test]
fn an_f32_is_its_number(rt: HostRuntime) -> Result<(), Fail> {
    let format = PrintFormat::parse(rt.alloc(), Profile::Three, b"%.12g %a %f")?;
    let values = [
        Value::of_f32(0.1),
        Value::of_f32(0.1),
        Value::of_f32(f32::NAN),
    ];
    prints(
        rt.alloc(),
        &format,
        &values,
        b"0.10000000149 0x1.99999ap-4 nan",
    )
}

/// A letter of a float.
static LETTERS: [u8; 8] = *b"aAeEfFgG";

/// Why the format is refused, and where.
fn fault_of(alloc: Global, profile: Profile, text: &[u8]) -> Option<(u16, FormatWhy)> {
    match PrintFormat::parse(alloc, profile, text) {
        Ok(_) => None,
        Err(FormatFault { at, why }) => Some((at, why)),
    }
}

/// By the other profiles, and with a length that no float has.
#[test]
fn letters_that_are_refused(rt: HostRuntime) -> Result<(), Fail> {
    for letter in &LETTERS {
        let found = [
            fault_of(rt.alloc(), Profile::One, &[b'%', *letter]),
            fault_of(rt.alloc(), Profile::Two, &[b'%', *letter]),
            fault_of(rt.alloc(), Profile::Three, &[b'%', b'h', *letter]),
        ];
        let left_out = Some((1, FormatWhy::LeftOut));
        let wanted = [left_out, left_out, Some((2, FormatWhy::BadLength))];
        is(&found, &wanted, letter)?;
    }
    Ok(())
}

/// Formats that the third profile refuses, where and why.
static REFUSED: [(&[u8], u16, FormatWhy); 7] = [
    (b"%hhf", 3, FormatWhy::BadLength),
    (b"%llf", 3, FormatWhy::BadLength),
    (b"%jf", 2, FormatWhy::BadLength),
    (b"%zf", 2, FormatWhy::BadLength),
    (b"%tf", 2, FormatWhy::BadLength),
    (b"%Lf", 1, FormatWhy::LeftOut),
    (b"%.256f", 2, FormatWhy::PrecisionTooLarge),
];

#[test]
fn what_no_float_has(rt: HostRuntime) -> Result<(), Fail> {
    for (text, at, why) in &REFUSED {
        is(
            &fault_of(rt.alloc(), Profile::Three, text),
            &Some((*at, *why)),
            text,
        )?;
    }
    Ok(())
}

#[test]
fn floats_are_refused_by_their_kind(rt: HostRuntime) -> Result<(), Fail> {
    let float = PrintFormat::parse(rt.alloc(), Profile::Three, b"%f")?;
    let integer = PrintFormat::parse(rt.alloc(), Profile::Three, b"%d")?;
    let wrong = Err(PrintFault::WrongKind { at: 1 });
    let found = [
        printed_len(&float, &[Value::I32(1)]),
        printed_len(&integer, &[Value::F64(0)]),
    ];
    let found = (found, float.kind(1));
    is(
        &found,
        &([wrong, wrong], Some(Kind::F64)),
        &"%f of 1, %d of 0.0",
    )
}

/// The kind of the only slot of a scan format of the third profile, or why it is refused, and where.
fn scanned_kind(alloc: Global, text: &[u8]) -> Result<Option<Kind>, (u16, FormatWhy)> {
    match ScanFormat::parse(alloc, Profile::Three, text) {
        Ok(format) => Ok(format.kind(1)),
        Err(FormatFault { at, why }) => Err((at, why)),
    }
}

#[test]
fn profile_three_scans_floats(rt: HostRuntime) -> Result<(), Fail> {
    let found = [
        scanned_kind(rt.alloc(), b"%b"),
        scanned_kind(rt.alloc(), b"%f"),
        scanned_kind(rt.alloc(), b"%Lf"),
    ];
    let wanted = [
        Ok(Some(Kind::U32)),
        Ok(Some(Kind::F32)),
        Err((1, FormatWhy::LeftOut)),
    ];
    is(&found, &wanted, &"%b, %f and %Lf")
}

#[test]
fn a_float_has_its_letter(rt: HostRuntime) -> Result<(), Fail> {
    let format = PrintFormat::parse(rt.alloc(), Profile::Three, b"%-+ #012.3lG")?;
    let conv = PrintConv {
        letter: PrintLetter::Float(FloatStyle::General, true),
        kind: Kind::F64,
        slot: 1,
        minus: true,
        plus: true,
        blank: true,
        alt: true,
        zero: true,
        width: 12,
        precision: Some(3),
    };
    is(&format.directives(), &[Unit::Conv(conv)].as_slice(), &"%G")
}
