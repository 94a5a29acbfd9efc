//! The shortest text of a float as the output forms write it.
use sf_base::Real;
use sf_float::fewest::ROOM;
use sf_float::write_shortest;
use std::test::Fail;

/// Floats of both kinds, with the digits that Python's `repr` gives the doubles, and numpy's the others.
static WRITTEN: [(Real, &[u8]); 51] = [
    (Real::F64(0x3cd2_03af_9ee7_5616), b"1e-15"),
    (Real::F64(0x3cd2_03af_9ee7_5615), b"9.999999999999999e-16"),
    (Real::F64(0x3cd3_d0da_c864_deb1), b"1.1e-15"),
    (Real::F64(0x4330_0000_0000_0000), b"4503599627370496.0"),
    (Real::F64(0x4330_0000_0000_0001), b"4503599627370497.0"),
    (Real::F64(0x4320_0000_0000_0001), b"2251799813685248.5"),
    (Real::F64(0x4320_0000_0000_0004), b"2251799813685250.0"),
    (Real::F64(0x4331_c379_37e0_8000), b"5000000000000000.0"),
    (Real::F64(0x4340_0000_0000_0000), b"9007199254740992.0"),
    (Real::F64(0x4311_8b54_f22a_eb03), b"1234567890123456.8"),
    (Real::F64(0x3fd5_5555_5555_5555), b"0.3333333333333333"),
    (Real::F64(0x3fe5_5555_5555_5555), b"0.6666666666666666"),
    (Real::F64(0x409d_db33_ad5b_ee3d), b"1910.800466"),
    (Real::F64(0x419d_6f34_5400_0000), b"123456789.0"),
    (Real::F64(0x3e08_0d43_de9c_c603), b"7e-10"),
    (Real::F64(0x3e10_0000_0000_0000), b"9.313225746154785e-10"),
    (Real::F64(0x43b0_0000_0000_0000), b"1.152921504606847e18"),
    (Real::F64(0x3eb0_0000_0000_0000), b"9.5367431640625e-7"),
    (Real::F64(0x3ff0_0000_0000_0000), b"1.0"),
    (Real::F64(0x3fb9_9999_9999_999a), b"0.1"),
    (Real::F64(0xbfd3_3333_3333_3334), b"-0.30000000000000004"),
    (Real::F64(0x40fe_2400_0000_0000), b"123456.0"),
    (Real::F64(0x430c_6bf5_2634_0000), b"1000000000000000.0"),
    (Real::F64(0x4341_c379_37e0_8000), b"1e16"),
    (Real::F64(0x44b5_2d02_c7e1_4af6), b"1e23"),
    (Real::F64(0x7e41_eb2d_6600_5835), b"1.5e300"),
    (Real::F64(0x7fef_ffff_ffff_ffff), b"1.7976931348623157e308"),
    (Real::F64(0x0000_0000_0000_0001), b"5e-324"),
    (Real::F64(0x0010_0000_0000_0000), b"2.2250738585072014e-308"),
    (Real::F64(0x3ee9_e0fc_af93_80fc), b"0.00001234"),
    (Real::F64(0x3eb4_b3fd_5942_cd96), b"1.234e-6"),
    (Real::F64(0x3e70_0000_0000_0000), b"5.960464477539063e-8"),
    (Real::F64(0x4310_0000_0000_0001), b"1125899906842624.2"),
    (Real::F64(0x4310_0000_0000_0003), b"1125899906842624.8"),
    (Real::F64(0x4023_0000_0000_0000), b"9.5"),
    (Real::F64(0x0000_0000_0000_0000), b"0.0"),
    (Real::F64(0x8000_0000_0000_0000), b"-0.0"),
    (Real::F64(0x7ff0_0000_0000_0000), b"inf"),
    (Real::F64(0xfff0_0000_0000_0000), b"-inf"),
    (Real::F64(0x7ff8_0000_0000_0000), b"nan"),
    (Real::F64(0xfff0_0000_0000_0001), b"nan"),
    (Real::F32(0x3dcc_cccd), b"0.1"),
    (Real::F32(0x4b80_0000), b"16777216.0"),
    (Real::F32(0x5368_d4a5), b"1000000000000.0"),
    (Real::F32(0x5511_84e7), b"1e13"),
    (Real::F32(0x3727_c5ac), b"0.00001"),
    (Real::F32(0x3586_37bd), b"0.000001"),
    (Real::F32(0x33d6_bf95), b"1e-7"),
    (Real::F32(0x7f7f_ffff), b"3.4028235e38"),
    (Real::F32(0x0000_0001), b"1e-45"),
    (Real::F32(0xff80_0000), b"-inf"),
];

#[test]
fn written() -> Result<(), Fail> {
    let mut out = [0; ROOM];
    for &(real, text) in &WRITTEN {
        let len = write_shortest(real, &mut out);
        if &out[..len] != text {
            return Err(Fail::new(format_args!("{text:?}")));
        }
    }
    Ok(())
}
