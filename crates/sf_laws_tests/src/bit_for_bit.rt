//! Doubles that go there and back: 17 significant digits are enough for any (C11 5.2.4.2.2p11, DBL_DECIMAL_DIG).
use crate::through;
use std::test::Fail;

/// The patterns of 0.1, -0.0, the least double above 0, the greatest one and 1/3; of 1, -1, 0.2, 0.3, 2/3, 1e22, 1e23,
/// 2^53 - 1 and 2^53; of the least normal double and the one below it, those beside 1 and the one below 2; of 100,
/// 1e-5, 1e16, pi and e; and of three that have no short text.
static PATTERNS: [u64; 27] = [
    0x3fb9_9999_9999_999a,
    0x8000_0000_0000_0000,
    0x0000_0000_0000_0001,
    0x7fef_ffff_ffff_ffff,
    0x3fd5_5555_5555_5555,
    0x3ff0_0000_0000_0000,
    0xbff0_0000_0000_0000,
    0x3fc9_9999_9999_999a,
    0x3fd3_3333_3333_3333,
    0x3fe5_5555_5555_5555,
    0x4480_f0cf_064d_d592,
    0x44b5_2d02_c7e1_4af6,
    0x433f_ffff_ffff_ffff,
    0x4340_0000_0000_0000,
    0x0010_0000_0000_0000,
    0x000f_ffff_ffff_ffff,
    0x3fef_ffff_ffff_ffff,
    0x3ff0_0000_0000_0001,
    0x3fff_ffff_ffff_ffff,
    0x4059_0000_0000_0000,
    0x3ee4_f8b5_88e3_68f1,
    0x4341_c379_37e0_8000,
    0x4009_21fb_5444_2d18,
    0x4005_bf0a_8b14_5769,
    0x1234_5678_9abc_def0,
    0xc2e0_7b1d_44f3_9a05,
    0x9876_5432_10fe_dcba,
];

/// Each comes back as it was, bit for bit.
#[test]
fn doubles_come_back(rt: HostRuntime) -> Result<(), Fail> {
    for &bits in &PATTERNS {
        let back = through(rt.alloc(), bits);
        if back != Some(bits) {
            return Err(Fail::new(format_args!("{bits:x}: {back:?}")));
        }
    }
    Ok(())
}
