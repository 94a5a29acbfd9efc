//! The shortest texts that read back.
use ryu::Buffer;
use sf_float::shortest_text;
use std::num::f64_from_bits_with_nan;
use std::test::Fail;

/// Patterns of `f64`, with the digits that Python's `repr` gives them too.
static LONG: [(u64, &[u8]); 12] = [
    (0x3fb9_9999_9999_999a, b"0.1"),
    (0x3ff0_0000_0000_0000, b"1.0"),
    (0x8000_0000_0000_0000, b"-0.0"),
    (0x4341_c379_37e0_8000, b"1e16"),
    (0x430c_6bf5_2634_0000, b"1000000000000000.0"),
    (0x3ee4_f8b5_88e3_68f1, b"0.00001"),
    (0x3eb0_c6f7_a0b5_ed8d, b"1e-6"),
    (0x0000_0000_0000_0001, b"5e-324"),
    (0x7fef_ffff_ffff_ffff, b"1.7976931348623157e308"),
    (0x44b5_2d02_c7e1_4af6, b"1e23"),
    (0x7ff0_0000_0000_0000, b"inf"),
    (0xfff0_0000_0000_0000, b"-inf"),
];

#[test]
fn texts_are_short() -> Result<(), Fail> {
    let mut buffer = Buffer::new();
    for &(bits, text) in &LONG {
        if shortest_text(f64_from_bits_with_nan(bits), &mut buffer).as_bytes() != text {
            return Err(Fail::new(format_args!("{text:?}")));
        }
    }
    if shortest_text(0.1f32, &mut buffer) == "0.1"
        && shortest_text(f64::NAN, &mut buffer) == "nan"
    {
        return Ok(());
    }
    Err(Fail::new(format_args!("0.1 or nan")))
}
