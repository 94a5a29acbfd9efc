//! Numbers at the end of a list, and in place.
use sf_print::{push_number, write_number};
use sf_rows::is;
use std::test::Fail;

/// Numbers by their sign and magnitude, and their texts after a letter.
static NUMBERS: [(bool, u64, &[u8]); 15] = [
    (false, 0, b"n0"),
    (true, 7, b"n-7"),
    (false, 10, b"n10"),
    (true, 100, b"n-100"),
    (false, 9999, b"n9999"),
    (false, 10_000, b"n10000"),
    (true, 99_999_999, b"n-99999999"),
    (false, 100_000_000, b"n100000000"),
    (false, 1_000_000_000, b"n1000000000"),
    (true, 4_294_967_295, b"n-4294967295"),
    (false, 9_999_999_999, b"n9999999999"),
    (false, 10_000_000_000, b"n10000000000"),
    (false, 1_234_567_890_123_456, b"n1234567890123456"),
    (true, 9_223_372_036_854_775_808, b"n-9223372036854775808"),
    (false, 18_446_744_073_709_551_615, b"n18446744073709551615"),
];

#[test]
fn numbers_are_appended(rt: HostRuntime) -> Result<(), Fail> {
    for row in &NUMBERS {
        let (negative, magnitude, wanted) = row;
        let mut text = b"n".to_vec(rt.alloc())?;
        push_number(&mut text, *negative, *magnitude)?;
        is(&text.as_slice(), wanted, row)?;
    }
    Ok(())
}

#[test]
fn numbers_are_written_in_place() -> Result<(), Fail> {
    for row in &NUMBERS {
        let (negative, magnitude, wanted) = row;
        let mut buf = *b"n.....................|";
        let end = write_number(*negative, *magnitude, &mut buf, 1);
        is(&(&buf[..end], buf[22]), &(*wanted, b'|'), row)?;
    }
    Ok(())
}
