//! Classes of bytes in the C locale.
ghost use Rattle.std.specs.Prelude.{◌≡◌, ◌<◌, ◌≤◌, SomeIff};
ghost use Rattle.std.specs.Char.{digit_value};
ghost use Rattle.sf_base.specs.Bytes.{is_white};
ghost use Rattle.sf_base.specs.Blanks.{trimmed_end};

/// Whether the byte is white space: tab, newline, vertical tab, form feed, carriage return or blank (C11 7.4.1.10).
pub fn is_space(b: u8) -> bool
    ensures { result ≡ is_white b }
{
    b == 32 || (9 <= b && b <= 13)
}

/// The bytes without the white space at their end.
pub fn trimmed_end(bytes: &[u8]) -> &[u8]
    ensures { result.now ≡ trimmed_end bytes.now }
{
    let mut rest = bytes;
    while let [front @ .., last] = rest {
        if !is_space(*last) {
            return rest;
        }
        rest = front;
    }
    rest
}

/// The value of the byte as a digit of the base, which is 2 to 16, letters in either case. None if it is no digit of
/// that base (C11 6.4.4.1).
pub fn digit_value(b: u8, base: u8) -> Option<u8>
    requires high { base ≤ 16 }
    ensures { SomeIff result (digit_value b < base) (digit_value b) }
{
    let value = match b {
        b'0'..=b'9' => b - b'0',
        b'a'..=b'z' => b - b'a' + 10,
        b'A'..=b'Z' => b - b'A' + 10,
        _ => 36,
    };
    if value < base { Some(value) } else { None }
}
