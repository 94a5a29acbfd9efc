//! The digits of a number in any base, written from the last to the first.
ghost use Rattle.std.specs.Prelude.{◌≡◌, ◌≤◌, ◌<◌, ◌+◌, ◌++◌, length, take, drop};
ghost use Rattle.std.specs.Fmt.{digits, digit_glyph};

#[inline]
fn glyph(upper: bool, digit: u8) -> u8
    requires { digit < 16 }
    ensures { result ≡ digit_glyph upper digit }
{
    if digit < 10 {
        b'0' + digit
    } else if upper {
        digit + 55
    } else {
        digit + 87
    }
}

/// Writes the digits of a number so that they end at `end`, and answers where they start. It is compiled in place, so
/// that a base that is known is divided by without a division.
#[inline(always)]
pub fn write_digits(base: u8, upper: bool, number: u64, buf: &mut [u8], end: usize) -> usize
    requires base { (2 ≤ base) × (base ≤ 16) }
    requires room { (length (digits base upper number) ≤ end) × (end ≤ length buf.old) }
    ensures start { result + length (digits base upper number) ≡ end }
    ensures written { drop result buf.new ≡ digits base upper number ++ drop end buf.old }
    ensures before { take result buf.new ≡ take result buf.old }
{
    let wide = base as u64;
    let mut left = number;
    let mut at = end;
    while left >= wide {
        at -= 1;
        buf[at] = glyph(upper, (left % wide) as u8);
        left /= wide;
    }
    at -= 1;
    buf[at] = glyph(upper, left as u8);
    at
}
