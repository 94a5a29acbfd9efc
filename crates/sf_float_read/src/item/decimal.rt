//! Decimal numerals of few digits that end within a piece of the input, read in one go.
ghost use Rattle.std.specs.Prelude.{◌≡◌, ◌≢◌, ◌+◌, ◌++◌, ◌-◌, ◌<◌, ◌≤◌, ◌^◌, ◌⊎◌, IfSome, IsTrue, IsFalse};
ghost use Rattle.std.specs.Prelude.{IsSome, true, false, get_or, length, take};
ghost use Rattle.std.specs.Char.{is_ascii_digit};
ghost use Rattle.std.specs.Fmt.{sign_text};
ghost use Rattle.std.specs.Str.Parse.{AllDigits, digits_value_after};
ghost use Rattle.sf_float_read.specs.item.Decimals.{DecimalWithin};

/// The most decimal digits whose number fits in 64 bits, whichever they are.
const SURE: usize = 19;

/// A decimal numeral that was read whole: a minus or none, digits, a point, and digits or none.
#[derive(Clone, Copy, Debug, PartialEq, Eq)]
pub struct Decimal {
    /// How many bytes it has.
    pub bytes: usize,
    /// Whether it has a minus.
    pub negative: bool,
    /// The number of all its digits.
    pub digits: u64,
    /// How many of them stand after the point.
    pub places: u32,
}

/// Takes the digits that the bytes begin with, so many at most: the number of those before and of them, and how many.
#[inline(always)]
fn digits_after(before: u64, bytes: &[u8], most: usize) -> (u64, usize)
    requires few { most ≤ 19 }
    requires small { before < 10 ^ (19 - most) }
    ensures within { result.1 ≤ length bytes.now }
    ensures most { result.1 ≤ most }
    ensures all { AllDigits 10 (take result.1 bytes.now) }
    ensures number { result.0 ≡ digits_value_after 10 before (take result.1 bytes.now) }
    ensures small { result.0 < 10 ^ (19 - most + result.1) }
    ensures stops { result.1 < most → result.1 < length bytes.now
        → is_ascii_digit (get_or bytes.now result.1 0) ≡ false }
{
    let end = bytes.len().min(most);
    let mut number = before;
    for i in 0..end {
        let b = bytes[i];
        if b < b'0' || b > b'9' {
            return (number, i);
        }
        number = number * 10 + (b - b'0') as u64;
    }
    (number, end)
}

/// Whether there is a byte at the place that is no digit and no letter of an exponent.
#[inline(always)]
fn ends_at(bytes: &[u8], at: usize) -> bool
    ensures within { IsTrue result → at < length bytes.now }
    ensures digit { IsTrue result → is_ascii_digit (get_or bytes.now at 0) ≡ false }
    ensures letter { IsTrue result → get_or bytes.now at 0 ≢ 101 }
    ensures capital { IsTrue result → get_or bytes.now at 0 ≢ 69 }
    ensures goes_on { IsFalse result → at < length bytes.now → (is_ascii_digit (get_or bytes.now at 0) ≡ true)
        ⊎ (get_or bytes.now at 0 ≡ 101) ⊎ (get_or bytes.now at 0 ≡ 69) }
{
    match bytes.get(at) {
        Some(b) => !b.is_ascii_digit() && *b != b'e' && *b != b'E',
        None => false,
    }
}

/// Whether there is a point at the place.
#[inline(always)]
fn is_point_at(bytes: &[u8], at: usize) -> bool
    ensures within { IsTrue result → at < length bytes.now }
    ensures point { IsTrue result → get_or bytes.now at 0 ≡ 46 }
    ensures another { IsFalse result → get_or bytes.now at 0 ≢ 46 }
{
    match bytes.get(at) {
        Some(b) => *b == b'.',
        None => false,
    }
}

/// Whether the piece begins with a minus, and what follows that.
#[inline(always)]
fn signed(piece: &[u8]) -> (bool, &[u8])
    ensures joined { piece.now ≡ sign_text result.0 ++ result.1.now }
    ensures unsigned { IsFalse result.0 → get_or piece.now 0 0 ≢ 45 }
{
    match piece.split_first() {
        Some((b, rest)) if *b == b'-' => (true, rest),
        _ => (false, piece),
    }
}

/// The numeral that the piece begins with, where it is a decimal one with a point and nineteen digits at most, zeros in
/// front among them, which no exponent follows, and ends before a byte of the piece.
#[inline(always)]
pub fn numeral_within(piece: &[u8]) -> Option<Decimal>
    ensures numeral { IfSome result (DecimalWithin piece.now) }
    ensures answers { (d : Decimal) (is : DecimalWithin piece.now d)
        → length is.numeral.whole + length is.numeral.fraction ≤ 19 → IsSome result }
{
    let (negative, body) = signed(piece);
    let (whole, point) = digits_after(0, body, SURE);
    if point == 0 || !is_point_at(body, point) {
        return None;
    }
    let (_, after) = body.split_at(point + 1);
    let (digits, places) = digits_after(whole, after, SURE - point);
    if !ends_at(after, places) {
        return None;
    }
    Some(Decimal {
        bytes: usize::from(negative) + point + 1 + places,
        negative,
        digits,
        places: places as u32,
    })
}
