//! The digits and the exponent of a hexadecimal numeral.
ghost use Rattle.std.specs.Prelude.{◌≡◌, ℕ, ◌+◌, ◌*◌, ◌^◌, ◌<◌, ◌≤◌, false, true, length, drop};
ghost use Rattle.std.specs.Char.{is_ascii_hexdigit, digit_value};
ghost use Rattle.std.specs.Str.Parse.{digits_value};
ghost use Rattle.sf_float_read.specs.item.Sequences.{AllDecimal, IsExponentPart};
ghost use Rattle.sf_float_read.specs.declared.item.reached.Radix.TheVariants.{Sixteen};
ghost use Rattle.sf_float_read.specs.value.Hexadecimals.{IsFront, IsCapped, digits_read, exponent_read};

/// The first digits of a numeral, and what is known of the others.
#[derive(Clone, Copy, Debug)]
pub(crate) struct Digits {
    pub(crate) m: u64,
    /// How many digits follow those of m.
    pub(crate) cut: u64,
    /// Whether one of these isn't 0.
    pub(crate) lost: bool,
    /// How many digits stand after the point.
    pub(crate) places: u64,
}

fn digit_of(b: u8) -> u8
    requires { is_ascii_hexdigit b ≡ true }
    ensures value { result ≡ digit_value b }
    ensures few { result < 16 }
{
    match b {
        b'0'..=b'9' => b - b'0',
        b'A'..=b'F' => b - b'A' + 10,
        _ => b - b'a' + 10,
    }
}

/// With one digit more.
fn push(so_far: Digits, digit: u8) -> Digits
    requires { (digit < 16) × (so_far.cut < 18446744073709551615) }
    ensures front { (value : ℕ) → IsFront value so_far.m so_far.cut so_far.lost
        → IsFront (value * 16 + digit) result.m result.cut result.lost }
    ensures cut { result.cut ≤ so_far.cut + 1 }
    ensures places { result.places ≡ so_far.places }
{
    if so_far.cut == 0 && so_far.m < 1 << 56 {
        return Digits {
            m: so_far.m * 16 + digit as u64,
            ..so_far
        };
    }
    if digit == 0 {
        return Digits {
            cut: so_far.cut + 1,
            ..so_far
        };
    }
    Digits {
        cut: so_far.cut + 1,
        lost: true,
        ..so_far
    }
}

/// Reads the digits and the point, and answers where they end.
pub(crate) fn read_digits(text: &[u8]) -> (Digits, usize)
    ensures within { result.1 ≤ length text.now }
    ensures few { result.0.m < 2 ^ 60 }
    ensures known { result.0.lost ≡ true → 2 ^ 56 ≤ result.0.m }
    ensures read { (value : ℕ) × IsFront value result.0.m result.0.cut result.0.lost
        × (digits_read 0 0 false text.now ≡ (value, result.0.places, drop result.1 text.now)) }
{
    let mut digits = Digits {
        m: 0,
        cut: 0,
        lost: false,
        places: 0,
    };
    let mut after = false;
    let mut at = 0;
    while at < text.len() {
        let b = text[at];
        if b.is_ascii_hexdigit() {
            digits = push(digits, digit_of(b));
            digits.places += after as u64;
        } else if b == b'.' {
            after = true;
        } else {
            return (digits, at);
        }
        at += 1;
    }
    (digits, at)
}

/// The number that decimal digits write, counted up to a bound.
fn capped(text: &[u8]) -> u128
    requires { AllDecimal text.now }
    ensures { IsCapped (digits_value 10 text.now) result }
{
    let mut number: u128 = 0;
    for b in text {
        if number < 1 << 100 {
            number = number * 10 + (*b - b'0') as u128;
        }
    }
    number
}

/// Whether an exponent has a minus, and its number, counted up to a bound.
pub(crate) fn read_exponent(text: &[u8]) -> (bool, u128)
    requires { IsExponentPart Sixteen text.now }
    ensures minus { result.0 ≡ (exponent_read text.now).0 }
    ensures number { IsCapped (exponent_read text.now).1 result.1 }
{
    if text.is_empty() {
        return (false, 0);
    }
    match text[1] {
        b'-' => (true, capped(&text[2..])),
        b'+' => (false, capped(&text[2..])),
        _ => (false, capped(&text[1..])),
    }
}
