//! How far a floating-point number has been read.
ghost use Rattle.std.specs.Prelude.{◌≡◌, ◌↔◌, ◌<◌, ℕ, true, IsTrue, List, [], ◌∷◌, Some, None};
ghost use Rattle.std.specs.Char.{is_ascii_digit};
ghost use Rattle.sf_float_read.specs.item.Sequences.{is_digit, opens_exponent, is_sign};
ghost use Rattle.sf_float_read.specs.item.Steps.{Completes, Goes};
ghost use Rattle.sf_float_read.specs.item.Tests.{after_exponent, after_letter, letter_of_exponent, after_point};
ghost use Rattle.sf_float_read.specs.item.Tests.{after_fraction, after_digits, first_of_number, after_zero, first};
ghost use Rattle.sf_float_read.specs.item.Tests.{in_parentheses, letter, next, is_whole, start_of};

/// In which radix the digits of the number are.
#[derive(Clone, Copy, Debug, PartialEq, Eq)]
pub enum Radix {
    Ten,
    Sixteen,
}

/// Which texts are floats.
#[derive(Clone, Copy, Debug, PartialEq, Eq)]
pub enum Forms {
    /// Those of C: a sign or none, and a decimal or hexadecimal number, `inf` or `nan`.
    All,
    /// A minus or none, and a decimal number.
    Decimal,
}

/// How far a floating-point number has been read.
#[derive(Clone, Copy, Debug, PartialEq, Eq)]
pub enum Reached {
    Start,
    Signed,
    /// The start of a decimal number, before which a minus may stand.
    DecimalStart,
    /// The same, after the minus.
    DecimalSigned,
    /// One 0, after which the letter of a prefix may stand.
    Zero,
    /// `0x`
    Prefix,
    /// Digits.
    Whole(Radix),
    /// A point, and no digit.
    Point(Radix),
    /// A point, and a digit before it or after it.
    Fraction(Radix),
    /// The letter of an exponent.
    Letter,
    /// The letter of an exponent, and a sign.
    LetterSign,
    /// Digits of an exponent.
    Exponent,
    I,
    In,
    Inf,
    Infi,
    Infin,
    Infini,
    Infinit,
    Infinity,
    N,
    Na,
    Nan,
    /// `nan(`, and what may stand in the parentheses.
    Open,
    /// The closing parenthesis.
    Closed,
}

fn digit(radix: Radix, b: u8) -> bool
    ensures { result ≡ is_digit radix b }
{
    match radix {
        Radix::Ten => b.is_ascii_digit(),
        Radix::Sixteen => b.is_ascii_hexdigit(),
    }
}

/// Whether the byte is the letter of the radix's exponent.
fn opens(radix: Radix, b: u8) -> bool
    ensures { result ≡ opens_exponent radix b }
{
    match radix {
        Radix::Ten => b == b'e' || b == b'E',
        Radix::Sixteen => b == b'p' || b == b'P',
    }
}

fn sign(b: u8) -> bool
    ensures { result ≡ is_sign b }
{
    b == b'+' || b == b'-'
}

fn after_exponent(b: u8) -> Option<Reached>
    ensures { result ≡ after_exponent b }
{
    if b.is_ascii_digit() {
        Some(Reached::Exponent)
    } else {
        None
    }
}

fn after_letter(b: u8) -> Option<Reached>
    ensures { result ≡ after_letter b }
{
    if sign(b) {
        return Some(Reached::LetterSign);
    }
    after_exponent(b)
}

fn letter_of_exponent(radix: Radix, b: u8) -> Option<Reached>
    ensures { result ≡ letter_of_exponent radix b }
{
    if opens(radix, b) {
        Some(Reached::Letter)
    } else {
        None
    }
}

fn after_point(radix: Radix, b: u8) -> Option<Reached>
    ensures { result ≡ after_point radix b }
{
    if digit(radix, b) {
        Some(Reached::Fraction(radix))
    } else {
        None
    }
}

fn after_fraction(radix: Radix, b: u8) -> Option<Reached>
    ensures { result ≡ after_fraction radix b }
{
    if digit(radix, b) {
        return Some(Reached::Fraction(radix));
    }
    letter_of_exponent(radix, b)
}

fn after_digits(radix: Radix, b: u8) -> Option<Reached>
    ensures { result ≡ after_digits radix b }
{
    if digit(radix, b) {
        return Some(Reached::Whole(radix));
    }
    if b == b'.' {
        return Some(Reached::Fraction(radix));
    }
    letter_of_exponent(radix, b)
}

fn first_of_number(radix: Radix, b: u8) -> Option<Reached>
    ensures { result ≡ first_of_number radix b }
{
    if digit(radix, b) {
        return Some(Reached::Whole(radix));
    }
    if b == b'.' {
        return Some(Reached::Point(radix));
    }
    None
}

fn after_zero(b: u8) -> Option<Reached>
    ensures { result ≡ after_zero b }
{
    if b == b'x' || b == b'X' {
        return Some(Reached::Prefix);
    }
    after_digits(Radix::Ten, b)
}

fn first(b: u8) -> Option<Reached>
    ensures { result ≡ first b }
{
    match b {
        b'0' => Some(Reached::Zero),
        b'i' | b'I' => Some(Reached::I),
        b'n' | b'N' => Some(Reached::N),
        _ => first_of_number(Radix::Ten, b),
    }
}

fn in_parentheses(b: u8) -> Option<Reached>
    ensures { result ≡ in_parentheses b }
{
    if b == b')' {
        return Some(Reached::Closed);
    }
    if b.is_ascii_alphanumeric() || b == b'_' {
        return Some(Reached::Open);
    }
    None
}

/// The next place in a word.
fn letter(b: u8, lower: u8, place: Reached) -> Option<Reached>
    ensures { result ≡ letter b lower place }
{
    if b.to_ascii_lowercase() == lower {
        Some(place)
    } else {
        None
    }
}

impl Forms {
    /// Where they are read from.
    pub fn start(self) -> Reached
        ensures { result ≡ start_of self }
    {
        match self {
            Forms::All => Reached::Start,
            Forms::Decimal => Reached::DecimalStart,
        }
    }
}

impl Reached {
    /// The place after one byte more, by the table.
    fn place_after(self, b: u8) -> Option<Reached>
        ensures { result ≡ next self b }
    {
        match self {
            Reached::Start if sign(b) => Some(Reached::Signed),
            Reached::Start | Reached::Signed => first(b),
            Reached::DecimalStart if b == b'-' => Some(Reached::DecimalSigned),
            Reached::DecimalStart | Reached::DecimalSigned => first_of_number(Radix::Ten, b),
            Reached::Zero => after_zero(b),
            Reached::Prefix => first_of_number(Radix::Sixteen, b),
            Reached::Whole(radix) => after_digits(radix, b),
            Reached::Point(radix) => after_point(radix, b),
            Reached::Fraction(radix) => after_fraction(radix, b),
            Reached::Letter => after_letter(b),
            Reached::LetterSign | Reached::Exponent => after_exponent(b),
            Reached::I => letter(b, b'n', Reached::In),
            Reached::In => letter(b, b'f', Reached::Inf),
            Reached::Inf => letter(b, b'i', Reached::Infi),
            Reached::Infi => letter(b, b'n', Reached::Infin),
            Reached::Infin => letter(b, b'i', Reached::Infini),
            Reached::Infini => letter(b, b't', Reached::Infinit),
            Reached::Infinit => letter(b, b'y', Reached::Infinity),
            Reached::N => letter(b, b'a', Reached::Na),
            Reached::Na => letter(b, b'n', Reached::Nan),
            Reached::Nan if b == b'(' => Some(Reached::Open),
            Reached::Open => in_parentheses(b),
            Reached::Nan | Reached::Infinity | Reached::Closed => None,
        }
    }

    /// How far it has been read with one byte more; none where that begins no matching sequence.
    pub fn then(self, b: u8) -> Option<Reached>
        ensures goes { Goes (λ t. Completes self (b ∷ t)) result }
        ensures next { result ≡ next self b }
    {
        self.place_after(b)
    }

    /// Whether decimal digits leave the place as it is.
    pub(crate) fn takes_digits(self) -> bool
        ensures { IsTrue result → (b : ℕ) → is_ascii_digit b ≡ true → next self b ≡ Some self }
    {
        match self {
            Reached::Whole(Radix::Ten) => true,
            Reached::Fraction(Radix::Ten) => true,
            Reached::Exponent => true,
            _ => false,
        }
    }

    /// Whether what was read is a matching sequence.
    pub fn is_match(self) -> bool
        ensures matches { IsTrue result ↔ Completes self [] }
        ensures whole { result ≡ is_whole self }
    {
        match self {
            Reached::Zero | Reached::Whole(_) | Reached::Fraction(_) | Reached::Exponent => true,
            Reached::Inf | Reached::Infinity | Reached::Nan | Reached::Closed => true,
            _ => false,
        }
    }

    /// Whether no byte is taken after it: after `infinity`, and after `nan` with parentheses.
    pub fn is_closed(self) -> bool
        ensures { IsTrue result ↔ ((b : ℕ) → b < 256 → next self b ≡ None) }
    {
        match self {
            Reached::Infinity | Reached::Closed => true,
            _ => false,
        }
    }
}
