//! Conversion specifications up to their letter.
ghost use Rattle.std.specs.Prelude.{◌≡◌, ◌≤◌, ◌&&◌, ◌||◌, true, length, min, nat_eq, nat_lt};
ghost use Rattle.std.specs.List.{AllByRecursion};
ghost use Rattle.sf_base.specs.Bytes.{magnitude};
ghost use Rattle.sf_format.specs.Digits.{is_decimal};
ghost use Rattle.sf_format.specs.Lists.{is_written};
ghost use Rattle.sf_format.specs.Pieces.{number_text};
ghost use Rattle.sf_format.specs.Groups.{role_by};

use crate::groups::Role;
use crate::letter::Length;

/// A conversion specification up to its letter, as it is written.
#[derive(Clone, Copy)]
pub struct Written<'a> {
    pub number: &'a [u8],
    pub star: bool,
    pub optional: bool,
    pub column: bool,
    pub strict: bool,
    pub flags: &'a [u8],
    pub width: &'a [u8],
    /// Whether there is a precision.
    pub point: bool,
    pub precision: &'a [u8],
    pub size: Length,
}

impl Written<'_> {
    /// What a conversion by the letter is to groups: `n` and what has a `?` are no first directive of one.
    pub fn role(&self, letter: u8) -> Role
        ensures { result ≡ role_by (self.now.optional || nat_eq letter 110) }
    {
        Role::of_conversion(self.optional || letter == b'n')
    }
}

/// The magnitude of the digits, or the limit where it is above that.
pub fn capped(digits: &[u8]) -> u32
    requires { AllByRecursion (λ b. is_decimal b ≡ true) digits.now }
    ensures { result ≡ min (magnitude 10 digits.now) 65536 }
{
    let mut value: u32 = 0;
    for b in digits {
        let next = value * 10 + (*b - b'0') as u32;
        value = next.min(65536);
    }
    value
}

/// Whether a number is written that is no slot's: those are 1 to 32.
pub fn is_no_slot(number: &[u8]) -> bool
    requires { AllByRecursion (λ b. is_decimal b ≡ true) number.now }
    ensures { result ≡ (is_written number.now && (nat_eq (magnitude 10 number.now) 0
        || nat_lt 32 (magnitude 10 number.now))) }
{
    let slot = capped(number);
    !number.is_empty() && (slot == 0 || slot > 32)
}

/// Whether digits are written that stand for 0, where this is their magnitude or the limit.
pub fn is_zero(digits: &[u8], value: u32) -> bool
    requires { value ≡ min (magnitude 10 digits.now) 65536 }
    ensures { result ≡ (is_written digits.now && nat_eq (magnitude 10 digits.now) 0) }
{
    !digits.is_empty() && value == 0
}

/// The length of a number with its `$`.
pub fn number_len(number: &[u8]) -> u16
    requires { length number.now ≤ 4096 }
    ensures { result ≡ length (number_text number.now) }
{
    if number.is_empty() {
        0
    } else {
        number.len() as u16 + 1
    }
}
