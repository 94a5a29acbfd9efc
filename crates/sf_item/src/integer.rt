//! Integers, read byte by byte: sign, prefix, digits (C11 7.21.6.2p12, 7.22.1.4p3).
ghost use Rattle.std.specs.Char.{digit_value};
ghost use Rattle.std.specs.Prelude.{◌≡◌, false, ◌+◌, ◌*◌, ◌<◌, ◌≤◌, ◌↔◌, ◌⊎◌, if◌then◌else◌, ℕ, List, [], ◌∷◌, ◌++◌};
ghost use Rattle.std.specs.Prelude.{length, slice_index, take, Some, None};
ghost use Rattle.sf_item.specs.Progress.{Progress, Start, Zero, advance, with_digit, with_first_digit};
ghost use Rattle.sf_item.specs.Tests.{read};
ghost use Rattle.sf_item.specs.Scan.{HoldsNumber, Shows, ShowsNext, HasDigits, ReadsDecimal};

use crate::radices::{prefix_radix, radices_of};
use crate::reached::{Digits, Prefixed, Reached};
use sf_base::digit_value;
use sf_format::Numeral;

// Below it a number has room for one decimal digit more.
const QUICK: u64 = u64::MAX / 10;

// Takes one digit more. Once the number has overflowed, digits are still part of the item.
fn add_digit(digits: &mut Digits, digit: u8)
    requires below { digit < digits.old.radix }
    ensures negative { digits.new.negative ≡ digits.old.negative }
    ensures radix { digits.new.radix ≡ digits.old.radix }
    ensures number { (value : ℕ) → HoldsNumber digits.old.magnitude digits.old.overflowed value
        → HoldsNumber digits.new.magnitude digits.new.overflowed (value * digits.old.radix + digit) }
{
    if digits.overflowed {
        return;
    }
    let number = digits.magnitude as u128 * digits.radix as u128 + digit as u128;
    match u64::try_from(number) {
        Ok(magnitude) => digits.magnitude = magnitude,
        Err(_) => {
            digits.magnitude = 0;
            digits.overflowed = true;
        }
    }
}

// Takes one more byte if it is a digit. Answers whether it did.
fn add_byte(digits: &mut Digits, b: u8) -> bool
    ensures next { (numeral : Numeral) (p : Progress) → Shows (Reached.Digits digits.old) p
        → ShowsNext (if result then Some (Reached.Digits digits.new) else None) (advance numeral p b) }
    ensures refused { result ≡ false → digits.new ≡ digits.old }
{
    match digit_value(b, digits.radix) {
        None => false,
        Some(digit) => {
            add_digit(digits, digit);
            true
        }
    }
}

// Takes the first digit of a radix, after nothing or a prefix.
fn begin(negative: bool, radix: u8, b: u8, reached: &mut Reached) -> bool
    requires positive { 0 < radix }
    requires small { radix ≤ 16 }
    ensures next { ShowsNext (if result then Some reached.new else None) (with_digit negative radix 0 b) }
    ensures refused { result ≡ false → reached.new ≡ reached.old }
{
    match digit_value(b, radix) {
        None => false,
        Some(digit) => {
            *reached = Reached::Digits(Digits {
                negative,
                radix,
                overflowed: false,
                magnitude: digit as u64,
            });
            true
        }
    }
}

// Takes the first digit, or the 0 of a prefix.
fn first_digit(numeral: Numeral, negative: bool, b: u8, reached: &mut Reached) -> bool
    ensures next { ShowsNext (if result then Some reached.new else None) (with_first_digit numeral negative b) }
    ensures refused { result ≡ false → reached.new ≡ reached.old }
{
    if b == b'0' {
        *reached = Reached::Zero(negative);
        return true;
    }
    begin(negative, radices_of(numeral.base).first, b, reached)
}

// Takes the first byte: a sign or a digit.
fn first_byte(numeral: Numeral, b: u8, reached: &mut Reached) -> bool
    ensures next { ShowsNext (if result then Some reached.new else None) (advance numeral Start b) }
    ensures refused { result ≡ false → reached.new ≡ reached.old }
{
    let is_minus = b == b'-';
    if (b == b'+' && numeral.lead.has_plus()) || (is_minus && numeral.lead.has_minus()) {
        *reached = Reached::Signed(is_minus);
        return true;
    }
    first_digit(numeral, false, b, reached)
}

// Takes the byte after a first 0: the letter of a prefix or a digit.
fn second_byte(numeral: Numeral, negative: bool, b: u8, reached: &mut Reached) -> bool
    ensures next { ShowsNext (if result then Some reached.new else None) (advance numeral (Zero negative) b) }
    ensures refused { result ≡ false → reached.new ≡ reached.old }
{
    match prefix_radix(numeral, b) {
        Some(radix) => {
            *reached = Reached::Prefix(Prefixed { negative, radix });
            true
        }
        None => begin(negative, radices_of(numeral.base).zero, b, reached),
    }
}

// Takes one more byte of an integer of the numeral if one begins so. Answers whether it did.
pub fn advance(numeral: Numeral, reached: &mut Reached, b: u8) -> bool
    ensures next { (p : Progress) → Shows reached.old p → ShowsNext (if result then Some reached.new else None)
        (advance numeral p b) }
    ensures refused { result ≡ false → reached.new ≡ reached.old }
{
    match reached {
        Reached::Start => first_byte(numeral, b, reached),
        Reached::Signed(negative) => first_digit(numeral, *negative, b, reached),
        Reached::Zero(negative) => second_byte(numeral, *negative, b, reached),
        Reached::Prefix(prefixed) => begin(prefixed.negative, prefixed.radix, b, reached),
        Reached::Digits(digits) => add_byte(digits, b),
    }
}

// Takes decimal digits of the piece, one after the other, as long as their number stays within 64 bits, and answers how
// many.
pub fn decimal_front(number: &mut u64, piece: &[u8]) -> usize
    ensures within { result ≤ length piece.now }
    ensures read { ReadsDecimal number.old (take result piece.now) number.new }
    ensures stops { result < length piece.now → (10 ≤ digit_value (slice_index piece.now result))
        ⊎ (QUICK ≤ number.new) }
    ensures nothing { result ≡ 0 → number.new ≡ number.old }
{
    let mut value = *number;
    for i in 0..piece.len() {
        let b = piece[i];
        if b < b'0' || b > b'9' || value >= QUICK {
            *number = value;
            return i;
        }
        value = value * 10 + (b - b'0') as u64;
    }
    *number = value;
    piece.len()
}

// Takes the digits of the piece that can be taken quickly, and answers how many.
fn quick_front(digits: &mut Digits, piece: &[u8]) -> usize
    ensures within { result ≤ length piece.now }
    ensures read { (numeral : Numeral) (p : Progress) → Shows (Reached.Digits digits.old) p
        → ShowsNext (Some (Reached.Digits digits.new)) (read numeral (Some p) (take result piece.now)) }
    ensures nothing { result ≡ 0 → digits.new ≡ digits.old }
{
    if digits.radix != 10 || digits.overflowed {
        return 0;
    }
    decimal_front(&mut digits.magnitude, piece)
}

// Takes the digits of the piece, one after the other, and answers how many.
pub fn digit_front(digits: &mut Digits, piece: &[u8]) -> usize
    ensures within { result ≤ length piece.now }
    ensures read { (numeral : Numeral) (p : Progress) → Shows (Reached.Digits digits.old) p
        → ShowsNext (Some (Reached.Digits digits.new)) (read numeral (Some p) (take result piece.now)) }
    ensures stops { result < length piece.now → (numeral : Numeral) (p : Progress) → Shows (Reached.Digits digits.old) p
        → ShowsNext None (read numeral (Some p) (take (result + 1) piece.now)) }
    ensures nothing { result ≡ 0 → digits.new ≡ digits.old }
{
    for i in 0..piece.len() {
        if !add_byte(digits, piece[i]) {
            return i;
        }
    }
    piece.len()
}

// Reads the bytes of the piece up to the first digit that settles the radix, and answers how many.
fn opening(numeral: Numeral, reached: &mut Reached, piece: &[u8]) -> usize
    ensures within { result ≤ length piece.now }
    ensures read { (p : Progress) → Shows reached.old p → ShowsNext (Some reached.new)
        (read numeral (Some p) (take result piece.now)) }
    ensures stops { result < length piece.now → HasDigits reached.new ⊎ ((p : Progress) → Shows reached.old p
        → ShowsNext None (read numeral (Some p) (take (result + 1) piece.now))) }
    ensures nothing { result ≡ 0 → reached.new ≡ reached.old }
{
    for i in 0..piece.len() {
        if let Reached::Digits(_) = reached {
            return i;
        }
        if !advance(numeral, reached, piece[i]) {
            return i;
        }
    }
    piece.len()
}

// Reads the bytes of the piece, one after the other, as long as an integer of the numeral goes on with them, and
// answers how many.
pub fn integer_front(numeral: Numeral, reached: &mut Reached, piece: &[u8]) -> usize
    ensures within { result ≤ length piece.now }
    ensures read { (p : Progress) → Shows reached.old p → ShowsNext (Some reached.new)
        (read numeral (Some p) (take result piece.now)) }
    ensures stops { result < length piece.now → (p : Progress) → Shows reached.old p
        → ShowsNext None (read numeral (Some p) (take (result + 1) piece.now)) }
    ensures nothing { result ≡ 0 → reached.new ≡ reached.old }
{
    let opened = opening(numeral, reached, piece);
    match reached {
        Reached::Digits(digits) => {
            let quick = opened + quick_front(digits, &piece[opened..]);
            quick + digit_front(digits, &piece[quick..])
        }
        _ => opened,
    }
}
