//! Items that begin and end within a piece of the input, read in one go.
ghost use Rattle.std.specs.Prelude.{◌≡◌, ◌≢◌, ◌<◌, ◌≤◌, ◌^◌, ◌↔◌, ◌⊎◌, false, ℕ, get_or, length, slice_index, take};
ghost use Rattle.std.specs.Prelude.{Bool, IfSome, IsNone, IsSome, IsTrue, List, MatchOption, Option, Some};
ghost use Rattle.std.specs.Char.{digit_value};
ghost use Rattle.std.specs.List.{prefix_len};
ghost use Rattle.sf_base.specs.Bytes.{is_ink};
ghost use Rattle.sf_base.specs.Sets.{lone_lack};
ghost use Rattle.sf_format.specs.Leads.{as_in_c};
ghost use Rattle.sf_format.specs.declared.directive.Base.TheVariants.{Dec, Hex};
ghost use Rattle.sf_format.specs.declared.directive.Shape.TheVariants.{Chars, Set, Text};
ghost use Rattle.sf_format.specs.Layout.{most_of};
ghost use Rattle.sf_item.specs.Wholes.{DigitsOf, EndsWithin, HasPrefixAt, HexOpening, IsCutBy, ItemWithin, LongDigits};
ghost use Rattle.sf_item.specs.Wholes.{NoDigits, NoItemWithin, NoneEndsWithin, ReadsIn, SignOf, ZeroFirst, led_by};

use crate::digits::value_of;
use crate::eight::{LANES, first_digits};
use crate::eight_hex::first_hex_digits;
use crate::integer::digit_front;
use crate::item::{cut, cut_at};
use crate::radices::radices_of;
use crate::reached::Digits;
use sf_base::{ByteSet, run_before, text_run};
use sf_format::{Base, Lead};

/// The most decimal digits whose number fits in 64 bits, whichever they are.
const SURE_DECIMAL: usize = 19;

/// The most hexadecimal ones.
const SURE_HEX: usize = 16;

/// The most decimal digits of a number of 32 bits.
const DIGITS_OF_32_BITS: usize = 10;

/// How many bytes of a text are looked at at once.
const SIGHT: u16 = 16;

/// An integer that was read whole.
#[derive(Clone, Copy, Debug, PartialEq, Eq)]
pub struct WholeInteger {
    /// How many bytes it has.
    pub bytes: usize,
    /// Whether it has a minus.
    pub negative: bool,
    /// Its number without the sign.
    pub magnitude: u64,
}

/// How many bytes of a sign that may stand there the bytes begin with, and whether it is a minus. Signs come
/// unforeseen, so that a branch on them would cost more than both tests.
#[inline(always)]
fn sign(lead: Lead, bytes: &[u8]) -> (usize, bool)
    ensures { SignOf lead bytes.now result.0 result.1 }
{
    match bytes.first() {
        Some(b) => {
            let negative = lead.has_minus() & (*b == b'-');
            (
                usize::from(negative | (lead.has_plus() & (*b == b'+'))),
                negative,
            )
        }
        None => (0, false),
    }
}

/// Whether there is a digit of the radix at the place.
#[inline(always)]
fn is_digit_at(bytes: &[u8], at: usize, radix: u8) -> bool
    ensures { result ≡ false → at < length bytes.now → radix ≤ digit_value (slice_index bytes.now at) }
{
    match bytes.get(at) {
        Some(b) => value_of(*b) < radix,
        None => false,
    }
}

/// Whether the prefix of a hexadecimal integer stands at the place.
#[inline(always)]
fn is_prefix_at(bytes: &[u8], at: usize) -> bool
    requires { at ≤ length bytes.now }
    ensures { IsTrue result ↔ HasPrefixAt bytes.now at }
{
    at + 1 < bytes.len() && bytes[at] == b'0' && (bytes[at + 1] == b'x' || bytes[at + 1] == b'X')
}

/// How many bytes of a sign and a prefix the bytes begin with, of those that may stand there, and whether the sign is a
/// minus.
#[inline(always)]
fn hex_opening(lead: Lead, bytes: &[u8]) -> (usize, bool)
    ensures { HexOpening lead bytes.now result.0 result.1 }
{
    let (start, negative) = sign(lead, bytes);
    if lead.has_prefix() && is_prefix_at(bytes, start) {
        (start + 2, negative)
    } else {
        (start, negative)
    }
}

/// The number of the digits of the radix that the bytes begin with, and how many they are, where it is below 2^64.
#[cold]
#[inline(never)]
fn long_number(digits: &[u8], radix: u8) -> Option<(u64, usize)>
    requires positive { 0 < radix }
    requires small { radix ≤ 16 }
    ensures { MatchOption result (LongDigits radix digits.now) (λ r. DigitsOf radix digits.now r.1 r.0) }
{
    let mut taken = Digits {
        negative: false,
        radix,
        overflowed: false,
        magnitude: 0,
    };
    let count = digit_front(&mut taken, digits);
    if taken.overflowed {
        None
    } else {
        Some((taken.magnitude, count))
    }
}

/// How many zeros the digits begin with.
fn zeros_before(digits: &[u8]) -> usize
    ensures within { result ≤ length digits.now }
    ensures zeros { (k : ℕ) → k < result → get_or digits.now k 0 ≡ 48 }
    ensures next { result < length digits.now → get_or digits.now result 0 ≢ 48 }
{
    for i in 0..digits.len() {
        if digits[i] != b'0' {
            return i;
        }
    }
    digits.len()
}

/// Takes the digits after those that were taken, one by one, up to as many as surely fit in 64 bits: the number of all,
/// and how many they are. It is a call, so that shorter numbers are read without the registers that this loop needs.
#[cold]
#[inline(never)]
fn further_digits(piece: &[u8], most: usize, first: usize, before: u64) -> (u64, usize)
    requires most { most ≤ length piece.now }
    requires first { first ≤ most }
    requires eight { first ≤ LANES }
    requires read { ReadsIn 10 0 (take first piece.now) before }
    requires small { before < 10 ^ first }
    ensures most { result.1 ≤ most }
    ensures read { ReadsIn 10 0 (take result.1 piece.now) result.0 }
    ensures few { result.1 ≤ SURE_DECIMAL }
    ensures stops { result.1 < SURE_DECIMAL → result.1 < most → 10 ≤ digit_value (slice_index piece.now result.1) }
{
    let mut number = before;
    let end = most.min(SURE_DECIMAL);
    for i in first..end {
        let b = piece[i];
        if b < b'0' || b > b'9' {
            return (number, i);
        }
        number = number * 10 + (b - b'0') as u64;
    }
    (number, end)
}

/// Takes the decimal digits that the piece begins with, so many at most, and as many as surely fit in 64 bits: their
/// number, and how many.
#[inline(always)]
fn decimal_digits(piece: &[u8], most: usize) -> (u64, usize)
    requires { most ≤ length piece.now }
    ensures most { result.1 ≤ most }
    ensures read { ReadsIn 10 0 (take result.1 piece.now) result.0 }
    ensures few { result.1 ≤ SURE_DECIMAL }
    ensures stops { result.1 < SURE_DECIMAL → result.1 < most → 10 ≤ digit_value (slice_index piece.now result.1) }
{
    let (number, first) = first_digits(piece, most);
    if 0 < first && first < LANES {
        return (number, first);
    }
    further_digits(piece, most, first, number)
}

/// As `long_number`, of decimal digits, the first of which may be zeros.
#[cold]
#[inline(never)]
fn long_decimal(digits: &[u8]) -> Option<(u64, usize)>
    ensures { MatchOption result (LongDigits 10 digits.now) (λ r. DigitsOf 10 digits.now r.1 r.0) }
{
    let zeros = zeros_before(digits);
    let (_, rest) = digits.split_at(zeros);
    let (number, count) = decimal_digits(rest, rest.len());
    if count == SURE_DECIMAL && is_digit_at(rest, count, 10) {
        return long_number(digits, 10);
    }
    Some((number, zeros + count))
}

/// As `decimal_number`, where the first eight bytes don't show where the digits end; so many of these were taken. It is
/// a function so that room for what `long_decimal` answers is made only here.
#[inline(always)]
fn longer_decimal(digits: &[u8], piece: &[u8], first: usize, before: u64) -> Option<(u64, usize)>
    requires front { digits.now ≡ take (length digits.now) piece.now }
    requires first { first ≤ length digits.now }
    requires eight { first ≤ LANES }
    requires read { ReadsIn 10 0 (take first piece.now) before }
    requires small { before < 10 ^ first }
    ensures digits { MatchOption result (LongDigits 10 digits.now ⊎ NoDigits 10 digits.now)
        (λ r. DigitsOf 10 digits.now r.1 r.0) }
    ensures some { IfSome result (λ r. 0 < r.1) }
{
    let (number, count) = further_digits(piece, digits.len(), first, before);
    if count == 0 {
        return None;
    }
    if count == SURE_DECIMAL && is_digit_at(digits, count, 10) {
        let (long, all) = long_decimal(digits)?;
        if all == 0 {
            return None;
        }
        return Some((long, all));
    }
    Some((number, count))
}

/// As `decimal_number`, where the first eight bytes are digits; None where more than two others follow them. It is a
/// loop whose length is known, so that a number of 32 bits takes no call.
#[inline(always)]
fn short_decimal(digits: &[u8], piece: &[u8], before: u64) -> Option<(u64, usize)>
    requires front { digits.now ≡ take (length digits.now) piece.now }
    requires eight { LANES ≤ length digits.now }
    requires read { ReadsIn 10 0 (take LANES piece.now) before }
    requires small { before < 10 ^ LANES }
    ensures digits { IfSome result (λ r. DigitsOf 10 digits.now r.1 r.0) }
    ensures some { IfSome result (λ r. 0 < r.1) }
{
    let mut number = before;
    for i in LANES..DIGITS_OF_32_BITS + 1 {
        if i == digits.len() {
            return Some((number, i));
        }
        let b = piece[i];
        if b < b'0' || b > b'9' {
            return Some((number, i));
        }
        number = number * 10 + (b - b'0') as u64;
    }
    None
}

/// As `long_number`, for the decimal digits that the piece begins with, one at least; None also where there is none.
/// The piece may go on after them.
#[inline(always)]
fn decimal_number(digits: &[u8], piece: &[u8]) -> Option<(u64, usize)>
    requires { digits.now ≡ take (length digits.now) piece.now }
    ensures digits { MatchOption result (LongDigits 10 digits.now ⊎ NoDigits 10 digits.now)
        (λ r. DigitsOf 10 digits.now r.1 r.0) }
    ensures some { IfSome result (λ r. 0 < r.1) }
{
    let (number, first) = first_digits(piece, digits.len());
    if 0 < first && first < LANES {
        return Some((number, first));
    }
    if first == LANES {
        if let Some(read) = short_decimal(digits, piece, number) {
            return Some(read);
        }
    }
    longer_decimal(digits, piece, first, number)
}

/// Takes the hexadecimal digits after those that were taken, as many as surely fit in 64 bits: the number of all, and
/// how many they are. It is a call, as `further_digits` is.
#[cold]
#[inline(never)]
fn hex_digits(piece: &[u8], first: usize, before: u64) -> (u64, usize)
    requires first { first ≤ length piece.now }
    requires eight { first ≤ LANES }
    requires read { ReadsIn 16 0 (take first piece.now) before }
    requires small { before < 16 ^ first }
    ensures within { result.1 ≤ length piece.now }
    ensures read { ReadsIn 16 0 (take result.1 piece.now) result.0 }
    ensures few { result.1 ≤ SURE_HEX }
    ensures stops { result.1 < SURE_HEX → result.1 < length piece.now
        → 16 ≤ digit_value (slice_index piece.now result.1) }
{
    let mut number = before;
    let most = piece.len().min(SURE_HEX);
    for i in first..most {
        let digit = value_of(piece[i]);
        if digit >= 16 {
            return (number, i);
        }
        number = number * 16 + digit as u64;
    }
    (number, most)
}

/// As `hex_number`, where the first nine bytes don't show where the digits end; so many of these were taken. It is a
/// function so that room for what `long_number` answers is made only here.
#[inline(always)]
fn longer_hex(digits: &[u8], first: usize, before: u64) -> Option<(u64, usize)>
    requires first { first ≤ length digits.now }
    requires eight { first ≤ LANES }
    requires read { ReadsIn 16 0 (take first digits.now) before }
    requires small { before < 16 ^ first }
    ensures { MatchOption result (LongDigits 16 digits.now) (λ r. DigitsOf 16 digits.now r.1 r.0) }
{
    let (number, count) = hex_digits(digits, first, before);
    if count == SURE_HEX && is_digit_at(digits, count, 16) {
        return long_number(digits, 16);
    }
    Some((number, count))
}

/// As `long_number`, for the hexadecimal digits that the piece begins with. The piece may go on after them.
#[inline(always)]
fn hex_number(digits: &[u8], piece: &[u8]) -> Option<(u64, usize)>
    requires { digits.now ≡ take (length digits.now) piece.now }
    ensures { MatchOption result (LongDigits 16 digits.now) (λ r. DigitsOf 16 digits.now r.1 r.0) }
{
    let (number, first) = first_hex_digits(piece, digits.len());
    if 0 < first && first < LANES {
        return Some((number, first));
    }
    if first == LANES && !is_digit_at(digits, first, 16) {
        return Some((number, first));
    }
    longer_hex(digits, first, number)
}

/// As `whole_decimal`, of the bytes of the piece that the item may have.
#[inline(always)]
fn decimal_in(lead: Lead, front: &[u8], piece: &[u8]) -> Option<WholeInteger>
    requires { front.now ≡ take (length front.now) piece.now }
    ensures { (width : Option ℕ) → IsCutBy width piece.now front.now → MatchOption result
        (NoneEndsWithin (led_by lead Dec) width piece.now) (EndsWithin (led_by lead Dec) width piece.now) }
{
    let (start, negative) = sign(lead, front);
    let Some((magnitude, count)) = decimal_number(&front[start..], &piece[start..]) else {
        return None;
    };
    let bytes = start + count;
    if bytes == piece.len() {
        return None;
    }
    Some(WholeInteger {
        bytes,
        negative,
        magnitude,
    })
}

/// As `whole_decimal`, with this before the digits, where the most bytes of the integer are known.
#[inline(always)]
pub fn decimal_within(lead: Lead, most: usize, piece: &[u8]) -> Option<WholeInteger>
    ensures { (width : Option ℕ) → most ≡ most_of width → MatchOption result
        (NoneEndsWithin (led_by lead Dec) width piece.now) (EndsWithin (led_by lead Dec) width piece.now) }
{
    decimal_in(lead, cut_at(piece, most), piece)
}

/// The decimal integer that the piece begins with, of so many bytes at most, where it ends before a byte of the piece,
/// so that what follows the piece doesn't matter. It is what as many `step`s take, and what `finish` then answers.
///
/// None only where the piece begins with no integer, where the integer may go on after the piece, and where its number
/// isn't below 2^64.
#[inline(always)]
pub fn whole_decimal(width: Option<u16>, piece: &[u8]) -> Option<WholeInteger>
    ensures { MatchOption result (NoneEndsWithin (as_in_c Dec) width piece.now)
        (EndsWithin (as_in_c Dec) width piece.now) }
{
    decimal_in(Lead::Any, cut(piece, width), piece)
}

/// As `whole_hex`, of the bytes of the piece that the item may have.
#[inline(always)]
fn hex_in(lead: Lead, front: &[u8], piece: &[u8]) -> Option<WholeInteger>
    requires { front.now ≡ take (length front.now) piece.now }
    ensures { (width : Option ℕ) → IsCutBy width piece.now front.now → MatchOption result
        (NoneEndsWithin (led_by lead Hex) width piece.now) (EndsWithin (led_by lead Hex) width piece.now) }
{
    let (start, negative) = hex_opening(lead, front);
    let Some((magnitude, count)) = hex_number(&front[start..], &piece[start..]) else {
        return None;
    };
    let end = start + count;
    if count == 0 || end == piece.len() {
        return None;
    }
    Some(WholeInteger {
        bytes: end,
        negative,
        magnitude,
    })
}

/// As `whole_hex`, with this before the digits, where the most bytes of the integer are known.
#[inline(always)]
pub fn hex_within(lead: Lead, most: usize, piece: &[u8]) -> Option<WholeInteger>
    ensures { (width : Option ℕ) → most ≡ most_of width → MatchOption result
        (NoneEndsWithin (led_by lead Hex) width piece.now) (EndsWithin (led_by lead Hex) width piece.now) }
{
    hex_in(lead, cut_at(piece, most), piece)
}

/// As `whole_decimal`, of a hexadecimal integer, with a prefix or without.
#[inline(always)]
pub fn whole_hex(width: Option<u16>, piece: &[u8]) -> Option<WholeInteger>
    ensures { MatchOption result (NoneEndsWithin (as_in_c Hex) width piece.now)
        (EndsWithin (as_in_c Hex) width piece.now) }
{
    hex_in(Lead::Any, cut(piece, width), piece)
}

/// Whether a zero stands at the place.
#[inline(always)]
fn is_zero_at(bytes: &[u8], at: usize) -> bool
    ensures { IsTrue result ↔ (at < length bytes.now) × (get_or bytes.now at 0 ≡ 48) }
{
    at < bytes.len() && bytes[at] == b'0'
}

/// As `decimal_number`, of digits of the radix.
#[inline(always)]
fn number_of_radix(radix: u8, digits: &[u8], piece: &[u8]) -> Option<(u64, usize)>
    requires positive { 0 < radix }
    requires small { radix ≤ 16 }
    requires front { digits.now ≡ take (length digits.now) piece.now }
    ensures digits { MatchOption result (LongDigits radix digits.now ⊎ NoDigits radix digits.now)
        (λ r. DigitsOf radix digits.now r.1 r.0) }
    ensures some { IfSome result (λ r. 0 < r.1) }
{
    if radix == 10 {
        return decimal_number(digits, piece);
    }
    let (number, count) = long_number(digits, radix)?;
    if count == 0 {
        return None;
    }
    Some((number, count))
}

/// As `whole_unprefixed`, of the bytes of the piece that the item may have.
#[inline(always)]
fn unprefixed_in(base: Base, front: &[u8], piece: &[u8]) -> Option<WholeInteger>
    requires { front.now ≡ take (length front.now) piece.now }
    ensures { (width : Option ℕ) → IsCutBy width piece.now front.now → MatchOption result
        (NoneEndsWithin (as_in_c base) width piece.now ⊎ ZeroFirst piece.now)
        (EndsWithin (as_in_c base) width piece.now) }
{
    let (start, negative) = sign(Lead::Any, front);
    if is_zero_at(front, start) {
        return None;
    }
    let radix = radices_of(base).first;
    let Some((magnitude, count)) = number_of_radix(radix, &front[start..], &piece[start..]) else {
        return None;
    };
    let last = start + count;
    if last == piece.len() {
        return None;
    }
    Some(WholeInteger {
        bytes: last,
        negative,
        magnitude,
    })
}

/// As `whole_decimal`, of an integer of any base. None also where its first digit is a zero, after which a prefix may
/// stand, or the radix may be another (C11 7.22.1.4p3).
#[inline(always)]
pub fn whole_unprefixed(base: Base, width: Option<u16>, piece: &[u8]) -> Option<WholeInteger>
    ensures { MatchOption result (NoneEndsWithin (as_in_c base) width piece.now ⊎ ZeroFirst piece.now)
        (EndsWithin (as_in_c base) width piece.now) }
{
    unprefixed_in(base, cut(piece, width), piece)
}

/// As `whole_unprefixed`, where the most bytes of the integer are known.
#[inline(always)]
pub fn unprefixed_within(base: Base, most: usize, piece: &[u8]) -> Option<WholeInteger>
    ensures { (width : Option ℕ) → most ≡ most_of width → MatchOption result
        (NoneEndsWithin (as_in_c base) width piece.now ⊎ ZeroFirst piece.now)
        (EndsWithin (as_in_c base) width piece.now) }
{
    unprefixed_in(base, cut_at(piece, most), piece)
}

/// How many bytes of the front of the piece stand before its first white space. Of a short front sixteen bytes of the
/// piece are looked at, at once.
#[inline(always)]
fn text_within(front: &[u8], piece: &[u8]) -> usize
    requires { front.now ≡ take (length front.now) piece.now }
    ensures { result ≡ prefix_len is_ink front.now }
{
    if front.len() >= SIGHT as usize {
        return text_run(front);
    }
    text_run(cut(piece, Some(SIGHT))).min(front.len())
}

/// The length of the `%s` item at the front of the piece, of so many bytes at most, where it ends before a byte of the
/// piece, so that what follows doesn't matter. The item is a matching sequence.
///
/// None only where the piece begins with no such item, and where the item may go on after the piece.
#[inline(always)]
pub fn text_item(most: usize, piece: &[u8]) -> Option<usize>
    ensures { (lead : Lead) (width : Option ℕ) → most ≡ most_of width
        → MatchOption result (NoItemWithin (Text lead) width piece.now) (ItemWithin (Text lead) width piece.now) }
{
    let count = text_within(cut_at(piece, most), piece);
    if 0 < count && count < piece.len() {
        Some(count)
    } else {
        None
    }
}

/// As `text_item`, of a conversion by a set.
#[inline(always)]
pub fn members_item(members: &ByteSet, most: usize, piece: &[u8]) -> Option<usize>
    ensures { (width : Option ℕ) → most ≡ most_of width
        → MatchOption result (NoItemWithin (Set members.now) width piece.now)
        (ItemWithin (Set members.now) width piece.now) }
{
    let count = members.run(cut_at(piece, most));
    if 0 < count && count < piece.len() {
        Some(count)
    } else {
        None
    }
}

/// As `members_item`, of a set that lacks this byte alone.
#[inline(always)]
pub fn until_item(stop: u8, most: usize, piece: &[u8]) -> Option<usize>
    ensures { (members : List Bool) (width : Option ℕ) → lone_lack members ≡ Some stop → most ≡ most_of width
        → MatchOption result (NoItemWithin (Set members) width piece.now)
        (ItemWithin (Set members) width piece.now) }
{
    let count = run_before(stop, cut_at(piece, most));
    if 0 < count && count < piece.len() {
        Some(count)
    } else {
        None
    }
}

/// As `text_item`, of a conversion `c`, which has a width.
#[inline(always)]
pub fn characters_item(most: usize, piece: &[u8]) -> Option<usize>
    ensures has { (width : Option ℕ) → most ≡ most_of width → IfSome result (ItemWithin Chars width piece.now) }
    ensures none { (width : Option ℕ) → most ≡ most_of width → IsSome width
        → IsNone result → NoItemWithin Chars width piece.now }
{
    if 0 < most && most < piece.len() {
        Some(most)
    } else {
        None
    }
}
