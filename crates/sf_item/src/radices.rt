//! In which radix the digits of an integer are read.
ghost use Rattle.std.specs.Prelude.{◌≡◌, ◌<◌, ◌≤◌, IfSome};
ghost use Rattle.sf_item.specs.Radices.{radices, prefix_radix};

use sf_format::{Base, Numeral};

/// The radices of a base.
#[derive(Clone, Copy, Debug, PartialEq, Eq)]
pub struct Radices {
    /// Of an integer whose first digit is not 0.
    pub first: u8,
    /// Of one whose first digit is 0, without a prefix.
    pub zero: u8,
    /// After `0x` or `0X`, where the base has that prefix.
    pub x: Option<u8>,
    /// After `0b` or `0B`, where the base has that prefix.
    pub b: Option<u8>,
}

fn row(first: u8, zero: u8, x: Option<u8>, b: Option<u8>) -> Radices
    ensures first { result.first ≡ first }
    ensures zero { result.zero ≡ zero }
    ensures x { result.x ≡ x }
    ensures b { result.b ≡ b }
{
    Radices { first, zero, x, b }
}

/// The table of the radices: a row for each base.
pub fn radices_of(base: Base) -> Radices
    ensures first { result.first ≡ (radices base).first }
    ensures zero { result.zero ≡ (radices base).zero }
    ensures x { result.x ≡ (radices base).x }
    ensures b { result.b ≡ (radices base).b }
    ensures first_range { (0 < result.first) × (result.first ≤ 16) }
    ensures zero_range { (0 < result.zero) × (result.zero ≤ 16) }
    ensures x_range { IfSome result.x (λ r. (0 < r) × (r ≤ 16)) }
    ensures b_range { IfSome result.b (λ r. (0 < r) × (r ≤ 16)) }
{
    match base {
        Base::Dec => row(10, 10, None, None),
        Base::Oct => row(8, 8, None, None),
        Base::Hex => row(16, 16, Some(16), None),
        Base::Bin => row(2, 2, None, Some(2)),
        Base::Auto => row(10, 8, Some(16), None),
        Base::AutoBin => row(10, 8, Some(16), Some(2)),
    }
}

/// The radix that the byte makes as the letter of a prefix, after a first 0, where a prefix may stand there.
pub fn prefix_radix(numeral: Numeral, letter: u8) -> Option<u8>
    ensures radix { result ≡ prefix_radix numeral letter }
    ensures range { IfSome result (λ r. (0 < r) × (r ≤ 16)) }
{
    if !numeral.lead.has_prefix() {
        return None;
    }
    match letter {
        b'x' | b'X' => radices_of(numeral.base).x,
        b'b' | b'B' => radices_of(numeral.base).b,
        _ => None,
    }
}
