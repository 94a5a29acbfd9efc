//! Shortest texts, read again, as a caller sees it by the laws.
ghost use Rattle.std.specs.Prelude.{◌≡◌, ◌≤◌, ℕ, All, Some, take, to_bits, true};
ghost use Rattle.std.specs.Float.Ieee.{binary32, binary64};
ghost use Rattle.std.specs.Float.Parse.{parse_float};
ghost use Rattle.std.specs.Prelude.{from_bits};
ghost use Rattle.sf_base.specs.declared.real.Real.TheVariants as reals;
ghost use Rattle.sf_float.specs.Computed.{count_of};
ghost use Rattle.sf_float.specs.Scaled.{is_nonzero};
ghost use Rattle.sf_float.specs.fewest.Digits.{read_as, shortest};
ghost use Rattle.sf_float.specs.fewest.Laid.{shortest_text};
ghost use Rattle.sf_float.specs.fewest.Laws.{IsNoFurther, IsShort};

use sf_base::Real;
use sf_float::fewest::laws::{has_short_bytes, none_nearer, none_shorter, one_float, reads_back};
use sf_float::write_shortest;
use sf_float_read::value::laws::{one_stored, short_is_stored, stored_is_computed};
use sf_float_read::{value_f32, value_f64};

/// What `%lf` stores of the shortest text of a double: its pattern, and of a NaN the one of the one NaN.
pub fn short_f64(bits: u64) -> Option<u64>
    ensures { result ≡ Some (to_bits binary64 (from_bits binary64 bits)) }
{
    short_is_stored();
    stored_is_computed();
    one_stored();
    let mut text = [0; 32];
    let end = write_shortest(Real::F64(bits), &mut text);
    value_f64(&text[..end])
}

/// What `%f` stores of the shortest text of a float: its pattern, and of a NaN the one of the one NaN.
pub fn short_f32(bits: u32) -> Option<u32>
    ensures { result ≡ Some (to_bits binary32 (from_bits binary32 bits)) }
{
    short_is_stored();
    stored_is_computed();
    one_stored();
    let mut text = [0; 32];
    let end = write_shortest(Real::F32(bits), &mut text);
    value_f32(&text[..end])
}

/// Whether two doubles have one shortest text. If they have, they are one float.
pub fn share_text(one: u64, other: u64) -> bool
    ensures { result ≡ true → from_bits binary64 one ≡ from_bits binary64 other }
{
    one_float();
    let (mut text, mut last) = ([0; 32], [0; 32]);
    let end = write_shortest(Real::F64(one), &mut text);
    let other_end = write_shortest(Real::F64(other), &mut last);
    text[..end] == last[..other_end]
}

/// Writes the shortest text of a double. It is read as the double, no decimal with fewer digits is, none with as many
/// is nearer, and it has digits, `-`, `.` and small letters alone.
pub fn shortest_of(bits: u64, out: &mut [u8; 32]) -> usize
    ensures text { take result out.new ≡ shortest_text (reals.F64 bits) }
    ensures reads { parse_float binary64 (take result out.new) ≡ Some (from_bits binary64 bits) }
    ensures fewest { (n : ℕ) (last : ℕ) → is_nonzero (from_bits binary64 bits)
        → read_as (reals.F64 bits) n last ≡ from_bits binary64 bits
        → count_of 0 (shortest (reals.F64 bits)).0 ≤ count_of 0 n }
    ensures nearest { (n : ℕ) (last : ℕ) → is_nonzero (from_bits binary64 bits)
        → read_as (reals.F64 bits) n last ≡ from_bits binary64 bits
        → count_of 0 n ≤ count_of 0 (shortest (reals.F64 bits)).0
        → IsNoFurther (from_bits binary64 bits) (shortest (reals.F64 bits)).0 (shortest (reals.F64 bits)).1 n last }
    ensures bytes { All IsShort (take result out.new) }
{
    reads_back();
    none_shorter();
    none_nearer();
    has_short_bytes();
    write_shortest(Real::F64(bits), out)
}
