//! Printed texts of doubles, as a caller sees them by the laws.
ghost use Rattle.std.specs.Prelude.{◌≡◌, ◌++◌, ◌+◌, ◌-◌, ℕ, Bool, List, Some, None, take, false, true, pos, from_bits};
ghost use Rattle.std.specs.Float.{float_is_finite, is_sign_negative};
ghost use Rattle.std.specs.Float.Ieee.{Float, binary64, fin};
ghost use Rattle.std.specs.Float.Parse.{parse_float};
ghost use Rattle.std.specs.Fmt.{sign_text};
ghost use Rattle.sf_float.specs.Computed.{float_text};
ghost use Rattle.sf_float.specs.General.{IsGeneralOf, IsPlainPower};
ghost use Rattle.sf_float.specs.Printed.{IsFloatText};
ghost use Rattle.sf_float.specs.Scaled.{IsScientific, is_nonzero, is_zero, scaled};
ghost use Rattle.sf_float_read.specs.value.Values.{IsHexValue};

use sf_float::laws::{
    general_reads_back, general_zero_reads_back, one_text, plain_is_fixed, scientific_reads_back,
    zero_reads_back,
};
use sf_float::{
    FloatConv, FloatField, ROOM, write_float, write_general, write_hexadecimal, write_scientific,
};
use sf_float_read::value::laws::{hexadecimal_reads_back, one_hex_value};
use std::num::f64_from_bits_with_nan;

/// Writes a finite double as `%.16e` does, without its sign. After its sign that is read as the double; of 0, after
/// either sign, as 0 with that sign.
pub fn scientific_of(bits: u64, out: &mut [u8; ROOM]) -> usize
    requires { float_is_finite (from_bits binary64 bits) ≡ true }
    ensures some { is_nonzero (from_bits binary64 bits) → parse_float binary64
        (sign_text (is_sign_negative (from_bits binary64 bits)) ++ take result out.new)
        ≡ Some (from_bits binary64 bits) }
    ensures none { is_zero (from_bits binary64 bits) → (negative : Bool)
        → parse_float binary64 (sign_text negative ++ take result out.new) ≡ Some (fin negative 0 (pos 0)) }
{
    scientific_reads_back();
    zero_reads_back();
    write_scientific(f64_from_bits_with_nan(bits), 16, false, out)
}

/// Writes a finite double as `%.17g` does, without its sign. After its sign that is read as the double; of 0, after
/// either sign, as 0 with that sign.
pub fn general_of(bits: u64, out: &mut [u8; ROOM]) -> usize
    requires { float_is_finite (from_bits binary64 bits) ≡ true }
    ensures some { is_nonzero (from_bits binary64 bits) → parse_float binary64
        (sign_text (is_sign_negative (from_bits binary64 bits)) ++ take result out.new)
        ≡ Some (from_bits binary64 bits) }
    ensures none { is_zero (from_bits binary64 bits) → (negative : Bool)
        → parse_float binary64 (sign_text negative ++ take result out.new) ≡ Some (fin negative 0 (pos 0)) }
{
    general_reads_back();
    general_zero_reads_back();
    write_general(f64_from_bits_with_nan(bits), 17, false, out)
}

/// Writes a finite double as `%.17g` does. Where that is the style of `%f`, its digits are the double, rounded to so
/// many after the point.
pub fn plain_of(bits: u64, out: &mut [u8; ROOM]) -> usize
    requires { float_is_finite (from_bits binary64 bits) ≡ true }
    ensures { (n : ℕ) × (power : ℕ) × IsGeneralOf false 17 n power (take result out.new)
        × (IsPlainPower 17 power → n ≡ scaled (from_bits binary64 bits) (17 + 399 - power) 0) }
{
    plain_is_fixed();
    write_general(f64_from_bits_with_nan(bits), 17, false, out)
}

/// Writes a finite double as `%a` does, without its sign and `0x`. That is read as the double, and as no other.
pub fn hexadecimal_of(bits: u64, out: &mut [u8; ROOM]) -> usize
    requires { float_is_finite (from_bits binary64 bits) ≡ true }
    ensures reads { IsHexValue binary64 (is_sign_negative (from_bits binary64 bits)) (take result out.new)
        (from_bits binary64 bits) }
    ensures only { (y : Float) → IsHexValue binary64 (is_sign_negative (from_bits binary64 bits))
        (take result out.new) y → y ≡ from_bits binary64 bits }
{
    hexadecimal_reads_back();
    one_hex_value();
    write_hexadecimal(f64_from_bits_with_nan(bits), None, false, out)
}

/// Writes a double by a conversion. No text but the one that is computed is the double's.
pub fn only_text(conv: &FloatConv, bits: u64, out: &mut [u8; ROOM]) -> (FloatField, usize)
    ensures { (t : List ℕ) → IsFloatText conv.now (from_bits binary64 bits) t
        → t ≡ float_text conv.now (from_bits binary64 bits) }
{
    one_text();
    write_float(conv, f64_from_bits_with_nan(bits), out)
}
