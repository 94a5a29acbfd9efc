//! Items of floats, as a caller sees them by the laws.
ghost use Rattle.std.specs.Prelude.{◌≡◌, ◌<◌, ◌^◌, ◌↔◌, ◌++◌, ℕ, List, IfSome, Some, IsTrue, T, to_bits};
ghost use Rattle.std.specs.Float.Ieee.{Float, binary64, fits};
ghost use Rattle.sf_float_read.specs.declared.item.reached.Forms.{Forms};
ghost use Rattle.sf_float_read.specs.item.Parts.{IsDecimalInParts, IsFloatInParts};
ghost use Rattle.sf_float_read.specs.item.Sequences.{IsFloatOf};
ghost use Rattle.sf_float_read.specs.item.Steps.{AllBytes, Completes, HasRead};
ghost use Rattle.sf_float_read.specs.value.Values.{IsStored};

use sf_float_read::item::laws::{
    decimals_are_floats, each_goes_on, parts_are_sequences, tests_are_sequences,
};
use sf_float_read::value::laws::stored_bits;
use sf_float_read::{FloatScan, Forms, is_float, value_f64};

/// Whether a text is a float in C's parts.
pub fn is_in_parts(text: &[u8]) -> bool
    ensures { IsTrue result ↔ IsFloatInParts text.now }
{
    parts_are_sequences();
    is_float(text)
}

/// Takes what a float begins with. What was taken before and now goes on to a whole float.
pub fn taken_of(scan: &mut FloatScan, piece: &[u8]) -> usize
    ensures goes_on { (t : List ℕ) × AllBytes t × Completes scan.new.reached t }
    ensures whole { (forms : Forms) (f : List ℕ) → HasRead forms scan.new.reached f
        → (t : List ℕ) × AllBytes t × IsFloatOf forms (f ++ t) }
{
    each_goes_on();
    scan.take_run(piece)
}

/// What `%lf` stores of a text that is a float: a pattern of 64 bits, which is that of a double.
pub fn pattern_of(text: &[u8]) -> Option<u64>
    ensures { IfSome result (λ bits. (bits < 2 ^ 64) × ((x : Float) × T (fits binary64 x)
        × (bits ≡ to_bits binary64 x))) }
{
    stored_bits();
    if !is_float(text) {
        return None;
    }
    value_f64(text)
}

/// What `%!lf` stores of a text that is a decimal float.
pub fn decimal_pattern_of(text: &[u8]) -> Option<u64>
    ensures { IfSome result (λ bits. IsDecimalInParts text.now × IsStored binary64 text.now (Some bits)) }
{
    tests_are_sequences();
    parts_are_sequences();
    decimals_are_floats();
    let mut scan = FloatScan::start(Forms::Decimal);
    if scan.take_run(text) < text.len() || !scan.is_match() {
        return None;
    }
    value_f64(text)
}
