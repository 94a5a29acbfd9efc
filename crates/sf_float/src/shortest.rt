//! The shortest text of a float that reads back, laid out as `ryu` lays it out.
ghost use Rattle.std.specs.Prelude.{◌≡◌, ◌≤◌, length, Some, IsTrue, IsFalse, IsAscii};
ghost use Rattle.std.specs.Float.{float_is_finite};
ghost use Rattle.fast_float.specs.Parse.{parse_float};
ghost use Rattle.ryu.specs.Plain.{IsLaidOutNumber};
ghost use Rattle.sf_float.specs.Shortest.{word_of};

use ryu::{Buffer, Float};

/// A text of a float that reads back as it, in its own kind: of a finite one `1.5`, `100.0` or `1e-7`, else `inf`, `-inf` or `nan`. That no
/// shorter one does is ryu's, and in no clause.
pub fn shortest_text<F: Float>(x: F, buffer: &mut Buffer) -> &str
    ensures parses { parse_float F.format result.now ≡ Some (F.value x) }
    ensures layout { IsTrue (float_is_finite (F.value x)) → IsLaidOutNumber F.WHOLE_DIGITS F.LEADING_ZEROS result.now }
    ensures word { IsFalse (float_is_finite (F.value x)) → result.now ≡ word_of (F.value x) }
    ensures short { length result.now ≤ 25 }
    ensures ascii { IsAscii result.now }
{
    if !x.is_number() {
        return "nan";
    }
    buffer.format(x)
}
