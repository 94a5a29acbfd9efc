//! How wide a scan has to be for each number that a conversion prints.
ghost use Rattle.std.specs.Prelude.{◌≡◌, ◌≢◌, ◌⊎◌, ◌<◌, true, false, Some, None, MatchOption, IfSome};
ghost use Rattle.sf_base.specs.Kinds.{bounds_of};
ghost use Rattle.sf_base.specs.Data.{datum_of};
ghost use Rattle.sf_print.specs.texts.Text.{least_digits};
ghost use Rattle.sf_format.specs.Units.{is_double};
ghost use Rattle.sf_pair.specs.conversions.Widths.{AreExtremes, IsLongerEnd, IsLongest, NoneIsLonger};
ghost use Rattle.sf_pair.specs.conversions.Widths.{longest_float};

use crate::conversions::below::laws_below;
use crate::conversions::reals::longest_float_len;
use sf_base::{Kind, Value};
use sf_format::PrintConv;
use sf_print::core_len;

/// The least and the greatest number of the kind. None of a text or a float.
fn extremes(kind: Kind) -> Option<(Value<'static>, Value<'static>)>
    ensures { MatchOption result (bounds_of kind ≡ None)
        (λ ends. AreExtremes kind (datum_of ends.0) (datum_of ends.1)) }
{
    match kind {
        Kind::I8 => Some((Value::I8(i8::MIN), Value::I8(i8::MAX))),
        Kind::I16 => Some((Value::I16(i16::MIN), Value::I16(i16::MAX))),
        Kind::I32 => Some((Value::I32(i32::MIN), Value::I32(i32::MAX))),
        Kind::I64 => Some((Value::I64(i64::MIN), Value::I64(i64::MAX))),
        Kind::U8 => Some((Value::U8(u8::MIN), Value::U8(u8::MAX))),
        Kind::U16 => Some((Value::U16(u16::MIN), Value::U16(u16::MAX))),
        Kind::U32 => Some((Value::U32(u32::MIN), Value::U32(u32::MAX))),
        Kind::U64 => Some((Value::U64(u64::MIN), Value::U64(u64::MAX))),
        Kind::Text | Kind::F32 | Kind::F64 => None,
    }
}

/// The length of the longest text that the conversion prints of a number of its kind, without the blanks before it: the
/// least width of a conversion that reads each of them, as 11 for `%d` and 314 for `%.3f`. Of the kind of doubles that
/// is of the finite ones. None of a text.
///
/// A `-` pads with blanks after the number, which are counted, as 15 for `%-15d`; and the precision 0 prints no digit
/// of the integer 0. No scan reads such a conversion back. Of an integer, the length is that of the least or of the
/// greatest number of the kind, whatever flags there are.
pub fn longest_len(conv: &PrintConv) -> Option<u32>
    ensures none { MatchOption result ((bounds_of conv.now.kind ≡ None) × (is_double conv.now.kind ≡ false))
        (λ n. (bounds_of conv.now.kind ≢ None) ⊎ (is_double conv.now.kind ≡ true)) }
    ensures integer { IfSome result (λ n. bounds_of conv.now.kind ≢ None → IsLongerEnd conv.now n) }
    ensures longest { IfSome result (λ n. bounds_of conv.now.kind ≢ None → conv.now.minus ≡ false
        → 0 < least_digits conv.now → IsLongest conv.now n) }
    ensures float { is_double conv.now.kind ≡ true → result ≡ Some (longest_float conv.now) }
    ensures enough { is_double conv.now.kind ≡ true → conv.now.minus ≡ false
        → IfSome result (NoneIsLonger conv.now) }
{
    laws_below();
    if conv.kind == Kind::F64 {
        return Some(longest_float_len(conv));
    }
    let (least, greatest) = extremes(conv.kind)?;
    Some(core_len(conv, least).max(core_len(conv, greatest)))
}
