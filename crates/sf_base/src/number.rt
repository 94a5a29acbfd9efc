//! Numbers of a kind.
ghost use Rattle.std.specs.Prelude.{◌≡◌, IsTrue};
ghost use Rattle.sf_base.specs.Kinds.{is_held, is_signed, with_sign};

use crate::{Kind, Value};

/// A number of a kind, by its sign and its magnitude.
#[derive(Clone, Copy, Debug, PartialEq, Eq)]
pub struct Number {
    /// The kind, which is no text and no float.
    pub kind: Kind,
    /// Whether the number is below 0.
    pub negative: bool,
    /// The number without its sign.
    pub magnitude: u64,
    pub ghost held: { IsTrue (is_held kind negative magnitude) },
}

/// The number, which has at most 63 bits beside its sign: without arithmetic of more bits.
#[inline(always)]
fn signed(number: Number) -> i64
    requires { IsTrue (is_signed 63 number.negative number.magnitude) }
    ensures { result ≡ with_sign number.negative number.magnitude }
{
    if number.negative {
        -((number.magnitude - 1) as i64) - 1
    } else {
        number.magnitude as i64
    }
}

impl Number {
    ghost use Rattle.std.specs.Prelude.{true};
    ghost use Rattle.sf_base.specs.Data.{datum_of, datum_of_number, is_number};

    /// The number as a value.
    #[inline(always)]
    pub fn value(self) -> Value<'static>
        ensures value { datum_of result ≡ datum_of_number self }
        ensures number { is_number result ≡ true }
    {
        match self.kind {
            Kind::I8 => Value::I8(signed(self) as i8),
            Kind::I16 => Value::I16(signed(self) as i16),
            Kind::I32 => Value::I32(signed(self) as i32),
            Kind::I64 => Value::I64(signed(self)),
            Kind::U8 => Value::U8(self.magnitude as u8),
            Kind::U16 => Value::U16(self.magnitude as u16),
            Kind::U32 => Value::U32(self.magnitude as u32),
            Kind::U64 => Value::U64(self.magnitude),
            Kind::Text | Kind::F32 | Kind::F64 => unreachable!(),
        }
    }
}
