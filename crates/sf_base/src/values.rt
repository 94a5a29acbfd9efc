//! What a destination can hold.
ghost use Rattle.std.specs.Prelude.{◌≡◌};
ghost use Rattle.sf_base.specs.Data.{with_sign};

use crate::{Number, Real};
use num_traits::cast;

/// The kind of a destination: an integer type of the given sign and bits, a text of bytes, or a float of binary32 or
/// binary64. The length and the letter of a conversion say which (C11 7.21.6.2p11 and p12, 7.21.6.1p7 and p8).
#[derive(Clone, Copy, Debug, PartialEq, Eq)]
pub enum Kind {
    /// A signed integer of 8 bits, from -128 to 127: `%hhd`.
    I8,
    /// A signed integer of 16 bits, from -32768 to 32767: `%hd`.
    I16,
    /// A signed integer of 32 bits, from -2147483648 to 2147483647: `%d`.
    I32,
    /// A signed integer of 64 bits, from -9223372036854775808 to 9223372036854775807: `%ld`.
    I64,
    /// An unsigned integer of 8 bits, at most 255: `%hhu`.
    U8,
    /// An unsigned integer of 16 bits, at most 65535: `%hu`.
    U16,
    /// An unsigned integer of 32 bits, at most 4294967295: `%u`.
    U32,
    /// An unsigned integer of 64 bits, at most 18446744073709551615: `%lu`.
    U64,
    /// A text of bytes, of any length and without a NUL after them: `%s`, `%c` and `%[`.
    Text,
    /// A float of 32 bits, binary32 of IEEE 754.
    F32,
    /// A float of 64 bits, binary64 of IEEE 754.
    F64,
}

/// The greatest number of each kind in turn; a text has none, nor has a float.
static GREATEST: [u64; 11] = [
    127,
    32_767,
    2_147_483_647,
    9_223_372_036_854_775_807,
    255,
    65_535,
    4_294_967_295,
    18_446_744_073_709_551_615,
    0,
    0,
    0,
];

impl Kind {
    ghost use Rattle.std.specs.Prelude.{IfSome, IfNone, Some};
    ghost use Rattle.std.specs.Option.{option_map};
    ghost use Rattle.sf_base.specs.Kinds.{bounds_of};
    ghost use Rattle.sf_base.specs.Data.{Number as NumberOf, datum_of, datum_of_number, IsIn, value_of};

    /// Whether the kind's numbers have a sign, and the greatest of them. None of a text or a float.
    #[inline(always)]
    pub fn bounds(self) -> Option<(bool, u64)>
        ensures { result ≡ bounds_of self }
    {
        if matches!(self, Kind::Text | Kind::F32 | Kind::F64) {
            return None;
        }
        let signed = matches!(self, Kind::I8 | Kind::I16 | Kind::I32 | Kind::I64);
        Some((signed, GREATEST[self as usize]))
    }

    /// As `number`, of a kind with these bounds.
    #[inline(always)]
    pub fn number_within(
        self,
        signed: bool,
        greatest: u64,
        negative: bool,
        magnitude: u64,
    ) -> Option<Number>
        requires { bounds_of self ≡ Some (signed, greatest) }
        ensures { option_map datum_of_number result ≡ option_map (NumberOf self) (value_of self negative magnitude) }
    {
        let below = negative & (magnitude > 0);
        if signed {
            if magnitude > greatest + u64::from(below) {
                return None;
            }
            return Some(Number {
                kind: self,
                negative: below,
                magnitude,
            });
        }
        if magnitude > greatest {
            return None;
        }
        Some(Number {
            kind: self,
            negative: false,
            magnitude: if below {
                greatest - magnitude + 1
            } else {
                magnitude
            },
        })
    }

    /// The number that the kind gives a sign (true: a minus) and a magnitude. None if the kind does not hold it, where
    /// C leaves open what is stored (C11 7.21.6.2p10); a text holds none, nor does a float. A minus before an unsigned
    /// number negates it in its kind (C11 7.22.1.4p5). The number keeps a sign and a magnitude, so nothing is converted
    /// here: `Number::value` converts.
    #[inline(always)]
    pub fn number(self, negative: bool, magnitude: u64) -> Option<Number>
        ensures { option_map datum_of_number result ≡ option_map (NumberOf self) (value_of self negative magnitude) }
    {
        let (signed, greatest) = self.bounds()?;
        self.number_within(signed, greatest, negative, magnitude)
    }

    /// The value of the kind that is this number. None if the kind does not hold it; a text holds none, nor
    /// does a float.
    pub fn value(self, number: i128) -> Option<Value<'static>>
        ensures held { IfSome result (λ v. IsIn self number × (datum_of v ≡ NumberOf self number)) }
        ensures beyond { IfNone result (¬ (IsIn self number)) }
    {
        let value = match self {
            Kind::I8 => Value::I8(cast(number)?),
            Kind::I16 => Value::I16(cast(number)?),
            Kind::I32 => Value::I32(cast(number)?),
            Kind::I64 => Value::I64(cast(number)?),
            Kind::U8 => Value::U8(cast(number)?),
            Kind::U16 => Value::U16(cast(number)?),
            Kind::U32 => Value::U32(cast(number)?),
            Kind::U64 => Value::U64(cast(number)?),
            Kind::Text | Kind::F32 | Kind::F64 => return None,
        };
        Some(value)
    }
}

/// What a destination was given, or what is printed (C11 7.21.6.1p8, 7.21.6.2p12). A text is lent. A float is its
/// pattern, so that equal values are the same value: a scan stores each NaN as the one quiet NaN without a sign.
#[derive(Clone, Copy, Debug, PartialEq, Eq)]
pub enum Value<'a> {
    /// A number of the kind `Kind::I8`.
    I8(i8),
    /// A number of the kind `Kind::I16`.
    I16(i16),
    /// A number of the kind `Kind::I32`.
    I32(i32),
    /// A number of the kind `Kind::I64`.
    I64(i64),
    /// A number of the kind `Kind::U8`.
    U8(u8),
    /// A number of the kind `Kind::U16`.
    U16(u16),
    /// A number of the kind `Kind::U32`.
    U32(u32),
    /// A number of the kind `Kind::U64`.
    U64(u64),
    /// The bytes of a text, with no NUL after them.
    Text(&'a [u8]),
    /// The pattern of a float of the kind `Kind::F32`.
    F32(u32),
    /// The pattern of a float of the kind `Kind::F64`.
    F64(u64),
}

/// A value without the Rust type that holds it: a number by its sign and its magnitude, a text, which is lent, or a
/// float.
#[derive(Clone, Copy, Debug)]
pub enum Shown<'a> {
    Number(Number),
    Text(&'a [u8]),
    Real(Real),
}

impl<'a> Shown<'a> {
    ghost use Rattle.sf_base.specs.Data.{datum_of, datum_of_shown};

    /// The value.
    #[inline(always)]
    pub fn value(self) -> Value<'a>
        ensures { datum_of result ≡ datum_of_shown self.entry }
    {
        match self {
            Shown::Number(number) => number.value(),
            Shown::Text(bytes) => Value::Text(bytes),
            Shown::Real(real) => real.value(),
        }
    }
}

impl<'a> Value<'a> {
    ghost use Rattle.sf_base.specs.Data.{datum_of, datum_of_shown};

    /// The value without the Rust type that holds it.
    #[inline(always)]
    pub fn shown(self) -> Shown<'a>
        ensures { datum_of_shown result ≡ datum_of self.entry }
    {
        match self {
            Value::Text(bytes) => return Shown::Text(bytes),
            Value::F32(bits) => return Shown::Real(Real::F32(bits)),
            Value::F64(bits) => return Shown::Real(Real::F64(bits)),
            _ => {}
        }
        match self.sign_and_magnitude() {
            Some((negative, magnitude)) => Shown::Number(Number {
                kind: self.kind(),
                negative,
                magnitude,
            }),
            None => unreachable!(),
        }
    }
}

impl Value<'_> {
    ghost use Rattle.std.specs.Prelude.{◌<◌, IfSome, true};
    ghost use Rattle.std.specs.Option.{option_map};
    ghost use Rattle.sf_base.specs.Data.{datum_of, kind_of, number_in, IsIn};

    /// The kind of a destination that can be given it.
    pub fn kind(&self) -> Kind
        ensures { result ≡ kind_of (datum_of self.now) }
    {
        match self {
            Value::I8(_) => Kind::I8,
            Value::I16(_) => Kind::I16,
            Value::I32(_) => Kind::I32,
            Value::I64(_) => Kind::I64,
            Value::U8(_) => Kind::U8,
            Value::U16(_) => Kind::U16,
            Value::U32(_) => Kind::U32,
            Value::U64(_) => Kind::U64,
            Value::Text(_) => Kind::Text,
            Value::F32(_) => Kind::F32,
            Value::F64(_) => Kind::F64,
        }
    }

    /// The sign (true: a minus) and the magnitude of its number. None of a text or a float.
    pub fn sign_and_magnitude(&self) -> Option<(bool, u64)>
        ensures number { option_map (λ p. with_sign p.0 p.1) result ≡ number_in (datum_of self.now) }
        ensures held { IfSome result (λ p. IsIn (kind_of (datum_of self.now)) (with_sign p.0 p.1)) }
        ensures sign { IfSome result (λ p. p.0 ≡ true → 0 < p.1) }
    {
        let parts = match self {
            Value::I8(n) => (*n < 0, u64::from(n.unsigned_abs())),
            Value::I16(n) => (*n < 0, u64::from(n.unsigned_abs())),
            Value::I32(n) => (*n < 0, u64::from(n.unsigned_abs())),
            Value::I64(n) => (*n < 0, n.unsigned_abs()),
            Value::U8(n) => (false, u64::from(*n)),
            Value::U16(n) => (false, u64::from(*n)),
            Value::U32(n) => (false, u64::from(*n)),
            Value::U64(n) => (false, *n),
            Value::Text(_) | Value::F32(_) | Value::F64(_) => return None,
        };
        Some(parts)
    }

    /// Its number. None of a text or a float.
    pub fn number(&self) -> Option<i128>
        ensures { result ≡ number_in (datum_of self.now) }
    {
        let (negative, magnitude) = self.sign_and_magnitude()?;
        let number = i128::from(magnitude);
        Some(if negative { -number } else { number })
    }
}

impl Default for Value<'_> {
    ghost use Rattle.std.specs.Prelude.{pos};
    ghost use Rattle.sf_base.specs.declared.values.Value.TheVariants.{I32};

    ghost is_default = { λ v. v ≡ I32 (pos 0) };

    /// The number 0 of 32 bits.
    fn default() -> Self {
        Value::I32(0)
    }
}
