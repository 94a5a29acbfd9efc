//! Floats as values: each is its pattern.
ghost use Rattle.std.specs.Prelude.{◌≡◌, to_bits};
ghost use Rattle.std.specs.Option.{option_map};
ghost use Rattle.std.specs.Float.{binary32, binary64};
ghost use Rattle.sf_base.specs.Data.{Real as RealOf, datum_of, f32_in, f64_in, is_number, kind_of_real};
ghost use Rattle.sf_base.specs.declared.real.Real.TheVariants.{F32, F64};

use crate::{Kind, Value};
use std::num::{
    f32_from_bits_with_nan, f32_to_bits_with_nan, f64_from_bits_with_nan, f64_to_bits_with_nan,
};

/// A float by its pattern: the bits of binary32 or of binary64 (IEEE 754), which C11 F.2 asks of `float` and `double`.
#[derive(Clone, Copy, Debug, PartialEq, Eq)]
pub enum Real {
    F32(u32),
    F64(u64),
}

impl Real {
    ghost use Rattle.std.specs.Prelude.{false};

    /// The kind of a destination that can be given it.
    #[inline(always)]
    pub fn kind(self) -> Kind
        ensures { result ≡ kind_of_real self }
    {
        match self {
            Real::F32(_) => Kind::F32,
            Real::F64(_) => Kind::F64,
        }
    }

    /// The float as a value.
    #[inline(always)]
    pub fn value(self) -> Value<'static>
        ensures value { datum_of result ≡ RealOf self }
        ensures number { is_number result ≡ false }
    {
        match self {
            Real::F32(bits) => Value::F32(bits),
            Real::F64(bits) => Value::F64(bits),
        }
    }
}

impl Value<'_> {
    /// The float as a value. Each NaN gives the one quiet NaN without a sign.
    pub fn of_f32(x: f32) -> Value<'static>
        ensures { datum_of result ≡ RealOf (F32 (to_bits binary32 x)) }
    {
        Value::F32(f32_to_bits_with_nan(x))
    }

    /// As `of_f32`, of binary64.
    pub fn of_f64(x: f64) -> Value<'static>
        ensures { datum_of result ≡ RealOf (F64 (to_bits binary64 x)) }
    {
        Value::F64(f64_to_bits_with_nan(x))
    }

    /// Its float, if it is one of binary32.
    pub fn f32(&self) -> Option<f32>
        ensures { result ≡ f32_in (datum_of self.now) }
    {
        match self {
            Value::F32(bits) => Some(f32_from_bits_with_nan(*bits)),
            _ => None,
        }
    }

    /// Its float, if it is one of binary64.
    pub fn f64(&self) -> Option<f64>
        ensures { result ≡ f64_in (datum_of self.now) }
    {
        match self {
            Value::F64(bits) => Some(f64_from_bits_with_nan(*bits)),
            _ => None,
        }
    }
}

/// As `Value::of_f64`.
impl From<f64> for Value<'_> {
    ghost use Rattle.std.specs.Prelude.{◌≡◌, to_bits};
    ghost use Rattle.std.specs.Float.{binary64};
    ghost use Rattle.sf_base.specs.Data.{Real as RealOf, datum_of};
    ghost use Rattle.sf_base.specs.declared.real.Real.TheVariants.{F64};

    ghost from_gives = { λ x value. datum_of value ≡ RealOf (F64 (to_bits binary64 x)) };

    fn from(x: f64) -> Self {
        Value::of_f64(x)
    }
}
