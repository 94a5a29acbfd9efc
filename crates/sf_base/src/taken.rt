//! What a value can be taken as.
ghost use Rattle.std.specs.Prelude.{◌≡◌, ◌↔◌, IsSome, IfSome};
ghost use Rattle.sf_base.specs.declared.values.Kind.{Kind};
ghost use Rattle.sf_base.specs.Data.{Datum, datum_of, kind_of};

use crate::{Kind, ScanInt, Value};

/// A type that a value can be taken as: one of the eight integers, `f32` or `f64`, or a text of bytes, which is lent.
pub trait Taken<'a>: Sized {
    // The kind of the destinations that are given such.
    ghost kind: { Kind };

    // A destination that was given this was given such a value.
    ghost is_of: { Self → Datum → Type 0 };

    /// The kind of the values that are taken as this type.
    fn taken_kind() -> Kind
        ensures { result ≡ kind };

    /// The value as this type. None where it is of another kind.
    fn taken(value: Value<'a>) -> Option<Self>
        ensures exactly { IsSome result ↔ (kind_of (datum_of value.entry) ≡ kind) }
        ensures value { IfSome result (λ taken. is_of taken (datum_of value.entry)) };
}

impl<T: ScanInt> Taken<'_> for T {
    ghost use Rattle.std.specs.Prelude.{◌≡◌};
    ghost use Rattle.sf_base.specs.Data.Datum.{Number};

    ghost kind = { T.own_kind };

    ghost is_of = { λ n d. Number T.own_kind (T.integer n) ≡ d };

    #[inline(always)]
    fn taken_kind() -> Kind {
        T::kind()
    }

    #[inline(always)]
    fn taken(value: Value<'_>) -> Option<T> {
        T::from_value(value)
    }
}

impl<'a> Taken<'a> for &'a [u8] {
    ghost use Rattle.std.specs.Prelude.{◌≡◌};
    ghost use Rattle.sf_base.specs.declared.values.Kind.TheVariants.{Text};
    ghost use Rattle.sf_base.specs.Data.Datum.{Bytes};

    ghost kind = { Text };

    ghost is_of = { λ text d. Bytes text.now ≡ d };

    #[inline(always)]
    fn taken_kind() -> Kind
        ensures { result ≡ Text }
    {
        Kind::Text
    }

    fn taken(value: Value<'a>) -> Option<&'a [u8]> {
        match value {
            Value::Text(text) => Some(text),
            _ => None,
        }
    }
}

/// The float of the pattern, as `Value::f32` gives it.
impl Taken<'_> for f32 {
    ghost use Rattle.std.specs.Prelude.{◌≡◌, Some};
    ghost use Rattle.sf_base.specs.declared.values.Kind.TheVariants.{F32};
    ghost use Rattle.sf_base.specs.Data.{f32_in};

    ghost kind = { F32 };

    ghost is_of = { λ x d. f32_in d ≡ Some x };

    #[inline(always)]
    fn taken_kind() -> Kind {
        Kind::F32
    }

    fn taken(value: Value<'_>) -> Option<f32> {
        value.f32()
    }
}

/// The float of the pattern, as `Value::f64` gives it.
impl Taken<'_> for f64 {
    ghost use Rattle.std.specs.Prelude.{◌≡◌, Some};
    ghost use Rattle.sf_base.specs.declared.values.Kind.TheVariants.{F64};
    ghost use Rattle.sf_base.specs.Data.{f64_in};

    ghost kind = { F64 };

    ghost is_of = { λ x d. f64_in d ≡ Some x };

    #[inline(always)]
    fn taken_kind() -> Kind {
        Kind::F64
    }

    fn taken(value: Value<'_>) -> Option<f64> {
        value.f64()
    }
}
