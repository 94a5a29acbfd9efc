//! Integers as the types of destinations.
ghost use Rattle.std.specs.Prelude.{◌≡◌, ◌↔◌, ℤ, None, Some, IsSome, IfSome, if◌then◌else◌};
ghost use Rattle.std.specs.Option.{option_map};
ghost use Rattle.sf_base.specs.declared.values.Kind.{Kind};
ghost use Rattle.sf_base.specs.declared.values.Kind.TheVariants.{Text};
ghost use Rattle.sf_base.specs.Kinds.{bounds_of};
ghost use Rattle.sf_base.specs.Data.{IsIn, Number as NumberOf, datum_of, kind_of, value_of, with_sign};

use crate::{Kind, Value};
use num_traits::{PrimInt, cast};

// The number of a sign (true: a minus) and a magnitude.
#[inline(always)]
fn whole(negative: bool, magnitude: u64) -> i128
    ensures { result ≡ with_sign negative magnitude }
{
    let number = i128::from(magnitude);
    if negative { -number } else { number }
}

/// An integer type that a destination can have, in two's complement. A number becomes one of its values by the checked
/// casts of `num_traits`.
pub trait ScanInt: PrimInt {
    ghost own_kind: { Kind };

    ghost integer: { Self → ℤ };

    /// The integer as a value of a destination.
    fn value(self) -> Value<'static>
        ensures { datum_of result ≡ NumberOf own_kind (integer self) };

    /// The integer that a destination was given. None where the value is of another kind.
    fn from_value(value: Value<'_>) -> Option<Self>
        ensures exactly { IsSome result ↔ (kind_of (datum_of value.entry) ≡ own_kind) }
        ensures value { IfSome result (λ n. NumberOf own_kind (integer n) ≡ datum_of value.entry) };

    // The kind is no text, and no float. The integer is the one that the casts speak of, and the type has each number
    // of its kind.
    ghost number_law: { own_kind ≡ Text → ⊥ };

    ghost bounds_law: { bounds_of own_kind ≡ None → ⊥ };

    ghost integer_law: { (x : Self) → Self.value x ≡ integer x };

    ghost fits_law: { (z : ℤ) → IsIn own_kind z → Self.fits z };

    /// The kind of the type.
    #[inline(always)]
    final fn kind() -> Kind
        ensures { result ≡ own_kind }
    {
        Self::zero().value().kind()
    }

    /// The value of a sign (true: a minus) and a magnitude. None if the type does not hold it, where C leaves open what
    /// is stored (C11 7.21.6.2p10), or if the magnitude is above `u64::MAX`, which `overflowed` answers. A minus before
    /// an unsigned value negates it in its type (C11 7.22.1.4p5).
    final fn from_parts(negative: bool, magnitude: u64, overflowed: bool) -> Option<Self>
        ensures { option_map integer result ≡ (if overflowed then None else value_of own_kind negative magnitude) }
    {
        if overflowed {
            return None;
        }
        let number = Self::kind().number(negative, magnitude)?;
        cast(whole(number.negative, number.magnitude))
    }
}

impl ScanInt for i8 {
    ghost use Rattle.std.proofs.Common.{rules};
    ghost use Rattle.std.specs.Prelude.{refl};
    ghost use Rattle.sf_base.specs.declared.values.Kind.TheVariants.{I8};

    ghost own_kind = { I8 };

    ghost integer = { λ x. x };

    ghost number_law = { λ h. Prim.absurd Prim.cc };

    ghost bounds_law = { λ h. Prim.absurd Prim.cc };

    ghost integer_law = { λ x. refl };

    ghost fits_law = { λ z h. Prim.search rules };

    #[inline(always)]
    fn value(self) -> Value<'static> {
        Value::I8(self)
    }

    #[inline(always)]
    fn from_value(value: Value<'_>) -> Option<i8> {
        match value {
            Value::I8(number) => Some(number),
            _ => None,
        }
    }
}

impl ScanInt for i16 {
    ghost use Rattle.std.proofs.Common.{rules};
    ghost use Rattle.std.specs.Prelude.{refl};
    ghost use Rattle.sf_base.specs.declared.values.Kind.TheVariants.{I16};

    ghost own_kind = { I16 };

    ghost integer = { λ x. x };

    ghost number_law = { λ h. Prim.absurd Prim.cc };

    ghost bounds_law = { λ h. Prim.absurd Prim.cc };

    ghost integer_law = { λ x. refl };

    ghost fits_law = { λ z h. Prim.search rules };

    #[inline(always)]
    fn value(self) -> Value<'static> {
        Value::I16(self)
    }

    #[inline(always)]
    fn from_value(value: Value<'_>) -> Option<i16> {
        match value {
            Value::I16(number) => Some(number),
            _ => None,
        }
    }
}

impl ScanInt for i32 {
    ghost use Rattle.std.proofs.Common.{rules};
    ghost use Rattle.std.specs.Prelude.{refl};
    ghost use Rattle.sf_base.specs.declared.values.Kind.TheVariants.{I32};

    ghost own_kind = { I32 };

    ghost integer = { λ x. x };

    ghost number_law = { λ h. Prim.absurd Prim.cc };

    ghost bounds_law = { λ h. Prim.absurd Prim.cc };

    ghost integer_law = { λ x. refl };

    ghost fits_law = { λ z h. Prim.search rules };

    #[inline(always)]
    fn value(self) -> Value<'static> {
        Value::I32(self)
    }

    #[inline(always)]
    fn from_value(value: Value<'_>) -> Option<i32> {
        match value {
            Value::I32(number) => Some(number),
            _ => None,
        }
    }
}

impl ScanInt for i64 {
    ghost use Rattle.std.proofs.Common.{rules};
    ghost use Rattle.std.specs.Prelude.{refl};
    ghost use Rattle.sf_base.specs.declared.values.Kind.TheVariants.{I64};

    ghost own_kind = { I64 };

    ghost integer = { λ x. x };

    ghost number_law = { λ h. Prim.absurd Prim.cc };

    ghost bounds_law = { λ h. Prim.absurd Prim.cc };

    ghost integer_law = { λ x. refl };

    ghost fits_law = { λ z h. Prim.search rules };

    #[inline(always)]
    fn value(self) -> Value<'static> {
        Value::I64(self)
    }

    #[inline(always)]
    fn from_value(value: Value<'_>) -> Option<i64> {
        match value {
            Value::I64(number) => Some(number),
            _ => None,
        }
    }
}

impl ScanInt for u8 {
    ghost use Rattle.std.proofs.Common.{rules};
    ghost use Rattle.std.specs.Prelude.{pos, refl};
    ghost use Rattle.sf_base.specs.declared.values.Kind.TheVariants.{U8};

    ghost own_kind = { U8 };

    ghost integer = { λ x. pos x };

    ghost number_law = { λ h. Prim.absurd Prim.cc };

    ghost bounds_law = { λ h. Prim.absurd Prim.cc };

    ghost integer_law = { λ x. refl };

    ghost fits_law = { λ z h. Prim.search rules };

    #[inline(always)]
    fn value(self) -> Value<'static> {
        Value::U8(self)
    }

    #[inline(always)]
    fn from_value(value: Value<'_>) -> Option<u8> {
        match value {
            Value::U8(number) => Some(number),
            _ => None,
        }
    }
}

impl ScanInt for u16 {
    ghost use Rattle.std.proofs.Common.{rules};
    ghost use Rattle.std.specs.Prelude.{pos, refl};
    ghost use Rattle.sf_base.specs.declared.values.Kind.TheVariants.{U16};

    ghost own_kind = { U16 };

    ghost integer = { λ x. pos x };

    ghost number_law = { λ h. Prim.absurd Prim.cc };

    ghost bounds_law = { λ h. Prim.absurd Prim.cc };

    ghost integer_law = { λ x. refl };

    ghost fits_law = { λ z h. Prim.search rules };

    #[inline(always)]
    fn value(self) -> Value<'static> {
        Value::U16(self)
    }

    #[inline(always)]
    fn from_value(value: Value<'_>) -> Option<u16> {
        match value {
            Value::U16(number) => Some(number),
            _ => None,
        }
    }
}

impl ScanInt for u32 {
    ghost use Rattle.std.proofs.Common.{rules};
    ghost use Rattle.std.specs.Prelude.{pos, refl};
    ghost use Rattle.sf_base.specs.declared.values.Kind.TheVariants.{U32};

    ghost own_kind = { U32 };

    ghost integer = { λ x. pos x };

    ghost number_law = { λ h. Prim.absurd Prim.cc };

    ghost bounds_law = { λ h. Prim.absurd Prim.cc };

    ghost integer_law = { λ x. refl };

    ghost fits_law = { λ z h. Prim.search rules };

    #[inline(always)]
    fn value(self) -> Value<'static> {
        Value::U32(self)
    }

    #[inline(always)]
    fn from_value(value: Value<'_>) -> Option<u32> {
        match value {
            Value::U32(number) => Some(number),
            _ => None,
        }
    }
}

impl ScanInt for u64 {
    ghost use Rattle.std.proofs.Common.{rules};
    ghost use Rattle.std.specs.Prelude.{pos, refl};
    ghost use Rattle.sf_base.specs.declared.values.Kind.TheVariants.{U64};

    ghost own_kind = { U64 };

    ghost integer = { λ x. pos x };

    ghost number_law = { λ h. Prim.absurd Prim.cc };

    ghost bounds_law = { λ h. Prim.absurd Prim.cc };

    ghost integer_law = { λ x. refl };

    ghost fits_law = { λ z h. Prim.search rules };

    #[inline(always)]
    fn value(self) -> Value<'static> {
        Value::U64(self)
    }

    #[inline(always)]
    fn from_value(value: Value<'_>) -> Option<u64> {
        match value {
            Value::U64(number) => Some(number),
            _ => None,
        }
    }
}
