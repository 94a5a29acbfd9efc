//! What one slot of a row holds.
ghost use Rattle.std.specs.Prelude.{◌≡◌, ◌≤◌, ◌<◌, Bool, Option, map, IfOk, IfSome, IsErr, Some};
ghost use Rattle.std.specs.Option.{option_map};
ghost use Rattle.sf_base.specs.declared.values.Kind.{Kind};
ghost use Rattle.sf_base.specs.declared.values.Kind.TheVariants.{Text};
ghost use Rattle.sf_base.specs.Data.{Datum, datum_at, datum_of};
ghost use Rattle.sf_report.specs.Rows.{IsReadable};
ghost use Rattle.sf_read.specs.field.Rows.{IsGivenAs};

use crate::field::rows::RowFault;
use sf_base::{Kind, Store, Value};
use sf_report::Report;
use std::alloc::{AllocError, Global};

/// A type that a slot of a row may have: one of the eight integers, `f32` or `f64`, or a text of bytes that is the
/// row's own; or an `Option` of one of these, for a slot that may be left without a value. Each type has its own impl:
/// beside one for all of `ScanInt` a caller's proof can't tell which of the two `Vec<u8>` has.
pub trait Field: Sized + Drop {
    // The kind of the slot.
    ghost own_kind: { Kind };

    // Whether the slot may be left without a value.
    ghost optional: { Bool };

    // What the slot was given, as a value without its Rust type.
    ghost given: { Self → Option Datum };

    /// The kind of the slot.
    fn kind() -> Kind
        ensures { result ≡ own_kind };

    /// Whether the slot may be left without a value.
    fn may_miss() -> bool
        ensures { result ≡ optional };

    /// What the slot was given, as this type. A value has to be of its kind, and of a NaN the one that a scan stores;
    /// only a slot that may be left without a value has none. Fails where memory for a text was refused.
    fn from_given(alloc: Global, value: Option<Value<'_>>) -> Result<Self, AllocError>
        requires kind { IsGivenAs optional (Some own_kind) (option_map datum_of value) }
        requires readable { IfSome (option_map datum_of value) IsReadable }
        ensures value { IfOk result (λ field. given field ≡ option_map datum_of value.entry) }
        ensures refused { IsErr result → own_kind ≡ Text };

    /// The field as a value, where it isn't missing.
    fn value(&self) -> Option<Value<'_>>
        ensures { option_map datum_of result ≡ given self.now };
}

impl Field for i8 {
    ghost use Rattle.std.specs.Prelude.{false, Some};
    ghost use Rattle.sf_base.specs.declared.values.Kind.TheVariants.{I8};
    ghost use Rattle.sf_base.specs.Data.Datum.{Number};

    ghost own_kind = { I8 };

    ghost optional = { false };

    ghost given = { λ n. Some (Number I8 n) };

    fn kind() -> Kind {
        Kind::I8
    }

    fn may_miss() -> bool {
        false
    }

    fn from_given(_alloc: Global, value: Option<Value<'_>>) -> Result<i8, AllocError> {
        let Some(Value::I8(n)) = value else {
            unreachable!();
        };
        Ok(n)
    }

    fn value(&self) -> Option<Value<'_>> {
        Some(Value::I8(*self))
    }
}

impl Field for i16 {
    ghost use Rattle.std.specs.Prelude.{false, Some};
    ghost use Rattle.sf_base.specs.declared.values.Kind.TheVariants.{I16};
    ghost use Rattle.sf_base.specs.Data.Datum.{Number};

    ghost own_kind = { I16 };

    ghost optional = { false };

    ghost given = { λ n. Some (Number I16 n) };

    fn kind() -> Kind {
        Kind::I16
    }

    fn may_miss() -> bool {
        false
    }

    fn from_given(_alloc: Global, value: Option<Value<'_>>) -> Result<i16, AllocError> {
        let Some(Value::I16(n)) = value else {
            unreachable!();
        };
        Ok(n)
    }

    fn value(&self) -> Option<Value<'_>> {
        Some(Value::I16(*self))
    }
}

impl Field for i32 {
    ghost use Rattle.std.specs.Prelude.{false, Some};
    ghost use Rattle.sf_base.specs.declared.values.Kind.TheVariants.{I32};
    ghost use Rattle.sf_base.specs.Data.Datum.{Number};

    ghost own_kind = { I32 };

    ghost optional = { false };

    ghost given = { λ n. Some (Number I32 n) };

    fn kind() -> Kind {
        Kind::I32
    }

    fn may_miss() -> bool {
        false
    }

    fn from_given(_alloc: Global, value: Option<Value<'_>>) -> Result<i32, AllocError> {
        let Some(Value::I32(n)) = value else {
            unreachable!();
        };
        Ok(n)
    }

    fn value(&self) -> Option<Value<'_>> {
        Some(Value::I32(*self))
    }
}

impl Field for i64 {
    ghost use Rattle.std.specs.Prelude.{false, Some};
    ghost use Rattle.sf_base.specs.declared.values.Kind.TheVariants.{I64};
    ghost use Rattle.sf_base.specs.Data.Datum.{Number};

    ghost own_kind = { I64 };

    ghost optional = { false };

    ghost given = { λ n. Some (Number I64 n) };

    fn kind() -> Kind {
        Kind::I64
    }

    fn may_miss() -> bool {
        false
    }

    fn from_given(_alloc: Global, value: Option<Value<'_>>) -> Result<i64, AllocError> {
        let Some(Value::I64(n)) = value else {
            unreachable!();
        };
        Ok(n)
    }

    fn value(&self) -> Option<Value<'_>> {
        Some(Value::I64(*self))
    }
}

impl Field for u8 {
    ghost use Rattle.std.specs.Prelude.{false, pos, Some};
    ghost use Rattle.sf_base.specs.declared.values.Kind.TheVariants.{U8};
    ghost use Rattle.sf_base.specs.Data.Datum.{Number};

    ghost own_kind = { U8 };

    ghost optional = { false };

    ghost given = { λ n. Some (Number U8 (pos n)) };

    fn kind() -> Kind {
        Kind::U8
    }

    fn may_miss() -> bool {
        false
    }

    fn from_given(_alloc: Global, value: Option<Value<'_>>) -> Result<u8, AllocError> {
        let Some(Value::U8(n)) = value else {
            unreachable!();
        };
        Ok(n)
    }

    fn value(&self) -> Option<Value<'_>> {
        Some(Value::U8(*self))
    }
}

impl Field for u16 {
    ghost use Rattle.std.specs.Prelude.{false, pos, Some};
    ghost use Rattle.sf_base.specs.declared.values.Kind.TheVariants.{U16};
    ghost use Rattle.sf_base.specs.Data.Datum.{Number};

    ghost own_kind = { U16 };

    ghost optional = { false };

    ghost given = { λ n. Some (Number U16 (pos n)) };

    fn kind() -> Kind {
        Kind::U16
    }

    fn may_miss() -> bool {
        false
    }

    fn from_given(_alloc: Global, value: Option<Value<'_>>) -> Result<u16, AllocError> {
        let Some(Value::U16(n)) = value else {
            unreachable!();
        };
        Ok(n)
    }

    fn value(&self) -> Option<Value<'_>> {
        Some(Value::U16(*self))
    }
}

impl Field for u32 {
    ghost use Rattle.std.specs.Prelude.{false, pos, Some};
    ghost use Rattle.sf_base.specs.declared.values.Kind.TheVariants.{U32};
    ghost use Rattle.sf_base.specs.Data.Datum.{Number};

    ghost own_kind = { U32 };

    ghost optional = { false };

    ghost given = { λ n. Some (Number U32 (pos n)) };

    fn kind() -> Kind {
        Kind::U32
    }

    fn may_miss() -> bool {
        false
    }

    fn from_given(_alloc: Global, value: Option<Value<'_>>) -> Result<u32, AllocError> {
        let Some(Value::U32(n)) = value else {
            unreachable!();
        };
        Ok(n)
    }

    fn value(&self) -> Option<Value<'_>> {
        Some(Value::U32(*self))
    }
}

impl Field for u64 {
    ghost use Rattle.std.specs.Prelude.{false, pos, Some};
    ghost use Rattle.sf_base.specs.declared.values.Kind.TheVariants.{U64};
    ghost use Rattle.sf_base.specs.Data.Datum.{Number};

    ghost own_kind = { U64 };

    ghost optional = { false };

    ghost given = { λ n. Some (Number U64 (pos n)) };

    fn kind() -> Kind {
        Kind::U64
    }

    fn may_miss() -> bool {
        false
    }

    fn from_given(_alloc: Global, value: Option<Value<'_>>) -> Result<u64, AllocError> {
        let Some(Value::U64(n)) = value else {
            unreachable!();
        };
        Ok(n)
    }

    fn value(&self) -> Option<Value<'_>> {
        Some(Value::U64(*self))
    }
}

impl Field for f32 {
    ghost use Rattle.std.specs.Prelude.{false, to_bits, Some};
    ghost use Rattle.std.specs.Float.{binary32};
    ghost use Rattle.sf_base.specs.declared.real.Real.TheVariants as reals;
    ghost use Rattle.sf_base.specs.declared.values.Kind.TheVariants.{F32};
    ghost use Rattle.sf_base.specs.Data.Datum.{Real};

    ghost own_kind = { F32 };

    ghost optional = { false };

    ghost given = { λ x. Some (Real (reals.F32 (to_bits binary32 x))) };

    fn kind() -> Kind {
        Kind::F32
    }

    fn may_miss() -> bool {
        false
    }

    fn from_given(_alloc: Global, value: Option<Value<'_>>) -> Result<f32, AllocError> {
        let Some(there) = value else {
            unreachable!();
        };
        let Some(x) = there.f32() else {
            unreachable!();
        };
        Ok(x)
    }

    fn value(&self) -> Option<Value<'_>> {
        Some(Value::of_f32(*self))
    }
}

impl Field for f64 {
    ghost use Rattle.std.specs.Prelude.{false, to_bits, Some};
    ghost use Rattle.std.specs.Float.{binary64};
    ghost use Rattle.sf_base.specs.declared.real.Real.TheVariants as reals;
    ghost use Rattle.sf_base.specs.declared.values.Kind.TheVariants.{F64};
    ghost use Rattle.sf_base.specs.Data.Datum.{Real};

    ghost own_kind = { F64 };

    ghost optional = { false };

    ghost given = { λ x. Some (Real (reals.F64 (to_bits binary64 x))) };

    fn kind() -> Kind {
        Kind::F64
    }

    fn may_miss() -> bool {
        false
    }

    fn from_given(_alloc: Global, value: Option<Value<'_>>) -> Result<f64, AllocError> {
        let Some(there) = value else {
            unreachable!();
        };
        let Some(x) = there.f64() else {
            unreachable!();
        };
        Ok(x)
    }

    fn value(&self) -> Option<Value<'_>> {
        Some(Value::of_f64(*self))
    }
}

impl Field for Vec<u8> {
    ghost use Rattle.std.specs.Prelude.{false, Some};
    ghost use Rattle.sf_base.specs.declared.values.Kind.TheVariants.{Text};
    ghost use Rattle.sf_base.specs.Data.Datum.{Bytes};

    ghost own_kind = { Text };

    ghost optional = { false };

    ghost given = { λ text. Some (Bytes text.items) };

    fn kind() -> Kind {
        Kind::Text
    }

    fn may_miss() -> bool {
        false
    }

    fn from_given(alloc: Global, value: Option<Value<'_>>) -> Result<Vec<u8>, AllocError> {
        let Some(Value::Text(bytes)) = value else {
            unreachable!();
        };
        let mut text = Vec::new(alloc);
        text.extend_from_slice(bytes)?;
        Ok(text)
    }

    fn value(&self) -> Option<Value<'_>> {
        Some(Value::Text(self))
    }
}

/// `None` where the slot was given nothing.
impl<T: Field> Field for Option<T> {
    ghost use Rattle.std.specs.Prelude.{true, Some, None};

    ghost own_kind = { T.own_kind };

    ghost optional = { true };

    ghost given = { λ field. elim field [ None ↦ None | Some there ↦ T.given there ] };

    fn kind() -> Kind {
        T::kind()
    }

    fn may_miss() -> bool {
        true
    }

    fn from_given(alloc: Global, value: Option<Value<'_>>) -> Result<Option<T>, AllocError> {
        if value.is_none() {
            return Ok(None);
        }
        let there = T::from_given(alloc, value)?;
        Ok(Some(there))
    }

    fn value(&self) -> Option<Value<'_>> {
        match self {
            Some(there) => there.value(),
            None => None,
        }
    }
}

/// The field of a slot, by what that was given.
#[inline(always)]
pub(crate) fn taken_from<T: Field, S: Store>(
    alloc: Global,
    report: &Report<'_, S>,
    slot: u8,
) -> Result<T, RowFault>
    requires kind { IsGivenAs T.optional (Some T.own_kind) (datum_at slot report.now.values) }
    requires readable { IfSome (datum_at slot report.now.values) IsReadable }
    ensures value { IfOk result (λ field. T.given field ≡ datum_at slot report.now.values) }
    ensures refused { IsErr result → T.own_kind ≡ Text }
{
    T::from_given(alloc, report.value(slot)).map_err(|_| RowFault::NoMemory)
}
