//! Tuples of one to six fields are rows.
ghost use Rattle.std.specs.Prelude.{◌≡◌, ◌<◌, ◌≤◌, ◌+◌, ◌++◌, ◌∷◌, [], length, map};
ghost use Rattle.std.specs.Option.{option_map};
ghost use Rattle.sf_base.specs.Data.{datum_of};
ghost use Rattle.sf_read.specs.field.Rows.{present};

use crate::field::field::{Field, taken_from};
use crate::field::rows::{GivenRow, Row, RowFault};
use arrayvec::ArrayVec;
use sf_base::{Kind, Store, Value};
use sf_report::Report;
use std::alloc::Global;

/// Appends a value that is there.
#[inline(always)]
pub(crate) fn push_present<'r>(values: &mut ArrayVec<Value<'r>, 32>, given: Option<Value<'r>>)
    requires { length values.old.items < 32 }
    ensures there { map datum_of values.new.items
        ≡ map datum_of values.old.items ++ present (option_map datum_of given.entry ∷ []) }
    ensures room { length values.new.items ≤ length values.old.items + 1 }
{
    if let Some(value) = given {
        values.push(value);
    }
}

impl<A: Field> Row for (A,) {
    ghost use Rattle.std.specs.Prelude.{[], ◌∷◌};
    ghost use Rattle.sf_read.specs.field.Rows.{is_at, present};

    ghost kinds = { A.own_kind ∷ [] };

    ghost optional = { is_at (A.optional ∷ []) };

    ghost listed = { λ row. present (A.given row.0 ∷ []) };

    ghost given = { λ row values. A.given row.0 ∷ [] };

    fn slots() -> u8 {
        1
    }

    fn shape(slot: u8) -> Option<Kind> {
        match slot {
            1 => Some(A::kind()),
            _ => None,
        }
    }

    fn may_miss(slot: u8) -> bool {
        match slot {
            1 => A::may_miss(),
            _ => false,
        }
    }

    fn from_report<S: Store>(alloc: Global, report: &Report<'_, S>) -> Result<Self, RowFault> {
        let a = taken_from::<A, S>(alloc, report, 1)?;
        Ok((a,))
    }

    fn with_values(&self) -> ArrayVec<Value<'_>, 32> {
        let mut values = ArrayVec::new();
        push_present(&mut values, self.0.value());
        values
    }
}

impl<A: Field> GivenRow for (A,) {
    fn with_given(&self) -> ArrayVec<Option<Value<'_>>, 32> {
        let mut given = ArrayVec::new();
        given.push(self.0.value());
        given
    }
}

impl<A: Field, B: Field> Row for (A, B) {
    ghost use Rattle.std.specs.Prelude.{[], ◌∷◌};
    ghost use Rattle.sf_read.specs.field.Rows.{is_at, present};

    ghost kinds = { A.own_kind ∷ B.own_kind ∷ [] };

    ghost optional = { is_at (A.optional ∷ B.optional ∷ []) };

    ghost listed = { λ row. present (A.given row.0 ∷ B.given row.1 ∷ []) };

    ghost given = { λ row values. A.given row.0 ∷ B.given row.1 ∷ [] };

    fn slots() -> u8 {
        2
    }

    fn shape(slot: u8) -> Option<Kind> {
        match slot {
            1 => Some(A::kind()),
            2 => Some(B::kind()),
            _ => None,
        }
    }

    fn may_miss(slot: u8) -> bool {
        match slot {
            1 => A::may_miss(),
            2 => B::may_miss(),
            _ => false,
        }
    }

    fn from_report<S: Store>(alloc: Global, report: &Report<'_, S>) -> Result<Self, RowFault> {
        let a = taken_from::<A, S>(alloc, report, 1)?;
        let b = taken_from::<B, S>(alloc, report, 2)?;
        Ok((a, b))
    }

    fn with_values(&self) -> ArrayVec<Value<'_>, 32> {
        let mut values = ArrayVec::new();
        push_present(&mut values, self.0.value());
        push_present(&mut values, self.1.value());
        values
    }
}

impl<A: Field, B: Field> GivenRow for (A, B) {
    fn with_given(&self) -> ArrayVec<Option<Value<'_>>, 32> {
        let mut given = ArrayVec::new();
        given.push(self.0.value());
        given.push(self.1.value());
        given
    }
}

impl<A: Field, B: Field, C: Field> Row for (A, B, C) {
    ghost use Rattle.std.specs.Prelude.{[], ◌∷◌};
    ghost use Rattle.sf_read.specs.field.Rows.{is_at, present};

    ghost kinds = { A.own_kind ∷ B.own_kind ∷ C.own_kind ∷ [] };

    ghost optional = { is_at (A.optional ∷ B.optional ∷ C.optional ∷ []) };

    ghost listed = { λ row. present (A.given row.0 ∷ B.given row.1 ∷ C.given row.2 ∷ []) };

    ghost given = { λ row values. A.given row.0 ∷ B.given row.1 ∷ C.given row.2 ∷ [] };

    fn slots() -> u8 {
        3
    }

    fn shape(slot: u8) -> Option<Kind> {
        match slot {
            1 => Some(A::kind()),
            2 => Some(B::kind()),
            3 => Some(C::kind()),
            _ => None,
        }
    }

    fn may_miss(slot: u8) -> bool {
        match slot {
            1 => A::may_miss(),
            2 => B::may_miss(),
            3 => C::may_miss(),
            _ => false,
        }
    }

    fn from_report<S: Store>(alloc: Global, report: &Report<'_, S>) -> Result<Self, RowFault> {
        let a = taken_from::<A, S>(alloc, report, 1)?;
        let b = taken_from::<B, S>(alloc, report, 2)?;
        let c = taken_from::<C, S>(alloc, report, 3)?;
        Ok((a, b, c))
    }

    fn with_values(&self) -> ArrayVec<Value<'_>, 32> {
        let mut values = ArrayVec::new();
        push_present(&mut values, self.0.value());
        push_present(&mut values, self.1.value());
        push_present(&mut values, self.2.value());
        values
    }
}

impl<A: Field, B: Field, C: Field> GivenRow for (A, B, C) {
    fn with_given(&self) -> ArrayVec<Option<Value<'_>>, 32> {
        let mut given = ArrayVec::new();
        given.push(self.0.value());
        given.push(self.1.value());
        given.push(self.2.value());
        given
    }
}

impl<A: Field, B: Field, C: Field, D: Field> Row for (A, B, C, D) {
    ghost use Rattle.std.specs.Prelude.{[], ◌∷◌};
    ghost use Rattle.sf_read.specs.field.Rows.{is_at, present};

    ghost kinds = { A.own_kind ∷ B.own_kind ∷ C.own_kind ∷ D.own_kind ∷ [] };

    ghost optional = { is_at (A.optional ∷ B.optional ∷ C.optional ∷ D.optional ∷ []) };

    ghost listed = { λ row. present (A.given row.0 ∷ B.given row.1 ∷ C.given row.2 ∷ D.given row.3 ∷ []) };

    ghost given = { λ row values. A.given row.0 ∷ B.given row.1 ∷ C.given row.2 ∷ D.given row.3 ∷ [] };

    fn slots() -> u8 {
        4
    }

    fn shape(slot: u8) -> Option<Kind> {
        match slot {
            1 => Some(A::kind()),
            2 => Some(B::kind()),
            3 => Some(C::kind()),
            4 => Some(D::kind()),
            _ => None,
        }
    }

    fn may_miss(slot: u8) -> bool {
        match slot {
            1 => A::may_miss(),
            2 => B::may_miss(),
            3 => C::may_miss(),
            4 => D::may_miss(),
            _ => false,
        }
    }

    fn from_report<S: Store>(alloc: Global, report: &Report<'_, S>) -> Result<Self, RowFault> {
        let a = taken_from::<A, S>(alloc, report, 1)?;
        let b = taken_from::<B, S>(alloc, report, 2)?;
        let c = taken_from::<C, S>(alloc, report, 3)?;
        let d = taken_from::<D, S>(alloc, report, 4)?;
        Ok((a, b, c, d))
    }

    fn with_values(&self) -> ArrayVec<Value<'_>, 32> {
        let mut values = ArrayVec::new();
        push_present(&mut values, self.0.value());
        push_present(&mut values, self.1.value());
        push_present(&mut values, self.2.value());
        push_present(&mut values, self.3.value());
        values
    }
}

impl<A: Field, B: Field, C: Field, D: Field> GivenRow for (A, B, C, D) {
    fn with_given(&self) -> ArrayVec<Option<Value<'_>>, 32> {
        let mut given = ArrayVec::new();
        given.push(self.0.value());
        given.push(self.1.value());
        given.push(self.2.value());
        given.push(self.3.value());
        given
    }
}

impl<A: Field, B: Field, C: Field, D: Field, E: Field> Row for (A, B, C, D, E) {
    ghost use Rattle.std.specs.Prelude.{[], ◌∷◌};
    ghost use Rattle.sf_read.specs.field.Rows.{is_at, present};

    ghost kinds = { A.own_kind ∷ B.own_kind ∷ C.own_kind ∷ D.own_kind ∷ E.own_kind ∷ [] };

    ghost optional = { is_at (A.optional ∷ B.optional ∷ C.optional ∷ D.optional ∷ E.optional ∷ []) };

    ghost listed = { λ row. present (A.given row.0 ∷ B.given row.1 ∷ C.given row.2 ∷ D.given row.3
        ∷ E.given row.4 ∷ []) };

    ghost given = { λ row values. A.given row.0 ∷ B.given row.1 ∷ C.given row.2 ∷ D.given row.3 ∷ E.given row.4 ∷ [] };

    fn slots() -> u8 {
        5
    }

    fn shape(slot: u8) -> Option<Kind> {
        match slot {
            1 => Some(A::kind()),
            2 => Some(B::kind()),
            3 => Some(C::kind()),
            4 => Some(D::kind()),
            5 => Some(E::kind()),
            _ => None,
        }
    }

    fn may_miss(slot: u8) -> bool {
        match slot {
            1 => A::may_miss(),
            2 => B::may_miss(),
            3 => C::may_miss(),
            4 => D::may_miss(),
            5 => E::may_miss(),
            _ => false,
        }
    }

    fn from_report<S: Store>(alloc: Global, report: &Report<'_, S>) -> Result<Self, RowFault> {
        let a = taken_from::<A, S>(alloc, report, 1)?;
        let b = taken_from::<B, S>(alloc, report, 2)?;
        let c = taken_from::<C, S>(alloc, report, 3)?;
        let d = taken_from::<D, S>(alloc, report, 4)?;
        let e = taken_from::<E, S>(alloc, report, 5)?;
        Ok((a, b, c, d, e))
    }

    fn with_values(&self) -> ArrayVec<Value<'_>, 32> {
        let mut values = ArrayVec::new();
        push_present(&mut values, self.0.value());
        push_present(&mut values, self.1.value());
        push_present(&mut values, self.2.value());
        push_present(&mut values, self.3.value());
        push_present(&mut values, self.4.value());
        values
    }
}

impl<A: Field, B: Field, C: Field, D: Field, E: Field> GivenRow for (A, B, C, D, E) {
    fn with_given(&self) -> ArrayVec<Option<Value<'_>>, 32> {
        let mut given = ArrayVec::new();
        given.push(self.0.value());
        given.push(self.1.value());
        given.push(self.2.value());
        given.push(self.3.value());
        given.push(self.4.value());
        given
    }
}

impl<A: Field, B: Field, C: Field, D: Field, E: Field, F: Field> Row for (A, B, C, D, E, F) {
    ghost use Rattle.std.specs.Prelude.{[], ◌∷◌};
    ghost use Rattle.sf_read.specs.field.Rows.{is_at, present};

    ghost kinds = { A.own_kind ∷ B.own_kind ∷ C.own_kind ∷ D.own_kind ∷ E.own_kind ∷ F.own_kind ∷ [] };

    ghost optional = { is_at (A.optional ∷ B.optional ∷ C.optional ∷ D.optional ∷ E.optional ∷ F.optional ∷ []) };

    ghost listed = { λ row. present (A.given row.0 ∷ B.given row.1 ∷ C.given row.2 ∷ D.given row.3 ∷ E.given row.4 ∷
        F.given row.5 ∷ []) };

    ghost given = { λ row values. A.given row.0 ∷ B.given row.1 ∷ C.given row.2 ∷ D.given row.3 ∷ E.given row.4 ∷
        F.given row.5 ∷ [] };

    fn slots() -> u8 {
        6
    }

    fn shape(slot: u8) -> Option<Kind> {
        match slot {
            1 => Some(A::kind()),
            2 => Some(B::kind()),
            3 => Some(C::kind()),
            4 => Some(D::kind()),
            5 => Some(E::kind()),
            6 => Some(F::kind()),
            _ => None,
        }
    }

    fn may_miss(slot: u8) -> bool {
        match slot {
            1 => A::may_miss(),
            2 => B::may_miss(),
            3 => C::may_miss(),
            4 => D::may_miss(),
            5 => E::may_miss(),
            6 => F::may_miss(),
            _ => false,
        }
    }

    fn from_report<S: Store>(alloc: Global, report: &Report<'_, S>) -> Result<Self, RowFault> {
        let a = taken_from::<A, S>(alloc, report, 1)?;
        let b = taken_from::<B, S>(alloc, report, 2)?;
        let c = taken_from::<C, S>(alloc, report, 3)?;
        let d = taken_from::<D, S>(alloc, report, 4)?;
        let e = taken_from::<E, S>(alloc, report, 5)?;
        let f = taken_from::<F, S>(alloc, report, 6)?;
        Ok((a, b, c, d, e, f))
    }

    fn with_values(&self) -> ArrayVec<Value<'_>, 32> {
        let mut values = ArrayVec::new();
        push_present(&mut values, self.0.value());
        push_present(&mut values, self.1.value());
        push_present(&mut values, self.2.value());
        push_present(&mut values, self.3.value());
        push_present(&mut values, self.4.value());
        push_present(&mut values, self.5.value());
        values
    }
}

impl<A: Field, B: Field, C: Field, D: Field, E: Field, F: Field> GivenRow for (A, B, C, D, E, F) {
    fn with_given(&self) -> ArrayVec<Option<Value<'_>>, 32> {
        let mut given = ArrayVec::new();
        given.push(self.0.value());
        given.push(self.1.value());
        given.push(self.2.value());
        given.push(self.3.value());
        given.push(self.4.value());
        given.push(self.5.value());
        given
    }
}
