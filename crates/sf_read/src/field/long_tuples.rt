//! Tuples of seven to twelve fields are rows.
use crate::field::field::{Field, taken_from};
use crate::field::rows::{GivenRow, Row, RowFault};
use crate::field::tuples::push_present;
use arrayvec::ArrayVec;
use sf_base::{Kind, Store, Value};
use sf_report::Report;
use std::alloc::Global;

impl<A: Field, B: Field, C: Field, D: Field, E: Field, F: Field, G: Field> Row
    for (A, B, C, D, E, F, G) {
    ghost use Rattle.std.specs.Prelude.{[], ◌∷◌};
    ghost use Rattle.sf_read.specs.field.Rows.{is_at, present};

    ghost kinds = { A.own_kind ∷ B.own_kind ∷ C.own_kind ∷ D.own_kind ∷ E.own_kind ∷ F.own_kind ∷ G.own_kind ∷ [] };

    ghost optional = { is_at (A.optional ∷ B.optional ∷ C.optional ∷ D.optional ∷ E.optional ∷ F.optional ∷
        G.optional ∷ []) };

    ghost listed = { λ row. present (A.given row.0 ∷ B.given row.1 ∷ C.given row.2 ∷ D.given row.3 ∷ E.given row.4 ∷
        F.given row.5 ∷ G.given row.6 ∷ []) };

    ghost given = { λ row values. A.given row.0 ∷ B.given row.1 ∷ C.given row.2 ∷ D.given row.3 ∷ E.given row.4 ∷
        F.given row.5 ∷ G.given row.6 ∷ [] };

    fn slots() -> u8 {
        7
    }

    fn shape(slot: u8) -> Option<Kind> {
        match slot {
            1 => Some(A::kind()),
            2 => Some(B::kind()),
            3 => Some(C::kind()),
            4 => Some(D::kind()),
            5 => Some(E::kind()),
            6 => Some(F::kind()),
            7 => Some(G::kind()),
            _ => None,
        }
    }

    fn may_miss(slot: u8) -> bool {
        match slot {
            1 => A::may_miss(),
            2 => B::may_miss(),
            3 => C::may_miss(),
            4 => D::may_miss(),
            5 => E::may_miss(),
            6 => F::may_miss(),
            7 => G::may_miss(),
            _ => false,
        }
    }

    fn from_report<S: Store>(alloc: Global, report: &Report<'_, S>) -> Result<Self, RowFault> {
        let a = taken_from::<A, S>(alloc, report, 1)?;
        let b = taken_from::<B, S>(alloc, report, 2)?;
        let c = taken_from::<C, S>(alloc, report, 3)?;
        let d = taken_from::<D, S>(alloc, report, 4)?;
        let e = taken_from::<E, S>(alloc, report, 5)?;
        let f = taken_from::<F, S>(alloc, report, 6)?;
        let g = taken_from::<G, S>(alloc, report, 7)?;
        Ok((a, b, c, d, e, f, g))
    }

    fn with_values(&self) -> ArrayVec<Value<'_>, 32> {
        let mut values = ArrayVec::new();
        push_present(&mut values, self.0.value());
        push_present(&mut values, self.1.value());
        push_present(&mut values, self.2.value());
        push_present(&mut values, self.3.value());
        push_present(&mut values, self.4.value());
        push_present(&mut values, self.5.value());
        push_present(&mut values, self.6.value());
        values
    }
}

impl<A: Field, B: Field, C: Field, D: Field, E: Field, F: Field, G: Field> GivenRow
    for (A, B, C, D, E, F, G) {
    fn with_given(&self) -> ArrayVec<Option<Value<'_>>, 32> {
        let mut given = ArrayVec::new();
        given.push(self.0.value());
        given.push(self.1.value());
        given.push(self.2.value());
        given.push(self.3.value());
        given.push(self.4.value());
        given.push(self.5.value());
        given.push(self.6.value());
        given
    }
}

impl<A: Field, B: Field, C: Field, D: Field, E: Field, F: Field, G: Field, H: Field> Row
    for (A, B, C, D, E, F, G, H) {
    ghost use Rattle.std.specs.Prelude.{[], ◌∷◌};
    ghost use Rattle.sf_read.specs.field.Rows.{is_at, present};

    ghost kinds = { A.own_kind ∷ B.own_kind ∷ C.own_kind ∷ D.own_kind ∷ E.own_kind ∷ F.own_kind ∷ G.own_kind ∷
        H.own_kind ∷ [] };

    ghost optional = { is_at (A.optional ∷ B.optional ∷ C.optional ∷ D.optional ∷ E.optional ∷ F.optional ∷
        G.optional ∷ H.optional ∷ []) };

    ghost listed = { λ row. present (A.given row.0 ∷ B.given row.1 ∷ C.given row.2 ∷ D.given row.3 ∷ E.given row.4 ∷
        F.given row.5 ∷ G.given row.6 ∷ H.given row.7 ∷ []) };

    ghost given = { λ row values. A.given row.0 ∷ B.given row.1 ∷ C.given row.2 ∷ D.given row.3 ∷ E.given row.4 ∷
        F.given row.5 ∷ G.given row.6 ∷ H.given row.7 ∷ [] };

    fn slots() -> u8 {
        8
    }

    fn shape(slot: u8) -> Option<Kind> {
        match slot {
            1 => Some(A::kind()),
            2 => Some(B::kind()),
            3 => Some(C::kind()),
            4 => Some(D::kind()),
            5 => Some(E::kind()),
            6 => Some(F::kind()),
            7 => Some(G::kind()),
            8 => Some(H::kind()),
            _ => None,
        }
    }

    fn may_miss(slot: u8) -> bool {
        match slot {
            1 => A::may_miss(),
            2 => B::may_miss(),
            3 => C::may_miss(),
            4 => D::may_miss(),
            5 => E::may_miss(),
            6 => F::may_miss(),
            7 => G::may_miss(),
            8 => H::may_miss(),
            _ => false,
        }
    }

    fn from_report<S: Store>(alloc: Global, report: &Report<'_, S>) -> Result<Self, RowFault> {
        let a = taken_from::<A, S>(alloc, report, 1)?;
        let b = taken_from::<B, S>(alloc, report, 2)?;
        let c = taken_from::<C, S>(alloc, report, 3)?;
        let d = taken_from::<D, S>(alloc, report, 4)?;
        let e = taken_from::<E, S>(alloc, report, 5)?;
        let f = taken_from::<F, S>(alloc, report, 6)?;
        let g = taken_from::<G, S>(alloc, report, 7)?;
        let h = taken_from::<H, S>(alloc, report, 8)?;
        Ok((a, b, c, d, e, f, g, h))
    }

    fn with_values(&self) -> ArrayVec<Value<'_>, 32> {
        let mut values = ArrayVec::new();
        push_present(&mut values, self.0.value());
        push_present(&mut values, self.1.value());
        push_present(&mut values, self.2.value());
        push_present(&mut values, self.3.value());
        push_present(&mut values, self.4.value());
        push_present(&mut values, self.5.value());
        push_present(&mut values, self.6.value());
        push_present(&mut values, self.7.value());
        values
    }
}

impl<A: Field, B: Field, C: Field, D: Field, E: Field, F: Field, G: Field, H: Field> GivenRow
    for (A, B, C, D, E, F, G, H) {
    fn with_given(&self) -> ArrayVec<Option<Value<'_>>, 32> {
        let mut given = ArrayVec::new();
        given.push(self.0.value());
        given.push(self.1.value());
        given.push(self.2.value());
        given.push(self.3.value());
        given.push(self.4.value());
        given.push(self.5.value());
        given.push(self.6.value());
        given.push(self.7.value());
        given
    }
}

impl<A: Field, B: Field, C: Field, D: Field, E: Field, F: Field, G: Field, H: Field, I: Field> Row
    for (A, B, C, D, E, F, G, H, I) {
    ghost use Rattle.std.specs.Prelude.{[], ◌∷◌};
    ghost use Rattle.sf_read.specs.field.Rows.{is_at, present};

    ghost kinds = { A.own_kind ∷ B.own_kind ∷ C.own_kind ∷ D.own_kind ∷ E.own_kind ∷ F.own_kind ∷ G.own_kind ∷
        H.own_kind ∷ I.own_kind ∷ [] };

    ghost optional = { is_at (A.optional ∷ B.optional ∷ C.optional ∷ D.optional ∷ E.optional ∷ F.optional ∷
        G.optional ∷ H.optional ∷ I.optional ∷ []) };

    ghost listed = { λ row. present (A.given row.0 ∷ B.given row.1 ∷ C.given row.2 ∷ D.given row.3 ∷ E.given row.4 ∷
        F.given row.5 ∷ G.given row.6 ∷ H.given row.7 ∷ I.given row.8 ∷ []) };

    ghost given = { λ row values. A.given row.0 ∷ B.given row.1 ∷ C.given row.2 ∷ D.given row.3 ∷ E.given row.4 ∷
        F.given row.5 ∷ G.given row.6 ∷ H.given row.7 ∷ I.given row.8 ∷ [] };

    fn slots() -> u8 {
        9
    }

    fn shape(slot: u8) -> Option<Kind> {
        match slot {
            1 => Some(A::kind()),
            2 => Some(B::kind()),
            3 => Some(C::kind()),
            4 => Some(D::kind()),
            5 => Some(E::kind()),
            6 => Some(F::kind()),
            7 => Some(G::kind()),
            8 => Some(H::kind()),
            9 => Some(I::kind()),
            _ => None,
        }
    }

    fn may_miss(slot: u8) -> bool {
        match slot {
            1 => A::may_miss(),
            2 => B::may_miss(),
            3 => C::may_miss(),
            4 => D::may_miss(),
            5 => E::may_miss(),
            6 => F::may_miss(),
            7 => G::may_miss(),
            8 => H::may_miss(),
            9 => I::may_miss(),
            _ => false,
        }
    }

    fn from_report<S: Store>(alloc: Global, report: &Report<'_, S>) -> Result<Self, RowFault> {
        let a = taken_from::<A, S>(alloc, report, 1)?;
        let b = taken_from::<B, S>(alloc, report, 2)?;
        let c = taken_from::<C, S>(alloc, report, 3)?;
        let d = taken_from::<D, S>(alloc, report, 4)?;
        let e = taken_from::<E, S>(alloc, report, 5)?;
        let f = taken_from::<F, S>(alloc, report, 6)?;
        let g = taken_from::<G, S>(alloc, report, 7)?;
        let h = taken_from::<H, S>(alloc, report, 8)?;
        let i = taken_from::<I, S>(alloc, report, 9)?;
        Ok((a, b, c, d, e, f, g, h, i))
    }

    fn with_values(&self) -> ArrayVec<Value<'_>, 32> {
        let mut values = ArrayVec::new();
        push_present(&mut values, self.0.value());
        push_present(&mut values, self.1.value());
        push_present(&mut values, self.2.value());
        push_present(&mut values, self.3.value());
        push_present(&mut values, self.4.value());
        push_present(&mut values, self.5.value());
        push_present(&mut values, self.6.value());
        push_present(&mut values, self.7.value());
        push_present(&mut values, self.8.value());
        values
    }
}

impl<
    A: Field,
    B: Field,
    C: Field,
    D: Field,
    E: Field,
    F: Field,
    G: Field,
    H: Field,
    I: Field,
> GivenRow for (A, B, C, D, E, F, G, H, I) {
    fn with_given(&self) -> ArrayVec<Option<Value<'_>>, 32> {
        let mut given = ArrayVec::new();
        given.push(self.0.value());
        given.push(self.1.value());
        given.push(self.2.value());
        given.push(self.3.value());
        given.push(self.4.value());
        given.push(self.5.value());
        given.push(self.6.value());
        given.push(self.7.value());
        given.push(self.8.value());
        given
    }
}

impl<
    A: Field,
    B: Field,
    C: Field,
    D: Field,
    E: Field,
    F: Field,
    G: Field,
    H: Field,
    I: Field,
    J: Field,
> Row for (A, B, C, D, E, F, G, H, I, J) {
    ghost use Rattle.std.specs.Prelude.{[], ◌∷◌};
    ghost use Rattle.sf_read.specs.field.Rows.{is_at, present};

    ghost kinds = { A.own_kind ∷ B.own_kind ∷ C.own_kind ∷ D.own_kind ∷ E.own_kind ∷ F.own_kind ∷ G.own_kind ∷
        H.own_kind ∷ I.own_kind ∷ J.own_kind ∷ [] };

    ghost optional = { is_at (A.optional ∷ B.optional ∷ C.optional ∷ D.optional ∷ E.optional ∷ F.optional ∷
        G.optional ∷ H.optional ∷ I.optional ∷ J.optional ∷ []) };

    ghost listed = { λ row. present (A.given row.0 ∷ B.given row.1 ∷ C.given row.2 ∷ D.given row.3 ∷ E.given row.4 ∷
        F.given row.5 ∷ G.given row.6 ∷ H.given row.7 ∷ I.given row.8 ∷ J.given row.9 ∷ []) };

    ghost given = { λ row values. A.given row.0 ∷ B.given row.1 ∷ C.given row.2 ∷ D.given row.3 ∷ E.given row.4 ∷
        F.given row.5 ∷ G.given row.6 ∷ H.given row.7 ∷ I.given row.8 ∷ J.given row.9 ∷ [] };

    fn slots() -> u8 {
        10
    }

    fn shape(slot: u8) -> Option<Kind> {
        match slot {
            1 => Some(A::kind()),
            2 => Some(B::kind()),
            3 => Some(C::kind()),
            4 => Some(D::kind()),
            5 => Some(E::kind()),
            6 => Some(F::kind()),
            7 => Some(G::kind()),
            8 => Some(H::kind()),
            9 => Some(I::kind()),
            10 => Some(J::kind()),
            _ => None,
        }
    }

    fn may_miss(slot: u8) -> bool {
        match slot {
            1 => A::may_miss(),
            2 => B::may_miss(),
            3 => C::may_miss(),
            4 => D::may_miss(),
            5 => E::may_miss(),
            6 => F::may_miss(),
            7 => G::may_miss(),
            8 => H::may_miss(),
            9 => I::may_miss(),
            10 => J::may_miss(),
            _ => false,
        }
    }

    fn from_report<S: Store>(alloc: Global, report: &Report<'_, S>) -> Result<Self, RowFault> {
        let a = taken_from::<A, S>(alloc, report, 1)?;
        let b = taken_from::<B, S>(alloc, report, 2)?;
        let c = taken_from::<C, S>(alloc, report, 3)?;
        let d = taken_from::<D, S>(alloc, report, 4)?;
        let e = taken_from::<E, S>(alloc, report, 5)?;
        let f = taken_from::<F, S>(alloc, report, 6)?;
        let g = taken_from::<G, S>(alloc, report, 7)?;
        let h = taken_from::<H, S>(alloc, report, 8)?;
        let i = taken_from::<I, S>(alloc, report, 9)?;
        let j = taken_from::<J, S>(alloc, report, 10)?;
        Ok((a, b, c, d, e, f, g, h, i, j))
    }

    fn with_values(&self) -> ArrayVec<Value<'_>, 32> {
        let mut values = ArrayVec::new();
        push_present(&mut values, self.0.value());
        push_present(&mut values, self.1.value());
        push_present(&mut values, self.2.value());
        push_present(&mut values, self.3.value());
        push_present(&mut values, self.4.value());
        push_present(&mut values, self.5.value());
        push_present(&mut values, self.6.value());
        push_present(&mut values, self.7.value());
        push_present(&mut values, self.8.value());
        push_present(&mut values, self.9.value());
        values
    }
}

impl<
    A: Field,
    B: Field,
    C: Field,
    D: Field,
    E: Field,
    F: Field,
    G: Field,
    H: Field,
    I: Field,
    J: Field,
> GivenRow for (A, B, C, D, E, F, G, H, I, J) {
    fn with_given(&self) -> ArrayVec<Option<Value<'_>>, 32> {
        let mut given = ArrayVec::new();
        given.push(self.0.value());
        given.push(self.1.value());
        given.push(self.2.value());
        given.push(self.3.value());
        given.push(self.4.value());
        given.push(self.5.value());
        given.push(self.6.value());
        given.push(self.7.value());
        given.push(self.8.value());
        given.push(self.9.value());
        given
    }
}

impl<
    A: Field,
    B: Field,
    C: Field,
    D: Field,
    E: Field,
    F: Field,
    G: Field,
    H: Field,
    I: Field,
    J: Field,
    K: Field,
> Row for (A, B, C, D, E, F, G, H, I, J, K) {
    ghost use Rattle.std.specs.Prelude.{[], ◌∷◌};
    ghost use Rattle.sf_read.specs.field.Rows.{is_at, present};

    ghost kinds = { A.own_kind ∷ B.own_kind ∷ C.own_kind ∷ D.own_kind ∷ E.own_kind ∷ F.own_kind ∷ G.own_kind ∷
        H.own_kind ∷ I.own_kind ∷ J.own_kind ∷ K.own_kind ∷ [] };

    ghost optional = { is_at (A.optional ∷ B.optional ∷ C.optional ∷ D.optional ∷ E.optional ∷ F.optional ∷
        G.optional ∷ H.optional ∷ I.optional ∷ J.optional ∷ K.optional ∷ []) };

    ghost listed = { λ row. present (A.given row.0 ∷ B.given row.1 ∷ C.given row.2 ∷ D.given row.3 ∷ E.given row.4 ∷
        F.given row.5 ∷ G.given row.6 ∷ H.given row.7 ∷ I.given row.8 ∷ J.given row.9 ∷ K.given row.10 ∷ []) };

    ghost given = { λ row values. A.given row.0 ∷ B.given row.1 ∷ C.given row.2 ∷ D.given row.3 ∷ E.given row.4 ∷
        F.given row.5 ∷ G.given row.6 ∷ H.given row.7 ∷ I.given row.8 ∷ J.given row.9 ∷ K.given row.10 ∷ [] };

    fn slots() -> u8 {
        11
    }

    fn shape(slot: u8) -> Option<Kind> {
        match slot {
            1 => Some(A::kind()),
            2 => Some(B::kind()),
            3 => Some(C::kind()),
            4 => Some(D::kind()),
            5 => Some(E::kind()),
            6 => Some(F::kind()),
            7 => Some(G::kind()),
            8 => Some(H::kind()),
            9 => Some(I::kind()),
            10 => Some(J::kind()),
            11 => Some(K::kind()),
            _ => None,
        }
    }

    fn may_miss(slot: u8) -> bool {
        match slot {
            1 => A::may_miss(),
            2 => B::may_miss(),
            3 => C::may_miss(),
            4 => D::may_miss(),
            5 => E::may_miss(),
            6 => F::may_miss(),
            7 => G::may_miss(),
            8 => H::may_miss(),
            9 => I::may_miss(),
            10 => J::may_miss(),
            11 => K::may_miss(),
            _ => false,
        }
    }

    fn from_report<S: Store>(alloc: Global, report: &Report<'_, S>) -> Result<Self, RowFault> {
        let a = taken_from::<A, S>(alloc, report, 1)?;
        let b = taken_from::<B, S>(alloc, report, 2)?;
        let c = taken_from::<C, S>(alloc, report, 3)?;
        let d = taken_from::<D, S>(alloc, report, 4)?;
        let e = taken_from::<E, S>(alloc, report, 5)?;
        let f = taken_from::<F, S>(alloc, report, 6)?;
        let g = taken_from::<G, S>(alloc, report, 7)?;
        let h = taken_from::<H, S>(alloc, report, 8)?;
        let i = taken_from::<I, S>(alloc, report, 9)?;
        let j = taken_from::<J, S>(alloc, report, 10)?;
        let k = taken_from::<K, S>(alloc, report, 11)?;
        Ok((a, b, c, d, e, f, g, h, i, j, k))
    }

    fn with_values(&self) -> ArrayVec<Value<'_>, 32> {
        let mut values = ArrayVec::new();
        push_present(&mut values, self.0.value());
        push_present(&mut values, self.1.value());
        push_present(&mut values, self.2.value());
        push_present(&mut values, self.3.value());
        push_present(&mut values, self.4.value());
        push_present(&mut values, self.5.value());
        push_present(&mut values, self.6.value());
        push_present(&mut values, self.7.value());
        push_present(&mut values, self.8.value());
        push_present(&mut values, self.9.value());
        push_present(&mut values, self.10.value());
        values
    }
}

impl<
    A: Field,
    B: Field,
    C: Field,
    D: Field,
    E: Field,
    F: Field,
    G: Field,
    H: Field,
    I: Field,
    J: Field,
    K: Field,
> GivenRow for (A, B, C, D, E, F, G, H, I, J, K) {
    fn with_given(&self) -> ArrayVec<Option<Value<'_>>, 32> {
        let mut given = ArrayVec::new();
        given.push(self.0.value());
        given.push(self.1.value());
        given.push(self.2.value());
        given.push(self.3.value());
        given.push(self.4.value());
        given.push(self.5.value());
        given.push(self.6.value());
        given.push(self.7.value());
        given.push(self.8.value());
        given.push(self.9.value());
        given.push(self.10.value());
        given
    }
}

impl<
    A: Field,
    B: Field,
    C: Field,
    D: Field,
    E: Field,
    F: Field,
    G: Field,
    H: Field,
    I: Field,
    J: Field,
    K: Field,
    L: Field,
> Row for (A, B, C, D, E, F, G, H, I, J, K, L) {
    ghost use Rattle.std.specs.Prelude.{[], ◌∷◌};
    ghost use Rattle.sf_read.specs.field.Rows.{is_at, present};

    ghost kinds = { A.own_kind ∷ B.own_kind ∷ C.own_kind ∷ D.own_kind ∷ E.own_kind ∷ F.own_kind ∷ G.own_kind ∷
        H.own_kind ∷ I.own_kind ∷ J.own_kind ∷ K.own_kind ∷ L.own_kind ∷ [] };

    ghost optional = { is_at (A.optional ∷ B.optional ∷ C.optional ∷ D.optional ∷ E.optional ∷ F.optional ∷
        G.optional ∷ H.optional ∷ I.optional ∷ J.optional ∷ K.optional ∷ L.optional ∷ []) };

    ghost listed = { λ row. present (A.given row.0 ∷ B.given row.1 ∷ C.given row.2 ∷ D.given row.3 ∷ E.given row.4 ∷
        F.given row.5 ∷ G.given row.6 ∷ H.given row.7 ∷ I.given row.8 ∷ J.given row.9 ∷ K.given row.10 ∷
        L.given row.11 ∷ []) };

    ghost given = { λ row values. A.given row.0 ∷ B.given row.1 ∷ C.given row.2 ∷ D.given row.3 ∷ E.given row.4 ∷
        F.given row.5 ∷ G.given row.6 ∷ H.given row.7 ∷ I.given row.8 ∷ J.given row.9 ∷ K.given row.10 ∷
        L.given row.11 ∷ [] };

    fn slots() -> u8 {
        12
    }

    fn shape(slot: u8) -> Option<Kind> {
        match slot {
            1 => Some(A::kind()),
            2 => Some(B::kind()),
            3 => Some(C::kind()),
            4 => Some(D::kind()),
            5 => Some(E::kind()),
            6 => Some(F::kind()),
            7 => Some(G::kind()),
            8 => Some(H::kind()),
            9 => Some(I::kind()),
            10 => Some(J::kind()),
            11 => Some(K::kind()),
            12 => Some(L::kind()),
            _ => None,
        }
    }

    fn may_miss(slot: u8) -> bool {
        match slot {
            1 => A::may_miss(),
            2 => B::may_miss(),
            3 => C::may_miss(),
            4 => D::may_miss(),
            5 => E::may_miss(),
            6 => F::may_miss(),
            7 => G::may_miss(),
            8 => H::may_miss(),
            9 => I::may_miss(),
            10 => J::may_miss(),
            11 => K::may_miss(),
            12 => L::may_miss(),
            _ => false,
        }
    }

    fn from_report<S: Store>(alloc: Global, report: &Report<'_, S>) -> Result<Self, RowFault> {
        let a = taken_from::<A, S>(alloc, report, 1)?;
        let b = taken_from::<B, S>(alloc, report, 2)?;
        let c = taken_from::<C, S>(alloc, report, 3)?;
        let d = taken_from::<D, S>(alloc, report, 4)?;
        let e = taken_from::<E, S>(alloc, report, 5)?;
        let f = taken_from::<F, S>(alloc, report, 6)?;
        let g = taken_from::<G, S>(alloc, report, 7)?;
        let h = taken_from::<H, S>(alloc, report, 8)?;
        let i = taken_from::<I, S>(alloc, report, 9)?;
        let j = taken_from::<J, S>(alloc, report, 10)?;
        let k = taken_from::<K, S>(alloc, report, 11)?;
        let l = taken_from::<L, S>(alloc, report, 12)?;
        Ok((a, b, c, d, e, f, g, h, i, j, k, l))
    }

    fn with_values(&self) -> ArrayVec<Value<'_>, 32> {
        let mut values = ArrayVec::new();
        push_present(&mut values, self.0.value());
        push_present(&mut values, self.1.value());
        push_present(&mut values, self.2.value());
        push_present(&mut values, self.3.value());
        push_present(&mut values, self.4.value());
        push_present(&mut values, self.5.value());
        push_present(&mut values, self.6.value());
        push_present(&mut values, self.7.value());
        push_present(&mut values, self.8.value());
        push_present(&mut values, self.9.value());
        push_present(&mut values, self.10.value());
        push_present(&mut values, self.11.value());
        values
    }
}

impl<
    A: Field,
    B: Field,
    C: Field,
    D: Field,
    E: Field,
    F: Field,
    G: Field,
    H: Field,
    I: Field,
    J: Field,
    K: Field,
    L: Field,
> GivenRow for (A, B, C, D, E, F, G, H, I, J, K, L) {
    fn with_given(&self) -> ArrayVec<Option<Value<'_>>, 32> {
        let mut given = ArrayVec::new();
        given.push(self.0.value());
        given.push(self.1.value());
        given.push(self.2.value());
        given.push(self.3.value());
        given.push(self.4.value());
        given.push(self.5.value());
        given.push(self.6.value());
        given.push(self.7.value());
        given.push(self.8.value());
        given.push(self.9.value());
        given.push(self.10.value());
        given.push(self.11.value());
        given
    }
}
