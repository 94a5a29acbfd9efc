//! What a run came to, with its values.
ghost use Rattle.std.specs.Prelude.{◌≡◌, ◌↔◌, IsSome, IsSomeAnd, IfSome, Some};
ghost use Rattle.std.specs.Option.{option_map};
ghost use Rattle.sf_base.specs.Data.{datum_of, datum_of_number, datum_of_shown, datum_at, kind_of};
ghost use Rattle.sf_report.specs.Runs.{c_return};

use crate::outcome::{Outcome, Status};
use sf_base::{Number, Shown, Store, Taken, Value};
use std::marker::Model;

/// What a run that has ended came to, with the store of its values.
#[derive(Drop)]
pub struct Scanned<S: Store> {
    outcome: Outcome,
    store: S,
}

impl<S: Store> Model for Scanned<S> {
    ghost use Rattle.sf_report.specs.Views.{StoredReport, report_by};

    ghost Value = { StoredReport };

    ghost view = { λ s. record { report = report_by s.outcome (S.kept s.store).values; kept = S.kept s.store } };

    ghost use Rattle.sf_report.specs.Memory.{HoldsValues};

    ghost invariant = { λ s. HoldsValues (S.kept s.store) };
}

impl<S: Store> Scanned<S> {
    ghost use Rattle.sf_report.specs.Memory.{HoldsValues};
    ghost use Rattle.sf_report.specs.Views.{report_by};

    /// The outcome with the store of its values, as `quick_run` leaves both.
    pub fn new(outcome: Outcome, store: S) -> Self
        requires { HoldsValues (S.kept store) }
        ensures report { result.report ≡ report_by outcome (S.kept store).values }
        ensures kept { result.kept ≡ S.kept store }
    {
        Scanned { outcome, store }
    }

    /// The report of the run.
    pub fn report(&self) -> Report<'_, S>
        ensures { result ≡ self.now.report }
    {
        Report {
            outcome: self.outcome,
            store: &self.store,
        }
    }

    /// What the run came to, but for its values.
    pub fn outcome(&self) -> Outcome
        ensures status { result.status ≡ self.now.report.status }
        ensures at { result.at ≡ self.now.report.at }
        ensures assigned { result.assigned ≡ self.now.report.assigned }
        ensures converted { result.converted ≡ self.now.report.converted }
        ensures used { result.used ≡ self.now.report.used }
        ensures met { result.met ≡ self.now.report.met }
    {
        self.report().outcome()
    }

    /// The store, with the values of the run and the bytes of their texts, to be used again.
    pub fn into_store(self) -> S
        ensures kept { S.kept result ≡ self.kept }
        ensures values { (S.kept result).values ≡ self.report.values }
        ensures texts { HoldsValues (S.kept result) }
    {
        let Scanned { store, .. } = self;
        store
    }
}

/// The report of a run: its outcome, and the values by their slots, lent from the store.
#[derive(Drop)]
pub struct Report<'r, S: Store> {
    outcome: Outcome,
    store: &'r S,
}

impl<'r, S: Store> Model for Report<'r, S> {
    ghost use Rattle.sf_report.specs.Runs.{RunReport};

    ghost Value = { RunReport };

    ghost use Rattle.sf_report.specs.Views.{report_by};

    ghost view = { λ r. report_by r.outcome (S.kept r.store.now).values };
}

/// A number as `T`, where that is the type of its kind. The kind is looked at first: then the value is made by the one
/// way that its kind has.
#[inline(always)]
fn number_as<'r, T: Taken<'r>>(number: Number) -> Option<T>
    ensures exactly { IsSome result ↔ (kind_of (datum_of_number number) ≡ T.kind) }
    ensures value { IfSome result (λ taken. T.is_of taken (datum_of_number number)) }
{
    if number.kind != T::taken_kind() {
        return None;
    }
    T::taken(number.value())
}

impl<'r, S: Store> Report<'r, S> {
    ghost use Rattle.sf_report.specs.Views.{report_by};

    /// The outcome with the values of the store, as `quick_run` leaves them.
    pub fn new(outcome: Outcome, store: &'r S) -> Self
        ensures { result ≡ report_by outcome (S.kept store.now).values }
    {
        Report { outcome, store }
    }

    /// The same report, lent from the same store once more.
    #[inline(always)]
    pub fn copied(&self) -> Report<'r, S>
        ensures { result ≡ self.now }
    {
        Report {
            outcome: self.outcome,
            store: self.store,
        }
    }

    /// What the run came to, but for its values.
    pub fn outcome(&self) -> Outcome
        ensures status { result.status ≡ self.now.status }
        ensures at { result.at ≡ self.now.at }
        ensures assigned { result.assigned ≡ self.now.assigned }
        ensures converted { result.converted ≡ self.now.converted }
        ensures used { result.used ≡ self.now.used }
        ensures met { result.met ≡ self.now.met }
    {
        let Report { outcome, .. } = self;
        *outcome
    }

    /// What the slot was given, where it was.
    #[inline(always)]
    pub fn value(&self, slot: u8) -> Option<Value<'r>>
        ensures { option_map datum_of result ≡ datum_at slot self.now.values }
    {
        self.store.value(slot)
    }

    /// What the slot was given, where it was: a number by its kind, sign and magnitude, or a text.
    #[inline(always)]
    pub fn shown(&self, slot: u8) -> Option<Shown<'r>>
        ensures { option_map datum_of_shown result ≡ datum_at slot self.now.values }
    {
        self.store.shown(slot)
    }

    /// What the slot was given as `T`, where that is something of its kind: `report.get::<i32>(1)`,
    /// `report.get::<f64>(2)`.
    #[inline(always)]
    pub fn get<T: Taken<'r>>(&self, slot: u8) -> Option<T>
        ensures exactly { IsSome result ↔ (option_map kind_of (datum_at slot self.now.values) ≡ Some T.kind) }
        ensures value { IfSome result (λ taken. IsSomeAnd (datum_at slot self.now.values) (T.is_of taken)) }
    {
        match self.shown(slot)? {
            Shown::Number(number) => number_as(number),
            Shown::Text(text) => T::taken(Value::Text(text)),
            Shown::Real(real) => T::taken(real.value()),
        }
    }

    /// What fscanf returns (C11 7.21.6.2p16): -1 for an input failure before the first conversion has
    /// completed, else the number of assigned items.
    pub fn c_return(&self) -> i32
        ensures { result ≡ c_return self.now }
    {
        if self.outcome.status == Status::InputFailure && self.outcome.converted == 0 {
            -1
        } else {
            i32::from(self.outcome.assigned)
        }
    }
}
