//! Rows: the values of a run as a type of the caller's.
ghost use Rattle.std.specs.Prelude.{◌≡◌, ◌≤◌, ℕ, Bool, false, List, length, map, Option, Some, IfOk};
ghost use Rattle.std.specs.Option.{option_map};
ghost use Rattle.sf_base.specs.declared.values.Kind.{Kind};
ghost use Rattle.sf_base.specs.Data.{Datum, datum_of};
ghost use Rattle.sf_report.specs.declared.outcome.Status.TheVariants.{Done};
ghost use Rattle.sf_report.specs.Rows.{at_slot, given_to};
ghost use Rattle.sf_read.specs.field.Rows.{AreGivenAs, present, slots_by};

use arrayvec::ArrayVec;
use sf_base::{Kind, Store, Value};
use sf_report::Report;
use std::alloc::Global;
use thiserror::Error;

/// Why a row was not made.
#[derive(Clone, Copy, Debug, Error, PartialEq, Eq)]
pub enum RowFault {
    /// Memory was refused.
    #[error("out of memory")]
    NoMemory,
}

/// A type whose values are rows: one value for each slot, where none is missing.
///
/// A row that takes slots without a value says which ones by `optional` and `may_miss`, and has `given` of its own.
pub trait Row: Sized {
    // The kinds of the slots, from slot 1 on.
    ghost kinds: { List Kind };

    // Whether the slot may be left without a value.
    ghost optional: { ℕ → Bool } = { λ slot. false };

    // The values that a row holds, slot by slot.
    ghost listed: { Self → List Datum };

    // What each slot of a row with these values holds: a value, or none where it is missing.
    ghost given: { Self → List Datum → List (Option Datum) } = { λ row values. map Some values };

    /// How many slots a row has, at most 32.
    fn slots() -> u8
        ensures count { result ≡ length kinds }
        ensures few { result ≤ 32 };

    /// The kind of the slot; None if there is no such slot. Slots are counted from 1.
    fn shape(slot: u8) -> Option<Kind>
        ensures { result ≡ at_slot slot kinds };

    /// Whether the slot may be left without a value. False for each slot of a row that holds a value for each.
    fn may_miss(slot: u8) -> bool
        ensures { result ≡ optional slot };

    /// The row of the values of a report. The report has to be Done, with values of these kinds in these slots, but for
    /// those that may be missing, and in no others. Answers NoMemory where memory was refused.
    fn from_report<S: Store>(alloc: Global, report: &Report<'_, S>) -> Result<Self, RowFault>
        requires done { report.now.status ≡ Done }
        requires given { AreGivenAs kinds optional report.now.values }
        ensures row { IfOk result (λ row. slots_by given listed row ≡ given_to (length kinds) report.now.values) }
        ensures listed { IfOk result (λ row. listed row ≡ present (slots_by given listed row)) };

    /// The values of the row, slot by slot, without those that are missing.
    fn with_values(&self) -> ArrayVec<Value<'_>, 32>
        ensures { map datum_of result.items ≡ listed self.now };
}

/// A row that can be written where values are missing, by `sf_print::fprint_given`.
pub trait GivenRow: Row {
    /// What each slot of the row holds: its value, or None where that is missing.
    fn with_given(&self) -> ArrayVec<Option<Value<'_>>, 32>
        ensures { map (option_map datum_of) result.items ≡ slots_by Self.given Self.listed self.now };
}
