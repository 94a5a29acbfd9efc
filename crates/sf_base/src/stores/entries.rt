//! What a store writes down of each slot.
ghost use Rattle.std.specs.Prelude.{◌≡◌, ℕ, List, true, length, map, nat_eq};
ghost use Rattle.std.specs.Option.{option_map};
ghost use Rattle.std.specs.List.{All, IsDistinct};
ghost use Rattle.sf_base.specs.Data.{datum_of, datum_of_number, datum_of_shown, datum_at, is_number};
ghost use Rattle.sf_base.specs.stores.Entries.{datum_in, assigned_in, slots_of, IsWithin};

use crate::{Number, Real, Shown, Value};

/// A value: a number of a kind, a part of the buffer, or a float.
#[derive(Clone, Copy, Debug)]
pub(crate) enum Cell {
    Number(Number),
    Text { from: usize, to: usize },
    Real(Real),
}

#[derive(Clone, Copy, Debug)]
pub(crate) struct Entry {
    pub(crate) slot: u8,
    pub(crate) cell: Cell,
}

impl Default for Entry {
    ghost use Rattle.std.specs.Prelude.{◌≡◌};
    ghost use Rattle.sf_base.specs.declared.stores.entries.Cell.TheVariants.{Text};

    ghost is_default = { λ e. (e.slot ≡ 0) × (e.cell ≡ Text 0 0) };

    fn default() -> Self {
        Entry {
            slot: 0,
            cell: Cell::Text { from: 0, to: 0 },
        }
    }
}

pub(crate) fn number_of(value: Value<'_>) -> Number
    requires { is_number value ≡ true }
    ensures { datum_of_number result ≡ datum_of value.entry }
{
    match value.shown() {
        Shown::Number(number) => number,
        Shown::Text(_) | Shown::Real(_) => unreachable!(),
    }
}

/// The value of a cell. A number is read field by field, as it was written: reads of other sizes would wait for the
/// writes.
#[inline(always)]
fn shown_in<'a>(cell: &Cell, closed: &'a [u8]) -> Shown<'a>
    requires { IsWithin (length closed.now) cell.now }
    ensures { datum_of_shown result ≡ datum_in closed.now cell.now }
{
    match cell {
        Cell::Number(number) => Shown::Number(Number {
            kind: number.kind,
            negative: number.negative,
            magnitude: number.magnitude,
        }),
        Cell::Text { from, to } => Shown::Text(&closed[*from..*to]),
        Cell::Real(real) => Shown::Real(*real),
    }
}

/// What the slot was given by these entries. Where the slots were given their values in order, it is found at once.
#[inline(always)]
pub(crate) fn find_shown<'a>(entries: &[Entry], slot: u8, closed: &'a [u8]) -> Option<Shown<'a>>
    requires apart { IsDistinct nat_eq (slots_of entries.now) }
    requires within { All (λ e. IsWithin (length closed.now) e.cell) entries.now }
    ensures { option_map datum_of_shown result ≡ datum_at slot (map (assigned_in closed.now) entries.now) }
{
    if let Some(entry) = entries.get((slot as usize).wrapping_sub(1)) {
        if entry.slot == slot {
            return Some(shown_in(&entry.cell, closed));
        }
    }
    for entry in entries {
        if slot == entry.slot {
            return Some(shown_in(&entry.cell, closed));
        }
    }
    None
}
