//! A store of fixed capacity.
ghost use Rattle.std.specs.Prelude.{◌≡◌, ◌+◌, length};
ghost use Rattle.sf_base.specs.stores.Kept.{buffer_of, nothing_kept};

use crate::stores::entries::{Cell, Entry, find_shown, number_of};
use crate::stores::store::{Store, StoreFull};
use crate::{Number, Real, Shown, Value};
use arrayvec::ArrayVec;
use std::marker::Model;

/// A store of fixed capacity, which takes no memory.
#[derive(Debug, Drop)]
pub struct FixedStore<const CAP: usize, const SLOTS: usize> {
    entries: ArrayVec<Entry, SLOTS>,
    bytes: ArrayVec<u8, CAP>,
    /// How many of the bytes are closed texts.
    closed: usize,
    /// The slot of the opened text.
    opened: Option<u8>,
}

impl<const CAP: usize, const SLOTS: usize> Model for FixedStore<CAP, SLOTS> {
    ghost use Rattle.std.specs.Prelude.{◌-◌, ◌≤◌, length};
    ghost use Rattle.sf_base.specs.stores.Kept.{Kept};

    ghost Value = { Kept };

    ghost use Rattle.sf_base.specs.stores.Entries.{kept_of, IsSound};

    ghost view = { λ s. kept_of s.entries.items s.bytes.items s.closed s.opened (CAP - length s.bytes.items) };

    ghost invariant = { λ s. IsSound SLOTS s.entries.items s.closed (length s.bytes.items) s.opened
        × (length s.bytes.items ≤ CAP) };
}

impl<const CAP: usize, const SLOTS: usize> FixedStore<CAP, SLOTS> {
    /// An empty store.
    pub fn new() -> Self
        ensures { result ≡ nothing_kept CAP }
    {
        FixedStore {
            entries: ArrayVec::new(),
            bytes: ArrayVec::new(),
            closed: 0,
            opened: None,
        }
    }

    /// How many bytes it can hold: those that it holds, and the room.
    pub fn capacity(&self) -> usize
        ensures cap { result ≡ CAP }
        ensures bytes { self.now.room + length (buffer_of self.now) ≡ CAP }
    {
        self.bytes.capacity()
    }

    /// Takes everything away, and keeps the room.
    pub fn clear(&mut self)
        ensures { self.new ≡ nothing_kept (self.old.room + length (buffer_of self.old)) }
    {
        self.entries.clear();
        self.bytes.clear();
        self.closed = 0;
        self.opened = None;
    }
}

impl<const CAP: usize, const SLOTS: usize> Store for FixedStore<CAP, SLOTS> {
    ghost slots = { SLOTS };

    ghost kept = { λ s. s };

    fn set(&mut self, slot: u8, value: Value<'_>) {
        self.set_number(slot, number_of(value));
    }

    fn set_real(&mut self, slot: u8, real: Real) {
        let cell = Cell::Real(real);
        self.entries.push(Entry { slot, cell });
    }

    fn open_text(&mut self, slot: u8) {
        self.opened = Some(slot);
    }

    fn push(&mut self, b: u8) -> Result<(), StoreFull> {
        if self.bytes.try_push(b).is_err() {
            return Err(StoreFull);
        }
        Ok(())
    }

    fn push_all(&mut self, bytes: &[u8]) -> Result<(), StoreFull> {
        if self.bytes.try_extend_from_slice(bytes).is_err() {
            return Err(StoreFull);
        }
        Ok(())
    }

    fn close_text(&mut self) {
        let Some(slot) = self.opened else {
            return;
        };
        let end = self.bytes.len();
        self.entries.push(Entry {
            slot,
            cell: Cell::Text {
                from: self.closed,
                to: end,
            },
        });
        self.closed = end;
        self.opened = None;
    }

    fn drop_text(&mut self) {
        self.bytes.truncate(self.closed);
        self.opened = None;
    }

    fn cut_text(&mut self, count: usize) {
        self.bytes.truncate(self.closed + count);
    }

    fn opened(&self) -> &[u8] {
        let bytes = self.bytes.as_slice();
        &bytes[self.closed..]
    }

    fn room(&self) -> usize {
        self.bytes.remaining_capacity()
    }

    #[inline(always)]
    fn value(&self, slot: u8) -> Option<Value<'_>> {
        Some(self.shown(slot)?.value())
    }

    #[inline(always)]
    fn set_number(&mut self, slot: u8, number: Number) {
        let cell = Cell::Number(number);
        self.entries.push(Entry { slot, cell });
    }

    #[inline(always)]
    fn shown(&self, slot: u8) -> Option<Shown<'_>> {
        let bytes = self.bytes.as_slice();
        find_shown(self.entries.as_slice(), slot, &bytes[..self.closed])
    }
}
