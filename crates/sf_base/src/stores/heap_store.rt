//! A store that grows.
ghost use Rattle.std.specs.Prelude.{◌≡◌, ◌+◌, ◌<◌, ◌≤◌, ◌++◌, [], length, take, IfOk, OnErr, is_ok, if◌then◌else◌};
ghost use Rattle.sf_base.specs.stores.Kept.{buffer_of, nothing_kept};

use crate::stores::buffer::{Buffer, MOVED};
use crate::stores::entries::{Cell, Entry, find_shown, number_of};
use crate::stores::store::{Store, StoreFull};
use crate::{Number, Real, Shown, Value};
use std::alloc::{AllocError, Global};
use std::marker::Model;

/// A store on the heap.
#[derive(Debug, Drop)]
pub struct HeapStore {
    // (first, so that a call which gets the bytes gets the store's own address)
    bytes: Buffer,
    entries: Vec<Entry>,
    /// How many of the bytes are closed texts.
    closed: usize,
    /// The slot of the opened text.
    opened: Option<u8>,
    /// How many bytes fit for sure.
    sure: usize,
}

impl Model for HeapStore {
    ghost use Rattle.std.specs.Prelude.{◌-◌, length, vec_capacity};
    ghost use Rattle.sf_base.specs.stores.Kept.{Kept};

    ghost Value = { Kept };

    ghost use Rattle.sf_base.specs.stores.Entries.{kept_of, IsSound, HasRoom};

    ghost view = { λ s. kept_of s.entries.items s.bytes.bytes s.closed s.opened (s.sure - length s.bytes.bytes) };

    ghost invariant = { λ s. IsSound 32 s.entries.items s.closed (length s.bytes.bytes) s.opened
        × HasRoom 32 (length s.bytes.bytes) s.sure s.bytes.capacity (vec_capacity s.entries) };
}

/// Room for texts of so many bytes, and for what is moved with the last of them. Where there are none it is seen here
/// that no memory is asked for.
#[inline(always)]
fn room_for(alloc: Global, reserve: u32) -> Result<Buffer, AllocError>
    ensures bytes { IfOk result (λ b. b.bytes ≡ []) }
    ensures capacity { IfOk result (λ b. reserve ≤ b.capacity) }
{
    if reserve == 0 {
        return Ok(Buffer::empty(alloc));
    }
    Buffer::with_capacity(alloc, reserve as usize + MOVED)
}

impl HeapStore {
    /// An empty store whose texts have room for at least `reserve` bytes.
    pub fn new(alloc: Global, reserve: u32) -> Result<HeapStore, AllocError>
        ensures { IfOk result (λ s. s ≡ nothing_kept reserve) }
    {
        let entries = Vec::with_capacity(alloc, 32)?;
        let bytes = room_for(alloc, reserve)?;
        Ok(HeapStore {
            entries,
            bytes,
            closed: 0,
            opened: None,
            sure: reserve as usize,
        })
    }

    /// Takes everything away, and keeps the room.
    pub fn clear(&mut self)
        ensures { self.new ≡ nothing_kept (self.old.room + length (buffer_of self.old)) }
    {
        self.entries.clear();
        self.bytes.truncate(0);
        self.closed = 0;
        self.opened = None;
    }
}

/// Appends the first `count` bytes of the piece, or none; `sure` is how many fit for sure.
#[inline(always)]
fn append(bytes: &mut Buffer, sure: &mut usize, piece: &[u8], count: usize) -> Result<(), StoreFull>
    requires within { count ≤ length piece.now }
    requires held { length bytes.old.bytes ≤ sure.old }
    requires fits { sure.old ≤ bytes.old.capacity }
    ensures items { bytes.new.bytes ≡ (if is_ok result then bytes.old.bytes ++ take count piece.now else
        bytes.old.bytes) }
    ensures sure { sure.old ≤ sure.new }
    ensures same { OnErr result (sure.new ≡ sure.old) }
    ensures held { length bytes.new.bytes ≤ sure.new }
    ensures fits { sure.new ≤ bytes.new.capacity }
    ensures full { OnErr result (sure.old < length bytes.old.bytes + count) }
{
    if bytes.append(piece, count).is_err() {
        return Err(StoreFull);
    }
    if *sure < bytes.len() {
        *sure = bytes.capacity();
    }
    Ok(())
}

impl Store for HeapStore {
    ghost slots = { 32 };

    ghost kept = { λ s. s };

    fn set(&mut self, slot: u8, value: Value<'_>) {
        self.set_number(slot, number_of(value));
    }

    fn set_real(&mut self, slot: u8, real: Real) {
        let cell = Cell::Real(real);
        self.entries.push_reserved(Entry { slot, cell });
    }

    fn open_text(&mut self, slot: u8) {
        self.opened = Some(slot);
    }

    fn push(&mut self, b: u8) -> Result<(), StoreFull> {
        if self.bytes.push(b).is_err() {
            return Err(StoreFull);
        }
        if self.sure < self.bytes.len() {
            self.sure = self.bytes.capacity();
        }
        Ok(())
    }

    fn push_all(&mut self, bytes: &[u8]) -> Result<(), StoreFull> {
        append(&mut self.bytes, &mut self.sure, bytes, bytes.len())
    }

    fn close_text(&mut self) {
        let Some(slot) = self.opened else {
            return;
        };
        let end = self.bytes.len();
        self.entries.push_reserved(Entry {
            slot,
            cell: Cell::Text {
                from: self.closed,
                to: end,
            },
        });
        self.closed = end;
        self.opened = None;
    }

    fn drop_text(&mut self) {
        self.bytes.truncate(self.closed);
        self.opened = None;
    }

    fn cut_text(&mut self, count: usize) {
        self.bytes.truncate(self.closed + count);
    }

    fn opened(&self) -> &[u8] {
        let bytes = self.bytes.front(self.bytes.len());
        &bytes[self.closed..]
    }

    fn room(&self) -> usize {
        self.sure - self.bytes.len()
    }

    #[inline(always)]
    fn value(&self, slot: u8) -> Option<Value<'_>> {
        Some(self.shown(slot)?.value())
    }

    #[inline(always)]
    fn set_number(&mut self, slot: u8, number: Number) {
        let cell = Cell::Number(number);
        self.entries.push_reserved(Entry { slot, cell });
    }

    #[inline(always)]
    fn put_text(&mut self, slot: u8, piece: &[u8], count: usize) -> Result<(), StoreFull> {
        let from = self.closed;
        append(&mut self.bytes, &mut self.sure, piece, count)?;
        let to = self.bytes.len();
        let cell = Cell::Text { from, to };
        self.entries.push_reserved(Entry { slot, cell });
        self.closed = to;
        Ok(())
    }

    #[inline(always)]
    fn shown(&self, slot: u8) -> Option<Shown<'_>> {
        find_shown(&self.entries, slot, self.bytes.front(self.closed))
    }
}
