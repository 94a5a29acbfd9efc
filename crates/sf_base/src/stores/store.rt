//! What values and texts are kept in.
ghost use Rattle.std.specs.Prelude.{◌≡◌, ◌+◌, ◌<◌, ◌≤◌, ℕ, [], ◌∷◌, length, take, true, false, None, IsSome, OnOk};
ghost use Rattle.std.specs.Prelude.{OnErr};
ghost use Rattle.std.specs.Option.{option_map};
ghost use Rattle.sf_base.specs.Data.{Real as RealOf, datum_of, datum_of_number, datum_of_shown, datum_at, is_number};
ghost use Rattle.sf_base.specs.stores.Kept.{Kept, is_opened, with_value, with_opened, with_bytes, with_closed};
ghost use Rattle.sf_base.specs.stores.Kept.{with_cut, with_dropped};
ghost use Rattle.sf_base.specs.stores.Kept.{with_text, text_of};

use crate::{Number, Real, Shown, Value};
use thiserror::Error;

/// A byte could not be stored.
#[derive(Clone, Copy, PartialEq, Eq, Debug, Error)]
#[error("the store is full")]
pub struct StoreFull;

/// What values and texts of a run are kept in. The texts lie one after the other in one buffer.
pub trait Store: Drop {
    ghost slots: { ℕ };

    ghost kept: { Self → Kept };

    /// Gives the slot an integer.
    fn set(&mut self, slot: u8, value: Value<'_>)
        requires at_least_one { 1 ≤ slot }
        requires in_range { slot ≤ slots }
        requires absent { datum_at slot (kept self.old).values ≡ None }
        requires not_opened { is_opened slot (kept self.old).opened ≡ false }
        requires number { is_number value ≡ true }
        ensures { kept self.new ≡ with_value slot (datum_of value.entry) (kept self.old) };

    /// Gives the slot a float.
    fn set_real(&mut self, slot: u8, real: Real)
        requires at_least_one { 1 ≤ slot }
        requires in_range { slot ≤ slots }
        requires absent { datum_at slot (kept self.old).values ≡ None }
        requires not_opened { is_opened slot (kept self.old).opened ≡ false }
        ensures { kept self.new ≡ with_value slot (RealOf real) (kept self.old) };

    /// Begins the text of the slot.
    fn open_text(&mut self, slot: u8)
        requires at_least_one { 1 ≤ slot }
        requires in_range { slot ≤ slots }
        requires absent { datum_at slot (kept self.old).values ≡ None }
        requires none_opened { (kept self.old).opened ≡ None }
        ensures { kept self.new ≡ with_opened slot (kept self.old) };

    /// Appends a byte to the opened text.
    fn push(&mut self, b: u8) -> Result<(), StoreFull>
        requires { IsSome (kept self.old).opened }
        ensures ok { OnOk result (kept self.new ≡ with_bytes (b ∷ []) (kept self.new).room (kept self.old)) }
        ensures room { (kept self.old).room ≤ (kept self.new).room + 1 }
        ensures err { OnErr result (kept self.new ≡ kept self.old) }
        ensures full { OnErr result ((kept self.old).room ≡ 0) };

    /// Makes the opened text the value of its slot.
    fn close_text(&mut self)
        requires { IsSome (kept self.old).opened }
        ensures { kept self.new ≡ with_closed (kept self.old) };

    /// Takes the opened text away. Its slot has no value.
    fn drop_text(&mut self)
        requires { IsSome (kept self.old).opened }
        ensures { kept self.new ≡ with_dropped (kept self.old) };

    /// Takes away all of the opened text but its first `count` bytes.
    fn cut_text(&mut self, count: usize)
        requires opened { IsSome (kept self.old).opened }
        requires within { count ≤ length (text_of (kept self.old).opened) }
        ensures { kept self.new ≡ with_cut count (kept self.old) };

    /// The bytes of the opened text so far; none where no text is opened.
    fn opened(&self) -> &[u8]
        ensures { result.now ≡ text_of (kept self.now).opened };

    /// How many bytes can be pushed for sure.
    fn room(&self) -> usize
        ensures { result ≡ (kept self.now).room };

    /// The value of the slot, if it has one.
    fn value(&self, slot: u8) -> Option<Value<'_>>
        ensures { option_map datum_of result ≡ datum_at slot (kept self.now).values };

    /// Appends all of the bytes to the opened text, or none. A store that need not push byte by byte has its own.
    fn push_all(&mut self, bytes: &[u8]) -> Result<(), StoreFull>
        requires { IsSome (kept self.old).opened }
        ensures ok { OnOk result (kept self.new ≡ with_bytes bytes.now (kept self.new).room (kept self.old)) }
        ensures room { (kept self.old).room ≤ (kept self.new).room + length bytes.now }
        ensures err { OnErr result (kept self.new ≡ kept self.old) }
        ensures full { OnErr result ((kept self.old).room < length bytes.now) }
    {
        if self.room() < bytes.len() {
            return Err(StoreFull);
        }
        for b in bytes {
            self.push(*b)?;
        }
        Ok(())
    }

    /// Gives the slot a number, as `set` does.
    fn set_number(&mut self, slot: u8, number: Number)
        requires at_least_one { 1 ≤ slot }
        requires in_range { slot ≤ slots }
        requires absent { datum_at slot (kept self.old).values ≡ None }
        requires not_opened { is_opened slot (kept self.old).opened ≡ false }
        ensures { kept self.new ≡ with_value slot (datum_of_number number) (kept self.old) }
    {
        self.set(slot, number.value());
    }

    /// Gives the slot a text, the first `count` bytes of the piece: opens it, appends them and closes it. Where it is
    /// refused the store is as before.
    fn put_text(&mut self, slot: u8, piece: &[u8], count: usize) -> Result<(), StoreFull>
        requires at_least_one { 1 ≤ slot }
        requires in_range { slot ≤ slots }
        requires absent { datum_at slot (kept self.old).values ≡ None }
        requires none_opened { (kept self.old).opened ≡ None }
        requires within { count ≤ length piece.now }
        ensures ok { OnOk result (kept self.new ≡ with_text slot (take count piece.now) (kept self.new).room
            (kept self.old)) }
        ensures room { (kept self.old).room ≤ (kept self.new).room + count }
        ensures err { OnErr result (kept self.new ≡ kept self.old) }
        ensures full { OnErr result ((kept self.old).room < count) }
    {
        self.open_text(slot);
        if self.push_all(&piece[..count]).is_err() {
            self.drop_text();
            return Err(StoreFull);
        }
        self.close_text();
        Ok(())
    }

    /// What the slot was given, if it was, without the Rust type that holds it.
    fn shown(&self, slot: u8) -> Option<Shown<'_>>
        ensures { option_map datum_of_shown result ≡ datum_at slot (kept self.now).values }
    {
        match self.value(slot) {
            Some(value) => Some(value.shown()),
            None => None,
        }
    }
}

/// Pushes the bytes one by one as far as the store takes them, and answers how many it took. Where it takes them all,
/// `push_all` gives the opened text the same bytes.
pub fn push_each<S: Store>(store: &mut S, bytes: &[u8]) -> usize
    requires { IsSome (S.kept store.old).opened }
    ensures within { result ≤ length bytes.now }
    ensures pushed { S.kept store.new ≡ with_bytes (take result bytes.now) (S.kept store.new).room (S.kept store.old) }
    ensures room { (S.kept store.old).room ≤ (S.kept store.new).room + result }
    ensures full { result < length bytes.now → (S.kept store.new).room ≡ 0 }
{
    let mut pushed = 0;
    for b in bytes {
        if store.push(*b).is_err() {
            return pushed;
        }
        pushed += 1;
    }
    pushed
}
