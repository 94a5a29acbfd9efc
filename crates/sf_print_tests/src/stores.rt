//! Stores: one script of calls over each, and where they are full.
ghost use Rattle.std.specs.Prelude.{◌≡◌, ◌≤◌, None, IsSome, IsTrue, OnOk};
ghost use Rattle.sf_base.specs.Data.{datum_at};

use sf_base::{FixedStore, HeapStore, Number, Real, Shown, Store, StoreFull, Value, push_each};
use sf_rows::is;
use std::test::Fail;

/// Bytes for the text that is open.
#[derive(Clone, Copy, Debug)]
enum Bytes {
    /// One, by `push`.
    One(u8),
    /// As many as there is room for, by `push_each`.
    Each(&'static [u8]),
    /// All or none, by `push_all`.
    All(&'static [u8]),
}

/// What a slot is given, and by which calls.
#[derive(Clone, Copy, Debug)]
enum Given {
    /// A number, by `set`, or a float, by `set_real`.
    Value(Value<'static>),
    /// A number, by `set_number`.
    Number(Value<'static>),
    /// The first bytes of a piece, by `put_text`.
    Piece(&'static [u8], usize),
    /// A text: these bytes so many times.
    Text(&'static [Bytes], u32),
    /// A text that is taken away again.
    Dropped(&'static [Bytes]),
    /// A text of which so many bytes stay, and the others are cut off.
    Cut(&'static [Bytes], usize),
    /// A text; while it is open, another slot is given a number.
    Beside(&'static [Bytes], u8, Value<'static>),
}

/// Slots in the order in which they are given something.
type Script = &'static [(u8, Given)];

/// How many of the bytes the store takes. A refusal leaves the room as it was.
fn push<S: Store>(store: &mut S, bytes: Bytes) -> Result<usize, Fail>
    requires { IsSome (S.kept store.old).opened }
    ensures { IsSome (S.kept store.new).opened }
{
    let room = store.room();
    let before = store.opened().len();
    let taken = match bytes {
        Bytes::One(b) => usize::from(store.push(b).is_ok()),
        Bytes::Each(text) => push_each(store, text),
        Bytes::All(text) => match store.push_all(text) {
            Ok(()) => text.len(),
            Err(StoreFull) => 0,
        },
    };
    if taken == 0 {
        is(&store.room(), &room, &bytes)?;
    }
    let after = before.saturating_add(taken);
    is(&store.opened().len(), &after, &bytes)?;
    Ok(taken)
}

/// How many bytes of the open text the store takes, so many times these. What it refuses is pushed once more: where
/// `rt try --test --fail-alloc N` refuses a growth, for N from 2 on, the next push goes.
fn push_times<S: Store>(store: &mut S, text: &[Bytes], times: u32) -> Result<usize, Fail>
    requires { IsSome (S.kept store.old).opened }
    ensures { IsSome (S.kept store.new).opened }
{
    let mut total = 0usize;
    for _ in 0..times {
        for bytes in text {
            let mut taken = push(store, *bytes)?;
            if taken == 0 {
                taken = push(store, *bytes)?;
            }
            total = total.saturating_add(taken);
        }
    }
    Ok(total)
}

/// Whether there is such a slot, and it was given nothing yet.
fn is_free<S: Store>(store: &S, slots: u8, slot: u8) -> bool
    ensures at_least_one { IsTrue result → 1 ≤ slot }
    ensures in_range { IsTrue result → slot ≤ slots }
    ensures absent { IsTrue result → datum_at slot (S.kept store.now).values ≡ None }
{
    1 <= slot && slot <= slots && store.value(slot).is_none()
}

/// How many bytes of the open text stay, where the others are cut off. Those are free again.
fn cut<S: Store>(store: &mut S, count: usize) -> Result<usize, Fail>
    requires { IsSome (S.kept store.old).opened }
    ensures { IsSome (S.kept store.new).opened }
{
    let room = store.room();
    let len = store.opened().len();
    let kept = count.min(len);
    store.cut_text(kept);
    is(&store.room(), &room.saturating_add(len - kept), &count)?;
    Ok(kept)
}

/// How many bytes the store takes for the slot.
fn give<S: Store>(store: &mut S, slots: u8, slot: u8, given: &Given) -> Result<usize, Fail>
    requires slots { slots ≤ S.slots }
    requires at_least_one { 1 ≤ slot }
    requires in_range { slot ≤ slots }
    requires absent { datum_at slot (S.kept store.old).values ≡ None }
    requires none_opened { (S.kept store.old).opened ≡ None }
    ensures { OnOk result ((S.kept store.new).opened ≡ None) }
{
    let mut taken = 0;
    match given {
        Given::Value(value) => match value.shown() {
            Shown::Number(number) => store.set(slot, number.value()),
            Shown::Real(real) => store.set_real(slot, real),
            Shown::Text(_) => {}
        },
        Given::Number(value) => {
            if let Shown::Number(number) = value.shown() {
                store.set_number(slot, number);
            }
        }
        Given::Piece(piece, count) => {
            if *count <= piece.len() && store.put_text(slot, piece, *count).is_ok() {
                taken = *count;
            }
        }
        Given::Text(text, times) => {
            store.open_text(slot);
            taken = push_times(store, text, *times)?;
            store.close_text();
        }
        Given::Dropped(text) => {
            store.open_text(slot);
            taken = push_times(store, text, 1)?;
            store.drop_text();
        }
        Given::Cut(text, count) => {
            store.open_text(slot);
            let _pushed = push_times(store, text, 1)?;
            taken = cut(store, *count)?;
            store.close_text();
        }
        Given::Beside(text, other, value) => {
            if *other == slot || !is_free(store, slots, *other) {
                return Err(Fail::new("the other slot can't be given anything"));
            }
            store.open_text(slot);
            if let Shown::Number(number) = value.shown() {
                store.set(*other, number.value());
            }
            taken = push_times(store, text, 1)?;
            store.close_text();
        }
    }
    Ok(taken)
}

/// How many bytes the store takes for the slots of the script.
fn play<S: Store>(store: &mut S, slots: u8, script: Script) -> Result<usize, Fail>
    requires slots { slots ≤ S.slots }
    requires none_opened { (S.kept store.old).opened ≡ None }
{
    let mut total = 0usize;
    for (slot, given) in script {
        if !is_free(store, slots, *slot) {
            return Err(Fail::new("a slot that can't be given anything"));
        }
        let taken = give(store, slots, *slot, given)?;
        total = total.saturating_add(taken);
    }
    Ok(total)
}

/// The value that the slot shows, by its parts.
fn shown<S: Store>(store: &S, slot: u8) -> Option<Value<'_>> {
    match store.shown(slot)? {
        Shown::Number(number) => {
            let Number {
                kind,
                negative,
                magnitude,
            } = number;
            Some(kind.number(negative, magnitude)?.value())
        }
        Shown::Text(text) => Some(Value::Text(text)),
        Shown::Real(real) => Some(real.value()),
    }
}

/// The slots from 0 on have these values, and show them.
fn has_slots<S: Store>(store: &S, wanted: &[Option<Value<'static>>]) -> Result<(), Fail> {
    let mut slot = 0u8;
    for value in wanted {
        is(
            &[store.value(slot), shown(store, slot)],
            &[*value, *value],
            &slot,
        )?;
        slot = slot.saturating_add(1);
    }
    Ok(())
}

/// What a store makes of a script.
#[derive(Clone, Copy)]
struct Row {
    script: Script,
    /// How many bytes it takes.
    taken: usize,
    /// What a fixed store then has left of its room.
    left: usize,
    /// What the slots from 0 on then have.
    slots: &'static [Option<Value<'static>>],
}

/// The store, which keeps nothing yet, takes so many bytes of the script, and the slots have what they were given.
fn plays<S: Store>(store: &mut S, slots: u8, row: &Row) -> Result<(), Fail>
    requires slots { slots ≤ S.slots }
    requires none_opened { (S.kept store.old).opened ≡ None }
{
    is(&play(store, slots, row.script)?, &row.taken, &row.script)?;
    has_slots(store, row.slots)
}

/// Texts by each call, one of them taken away again.
const BY_EACH_CALL: Row = Row {
    script: &[
        (2, Given::Value(Value::I64(-9))),
        (1, Given::Text(&[Bytes::One(b'a'), Bytes::All(b"bc")], 1)),
        (3, Given::Dropped(&[Bytes::All(b"gone")])),
        (4, Given::Beside(&[Bytes::Each(b"de")], 5, Value::U8(255))),
    ],
    taken: 9,
    left: 4,
    slots: &[
        None,
        Some(Value::Text(b"abc")),
        Some(Value::I64(-9)),
        None,
        Some(Value::Text(b"de")),
        Some(Value::U8(255)),
        None,
    ],
};

/// Texts whose ends are cut off: some bytes, all and none.
const CUT: Row = Row {
    script: &[
        (1, Given::Cut(&[Bytes::All(b"ab \n")], 2)),
        (3, Given::Cut(&[Bytes::One(b' ')], 0)),
        (2, Given::Cut(&[Bytes::Each(b"cd")], 2)),
        (4, Given::Text(&[Bytes::All(b"e")], 1)),
    ],
    taken: 5,
    left: 4,
    slots: &[
        None,
        Some(Value::Text(b"ab")),
        Some(Value::Text(b"cd")),
        Some(Value::Text(b"")),
        Some(Value::Text(b"e")),
        None,
    ],
};

/// Slots in no order: numbers and texts by turns, one text taken away again.
const SCATTERED: Row = Row {
    script: &[
        (4, Given::Text(&[Bytes::All(b"four")], 1)),
        (5, Given::Value(Value::I8(-5))),
        (3, Given::Dropped(&[Bytes::All(b"gone")])),
        (2, Given::Value(Value::U64(2))),
        (
            1,
            Given::Text(&[Bytes::All(b"o"), Bytes::One(b'n'), Bytes::One(b'e')], 1),
        ),
        (3, Given::Text(&[Bytes::All(b"33")], 1)),
    ],
    taken: 13,
    left: 0,
    slots: &[
        None,
        Some(Value::Text(b"one")),
        Some(Value::U64(2)),
        Some(Value::Text(b"33")),
        Some(Value::Text(b"four")),
        Some(Value::I8(-5)),
        None,
    ],
};

/// A number, and two texts at once: ten bytes after three are too many for nine.
const AT_ONCE: Row = Row {
    script: &[
        (2, Given::Number(Value::I16(-7))),
        (1, Given::Piece(b"abcd", 3)),
        (3, Given::Piece(b"0123456789", 10)),
    ],
    taken: 3,
    left: 6,
    slots: &[
        None,
        Some(Value::Text(b"abc")),
        Some(Value::I16(-7)),
        None,
        None,
    ],
};

/// Floats of both kinds, and a text.
const FLOATS: Row = Row {
    script: &[
        (3, Given::Value(Value::F64(0x7ff0_0000_0000_0000))),
        (1, Given::Value(Value::F32(0x3f80_0000))),
        (2, Given::Text(&[Bytes::All(b"1.0")], 1)),
    ],
    taken: 3,
    left: 6,
    slots: &[
        None,
        Some(Value::F32(0x3f80_0000)),
        Some(Value::Text(b"1.0")),
        Some(Value::F64(0x7ff0_0000_0000_0000)),
        None,
    ],
};

/// A text of ten bytes, then one of nine.
const NINE_BYTES: Row = Row {
    script: &[(
        3,
        Given::Text(&[Bytes::All(b"0123456789"), Bytes::All(b"012345678")], 1),
    )],
    taken: 9,
    left: 0,
    slots: &[None, None, None, Some(Value::Text(b"012345678"))],
};

/// What a store of nine bytes makes of each.
static OF_NINE_BYTES: [Row; 7] = [
    BY_EACH_CALL,
    CUT,
    SCATTERED,
    FLOATS,
    AT_ONCE,
    NINE_BYTES,
    BY_EACH_CALL,
];

/// What a store that grows makes of them.
static GROWING: [Row; 6] = [
    BY_EACH_CALL,
    CUT,
    SCATTERED,
    FLOATS,
    Row {
        taken: 13,
        slots: &[
            None,
            Some(Value::Text(b"abc")),
            Some(Value::I16(-7)),
            Some(Value::Text(b"0123456789")),
            None,
        ],
        ..AT_ONCE
    },
    BY_EACH_CALL,
];

/// A store that grows plays each, one after the other.
fn plays_all(store: &mut HeapStore, reserve: u32) -> Result<(), Fail> {
    for row in &GROWING {
        store.clear();
        is(&(store.room() >= reserve as usize), &true, &reserve)?;
        plays(store, 32, row)?;
    }
    Ok(())
}

#[test]
fn heap_stores_play(rt: HostRuntime) -> Result<(), Fail> {
    for reserve in [0u32, 9] {
        plays_all(&mut HeapStore::new(rt.alloc(), reserve)?, reserve)?;
    }
    Ok(())
}

/// An empty store of so many bytes plays the script, and has as much room left as the row says.
fn fills<S: Store>(store: &mut S, bytes: usize, slots: u8, row: &Row) -> Result<(), Fail>
    requires slots { slots ≤ S.slots }
    requires none_opened { (S.kept store.old).opened ≡ None }
{
    is(&store.room(), &bytes, &row.script)?;
    plays(store, slots, row)?;
    is(&store.room(), &row.left, &row.script)
}

#[test]
fn fixed_stores_play() -> Result<(), Fail> {
    let mut store = FixedStore::<9, 5>::new();
    for row in &OF_NINE_BYTES {
        store.clear();
        fills(&mut store, 9, 5, row)?;
    }
    plays(&mut FixedStore::<11, 5>::new(), 5, &SCATTERED)
}

/// A store of three bytes, and one of none, which keeps numbers.
const THREE_BYTES: Row = Row {
    script: &[(
        1,
        Given::Text(
            &[Bytes::All(b"abcd"), Bytes::Each(b"abcd"), Bytes::One(b'd')],
            1,
        ),
    )],
    taken: 3,
    left: 0,
    slots: &[None, Some(Value::Text(b"abc")), None],
};

const NO_BYTES: Row = Row {
    script: &[(1, Given::Value(Value::U64(18446744073709551615)))],
    taken: 0,
    left: 0,
    slots: &[None, Some(Value::U64(18446744073709551615)), None],
};

#[test]
fn full_stores_play() -> Result<(), Fail> {
    fills(&mut FixedStore::<3, 1>::new(), 3, 1, &THREE_BYTES)?;
    fills(&mut FixedStore::<0, 1>::new(), 0, 1, &NO_BYTES)
}

/// Two texts of a hundred thousand bytes, by bytes and by pieces, and a number.
const LONG: Script = &[
    (
        32,
        Given::Text(&[Bytes::One(b'a'), Bytes::One(b'b')], 50000),
    ),
    (1, Given::Value(Value::I8(-1))),
    (2, Given::Text(&[Bytes::All(b"0123456789")], 10000)),
];

/// The slot has a text of a hundred thousand bytes, which begins and ends so.
fn is_long_text(store: &HeapStore, slot: u8, start: &[u8], end: &[u8]) -> Result<(), Fail> {
    let Some(Value::Text(text)) = store.value(slot) else {
        return Err(Fail::new("the text is lost"));
    };
    is(&text.len(), &100000, &slot)?;
    is(
        &[text.starts_with(start), text.ends_with(end)],
        &[true, true],
        &slot,
    )
}

/// What the slots then have.
fn has_long_texts(store: &HeapStore) -> Result<(), Fail> {
    is(&store.value(1), &Some(Value::I8(-1)), &"slot 1")?;
    is_long_text(store, 32, b"abab", b"ab")?;
    is_long_text(store, 2, b"01234567890", b"9")
}

#[test]
fn long_texts_grow(rt: HostRuntime) -> Result<(), Fail> {
    let mut store = HeapStore::new(rt.alloc(), 0)?;
    is(&play(&mut store, 32, LONG)?, &200000, &"bytes")?;
    has_long_texts(&store)
}

/// A store that has the ten calls of a store, and no more.
#[derive(Drop)]
struct TenCalls(FixedStore<9, 5>);

impl Store for TenCalls {
    ghost slots = { 5 };

    ghost kept = { λ s. s.0 };

    fn set(&mut self, slot: u8, value: Value<'_>) {
        self.0.set(slot, value);
    }

    fn set_real(&mut self, slot: u8, real: Real) {
        self.0.set_real(slot, real);
    }

    fn open_text(&mut self, slot: u8) {
        self.0.open_text(slot);
    }

    fn push(&mut self, b: u8) -> Result<(), StoreFull> {
        self.0.push(b)
    }

    fn close_text(&mut self) {
        self.0.close_text();
    }

    fn drop_text(&mut self) {
        self.0.drop_text();
    }

    fn cut_text(&mut self, count: usize) {
        self.0.cut_text(count);
    }

    fn opened(&self) -> &[u8] {
        self.0.opened()
    }

    fn room(&self) -> usize {
        self.0.room()
    }

    fn value(&self, slot: u8) -> Option<Value<'_>> {
        self.0.value(slot)
    }
}

#[test]
fn ten_calls_make_a_store() -> Result<(), Fail> {
    for row in &OF_NINE_BYTES {
        fills(&mut TenCalls(FixedStore::new()), 9, 5, row)?;
    }
    Ok(())
}
