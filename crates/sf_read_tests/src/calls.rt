//! Calls one after the other on one source: what each reports, and what it leaves.
ghost use Rattle.std.specs.Prelude.{◌≤◌};

use sf_base::{HeapStore, Value};
use sf_format::{Profile, ScanFormat};
use sf_read::{Lookahead, ReadStep, ScriptSource, Source, fscan, fscan_over};
use sf_rows::{LIMIT, Met, Told, has_values, is};
use sf_run::{Report, Status};
use std::alloc::Global;
use std::test::Fail;

/// A scan, what it reports, and what stands after it: the bytes that are held, the reads, and how many of them failed.
#[derive(Drop)]
pub(crate) struct Call {
    pub(crate) format: &'static [u8],
    pub(crate) limit: u32,
    pub(crate) told: Told,
    pub(crate) values: &'static [Value<'static>],
    pub(crate) held: &'static [u8],
    pub(crate) reads: u64,
    pub(crate) failures: u64,
}

/// What a source gives, the length of the blocks by which it is read, and the calls on it.
#[derive(Drop)]
struct Session {
    block: u16,
    steps: &'static [ReadStep<'static>],
    calls: &'static [Call],
}

static SESSIONS: [Session; 8] = [
    // A read fails between two numbers; once the source has ended, it isn't read again.
    Session {
        block: 4096,
        steps: &[ReadStep::Give(b"12"), ReadStep::Fail, ReadStep::Give(b"34")],
        calls: &[
            Call {
                format: b"%d",
                limit: LIMIT,
                told: Told::Done(1, 2, Met::Fault),
                values: &[Value::I32(12)],
                held: b"",
                reads: 2,
                failures: 1,
            },
            Call {
                format: b"%d",
                limit: LIMIT,
                told: Told::Done(1, 2, Met::End),
                values: &[Value::I32(34)],
                held: b"",
                reads: 4,
                failures: 1,
            },
            Call {
                format: b"%d",
                limit: LIMIT,
                told: Told::Failed(Status::InputFailure, 1, 0, 0, Met::End),
                values: &[],
                held: b"",
                reads: 4,
                failures: 1,
            },
        ],
    },
    // The read that would fail isn't needed.
    Session {
        block: 4096,
        steps: &[ReadStep::Give(b""), ReadStep::Give(b"12"), ReadStep::Fail],
        calls: &[Call {
            format: b"%2d",
            limit: LIMIT,
            told: Told::Done(1, 2, Met::Nothing),
            values: &[Value::I32(12)],
            held: b"",
            reads: 1,
            failures: 0,
        }],
    },
    // The rest of a block is held.
    Session {
        block: 4096,
        steps: &[ReadStep::Give(b"5 6 7")],
        calls: &[
            Call {
                format: b"%d",
                limit: LIMIT,
                told: Told::Done(1, 1, Met::Byte),
                values: &[Value::I32(5)],
                held: b" 6 7",
                reads: 1,
                failures: 0,
            },
            Call {
                format: b"%d",
                limit: LIMIT,
                told: Told::Done(1, 2, Met::Byte),
                values: &[Value::I32(6)],
                held: b" 7",
                reads: 1,
                failures: 0,
            },
        ],
    },
    // A read fails before the second number.
    Session {
        block: 16,
        steps: &[ReadStep::Give(b"1 "), ReadStep::Fail, ReadStep::Give(b"2")],
        calls: &[Call {
            format: b"%d %d",
            limit: LIMIT,
            told: Told::Failed(Status::InputFailure, 3, 1, 2, Met::Fault),
            values: &[Value::I32(1)],
            held: b"",
            reads: 2,
            failures: 1,
        }],
    },
    // The first record is read; the second and the third are held.
    Session {
        block: 16,
        steps: &[ReadStep::Give(b"1,ab;2,cd;3,ef;")],
        calls: &[
            Call {
                format: b"%d,%2s;",
                limit: LIMIT,
                told: Told::Done(2, 5, Met::Nothing),
                values: &[Value::I32(1), Value::Text(b"ab")],
                held: b"2,cd;3,ef;",
                reads: 1,
                failures: 0,
            },
            Call {
                format: b"%d,%2s;",
                limit: LIMIT,
                told: Told::Done(2, 5, Met::Nothing),
                values: &[Value::I32(2), Value::Text(b"cd")],
                held: b"3,ef;",
                reads: 1,
                failures: 0,
            },
            Call {
                format: b"%d,%2s;",
                limit: LIMIT,
                told: Told::Done(2, 5, Met::Nothing),
                values: &[Value::I32(3), Value::Text(b"ef")],
                held: b"",
                reads: 1,
                failures: 0,
            },
        ],
    },
    // A failed read leaves what comes after it.
    Session {
        block: 2,
        steps: &[ReadStep::Give(b"1"), ReadStep::Fail, ReadStep::Give(b"2")],
        calls: &[
            Call {
                format: b"%d",
                limit: LIMIT,
                told: Told::Done(1, 1, Met::Fault),
                values: &[Value::I32(1)],
                held: b"",
                reads: 2,
                failures: 1,
            },
            Call {
                format: b"%d",
                limit: LIMIT,
                told: Told::Done(1, 1, Met::End),
                values: &[Value::I32(2)],
                held: b"",
                reads: 4,
                failures: 1,
            },
        ],
    },
    // The byte that would be too much is held.
    Session {
        block: 2,
        steps: &[ReadStep::Give(b"1234")],
        calls: &[Call {
            format: b"%d",
            limit: 3,
            told: Told::Failed(Status::TooLong, 1, 0, 3, Met::Byte),
            values: &[],
            held: b"4",
            reads: 2,
            failures: 0,
        }],
    },
    // No text stands in the slot.
    Session {
        block: 2,
        steps: &[ReadStep::Give(b"abcd")],
        calls: &[Call {
            format: b"%s",
            limit: 3,
            told: Told::Failed(Status::TooLong, 1, 0, 3, Met::Byte),
            values: &[],
            held: b"d",
            reads: 2,
            failures: 0,
        }],
    },
];

/// The report is that of the call.
fn is_reported(report: &Report<'_, HeapStore>, call: &Call) -> Result<(), Fail> {
    is(&report.outcome(), &call.told.outcome(), &call.format)?;
    has_values(report, call.values, &call.format)
}

/// The call on the source, over a store of its own.
pub(crate) fn is_call<S: Source, const N: usize>(
    alloc: Global,
    from: &mut Lookahead<S, N>,
    call: &Call,
) -> Result<(), Fail> {
    let format = ScanFormat::parse(alloc, Profile::One, call.format)?;
    let scanned = fscan(alloc, from, &format, call.limit)?;
    is_reported(&scanned.report(), call)
}

/// The call on the source, over a store that was used before, which is given back.
fn is_call_over<S: Source, const N: usize>(
    alloc: Global,
    store: HeapStore,
    from: &mut Lookahead<S, N>,
    call: &Call,
) -> Result<HeapStore, Fail> {
    let format = ScanFormat::parse(alloc, Profile::One, call.format)?;
    let scanned = fscan_over(alloc, store, from, &format, call.limit)?;
    is_reported(&scanned.report(), call)?;
    Ok(scanned.into_store())
}

/// A script that is read by blocks of N bytes.
type Blocks<'a, const N: usize> = Lookahead<ScriptSource<'a>, N>;

/// What stands after the call is as it says.
fn leaves<const N: usize>(from: &Blocks<'_, N>, call: &Call) -> Result<(), Fail> {
    let script = from.source();
    let found = (from.held(), script.reads(), script.failures());
    is(
        &found,
        &(call.held, call.reads, call.failures),
        &call.format,
    )
}

/// The calls in turn, each over a store of its own.
fn each_alone<const N: usize>(
    alloc: Global,
    from: &mut Blocks<'_, N>,
    calls: &[Call],
) -> Result<(), Fail> {
    for call in calls {
        is_call(alloc, from, call)?;
        leaves(from, call)?;
    }
    Ok(())
}

/// The calls in turn, over one store.
fn over_one_store<const N: usize>(
    alloc: Global,
    from: &mut Blocks<'_, N>,
    calls: &[Call],
) -> Result<(), Fail> {
    let mut store = HeapStore::new(alloc, 0)?;
    for call in calls {
        store = is_call_over(alloc, store, from, call)?;
        leaves(from, call)?;
    }
    Ok(())
}

/// The session, by blocks of N bytes.
fn is_session<const N: usize>(alloc: Global, session: &Session) -> Result<(), Fail>
    requires few { N ≤ 4096 }
    requires some { 1 ≤ N }
{
    let mut from = Blocks::<'_, N>::new(ScriptSource::new(session.steps));
    each_alone(alloc, &mut from, session.calls)?;
    let mut from = Blocks::<'_, N>::new(ScriptSource::new(session.steps));
    over_one_store(alloc, &mut from, session.calls)
}

/// The session, by blocks of its length.
fn is_any_session(alloc: Global, session: &Session) -> Result<(), Fail> {
    match session.block {
        2 => is_session::<2>(alloc, session),
        16 => is_session::<16>(alloc, session),
        _ => is_session::<4096>(alloc, session),
    }
}

#[test]
fn calls_in_turn(rt: HostRuntime) -> Result<(), Fail> {
    for session in &SESSIONS {
        is_any_session(rt.alloc(), session)?;
    }
    Ok(())
}
