//! Rows of a number and a name from scripted sources.
ghost use Rattle.std.specs.Prelude.{◌≤◌};

use arrayvec::ArrayVec;
use sf_base::{Kind, Store, Value};
use sf_format::{Profile, ScanFormat};
use sf_read::{
    Lookahead, ReadStep, Row, RowFault, ScanRowFault, ScriptSource, ShapeFault, scan_row,
};
use sf_rows::{LIMIT, Named, is};
use sf_run::{Ending, Outcome, Report, StartFault, Status};
use std::alloc::Global;
use std::test::Fail;

/// A row of one number, which is always refused.
#[derive(Drop)]
struct Refused {
    number: i32,
}

impl Row for Refused {
    ghost use Rattle.std.specs.Prelude.{[], ◌∷◌};
    ghost use Rattle.sf_base.specs.declared.values.Kind.TheVariants.{I32};
    ghost use Rattle.sf_base.specs.Data.{Number};

    ghost kinds = { I32 ∷ [] };

    ghost listed = { λ r. Number I32 r.number ∷ [] };

    fn slots() -> u8 {
        1
    }

    fn shape(slot: u8) -> Option<Kind> {
        match slot {
            1 => Some(Kind::I32),
            _ => None,
        }
    }

    fn may_miss(_slot: u8) -> bool {
        false
    }

    fn from_report<S: Store>(_alloc: Global, _report: &Report<'_, S>) -> Result<Self, RowFault> {
        Err(RowFault::NoMemory)
    }

    fn with_values(&self) -> ArrayVec<Value<'_>, 32> {
        let mut values = ArrayVec::new();
        values.push(Value::I32(self.number));
        values
    }
}

/// A row's number and name, or why there is none.
type Found<'a> = Result<(i32, &'a [u8]), ScanRowFault>;

/// A format and a limit, what is found, the bytes that are held then, and the reads of the source.
type Call = (&'static [u8], u32, Found<'static>, &'static [u8], u64);

/// What a source gives, and the calls on it.
#[derive(Drop)]
struct Session {
    steps: &'static [ReadStep<'static>],
    calls: &'static [Call],
}

const NO_NUMBER: Found<'static> = Err(ScanRowFault::Failed(Outcome {
    status: Status::MatchingFailure,
    at: 1,
    assigned: 0,
    converted: 0,
    used: 0,
    met: None,
}));

const READ_FAULT: Found<'static> = Err(ScanRowFault::Failed(Outcome {
    status: Status::InputFailure,
    at: 1,
    assigned: 0,
    converted: 0,
    used: 0,
    met: Some(Ending::Fault),
}));

/// The first slot is given a text in place of a number.
const TEXT_FIRST: Found<'static> = Err(ScanRowFault::ShapeDiffers(ShapeFault::Kinds {
    slot: 1,
    format: Kind::Text,
    row: Kind::I32,
}));

/// The first slot is given a number without a sign.
const UNSIGNED_FIRST: Found<'static> = Err(ScanRowFault::ShapeDiffers(ShapeFault::Kinds {
    slot: 1,
    format: Kind::U32,
    row: Kind::I32,
}));

const ONE_SLOT: Found<'static> = Err(ScanRowFault::ShapeDiffers(ShapeFault::Count {
    format: 1,
    row: 2,
}));

const THREE_SLOTS: Found<'static> = Err(ScanRowFault::ShapeDiffers(ShapeFault::Count {
    format: 3,
    row: 2,
}));

const BAD_LIMIT: Found<'static> = Err(ScanRowFault::Start(StartFault::BadLimit));

/// No run is begun of formats whose slots have other kinds, nor under a limit too great. The last format has the same
/// slots in another order.
static REFUSED: Session = Session {
    steps: &[ReadStep::Give(b"up 7")],
    calls: &[
        (b"%s %d", LIMIT, TEXT_FIRST, b"", 0),
        (b"%d", LIMIT, ONE_SLOT, b"", 0),
        (b"%d %s %d", LIMIT, THREE_SLOTS, b"", 0),
        (b"%u %s", LIMIT, UNSIGNED_FIRST, b"", 0),
        (b"%s %d", 2147483648, TEXT_FIRST, b"", 0),
        (b"%d %s", 2147483648, BAD_LIMIT, b"", 0),
        (b"%2$s %1$d", LIMIT, Ok((7, b"up")), b"", 2),
    ],
};

/// What is no number is left.
static NO_ROW: Session = Session {
    steps: &[ReadStep::Give(b"x")],
    calls: &[(b"%d %5s", LIMIT, NO_NUMBER, b"x", 1)],
};

/// The rest of a block is left.
static A_ROW: Session = Session {
    steps: &[ReadStep::Give(b"7 abcdefg")],
    calls: &[(b"%d %5s", LIMIT, Ok((7, b"abcde")), b"fg", 1)],
};

/// Two rows, and then a failed read.
static ROWS: Session = Session {
    steps: &[
        ReadStep::Give(b"7 u"),
        ReadStep::Give(b"p\n-8 down\n"),
        ReadStep::Fail,
    ],
    calls: &[
        (b"%d %s%*1[\n]", LIMIT, Ok((7, b"up")), b"-", 2),
        (b"%d %s%*1[\n]", LIMIT, Ok((-8, b"down")), b"", 5),
        (b"%d %s%*1[\n]", LIMIT, READ_FAULT, b"", 6),
    ],
};

/// A script that is read by blocks of N bytes.
type Blocks<'a, const N: usize> = Lookahead<ScriptSource<'a>, N>;

/// The row by the format, or why there is none.
fn row<T: Row, const N: usize>(
    alloc: Global,
    from: &mut Blocks<'_, N>,
    format: &[u8],
    limit: u32,
) -> Result<Result<T, ScanRowFault>, Fail> {
    let format = ScanFormat::parse(alloc, Profile::One, format)?;
    Ok(scan_row::<T, _, N>(alloc, from, &format, limit))
}

/// What was found, what is held and the reads are as the call says.
fn is_found<const N: usize>(
    found: &Result<Named, ScanRowFault>,
    from: &Blocks<'_, N>,
    call: &Call,
) -> Result<(), Fail> {
    let named = match found {
        Ok(row) => Ok((row.number, row.name.as_slice())),
        Err(fault) => Err(*fault),
    };
    let found = (named, from.held(), from.source().reads());
    is(&found, &(call.2, call.3, call.4), &call.0)
}

/// The calls in turn.
fn are_calls<const N: usize>(
    alloc: Global,
    from: &mut Blocks<'_, N>,
    calls: &[Call],
) -> Result<(), Fail> {
    for call in calls {
        let found = row(alloc, from, call.0, call.1)?;
        is_found(&found, from, call)?;
    }
    Ok(())
}

/// The session, by blocks of N bytes.
fn is_session<const N: usize>(alloc: Global, session: &Session) -> Result<(), Fail>
    requires few { N ≤ 4096 }
    requires some { 1 ≤ N }
{
    let mut from = Blocks::<'_, N>::new(ScriptSource::new(session.steps));
    are_calls(alloc, &mut from, session.calls)
}

#[test]
fn rows_in_turn(rt: HostRuntime) -> Result<(), Fail> {
    is_session::<7>(rt.alloc(), &REFUSED)?;
    is_session::<7>(rt.alloc(), &NO_ROW)?;
    is_session::<4096>(rt.alloc(), &A_ROW)?;
    is_session::<3>(rt.alloc(), &ROWS)
}

#[test]
fn a_refused_row_is_consumed(rt: HostRuntime) -> Result<(), Fail> {
    let steps = [ReadStep::Give(b"12;34")];
    let mut from = Blocks::<'_, 7>::new(ScriptSource::new(&steps));
    let found = row::<Refused, 7>(rt.alloc(), &mut from, b"%d;", LIMIT)?;
    let found = (found.err(), from.held());
    let wanted = (Some(ScanRowFault::NoMemory), b"34".as_slice());
    is(&found, &wanted, &"12;34")
}
