//! Rows of the record loop: inputs in blocks, and devices that fail.
ghost use Rattle.std.specs.Prelude.{◌≤◌};

use crate::shared::is;
use sf_command::{ToolEnd, ToolFault, run_scan};
use sf_format::{Profile, ScanFormat};
use sf_print::{ListSink, ScriptSink, Sink, WriteStep};
use sf_read::{Lookahead, ReadStep, ScriptSource, SliceSource, Source, StdSource};
use sf_run::{Ending, Outcome, Status};
use std::fmt::Debug;
use std::io::{self, Read};
use std::process::Abort;
use std::test::Fail;

const LIMIT: u32 = 1048576;

/// A format, and the most bytes of a record.
type Scan = (&'static str, u32);

/// The loop over a source into a sink ends so.
fn ends<S: Source, K: Sink, const N: usize>(
    rt: &(impl Abort + AllocGlobal),
    from: &mut Lookahead<S, N>,
    to: &mut K,
    scan: Scan,
    wanted: &ToolEnd,
    place: &impl Debug,
) -> Result<(), Fail>
    requires { scan.1 ≤ 2147483647 }
{
    let (format, limit) = scan;
    let format = ScanFormat::parse(rt.alloc(), Profile::One, format.as_bytes())?;
    let end = run_scan(rt.alloc(), from, to, &format, limit);
    is(rt, &end, wanted, place);
    Ok(())
}

/// The loop over a source writes this output, and ends so.
fn writes<S: Source, const N: usize>(
    rt: &(impl Abort + AllocGlobal),
    from: &mut Lookahead<S, N>,
    scan: Scan,
    output: &[u8],
    wanted: &ToolEnd,
    place: &impl Debug,
) -> Result<(), Fail>
    requires { scan.1 ≤ 2147483647 }
{
    let mut out = ListSink::new(rt.alloc());
    ends(rt, from, &mut out, scan, wanted, place)?;
    is(rt, &out.bytes(), &output, place);
    Ok(())
}

/// A row: a format, a text, the output, and how the loop ends.
#[derive(Drop)]
struct Row {
    format: &'static str,
    text: &'static [u8],
    output: &'static [u8],
    end: ToolEnd,
}

static ROWS: [Row; 5] = [
    Row {
        format: "%d,%d",
        text: b"12,-7\n3,4\n",
        output: b"12 -7\n3 4\n",
        end: ToolEnd {
            status: 0,
            records: 2,
            fault: None,
        },
    },
    Row {
        format: "%d,%d",
        text: b"1,2\n3;4\n",
        output: b"1 2\n",
        end: ToolEnd {
            status: 1,
            records: 1,
            fault: Some(ToolFault::Failed {
                number: 2,
                outcome: Outcome {
                    status: Status::MatchingFailure,
                    at: 2,
                    assigned: 1,
                    converted: 1,
                    used: 2,
                    met: None,
                },
            }),
        },
    },
    Row {
        format: "%n",
        text: b"abc",
        output: b"",
        end: ToolEnd {
            status: 1,
            records: 0,
            fault: Some(ToolFault::Stalled { number: 1 }),
        },
    },
    Row {
        format: "%3c",
        text: b"abcdef\n",
        output: b"\"abc\"\n\"def\"\n",
        end: ToolEnd {
            status: 1,
            records: 2,
            fault: Some(ToolFault::Failed {
                number: 3,
                outcome: Outcome {
                    status: Status::MatchingFailure,
                    at: 1,
                    assigned: 0,
                    converted: 0,
                    used: 1,
                    met: Some(Ending::End),
                },
            }),
        },
    },
    Row {
        format: "%2$d %1$s",
        text: b"7 ab\n-8 c\n",
        output: b"\"ab\" 7\n\"c\" -8\n",
        end: ToolEnd {
            status: 0,
            records: 2,
            fault: None,
        },
    },
];

/// The rows by blocks of N bytes.
fn by_blocks<const N: usize>(rt: &(impl Abort + AllocGlobal)) -> Result<(), Fail>
    requires few { N ≤ 4096 }
    requires some { 1 ≤ N }
{
    for row in &ROWS {
        let mut from = Lookahead::<SliceSource<'_>, N>::new(SliceSource::new(row.text));
        writes(
            rt,
            &mut from,
            (row.format, LIMIT),
            row.output,
            &row.end,
            &row.format,
        )?;
    }
    Ok(())
}

#[test]
fn rows_in_blocks(rt: HostRuntime) -> Result<(), Fail> {
    by_blocks::<1>(&rt)?;
    by_blocks::<2>(&rt)?;
    by_blocks::<3>(&rt)?;
    by_blocks::<7>(&rt)?;
    by_blocks::<4096>(&rt)
}

const TEXT: &[u8] = b"12,-7\n3,4\n";

/// The lines of the records of TEXT.
const LINES: &[u8] = b"12 -7\n3 4\n";

/// A read fails after 0, 1, 2 .. bytes of TEXT: the lines and the number of records written by then, and the run that
/// meets it.
static CUTS: [(&[u8], u32, u32); 11] = [
    (b"", 0, 1),
    (b"", 0, 1),
    (b"", 0, 1),
    (b"", 0, 1),
    (b"", 0, 1),
    (b"12 -7\n", 1, 1),
    (b"12 -7\n", 1, 2),
    (b"12 -7\n", 1, 2),
    (b"12 -7\n", 1, 2),
    (LINES, 2, 2),
    (LINES, 2, 3),
];

#[test]
fn each_read_fails_in_turn(rt: HostRuntime) -> Result<(), Fail> {
    for (at, &(lines, records, number)) in CUTS.iter().enumerate() {
        let steps = [
            ReadStep::Give(&TEXT[..at.min(TEXT.len())]),
            ReadStep::Fail,
            ReadStep::Give(TEXT),
        ];
        let mut from = Lookahead::<ScriptSource<'_>, 3>::new(ScriptSource::new(&steps));
        let wanted = ToolEnd {
            status: 3,
            records,
            fault: Some(ToolFault::Read { number }),
        };
        writes(&rt, &mut from, ("%d,%d", LIMIT), lines, &wanted, &at)?;
        is(&rt, &from.source().failures(), &1, &at);
    }
    Ok(())
}

/// The loop over TEXT, in blocks of N bytes, into a sink that follows a script: what the sink took, and how the loop
/// ends.
fn is_taken<const N: usize>(
    rt: &(impl Abort + AllocGlobal),
    steps: &[WriteStep],
    taken: &[u8],
    wanted: &ToolEnd,
) -> Result<(), Fail>
    requires few { N ≤ 4096 }
    requires some { 1 ≤ N }
{
    let mut from = Lookahead::<SliceSource<'_>, N>::new(SliceSource::new(TEXT));
    let mut out = ScriptSink::new(rt.alloc(), steps);
    ends(rt, &mut from, &mut out, ("%d,%d", LIMIT), wanted, &taken)?;
    is(rt, &out.bytes(), &taken, &taken);
    Ok(())
}

#[test]
fn each_write_fails_in_turn(rt: HostRuntime) -> Result<(), Fail> {
    for at in 0..LINES.len() {
        let steps = [WriteStep::Accept(at), WriteStep::Fail];
        let wanted = ToolEnd {
            status: 3,
            records: if at < 6 { 0 } else { 1 },
            fault: Some(ToolFault::Write),
        };
        is_taken::<4096>(&rt, &steps, &LINES[..at], &wanted)?;
    }
    Ok(())
}

#[test]
fn short_writes(rt: HostRuntime) -> Result<(), Fail> {
    let wanted = ToolEnd {
        status: 0,
        records: 2,
        fault: None,
    };
    for size in [1, 2, 3] {
        is_taken::<2>(&rt, &[WriteStep::Accept(size); 12], LINES, &wanted)?;
    }
    Ok(())
}

#[test]
fn a_failing_read_after_a_record(rt: HostRuntime) -> Result<(), Fail> {
    let steps = [ReadStep::Give(b"12"), ReadStep::Fail];
    let mut from = Lookahead::<ScriptSource<'_>, 4096>::new(ScriptSource::new(&steps));
    let wanted = ToolEnd {
        status: 3,
        records: 1,
        fault: Some(ToolFault::Read { number: 1 }),
    };
    writes(&rt, &mut from, ("%d", LIMIT), b"12\n", &wanted, &"read")
}

const UNMATCHED: Outcome = Outcome {
    status: Status::MatchingFailure,
    at: 1,
    assigned: 0,
    converted: 0,
    used: 1,
    met: None,
};

/// The blank before the `x` is used, and nothing after it.
#[test]
fn the_rest_stays_unread(rt: HostRuntime) -> Result<(), Fail> {
    let mut from = Lookahead::<SliceSource<'_>, 4096>::new(SliceSource::new(b"1 2 x 3"));
    let wanted = ToolEnd {
        status: 1,
        records: 2,
        fault: Some(ToolFault::Failed {
            number: 3,
            outcome: UNMATCHED,
        }),
    };
    writes(&rt, &mut from, ("%d", LIMIT), b"1\n2\n", &wanted, &"rest")?;
    is(&rt, &from.held(), &b"x 3".as_slice(), &"held");
    Ok(())
}

/// A reader that fills each buffer with blanks.
#[derive(Drop)]
struct Blanks;

impl Read for Blanks {
    fn read(&mut self, buf: &mut [u8]) -> io::Result<usize> {
        buf.fill(b' ');
        Ok(buf.len())
    }
}

const BLANKS_TOO_LONG: Outcome = Outcome {
    status: Status::TooLong,
    at: 1,
    assigned: 0,
    converted: 0,
    used: 100,
    met: None,
};

#[test]
fn a_limit_ends_endless_blanks(rt: HostRuntime) -> Result<(), Fail> {
    let mut from = Lookahead::<StdSource<Blanks>, 7>::new(StdSource::new(Blanks));
    let wanted = ToolEnd {
        status: 1,
        records: 0,
        fault: Some(ToolFault::Failed {
            number: 1,
            outcome: BLANKS_TOO_LONG,
        }),
    };
    writes(&rt, &mut from, ("%d", 100), b"", &wanted, &"blanks")
}

/// A reader whose first read is interrupted.
#[derive(Drop)]
struct Interrupted {
    reads: u32,
}

impl Read for Interrupted {
    fn read(&mut self, _buf: &mut [u8]) -> io::Result<usize> {
        if self.reads == 0 {
            self.reads = 1;
            return Err(io::Error::from(io::ErrorKind::Interrupted));
        }
        Ok(0)
    }
}

#[test]
fn an_interrupted_read_has_failed(rt: HostRuntime) -> Result<(), Fail> {
    let reader = Interrupted { reads: 0 };
    let mut from = Lookahead::<StdSource<Interrupted>, 7>::new(StdSource::new(reader));
    let wanted = ToolEnd {
        status: 3,
        records: 0,
        fault: Some(ToolFault::Read { number: 1 }),
    };
    writes(&rt, &mut from, ("%d", LIMIT), b"", &wanted, &"interrupted")
}
