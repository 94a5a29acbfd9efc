//! Rows of copies, and their copies, read by blocks.
ghost use Rattle.std.specs.Prelude.{◌≤◌};

use sf_format::{PrintFormat, Profile, ScanFormat};
use sf_pair::Pair;
use sf_print::{ListSink, Sink};
use sf_read::{Lookahead, SliceSource, Source};
use sf_records::{ToolEnd, ToolFault, run_copy};
use sf_run::{Ending, Outcome, Status};
use std::alloc::Global;
use std::fmt::Debug;
use std::process::Abort;
use std::test::Fail;

pub(crate) const LIMIT: u32 = 1048576;

/// A print format, and the scan format of the pair.
pub(crate) type Formats = (&'static str, &'static str);

/// A number and a word on a line.
pub(crate) const WIDE: Formats = ("%d,%s\n", "%11d,%20s%*1[\n]");

/// What is found is what is wanted; else the place is named.
pub(crate) fn is<T: Debug + PartialEq>(rt: &impl Abort, found: &T, wanted: &T, place: &impl Debug) {
    assert_eq!(rt; found, wanted, "at {place:?}");
}

/// The copy of what a source gives by two formats.
pub(crate) fn copied<S: Source, K: Sink, const N: usize>(
    alloc: Global,
    from: &mut Lookahead<S, N>,
    to: &mut K,
    formats: Formats,
) -> Result<ToolEnd, Fail> {
    let print = PrintFormat::parse(alloc, Profile::One, formats.0.as_bytes())?;
    let scan = ScanFormat::parse(alloc, Profile::One, formats.1.as_bytes())?;
    let pair = Pair::check(&print, &scan)?;
    Ok(run_copy(alloc, from, to, &pair, LIMIT))
}

/// The end of a copy of so many records.
pub(crate) fn clean_end(records: u32) -> ToolEnd {
    ToolEnd {
        status: 0,
        records,
        fault: None,
    }
}

/// The copy of a text, read by blocks of N bytes, ends so, and this is what it wrote.
pub(crate) fn is_copied<const N: usize>(
    rt: &(impl Abort + AllocGlobal),
    formats: Formats,
    text: &[u8],
    output: &[u8],
    end: ToolEnd,
) -> Result<(), Fail>
    requires few { N ≤ 4096 }
    requires some { 1 ≤ N }
{
    let mut from = Lookahead::<SliceSource<'_>, N>::new(SliceSource::new(text));
    let mut out = ListSink::new(rt.alloc());
    let found = copied(rt.alloc(), &mut from, &mut out, formats)?;
    is(rt, &found, &end, &formats);
    assert!(rt; out.bytes() == output, "at {formats:?}");
    Ok(())
}

/// A row: two formats, a text, its copy, how many records that has, and how the copy ends.
#[derive(Drop)]
struct Row {
    formats: Formats,
    text: &'static str,
    output: &'static str,
    end: ToolEnd,
}

/// The row by blocks of N bytes; its copy is copied again and stays as it is.
fn by_blocks<const N: usize>(rt: &(impl Abort + AllocGlobal), row: &Row) -> Result<(), Fail>
    requires few { N ≤ 4096 }
    requires some { 1 ≤ N }
{
    let (text, output) = (row.text.as_bytes(), row.output.as_bytes());
    is_copied::<N>(rt, row.formats, text, output, row.end)?;
    is_copied::<N>(rt, row.formats, output, output, clean_end(row.end.records))
}

/// What the last record comes to where its newline is missing.
const CUT: Outcome = Outcome {
    status: Status::InputFailure,
    at: 4,
    assigned: 2,
    converted: 2,
    used: 4,
    met: Some(Ending::End),
};

const FAILED: Outcome = Outcome {
    status: Status::MatchingFailure,
    at: 1,
    assigned: 0,
    converted: 0,
    used: 0,
    met: None,
};

static ROWS: [Row; 7] = [
    Row {
        formats: WIDE,
        text: " +7,ab\n08,c\n",
        output: "7,ab\n8,c\n",
        end: ToolEnd {
            status: 0,
            records: 2,
            fault: None,
        },
    },
    Row {
        formats: WIDE,
        text: "7,ab",
        output: "",
        end: ToolEnd {
            status: 1,
            records: 0,
            fault: Some(ToolFault::Failed {
                number: 1,
                outcome: CUT,
            }),
        },
    },
    Row {
        formats: WIDE,
        text: "",
        output: "",
        end: ToolEnd {
            status: 0,
            records: 0,
            fault: None,
        },
    },
    Row {
        formats: ("%+d;", "%3d;"),
        text: "12;123;",
        output: "+12;",
        end: ToolEnd {
            status: 1,
            records: 1,
            fault: Some(ToolFault::Unfit { number: 2 }),
        },
    },
    Row {
        formats: WIDE,
        text: "1,a\nx,b\n",
        output: "1,a\n",
        end: ToolEnd {
            status: 1,
            records: 1,
            fault: Some(ToolFault::Failed {
                number: 2,
                outcome: FAILED,
            }),
        },
    },
    Row {
        formats: ("%2$s %1$d\n", "%2$5s %1$4d%*c"),
        text: "ab 12.\tc   -7;",
        output: "ab 12\nc -7\n",
        end: ToolEnd {
            status: 0,
            records: 2,
            fault: None,
        },
    },
    Row {
        formats: ("%05d%03u", "%5d%3u"),
        text: "-0042007   12  3",
        output: "-004200700012003",
        end: ToolEnd {
            status: 0,
            records: 2,
            fault: None,
        },
    },
];

#[test]
fn rows_in_blocks(rt: HostRuntime) -> Result<(), Fail> {
    for row in &ROWS {
        by_blocks::<1>(&rt, row)?;
        by_blocks::<2>(&rt, row)?;
        by_blocks::<7>(&rt, row)?;
        by_blocks::<4096>(&rt, row)?;
    }
    Ok(())
}

/// Where the copy stops, what it didn't use stays held.
#[test]
fn the_rest_stays_unread(rt: HostRuntime) -> Result<(), Fail> {
    let mut from = Lookahead::<_, 4096>::new(SliceSource::new(b"12;123;4;"));
    let mut out = ListSink::new(rt.alloc());
    let end = copied(rt.alloc(), &mut from, &mut out, ("%+d;", "%3d;"))?;
    is(
        &rt,
        &end.fault,
        &Some(ToolFault::Unfit { number: 2 }),
        &"end",
    );
    is(&rt, &from.held(), &b"4;".as_slice(), &"rest");
    Ok(())
}
