//! What is written, told and answered for the lines of an input, with values found by reading the rules of the loop:
//! each line is an input of its own, as for fgets and sscanf (C11 7.21.7.2, 7.21.6.7).
ghost use Rattle.std.specs.Prelude.{◌≤◌, ◌<◌, length};

use crate::by_lines::hands::{FirstText, Notes, Wanted, is_ended, is_found, parsed, run};
use sf_print::{ListSink, ScriptSink, WriteStep};
use sf_read::{Lookahead, ReadStep, ScriptSource, SliceSource};
use sf_records::{LineFormats, LineRead, LinesEnd, LinesFault, LinesOptions, next_line, run_lines};
use std::alloc::Global;
use std::process::Abort;
use std::test::Fail;

const LIMIT: u32 = 1048576;

const PLAIN: LinesOptions = LinesOptions {
    limit: LIMIT,
    skip: 0,
    whole: false,
    keep_going: false,
    matching: false,
};

const KEEP_GOING: LinesOptions = LinesOptions {
    limit: LIMIT,
    skip: 0,
    whole: false,
    keep_going: true,
    matching: false,
};

/// A format has to use a line to its end; the loop keeps going.
const WHOLE: LinesOptions = LinesOptions {
    limit: LIMIT,
    skip: 0,
    whole: true,
    keep_going: true,
    matching: false,
};

/// A line of more than three bytes is too long; the loop keeps going.
const SHORT: LinesOptions = LinesOptions {
    limit: 3,
    skip: 0,
    whole: false,
    keep_going: true,
    matching: false,
};

/// The first line is passed over.
const SKIP_1: LinesOptions = LinesOptions {
    limit: LIMIT,
    skip: 1,
    whole: false,
    keep_going: false,
    matching: false,
};

/// The first line is passed over; a line of more than three bytes is too long.
const SHORT_SKIP_1: LinesOptions = LinesOptions {
    limit: 3,
    skip: 1,
    whole: false,
    keep_going: false,
    matching: false,
};

const SKIP_2: LinesOptions = LinesOptions {
    limit: LIMIT,
    skip: 2,
    whole: false,
    keep_going: false,
    matching: false,
};

const SKIP_9: LinesOptions = LinesOptions {
    limit: LIMIT,
    skip: 9,
    whole: false,
    keep_going: false,
    matching: false,
};

/// One format, and no second one.
const ONE: Texts = &["%s"];

/// The texts of formats.
type Texts = &'static [&'static str];

/// One format or two, how, an input, what is written and told, and the counts of both.
type Row = (
    Texts,
    LinesOptions,
    &'static str,
    &'static str,
    &'static str,
    (u64, u64),
);

static ROWS: [Row; 25] = [
    // Lines, and lines that don't match.
    (ONE, PLAIN, "", "", "", (0, 0)),
    (ONE, PLAIN, "ab\ncd\n", "ab\ncd\n", "", (2, 0)),
    // A last line without its newline.
    (ONE, PLAIN, "ab\ncd", "ab\ncd\n", "", (2, 0)),
    // What the format leaves of a line is no record of its own.
    (ONE, PLAIN, "ab cd\nef gh", "ab\nef\n", "", (2, 0)),
    // An empty line doesn't match, and ends the loop.
    (ONE, PLAIN, "\nab\n", "", "1m-", (0, 1)),
    (
        ONE,
        KEEP_GOING,
        "\nab\n\ncd\n",
        "ab\ncd\n",
        "1m-3m-",
        (2, 2),
    ),
    (ONE, KEEP_GOING, "\n\n", "", "1m-2m-", (0, 2)),
    // A conversion doesn't go on after the newline.
    (
        &["%*d %s"],
        KEEP_GOING,
        "1\nab\n2 cd\n",
        "cd\n",
        "1m12ma",
        (1, 2),
    ),
    (&["%*d %s"], PLAIN, "1 ab\nx\n2 cd\n", "ab\n", "2mx", (1, 1)),
    // Lines that are passed over.
    (ONE, SKIP_1, "head\nab\n", "ab\n", "", (1, 0)),
    (
        &["%*d %s"],
        SKIP_2,
        "x\ny\n1 ab\n2 cd",
        "ab\ncd\n",
        "",
        (2, 0),
    ),
    (&["%*d %s"], SKIP_1, "x\ny\n1 ab\n", "", "2my", (0, 1)),
    (ONE, SKIP_9, "ab\ncd\n", "", "", (0, 0)),
    (ONE, SHORT_SKIP_1, "abcdefgh\nab\n", "ab\n", "", (1, 0)),
    (ONE, SHORT_SKIP_1, "abcdefgh\nabcd\n", "", "2ta", (0, 1)),
    // Formats that have to use a line to its end.
    (ONE, WHOLE, "ab cd\nef\n", "ef\n", "1la", (1, 1)),
    (ONE, WHOLE, "ab\r\ncd\n", "cd\n", "1la", (1, 1)),
    (&["%[^\n]"], WHOLE, "ab\r\n", "ab\r\n", "", (1, 0)),
    // The first format that the line matches counts.
    (
        &["%*d %s", "%s"],
        PLAIN,
        "1 ab\ncd\n",
        "ab\ncd\n",
        "",
        (2, 0),
    ),
    (
        &["%*d,%s", "%*d;%s"],
        WHOLE,
        "1;ab\n2,cd\n3;ef\n4.gh\n",
        "ab\ncd\nef\n",
        "4m4",
        (3, 1),
    ),
    (
        &["%s", "%*d %s"],
        PLAIN,
        "1 ab\ncd\n",
        "1\ncd\n",
        "",
        (2, 0),
    ),
    (
        &["%s", "%s %*s"],
        WHOLE,
        "ab cd\nef\nab cd ef\n",
        "ab\nef\n",
        "3la",
        (2, 1),
    ),
    (
        &["%*d %s", "%*[x]%s"],
        KEEP_GOING,
        "ab\nxcd\n",
        "cd\n",
        "1ma",
        (1, 1),
    ),
    // Lines of more bytes than the limit.
    (
        ONE,
        SHORT,
        "abc\nabcd\nef\nabcdefghi",
        "abc\nef\n",
        "2ta4ta",
        (2, 2),
    ),
    (&["%3s"], SHORT, "abcd\nab", "ab\n", "1ta", (1, 1)),
];

/// The loop over the row's lines, read by blocks of N bytes.
fn by_blocks<const N: usize>(
    rt: &(impl Abort + AllocGlobal),
    row: &Row,
    formats: &LineFormats<'_>,
) -> Result<(), Fail>
    requires few { N ≤ 4096 }
    requires some { 1 ≤ N }
{
    let (_, options, text, output, told, counts) = row;
    let mut maker = FirstText::new(rt.alloc());
    let found = run::<_, N>(rt.alloc(), text.as_bytes(), &mut maker, formats, *options)?;
    is_found(rt, &found, output, told, *counts);
    Ok(())
}

/// The row, read by blocks of one byte, of few, and of many.
fn is_row(rt: &(impl Abort + AllocGlobal), row: &Row) -> Result<(), Fail> {
    let tried = parsed(rt.alloc(), row.0)?;
    let formats = LineFormats {
        ignored: &[],
        tried: &tried,
    };
    by_blocks::<1>(rt, row, &formats)?;
    by_blocks::<3>(rt, row, &formats)?;
    by_blocks::<64>(rt, row, &formats)
}

#[test]
fn lines_are_scanned_one_by_one(rt: HostRuntime) -> Result<(), Fail> {
    for row in &ROWS {
        is_row(&rt, row)?;
    }
    Ok(())
}

/// What reads give, what writes take, whether memory is refused for what is told, and what the loop comes to.
type Failure = (
    &'static [ReadStep<'static>],
    &'static [WriteStep],
    bool,
    Wanted,
);

static FAILURES: [Failure; 3] = [
    // A read fails within a line.
    (
        &[
            ReadStep::Give(b"ab\nc"),
            ReadStep::Fail,
            ReadStep::Give(b"d\n"),
        ],
        &[],
        false,
        Wanted {
            output: "ab\n",
            told: "",
            end: LinesEnd {
                status: 3,
                written: 1,
                failed: 0,
                fault: Some(LinesFault::Read { line: 2 }),
            },
        },
    ),
    // The sink fails within a line.
    (
        &[ReadStep::Give(b"ab\n\ncd\n")],
        &[WriteStep::Accept(4), WriteStep::Fail],
        false,
        Wanted {
            output: "ab\nc",
            told: "2m-",
            end: LinesEnd {
                status: 3,
                written: 1,
                failed: 1,
                fault: Some(LinesFault::Write),
            },
        },
    ),
    // Memory is refused for what is told.
    (
        &[ReadStep::Give(b"ab\n\ncd\n")],
        &[],
        true,
        Wanted {
            output: "ab\n",
            told: "",
            end: LinesEnd {
                status: 4,
                written: 1,
                failed: 0,
                fault: Some(LinesFault::Memory),
            },
        },
    ),
];

/// A read fails within the rest of a line above the limit, which was told.
static LONG_FAILURE: Failure = (
    &[
        ReadStep::Give(b"ab\nabcd"),
        ReadStep::Give(b"e"),
        ReadStep::Fail,
        ReadStep::Give(b"f\n"),
    ],
    &[],
    false,
    Wanted {
        output: "ab\n",
        told: "2ta",
        end: LinesEnd {
            status: 3,
            written: 1,
            failed: 1,
            fault: Some(LinesFault::Read { line: 2 }),
        },
    },
);

/// A line above the limit stops the loop: the read that would fail is not asked for.
static LONG_STOP: Failure = (
    &[ReadStep::Give(b"ab\nabcd"), ReadStep::Fail],
    &[],
    false,
    Wanted {
        output: "",
        told: "2ta",
        end: LinesEnd {
            status: 1,
            written: 0,
            failed: 1,
            fault: None,
        },
    },
);

/// How many reads have failed where a loop ends so.
fn failed_reads(end: LinesEnd) -> u64 {
    match end.fault {
        Some(LinesFault::Read { .. }) => 1,
        _ => 0,
    }
}

/// The loop, with what fails.
fn fails_so(
    rt: &(impl Abort + AllocGlobal),
    failure: &Failure,
    formats: &LineFormats<'_>,
    options: LinesOptions,
) -> Result<(), Fail>
    requires some { 0 < length formats.now.tried.now }
    requires limit { options.limit ≤ 2147483647 }
{
    let (reads, writes, refuses, wanted) = failure;
    let mut from = Lookahead::<ScriptSource<'_>, 64>::new(ScriptSource::new(reads));
    let mut to = ScriptSink::new(rt.alloc(), writes);
    let mut teller = Notes::new(rt.alloc(), *refuses);
    let mut maker = FirstText::new(rt.alloc());
    let end = run_lines(
        rt.alloc(),
        &mut from,
        &mut to,
        &mut maker,
        &mut teller,
        formats,
        options,
    );
    is_ended(rt, to.bytes(), &teller.said, end, wanted);
    assert_eq!(rt; from.source().failures(), failed_reads(end));
    Ok(())
}

#[test]
fn devices_fail(rt: HostRuntime) -> Result<(), Fail> {
    let tried = parsed(rt.alloc(), ONE)?;
    assert!(rt; !tried.is_empty());
    let formats = LineFormats {
        ignored: &[],
        tried: &tried,
    };
    for failure in &FAILURES {
        fails_so(&rt, failure, &formats, KEEP_GOING)?;
    }
    fails_so(&rt, &LONG_FAILURE, &formats, SHORT)?;
    fails_so(&rt, &LONG_STOP, &formats, SHORT_SKIP_1)
}

/// How the loop over the lines of a source ends by `%s`, at the first that doesn't match.
fn stopped(
    alloc: Global,
    from: &mut Lookahead<SliceSource<'_>, 64>,
    formats: &LineFormats<'_>,
) -> LinesEnd
    requires some { 0 < length formats.now.tried.now }
{
    let mut to = ListSink::new(alloc);
    let mut teller = Notes::new(alloc, false);
    let mut maker = FirstText::new(alloc);
    run_lines(
        alloc,
        from,
        &mut to,
        &mut maker,
        &mut teller,
        formats,
        PLAIN,
    )
}

#[test]
fn the_lines_after_a_stop_are_left(rt: HostRuntime) -> Result<(), Fail> {
    let tried = parsed(rt.alloc(), ONE)?;
    assert!(rt; !tried.is_empty());
    let formats = LineFormats {
        ignored: &[],
        tried: &tried,
    };
    let mut from = Lookahead::<SliceSource<'_>, 64>::new(SliceSource::new(b"ab\n\ncd\nef"));
    let end = stopped(rt.alloc(), &mut from, &formats);
    let mut line = Vec::new(rt.alloc());
    let read = next_line(&mut from, &mut line, 8);
    assert_eq!(rt; end.failed, 1);
    assert_eq!(rt; read, LineRead::Line);
    assert!(rt; line.as_slice() == b"cd".as_slice(), "{line:?}");
    Ok(())
}

/// Lines of each length from 1 to 40.
fn lines_to_40(alloc: Global) -> Result<Vec<u8>, Fail> {
    let mut text = Vec::new(alloc);
    for len in 1..41usize {
        text.resize(text.len().saturating_add(len), b'a' + (len % 26) as u8)?;
        text.push(b'\n')?;
    }
    Ok(text)
}

/// All of the lines are written as they are, read by blocks of N bytes.
fn are_written<const N: usize>(
    rt: &(impl Abort + AllocGlobal),
    text: &[u8],
    formats: &LineFormats<'_>,
) -> Result<(), Fail>
    requires few { N ≤ 4096 }
    requires some { 1 ≤ N }
{
    let mut maker = FirstText::new(rt.alloc());
    let found = run::<_, N>(rt.alloc(), text, &mut maker, formats, PLAIN)?;
    assert_eq!(rt; found.end.written, 40);
    assert!(rt; found.to.bytes() == text, "at {N}");
    Ok(())
}

/// Lines of each length from 1 to 40, held whole or not: each is written as it is.
#[test]
fn lines_of_each_length(rt: HostRuntime) -> Result<(), Fail> {
    let text = lines_to_40(rt.alloc())?;
    let tried = parsed(rt.alloc(), ONE)?;
    let formats = LineFormats {
        ignored: &[],
        tried: &tried,
    };
    are_written::<4096>(&rt, &text, &formats)?;
    are_written::<33>(&rt, &text, &formats)
}
