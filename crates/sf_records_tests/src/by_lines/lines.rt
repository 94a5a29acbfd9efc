//! Texts and their lines, as fgets reads them (C11 7.21.7.2), without their newlines.
ghost use Rattle.std.specs.Prelude.{◌≤◌};

use sf_read::{Lookahead, ReadStep, ScriptSource, Source};
use sf_records::{LineRead, next_line};
use std::process::Abort;
use std::test::Fail;

/// The most lines that a test reads.
const MOST: usize = 16;

/// Appends the lines of at most `limit` bytes that a reader gives, with a bar after each, and an exclamation mark after
/// the first bytes of each that is longer. Says what stood after them.
fn list<S: Source, const N: usize>(
    from: &mut Lookahead<S, N>,
    limit: usize,
    line: &mut Vec<u8>,
    out: &mut Vec<u8>,
) -> Result<LineRead, Fail> {
    for _ in 0..MOST {
        let end = match next_line(from, line, limit) {
            LineRead::Line => "|",
            LineRead::TooLong => "!|",
            last => return Ok(last),
        };
        out.extend_from_slice(line)?;
        out.extend_from_slice(end.as_bytes())?;
    }
    Ok(LineRead::Endless)
}

/// Read in blocks of N bytes, a source has these lines, and then that.
fn has_lines<const N: usize>(
    rt: &(impl Abort + AllocGlobal),
    steps: &[ReadStep<'_>],
    limit: usize,
    wanted: &str,
    end: LineRead,
) -> Result<(), Fail>
    requires few { N ≤ 4096 }
    requires some { 1 ≤ N }
{
    let mut from = Lookahead::<ScriptSource<'_>, N>::new(ScriptSource::new(&*steps));
    let mut line = Vec::new(rt.alloc());
    let mut out = Vec::new(rt.alloc());
    let last = list(&mut from, limit, &mut line, &mut out)?;
    assert_eq!(rt; last, end, "at {wanted}");
    assert!(rt; out.as_slice() == wanted.as_bytes(), "at {wanted}: {out:?}");
    Ok(())
}

/// Texts, the most bytes of a line, and their lines of so many bytes with a bar after each.
static ROWS: [(&str, usize, &str); 12] = [
    ("", 8, ""),
    ("\n", 8, "|"),
    ("a", 8, "a|"),
    ("a\n", 8, "a|"),
    ("\na", 8, "|a|"),
    ("ab\n\ncd", 8, "ab||cd|"),
    ("ab\n\n\n", 8, "ab|||"),
    ("12 x\r\n\t 7\n", 8, "12 x\r|\t 7|"),
    ("ab\nabc\nd", 2, "ab|ab!|d|"),
    ("abcdefgh\n\nab", 2, "ab!||ab|"),
    ("ab\nabcd", 2, "ab|ab!|"),
    ("abc\n", 2, "ab!|"),
];

/// The text has these lines, read in blocks of one byte, of three and of many.
fn in_all_blocks(
    rt: &(impl Abort + AllocGlobal),
    text: &str,
    limit: usize,
    wanted: &str,
) -> Result<(), Fail> {
    let steps = [ReadStep::Give(text.as_bytes())];
    has_lines::<1>(rt, &steps, limit, wanted, LineRead::End)?;
    has_lines::<3>(rt, &steps, limit, wanted, LineRead::End)?;
    has_lines::<64>(rt, &steps, limit, wanted, LineRead::End)
}

#[test]
fn texts_are_cut_into_lines(rt: HostRuntime) -> Result<(), Fail> {
    for (text, limit, wanted) in &ROWS {
        in_all_blocks(&rt, text, *limit, wanted)?;
    }
    Ok(())
}

#[test]
fn a_read_fails_within_a_line(rt: HostRuntime) -> Result<(), Fail> {
    let steps = [
        ReadStep::Give(b"ab\nc"),
        ReadStep::Fail,
        ReadStep::Give(b"d\n"),
    ];
    has_lines::<64>(&rt, &steps, 8, "ab|", LineRead::Fault)
}
