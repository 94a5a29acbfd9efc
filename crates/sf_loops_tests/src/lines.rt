//! Loops over lines.
ghost use Rattle.std.specs.Prelude.{◌≤◌};

use crate::answers::{LIMIT, is, is_item, newlines_of, said};
use sf_base::Value;
use sf_format::{Profile, ScanFormat};
use sf_loops::{LineReports, Lines};
use sf_read::{ReadStep, ScriptSource, SliceSource};
use std::alloc::Global;
use std::test::Fail;

static TEXT: &[u8] = b"12,-7\n3;\"4\"\n\n 5,6 \n00000000000,1\n99999999999,1\n+7,0008";

/// What the loop over TEXT by `%d,%d` answers, each line an input of its own. The fifth has 13 bytes.
static ANSWERS: [&str; 9] = [
    "12 -7",
    "line 2: matching failure at 2, used 1, assigned 1: \"3;\\\"4\\\"\"",
    "line 3: input failure at 1, used 0, assigned 0: \"\"",
    "5 6",
    "line 5: too long: \"00000000000,\"",
    "line 6: too long: \"99999999999,\"",
    "7 8",
    "end",
    "end",
];

/// What it answers where the read fails that comes after so many newlines of TEXT.
static FAULTS: [&str; 7] = [
    "line 1: read fault",
    "line 2: read fault",
    "line 3: read fault",
    "line 4: read fault",
    "line 5: read fault",
    "line 6: read fault",
    "line 7: read fault",
];

/// The loop answers the first of ANSWERS, and then this, again and again.
fn answers<const N: usize>(
    alloc: Global,
    lines: &mut Lines<'_, (i32, i32), ScriptSource<'_>, N>,
    count: usize,
    last: &str,
) -> Result<(), Fail> {
    for (place, wanted) in ANSWERS.iter().enumerate() {
        let wanted = if place < count { wanted } else { last };
        is(&said(alloc, &lines.next())?, wanted, place)?;
    }
    Ok(())
}

/// The loop over the script, in blocks of N bytes, answers so.
fn in_blocks<const N: usize>(
    alloc: Global,
    format: &ScanFormat,
    steps: &[ReadStep<'_>],
    count: usize,
    last: &str,
) -> Result<(), Fail>
    requires few { N ≤ 4096 }
    requires some { 1 ≤ N }
{
    let mut lines = Lines::new(alloc, ScriptSource::new(steps), format, LIMIT)?;
    answers::<N>(alloc, &mut lines, count, last)
}

/// The loop over the script, in blocks of each length, answers so.
fn in_all_blocks(
    alloc: Global,
    format: &ScanFormat,
    steps: &[ReadStep<'_>],
    count: usize,
    last: &str,
) -> Result<(), Fail> {
    in_blocks::<1>(alloc, format, steps, count, last)?;
    in_blocks::<2>(alloc, format, steps, count, last)?;
    in_blocks::<3>(alloc, format, steps, count, last)?;
    in_blocks::<7>(alloc, format, steps, count, last)?;
    in_blocks::<4096>(alloc, format, steps, count, last)
}

/// The lines of TEXT, with a read that fails after so many of its bytes.
fn with_failure(alloc: Global, format: &ScanFormat, cut: usize) -> Result<(), Fail> {
    let (front, rest) = TEXT.split_at(cut.min(TEXT.len()));
    let newlines = newlines_of(front);
    let Some(fault) = FAULTS.get(newlines) else {
        return Err(Fail::new("too many newlines"));
    };
    let steps = [ReadStep::Give(front), ReadStep::Fail, ReadStep::Give(rest)];
    in_all_blocks(alloc, format, &steps, newlines, fault)
}

/// The lines of TEXT, whole, and with a read that fails after each of its bytes.
#[test]
fn lines_in_blocks(rt: HostRuntime) -> Result<(), Fail> {
    let format = ScanFormat::parse(rt.alloc(), Profile::One, b"%d,%d")?;
    in_all_blocks(rt.alloc(), &format, &[ReadStep::Give(TEXT)], 7, "end")?;
    for cut in 0..=TEXT.len() {
        with_failure(rt.alloc(), &format, cut)?;
    }
    Ok(())
}

/// A line's report and its text are lent, and what the format leaves of the line is passed over.
#[test]
fn line_reports_are_lent(rt: HostRuntime) -> Result<(), Fail> {
    let format = ScanFormat::parse(rt.alloc(), Profile::One, b"%3s")?;
    let source = SliceSource::new(b"abcdef\n\nx");
    let mut lines = LineReports::<_, 2>::new(rt.alloc(), source, &format, LIMIT)?;
    assert!(rt; lines.advance()?);
    assert_eq!(rt; lines.report().value(1), Some(Value::Text(b"abc")));
    assert_eq!(rt; lines.line(), b"abcdef".as_slice());
    assert!(rt; lines.advance().is_err());
    assert!(rt; lines.advance()?);
    assert_eq!(rt; lines.report().value(1), Some(Value::Text(b"x")));
    assert_eq!(rt; lines.lines(), 3);
    assert!(rt; !lines.advance()?);
    Ok(())
}

/// What a `for` over these lines is given, before the read that fails.
static ITEMS: [&str; 3] = [
    "line 1: matching failure at 1, used 0, assigned 0: \"x\"",
    "1 2",
    "line 3: read fault",
];

/// The items go on after a line that is no match. A read that fails is the last one.
#[test]
fn lines_in_a_for(rt: HostRuntime) -> Result<(), Fail> {
    let format = ScanFormat::parse(rt.alloc(), Profile::One, b"%d,%d")?;
    let steps = [
        ReadStep::Give(b"x\n1,2\n3"),
        ReadStep::Fail,
        ReadStep::Give(b",4\n"),
    ];
    let source = ScriptSource::new(&steps);
    let lines = Lines::<(i32, i32), _, 3>::new(rt.alloc(), source, &format, LIMIT)?;
    let mut place = 0usize;
    for item in lines {
        is_item(rt.alloc(), &item, &ITEMS, place)?;
        place = place.saturating_add(1);
    }
    assert_eq!(rt; place, ITEMS.len());
    Ok(())
}
