//! Records printed by a print format, without a pair.
ghost use Rattle.std.specs.Prelude.{◌≤◌};

use crate::copies::{LIMIT, is};
use sf_format::{PrintFormat, Profile, ScanFormat};
use sf_print::{ListSink, ScriptSink, WriteStep};
use sf_read::{Lookahead, SliceSource};
use sf_records::{ToolEnd, ToolFault, run_scan_print};
use std::process::Abort;
use std::test::Fail;

/// A scan format, a print format, an input, what is written, and how the loop ends.
type Row = (
    &'static str,
    &'static str,
    &'static str,
    &'static str,
    ToolEnd,
);

/// The end of a loop over so many records.
const NONE: ToolEnd = ToolEnd {
    status: 0,
    records: 0,
    fault: None,
};

const ONE: ToolEnd = ToolEnd { records: 1, ..NONE };

const TWO: ToolEnd = ToolEnd { records: 2, ..NONE };

/// The end at a record whose values the print format can't print: at the second, and at the first.
const SECOND_UNFIT: ToolEnd = ToolEnd {
    status: 1,
    records: 1,
    fault: Some(ToolFault::Unfit { number: 2 }),
};

const FIRST_UNFIT: ToolEnd = ToolEnd {
    status: 1,
    records: 0,
    fault: Some(ToolFault::Unfit { number: 1 }),
};

static ROWS: [Row; 6] = [
    ("%d %s", "%2$s,%1$d\n", "1 ab\n2 cd\n", "ab,1\ncd,2\n", TWO),
    ("%d", "%d;", "", "", NONE),
    // A number as one of a kind that has it, and what `%n` counts.
    ("%hhd %hhu%n", "%d %hd %d\n", "-7 200", "-7 200 6\n", ONE),
    // A text that `c` prints has one byte.
    ("%s", "%c", "a bc", "a", SECOND_UNFIT),
    // As many values, and of the same kinds.
    ("%d", "%d %d", "1", "", FIRST_UNFIT),
    ("%u", "%d", "1", "", FIRST_UNFIT),
];

/// The row, read by blocks of N bytes.
fn by_blocks<const N: usize>(rt: &(impl Abort + AllocGlobal), row: &Row) -> Result<(), Fail>
    requires few { N ≤ 4096 }
    requires some { 1 ≤ N }
{
    let (scan, print, text, output, end) = *row;
    let scan = ScanFormat::parse(rt.alloc(), Profile::One, scan.as_bytes())?;
    let print = PrintFormat::parse(rt.alloc(), Profile::One, print.as_bytes())?;
    let mut from = Lookahead::<SliceSource<'_>, N>::new(SliceSource::new(text.as_bytes()));
    let mut out = ListSink::new(rt.alloc());
    let found = run_scan_print(rt.alloc(), &mut from, &mut out, &scan, &print, LIMIT);
    is(rt, &found, &end, &text);
    assert!(rt; out.bytes() == output.as_bytes(), "what is written");
    Ok(())
}

#[test]
fn records_are_printed(rt: HostRuntime) -> Result<(), Fail> {
    for row in &ROWS {
        by_blocks::<1>(&rt, row)?;
        by_blocks::<4096>(&rt, row)?;
    }
    Ok(())
}

#[test]
fn a_sink_fails_within_a_print(rt: HostRuntime) -> Result<(), Fail> {
    let scan = ScanFormat::parse(rt.alloc(), Profile::One, b"%d")?;
    let print = PrintFormat::parse(rt.alloc(), Profile::One, b"%04d;")?;
    let mut from = Lookahead::<SliceSource<'_>, 64>::new(SliceSource::new(b"1 2"));
    let steps = [WriteStep::Accept(6), WriteStep::Fail];
    let mut out = ScriptSink::new(rt.alloc(), &steps);
    let end = run_scan_print(rt.alloc(), &mut from, &mut out, &scan, &print, LIMIT);
    let wanted = ToolEnd {
        status: 3,
        records: 1,
        fault: Some(ToolFault::Write),
    };
    is(&rt, &end, &wanted, &"end");
    is(&rt, &out.bytes(), &b"0001;0".as_slice(), &"output");
    Ok(())
}
