//! Loops over what another call has left, and lines whose whole a match has to use.
use crate::answers::{is, said};
use sf_format::{Profile, ScanFormat};
use sf_loops::{Lines, Records};
use sf_read::{Lookahead, Match, SliceSource, fscan};
use std::test::Fail;

/// The most bytes of a record or a line.
const LIMIT: u32 = 100;

/// What the loop over lines answers after a header line.
static LINES: [&str; 5] = [
    "1 2",
    "line 2: left over at 3: \"3,4 \"",
    "line 3: matching failure at 2, used 1, assigned 1: \"5;6\"",
    "7 8",
    "end",
];

#[test]
fn lines_after_a_header_line(rt: HostRuntime) -> Result<(), Fail> {
    let alloc = rt.alloc();
    let header = ScanFormat::parse(alloc, Profile::One, b"%*[^\n]%*1[\n]")?;
    let format = ScanFormat::parse(alloc, Profile::One, b"%d,%d")?;
    let source = SliceSource::new(b"left,right\n1,2\n3,4 \n5;6\n7,8");
    let mut input = Lookahead::<_, 4096>::new(source);
    fscan(alloc, &mut input, &header, LIMIT)?;
    let lines = Lines::<(i32, i32), _, 4096>::over(alloc, input, &format, LIMIT)?;
    let mut lines = lines.matching(Match::Whole);
    for (place, wanted) in LINES.iter().enumerate() {
        is(&said(alloc, &lines.read_row())?, wanted, place)?;
    }
    Ok(())
}

#[test]
fn records_and_then_another_format(rt: HostRuntime) -> Result<(), Fail> {
    let alloc = rt.alloc();
    let comma = ScanFormat::parse(alloc, Profile::One, b"%d,%d")?;
    let colon = ScanFormat::parse(alloc, Profile::One, b"%d:%d")?;
    let source = SliceSource::new(b"1,2\n3,4\n5:6\n7:8");
    let mut first = Records::<(i32, i32), _, 4>::new(alloc, source, &comma, LIMIT)?;
    is(&said(alloc, &first.read_row())?, "1 2", 1)?;
    is(&said(alloc, &first.read_row())?, "3 4", 2)?;
    let rest = first.into_lookahead();
    let mut second = Records::<(i32, i32), _, 4>::over(alloc, rest, &colon, LIMIT)?;
    is(&said(alloc, &second.read_row())?, "5 6", 3)?;
    is(&said(alloc, &second.read_row())?, "7 8", 4)?;
    is(&said(alloc, &second.read_row())?, "end", 5)
}
