//! Loops over records.
ghost use Rattle.std.specs.Prelude.{◌≤◌};

use crate::answers::{LIMIT, fault_said, is, is_item, said};
use sf_base::Value;
use sf_format::{Profile, ScanFormat};
use sf_loops::{RecordFault, RecordWhy, Records, Reports};
use sf_read::{ReadStep, ScriptSource, SliceSource};
use std::alloc::Global;
use std::test::Fail;

static TEXT: &[u8] = b"12,-7\n3 ,4\n\n 5,6";

/// What the loop over TEXT by `%d ,%d` answers.
static ANSWERS: [&str; 5] = ["12 -7", "3 4", "5 6", "end", "end"];

/// Where the read fails that comes after so many bytes of TEXT, from 0: how many rows there are, and the fault.
static CUTS: [(usize, &str); 17] = [
    (0, "record 1, line 1: read fault"),
    (0, "record 1, line 1: read fault"),
    (0, "record 1, line 1: read fault"),
    (0, "record 1, line 1: read fault"),
    (0, "record 1, line 1: read fault"),
    (1, "record 1, line 1: read fault"),
    (1, "record 2, line 2: read fault"),
    (1, "record 2, line 2: read fault"),
    (1, "record 2, line 2: read fault"),
    (1, "record 2, line 2: read fault"),
    (2, "record 2, line 2: read fault"),
    (2, "record 3, line 3: read fault"),
    (2, "record 3, line 4: read fault"),
    (2, "record 3, line 4: read fault"),
    (2, "record 3, line 4: read fault"),
    (2, "record 3, line 4: read fault"),
    (3, "record 3, line 4: read fault"),
];

/// The loop answers the first of ANSWERS, and then this, again and again.
fn answers<const N: usize>(
    alloc: Global,
    records: &mut Records<'_, (i32, i32), ScriptSource<'_>, N>,
    rows: usize,
    last: &str,
) -> Result<(), Fail> {
    for (place, wanted) in ANSWERS.iter().enumerate() {
        let wanted = if place < rows { wanted } else { last };
        is(&said(alloc, &records.next())?, wanted, place)?;
    }
    Ok(())
}

/// The loop over the script, in blocks of N bytes, answers so.
fn in_blocks<const N: usize>(
    alloc: Global,
    format: &ScanFormat,
    steps: &[ReadStep<'_>],
    rows: usize,
    last: &str,
) -> Result<(), Fail>
    requires few { N ≤ 4096 }
    requires some { 1 ≤ N }
{
    let mut records = Records::new(alloc, ScriptSource::new(steps), format, LIMIT)?;
    answers::<N>(alloc, &mut records, rows, last)
}

/// The loop over the script, in blocks of each length, answers so.
fn in_all_blocks(
    alloc: Global,
    format: &ScanFormat,
    steps: &[ReadStep<'_>],
    rows: usize,
    last: &str,
) -> Result<(), Fail> {
    in_blocks::<1>(alloc, format, steps, rows, last)?;
    in_blocks::<2>(alloc, format, steps, rows, last)?;
    in_blocks::<3>(alloc, format, steps, rows, last)?;
    in_blocks::<7>(alloc, format, steps, rows, last)?;
    in_blocks::<4096>(alloc, format, steps, rows, last)
}

/// The rows of TEXT, with a read that fails after so many of its bytes.
fn with_failure(
    alloc: Global,
    format: &ScanFormat,
    cut: usize,
    rows: usize,
    fault: &str,
) -> Result<(), Fail> {
    let (front, rest) = TEXT.split_at(cut.min(TEXT.len()));
    let steps = [ReadStep::Give(front), ReadStep::Fail, ReadStep::Give(rest)];
    in_all_blocks(alloc, format, &steps, rows, fault)
}

/// The rows of TEXT, whole, and with a read that fails after each of its bytes.
#[test]
fn rows_in_blocks(rt: HostRuntime) -> Result<(), Fail> {
    let format = ScanFormat::parse(rt.alloc(), Profile::One, b"%d ,%d")?;
    in_all_blocks(rt.alloc(), &format, &[ReadStep::Give(TEXT)], 3, "end")?;
    for (cut, &(rows, fault)) in CUTS.iter().enumerate() {
        with_failure(rt.alloc(), &format, cut, rows, fault)?;
    }
    Ok(())
}

/// Records of a name and a number.
type Named<'f, 'a> = Records<'f, (Vec<u8>, i32), SliceSource<'a>, 4>;

/// The next record is one apple.
fn is_an_apple(records: &mut Named<'_, '_>) -> Result<(), Fail> {
    let Some((name, number)) = records.next()? else {
        return Err(Fail::new("no record"));
    };
    if number == 1 && name.as_slice() == b"apples".as_slice() {
        return Ok(());
    }
    Err(Fail::new("another record"))
}

/// The next answer is a fault that says this.
fn is_fault(alloc: Global, records: &mut Named<'_, '_>, wanted: &str) -> Result<(), Fail> {
    match records.next() {
        Ok(_) => Err(Fail::new("no fault")),
        Err(fault) => is(&fault_said(alloc, &fault)?, wanted, 2),
    }
}

/// Where a record is no match, its number, its line and the run's outcome are reported, again and again.
#[test]
fn faults_are_told(rt: HostRuntime) -> Result<(), Fail> {
    let format = ScanFormat::parse(rt.alloc(), Profile::One, b" %[^=]=%d")?;
    let source = SliceSource::new(b"apples=1\npears=x\n");
    let mut records = Named::new(rt.alloc(), source, &format, LIMIT)?;
    is_an_apple(&mut records)?;
    let wanted = "record 2, line 2: matching failure at 4, used 7, assigned 1";
    is_fault(rt.alloc(), &mut records, wanted)?;
    is_fault(rt.alloc(), &mut records, wanted)?;
    assert_eq!(rt; records.records(), 1);
    Ok(())
}

/// Whether there is a next report, of this text.
fn reports(reports: &mut Reports<'_, SliceSource<'_>, 2>, text: &[u8]) -> bool {
    match reports.advance() {
        Ok(true) => reports.report().value(1) == Some(Value::Text(text)),
        _ => false,
    }
}

/// Reports are lent.
#[test]
fn reports_are_lent(rt: HostRuntime) -> Result<(), Fail> {
    let format = ScanFormat::parse(rt.alloc(), Profile::One, b"%*[ ]%3s")?;
    let source = SliceSource::new(b" abcdef");
    let mut lent = Reports::<_, 2>::new(rt.alloc(), source, &format, LIMIT)?;
    assert!(rt; reports(&mut lent, b"abc"));
    assert!(rt; lent.advance().is_err());
    assert_eq!(rt; lent.records(), 1);
    Ok(())
}

/// A run that uses no byte stalls.
#[test]
fn a_run_stalls(rt: HostRuntime) -> Result<(), Fail> {
    let format = ScanFormat::parse(rt.alloc(), Profile::One, b" ")?;
    let mut reports = Reports::<_, 2>::new(rt.alloc(), SliceSource::new(b"x"), &format, LIMIT)?;
    let fault = RecordFault {
        number: 1,
        line: 1,
        why: RecordWhy::Stalled,
    };
    assert_eq!(rt; reports.advance().err(), Some(fault));
    Ok(())
}

/// What a `for` over these records is given.
static ITEMS: [&str; 3] = [
    "1 2",
    "3 4",
    "record 3, line 3: matching failure at 1, used 1, assigned 0",
];

/// The first fault is the last item.
#[test]
fn records_in_a_for(rt: HostRuntime) -> Result<(), Fail> {
    let format = ScanFormat::parse(rt.alloc(), Profile::One, b"%d ,%d")?;
    let source = SliceSource::new(b"1,2\n3,4\nx");
    let records = Records::<(i32, i32), _, 3>::new(rt.alloc(), source, &format, LIMIT)?;
    let mut place = 0usize;
    for item in records {
        is_item(rt.alloc(), &item, &ITEMS, place)?;
        place = place.saturating_add(1);
    }
    assert_eq!(rt; place, ITEMS.len());
    Ok(())
}
