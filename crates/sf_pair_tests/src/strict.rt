//! Pairs whose scan format has a `!`: what a check finds of them, and values that go there and back.
use crate::bounds::first_fault;
use crate::shared::found_of;
use sf_base::Value;
use sf_format::{PrintFormat, Profile, ScanFormat};
use sf_pair::Pair;
use sf_rows::{is, says};
use std::alloc::Global;
use std::test::Fail;

/// What a check says of these texts.
fn checked(alloc: Global, print: &[u8], scan: &[u8]) -> anyhow::Result<()> {
    let print = PrintFormat::parse(alloc, Profile::Three, print)?;
    let scan = ScanFormat::parse(alloc, Profile::Three, scan)?;
    Pair::check(&print, &scan)?;
    Ok(())
}

/// A print format, a scan format, and the text of the fault.
static REFUSED: [(&[u8], &[u8], &str); 19] = [
    (b"%+d,", b"%!9d,", "Q14 BadMark at 1"),
    (b"% d,", b"%!9d,", "Q14 BadMark at 1"),
    (b"%5d,", b"%!5d,", "Q14 BadMark at 1"),
    (b"%#x,", b"%!9x,", "Q14 BadMark at 1"),
    (b"%a,", b"%!24lf,", "Q14 BadMark at 1"),
    (b"%A,", b"%!24lf,", "Q14 BadMark at 1"),
    (b"%#.2f,", b"%!20lf,", "Q14 BadMark at 1"),
    (b"%5s,", b"%!9s,", "Q14 BadMark at 1"),
    (b"%+d,", b"%!9lf,", "Q14 BadMark at 1"),
    (b"%+d,", b"%?!9d,", "Q13 MayBeMissing at 1"),
    (b",%d", b"%!9d,", "Q1 NotAligned at 1"),
    (b"7%d,", b"%*!1d%!9d,", "Q1 NotAligned at 1"),
    (b"%d,", b"%!9u,", "Q2 KindDiffers at 1"),
    (b"%d,", b"%!d,", "Q4 NoWidth at 1"),
    (b"%.3d,", b"%!9i,", "Q8 LeadingZero at 1"),
    (b"%xx", b"%8xx", "Q6 RunsOn at 1"),
    (b"%.0ge|", b"%!30lfe|", "Q6 RunsOn at 1"),
    (b"%g.", b"%!30lf.", "Q6 RunsOn at 1"),
    (b", % d;", b", %!9d;", "Q6 RunsOn at 2"),
];

#[test]
fn what_is_refused(rt: HostRuntime) -> Result<(), Fail> {
    for &(print, scan, wanted) in &REFUSED {
        says(rt.alloc(), checked(rt.alloc(), print, scan).err(), wanted)?;
    }
    Ok(())
}

/// A print format, a scan format, and two values that are read back, whatever byte follows.
static CARRIED: [(&[u8], &[u8], Value<'static>, Value<'static>); 9] = [
    (
        b"%d,",
        b"%!11d,",
        Value::I32(i32::MIN),
        Value::I32(i32::MAX),
    ),
    (b" %d;", b" %!11i;", Value::I32(-3), Value::I32(0)),
    (b"%xx", b"%!8xx", Value::U32(0), Value::U32(u32::MAX)),
    (b"%bb", b"%!32bb", Value::U32(0), Value::U32(u32::MAX)),
    (b"%o|", b"%!11o|", Value::U32(0), Value::U32(u32::MAX)),
    (b"%u%%", b"%!10u%%", Value::U32(0), Value::U32(u32::MAX)),
    (
        b"%gx|",
        b"%!30lfx|",
        Value::F64(0),
        Value::F64(0xbff8_0000_0000_0000),
    ),
    (
        b"%.17g;",
        b"%!24lf;",
        Value::F64(0x3fb9_9999_9999_999a),
        Value::F64(0x8000_0000_0000_0000),
    ),
    (
        b"%s\n",
        b"%!9s%*1[\n]",
        Value::Text(b"0"),
        Value::Text(b"-x"),
    ),
];

#[test]
fn values_there_and_back(rt: HostRuntime) -> Result<(), Fail> {
    let alloc = rt.alloc();
    for &(print, scan, one, other) in &CARRIED {
        let fault = found_of(alloc, Profile::Three, print, scan, |pair| {
            first_fault(alloc, pair, one, other)
        })?;
        is(&fault, &None, &print)?;
    }
    Ok(())
}

/// A print format, a scan format, and a value that doesn't fit them.
static UNFIT: [(&[u8], &[u8], Value<'static>); 4] = [
    (b"%.17g;", b"%!24lf;", Value::F64(0x7ff0_0000_0000_0000)),
    (b"%.17g;", b"%!24lf;", Value::F64(0x7ff8_0000_0000_0000)),
    (b"%d;", b"%!3d;", Value::I32(-100)),
    (b"%s\n", b"%!9s%*1[\n]", Value::Text(b"")),
];

#[test]
fn other_values_do_not_fit(rt: HostRuntime) -> Result<(), Fail> {
    for &(print, scan, value) in &UNFIT {
        let fits = found_of(rt.alloc(), Profile::Three, print, scan, |pair| {
            pair.fits(&[value])
        })?;
        is(&fits, &false, &print)?;
    }
    Ok(())
}
