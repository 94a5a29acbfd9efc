//! Pairs whose scan format has a `=`: what a check finds of them, and values that go there and back with nothing
//! between.
use crate::bounds::first_fault;
use crate::shared::found_of;
use sf_base::Value;
use sf_format::{PrintFormat, Profile, ScanFormat};
use sf_pair::Pair;
use sf_rows::{is, says};
use std::alloc::Global;
use std::test::Fail;

/// What a check says of these texts.
fn checked(alloc: Global, print: &[u8], scan: &[u8]) -> anyhow::Result<()> {
    let print = PrintFormat::parse(alloc, Profile::Three, print)?;
    let scan = ScanFormat::parse(alloc, Profile::Three, scan)?;
    Pair::check(&print, &scan)?;
    Ok(())
}

/// A print format, a scan format, and the text of the fault.
static REFUSED: [(&[u8], &[u8], &str); 22] = [
    (b"%d,%d;", b"%9d%?(,%9d%);", "Q13 MayBeMissing at 2"),
    (b"%d,", b"%?(%9d,%)", "Q13 MayBeMissing at 1"),
    (b"%5d", b"%=6d", "Q14 BadMark at 1"),
    (b"%d", b"%=5d", "Q14 BadMark at 1"),
    (b"%5d", b"%=!5d", "Q14 BadMark at 1"),
    (b"%-05d", b"%=!5d", "Q14 BadMark at 1"),
    (b"%5.5d", b"%=!5d", "Q14 BadMark at 1"),
    (b"%+05d", b"%=!5d", "Q14 BadMark at 1"),
    (b"%024a", b"%=!24lf", "Q14 BadMark at 1"),
    (b"%4s", b"%=!5s", "Q14 BadMark at 1"),
    (b"%5d", b"%?=5d", "Q13 MayBeMissing at 1"),
    (b"%5d", b"%*=5d", "Q1 NotAligned at 1"),
    (b"x", b"%*=1s", "Q1 NotAligned at 1"),
    (b"%5d", b"%=5u", "Q2 KindDiffers at 1"),
    (b"%5u", b"%=5s", "Q2 KindDiffers at 1"),
    (b"%05d", b"%=5i", "Q8 LeadingZero at 1"),
    (b"%05d", b"%=!5i", "Q8 LeadingZero at 1"),
    (b" %5d", b" %=5d", "Q6 RunsOn at 1"),
    (b" %5s", b" %=5s", "Q6 RunsOn at 1"),
    (b"%d%5d", b"%5d%=5d", "Q6 RunsOn at 1"),
    (b"%s%5s", b"%5s%=!5s", "Q6 RunsOn at 1"),
    (b"%2$5d%1$5d", b"%=5d%=5d", "Q3 NumberDiffers at 1"),
];

#[test]
fn what_is_refused(rt: HostRuntime) -> Result<(), Fail> {
    for &(print, scan, wanted) in &REFUSED {
        says(rt.alloc(), checked(rt.alloc(), print, scan).err(), wanted)?;
    }
    Ok(())
}

/// A print format and a scan format that reads it back.
static ACCEPTED: [(&[u8], &[u8]); 11] = [
    (b"%-8s%5d%08.2f", b"%=8s%=5d%=8lf"),
    (b"%05d", b"%=!5d"),
    (b" %5s", b" %=!5s"),
    (b" %5d", b"%*1[ ]%=5d"),
    (b" %-5d", b" %=5d"),
    (b" %05d", b" %=5d"),
    (b"%+5d%-+5d", b"%=5d%=5d"),
    (b"%#8x%8.3o", b"%=8x%=8o"),
    (b"%5.3s", b"%=5[a-z]"),
    (b"%5.0d", b"%=5d"),
    (b"%012.3e", b"%=!12lf"),
];

#[test]
fn what_is_accepted(rt: HostRuntime) -> Result<(), Fail> {
    for (print, scan) in &ACCEPTED {
        is(&checked(rt.alloc(), print, scan).is_ok(), &true, print)?;
    }
    Ok(())
}

/// A print format, a scan format, and two values that are read back, whatever byte follows.
static CARRIED: [(&[u8], &[u8], Value<'static>, Value<'static>); 12] = [
    (b"%5d", b"%=5d", Value::I32(-9999), Value::I32(99999)),
    (b"%-5d", b"%=5d", Value::I32(-9999), Value::I32(0)),
    (b"%05d", b"%=!5d", Value::I32(-9999), Value::I32(99999)),
    (b"%8x", b"%=8x", Value::U32(0), Value::U32(u32::MAX)),
    (b"%#10x", b"%=10x", Value::U32(0), Value::U32(u32::MAX)),
    (b"%08x", b"%=!8x", Value::U32(0), Value::U32(u32::MAX)),
    (b"%6i", b"%=6i", Value::I32(-3), Value::I32(0)),
    (
        b"%8.2f",
        b"%=8lf",
        Value::F64(0xbff8_0000_0000_0000),
        Value::F64(0x3fd0_0000_0000_0000),
    ),
    (
        b"%-024.17g",
        b"%=24lf",
        Value::F64(0x3fb9_9999_9999_999a),
        Value::F64(0x8000_0000_0000_0000),
    ),
    (
        b"%010.3f",
        b"%=!10lf",
        Value::F64(0xbff8_0000_0000_0000),
        Value::F64(0),
    ),
    (
        b"%-8s",
        b"%=8s",
        Value::Text(b"a b"),
        Value::Text(b"12345678"),
    ),
    (
        b"%5s",
        b"%=5[a-z ]",
        Value::Text(b"x"),
        Value::Text(b"a b c"),
    ),
];

#[test]
fn values_there_and_back(rt: HostRuntime) -> Result<(), Fail> {
    let alloc = rt.alloc();
    for &(print, scan, one, other) in &CARRIED {
        let fault = found_of(alloc, Profile::Three, print, scan, |pair| {
            first_fault(alloc, pair, one, other)
        })?;
        is(&fault, &None, &print)?;
    }
    Ok(())
}

/// A print format, a scan format, and a value that doesn't fit them.
static UNFIT: [(&[u8], &[u8], Value<'static>); 15] = [
    (b"%05d", b"%=!5d", Value::I32(123456)),
    (b"%05d", b"%=!5d", Value::I32(-12345)),
    (b"%5d", b"%=5d", Value::I32(-10000)),
    (b"%5.0d", b"%=5d", Value::I32(0)),
    (b"%-8s", b"%=8s", Value::Text(b"plum tart")),
    (b"%8s", b"%=8s", Value::Text(b"")),
    (b"%8s", b"%=8s", Value::Text(b" a")),
    (b"%8s", b"%=8s", Value::Text(b"a\n")),
    (b"%8.3s", b"%=8s", Value::Text(b"abcd")),
    (b"%5s", b"%=5[a-z]", Value::Text(b"a b")),
    (b"%5s", b"%=!5s", Value::Text(b"plum")),
    (b"%5s", b"%=!5s", Value::Text(b"a b c")),
    (b"%8.2f", b"%=8lf", Value::F64(0x3fc0_0000_0000_0000)),
    (b"%8.2f", b"%=8lf", Value::F64(0x7ff0_0000_0000_0000)),
    (b"%8.2f", b"%=8lf", Value::F64(0xc0f8_6a00_0000_0000)),
];

#[test]
fn other_values_do_not_fit(rt: HostRuntime) -> Result<(), Fail> {
    for &(print, scan, value) in &UNFIT {
        let fits = found_of(rt.alloc(), Profile::Three, print, scan, |pair| {
            pair.fits(&[value])
        })?;
        is(&fits, &false, &print)?;
    }
    Ok(())
}
