//! Faults as errors: `?` makes an `anyhow::Error` of each, with its text.
use sf_base::Value;
use sf_format::{PrintFormat, Profile, ScanFormat};
use sf_pair::{Pair, PairFault, PairWhy, WriteFault};
use sf_print::{ListSink, PrintFault};
use sf_rows::{is, is_error, says};
use std::alloc::Global;
use std::test::Fail;

/// What a pair check finds, and its code and name.
static WHYS: [(PairWhy, &str); 13] = [
    (PairWhy::NotAligned, "Q1 NotAligned"),
    (PairWhy::KindDiffers, "Q2 KindDiffers"),
    (PairWhy::NumberDiffers, "Q3 NumberDiffers"),
    (PairWhy::NoWidth, "Q4 NoWidth"),
    (PairWhy::TooNarrow, "Q5 TooNarrow"),
    (PairWhy::RunsOn, "Q6 RunsOn"),
    (PairWhy::OpenEnd, "Q7 OpenEnd"),
    (PairWhy::LeadingZero, "Q8 LeadingZero"),
    (PairWhy::NotWritten, "Q9 NotWritten"),
    (PairWhy::BadFlagHere, "Q10 BadFlagHere"),
    (PairWhy::NoValues, "Q11 NoValues"),
    (PairWhy::MayBeMissing, "Q13 MayBeMissing"),
    (PairWhy::BadMark, "Q14 BadMark"),
];

#[test]
fn what_checks_find(rt: HostRuntime) -> Result<(), Fail> {
    for &(why, wanted) in &WHYS {
        is(&why.text(), &wanted, &wanted)?;
        is_error(rt.alloc(), why, wanted)?;
    }
    let fault = PairFault {
        at: 65535,
        why: PairWhy::OpenEnd,
    };
    is_error(rt.alloc(), fault, "Q7 OpenEnd at 65535")
}

/// Why a pair wrote nothing, or not all, and the text of the fault.
static WRITES: [(WriteFault, &str); 3] = [
    (WriteFault::NotFitting, "values do not fit"),
    (WriteFault::Print(PrintFault::TooLong), "text too long"),
    (
        WriteFault::Print(PrintFault::Sink { written: 7 }),
        "write fault after 7 bytes",
    ),
];

/// Writes a number by a pair of these texts, as a program does that only hands faults on.
fn written(alloc: Global, print: &[u8], scan: &[u8], number: i32) -> anyhow::Result<u32> {
    let print = PrintFormat::parse(alloc, Profile::One, print)?;
    let scan = ScanFormat::parse(alloc, Profile::One, scan)?;
    let pair = Pair::check(&print, &scan)?;
    let mut to = ListSink::new(alloc);
    Ok(pair.write(&mut to, &[Value::I32(number)])?)
}

/// A print format, a scan format, a number, and the text of the fault.
static REFUSED: [(&[u8], &[u8], i32, &str); 4] = [
    (b"%f", b"%11d;", 0, "F5 LeftOut at 1"),
    (b"%d", b"%11d", 0, "Q7 OpenEnd at 1"),
    (b"%d,", b"%11d;", 0, "Q1 NotAligned at 2"),
    (b"%d;", b"%3d;", 1000, "values do not fit"),
];

#[test]
fn faults_are_handed_on(rt: HostRuntime) -> Result<(), Fail> {
    for &(fault, wanted) in &WRITES {
        is_error(rt.alloc(), fault, wanted)?;
    }
    for &(print, scan, number, wanted) in &REFUSED {
        says(
            rt.alloc(),
            written(rt.alloc(), print, scan, number).err(),
            wanted,
        )?;
    }
    Ok(())
}
