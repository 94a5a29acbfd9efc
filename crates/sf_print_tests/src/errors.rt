//! Faults as errors: `?` makes an `anyhow::Error` of each, with its text.
use sf_base::StoreFull;
use sf_format::{FormatFault, FormatWhy, PrintFormat, Profile, ScanFormat};
use sf_print::{PrintFault, SinkFault};
use sf_rows::{is_error, says};
use std::alloc::Global;
use std::test::Fail;

/// Faults of prints, and their texts.
static PRINT_FAULTS: [(PrintFault, &str); 5] = [
    (
        PrintFault::WrongCount,
        "the number of values isn't that of the format's conversions",
    ),
    (
        PrintFault::WrongKind { at: 3 },
        "value 3: not of its conversion's kind",
    ),
    (
        PrintFault::NotOneByte { at: 1 },
        "value 1: expected one byte",
    ),
    (PrintFault::TooLong, "text too long"),
    (PrintFault::Sink { written: 7 }, "write fault after 7 bytes"),
];

#[test]
fn faults_have_texts(rt: HostRuntime) -> Result<(), Fail> {
    let alloc = rt.alloc();
    is_error(alloc, StoreFull, "the store is full")?;
    is_error(alloc, SinkFault, "write fault")?;
    is_error(alloc, FormatWhy::BackwardRange, "F8 BackwardRange")?;
    is_error(alloc, FormatWhy::ZeroWidth, "F2 ZeroWidth")?;
    let fault = FormatFault {
        at: 2,
        why: FormatWhy::NoMemory,
    };
    is_error(alloc, fault, "F19 NoMemory at 2")?;
    for (fault, wanted) in &PRINT_FAULTS {
        is_error(alloc, *fault, wanted)?;
    }
    Ok(())
}

/// Reads both formats.
fn parsed(alloc: Global, scan: &[u8], print: &[u8]) -> anyhow::Result<()> {
    ScanFormat::parse(alloc, Profile::One, scan)?;
    PrintFormat::parse(alloc, Profile::One, print)?;
    Ok(())
}

/// A scan format and a print format, one of which is at fault, and the text of that.
static FORMATS: [(&[u8], &[u8], &str); 3] = [
    (b"ab%q", b"", "F4 UnknownLetter at 3"),
    (b"%[b-a]", b"", "F8 BackwardRange at 2"),
    (b"", b"%f", "F5 LeftOut at 1"),
];

#[test]
fn formats_have_faults(rt: HostRuntime) -> Result<(), Fail> {
    for (scan, print, wanted) in &FORMATS {
        says(rt.alloc(), parsed(rt.alloc(), scan, print).err(), wanted)?;
    }
    Ok(())
}
