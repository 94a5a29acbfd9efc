//! What is answered for print formats.
use crate::compare::is;
use sf_arguments::{NoScanText, escaped, scan_part, scan_text};
use sf_format::{FormatWhy, PrintFormat, Profile};
use sf_pair::PairWhy;
use std::alloc::Global;
use std::test::Fail;

/// A print format, the width of texts, and the scan format that reads it back, as a word of the command has it.
static READ_BACK: [(&[u8], Option<u16>, &str); 21] = [
    (b"%d,%s\n", Some(20), r"%11d,%20s%*1[\n]"),
    (b"%d,", None, "%11d,"),
    (b"%i,", None, "%11d,"),
    (b"%u;", None, "%10u;"),
    (b"%hhd|", None, "%4hhd|"),
    (b"%hu|", None, "%5hu|"),
    (b"%lx.", None, "%16lx."),
    (b"%#X.", None, "%10X."),
    (b"%#o.", None, "%12o."),
    (b"%+ld:", None, "%20ld:"),
    (b"%20d,", None, "%11d,"),
    (b"%020d,", None, "%20d,"),
    (b"%.15d,", None, "%16d,"),
    (b"%d%%", None, "%11d%%"),
    (b"%s,%s;", Some(9), "%9[^,],%9[^;];"),
    (b"%c%d \t\\", None, r"%1c%11d%*1[ ]%*1[\t]\\"),
    (b"%2$d,%1$s\n", Some(3), r"%2$11d,%1$3s%*1[\n]"),
    (b"%1$d,%2$d;", None, "%11d,%11d;"),
    (b"%s", Some(1), "%1s"),
    (b"%011d%d;", None, "%11d%11d;"),
    (b"%d\x7f\xc3", None, r"%11d\x7f\xc3"),
];

/// A print format without one, the width of texts, and the fault.
static REFUSED: [(&[u8], Option<u16>, PairWhy, u16); 11] = [
    (b"%d", None, PairWhy::OpenEnd, 1),
    (b"%s\n", None, PairWhy::NoWidth, 1),
    (b"%d,%s,", None, PairWhy::NoWidth, 3),
    (b"%d%d;", None, PairWhy::RunsOn, 1),
    (b"%s%d;", Some(5), PairWhy::RunsOn, 1),
    (b"%d5", None, PairWhy::RunsOn, 1),
    (b"%-5d,", None, PairWhy::BadFlagHere, 1),
    (b"%-d\n", None, PairWhy::BadFlagHere, 1),
    (b"%.0d\n", None, PairWhy::BadFlagHere, 1),
    (b"%5s,", Some(5), PairWhy::BadFlagHere, 1),
    (b"abc", None, PairWhy::NoValues, 0),
];

/// What is answered for a print format of the first profile.
fn answer(
    alloc: Global,
    print: &[u8],
    width: Option<u16>,
) -> Result<Result<Vec<u8>, NoScanText>, Fail> {
    let print = PrintFormat::parse(alloc, Profile::One, print)?;
    Ok(scan_text(alloc, Profile::One, &print, width))
}

#[test]
fn print_formats_are_read_back(rt: HostRuntime) -> Result<(), Fail> {
    let alloc = rt.alloc();
    for &(print, width, wanted) in &READ_BACK {
        let text = answer(alloc, print, width)??;
        let word = escaped(alloc, &text)?;
        is(&word.as_slice(), &wanted.as_bytes(), &print)?;
    }
    Ok(())
}

#[test]
fn the_fault_is_that_of_the_text(rt: HostRuntime) -> Result<(), Fail> {
    for &(print, width, why, at) in &REFUSED {
        let found = match answer(rt.alloc(), print, width)? {
            Err(NoScanText::Unpaired(fault)) => Some((fault.why, fault.at)),
            _ => None,
        };
        is(&found, &Some((why, at)), &print)?;
    }
    Ok(())
}

#[test]
fn base_two_is_of_the_second_profile(rt: HostRuntime) -> Result<(), Fail> {
    let alloc = rt.alloc();
    let print = PrintFormat::parse(alloc, Profile::Two, b"%#b;")?;
    let text = scan_text(alloc, Profile::Two, &print, None)?;
    is(&text.as_slice(), &b"%34b;".as_slice(), &"profile 2")?;
    let found = match scan_text(alloc, Profile::One, &print, None) {
        Err(NoScanText::NoFormat(fault)) => Some(fault.why),
        _ => None,
    };
    is(&found, &Some(FormatWhy::UnknownLetter), &"profile 1")
}

#[test]
fn floats_are_of_the_third_profile(rt: HostRuntime) -> Result<(), Fail> {
    let alloc = rt.alloc();
    let print = PrintFormat::parse(alloc, Profile::Three, b"%.3f,%e %a;")?;
    let text = scan_text(alloc, Profile::Three, &print, None)?;
    is(
        &text.as_slice(),
        &b"%314lf,%14lf%*1[ ]%24lf;".as_slice(),
        &"profile 3",
    )?;
    let print = PrintFormat::parse(alloc, Profile::Three, b"%f%f;")?;
    let found = match scan_text(alloc, Profile::Three, &print, None) {
        Err(NoScanText::Unpaired(fault)) => Some(fault.why),
        _ => None,
    };
    is(&found, &Some(PairWhy::RunsOn), &"two floats")
}

#[test]
fn one_part_is_what_to_write_instead(rt: HostRuntime) -> Result<(), Fail> {
    let alloc = rt.alloc();
    let number = PrintFormat::parse(alloc, Profile::One, b"%d,%s;")?;
    let part = scan_part(alloc, number.directives(), None)?;
    is(&part.as_slice(), &b"%11d".as_slice(), &"a number")?;
    let text = PrintFormat::parse(alloc, Profile::One, b"%s;%d")?;
    let part = scan_part(alloc, text.directives(), Some(8))?;
    is(&part.as_slice(), &b"%8[^;]".as_slice(), &"a text")
}
