//! Lines that are ignored, lines that match nothing, and lines whose values don't fit, with values found by reading the
//! rules of the loop.
use crate::by_lines::hands::{is_found, parsed, run};
use sf_base::Kind;
use sf_format::{PrintFormat, Profile, ScanFormat};
use sf_forms::{FormMaker, PrintMaker, PrintMismatch, check_print};
use sf_pair::Pair;
use sf_records::{CopyMaker, LineFormats, LinesOptions, OutputForm};
use std::alloc::Global;
use std::process::Abort;
use std::test::Fail;

const KEEP_GOING: LinesOptions = LinesOptions {
    limit: 8,
    skip: 0,
    whole: false,
    keep_going: true,
    matching: false,
};

const MATCHING: LinesOptions = LinesOptions {
    limit: 8,
    skip: 0,
    whole: false,
    keep_going: false,
    matching: true,
};

const MATCHING_WHOLE: LinesOptions = LinesOptions {
    limit: 8,
    skip: 0,
    whole: true,
    keep_going: false,
    matching: true,
};

/// Formats by which lines are passed over, and formats that are tried; how; an input; what is written and told; and
/// the counts of both.
type Row = (
    &'static [&'static str],
    &'static [&'static str],
    LinesOptions,
    &'static str,
    &'static str,
    &'static str,
    (u64, u64),
);

static ROWS: [Row; 10] = [
    // Blank lines and comments are passed over.
    (
        &[" "],
        &["%d"],
        KEEP_GOING,
        "1\n\n  \n2\n",
        "1\n2\n",
        "",
        (2, 0),
    ),
    (
        &["#%*[^\n]", "#"],
        &["%d"],
        KEEP_GOING,
        "#x\n1\n#\n2 #\n",
        "1\n2\n",
        "",
        (2, 0),
    ),
    // A format that leaves something of a line doesn't take it.
    (&["%*d"], &["%d"], KEEP_GOING, "1\n2 x\n", "2\n", "", (1, 0)),
    // A line above the limit isn't tried.
    (
        &["#%*[^\n]"],
        &["%d"],
        KEEP_GOING,
        "#23456789\n1\n",
        "1\n",
        "1t#",
        (1, 1),
    ),
    (
        &["%*[^\n]"],
        &["%d"],
        KEEP_GOING,
        "1\n\n",
        "",
        "2m-",
        (0, 1),
    ),
    // Lines that match no format are passed over.
    (
        &[],
        &["%d"],
        MATCHING,
        "x\n1\n\n2 y\nz",
        "1\n2\n",
        "",
        (2, 0),
    ),
    (&[], &["%d"], MATCHING_WHOLE, "1 y\n2\n", "2\n", "", (1, 0)),
    (
        &[],
        &["a%d", "b%d"],
        MATCHING,
        "c1\nb2\na3\n",
        "2\n3\n",
        "",
        (2, 0),
    ),
    // A number that is out of range is told.
    (
        &[],
        &["%hhd"],
        MATCHING,
        "x\n1\n128\n2\n",
        "1\n",
        "3m1",
        (1, 1),
    ),
    (
        &[],
        &["%d"],
        MATCHING,
        "x\n123456789\n2\n",
        "",
        "2t1",
        (0, 1),
    ),
];

/// The loop over the row's lines comes to what the row says.
fn is_row(rt: &(impl Abort + AllocGlobal), row: &Row) -> Result<(), Fail> {
    let (ignored, tried, options, text, output, told, counts) = row;
    let ignored = parsed(rt.alloc(), ignored)?;
    let tried = parsed(rt.alloc(), tried)?;
    let formats = LineFormats {
        ignored: &ignored,
        tried: &tried,
    };
    let mut maker = FormMaker::new(rt.alloc(), OutputForm::Plain);
    let found = run::<_, 7>(rt.alloc(), text.as_bytes(), &mut maker, &formats, *options)?;
    is_found(rt, &found, output, told, *counts);
    Ok(())
}

#[test]
fn lines_are_picked(rt: HostRuntime) -> Result<(), Fail> {
    for row in &ROWS {
        is_row(&rt, row)?;
    }
    Ok(())
}

/// The lines of a text copied by the pair.
fn are_copied(
    rt: &(impl Abort + AllocGlobal),
    pair: &Pair<'_>,
    formats: &LineFormats<'_>,
) -> Result<(), Fail> {
    let text = b"12;\n123;\nx\n4;\n";
    let mut maker = CopyMaker::new(pair);
    let found = run::<_, 7>(rt.alloc(), text, &mut maker, formats, KEEP_GOING)?;
    is_found(rt, &found, "+12;+4;", "2u13mx", (2, 2));
    // A line whose values don't fit is told as well where those that match nothing aren't.
    let found = run::<_, 7>(rt.alloc(), text, &mut maker, formats, MATCHING)?;
    is_found(rt, &found, "+12;", "2u1", (1, 1));
    Ok(())
}

#[test]
fn lines_are_copied(rt: HostRuntime) -> Result<(), Fail> {
    let print = PrintFormat::parse(rt.alloc(), Profile::One, b"%+d;")?;
    let scan = ScanFormat::parse(rt.alloc(), Profile::One, b"%3d;")?;
    let pair = Pair::check(&print, &scan)?;
    let tried = parsed(rt.alloc(), &["%3d;"])?;
    let formats = LineFormats {
        ignored: &[],
        tried: &tried,
    };
    are_copied(&rt, &pair, &formats)
}

#[test]
fn lines_are_printed(rt: HostRuntime) -> Result<(), Fail> {
    let print = PrintFormat::parse(rt.alloc(), Profile::One, b"%2$c,%1$d\n")?;
    let tried = parsed(rt.alloc(), &["%hhd %s"])?;
    let formats = LineFormats {
        ignored: &[],
        tried: &tried,
    };
    let text = b"-1 a\n2 bc\nx\n3 d\n";
    let mut maker = PrintMaker::new(&print);
    let found = run::<_, 7>(rt.alloc(), text, &mut maker, &formats, KEEP_GOING)?;
    is_found(&rt, &found, "a,-1\nd,3\n", "2u23mx", (2, 2));
    Ok(())
}

/// A print format and a scan format, and why the first can't print the records of the second.
static JUDGED: [(&str, &str, Option<PrintMismatch>); 12] = [
    ("%d,%s", "%d %s", None),
    ("%2$s,%1$d", "%d %s", None),
    ("%hd %hd %d", "%hhd %hhu %hu", None),
    ("%ld %d", "%u%n", None),
    ("%ld %ld", "%hd %ld", None),
    ("%d %ld", "%d %d", None),
    (
        "%d %d",
        "%d %ld",
        Some(PrintMismatch::Kinds {
            slot: 2,
            print: Kind::I32,
            scan: Kind::I64,
        }),
    ),
    (
        "%d %d",
        "%d",
        Some(PrintMismatch::Count {
            values: 2,
            destinations: 1,
        }),
    ),
    (
        "%d",
        "%u",
        Some(PrintMismatch::Kinds {
            slot: 1,
            print: Kind::I32,
            scan: Kind::U32,
        }),
    ),
    (
        "%2$d %1$hhd",
        "%hd %s",
        Some(PrintMismatch::Kinds {
            slot: 1,
            print: Kind::I8,
            scan: Kind::I16,
        }),
    ),
    (
        "%d %u",
        "%d %d",
        Some(PrintMismatch::Kinds {
            slot: 2,
            print: Kind::U32,
            scan: Kind::I32,
        }),
    ),
    (
        "%s",
        "%d",
        Some(PrintMismatch::Kinds {
            slot: 1,
            print: Kind::Text,
            scan: Kind::I32,
        }),
    ),
];

/// Why a print format can't print the records of a scan format.
fn mismatch(alloc: Global, print: &str, scan: &str) -> Result<Option<PrintMismatch>, Fail> {
    let print = PrintFormat::parse(alloc, Profile::One, print.as_bytes())?;
    let scan = ScanFormat::parse(alloc, Profile::One, scan.as_bytes())?;
    Ok(check_print(&print, &scan).err())
}

#[test]
fn prints_are_judged(rt: HostRuntime) -> Result<(), Fail> {
    for (print, scan, why) in &JUDGED {
        assert_eq!(rt; mismatch(rt.alloc(), print, scan)?, *why);
    }
    Ok(())
}
