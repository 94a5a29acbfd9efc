//! Names of columns, and records under heads, with texts found by reading RFC 8259, RFC 4180 and the rules of names.
use crate::by_lines::hands::{parsed, run};
use sf_format::{Profile, ScanFormat};
use sf_forms::{FormMaker, Names, NamesFault};
use sf_print::ListSink;
use sf_read::{Lookahead, SliceSource};
use sf_records::{LineFormats, LinesOptions, OutputForm, run_records};
use std::alloc::Global;
use std::process::Abort;
use std::test::Fail;

const OPTIONS: LinesOptions = LinesOptions {
    limit: 99,
    skip: 0,
    whole: true,
    keep_going: true,
    matching: false,
};

/// Names, formats, whether there is a column for the format's number, and what is wrong.
type NamesRow = (
    &'static str,
    &'static [&'static str],
    bool,
    Result<(), NamesFault>,
);

static NAMES: [NamesRow; 14] = [
    ("a", &["%d"], false, Ok(())),
    ("a,A", &["%d %d", "%s%*d%n"], true, Ok(())),
    ("format", &["%d"], false, Ok(())),
    (
        " , ,  ",
        &["%d %d %d"],
        false,
        Err(NamesFault::Twice { number: 2 }),
    ),
    (
        "a",
        &["%d %d"],
        false,
        Err(NamesFault::Count {
            expected: 2,
            got: 1,
        }),
    ),
    (
        "a",
        &["%*d"],
        false,
        Err(NamesFault::Count {
            expected: 0,
            got: 1,
        }),
    ),
    // The first format that differs, before each name.
    (
        "a,",
        &["%d %d", "%d", "%*d"],
        false,
        Err(NamesFault::Count {
            expected: 1,
            got: 2,
        }),
    ),
    ("", &["%d"], false, Err(NamesFault::Empty { number: 1 })),
    (",", &["%d %d"], false, Err(NamesFault::Empty { number: 1 })),
    (
        "a,,a",
        &["%d%d%d"],
        false,
        Err(NamesFault::Empty { number: 2 }),
    ),
    (
        "a,a,",
        &["%d%d%d"],
        false,
        Err(NamesFault::Twice { number: 2 }),
    ),
    (
        "a,b,a",
        &["%d%d%d"],
        false,
        Err(NamesFault::Twice { number: 3 }),
    ),
    (
        "a,format",
        &["%d%d"],
        true,
        Err(NamesFault::Twice { number: 2 }),
    ),
    (
        "formats,format,",
        &["%d%d%d"],
        true,
        Err(NamesFault::Twice { number: 2 }),
    ),
];

/// What is wrong with the names of the row.
fn checked(alloc: Global, row: &NamesRow) -> Result<Result<(), NamesFault>, Fail> {
    let (text, formats, tagged, _) = row;
    let names = Names::split(alloc, text)?;
    let formats = parsed(alloc, formats)?;
    Ok(names.check(&formats, *tagged))
}

#[test]
fn names_are_checked(rt: HostRuntime) -> Result<(), Fail> {
    for row in &NAMES {
        assert_eq!(rt; checked(rt.alloc(), row)?, row.3, "{}", row.0);
    }
    Ok(())
}

#[test]
fn names_are_between_commas(rt: HostRuntime) -> Result<(), Fail> {
    let names = Names::split(rt.alloc(), "a,,b\\n")?;
    assert_eq!(rt; names.len(), 3);
    assert_eq!(rt; names.name(1), "a");
    assert_eq!(rt; names.name(3), "b\\n");
    assert_eq!(rt; names.name(4), "");
    assert_eq!(rt; names.as_slice().len(), 3);
    Ok(())
}

/// Names, if there are any; whether the format's number is asked for; formats; an input; and what is written in each
/// form: plain, TSV, JSON, CSV.
type Row = (
    Option<&'static str>,
    bool,
    &'static [&'static str],
    &'static str,
    [&'static str; 4],
);

static ROWS: [Row; 5] = [
    (
        Some("a\"b,c"),
        false,
        &["%[^,],%d"],
        "a,1\nb,x\nd\"e,-4\nf\rg,5\n",
        [
            "\"a\" 1\n\"d\\\"e\" -4\n\"f\\x0dg\" 5\n",
            "a\"b\tc\na\t1\nd\"e\t-4\nf\\rg\t5\n",
            "{\"a\\\"b\":\"a\",\"c\":1}\n{\"a\\\"b\":\"d\\\"e\",\"c\":-4}\n{\"a\\\"b\":\"f\\rg\",\"c\":5}\n",
            "\"a\"\"b\",c\na,1\n\"d\"\"e\",-4\n\"f\rg\",5\n",
        ],
    ),
    (
        None,
        true,
        &["%d", "%[^,],%d", "#%[a-z]"],
        "a,1\n\n#c\n7\nd\te,4",
        [
            "2 \"a\" 1\n3 \"c\"\n1 7\n2 \"d\\x09e\" 4\n",
            "2\ta\t1\n3\tc\n1\t7\n2\td\\te\t4\n",
            "[2,\"a\",1]\n[3,\"c\"]\n[1,7]\n[2,\"d\\te\",4]\n",
            "2,a,1\n3,c\n1,7\n2,d\te,4\n",
        ],
    ),
    (
        Some("x\ty,é"),
        true,
        &["%d %d", "%d,%d"],
        "1 2\n3,4\n",
        [
            "1 1 2\n2 3 4\n",
            "format\tx\\ty\té\n1\t1\t2\n2\t3\t4\n",
            "{\"format\":1,\"x\\ty\":1,\"é\":2}\n{\"format\":2,\"x\\ty\":3,\"é\":4}\n",
            "format,x\ty,é\n1,1,2\n2,3,4\n",
        ],
    ),
    // A record of one column that is empty; a format that gives nothing.
    (
        Some("a"),
        false,
        &["%*1[x]%1[^\n]"],
        "",
        ["", "a\n", "", "a\n"],
    ),
    (
        None,
        true,
        &["%*d", "%*s"],
        "1\nx\n",
        ["1\n2\n", "1\n2\n", "[1]\n[2]\n", "1\n2\n"],
    ),
];

static FORMS: [OutputForm; 4] = [
    OutputForm::Plain,
    OutputForm::Tsv,
    OutputForm::Json,
    OutputForm::Csv,
];

/// The names, if there are any.
fn names_of(alloc: Global, text: Option<&str>) -> Result<Option<Names<'_>>, Fail> {
    match text {
        Some(text) => Ok(Some(Names::split(alloc, text)?)),
        None => Ok(None),
    }
}

/// The line of names is what the text begins with; answers the rest.
fn after_head<'t>(
    rt: &(impl Abort + AllocGlobal),
    maker: &mut FormMaker<'_>,
    text: &'t str,
) -> Result<&'t [u8], Fail> {
    let mut to = ListSink::new(rt.alloc());
    assert_eq!(rt; maker.write_header(&mut to), Ok(()), "{text}");
    match text.as_bytes().strip_prefix(to.bytes()) {
        Some(rest) => Ok(rest),
        None => Err(Fail::new(text)),
    }
}

/// The row's lines are written so in the form.
fn lines_in_form(
    rt: &(impl Abort + AllocGlobal),
    row: &Row,
    formats: &LineFormats<'_>,
    form: OutputForm,
    wanted: &str,
) -> Result<(), Fail> {
    let names = names_of(rt.alloc(), row.0)?;
    let mut maker = FormMaker::headed(rt.alloc(), form, names, row.1);
    let records = after_head(rt, &mut maker, wanted)?;
    let found = run::<_, 7>(rt.alloc(), row.3.as_bytes(), &mut maker, formats, OPTIONS)?;
    assert!(rt; found.to.bytes() == records, "{wanted}");
    Ok(())
}

/// The row's lines in each form.
fn in_each_form(rt: &(impl Abort + AllocGlobal), row: &Row) -> Result<(), Fail> {
    let tried = parsed(rt.alloc(), row.2)?;
    let formats = LineFormats {
        ignored: &[],
        tried: &tried,
    };
    for (form, wanted) in FORMS.iter().zip(&row.4) {
        lines_in_form(rt, row, &formats, *form, wanted)?;
    }
    Ok(())
}

#[test]
fn lines_have_heads(rt: HostRuntime) -> Result<(), Fail> {
    for row in &ROWS {
        in_each_form(&rt, row)?;
    }
    Ok(())
}

/// What is written in each form of the records of `a 1` and `b 2`, under names and with the number of the format.
static RECORDS: [&str; 4] = [
    "1 \"a\" 1\n1 \"b\" 2\n",
    "format\tw\tn\n1\ta\t1\n1\tb\t2\n",
    "{\"format\":1,\"w\":\"a\",\"n\":1}\n{\"format\":1,\"w\":\"b\",\"n\":2}\n",
    "format,w,n\n1,a,1\n1,b,2\n",
];

/// The records are written so in the form.
fn records_in_form(
    rt: &(impl Abort + AllocGlobal),
    format: &ScanFormat,
    form: OutputForm,
    wanted: &str,
) -> Result<(), Fail> {
    let names = Names::split(rt.alloc(), "w,n")?;
    let mut maker = FormMaker::headed(rt.alloc(), form, Some(names), true);
    let records = after_head(rt, &mut maker, wanted)?;
    let mut from = Lookahead::<SliceSource<'_>, 3>::new(SliceSource::new(b"a 1\nb 2\n"));
    let mut to = ListSink::new(rt.alloc());
    let end = run_records(rt.alloc(), &mut from, &mut to, &mut maker, format, 99);
    assert!(rt; to.bytes() == records, "{wanted}");
    assert_eq!(rt; end.records, 2, "{wanted}");
    assert_eq!(rt; end.fault, None, "{wanted}");
    Ok(())
}

#[test]
fn records_have_heads(rt: HostRuntime) -> Result<(), Fail> {
    let format = ScanFormat::parse(rt.alloc(), Profile::One, b"%s %d")?;
    for (form, wanted) in FORMS.iter().zip(&RECORDS) {
        records_in_form(&rt, &format, *form, wanted)?;
    }
    Ok(())
}
