//! What a format answers of itself to a program. What `sf show` says of formats, and the faults of texts that are none,
//! stand in tests/program/cases.
use sf_base::Kind;
use sf_format::{
    Base, Conversion, Directive, Lead, PrintConv, PrintFormat, PrintLetter, Profile, ScanFormat,
    Shape, Span, Spans, Unit, directive_text,
};
use sf_rows::is;
use std::alloc::Global;
use std::test::Fail;

/// Whether it is `%d`, for the slot, with this before its digits.
fn is_decimal(directive: &Directive, number: u8, lead: Lead) -> bool {
    match directive {
        Directive::Conv(
            Conversion {
                shape: Shape::Int(numeral),
                kind: Kind::I32,
                width: None,
                slot: Some(slot),
                optional: false,
                opens: None,
                column: false,
            },
        ) => numeral.base == Base::Dec && numeral.lead == lead && *slot == number,
        _ => false,
    }
}

/// Whether the directives are those of `%d, \t%%%d`, with this before their digits.
fn are_five(directives: &[Directive], lead: Lead) -> bool {
    match directives {
        [
            first,
            Directive::Byte(b','),
            Directive::Space,
            Directive::Percent,
            last,
        ] => is_decimal(first, 1, lead) && is_decimal(last, 2, lead),
        _ => false,
    }
}

#[test]
fn a_scan_format_has_its_directives(rt: HostRuntime) -> Result<(), Fail> {
    for profile in [Profile::One, Profile::Two] {
        let format = ScanFormat::parse(rt.alloc(), profile, b"%d, \t%%%d")?;
        is(&are_five(format.directives(), Lead::Any), &true, &profile)?;
        let strict = format.strict();
        is(&are_five(strict.directives(), Lead::Minus), &true, &profile)?;
    }
    Ok(())
}

#[test]
fn a_mark_makes_a_conversion_strict(rt: HostRuntime) -> Result<(), Fail> {
    let format = ScanFormat::parse(rt.alloc(), Profile::Three, b"%!d, \t%%%!d")?;
    is(&are_five(format.directives(), Lead::Minus), &true, &"%!d")
}

/// A scan format, how many directives and destinations it has, the kinds of its slots from 0 to 3, and its width sum.
type ScanRow = (&'static [u8], [usize; 2], [Option<Kind>; 4], Option<u32>);

static SCANS: [ScanRow; 13] = [
    (b"", [0, 0], [None; 4], Some(0)),
    (
        b"%d, %d",
        [4, 2],
        [None, Some(Kind::I32), Some(Kind::I32), None],
        Some(0),
    ),
    (
        b"%d, %hhu",
        [4, 2],
        [None, Some(Kind::I32), Some(Kind::U8), None],
        Some(0),
    ),
    (b"%%%*d%%", [3, 0], [None; 4], Some(0)),
    (
        b"%3d,%*s",
        [3, 1],
        [None, Some(Kind::I32), None, None],
        Some(0),
    ),
    (
        b"%2$d%*d %1$s",
        [4, 2],
        [None, Some(Kind::Text), Some(Kind::I32), None],
        None,
    ),
    (
        b"%3$d%1$n%2$[a]",
        [3, 3],
        [None, Some(Kind::I32), Some(Kind::Text), Some(Kind::I32)],
        None,
    ),
    (
        b"%c%3s%5[a]",
        [3, 3],
        [None, Some(Kind::Text), Some(Kind::Text), Some(Kind::Text)],
        Some(9),
    ),
    (
        b"%c%s",
        [2, 2],
        [None, Some(Kind::Text), Some(Kind::Text), None],
        None,
    ),
    (b"%[a]", [1, 1], [None, Some(Kind::Text), None, None], None),
    (
        b"%*7s%2c",
        [2, 1],
        [None, Some(Kind::Text), None, None],
        Some(2),
    ),
    (
        b"%9d%n",
        [2, 2],
        [None, Some(Kind::I32), Some(Kind::I32), None],
        Some(0),
    ),
    (
        b"%2$4s%1$c",
        [2, 2],
        [None, Some(Kind::Text), Some(Kind::Text), None],
        Some(5),
    ),
];

fn is_of_row(format: &ScanFormat, row: &ScanRow) -> Result<(), Fail> {
    let (_, counts, kinds, width_sum) = row;
    let found_counts = [
        format.directives().len(),
        usize::from(format.destinations()),
    ];
    let found_kinds = [
        format.kind(0),
        format.kind(1),
        format.kind(2),
        format.kind(3),
    ];
    let found = (found_counts, found_kinds, format.width_sum());
    is(&found, &(*counts, *kinds, *width_sum), row)
}

#[test]
fn scan_formats_answer(rt: HostRuntime) -> Result<(), Fail> {
    for row in &SCANS {
        is_of_row(&ScanFormat::parse(rt.alloc(), Profile::One, row.0)?, row)?;
    }
    Ok(())
}

/// Formats, numbers of directives, and their texts as they stand there.
static DIRECTIVE_TEXTS: [(Profile, &[u8], u16, Option<&[u8]>); 13] = [
    (Profile::One, b"%d", 0, None),
    (Profile::One, b"%d", 1, Some(b"%d")),
    (Profile::One, b"%d", 2, None),
    (Profile::One, b"", 1, None),
    (Profile::One, b"a \n%5hhd", 1, Some(b"a")),
    (Profile::One, b"a \n%5hhd", 2, Some(b" \n")),
    (Profile::One, b"a \n%5hhd", 3, Some(b"%5hhd")),
    (Profile::One, b"%%%*[^]x]%2$s", 1, None),
    (Profile::One, b"%%%*[^]x]%1$s", 1, Some(b"%%")),
    (Profile::One, b"%%%*[^]x]%1$s", 2, Some(b"%*[^]x]")),
    (Profile::One, b"%%%*[^]x]%1$s", 3, Some(b"%1$s")),
    (Profile::One, b"%d%", 1, None),
    (Profile::Two, b"%b,%x", 1, Some(b"%b")),
];

#[test]
fn directives_have_texts() -> Result<(), Fail> {
    for row in &DIRECTIVE_TEXTS {
        let (profile, text, number, wanted) = row;
        is(&directive_text(*profile, text, *number), wanted, row)?;
    }
    Ok(())
}

/// The text of the directive by the spans of the format.
fn text_by_span<'a>(
    alloc: Global,
    profile: Profile,
    text: &'a [u8],
    number: u16,
) -> Option<&'a [u8]> {
    match Spans::of(alloc, profile, text) {
        Ok(spans) => spans.text_of(text, number),
        Err(_) => None,
    }
}

#[test]
fn directives_have_texts_by_spans(rt: HostRuntime) -> Result<(), Fail> {
    for row in &DIRECTIVE_TEXTS {
        let (profile, text, number, wanted) = row;
        is(
            &text_by_span(rt.alloc(), *profile, text, *number),
            wanted,
            row,
        )?;
    }
    Ok(())
}

#[test]
fn directives_have_spans(rt: HostRuntime) -> Result<(), Fail> {
    let spans = Spans::of(rt.alloc(), Profile::One, b"%%%*[^]x]%1$s")?;
    let wanted = [Some(Span { start: 2, end: 9 }), None];
    is(&[spans.span(2), spans.span(4)], &wanted, &"2 and 4")
}

/// A print format of one conversion, with what it prints, its flags, its width and its precision.
type PrintRow = (
    Profile,
    &'static [u8],
    PrintLetter,
    Kind,
    &'static [u8],
    u16,
    Option<u8>,
);

static PRINTS: [PrintRow; 25] = [
    (
        Profile::One,
        b"%d",
        PrintLetter::Signed,
        Kind::I32,
        b"",
        0,
        None,
    ),
    (
        Profile::One,
        b"%i",
        PrintLetter::Signed,
        Kind::I32,
        b"",
        0,
        None,
    ),
    (
        Profile::One,
        b"%hhd",
        PrintLetter::Signed,
        Kind::I8,
        b"",
        0,
        None,
    ),
    (
        Profile::One,
        b"%hi",
        PrintLetter::Signed,
        Kind::I16,
        b"",
        0,
        None,
    ),
    (
        Profile::One,
        b"%lld",
        PrintLetter::Signed,
        Kind::I64,
        b"",
        0,
        None,
    ),
    (
        Profile::One,
        b"%u",
        PrintLetter::Unsigned,
        Kind::U32,
        b"",
        0,
        None,
    ),
    (
        Profile::One,
        b"%hho",
        PrintLetter::Octal,
        Kind::U8,
        b"",
        0,
        None,
    ),
    (
        Profile::One,
        b"%hx",
        PrintLetter::HexLower,
        Kind::U16,
        b"",
        0,
        None,
    ),
    (
        Profile::One,
        b"%zX",
        PrintLetter::HexUpper,
        Kind::U64,
        b"",
        0,
        None,
    ),
    (
        Profile::One,
        b"%jx",
        PrintLetter::HexLower,
        Kind::U64,
        b"",
        0,
        None,
    ),
    (
        Profile::One,
        b"%s",
        PrintLetter::Text,
        Kind::Text,
        b"",
        0,
        None,
    ),
    (
        Profile::One,
        b"%c",
        PrintLetter::One,
        Kind::Text,
        b"",
        0,
        None,
    ),
    (
        Profile::One,
        b"%+ d",
        PrintLetter::Signed,
        Kind::I32,
        b"+ ",
        0,
        None,
    ),
    (
        Profile::One,
        b"% d",
        PrintLetter::Signed,
        Kind::I32,
        b" ",
        0,
        None,
    ),
    (
        Profile::One,
        b"%-05d",
        PrintLetter::Signed,
        Kind::I32,
        b"-0",
        5,
        None,
    ),
    (
        Profile::One,
        b"%0-0-5d",
        PrintLetter::Signed,
        Kind::I32,
        b"-0",
        5,
        None,
    ),
    (
        Profile::One,
        b"%+5d",
        PrintLetter::Signed,
        Kind::I32,
        b"+",
        5,
        None,
    ),
    (
        Profile::One,
        b"%08.3d",
        PrintLetter::Signed,
        Kind::I32,
        b"0",
        8,
        Some(3),
    ),
    (
        Profile::One,
        b"%.0d",
        PrintLetter::Signed,
        Kind::I32,
        b"",
        0,
        Some(0),
    ),
    (
        Profile::One,
        b"%.d",
        PrintLetter::Signed,
        Kind::I32,
        b"",
        0,
        Some(0),
    ),
    (
        Profile::One,
        b"%#06x",
        PrintLetter::HexLower,
        Kind::U32,
        b"#0",
        6,
        None,
    ),
    (
        Profile::One,
        b"%#.3o",
        PrintLetter::Octal,
        Kind::U32,
        b"#",
        0,
        Some(3),
    ),
    (
        Profile::One,
        b"%.2s",
        PrintLetter::Text,
        Kind::Text,
        b"",
        0,
        Some(2),
    ),
    (
        Profile::One,
        b"%-65535.00255s",
        PrintLetter::Text,
        Kind::Text,
        b"-",
        65535,
        Some(255),
    ),
    (
        Profile::Two,
        b"%-#010hb",
        PrintLetter::Binary,
        Kind::U16,
        b"-#0",
        10,
        None,
    ),
];

fn conversion(row: &PrintRow) -> PrintConv {
    let (_, _, letter, kind, flags, width, precision) = row;
    PrintConv {
        letter: *letter,
        kind: *kind,
        slot: 1,
        minus: flags.contains(&b'-'),
        plus: flags.contains(&b'+'),
        blank: flags.contains(&b' '),
        alt: flags.contains(&b'#'),
        zero: flags.contains(&b'0'),
        width: *width,
        precision: *precision,
    }
}

/// The only unit of a format, if it is a conversion.
fn only_unit(format: &PrintFormat) -> Option<PrintConv> {
    match format.directives() {
        [Unit::Conv(conversion)] => Some(*conversion),
        _ => None,
    }
}

#[test]
fn print_formats_have_conversions(rt: HostRuntime) -> Result<(), Fail> {
    for row in &PRINTS {
        let format = PrintFormat::parse(rt.alloc(), row.0, row.1)?;
        is(&only_unit(&format), &Some(conversion(row)), row)?;
    }
    Ok(())
}

/// `%d`, and `%s` of the second value.
const NUMBER: PrintConv = PrintConv {
    letter: PrintLetter::Signed,
    kind: Kind::I32,
    slot: 1,
    minus: false,
    plus: false,
    blank: false,
    alt: false,
    zero: false,
    width: 0,
    precision: None,
};

const SECOND: PrintConv = PrintConv {
    letter: PrintLetter::Text,
    kind: Kind::Text,
    slot: 2,
    ..NUMBER
};

const NUMBERED: &[Unit] = &[Unit::Conv(SECOND), Unit::Byte(b'-'), Unit::Conv(NUMBER)];

const LITERAL: &[Unit] = &[
    Unit::Byte(b'a'),
    Unit::Byte(b' '),
    Unit::Byte(b'\t'),
    Unit::Byte(b'%'),
    Unit::Conv(NUMBER),
];

/// A print format, its units, and the kinds of its slots from 0 to 3.
type UnitRow = (Profile, &'static [u8], &'static [Unit], [Option<Kind>; 4]);

static UNITS: [UnitRow; 3] = [
    (
        Profile::One,
        b"a \t%%%d",
        LITERAL,
        [None, Some(Kind::I32), None, None],
    ),
    (
        Profile::Two,
        b"a \t%%%d",
        LITERAL,
        [None, Some(Kind::I32), None, None],
    ),
    (
        Profile::One,
        b"%2$s-%1$d",
        NUMBERED,
        [None, Some(Kind::I32), Some(Kind::Text), None],
    ),
];

fn has_units(format: &PrintFormat, row: &UnitRow) -> Result<(), Fail> {
    let (_, _, units, kinds) = row;
    let found = [
        format.kind(0),
        format.kind(1),
        format.kind(2),
        format.kind(3),
    ];
    is(&(format.directives(), found), &(*units, *kinds), row)
}

#[test]
fn print_formats_answer(rt: HostRuntime) -> Result<(), Fail> {
    for row in &UNITS {
        let format = PrintFormat::parse(rt.alloc(), row.0, row.1)?;
        has_units(&format, row)?;
    }
    Ok(())
}

#[test]
fn a_print_format_has_its_values(rt: HostRuntime) -> Result<(), Fail> {
    let format = PrintFormat::parse(rt.alloc(), Profile::One, b"%2$s-%1$d")?;
    is(&format.values(), &2, &"values")
}
