//! Values: words that are printed, the bytes that words stand for, and the names of kinds.
use crate::shared::{is, words_of};
use sf_arguments::{EscapeFault, kind_text, unescape};
use sf_base::Kind;
use sf_command::{ArgumentFault, WordReading, print_values, print_words};
use sf_format::{PrintFormat, Profile};
use sf_print::{ListSink, ScriptSink, Sink, StdSink, WriteStep};
use std::alloc::Global;
use std::test::Fail;

/// Prints the words of a line by a format.
fn print<K: Sink>(
    alloc: Global,
    format: &[u8],
    line: &str,
    out: &mut K,
) -> Result<Result<(), ArgumentFault>, Fail> {
    let format = PrintFormat::parse(alloc, Profile::One, format)?;
    let words = words_of(alloc, line)?;
    Ok(print_values(alloc, &format, &words, out))
}

/// What the sink takes before it fails, what printing two numbers answers, and what the sink took.
static SINKS: [(&[WriteStep], Result<(), ArgumentFault>, &[u8]); 2] = [
    (
        &[WriteStep::Accept(4), WriteStep::Fail],
        Err(ArgumentFault::Write),
        b"12,3",
    ),
    (&[], Ok(()), b"12,345"),
];

#[test]
fn sinks_are_printed_to(rt: HostRuntime) -> Result<(), Fail> {
    for (steps, wanted, taken) in &SINKS {
        let mut out = ScriptSink::new(rt.alloc(), steps);
        let printed = print(rt.alloc(), b"%d,%d", "12/345", &mut out)?;
        is(&rt, &printed, wanted, &"answer");
        is(&rt, &out.bytes(), taken, &"taken");
    }
    Ok(())
}

#[test]
fn writers_are_printed_to(rt: HostRuntime) -> Result<(), Fail> {
    let mut bytes = Vec::<u8>::new(rt.alloc());
    bytes.push(b'>')?;
    let mut out = StdSink::new(&mut bytes);
    let printed = print(rt.alloc(), b"%d;", "12", &mut out)?;
    is(&rt, &printed, &Ok(()), &"%d;");
    is(&rt, &bytes.as_slice(), &b">12;".as_slice(), &"%d;");
    Ok(())
}

#[test]
fn escapes_are_resolved(rt: HostRuntime) -> Result<(), Fail> {
    let bytes = unescape(rt.alloc(), b"\\x41b\\n\\\\")?;
    is(&rt, &bytes.as_slice(), &b"Ab\n\\".as_slice(), &"bytes");
    let fault = unescape(rt.alloc(), b"a\\x1").err();
    is(&rt, &fault, &Some(EscapeFault::Bad { at: 1 }), &"fault");
    Ok(())
}

/// How a word is read, and what `%s` prints of it, or why not.
static READINGS: [(WordReading, Result<(), ArgumentFault>, &[u8]); 2] = [
    (WordReading::Raw, Ok(()), b"a\\q"),
    (
        WordReading::Escaped,
        Err(ArgumentFault::BadEscape { at: 1, offset: 1 }),
        b"",
    ),
];

#[test]
fn words_are_read_as_they_stand(rt: HostRuntime) -> Result<(), Fail> {
    let format = PrintFormat::parse(rt.alloc(), Profile::One, b"%s")?;
    let words = words_of(rt.alloc(), "a\\q")?;
    for (how, wanted, printed) in &READINGS {
        let mut out = ListSink::new(rt.alloc());
        let found = print_words(rt.alloc(), *how, &format, &words, &mut out);
        is(&rt, &found, wanted, how);
        is(&rt, &out.bytes(), printed, how);
    }
    Ok(())
}

static KINDS: [(Kind, &str); 9] = [
    (Kind::I8, "i8"),
    (Kind::I16, "i16"),
    (Kind::I32, "i32"),
    (Kind::I64, "i64"),
    (Kind::U8, "u8"),
    (Kind::U16, "u16"),
    (Kind::U32, "u32"),
    (Kind::U64, "u64"),
    (Kind::Text, "text"),
];

#[test]
fn kinds_have_names(rt: HostRuntime) -> Result<(), Fail> {
    for (kind, name) in &KINDS {
        is(&rt, &kind_text(*kind), name, kind);
    }
    Ok(())
}
