//! Each write of a text fails in turn, the values that are refused, and the longest text.
use crate::printing::{prints, prints_in_part};
use sf_base::Value;
use sf_format::{PrintFormat, Profile};
use sf_print::{ListSink, PrintFault, WriteStep, fprint, printed_len};
use sf_rows::{PrintRow, is, refused_prints};
use std::alloc::Global;
use std::test::Fail;

/// So many writes are taken, each of at most so many bytes; the next one fails.
fn writes_and_failure(alloc: Global, size: usize, writes: usize) -> Result<Vec<WriteStep>, Fail> {
    let mut steps = Vec::new(alloc);
    for _ in 0..writes {
        steps.push(WriteStep::Accept(size))?;
    }
    steps.push(WriteStep::Fail)?;
    Ok(steps)
}

/// The values are printed so, and each write of the text fails in turn, with writes of 1, 2 and 3 bytes.
fn fails_at_each_place(
    alloc: Global,
    format: &PrintFormat,
    values: &[Value<'_>],
    text: &[u8],
) -> Result<(), Fail> {
    prints(alloc, format, values, text)?;
    for size in [1usize, 2, 3] {
        for writes in 0..text.len() {
            let steps = writes_and_failure(alloc, size, writes)?;
            let taken = size.saturating_mul(writes);
            prints_in_part(alloc, format, values, text, &steps, taken)?;
        }
    }
    Ok(())
}

/// A text that is longer than what a sink is handed at once.
static LONG: [PrintRow; 1] = [PrintRow {
    profile: Profile::One,
    format: b"%s;%140d;%-9x|%.3d,%s",
    values: &[
        Value::Text(b"key"),
        Value::I32(-7),
        Value::U32(48879),
        Value::I32(5),
        Value::Text(b"tail"),
    ],
    text: b"key;                                                                    \
        \x20                                                                     -7;beef     |005,tail",
}];

#[test]
fn each_write_fails_in_turn(rt: HostRuntime) -> Result<(), Fail> {
    for rows in [sf_rows::prints(), LONG.as_slice()] {
        for row in rows {
            let format = PrintFormat::parse(rt.alloc(), row.profile, row.format)?;
            fails_at_each_place(rt.alloc(), &format, row.values, row.text)?;
        }
    }
    Ok(())
}

/// The values are refused so, and nothing is written.
fn refuses(
    alloc: Global,
    format: &PrintFormat,
    values: &[Value<'_>],
    fault: PrintFault,
) -> Result<(), Fail> {
    let mut sink = ListSink::new(alloc);
    let found = [
        fprint(&mut sink, format, values),
        printed_len(format, values),
    ];
    is(&found, &[Err(fault), Err(fault)], &fault)?;
    is(&sink.bytes().len(), &0, &fault)
}

#[test]
fn values_are_refused_in_order(rt: HostRuntime) -> Result<(), Fail> {
    for row in refused_prints() {
        let (text, values, fault) = row;
        let format = PrintFormat::parse(rt.alloc(), Profile::One, text)?;
        refuses(rt.alloc(), &format, values, *fault)?;
    }
    Ok(())
}

/// Thirty-two texts.
static TEXTS: &[u8] = b"%s%s%s%s%s%s%s%s%s%s%s%s%s%s%s%s%s%s%s%s%s%s%s%s%s%s%s%s%s%s%s%s";

/// The text thirty-two times is too long, and nothing of it is written; with one byte less it isn't.
fn are_too_long(alloc: Global, text: &[u8]) -> Result<(), Fail> {
    let format = PrintFormat::parse(alloc, Profile::One, TEXTS)?;
    let mut values = [Value::Text(text); 32];
    refuses(alloc, &format, &values, PrintFault::TooLong)?;
    values[31] = Value::Text(text.get(1..).unwrap_or(text));
    let found = printed_len(&format, &values);
    is(&found, &Ok(2147483647), &"a byte less")
}

/// The text is printed once.
fn is_printed_once(alloc: Global, text: &[u8]) -> Result<(), Fail> {
    let format = PrintFormat::parse(alloc, Profile::One, b"%s")?;
    let mut sink = ListSink::new(alloc);
    let printed = fprint(&mut sink, &format, &[Value::Text(text)]);
    let found = (printed, sink.bytes() == text);
    is(&found, &(Ok(67108864), true), &"one text")
}

#[test]
fn longest_text(rt: HostRuntime) -> Result<(), Fail> {
    let mut text = Vec::with_capacity(rt.alloc(), 67108864)?;
    text.resize(67108864, b'a')?;
    are_too_long(rt.alloc(), &text)?;
    is_printed_once(rt.alloc(), &text)
}
