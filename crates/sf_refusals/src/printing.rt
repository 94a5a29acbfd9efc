//! Prints to lists, and what a pair writes and reads.
use crate::answer::{Answer, told};
use sf_base::Value;
use sf_format::{PrintFormat, Profile, ScanFormat};
use sf_pair::Pair;
use sf_pair_read::read_back;
use sf_print::{ListSink, ScriptSink, fprint};
use sf_read::{Lookahead, SliceSource};
use std::alloc::Global;

const VALUES: [Value<'static>; 2] = [
    Value::Text(b"abcdefghijklmnopqrstuvwxyz0123456789"),
    Value::I32(-42),
];

const PRINTED: &[u8] = b"abcdefghijklmnopqrstuvwxyz0123456789,-42;abcdefghijklmnopqrst|    -42";

/// A print to a list, in several pieces.
pub fn list(alloc: Global) -> Answer {
    let Ok(format) = PrintFormat::parse(alloc, Profile::One, b"%s,%d;abcdefghijklmnopqrst|    -42")
    else {
        return Answer::NotReached;
    };
    let mut to = ListSink::new(alloc);
    let printed = fprint(&mut to, &format, &VALUES);
    let bytes = to.bytes();
    Answer::Printed(printed, bytes.len(), PRINTED.starts_with(bytes))
}

/// A print to a script without steps.
pub fn script(alloc: Global) -> Answer {
    let Ok(format) = PrintFormat::parse(alloc, Profile::One, b"%s,%d;abcdefghijklmnopqrst|    -42")
    else {
        return Answer::NotReached;
    };
    let mut to = ScriptSink::new(alloc, &[]);
    let printed = fprint(&mut to, &format, &VALUES);
    let bytes = to.bytes();
    Answer::Printed(printed, bytes.len(), PRINTED.starts_with(bytes))
}

/// The formats of a pair of a text and a number.
fn formats(alloc: Global) -> Option<(PrintFormat, ScanFormat)> {
    let print = PrintFormat::parse(alloc, Profile::One, b"%s,%d\n").ok()?;
    let scan = ScanFormat::parse(alloc, Profile::One, b"%40[a-z0-9],%11d%*1[\n]").ok()?;
    Some((print, scan))
}

const WRITTEN: &[u8] = b"abcdefghijklmnopqrstuvwxyz0123456789,-42\n";

/// What a pair writes to a list.
pub fn write(alloc: Global) -> Answer {
    let Some((print, scan)) = formats(alloc) else {
        return Answer::NotReached;
    };
    let Ok(pair) = Pair::check(&print, &scan) else {
        return Answer::NotReached;
    };
    let mut to = ListSink::new(alloc);
    let written = pair.write(&mut to, &VALUES);
    let bytes = to.bytes();
    Answer::Written(written, bytes.len(), WRITTEN.starts_with(bytes))
}

/// What a pair reads back.
pub fn read(alloc: Global) -> Answer {
    let Some((print, scan)) = formats(alloc) else {
        return Answer::NotReached;
    };
    let Ok(pair) = Pair::check(&print, &scan) else {
        return Answer::NotReached;
    };
    let mut from = Lookahead::<SliceSource<'_>, 16>::new(SliceSource::new(WRITTEN));
    match read_back(alloc, &mut from, &pair, 1000) {
        Ok(scanned) => told(&scanned),
        Err(fault) => Answer::Scanned(Err(fault)),
    }
}
