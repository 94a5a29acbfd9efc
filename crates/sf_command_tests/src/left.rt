//! What the command leaves unread can still be read.
use crate::shared::{is, words_of};
use sf_command::tool_over;
use sf_print::ListSink;
use sf_read::{Lookahead, ReadStep, ScriptSource};
use std::alloc::Global;
use std::process::Abort;
use std::test::Fail;

/// Words between slashes, the exit status, how often the source is read, and what the next read gives.
#[derive(Drop)]
struct Case {
    words: &'static str,
    status: u8,
    reads: u64,
    next: &'static [u8],
}

fn leaving(words: &'static str, status: u8, reads: u64, next: &'static [u8]) -> Case {
    Case {
        words,
        status,
        reads,
        next,
    }
}

/// The second line is no number, and the third one stands in the next block.
fn cases() -> [Case; 10] {
    [
        leaving("show/%d", 0, 0, b"1\nx\n"),
        leaving("print/%d/7", 0, 0, b"1\nx\n"),
        leaving("scan", 2, 0, b"1\nx\n"),
        leaving("scan/%q", 2, 0, b"1\nx\n"),
        leaving("scan/--explain/%q", 2, 0, b"1\nx\n"),
        leaving("scan/%d", 1, 1, b"2\n"),
        leaving("scan/--explain/%d", 1, 1, b"2\n"),
        leaving("scan/--lines/%d", 1, 1, b"2\n"),
        leaving("scan/--lines/--explain/%d", 1, 1, b"2\n"),
        leaving("scan/--lines/--keep-going/%d", 1, 3, b""),
    ]
}

fn leaves(rt: &impl Abort, alloc: Global, case: &Case) -> Result<(), Fail> {
    let words = words_of(alloc, case.words)?;
    let steps = [ReadStep::Give(b"1\nx\n"), ReadStep::Give(b"2\n")];
    let mut source = ScriptSource::new(&steps);
    let mut out = ListSink::new(alloc);
    let mut err = ListSink::new(alloc);
    let status = tool_over(alloc, &words, &mut source, &mut out, &mut err);
    is(rt, &status, &case.status, &case.words);
    is(rt, &source.reads(), &case.reads, &case.words);
    let mut rest = Lookahead::<ScriptSource<'_>, 16>::new(source);
    rest.refill()?;
    is(rt, &rest.held(), &case.next, &case.words);
    is(
        rt,
        &rest.into_source().reads(),
        &case.reads.saturating_add(1),
        &case.words,
    );
    Ok(())
}

#[test]
fn what_follows_is_left(rt: HostRuntime) -> Result<(), Fail> {
    for case in &cases() {
        leaves(&rt, rt.alloc(), case)?;
    }
    Ok(())
}
