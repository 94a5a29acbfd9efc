//! What the tests share.
use sf_command::{run_words, tool};
use sf_print::{ListSink, Sink};
use sf_read::{Lookahead, Source};
use std::alloc::Global;
use std::fmt::Debug;
use std::process::Abort;
use std::test::Fail;

/// What is found is what is wanted; else the place is named.
pub(crate) fn is<T: Debug + PartialEq>(rt: &impl Abort, found: &T, wanted: &T, place: &impl Debug) {
    assert_eq!(rt; found, wanted, "at {place:?}");
}

/// The words of a line, between which slashes stand. An empty line has none.
pub(crate) fn words_of(alloc: Global, line: &str) -> Result<Vec<String>, Fail> {
    let mut words = Vec::new(alloc);
    if !line.is_empty() {
        for word in line.split('/') {
            words.push(String::from_str(alloc, word)?)?;
        }
    }
    Ok(words)
}

/// What a command comes to: its exit status, its output, and what it writes on standard error.
#[derive(Drop)]
pub(crate) struct Answer {
    pub status: u8,
    out: ListSink,
    err: ListSink,
}

impl Answer {
    /// The answer has this output, this text on standard error and this status.
    pub(crate) fn is(
        &self,
        rt: &impl Abort,
        output: &str,
        said: &str,
        status: u8,
        place: &impl Debug,
    ) {
        is(rt, &self.out.bytes(), &output.as_bytes(), place);
        is(rt, &self.err.bytes(), &said.as_bytes(), place);
        is(rt, &self.status, &status, place);
    }
}

/// The command of the words, on what the lookahead gives.
pub(crate) fn lent<S: Source>(
    alloc: Global,
    words: &[String],
    from: &mut Lookahead<S, 4096>,
) -> Answer {
    let mut out = ListSink::new(alloc);
    let mut err = ListSink::new(alloc);
    let status = run_words(alloc, words, from, &mut out, &mut err);
    Answer { status, out, err }
}

/// The command of the words, on an input of its own: its exit status.
pub(crate) fn run<S: Source, K: Sink, E: Sink>(
    alloc: Global,
    words: &[String],
    from: S,
    out: &mut K,
    err: &mut E,
) -> u8 {
    tool(alloc, words, from, out, err)
}

/// The same, with what it writes.
pub(crate) fn given<S: Source>(alloc: Global, words: &[String], from: S) -> Answer {
    let mut out = ListSink::new(alloc);
    let mut err = ListSink::new(alloc);
    let status = run(alloc, words, from, &mut out, &mut err);
    Answer { status, out, err }
}
