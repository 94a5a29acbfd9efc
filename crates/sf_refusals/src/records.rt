//! The loops over records.
use crate::answer::Answer;
use sf_format::{PrintFormat, Profile, ScanFormat};
use sf_pair::Pair;
use sf_print::ListSink;
use sf_read::{Lookahead, SliceSource};
use sf_records::{run_copy, run_scan};
use std::alloc::Global;

const LIMIT: u32 = 1000;

const SCANNED: &[u8] =
    b"1 \"a\"\n22 \"bb\"\n333 \"abcdefghijklmnopqrstuvwxyz0123456789\"\n4 \"d\"\n";

/// Records of a number and a text.
pub fn scan(alloc: Global) -> Answer {
    let Ok(format) = ScanFormat::parse(alloc, Profile::One, b"%d %s") else {
        return Answer::NotReached;
    };
    let input = b"1 a\n22 bb\n333 abcdefghijklmnopqrstuvwxyz0123456789\n4 d\n";
    let mut from = Lookahead::<SliceSource<'_>, 16>::new(SliceSource::new(input));
    let mut to = ListSink::new(alloc);
    let end = run_scan(alloc, &mut from, &mut to, &format, LIMIT);
    let bytes = to.bytes();
    Answer::Ended(end, bytes.len(), SCANNED.starts_with(bytes))
}

const COPIED: &[u8] = b"7,ab\n8,abcdefghijklmnopqrst\n-9,c\n";

/// The same, copied by a pair.
pub fn copy(alloc: Global) -> Answer {
    let Ok(print) = PrintFormat::parse(alloc, Profile::One, b"%d,%s\n") else {
        return Answer::NotReached;
    };
    let Ok(scan) = ScanFormat::parse(alloc, Profile::One, b"%11d,%20s%*1[\n]") else {
        return Answer::NotReached;
    };
    let Ok(pair) = Pair::check(&print, &scan) else {
        return Answer::NotReached;
    };
    let input = b" +7,ab\n08,abcdefghijklmnopqrst\n-9,c\n";
    let mut from = Lookahead::<SliceSource<'_>, 16>::new(SliceSource::new(input));
    let mut to = ListSink::new(alloc);
    let end = run_copy(alloc, &mut from, &mut to, &pair, LIMIT);
    let bytes = to.bytes();
    Answer::Ended(end, bytes.len(), COPIED.starts_with(bytes))
}
