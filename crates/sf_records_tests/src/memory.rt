//! Copies where memory is refused: `rt try --test --fail-alloc N` refuses the Nth growth. Where that is one of the
//! copy's own, this test passes all the same: the copy ends by it, and the records before stand.
use crate::copies::{Formats, copied, is};
use sf_print::StdSink;
use sf_read::{Lookahead, SliceSource};
use sf_records::{ToolEnd, ToolFault};
use std::process::Abort;
use std::test::Fail;

const FORMATS: Formats = ("%s %d\n", "%20s %11d%*1[\n]");

const TEXT: &[u8] = b"ab 1\nabcdefghijklmnopqr -22\nx 333\n";

/// So many of the records.
fn front(records: u32) -> &'static [u8] {
    match records {
        0 => b"",
        1 => b"ab 1\n",
        2 => b"ab 1\nabcdefghijklmnopqr -22\n",
        _ => TEXT,
    }
}

/// All records are written, or those before the one for which memory was refused.
fn is_front(rt: &impl Abort, output: &[u8], end: ToolEnd) {
    let (status, records, fault) = match end.records {
        3 => (0, 3, None),
        records => (4, records.min(2), Some(ToolFault::Memory)),
    };
    let wanted = ToolEnd {
        status,
        records,
        fault,
    };
    is(rt, &end, &wanted, &"end");
    is(rt, &output, &front(records), &"output");
}

#[test]
fn texts_that_grow(rt: HostRuntime) -> Result<(), Fail> {
    let mut from = Lookahead::<_, 7>::new(SliceSource::new(TEXT));
    let mut out = StdSink::new(Vec::with_capacity(rt.alloc(), 256)?);
    let end = copied(rt.alloc(), &mut from, &mut out, FORMATS)?;
    is_front(&rt, out.into_writer().as_slice(), end);
    Ok(())
}
