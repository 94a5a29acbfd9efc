//! The record loop where memory is refused: `rt try --test --fail-alloc N` refuses the Nth growth. Where that is one of
//! the loop's own, these tests pass all the same: the loop ends by it, and the lines before stand.
use sf_command::{ToolEnd, ToolFault, run_scan};
use sf_format::{Profile, ScanFormat};
use sf_print::StdSink;
use sf_read::{Lookahead, SliceSource};
use std::alloc::Global;
use std::test::Fail;

/// The loop over a text, with its output, whose memory is asked for before.
fn scan(alloc: Global, format: &[u8], text: &[u8]) -> Result<(ToolEnd, Vec<u8>), Fail> {
    let format = ScanFormat::parse(alloc, Profile::One, format)?;
    let mut from = Lookahead::<_, 7>::new(SliceSource::new(text));
    let mut out = StdSink::new(Vec::with_capacity(alloc, 256)?);
    let end = run_scan(alloc, &mut from, &mut out, &format, 1000);
    Ok((end, out.into_writer()))
}

/// Whether the loop ended cleanly after three lines, or for want of memory before.
fn is_end_of_three(end: ToolEnd) -> bool {
    match end.fault {
        None => end.status == 0 && end.records == 3,
        Some(fault) => fault == ToolFault::Memory && end.status == 4 && end.records < 3,
    }
}

/// So many of the lines whose texts grow.
fn growing_lines(lines: u32) -> &'static [u8] {
    match lines {
        0 => b"",
        1 => b"\"ab\" 1\n",
        2 => b"\"ab\" 1\n\"abcdefghijklmnopqr\" -22\n",
        _ =>
            b"\"ab\" 1\n\"abcdefghijklmnopqr\" -22\n\"\\x00bcdefghijklmnopqrstuvwxyzabcdefghijklmnopqrstuvwxyz\" 333\n",
    }
}

#[test]
fn texts_that_grow(rt: HostRuntime) -> Result<(), Fail> {
    let text =
        b"ab 1\nabcdefghijklmnopqr -22\n\0bcdefghijklmnopqrstuvwxyzabcdefghijklmnopqrstuvwxyz 333\n";
    let (end, out) = scan(rt.alloc(), b"%s %d", text)?;
    assert!(rt; is_end_of_three(end));
    assert!(rt; out.as_slice() == growing_lines(end.records));
    Ok(())
}

/// So many of the lines whose texts have a width.
fn wide_lines(lines: u32) -> &'static [u8] {
    match lines {
        0 => b"",
        1 => b"\"abc\" 1\n",
        2 => b"\"abc\" 1\n\"def\" 2\n",
        _ => b"\"abc\" 1\n\"def\" 2\n\"ghi\" -8589934592\n",
    }
}

/// The store has room for each record from the first on.
#[test]
fn texts_with_a_width(rt: HostRuntime) -> Result<(), Fail> {
    let (end, out) = scan(rt.alloc(), b"%3s %ld", b"abc1def 2ghi-8589934592")?;
    assert!(rt; is_end_of_three(end));
    assert!(rt; out.as_slice() == wide_lines(end.records));
    Ok(())
}
