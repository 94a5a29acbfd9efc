//! Texts of 220 to 270 bytes: a pair writes shorter records in place, and longer ones piece by piece.
use crate::shared::found_of;
use sf_base::Value;
use sf_format::Profile;
use sf_pair::Pair;
use sf_print::ListSink;
use sf_rows::is;
use std::alloc::Global;
use std::test::Fail;

static LETTERS: [u8; 270] = [b'q'; 270];

/// Whether a record with so long a text is written whole.
fn is_whole(alloc: Global, pair: &Pair<'_>, count: usize) -> bool {
    let text = LETTERS.get(..count).unwrap_or(b"");
    let mut to = ListSink::new(alloc);
    let found = pair.write(&mut to, &[Value::I32(-7), Value::Text(text)]);
    let written = to.bytes();
    let end = count.saturating_add(3);
    matches!(found, Ok(len) if len as usize == written.len())
        && written.get(..3) == Some(b"-7,".as_slice())
        && written.get(3..end) == Some(text)
        && written.get(end..) == Some(b"\n".as_slice())
}

/// The first length of a text whose record isn't written whole.
fn first_fault(alloc: Global, pair: &Pair<'_>) -> Option<usize> {
    for count in 220..271usize {
        if !is_whole(alloc, pair, count) {
            return Some(count);
        }
    }
    None
}

#[test]
fn records_about_a_line_are_written_whole(rt: HostRuntime) -> Result<(), Fail> {
    let alloc = rt.alloc();
    let fault = found_of(
        alloc,
        Profile::One,
        b"%d,%s\n",
        b"%11d,%270s%*1[\n]",
        |pair| { first_fault(alloc, pair) },
    )?;
    is(&fault, &None, &"%d,%s")
}
