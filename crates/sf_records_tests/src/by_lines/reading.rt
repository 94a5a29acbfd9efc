//! The calls of `sf_read` by which lines are read and scanned.
use sf_base::{HeapStore, Value};
use sf_format::{Profile, ScanFormat};
use sf_read::{Lookahead, SliceSource, sscan, sscan_over};
use sf_run::{Report, Scanned};
use std::alloc::Global;
use std::test::Fail;

/// Blocks of `abcdef`, each of which is consumed in two parts, and how much of it is left after the first.
static BLOCKS: [(&[u8], usize, &[u8]); 2] = [(b"abcd", 3, b"d"), (b"ef", 0, b"ef")];

/// Whether the text comes in these blocks, and then its end.
fn comes_in_blocks(from: &mut Lookahead<SliceSource<'_>, 4>) -> bool {
    for &(block, count, rest) in &BLOCKS {
        if from.is_at_end() || !from.held().is_empty() || from.refill().is_err() {
            return false;
        }
        if from.held() != block || from.held().len() < count {
            return false;
        }
        from.consume(count);
        if from.held() != rest {
            return false;
        }
        from.consume(from.held().len());
    }
    !from.is_at_end() && from.held().is_empty() && from.refill().is_ok() && from.is_at_end()
}

#[test]
fn a_lookahead_is_read_block_by_block(rt: HostRuntime) {
    let mut from = Lookahead::<SliceSource<'_>, 4>::new(SliceSource::new(b"abcdef"));
    assert!(rt; comes_in_blocks(&mut from));
}

/// The second of two texts, scanned over a store that holds what the first gave.
fn second_of(alloc: Global, format: &ScanFormat) -> Result<Scanned<HeapStore>, Fail> {
    let first = sscan(alloc, b"abc 12", format, 99)?;
    Ok(sscan_over(alloc, first.into_store(), b"d -3 e", format, 99)?)
}

/// The report is of `d -3`.
fn is_second(report: &Report<'_, HeapStore>) -> bool {
    report.value(1) == Some(Value::Text(b"d"))
        && report.value(2) == Some(Value::I32(-3))
        && report.outcome().used == 4
}

#[test]
fn texts_are_scanned_over_one_store(rt: HostRuntime) -> Result<(), Fail> {
    let format = ScanFormat::parse(rt.alloc(), Profile::One, b"%s %d")?;
    let second = second_of(rt.alloc(), &format)?;
    assert!(rt; is_second(&second.report()));
    Ok(())
}
