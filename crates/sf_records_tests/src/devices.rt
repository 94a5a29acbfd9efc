//! Copies from sources and into sinks that fail.
ghost use Rattle.std.specs.Prelude.{◌≤◌};

use crate::copies::{Formats, WIDE, clean_end, copied, is};
use sf_print::{ScriptSink, WriteStep};
use sf_read::{Lookahead, ReadStep, ScriptSource};
use sf_records::{ToolEnd, ToolFault};
use std::process::Abort;
use std::test::Fail;

const TEXT: &[u8] = b" +7,ab\n08,c\n";

/// The copy of TEXT.
const COPY: &[u8] = b"7,ab\n8,c\n";

/// So many of its records.
fn front(records: u32) -> &'static [u8] {
    match records {
        0 => b"",
        1 => b"7,ab\n",
        _ => COPY,
    }
}

/// The end of a copy by a fault.
fn fault_end(records: u32, fault: ToolFault) -> ToolEnd {
    ToolEnd {
        status: 3,
        records,
        fault: Some(fault),
    }
}

/// The copy of what a source gives, by blocks of N bytes, into a sink: it ends so, and writes this.
fn is_ended<const N: usize>(
    rt: &(impl Abort + AllocGlobal),
    formats: Formats,
    reads: &[ReadStep<'_>],
    writes: &[WriteStep],
    output: &[u8],
    end: ToolEnd,
) -> Result<(), Fail>
    requires few { N ≤ 4096 }
    requires some { 1 ≤ N }
{
    let mut from = Lookahead::<ScriptSource<'_>, N>::new(ScriptSource::new(&*reads));
    let mut out = ScriptSink::new(rt.alloc(), writes);
    let found = copied(rt.alloc(), &mut from, &mut out, formats)?;
    let failures = match end.fault {
        Some(ToolFault::Read { .. }) => 1,
        _ => 0,
    };
    is(rt, &found, &end, &formats);
    is(rt, &out.bytes(), &output, &end);
    is(rt, &from.source().failures(), &failures, &end);
    Ok(())
}

/// Where a read fails after so many bytes of TEXT: how many records are written by then, each in the run that ends with
/// its newline.
static CUTS: [u32; 13] = [0, 0, 0, 0, 0, 0, 0, 1, 1, 1, 1, 1, 2];

#[test]
fn each_read_fails_in_turn(rt: HostRuntime) -> Result<(), Fail> {
    for (at, &records) in CUTS.iter().enumerate() {
        let steps = [
            ReadStep::Give(&TEXT[..at.min(TEXT.len())]),
            ReadStep::Fail,
            ReadStep::Give(TEXT),
        ];
        let end = fault_end(
            records,
            ToolFault::Read {
                number: records.saturating_add(1),
            },
        );
        is_ended::<3>(&rt, WIDE, &steps, &[], front(records), end)?;
    }
    // A record that is whole where the source fails is written, if it fits.
    let steps = [ReadStep::Give(b"12"), ReadStep::Fail];
    let end = fault_end(1, ToolFault::Read { number: 1 });
    is_ended::<4096>(&rt, ("%04d", "%4d"), &steps, &[], b"0012", end)
}

#[test]
fn each_write_fails_in_turn(rt: HostRuntime) -> Result<(), Fail> {
    let reads = [ReadStep::Give(TEXT)];
    for at in 0..COPY.len() {
        let mut steps = [WriteStep::Accept(1); 12];
        steps[at] = WriteStep::Fail;
        let end = fault_end(if at < 5 { 0 } else { 1 }, ToolFault::Write);
        is_ended::<2>(&rt, WIDE, &reads, &steps, &COPY[..at], end)?;
    }
    // Short writes are no failures.
    for size in 1..4usize {
        is_ended::<2>(
            &rt,
            WIDE,
            &reads,
            &[WriteStep::Accept(size); 12],
            COPY,
            clean_end(2),
        )?;
    }
    Ok(())
}
