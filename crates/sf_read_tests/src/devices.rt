//! Scans of devices: readers that never end, an interrupted read, counts of reads and failures at their greatest.
ghost use Rattle.std.specs.Prelude.{◌≤◌};

use crate::calls::{Call, is_call};
use sf_base::Value;
use sf_read::{Lookahead, Source, SourceFault, StdSource};
use sf_rows::{LIMIT, Met, Told, is};
use sf_run::Status;
use std::alloc::Global;
use std::io;
use std::io::Read;
use std::test::Fail;

/// A reader whose reads are counted. Each gives a buffer of blanks; or the first is interrupted, and the others give no
/// bytes.
#[derive(Drop)]
struct Device {
    reads: u64,
    interrupted: bool,
}

impl Read for Device {
    fn read(&mut self, buf: &mut [u8]) -> io::Result<usize> {
        self.reads = self.reads.saturating_add(1);
        if !self.interrupted {
            buf.fill(b' ');
            return Ok(buf.len());
        }
        if self.reads == 1 {
            return Err(io::Error::from(io::ErrorKind::Interrupted));
        }
        Ok(0)
    }
}

/// Blocks of blanks.
static BLANKS: Call = Call {
    format: b"%d",
    limit: 1000,
    told: Told::Failed(Status::TooLong, 1, 0, 1000, Met::Byte),
    values: &[],
    held: &[b' '; 3096],
    reads: 1,
    failures: 0,
};

/// The same, in short blocks.
static SHORT_BLANKS: Call = Call {
    format: b"%d",
    limit: 1000,
    told: Told::Failed(Status::TooLong, 1, 0, 1000, Met::Byte),
    values: &[],
    held: b" ",
    reads: 143,
    failures: 0,
};

/// The read isn't asked again.
static INTERRUPTED: Call = Call {
    format: b"%d",
    limit: LIMIT,
    told: Told::Failed(Status::InputFailure, 1, 0, 0, Met::Fault),
    values: &[],
    held: b"",
    reads: 1,
    failures: 1,
};

/// The call on the device by blocks of N bytes, and what is held then.
fn is_call_on<const N: usize>(alloc: Global, device: &mut Device, call: &Call) -> Result<(), Fail>
    requires few { N ≤ 4096 }
    requires some { 1 ≤ N }
{
    let mut from = Lookahead::<StdSource<&mut Device>, N>::new(StdSource::new(device));
    is_call(alloc, &mut from, call)?;
    is(&from.held(), &call.held, &call.format)
}

/// The call on a device that was not read before, and how often it is read.
fn is_first_call<const N: usize>(alloc: Global, interrupted: bool, call: &Call) -> Result<(), Fail>
    requires few { N ≤ 4096 }
    requires some { 1 ≤ N }
{
    let mut device = Device {
        reads: 0,
        interrupted,
    };
    is_call_on::<N>(alloc, &mut device, call)?;
    is(&device.reads, &call.reads, &call.format)
}

#[test]
fn blanks_for_ever_and_an_interrupted_read(rt: HostRuntime) -> Result<(), Fail> {
    is_first_call::<4096>(rt.alloc(), false, &BLANKS)?;
    is_first_call::<7>(rt.alloc(), false, &SHORT_BLANKS)?;
    is_first_call::<16>(rt.alloc(), true, &INTERRUPTED)
}

/// A source that has counted as many reads and failures as there are numbers. One more read gives a digit, and then
/// each fails.
#[derive(Drop)]
struct Worn {
    reads: u64,
    failures: u64,
    gives: bool,
}

impl Source for Worn {
    ghost use Rattle.std.specs.Prelude.{None};

    ghost to_come = { λ _. None };

    ghost reads = { λ s. s.reads };

    ghost failures = { λ s. s.failures };

    fn read(&mut self, buf: &mut [u8]) -> Result<usize, SourceFault> {
        self.reads = self.reads.saturating_add(1);
        if self.gives {
            self.gives = false;
            if let [first, ..] = buf {
                *first = b'7';
                return Ok(1);
            }
            return Ok(0);
        }
        self.failures = self.failures.saturating_add(1);
        Err(SourceFault)
    }
}

/// The digit, and then the failure.
static WORN: [Call; 2] = [
    Call {
        format: b"%d",
        limit: LIMIT,
        told: Told::Done(1, 1, Met::Fault),
        values: &[Value::I32(7)],
        held: b"",
        reads: u64::MAX,
        failures: u64::MAX,
    },
    Call {
        format: b"%d",
        limit: LIMIT,
        told: Told::Failed(Status::InputFailure, 1, 0, 0, Met::Fault),
        values: &[],
        held: b"",
        reads: u64::MAX,
        failures: u64::MAX,
    },
];

/// A failure is met, though the count of failures stays where it is.
#[test]
fn counts_that_have_come_to_their_end(rt: HostRuntime) -> Result<(), Fail> {
    let mut from = Lookahead::<Worn, 16>::new(Worn {
        reads: u64::MAX,
        failures: u64::MAX,
        gives: true,
    });
    for call in &WORN {
        is_call(rt.alloc(), &mut from, call)?;
    }
    let counts = (from.source().reads, from.source().failures);
    is(&counts, &(u64::MAX, u64::MAX), &"counts")
}
