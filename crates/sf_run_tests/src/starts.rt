//! Runs that are not started.
use sf_base::FixedStore;
use sf_format::{Profile, ScanFormat};
use sf_rows::is;
use sf_run::{Scanner, StartFault};
use std::alloc::Global;
use std::test::Fail;

/// For each of the six stores of `faults`, why no scanner is made over it.
type Faults = [Option<StartFault>; 6];

const BAD_LIMIT: Option<StartFault> = Some(StartFault::BadLimit);

const UNBOUNDED: Option<StartFault> = Some(StartFault::Unbounded);

const SMALL: Option<StartFault> = Some(StartFault::TooSmall);

/// A format, a limit, and what comes of them.
static STARTS: [(&[u8], u32, Faults); 6] = [
    (b"%d", 2147483647, [None; 6]),
    (b"%d", 2147483648, [BAD_LIMIT; 6]),
    (b"%5s%4c", 9, [None, None, SMALL, SMALL, SMALL, SMALL]),
    (
        b"%s",
        2147483647,
        [None, UNBOUNDED, UNBOUNDED, UNBOUNDED, UNBOUNDED, UNBOUNDED],
    ),
    (b"%s", 2147483648, [BAD_LIMIT; 6]),
    (b"%*5s%3s", 9, [None, None, None, None, None, SMALL]),
];

/// Why no scanner is made over a store that grows, and over those of fixed capacity: of 9 bytes and 2 slots, 8 and 2, 9
/// and 1, 3 and 1, 2 and 1.
fn faults(alloc: Global, format: &ScanFormat, limit: u32) -> Faults {
    [
        Scanner::new(alloc, format, limit).err(),
        Scanner::<FixedStore<9, 2>>::fixed(format, limit).err(),
        Scanner::<FixedStore<8, 2>>::fixed(format, limit).err(),
        Scanner::<FixedStore<9, 1>>::fixed(format, limit).err(),
        Scanner::<FixedStore<3, 1>>::fixed(format, limit).err(),
        Scanner::<FixedStore<2, 1>>::fixed(format, limit).err(),
    ]
}

#[test]
fn refused_starts(rt: HostRuntime) -> Result<(), Fail> {
    for (format, limit, wanted) in &STARTS {
        let parsed = ScanFormat::parse(rt.alloc(), Profile::One, format)?;
        is(&faults(rt.alloc(), &parsed, *limit), wanted, format)?;
    }
    Ok(())
}
