//! Scans over a store that is used again, over stores of fixed capacity, and those that are refused.
use sf_base::HeapStore;
use sf_format::{Profile, ScanFormat};
use sf_read::{
    Lookahead, ReadStep, ScriptSource, SliceSource, fscan, fscan_fixed, fscan_over, sscan,
    sscan_over,
};
use sf_rows::{LIMIT, ScanRow, is, scans};
use sf_run::StartFault;
use std::alloc::Global;
use std::test::Fail;

/// The row over the store, which is then given back.
fn over(alloc: Global, store: HeapStore, row: &ScanRow) -> Result<HeapStore, Fail> {
    let format = row.parsed(alloc)?;
    let mut from = Lookahead::<SliceSource<'_>, 3>::new(SliceSource::new(row.text));
    let scanned = fscan_over(alloc, store, &mut from, &format, row.limit)?;
    row.is_told(&scanned.report())?;
    Ok(scanned.into_store())
}

/// The rows of a table, one after the other over the store.
fn over_all(alloc: Global, mut store: HeapStore, rows: &[ScanRow]) -> Result<HeapStore, Fail> {
    for row in rows {
        store = over(alloc, store, row)?;
    }
    Ok(store)
}

#[test]
fn one_store_for_all(rt: HostRuntime) -> Result<(), Fail> {
    let mut store = HeapStore::new(rt.alloc(), 0)?;
    for rows in scans() {
        store = over_all(rt.alloc(), store, rows)?;
    }
    Ok(())
}

const BAD_LIMIT: u32 = 2147483648;

/// A script that is read by blocks of 4 bytes.
type Blocks<'a> = Lookahead<ScriptSource<'a>, 4>;

/// Why scans under a limit too great are refused: of a text and of the source, each over a store of its own and over
/// one that is given.
fn refusals(
    alloc: Global,
    from: &mut Blocks<'_>,
    format: &ScanFormat,
) -> Result<[Option<StartFault>; 4], Fail> {
    let first = HeapStore::new(alloc, 0)?;
    let second = HeapStore::new(alloc, 0)?;
    Ok([
        sscan(alloc, b"1", format, BAD_LIMIT).err(),
        sscan_over(alloc, first, b"1", format, BAD_LIMIT).err(),
        fscan(alloc, from, format, BAD_LIMIT).err(),
        fscan_over(alloc, second, from, format, BAD_LIMIT).err(),
    ])
}

/// They are refused, and leave what is held, after so many reads.
fn are_refused(
    alloc: Global,
    from: &mut Blocks<'_>,
    format: &ScanFormat,
    held: &[u8],
    reads: u64,
) -> Result<(), Fail> {
    let refused = refusals(alloc, from, format)?;
    let found = (refused, from.held(), from.source().reads());
    let wanted = [Some(StartFault::BadLimit); 4];
    is(&found, &(wanted, held, reads), &"a limit too great")
}

/// They are refused before a scan, and after it.
fn are_always_refused(
    alloc: Global,
    from: &mut Blocks<'_>,
    format: &ScanFormat,
) -> Result<(), Fail> {
    are_refused(alloc, from, format, b"", 0)?;
    fscan(alloc, from, format, LIMIT)?;
    are_refused(alloc, from, format, b" 2", 1)
}

#[test]
fn limits_too_great(rt: HostRuntime) -> Result<(), Fail> {
    let steps = [ReadStep::Give(b"1 2")];
    let mut from = Blocks::new(ScriptSource::new(&steps));
    let format = ScanFormat::parse(rt.alloc(), Profile::One, b"%d")?;
    are_always_refused(rt.alloc(), &mut from, &format)
}

/// What a store of 8 bytes and one slot answers, and how often the source was read.
fn small(alloc: Global, format: &[u8], limit: u32) -> Result<(Option<StartFault>, u64), Fail> {
    let steps = [ReadStep::Give(b"abcdefghij")];
    let mut from = Blocks::new(ScriptSource::new(&steps));
    let format = ScanFormat::parse(alloc, Profile::One, format)?;
    let fault = fscan_fixed::<8, 1, _, 4>(&mut from, &format, limit).err();
    Ok((fault, from.source().reads()))
}

/// Formats and limits, what a store of 8 bytes and one slot answers, and how often the source was read.
static SMALL: [(&[u8], u32, Option<StartFault>, u64); 6] = [
    (b"%8s", 2147483647, None, 2),
    (b"%9s", LIMIT, Some(StartFault::TooSmall), 0),
    (b"%1c%1c", LIMIT, Some(StartFault::TooSmall), 0),
    (b"%s", 2147483647, Some(StartFault::Unbounded), 0),
    (b"%s", 2147483648, Some(StartFault::BadLimit), 0),
    (b"%*s%3s", LIMIT, None, 4),
];

#[test]
fn small_stores(rt: HostRuntime) -> Result<(), Fail> {
    for (format, limit, fault, reads) in &SMALL {
        let found = small(rt.alloc(), format, *limit)?;
        is(&found, &(*fault, *reads), format)?;
    }
    Ok(())
}

/// The widest texts, as many as a format has.
const WIDEST: &[u8] = b"%65535s%65535s%65535s%65535s%65535s%65535s%65535s%65535s\
    %65535s%65535s%65535s%65535s%65535s%65535s%65535s%65535s\
    %65535s%65535s%65535s%65535s%65535s%65535s%65535s%65535s\
    %65535s%65535s%65535s%65535s%65535s%65535s%65535s%65535s";

/// Why a scan over a store of 64 bytes is refused.
fn refused_in_64(format: &ScanFormat) -> Option<StartFault> {
    let mut from = Lookahead::<SliceSource<'_>, 16>::new(SliceSource::new(b"a"));
    fscan_fixed::<64, 32, _, 16>(&mut from, format, LIMIT).err()
}

#[test]
fn the_widest_texts(rt: HostRuntime) -> Result<(), Fail> {
    let format = ScanFormat::parse(rt.alloc(), Profile::One, WIDEST)?;
    let found = (format.width_sum(), refused_in_64(&format));
    let wanted = (Some(2097120), Some(StartFault::TooSmall));
    is(&found, &wanted, &"the widest")
}
