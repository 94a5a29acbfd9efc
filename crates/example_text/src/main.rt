//! Scans texts, each of which has to be a date and nothing more.
#![tactic(auto)]

use sf_scanf::prelude::{Match, Profile, ScanFormat};
use sf_scanf::scan::sscan_row_by;

/// The most bytes that one scan may use.
const LIMIT: u32 = 1000;

fn main(rt: HostRuntime) -> anyhow::Result<()> {
    let alloc = rt.alloc();
    let format = ScanFormat::parse(alloc, Profile::One, b"%4u-%2u-%2u")?;
    let texts: [&[u8]; 4] = [b"2026-11-23", b" 1999-1-2", b"2026-11", b"2026-11-23T13:45"];
    for text in texts {
        match sscan_row_by::<(u32, u32, u32)>(alloc, text, &format, LIMIT, Match::Whole) {
            Ok((year, month, day)) => println!(rt; "{day}.{month}.{year}")?,
            Err(fault) => println!(rt; "{fault}")?,
        }
    }
    Ok(())
}
