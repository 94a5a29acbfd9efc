//! The sum of the numbers of standard input, by a format whose one item may be missing.
#![tactic(auto)]

use anyhow::bail;
use sf_scanf::prelude::{Ended, Lookahead, Profile, ScanFormat, StdSource};
use sf_scanf::scan::fscan;

/// The most bytes that one record may have.
const LIMIT: u32 = 1000;

fn main(rt: HostRuntime) -> anyhow::Result<()> {
    let alloc = rt.alloc();
    let format = ScanFormat::parse(alloc, Profile::Three, b"%?d")?;
    let mut input = Lookahead::<_, 4096>::new(StdSource::new(rt.stdin()));
    let mut sum: i64 = 0;
    for record in 1..=u32::MAX {
        let scanned = fscan(alloc, &mut input, &format, LIMIT)?;
        let report = scanned.report();
        let outcome = report.outcome();
        if outcome.is_end(&format) {
            break;
        }
        match report.get::<i32>(1) {
            Some(number) if outcome.is_done() => sum = sum.saturating_add(i64::from(number)),
            _ => bail!("record {record}: {outcome}"),
        }
    }
    println!(rt; "{sum}")?;
    Ok(())
}
