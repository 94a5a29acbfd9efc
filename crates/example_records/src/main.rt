//! Scans standard input record by record: two numbers with a comma between them, whose product is shown.
#![tactic(auto)]

use anyhow::bail;
use sf_scanf::prelude::{Ended, Lookahead, Profile, ScanFormat, StdSource};
use sf_scanf::scan::fscan;

/// The most bytes that one record may have.
const LIMIT: u32 = 1000;

fn main(rt: HostRuntime) -> anyhow::Result<()> {
    let alloc = rt.alloc();
    let format = ScanFormat::parse(alloc, Profile::One, b"%d ,%d")?;
    let mut input = Lookahead::<_, 4096>::new(StdSource::new(rt.stdin()));
    for record in 1..=u32::MAX {
        let scanned = fscan(alloc, &mut input, &format, LIMIT)?;
        let report = scanned.report();
        let outcome = report.outcome();
        match (report.get::<i32>(1), report.get::<i32>(2)) {
            (Some(left), Some(right)) if outcome.is_done() => {
                println!(rt; "{}", i64::from(left) * i64::from(right))?;
            }
            _ if outcome.is_end(&format) => break,
            _ => bail!("record {record}: {outcome}"),
        }
    }
    Ok(())
}
