//! Reads records by a checked pair of formats and writes them again. Once the formats are read, it takes no memory.
#![tactic(auto)]

use anyhow::bail;
use sf_scanf::pair::{Pair, read_back_fixed};
use sf_scanf::prelude::{Ended, Lookahead, PrintFormat, Profile, ScanFormat, StdSink, StdSource};

/// The most bytes that one record may have.
const LIMIT: u32 = 1000;

/// The most bytes that the texts of one record have: the width of its `s`.
const TEXT_BYTES: usize = 20;

fn main(rt: HostRuntime) -> anyhow::Result<()> {
    let alloc = rt.alloc();
    let print = PrintFormat::parse(alloc, Profile::One, b"%d,%s\n")?;
    let scan = ScanFormat::parse(alloc, Profile::One, b"%11d,%20s%*1[\n]")?;
    let pair = Pair::check(&print, &scan)?;
    let mut input = Lookahead::<_, 512>::new(StdSource::new(rt.stdin()));
    let mut output = StdSink::new(rt.stdout());
    for record in 1..=u32::MAX {
        let scanned = read_back_fixed::<TEXT_BYTES, 2, _, 512>(&mut input, &pair, LIMIT)?;
        let report = scanned.report();
        let outcome = report.outcome();
        match (report.value(1), report.value(2)) {
            (Some(number), Some(name)) if outcome.is_done() => {
                pair.write(&mut output, &[number, name])?;
            }
            _ if outcome.is_end(&scan) => break,
            _ => bail!("record {record}: {outcome}"),
        }
    }
    Ok(())
}
