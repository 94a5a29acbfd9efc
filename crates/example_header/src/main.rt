//! Sums the counts of `name,count,colour` lines on standard input, which a header line comes before.
#![tactic(auto)]

use sf_scanf::prelude::{Lines, Lookahead, Match, Profile, ScanFormat, StdSource};
use sf_scanf::scan::scan_row;

/// The most bytes that one line may have.
const LIMIT: u32 = 1000;

/// A name, a count and a colour.
type Stock = (Vec<u8>, u32, Vec<u8>);

fn main(rt: HostRuntime) -> anyhow::Result<()> {
    let alloc = rt.alloc();
    let header = ScanFormat::parse(alloc, Profile::One, b"%[^\n]%*1[\n]")?;
    let format = ScanFormat::parse(alloc, Profile::One, b"%[^,],%u,%[^,]")?;
    let mut input = Lookahead::<_, 4096>::new(StdSource::new(rt.stdin()));
    let (_names,) = scan_row::<(Vec<u8>,), _, 4096>(alloc, &mut input, &header, LIMIT)?;
    let lines = Lines::<Stock, _, 4096>::over(alloc, input, &format, LIMIT)?.matching(Match::Whole);
    let mut sum: u64 = 0;
    for line in lines {
        let (_name, count, _colour) = line?;
        sum = sum.saturating_add(u64::from(count));
    }
    println!(rt; "{sum}")?;
    Ok(())
}
