//! Sums the numbers of `name=number` records on standard input.
#![tactic(auto)]

use sf_scanf::prelude::{Profile, Records, ScanFormat, StdSource};

/// The most bytes that one record may have.
const LIMIT: u32 = 1000;

fn main(rt: HostRuntime) -> anyhow::Result<()> {
    let alloc = rt.alloc();
    let format = ScanFormat::parse(alloc, Profile::One, b" %[^=]=%d")?;
    let input = StdSource::new(rt.stdin());
    let records = Records::<(Vec<u8>, i32), _, 4096>::new(alloc, input, &format, LIMIT)?;
    let mut sum: i64 = 0;
    for row in records {
        let (_name, number) = row?;
        sum = sum.saturating_add(i64::from(number));
    }
    println!(rt; "{sum}")?;
    Ok(())
}
