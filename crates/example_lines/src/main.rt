//! Sums the numbers of `name=number` lines on standard input, and shows each line that is something else.
#![tactic(auto)]

use sf_scanf::prelude::{Lines, Match, Profile, ScanFormat, StdSource};

/// The most bytes that one line may have.
const LIMIT: u32 = 1000;

/// A name and a number.
type Named = (Vec<u8>, i32);

fn main(rt: HostRuntime) -> anyhow::Result<()> {
    let alloc = rt.alloc();
    let format = ScanFormat::parse(alloc, Profile::One, b" %[^=]=%d")?;
    let lines = Lines::<Named, _, 4096>::new(alloc, StdSource::new(rt.stdin()), &format, LIMIT)?;
    let mut sum: i64 = 0;
    for line in lines.matching(Match::Whole) {
        match line {
            Ok((_name, number)) => sum = sum.saturating_add(i64::from(number)),
            Err(fault) if fault.why.goes_on() => println!(rt; "{fault}")?,
            Err(fault) => return Err(fault.into()),
        }
    }
    println!(rt; "{sum}")?;
    Ok(())
}
