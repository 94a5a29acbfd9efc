//! Sums the numbers of the `name=number` lines of a file, whose name is the first argument. Each line that is something
//! else goes to standard error.
#![tactic(auto)]

use anyhow::bail;
use sf_scanf::prelude::{Lines, Match, Profile, ScanFormat, StdSource};
use std::{env, fs};

/// The most bytes that one line may have.
const LIMIT: u32 = 1000;

fn main(rt: HostRuntime) -> anyhow::Result<()> {
    let alloc = rt.alloc();
    let Some(name) = env::args(&rt)?.nth(1) else {
        bail!("usage: example_file FILE");
    };
    let format = ScanFormat::parse(alloc, Profile::One, b" %[^=]=%d")?;
    let input = StdSource::new(fs::open(&rt, &name)?);
    let lines = Lines::<(Vec<u8>, i32), _, 4096>::new(alloc, input, &format, LIMIT)?;
    let mut sum: i64 = 0;
    for line in lines.matching(Match::Whole) {
        match line {
            Ok((_name, number)) => sum = sum.saturating_add(i64::from(number)),
            Err(fault) if fault.why.goes_on() => eprintln!(rt; "{fault}")?,
            Err(fault) => return Err(fault.into()),
        }
    }
    println!(rt; "{sum}")?;
    Ok(())
}
