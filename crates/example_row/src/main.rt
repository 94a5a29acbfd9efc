//! Scans standard input into a type of its own, and shows each of its values.
#![tactic(auto)]

use sf_scanf::prelude::{Profile, Records, ScanFormat, StdSource};

/// The most bytes that one row may have.
const LIMIT: u32 = 1000;

/// Something in store, and how much of it there is.
#[derive(Drop)]
struct Stock {
    name: Vec<u8>,
    count: u32,
}

impl From<(Vec<u8>, u32)> for Stock {
    fn from((name, count): (Vec<u8>, u32)) -> Stock {
        Stock { name, count }
    }
}

fn main(rt: HostRuntime) -> anyhow::Result<()> {
    let alloc = rt.alloc();
    let format = ScanFormat::parse(alloc, Profile::One, b" %[^:]:%u")?;
    let input = StdSource::new(rt.stdin());
    for row in Records::<(Vec<u8>, u32), _, 4096>::new(alloc, input, &format, LIMIT)? {
        let stock = Stock::from(row?);
        println!(rt; "{} of {}", stock.count, str::from_utf8(&stock.name)?)?;
    }
    Ok(())
}
