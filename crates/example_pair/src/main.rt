//! Reads `name=number` settings by a pair of formats, and writes them so that the same pair reads them back.
#![tactic(auto)]

use sf_scanf::pair::{Pair, read_rows, write_rows};
use sf_scanf::prelude::{Lookahead, PrintFormat, Profile, ScanFormat, StdSink, StdSource};

/// The most bytes that one setting may have, and the most settings.
const LIMIT: u32 = 1000;

const MOST: usize = 100;

fn main(rt: HostRuntime) -> anyhow::Result<()> {
    let alloc = rt.alloc();
    let print = PrintFormat::parse(alloc, Profile::One, b"%s=%d\n")?;
    let scan = ScanFormat::parse(alloc, Profile::One, b"%20[^=]=%11d%*1[\n]")?;
    let pair = Pair::check(&print, &scan)?;
    let mut input = Lookahead::<_, 4096>::new(StdSource::new(rt.stdin()));
    let settings = read_rows::<(Vec<u8>, i32), _, 4096>(alloc, &mut input, &pair, LIMIT, MOST)?;
    let mut output = StdSink::new(rt.stdout());
    write_rows(&mut output, &pair, &settings)?;
    Ok(())
}
