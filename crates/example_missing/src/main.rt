//! The sum of the heights that are known, of lines whose values may be missing, and how many are not known.
#![tactic(auto)]

use sf_scanf::prelude::{Lines, Match, Profile, ScanFormat, StdSource};

/// The most bytes that one line may have.
const LIMIT: u32 = 1000;

/// A name, an age and a height in metres.
type Person = (Vec<u8>, Option<u32>, Option<f64>);

fn main(rt: HostRuntime) -> anyhow::Result<()> {
    let alloc = rt.alloc();
    let format = ScanFormat::parse(alloc, Profile::Three, b"%[^,],%?u,%?lf")?;
    let people = Lines::<Person, _, 4096>::new(alloc, StdSource::new(rt.stdin()), &format, LIMIT)?;
    let mut metres = 0.0;
    let mut unknown: u64 = 0;
    for person in people.matching(Match::Whole) {
        match person? {
            (_name, _age, Some(height)) => metres += height,
            (_name, _age, None) => unknown = unknown.saturating_add(1),
        }
    }
    println!(rt; "{metres} metres, {unknown} unknown")?;
    Ok(())
}
