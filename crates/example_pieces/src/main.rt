//! Scans bytes that come in pieces, where no reader can be asked, and keeps the values in fixed memory.
#![tactic(auto)]

use sf_scanf::prelude::{Profile, ScanFormat};
use sf_scanf::scan::{Ending, FeedState, Scanner};
use sf_scanf::store::FixedStore;

/// The most bytes that the run may use.
const LIMIT: u32 = 1000;

fn main(rt: HostRuntime) -> anyhow::Result<()> {
    let format = ScanFormat::parse(rt.alloc(), Profile::One, b"%8[^=]=%d;")?;
    let mut scanner = Scanner::<FixedStore<8, 2>>::fixed(&format, LIMIT)?;
    let pieces: [&[u8]; 4] = [b"wid", b"th=1", b"20", b";rest"];
    for piece in pieces {
        let fed = scanner.feed(piece);
        println!(rt; "took {} of {} bytes", fed.taken, piece.len())?;
        if fed.state == FeedState::Ended {
            break;
        }
    }
    scanner.end(Ending::End);
    let Some(report) = scanner.report() else {
        return Ok(());
    };
    println!(rt;
        "{:?}, slot 2 is {:?}",
        report.outcome().status,
        report.get::<i32>(2)
    )?;
    Ok(())
}
