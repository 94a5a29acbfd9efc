//! Counts the records of its input, and says by contract that it does.
#![tactic(auto)]

ghost use Rattle.std.specs.Prelude.{IfOk};
ghost use Rattle.sf_scanf.specs.Counts.{IsCount};
ghost use Rattle.sf_scanf.specs.Rows.{slots_by};

use anyhow::bail;
use sf_scanf::io::SliceSource;
use sf_scanf::laws::records_are_counted;
use sf_scanf::prelude::{Profile, Records, ScanFormat};
use sf_scanf::scan::Row;
use std::alloc::Global;

/// The most bytes that one record may have.
const LIMIT: u32 = 1000;

/// How many records the text has, each read as a row of this type.
fn count<T: Row + Drop>(alloc: Global, text: &[u8], format: &ScanFormat) -> anyhow::Result<u64>
    ensures { IfOk result (λ number. IsCount T.kinds (slots_by T.given T.listed) format.now 1000 text.now number) }
{
    records_are_counted::<T, SliceSource<'_>, 64>();
    let mut records = Records::<T, _, 64>::new(alloc, SliceSource::new(text), format, LIMIT)?;
    for number in 0..u64::MAX {
        match records.next()? {
            Some(_row) => {}
            None => return Ok(number),
        }
    }
    bail!("too many records")
}

fn main(rt: HostRuntime) -> anyhow::Result<()> {
    let format = ScanFormat::parse(rt.alloc(), Profile::One, b"%d ,%d")?;
    let number = count::<(i32, i32)>(rt.alloc(), b"12,-7\n3 ,4\n\n 5,6\n", &format)?;
    println!(rt; "{number} records")?;
    Ok(())
}
