//! Writes the `name=number` records of standard input as a table.
#![tactic(auto)]

use sf_scanf::prelude::{
    PrintFormat, Profile, Records, ScanFormat, StdSink, StdSource, Value, fprint,
};

/// The most bytes that one record may have.
const LIMIT: u32 = 1000;

fn main(rt: HostRuntime) -> anyhow::Result<()> {
    let alloc = rt.alloc();
    let scan = ScanFormat::parse(alloc, Profile::One, b" %[^=]=%d")?;
    let print = PrintFormat::parse(alloc, Profile::One, b"%-8s|%6d\n")?;
    let input = StdSource::new(rt.stdin());
    let mut output = StdSink::new(rt.stdout());
    let records = Records::<(Vec<u8>, i32), _, 4096>::new(alloc, input, &scan, LIMIT)?;
    for row in records {
        let (name, number) = row?;
        fprint(
            &mut output,
            &print,
            &[Value::Text(&name), Value::I32(number)],
        )?;
    }
    Ok(())
}
