//! Calls of the libraries, one after the other: what each answers is printed on a line. tests/refusals runs it with
//! each growth refused in turn.
#![tactic(auto)]

mod answer;
mod printing;
mod records;
mod scanning;

fn main(rt: HostRuntime) -> anyhow::Result<()> {
    let alloc = rt.alloc();
    println!(rt; "scan format: {:?}", scanning::scan_format(alloc))?;
    println!(rt; "print format: {:?}", scanning::print_format(alloc))?;
    println!(rt; "new: {:?}", scanning::new(alloc))?;
    println!(rt; "over: {:?}", scanning::over(alloc))?;
    println!(rt; "feed: {:?}", scanning::feed(alloc, b"%s"))?;
    println!(rt; "feed, bounded: {:?}", scanning::feed(alloc, b"%300s"))?;
    println!(rt; "sscan: {:?}", scanning::text(alloc))?;
    println!(rt; "fscan: {:?}", scanning::stream(alloc, b"%s"))?;
    println!(rt; "fscan, bounded: {:?}", scanning::stream(alloc, b"%300s"))?;
    println!(rt; "fscan_over: {:?}", scanning::stream_over(alloc))?;
    println!(rt; "scan_row: {:?}", scanning::row(alloc))?;
    println!(rt; "list: {:?}", printing::list(alloc))?;
    println!(rt; "script: {:?}", printing::script(alloc))?;
    println!(rt; "write: {:?}", printing::write(alloc))?;
    println!(rt; "read: {:?}", printing::read(alloc))?;
    println!(rt; "run_scan: {:?}", records::scan(alloc))?;
    println!(rt; "run_copy: {:?}", records::copy(alloc))?;
    Ok(())
}
