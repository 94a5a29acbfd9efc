//! A source and a sink of one's own: records in capitals, and how long the output is.
#![tactic(auto)]

ghost use Rattle.std.specs.Prelude.{◌≡◌};

use sf_scanf::io::{Sink, SinkFault, Source, SourceFault};
use sf_scanf::prelude::{PrintFormat, Profile, Records, ScanFormat, StdSource, Value, fprint};

/// Gives the bytes of another source, with capitals in place of small letters.
#[derive(Drop)]
struct Capitals<S: Source> {
    from: S,
}

impl<S: Source> Source for Capitals<S> {
    ghost use Rattle.std.specs.Prelude.{None};

    ghost to_come = { λ c. None };

    ghost reads = { λ c. S.reads c.from };

    ghost failures = { λ c. S.failures c.from };

    fn read(&mut self, buf: &mut [u8]) -> Result<usize, SourceFault> {
        let count = self.from.read(buf)?;
        buf.make_ascii_uppercase();
        Ok(count)
    }
}

/// Counts the bytes that it takes, and keeps none.
#[derive(Drop)]
struct Length {
    bytes: u64,
}

impl Sink for Length {
    ghost use Rattle.std.specs.Prelude.{None};

    ghost contents = { λ l. None };

    ghost failures = { λ l. 0 };

    fn write(&mut self, bytes: &[u8]) -> Result<usize, SinkFault> {
        self.bytes = self.bytes.saturating_add(bytes.len() as u64);
        Ok(bytes.len())
    }
}

fn main(rt: HostRuntime) -> anyhow::Result<()> {
    let alloc = rt.alloc();
    let scan = ScanFormat::parse(alloc, Profile::One, b"%s")?;
    let print = PrintFormat::parse(alloc, Profile::One, b"%-10s|\n")?;
    let input = Capitals {
        from: StdSource::new(rt.stdin()),
    };
    let mut words = Records::<(Vec<u8>,), _, 4096>::new(alloc, input, &scan, 1000)?;
    let mut length = Length { bytes: 0 };
    for _ in 0..u64::MAX {
        let Some((word,)) = words.read_row()? else {
            break;
        };
        fprint(&mut length, &print, &[Value::Text(&word)])?;
        println!(rt; "{}", str::from_utf8(&word)?)?;
    }
    println!(rt; "{} bytes as a column", length.bytes)?;
    Ok(())
}
