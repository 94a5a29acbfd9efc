//! Loops over a reader that fails, and why it did.
use crate::answers::{is, said};
use sf_format::{Profile, ScanFormat};
use sf_loops::Records;
use sf_read::StdSource;
use std::alloc::Global;
use std::io::{self, ErrorKind, Read};
use std::test::Fail;

/// The most bytes of a record.
const LIMIT: u32 = 100;

static TEXT: &[u8] = b"1,2\n";

/// Gives TEXT, then fails twice, each time for another reason, and then gives nothing.
#[derive(Drop)]
struct Broken {
    reads: u8,
}

impl Read for Broken {
    fn read(&mut self, buf: &mut [u8]) -> io::Result<usize> {
        self.reads = self.reads.saturating_add(1);
        match self.reads {
            1 => {
                let (text, _) = TEXT.split_at(TEXT.len().min(buf.len()));
                buf[..text.len()].copy_from_slice(text);
                Ok(text.len())
            }
            2 => Err(io::Error::from(ErrorKind::ConnectionReset)),
            3 => Err(io::Error::from(ErrorKind::TimedOut)),
            _ => Ok(0),
        }
    }
}

/// What the loops over the reader answer, one after the other, and why the last read failed that did by then.
static ANSWERS: [(&[&str], Option<ErrorKind>); 3] = [
    (
        &["1 2", "record 2, line 2: read fault"],
        Some(ErrorKind::ConnectionReset),
    ),
    (&["record 1, line 1: read fault"], Some(ErrorKind::TimedOut)),
    (&["end"], Some(ErrorKind::TimedOut)),
];

/// Whether a loop over the source answers so.
fn answers_so(
    alloc: Global,
    source: &mut StdSource<Broken>,
    format: &ScanFormat,
    answers: &[&str],
) -> Result<(), Fail> {
    let mut records = Records::<(i32, i32), _, 16>::new(alloc, source, format, LIMIT)?;
    for (place, wanted) in answers.iter().enumerate() {
        is(&said(alloc, &records.read_row())?, wanted, place)?;
    }
    Ok(())
}

/// A loop that is lent the source leaves it to be asked why a read failed.
#[test]
fn why_a_read_failed_is_known(rt: HostRuntime) -> Result<(), Fail> {
    let alloc = rt.alloc();
    let format = ScanFormat::parse(alloc, Profile::One, b"%d,%d")?;
    let mut source = StdSource::new(Broken { reads: 0 });
    assert!(rt; source.last_error().is_none());
    for &(answers, why) in &ANSWERS {
        answers_so(alloc, &mut source, &format, answers)?;
        let kind = source.last_error().map(|error| error.kind());
        assert!(rt; kind == why, "{kind:?}");
    }
    Ok(())
}
