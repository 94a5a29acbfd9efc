//! Runs of scanners that are handed pieces, what C returns for them, and a scanner that waits.
use sf_base::{HeapStore, Store};
use sf_format::{Profile, ScanFormat};
use sf_rows::{c_returns, is};
use sf_run::{Ending, Scanned, Scanner};
use std::alloc::Global;
use std::test::Fail;

/// What a scanner that has ended reports.
pub(crate) fn ended<S: Store>(scanner: Scanner<'_, S>) -> Result<Scanned<S>, Fail> {
    match scanner.into_scanned() {
        Ok(scanned) => Ok(scanned),
        Err(_) => Err(Fail::new("the run has not ended")),
    }
}

/// What a scanner over a store that grows comes to on the pieces.
pub(crate) fn scanned(
    alloc: Global,
    format: &ScanFormat,
    limit: u32,
    pieces: &[&[u8]],
    ending: Ending,
) -> Result<Scanned<HeapStore>, Fail> {
    let mut scanner = Scanner::new(alloc, format, limit)?;
    for piece in pieces {
        scanner.feed(piece);
    }
    scanner.end(ending);
    ended(scanner)
}

/// What C returns for a text.
fn c_return_of(alloc: Global, format: &ScanFormat, text: &[u8]) -> Result<i32, Fail> {
    let scanned = scanned(alloc, format, 9, &[text], Ending::End)?;
    Ok(scanned.report().c_return())
}

#[test]
fn what_c_returns(rt: HostRuntime) -> Result<(), Fail> {
    let format = ScanFormat::parse(rt.alloc(), Profile::One, b"%d %d")?;
    for (text, wanted) in c_returns() {
        is(&c_return_of(rt.alloc(), &format, text)?, wanted, text)?;
    }
    Ok(())
}

/// A scanner that was handed `1` and is given back: how many bytes of the text it then takes, and whether it has ended.
fn given_back(alloc: Global, format: &ScanFormat, text: &[u8]) -> Result<(usize, bool), Fail> {
    let mut scanner = Scanner::new(alloc, format, 9)?;
    scanner.feed(b"1");
    let Err(mut back) = scanner.into_scanned() else {
        return Err(Fail::new("the run waits"));
    };
    let taken = back.feed(text).taken;
    Ok((taken, back.into_scanned().is_ok()))
}

#[test]
fn a_waiting_scanner_is_given_back(rt: HostRuntime) -> Result<(), Fail> {
    let format = ScanFormat::parse(rt.alloc(), Profile::One, b"%d")?;
    is(&given_back(rt.alloc(), &format, b"2;")?, &(1, true), &"2;")
}
