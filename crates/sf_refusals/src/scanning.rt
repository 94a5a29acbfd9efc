//! Formats, scanners and scans.
use crate::answer::{Answer, told};
use sf_base::HeapStore;
use sf_format::{PrintFormat, Profile, ScanFormat};
use sf_read::{Lookahead, SliceSource, fscan, fscan_over, scan_row, sscan};
use sf_rows::Named;
use sf_run::{Ending, Scanner};
use std::alloc::Global;

const LIMIT: u32 = 1048576;

/// A text whose storing asks for memory several times.
const TEXT: [u8; 300] = [b'a'; 300];

/// A scan format of many directives.
pub fn scan_format(alloc: Global) -> Answer {
    match ScanFormat::parse(alloc, Profile::One, b"%d,%d,%d,%d,%d,%d,%d,%d,%d,%s") {
        Ok(format) => Answer::Parsed(Ok(format.directives().len())),
        Err(fault) => Answer::Parsed(Err(fault)),
    }
}

/// A print format of many units.
pub fn print_format(alloc: Global) -> Answer {
    match PrintFormat::parse(alloc, Profile::One, b"%d,%d,%d,%d,%d,%d,%d,%d,%d,%s") {
        Ok(format) => Answer::Parsed(Ok(format.directives().len())),
        Err(fault) => Answer::Parsed(Err(fault)),
    }
}

/// A scanner that reserves bytes.
pub fn new(alloc: Global) -> Answer {
    let Ok(format) = ScanFormat::parse(alloc, Profile::One, b"%5000s") else {
        return Answer::NotReached;
    };
    match Scanner::new(alloc, &format, LIMIT) {
        Ok(_) => Answer::Started(Ok(())),
        Err(fault) => Answer::Started(Err(fault)),
    }
}

/// A scanner over a store that has too little room.
pub fn over(alloc: Global) -> Answer {
    let Ok(format) = ScanFormat::parse(alloc, Profile::One, b"%5000s") else {
        return Answer::NotReached;
    };
    let Ok(store) = HeapStore::new(alloc, 8) else {
        return Answer::NotReached;
    };
    match Scanner::over(alloc, store, &format, LIMIT) {
        Ok(_) => Answer::Started(Ok(())),
        Err(fault) => Answer::Started(Err(fault)),
    }
}

/// A run that is handed the text in pieces.
pub fn feed(alloc: Global, format: &[u8]) -> Answer {
    let Ok(format) = ScanFormat::parse(alloc, Profile::One, format) else {
        return Answer::NotReached;
    };
    let mut scanner = match Scanner::new(alloc, &format, LIMIT) {
        Ok(scanner) => scanner,
        Err(fault) => return Answer::Scanned(Err(fault)),
    };
    for piece in TEXT.chunks(7) {
        scanner.feed(piece);
    }
    scanner.end(Ending::End);
    match scanner.into_scanned() {
        Ok(scanned) => told(&scanned),
        Err(_) => Answer::NotReached,
    }
}

/// A scan of the whole text.
pub fn text(alloc: Global) -> Answer {
    let Ok(format) = ScanFormat::parse(alloc, Profile::One, b"%s") else {
        return Answer::NotReached;
    };
    match sscan(alloc, &TEXT, &format, LIMIT) {
        Ok(scanned) => told(&scanned),
        Err(fault) => Answer::Scanned(Err(fault)),
    }
}

/// A scan of a source in blocks of 16 bytes.
pub fn stream(alloc: Global, format: &[u8]) -> Answer {
    let Ok(format) = ScanFormat::parse(alloc, Profile::One, format) else {
        return Answer::NotReached;
    };
    let mut from = Lookahead::<SliceSource<'_>, 16>::new(SliceSource::new(&TEXT));
    match fscan(alloc, &mut from, &format, LIMIT) {
        Ok(scanned) => told(&scanned),
        Err(fault) => Answer::Scanned(Err(fault)),
    }
}

/// The same over a store that is used again.
pub fn stream_over(alloc: Global) -> Answer {
    let Ok(format) = ScanFormat::parse(alloc, Profile::One, b"%s") else {
        return Answer::NotReached;
    };
    let Ok(store) = HeapStore::new(alloc, 8) else {
        return Answer::NotReached;
    };
    let mut from = Lookahead::<SliceSource<'_>, 16>::new(SliceSource::new(&TEXT));
    match fscan_over(alloc, store, &mut from, &format, LIMIT) {
        Ok(scanned) => told(&scanned),
        Err(fault) => Answer::Scanned(Err(fault)),
    }
}

/// A row whose name is a text.
pub fn row(alloc: Global) -> Answer {
    let Ok(format) = ScanFormat::parse(alloc, Profile::One, b"%d %s") else {
        return Answer::NotReached;
    };
    let text = b"7 abcdefghijklmnopqrstuvwxyzabcdefghijklmnopqrstuvwxyz\n";
    let mut from = Lookahead::<SliceSource<'_>, 16>::new(SliceSource::new(text));
    match scan_row::<Named, SliceSource<'_>, 16>(alloc, &mut from, &format, LIMIT) {
        Ok(named) => Answer::Row(Ok((named.number, named.name.len()))),
        Err(fault) => Answer::Row(Err(fault)),
    }
}
