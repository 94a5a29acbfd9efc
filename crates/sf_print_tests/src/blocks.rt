//! Tests over a writer that takes as few bytes as it likes, and fails once.
ghost use Rattle.std.specs.Prelude.{◌≡◌, ◌≤◌, length};

use sf_print::{BlockSink, Sink, TextInPlace, WritesInPlace, copy_over};
use std::alloc::Global;
use std::io::{self, ErrorKind, Write};
use std::process::Abort;
use std::test::Fail;

/// A writer, with the bytes that it took.
#[derive(Drop)]
struct Device {
    bytes: Vec<u8>,
    /// The most bytes that it takes at once.
    most: usize,
    /// How many calls come before the one that fails.
    before_failure: u64,
    /// How that one fails.
    failure: ErrorKind,
    /// Whether it was flushed.
    flushed: bool,
}

impl Device {
    fn new(alloc: Global, most: usize, before_failure: u64) -> Device {
        Device {
            bytes: Vec::new(alloc),
            most,
            before_failure,
            failure: ErrorKind::Other,
            flushed: false,
        }
    }
}

impl Write for Device {
    fn write(&mut self, bytes: &[u8]) -> io::Result<usize> {
        let fails = self.before_failure == 0;
        self.before_failure = self.before_failure.wrapping_sub(1);
        if fails {
            return Err(io::Error::from(self.failure));
        }
        let front = &bytes[..bytes.len().min(self.most)];
        self.bytes.extend_from_slice(front)?;
        Ok(front.len())
    }

    fn flush(&mut self) -> io::Result<()> {
        self.flushed = true;
        Ok(())
    }
}

/// Writes the text, and asks again for what wasn't taken.
fn write_whole(sink: &mut BlockSink<Device>, text: &[u8]) {
    let mut rest = text;
    for _ in 0..text.len() + 1 {
        if let Ok(count) = sink.write(rest) {
            rest = &rest[count..];
        }
    }
}

/// Bytes that are written in place.
#[derive(Drop)]
struct Text<'a> {
    bytes: &'a [u8],
}

impl TextInPlace for Text<'_> {
    ghost text = { λ t. t.bytes.now };

    ghost Fits = { λ t. Unit {0} };

    fn write_in(&self, room: &mut [u8]) -> Option<usize> {
        if room.len() < self.bytes.len() {
            return None;
        }
        copy_over(self.bytes, room, 0);
        Some(self.bytes.len())
    }
}

/// Writes its bytes, where there is room for them, and notes the room.
#[derive(Drop)]
struct Lent<'a> {
    bytes: &'a [u8],
    room: usize,
}

impl WritesInPlace for Lent<'_> {
    ghost Writes = { λ old new text. text ≡ old.bytes.now };

    ghost Surely = { λ lent room. length lent.bytes.now ≤ room };

    fn write_in(&mut self, room: &mut [u8]) -> Option<usize> {
        if room.len() < self.bytes.len() {
            return None;
        }
        self.room = room.len();
        copy_over(self.bytes, room, 0);
        Some(self.bytes.len())
    }
}

/// Whether the bytes are so many texts of seven bytes, one after the other.
fn are_texts(bytes: &[u8], text: &[u8], count: usize) -> bool {
    bytes.chunks(7).len() == count && bytes.chunks(7).all(|piece| piece == text)
}

/// The most bytes that a writer takes at once, and how many calls come before the one that fails.
static DEVICES: [(usize, u64); 8] = [
    (1, u64::MAX),
    (3, u64::MAX),
    (4001, u64::MAX),
    (100000, u64::MAX),
    (3, 0),
    (3, 1),
    (4001, 1),
    (100000, 1),
];

/// No byte is lost, and none comes twice, also where a write fails.
#[test]
fn short_texts_go_in_blocks(rt: HostRuntime) -> Result<(), Fail> {
    for &(most, before_failure) in &DEVICES {
        let device = Device::new(rt.alloc(), most, before_failure);
        let mut sink = BlockSink::in_blocks(rt.alloc(), device)?;
        for _ in 0..12_000u16 {
            write_whole(&mut sink, b"record\n");
        }
        let _ = sink.flush();
        let flushed = sink.flush().is_ok() && are_texts(&sink.writer().bytes, b"record\n", 12_000);
        assert!(rt; flushed, "at {most}, {before_failure}");
    }
    Ok(())
}

/// A write of the block that is interrupted is tried again, and a flush is handed on.
#[test]
fn an_interrupted_block_goes_on(rt: HostRuntime) -> Result<(), Fail> {
    let mut device = Device::new(rt.alloc(), 3, 1);
    device.failure = ErrorKind::Interrupted;
    let mut sink = BlockSink::in_blocks(rt.alloc(), device)?;
    for _ in 0..20u16 {
        write_whole(&mut sink, b"record\n");
    }
    assert!(rt; sink.writer().bytes.is_empty());
    let flushed = sink.flush().is_ok() && are_texts(&sink.writer().bytes, b"record\n", 20);
    assert!(rt; flushed);
    assert!(rt; sink.writer().flushed);
    Ok(())
}

/// A text that is longer than all that is held back comes after the short ones before it.
#[test]
fn a_long_text_comes_behind(rt: HostRuntime) -> Result<(), Fail> {
    let mut sink = BlockSink::in_blocks(rt.alloc(), Device::new(rt.alloc(), 40_000, u64::MAX))?;
    let mut long = Vec::new(rt.alloc());
    for _ in 0..6000u16 {
        long.extend_from_slice(b"record\n")?;
    }
    write_whole(&mut sink, b"record\n");
    write_whole(&mut sink, &long);
    write_whole(&mut sink, b"record\n");
    let flushed = sink.flush().is_ok() && are_texts(&sink.writer().bytes, b"record\n", 6002);
    assert!(rt; flushed);
    Ok(())
}

/// Whether the last error is of this kind.
fn failed_by(sink: &BlockSink<Device>, kind: ErrorKind) -> bool {
    matches!(sink.last_error(), Some(error) if error.kind() == kind)
}

/// A second write that fails so: what is true before it, then, and after a flush.
fn write_fails(alloc: Global, kind: ErrorKind) -> [bool; 7] {
    let mut device = Device::new(alloc, 40_000, 1);
    device.failure = kind;
    let mut sink = BlockSink::at_once(alloc, device);
    [
        sink.write(b"record\n").is_ok(),
        sink.last_error().is_none(),
        sink.write(b"record\n").is_err(),
        failed_by(&sink, kind),
        sink.failures() == 1,
        sink.flush().is_ok(),
        sink.last_error().is_some(),
    ]
}

/// A flush to a writer that takes nothing: what is true before it, and then.
fn flush_fails(sink: &mut BlockSink<Device>) -> [bool; 4] {
    [
        sink.write(b"record\n").is_ok(),
        sink.last_error().is_none(),
        sink.flush().is_err(),
        failed_by(sink, ErrorKind::WriteZero),
    ]
}

/// Why the write or the flush failed, and nothing before one did.
#[test]
fn the_last_error_is_known(rt: HostRuntime) -> Result<(), Fail> {
    for &kind in &[ErrorKind::BrokenPipe, ErrorKind::StorageFull] {
        assert_eq!(rt; write_fails(rt.alloc(), kind), [true; 7]);
    }
    let mut sink = BlockSink::in_blocks(rt.alloc(), Device::new(rt.alloc(), 0, u64::MAX))?;
    assert_eq!(rt; flush_fails(&mut sink), [true; 4]);
    Ok(())
}

/// Writes a text in place, and as any other where it has no room there.
fn write_in_place(sink: &mut BlockSink<Device>) {
    if sink.take_in_place(&Text { bytes: b"record\n" }).is_none() {
        write_whole(sink, b"record\n");
    }
}

/// Texts that are written in place come after those that were copied.
#[test]
fn texts_in_place_come_in_order(rt: HostRuntime) -> Result<(), Fail> {
    for &(most, before_failure) in &DEVICES {
        let device = Device::new(rt.alloc(), most, before_failure);
        let mut sink = BlockSink::in_blocks(rt.alloc(), device)?;
        for _ in 0..6000u16 {
            write_whole(&mut sink, b"record\n");
            write_in_place(&mut sink);
        }
        let _ = sink.flush();
        let flushed = sink.flush().is_ok() && are_texts(&sink.writer().bytes, b"record\n", 12_000);
        assert!(rt; flushed, "at {most}, {before_failure}");
    }
    Ok(())
}

/// How many bytes of three texts in turn are written in place: all, none and all.
fn taken_in_place(sink: &mut BlockSink<Device>) -> [Option<usize>; 3] {
    [
        sink.take_in_place(&Text {
            bytes: &[b'a'; 32_576],
        }),
        sink.take_in_place(&Text {
            bytes: &[b'b'; 193],
        }),
        sink.take_in_place(&Text {
            bytes: &[b'c'; 192],
        }),
    ]
}

/// A text that has no room in place isn't begun.
#[test]
fn texts_in_place_are_whole(rt: HostRuntime) -> Result<(), Fail> {
    let mut sink = BlockSink::in_blocks(rt.alloc(), Device::new(rt.alloc(), 40_000, u64::MAX))?;
    assert_eq!(rt; taken_in_place(&mut sink), [Some(32_576), None, Some(192)]);
    assert!(rt; sink.flush().is_ok() && sink.writer().bytes.len() == 32_768);
    let mut at_once = BlockSink::at_once(rt.alloc(), Device::new(rt.alloc(), 9, u64::MAX));
    let refused = at_once.take_in_place(&Text { bytes: b"record\n" });
    assert!(rt; refused.is_none() && at_once.writer().bytes.is_empty());
    Ok(())
}

/// Where nothing is held back, the writer has each text at once.
#[test]
fn texts_go_at_once(rt: HostRuntime) {
    let mut sink = BlockSink::at_once(rt.alloc(), Device::new(rt.alloc(), 9, u64::MAX));
    for count in 1..4usize {
        write_whole(&mut sink, b"record\n");
        assert!(rt;
            are_texts(&sink.writer().bytes, b"record\n", count),
            "at {count}"
        );
    }
}

/// Texts of so many bytes, and a record between them.
static TEXTS: [&[u8]; 3] = [&[b'a'; 32_576], b"record\n", &[b'c'; 186]];

/// Whether the text is written into a room that is lent, and how much room that is.
fn lends(sink: &mut BlockSink<Device>, bytes: &[u8]) -> (bool, usize) {
    let mut text = Lent { bytes, room: 0 };
    (sink.lend(&mut text), text.room)
}

/// What is written into a room that is lent comes after what was taken before, and a writer that finds none takes no
/// byte of it.
#[test]
fn room_is_lent(rt: HostRuntime) -> Result<(), Fail> {
    let mut sink = BlockSink::in_blocks(rt.alloc(), Device::new(rt.alloc(), 40_000, u64::MAX))?;
    let found = [
        lends(&mut sink, TEXTS[0]),
        lends(&mut sink, TEXTS[1]),
        lends(&mut sink, TEXTS[2]),
    ];
    assert_eq!(rt; found, [(true, 32_768), (true, 192), (false, 0)]);
    let flushed = sink.flush().is_ok();
    assert!(rt; flushed && sink.writer().bytes.len() == 32_583);
    assert!(rt; are_texts(&sink.writer().bytes[32_576..], b"record\n", 1));
    Ok(())
}

/// Where nothing is held back, no room is lent.
#[test]
fn no_room_is_lent(rt: HostRuntime) {
    let mut at_once = BlockSink::at_once(rt.alloc(), Device::new(rt.alloc(), 9, u64::MAX));
    let (is_lent, _) = lends(&mut at_once, b"record\n");
    assert!(rt; !is_lent && at_once.writer().bytes.is_empty());
}
