//! Sinks and writers: full ones, interrupted ones, narrow ones, and one that has failed as often as can be counted.
use crate::printing::prints_in_part;
use sf_base::Value;
use sf_format::{PrintFormat, Profile};
use sf_print::{PrintFault, ScriptSink, Sink, SinkFault, StdSink, WriteStep, fprint};
use sf_rows::is;
use std::alloc::Global;
use std::io;
use std::io::Write;
use std::test::Fail;

/// The print of the values to the sink answers so.
fn answers<K: Sink>(
    alloc: Global,
    to: &mut K,
    format: &[u8],
    values: &[Value<'_>],
    wanted: &Result<u32, PrintFault>,
) -> Result<(), Fail> {
    let format = PrintFormat::parse(alloc, Profile::One, format)?;
    is(&fprint(to, &format, values), wanted, &values)
}

/// A print format, values, their text, the steps of a sink, and how many bytes it takes.
type StepRow = (
    &'static [u8],
    &'static [Value<'static>],
    &'static [u8],
    &'static [WriteStep],
    usize,
);

const IN_TURN: &[WriteStep] = &[
    WriteStep::Accept(0),
    WriteStep::Accept(2),
    WriteStep::Accept(1),
];

static STEPS: [StepRow; 2] = [
    (
        b"%d,%d",
        &[Value::I32(12), Value::I32(345)],
        b"12,345",
        &[WriteStep::Accept(4), WriteStep::Fail],
        4,
    ),
    (b"%s", &[Value::Text(b"abcdef")], b"abcdef", IN_TURN, 6),
];

#[test]
fn steps_are_taken_in_turn(rt: HostRuntime) -> Result<(), Fail> {
    for (text, values, wanted, steps, taken) in &STEPS {
        let format = PrintFormat::parse(rt.alloc(), Profile::One, text)?;
        prints_in_part(rt.alloc(), &format, values, wanted, steps, *taken)?;
    }
    Ok(())
}

/// A print of nothing through a sink that is lent.
fn prints_nothing(alloc: Global, mut to: &mut ScriptSink<'_>) -> Result<(), Fail> {
    answers(alloc, &mut to, b"%s", &[Value::Text(b"")], &Ok(0))
}

#[test]
fn a_lent_sink_is_a_sink(rt: HostRuntime) -> Result<(), Fail> {
    let mut sink = ScriptSink::new(rt.alloc(), IN_TURN);
    answers(
        rt.alloc(),
        &mut sink,
        b"%s",
        &[Value::Text(b"abcdef")],
        &Ok(6),
    )?;
    prints_nothing(rt.alloc(), &mut sink)?;
    is(&sink.bytes(), &&b"abcdef"[..], &"abcdef")
}

/// What a writer does.
#[derive(Clone, Copy)]
enum Manner {
    /// It takes nothing.
    Full,
    /// It is interrupted.
    Interrupted,
    /// It takes at most so many bytes at once.
    Narrow(usize),
}

/// A writer, with the bytes that it took and how often it was called.
#[derive(Drop)]
struct Device {
    manner: Manner,
    taken: u64,
    writes: u64,
}

impl Write for Device {
    fn write(&mut self, bytes: &[u8]) -> io::Result<usize> {
        self.writes = self.writes.saturating_add(1);
        let count = match self.manner {
            Manner::Full => 0,
            Manner::Interrupted => return Err(io::Error::from(io::ErrorKind::Interrupted)),
            Manner::Narrow(most) => bytes.len().min(most),
        };
        self.taken = self.taken.saturating_add(count as u64);
        Ok(count)
    }

    fn flush(&mut self) -> io::Result<()> {
        Ok(())
    }
}

/// A print of the text to a writer is answered so; the writer then took so many bytes, in so many calls.
fn is_written(
    alloc: Global,
    manner: Manner,
    text: &[u8],
    wanted: &Result<u32, PrintFault>,
    counts: [u64; 2],
) -> Result<(), Fail> {
    let mut sink = StdSink::new(Device {
        manner,
        taken: 0,
        writes: 0,
    });
    answers(alloc, &mut sink, b"%s", &[Value::Text(text)], wanted)?;
    let device = sink.into_writer();
    is(&[device.taken, device.writes], &counts, &counts)
}

/// Each is a failure at once: a writer that takes nothing of a piece, and an interrupted one, which isn't asked again.
#[test]
fn writers_that_take_nothing(rt: HostRuntime) -> Result<(), Fail> {
    let fault = Err(PrintFault::Sink { written: 0 });
    is_written(rt.alloc(), Manner::Full, b"-12", &fault, [0, 1])?;
    is_written(rt.alloc(), Manner::Interrupted, b"-12", &fault, [0, 1])
}

#[test]
fn writers_are_sinks(rt: HostRuntime) -> Result<(), Fail> {
    let mut list = StdSink::new(Vec::new(rt.alloc()));
    answers(rt.alloc(), &mut list, b"%d", &[Value::I32(-12)], &Ok(3))?;
    is(&list.into_writer().as_slice(), &&b"-12"[..], &-12)
}

/// The most bytes that a writer takes at once, and how often it is called for a mebibyte.
static PIECES: [(usize, u64); 5] = [
    (1048576, 1),
    (1048575, 2),
    (4096, 256),
    (1000, 1049),
    (100, 10486),
];

/// A text of a mebibyte goes in one piece to a writer that takes it, and in as many as another one asks for.
#[test]
fn long_texts_go_in_pieces(rt: HostRuntime) -> Result<(), Fail> {
    let text = vec![in rt.alloc(); b'a'; 1048576]?;
    for (most, writes) in &PIECES {
        let counts = [1048576, *writes];
        is_written(
            rt.alloc(),
            Manner::Narrow(*most),
            &text,
            &Ok(1048576),
            counts,
        )?;
    }
    Ok(())
}

/// A sink that has counted as many failures as there are numbers, and fails.
#[derive(Drop)]
struct Worn {
    failures: u64,
}

impl Sink for Worn {
    ghost use Rattle.std.specs.Prelude.{None};

    ghost contents = { λ _. None };

    ghost failures = { λ s. s.failures };

    fn write(&mut self, _: &[u8]) -> Result<usize, SinkFault> {
        self.failures = self.failures.saturating_add(1);
        Err(SinkFault)
    }
}

/// A print reports a failure, though the count of failures stays where it is.
#[test]
fn counts_that_have_come_to_their_end(rt: HostRuntime) -> Result<(), Fail> {
    let mut sink = Worn { failures: u64::MAX };
    let fault = PrintFault::Sink { written: 0 };
    answers(rt.alloc(), &mut sink, b"%d", &[Value::I32(7)], &Err(fault))?;
    is(&sink.failures, &u64::MAX, &"failures")
}
