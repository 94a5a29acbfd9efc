//! The inputs of the program: standard input, and files.
ghost use Rattle.std.specs.Prelude.{◌≡◌, ◌<◌, Some, IsSome};
ghost use Rattle.std.specs.Io.{ReadsAtMost};
ghost use Rattle.std.specs.Io.KnownBytes.{ReadConsumes};
ghost use Rattle.sf.specs.Inputs.{IsOpened, IsStandard, told};

use sf_command::{LastError, Opened, Opener};
use sf_read::{Source, SourceFault};
use std::fs::{self, File};
use std::io::{self, Read, Stdin};

/// What the bytes of an input come from.
#[derive(Drop)]
enum Stream {
    Standard(Stdin),
    File(File),
    /// There are none.
    Nothing,
}

/// Gives the bytes of an input.
#[derive(Drop)]
pub(crate) struct Input {
    stream: Stream,
    reads: u64,
    failures: u64,
    /// Why the last of its reads failed that did, or why it couldn't be opened.
    last_error: Option<io::Error>,
    ghost known: { 0 < failures → IsSome last_error },
}

impl Input {
    fn new(stream: Stream) -> Input
        ensures { result.stream ≡ stream }
    {
        Input {
            stream,
            reads: 0,
            failures: 0,
            last_error: None,
        }
    }

    /// Stands for a file that can't be opened, and gives no bytes.
    fn unopened(error: io::Error) -> Input
        ensures stream { result.stream ≡ Stream.Nothing }
        ensures why { result.last_error ≡ Some error }
    {
        Input {
            stream: Stream::Nothing,
            reads: 0,
            failures: 0,
            last_error: Some(error),
        }
    }

    /// Keeps why a read failed, in place of what was known of an older one.
    fn remember(&mut self, error: io::Error)
        ensures why { self.new.last_error ≡ Some error }
        ensures stream { self.new.stream ≡ self.old.stream }
        ensures reads { self.new.reads ≡ self.old.reads }
        ensures failures { self.new.failures ≡ self.old.failures }
    {
        self.last_error = Some(error);
    }

    /// Gives those of standard input.
    pub(crate) fn standard(stdin: Stdin) -> Input
        ensures { IsStandard result.stream }
    {
        Input::new(Stream::Standard(stdin))
    }
}

impl Stream {
    fn read(&mut self, buf: &mut [u8]) -> io::Result<usize>
        ensures bound { ReadsAtMost result buf.new }
        ensures bytes { ReadConsumes (told self.old) (told self.new) result buf.new }
    {
        match self {
            Stream::Standard(stdin) => stdin.read(buf),
            Stream::File(file) => file.read(buf),
            Stream::Nothing => Ok(0),
        }
    }
}

impl Source for Input {
    ghost to_come = { λ s. told s.stream };

    ghost reads = { λ s. s.reads };

    ghost failures = { λ s. s.failures };

    fn read(&mut self, buf: &mut [u8]) -> Result<usize, SourceFault> {
        self.reads = self.reads.saturating_add(1);
        match self.stream.read(buf) {
            Ok(count) => Ok(count),
            Err(error) => {
                self.remember(error);
                self.failures = self.failures.saturating_add(1);
                Err(SourceFault)
            }
        }
    }
}

impl LastError for Input {
    ghost last_error = { λ s. s.last_error };

    fn last_error(&self) -> Option<io::Error> {
        self.last_error
    }
}

/// Opens files by their paths; `-` is standard input.
#[derive(Drop)]
pub(crate) struct Disk<'r> {
    rt: &'r HostRuntime,
}

impl<'r> Disk<'r> {
    pub(crate) fn new(rt: &'r HostRuntime) -> Disk<'r> {
        Disk { rt }
    }
}

impl Opener<Input> for Disk<'_> {
    ghost Opens = { λ before after name source is_open. IsOpened name source.stream is_open };

    fn open(&mut self, name: &str) -> Opened<Input> {
        if name == "-" {
            return Opened {
                source: Input::standard(self.rt.stdin()),
                is_open: true,
            };
        }
        match fs::open(self.rt, name) {
            Ok(file) => Opened {
                source: Input::new(Stream::File(file)),
                is_open: true,
            },
            Err(error) => Opened {
                source: Input::unopened(error),
                is_open: false,
            },
        }
    }
}
