//! The program on streams of its own: what each took, and in which order.
ghost use Rattle.std.specs.Prelude.{◌≡◌, ◌<◌, ◌≤◌, [], IfOk, IsSome, length};

use crate::shared::{is, words_of};
use sf_command::{LastError, Opened, Opener, Terminals, run_program};
use sf_read::{SliceSource, Source, SourceFault};
use std::alloc::Global;
use std::cell::RefCell;
use std::io::{self, ErrorKind, Write};
use std::process::Abort;
use std::test::Fail;

/// Where two streams write to: each write is one line, after the letter of its stream.
#[derive(Drop)]
struct Log {
    text: Vec<u8>,
    /// How many writes to the output come before those that fail.
    before_failures: u64,
    /// How those fail.
    failure: ErrorKind,
}

/// One of the streams.
#[derive(Drop)]
struct Stream<'l> {
    log: &'l RefCell<Log>,
    letter: u8,
}

impl Stream<'_> {
    fn put(&self, log: &mut Log, bytes: &[u8]) -> io::Result<usize>
        ensures most { IfOk result (λ n. n ≤ length bytes.now) }
    {
        if self.letter == b'o' {
            if log.before_failures == 0 {
                return Err(io::Error::from(log.failure));
            }
            log.before_failures -= 1;
        }
        log.text.push(self.letter)?;
        log.text.extend_from_slice(bytes)?;
        Ok(bytes.len())
    }
}

impl Write for Stream<'_> {
    fn write(&mut self, bytes: &[u8]) -> io::Result<usize> {
        match self.log.try_borrow_mut() {
            Ok(mut log) => self.put(&mut log, bytes),
            Err(_) => Err(io::Error::from(ErrorKind::Other)),
        }
    }

    fn flush(&mut self) -> io::Result<()> {
        Ok(())
    }
}

/// The words, what is read, how many writes to the output succeed and how the next one fails, what is written (`o`: to
/// the output, `e`: to the error output), and the status.
struct Case {
    words: &'static str,
    terminal: bool,
    /// Whether the error output is a terminal.
    watched: bool,
    input: &'static [u8],
    writes: u64,
    failure: ErrorKind,
    log: &'static str,
    status: u8,
}

static CASES: [Case; 25] = [
    // the lines before a message go before it
    Case {
        words: "scan/--lines/--keep-going/%d",
        terminal: false,
        watched: false,
        input: b"1\n2\nx\n3\n",
        writes: u64::MAX,
        failure: ErrorKind::Other,
        log: "o1\n2\nesf: line 3: matching failure at 1, used 0, assigned 0\no3\n",
        status: 1,
    },
    // nobody waits: one block
    Case {
        words: "scan/%d",
        terminal: false,
        watched: false,
        input: b"1\n2\n3\n",
        writes: u64::MAX,
        failure: ErrorKind::Other,
        log: "o1\n2\n3\n",
        status: 0,
    },
    // each record is awaited
    Case {
        words: "scan/--line-buffered/%d",
        terminal: false,
        watched: false,
        input: b"1\n2\n3\n",
        writes: u64::MAX,
        failure: ErrorKind::Other,
        log: "o1\no2\no3\n",
        status: 0,
    },
    Case {
        words: "scan/%d",
        terminal: true,
        watched: false,
        input: b"1\n2\n3\n",
        writes: u64::MAX,
        failure: ErrorKind::Other,
        log: "o1\no2\no3\n",
        status: 0,
    },
    // a flush that fails is reported, once
    Case {
        words: "scan/%d",
        terminal: false,
        watched: false,
        input: b"1\n2\n3\n",
        writes: 0,
        failure: ErrorKind::Other,
        log: "esf: write fault\n",
        status: 3,
    },
    // the line of a write that failed has reported it
    Case {
        words: "scan/%d",
        terminal: true,
        watched: false,
        input: b"1\n2\n3\n",
        writes: 1,
        failure: ErrorKind::Other,
        log: "o1\nesf: write fault\n",
        status: 3,
    },
    // a flush before a message failed
    Case {
        words: "scan/--lines/--keep-going/%d",
        terminal: false,
        watched: false,
        input: b"1\nx\n",
        writes: 0,
        failure: ErrorKind::Other,
        log: "esf: line 2: matching failure at 1, used 0, assigned 0\nesf: write fault\n",
        status: 3,
    },
    Case {
        words: "check/%5d,/%5d,",
        terminal: false,
        watched: false,
        input: b"",
        writes: u64::MAX,
        failure: ErrorKind::Other,
        log: "oaccepted\n",
        status: 0,
    },
    // more is said on a terminal, unless the words say no
    Case {
        words: "scan/%d,%d",
        terminal: false,
        watched: true,
        input: b"1;2",
        writes: u64::MAX,
        failure: ErrorKind::Other,
        log: concat!(
            "esf: record 1: matching failure at 2, used 1, assigned 1\n",
            "e  directive 2: \",\", byte \",\"\n",
            "  at line 1, column 2 of the input\n",
            "  there stood \";2\"\n",
        ),
        status: 1,
    },
    Case {
        words: "scan/--no-explain/%d,%d",
        terminal: false,
        watched: true,
        input: b"1;2",
        writes: u64::MAX,
        failure: ErrorKind::Other,
        log: "esf: record 1: matching failure at 2, used 1, assigned 1\n",
        status: 1,
    },
    Case {
        words: "scan/%d,%d",
        terminal: true,
        watched: false,
        input: b"1;2",
        writes: u64::MAX,
        failure: ErrorKind::Other,
        log: "esf: record 1: matching failure at 2, used 1, assigned 1\n",
        status: 1,
    },
    // a record ends with its file
    Case {
        words: "scan/%d/two/one",
        terminal: false,
        watched: false,
        input: b"9",
        writes: u64::MAX,
        failure: ErrorKind::Other,
        log: "o1\n2\n3\n",
        status: 0,
    },
    // a file that can't be opened is reported, and the next one is read
    Case {
        words: "scan/%d/two/gone/one",
        terminal: false,
        watched: false,
        input: b"",
        writes: u64::MAX,
        failure: ErrorKind::Other,
        log: "o1\n2\nesf: egonee: ecan't be opened\no3\n",
        status: 3,
    },
    // a record that fails ends all
    Case {
        words: "scan/%d/gone/bad/one",
        terminal: false,
        watched: false,
        input: b"",
        writes: u64::MAX,
        failure: ErrorKind::Other,
        log: concat!(
            "esf: egonee: ecan't be opened\n",
            "esf: ebade: erecord 1: matching failure at 1, used 0, assigned 0\n",
        ),
        status: 3,
    },
    // a line that fails does so too, unless the scan goes on
    Case {
        words: "scan/--lines/%d/bad/one",
        terminal: false,
        watched: false,
        input: b"",
        writes: u64::MAX,
        failure: ErrorKind::Other,
        log: "esf: ebade: eline 1: matching failure at 1, used 0, assigned 0\n",
        status: 1,
    },
    Case {
        words: "scan/-lk/%d/bad/one",
        terminal: false,
        watched: false,
        input: b"",
        writes: u64::MAX,
        failure: ErrorKind::Other,
        log: "esf: ebade: eline 1: matching failure at 1, used 0, assigned 0\no3\n",
        status: 1,
    },
    // the header is written once, also before a file that can't be opened
    Case {
        words: "scan/-o/csv/--names/n/%d/gone/two/one",
        terminal: false,
        watched: false,
        input: b"",
        writes: u64::MAX,
        failure: ErrorKind::Other,
        log: "on\nesf: egonee: ecan't be opened\no1\n2\n3\n",
        status: 3,
    },
    // the words are judged before a file is blamed
    Case {
        words: "copy/%d;/%d;/gone",
        terminal: false,
        watched: false,
        input: b"",
        writes: u64::MAX,
        failure: ErrorKind::Other,
        log: "esf: pair: Q4 NoWidth at 1\n",
        status: 2,
    },
    // why a write, a read and the opening of a file failed, where more is said
    Case {
        words: "scan/--explain/%d",
        terminal: false,
        watched: false,
        input: b"1\n2\n3\n",
        writes: 0,
        failure: ErrorKind::StorageFull,
        log: "esf: write fault\n  No space left on device\n",
        status: 3,
    },
    Case {
        words: "scan/--explain/--line-buffered/%d",
        terminal: false,
        watched: false,
        input: b"1\n2\n3\n",
        writes: 1,
        failure: ErrorKind::FileTooLarge,
        log: "o1\nesf: write fault\ne  File too large\n",
        status: 3,
    },
    Case {
        words: "scan/%d/gone/box/one",
        terminal: false,
        watched: true,
        input: b"",
        writes: u64::MAX,
        failure: ErrorKind::Other,
        log: "esf: egonee: ecan't be opened\ne  No such file or directory\nesf: eboxe: erecord 1: read fault\ne  at \
              line 1, column 1 of the input\n  Is a directory\no3\n",
        status: 3,
    },
    Case {
        words: "scan/--lines/--explain/%d/box",
        terminal: false,
        watched: false,
        input: b"",
        writes: u64::MAX,
        failure: ErrorKind::Other,
        log: "esf: eboxe: eline 1: read fault\ne  Is a directory\n",
        status: 3,
    },
    // on a terminal nothing is said where nobody reads the output any more
    Case {
        words: "scan/%d",
        terminal: false,
        watched: true,
        input: b"1\n2\n3\n",
        writes: 0,
        failure: ErrorKind::BrokenPipe,
        log: "",
        status: 3,
    },
    Case {
        words: "scan/--no-explain/--line-buffered/%d",
        terminal: false,
        watched: true,
        input: b"1\n2\n3\n",
        writes: 1,
        failure: ErrorKind::BrokenPipe,
        log: "o1\n",
        status: 3,
    },
    // elsewhere that is a write fault as any other
    Case {
        words: "scan/--line-buffered/%d",
        terminal: false,
        watched: false,
        input: b"1\n2\n3\n",
        writes: 1,
        failure: ErrorKind::BrokenPipe,
        log: "o1\nesf: write fault\n",
        status: 3,
    },
];

/// What is read: the bytes of a slice, or a folder, of which each read fails.
#[derive(Drop)]
struct Page {
    text: SliceSource<'static>,
    is_folder: bool,
    reads: u64,
    failures: u64,
    error: Option<io::Error>,
    ghost known: { 0 < failures → IsSome error },
}

impl Page {
    fn new(text: &'static [u8], is_folder: bool) -> Page {
        Page {
            text: SliceSource::new(text),
            is_folder,
            reads: 0,
            failures: 0,
            error: None,
        }
    }

    fn unopened(kind: ErrorKind) -> Page
        ensures text { result.text.to_come ≡ [] }
        ensures error { IsSome result.error }
    {
        Page {
            text: SliceSource::new(&[]),
            is_folder: false,
            reads: 0,
            failures: 0,
            error: Some(io::Error::from(kind)),
        }
    }
}

impl Source for Page {
    ghost use Rattle.std.specs.Prelude.{Some};

    ghost to_come = { λ p. Some p.text.to_come };

    ghost reads = { λ p. p.reads };

    ghost failures = { λ p. p.failures };

    fn read(&mut self, buf: &mut [u8]) -> Result<usize, SourceFault> {
        self.reads = self.reads.saturating_add(1);
        if self.is_folder {
            self.error = Some(io::Error::from(ErrorKind::IsADirectory));
            self.failures = self.failures.saturating_add(1);
            return Err(SourceFault);
        }
        self.text.read(buf)
    }
}

impl LastError for Page {
    ghost last_error = { λ p. p.error };

    fn last_error(&self) -> Option<io::Error> {
        self.error
    }
}

/// Files, by their names.
#[derive(Drop)]
struct Shelf;

impl Opener<Page> for Shelf {
    ghost Opens = { λ before after name source is_open. Unit {0} };

    fn open(&mut self, name: &str) -> Opened<Page> {
        let source = match name {
            "two" => Page::new(b"1\n2", false),
            "one" => Page::new(b"3", false),
            "bad" => Page::new(b"x", false),
            "box" => Page::new(b"", true),
            _ => {
                return Opened {
                    source: Page::unopened(ErrorKind::NotFound),
                    is_open: false,
                };
            }
        };
        Opened {
            source,
            is_open: true,
        }
    }
}

fn run_case(rt: &impl Abort, alloc: Global, case: &Case) -> Result<(), Fail> {
    let words = words_of(alloc, case.words)?;
    let log = RefCell::new(Log {
        text: Vec::new(alloc),
        before_failures: case.writes,
        failure: case.failure,
    });
    let output = Stream {
        log: &log,
        letter: b'o',
    };
    let errors = Stream {
        log: &log,
        letter: b'e',
    };
    let mut from = Page::new(case.input, false);
    let terminals = Terminals {
        output: case.terminal,
        errors: case.watched,
    };
    let mut shelf = Shelf;
    let ended = run_program(
        alloc, &words, terminals, &mut from, &mut shelf, output, errors,
    );
    is(rt, &ended.status, &case.status, &case.words);
    let found = log.into_inner();
    is(
        rt,
        &found.text.as_slice(),
        &case.log.as_bytes(),
        &case.words,
    );
    Ok(())
}

#[test]
fn streams_in_order(rt: HostRuntime) -> Result<(), Fail> {
    for case in &CASES {
        run_case(&rt, rt.alloc(), case)?;
    }
    Ok(())
}
