//! A writer and a teller for tests, and the loop over the lines of a text with them.
ghost use Rattle.std.specs.Prelude.{◌≡◌, ◌≤◌, Some, if◌then◌else◌, refl};
ghost use Rattle.sf_base.specs.Data.{datum_at};
ghost use Rattle.sf_records_tests.specs.by_lines.Hands.{bytes_in, first_of, letter_of, note_of, writing_first};

use sf_base::{Store, Value};
use sf_format::{Profile, ScanFormat};
use sf_forms::{Maker, Unwritten};
use sf_print::{ListSink, Sink};
use sf_read::{Lookahead, SliceSource};
use sf_records::{LineFault, LineFormats, LinesEnd, LinesOptions, Teller, run_lines, write_whole};
use sf_run::Report;
use std::alloc::{AllocError, Global};
use std::process::Abort;
use std::test::Fail;

/// What slot 1 was given, if that is a text.
fn first_text<'r, T: Store>(report: &Report<'r, T>) -> &'r [u8]
    ensures { result.now ≡ bytes_in (datum_at 1 report.now.values) }
{
    match report.value(1) {
        Some(Value::Text(text)) => text,
        _ => &[],
    }
}

/// Writes the text of slot 1, and a newline.
#[derive(Drop)]
pub(crate) struct FirstText {
    line: Vec<u8>,
}

impl FirstText {
    pub(crate) fn new(alloc: Global) -> FirstText {
        FirstText {
            line: Vec::new(alloc),
        }
    }
}

impl Maker for FirstText {
    ghost work = { λ maker number format. writing_first };

    fn write<K: Sink, T: Store>(
        &mut self,
        to: &mut K,
        _format: &ScanFormat,
        _number: usize,
        report: &Report<'_, T>,
    ) -> Result<(), Unwritten> {
        self.line.clear();
        if self.line.extend_from_slice(first_text(report)).is_err()
            || self.line.push(b'\n').is_err()
        {
            return Err(Unwritten::Memory);
        }
        match write_whole(to, &self.line) {
            Ok(()) => Ok(()),
            Err(_) => Err(Unwritten::Write),
        }
    }

    ghost unmet = { λ maker number format report met. record { fits = refl; text = refl } };
}

fn letter(fault: LineFault) -> u8
    ensures { result ≡ letter_of fault }
{
    match fault {
        LineFault::Failed { .. } => b'm',
        LineFault::LeftOver { .. } => b'l',
        LineFault::TooLong => b't',
        LineFault::Unfit => b'u',
    }
}

/// The first byte, or a hyphen.
fn first_byte(line: &[u8]) -> u8
    ensures { result ≡ first_of line.now }
{
    match line {
        [] => b'-',
        [b, ..] => *b,
    }
}

/// Notes the last digit of each line's number, a letter for why it doesn't match, and its first byte; or it is refused
/// memory.
#[derive(Drop)]
pub(crate) struct Notes {
    pub(crate) said: Vec<u8>,
    failed: bool,
    refuses: bool,
}

impl Notes {
    /// Of no line so far.
    pub(crate) fn new(alloc: Global, refuses: bool) -> Notes {
        Notes {
            said: Vec::new(alloc),
            failed: false,
            refuses,
        }
    }
}

impl<K: Sink> Teller<K> for Notes {
    ghost says = { λ notes telling. telling ≡ note_of };

    ghost some = { λ notes. ∣ (note_of, refl) ∣₁ };

    ghost told = { λ notes. Some notes.said.items };

    ghost failed = { λ notes. notes.failed };

    ghost faults = { λ notes. if notes.failed then 1 else 0 };

    ghost kept = { λ notes. tt };

    fn tell(
        &mut self,
        _to: &mut K,
        number: u64,
        line: &[u8],
        fault: LineFault,
    ) -> Result<(), AllocError> {
        if self.failed {
            return Ok(());
        }
        if self.refuses {
            return Err(AllocError);
        }
        let note = [b'0' + (number % 10) as u8, letter(fault), first_byte(line)];
        if self.said.extend_from_slice(&note).is_err() {
            self.failed = true;
        }
        Ok(())
    }
}

/// The formats of the texts.
pub(crate) fn parsed(alloc: Global, texts: &[&str]) -> Result<Vec<ScanFormat>, Fail> {
    let mut formats = Vec::new(alloc);
    for text in texts {
        let format = ScanFormat::parse(alloc, Profile::One, text.as_bytes())?;
        formats.push(format)?;
    }
    Ok(formats)
}

/// What a loop over lines wrote, told and answered.
#[derive(Drop)]
pub(crate) struct Found {
    pub(crate) to: ListSink,
    pub(crate) teller: Notes,
    pub(crate) end: LinesEnd,
}

/// The loop over the lines of a text, read by blocks of N bytes, with this maker. At least one format is tried.
pub(crate) fn run<M: Maker, const N: usize>(
    alloc: Global,
    text: &[u8],
    maker: &mut M,
    formats: &LineFormats<'_>,
    options: LinesOptions,
) -> Result<Found, Fail>
    requires few { N ≤ 4096 }
    requires some { 1 ≤ N }
{
    if formats.tried.is_empty() || options.limit > 2147483647 {
        return Err(Fail::new("no format, or a limit too great"));
    }
    let mut from = Lookahead::<SliceSource<'_>, N>::new(SliceSource::new(text));
    let mut to = ListSink::new(alloc);
    let mut teller = Notes::new(alloc, false);
    let end = run_lines(
        alloc,
        &mut from,
        &mut to,
        maker,
        &mut teller,
        formats,
        options,
    );
    Ok(Found { to, teller, end })
}

/// What a loop over lines is to write, to tell and to answer.
#[derive(Clone, Copy)]
pub(crate) struct Wanted {
    pub(crate) output: &'static str,
    pub(crate) told: &'static str,
    pub(crate) end: LinesEnd,
}

/// The loop comes to what is wanted.
pub(crate) fn is_ended(
    rt: &impl Abort,
    output: &[u8],
    told: &[u8],
    end: LinesEnd,
    wanted: &Wanted,
) {
    let place = wanted.output;
    assert!(rt; output == wanted.output.as_bytes(), "{place}");
    assert!(rt; told == wanted.told.as_bytes(), "{place}");
    assert_eq!(rt; end, wanted.end, "{place}");
}

/// The loop wrote and told this, and so many lines were written, and failed.
pub(crate) fn is_found(
    rt: &impl Abort,
    found: &Found,
    output: &'static str,
    told: &'static str,
    (written, failed): (u64, u64),
) {
    let end = LinesEnd {
        status: u8::from(failed > 0),
        written,
        failed,
        fault: None,
    };
    let wanted = Wanted { output, told, end };
    is_ended(rt, found.to.bytes(), &found.teller.said, found.end, &wanted);
}
