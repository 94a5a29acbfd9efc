//! The line on the error output. It is made without memory, so that want of memory can be reported.
ghost use Rattle.std.specs.Prelude.{◌≡◌, ◌≤◌, ◌+◌, ◌++◌, ◌∷◌, [], IfOk, codes, length};
ghost use Rattle.std.specs.Fmt.{decimal};
ghost use Rattle.sf_run.specs.Wording.{outcome_text};
ghost use Rattle.sf_arguments.specs.Texts.{argument_fault_text};
ghost use Rattle.sf_messages.specs.Texts.{command_fault_text, error_line, expected_text, format_fault_text};
ghost use Rattle.sf_messages.specs.Texts.{mismatch_text, name_twice_line, record_text};
ghost use Rattle.sf_messages.specs.Joined.{joined};
ghost use Rattle.sf_messages.specs.LineTexts.{line_fault_text};

use crate::fault::{CommandFault, FormatName};
use crate::names::name_text;
use arrayvec::ArrayString;
use itoa::Buffer;
use sf_arguments::{ArgumentFault, kind_text};
use sf_base::Kind;
use sf_format::FormatWhy;
use sf_forms::PrintMismatch;
use sf_pair::PairWhy;
use sf_records::{LineFault, LinesFault, ToolFault};
use sf_run::Outcome;
use std::alloc::{AllocError, Global};

/// The most bytes of a line, with its newline.
const LINE_BYTES: usize = 128;

/// A line with its newline.
pub type ErrorLine = ArrayString<LINE_BYTES>;

/// The texts one after the other.
pub fn joined(texts: &[&str]) -> ErrorLine
    requires { length (joined texts.now) ≤ 128 }
    ensures { result.bytes ≡ joined texts.now }
{
    let mut line = ErrorLine::new();
    for text in texts {
        line.push_str(text);
    }
    line
}

/// The line of a number between two texts.
fn number_line(front: &str, number: u64, back: &str) -> ErrorLine
    requires { length front.now + length back.now ≤ 64 }
    ensures { result.bytes ≡ (front.now ++ (decimal number ++ back.now)) ++ 10 ∷ [] }
{
    let mut place = Buffer::new();
    let place = place.format(number);
    joined(&[front, place, back, "\n"])
}

/// The line of a text and a number, twice.
fn two_number_line(front: &str, first: u64, between: &str, second: u64) -> ErrorLine
    requires { length front.now + length between.now ≤ 64 }
    ensures { result.bytes ≡ (front.now ++ (decimal first ++ (between.now ++ decimal second))) ++ 10 ∷ [] }
{
    let mut one = Buffer::new();
    let mut other = Buffer::new();
    let one = one.format(first);
    let other = other.format(second);
    joined(&[front, one, between, other, "\n"])
}

/// The line of a bad escape.
fn bad_escape_line(name: FormatName, at: usize) -> ErrorLine
    ensures { result.bytes ≡ command_fault_text (CommandFault.BadEscape name at) ++ 10 ∷ [] }
{
    let mut number = Buffer::new();
    let number = number.format(at);
    joined(&["sf: ", name_text(name), ": bad escape at ", number, "\n"])
}

/// The line of a format's fault.
fn format_line(name: FormatName, why: FormatWhy, at: u16) -> ErrorLine
    ensures { result.bytes ≡ format_fault_text name why at ++ 10 ∷ [] }
{
    let mut number = Buffer::new();
    let number = number.format(at);
    joined(&[
        "sf: ",
        name_text(name),
        ": ",
        why.text(),
        " at ",
        number,
        "\n",
    ])
}

/// The line of a value that isn't what was expected.
fn value_line(at: u8, expected: &str) -> ErrorLine
    requires { length expected.now ≤ 8 }
    ensures { result.bytes ≡ expected_text at expected.now ++ 10 ∷ [] }
{
    let mut number = Buffer::new();
    let number = number.format(at);
    joined(&["sf: value ", number, ": expected ", expected, "\n"])
}

/// The line of why words were not printed.
fn argument_line(fault: ArgumentFault) -> ErrorLine
    ensures { result.bytes ≡ argument_fault_text fault ++ 10 ∷ [] }
{
    match fault {
        ArgumentFault::WrongCount { expected, got } => {
            two_number_line(
                "sf: expected ",
                expected as u64,
                " values, got ",
                got as u64,
            )
        }
        ArgumentFault::BadEscape { at, offset } => {
            two_number_line("sf: value ", at as u64, ": bad escape at ", offset as u64)
        }
        ArgumentFault::NotInKind { at, kind } => value_line(at, kind_text(kind)),
        ArgumentFault::NotOneByte { at } => value_line(at, "one byte"),
        ArgumentFault::TooLong => joined(&["sf: text too long\n"]),
        ArgumentFault::Write => joined(&["sf: write fault\n"]),
        ArgumentFault::Memory => joined(&["sf: out of memory\n"]),
    }
}

/// The line of a run that is no match: what it is a run of, its number, and what it came to.
fn outcome_line(of: &'static str, number: u64, outcome: Outcome) -> ErrorLine
    requires { length of.now ≤ 8 }
    ensures { result.bytes ≡ codes "sf: " ++ (of.now ++ (decimal number ++ (codes ": " ++ outcome_text outcome))) ++ 10
        ∷ [] }
{
    let mut place = Buffer::new();
    let mut at = Buffer::new();
    let mut used = Buffer::new();
    let mut assigned = Buffer::new();
    let place = place.format(number);
    let at = at.format(outcome.at);
    let used = used.format(outcome.used);
    let assigned = assigned.format(outcome.assigned);
    let status = outcome.status.text();
    joined(&[
        "sf: ",
        of,
        place,
        ": ",
        status,
        " at ",
        at,
        ", used ",
        used,
        ", assigned ",
        assigned,
        "\n",
    ])
}

/// The line of a record that is no match.
fn failed_line(number: u32, outcome: Outcome) -> ErrorLine
    ensures { result.bytes ≡ command_fault_text (CommandFault.Record (ToolFault.Failed number outcome)) ++ 10 ∷ [] }
{
    outcome_line("record ", u64::from(number), outcome)
}

/// The line of a record at which the records stop.
fn record_line(place: u32, why: &str) -> ErrorLine
    requires { length why.now ≤ 32 }
    ensures { result.bytes ≡ record_text place why.now ++ 10 ∷ [] }
{
    let mut number = Buffer::new();
    let number = number.format(place);
    joined(&["sf: record ", number, ": ", why, "\n"])
}

/// The line of why the records stopped.
fn records_line(fault: ToolFault) -> ErrorLine
    ensures { result.bytes ≡ command_fault_text (CommandFault.Record fault) ++ 10 ∷ [] }
{
    match fault {
        ToolFault::Failed { number, outcome } => failed_line(number, outcome),
        ToolFault::Stalled { number } => record_line(number, "stalled"),
        ToolFault::Unfit { number } => record_line(number, "values do not fit"),
        ToolFault::Read { number } => record_line(number, "read fault"),
        ToolFault::TooMany => joined(&["sf: too many records\n"]),
        ToolFault::Write => joined(&["sf: write fault\n"]),
        ToolFault::Memory => joined(&["sf: out of memory\n"]),
    }
}

/// The line of why the lines of an input stopped.
fn lines_line(fault: LinesFault) -> ErrorLine
    ensures { result.bytes ≡ command_fault_text (CommandFault.Lines fault) ++ 10 ∷ [] }
{
    match fault {
        LinesFault::Read { line } => number_line("sf: line ", line, ": read fault"),
        LinesFault::Write => joined(&["sf: write fault\n"]),
        LinesFault::Memory => joined(&["sf: out of memory\n"]),
        LinesFault::TooMany => joined(&["sf: too many lines\n"]),
    }
}

/// The line on the error output for a line of the input that fails, with its newline. Lines are counted from 1.
pub fn line_fault_line(number: u64, fault: LineFault) -> ErrorLine
    ensures { result.bytes ≡ line_fault_text number fault ++ 10 ∷ [] }
{
    match fault {
        LineFault::Failed { outcome } => outcome_line("line ", number, outcome),
        LineFault::LeftOver { at } => {
            two_number_line("sf: line ", number, ": left over at ", at as u64)
        }
        LineFault::TooLong => number_line("sf: line ", number, ": too long"),
        LineFault::Unfit => number_line("sf: line ", number, ": values do not fit"),
    }
}

/// The line of a value of which a print format has another kind than a scan format.
fn kinds_line(slot: u8, print: Kind, scan: Kind) -> ErrorLine
    ensures { result.bytes ≡ mismatch_text (PrintMismatch.Kinds slot print scan) ++ 10 ∷ [] }
{
    let mut number = Buffer::new();
    let number = number.format(slot);
    let print = kind_text(print);
    let scan = kind_text(scan);
    joined(&[
        "sf: print format: value ",
        number,
        " is ",
        print,
        ", the scan format gives ",
        scan,
        "\n",
    ])
}

/// The line of a print format that can't print what a scan format gives.
fn mismatch_line(mismatch: PrintMismatch) -> ErrorLine
    ensures { result.bytes ≡ command_fault_text (CommandFault.Unprintable mismatch) ++ 10 ∷ [] }
{
    match mismatch {
        PrintMismatch::Count {
            values,
            destinations,
        } => two_number_line(
            "sf: print format: ",
            values as u64,
            " values, the scan format gives ",
            destinations as u64,
        ),
        PrintMismatch::Kinds { slot, print, scan } => kinds_line(slot, print, scan),
    }
}

/// The line of a name that stands twice, with its newline: `sf: names: a stands twice`. Err where memory was refused:
/// then `error_line` has a line with the name's number in its place.
pub fn name_twice_line(alloc: Global, name: &str) -> Result<Vec<u8>, AllocError>
    ensures { IfOk result (λ line. line.items ≡ name_twice_line name.now) }
{
    let mut line = Vec::new(alloc);
    line.extend_from_slice(b"sf: names: ")?;
    line.extend_from_slice(name.as_bytes())?;
    line.extend_from_slice(b" stands twice\n")?;
    Ok(line)
}

/// The line of formats that are no pair.
fn pair_line(why: PairWhy, at: u16) -> ErrorLine
    ensures { result.bytes ≡ command_fault_text (CommandFault.Pair (record { at = at; why = why })) ++ 10 ∷ [] }
{
    let mut number = Buffer::new();
    let number = number.format(at);
    joined(&["sf: pair: ", why.text(), " at ", number, "\n"])
}

/// The line on the error output, with its newline.
pub fn error_line(fault: CommandFault) -> ErrorLine
    ensures { result.bytes ≡ error_line fault }
{
    match fault {
        CommandFault::BadEscape { name, at } => bad_escape_line(name, at),
        CommandFault::Format(fault) => format_line(FormatName::Scan, fault.why, fault.at),
        CommandFault::PrintFormat(fault) => format_line(FormatName::Print, fault.why, fault.at),
        CommandFault::Values(fault) => argument_line(fault),
        CommandFault::Record(fault) => records_line(fault),
        CommandFault::Lines(fault) => lines_line(fault),
        CommandFault::Write => joined(&["sf: write fault\n"]),
        CommandFault::Memory => joined(&["sf: out of memory\n"]),
        CommandFault::Pair(fault) => pair_line(fault.why, fault.at),
        CommandFault::Unprintable(mismatch) => mismatch_line(mismatch),
        CommandFault::NameCount { expected, got } => {
            two_number_line(
                "sf: names: expected ",
                expected as u64,
                ", got ",
                got as u64,
            )
        }
        CommandFault::NameEmpty { number } => {
            number_line("sf: names: name ", number as u64, " is empty")
        }
        CommandFault::NameTwice { number } => {
            number_line("sf: names: name ", number as u64, " stands twice")
        }
    }
}
