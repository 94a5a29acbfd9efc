//! What a call answers.
use sf_base::{HeapStore, Value};
use sf_format::FormatFault;
use sf_pair::WriteFault;
use sf_print::PrintFault;
use sf_read::ScanRowFault;
use sf_records::ToolEnd;
use sf_run::{Outcome, Scanned, StartFault};

#[derive(Debug, Drop)]
pub enum Answer {
    /// What the call stands on was refused.
    NotReached,
    /// How many directives a format has.
    Parsed(Result<usize, FormatFault>),
    Started(Result<(), StartFault>),
    /// How the run ended, and the length of the first slot's text.
    Scanned(Result<(Outcome, Option<usize>), StartFault>),
    /// The number and the name's length of a row.
    Row(Result<(i32, usize), ScanRowFault>),
    /// How many bytes the sink has then, and whether they are the first ones of the text.
    Printed(Result<u32, PrintFault>, usize, bool),
    Written(Result<u32, WriteFault>, usize, bool),
    /// How many bytes were written, and whether they are the first ones of the output.
    Ended(ToolEnd, usize, bool),
}

/// What a run told.
pub fn told(scanned: &Scanned<HeapStore>) -> Answer {
    let report = scanned.report();
    let length = match report.value(1) {
        Some(Value::Text(text)) => Some(text.len()),
        _ => None,
    };
    Answer::Scanned(Ok((report.outcome(), length)))
}
