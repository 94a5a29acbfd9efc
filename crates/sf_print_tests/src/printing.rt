//! What a print answers and leaves in a sink, compared with the text that is wanted.
use sf_base::Value;
use sf_format::PrintFormat;
use sf_print::{ListSink, PrintFault, ScriptSink, WriteStep, fprint, printed_len};
use sf_rows::is;
use std::alloc::Global;
use std::test::Fail;

/// How many bytes were written, of all (Ok) or before the sink failed (Err); None where the values were refused.
fn written(printed: Result<u32, PrintFault>) -> Option<Result<usize, usize>> {
    match printed {
        Ok(count) => Some(Ok(count as usize)),
        Err(PrintFault::Sink { written }) => Some(Err(written as usize)),
        Err(_) => None,
    }
}

/// The values are printed so, and so long.
pub fn prints(
    alloc: Global,
    format: &PrintFormat,
    values: &[Value<'_>],
    text: &[u8],
) -> Result<(), Fail> {
    let mut sink = ListSink::new(alloc);
    let wanted = Some(Ok(text.len()));
    let found = [
        written(fprint(&mut sink, format, values)),
        written(printed_len(format, values)),
    ];
    is(&(found, sink.bytes()), &([wanted, wanted], text), &text)
}

/// A sink of these steps takes so many bytes of the printed text and fails, or takes the whole text.
pub fn prints_in_part(
    alloc: Global,
    format: &PrintFormat,
    values: &[Value<'_>],
    text: &[u8],
    steps: &[WriteStep],
    taken: usize,
) -> Result<(), Fail> {
    let mut sink = ScriptSink::new(alloc, steps);
    let found = written(fprint(&mut sink, format, values));
    let front = text.get(..taken).unwrap_or(text);
    let wanted = if front.len() < text.len() {
        Err(front.len())
    } else {
        Ok(front.len())
    };
    is(
        &(found, sink.bytes()),
        &(Some(wanted), front),
        &(text, taken),
    )
}
