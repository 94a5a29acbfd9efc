//! Sinks: where printed bytes go.

mod list_sink;
mod script_sink;
mod sink;
mod std_sink;

pub use list_sink::ListSink;
pub use script_sink::{ScriptSink, WriteStep};
pub use sink::{Sink, SinkFault, TextInPlace, WritesInPlace};
pub use std_sink::StdSink;
