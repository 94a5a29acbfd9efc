//! Values printed by a format, over any sink: their digits and texts, the sinks, and a block before a writer.
#![tactic(auto)]

mod blocks;
pub mod digits;
mod fault;
mod given;
mod handing;
mod in_place;
mod judging;
pub mod laws;
mod piece;
mod print;
mod sink;
mod stage;
mod texts;

pub use blocks::{BlockSink, Unblocked};
pub use digits::{copy_over, push_number, write_number};
pub use fault::PrintFault;
pub use given::fprint_given;
pub use handing::write_text;
pub use in_place::{
    Printables, write_byte, write_integer, write_plain_bytes, write_printed, write_value,
    write_visible,
};
pub use judging::value_of_slot;
pub use print::{fprint, printed_len};
pub use sink::{
    ListSink, ScriptSink, Sink, SinkFault, StdSink, TextInPlace, WriteStep, WritesInPlace,
};
pub use texts::{core_len, least_len, visible_bytes, visible_len};
