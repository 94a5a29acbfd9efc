//! Sinks over the streams of a program: one that hands its bytes on in blocks, for many short texts, and one that
//! doesn't.

mod block_sink;
mod unblocked;
mod writing;

pub use block_sink::BlockSink;
pub use unblocked::Unblocked;
