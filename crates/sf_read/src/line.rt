//! Lines: what a line of an input is, and the reading of one.

pub mod laws;
mod line;

pub use line::{LineRead, held_line, next_line, read_front};
