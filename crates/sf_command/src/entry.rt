//! The command `sf` as a library: its words carried out, its files, and the program over its streams.

mod files;
mod hints;
mod invocation;
pub mod laws;
mod loans;
mod program;

pub use crate::jobs::carry_out;
pub use crate::reasons::LastError;
pub use files::{Opened, Opener};
pub use invocation::{run_words, tool, tool_over};
pub use program::{Ended, Terminals, run_program};
pub use sf_arguments::{ArgumentFault, WordReading, print_values, print_words};
pub use sf_messages::{CommandFault, FormatName};
pub use sf_records::{ToolEnd, ToolFault, run_copy, run_scan};
pub use sf_words::{LineOptions, Notes, Order, Output, Profile, Verb, WordsFault, read_words};
