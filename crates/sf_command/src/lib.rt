//! The command: what an order asks for, what it does and says, and how it ends.
#![tactic(auto)]

mod console;
pub mod entry;
mod jobs;
mod line_jobs;
mod notes;
mod reasons;

pub use entry::{
    ArgumentFault, CommandFault, FormatName, LastError, Opened, Opener, Terminals, ToolEnd,
    ToolFault, WordReading, print_values, print_words, run_program, run_scan, run_words, tool,
    tool_over,
};
