//! What a command says: how formats are shown, why it ends, where in the input, and what is said after that.
#![tactic(auto)]

mod columns;
mod facing;
mod fault;
mod mistakes;
mod names;
mod newlines;
mod notes;
mod places;
mod sentences;
mod shown;
mod strict;
mod wording;

pub use fault::{CommandFault, FormatName, format_fault, print_format_fault};
pub use notes::{
    alone_notes, escape_notes, failed_notes, format_notes, input_notes, line_notes, mismatch_notes,
    name_count_notes, pair_notes, stalled_notes, value_notes,
};
pub use places::{BLOCK_BYTES, Input, Place, Placed};
pub use sf_arguments::ArgumentFault;
pub use shown::{push_directive, show};
pub use wording::{ErrorLine, error_line, joined, line_fault_line, name_twice_line};
