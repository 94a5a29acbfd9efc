//! Why an input or an output failed: the words of the system for it, and when they are said.

mod faults;
mod last_error;
mod words;

pub use faults::{
    file_of, is_of_input, is_read_fault, is_unheard, is_unsaid, reason_alone, reason_of,
    with_reason,
};
pub use last_error::LastError;
pub use words::reason_notes;
