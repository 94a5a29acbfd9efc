//! What an order of records does, and what the words of an order stand for: its formats, its names, and how it writes.

mod check;
mod command;
mod copy;
mod copy_formats;
mod formats;
mod heads;
mod job;
mod job_of_lines;
mod scan_names;
mod scan_print;
mod writing;

pub use check::verdict_of;
pub use command::{carry_out, form_of, grammar_of, run};
pub use copy_formats::{CopyFormats, prepare_copies};
pub use formats::{RefusedWord, ScanText};
pub use heads::{header_fault, is_headed, named_maker, names_text, write_header};
pub use job::{Job, prepare};
pub use job_of_lines::{LinesJob, ScanFormats, lines_job};
pub use writing::Writing;
