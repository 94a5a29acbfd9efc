//! Records scanned from an input, one after the other or a line each, and what is written for each: its values in
//! one form, or its copy.
#![tactic(auto)]

pub mod by_lines;
mod copy;
mod copy_maker;
mod end;
mod in_place;
pub mod laws;
mod records;
mod scan;
mod turn;

pub use by_lines::{
    LineFault, LineFormats, LineRead, LinesEnd, LinesFault, LinesOptions, Teller, next_line,
    run_lines,
};
pub use copy::{run_copy, run_scan_print};
pub use copy_maker::CopyMaker;
pub use end::{ToolEnd, ToolFault};
pub use records::run_records;
pub use scan::{run_scan, run_scan_as};
pub use sf_forms::{FormWriter, OutputForm, RecordFault, push_quoted, push_record, write_whole};
