//! Scans and copies line by line, each with what is said of the lines that are no match.

mod copies;
mod lines;

pub use copies::copy_by_formats;
pub use lines::{notes_of_lines, scan_lines};
