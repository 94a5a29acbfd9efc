//! The scan format that reads back what a print format prints.

mod answer;
mod escape;
mod parts;

pub use answer::{NoScanText, scan_part, scan_text};
pub use escape::escaped;
