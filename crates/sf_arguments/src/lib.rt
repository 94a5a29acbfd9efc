//! Words as values: their escapes, the value that each stands for where a conversion prints it, and a print of them;
//! and the scan format that reads a print format back.
#![tactic(auto)]

mod answer;
mod argument;
mod argument_fault;
mod escape;
pub mod laws;
mod names;
mod print;
mod word_reading;

pub use answer::{NoScanText, escaped, scan_part, scan_text};
pub use argument_fault::ArgumentFault;
pub use escape::{EscapeFault, unescape};
pub use names::kind_text;
pub use print::{print_values, print_words};
pub use word_reading::WordReading;
