//! Loops of a program over an input: its records, or its lines, one after the other, as rows of the program's own or as
//! reports.
#![tactic(auto)]

mod at_once;
mod fault;
mod held;
mod items;
pub mod laws;
mod line_fault;
mod line_reports;
mod lines;
mod newlines;
mod records;
mod reports;
mod shown;
mod turn;

pub use fault::{RecordFault, RecordWhy};
pub use items::{LineItems, RecordItems};
pub use line_fault::{LineFault, LineWhy};
pub use line_reports::LineReports;
pub use lines::Lines;
pub use records::Records;
pub use reports::Reports;
