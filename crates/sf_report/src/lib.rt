//! What a run of a scan format over an input is, and the report of what it came to.
#![tactic(auto)]

pub mod laws;
mod outcome;
mod report;

pub use outcome::{Ending, Outcome, Status};
pub use report::{Report, Scanned};
