//! Runs of scan formats over bytes that are handed in.
#![tactic(auto)]

mod directive;
mod feeding;
pub mod laws;
mod number;
mod quick;
mod scanner;
mod tally;
mod written;

pub use feeding::{Fed, FeedState, StartFault};
pub use quick::{quick_run, quick_run_into, sure_run};
pub use scanner::{MOST_BYTES, Scanner};
pub use sf_report::{Ending, Outcome, Report, Scanned, Status};
pub use written::{ValueWriter, WrittenRuns, is_in_order, write_runs};
