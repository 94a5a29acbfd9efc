//! Laws of runs and of scanners.
ghost use Rattle.sf_run.specs.Laws.{EachStoreReportsAlike};

pub use sf_report::laws::{
    bytes_are_tried, closed_inputs_stay, done_runs_have_rows, done_runs_stay, early_runs_stay,
    one_report, open_inputs_are_used, runs_are_computed, steps_are_computed,
};

/// Scanners over two stores that refused no storing report the same of the same input.
pub fn stores_report_alike()
    ensures { EachStoreReportsAlike }
{}
