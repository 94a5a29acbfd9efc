//! What the tests of the libraries share: rows of examples, known from C and from the rules of docs/FORMATS.md, and the
//! comparison of what is found with what is wanted. Each table stands here once; each crate of tests drives it its own
//! way.
#![tactic(auto)]

mod binary_scans;
mod column_scans;
mod compare;
mod errors;
mod fault_rows;
mod group_scans;
mod item_rows;
mod limited_scans;
mod named;
mod number_scans;
mod pair_rows;
mod piece_rows;
mod print_rows;
mod quick_scans;
mod scan_rows;
mod strict_scans;
mod text_scans;
mod told;

pub use compare::{has_values, is};
pub use errors::{is_error, says};
pub use fault_rows::{FaultRow, print_faults, scan_faults};
pub use item_rows::{DecimalRow, Found, ItemRow, Reader, decimals, items};
pub use named::Named;
pub use pair_rows::{
    BoundRow, PairRow, RunIntoRow, TripRow, UnfitRow, bounds, pairs, run_into, trips, unfit,
};
pub use piece_rows::{PieceRow, pieces};
pub use print_rows::{PrintRow, RefusedPrint, prints, refused_prints};
pub use scan_rows::{LIMIT, ScanRow, c_returns, scans};
pub use told::{Met, Told};
