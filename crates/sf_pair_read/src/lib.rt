//! Reading by a pair of a print format and a scan format: one row, or a list of rows that was written by it.
#![tactic(auto)]

mod below;
mod reading;
mod rows;

pub use reading::{read_back, read_back_fixed, read_back_over};
pub use rows::{ReadRowsFault, WriteRowsFault, read_rows, write_rows};
