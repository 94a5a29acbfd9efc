//! Lists of rows by a pair of formats: written one after the other, and read back.

mod below;
mod fault;
mod reading;
mod writing;

pub use fault::{ReadRowsFault, WriteRowsFault};
pub use reading::read_rows;
pub use writing::write_rows;
