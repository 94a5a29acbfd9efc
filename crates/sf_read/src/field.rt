//! Rows, and the types that their slots may have.

mod field;
mod long_tuples;
mod rows;
mod tuples;

pub use field::Field;
pub use rows::{GivenRow, Row, RowFault};
