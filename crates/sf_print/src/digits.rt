//! The digits of numbers: decimal ones, two and three at a time, and those of any base.

mod copies;
mod decimal;
pub mod laws;
mod numeral;
mod triples;

pub use copies::copy_over;
pub use decimal::{decimal_len, push_number, write_decimal, write_number};
pub use numeral::write_digits;
