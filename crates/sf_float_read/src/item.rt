//! The input items of the floating-point conversions, byte by byte.

mod decimal;
mod digits;
pub mod laws;
mod reached;
mod scan;

pub use decimal::{Decimal, numeral_within};
pub use reached::{Forms, Radix, Reached};
pub use scan::{FloatScan, is_float};
