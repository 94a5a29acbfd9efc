//! Floating-point numbers of an input: the input item of a conversion, and the value that it stores.
#![tactic(auto)]

pub mod item;
pub mod value;

pub use item::{Decimal, FloatScan, Forms, is_float, numeral_within};
pub use value::{decimal_value_f32, decimal_value_f64, value_f32, value_f64};
