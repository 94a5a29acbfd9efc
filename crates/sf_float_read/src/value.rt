//! What a conversion stores of a matching sequence: the pattern of the nearest float, or nothing where that is out of
//! range.

mod digits;
mod form;
mod hexadecimal;
pub mod laws;
mod nearest;
mod value;

pub use value::{decimal_value_f32, decimal_value_f64, value_f32, value_f64};
