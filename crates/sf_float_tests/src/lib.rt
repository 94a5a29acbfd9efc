//! Tests of `sf_float` and `sf_float_read`, by examples of C11 and what glibc answers.
#![tactic(auto)]

mod items;
mod printed;
mod short;
#[cfg(test)]
mod shortest;
#[cfg(test)]
mod texts;
#[cfg(test)]
mod values;
#[cfg(test)]
mod written;

pub use items::{decimal_pattern_of, is_in_parts, pattern_of, taken_of};
pub use printed::{general_of, hexadecimal_of, only_text, plain_of, scientific_of};
pub use short::{share_text, short_f32, short_f64, shortest_of};
