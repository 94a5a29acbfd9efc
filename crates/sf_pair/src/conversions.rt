//! The texts of a pair's conversions: what one may begin with, what an item would run on into, how long it is.

mod below;
mod neighbours;
mod reals;
mod widths;

pub use below::laws_below;
pub use neighbours::{
    fills_with_zeros, goes_on, has_digit, is_auto_base, may_begin, pads_with_zeros,
};
pub use reals::zero_len;
pub use widths::longest_len;
