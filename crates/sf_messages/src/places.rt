//! Where in its input a source is.

mod place;
mod placed;

pub use place::Place;
pub use placed::{BLOCK_BYTES, Input, Placed};
