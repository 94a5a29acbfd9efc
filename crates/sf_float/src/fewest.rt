//! The text of a float: the shortest digits that are read as it in its kind, of several the nearest to it.

mod cut;
mod fives;
mod laid;
pub mod laws;
mod text;
mod trial;

pub use laid::ROOM;
pub use text::write_shortest;
