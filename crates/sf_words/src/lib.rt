//! The words of the command `sf`, as `clap` reads them.
#![tactic(auto)]

mod help;
mod hyphens;
pub mod laws;
mod line;
mod misuse;
mod numbers;
mod options;
mod order;
mod tips;
mod words;

pub use order::{LineOptions, Notes, Order, Output, Profile, Verb, WordsFault};
pub use words::read_words;
