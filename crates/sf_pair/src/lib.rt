//! Pairs of a print format and a scan format that reads back what it prints.
#![tactic(auto)]

mod as_shown;
mod columns;
mod conversions;
mod doubles;
mod fault;
mod fitting;
mod in_place;
pub mod laws;
mod pair;
mod pairing;
mod quick;
mod walk;

pub use as_shown::AsShown;
pub use conversions::longest_len;
pub use fault::{PairFault, PairWhy, WriteFault};
pub use pair::Pair;
