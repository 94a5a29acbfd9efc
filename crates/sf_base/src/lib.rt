//! Bytes in the C locale, sets of bytes, the values that a destination can hold, and the stores that keep them.
#![tactic(auto)]

mod byte_set;
mod bytes;
mod integers;
mod number;
mod pairs;
mod real;
mod rules;
mod runs;
mod stores;
mod taken;
mod values;

pub use byte_set::ByteSet;
pub use bytes::{digit_value, is_space, trimmed_end};
pub use integers::ScanInt;
pub use number::Number;
pub use pairs::pair_of;
pub use real::Real;
pub use rules::{Rule, first_fault};
pub use runs::{run_before, space_run, text_run};
pub use stores::{FixedStore, HeapStore, Store, StoreFull, push_each};
pub use taken::Taken;
pub use values::{Kind, Shown, Value};
