//! Values, their kinds, and what keeps them.

pub use sf_base::{FixedStore, HeapStore, Kind, Store, StoreFull, Taken, Value};
