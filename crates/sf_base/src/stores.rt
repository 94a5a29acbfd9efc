//! What the values of a scan are kept in: the trait `Store`, a store on the heap, and one of fixed size that takes no
//! memory.

mod buffer;
mod entries;
mod fixed_store;
mod heap_store;
mod store;

pub use fixed_store::FixedStore;
pub use heap_store::HeapStore;
pub use store::{Store, StoreFull, push_each};
