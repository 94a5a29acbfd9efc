//! The input item of one conversion, byte by byte: which bytes it takes, and what they are.
#![tactic(auto)]

mod column;
mod digits;
mod eight;
mod eight_hex;
mod integer;
mod item;
pub mod laws;
mod radices;
mod reached;
mod reading;
mod whole;

pub use column::{ColumnScan, ColumnTaken};
pub use item::{ItemEnd, ItemScan, Step};
pub use radices::{Radices, prefix_radix, radices_of};
pub use whole::{
    WholeInteger, characters_item, decimal_within, hex_within, members_item, text_item,
    unprefixed_within, until_item, whole_decimal, whole_hex, whole_unprefixed,
};
