//! What is written of a report: its record in a form, its print, or what another maker makes of it.

mod form;
mod maker;
mod names;
mod print;
mod printable;
mod rows;

pub use form::FormMaker;
pub use maker::{Maker, Unwritten};
pub use names::{Names, NamesFault};
pub use print::PrintMaker;
pub use printable::{PrintMismatch, check_print};
pub use rows::{FEW_VALUES, MOST_VALUES, row, shown_row};
