//! Lines of an input, read one by one, and what is scanned from each.

mod end;
mod formats;
mod in_place;
mod judge;
pub mod laws;
mod lines;
mod options;
mod teller;
mod turn;

pub use end::{LineFault, LinesEnd, LinesFault};
pub use formats::LineFormats;
pub use lines::run_lines;
pub use options::LinesOptions;
pub use sf_read::{LineRead, next_line};
pub use teller::Teller;
