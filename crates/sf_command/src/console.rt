//! The output and the error output of a command: messages, what waits in the output before them, and how it ends.

mod console;
mod ends;
mod error_output;
mod fronts;
mod reasons;

pub use console::{Apart, Console, InOrder};
pub use ends::{end, end_order, exit_of};
pub use error_output::{say, tell, write_told};
pub use fronts::file_name;
pub use reasons::{Lent, Reasons, end_known};
