//! What is said after the line of a fault, where more is asked for.

mod explain;

pub use explain::{
    Left, known_spans, more_of_line, notes_of_copies, notes_of_job, notes_of_refused,
};
