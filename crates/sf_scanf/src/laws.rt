//! Laws of loops, for a program that proves something of its own about one: a call of a law gives a proof its clause.

pub use sf_loops::laws::{
    answers_are_lines, answers_are_records, none_is_the_end, reads_are_records, records_are_counted,
};
