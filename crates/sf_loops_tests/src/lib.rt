//! Tests of the loops: rows, lines and lists of rows in blocks of several sizes, reads that fail, and what faults say.
//! Each expected value is what fscanf returns and stores (C11 7.21.6.2), record by record or line by line.
#![tactic(auto)]

#[cfg(test)]
mod answers;
mod in_turn;
#[cfg(test)]
mod lines;
#[cfg(test)]
mod missing;
#[cfg(test)]
mod over;
#[cfg(test)]
mod pairs;
#[cfg(test)]
mod reasons;
#[cfg(test)]
mod records;

pub use in_turn::{only_line, two_lines, two_read, two_records};
