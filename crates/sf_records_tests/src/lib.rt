//! Tests of `sf_records`, for what the program `sf` doesn't show: records in each form, and copies by a pair.
#![tactic(auto)]

#[cfg(test)]
mod between;
#[cfg(test)]
mod by_lines;
pub mod copied;
#[cfg(test)]
mod copies;
#[cfg(test)]
mod devices;
#[cfg(test)]
mod errors;
#[cfg(test)]
mod forms;
pub mod lines_again;
pub mod lines_copied;
#[cfg(test)]
mod memory;
pub mod named;
#[cfg(test)]
mod numbers;
#[cfg(test)]
mod prints;
#[cfg(test)]
mod random;
#[cfg(test)]
mod read_again;
pub mod reading_back;
pub mod shown;
pub mod silent;
#[cfg(test)]
mod texts;
