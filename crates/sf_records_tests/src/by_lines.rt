//! Tests of the loop over lines, for what the program `sf` doesn't show.

mod errors;
mod hands;
mod heads;
mod lines;
mod loops;
mod picks;
mod reading;
