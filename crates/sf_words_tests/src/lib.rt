//! Tests of `sf_words`.
#![tactic(auto)]

#[cfg(test)]
mod faults;
#[cfg(test)]
mod orders;
