//! Tests of `sf_arguments`, `sf_messages` and `sf_command`.
#![tactic(auto)]

#[cfg(test)]
mod commands;
#[cfg(test)]
mod faults;
#[cfg(test)]
mod left;
#[cfg(test)]
mod loops;
#[cfg(test)]
mod memory;
mod once;
#[cfg(test)]
mod places;
#[cfg(test)]
mod program;
#[cfg(test)]
mod shared;
#[cfg(test)]
mod values;

pub use once::said_once;
