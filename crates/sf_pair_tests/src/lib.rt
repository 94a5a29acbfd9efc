//! Tests of `sf_pair`, for what the program `sf` doesn't show.
#![tactic(auto)]

#[cfg(test)]
mod bounds;
#[cfg(test)]
mod columns;
#[cfg(test)]
mod doubles;
#[cfg(test)]
mod errors;
#[cfg(test)]
mod lengths;
#[cfg(test)]
mod shared;
#[cfg(test)]
mod strict;
#[cfg(test)]
mod trips;
#[cfg(test)]
mod unfit;
