//! Tests of `sf_base`, `sf_format` and `sf_print`.
#![tactic(auto)]

#[cfg(test)]
mod blocks;
#[cfg(test)]
mod byte_sets;
#[cfg(test)]
mod bytes;
#[cfg(test)]
mod decimals;
#[cfg(test)]
mod errors;
#[cfg(test)]
mod float_prints;
#[cfg(test)]
mod floats;
#[cfg(test)]
mod formats;
#[cfg(test)]
mod in_place;
#[cfg(test)]
mod kinds;
#[cfg(test)]
mod lengths;
#[cfg(test)]
mod printing;
#[cfg(test)]
mod prints;
#[cfg(test)]
mod sinks;
#[cfg(test)]
mod stores;
