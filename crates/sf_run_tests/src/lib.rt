//! Tests of `sf_item` and `sf_run`.
#![tactic(auto)]

#[cfg(test)]
mod columns;
#[cfg(test)]
mod digits;
#[cfg(test)]
mod items;
#[cfg(test)]
mod pieces;
#[cfg(test)]
mod quick;
#[cfg(test)]
mod rows;
#[cfg(test)]
mod runs;
#[cfg(test)]
mod starts;
#[cfg(test)]
mod stores;
#[cfg(test)]
mod texts;
#[cfg(test)]
mod written;
