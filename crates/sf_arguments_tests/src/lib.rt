//! Tests of the scan format that `sf_arguments` answers, and of the widths of `sf_pair`.
#![tactic(auto)]

#[cfg(test)]
mod answers;
#[cfg(test)]
mod compare;
#[cfg(test)]
mod widths;
