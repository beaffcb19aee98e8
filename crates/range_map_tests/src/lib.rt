//! Tests of maps: rows, made-up changes beside an array of options, and changes in a process whose
//! memory is taken away.
#![tactic(auto)]

#[cfg(test)]
mod chunks;
#[cfg(test)]
mod comparisons;
#[cfg(test)]
mod depths;
#[cfg(test)]
mod made_up;
#[cfg(test)]
mod operations;
#[cfg(test)]
mod questions;
#[cfg(test)]
mod refused;
#[cfg(test)]
mod refused_makers;
#[cfg(test)]
mod rows;
