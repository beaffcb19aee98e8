//! Tests of the sets, and of what stands below them.
#![tactic(auto)]

#[cfg(test)]
mod advances;
#[cfg(test)]
mod comparisons;
#[cfg(test)]
mod constructors;
#[cfg(test)]
mod copies;
#[cfg(test)]
mod costs;
#[cfg(test)]
mod counts;
#[cfg(test)]
mod elements;
#[cfg(test)]
mod insertion;
#[cfg(test)]
mod made_up_pairs;
#[cfg(test)]
mod made_up_sets;
#[cfg(test)]
mod members;
#[cfg(test)]
mod merging;
#[cfg(test)]
mod negation;
#[cfg(test)]
mod one_word;
#[cfg(test)]
mod operations;
#[cfg(test)]
mod orders;
#[cfg(test)]
mod questions;
#[cfg(test)]
mod ranges;
#[cfg(test)]
mod refused_advances;
#[cfg(test)]
mod rooms;
#[cfg(test)]
mod run_lengths;
#[cfg(test)]
mod searches;
#[cfg(test)]
mod structs;
#[cfg(test)]
mod tallies;
#[cfg(test)]
mod text;
#[cfg(test)]
mod two_methods;
#[cfg(test)]
mod unions;
