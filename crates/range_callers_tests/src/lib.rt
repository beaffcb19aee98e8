//! Tests of what stands on the sets: the callers that the pages quote, the tracker, and what the
//! two programs answer.
#![tactic(auto)]

#[cfg(test)]
mod answers;
#[cfg(test)]
mod lines;
#[cfg(test)]
mod made_up;
#[cfg(test)]
mod sink;
#[cfg(test)]
mod streams;
#[cfg(test)]
mod tracker;
#[cfg(test)]
mod uses;
