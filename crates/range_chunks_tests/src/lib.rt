//! Tests of sets in chunks: rows, made-up changes beside those of a `RangeSet`, and changes in a
//! process whose memory is taken away.
#![tactic(auto)]

#[cfg(test)]
mod asking;
#[cfg(test)]
mod combining;
#[cfg(test)]
mod comparisons;
#[cfg(test)]
mod ends;
#[cfg(test)]
mod fitting;
#[cfg(test)]
mod joined;
#[cfg(test)]
mod made_up;
#[cfg(test)]
mod making;
#[cfg(test)]
mod members;
#[cfg(test)]
mod refused;
#[cfg(test)]
mod rows;
#[cfg(test)]
mod space;
#[cfg(test)]
mod text;
#[cfg(test)]
mod tracker_refused;
#[cfg(test)]
mod tracking;
#[cfg(test)]
mod windows;
