//! What the benchmark in `bench/` calls: a static library over sets of `i64`, with exports for its
//! shapes alone.
//!
//! A set crosses as the list of its boundaries, strictly sorted, which the caller sees to. An
//! export that makes a set takes its memory from the program's `malloc`, writes the front of its
//! boundaries to `out` as far as that reaches, drops the set, and answers how many boundaries it
//! has, or `usize::MAX` where memory is refused. The contracts say what safety needs; that the
//! answers are right is promised by `range_collections`, and the benchmark compares them with a
//! plain merge before it takes a time.
#![tactic(auto)]

mod changes;
mod in_place;
mod new_sets;
mod questions;
mod set;
