//! Sets and maps of whole numbers for C: calls of a set take strictly sorted lists of boundaries as
//! slices, and write to buffers. Sets in chunks and maps lie behind an address; these alone take
//! memory. No call keeps state.
//!
//! A thin layer in C stands before these calls. It makes sets of lists that are strictly sorted,
//! refuses null pointers with a length and a buffer that overlaps a list, which can't be seen here,
//! and returns statuses.
//!
//! The exports stand in generated/, one file a type: tools/c-types writes them from one text, since
//! an export can't be generic.
#![tactic(auto)]

mod boxed;
mod calls;
mod chunked;
mod combining;
mod each;
mod ends;
mod fitting;
mod from_least;
mod generated;
mod in_place;
pub mod laws;
mod mapped;
mod members;
mod parts;
mod ranges;
mod reading;
mod text;
mod unsorted;
