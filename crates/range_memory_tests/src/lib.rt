//! Tests in a process whose memory is taken away: each request of a call is refused in turn. The
//! call answers that it is out of memory, with what was passed in as it was, or else what it
//! answers with ample memory. Where the result has room, none is needed.
//!
//! They run by `rt test` or `rt ci`. Under `rt try --test` all fail: its sanitizer needs the address
//! space that they take away.
#![tactic(auto)]

#[cfg(test)]
mod advances;
#[cfg(test)]
mod answers;
#[cfg(test)]
mod connectives;
#[cfg(test)]
mod constructors;
#[cfg(test)]
mod copies;
#[cfg(test)]
mod in_place;
#[cfg(test)]
mod insertions;
#[cfg(test)]
mod json;
#[cfg(test)]
mod lists;
#[cfg(test)]
mod operations;
#[cfg(test)]
mod parsing;
#[cfg(test)]
mod rooms;
#[cfg(test)]
mod tracker;
#[cfg(test)]
mod unions;
