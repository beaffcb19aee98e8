//! A tracker of received offsets for large files: the boundaries of what is there lie in chunks,
//! and there are no more of them than a limit.
#![tactic(auto)]

mod tracker;
mod tracking;

pub use tracker::ChunkedTracker;
