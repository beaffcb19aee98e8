//! A tracker of received offsets, as of a file that comes in pieces: which are there, which are
//! missing, and no more boundaries than a limit.
#![tactic(auto)]

pub mod laws;
mod track_error;
mod tracker;

pub use track_error::{TrackError, within_limit};
pub use tracker::{Command, Tracker};
