//! Answers the lines of an input, of which each asks something of a tracker of offsets, one after
//! another.
#![tactic(auto)]

mod answering;
mod line;
mod request;
mod status;
mod writing;

pub use answering::serve;
pub use request::limit_asked;
pub use status::Status;
