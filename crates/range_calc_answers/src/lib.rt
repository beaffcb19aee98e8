//! Answers words that ask something of sets of whole numbers, which are given by their boundaries:
//! with one line, and with a status.
#![tactic(auto)]

mod answering;
pub mod laws;
mod request;

pub use answering::{Status, answer, exit_code, out_of_memory};
pub use request::default_words;
