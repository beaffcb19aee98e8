//! Tests of a list in chunks: calls that no clause obliges to succeed, and how many chunks there are.
#![tactic(auto)]

#[cfg(test)]
mod changes;
