//! What the tests share: element types of their own, every form of every operation by one call,
//! lists, membership by counting, made-up numbers, and words with the lines that answer them.
#![tactic(auto)]

pub mod advances;
pub mod comparers;
pub mod elements;
pub mod flags;
pub mod forms;
pub mod generator;
pub mod lists;
pub mod membership;
pub mod starving;
pub mod ways;
pub mod words;
