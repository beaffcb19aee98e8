//! Merges of strictly sorted lists, run by run, with every comparison counted.
//!
//! The first files say what a merge is for: what is given, and what may be asked of a list. The next
//! say how two lists are merged. The rest stands on these, or makes them fast.
#![tactic(auto)]

// What it is for.
mod compare;
mod indexed;
mod operations;
mod searching;

// How.
mod equal_pairs;
mod merge_state;
mod merging;
mod runs;

// The rest.
mod fast;
mod in_place;
pub mod laws;
mod slice_iterator;

pub use compare::{Compare, Copier, Done, Work};
pub use fast::moves::move_last_two;
pub use in_place::borrowed::InPlaceMergeStateRef;
pub use in_place::builder::InPlaceBuilder;
pub use in_place::owned::InPlaceMergeState;
pub use indexed::Indexed;
pub use merge_state::{
    BoolOpMergeState, Buffer, BufferMergeState, CountMergeState, MergeState, MergeStateMut, NoRoom,
    SmallVecMergeState,
};
pub use merging::merge;
pub use operations::{Connective, DiffOp, IntersectionOp, MergeOperation, UnionOp, XorOp};
pub use runs::{Run, run_length};
pub use searching::{count_up_to, search};
pub use slice_iterator::SliceIterator;
