//! The element types of range sets: which elements are values, a least value of each type, and
//! clones that are equal to their source.
#![tactic(auto)]

mod chars;
mod entry_clone;
mod lists;
mod non_zero;
mod non_zero_std;
mod numbers;
mod options;
mod range_set_entry;
mod texts;

pub use entry_clone::EntryClone;
pub use non_zero::{NonZeroU8, NonZeroU16, NonZeroU32, NonZeroU64, NonZeroU128, NonZeroUsize};
pub use range_set_entry::RangeSetEntry;
