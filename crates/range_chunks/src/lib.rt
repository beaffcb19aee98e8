//! Sets of ranges that are changed one by one and grow to millions. The boundaries lie in chunks,
//! so a change moves those of one chunk, and now and then the list of chunks.
#![tactic(auto)]

mod any_set;
pub mod boundaries;
mod counting;
mod gap_bound;
mod iter;
mod members;
mod merging;
mod relating;
mod retaining;
mod set;
mod several;
mod space;
mod text;
mod to_the_end;
mod values;
mod window;
mod within;

pub use any_set::AnySet;
pub use iter::Iter;
pub use members::Members;
pub use retaining::RangeFilter;
pub use set::ChunkedRangeSet;
pub use space::ChunkedSpace;
pub use within::{Gaps, RangesWithin};
