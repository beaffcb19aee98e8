//! Sets of elements of an ordered type, kept as strictly sorted lists of boundaries: an element is
//! a member if an odd number of boundaries is at or below it.
#![tactic(auto)]

mod boundaries;
pub mod changes;
mod comparisons;
mod countable;
mod iter;
mod json;
pub mod laws;
mod lists;
mod members;
mod parse;
pub mod questions;
mod range_set;
mod range_set_range;
mod text;
mod view;
mod whole_number;

pub use boundaries::{Boundaries, Unread, cut_at};
pub use changes::Splice;
pub use comparisons::{Comparisons, EntryCopier};
pub use countable::{Countable, FromPlace, Multiples, Unsigned, ValueEnds, ValueRange};
pub use iter::{Gaps, Iter, RangesWithin};
pub use json::JsonError;
pub use members::Members;
pub use parse::{Expected, ParseError, check_ranges};
pub use range_entry::{
    EntryClone, NonZeroU8, NonZeroU16, NonZeroU32, NonZeroU64, NonZeroU128, NonZeroUsize,
    RangeSetEntry,
};
pub use range_merge::{
    BoolOpMergeState, Buffer, BufferMergeState, Compare, Connective, Copier, CountMergeState,
    DiffOp, Done, InPlaceBuilder, InPlaceMergeState, InPlaceMergeStateRef, IntersectionOp,
    MergeOperation, MergeState, MergeStateMut, NoRoom, Run, SliceIterator, SmallVecMergeState,
    UnionOp, Work, XorOp, count_up_to, merge, run_length, search,
};
pub use range_set::{RangeSet, RangeSet2};
pub use range_set_range::{RangeSetRange, has_elements, write_range};
pub use text::write_ranges;
pub use view::{Cursor, RangeSetRef};
pub use whole_number::WholeNumber;
