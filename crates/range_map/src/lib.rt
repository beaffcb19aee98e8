//! Maps from ranges to values: strictly sorted keys, and for each the value that holds from it on,
//! up to the next one, or none.
#![tactic(auto)]

mod borrowed_steps;
mod filter;
mod free;
mod gaps;
mod in_place;
mod insert_error;
mod iter;
mod keys;
pub mod laws;
mod map;
mod modifying;
mod operation;
mod operations;
mod places;
mod putting;
mod replacing;
mod retaining;
mod runs;
mod step;
mod update;
mod updating;
mod value;
mod within;

pub use filter::{MapFilter, RangeFilter};
pub use gaps::Gaps;
pub use insert_error::InsertError;
pub use iter::Iter;
pub use keys::{Keys, Values};
pub use map::{RangeMap, Stretch};
pub use operation::MapOperation;
pub use update::MapUpdate;
pub use value::MapValue;
