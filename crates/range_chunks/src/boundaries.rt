//! A list of boundaries in chunks, read and changed as a set's: for a type that keeps such a list
//! of its own.
pub use crate::values::count_members;
pub use crate::within::parts_within;
pub use range_collections::Splice;
pub use range_collections::changes::cut_at;
pub use range_collections::questions::has_all;
