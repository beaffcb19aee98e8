//! What is asked of boundaries, each question once for every list of them. Most are one search or
//! two, and none takes memory. The calls of a set pass its own list.
mod containing;
mod counting;
mod first_fit;
mod next;
mod parts;
mod ranges;

pub use containing::{contains, has_all, has_some, is_all};
pub use counting::{covered, rank, select};
pub use first_fit::{
    Fit, FitSearch, Until, first_aligned, first_alike, first_gap_of, last_fit, search_fit,
};
pub use next::{next_at, prev_at};
pub use parts::{Within, overlapping, parts_within, take_first};
pub use ranges::{next_range, range_at};
