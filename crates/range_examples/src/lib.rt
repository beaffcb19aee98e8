//! Callers of `range_collections`, which its pages quote. Each says by members what it promises,
//! and stands on public names alone.
#![tactic(auto)]

mod allocator;
mod calendar;
mod character_class;
mod downloads;
mod gaps;
mod hours;
mod releases;

pub use allocator::{Addresses, free_run, give_back, lowest_free, take_lowest, take_run};
pub use calendar::{
    Minutes, add_busy, book, cancel, either_busy, everyone_free, free_slots, is_free, new_calendar,
    someone_busy,
};
pub use character_class::{CharacterClass, either, has, negation};
pub use downloads::{Offsets, comes_twice, next_missing, still_missing};
pub use gaps::{Numbers, gaps_between, has_all, missing_between};
pub use hours::print_open_hours;
pub use releases::{Releases, Version, has_fault, is_usable, usable};
