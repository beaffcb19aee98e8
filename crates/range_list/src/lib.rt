//! A list whose items lie in chunks: what sets and maps of ranges that are changed one by one stand on.
#![tactic(auto)]

mod appending;
mod boundaries;
mod chunk;
mod chunk_list;
mod copying;
mod counting;
mod inserting;
mod items;
mod itself;
mod joining;
mod key_of;
mod list;
mod mark;
mod moving;
mod overwriting;
mod place;
mod reading;
mod removing;
mod replacing;
mod searching;
mod splicing;
mod splicing_last;
mod swapping;
mod taking;

pub use items::Items;
pub use itself::Itself;
pub use key_of::{IntoKey, KeyOf, SearchBy, SetKey};
pub use list::Chunks;
pub use mark::Mark;
pub use place::{FRONT, Place};
pub use searching::search_keys;
