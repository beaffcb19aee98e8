//! The exports, one file for each type of numbers.
mod chunked_i32;
mod chunked_i64;
mod chunked_u32;
mod chunked_u64;
mod mapped_i64;
mod mapped_u64;
mod sets_i32;
mod sets_i64;
mod sets_u32;
mod sets_u64;
