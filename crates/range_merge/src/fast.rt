//! What only makes the rest fast. Each clause that a caller sees is the same without it, and a reader
//! may skip it.
//!
//! - `branchless`: a search of words compares without a branch, while the list is short (`is_short`)
//!   or lies in a processor's own cache (`is_read_fast`).
//! - `short_runs`: a merge reads short runs item by item. `copied` reads them into a list or a slice
//!   of plain data (`is_plain`), which `into_output` gives it, and `counted` counts them if items are
//!   words. Either list has many items then (`are_few`), and `rounds` says when it is worth it.
//! - `in_place_plain`: a merge in place copies plain data (`is_plain`) of lists that are about as
//!   long as each other (`are_alike`), and `overwritten` writes it.
//! - `moves`: items that move within a slice are moved one by one if they are few.

pub(crate) mod branchless;
pub(crate) mod in_place_plain;
pub(crate) mod moves;
pub(crate) mod overwritten;
pub(crate) mod rounds;
pub(crate) mod short_runs;
