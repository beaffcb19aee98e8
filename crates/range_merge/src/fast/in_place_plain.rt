//! A merge of plain data into its own left list, which keeps the list's room.
//!
//! Copies of the left items lie apart, in a spare, while the merge writes over the list. A list
//! without room for both sides is merged into a new one, which then is how it grows.
ghost use Rattle.std.specs.Prelude.{◌≡◌, ◌+◌, ◌*◌, ◌^◌, ◌<◌, ◌≤◌, true, false, None, length, IsOk, IfOk, IfSome, OnErr};
ghost use Rattle.smallvec.specs.SmallVec.{HasRoomFor};
ghost use Rattle.range_merge.specs.Boundaries.{IsAscending};
ghost use Rattle.range_merge.specs.Changes.{changes};
ghost use Rattle.range_merge.specs.Copies.{AreCopies, AreOwnOrCopies};
ghost use Rattle.range_merge.specs.Counting.{AddsAtMost};
ghost use Rattle.range_merge.specs.Runs.{weight};

use crate::compare::{Compare, Copier};
use crate::fast::overwritten::overwrite;
use crate::in_place::memory::copies;
use crate::merge_state::small_vec::{
    SmallVecMergeState, append_within, fit_together, inline_if_few,
};
use crate::operations::MergeOperation;
use smallvec::SmallVec;
use std::alloc::{AllocError, Global};
use std::default::MadeWith;
use std::mem;

// Up to this number of items, moving within the room that they have takes less time than memory
// for a spare.
const MOVED_WITHIN: usize = 32;

// A list that is this many times as long is much longer.
const MUCH: usize = 8;

// Whether there is a right item, and the left list isn't much longer: else only a few items move in
// place.
fn are_alike(a: usize, b: usize) -> bool {
    b > 0 && a / MUCH <= b
}

/// Merges plain data into the left list. It returns `false`, and has compared and changed nothing,
/// if moving the items one by one is faster, or if there is no memory for more than a few.
pub(crate) fn merged_plainly<
    K: MadeWith<Global> + Drop,
    P: Copier<K>,
    O: MergeOperation,
    C: Compare<K>,
    const N: usize,
>(a: &mut SmallVec<K, N>, b: &[K], copier: &P, op: &O, cmp: &mut C) -> Result<bool, AllocError>
    requires left_ascending { IsAscending C.order a.old.items }
    requires right_ascending { IsAscending C.order b.now }
    requires made { C.count cmp.old < 2 ^ 64 }
    ensures taken { IfOk result (λ merged. merged ≡ true →
        AreOwnOrCopies P.alike (changes C.order (O.connective op.now) a.old.items b.now) a.new.items) }
    ensures none { IfOk result (λ merged. merged ≡ false →
        (a.new ≡ a.old) × (C.count cmp.new ≡ C.count cmp.old)) }
    ensures unchanged { OnErr result (a.new ≡ a.old) }
    ensures room { a.old.capacity ≤ a.new.capacity }
    ensures succeeds { length a.old.items + length b.now ≤ N → IsOk result }
    ensures comparisons { AddsAtMost (C.count cmp.old) (C.count cmp.new) (2 * weight C.order a.old.items b.now) }
{
    if !copier.is_plain() {
        return Ok(false);
    }
    if a.capacity() > N && fit_together(a.len(), b.len(), a.capacity()) {
        return Ok(merged_within(a, b, copier, op, cmp));
    }
    match merged_anew(a, b, copier, op, cmp)? {
        Some(merged) => {
            *a = merged;
            Ok(true)
        }
        None => Ok(false),
    }
}

// Merges within the list's room. It returns `false`, and has compared and changed nothing, if
// moving the items one by one is faster, or if there is no memory for copies of the left ones.
fn merged_within<
    K: MadeWith<Global> + Drop,
    P: Copier<K>,
    O: MergeOperation,
    C: Compare<K>,
    const N: usize,
>(a: &mut SmallVec<K, N>, b: &[K], copier: &P, op: &O, cmp: &mut C) -> bool
    requires room { HasRoomFor a.old (length b.now) }
    requires infallible { (x : K) → P.is_infallible x }
    requires plain { (x y : K) → P.alike x y → y ≡ x }
    requires left_ascending { IsAscending C.order a.old.items }
    requires right_ascending { IsAscending C.order b.now }
    requires made { C.count cmp.old < 2 ^ 64 }
    ensures taken { result ≡ true →
        AreCopies P.alike (changes C.order (O.connective op.now) a.old.items b.now) a.new.items }
    ensures none { result ≡ false → (a.new ≡ a.old) × (C.count cmp.new ≡ C.count cmp.old) }
    ensures room { a.new.capacity ≡ a.old.capacity }
    ensures comparisons { AddsAtMost (C.count cmp.old) (C.count cmp.new) (2 * weight C.order a.old.items b.now) }
{
    if fit_together(a.len(), b.len(), MOVED_WITHIN) || !are_alike(a.len(), b.len()) {
        return false;
    }
    let alloc = *a.allocator();
    match copies::<K, P, N>(alloc, a.as_slice(), copier) {
        Ok(spare) => {
            // Where a comparison may panic, the list is left empty then.
            let list = mem::replace(a, SmallVec::new(alloc));
            *a = written_over(list, spare.as_slice(), b, copier, op, cmp);
            true
        }
        Err(_) => false,
    }
}

// Writes a merge of two lists of plain data over the items of a third, which is as long as the left
// one and has room for the right one too.
fn written_over<
    K: MadeWith<Global> + Drop,
    P: Copier<K>,
    O: MergeOperation,
    C: Compare<K>,
    const N: usize,
>(mut list: SmallVec<K, N>, a: &[K], b: &[K], copier: &P, op: &O, cmp: &mut C) -> SmallVec<K, N>
    requires as_long { length list.items ≡ length a.now }
    requires room { HasRoomFor list (length b.now) }
    requires infallible { (x : K) → P.is_infallible x }
    requires left_ascending { IsAscending C.order a.now }
    requires right_ascending { IsAscending C.order b.now }
    requires made { C.count cmp.old < 2 ^ 64 }
    ensures copied { AreCopies P.alike (changes C.order (O.connective op.now) a.now b.now) result.items }
    ensures room { result.capacity ≡ list.capacity }
    ensures comparisons { AddsAtMost (C.count cmp.old) (C.count cmp.new) (2 * weight C.order a.now b.now) }
{
    // What is appended is written over: it makes the list as long as the merge may be.
    append_within(&mut list, b, copier);
    let n = overwrite(list.as_mut_slice(), a, b, copier, op, cmp);
    list.truncate(n);
    list
}

// Merges into a new list, which has the room of the old one at least. It returns `None`, and has
// compared nothing, if that isn't faster than in place, or if there is no memory for a list of more
// than a few items.
fn merged_anew<
    K: MadeWith<Global> + Drop,
    P: Copier<K>,
    O: MergeOperation,
    C: Compare<K>,
    const N: usize,
>(
    a: &SmallVec<K, N>,
    b: &[K],
    copier: &P,
    op: &O,
    cmp: &mut C,
) -> Result<Option<SmallVec<K, N>>, AllocError>
    requires left_ascending { IsAscending C.order a.now.items }
    requires right_ascending { IsAscending C.order b.now }
    requires infallible { (x : K) → P.is_infallible x }
    requires plain { (x y : K) → P.alike x y → y ≡ x }
    requires few_inline { length a.now.items + length b.now ≤ N → a.now.capacity ≤ N }
    requires made { C.count cmp.old < 2 ^ 64 }
    ensures taken { IfOk result (λ merged. IfSome merged (λ list.
        AreCopies P.alike (changes C.order (O.connective op.now) a.now.items b.now) list.items)) }
    ensures none { IfOk result (λ merged. merged ≡ None → C.count cmp.new ≡ C.count cmp.old) }
    ensures room { IfOk result (λ merged. IfSome merged (λ list. a.now.capacity ≤ list.capacity)) }
    ensures succeeds { length a.now.items + length b.now ≤ N → IsOk result }
    ensures comparisons { AddsAtMost (C.count cmp.old) (C.count cmp.new) (2 * weight C.order a.now.items b.now) }
{
    let alloc = *a.allocator();
    if fit_together(a.len(), b.len(), N.saturating_mul(2)) {
        let list = SmallVec::new(alloc);
        let merged = SmallVecMergeState::merge(list, a.as_slice(), b, copier, op, cmp)?;
        return Ok(Some(with_room(merged, a.capacity())?));
    }
    if !are_alike(a.len(), b.len()) {
        return Ok(None);
    }
    let mut list = Vec::new(alloc);
    if list.reserve(a.len().saturating_add(b.len())).is_err() {
        return Ok(None);
    }
    let merged = SmallVecMergeState::<K, P, N>::merge_to_vec(
        list,
        a.as_slice(),
        b,
        copier,
        op,
        cmp,
    )?;
    if a.capacity() > N {
        return Ok(Some(with_room(SmallVec::from_vec(merged), a.capacity())?));
    }
    Ok(Some(with_room(inline_if_few(merged), a.capacity())?))
}

// The list, with room for `room` items in all.
fn with_room<K: MadeWith<Global> + Drop, const N: usize>(
    mut list: SmallVec<K, N>,
    room: usize,
) -> Result<SmallVec<K, N>, AllocError>
    ensures items { IfOk result (λ kept. kept.items ≡ list.items) }
    ensures room { IfOk result (λ kept. room ≤ kept.capacity) }
    ensures succeeds { room ≤ N → IsOk result }
{
    // `capacity` is called for its clause that it is at least N, which the proof cites.
    let _inline = list.capacity();
    list.reserve(room.saturating_sub(list.len()))?;
    Ok(list)
}
