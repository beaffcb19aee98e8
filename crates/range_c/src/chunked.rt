//! What the exports do with a set in chunks, for numbers of any type.
ghost use Rattle.std.specs.Prelude.{◌≡◌, ◌+◌, ◌<◌, ◌≤◌, ◌^◌, ◌∷◌, [], ℕ, true, false, length, IfSome, IsTrue, OnErr, OnOk};
ghost use Rattle.std.specs.List.{flat_map};
ghost use Rattle.range_collections.specs.Boundaries.{IsAscending};
ghost use Rattle.range_collections.specs.Connective.{Means, union_table, difference_table};
ghost use Rattle.range_collections.specs.Fits.{IsFit};
ghost use Rattle.range_collections.specs.Insertion.{IsChangedByRange};
ghost use Rattle.range_collections.specs.Ranges.{range_ends, range_items, range_now, ranges_of};
ghost use Rattle.range_collections.specs.Sets.{AreEqual};
ghost use Rattle.range_c.specs.Chunked.{outcome, CopiesTo, TellsNext};
ghost use Rattle.range_c.specs.Text.{PutsText};

pub(crate) mod fitting;
pub(crate) mod members;
pub(crate) mod ranges;

use crate::in_place::overwrite;
use crate::parts::put;
use range_chunks::{ChunkedRangeSet, ChunkedSpace, Iter};
use range_collections::{Countable, EntryClone, RangeSetRange, RangeSetRef, ValueRange};
use std::alloc::{AllocError, Global};

// A set with the boundaries of a list, if there is memory for it.
pub(crate) fn copied<T: EntryClone + Drop>(alloc: Global, a: &[T]) -> Option<ChunkedRangeSet<T>>
    requires { IsAscending T.cmp a.now }
    ensures { IfSome result (λ set. AreEqual T.cmp a.now set) }
{
    ChunkedRangeSet::from_view(alloc, RangeSetRef::new_unchecked(a)).ok()
}

// Puts the numbers from `start` to below `end` in, and returns whether there was memory for it.
pub(crate) fn insert<T: Countable + Copy>(set: &mut ChunkedSpace<T>, start: T, end: T) -> bool
    ensures { IsChangedByRange T.cmp union_table 0
        set.old (range_items T.cmp start end) set.new (outcome result) }
{
    is_done(set.insert(start..end))
}

// Takes the numbers from `start` to below `end` out, and returns whether there was memory for it.
pub(crate) fn remove<T: Countable + Copy>(set: &mut ChunkedSpace<T>, start: T, end: T) -> bool
    ensures { IsChangedByRange T.cmp difference_table 0
        set.old (range_items T.cmp start end) set.new (outcome result) }
{
    is_done(set.remove(start..end))
}

// Puts the numbers from `start` on in, and returns whether there was memory for it.
pub(crate) fn insert_from<T: Countable + Copy>(set: &mut ChunkedSpace<T>, start: T) -> bool
    ensures { IsChangedByRange T.cmp union_table 0
        set.old (start ∷ []) set.new (outcome result) }
{
    is_done(set.insert_from(start..))
}

// Takes the numbers from `start` on out, and returns whether there was memory for it.
pub(crate) fn remove_from<T: Countable + Copy>(set: &mut ChunkedSpace<T>, start: T) -> bool
    ensures { IsChangedByRange T.cmp difference_table 0
        set.old (start ∷ []) set.new (outcome result) }
{
    is_done(set.remove_from(start..))
}

// Puts the members of a list in, and returns whether there was memory for it.
pub(crate) fn insert_all<T: Countable + Copy>(set: &mut ChunkedSpace<T>, b: &[T]) -> bool
    requires { IsAscending T.cmp b.now }
    ensures means { OnOk (outcome result) (Means T.cmp union_table set.new set.old b.now) }
    ensures unchanged { OnErr (outcome result) (set.new ≡ set.old) }
{
    is_done(set.insert_all(RangeSetRef::new_unchecked(b)))
}

// Takes the members of a list out, and returns whether there was memory for it.
pub(crate) fn remove_all<T: Countable + Copy>(set: &mut ChunkedSpace<T>, b: &[T]) -> bool
    requires { IsAscending T.cmp b.now }
    ensures means { OnOk (outcome result) (Means T.cmp difference_table set.new set.old b.now) }
    ensures unchanged { OnErr (outcome result) (set.new ≡ set.old) }
{
    is_done(set.remove_all(RangeSetRef::new_unchecked(b)))
}

// Whether there was memory.
#[inline(always)]
pub(crate) fn is_done(changed: Result<(), AllocError>) -> bool
    ensures { changed ≡ outcome result }
{
    match changed {
        Ok(()) => true,
        Err(AllocError) => false,
    }
}

// Whether a number at or above `from` is a member, and then writes the least.
pub(crate) fn next_member<T: Ord + Copy>(set: &ChunkedRangeSet<T>, from: T, next: &mut T) -> bool
    ensures { TellsNext T.cmp true set.now from next.old next.new result }
{
    match set.next_member(&from) {
        Some(found) => {
            *next = *found;
            true
        }
        None => false,
    }
}

// Whether a number at or above `from` is no member, and then writes the least.
pub(crate) fn next_gap<T: Ord + Copy>(set: &ChunkedRangeSet<T>, from: T, next: &mut T) -> bool
    ensures { TellsNext T.cmp false set.now from next.old next.new result }
{
    match set.next_gap(&from) {
        Some(found) => {
            *next = *found;
            true
        }
        None => false,
    }
}

// Whether there is a number from which on `count` numbers lie in the range and none is a member,
// and then writes the least. The set remembers what it learns of its gaps.
pub(crate) fn first_fit<T: Countable + Copy, R: ValueRange<T>>(
    set: &mut ChunkedSpace<T>,
    within: R,
    count: u128,
    at: &mut T,
) -> bool
    ensures fits { IsTrue result → IsFit T.cmp T.value false set.old
        (R.start within) (R.end within) count (T.place at.new) }
    ensures least { IsTrue result → (n : ℕ) → IsFit T.cmp T.value false set.old
        (R.start within) (R.end within) count n → T.place at.new ≤ n }
    ensures none { result ≡ false → (n : ℕ) → ¬ (IsFit T.cmp T.value false set.old
        (R.start within) (R.end within) count n) }
    ensures no_answer { result ≡ false → at.new ≡ at.old }
    ensures unchanged { set.new ≡ set.old }
{
    put(set.first_fit_count(within, count), at)
}

// Writes the boundaries to the front of `out`, if it has room for them, and returns how many there
// are.
pub(crate) fn copy<T: Ord + Copy>(set: &ChunkedRangeSet<T>, out: &mut [T]) -> usize
    ensures { CopiesTo set.now out.old out.new result }
{
    let len = set.boundaries_len();
    if len <= out.len() {
        put_all(set.iter(), out, 0);
    }
    len
}

// Puts the ends of the ranges after the first `len` numbers.
fn put_all<T: Copy>(ranges: Iter<'_, T>, out: &mut [T], len: usize) -> usize
    requires fits { len + length (flat_map range_ends (ranges_of ranges)) < 2 ^ 64 }
    ensures { PutsText len (flat_map range_ends (ranges_of ranges.entry)) out.old out.new result }
{
    let mut len = len;
    for range in ranges {
        len = put_ends(out, len, &range);
    }
    len
}

// Puts the ends of a range after the first `len` numbers.
pub(crate) fn put_ends<T: Copy>(out: &mut [T], len: usize, range: &RangeSetRange<&T>) -> usize
    requires fits { len + length (range_ends (range_now range.now)) < 2 ^ 64 }
    ensures { PutsText len (range_ends (range_now range.now)) out.old out.new result }
{
    match range {
        RangeSetRange::Range(range) => {
            let len = put_one(out, len, range.start);
            put_one(out, len, range.end)
        }
        RangeSetRange::RangeFrom(range) => put_one(out, len, range.start),
    }
}

// Puts a number after the first `len`, where the buffer has room for it.
pub(crate) fn put_one<T: Copy>(out: &mut [T], len: usize, item: &T) -> usize
    requires fits { len + 1 < 2 ^ 64 }
    ensures { PutsText len (item.now ∷ []) out.old out.new result }
{
    if len < out.len() {
        overwrite(out, len, Some(*item))
    } else {
        len + 1
    }
}
