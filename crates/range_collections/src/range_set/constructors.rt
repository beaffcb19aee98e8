//! Sets made of a range, of every value, of a list in any order, and of many ranges or sets.
ghost use Rattle.std.specs.Prelude.{◌≡◌, ◌≢◌, ◌↔◌, ◌≤◌, ◌&&◌, ◌⊎◌, true, false, [], ◌∷◌, Ok, IsOk, IfOk, length, ◌-◌, ◌*◌, Any};
ghost use Rattle.std.specs.Ordering.{is_le, is_lt};
ghost use Rattle.std.specs.declared.cmp.Ordering.TheVariants.{Equal};
ghost use Rattle.std.specs.List.{flat_map};
ghost use Rattle.range_merge.specs.Boundaries.{member};
ghost use Rattle.range_merge.specs.Counting.{AddsAtMost};
ghost use Rattle.range_merge.specs.Runs.{digits};
ghost use Rattle.range_collections.specs.Ranges.{range_boundaries, range_items, IsInRange};
ghost use Rattle.range_collections.specs.Sets.{AreEqual};
ghost use Rattle.range_collections.specs.Values.{HasLeastInFront, IsEverything};
ghost use Rattle.range_collections.specs.Unsorted.{AreDistinctOf, AreFirstOf};
ghost use Rattle.range_collections.specs.Unions.{GivesUnion};

use crate::comparisons::{Comparisons, EntryCopier};
use crate::range_set::RangeSet;
use crate::range_set::joining::union_of;
use crate::range_set::many_ranges::set_of_ranges;
use crate::range_set_range::{RangeSetRange, has_elements};
use crate::view::RangeSetRef;
use range_entry::{EntryClone, RangeSetEntry};
use smallvec::SmallVec;
use std::alloc::{AllocError, Global};
use std::default::MadeWith;
use std::ops::{Range, RangeFrom, RangeFull, RangeTo};

impl<T: Ord + MadeWith<Global> + Drop, const N: usize> RangeSet<T, N> {
    /// The elements from the start up to the end, which isn't a member. An empty or reversed range
    /// gives the empty set.
    pub fn from_range(alloc: Global, range: Range<T>) -> Result<Self, AllocError>
        ensures boundaries { IfOk result (λ set. set ≡ range_items T.cmp range.start range.end) }
        ensures members { IfOk result (λ set. (x : T) →
            member T.cmp set x ≡ (is_le (T.cmp range.start x) && is_lt (T.cmp x range.end))) }
        ensures succeeds { (2 ≤ N) ⊎ (is_lt (T.cmp range.start range.end) ≡ false) → IsOk result }
    {
        let Range { start, end } = range;
        if !has_elements(&start, &end, &mut Comparisons::new()) {
            return Ok(Self::empty(alloc));
        }
        Ok(RangeSet::new_unchecked(two_items(alloc, start, end)?))
    }

    /// The elements at or above the start.
    pub fn from_range_from(alloc: Global, range: RangeFrom<T>) -> Result<Self, AllocError>
        ensures boundaries { IfOk result (λ set. set ≡ range.start ∷ []) }
        ensures members { IfOk result (λ set. (x : T) →
            member T.cmp set x ≡ is_le (T.cmp range.start x)) }
        ensures succeeds { 1 ≤ N → IsOk result }
    {
        Ok(RangeSet::new_unchecked(one_item(alloc, range.start)?))
    }

    /// The elements of the range, as `from_range` or `from_range_from` gives them. It fails only if
    /// an allocation does.
    pub fn from_range_set_range(alloc: Global, range: RangeSetRange<T>) -> Result<Self, AllocError>
        ensures boundaries { IfOk result (λ set. set ≡ range_boundaries T.cmp range) }
        ensures members { IfOk result (λ set. (x : T) →
            (member T.cmp set x ≡ true) ↔ IsInRange T.cmp range x) }
        ensures succeeds { length (range_boundaries T.cmp range) ≤ N → IsOk result }
    {
        match range {
            RangeSetRange::Range(ends) => Self::from_range(alloc, ends),
            RangeSetRange::RangeFrom(start) => Self::from_range_from(alloc, start),
        }
    }

    /// The set whose boundaries are the distinct items of the list, in order. Of equal items the
    /// first is kept.
    ///
    /// The sort takes memory for more than 20 items. If that fails, the list is dropped.
    pub fn from_unsorted(list: SmallVec<T, N>) -> Result<Self, AllocError>
        ensures distinct { IfOk result (AreDistinctOf T.cmp list.items) }
        ensures first { IfOk result (AreFirstOf T.cmp list.items) }
        ensures succeeds { length list.items ≤ 20 → IsOk result }
    {
        let mut items = list;
        let alloc = *items.allocator();
        items.as_mut_slice().sort(alloc)?;
        items.dedup();
        Ok(RangeSet { list: items })
    }
}

impl<T: RangeSetEntry + MadeWith<Global> + Drop, const N: usize> RangeSet<T, N> {
    /// The values below the end. The boundaries are the least value and the end; if these are
    /// equal, there are none.
    pub fn from_range_until(alloc: Global, range: RangeTo<T>) -> Result<Self, AllocError>
        ensures members { IfOk result (λ set. (x : T) →
            T.is_value x → member T.cmp set x ≡ is_lt (T.cmp x range.end)) }
        ensures nothing { T.cmp range.end T.least ≡ Equal → result ≡ Ok [] }
        ensures boundaries { T.cmp range.end T.least ≢ Equal →
            IfOk result (λ set. HasLeastInFront T.cmp T.least (range.end ∷ []) set) }
        ensures succeeds { 2 ≤ N → T.is_min_infallible → IsOk result }
    {
        let end = range.end;
        end.known();
        if end.is_min_value() {
            return Ok(Self::empty(alloc));
        }
        let least = T::min_value(alloc)?;
        Ok(RangeSet::new_unchecked(two_items(alloc, least, end)?))
    }

    /// Every value.
    pub fn all(alloc: Global) -> Result<Self, AllocError>
        ensures boundaries { IfOk result (λ set. AreEqual T.cmp set (T.least ∷ [])) }
        ensures members { IfOk result (λ set. IsEverything T.cmp T.is_value set) }
        ensures succeeds { 1 ≤ N → T.is_min_infallible → IsOk result }
    {
        let least = T::min_value(alloc)?;
        Ok(RangeSet::new_unchecked(one_item(alloc, least)?))
    }

    /// Every value.
    pub fn from_range_full(alloc: Global, _range: RangeFull) -> Result<Self, AllocError>
        ensures boundaries { IfOk result (λ set. AreEqual T.cmp set (T.least ∷ [])) }
        ensures members { IfOk result (λ set. IsEverything T.cmp T.is_value set) }
        ensures succeeds { 1 ≤ N → T.is_min_infallible → IsOk result }
    {
        RangeSet::all(alloc)
    }

    /// Every value if `everything` is true, or else the empty set.
    pub fn from_bool(alloc: Global, everything: bool) -> Result<Self, AllocError>
        ensures members { IfOk result (λ set. (x : T) →
            T.is_value x → member T.cmp set x ≡ everything) }
        ensures boundaries { everything ≡ true →
            IfOk result (λ set. AreEqual T.cmp set (T.least ∷ [])) }
        ensures nothing { everything ≡ false → result ≡ Ok [] }
        ensures succeeds { 1 ≤ N → T.is_min_infallible → IsOk result }
    {
        if everything {
            Self::all(alloc)
        } else {
            Ok(Self::empty(alloc))
        }
    }
}

// A list of one item.
fn one_item<T: MadeWith<Global> + Drop, const N: usize>(
    alloc: Global,
    item: T,
) -> Result<SmallVec<T, N>, AllocError>
    ensures items { IfOk result (λ list. list.items ≡ item ∷ []) }
    ensures succeeds { 1 ≤ N → IsOk result }
{
    let mut list = SmallVec::with_capacity(alloc, 1)?;
    list.push_reserved(item);
    Ok(list)
}

// A list of two items.
fn two_items<T: MadeWith<Global> + Drop, const N: usize>(
    alloc: Global,
    first: T,
    second: T,
) -> Result<SmallVec<T, N>, AllocError>
    ensures items { IfOk result (λ list. list.items ≡ first ∷ second ∷ []) }
    ensures succeeds { 2 ≤ N → IsOk result }
{
    let mut list = SmallVec::with_capacity(alloc, 2)?;
    list.push_reserved(first);
    list.push_reserved(second);
    Ok(list)
}

impl<T: EntryClone + MadeWith<Global> + Drop, const N: usize> RangeSet<T, N> {
    /// The union of many sets: the elements that are members of at least one.
    pub fn union_all(alloc: Global, sets: &[RangeSetRef<T>]) -> Result<Self, AllocError>
        ensures gives { GivesUnion T.cmp T.is_copy T.is_infallible (λ set. set.boundaries.now) N
            sets.now result }
        ensures members { IfOk result (λ set. (x : T) → (member T.cmp set x ≡ true) ↔
            Any (λ part. member T.cmp part.boundaries.now x ≡ true) sets.now) }
    {
        Self::union_all_counted(alloc, sets, &mut Comparisons::new())
    }

    /// The union of many sets, counting the comparisons.
    ///
    /// It copies each boundary once. The union of the first half of the sets takes in that of the
    /// second half, and so on within each half.
    pub fn union_all_counted(
        alloc: Global,
        sets: &[RangeSetRef<T>],
        count: &mut Comparisons,
    ) -> Result<Self, AllocError>
        ensures gives { GivesUnion T.cmp T.is_copy T.is_infallible (λ set. set.boundaries.now) N
            sets.now result }
        ensures members { IfOk result (λ set. (x : T) → (member T.cmp set x ≡ true) ↔
            Any (λ part. member T.cmp part.boundaries.now x ≡ true) sets.now) }
        ensures comparisons { AddsAtMost count.old count.new
            (2 * length (flat_map (λ set. set.boundaries.now) sets.now)
            * digits (length sets.now - 1)) }
    {
        union_of(alloc, sets, &EntryCopier, count)
    }

    /// The elements that lie in at least one of the ranges. The ranges may come in any order, and
    /// may overlap, touch or be empty.
    ///
    /// It copies the ends of each range that isn't empty. Ranges that come in the order of their
    /// starts are added at the set's end. Of those from the first on that doesn't, starts and ends
    /// are sorted, which takes memory; but a set that still lies in the value itself takes them in
    /// place.
    pub fn from_ranges(alloc: Global, ranges: &[RangeSetRange<T>]) -> Result<Self, AllocError>
        ensures gives { GivesUnion T.cmp T.is_copy T.is_infallible (range_boundaries T.cmp) N
            ranges.now result }
        ensures members { IfOk result (λ set. (x : T) →
            (member T.cmp set x ≡ true) ↔ Any (λ range. IsInRange T.cmp range x) ranges.now) }
    {
        set_of_ranges(alloc, ranges)
    }
}
