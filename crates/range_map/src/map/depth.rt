//! How many of many ranges hold each key.
ghost use Rattle.std.specs.Prelude.{ℕ, ◌≡◌, ◌⊎◌, ◌+◌, ◌<◌, ◌≤◌, true, length, HoldsAt, IsOk, IfOk, OnOk, cond, Some, nat_eq, get_or};
ghost use Rattle.std.specs.List.Sorted.{IsPermutation, IsSorted};
ghost use Rattle.std.specs.Ordering.{is_le};
ghost use Rattle.std.specs.declared.cmp.Ordering.TheVariants.{Equal};
ghost use Rattle.range_merge.specs.Boundaries.{count_up_to};
ghost use Rattle.range_map.specs.Steps.{AreAlike, value_at};
ghost use Rattle.range_map.specs.Changed.{is_in_range};
ghost use Rattle.range_map.specs.Depth.{AreDepths, IsDifference, depth_at, number_or_none};

use crate::map::RangeMap;
use crate::putting::put;
use range_collections::{Comparisons, Copier, EntryClone, EntryCopier, has_elements};
use std::alloc::{AllocError, Global};
use std::ops::Range;

impl<K: EntryClone + Drop> RangeMap<K, usize> {
    /// The map that gives each key the number of the ranges that hold it, if some do. The ranges
    /// may come in any order, and may overlap, touch or be empty.
    ///
    /// It sorts copies of their starts and of their ends, and goes over both once, so that its time
    /// grows as n log n. It takes memory for these and for sorting them, and as the result grows,
    /// whose keys are copies of the copies.
    pub fn depth(alloc: Global, ranges: &[Range<K>]) -> Result<Self, AllocError>
        ensures depths { IfOk result (λ map. AreDepths K.cmp ranges.now map) }
        ensures succeeds { length ranges.now ≡ 0 → IsOk result }
    {
        depth_of(alloc, ranges, &EntryCopier)
    }
}

// The map that gives each key the number of the ranges that hold it, if some do.
pub(crate) fn depth_of<K: Ord + Drop, C: Copier<K>>(
    alloc: Global,
    ranges: &[Range<K>],
    copier: &C,
) -> Result<RangeMap<K, usize>, AllocError>
    requires copies { (x y : K) → C.alike x y → K.cmp x y ≡ Equal }
    ensures depths { IfOk result (λ map. AreDepths K.cmp ranges.now map) }
    ensures succeeds { length ranges.now ≡ 0 → IsOk result }
{
    if ranges.is_empty() {
        return Ok(RangeMap::new(alloc));
    }
    let ends = sorted_ends(alloc, ranges, copier)?;
    swept(alloc, &ends.starts, &ends.ends, copier)
}

// Copies of where ranges start, and of where they end.
#[derive(Drop)]
struct Ends<K> {
    starts: Vec<K>,
    ends: Vec<K>,
}

// The ends of the ranges that have keys, in order.
fn sorted_ends<K: Ord + Drop, C: Copier<K>>(
    alloc: Global,
    ranges: &[Range<K>],
    copier: &C,
) -> Result<Ends<K>, AllocError>
    requires copies { (x y : K) → C.alike x y → K.cmp x y ≡ Equal }
    ensures depths { IfOk result (λ made. (x : K) →
        depth_at K.cmp ranges.now x + count_up_to K.cmp made.ends.items x ≡
        count_up_to K.cmp made.starts.items x) }
    ensures as_many { IfOk result (λ made. length made.starts.items ≡ length made.ends.items) }
    ensures starts { IfOk result (λ made. IsSorted K.cmp made.starts.items) }
    ensures ends { IfOk result (λ made. IsSorted K.cmp made.ends.items) }
{
    let Ends { starts, ends } = ends_of(alloc, ranges, copier)?;
    Ok(Ends {
        starts: sorted(alloc, starts)?,
        ends: sorted(alloc, ends)?,
    })
}

// The items in order.
fn sorted<K: Ord + Drop>(alloc: Global, mut items: Vec<K>) -> Result<Vec<K>, AllocError>
    ensures permutation { IfOk result (λ sorted. IsPermutation items.items sorted.items) }
    ensures sorted { IfOk result (λ sorted. IsSorted K.cmp sorted.items) }
{
    items.as_mut_slice().sort(alloc)?;
    Ok(items)
}

// The ends of the ranges that have keys.
fn ends_of<K: Ord + Drop, C: Copier<K>>(
    alloc: Global,
    ranges: &[Range<K>],
    copier: &C,
) -> Result<Ends<K>, AllocError>
    requires copies { (x y : K) → C.alike x y → K.cmp x y ≡ Equal }
    ensures depths { IfOk result (λ made. (x : K) →
        depth_at K.cmp ranges.now x + count_up_to K.cmp made.ends.items x ≡
        count_up_to K.cmp made.starts.items x) }
    ensures as_many { IfOk result (λ made. length made.starts.items ≡ length made.ends.items) }
{
    let mut made = Ends {
        starts: Vec::with_capacity(alloc, ranges.len())?,
        ends: Vec::with_capacity(alloc, ranges.len())?,
    };
    for i in 0..ranges.len() {
        add_ends(&mut made, &ranges[i], copier)?;
    }
    Ok(made)
}

// Adds the ends of the range, if it has keys.
#[inline]
fn add_ends<K: Ord + Drop, C: Copier<K>>(
    made: &mut Ends<K>,
    range: &Range<K>,
    copier: &C,
) -> Result<(), AllocError>
    requires copies { (x y : K) → C.alike x y → K.cmp x y ≡ Equal }
    ensures depths { OnOk result ((n : ℕ) (x : K) →
        n + count_up_to K.cmp made.old.ends.items x ≡ count_up_to K.cmp made.old.starts.items x →
        n + cond (is_in_range K.cmp range.now.start (Some range.now.end) x) 1 0 +
        count_up_to K.cmp made.new.ends.items x ≡ count_up_to K.cmp made.new.starts.items x) }
    ensures as_many { OnOk result (length made.old.starts.items ≡ length made.old.ends.items →
        length made.new.starts.items ≡ length made.new.ends.items) }
{
    if has_elements(&range.start, &range.end, &mut Comparisons::new()) {
        made.starts.push(copier.copy(&range.start)?)?;
        made.ends.push(copier.copy(&range.end)?)?;
    }
    Ok(())
}

// The map that gives each key the number of the starts at or below it less that of the ends.
fn swept<K: Ord + Drop, C: Copier<K>>(
    alloc: Global,
    starts: &[K],
    ends: &[K],
    copier: &C,
) -> Result<RangeMap<K, usize>, AllocError>
    requires starts { IsSorted K.cmp starts.now }
    requires ends { IsSorted K.cmp ends.now }
    requires as_many { length starts.now ≡ length ends.now }
    requires fewer { (x : K) → count_up_to K.cmp ends.now x ≤ count_up_to K.cmp starts.now x }
    requires copies { (x y : K) → C.alike x y → K.cmp x y ≡ Equal }
    ensures { IfOk result (λ map. IsDifference K.cmp starts.now ends.now map) }
{
    let mut list = Vec::new(alloc);
    let mut i = 0;
    let mut j = 0;
    while j < ends.len() {
        let key = first_of(starts, i, &ends[j]);
        i = past(starts, i, key);
        j = past(ends, j, key);
        put(None, &mut list, key, number_or_none(i - j), copier)?;
    }
    RangeMap::of_steps(list)
}

// The start at a place if that is below the end, and the end otherwise.
#[inline]
fn first_of<'a, K: Ord>(starts: &'a [K], place: usize, end: &'a K) -> &'a K
    ensures one { (result.now ≡ end.now) ⊎ (place < length starts.now) × HoldsAt (λ y. result.now ≡ y) starts.now place }
    ensures end { is_le (K.cmp result.now end.now) ≡ true }
    ensures start { (d : K) → place < length starts.now → is_le (K.cmp result.now (get_or starts.now place d)) ≡ true }
{
    if place < starts.len() && starts[place].cmp(end).is_lt() {
        &starts[place]
    } else {
        end
    }
}

// The first place from one on whose item is above the key.
#[inline]
fn past<K: Ord>(items: &[K], from: usize, key: &K) -> usize
    requires sorted { IsSorted K.cmp items.now }
    requires from { from ≤ count_up_to K.cmp items.now key.now }
    ensures { result ≡ count_up_to K.cmp items.now key.now }
{
    let mut place = from;
    while place < items.len() && items[place].cmp(key).is_le() {
        place += 1;
    }
    place
}

// The number, or `None` for 0.
fn number_or_none(number: usize) -> Option<usize>
    ensures { result ≡ number_or_none number }
{
    if number == 0 { None } else { Some(number) }
}
