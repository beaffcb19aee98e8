//! The intersection of many sets, by halves: each set is copied once, and then sets are cut in
//! place.
ghost use Rattle.std.specs.Prelude.{◌≡◌, ◌↔◌, ◌+◌, ◌<◌, ◌≤◌, All, length, true, IsOk, IfOk};
ghost use Rattle.std.specs.List.{flat_map};
ghost use Rattle.range_merge.specs.Boundaries.{member};
ghost use Rattle.range_merge.specs.Connective.{Means, intersection_table};
ghost use Rattle.range_collections.specs.Intersections.{GivesIntersection, is_in_each};

use crate::comparisons::EntryCopier;
use crate::range_set::RangeSet;
use crate::range_set::copying::copied;
use crate::view::RangeSetRef;
use range_entry::{EntryClone, RangeSetEntry};
use std::alloc::{AllocError, Global};
use std::default::MadeWith;

impl<T: RangeSetEntry + EntryClone + MadeWith<Global> + Drop, const N: usize> RangeSet<T, N> {
    /// The intersection of many sets: the elements that are members of each. Of no sets it has
    /// every value.
    ///
    /// It copies each boundary once. The intersection of the first half of the sets is cut to that
    /// of the second half, and so on within each half.
    pub fn intersection_all(alloc: Global, sets: &[RangeSetRef<T>]) -> Result<Self, AllocError>
        ensures gives { 0 < length sets.now → GivesIntersection T.cmp T.is_infallible
            (λ set. set.boundaries.now) N sets.now result }
        ensures values { IfOk result (λ set. (x : T) → T.is_value x →
            member T.cmp set x ≡ is_in_each T.cmp (λ set. set.boundaries.now) sets.now x) }
    {
        if sets.is_empty() {
            return RangeSet::all(alloc);
        }
        intersection_of(alloc, sets)
    }
}

// The elements that are members of each of the sets, of which there is one at least.
fn intersection_of<T: EntryClone + MadeWith<Global> + Drop, const N: usize>(
    alloc: Global,
    sets: &[RangeSetRef<T>],
) -> Result<RangeSet<T, N>, AllocError>
    requires { 0 < length sets.now }
    ensures { GivesIntersection T.cmp T.is_infallible
        (λ set. set.boundaries.now) N sets.now result }
{
    match sets.len() {
        1 => copied(alloc, sets[0], &EntryCopier),
        len => {
            let (front, back) = sets.split_at(len / 2);
            let set = intersection_of(alloc, front)?;
            let that = intersection_of(alloc, back)?;
            cut_to(set, that)
        }
    }
}

// The set, with the members alone that are members of `that`.
fn cut_to<T: Ord + MadeWith<Global> + Drop, const N: usize>(
    set: RangeSet<T, N>,
    that: RangeSet<T, N>,
) -> Result<RangeSet<T, N>, AllocError>
    ensures means { IfOk result (λ both. Means T.cmp intersection_table both set that) }
    ensures succeeds { length set + length that ≤ N → IsOk result }
{
    let mut both = set;
    match both.bitand_assign(that) {
        Ok(()) => Ok(both),
        Err((error, _)) => Err(error),
    }
}
