//! The union of many sets, by halves: each set is copied once, and then sets are joined in place.
ghost use Rattle.std.specs.Prelude.{◌≡◌, ◌+◌, ◌-◌, ◌*◌, length};
ghost use Rattle.std.specs.List.{flat_map};
ghost use Rattle.std.specs.declared.cmp.Ordering.TheVariants.{Equal};
ghost use Rattle.range_merge.specs.Counting.{AddsAtMost};
ghost use Rattle.range_merge.specs.Runs.{digits};
ghost use Rattle.range_collections.specs.Unions.{GivesUnion, IsJoined};

use crate::comparisons::Comparisons;
use crate::range_set::RangeSet;
use crate::range_set::copying::copied;
use crate::range_set_range::{RangeSetRange, has_elements};
use crate::view::RangeSetRef;
use range_merge::laws::weight_is_at_most_the_lengths;
use range_merge::{Copier, Indexed, UnionOp};
use std::alloc::{AllocError, Global};
use std::default::MadeWith;

// The elements that are members of at least one of the sets.
pub(crate) fn union_of<T: Ord + MadeWith<Global> + Drop, C: Copier<T>, const N: usize>(
    alloc: Global,
    sets: &[RangeSetRef<T>],
    copier: &C,
    count: &mut Comparisons,
) -> Result<RangeSet<T, N>, AllocError>
    requires copies { (x y : T) → C.alike x y → T.cmp x y ≡ Equal }
    ensures gives { GivesUnion T.cmp C.alike C.is_infallible (λ set. set.boundaries.now) N
        sets.now result }
    ensures comparisons { AddsAtMost count.old count.new
        (2 * length (flat_map (λ set. set.boundaries.now) sets.now)
        * digits (length sets.now - 1)) }
{
    match sets.len() {
        0 => Ok(RangeSet::empty(alloc)),
        1 => copied(alloc, sets[0], copier),
        len => {
            let (front, back) = sets.split_at(len / 2);
            let set = union_of(alloc, front, copier, count)?;
            let that = union_of(alloc, back, copier, count)?;
            joined(set, that, count)
        }
    }
}

// The set, with the members of `that` added in place.
pub(super) fn joined<T: Ord + MadeWith<Global> + Drop, const N: usize>(
    set: RangeSet<T, N>,
    that: RangeSet<T, N>,
    count: &mut Comparisons,
) -> Result<RangeSet<T, N>, AllocError>
    ensures joined { IsJoined T.cmp N set that result }
    ensures comparisons { AddsAtMost count.old count.new (2 * (length set + length that)) }
{
    weight_is_at_most_the_lengths::<T, Comparisons>();
    let mut both = set;
    let mut made = Comparisons::new();
    let changed = both.merge_owned(that, &UnionOp, &mut made);
    count.add(&made);
    match changed {
        Ok(()) => Ok(both),
        Err((error, _)) => Err(error),
    }
}

impl<T: Ord> Indexed<T> for RangeSetRange<T> {
    ghost use Rattle.range_collections.specs.Ranges.{range_boundaries};

    ghost items = { range_boundaries T.cmp };

    fn len(&self) -> usize {
        match self {
            RangeSetRange::Range(range) => {
                if has_elements(&range.start, &range.end, &mut Comparisons::new()) {
                    2
                } else {
                    0
                }
            }
            RangeSetRange::RangeFrom(_) => 1,
        }
    }

    fn at(&self, i: usize) -> &T {
        match self {
            RangeSetRange::Range(range) => { if i == 0 { &range.start } else { &range.end } }
            RangeSetRange::RangeFrom(range) => &range.start,
        }
    }
}
