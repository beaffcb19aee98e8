//! Sets made from views and other sets, and moved into a set of one list.
ghost use Rattle.std.specs.Prelude.{◌≡◌, ◌↔◌, [], IsTrue, IsOk, IfOk, IfErr};
ghost use Rattle.std.specs.Cmp.Lexicographic.{pointwise, lists_per, lists_equiv};
ghost use Rattle.std.specs.List.{AllZip};
ghost use Rattle.std.specs.Ordering.{nat_cmp};
ghost use Rattle.range_merge.specs.Boundaries.{IsAscending, IsSameSet};
ghost use Rattle.range_collections.specs.Sets.{AreEqual};

use crate::iter::are_equal;
use crate::set::ChunkedRangeSet;
use crate::within::{RangesWithin, copies_of};
use range_collections::{EntryClone, RangeSet, RangeSetRef};
use range_list::{Chunks, Itself};
use smallvec::SmallVec;
use std::alloc::{AllocError, Global};
use std::default::MadeWith;

impl<T: EntryClone + Drop> ChunkedRangeSet<T> {
    /// The set of the view's members, with clones of its boundaries.
    pub fn from_view(alloc: Global, view: RangeSetRef<T>) -> Result<Self, AllocError>
        ensures copies { IfOk result (λ set. AllZip T.is_copy view.entry.boundaries.now set) }
        ensures equal { IfOk result (λ set. AreEqual T.cmp view.entry.boundaries.now set) }
    {
        Ok(ChunkedRangeSet {
            list: Chunks::from_clones(alloc, view.boundaries())?,
        })
    }

    /// A set of clones of the boundaries. Of the empty set it takes no memory.
    pub fn clone(&self) -> Result<Self, AllocError>
        ensures copies { IfOk result (λ set. AllZip T.is_copy self.now set) }
        ensures equal { IfOk result (λ set. AreEqual T.cmp self.now set) }
        ensures succeeds { self.now ≡ [] → IsOk result }
    {
        Ok(ChunkedRangeSet {
            list: self.list.cloned()?,
        })
    }
}

impl ChunkedRangeSet<u64> {
    /// The set of these parts of a range, with copies of their boundaries.
    ///
    /// It is for `u64` alone, the offsets of range_chunked_tracker, whose `missing` is the one
    /// caller. A copy of a number is that number, so the set is exactly `parts`; clones of another
    /// type would only be equal to them.
    pub fn from_parts(alloc: Global, parts: RangesWithin<'_, u64>) -> Result<Self, AllocError>
        requires { IsAscending nat_cmp parts }
        ensures { IfOk result (λ set. set ≡ parts.entry) }
    {
        Ok(ChunkedRangeSet {
            list: copies_of(alloc, parts)?,
        })
    }
}

impl<T: Ord + MadeWith<Global> + Drop> ChunkedRangeSet<T> {
    /// The set with the boundaries of a `RangeSet`, which are moved. If memory runs out, they are
    /// dropped: `from_view` leaves them where they are.
    pub fn from_set<const N: usize>(set: RangeSet<T, N>) -> Result<Self, AllocError>
        ensures { IfOk result (λ made. made ≡ set) }
    {
        Ok(ChunkedRangeSet {
            list: Chunks::from_list(set.into_inner().into_vec()?)?,
        })
    }

    /// The `RangeSet` with the boundaries of this set, which are moved, or this set as it was if
    /// memory runs out. It asks once, for room for all of them.
    pub fn into_set<const N: usize>(self) -> Result<RangeSet<T, N>, (AllocError, Self)>
        ensures boundaries { IfOk result (λ set. set ≡ self) }
        ensures handed_back { IfErr result (λ refused. refused.1 ≡ self) }
    {
        let ChunkedRangeSet { list } = self;
        match list.into_list(&Itself) {
            Ok(boundaries) => Ok(RangeSet::new_unchecked(inline(boundaries))),
            Err((error, list)) => Err((error, ChunkedRangeSet { list })),
        }
    }
}

// The list, whose items come to lie inline where they fit.
fn inline<T: MadeWith<Global> + Drop, const N: usize>(list: Vec<T>) -> SmallVec<T, N>
    ensures { result.items ≡ list.items }
{
    SmallVec::from_vec(list)
}

/// std's `Clone`, so that a struct that holds a set can derive it.
impl<T: EntryClone + Drop> Clone for ChunkedRangeSet<T> {
    ghost is_clone = { AreEqual T.cmp };

    ghost is_infallible = { λ _. ⊥ };

    /// A set of clones of the boundaries.
    fn clone(&self) -> Result<Self, AllocError> {
        ChunkedRangeSet::clone(self)
    }
}

impl<T: Ord> PartialEq for ChunkedRangeSet<T> {
    ghost eq = { pointwise T.eq };

    ghost laws = { lists_per T.PartialEq.laws };

    /// Whether both have the same members.
    fn eq(&self, other: &Self) -> bool
        ensures value { result ≡ pointwise T.eq self.now other.now }
        ensures members { IsTrue result ↔ IsSameSet T.cmp self.now other.now }
    {
        are_equal(&self.list, &other.list)
    }
}

impl<T: Ord> Eq for ChunkedRangeSet<T> {
    ghost laws = { lists_equiv T.Eq.laws };
}
