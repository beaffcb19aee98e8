//! What can be asked of a set and of two, each answered by the members, at every element, and
//! whether a set has every value. Nothing here takes memory.
ghost use Rattle.std.specs.Prelude.{◌≡◌, ◌↔◌, ◌+◌, ◌*◌, ◌<◌, ◌^◌, List, length, false, IsTrue};
ghost use Rattle.range_merge.specs.Boundaries.{member};
ghost use Rattle.range_merge.specs.Changes.{changes};
ghost use Rattle.range_merge.specs.Connective.{Means};
ghost use Rattle.range_merge.specs.Counting.{AddsAtMost};
ghost use Rattle.range_merge.specs.Runs.{digits, weight};
ghost use Rattle.range_collections.specs.Sets.{IsSubset, Intersects, IsDisjoint, HasMember};
ghost use Rattle.range_collections.specs.Values.{IsEverything};

use crate::comparisons::Comparisons;
use crate::questions::{contains, is_all};
use crate::view::RangeSetRef;
use range_entry::RangeSetEntry;
use range_merge::laws::changes_mean_the_connective;
use range_merge::{BoolOpMergeState, CountMergeState, DiffOp, IntersectionOp, MergeOperation};

impl<'a, T: Ord> RangeSetRef<'a, T> {
    /// Whether `value` is a member: an odd number of boundaries is at or below it.
    #[inline]
    pub fn contains(&self, value: &T) -> bool
        ensures { result ≡ member T.cmp self.now.boundaries.now value.now }
    {
        self.contains_counted(value, &mut Comparisons::new())
    }

    /// The same as `contains`, counted: at most as many comparisons as the number of boundaries has
    /// binary digits.
    #[inline]
    pub fn contains_counted(&self, value: &T, count: &mut Comparisons) -> bool
        requires { count.old < 2 ^ 64 }
        ensures member { result ≡ member T.cmp self.now.boundaries.now value.now }
        ensures comparisons { AddsAtMost count.old count.new
            (digits (length self.now.boundaries.now)) }
    {
        contains(self.boundaries, value, count)
    }

    /// Whether the set is empty.
    #[inline]
    pub fn is_empty(&self) -> bool
        ensures { IsTrue result ↔ ((x : T) → member T.cmp self.now.boundaries.now x ≡ false) }
    {
        self.boundaries.is_empty()
    }

    /// Whether the operation's result has a member. It counts its comparisons, at most twice the
    /// weight of the two lists, and stops at the first change (no clause says so).
    pub fn merge_test<O: MergeOperation>(
        &self,
        that: RangeSetRef<T>,
        op: &O,
        count: &mut Comparisons,
    ) -> bool
        requires off { O.connective op.now false false ≡ false }
        requires made { count.old < 2 ^ 64 }
        ensures members { IsTrue result ↔ HasMember T.cmp (O.connective op.now)
            self.now.boundaries.now that.entry.boundaries.now }
        ensures comparisons { AddsAtMost count.old count.new
            (2 * weight T.cmp self.now.boundaries.now that.entry.boundaries.now) }
    {
        changes_mean_the_connective::<T, Comparisons>();
        BoolOpMergeState::merge(self.boundaries, that.boundaries, op, count)
    }

    /// How many boundaries the operation's result has, without making it. Both lengths together
    /// must fit a `usize`. It counts its comparisons, at most twice the weight of the two lists.
    pub fn merge_len<O: MergeOperation>(
        &self,
        that: RangeSetRef<T>,
        op: &O,
        count: &mut Comparisons,
    ) -> usize
        requires off { O.connective op.now false false ≡ false }
        requires fits { length self.now.boundaries.now + length that.boundaries.now < 2 ^ 64 }
        requires made { count.old < 2 ^ 64 }
        ensures value { result ≡ length (changes T.cmp (O.connective op.now)
            self.now.boundaries.now that.entry.boundaries.now) }

        // It is the length of every list that the operation may give.
        ensures means { (items : List T) →
            Means T.cmp (O.connective op.now) items
            self.now.boundaries.now that.entry.boundaries.now → length items ≡ result }
        ensures comparisons { AddsAtMost count.old count.new
            (2 * weight T.cmp self.now.boundaries.now that.entry.boundaries.now) }
    {
        changes_mean_the_connective::<T, Comparisons>();
        CountMergeState::merge(self.boundaries, that.boundaries, op, count)
    }

    /// Whether some element is a member of both.
    pub fn intersects(&self, that: RangeSetRef<T>) -> bool
        ensures { IsTrue result ↔
            Intersects T.cmp self.now.boundaries.now that.entry.boundaries.now }
    {
        self.merge_test(that, &IntersectionOp, &mut Comparisons::new())
    }

    /// Whether no element is a member of both.
    pub fn is_disjoint(&self, that: RangeSetRef<T>) -> bool
        ensures { IsTrue result ↔
            IsDisjoint T.cmp self.now.boundaries.now that.entry.boundaries.now }
    {
        !self.merge_test(that, &IntersectionOp, &mut Comparisons::new())
    }

    /// Whether every member of this set is a member of `that`.
    pub fn is_subset(&self, that: RangeSetRef<T>) -> bool
        ensures { IsTrue result ↔ IsSubset T.cmp self.now.boundaries.now that.entry.boundaries.now }
    {
        !self.merge_test(that, &DiffOp, &mut Comparisons::new())
    }

    /// Whether every member of `that` is a member of this set.
    pub fn is_superset(&self, that: RangeSetRef<T>) -> bool
        ensures { IsTrue result ↔ IsSubset T.cmp that.entry.boundaries.now self.now.boundaries.now }
    {
        that.is_subset(*self)
    }
}

impl<'a, T: RangeSetEntry> RangeSetRef<'a, T> {
    /// Whether every value is a member.
    pub fn is_all(&self) -> bool
        ensures { IsTrue result ↔ IsEverything T.cmp T.is_value self.now.boundaries.now }
    {
        is_all(self.boundaries)
    }
}
