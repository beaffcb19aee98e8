//! Operations with a view. Where that can touch the boundaries, the result is made aside, and then takes
//! their place.
ghost use Rattle.std.specs.Prelude.{◌≡◌, ◌&&◌, ◌||◌, not, false, OnOk, OnErr};
ghost use Rattle.range_merge.specs.Boundaries.{member};
ghost use Rattle.range_merge.specs.Connective.{differ, union_table, intersection_table, difference_table, symmetric_difference_table};
ghost use Rattle.range_collections.specs.Headline.{EveryElement, IsItselfOr, IsTheResult};

use crate::merging::merge_into;
use crate::set::ChunkedRangeSet;
use range_collections::{
    DiffOp, EntryClone, IntersectionOp, MergeOperation, RangeSetRef, UnionOp, XorOp,
};
use std::alloc::AllocError;

impl<T: EntryClone + Drop> ChunkedRangeSet<T> {
    // Changes this set to the operation's result.
    fn merge_with<O: MergeOperation>(
        &mut self,
        that: RangeSetRef<T>,
        op: &O,
    ) -> Result<(), AllocError>
        requires off { O.connective op.now false false ≡ false }
        ensures result { OnOk result (IsTheResult T.cmp EveryElement (O.connective op.now)
            self.old that.entry.boundaries.now (IsItselfOr T.is_copy) T.is_copy self.new) }
        ensures unchanged { OnErr result (self.new ≡ self.old) }
    {
        merge_into(&mut self.list, that.boundaries(), op)
    }

    /// Adds the members of `that`.
    ///
    /// It goes over the boundaries from the first of `that` to its last one, or to the end if `that`
    /// has a range without an end. There it puts clones, of two equal boundaries of this set's, and
    /// makes at most twice the weight of those and `that` in comparisons, after two searches (seen by
    /// reading). Outside this set's own boundaries stay. If an allocation or a clone fails, this set
    /// has the boundaries that it had.
    pub fn union_with(&mut self, that: RangeSetRef<T>) -> Result<(), AllocError>
        ensures result { OnOk result (IsTheResult T.cmp EveryElement union_table
            self.old that.entry.boundaries.now (IsItselfOr T.is_copy) T.is_copy self.new) }
        ensures members { OnOk result ((x : T) → member T.cmp self.new x ≡
            (member T.cmp self.old x || member T.cmp that.entry.boundaries.now x)) }
        ensures unchanged { OnErr result (self.new ≡ self.old) }
    {
        self.merge_with(that, &UnionOp)
    }

    /// Keeps the elements that are members of both sets. Outside none of this set's boundaries stays;
    /// else it is as `union_with`.
    pub fn intersection_with(&mut self, that: RangeSetRef<T>) -> Result<(), AllocError>
        ensures result { OnOk result (IsTheResult T.cmp EveryElement intersection_table
            self.old that.entry.boundaries.now (IsItselfOr T.is_copy) T.is_copy self.new) }
        ensures members { OnOk result ((x : T) → member T.cmp self.new x ≡
            (member T.cmp self.old x && member T.cmp that.entry.boundaries.now x)) }
        ensures unchanged { OnErr result (self.new ≡ self.old) }
    {
        self.merge_with(that, &IntersectionOp)
    }

    /// Removes the members of `that`. Else it is as `union_with`.
    pub fn difference_with(&mut self, that: RangeSetRef<T>) -> Result<(), AllocError>
        ensures result { OnOk result (IsTheResult T.cmp EveryElement difference_table
            self.old that.entry.boundaries.now (IsItselfOr T.is_copy) T.is_copy self.new) }
        ensures members { OnOk result ((x : T) → member T.cmp self.new x ≡
            (member T.cmp self.old x && not (member T.cmp that.entry.boundaries.now x))) }
        ensures unchanged { OnErr result (self.new ≡ self.old) }
    {
        self.merge_with(that, &DiffOp)
    }

    /// Leaves the elements that are members of exactly one of the sets. Else it is as `union_with`.
    pub fn symmetric_difference_with(&mut self, that: RangeSetRef<T>) -> Result<(), AllocError>
        ensures result { OnOk result (IsTheResult T.cmp EveryElement symmetric_difference_table
            self.old that.entry.boundaries.now (IsItselfOr T.is_copy) T.is_copy self.new) }
        ensures members { OnOk result ((x : T) → member T.cmp self.new x ≡
            differ (member T.cmp self.old x) (member T.cmp that.entry.boundaries.now x)) }
        ensures unchanged { OnErr result (self.new ≡ self.old) }
    {
        self.merge_with(that, &XorOp)
    }
}
