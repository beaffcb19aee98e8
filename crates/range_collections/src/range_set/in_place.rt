//! Operations that change a set in place. Of two equal boundaries, this set's own stays.
//!
//! Each asks for all its memory before it changes a boundary: room in this set for the boundaries
//! of the other, and with a borrowed set a copy of each of these, even of those that aren't kept,
//! unless copies of the element type never fail. Beside a borrowed set of numbers or characters, if
//! they are many, it asks first for copies of its own, or without room for a list for both. If an
//! allocation or a copy fails, this set is as it was, and an owned right side comes back as it was.
//! The set's room stays.
ghost use Rattle.std.specs.Prelude.{◌≡◌, ◌*◌, ◌^◌, ◌<◌, false};
ghost use Rattle.range_merge.specs.Connective.{union_table, intersection_table, difference_table, symmetric_difference_table};
ghost use Rattle.range_merge.specs.Counting.{AddsAtMost};
ghost use Rattle.range_merge.specs.Runs.{weight};
ghost use Rattle.range_collections.specs.Headline.{BecomesTheResult, BecomesTheOwnResult, CostsTwiceWeight};
ghost use Rattle.range_collections.specs.InPlace.{IsChangedByView, IsChangedByOwned};

use crate::comparisons::{Comparisons, EntryCopier};
use crate::range_set::RangeSet;
use crate::view::RangeSetRef;
use range_entry::EntryClone;
use range_merge::laws::{changes_are_marked_truly, changes_mean_the_connective};
use range_merge::{
    DiffOp, InPlaceMergeState, InPlaceMergeStateRef, IntersectionOp, MergeOperation, UnionOp, XorOp,
};
use std::alloc::{AllocError, Global};
use std::default::MadeWith;

impl<T: EntryClone + MadeWith<Global> + Drop, const N: usize> RangeSet<T, N> {
    /// Changes this set to the operation's result. It counts its comparisons, at most twice the
    /// weight of the two lists.
    ///
    /// Of two equal boundaries this set's own stays. If an allocation or a copy fails, this set is
    /// as it was.
    pub fn merge_ref<O: MergeOperation>(
        &mut self,
        that: RangeSetRef<T>,
        op: &O,
        count: &mut Comparisons,
    ) -> Result<(), AllocError>
        requires off { O.connective op.now false false ≡ false }
        requires made { count.old < 2 ^ 64 }
        ensures headline { CostsTwiceWeight T.cmp self.old that.entry.boundaries.now count.old count.new
            (BecomesTheResult T.cmp T.is_copy (O.connective op.now)
            self.old that.entry.boundaries.now self.new result) }
        ensures changed { IsChangedByView T.cmp T.is_copy T.is_infallible (O.connective op.now) N
            self.old that.entry.boundaries.now self.new result }
        ensures comparisons { AddsAtMost count.old count.new
            (2 * weight T.cmp self.old that.entry.boundaries.now) }
    {
        changes_mean_the_connective::<T, Comparisons>();
        changes_are_marked_truly::<T, Comparisons>();
        InPlaceMergeStateRef::<T, EntryCopier, N>::merge(
            &mut self.list,
            that.boundaries,
            &EntryCopier,
            op,
            count,
        )
    }

    /// Keeps the elements that are members of both sets.
    ///
    /// Of two equal boundaries this set's own stays. If an allocation or a copy fails, this set is
    /// as it was.
    pub fn intersection_with(&mut self, that: RangeSetRef<T>) -> Result<(), AllocError>
        ensures headline { BecomesTheResult T.cmp T.is_copy intersection_table
            self.old that.entry.boundaries.now self.new result }
        ensures changed { IsChangedByView T.cmp T.is_copy T.is_infallible intersection_table N
            self.old that.entry.boundaries.now self.new result }
    {
        self.merge_ref(that, &IntersectionOp, &mut Comparisons::new())
    }

    /// Adds the members of `that`.
    ///
    /// Of two equal boundaries this set's own stays. If an allocation or a copy fails, this set is
    /// as it was.
    pub fn union_with(&mut self, that: RangeSetRef<T>) -> Result<(), AllocError>
        ensures headline { BecomesTheResult T.cmp T.is_copy union_table
            self.old that.entry.boundaries.now self.new result }
        ensures changed { IsChangedByView T.cmp T.is_copy T.is_infallible union_table N
            self.old that.entry.boundaries.now self.new result }
    {
        self.merge_ref(that, &UnionOp, &mut Comparisons::new())
    }

    /// Removes the members of `that`.
    ///
    /// Of two equal boundaries this set's own stays. If an allocation or a copy fails, this set is
    /// as it was.
    pub fn difference_with(&mut self, that: RangeSetRef<T>) -> Result<(), AllocError>
        ensures headline { BecomesTheResult T.cmp T.is_copy difference_table
            self.old that.entry.boundaries.now self.new result }
        ensures changed { IsChangedByView T.cmp T.is_copy T.is_infallible difference_table N
            self.old that.entry.boundaries.now self.new result }
    {
        self.merge_ref(that, &DiffOp, &mut Comparisons::new())
    }

    /// Leaves the elements that are members of exactly one of the sets.
    ///
    /// Of two equal boundaries this set's own stays. If an allocation or a copy fails, this set is
    /// as it was.
    pub fn symmetric_difference_with(&mut self, that: RangeSetRef<T>) -> Result<(), AllocError>
        ensures headline { BecomesTheResult T.cmp T.is_copy symmetric_difference_table
            self.old that.entry.boundaries.now self.new result }
        ensures changed { IsChangedByView T.cmp T.is_copy T.is_infallible
            symmetric_difference_table N self.old that.entry.boundaries.now self.new result }
    {
        self.merge_ref(that, &XorOp, &mut Comparisons::new())
    }
}

impl<T: Ord + MadeWith<Global> + Drop, const N: usize> RangeSet<T, N> {
    /// Changes this set to the operation's result. It counts its comparisons, at most twice the
    /// weight of the two lists.
    ///
    /// Of two equal boundaries this set's own stays. If an allocation fails, this set is as it was,
    /// and `that` comes back with the error.
    pub fn merge_owned<O: MergeOperation>(
        &mut self,
        that: Self,
        op: &O,
        count: &mut Comparisons,
    ) -> Result<(), (AllocError, Self)>
        requires off { O.connective op.now false false ≡ false }
        requires made { count.old < 2 ^ 64 }
        ensures headline { CostsTwiceWeight T.cmp self.old that count.old count.new
            (BecomesTheOwnResult T.cmp (O.connective op.now) self.old that self.new result) }
        ensures changed { IsChangedByOwned T.cmp (O.connective op.now) N
            self.old that self.new result }
        ensures comparisons { AddsAtMost count.old count.new (2 * weight T.cmp self.old that) }
    {
        changes_mean_the_connective::<T, Comparisons>();
        changes_are_marked_truly::<T, Comparisons>();
        match InPlaceMergeState::<T, N>::merge(&mut self.list, that.into_inner(), op, count) {
            Ok(()) => Ok(()),
            Err((error, list)) => Err((error, RangeSet::new_unchecked(list))),
        }
    }

    /// Keeps the elements that are members of both sets.
    ///
    /// Of two equal boundaries this set's own stays. If an allocation fails, this set is as it was,
    /// and `that` comes back with the error.
    pub fn bitand_assign(&mut self, that: Self) -> Result<(), (AllocError, Self)>
        ensures headline { BecomesTheOwnResult T.cmp intersection_table
            self.old that self.new result }
        ensures changed { IsChangedByOwned T.cmp intersection_table N
            self.old that self.new result }
    {
        self.merge_owned(that, &IntersectionOp, &mut Comparisons::new())
    }

    /// Adds the members of `that`.
    ///
    /// Of two equal boundaries this set's own stays. If an allocation fails, this set is as it was,
    /// and `that` comes back with the error.
    pub fn bitor_assign(&mut self, that: Self) -> Result<(), (AllocError, Self)>
        ensures headline { BecomesTheOwnResult T.cmp union_table
            self.old that self.new result }
        ensures changed { IsChangedByOwned T.cmp union_table N self.old that self.new result }
    {
        self.merge_owned(that, &UnionOp, &mut Comparisons::new())
    }

    /// Removes the members of `that`.
    ///
    /// Of two equal boundaries this set's own stays. If an allocation fails, this set is as it was,
    /// and `that` comes back with the error.
    pub fn sub_assign(&mut self, that: Self) -> Result<(), (AllocError, Self)>
        ensures headline { BecomesTheOwnResult T.cmp difference_table
            self.old that self.new result }
        ensures changed { IsChangedByOwned T.cmp difference_table N self.old that self.new result }
    {
        self.merge_owned(that, &DiffOp, &mut Comparisons::new())
    }

    /// Leaves the elements that are members of exactly one of the sets.
    ///
    /// Of two equal boundaries this set's own stays. If an allocation fails, this set is as it was,
    /// and `that` comes back with the error.
    pub fn bitxor_assign(&mut self, that: Self) -> Result<(), (AllocError, Self)>
        ensures headline { BecomesTheOwnResult T.cmp symmetric_difference_table
            self.old that self.new result }
        ensures changed { IsChangedByOwned T.cmp symmetric_difference_table N
            self.old that self.new result }
    {
        self.merge_owned(that, &XorOp, &mut Comparisons::new())
    }
}
