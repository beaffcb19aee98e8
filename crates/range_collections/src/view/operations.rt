//! Operations on two views: into a new set with copies of their boundaries, or into a borrowed
//! slice, which takes no memory. Of two equal boundaries, this set's is taken.
ghost use Rattle.std.specs.Prelude.{◌≡◌, ◌+◌, ◌*◌, ◌^◌, ◌<◌, ◌≤◌, false, length, All, IsOk, IfOk, true};
ghost use Rattle.range_merge.specs.Changes.{changes};
ghost use Rattle.range_merge.specs.Connective.{Means, opposite, union_table, intersection_table, difference_table, symmetric_difference_table};
ghost use Rattle.range_merge.specs.Copies.{AreCopies};
ghost use Rattle.range_merge.specs.Counting.{AddsAtMost};
ghost use Rattle.range_merge.specs.Runs.{weight};
ghost use Rattle.range_collections.specs.Headline.{GivesTheResult, IsTheResult, CostsTwiceWeight};
ghost use Rattle.range_collections.specs.Operators.{GivesOperation};
ghost use Rattle.range_collections.specs.Values.{MeansAmong, AreFlipped, EqualsAreValues};
ghost use Rattle.range_collections.specs.Buffers.{WritesOperation};

use crate::comparisons::{Comparisons, EntryCopier};
use crate::lists::give_back_room;
use crate::range_set::RangeSet;
use crate::view::RangeSetRef;
use range_entry::{EntryClone, RangeSetEntry};
use range_merge::laws::{
    changes_are_at_most_the_lengths, changes_are_marked_truly, changes_mean_the_connective,
    changes_mean_the_opposite,
};
use range_merge::{
    BufferMergeState, DiffOp, IntersectionOp, MergeOperation, NoRoom, SmallVecMergeState, UnionOp,
    XorOp,
};
use smallvec::SmallVec;
use std::alloc::{AllocError, Global};
use std::default::MadeWith;

impl<'a, T: EntryClone + MadeWith<Global> + Drop> RangeSetRef<'a, T> {
    /// The operation's result, counting the comparisons.
    ///
    /// Of two equal boundaries this set's is copied. It fails only if an allocation or a copy does.
    /// It makes at most twice the weight of the two lists in comparisons, even if it fails.
    pub fn merge_new<O: MergeOperation, const M: usize>(
        &self,
        alloc: Global,
        that: RangeSetRef<T>,
        op: &O,
        count: &mut Comparisons,
    ) -> Result<RangeSet<T, M>, AllocError>
        requires off { O.connective op.now false false ≡ false }
        requires made { count.old < 2 ^ 64 }
        ensures headline { CostsTwiceWeight T.cmp self.now.boundaries.now that.entry.boundaries.now
            count.old count.new (GivesTheResult T.cmp T.is_copy (O.connective op.now)
            self.now.boundaries.now that.entry.boundaries.now result) }
        ensures gives { GivesOperation T.cmp T.is_copy T.is_infallible (O.connective op.now) M
            self.now.boundaries.now that.entry.boundaries.now result }
        ensures comparisons { AddsAtMost count.old count.new
            (2 * weight T.cmp self.now.boundaries.now that.entry.boundaries.now) }
    {
        self.merged(alloc, that, op, count)
    }

    // The set of copies of the boundaries at which the connective changes. Its members are what the
    // operation says, or where the connective is on while both sides are off, the others.
    pub(super) fn merged<O: MergeOperation, const M: usize>(
        &self,
        alloc: Global,
        that: RangeSetRef<T>,
        op: &O,
        count: &mut Comparisons,
    ) -> Result<RangeSet<T, M>, AllocError>
        requires made { count.old < 2 ^ 64 }
        ensures headline { O.connective op.now false false ≡ false →
            GivesTheResult T.cmp T.is_copy (O.connective op.now)
            self.now.boundaries.now that.entry.boundaries.now result }
        ensures gives { O.connective op.now false false ≡ false →
            GivesOperation T.cmp T.is_copy T.is_infallible (O.connective op.now) M
            self.now.boundaries.now that.entry.boundaries.now result }
        ensures opposite { O.connective op.now false false ≡ true → IfOk result (λ set.
            Means T.cmp (opposite (O.connective op.now)) set
            self.now.boundaries.now that.entry.boundaries.now) }
        ensures copies { IfOk result (λ set. AreCopies T.is_copy (changes T.cmp
            (O.connective op.now) self.now.boundaries.now that.entry.boundaries.now) set) }
        ensures len { IfOk result (λ set. length set ≡ length (changes T.cmp
            (O.connective op.now) self.now.boundaries.now that.entry.boundaries.now)) }
        ensures succeeds { length self.now.boundaries.now + length that.entry.boundaries.now ≤ M →
            All T.is_infallible self.now.boundaries.now →
            All T.is_infallible that.entry.boundaries.now → IsOk result }
        ensures comparisons { AddsAtMost count.old count.new
            (2 * weight T.cmp self.now.boundaries.now that.entry.boundaries.now) }
    {
        changes_mean_the_connective::<T, Comparisons>();
        changes_mean_the_opposite::<T, Comparisons>();
        changes_are_marked_truly::<T, Comparisons>();
        let mut list = SmallVecMergeState::<T, EntryCopier, M>::merge(
            SmallVec::new(alloc),
            self.boundaries,
            that.boundaries,
            &EntryCopier,
            op,
            count,
        )?;
        give_back_room(&mut list);
        Ok(RangeSet::new_unchecked(list))
    }

    /// The union: the elements that are members of either set.
    ///
    /// Of two equal boundaries this set's is copied. It fails only if an allocation or a copy does,
    /// and makes at most twice the weight of the two lists in comparisons.
    pub fn union<const M: usize>(
        &self,
        alloc: Global,
        that: RangeSetRef<T>,
    ) -> Result<RangeSet<T, M>, AllocError>
        ensures headline { GivesTheResult T.cmp T.is_copy union_table
            self.now.boundaries.now that.entry.boundaries.now result }
        ensures gives { GivesOperation T.cmp T.is_copy T.is_infallible union_table M
            self.now.boundaries.now that.entry.boundaries.now result }
    {
        self.merged(alloc, that, &UnionOp, &mut Comparisons::new())
    }

    /// The intersection: the elements that are members of both sets.
    ///
    /// Of two equal boundaries this set's is copied. It fails only if an allocation or a copy does,
    /// and makes at most twice the weight of the two lists in comparisons.
    pub fn intersection<const M: usize>(
        &self,
        alloc: Global,
        that: RangeSetRef<T>,
    ) -> Result<RangeSet<T, M>, AllocError>
        ensures headline { GivesTheResult T.cmp T.is_copy intersection_table
            self.now.boundaries.now that.entry.boundaries.now result }
        ensures gives { GivesOperation T.cmp T.is_copy T.is_infallible intersection_table M
            self.now.boundaries.now that.entry.boundaries.now result }
    {
        self.merged(alloc, that, &IntersectionOp, &mut Comparisons::new())
    }

    /// The difference: the members of this set that aren't members of `that`.
    ///
    /// Of two equal boundaries this set's is copied. It fails only if an allocation or a copy does,
    /// and makes at most twice the weight of the two lists in comparisons.
    pub fn difference<const M: usize>(
        &self,
        alloc: Global,
        that: RangeSetRef<T>,
    ) -> Result<RangeSet<T, M>, AllocError>
        ensures headline { GivesTheResult T.cmp T.is_copy difference_table
            self.now.boundaries.now that.entry.boundaries.now result }
        ensures gives { GivesOperation T.cmp T.is_copy T.is_infallible difference_table M
            self.now.boundaries.now that.entry.boundaries.now result }
    {
        self.merged(alloc, that, &DiffOp, &mut Comparisons::new())
    }

    /// The symmetric difference: the elements that are members of exactly one of the sets.
    ///
    /// Of two equal boundaries this set's is copied. It fails only if an allocation or a copy does,
    /// and makes at most twice the weight of the two lists in comparisons.
    pub fn symmetric_difference<const M: usize>(
        &self,
        alloc: Global,
        that: RangeSetRef<T>,
    ) -> Result<RangeSet<T, M>, AllocError>
        ensures headline { GivesTheResult T.cmp T.is_copy symmetric_difference_table
            self.now.boundaries.now that.entry.boundaries.now result }
        ensures gives { GivesOperation T.cmp T.is_copy T.is_infallible symmetric_difference_table M
            self.now.boundaries.now that.entry.boundaries.now result }
    {
        self.merged(alloc, that, &XorOp, &mut Comparisons::new())
    }
}

impl<'a, T: RangeSetEntry + EntryClone + MadeWith<Global> + Drop> RangeSetRef<'a, T> {
    /// The result of any boolean operation (a connective), counting the comparisons. If the
    /// connective is on while both sides are off, the result is that among values.
    ///
    /// It copies the boundaries at which the connective changes, of two equal ones this set's. If
    /// the connective is on while both sides are off, it then removes a first boundary that is the
    /// least value, or else puts the least value before the others. It makes at most twice the
    /// weight of the two lists in comparisons, even if it fails.
    pub fn combine<O: MergeOperation, const M: usize>(
        &self,
        alloc: Global,
        that: RangeSetRef<T>,
        op: &O,
        count: &mut Comparisons,
    ) -> Result<RangeSet<T, M>, AllocError>
        requires made { count.old < 2 ^ 64 }
        ensures headline { CostsTwiceWeight T.cmp self.now.boundaries.now that.entry.boundaries.now
            count.old count.new (IfOk result (IsTheResult T.cmp T.is_value (O.connective op.now)
            self.now.boundaries.now that.entry.boundaries.now T.is_copy T.is_copy)) }
        ensures means { IfOk result (λ set. MeansAmong T.cmp T.is_value (O.connective op.now) set
            self.now.boundaries.now that.entry.boundaries.now) }
        ensures left_own_item { O.connective op.now false false ≡ false → IfOk result (λ set.
            AreCopies T.is_copy (changes T.cmp (O.connective op.now)
            self.now.boundaries.now that.entry.boundaries.now) set) }

        // On while both sides are off: the copies, with the least value removed from the start or
        // put there.
        ensures flipped { O.connective op.now false false ≡ true → IfOk result (λ set.
            AreFlipped T.cmp T.least (AreCopies T.is_copy (changes T.cmp (O.connective op.now)
            self.now.boundaries.now that.entry.boundaries.now)) set) }

        // Of lists of values it has values alone.
        ensures values { EqualsAreValues T.cmp T.is_value → All T.is_value self.now.boundaries.now →
            All T.is_value that.entry.boundaries.now → IfOk result (λ set. All T.is_value set) }
        ensures succeeds { O.connective op.now false false ≡ false →
            length self.now.boundaries.now + length that.entry.boundaries.now ≤ M →
            All T.is_infallible self.now.boundaries.now →
            All T.is_infallible that.entry.boundaries.now → IsOk result }
        ensures succeeds_flipped { O.connective op.now false false ≡ true →
            length self.now.boundaries.now + length that.entry.boundaries.now < M →
            All T.is_infallible self.now.boundaries.now →
            All T.is_infallible that.entry.boundaries.now → T.is_min_infallible → IsOk result }
        ensures comparisons { AddsAtMost count.old count.new
            (2 * weight T.cmp self.now.boundaries.now that.entry.boundaries.now) }
    {
        changes_are_at_most_the_lengths::<T, Comparisons>();
        changes_are_marked_truly::<T, Comparisons>();
        let merged = self.merged(alloc, that, op, count)?;
        let flips = op.when_off();
        if flips { !merged } else { Ok(merged) }
    }
}

impl<'a, T: Ord> RangeSetRef<'a, T> {
    /// Writes the boundaries of the operation's result to the start of `out`, and returns how many
    /// there are. Both lengths together must fit a `usize`.
    ///
    /// Of two equal boundaries this set's is written, and the rest of `out` stays as it was. It is
    /// an error exactly if `out` is too short: the error says how long it must be, and nothing is
    /// said of what `out` then holds. It takes no memory, and counts its comparisons, at most twice
    /// the weight of the two lists.
    pub fn merge_into<O: MergeOperation>(
        &self,
        that: RangeSetRef<T>,
        op: &O,
        out: &mut [T],
        count: &mut Comparisons,
    ) -> Result<usize, NoRoom>
    where
        T: Copy,
        requires off { O.connective op.now false false ≡ false }
        requires fits { length self.now.boundaries.now + length that.boundaries.now < 2 ^ 64 }
        requires made { count.old < 2 ^ 64 }
        ensures writes { WritesOperation T.cmp (O.connective op.now)
            self.now.boundaries.now that.entry.boundaries.now out.old out.new result }
        ensures comparisons { AddsAtMost count.old count.new
            (2 * weight T.cmp self.now.boundaries.now that.entry.boundaries.now) }
    {
        changes_mean_the_connective::<T, Comparisons>();
        BufferMergeState::merge(self.boundaries, that.boundaries, out, op, count)
    }
}
