//! What a set and a view make: new sets, by the calls of the set's view.
ghost use Rattle.std.specs.Prelude.{◌≡◌, ◌+◌, ◌*◌, ◌<◌, ◌^◌, length, false, true, ◌≤◌, All, IsOk, IfOk};
ghost use Rattle.range_merge.specs.Changes.{changes};
ghost use Rattle.range_merge.specs.Connective.{intersection_table, difference_table, union_table, symmetric_difference_table};
ghost use Rattle.range_merge.specs.Counting.{AddsAtMost};
ghost use Rattle.range_merge.specs.Runs.{weight};
ghost use Rattle.range_merge.specs.Copies.{AreCopies};
ghost use Rattle.range_collections.specs.Values.{MeansAmong, AreFlipped, EqualsAreValues};
ghost use Rattle.range_collections.specs.Headline.{GivesTheResult, IsTheResult, CostsTwiceWeight};
ghost use Rattle.range_collections.specs.Operators.{GivesOperation};

use crate::comparisons::Comparisons;
use crate::range_set::RangeSet;
use crate::view::RangeSetRef;
use range_entry::{EntryClone, RangeSetEntry};
use range_merge::MergeOperation;
use std::alloc::{AllocError, Global};
use std::default::MadeWith;

impl<T: EntryClone + MadeWith<Global> + Drop, const N: usize> RangeSet<T, N> {
    /// The operation's result, counting the comparisons.
    ///
    /// Of two equal boundaries this set's is copied. It fails only if an allocation or a copy does.
    /// It makes at most twice the weight of the two lists in comparisons, even if it fails.
    pub fn merge_new<O: MergeOperation, const M: usize>(
        &self,
        that: RangeSetRef<T>,
        op: &O,
        count: &mut Comparisons,
    ) -> Result<RangeSet<T, M>, AllocError>
        requires off { O.connective op.now false false ≡ false }
        requires made { count.old < 2 ^ 64 }
        ensures headline { CostsTwiceWeight T.cmp self.now that.entry.boundaries.now count.old count.new
            (GivesTheResult T.cmp T.is_copy (O.connective op.now)
            self.now that.entry.boundaries.now result) }
        ensures gives { GivesOperation T.cmp T.is_copy T.is_infallible (O.connective op.now) M
            self.now that.entry.boundaries.now result }
        ensures comparisons { AddsAtMost count.old count.new
            (2 * weight T.cmp self.now that.entry.boundaries.now) }
    {
        self.as_ref().merge_new(self.allocator(), that, op, count)
    }

    /// The union: the elements that are members of either set. Of two equal boundaries this set's
    /// is copied. It fails only if an allocation or a copy does, and makes at most twice the weight
    /// of the two lists in comparisons.
    pub fn union<const M: usize>(&self, that: RangeSetRef<T>) -> Result<RangeSet<T, M>, AllocError>
        ensures headline { GivesTheResult T.cmp T.is_copy union_table
            self.now that.entry.boundaries.now result }
        ensures gives { GivesOperation T.cmp T.is_copy T.is_infallible union_table M
            self.now that.entry.boundaries.now result }
    {
        self.as_ref().union(self.allocator(), that)
    }

    /// The intersection: the elements that are members of both sets. Of two equal boundaries this
    /// set's is copied. It fails only if an allocation or a copy does, and makes at most twice the
    /// weight of the two lists in comparisons.
    pub fn intersection<const M: usize>(
        &self,
        that: RangeSetRef<T>,
    ) -> Result<RangeSet<T, M>, AllocError>
        ensures headline { GivesTheResult T.cmp T.is_copy intersection_table
            self.now that.entry.boundaries.now result }
        ensures gives { GivesOperation T.cmp T.is_copy T.is_infallible intersection_table M
            self.now that.entry.boundaries.now result }
    {
        self.as_ref().intersection(self.allocator(), that)
    }

    /// The difference: the members of this set that aren't members of `that`. Of two equal
    /// boundaries this set's is copied. It fails only if an allocation or a copy does, and makes at
    /// most twice the weight of the two lists in comparisons.
    pub fn difference<const M: usize>(
        &self,
        that: RangeSetRef<T>,
    ) -> Result<RangeSet<T, M>, AllocError>
        ensures headline { GivesTheResult T.cmp T.is_copy difference_table
            self.now that.entry.boundaries.now result }
        ensures gives { GivesOperation T.cmp T.is_copy T.is_infallible difference_table M
            self.now that.entry.boundaries.now result }
    {
        self.as_ref().difference(self.allocator(), that)
    }

    /// The symmetric difference: the elements that are members of exactly one of the sets. Of two
    /// equal boundaries this set's is copied. It fails only if an allocation or a copy does, and
    /// makes at most twice the weight of the two lists in comparisons.
    pub fn symmetric_difference<const M: usize>(
        &self,
        that: RangeSetRef<T>,
    ) -> Result<RangeSet<T, M>, AllocError>
        ensures headline { GivesTheResult T.cmp T.is_copy symmetric_difference_table
            self.now that.entry.boundaries.now result }
        ensures gives { GivesOperation T.cmp T.is_copy T.is_infallible symmetric_difference_table M
            self.now that.entry.boundaries.now result }
    {
        self.as_ref().symmetric_difference(self.allocator(), that)
    }
}

impl<T: RangeSetEntry + EntryClone + MadeWith<Global> + Drop, const N: usize> RangeSet<T, N> {
    /// The result of any boolean operation (a connective), counting the comparisons. If the
    /// connective is on while both sides are off, the result is that among values.
    ///
    /// It copies the boundaries at which the connective changes, of two equal ones this set's. If
    /// the connective is on while both sides are off, it then removes a first boundary that is the
    /// least value, or else puts the least value before the others. It makes at most twice the
    /// weight of the two lists in comparisons, even if it fails.
    pub fn combine<O: MergeOperation, const M: usize>(
        &self,
        that: RangeSetRef<T>,
        op: &O,
        count: &mut Comparisons,
    ) -> Result<RangeSet<T, M>, AllocError>
        requires made { count.old < 2 ^ 64 }
        ensures headline { CostsTwiceWeight T.cmp self.now that.entry.boundaries.now count.old count.new
            (IfOk result (IsTheResult T.cmp T.is_value (O.connective op.now)
            self.now that.entry.boundaries.now T.is_copy T.is_copy)) }
        ensures means { IfOk result (λ set. MeansAmong T.cmp T.is_value (O.connective op.now) set
            self.now that.entry.boundaries.now) }
        ensures left_own_item { O.connective op.now false false ≡ false → IfOk result (λ set.
            AreCopies T.is_copy (changes T.cmp (O.connective op.now)
            self.now that.entry.boundaries.now) set) }

        // On while both sides are off: the copies, with the least value removed from the start or
        // put there.
        ensures flipped { O.connective op.now false false ≡ true → IfOk result (λ set.
            AreFlipped T.cmp T.least (AreCopies T.is_copy (changes T.cmp (O.connective op.now)
            self.now that.entry.boundaries.now)) set) }

        // Of lists of values it has values alone.
        ensures values { EqualsAreValues T.cmp T.is_value → All T.is_value self.now →
            All T.is_value that.entry.boundaries.now → IfOk result (λ set. All T.is_value set) }
        ensures succeeds { O.connective op.now false false ≡ false →
            length self.now + length that.entry.boundaries.now ≤ M →
            All T.is_infallible self.now → All T.is_infallible that.entry.boundaries.now →
            IsOk result }
        ensures succeeds_flipped { O.connective op.now false false ≡ true →
            length self.now + length that.entry.boundaries.now < M →
            All T.is_infallible self.now → All T.is_infallible that.entry.boundaries.now →
            T.is_min_infallible → IsOk result }
        ensures comparisons { AddsAtMost count.old count.new
            (2 * weight T.cmp self.now that.entry.boundaries.now) }
    {
        self.as_ref().combine(self.allocator(), that, op, count)
    }
}
