//! The calls that take a counter: a set of `n` boundaries has at most `n` chunks, so a search makes
//! at most as many comparisons as `n` has binary digits, and those of 512.
ghost use Rattle.std.specs.Prelude.{◌≡◌, ◌↔◌, ◌^◌, ◌<◌, ◌+◌, ◌*◌, ◌&&◌, ◌||◌, ◌∷◌, [], not, length, IsTrue, OnOk};
ghost use Rattle.std.specs.Ordering.{is_le, is_lt};
ghost use Rattle.range_merge.specs.Boundaries.{member};
ghost use Rattle.range_merge.specs.Connective.{union_table, difference_table};
ghost use Rattle.range_merge.specs.Counting.{AddsAtMost};
ghost use Rattle.range_merge.specs.Runs.{digits};
ghost use Rattle.range_collections.specs.Extent.{HasAllWithin};
ghost use Rattle.range_collections.specs.Insertion.{IsChangedByRange};
ghost use Rattle.range_collections.specs.Ranges.{range_items};

use crate::set::ChunkedRangeSet;
use crate::to_the_end::set_from;
use range_collections::Comparisons;
use range_collections::changes::set_range;
use range_collections::questions::{contains, has_all};
use std::alloc::AllocError;
use std::ops::{Range, RangeFrom};

impl<T: Ord> ChunkedRangeSet<T> {
    /// Whether `value` is a member.
    #[inline]
    pub fn contains_counted(&self, value: &T, count: &mut Comparisons) -> bool
        requires made { count.old < 2 ^ 64 }
        ensures member { result ≡ member T.cmp self.now value.now }
        ensures comparisons { AddsAtMost count.old count.new
            (digits (length self.now) + digits 512) }
    {
        contains(&self.list, value, count)
    }
}

impl<T: Ord + Drop> ChunkedRangeSet<T> {
    /// Whether every element of the range is a member.
    #[inline]
    pub fn contains_range_counted(&self, range: Range<T>, count: &mut Comparisons) -> bool
        requires made { count.old < 2 ^ 64 }
        ensures members { IsTrue result ↔ HasAllWithin T.cmp self.now range.start range.end }
        ensures comparisons { AddsAtMost count.old count.new
            (digits (length self.now) + digits 512 + 2) }
    {
        has_all(&self.list, &range.start, &range.end, count)
    }

    /// `insert`, with a counter.
    pub fn insert_counted(
        &mut self,
        range: Range<T>,
        count: &mut Comparisons,
    ) -> Result<(), AllocError>
        requires made { count.old < 2 ^ 64 }
        ensures changed { IsChangedByRange T.cmp union_table 0
            self.old (range_items T.cmp range.start range.end) self.new result }
        ensures members { OnOk result ((x : T) → member T.cmp self.new x ≡
            (member T.cmp self.old x || (is_le (T.cmp range.start x) && is_lt (T.cmp x range.end)))) }
        ensures comparisons { AddsAtMost count.old count.new
            (2 * (digits (length self.old) + digits 512) + 1) }
    {
        set_range(&mut self.list, range, true, count)
    }

    /// `remove`, with a counter.
    pub fn remove_counted(
        &mut self,
        range: Range<T>,
        count: &mut Comparisons,
    ) -> Result<(), AllocError>
        requires made { count.old < 2 ^ 64 }
        ensures changed { IsChangedByRange T.cmp difference_table 0
            self.old (range_items T.cmp range.start range.end) self.new result }
        ensures members { OnOk result ((x : T) → member T.cmp self.new x ≡
            (member T.cmp self.old x && not (is_le (T.cmp range.start x) && is_lt (T.cmp x range.end)))) }
        ensures comparisons { AddsAtMost count.old count.new
            (2 * (digits (length self.old) + digits 512) + 1) }
    {
        set_range(&mut self.list, range, false, count)
    }

    /// `insert_from`, with a counter.
    pub fn insert_from_counted(
        &mut self,
        range: RangeFrom<T>,
        count: &mut Comparisons,
    ) -> Result<(), AllocError>
        requires made { count.old < 2 ^ 64 }
        ensures changed { IsChangedByRange T.cmp union_table 0
            self.old (range.start ∷ []) self.new result }
        ensures members { OnOk result ((x : T) → member T.cmp self.new x ≡
            (member T.cmp self.old x || is_le (T.cmp range.start x))) }
        ensures comparisons { AddsAtMost count.old count.new
            (digits (length self.old) + digits 512) }
    {
        set_from(&mut self.list, range.start, true, count)
    }

    /// `remove_from`, with a counter.
    pub fn remove_from_counted(
        &mut self,
        range: RangeFrom<T>,
        count: &mut Comparisons,
    ) -> Result<(), AllocError>
        requires made { count.old < 2 ^ 64 }
        ensures changed { IsChangedByRange T.cmp difference_table 0
            self.old (range.start ∷ []) self.new result }
        ensures members { OnOk result ((x : T) → member T.cmp self.new x ≡
            (member T.cmp self.old x && not (is_le (T.cmp range.start x)))) }
        ensures comparisons { AddsAtMost count.old count.new
            (digits (length self.old) + digits 512) }
    {
        set_from(&mut self.list, range.start, false, count)
    }
}
