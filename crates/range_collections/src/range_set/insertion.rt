//! A range put into a set or taken out of it, in place.
//!
//! The start and the end are searched for. What lies between gives way to those of the two at which
//! the set changes. The list grows by two boundaries or not at all.
ghost use Rattle.std.specs.Prelude.{◌+◌, ◌*◌, ◌^◌, ◌<◌, length, ◌≡◌, ◌&&◌, OnOk, ◌||◌, not, ◌↔◌, IfOk, IsTrue, false};
ghost use Rattle.range_merge.specs.Connective.{union_table, difference_table};
ghost use Rattle.range_merge.specs.Counting.{AddsAtMost};
ghost use Rattle.range_merge.specs.Runs.{digits};
ghost use Rattle.range_collections.specs.Insertion.{IsChangedByRange, without_value};
ghost use Rattle.range_collections.specs.Extent.{HasAllWithin};
ghost use Rattle.range_collections.specs.Intersects.{HasMemberWithin};
ghost use Rattle.range_collections.specs.Ranges.{range_items};
ghost use Rattle.std.specs.Ordering.{is_le, is_lt};
ghost use Rattle.range_merge.specs.Boundaries.{member};

use crate::changes::set_range;
use crate::comparisons::Comparisons;
use crate::questions::{has_all, has_some};
use crate::range_set::RangeSet;
use std::alloc::{AllocError, Global};
use std::default::MadeWith;
use std::ops::Range;

impl<T: Ord + MadeWith<Global> + Drop, const N: usize> RangeSet<T, N> {
    /// Adds the elements of the range. An empty or reversed range changes nothing. Of two equal
    /// boundaries, this set's own stays.
    ///
    /// Each call moves the boundaries after the range. If there are many ranges, make a set of them
    /// by `from_ranges` and add it by `union_with`: of 100,000 ranges at random, one call each
    /// takes over 30 times as long.
    ///
    /// It asks for memory only if the set grows by two boundaries and has no room for them, and
    /// before it changes anything. If that fails, the set is as it was and the range is dropped.
    pub fn insert(&mut self, range: Range<T>) -> Result<(), AllocError>
        ensures changed { IsChangedByRange T.cmp union_table N
            self.old (range_items T.cmp range.start range.end) self.new result }
        ensures members { OnOk result ((x : T) → member T.cmp self.new x ≡
            (member T.cmp self.old x || (is_le (T.cmp range.start x) && is_lt (T.cmp x range.end)))) }
    {
        self.insert_counted(range, &mut Comparisons::new())
    }

    /// The same as `insert`, counted: one comparison of the start with the end, and for each of the
    /// two at most as many as the number of boundaries has binary digits.
    pub fn insert_counted(
        &mut self,
        range: Range<T>,
        count: &mut Comparisons,
    ) -> Result<(), AllocError>
        requires made { count.old < 2 ^ 64 }
        ensures changed { IsChangedByRange T.cmp union_table N
            self.old (range_items T.cmp range.start range.end) self.new result }
        ensures members { OnOk result ((x : T) → member T.cmp self.new x ≡
            (member T.cmp self.old x || (is_le (T.cmp range.start x) && is_lt (T.cmp x range.end)))) }
        ensures comparisons { AddsAtMost count.old count.new (2 * digits (length self.old) + 1) }
    {
        set_range(&mut self.list, range, true, count)
    }

    /// Adds the elements of the range, as `insert` does, and returns `true` if one of them wasn't a
    /// member before. It makes at most `3 * d + 3` comparisons, where `d` is the number of binary
    /// digits of the number of boundaries (seen by reading).
    ///
    /// ```text
    /// let mut seen = RangeSet2::from_range(alloc, 0..10)?;
    /// seen.insert_changed(5..12)?      // true
    /// seen.insert_changed(3..11)?      // false
    /// ```
    pub fn insert_changed(&mut self, range: Range<T>) -> Result<bool, AllocError>
        ensures answer { IfOk result (λ is_new. (is_new ≡ false) ↔
            HasAllWithin T.cmp self.old range.start range.end) }
        ensures changed { IsChangedByRange T.cmp union_table N
            self.old (range_items T.cmp range.start range.end) self.new (without_value result) }
        ensures members { OnOk result ((x : T) → member T.cmp self.new x ≡
            (member T.cmp self.old x || (is_le (T.cmp range.start x) && is_lt (T.cmp x range.end)))) }
    {
        let all = has_all(
            self.list.as_slice(),
            &range.start,
            &range.end,
            &mut Comparisons::new(),
        );
        self.insert(range)?;
        Ok(!all)
    }

    /// Removes the elements of the range. An empty or reversed range changes nothing. Of two equal
    /// boundaries, this set's own stays.
    ///
    /// It asks for memory only if the set grows by two boundaries and has no room for them, and
    /// before it changes anything. If that fails, the set is as it was and the range is dropped.
    pub fn remove(&mut self, range: Range<T>) -> Result<(), AllocError>
        ensures changed { IsChangedByRange T.cmp difference_table N
            self.old (range_items T.cmp range.start range.end) self.new result }
        ensures members { OnOk result ((x : T) → member T.cmp self.new x ≡
            (member T.cmp self.old x && not (is_le (T.cmp range.start x) && is_lt (T.cmp x range.end)))) }
    {
        self.remove_counted(range, &mut Comparisons::new())
    }

    /// The same as `remove`, counted: one comparison of the start with the end, and for each of the
    /// two at most as many as the number of boundaries has binary digits.
    pub fn remove_counted(
        &mut self,
        range: Range<T>,
        count: &mut Comparisons,
    ) -> Result<(), AllocError>
        requires made { count.old < 2 ^ 64 }
        ensures changed { IsChangedByRange T.cmp difference_table N
            self.old (range_items T.cmp range.start range.end) self.new result }
        ensures members { OnOk result ((x : T) → member T.cmp self.new x ≡
            (member T.cmp self.old x && not (is_le (T.cmp range.start x) && is_lt (T.cmp x range.end)))) }
        ensures comparisons { AddsAtMost count.old count.new (2 * digits (length self.old) + 1) }
    {
        set_range(&mut self.list, range, false, count)
    }

    /// Removes the elements of the range, as `remove` does, and returns `true` if one of them was a
    /// member before. It makes at most `3 * d + 3` comparisons, where `d` is the number of binary
    /// digits of the number of boundaries (seen by reading).
    ///
    /// ```text
    /// let mut free = RangeSet2::from_range(alloc, 0..10)?;
    /// free.remove_changed(8..12)?      // true
    /// free.remove_changed(8..10)?      // false
    /// ```
    pub fn remove_changed(&mut self, range: Range<T>) -> Result<bool, AllocError>
        ensures answer { IfOk result (λ was_there. IsTrue was_there ↔
            HasMemberWithin T.cmp self.old range.start range.end) }
        ensures changed { IsChangedByRange T.cmp difference_table N
            self.old (range_items T.cmp range.start range.end) self.new (without_value result) }
        ensures members { OnOk result ((x : T) → member T.cmp self.new x ≡
            (member T.cmp self.old x && not (is_le (T.cmp range.start x) && is_lt (T.cmp x range.end)))) }
    {
        let some = has_some(self.list.as_slice(), &range.start, &range.end);
        self.remove(range)?;
        Ok(some)
    }
}
