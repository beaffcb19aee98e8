//! Ranges put in and taken out, and whether that did something.
ghost use Rattle.std.specs.Prelude.{◌≡◌, ◌↔◌, ◌&&◌, ◌||◌, not, false, IsTrue, IfOk, OnOk};
ghost use Rattle.std.specs.Ordering.{is_le, is_lt};
ghost use Rattle.range_merge.specs.Boundaries.{member};
ghost use Rattle.range_merge.specs.Connective.{union_table, difference_table};
ghost use Rattle.range_collections.specs.Extent.{HasAllWithin};
ghost use Rattle.range_collections.specs.Insertion.{IsChangedByRange, without_value};
ghost use Rattle.range_collections.specs.Intersects.{HasMemberWithin};
ghost use Rattle.range_collections.specs.Ranges.{range_items};

use crate::set::ChunkedRangeSet;
use range_collections::Comparisons;
use range_collections::questions::{has_all, has_some};
use std::alloc::AllocError;
use std::ops::Range;

impl<T: Ord + Drop> ChunkedRangeSet<T> {
    /// Adds the elements of the range, as `insert` does, and returns `true` if one of them wasn't a
    /// member before. It makes one search more.
    ///
    /// ```text
    /// let mut seen = ChunkedRangeSet::new(alloc);
    /// seen.insert_changed(5..12)?      // true
    /// seen.insert_changed(6..10)?      // false
    /// ```
    pub fn insert_changed(&mut self, range: Range<T>) -> Result<bool, AllocError>
        ensures answer { IfOk result (λ is_new. (is_new ≡ false) ↔
            HasAllWithin T.cmp self.old range.start range.end) }
        ensures changed { IsChangedByRange T.cmp union_table 0
            self.old (range_items T.cmp range.start range.end) self.new (without_value result) }
        ensures members { OnOk result ((x : T) → member T.cmp self.new x ≡
            (member T.cmp self.old x || (is_le (T.cmp range.start x) && is_lt (T.cmp x range.end)))) }
    {
        let all = has_all(
            &self.list,
            &range.start,
            &range.end,
            &mut Comparisons::new(),
        );
        self.insert(range)?;
        Ok(!all)
    }

    /// Removes the elements of the range, as `remove` does, and returns `true` if one of them was a
    /// member before. It makes one search more.
    ///
    /// ```text
    /// free.remove_changed(8..12)?      // true, of 0..10
    /// free.remove_changed(8..10)?      // false
    /// ```
    pub fn remove_changed(&mut self, range: Range<T>) -> Result<bool, AllocError>
        ensures answer { IfOk result (λ was_there. IsTrue was_there ↔
            HasMemberWithin T.cmp self.old range.start range.end) }
        ensures changed { IsChangedByRange T.cmp difference_table 0
            self.old (range_items T.cmp range.start range.end) self.new (without_value result) }
        ensures members { OnOk result ((x : T) → member T.cmp self.new x ≡
            (member T.cmp self.old x && not (is_le (T.cmp range.start x) && is_lt (T.cmp x range.end)))) }
    {
        let some = has_some(&self.list, &range.start, &range.end);
        self.remove(range)?;
        Ok(some)
    }
}
