//! Whole ranges taken out of a set, which takes no memory.
ghost use Rattle.std.specs.Prelude.{◌≡◌, ◌++◌, ◌∷◌, [], filter, MatchOption};
ghost use Rattle.range_collections.specs.Ranges.{ranges_of};

use crate::retaining::{RangeFilter, retain_ranges};
use crate::set::ChunkedRangeSet;
use range_collections::RangeSetRange;
use range_collections::changes::{take_first_range, take_last_range};

impl<T: Ord + Drop> ChunkedRangeSet<T> {
    /// Removes the first range and returns it, or `None` if the set is empty. It makes no comparison
    /// and takes no memory.
    pub fn pop_first(&mut self) -> Option<RangeSetRange<T>>
        ensures range { MatchOption result ((self.old ≡ []) × (self.new ≡ []))
            (λ range. ranges_of self.old ≡ range ∷ ranges_of self.new) }
    {
        take_first_range(&mut self.list)
    }

    /// Removes the last range and returns it, or `None` if the set is empty. It makes no comparison
    /// and takes no memory.
    pub fn pop_last(&mut self) -> Option<RangeSetRange<T>>
        ensures range { MatchOption result ((self.old ≡ []) × (self.new ≡ []))
            (λ range. ranges_of self.old ≡ ranges_of self.new ++ range ∷ []) }
    {
        take_last_range(&mut self.list)
    }

    /// Keeps the ranges that the filter keeps, and removes the others. The filter is asked once for
    /// each range, from the lowest on. It takes no memory and copies nothing.
    pub fn retain<F: RangeFilter<T>>(&mut self, by: &F)
        ensures { ranges_of self.new ≡ filter (F.is_kept by.now) (ranges_of self.old) }
    {
        retain_ranges(&mut self.list, by);
    }
}
