//! Whole ranges taken out of a set at its ends, which takes no memory.
ghost use Rattle.std.specs.Prelude.{◌≡◌, ◌++◌, ◌∷◌, [], MatchOption};
ghost use Rattle.range_collections.specs.Ranges.{ranges_of};

use crate::changes::{take_first_range, take_last_range};
use crate::range_set::RangeSet;
use crate::range_set_range::RangeSetRange;
use std::alloc::Global;
use std::default::MadeWith;

impl<T: Ord + MadeWith<Global> + Drop, const N: usize> RangeSet<T, N> {
    /// Removes the first range and returns it, or `None` if the set is empty. It moves the other
    /// boundaries. It makes no comparison and takes no memory.
    ///
    /// ```text
    /// set.pop_first()                  // 0..10, of RangeSet{0..10, 20..30}
    /// set.pop_first()                  // 20..30
    /// set.pop_first()                  // None
    /// ```
    pub fn pop_first(&mut self) -> Option<RangeSetRange<T>>
        ensures range { MatchOption result ((self.old ≡ []) × (self.new ≡ []))
            (λ range. ranges_of self.old ≡ range ∷ ranges_of self.new) }
    {
        take_first_range(&mut self.list)
    }

    /// Removes the last range and returns it, or `None` if the set is empty. It makes no comparison
    /// and takes no memory.
    ///
    /// ```text
    /// set.pop_last()                   // 20.., of RangeSet{0..10, 20..}
    /// ```
    pub fn pop_last(&mut self) -> Option<RangeSetRange<T>>
        ensures range { MatchOption result ((self.old ≡ []) × (self.new ≡ []))
            (λ range. ranges_of self.old ≡ ranges_of self.new ++ range ∷ []) }
    {
        take_last_range(&mut self.list)
    }
}
