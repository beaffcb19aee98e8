//! Ranges without an end against a set, as its view does.
ghost use Rattle.std.specs.Prelude.{◌↔◌, IsTrue};
ghost use Rattle.range_collections.specs.Endless.{HasAllFrom, HasMemberFrom};

use crate::range_set::RangeSet;
use std::ops::RangeFrom;

impl<T: Ord, const N: usize> RangeSet<T, N> {
    /// Whether every element from the start of the range on is a member.
    #[inline]
    pub fn contains_range_from(&self, range: RangeFrom<T>) -> bool
    where
        T: Drop,
        ensures { IsTrue result ↔ HasAllFrom T.cmp self.now range.start }
    {
        self.as_ref().contains_range_from(range)
    }

    /// Whether some member lies at the start of the range or above it.
    #[inline]
    pub fn intersects_range_from(&self, range: RangeFrom<T>) -> bool
    where
        T: Drop,
        ensures { IsTrue result ↔ HasMemberFrom T.cmp self.now range.start }
    {
        self.as_ref().intersects_range_from(range)
    }
}
