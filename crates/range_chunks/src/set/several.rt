//! Several ranges put in and taken out at once.
ghost use Rattle.std.specs.Prelude.{◌≡◌, ◌&&◌, ◌||◌, not, OnOk, OnErr};
ghost use Rattle.range_merge.specs.Boundaries.{member};
ghost use Rattle.range_merge.specs.Connective.{Means, union_table, difference_table};

use crate::set::ChunkedRangeSet;
use crate::several::set_all;
use range_collections::RangeSetRef;
use std::alloc::AllocError;

impl<T: Ord + Copy> ChunkedRangeSet<T> {
    /// Adds the members of `that`, with copies of its boundaries.
    ///
    /// It searches for each range two or three times, and moves what `insert` would move: where ranges
    /// lie far apart, those between them stay where they are. If memory runs out, this set has the
    /// boundaries that it had.
    pub fn insert_all(&mut self, that: RangeSetRef<T>) -> Result<(), AllocError>
        ensures means { OnOk result (Means T.cmp union_table
            self.new self.old that.entry.boundaries.now) }
        ensures members { OnOk result ((x : T) → member T.cmp self.new x ≡
            (member T.cmp self.old x || member T.cmp that.entry.boundaries.now x)) }
        ensures unchanged { OnErr result (self.new ≡ self.old) }
    {
        set_all(&mut self.list, that.boundaries(), true)
    }

    /// Removes the members of `that`. Else it is as `insert_all`.
    pub fn remove_all(&mut self, that: RangeSetRef<T>) -> Result<(), AllocError>
        ensures means { OnOk result (Means T.cmp difference_table
            self.new self.old that.entry.boundaries.now) }
        ensures members { OnOk result ((x : T) → member T.cmp self.new x ≡
            (member T.cmp self.old x && not (member T.cmp that.entry.boundaries.now x))) }
        ensures unchanged { OnErr result (self.new ≡ self.old) }
    {
        set_all(&mut self.list, that.boundaries(), false)
    }
}
