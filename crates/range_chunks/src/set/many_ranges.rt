//! The set of many ranges, which are inserted one by one, in any order: nothing has to be sorted
//! first.
ghost use Rattle.std.specs.Prelude.{◌≡◌, ◌↔◌, ◌∷◌, [], true, Any, IfOk};
ghost use Rattle.range_merge.specs.Boundaries.{member};
ghost use Rattle.range_collections.specs.Ranges.{range_boundaries, range_items, IsInRange};
ghost use Rattle.range_collections.specs.Unions.{GivesUnion, IsAdded};

use crate::set::ChunkedRangeSet;
use range_collections::{Comparisons, EntryClone, RangeSetRange, has_elements};
use std::alloc::{AllocError, Global};
use std::ops::Range;

impl<T: EntryClone + Drop> ChunkedRangeSet<T> {
    /// The elements that lie in at least one of the ranges. The ranges may come in any order, and
    /// may overlap, touch or be empty.
    ///
    /// It inserts one range after the other, with copies of the ends of each that isn't empty.
    pub fn from_ranges(alloc: Global, ranges: &[RangeSetRange<T>]) -> Result<Self, AllocError>
        ensures gives { GivesUnion T.cmp T.is_copy T.is_infallible (range_boundaries T.cmp) 0
            ranges.now result }
        ensures members { IfOk result (λ set. (x : T) →
            (member T.cmp set x ≡ true) ↔ Any (λ range. IsInRange T.cmp range x) ranges.now) }
    {
        let mut set = ChunkedRangeSet::new(alloc);
        for i in 0..ranges.len() {
            set.add(&ranges[i])?;
        }
        Ok(set)
    }

    // Adds the elements of the range, with copies of its ends if it has elements.
    fn add(&mut self, range: &RangeSetRange<T>) -> Result<(), AllocError>
        ensures { IsAdded T.cmp T.is_copy T.is_infallible 0 self.old
            (range_boundaries T.cmp range.now) self.new result }
    {
        match range {
            RangeSetRange::Range(ends) => self.add_range(ends),
            RangeSetRange::RangeFrom(from) => self.add_from(&from.start),
        }
    }

    // Adds the elements of a range with an end, with copies of both ends if it has elements.
    fn add_range(&mut self, range: &Range<T>) -> Result<(), AllocError>
        ensures { IsAdded T.cmp T.is_copy T.is_infallible 0 self.old
            (range_items T.cmp range.now.start range.now.end) self.new result }
    {
        if !has_elements(&range.start, &range.end, &mut Comparisons::new()) {
            // Brings that the boundaries are sorted.
            let _sorted = &self.list;
            return Ok(());
        }
        let start = range.start.entry_clone()?;
        let end = range.end.entry_clone()?;
        self.insert(start..end)
    }

    // Adds the elements of a range without an end, with a copy of its start.
    fn add_from(&mut self, start: &T) -> Result<(), AllocError>
        ensures { IsAdded T.cmp T.is_copy T.is_infallible 0 self.old (start.now ∷ [])
            self.new result }
    {
        let start = start.entry_clone()?;
        self.insert_from(start..)
    }
}
