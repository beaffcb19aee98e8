//! How many ranges a set has, the first and the last of them, the one at an element, those that
//! share an element with a range, and the parts of a range that are in the set or not.
ghost use Rattle.std.specs.Prelude.{◌≡◌, ◌↔◌, ◌^◌, ◌-◌, ◌<◌, ◌&&◌, not, [], Some, None, true, filter, length, Contains, IsTrue, IsSome, IfSome, MatchOption, slice_get};
ghost use Rattle.std.specs.List.{last_or};
ghost use Rattle.std.specs.Ordering.{is_le, is_lt};
ghost use Rattle.range_merge.specs.Boundaries.{IsAscending, member};
ghost use Rattle.range_merge.specs.Connective.{intersection_table, difference_table};
ghost use Rattle.range_collections.specs.Covered.{covered_of};
ghost use Rattle.range_collections.specs.Extent.{IsSpan};
ghost use Rattle.range_collections.specs.Overlapping.{overlaps};
ghost use Rattle.range_collections.specs.Ranges.{ranges_of, range_now, range_start, IsInRange};
ghost use Rattle.range_collections.specs.Values.{IsEverything};
ghost use Rattle.range_collections.specs.Within.{GivesParts};
ghost use Rattle.range_list.specs.Lists.{joined};

use crate::iter::Iter;
use crate::set::ChunkedRangeSet;
use crate::values::count_members;
use crate::within::{Gaps, RangesWithin, parts_within};
use range_collections::questions::{is_all, overlapping, range_at};
use range_collections::{Comparisons, Countable, RangeSetEntry, RangeSetRange};
use range_list::{Chunks, Items};
use std::ops::{Range, RangeFrom};

impl<T: Ord> ChunkedRangeSet<T> {
    // The list of the boundaries.
    pub(crate) fn chunks(&self) -> &Chunks<T, bool>
        ensures boundaries { joined result.now ≡ self.now }
        ensures sorted { IsAscending T.cmp (joined result.now) }
    {
        &self.list
    }

    // The boundaries, from the first on.
    pub(crate) fn items(&self) -> Items<'_, T, bool>
        ensures { result ≡ self.now }
    {
        self.list.items()
    }

    /// The first range, or `None` if the set is empty.
    #[inline]
    pub fn first(&self) -> Option<RangeSetRange<&T>>
        ensures { MatchOption result (self.now ≡ []) (λ range.
            slice_get (ranges_of self.now) 0 ≡ Some (range_now range)) }
    {
        self.iter().next()
    }

    /// The last range, or `None` if the set is empty.
    #[inline]
    pub fn last(&self) -> Option<RangeSetRange<&T>>
        ensures { MatchOption result (self.now ≡ []) (λ range.
            last_or None (ranges_of self.now) ≡ Some (range_now range)) }
    {
        self.iter().next_back()
    }

    /// The hull: from the start of the first range to the end of the last one, or without an end
    /// if that has none. `None` if the set is empty.
    pub fn span(&self) -> Option<RangeSetRange<&T>>
        ensures { MatchOption result (self.now ≡ []) (λ range.
            IsSpan (ranges_of self.now) (range_now range)) }
    {
        let start = start_of(self.first()?);
        match self.last()? {
            RangeSetRange::Range(range) => Some(RangeSetRange::Range(Range {
                start,
                end: range.end,
            })),
            RangeSetRange::RangeFrom(_) => Some(RangeSetRange::RangeFrom(RangeFrom { start })),
        }
    }

    /// The range of the set that holds `value`, or `None` if it isn't a member.
    #[inline]
    pub fn range_at(&self, value: &T) -> Option<RangeSetRange<&T>>
        ensures member { IsSome result ↔ (member T.cmp self.now value.now ≡ true) }
        ensures of_set { IfSome result (λ range. Contains (ranges_of self.now) (range_now range)) }
        ensures holds { IfSome result (λ range. IsInRange T.cmp (range_now range) value.now) }
        ensures members { IfSome result (λ range. (x : T) →
            IsInRange T.cmp (range_now range) x → member T.cmp self.now x ≡ true) }
    {
        range_at(&self.list, value, &mut Comparisons::new())
    }

    /// The parts of `within` that aren't in the set, from the lowest on. None is empty, and each
    /// ends below the start of the next. An empty or reversed range has none. Where a boundary
    /// equals an end of `within`, the end of `within` is given. It takes no memory.
    #[inline]
    pub fn gaps<'a>(&'a self, within: Range<&'a T>) -> Gaps<'a, T>
        ensures gives { GivesParts T.cmp difference_table within.entry self.now result }
        ensures members { (x : T) → member T.cmp result x ≡
            ((is_le (T.cmp within.entry.start.now x) && is_lt (T.cmp x within.entry.end.now))
            && not (member T.cmp self.now x)) }
    {
        parts_within(&self.list, within, false, &mut Comparisons::new())
    }

    /// The parts of `within` that are in the set, from the lowest on. None is empty, and each ends
    /// below the start of the next. An empty or reversed range has none. Where a boundary equals an
    /// end of `within`, the end of `within` is given. It takes no memory.
    #[inline]
    pub fn ranges_within<'a>(&'a self, within: Range<&'a T>) -> RangesWithin<'a, T>
        ensures gives { GivesParts T.cmp intersection_table within.entry self.now result }
        ensures members { (x : T) → member T.cmp result x ≡
            ((is_le (T.cmp within.entry.start.now x) && is_lt (T.cmp x within.entry.end.now))
            && member T.cmp self.now x) }
    {
        parts_within(&self.list, within, true, &mut Comparisons::new())
    }

    /// The ranges of the set that share an element with `range`, whole, from the lowest on and from
    /// the highest down. An empty or reversed range shares none. It is two searches and takes no
    /// memory, and a step of the iterator makes no comparison.
    #[inline]
    pub fn overlapping(&self, range: Range<&T>) -> Iter<'_, T>
        ensures { ranges_of result ≡ filter
            (overlaps T.cmp range.entry.start.now range.entry.end.now) (ranges_of self.now) }
    {
        let (from, to) = overlapping(&self.list, range.start, range.end);
        Iter::between(&self.list, from, to)
    }

    /// How many boundaries there are.
    #[inline]
    pub fn boundaries_len(&self) -> usize
        ensures { result ≡ length self.now }
    {
        self.list.len()
    }

    /// How many ranges there are.
    #[inline]
    pub fn ranges_len(&self) -> usize
        ensures { result ≡ length (ranges_of self.now) }
    {
        self.boundaries_len().div_ceil(2)
    }
}

impl<T: RangeSetEntry> ChunkedRangeSet<T> {
    /// Whether every value is a member.
    pub fn is_all(&self) -> bool
        ensures { IsTrue result ↔ IsEverything T.cmp T.is_value self.now }
    {
        is_all(self.list.items())
    }
}

impl<T: Countable> ChunkedRangeSet<T> {
    /// The cardinality: how many values are members, or `None` if the set has no end. A set with an
    /// end has fewer members than there are values.
    ///
    /// It looks at each boundary once and takes no memory.
    pub fn covered(&self) -> Option<u128>
        ensures fits { IfSome result (λ n. n < T.count) }
        ensures value { result ≡ covered_of T.cmp T.value T.count self.now }
    {
        count_members(&self.list)
    }
}

// Where the range starts.
#[inline(always)]
fn start_of<T>(range: RangeSetRange<&T>) -> &T
    ensures { result.now ≡ range_start (range_now range.entry) }
{
    match range {
        RangeSetRange::Range(range) => range.start,
        RangeSetRange::RangeFrom(range) => range.start,
    }
}
