//! The parts of a view: it cut in two at an element, and the parts of a range of elements that are
//! in it or not. They are slices of the view's own list, and nothing is copied.
ghost use Rattle.std.specs.Prelude.{◌≡◌, ◌+◌, ◌<◌, ◌≤◌, ◌^◌, length, take, drop, ◌*◌, ◌&&◌, not, filter};
ghost use Rattle.range_merge.specs.Counting.{AddsAtMost};
ghost use Rattle.range_merge.specs.Runs.{digits};
ghost use Rattle.range_merge.specs.Connective.{intersection_table, difference_table};
ghost use Rattle.range_collections.specs.Split.{split_left, split_right, IsLeastBelow, IsLeastFrom};
ghost use Rattle.range_collections.specs.Within.{GivesParts, within_table};
ghost use Rattle.range_collections.specs.Overlapping.{overlaps};
ghost use Rattle.range_collections.specs.Ranges.{ranges_of};
ghost use Rattle.std.specs.Ordering.{is_le, is_lt};
ghost use Rattle.range_merge.specs.Boundaries.{member};

use crate::comparisons::Comparisons;
use crate::iter::{Gaps, Iter, RangesWithin};
use crate::questions::{overlapping, parts_within};
use crate::view::RangeSetRef;
use range_merge::search;
use std::ops::Range;

impl<'a, T: Ord> RangeSetRef<'a, T> {
    /// The shortest list with the same members below `at`, and the shortest one with the same
    /// members from `at` on.
    #[inline]
    pub fn split(&self, at: T) -> (RangeSetRef<'a, T>, RangeSetRef<'a, T>)
    where
        T: Drop,
        ensures left { result.0.boundaries.now ≡ split_left T.cmp self.now.boundaries.now at }
        ensures right { result.1.boundaries.now ≡ split_right T.cmp self.now.boundaries.now at }
        ensures least_below { IsLeastBelow T.cmp at result.0.boundaries.now
            self.now.boundaries.now }
        ensures least_from { IsLeastFrom T.cmp at result.1.boundaries.now self.now.boundaries.now }
    {
        self.split_counted(at, &mut Comparisons::new())
    }

    /// The same as `split`, counted: at most as many comparisons as the number of boundaries has
    /// binary digits.
    #[inline]
    pub fn split_counted(
        &self,
        at: T,
        count: &mut Comparisons,
    ) -> (RangeSetRef<'a, T>, RangeSetRef<'a, T>)
    where
        T: Drop,
        requires { count.old < 2 ^ 64 }
        ensures left { result.0.boundaries.now ≡ split_left T.cmp self.now.boundaries.now at }
        ensures right { result.1.boundaries.now ≡ split_right T.cmp self.now.boundaries.now at }
        ensures least_below { IsLeastBelow T.cmp at result.0.boundaries.now
            self.now.boundaries.now }
        ensures least_from { IsLeastFrom T.cmp at result.1.boundaries.now self.now.boundaries.now }
        ensures comparisons { AddsAtMost count.old count.new
            (digits (length self.now.boundaries.now)) }
    {
        match search(self.boundaries, &at, count) {
            Ok(i) => self.parts(i, i + i % 2),
            Err(i) => self.parts(i, i - i % 2),
        }
    }

    // The boundaries before `end`, and those from `start` on.
    #[inline(always)]
    fn parts(&self, end: usize, start: usize) -> (RangeSetRef<'a, T>, RangeSetRef<'a, T>)
        requires end { end ≤ length self.now.boundaries.now }
        requires start { start ≤ length self.now.boundaries.now }
        ensures left { result.0.boundaries.now ≡ take end self.now.boundaries.now }
        ensures right { result.1.boundaries.now ≡ drop start self.now.boundaries.now }
    {
        let items = self.boundaries;
        let left = RangeSetRef {
            boundaries: &items[..end],
        };
        let right = RangeSetRef {
            boundaries: &items[start..],
        };
        (left, right)
    }

    /// The parts of `within` that aren't in the set, from the lowest on. None is empty, and each
    /// ends below the start of the next. An empty or reversed range has none. Where a boundary
    /// equals an end of `within`, the end of `within` is given.
    #[inline]
    pub fn gaps(&self, within: Range<&'a T>) -> Gaps<'a, T>
        ensures gives { GivesParts T.cmp difference_table
            within.entry self.now.boundaries.now result }
        ensures members { (x : T) → member T.cmp result x ≡
            ((is_le (T.cmp within.entry.start.now x) && is_lt (T.cmp x within.entry.end.now))
            && not (member T.cmp self.now.boundaries.now x)) }
    {
        self.gaps_counted(within, &mut Comparisons::new())
    }

    /// The same as `gaps`, counted: at most `2 * d + 1` comparisons, where `d` is the number of
    /// binary digits of the number of boundaries. The iterator's steps make none.
    #[inline]
    pub fn gaps_counted(&self, within: Range<&'a T>, count: &mut Comparisons) -> Gaps<'a, T>
        requires { count.old < 2 ^ 64 }
        ensures gives { GivesParts T.cmp difference_table
            within.entry self.now.boundaries.now result }
        ensures members { (x : T) → member T.cmp result x ≡
            ((is_le (T.cmp within.entry.start.now x) && is_lt (T.cmp x within.entry.end.now))
            && not (member T.cmp self.now.boundaries.now x)) }
        ensures comparisons { AddsAtMost count.old count.new
            (2 * digits (length self.now.boundaries.now) + 1) }
    {
        self.parts_within(within, false, count)
    }

    /// The parts of `within` that are in the set, from the lowest on. None is empty, and each ends
    /// below the start of the next. An empty or reversed range has none. Where a boundary equals an
    /// end of `within`, the end of `within` is given.
    #[inline]
    pub fn ranges_within(&self, within: Range<&'a T>) -> RangesWithin<'a, T>
        ensures gives { GivesParts T.cmp intersection_table
            within.entry self.now.boundaries.now result }
        ensures members { (x : T) → member T.cmp result x ≡
            ((is_le (T.cmp within.entry.start.now x) && is_lt (T.cmp x within.entry.end.now))
            && member T.cmp self.now.boundaries.now x) }
    {
        self.ranges_within_counted(within, &mut Comparisons::new())
    }

    /// The same as `ranges_within`, counted: at most `2 * d + 1` comparisons, where `d` is the
    /// number of binary digits of the number of boundaries. The iterator's steps make none.
    #[inline]
    pub fn ranges_within_counted(
        &self,
        within: Range<&'a T>,
        count: &mut Comparisons,
    ) -> RangesWithin<'a, T>
        requires { count.old < 2 ^ 64 }
        ensures gives { GivesParts T.cmp intersection_table
            within.entry self.now.boundaries.now result }
        ensures members { (x : T) → member T.cmp result x ≡
            ((is_le (T.cmp within.entry.start.now x) && is_lt (T.cmp x within.entry.end.now))
            && member T.cmp self.now.boundaries.now x) }
        ensures comparisons { AddsAtMost count.old count.new
            (2 * digits (length self.now.boundaries.now) + 1) }
    {
        self.parts_within(within, true, count)
    }

    /// The ranges of the set that share an element with `range`, whole, from the lowest on and from
    /// the highest down. An empty or reversed range shares none.
    ///
    /// It takes no memory, and makes at most `2 * d + 1` comparisons, where `d` is the number of
    /// binary digits of the number of boundaries (seen by reading). The iterator's steps make none.
    ///
    /// ```text
    /// busy.overlapping(&10..&13)       // 9..11 and 12..15, of RangeSet{9..11, 12..15, 20..}
    /// ```
    #[inline]
    pub fn overlapping(&self, range: Range<&T>) -> Iter<'a, T>
        ensures { ranges_of result ≡ filter
            (overlaps T.cmp range.entry.start.now range.entry.end.now)
            (ranges_of self.now.boundaries.now) }
    {
        let (from, to) = overlapping(self.boundaries, range.start, range.end);
        Iter::new(&self.boundaries[from..to])
    }

    // The parts of `within` whose elements are members where `inside` is true, or else no members.
    pub(crate) fn parts_within(
        &self,
        within: Range<&'a T>,
        inside: bool,
        count: &mut Comparisons,
    ) -> RangesWithin<'a, T>
        requires { count.old < 2 ^ 64 }
        ensures gives { GivesParts T.cmp (within_table inside)
            within.entry self.now.boundaries.now result }
        ensures comparisons { AddsAtMost count.old count.new
            (2 * digits (length self.now.boundaries.now) + 1) }
    {
        RangesWithin::new(parts_within(self.boundaries, within, inside, count))
    }
}
