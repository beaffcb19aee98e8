//! What the set's view returns, in the order of the view's calls.
ghost use Rattle.std.specs.Prelude.{◌≡◌, ◌↔◌, ◌+◌, ◌*◌, ◌<◌, ◌^◌, List, length, min, false, IsTrue, [], None, Some, MatchOption, slice_get, true, Contains, IsSome, IfSome, ◌≤◌, IfNone, ◌&&◌, not, filter};
ghost use Rattle.std.specs.List.{last_or};
ghost use Rattle.range_merge.specs.Boundaries.{member};
ghost use Rattle.range_merge.specs.Changes.{changes};
ghost use Rattle.range_merge.specs.Connective.{Means, intersection_table, difference_table};
ghost use Rattle.range_merge.specs.Counting.{AddsAtMost};
ghost use Rattle.range_merge.specs.Runs.{digits, weight};
ghost use Rattle.range_collections.specs.Sets.{IsSubset, Intersects, IsDisjoint, HasMember};
ghost use Rattle.range_collections.specs.Values.{IsEverything};
ghost use Rattle.range_collections.specs.Intersects.{HasMemberWithin};
ghost use Rattle.range_collections.specs.Extent.{IsSpan, HasAllWithin, IsNext};
ghost use Rattle.range_collections.specs.Ranges.{ranges_of, range_now, IsInRange};
ghost use Rattle.range_collections.specs.Split.{split_left, split_right, IsLeastBelow, IsLeastFrom};
ghost use Rattle.range_collections.specs.Within.{GivesParts};
ghost use Rattle.range_collections.specs.Overlapping.{overlaps};
ghost use Rattle.range_collections.specs.Covered.{covered_of};
ghost use Rattle.range_collections.specs.Buffers.{WritesOperation};
ghost use Rattle.std.specs.Ordering.{is_le, is_lt};

use crate::comparisons::Comparisons;
use crate::countable::Countable;
use crate::iter::{Gaps, Iter, RangesWithin};
use crate::range_set::RangeSet;
use crate::range_set_range::RangeSetRange;
use crate::view::{Cursor, RangeSetRef};
use range_entry::RangeSetEntry;
use range_merge::{MergeOperation, NoRoom};
use std::ops::Range;

impl<T: Ord, const N: usize> RangeSet<T, N> {
    /// Whether `value` is a member: an odd number of boundaries is at or below it.
    #[inline]
    pub fn contains(&self, value: &T) -> bool
        ensures { result ≡ member T.cmp self.now value.now }
    {
        self.as_ref().contains(value)
    }

    /// The same as `contains`, counted: at most as many comparisons as the number of boundaries has
    /// binary digits.
    #[inline]
    pub fn contains_counted(&self, value: &T, count: &mut Comparisons) -> bool
        requires { count.old < 2 ^ 64 }
        ensures member { result ≡ member T.cmp self.now value.now }
        ensures comparisons { AddsAtMost count.old count.new (digits (length self.now)) }
    {
        self.as_ref().contains_counted(value, count)
    }

    /// A cursor of the set, before its first boundary.
    #[inline]
    pub fn cursor(&self) -> Cursor<'_, T>
        ensures boundaries { result.set.boundaries.now ≡ self.now }
        ensures place { result.place ≡ 0 }
    {
        self.as_ref().cursor()
    }

    /// Whether the set is empty.
    #[inline]
    pub fn is_empty(&self) -> bool
        ensures { IsTrue result ↔ ((x : T) → member T.cmp self.now x ≡ false) }
    {
        self.as_ref().is_empty()
    }

    /// Whether the operation's result has a member. It counts its comparisons, at most twice the
    /// weight of the two lists.
    pub fn merge_test<O: MergeOperation>(
        &self,
        that: RangeSetRef<T>,
        op: &O,
        count: &mut Comparisons,
    ) -> bool
        requires off { O.connective op.now false false ≡ false }
        requires made { count.old < 2 ^ 64 }
        ensures members { IsTrue result ↔ HasMember T.cmp (O.connective op.now)
            self.now that.entry.boundaries.now }
        ensures comparisons { AddsAtMost count.old count.new
            (2 * weight T.cmp self.now that.entry.boundaries.now) }
    {
        self.as_ref().merge_test(that, op, count)
    }

    /// How many boundaries the operation's result has, without making it. Both lengths together
    /// must fit a `usize`. It counts its comparisons, at most twice the weight of the two lists.
    pub fn merge_len<O: MergeOperation>(
        &self,
        that: RangeSetRef<T>,
        op: &O,
        count: &mut Comparisons,
    ) -> usize
        requires off { O.connective op.now false false ≡ false }
        requires fits { length self.now + length that.boundaries.now < 2 ^ 64 }
        requires made { count.old < 2 ^ 64 }
        ensures value { result ≡ length (changes T.cmp (O.connective op.now)
            self.now that.entry.boundaries.now) }

        // It is the length of every list that the operation may give.
        ensures means { (items : List T) →
            Means T.cmp (O.connective op.now) items self.now that.entry.boundaries.now →
            length items ≡ result }
        ensures comparisons { AddsAtMost count.old count.new
            (2 * weight T.cmp self.now that.entry.boundaries.now) }
    {
        self.as_ref().merge_len(that, op, count)
    }

    /// Whether some element is a member of both.
    pub fn intersects(&self, that: RangeSetRef<T>) -> bool
        ensures { IsTrue result ↔ Intersects T.cmp self.now that.entry.boundaries.now }
    {
        self.as_ref().intersects(that)
    }

    /// Whether no element is a member of both.
    pub fn is_disjoint(&self, that: RangeSetRef<T>) -> bool
        ensures { IsTrue result ↔ IsDisjoint T.cmp self.now that.entry.boundaries.now }
    {
        self.as_ref().is_disjoint(that)
    }

    /// Whether every member of this set is a member of `that`.
    pub fn is_subset(&self, that: RangeSetRef<T>) -> bool
        ensures { IsTrue result ↔ IsSubset T.cmp self.now that.entry.boundaries.now }
    {
        self.as_ref().is_subset(that)
    }

    /// Whether every member of `that` is a member of this set.
    pub fn is_superset(&self, that: RangeSetRef<T>) -> bool
        ensures { IsTrue result ↔ IsSubset T.cmp that.entry.boundaries.now self.now }
    {
        self.as_ref().is_superset(that)
    }

    /// The ranges of the members, from the lowest on.
    #[inline]
    pub fn iter(&self) -> Iter<'_, T>
        ensures { result ≡ self.now }
    {
        self.as_ref().iter()
    }

    /// The first range, or `None` if the set is empty.
    #[inline]
    pub fn first(&self) -> Option<RangeSetRange<&T>>
        ensures { MatchOption result (self.now ≡ []) (λ range.
            slice_get (ranges_of self.now) 0 ≡ Some (range_now range)) }
    {
        self.as_ref().first()
    }

    /// The last range, or `None` if the set is empty.
    #[inline]
    pub fn last(&self) -> Option<RangeSetRange<&T>>
        ensures { MatchOption result (self.now ≡ []) (λ range.
            last_or None (ranges_of self.now) ≡ Some (range_now range)) }
    {
        self.as_ref().last()
    }

    /// The hull: from the start of the first range to the end of the last one, or without an end if
    /// that has none. `None` if the set is empty.
    #[inline]
    pub fn span(&self) -> Option<RangeSetRange<&T>>
        ensures { MatchOption result (self.now ≡ []) (λ range.
            IsSpan (ranges_of self.now) (range_now range)) }
    {
        self.as_ref().span()
    }

    /// How many ranges there are.
    #[inline]
    pub fn ranges_len(&self) -> usize
        ensures { result ≡ length (ranges_of self.now) }
    {
        self.as_ref().ranges_len()
    }

    /// The range of the set that holds `value`, or `None` if it isn't a member.
    #[inline]
    pub fn range_at(&self, value: &T) -> Option<RangeSetRange<&T>>
        ensures member { IsSome result ↔ (member T.cmp self.now value.now ≡ true) }
        ensures of_set { IfSome result (λ range. Contains (ranges_of self.now) (range_now range)) }
        ensures holds { IfSome result (λ range. IsInRange T.cmp (range_now range) value.now) }
        ensures members { IfSome result (λ range. (x : T) →
            IsInRange T.cmp (range_now range) x → member T.cmp self.now x ≡ true) }
    {
        self.as_ref().range_at(value)
    }

    /// The same as `range_at`, counted: at most as many comparisons as the number of boundaries has
    /// binary digits.
    #[inline]
    pub fn range_at_counted(&self, value: &T, count: &mut Comparisons) -> Option<RangeSetRange<&T>>
        requires { count.old < 2 ^ 64 }
        ensures member { IsSome result ↔ (member T.cmp self.now value.now ≡ true) }
        ensures of_set { IfSome result (λ range. Contains (ranges_of self.now) (range_now range)) }
        ensures holds { IfSome result (λ range. IsInRange T.cmp (range_now range) value.now) }
        ensures members { IfSome result (λ range. (x : T) →
            IsInRange T.cmp (range_now range) x → member T.cmp self.now x ≡ true) }
        ensures comparisons { AddsAtMost count.old count.new (digits (length self.now)) }
    {
        self.as_ref().range_at_counted(value, count)
    }

    /// The least member at or above `from`, or `None` if there is none. It is `from` itself if that
    /// is a member, or else the start of the next range. It takes no memory, and makes at most as
    /// many comparisons as the number of boundaries has binary digits (seen by reading).
    #[inline]
    pub fn next_member<'a>(&'a self, from: &'a T) -> Option<&'a T>
        ensures next { IfSome result (λ next.
            IsNext T.cmp true self.now from.now next.now) }
        ensures none { IfNone result ((x : T) →
            is_le (T.cmp from.now x) ≡ true → member T.cmp self.now x ≡ false) }
    {
        self.as_ref().next_member(from)
    }

    /// The least element at or above `from` that isn't a member. It is `from` itself if that isn't
    /// one, or else the end of the range that holds it, or `None` if that range has no end. It
    /// takes no memory, and makes at most as many comparisons as the number of boundaries has
    /// binary digits (seen by reading).
    #[inline]
    pub fn next_gap<'a>(&'a self, from: &'a T) -> Option<&'a T>
        ensures next { IfSome result (λ next.
            IsNext T.cmp false self.now from.now next.now) }
        ensures none { IfNone result ((x : T) →
            is_le (T.cmp from.now x) ≡ true → member T.cmp self.now x ≡ true) }
    {
        self.as_ref().next_gap(from)
    }

    /// Whether every element of the range is a member. It is `true` for an empty or reversed range.
    #[inline]
    pub fn contains_range(&self, range: Range<T>) -> bool
    where
        T: Drop,
        ensures { IsTrue result ↔ HasAllWithin T.cmp self.now range.start range.end }
    {
        self.as_ref().contains_range(range)
    }

    /// The same as `contains_range`, counted: at most `d + 2` comparisons, where `d` is the number
    /// of binary digits of the number of boundaries; one if there are none.
    #[inline]
    pub fn contains_range_counted(&self, range: Range<T>, count: &mut Comparisons) -> bool
    where
        T: Drop,
        requires { count.old < 2 ^ 64 }
        ensures members { IsTrue result ↔ HasAllWithin T.cmp self.now range.start range.end }
        ensures comparisons { AddsAtMost count.old count.new
            (digits (length self.now) + min 1 (length self.now) + 1) }
    {
        self.as_ref().contains_range_counted(range, count)
    }

    /// Whether some member lies in the range. It is `false` for an empty or reversed range.
    #[inline]
    pub fn intersects_range(&self, range: Range<T>) -> bool
    where
        T: Drop,
        ensures { IsTrue result ↔ HasMemberWithin T.cmp self.now range.start range.end }
    {
        self.as_ref().intersects_range(range)
    }

    /// The shortest list with the same members below `at`, and the shortest one with the same
    /// members from `at` on. Both are slices of this set's list.
    #[inline]
    pub fn split(&self, at: T) -> (RangeSetRef<'_, T>, RangeSetRef<'_, T>)
    where
        T: Drop,
        ensures left { result.0.boundaries.now ≡ split_left T.cmp self.now at }
        ensures right { result.1.boundaries.now ≡ split_right T.cmp self.now at }
        ensures least_below { IsLeastBelow T.cmp at result.0.boundaries.now self.now }
        ensures least_from { IsLeastFrom T.cmp at result.1.boundaries.now self.now }
    {
        self.as_ref().split(at)
    }

    /// The same as `split`, counted: at most as many comparisons as the number of boundaries has
    /// binary digits.
    #[inline]
    pub fn split_counted(
        &self,
        at: T,
        count: &mut Comparisons,
    ) -> (RangeSetRef<'_, T>, RangeSetRef<'_, T>)
    where
        T: Drop,
        requires { count.old < 2 ^ 64 }
        ensures left { result.0.boundaries.now ≡ split_left T.cmp self.now at }
        ensures right { result.1.boundaries.now ≡ split_right T.cmp self.now at }
        ensures least_below { IsLeastBelow T.cmp at result.0.boundaries.now self.now }
        ensures least_from { IsLeastFrom T.cmp at result.1.boundaries.now self.now }
        ensures comparisons { AddsAtMost count.old count.new (digits (length self.now)) }
    {
        self.as_ref().split_counted(at, count)
    }

    /// The parts of `within` that aren't in the set, from the lowest on. None is empty, and each
    /// ends below the start of the next. An empty or reversed range has none. Where a boundary
    /// equals an end of `within`, the end of `within` is given.
    #[inline]
    pub fn gaps<'a>(&'a self, within: Range<&'a T>) -> Gaps<'a, T>
        ensures gives { GivesParts T.cmp difference_table within.entry self.now result }
        ensures members { (x : T) → member T.cmp result x ≡
            ((is_le (T.cmp within.entry.start.now x) && is_lt (T.cmp x within.entry.end.now))
            && not (member T.cmp self.now x)) }
    {
        self.as_ref().gaps(within)
    }

    /// The same as `gaps`, counted: at most `2 * d + 1` comparisons, where `d` is the number of
    /// binary digits of the number of boundaries. The iterator's steps make none.
    #[inline]
    pub fn gaps_counted<'a>(&'a self, within: Range<&'a T>, count: &mut Comparisons) -> Gaps<'a, T>
        requires { count.old < 2 ^ 64 }
        ensures gives { GivesParts T.cmp difference_table within.entry self.now result }
        ensures members { (x : T) → member T.cmp result x ≡
            ((is_le (T.cmp within.entry.start.now x) && is_lt (T.cmp x within.entry.end.now))
            && not (member T.cmp self.now x)) }
        ensures comparisons { AddsAtMost count.old count.new (2 * digits (length self.now) + 1) }
    {
        self.as_ref().gaps_counted(within, count)
    }

    /// The parts of `within` that are in the set, from the lowest on. None is empty, and each ends
    /// below the start of the next. An empty or reversed range has none. Where a boundary equals an
    /// end of `within`, the end of `within` is given.
    #[inline]
    pub fn ranges_within<'a>(&'a self, within: Range<&'a T>) -> RangesWithin<'a, T>
        ensures gives { GivesParts T.cmp intersection_table within.entry self.now result }
        ensures members { (x : T) → member T.cmp result x ≡
            ((is_le (T.cmp within.entry.start.now x) && is_lt (T.cmp x within.entry.end.now))
            && member T.cmp self.now x) }
    {
        self.as_ref().ranges_within(within)
    }

    /// The same as `ranges_within`, counted: at most `2 * d + 1` comparisons, where `d` is the
    /// number of binary digits of the number of boundaries. The iterator's steps make none.
    #[inline]
    pub fn ranges_within_counted<'a>(
        &'a self,
        within: Range<&'a T>,
        count: &mut Comparisons,
    ) -> RangesWithin<'a, T>
        requires { count.old < 2 ^ 64 }
        ensures gives { GivesParts T.cmp intersection_table within.entry self.now result }
        ensures members { (x : T) → member T.cmp result x ≡
            ((is_le (T.cmp within.entry.start.now x) && is_lt (T.cmp x within.entry.end.now))
            && member T.cmp self.now x) }
        ensures comparisons { AddsAtMost count.old count.new (2 * digits (length self.now) + 1) }
    {
        self.as_ref().ranges_within_counted(within, count)
    }

    /// The ranges of the set that share an element with `range`, whole, from the lowest on and from
    /// the highest down. An empty or reversed range shares none.
    ///
    /// It takes no memory, and makes at most `2 * d + 1` comparisons, where `d` is the number of
    /// binary digits of the number of boundaries (seen by reading). The iterator's steps make none.
    ///
    /// ```text
    /// busy.overlapping(&10..&13)       // 9..11 and 12..15, of RangeSet{9..11, 12..15, 20..}
    /// ```
    #[inline]
    pub fn overlapping(&self, range: Range<&T>) -> Iter<'_, T>
        ensures { ranges_of result ≡ filter
            (overlaps T.cmp range.entry.start.now range.entry.end.now) (ranges_of self.now) }
    {
        self.as_ref().overlapping(range)
    }

    /// Writes the boundaries of the operation's result to the start of `out`, and returns how many
    /// there are. Both lengths together must fit a `usize`.
    ///
    /// Of two equal boundaries this set's is written, and the rest of `out` stays as it was. It is
    /// an error exactly if `out` is too short: the error says how long it must be, and nothing is
    /// said of what `out` then holds. It takes no memory, and counts its comparisons, at most twice
    /// the weight of the two lists.
    pub fn merge_into<O: MergeOperation>(
        &self,
        that: RangeSetRef<T>,
        op: &O,
        out: &mut [T],
        count: &mut Comparisons,
    ) -> Result<usize, NoRoom>
    where
        T: Copy,
        requires off { O.connective op.now false false ≡ false }
        requires fits { length self.now + length that.boundaries.now < 2 ^ 64 }
        requires made { count.old < 2 ^ 64 }
        ensures writes { WritesOperation T.cmp (O.connective op.now)
            self.now that.entry.boundaries.now out.old out.new result }
        ensures comparisons { AddsAtMost count.old count.new
            (2 * weight T.cmp self.now that.entry.boundaries.now) }
    {
        self.as_ref().merge_into(that, op, out, count)
    }
}

impl<T: RangeSetEntry, const N: usize> RangeSet<T, N> {
    /// Whether every value is a member.
    pub fn is_all(&self) -> bool
        ensures { IsTrue result ↔ IsEverything T.cmp T.is_value self.now }
    {
        self.as_ref().is_all()
    }
}

impl<T: Countable, const N: usize> RangeSet<T, N> {
    /// The cardinality: how many values are members, or `None` if the set has no end. A set with an
    /// end has fewer members than there are values.
    ///
    /// It looks at each boundary once and takes no memory.
    pub fn covered(&self) -> Option<u128>
        ensures fits { IfSome result (λ n. n < T.count) }
        ensures value { result ≡ covered_of T.cmp T.value T.count self.now }
    {
        self.as_ref().covered()
    }
}
