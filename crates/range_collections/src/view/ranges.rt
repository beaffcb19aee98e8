//! The ranges of a view: all of them, the first and the last, the one at an element; and one range
//! of elements against the view.
ghost use Rattle.std.specs.Prelude.{◌≡◌, ◌↔◌, IsTrue, [], length, min, None, Some, MatchOption, slice_get, ◌+◌, ◌<◌, ◌^◌, true, Contains, IsSome, IfSome, false, IfNone};
ghost use Rattle.std.specs.List.{last_or};
ghost use Rattle.std.specs.Ordering.{is_le};
ghost use Rattle.range_merge.specs.Boundaries.{member};
ghost use Rattle.range_merge.specs.Counting.{AddsAtMost};
ghost use Rattle.range_merge.specs.Runs.{digits};
ghost use Rattle.range_collections.specs.Intersects.{HasMemberWithin};
ghost use Rattle.range_collections.specs.Extent.{IsSpan, HasAllWithin, IsNext};
ghost use Rattle.range_collections.specs.Ranges.{ranges_of, range_now, range_start, IsInRange};

use crate::comparisons::Comparisons;
use crate::iter::Iter;
use crate::questions::{has_all, has_some, next_at, range_at};
use crate::range_set_range::RangeSetRange;
use crate::view::RangeSetRef;
use std::ops::{Range, RangeFrom};

impl<'a, T: Ord> RangeSetRef<'a, T> {
    /// The ranges of the members, from the lowest on.
    #[inline]
    pub fn iter(&self) -> Iter<'a, T>
        ensures { result ≡ self.now.boundaries.now }
    {
        Iter::new(self.boundaries)
    }

    /// The first range, or `None` if the set is empty.
    #[inline]
    pub fn first(&self) -> Option<RangeSetRange<&'a T>>
        ensures { MatchOption result (self.now.boundaries.now ≡ []) (λ range.
            slice_get (ranges_of self.now.boundaries.now) 0 ≡ Some (range_now range)) }
    {
        self.iter().next()
    }

    /// The last range, or `None` if the set is empty.
    #[inline]
    pub fn last(&self) -> Option<RangeSetRange<&'a T>>
        ensures { MatchOption result (self.now.boundaries.now ≡ []) (λ range.
            last_or None (ranges_of self.now.boundaries.now) ≡ Some (range_now range)) }
    {
        self.iter().next_back()
    }

    /// The hull: from the start of the first range to the end of the last one, or without an end if
    /// that has none. `None` if the set is empty.
    #[inline]
    pub fn span(&self) -> Option<RangeSetRange<&'a T>>
        ensures { MatchOption result (self.now.boundaries.now ≡ []) (λ range.
            IsSpan (ranges_of self.now.boundaries.now) (range_now range)) }
    {
        let start = start_of(self.first()?);
        match self.last()? {
            RangeSetRange::Range(range) => Some(RangeSetRange::Range(Range {
                start,
                end: range.end,
            })),
            RangeSetRange::RangeFrom(_) => Some(RangeSetRange::RangeFrom(RangeFrom { start })),
        }
    }

    /// How many ranges there are.
    #[inline]
    pub fn ranges_len(&self) -> usize
        ensures { result ≡ length (ranges_of self.now.boundaries.now) }
    {
        self.iter().len()
    }

    /// The range of the set that holds `value`, or `None` if it isn't a member.
    #[inline]
    pub fn range_at(&self, value: &T) -> Option<RangeSetRange<&'a T>>
        ensures member { IsSome result ↔ (member T.cmp self.now.boundaries.now value.now ≡ true) }
        ensures of_set { IfSome result (λ range.
            Contains (ranges_of self.now.boundaries.now) (range_now range)) }
        ensures holds { IfSome result (λ range. IsInRange T.cmp (range_now range) value.now) }
        ensures members { IfSome result (λ range. (x : T) →
            IsInRange T.cmp (range_now range) x → member T.cmp self.now.boundaries.now x ≡ true) }
    {
        self.range_at_counted(value, &mut Comparisons::new())
    }

    /// The same as `range_at`, counted: at most as many comparisons as the number of boundaries has
    /// binary digits.
    #[inline]
    pub fn range_at_counted(
        &self,
        value: &T,
        count: &mut Comparisons,
    ) -> Option<RangeSetRange<&'a T>>
        requires { count.old < 2 ^ 64 }
        ensures member { IsSome result ↔ (member T.cmp self.now.boundaries.now value.now ≡ true) }
        ensures of_set { IfSome result (λ range.
            Contains (ranges_of self.now.boundaries.now) (range_now range)) }
        ensures holds { IfSome result (λ range. IsInRange T.cmp (range_now range) value.now) }
        ensures members { IfSome result (λ range. (x : T) →
            IsInRange T.cmp (range_now range) x → member T.cmp self.now.boundaries.now x ≡ true) }
        ensures comparisons { AddsAtMost count.old count.new
            (digits (length self.now.boundaries.now)) }
    {
        range_at(self.boundaries, value, count)
    }

    /// The least member at or above `from`, or `None` if there is none. It is `from` itself if that
    /// is a member, or else the start of the next range. It takes no memory, and makes at most as
    /// many comparisons as the number of boundaries has binary digits (seen by reading).
    #[inline]
    pub fn next_member(&self, from: &'a T) -> Option<&'a T>
        ensures next { IfSome result (λ next.
            IsNext T.cmp true self.now.boundaries.now from.now next.now) }
        ensures none { IfNone result ((x : T) →
            is_le (T.cmp from.now x) ≡ true → member T.cmp self.now.boundaries.now x ≡ false) }
    {
        next_at(self.boundaries, from, true)
    }

    /// The least element at or above `from` that isn't a member. It is `from` itself if that isn't
    /// one, or else the end of the range that holds it, or `None` if that range has no end. It
    /// takes no memory, and makes at most as many comparisons as the number of boundaries has
    /// binary digits (seen by reading).
    #[inline]
    pub fn next_gap(&self, from: &'a T) -> Option<&'a T>
        ensures next { IfSome result (λ next.
            IsNext T.cmp false self.now.boundaries.now from.now next.now) }
        ensures none { IfNone result ((x : T) →
            is_le (T.cmp from.now x) ≡ true → member T.cmp self.now.boundaries.now x ≡ true) }
    {
        next_at(self.boundaries, from, false)
    }

    /// Whether every element of the range is a member. It is `true` for an empty or reversed range.
    #[inline]
    pub fn contains_range(&self, range: Range<T>) -> bool
    where
        T: Drop,
        ensures { IsTrue result ↔ HasAllWithin T.cmp self.now.boundaries.now range.start range.end }
    {
        self.contains_range_counted(range, &mut Comparisons::new())
    }

    /// The same as `contains_range`, counted: at most `d + 2` comparisons, where `d` is the number
    /// of binary digits of the number of boundaries; one if there are none.
    #[inline]
    pub fn contains_range_counted(&self, range: Range<T>, count: &mut Comparisons) -> bool
    where
        T: Drop,
        requires { count.old < 2 ^ 64 }
        ensures members { IsTrue result ↔
            HasAllWithin T.cmp self.now.boundaries.now range.start range.end }
        ensures comparisons { AddsAtMost count.old count.new
            (digits (length self.now.boundaries.now) + min 1 (length self.now.boundaries.now) + 1) }
    {
        has_all(self.boundaries, &range.start, &range.end, count)
    }

    /// Whether some member lies in the range. It is `false` for an empty or reversed range.
    #[inline]
    pub fn intersects_range(&self, range: Range<T>) -> bool
    where
        T: Drop,
        ensures { IsTrue result ↔
            HasMemberWithin T.cmp self.now.boundaries.now range.start range.end }
    {
        has_some(self.boundaries, &range.start, &range.end)
    }
}

impl<'a, T: Ord> IntoIterator for RangeSetRef<'a, T> {
    type Item = RangeSetRange<&'a T>;

    type IntoIter = Iter<'a, T>;

    ghost into_iter_gives = { λ set it. it ≡ set.boundaries.now };

    #[inline]
    fn into_iter(self) -> Iter<'a, T> {
        self.iter()
    }
}

// Where the range starts.
#[inline(always)]
fn start_of<'a, T>(range: RangeSetRange<&'a T>) -> &'a T
    ensures { result.now ≡ range_start (range_now range.entry) }
{
    match range {
        RangeSetRange::Range(range) => range.start,
        RangeSetRange::RangeFrom(range) => range.start,
    }
}
