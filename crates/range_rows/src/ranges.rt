//! The ranges of sets and of their views, and what ranges have of sets.
use crate::row::{Kind, Row, Word};
use crate::table::Table;
use range_collections::{Comparisons, Iter, RangeSet2, RangeSetRange, RangesWithin};
use std::alloc::Global;
use std::ops::Range;

/// What is asked.
#[derive(Clone, Copy)]
pub enum Asked {
    Ranges,
    Overlapping,
    RangeAt,
    Extent,
    Gaps,
    IntersectsRange,
    From,
}

pub const TABLES: [Asked; 7] = [
    Asked::Ranges,
    Asked::Overlapping,
    Asked::RangeAt,
    Asked::Extent,
    Asked::Gaps,
    Asked::IntersectsRange,
    Asked::From,
];

impl Table for Asked {
    fn file(&self) -> &'static str {
        match self {
            Asked::Ranges => "ranges.txt",
            Asked::Overlapping => "overlapping.txt",
            Asked::RangeAt => "range_at.txt",
            Asked::Extent => "extent.txt",
            Asked::Gaps => "gaps.txt",
            Asked::IntersectsRange => "intersects_range.txt",
            Asked::From => "from.txt",
        }
    }

    fn holds(&self, alloc: Global, row: &mut Row) -> Option<bool> {
        match (self, row.kind()) {
            (Asked::IntersectsRange, Kind::U64) => intersects_range(row.set::<u64>(alloc), row),
            (Asked::IntersectsRange, Kind::I64) => intersects_range(row.set::<i64>(alloc), row),
            (_, Kind::I64) => self.of_numbers(alloc, row),
            (_, Kind::I8) => self.of_bytes(alloc, row),
            _ => None,
        }
    }
}

impl Asked {
    // What is asked of sets of i64.
    fn of_numbers(&self, alloc: Global, row: &mut Row) -> Option<bool> {
        let set = row.set::<i64>(alloc)?;
        match self {
            Asked::Ranges => {
                row.equals()?;
                Some(ranges(&set, row.ranges(alloc)?.as_slice()))
            }
            Asked::Overlapping => overlapping(&set, alloc, row),
            _ => None,
        }
    }

    // What is asked of sets of i8.
    fn of_bytes(&self, alloc: Global, row: &mut Row) -> Option<bool> {
        let set = row.set::<i8>(alloc)?;
        match self {
            Asked::RangeAt => range_at(&set, row),
            Asked::Extent => extent(&set, row),
            Asked::Gaps => gaps(&set, alloc, row),
            Asked::From => from(&set, row),
            _ => None,
        }
    }
}

// Whether this is the range that is wanted.
fn is<T: Ord>(range: Option<RangeSetRange<&T>>, want: &Option<RangeSetRange<T>>) -> bool {
    match (range, want) {
        (Some(range), Some(want)) => range == want.as_ref(),
        (None, None) => true,
        _ => false,
    }
}

// Whether the iterator gives these ranges, counts before each how many are left, and gives none
// after the last.
fn are(mut ranges: Iter<i64>, want: &[RangeSetRange<i64>]) -> bool {
    for (i, range) in want.iter().enumerate() {
        let left = want.len() - i;
        if ranges.size_hint() != (left, Some(left)) || ranges.next() != Some(range.as_ref()) {
            return false;
        }
    }
    ranges.size_hint() == (0, Some(0)) && ranges.next().is_none() && ranges.next().is_none()
}

// The same from the last range on.
fn are_from_the_end(mut ranges: Iter<i64>, want: &[RangeSetRange<i64>]) -> bool {
    for range in want.iter().rev() {
        if ranges.next_back() != Some(range.as_ref()) {
            return false;
        }
    }
    ranges.len() == 0 && ranges.next_back().is_none()
}

// The ranges in order and from the end, and as they are taken out.
fn ranges(set: &RangeSet2<i64>, want: &[RangeSetRange<i64>]) -> bool {
    let view = set.as_ref();
    let in_order = are(set.iter(), want) && are(view.iter(), want);
    let by_loops = are(set.into_iter(), want) && are(view.into_iter(), want);
    let from_the_end = are_from_the_end(set.iter(), want);
    let taken = come_out(set.clone().ok(), want) && come_out_from_the_end(set.clone().ok(), want);
    in_order && by_loops && from_the_end && taken
}

// Whether the ranges that are taken out from the front are these, and then none.
fn come_out(set: Option<RangeSet2<i64>>, want: &[RangeSetRange<i64>]) -> bool {
    let Some(mut set) = set else {
        return false;
    };
    for range in want {
        match set.pop_first() {
            Some(first) if first == *range => {}
            _ => return false,
        }
    }
    set.pop_first().is_none() && set.boundaries().is_empty()
}

// The same from the last range on.
fn come_out_from_the_end(set: Option<RangeSet2<i64>>, want: &[RangeSetRange<i64>]) -> bool {
    let Some(mut set) = set else {
        return false;
    };
    for range in want.iter().rev() {
        match set.pop_last() {
            Some(last) if last == *range => {}
            _ => return false,
        }
    }
    set.pop_last().is_none() && set.boundaries().is_empty()
}

// The whole ranges that share a value with one.
fn overlapping(set: &RangeSet2<i64>, alloc: Global, row: &mut Row) -> Option<bool> {
    let range = row.range()?;
    row.equals()?;
    let want = row.ranges(alloc)?;
    let (low, high, want) = (&range.start, &range.end, want.as_slice());
    let in_order = are(set.overlapping(low..high), want)
        && are(set.as_ref().overlapping(low..high), want);
    Some(in_order && are_from_the_end(set.overlapping(low..high), want))
}

// The range that holds a value, plain and counted.
fn range_at(set: &RangeSet2<i8>, row: &mut Row) -> Option<bool> {
    let (value, view) = (row.value()?, set.as_ref());
    row.equals()?;
    let want = row.range_if_any()?;
    let (mut count, mut again) = (Comparisons::new(), Comparisons::new());
    let counted = is(set.range_at_counted(&value, &mut count), &want)
        && is(view.range_at_counted(&value, &mut again), &want);
    Some(counted && is(set.range_at(&value), &want) && is(view.range_at(&value), &want))
}

// The first range, the last one, the range from one to the other, and how many there are.
fn extent(set: &RangeSet2<i8>, row: &mut Row) -> Option<bool> {
    let view = set.as_ref();
    row.equals()?;
    let (first, last, span) = (
        row.range_if_any()?,
        row.range_if_any()?,
        row.range_if_any()?,
    );
    let len = row.value::<usize>()?;
    let of_set = is(set.first(), &first) && is(set.last(), &last) && is(set.span(), &span);
    let of_view = is(view.first(), &first) && is(view.last(), &last) && is(view.span(), &span);
    let lengths = set.ranges_len() == len && view.ranges_len() == len;
    let is_empty = set.is_empty() == (len == 0) && view.is_empty() == (len == 0);
    Some(of_set && of_view && lengths && is_empty)
}

// The gaps in a range and the ranges in it, and whether all of it are members.
fn gaps(set: &RangeSet2<i8>, alloc: Global, row: &mut Row) -> Option<bool> {
    let range = row.range()?;
    row.equals()?;
    let (gaps, parts) = (row.ranges(alloc)?, row.ranges(alloc)?);
    let (gaps, parts) = (gaps.as_slice(), parts.as_slice());
    Some(
        have_gaps(set, &range, gaps)
            && have_parts(set, &range, parts)
            && have_whole(set, &range, gaps.is_empty()),
    )
}

// Whether these are the gaps, of the set and of its view, plain and counted.
fn have_gaps(set: &RangeSet2<i8>, range: &Range<i8>, want: &[RangeSetRange<i8>]) -> bool {
    let (view, low, high) = (set.as_ref(), &range.start, &range.end);
    let (mut count, mut again) = (Comparisons::new(), Comparisons::new());
    are_within(set.gaps(low..high), want)
        && are_within(view.gaps(low..high), want)
        && are_within(set.gaps_counted(low..high, &mut count), want)
        && are_within(view.gaps_counted(low..high, &mut again), want)
}

// The same of the ranges.
fn have_parts(set: &RangeSet2<i8>, range: &Range<i8>, want: &[RangeSetRange<i8>]) -> bool {
    let (view, low, high) = (set.as_ref(), &range.start, &range.end);
    let (mut count, mut again) = (Comparisons::new(), Comparisons::new());
    are_within(set.ranges_within(low..high), want)
        && are_within(view.ranges_within(low..high), want)
        && are_within(set.ranges_within_counted(low..high, &mut count), want)
        && are_within(view.ranges_within_counted(low..high, &mut again), want)
}

// The same of whether all are members.
fn have_whole(set: &RangeSet2<i8>, range: &Range<i8>, want: bool) -> bool {
    let (view, low, high) = (set.as_ref(), range.start, range.end);
    let (mut count, mut again) = (Comparisons::new(), Comparisons::new());
    set.contains_range(low..high) == want
        && view.contains_range(low..high) == want
        && set.contains_range_counted(low..high, &mut count) == want
        && view.contains_range_counted(low..high, &mut again) == want
}

// Whether the iterator gives these ranges.
fn are_within<T: Ord>(ranges: RangesWithin<T>, want: &[RangeSetRange<T>]) -> bool {
    let mut rest = want.iter();
    for range in ranges {
        match rest.next() {
            Some(next) if next.as_ref() == RangeSetRange::from(range) => {}
            _ => return false,
        }
    }
    rest.next().is_none()
}

// Whether a range has a member.
fn intersects_range<T: Ord + Word + Copy + Drop>(
    set: Option<RangeSet2<T>>,
    row: &mut Row,
) -> Option<bool> {
    let (set, range) = (set?, row.range::<T>()?);
    row.equals()?;
    let (start, end, want) = (range.start, range.end, row.truth()?);
    Some(
        set.intersects_range(start..end) == want
            && set.as_ref().intersects_range(start..end) == want,
    )
}

// Whether all from a value on are members, and whether some are.
fn from(set: &RangeSet2<i8>, row: &mut Row) -> Option<bool> {
    let (view, start) = (set.as_ref(), row.range_from()?);
    row.equals()?;
    let (all, some) = (row.truth()?, row.truth()?);
    let of_set = set.contains_range_from(start..) == all
        && set.intersects_range_from(start..) == some;
    let of_view = view.contains_range_from(start..) == all
        && view.intersects_range_from(start..) == some;
    Some(of_set && of_view)
}
