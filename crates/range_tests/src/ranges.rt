//! Copies of the ranges of a set, and their ends.
use range_collections::{RangeSet, RangeSetRange, RangeSetRef};
use range_tests_kit::lists::gives;
use std::alloc::Global;
use std::ops::Bound;

// Whether the range begins at the start, and ends before the end, or has none.
fn has_bounds(range: &RangeSetRange<i64>, start: i64, end: Option<i64>) -> bool {
    let is_end = match range.end_bound() {
        Bound::Excluded(last) => end == Some(*last),
        Bound::Unbounded => end.is_none(),
        Bound::Included(_) => false,
    };
    is_end && matches!(range.start_bound(), Bound::Included(first) if *first == start)
}

// Whether the copy of a borrowed range, and a clone of that, are this range, with these bounds, and
// it makes this set.
fn is_copied(
    alloc: Global,
    borrowed: Option<RangeSetRange<&i64>>,
    start: i64,
    end: Option<i64>,
    items: &[i64],
) -> bool {
    let want = match end {
        Some(end) => RangeSetRange::from(start..end),
        None => RangeSetRange::from(start..),
    };
    let Some(Ok(copied)) = borrowed.map(|range| range.cloned()) else {
        return false;
    };
    matches!(copied.clone(), Ok(again) if again == want)
        && copied == want
        && has_bounds(&copied, start, end)
        && gives(RangeSet::from_range_set_range(alloc, copied), items)
}

#[test]
fn ranges_are_copied_with_their_bounds(rt: HostRuntime) {
    let mut ranges = RangeSetRef::new(&[0i64, 2, 4]).unwrap_or_default().iter();
    assert!(rt; is_copied(rt.alloc(), ranges.next(), 0, Some(2), &[0, 2]));
    assert!(rt; is_copied(rt.alloc(), ranges.next(), 4, None, &[4]));
    assert!(rt; ranges.next().is_none() && ranges.next().is_none());
}
