//! How many ranges sets have, the first, the last and the one at an element, beside a `RangeSet`.
use crate::making::{ROWS, flat_set};
use range_chunks::ChunkedRangeSet;
use range_collections::RangeSet2;
use std::alloc::AllocError;

// Whether both have as many ranges and members, the same first and last range, and the same hull.
fn have_the_same_ends(set: &ChunkedRangeSet<u64>, flat: &RangeSet2<u64>) -> bool {
    set.boundaries_len() == flat.boundaries().len()
        && set.ranges_len() == flat.ranges_len()
        && set.first() == flat.first()
        && set.last() == flat.last()
        && set.span() == flat.span()
        && set.is_all() == flat.is_all()
        && set.covered() == flat.covered()
}

// Whether both have the same range at each number below a limit.
fn have_the_same_ranges(set: &ChunkedRangeSet<u64>, flat: &RangeSet2<u64>, limit: u64) -> bool {
    for number in 0..limit {
        if set.range_at(&number) != flat.range_at(&number) {
            return false;
        }
    }
    true
}

#[test]
fn sets_answer_as_one_list_does(rt: HostRuntime) -> Result<(), AllocError> {
    for row in ROWS {
        let flat = flat_set(rt.alloc(), row)?;
        let set = ChunkedRangeSet::from_view(rt.alloc(), flat.as_ref())?;
        assert!(rt; have_the_same_ends(&set, &flat), "{row:?}");
        let limit = row.0.saturating_mul(20).saturating_add(50);
        assert!(rt; have_the_same_ranges(&set, &flat, limit), "{row:?}");
    }
    Ok(())
}

// Ends of ranges: at the ends of ranges of a set and beside them, also where a chunk ends.
pub(crate) const ENDS: [u64; 14] = [
    0, 5, 10, 15, 20, 5_109, 5_110, 5_119, 5_120, 5_125, 5_130, 10_240, 59_990, 70_000,
];

// Whether both give the same parts, of which there are at most `most`.
fn are_the_same<'a>(
    mut these: range_chunks::RangesWithin<'a, u64>,
    mut those: range_collections::RangesWithin<'a, u64>,
    most: usize,
) -> bool {
    for _ in 0..=most {
        match (these.next(), those.next()) {
            (None, None) => return true,
            (one, other) if one == other => {}
            _ => return false,
        }
    }
    false
}

// Whether both give the same ranges, taken in turn from the front and from the back, of which there
// are at most `most`.
fn overlap_alike<'a>(
    mut these: range_chunks::Iter<'a, u64>,
    mut those: range_collections::Iter<'a, u64>,
    most: usize,
) -> bool {
    for _ in 0..=most {
        match (these.next(), those.next()) {
            (None, None) => return true,
            (one, other) if one == other => {}
            _ => return false,
        }
        if these.next_back() != those.next_back() {
            return false;
        }
    }
    false
}

// Whether both have the same gaps in a range, the same parts in it, and the same ranges that share a
// number with it.
fn have_the_same_parts<'a>(
    set: &'a ChunkedRangeSet<u64>,
    flat: &'a RangeSet2<u64>,
    start: &'a u64,
    end: &'a u64,
) -> bool {
    let most = flat.boundaries().len().saturating_add(1);
    let gaps = set.gaps(start..end);
    let parts = set.ranges_within(start..end);
    are_the_same(gaps, flat.gaps(start..end), most)
        && are_the_same(parts, flat.ranges_within(start..end), most)
        && overlap_alike(
            set.overlapping(start..end),
            flat.overlapping(start..end),
            most,
        )
}

// Whether both have the same parts of each range that starts here.
fn have_the_same_parts_from(set: &ChunkedRangeSet<u64>, flat: &RangeSet2<u64>, start: u64) -> bool {
    for end in ENDS {
        if !have_the_same_parts(set, flat, &start, &end) {
            return false;
        }
    }
    true
}

// Whether both have the same parts of each range with two of the ends.
fn have_all_the_same_parts(set: &ChunkedRangeSet<u64>, flat: &RangeSet2<u64>) -> bool {
    for start in ENDS {
        if !have_the_same_parts_from(set, flat, start) {
            return false;
        }
    }
    true
}

#[test]
fn sets_have_the_parts_that_one_list_has(rt: HostRuntime) -> Result<(), AllocError> {
    for row in ROWS {
        let mut flat = flat_set(rt.alloc(), row)?;
        let mut set = ChunkedRangeSet::from_view(rt.alloc(), flat.as_ref())?;
        assert!(rt; have_all_the_same_parts(&set, &flat), "{row:?}");
        flat.remove(0..3)?;
        set.remove(0..3)?;
        assert!(rt; have_all_the_same_parts(&set, &flat), "{row:?}");
    }
    Ok(())
}
