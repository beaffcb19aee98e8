//! Sets made from ranges, views and sets have their ranges, and give them back.
use crate::made_up::are_alike;
use crate::rows::has;
use range_chunks::ChunkedRangeSet;
use range_collections::{RangeSet2, RangeSetRange};
use std::alloc::{AllocError, Global};
use std::ops::{Range, RangeFrom};

// How many ranges a set has, and whether one without an end lies above them. A full chunk has 256.
pub(crate) const ROWS: [(u64, bool); 12] = [
    (0, false),
    (0, true),
    (1, false),
    (1, true),
    (2, false),
    (255, true),
    (256, false),
    (256, true),
    (257, false),
    (512, true),
    (513, false),
    (3_000, true),
];

// The ranges of 10, one in each 20, from the highest down.
fn ranges(alloc: Global, row: (u64, bool)) -> Result<Vec<RangeSetRange<u64>>, AllocError> {
    let mut list = Vec::new(alloc);
    if row.1 {
        let start = row.0.saturating_mul(20);
        list.push(RangeSetRange::RangeFrom(RangeFrom { start }))?;
    }
    for k in 0..row.0 {
        let start = row.0.saturating_sub(k).saturating_sub(1).saturating_mul(20);
        let end = start.saturating_add(10);
        list.push(RangeSetRange::Range(Range { start, end }))?;
    }
    Ok(list)
}

// The set of these ranges.
pub(crate) fn flat_set(alloc: Global, row: (u64, bool)) -> Result<RangeSet2<u64>, AllocError> {
    let list = ranges(alloc, row)?;
    RangeSet2::from_ranges(alloc, list.as_slice())
}

// Whether a set of these ranges has them.
fn is_made(alloc: Global, row: (u64, bool), flat: &RangeSet2<u64>) -> Result<bool, AllocError> {
    let list = ranges(alloc, row)?;
    let made = ChunkedRangeSet::from_ranges(alloc, list.as_slice())?;
    Ok(are_alike(&made, flat))
}

// Whether a set of the view's members has the set's ranges, and so has its clone, which is equal
// to it until it is changed.
fn is_cloned(alloc: Global, flat: &RangeSet2<u64>) -> Result<bool, AllocError> {
    let set = ChunkedRangeSet::from_view(alloc, flat.as_ref())?;
    let mut copy = set.clone()?;
    let same = are_alike(&set, flat) && are_alike(&copy, flat) && copy == set;
    copy.remove(0..5)?;
    Ok(same && (copy == set) == flat.is_empty() && are_alike(&set, flat))
}

// Whether a set that is moved into chunks has the same ranges, and comes back as it was.
fn is_moved(alloc: Global, row: (u64, bool), flat: &RangeSet2<u64>) -> Result<bool, AllocError> {
    let moved = ChunkedRangeSet::from_set(flat_set(alloc, row)?)?;
    let made = are_alike(&moved, flat);
    match moved.into_set::<2>() {
        Ok(back) => Ok(made && back == *flat),
        Err(_) => Ok(false),
    }
}

#[test]
fn sets_are_made_and_given_back(rt: HostRuntime) -> Result<(), AllocError> {
    let alloc = rt.alloc();
    for row in ROWS {
        let flat = flat_set(alloc, row)?;
        let made = is_made(alloc, row, &flat)?;
        assert!(rt; made, "{row:?}");
        let cloned = is_cloned(alloc, &flat)?;
        assert!(rt; cloned, "{row:?}");
        let moved = is_moved(alloc, row, &flat)?;
        assert!(rt; moved, "{row:?}");
    }
    Ok(())
}

// Ranges in any order, from a start to an end, and the boundaries of the set of them.
type Mixed<'a> = (&'a [(i64, i64)], &'a [i64]);

const MIXED: [Mixed; 4] = [
    (&[], &[]),
    (&[(3, 3), (9, 2)], &[]),
    (&[(10, 20), (0, 10)], &[0, 20]),
    (&[(5, 10), (0, 3), (8, 12), (4, 4)], &[0, 3, 5, 12]),
];

// The set of these ranges.
fn set_of_mixed(alloc: Global, ends: &[(i64, i64)]) -> Result<ChunkedRangeSet<i64>, AllocError> {
    let mut list = Vec::new(alloc);
    for pair in ends {
        let (start, end) = *pair;
        list.push(RangeSetRange::Range(Range { start, end }))?;
    }
    ChunkedRangeSet::from_ranges(alloc, list.as_slice())
}

#[test]
fn ranges_come_in_any_order(rt: HostRuntime) -> Result<(), AllocError> {
    for row in &MIXED {
        let set = set_of_mixed(rt.alloc(), row.0)?;
        assert!(rt; has(&set, row.1), "{row:?}");
    }
    Ok(())
}
