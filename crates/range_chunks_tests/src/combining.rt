//! Operations of a set in chunks with a view, row by row and among many chunks.
use crate::making::flat_set;
use crate::rows::{has, set_of};
use range_chunks::ChunkedRangeSet;
use range_collections::{RangeSet2, RangeSetRef};
use std::alloc::{AllocError, Global};

// The boundaries of both sides, then those of the union, of what both have, of what the left side
// has alone, and of what one side has alone.
#[derive(Clone, Copy, Debug)]
struct Row<'a> {
    left: &'a [i64],
    right: &'a [i64],
    union: &'a [i64],
    both: &'a [i64],
    left_alone: &'a [i64],
    one_alone: &'a [i64],
}

#[rattlefmt::skip]
const ROWS: [Row; 9] = [
    Row { left: &[], right: &[], union: &[], both: &[], left_alone: &[], one_alone: &[] },
    Row {
        left: &[0, 10], right: &[], union: &[0, 10], both: &[], left_alone: &[0, 10],
        one_alone: &[0, 10],
    },
    Row {
        left: &[], right: &[0, 10], union: &[0, 10], both: &[], left_alone: &[],
        one_alone: &[0, 10],
    },
    Row {
        left: &[0, 10], right: &[0, 10], union: &[0, 10], both: &[0, 10], left_alone: &[],
        one_alone: &[],
    },
    Row {
        left: &[0, 10], right: &[5, 15], union: &[0, 15], both: &[5, 10], left_alone: &[0, 5],
        one_alone: &[0, 5, 10, 15],
    },
    Row {
        left: &[0, 10], right: &[10, 20], union: &[0, 20], both: &[], left_alone: &[0, 10],
        one_alone: &[0, 20],
    },
    Row {
        left: &[0, 10, 20, 30], right: &[5], union: &[0], both: &[5, 10, 20, 30],
        left_alone: &[0, 5], one_alone: &[0, 5, 10, 20, 30],
    },
    Row {
        left: &[0], right: &[5, 10], union: &[0], both: &[5, 10], left_alone: &[0, 5, 10],
        one_alone: &[0, 5, 10],
    },
    Row {
        left: &[0], right: &[-5], union: &[-5], both: &[0], left_alone: &[], one_alone: &[-5, 0],
    },
];

// Whether each operation gives the row's boundaries.
fn are_right(alloc: Global, row: &Row) -> Result<bool, AllocError> {
    let Some(that) = RangeSetRef::new(row.right) else {
        return Ok(false);
    };
    let mut set = set_of(alloc, row.left)?;
    set.union_with(that)?;
    let mut right = has(&set, row.union);
    set = set_of(alloc, row.left)?;
    set.intersection_with(that)?;
    right = right && has(&set, row.both);
    set = set_of(alloc, row.left)?;
    set.difference_with(that)?;
    right = right && has(&set, row.left_alone);
    set = set_of(alloc, row.left)?;
    set.symmetric_difference_with(that)?;
    Ok(right && has(&set, row.one_alone))
}

#[test]
fn operations_with_a_view(rt: HostRuntime) -> Result<(), AllocError> {
    for row in &ROWS {
        let right = are_right(rt.alloc(), row)?;
        assert!(rt; right, "{row:?}");
    }
    Ok(())
}

// Whether the numbers whose place in their 20 is below `to`, and not below `from`, are the members,
// up to 12,000.
fn has_places(set: &ChunkedRangeSet<u64>, from: u64, to: u64) -> bool {
    for number in 0..12_100u64 {
        let place = number % 20;
        let want = number < 12_000 && from <= place && place < to;
        if set.contains(&number) != want {
            return false;
        }
    }
    true
}

// Ranges of 10 from 5 on, one in each 20.
fn shifted(alloc: Global) -> Result<RangeSet2<u64>, AllocError> {
    let mut set = RangeSet2::empty(alloc);
    for k in 0..600u64 {
        let start = k.saturating_mul(20).saturating_add(5);
        set.insert(start..start.saturating_add(10))?;
    }
    Ok(set)
}

// 600 ranges lie in three chunks.
#[test]
fn operations_among_many_chunks(rt: HostRuntime) -> Result<(), AllocError> {
    let alloc = rt.alloc();
    let flat = flat_set(alloc, (600, false))?;
    let that = shifted(alloc)?;
    let mut set = ChunkedRangeSet::from_view(alloc, flat.as_ref())?;
    set.union_with(that.as_ref())?;
    assert!(rt; has_places(&set, 0, 15), "union");
    set.difference_with(flat.as_ref())?;
    assert!(rt; has_places(&set, 10, 15), "difference");
    set.symmetric_difference_with(that.as_ref())?;
    assert!(rt; has_places(&set, 5, 10), "symmetric difference");
    set.intersection_with(flat.as_ref())?;
    assert!(rt; has_places(&set, 5, 10), "intersection");
    assert!(rt; set.ranges_len() == 600, "{}", set.ranges_len());
    Ok(())
}
