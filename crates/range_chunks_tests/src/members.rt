//! Members counted and found by how many are below, and values in a row, beside a `RangeSet`.
use crate::asking::ENDS;
use crate::making::{ROWS, flat_set};
use range_chunks::ChunkedRangeSet;
use range_collections::{RangeSet2, RangeSetRef};
use std::alloc::{AllocError, Global};

// Whether both have as many members below each of the ends, and the same member with as many below.
fn count_alike(set: &ChunkedRangeSet<u64>, flat: &RangeSet2<u64>) -> bool {
    for number in ENDS {
        let k = u128::from(number);
        if set.rank(&number) != flat.rank(&number) || set.select(k) != flat.select(k) {
            return false;
        }
    }
    true
}

#[test]
fn members_are_counted_as_in_one_list(rt: HostRuntime) -> Result<(), AllocError> {
    for row in ROWS {
        let flat = flat_set(rt.alloc(), row)?;
        let set = ChunkedRangeSet::from_view(rt.alloc(), flat.as_ref())?;
        assert!(rt; count_alike(&set, &flat), "{row:?}");
        assert!(rt; set.rank(&u64::MAX) == flat.rank(&u64::MAX), "{row:?}");
        assert!(rt; set.select(u128::MAX).is_none(), "{row:?}");
    }
    Ok(())
}

// How many values, and a number whose multiples the start of a fit is one of.
const FITS: [(u128, u128); 7] = [(0, 1), (0, 64), (1, 7), (10, 1), (10, 64), (11, 3), (10, 0)];

// Whether both find the same rows of values from the start on.
fn fit_alike(set: &ChunkedRangeSet<u64>, flat: &RangeSet2<u64>, start: u64, end: u64) -> bool {
    for (count, align) in FITS {
        let aligned = set.first_fit_aligned(start..end, count, align);
        if set.first_run(start..end, count) != flat.first_run(start..end, count)
            || aligned != flat.first_fit_aligned(start..end, count, align)
        {
            return false;
        }
    }
    true
}

#[test]
fn values_in_a_row_are_found_as_in_one_list(rt: HostRuntime) -> Result<(), AllocError> {
    for row in ROWS {
        let flat = flat_set(rt.alloc(), row)?;
        let set = ChunkedRangeSet::from_view(rt.alloc(), flat.as_ref())?;
        for start in ENDS {
            assert!(rt; fit_alike(&set, &flat, start, 60_020), "{row:?} {start}");
        }
    }
    Ok(())
}

// Boundaries, a range, how many values, and a number of which the start is a multiple;
// where a gap has room for that many at such a start, and where that many members are in a row.
#[derive(Clone, Copy, Debug)]
struct Row<'a> {
    items: &'a [i8],
    start: i8,
    end: i8,
    count: u128,
    align: u128,
    aligned: Option<i8>,
    run: Option<i8>,
}

#[rattlefmt::skip]
const PLACES: [Row; 11] = [
    Row { items: &[], start: -6, end: 3, count: 0, align: 4, aligned: Some(-4), run: Some(-6) },
    Row { items: &[], start: 5, end: -5, count: 0, align: 1, aligned: None, run: None },
    Row { items: &[-10, 10], start: -20, end: 30, count: 10, align: 8, aligned: Some(16), run: Some(-10) },
    Row { items: &[-10, 10], start: -20, end: 30, count: 21, align: 1, aligned: None, run: None },
    Row { items: &[3], start: -128, end: 127, count: 124, align: 2, aligned: Some(-128), run: Some(3) },
    Row { items: &[3], start: -128, end: 127, count: 125, align: 0, aligned: None, run: None },
    Row { items: &[-3, -1, 1, 2], start: -2, end: 9, count: 1, align: 2, aligned: Some(0), run: Some(-2) },
    Row { items: &[], start: 0, end: 100, count: 5, align: 10, aligned: Some(0), run: None },
    Row { items: &[-40, -31], start: -128, end: 127, count: 30, align: 60, aligned: Some(-120), run: None },
    Row { items: &[-40, -31], start: -37, end: 127, count: 30, align: 15, aligned: Some(-30), run: None },
    Row { items: &[126], start: 100, end: 127, count: 1, align: 128, aligned: None, run: Some(126) },
];

// What a set with the row's boundaries finds, or `None` if they don't ascend.
fn found(alloc: Global, row: &Row) -> Result<Option<[Option<i8>; 2]>, AllocError> {
    let Some(view) = RangeSetRef::new(row.items) else {
        return Ok(None);
    };
    let set = ChunkedRangeSet::from_view(alloc, view)?;
    let (start, end) = (row.start, row.end);
    Ok(Some([
        set.first_fit_aligned(start..end, row.count, row.align),
        set.first_run(start..end, row.count),
    ]))
}

#[test]
fn values_in_a_row_begin_at_places(rt: HostRuntime) -> Result<(), AllocError> {
    for row in &PLACES {
        let found = found(rt.alloc(), row)?;
        assert!(rt; found == Some([row.aligned, row.run]), "{row:?}");
    }
    Ok(())
}
