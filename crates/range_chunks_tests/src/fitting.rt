//! Where a stretch of numbers fits beside the ranges of a set in chunks.
use crate::making::flat_set;
use range_chunks::ChunkedRangeSet;
use range_collections::RangeSetRef;
use std::alloc::{AllocError, Global};

// Boundaries, the ends of the range that is looked at, how many numbers shall fit, and where.
#[derive(Clone, Copy, Debug)]
struct Row<'a> {
    items: &'a [u64],
    start: u64,
    end: u64,
    len: u64,
    want: Option<u64>,
}

#[rattlefmt::skip]
const ROWS: [Row; 12] = [
    Row { items: &[], start: 0, end: 10, len: 10, want: Some(0) },
    Row { items: &[], start: 0, end: 10, len: 11, want: None },
    Row { items: &[0, 5], start: 0, end: 10, len: 5, want: Some(5) },
    Row { items: &[0, 5], start: 7, end: 10, len: 3, want: Some(7) },
    Row { items: &[0, 5, 7, 9], start: 0, end: 20, len: 3, want: Some(9) },
    Row { items: &[2, 5], start: 0, end: 10, len: 2, want: Some(0) },
    Row { items: &[2, 5], start: 0, end: 10, len: 3, want: Some(5) },
    Row { items: &[3], start: 0, end: 10, len: 3, want: Some(0) },
    Row { items: &[3], start: 0, end: 10, len: 4, want: None },
    Row { items: &[0, 5], start: 3, end: 3, len: 0, want: Some(3) },
    Row { items: &[0, 5], start: 4, end: 3, len: 0, want: None },
    Row { items: &[0, 5], start: 9, end: 3, len: 1, want: None },
];

// Where the row's numbers fit, or `None` also if its boundaries don't ascend.
fn fit(alloc: Global, row: &Row) -> Result<Option<u64>, AllocError> {
    let Some(view) = RangeSetRef::new(row.items) else {
        return Ok(None);
    };
    let set = ChunkedRangeSet::from_view(alloc, view)?;
    Ok(set.first_fit_unchanged(row.start..row.end, row.len))
}

#[test]
fn numbers_fit(rt: HostRuntime) -> Result<(), AllocError> {
    for row in &ROWS {
        let found = fit(rt.alloc(), row)?;
        assert!(rt; found == row.want, "{row:?}");
    }
    Ok(())
}

// 600 ranges of 10, one in each 20, lie in three chunks.
#[test]
fn numbers_fit_behind_many_chunks(rt: HostRuntime) -> Result<(), AllocError> {
    let alloc = rt.alloc();
    let flat = flat_set(alloc, (600, false))?;
    let set = ChunkedRangeSet::from_view(alloc, flat.as_ref())?;
    assert!(rt;
        set.first_fit_unchanged(0..20_000, 10) == Some(10),
        "in the first gap"
    );
    assert!(rt;
        set.first_fit_unchanged(8_005..20_000, 10) == Some(8_010),
        "in a later one"
    );
    assert!(rt;
        set.first_fit_unchanged(0..20_000, 11) == Some(11_990),
        "behind the last range"
    );
    assert!(rt; set.first_fit_unchanged(0..12_000, 11).is_none(), "nowhere");
    Ok(())
}
