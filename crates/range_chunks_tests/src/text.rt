//! The texts of sets in chunks.
use range_chunks::ChunkedRangeSet;
use range_tests_kit::lists::prints;
use std::alloc::{AllocError, Global};

// The ends of ranges that are put in, the start from which all is put in, and the text of their set.
#[derive(Clone, Copy)]
struct Row {
    ranges: &'static [(i64, i64)],
    from: Option<i64>,
    text: &'static str,
}

#[rattlefmt::skip]
const ROWS: [Row; 5] = [
    Row { ranges: &[], from: None, text: "" },
    Row { ranges: &[], from: Some(-5), text: "-5.." },
    Row { ranges: &[(0, 10)], from: None, text: "0..10" },
    Row { ranges: &[(20, 30), (0, 10), (10, 12)], from: None, text: "0..12, 20..30" },
    Row { ranges: &[(0, 10), (20, 30)], from: Some(40), text: "0..10, 20..30, 40.." },
];

// The set of the row's ranges.
fn set_of(alloc: Global, row: Row) -> Result<ChunkedRangeSet<i64>, AllocError> {
    let mut set = ChunkedRangeSet::new(alloc);
    for (start, end) in row.ranges {
        set.insert(*start..*end)?;
    }
    if let Some(start) = row.from {
        set.insert_from(start..)?;
    }
    Ok(set)
}

// Whether the set is written so, and printed so between braces.
fn is_written(alloc: Global, set: &ChunkedRangeSet<i64>, want: &str) -> Result<bool, AllocError> {
    let text = format!(in alloc; "{set}")?;
    let braced = format!(in alloc; "ChunkedRangeSet{{{want}}}")?;
    Ok(text.as_str() == want && prints(alloc, set, braced.as_str()))
}

#[test]
fn sets_are_written_by_their_ranges(rt: HostRuntime) -> Result<(), AllocError> {
    let alloc = rt.alloc();
    for row in ROWS {
        let set = set_of(alloc, row)?;
        assert!(rt; is_written(alloc, &set, row.text)?, "{}", row.text);
    }
    Ok(())
}
