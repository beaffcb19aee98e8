//! How many of many ranges hold each key: rows, and made-up ranges beside counting key by key.
use crate::made_up::{LIMIT, next_range};
use range_map::RangeMap;
use range_tests_kit::generator::Generator;
use std::alloc::AllocError;
use std::ops::Range;

// Where ranges begin and end, how many of them hold each of the first twelve numbers, where a dot is
// none, and how many ranges of one depth there are.
#[derive(Clone, Copy, Debug)]
struct Row<'a> {
    ranges: &'a [Range<u64>],
    depths: &'a str,
    len: usize,
}

// Equal starts, equal ends, ranges that end where others start, and ranges of nothing among them.
#[rattlefmt::skip]
const ROWS: [Row; 12] = [
    Row { ranges: &[], depths: "............", len: 0 },
    Row { ranges: &[2..5], depths: "..111.......", len: 1 },
    Row { ranges: &[5..5, 7..3], depths: "............", len: 0 },
    Row { ranges: &[2..5, 2..9, 2..7], depths: "..3332211...", len: 3 },
    Row { ranges: &[6..9, 2..9, 4..9], depths: "..1122333...", len: 3 },
    Row { ranges: &[3..6, 3..6], depths: "...222......", len: 1 },
    Row { ranges: &[5..8, 2..5], depths: "..111111....", len: 1 },
    Row { ranges: &[5..8, 1..9, 2..5], depths: ".12222221...", len: 3 },
    Row { ranges: &[5..7, 2..5, 5..9], depths: "..1112211...", len: 3 },
    Row { ranges: &[2..4, 6..8], depths: "..11..11....", len: 2 },
    Row { ranges: &[9..1, 2..8, 4..4, 4..6, 6..5], depths: "..112211....", len: 3 },
    Row { ranges: &[0..u64::MAX, 4..6, u64::MAX..0], depths: "111122111111", len: 3 },
];

// How many of the ranges hold the key.
fn depth_at(ranges: &[Range<u64>], key: u64) -> usize {
    let mut depth = 0usize;
    for range in ranges {
        if range.start <= key && key < range.end {
            depth = depth.saturating_add(1);
        }
    }
    depth
}

// Whether the map has the depths of these ranges.
pub(crate) fn has_depths(map: &RangeMap<u64, usize>, ranges: &[Range<u64>]) -> bool {
    for key in 0..LIMIT {
        if map.get(&key).copied().unwrap_or(0) != depth_at(ranges, key) {
            return false;
        }
    }
    true
}

// Whether the map has these depths.
fn has(map: &RangeMap<u64, usize>, depths: &str) -> bool {
    let mut key = 0u64;
    for depth in depths.chars() {
        let found = match map.get(&key) {
            None => '.',
            Some(1) => '1',
            Some(2) => '2',
            Some(3) => '3',
            Some(_) => '?',
        };
        if found != depth {
            return false;
        }
        key = key.saturating_add(1);
    }
    true
}

#[test]
fn ranges_are_counted(rt: HostRuntime) -> Result<(), AllocError> {
    for row in &ROWS {
        let map = RangeMap::depth(rt.alloc(), row.ranges)?;
        assert!(rt; has(&map, row.depths) && map.len() == row.len, "{row:?}");
    }
    Ok(())
}

#[test]
fn a_thousand_made_up_ranges_are_counted(rt: HostRuntime) -> Result<(), AllocError> {
    let mut generator = Generator::new();
    let mut ranges = Vec::new(rt.alloc());
    for _ in 0..1_000u64 {
        ranges.push(next_range(&mut generator))?;
    }
    let depth = RangeMap::depth(rt.alloc(), ranges.as_slice())?;
    assert!(rt; has_depths(&depth, ranges.as_slice()));
    Ok(())
}
