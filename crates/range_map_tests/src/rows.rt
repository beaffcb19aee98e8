//! Ranges put into a map and taken out of it, row by row.
use range_map::RangeMap;
use std::alloc::{AllocError, Global};

// Where a range begins and ends, and the value that it is given; `None` takes it out.
type Change = (u64, u64, Option<char>);

// Changes, the values of the first twelve numbers after them, where a dot is none, and how many
// ranges there are.
#[derive(Clone, Copy, Debug)]
struct Row<'a> {
    changes: &'a [Change],
    values: &'a str,
    len: usize,
}

const A: Option<char> = Some('a');

const B: Option<char> = Some('b');

const NONE: Option<char> = None;

// Ranges beside others, within and across them, with their values and with others, at the ends of
// the type, and of nothing.
#[rattlefmt::skip]
const ROWS: [Row; 22] = [
    Row { changes: &[], values: "............", len: 0 },
    Row { changes: &[(2, 5, A)], values: "..aaa.......", len: 1 },
    Row { changes: &[(5, 5, A), (7, 3, A)], values: "............", len: 0 },
    Row { changes: &[(2, 5, NONE)], values: "............", len: 0 },
    Row { changes: &[(2, 5, A), (5, 8, A)], values: "..aaaaaa....", len: 1 },
    Row { changes: &[(5, 8, A), (2, 5, A)], values: "..aaaaaa....", len: 1 },
    Row { changes: &[(2, 5, A), (5, 8, B)], values: "..aaabbb....", len: 2 },
    Row { changes: &[(2, 5, A), (6, 8, A)], values: "..aaa.aa....", len: 2 },
    Row { changes: &[(2, 5, A), (7, 9, A), (5, 7, A)], values: "..aaaaaaa...", len: 1 },
    Row { changes: &[(2, 5, A), (7, 9, A), (5, 7, B)], values: "..aaabbaa...", len: 3 },
    Row { changes: &[(2, 8, A), (4, 6, B)], values: "..aabbaa....", len: 3 },
    Row { changes: &[(2, 8, A), (4, 6, A)], values: "..aaaaaa....", len: 1 },
    Row { changes: &[(2, 8, A), (4, 6, NONE)], values: "..aa..aa....", len: 2 },
    Row { changes: &[(2, 8, A), (4, 6, B), (4, 6, A)], values: "..aaaaaa....", len: 1 },
    Row { changes: &[(2, 5, A), (2, 5, B)], values: "..bbb.......", len: 1 },
    Row { changes: &[(2, 5, A), (4, 7, B)], values: "..aabbb.....", len: 2 },
    Row { changes: &[(4, 7, B), (2, 5, A)], values: "..aaabb.....", len: 2 },
    Row { changes: &[(2, 4, A), (5, 7, B), (1, 9, B)], values: ".bbbbbbbb...", len: 1 },
    Row { changes: &[(2, 4, A), (5, 7, B), (1, 9, NONE)], values: "............", len: 0 },
    Row { changes: &[(2, 4, A), (5, 7, B), (3, 6, NONE)], values: "..a...b.....", len: 2 },
    Row { changes: &[(0, u64::MAX, A), (3, 5, NONE)], values: "aaa..aaaaaaa", len: 2 },
    Row { changes: &[(0, 3, A), (3, 6, B), (6, 9, A), (3, 6, A)], values: "aaaaaaaaa...", len: 1 },
];

// The map after these changes.
fn map_of(alloc: Global, changes: &[Change]) -> Result<RangeMap<u64, char>, AllocError> {
    let mut map = RangeMap::new(alloc);
    for (start, end, value) in changes {
        match value {
            Some(value) => map.insert(*start..*end, *value)?,
            None => map.remove(*start..*end)?,
        }
    }
    Ok(map)
}

// Whether the map has these values.
fn has(map: &RangeMap<u64, char>, values: &str) -> bool {
    let mut key = 0u64;
    for value in values.chars() {
        let want = if value == '.' { None } else { Some(value) };
        if map.get(&key).copied() != want || map.contains_key(&key) != want.is_some() {
            return false;
        }
        key = key.saturating_add(1);
    }
    true
}

#[test]
fn ranges_are_put_in_and_taken_out(rt: HostRuntime) -> Result<(), AllocError> {
    for row in &ROWS {
        let map = map_of(rt.alloc(), row.changes)?;
        assert!(rt; has(&map, row.values), "{row:?}");
        assert!(rt;
            map.len() == row.len && map.is_empty() == (row.len == 0),
            "{row:?}"
        );
    }
    Ok(())
}

#[test]
fn all_from_a_start_on_is_put_in_and_taken_out(rt: HostRuntime) -> Result<(), AllocError> {
    let mut map = map_of(rt.alloc(), &[(2, 5, A), (7, 9, B)])?;
    map.insert_from(4.., 'c')?;
    assert!(rt; has(&map, "..aacccccccc") && map.len() == 2);
    map.remove_from(3..)?;
    assert!(rt; has(&map, "..a.........") && map.len() == 1);
    map.insert_from(3.., 'a')?;
    assert!(rt; has(&map, "..aaaaaaaaaa") && map.len() == 1);
    map.remove_from(0..)?;
    assert!(rt; map.is_empty());
    Ok(())
}
