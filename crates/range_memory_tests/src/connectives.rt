//! Out of memory in the connectives.
use crate::operations::wrong_way;
use range_tests_kit::ways::Case;
use std::alloc::AllocError;

const LEAST: i64 = i64::MIN;

// A table, two lists, and what it makes of them.
#[derive(Clone, Copy)]
struct Row<'a> {
    table: [u8; 4],
    left: &'a [i64],
    right: &'a [i64],
    want: &'a [i64],
}

#[rattlefmt::skip]
const ROWS: [Row; 6] = [
    Row { table: [0, 1, 1, 1], left: &[0, 10], right: &[20, 30, 40], want: &[0, 10, 20, 30, 40] },
    Row { table: [0, 0, 1, 1], left: &[0, 10], right: &[20, 30, 40], want: &[20, 30, 40] },
    Row {
        table: [1, 0, 0, 0], left: &[0, 10], right: &[20, 30, 40],
        want: &[LEAST, 0, 10, 20, 30, 40],
    },
    Row { table: [1, 1, 0, 0], left: &[0, 10], right: &[20, 30, 40], want: &[LEAST, 20, 30, 40] },
    Row { table: [0, 1, 1, 0], left: &[0], right: &[5], want: &[0, 5] },
    Row { table: [1, 0, 1, 0], left: &[0], right: &[], want: &[LEAST, 0] },
];

#[test]
fn connectives_are_refused_beyond_their_room(rt: HostRuntime) -> Result<(), AllocError> {
    for row in &ROWS {
        let case = Case {
            table: row.table,
            op: None,
            left: row.left,
            right: row.right,
            first: &[],
            want: row.want,
            most: 8,
        };
        assert_eq!(rt; wrong_way(rt.alloc(), &case)?, None, "{:?}", row.table);
    }
    Ok(())
}
