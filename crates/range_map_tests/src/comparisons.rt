//! Every comparison of keys goes through the counter: over keys that add to a tally whenever they
//! are compared, a counted call raises the tally by what it adds to `made`, and a plain call raises
//! it by as much.
use range_collections::Comparisons;
use range_map::RangeMap;
use range_tests_kit::elements::{Tallied, with_tally};
use std::alloc::{AllocError, Global};
use std::cell::Cell;

type Map<'t> = RangeMap<Tallied<'t>, u8>;

#[derive(Clone, Copy, PartialEq, Eq, Debug)]
enum Call {
    Get,
    Insert,
    Remove,
}

// A call, the range that it is given, of which `Get` looks the start up, and how many comparisons
// it makes at most.
#[derive(Clone, Copy, Debug)]
struct Row {
    call: Call,
    start: i64,
    end: i64,
    most: u128,
}

// The map has eight keys, a number of four binary digits. One comparison is that of a start with
// its end.
#[rattlefmt::skip]
const ROWS: [Row; 9] = [
    Row { call: Call::Get, start: -1, end: 0, most: 4 },
    Row { call: Call::Get, start: 45, end: 0, most: 4 },
    Row { call: Call::Get, start: 99, end: 0, most: 4 },
    Row { call: Call::Insert, start: 2, end: 5, most: 9 },
    Row { call: Call::Insert, start: 15, end: 65, most: 9 },
    Row { call: Call::Insert, start: 5, end: 5, most: 1 },
    Row { call: Call::Remove, start: 2, end: 5, most: 9 },
    Row { call: Call::Remove, start: 0, end: 99, most: 9 },
    Row { call: Call::Remove, start: 7, end: 3, most: 1 },
];

// The map of 4 ranges of 10, one in each 20.
fn spread<'t>(alloc: Global, tally: &'t Cell<u128>) -> Result<Map<'t>, AllocError> {
    let mut map = RangeMap::new(alloc);
    for k in 0..4u8 {
        let start = i64::from(k).saturating_mul(20);
        let end = start.saturating_add(10);
        map.insert(with_tally(start, tally)..with_tally(end, tally), k)?;
    }
    Ok(map)
}

// What the call raises the tally by.
fn plain_cost(alloc: Global, row: Row, tally: &Cell<u128>) -> Result<u128, AllocError> {
    let mut map = spread(alloc, tally)?;
    let (start, end) = (with_tally(row.start, tally), with_tally(row.end, tally));
    tally.set(0);
    match row.call {
        Call::Get => {
            let _value = map.get(&start);
        }
        Call::Insert => map.insert(start..end, 9)?,
        Call::Remove => map.remove(start..end)?,
    }
    Ok(tally.replace(0))
}

// What its counted form raises the tally by, if that is what it counts.
fn counted_cost(alloc: Global, row: Row, tally: &Cell<u128>) -> Result<Option<u128>, AllocError> {
    let mut map = spread(alloc, tally)?;
    let (start, end) = (with_tally(row.start, tally), with_tally(row.end, tally));
    let mut count = Comparisons::new();
    tally.set(0);
    match row.call {
        Call::Get => {
            let _value = map.get_counted(&start, &mut count);
        }
        Call::Insert => map.insert_counted(start..end, 9, &mut count)?,
        Call::Remove => map.remove_counted(start..end, &mut count)?,
    }
    let raised = tally.replace(0);
    Ok((raised == count.made()).then_some(raised))
}

#[test]
fn each_comparison_of_keys_is_counted(rt: HostRuntime) -> Result<(), AllocError> {
    let tally = Cell::new(0);
    for row in ROWS {
        let plain = plain_cost(rt.alloc(), row, &tally)?;
        let counted = counted_cost(rt.alloc(), row, &tally)?;
        assert!(rt; counted == Some(plain) && plain <= row.most, "{row:?}");
    }
    Ok(())
}
