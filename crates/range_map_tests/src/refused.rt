//! Out of memory where a map is changed: each request is refused in turn, and the map has the
//! values that it had. So is each copy of a value.
use range_map::{MapValue, RangeMap};
use range_tests_kit::starving::{Answer, Call, Starved};
use range_tests_kit::ways::refused_if;
use std::alloc::{AllocError, Global};

// How many ranges of 10 the map has, one in each 20, with values 1 and 2 by turns; the range that
// is changed, and the value that it is given, where 0 takes it out; and whether that takes memory.
#[derive(Clone, Copy, Debug)]
struct Row {
    ranges: u16,
    start: u16,
    end: u16,
    value: u16,
    takes: bool,
}

// The first range, some that add steps, and some that don't.
#[rattlefmt::skip]
const ROWS: [Row; 12] = [
    Row { ranges: 0, start: 5, end: 10, value: 1, takes: true },
    Row { ranges: 16, start: 12, end: 15, value: 3, takes: true },
    Row { ranges: 16, start: 2, end: 5, value: 3, takes: true },
    Row { ranges: 16, start: 2, end: 5, value: 0, takes: true },
    Row { ranges: 16, start: 0, end: 10, value: 3, takes: false },
    Row { ranges: 16, start: 2, end: 5, value: 1, takes: false },
    Row { ranges: 16, start: 5, end: 300, value: 3, takes: false },
    Row { ranges: 16, start: 0, end: 320, value: 0, takes: false },
    Row { ranges: 16, start: 15, end: 315, value: 0, takes: false },
    // A chunk is full, and becomes two.
    Row { ranges: 64, start: 2, end: 5, value: 3, takes: true },
    Row { ranges: 64, start: 2, end: 5, value: 0, takes: true },
    Row { ranges: 64, start: 1275, end: 1290, value: 0, takes: false },
];

#[derive(Drop)]
struct Attempt {
    alloc: Global,
    row: Row,
}

// The value of a number in the ranges that a map begins with, or 0.
fn value_before(row: Row, number: u16) -> u16 {
    if number < row.ranges.saturating_mul(20) && number % 20 < 10 {
        number / 20 % 2 + 1
    } else {
        0
    }
}

// The same once the row's range is changed.
fn value_after(row: Row, number: u16) -> u16 {
    if row.start <= number && number < row.end {
        row.value
    } else {
        value_before(row, number)
    }
}

// The map of `ranges` ranges.
fn spread(alloc: Global, ranges: u16) -> Option<RangeMap<u16, u16>> {
    let mut map = RangeMap::new(alloc);
    for k in 0..ranges {
        let start = k.saturating_mul(20);
        map.insert(start..start.saturating_add(10), k % 2 + 1).ok()?;
    }
    Some(map)
}

// Whether the map has the values that it began with, or those after the change, and no other.
fn has(map: &RangeMap<u16, u16>, row: Row, changed: bool) -> bool {
    for number in 0..1400u16 {
        let value = if changed {
            value_after(row, number)
        } else {
            value_before(row, number)
        };
        if map.get(&number).copied().unwrap_or(0) != value {
            return false;
        }
    }
    true
}

impl Call for Attempt {
    type Given = RangeMap<u16, u16>;

    fn given(&self) -> Option<RangeMap<u16, u16>> {
        spread(self.alloc, self.row.ranges)
    }

    fn answer(&self, mut map: RangeMap<u16, u16>) -> Answer {
        let range = self.row.start..self.row.end;
        let made = match self.row.value {
            0 => map.remove(range),
            value => map.insert(range, value),
        };
        match made {
            Ok(()) => Answer::right_if(has(&map, self.row, true)),
            Err(_) => refused_if(has(&map, self.row, false)),
        }
    }
}

#[test]
fn changes_are_refused_where_the_map_grows(rt: HostRuntime) -> Result<(), AllocError> {
    let alloc = rt.alloc();
    for row in ROWS {
        let mut starved = Starved::new(alloc)?;
        let attempt = Attempt { alloc, row };
        assert!(rt; starved.agrees(&attempt, row.takes), "{row:?}");
    }
    Ok(())
}

// A number of which no copy is made.
#[derive(PartialEq, Eq, Drop)]
pub(crate) struct Alone(pub(crate) u8);

impl MapValue for Alone {
    ghost is_infallible = { λ _. ⊥ };

    fn copy_value(&self) -> Result<Alone, AllocError> {
        Err(AllocError)
    }
}

// The map of 1 from 10 to 20 and 2 from 20 to 30.
pub(crate) fn pair(alloc: Global) -> Result<RangeMap<u8, Alone>, AllocError> {
    let mut map = RangeMap::new(alloc);
    map.insert(10..20, Alone(1))?;
    map.insert(20..30, Alone(2))?;
    Ok(map)
}

// The value of a number, or 0.
pub(crate) fn value_at(map: &RangeMap<u8, Alone>, number: u8) -> u8 {
    match map.get(&number) {
        Some(value) => value.0,
        None => 0,
    }
}

#[test]
fn only_a_range_that_becomes_two_is_copied(rt: HostRuntime) -> Result<(), AllocError> {
    let mut map = pair(rt.alloc())?;
    assert!(rt; map.insert(12..15, Alone(3)).is_err() && map.remove(12..15).is_err());
    assert!(rt; value_at(&map, 12) == 1 && map.len() == 2);
    map.insert(12..15, Alone(1))?;
    map.insert(15..25, Alone(3))?;
    assert!(rt; value_at(&map, 14) == 1 && value_at(&map, 24) == 3 && value_at(&map, 25) == 2);
    map.remove(5..12)?;
    map.remove(28..40)?;
    assert!(rt; value_at(&map, 11) == 0 && value_at(&map, 12) == 1 && value_at(&map, 27) == 2);
    assert!(rt; map.len() == 3);
    Ok(())
}
