//! Out of memory where a range is put into a set in chunks or taken out of it, and where a set is
//! made: each request is refused in turn, and the set has the ranges that it had.
use range_chunks::ChunkedRangeSet;
use range_collections::{RangeSet2, RangeSetRange};
use range_tests_kit::starving::{Answer, Call, Starved};
use range_tests_kit::ways::refused_if;
use std::alloc::{AllocError, Global};
use std::ops::Range;

#[derive(Clone, Copy, Debug)]
enum Change {
    Insert,
    Remove,
    UnionWith,
    DifferenceWith,
}

// How many ranges of 10 the set has, one in each 20, what is done with the range from the one
// number to the other, and whether it takes memory.
#[derive(Clone, Copy, Debug)]
struct Row {
    ranges: u16,
    change: Change,
    start: u16,
    end: u16,
    takes: bool,
}

// The first range, one that splits a full chunk, one within a range of it, and ranges for which the
// set needs no memory.
#[rattlefmt::skip]
const ROWS: [Row; 8] = [
    Row { ranges: 0, change: Change::Insert, start: 5, end: 10, takes: true },
    Row { ranges: 256, change: Change::Insert, start: 12, end: 15, takes: true },
    Row { ranges: 256, change: Change::Insert, start: 5_115, end: 5_117, takes: true },
    Row { ranges: 256, change: Change::Remove, start: 2_002, end: 2_005, takes: true },
    Row { ranges: 256, change: Change::Insert, start: 5, end: 5_000, takes: false },
    Row { ranges: 256, change: Change::Insert, start: 10, end: 12, takes: false },
    Row { ranges: 256, change: Change::Remove, start: 0, end: 5_120, takes: false },
    Row { ranges: 300, change: Change::Remove, start: 15, end: 5_500, takes: false },
];

#[derive(Drop)]
struct Attempt {
    alloc: Global,
    row: Row,
}

// The set of `ranges` ranges.
fn spread(alloc: Global, ranges: u16) -> Option<ChunkedRangeSet<u16>> {
    let mut set = ChunkedRangeSet::new(alloc);
    for k in 0..ranges {
        let start = k.saturating_mul(20);
        set.insert(start..start.saturating_add(10)).ok()?;
    }
    Some(set)
}

// Whether the number is in the ranges that a set begins with.
fn was_there(row: Row, number: u16) -> bool {
    number < row.ranges.saturating_mul(20) && number % 20 < 10
}

// Whether the number is in them once the row's range is put in or taken out.
fn is_there(row: Row, number: u16) -> bool {
    if row.start <= number && number < row.end {
        matches!(row.change, Change::Insert | Change::UnionWith)
    } else {
        was_there(row, number)
    }
}

// Whether the set has the numbers that it began with, and no other.
fn has_before(set: &ChunkedRangeSet<u16>, row: Row) -> bool {
    for number in 0..13_000u16 {
        if set.contains(&number) != was_there(row, number) {
            return false;
        }
    }
    true
}

// Whether it has those of the change, and no other.
fn has_after(set: &ChunkedRangeSet<u16>, row: Row) -> bool {
    for number in 0..13_000u16 {
        if set.contains(&number) != is_there(row, number) {
            return false;
        }
    }
    true
}

// Puts the row's range in or takes it out. A set of one range takes no memory.
fn changed(set: &mut ChunkedRangeSet<u16>, alloc: Global, row: Row) -> Result<(), AllocError> {
    let range = row.start..row.end;
    match row.change {
        Change::Insert => set.insert(range),
        Change::Remove => set.remove(range),
        Change::UnionWith => set.union_with(RangeSet2::from_range(alloc, range)?.as_ref()),
        Change::DifferenceWith => {
            set.difference_with(RangeSet2::from_range(alloc, range)?.as_ref())
        }
    }
}

impl Call for Attempt {
    type Given = ChunkedRangeSet<u16>;

    fn given(&self) -> Option<ChunkedRangeSet<u16>> {
        spread(self.alloc, self.row.ranges)
    }

    fn answer(&self, mut set: ChunkedRangeSet<u16>) -> Answer {
        let made = changed(&mut set, self.alloc, self.row);
        match made {
            Ok(()) => Answer::right_if(has_after(&set, self.row)),
            Err(_) => refused_if(has_before(&set, self.row)),
        }
    }
}

#[test]
fn changes_are_refused_where_the_set_grows(rt: HostRuntime) -> Result<(), AllocError> {
    let alloc = rt.alloc();
    for row in ROWS {
        let mut starved = Starved::new(alloc)?;
        let attempt = Attempt { alloc, row };
        assert!(rt; starved.agrees(&attempt, row.takes), "{row:?}");
    }
    Ok(())
}

// Operations with a view. They make several lists, so with more room a first list may leave less for
// the next.
#[rattlefmt::skip]
const COMBINED: [Row; 5] = [
    Row { ranges: 0, change: Change::UnionWith, start: 5, end: 10, takes: true },
    Row { ranges: 20, change: Change::UnionWith, start: 12, end: 15, takes: true },
    Row { ranges: 20, change: Change::DifferenceWith, start: 0, end: 195, takes: true },
    Row { ranges: 256, change: Change::UnionWith, start: 2_012, end: 2_015, takes: true },
    Row { ranges: 256, change: Change::DifferenceWith, start: 2_002, end: 2_005, takes: true },
];

/// Whether the call is refused without room, gives the answer that it has with ample memory where
/// there is much, and one of the two between.
pub fn is_refused_or_right<C: Call>(starved: &mut Starved, call: &C) -> bool {
    for round in 0..100usize {
        if starved.answer_in(16 * round, call) == Answer::Wrong {
            return false;
        }
    }
    starved.answer_in(0, call) == Answer::Refused && starved.answer_in(4_096, call) == Answer::Right
}

#[test]
fn operations_are_refused_or_right(rt: HostRuntime) -> Result<(), AllocError> {
    let alloc = rt.alloc();
    for row in COMBINED {
        let mut starved = Starved::new(alloc)?;
        let attempt = Attempt { alloc, row };
        assert!(rt; is_refused_or_right(&mut starved, &attempt), "{row:?}");
    }
    Ok(())
}

#[derive(Clone, Copy, Debug)]
enum Making {
    FromRanges,
    FromView,
    Clone,
    IntoSet,
}

// How many ranges the set has, how another is made of it, and whether that takes memory.
#[derive(Clone, Copy)]
struct Source {
    ranges: u16,
    making: Making,
    takes: bool,
}

#[rattlefmt::skip]
const MADE: [Source; 6] = [
    Source { ranges: 0, making: Making::Clone, takes: false },
    Source { ranges: 20, making: Making::FromRanges, takes: true },
    Source { ranges: 20, making: Making::FromView, takes: true },
    Source { ranges: 1, making: Making::FromView, takes: true },
    Source { ranges: 20, making: Making::Clone, takes: true },
    Source { ranges: 20, making: Making::IntoSet, takes: true },
];

#[derive(Drop)]
struct Made {
    alloc: Global,
    row: Row,
    making: Making,
}

impl Made {
    // Makes a set of the members, and says whether it has them and no other. `None` is for out of
    // memory with the set as it was.
    fn make(&self, set: ChunkedRangeSet<u16>) -> Result<bool, AllocError> {
        match self.making {
            Making::Clone => Ok(has_before(&set.clone()?, self.row)),
            Making::IntoSet => match set.into_set::<2>() {
                Ok(flat) => Ok(flat.ranges_len() == usize::from(self.row.ranges)),
                Err((error, set)) if has_before(&set, self.row) => Err(error),
                Err(_) => Ok(false),
            },
            Making::FromRanges => self.from_ranges(),
            Making::FromView => self.from_view(),
        }
    }

    // The same, from as many ranges.
    fn from_ranges(&self) -> Result<bool, AllocError> {
        let mut list = Vec::new(self.alloc);
        for k in 0..self.row.ranges {
            let start = k.saturating_mul(20);
            let end = start.saturating_add(10);
            list.push(RangeSetRange::Range(Range { start, end }))?;
        }
        let made = ChunkedRangeSet::from_ranges(self.alloc, list.as_slice())?;
        Ok(has_before(&made, self.row))
    }

    // The same, from a view of a set of as many.
    fn from_view(&self) -> Result<bool, AllocError> {
        let mut flat = RangeSet2::empty(self.alloc);
        for k in 0..self.row.ranges {
            let start = k.saturating_mul(20);
            flat.insert(start..start.saturating_add(10))?;
        }
        let made = ChunkedRangeSet::from_view(self.alloc, flat.as_ref())?;
        Ok(has_before(&made, self.row))
    }
}

impl Call for Made {
    type Given = ChunkedRangeSet<u16>;

    fn given(&self) -> Option<ChunkedRangeSet<u16>> {
        spread(self.alloc, self.row.ranges)
    }

    fn answer(&self, set: ChunkedRangeSet<u16>) -> Answer {
        match self.make(set) {
            Ok(right) => Answer::right_if(right),
            Err(_) => Answer::Refused,
        }
    }
}

#[test]
fn sets_are_refused_where_they_take_memory(rt: HostRuntime) -> Result<(), AllocError> {
    let alloc = rt.alloc();
    for Source {
        ranges,
        making,
        takes,
    } in MADE {
        let mut starved = Starved::new(alloc)?;
        let row = Row {
            ranges,
            change: Change::Insert,
            start: 0,
            end: 0,
            takes,
        };
        let made = Made { alloc, row, making };
        assert!(rt; starved.agrees(&made, takes), "{ranges} {making:?}");
    }
    Ok(())
}
