//! Every comparison of a call goes through its counter: over elements that add to a tally whenever
//! they are compared, a counted call raises the tally by what it adds to `made`, and a plain call
//! by as much.
use range_chunks::ChunkedRangeSet;
use range_collections::Comparisons;
use range_tests_kit::elements::{Tallied, with_tally};
use std::alloc::{AllocError, Global};
use std::cell::Cell;

#[derive(Clone, Copy, Debug)]
enum Asked {
    Contains,
    ContainsRange,
    Insert,
    Remove,
    InsertFrom,
    RemoveFrom,
}

const CALLS: [Asked; 6] = [
    Asked::Contains,
    Asked::ContainsRange,
    Asked::Insert,
    Asked::Remove,
    Asked::InsertFrom,
    Asked::RemoveFrom,
];

// How many ranges of 10 a set has, one in each 20.
const RANGES: i64 = 600;

// At most as many comparisons as a search among 1,200 boundaries in chunks may make.
const SEARCH: u128 = 11 + 10;

// The set of these ranges.
fn spread<'t>(
    alloc: Global,
    tally: &'t Cell<u128>,
) -> Result<ChunkedRangeSet<Tallied<'t>>, AllocError> {
    let mut set = ChunkedRangeSet::new(alloc);
    for k in 0..RANGES {
        let start = k.saturating_mul(20);
        let end = start.saturating_add(10);
        set.insert(with_tally(start, tally)..with_tally(end, tally))?;
    }
    tally.set(0);
    Ok(set)
}

// Makes a call with a counter, or without, where the range is one of 15 from a number on.
fn ask<'t>(
    set: &mut ChunkedRangeSet<Tallied<'t>>,
    call: Asked,
    at: i64,
    tally: &'t Cell<u128>,
    count: Option<&mut Comparisons>,
) -> Result<(), AllocError> {
    let (start, end) = (
        with_tally(at, tally),
        with_tally(at.saturating_add(15), tally),
    );
    let Some(count) = count else {
        return match call {
            Asked::Contains => Ok(drop_answer(set.contains(&start))),
            Asked::ContainsRange => Ok(drop_answer(set.contains_range(start..end))),
            Asked::Insert => set.insert(start..end),
            Asked::Remove => set.remove(start..end),
            Asked::InsertFrom => set.insert_from(start..),
            Asked::RemoveFrom => set.remove_from(start..),
        };
    };
    *count = Comparisons::new();
    match call {
        Asked::Contains => Ok(drop_answer(set.contains_counted(&start, count))),
        Asked::ContainsRange => Ok(drop_answer(set.contains_range_counted(start..end, count))),
        Asked::Insert => set.insert_counted(start..end, count),
        Asked::Remove => set.remove_counted(start..end, count),
        Asked::InsertFrom => set.insert_from_counted(start.., count),
        Asked::RemoveFrom => set.remove_from_counted(start.., count),
    }
}

// The answer isn't asked for.
fn drop_answer(_answer: bool) {}

// Whether a counted and a plain call raise the tally by what the counter says, and by no more than
// they may.
fn counts(alloc: Global, call: Asked, at: i64) -> Result<bool, AllocError> {
    let tally = Cell::new(0);
    let (mut one, mut other) = (spread(alloc, &tally)?, spread(alloc, &tally)?);
    let mut count = Comparisons::new();
    ask(&mut one, call, at, &tally, Some(&mut count))?;
    let counted = tally.replace(0);
    ask(&mut other, call, at, &tally, None)?;
    let plain = tally.replace(0);
    let most = match call {
        Asked::Contains | Asked::InsertFrom | Asked::RemoveFrom => SEARCH,
        Asked::ContainsRange => SEARCH + 2,
        Asked::Insert | Asked::Remove => 2 * SEARCH + 1,
    };
    Ok(counted == count.made() && plain == counted && 0 < counted && counted <= most)
}

#[test]
fn comparisons_go_through_the_counter(rt: HostRuntime) -> Result<(), AllocError> {
    for call in CALLS {
        for at in [-5, 0, 12, 5_115, 5_120, 6_003, 11_990, 12_000] {
            let right = counts(rt.alloc(), call, at)?;
            assert!(rt; right, "{call:?} at {at}");
        }
    }
    Ok(())
}
