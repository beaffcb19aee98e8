//! Out of memory where a map makes another map or a set, or a range is booked: each request is
//! refused in turn, and the map has the values that it had. So is each copy of a value.
ghost use Rattle.std.specs.Prelude.{Some};

use crate::refused::{Alone, pair, value_at};
use range_collections::{Comparisons, RangeSet2, RangeSetRef};
use range_map::{InsertError, MapOperation, MapUpdate, RangeMap};
use range_tests_kit::starving::{Answer, Call, Starved};
use range_tests_kit::ways::refused_if;
use std::alloc::{AllocError, Global};

// What is asked for.
#[derive(Clone, Copy, Debug)]
enum Wanted {
    Copy,
    Ranges,
    Booking,
    UnionLeft,
    UnionRight,
    Restricted,
    Without,
    Domain,
    Ones,
    Depth,
    Combined,
    Updated,
    UpdatedFrom,
    InsertedAll,
    InsertedWhereFree,
    RemovedAll,
    RetainedAll,
}

const ALL: [Wanted; 17] = [
    Wanted::Copy,
    Wanted::Ranges,
    Wanted::Booking,
    Wanted::UnionLeft,
    Wanted::UnionRight,
    Wanted::Restricted,
    Wanted::Without,
    Wanted::Domain,
    Wanted::Ones,
    Wanted::Depth,
    Wanted::Combined,
    Wanted::Updated,
    Wanted::UpdatedFrom,
    Wanted::InsertedAll,
    Wanted::InsertedWhereFree,
    Wanted::RemovedAll,
    Wanted::RetainedAll,
];

#[derive(Drop)]
struct Attempt {
    alloc: Global,
    wanted: Wanted,
}

// The map of 2 ranges of 10, one in each 20, with the value 1.
fn spread(alloc: Global) -> Option<RangeMap<u16, u16>> {
    let mut map = RangeMap::new(alloc);
    for k in 0..2u16 {
        let start = k.saturating_mul(20);
        map.insert(start..start.saturating_add(10), 1).ok()?;
    }
    Some(map)
}

// Whether the map has its ranges from the start up to the end, and none elsewhere.
fn has(map: &RangeMap<u16, u16>, start: u16, end: u16) -> bool {
    for number in 0..400u16 {
        let inside = start <= number && number < end && number < 40 && number % 20 < 10;
        if map.contains_key(&number) != inside {
            return false;
        }
    }
    true
}

// The map of many ranges, which are made for it.
fn from_ranges(alloc: Global) -> Result<RangeMap<u16, u16>, AllocError> {
    let mut ranges = Vec::new(alloc);
    for k in 0..2u16 {
        let start = k.saturating_mul(20);
        ranges.push((start..start.saturating_add(10), 1))?;
    }
    RangeMap::from_ranges(alloc, ranges)
}

// The answer of a call that makes a map with the ranges from the start up to the end.
fn answer_of(
    made: Result<RangeMap<u16, u16>, AllocError>,
    map: &RangeMap<u16, u16>,
    start: u16,
    end: u16,
) -> Answer {
    match made {
        Ok(made) => Answer::right_if(has(&made, start, end)),
        Err(_) => refused_if(has(map, 0, 400)),
    }
}

// The answer of a call that makes the set of all keys with a value.
fn set_answer(made: Result<RangeSet2<u16>, AllocError>, map: &RangeMap<u16, u16>) -> Answer {
    match made {
        Ok(set) => {
            Answer::right_if(set.ranges_len() == 2 && set.contains(&29) && !set.contains(&30))
        }
        Err(_) => refused_if(has(map, 0, 400)),
    }
}

// The answer of a range that is booked.
fn book(mut map: RangeMap<u16, u16>) -> Answer {
    match map.insert_free(12..15, 2) {
        Ok(()) => Answer::right_if(map.get(&14) == Some(&2) && map.len() == 3),
        Err(InsertError::OutOfMemory(2)) => refused_if(has(&map, 0, 400)),
        Err(_) => Answer::Wrong,
    }
}

// The values of the left.
struct Lefts;

impl MapOperation<u16, u16> for Lefts {
    type Output = u16;

    ghost gives = { λ _ p q. p };

    fn apply(&self, left: Option<&u16>, _right: Option<&u16>) -> Result<Option<u16>, AllocError> {
        Ok(left.copied())
    }
}

// The value 2 for each key.
struct Twos;

impl MapUpdate<u16> for Twos {
    ghost gives = { λ _ p. Some 2 };

    fn apply(&self, _option: Option<&u16>) -> Result<Option<u16>, AllocError> {
        Ok(Some(2))
    }
}

// The answer of a range whose keys are given another value.
fn update(mut map: RangeMap<u16, u16>) -> Answer {
    match map.update(12..15, &Twos) {
        Ok(()) => Answer::right_if(map.get(&14) == Some(&2) && map.len() == 3),
        Err(_) => refused_if(has(&map, 0, 400)),
    }
}

// The answer of keys from a start on that are given another value.
fn update_from(mut map: RangeMap<u16, u16>) -> Answer {
    match map.update_from(25.., &Twos) {
        Ok(()) => Answer::right_if(map.get(&30) == Some(&2) && map.len() == 3),
        Err(_) => refused_if(has(&map, 0, 400)),
    }
}

// The answer of a change in place, which leaves the ranges up to the end, or else the map as it was.
fn changed_answer(
    changed: Result<(), AllocError>,
    map: &RangeMap<u16, u16>,
    start: u16,
    end: u16,
) -> Answer {
    match changed {
        Ok(()) => Answer::right_if(has(map, start, end)),
        Err(_) => refused_if(has(map, 0, 400)),
    }
}

// The answer of the ranges of a map put into another one, which has the second of them already, over
// its values or where it has none.
fn insert_all(alloc: Global, mut map: RangeMap<u16, u16>, over: bool) -> Answer {
    let Some(that) = spread(alloc) else {
        return Answer::Refused;
    };
    if map.remove(0..10).is_err() {
        return Answer::Refused;
    }
    let made = if over {
        map.insert_all(&that)
    } else {
        map.insert_where_free(&that)
    };
    match made {
        Ok(()) => Answer::right_if(has(&map, 0, 400)),
        Err(_) => refused_if(has(&map, 20, 400)),
    }
}

// The answer of many ranges counted.
fn count(alloc: Global) -> Answer {
    let ranges = [0..10u16, 5..20];
    match RangeMap::depth(alloc, &ranges) {
        Ok(depth) => Answer::right_if(depth.get(&9) == Some(&2) && depth.get(&19) == Some(&1)),
        Err(_) => Answer::Refused,
    }
}

impl Call for Attempt {
    type Given = RangeMap<u16, u16>;

    fn given(&self) -> Option<RangeMap<u16, u16>> {
        spread(self.alloc)
    }

    fn answer(&self, map: RangeMap<u16, u16>) -> Answer {
        let alloc = self.alloc;
        let half = RangeSetRef::new(&[0, 20]);
        let Some(half) = half else {
            return Answer::Wrong;
        };
        match self.wanted {
            Wanted::Copy => answer_of(map.clone(), &map, 0, 400),
            Wanted::Ranges => answer_of(from_ranges(alloc), &map, 0, 400),
            Wanted::Booking => book(map),
            Wanted::UnionLeft => answer_of(map.union_with_left(alloc, &map), &map, 0, 400),
            Wanted::UnionRight => answer_of(map.union_with_right(alloc, &map), &map, 0, 400),
            Wanted::Restricted => answer_of(map.restrict(alloc, half), &map, 0, 20),
            Wanted::Without => answer_of(map.without(alloc, half), &map, 20, 400),
            Wanted::Domain => set_answer(map.domain(alloc), &map),
            Wanted::Ones => set_answer(map.where_equal(alloc, &1), &map),
            Wanted::Depth => count(alloc),
            Wanted::Combined => {
                let made = map.combine(alloc, &map, &Lefts, &mut Comparisons::new());
                answer_of(made, &map, 0, 400)
            }
            Wanted::Updated => update(map),
            Wanted::UpdatedFrom => update_from(map),
            Wanted::InsertedAll => insert_all(alloc, map, true),
            Wanted::InsertedWhereFree => insert_all(alloc, map, false),
            Wanted::RemovedAll => {
                let mut map = map;
                let made = map.remove_all(half);
                changed_answer(made, &map, 20, 400)
            }
            Wanted::RetainedAll => {
                let mut map = map;
                let made = map.retain_all(half);
                changed_answer(made, &map, 0, 20)
            }
        }
    }
}

#[test]
fn what_is_made_is_refused_while_memory_is_short(rt: HostRuntime) -> Result<(), AllocError> {
    let alloc = rt.alloc();
    for wanted in ALL {
        let mut starved = Starved::new(alloc)?;
        let attempt = Attempt { alloc, wanted };
        assert!(rt; starved.agrees(&attempt, true), "{wanted:?}");
    }
    Ok(())
}

// What is asked of a range without keys.
#[derive(Clone, Copy, Debug)]
enum Change {
    Insert,
    InsertFree,
    Remove,
    Update,
}

const CHANGES: [Change; 4] = [
    Change::Insert,
    Change::InsertFree,
    Change::Remove,
    Change::Update,
];

// A change of a range without keys.
#[derive(Drop)]
struct Idle {
    alloc: Global,
    change: Change,
    start: u16,
    end: u16,
}

impl Call for Idle {
    type Given = RangeMap<u16, u16>;

    fn given(&self) -> Option<RangeMap<u16, u16>> {
        spread(self.alloc)
    }

    fn answer(&self, mut map: RangeMap<u16, u16>) -> Answer {
        let range = self.start..self.end;
        let made = match self.change {
            Change::Insert => map.insert(range, 2).is_ok(),
            Change::InsertFree => map.insert_free(range, 2).is_ok(),
            Change::Remove => map.remove(range).is_ok(),
            Change::Update => map.update(range, &Twos).is_ok(),
        };
        Answer::right_if(made && has(&map, 0, 400))
    }
}

#[test]
fn a_range_without_keys_takes_no_memory(rt: HostRuntime) -> Result<(), AllocError> {
    let alloc = rt.alloc();
    for change in CHANGES {
        for (start, end) in [(5, 5), (7, 3)] {
            let mut starved = Starved::new(alloc)?;
            let idle = Idle {
                alloc,
                change,
                start,
                end,
            };
            assert!(rt; starved.agrees(&idle, false), "{change:?} {start}..{end}");
        }
    }
    Ok(())
}

#[test]
fn a_copy_that_is_refused_is_an_error(rt: HostRuntime) -> Result<(), AllocError> {
    let alloc = rt.alloc();
    let mut map = pair(alloc)?;
    let all = RangeSet2::from_range(alloc, 0..100)?;
    assert!(rt; map.clone().is_err());
    assert!(rt; map.union_with_left(alloc, &map).is_err());
    assert!(rt; map.union_with_right(alloc, &map).is_err());
    assert!(rt; map.restrict(alloc, all.as_ref()).is_err());
    assert!(rt; map.without(alloc, all.as_ref()).is_err());
    assert!(rt; map.retain_all(all.as_ref()).is_err() && map.len() == 2);
    let mut rest = pair(alloc)?;
    rest.remove_all(all.as_ref())?;
    assert!(rt; rest.is_empty());
    let booked = map.insert_free(30..40, Alone(2));
    assert!(rt; booked.is_ok() && value_at(&map, 35) == 2 && map.len() == 2);
    assert!(rt; map.insert_free(25..50, Alone(3)) == Err(InsertError::NotFree(Alone(3))));
    Ok(())
}
