//! How often calls compare that have no counted form: over elements that add to a tally whenever
//! they are compared, each raises it by no more than it may. One that searches or asks twice raises
//! it by more.
use crate::tallies::cost;
use range_collections::{Comparisons, RangeSet2};
use range_tests_kit::elements::{Tallied, all_tallied, with_tally};
use range_tests_kit::lists::own;
use std::alloc::{AllocError, Global};
use std::cell::Cell;

type Set<'t> = RangeSet2<Tallied<'t>>;

// Ten ranges of ten numbers, one in each twenty: 20 boundaries, a number of five binary digits.
const ENDS: [i64; 20] = [
    0, 10, 20, 30, 40, 50, 60, 70, 80, 90, 100, 110, 120, 130, 140, 150, 160, 170, 180, 190,
];

const SEARCH: u128 = 5;

// Numbers below, at, between and above the boundaries.
const PLACES: [i64; 9] = [-7, 0, 3, 10, 95, 100, 189, 190, 500];

// Whether each of these is at most `most`.
fn are_within(costs: &[u128], most: u128) -> bool {
    costs.iter().all(|cost| *cost <= most)
}

// The set of the ten ranges, with nothing on its tally.
fn ten<'t>(alloc: Global, tally: &'t Cell<u128>) -> Result<Set<'t>, AllocError> {
    let items = all_tallied(alloc, ENDS.as_slice(), tally)?;
    let set = own(alloc, items.as_slice()).ok_or(AllocError)?;
    tally.set(0);
    Ok(set)
}

// What the calls that look for the next or the last member or gap raise the tally by.
fn of_nexts<'t>(set: &Set<'t>, at: &Tallied<'t>, tally: &Cell<u128>) -> [u128; 8] {
    let view = set.as_ref();
    [
        cost(tally, &set.next_member(at)),
        cost(tally, &view.next_member(at)),
        cost(tally, &set.next_gap(at)),
        cost(tally, &view.next_gap(at)),
        cost(tally, &set.prev_member(at)),
        cost(tally, &view.prev_member(at)),
        cost(tally, &set.prev_gap(at)),
        cost(tally, &view.prev_gap(at)),
    ]
}

// What the calls that ask where a number stands do.
fn of_ranks<'t>(set: &Set<'t>, at: &Tallied<'t>, tally: &Cell<u128>) -> [u128; 4] {
    let view = set.as_ref();
    [
        cost(tally, &set.rank(at)),
        cost(tally, &view.rank(at)),
        cost(tally, &set.contains_range_from(*at..)),
        cost(tally, &view.contains_range_from(*at..)),
    ]
}

#[test]
fn single_members_are_found_by_one_search(rt: HostRuntime) -> Result<(), AllocError> {
    let tally = Cell::new(0);
    let set = ten(rt.alloc(), &tally)?;
    for number in PLACES {
        let at = with_tally(number, &tally);
        let (nexts, ranks) = (of_nexts(&set, &at, &tally), of_ranks(&set, &at, &tally));
        assert!(rt; are_within(&nexts, SEARCH), "{nexts:?} from {number} on");
        assert!(rt; are_within(&ranks, SEARCH), "{ranks:?} at {number}");
    }
    Ok(())
}

// What the calls that ask about a range raise the tally by.
fn of_ranges<'t>(
    set: &Set<'t>,
    low: Tallied<'t>,
    high: Tallied<'t>,
    tally: &Cell<u128>,
) -> [u128; 4] {
    let view = set.as_ref();
    [
        cost(tally, &set.overlapping(&low..&high)),
        cost(tally, &view.overlapping(&low..&high)),
        cost(tally, &set.intersects_range(low..high)),
        cost(tally, &view.intersects_range(low..high)),
    ]
}

#[test]
fn ranges_are_found_by_two_searches(rt: HostRuntime) -> Result<(), AllocError> {
    let tally = Cell::new(0);
    let set = ten(rt.alloc(), &tally)?;
    for start in PLACES {
        for end in PLACES {
            let (low, high) = (with_tally(start, &tally), with_tally(end, &tally));
            let costs = of_ranges(&set, low, high, &tally);
            assert!(rt;
                are_within(&costs[..2], 2 * SEARCH + 1),
                "{costs:?} from {start} to {end}"
            );
            assert!(rt;
                are_within(&costs[2..], SEARCH + 2),
                "{costs:?} from {start} to {end}"
            );
        }
    }
    Ok(())
}

// What the calls that look for values in a row raise the tally by, within a range.
fn of_rows<'t>(
    set: &Set<'t>,
    low: Tallied<'t>,
    high: Tallied<'t>,
    tally: &Cell<u128>,
) -> [u128; 6] {
    let view = set.as_ref();
    [
        cost(tally, &set.first_fit_count(low..high, 11)),
        cost(tally, &view.first_fit_count(low..high, 11)),
        cost(tally, &set.first_fit_aligned(low..high, 11, 3)),
        cost(tally, &view.first_fit_aligned(low..high, 11, 3)),
        cost(tally, &set.first_run(low..high, 11)),
        cost(tally, &view.first_run(low..high, 11)),
    ]
}

#[test]
fn rows_of_values_are_found_by_two_searches(rt: HostRuntime) -> Result<(), AllocError> {
    let tally = Cell::new(0);
    let set = ten(rt.alloc(), &tally)?;
    for start in PLACES {
        for end in PLACES {
            let (low, high) = (with_tally(start, &tally), with_tally(end, &tally));
            let costs = of_rows(&set, low, high, &tally);
            assert!(rt;
                are_within(&costs, 2 * SEARCH + 1),
                "{costs:?} from {start} to {end}"
            );
        }
    }
    Ok(())
}

// What the calls that look at ends or places alone raise the tally by.
fn of_ends(set: &Set, tally: &Cell<u128>) -> [u128; 8] {
    [
        cost(tally, &set.first()),
        cost(tally, &set.last()),
        cost(tally, &set.span()),
        cost(tally, &set.ranges_len()),
        cost(tally, &set.covered()),
        cost(tally, &set.select(55)),
        cost(tally, &set.is_empty()),
        cost(tally, &set.is_all()),
    ]
}

#[test]
fn calls_that_look_at_ends_alone_compare_nothing(rt: HostRuntime) -> Result<(), AllocError> {
    let tally = Cell::new(0);
    let set = ten(rt.alloc(), &tally)?;
    assert_eq!(rt; of_ends(&set, &tally), [0; 8]);
    Ok(())
}

// What a set costs that is made of its boundaries, and is compared with a set like it.
fn of_equals(alloc: Global, tally: &Cell<u128>) -> Result<[u128; 3], AllocError> {
    let items = all_tallied(alloc, ENDS.as_slice(), tally)?;
    let set: Set = own(alloc, items.as_slice()).ok_or(AllocError)?;
    let new = cost(tally, &set);
    let other: Set = own(alloc, items.as_slice()).ok_or(AllocError)?;
    tally.set(0);
    let equal = cost(tally, &(set == other));
    Ok([new, equal, cost(tally, &set.eq_ref(other.as_ref()))])
}

#[test]
fn sets_are_compared_once_a_boundary(rt: HostRuntime) -> Result<(), AllocError> {
    let tally = Cell::new(0);
    assert_eq!(rt; of_equals(rt.alloc(), &tally)?, [19, 20, 20]);
    Ok(())
}

// A change of a set by a range.
#[derive(Clone, Copy, PartialEq, Eq, Debug)]
enum Change {
    Insert,
    Remove,
    InsertChanged,
    RemoveChanged,
}

// A change, and how often it compares at most.
#[rattlefmt::skip]
const CHANGES: [(Change, u128); 4] = [
    (Change::Insert, 2 * SEARCH + 1),
    (Change::Remove, 2 * SEARCH + 1),
    (Change::InsertChanged, 4 * SEARCH + 2),
    (Change::RemoveChanged, 4 * SEARCH + 2),
];

impl Change {
    // What the change of the ten ranges raises the tally by.
    fn cost<'t>(
        self,
        alloc: Global,
        low: Tallied<'t>,
        high: Tallied<'t>,
        tally: &'t Cell<u128>,
    ) -> Result<u128, AllocError> {
        let mut set = ten(alloc, tally)?;
        match self {
            Change::Insert => set.insert(low..high)?,
            Change::Remove => set.remove(low..high)?,
            Change::InsertChanged => {
                let _changed = set.insert_changed(low..high)?;
            }
            Change::RemoveChanged => {
                let _changed = set.remove_changed(low..high)?;
            }
        }
        Ok(tally.replace(0))
    }
}

// What the counted form of an insertion, or of a removal, raises the tally by, if that is what it
// counts.
fn counted<'t>(
    alloc: Global,
    inserts: bool,
    low: Tallied<'t>,
    high: Tallied<'t>,
    tally: &'t Cell<u128>,
) -> Result<Option<u128>, AllocError> {
    let mut set = ten(alloc, tally)?;
    let mut count = Comparisons::new();
    if inserts {
        set.insert_counted(low..high, &mut count)?;
    } else {
        set.remove_counted(low..high, &mut count)?;
    }
    let raised = tally.replace(0);
    Ok((raised == count.made()).then_some(raised))
}

#[test]
fn a_change_searches_for_both_ends(rt: HostRuntime) -> Result<(), AllocError> {
    let (alloc, tally) = (rt.alloc(), Cell::new(0));
    for start in PLACES {
        for end in PLACES {
            let (low, high) = (with_tally(start, &tally), with_tally(end, &tally));
            for (change, most) in CHANGES {
                let made = change.cost(alloc, low, high, &tally)?;
                assert!(rt; made <= most, "{change:?} from {start} to {end}: {made}");
            }
            for (inserts, change) in [(true, Change::Insert), (false, Change::Remove)] {
                let made = change.cost(alloc, low, high, &tally)?;
                let by_counter = counted(alloc, inserts, low, high, &tally)?;
                assert!(rt;
                    by_counter == Some(made),
                    "{change:?} from {start} to {end}: {made}"
                );
            }
        }
    }
    Ok(())
}
