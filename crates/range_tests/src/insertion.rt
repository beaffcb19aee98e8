//! One range put into a set and taken out of it: what is compared is counted.
ghost use Rattle.std.specs.Prelude.{◌<◌, ◌^◌};

use range_collections::{Comparisons, EntryClone, RangeSet, RangeSet2};
use range_tests_kit::elements::{Tallied, with_tally};
use range_tests_kit::lists::numbers;
use smallvec::SmallVec;
use std::alloc::{AllocError, Global};
use std::cell::Cell;
use std::default::MadeWith;
use std::ops::Range;
use std::test::Fail;

#[derive(Clone, Copy)]
enum Call {
    Insert,
    InsertCounted,
    Remove,
    RemoveCounted,
}

const INSERTS: [Call; 2] = [Call::Insert, Call::InsertCounted];

const REMOVES: [Call; 2] = [Call::Remove, Call::RemoveCounted];

impl Call {
    // Only a counted call adds to the counter.
    fn change<T: EntryClone + MadeWith<Global> + Drop, const N: usize>(
        self,
        set: &mut RangeSet<T, N>,
        range: Range<T>,
        count: &mut Comparisons,
    ) -> Result<(), AllocError>
        requires { count.old < 2 ^ 64 }
    {
        match self {
            Call::Insert => set.insert(range),
            Call::InsertCounted => set.insert_counted(range, count),
            Call::Remove => set.remove(range),
            Call::RemoveCounted => set.remove_counted(range, count),
        }
    }
}

// The set of these boundaries, which add to the tally whenever they are compared.
fn tallied<'t>(
    alloc: Global,
    items: &[i64],
    tally: &'t Cell<u128>,
) -> Option<RangeSet2<Tallied<'t>>> {
    let mut list = SmallVec::new(alloc);
    for item in items {
        list.push(with_tally(*item, tally)).ok()?;
    }
    RangeSet::new(list)
}

// What a call raises the tally by, and its counter.
fn costs(alloc: Global, items: &[i64], call: Call, ends: (i64, i64)) -> Option<(u128, u128)> {
    let tally = Cell::new(0);
    let mut set = tallied(alloc, items, &tally)?;
    let mut count = Comparisons::new();
    tally.set(0);
    let range = with_tally(ends.0, &tally)..with_tally(ends.1, &tally);
    call.change(&mut set, range, &mut count).ok()?;
    Some((tally.get(), count.made()))
}

// Whether the counted call raises the tally by as much as its counter, and the plain one by as much
// as that.
fn costs_agree(alloc: Global, items: &[i64], calls: [Call; 2], ends: (i64, i64)) -> bool {
    let [plain, counted] = calls;
    let plain = costs(alloc, items, plain, ends);
    match costs(alloc, items, counted, ends) {
        Some((raised, made)) => raised == made && plain == Some((made, 0)),
        None => false,
    }
}

// Ends of ranges within the lists, across them and beside them, and of ranges of nothing.
const ENDS: [(i64, i64); 6] = [(0, 10), (5, 25), (-9, -5), (40, 90), (7, 7), (9, 2)];

#[test]
fn insertions_compare_through_their_counter(rt: HostRuntime) -> Result<(), Fail> {
    let (alloc, long) = (rt.alloc(), numbers(rt.alloc(), 0, 64)?);
    for items in [[].as_slice(), &[0], &[0, 10, 20, 30], long.as_slice()] {
        for ends in ENDS {
            assert!(rt; costs_agree(alloc, items, INSERTS, ends), "{ends:?}");
            assert!(rt; costs_agree(alloc, items, REMOVES, ends), "{ends:?}");
        }
    }
    Ok(())
}
