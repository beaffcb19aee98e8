//! Made-up pairs of lists, by one generator that always begins alike. What is expected of them is
//! found by membership alone, point by point.
ghost use Rattle.std.specs.Prelude.{◌<◌, ◌≤◌};

use crate::merging::{gives_count, gives_length, gives_test, gives_written};
use crate::operations::{Call, wrong_of};
use range_collections::{Comparisons, Connective, RangeSet, RangeSet2, RangeSetRef};
use range_tests_kit::generator::Generator;
use range_tests_kit::lists::{gives, set_of};
use range_tests_kit::membership::{NOT_LEFT, Stands, TABLES, agree, connective, is_on};
use serde_json::Value;
use std::alloc::{AllocError, Global};
use std::ops::Range;
use std::test::Fail;

// How many pairs there are, and how many lists for the calls on one set.
const PAIRS: u64 = 1_000;

const LISTS: u64 = 4_000;

// What the lists are made of, in order. No boundary lies between two of these, so a set is the same
// at all elements from one of them up to the next.
const POINTS: [i64; 19] = [
    i64::MIN,
    -4,
    -3,
    -2,
    -1,
    0,
    1,
    2,
    3,
    4,
    5,
    6,
    7,
    8,
    9,
    10,
    11,
    12,
    i64::MAX,
];

// Of sixteen of the points about 1, 2, 4, 8, or 12, in order.
fn made_up_list(draws: &mut Generator, alloc: Global) -> Result<Vec<i64>, AllocError> {
    let most = match draws.below(5) {
        0 => 1,
        1 => 2,
        2 => 4,
        3 => 8,
        _ => 12,
    };
    let mut items = Vec::new(alloc);
    for point in POINTS {
        if draws.below(16) < most {
            items.push(point)?;
        }
    }
    Ok(items)
}

// The next two lists.
fn made_up_pair(draws: &mut Generator, alloc: Global) -> Result<(Vec<i64>, Vec<i64>), AllocError> {
    let left = made_up_list(draws, alloc)?;
    let right = made_up_list(draws, alloc)?;
    Ok((left, right))
}

// Twice as many comparisons as there are boundaries.
fn most(left: &[i64], right: &[i64]) -> u128 {
    2 * left.len().saturating_add(right.len()) as u128
}

// Many of the pairs meet, and many don't.
#[test]
fn every_form_of_made_up_pairs(rt: HostRuntime) -> Result<(), Fail> {
    let alloc = rt.alloc();
    let mut generator = Generator::new();
    let mut meeting = 0u64;
    for number in 0..PAIRS {
        let (left, right) = made_up_pair(&mut generator, alloc)?;
        let (a, b) = (left.as_slice(), right.as_slice());
        let found = wrong_of(alloc, &POINTS, a, b, most(a, b))?;
        assert_eq!(rt; found, None, "pair {number}");
        if POINTS
            .iter()
            .any(|point| is_on(a, point) && is_on(b, point))
        {
            meeting = meeting.saturating_add(1);
        }
    }
    assert!(rt; meeting >= 100 && meeting <= PAIRS - 100, "{meeting} meet");
    Ok(())
}

// Whether the connective of a set and a view, and of two views, is this list, made in at most twice
// as many comparisons as there are boundaries.
fn combines(
    alloc: Global,
    left: &RangeSet2<i64>,
    right: RangeSetRef<i64>,
    op: &Connective,
    want: &[i64],
) -> bool {
    let (mut count, mut again) = (Comparisons::new(), Comparisons::new());
    gives(left.as_ref().combine(alloc, right, op, &mut count), want)
        && gives(left.combine(right, op, &mut again), want)
        && count.made() <= most(left.boundaries(), right.boundaries())
        && again.made() == count.made()
}

// The first call of two sides that doesn't find where the table's answer turns between them.
fn wrong_call(
    alloc: Global,
    set: &RangeSet2<i64>,
    that: RangeSetRef<i64>,
    stands: &Stands<i64>,
    table: [u8; 4],
) -> Result<Option<Call>, AllocError> {
    let (op, most) = (connective(table), most(set.boundaries(), that.boundaries()));
    let want = stands.turns(alloc, table, false)?;
    if !combines(alloc, set, that, &op, want.as_slice()) {
        return Ok(Some(Call::List));
    }
    if op.neither {
        let length = stands.turns(alloc, table, true)?.len();
        let is_right = gives_count(set.as_ref(), that, &op, length, most);
        return Ok((!is_right).then_some(Call::Count));
    }
    let length = want.len();
    if !gives_count(set.as_ref(), that, &op, length, most) {
        return Ok(Some(Call::Count));
    }
    if !gives_length(set, that, &op, length, most) {
        return Ok(Some(Call::Length));
    }
    if !gives_written(set, that, &op, want.as_slice()) {
        return Ok(Some(Call::Written));
    }
    if !gives_test(set, that, &op, length > 0, most) {
        return Ok(Some(Call::Test));
    }
    Ok(None)
}

// The first table of which there is one.
fn wrong_table(
    alloc: Global,
    left: &[i64],
    right: &[i64],
) -> Result<Option<([u8; 4], Call)>, AllocError> {
    let stands = Stands::of(alloc, &POINTS, left, right)?;
    let (Some(set), Some(that)) = (set_of(alloc, left), RangeSetRef::new(right)) else {
        return Ok(Some((NOT_LEFT, Call::Sides)));
    };
    for table in TABLES {
        if let Some(call) = wrong_call(alloc, &set, that, &stands, table)? {
            return Ok(Some((table, call)));
        }
    }
    Ok(None)
}

#[test]
fn every_connective_of_made_up_pairs(rt: HostRuntime) -> Result<(), Fail> {
    let alloc = rt.alloc();
    let mut generator = Generator::new();
    for number in 0..PAIRS {
        let (left, right) = made_up_pair(&mut generator, alloc)?;
        let found = wrong_table(alloc, left.as_slice(), right.as_slice())?;
        assert_eq!(rt; found, None, "pair {number}");
    }
    Ok(())
}

// Whether both parts of a set at this point, and of its view, agree with it on their side of the
// point.
fn splits(set: &RangeSet2<i64>, place: usize, at: i64) -> bool {
    let (below, from) = set.split(at);
    let (low, high) = set.as_ref().split(at);
    let (before, on) = POINTS.split_at(place.min(POINTS.len()));
    low.boundaries() == below.boundaries()
        && high.boundaries() == from.boundaries()
        && agree(before, below.boundaries(), set.boundaries())
        && agree(on, from.boundaries(), set.boundaries())
}

// The set that is read from the text of a set's JSON.
fn read_again(alloc: Global, set: &RangeSet2<i64>) -> Option<RangeSet2<i64>> {
    let text = set.to_json().ok()?.to_string(alloc).ok()?;
    let value = Value::from_str(alloc, text.as_str()).ok()?;
    RangeSet::from_json(alloc, &value).ok()
}

// What leads from a list to another one than it should, if anything does: the parts at some point,
// its JSON, or `!`.
fn wrong_list(alloc: Global, items: &[i64]) -> Result<Option<&'static str>, AllocError> {
    let Some(set) = set_of(alloc, items) else {
        return Ok(Some("the set"));
    };
    for (place, at) in POINTS.iter().enumerate() {
        if !splits(&set, place, *at) {
            return Ok(Some("split"));
        }
    }
    if !matches!(read_again(alloc, &set), Some(again) if again == set) {
        return Ok(Some("JSON"));
    }
    let others = Stands::of(alloc, &POINTS, items, &[])?.turns(alloc, NOT_LEFT, false)?;
    if !gives(!&set, others.as_slice()) || !gives(!set, others.as_slice()) {
        return Ok(Some("!"));
    }
    Ok(None)
}

#[test]
fn complements_parts_and_json_of_made_up_lists(rt: HostRuntime) -> Result<(), Fail> {
    let alloc = rt.alloc();
    let mut generator = Generator::new();
    for number in 0..2 * PAIRS {
        let list = made_up_list(&mut generator, alloc)?;
        let found = wrong_list(alloc, list.as_slice())?;
        assert_eq!(rt; found, None, "list {number}, {list:?}");
    }
    Ok(())
}
