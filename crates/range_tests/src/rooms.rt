//! How much room a set keeps that a call makes or changes.
use range_collections::{Comparisons, DiffOp, RangeSet, RangeSet2, RangeSetRef};
use range_merge::SmallVecMergeState;
use range_tests_kit::comparers::Copies;
use range_tests_kit::forms::{FORMS, Form, OPERATIONS, Operation};
use range_tests_kit::generator::Generator;
use range_tests_kit::lists::{every_other, numbers, own};
use range_tests_kit::membership::{TABLES, all_u8, connective};
use smallvec::SmallVec;
use std::alloc::{AllocError, Global};

// Of how many values one is a boundary.
const ONE_IN: [u64; 5] = [1, 2, 10, 40, 100];

// Whether the set keeps room for at most twice its boundaries, or for the two that it holds in
// itself.
fn keeps_little(set: RangeSet2<u8>) -> bool {
    let most = set.boundaries().len().saturating_mul(2).max(2);
    set.into_inner().capacity() <= most
}

// Whether the new set does that an operation makes in this form.
fn form_keeps_little(alloc: Global, form: Form, op: Operation, a: &[u8], b: &[u8]) -> Option<bool> {
    let (left, right) = (own(alloc, a)?, own(alloc, b)?);
    let outcome = form.call(op, alloc, left, right, &mut Comparisons::new());
    Some(keeps_little(outcome.made?))
}

// Whether the set does that the connective of this table makes.
fn table_keeps_little(alloc: Global, table: [u8; 4], a: &[u8], b: &[u8]) -> bool {
    let (Some(left), Some(right)) = (own::<_, 2>(alloc, a), RangeSetRef::new(b)) else {
        return false;
    };
    match left.combine(right, &connective(table), &mut Comparisons::new()) {
        Ok(set) => keeps_little(set),
        Err(_) => false,
    }
}

// The first operation and form, or else the first table, whose new set keeps more.
fn wasteful(alloc: Global, a: &[u8], b: &[u8]) -> (Option<(Operation, Form)>, Option<[u8; 4]>) {
    for op in OPERATIONS {
        for form in FORMS {
            if !form.is_in_place() && form_keeps_little(alloc, form, op, a, b) != Some(true) {
                return (Some((op, form)), None);
            }
        }
    }
    for table in TABLES {
        if !table_keeps_little(alloc, table, a, b) {
            return (None, Some(table));
        }
    }
    (None, None)
}

#[test]
fn new_sets_keep_little_room(rt: HostRuntime) -> Result<(), AllocError> {
    let alloc = rt.alloc();
    let values = all_u8(alloc)?;
    let mut draws = Generator::new();
    for one_in in ONE_IN {
        for other in ONE_IN {
            let a = draws.some_of(alloc, values.as_slice(), one_in.max(1))?;
            let b = draws.some_of(alloc, values.as_slice(), other.max(1))?;
            let wasteful = wasteful(alloc, a.as_slice(), b.as_slice());
            assert_eq!(rt; wasteful, (None, None), "one in {one_in} and in {other}");
        }
    }
    Ok(())
}

// The room of the union of the numbers up to 60 with those from there up to 100, which are the
// boundaries of both.
fn room_of_both(alloc: Global) -> Option<usize> {
    let (low, high) = (numbers(alloc, 0, 60).ok()?, numbers(alloc, 60, 100).ok()?);
    let (left, right) = (
        RangeSetRef::new(low.as_slice())?,
        RangeSetRef::new(high.as_slice())?,
    );
    let set: RangeSet2<i64> = left.union(alloc, right).ok()?;
    Some(set.into_inner().capacity())
}

// The room is asked for at once: a list that grows would have more.
#[test]
fn a_long_set_has_room_for_both_sides(rt: HostRuntime) {
    assert_eq!(rt; room_of_both(rt.alloc()), Some(100));
}

// Whether `len` boundaries, without four others before them, lie in the set itself, which has room
// for eight.
fn set_is_inline(alloc: Global, len: i64) -> Option<bool> {
    let items = numbers(alloc, 0, len).ok()?;
    let right = RangeSetRef::new(&[-4, -3, -2, -1])?;
    let made = RangeSetRef::new(items.as_slice())?.difference(alloc, right);
    let set: RangeSet<i64, 8> = made.ok()?;
    Some(!set.into_inner().spilled())
}

// Whether they do without ten others in the list itself, which has room for two.
fn list_is_inline(alloc: Global, len: i64) -> Option<bool> {
    let (low, high) = (numbers(alloc, 0, len).ok()?, numbers(alloc, -10, 0).ok()?);
    let left = RangeSetRef::new(low.as_slice())?.boundaries();
    let right = RangeSetRef::new(high.as_slice())?.boundaries();
    let (list, mut count) = (SmallVec::<i64, 2>::new(alloc), Comparisons::new());
    let made = SmallVecMergeState::merge(list, left, right, &Copies, &DiffOp, &mut count);
    Some(!made.ok()?.spilled())
}

#[test]
fn results_lie_inline_as_far_as_they_fit(rt: HostRuntime) {
    for len in 0..12i64 {
        assert_eq!(rt;
            set_is_inline(rt.alloc(), len),
            Some(len <= 8),
            "{len} of 8"
        );
        assert_eq!(rt;
            list_is_inline(rt.alloc(), len),
            Some(len <= 2),
            "{len} of 2"
        );
    }
}

// Whether the negation keeps little of a set with room for 200 boundaries, whose first one is the
// least value.
fn negation_keeps_little(alloc: Global, len: u8) -> Option<bool> {
    let mut list = SmallVec::with_capacity(alloc, 200).ok()?;
    for item in 0..=len {
        list.push(item).ok()?;
    }
    let set: RangeSet2<u8> = (!RangeSet::new(list)?).ok()?;
    Some(set.boundaries().len() == len as usize && keeps_little(set))
}

#[test]
fn negations_keep_little_room(rt: HostRuntime) {
    for len in [0, 1, 2, 3, 10, 99] {
        assert_eq!(rt; negation_keeps_little(rt.alloc(), len), Some(true), "{len}");
    }
}

// How many numbers each side goes up to, every other one on the right: a few, many, and many more on
// one side.
const LENGTHS: [(i64, i64); 7] = [
    (0, 0),
    (0, 80),
    (2, 2),
    (60, 80),
    (400, 4),
    (3, 400),
    (60, 0),
];

// The room of a list of numbers with room for `room`, before and after an operation in place in this
// form.
fn rooms(
    alloc: Global,
    form: Form,
    op: Operation,
    (left, right): (i64, i64),
    room: usize,
) -> Option<(usize, usize)> {
    let mut list = SmallVec::with_capacity(alloc, room).ok()?;
    for x in 0..left {
        list.push(x).ok()?;
    }
    let before = list.capacity();
    let changed: RangeSet2<i64> = RangeSet::new(list)?;
    let that = own(alloc, every_other(alloc, 1, right).ok()?.as_slice())?;
    let outcome = form.call(op, alloc, changed, that, &mut Comparisons::new());
    Some((before, outcome.made?.into_inner().capacity()))
}

// The first operation and form in place that leaves another room than it finds, which is enough.
fn changes_room(alloc: Global, lengths: (i64, i64)) -> Option<(Operation, Form)> {
    for op in OPERATIONS {
        for form in FORMS {
            if form.is_in_place() && rooms(alloc, form, op, lengths, 1000) != Some((1000, 1000)) {
                return Some((op, form));
            }
        }
    }
    None
}

// The first one that leaves less room than it finds, which may be too little.
fn gives_room_back(alloc: Global, lengths: (i64, i64)) -> Option<(Operation, Form)> {
    for op in OPERATIONS {
        for form in FORMS {
            if form.is_in_place() {
                match rooms(alloc, form, op, lengths, 0) {
                    Some((before, after)) if before <= after => {}
                    _ => return Some((op, form)),
                }
            }
        }
    }
    None
}

#[test]
fn changes_in_place_keep_the_room(rt: HostRuntime) {
    for lengths in LENGTHS {
        assert_eq!(rt;
            changes_room(rt.alloc(), lengths),
            None,
            "room for 1,000, {lengths:?}"
        );
        assert_eq!(rt; gives_room_back(rt.alloc(), lengths), None, "{lengths:?}");
    }
}
