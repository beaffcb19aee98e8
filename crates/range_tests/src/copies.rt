//! Calls on elements whose copies are refused. A call is refused exactly where it copies a flagged
//! item, and leaves what was passed in as it was.
use crate::operations::ROWS;
use range_collections::{Copier, EntryClone, EntryCopier, RangeSet, RangeSetRange, RangeSetRef};
use range_tests_kit::elements::{Flagged, with_flag};
use range_tests_kit::flags::{Flags, Items, flagged};
use range_tests_kit::forms::OPERATIONS;
use range_tests_kit::lists::own;
use range_tests_kit::membership::TABLES;
use range_tests_kit::starving::Answer;
use range_tests_kit::ways::{Case, WAYS, Way, case_of, set_is, wanted};
use std::alloc::{AllocError, Global};
use std::ops::Range;

// Whether one of the numbers at these places is in the result, and is not the other side's, of
// which the copy is made.
fn is_copied(numbers: &[i64], places: Range<usize>, want: &[i64], other: &[i64]) -> bool {
    for (at, number) in numbers.iter().enumerate() {
        if places.contains(&at) && want.contains(number) && !other.contains(number) {
            return true;
        }
    }
    false
}

// Whether a call is refused: into a new list where a flagged item is taken, of two equal ones the
// left's, and in place where there is one in a right side that is borrowed.
fn is_refused(way: Way, row: &Case<i64>, flags: Flags) -> bool {
    if way.is_in_place() {
        flags.right_within(row.right.len()) && !way.takes_right()
    } else {
        is_copied(row.left, flags.left(), row.want, &[])
            || is_copied(row.right, flags.right(), row.want, row.left)
    }
}

// Whether a call on sets with room for two, and on sets with room for eight, answers so.
fn answers(alloc: Global, case: &Case<Flagged>, way: Way, want: Answer) -> bool {
    let (Some(sides), Some(roomy)) = (case.sides(alloc), case.sides(alloc)) else {
        return false;
    };
    case.answer(way, alloc, sides) == want && case.answer_with_room(way, alloc, roomy) == want
}

// The first call that answers otherwise with these flags.
fn wrong_way(alloc: Global, row: &Case<i64>, flags: Flags) -> Result<Option<Way>, AllocError> {
    let items = Items::of(alloc, row, flags)?;
    let case = items.case(row);
    for way in WAYS {
        let want = wanted(is_refused(way, row, flags));
        if case.has(way) && !answers(alloc, &case, way, want) {
            return Ok(Some(way));
        }
    }
    Ok(None)
}

// The first flags with which a call does, and that call.
fn wrong_flags(alloc: Global, row: &Case<i64>) -> Result<Option<(Flags, Way)>, AllocError> {
    for place in 0..=row.left.len().max(row.right.len()) {
        for flags in [Flags::Left(place), Flags::Right(place), Flags::From(place)] {
            if let Some(way) = wrong_way(alloc, row, flags)? {
                return Ok(Some((flags, way)));
            }
        }
    }
    Ok(None)
}

#[test]
fn an_operation_is_refused_where_it_copies_a_flagged_item(
    rt: HostRuntime,
) -> Result<(), AllocError> {
    for row in &ROWS {
        for (op, want) in OPERATIONS.iter().zip(&row.wants) {
            let wrong = wrong_flags(rt.alloc(), &case_of(*op, row, &[-1], want))?;
            assert_eq!(rt; wrong, None, "{op:?} of {:?} and {:?}", row.left, row.right);
        }
    }
    Ok(())
}

const LEAST: i64 = i64::MIN;

// What each table makes of the ranges from 0 to 2 and from 4 to 6 with those from 1 to 2 and from 5
// to 7. Both have a boundary at 2.
const CONNECTED: [&[i64]; 16] = [
    &[],
    &[1, 2, 5, 6],
    &[6, 7],
    &[1, 2, 5, 7],
    &[0, 1, 4, 5],
    &[0, 2, 4, 6],
    &[0, 1, 4, 5, 6, 7],
    &[0, 2, 4, 7],
    &[LEAST, 0, 2, 4, 7],
    &[LEAST, 0, 1, 4, 5, 6, 7],
    &[LEAST, 0, 2, 4, 6],
    &[LEAST, 0, 1, 4, 5],
    &[LEAST, 1, 2, 5, 7],
    &[LEAST, 6, 7],
    &[LEAST, 1, 2, 5, 6],
    &[LEAST],
];

#[test]
fn a_connective_is_refused_where_it_copies_a_flagged_item(
    rt: HostRuntime,
) -> Result<(), AllocError> {
    for (table, want) in TABLES.iter().zip(&CONNECTED) {
        let case = Case {
            table: *table,
            op: None,
            left: &[0, 2, 4, 6],
            right: &[1, 2, 5, 7],
            first: &[-1],
            want,
            most: 14,
        };
        assert_eq!(rt; wrong_flags(rt.alloc(), &case)?, None, "{table:?}");
    }
    Ok(())
}

// What a copy says of the value that was copied.
fn copied<T: PartialEq + Drop>(made: Result<T, AllocError>, value: &T) -> Answer {
    match made {
        Ok(made) => Answer::right_if(made == *value),
        Err(_) => Answer::Refused,
    }
}

// Whether a clone of the element, and a copy by a copier, answer so.
fn both_answer<T: EntryClone + Drop>(item: &T, want: Answer) -> bool {
    copied(item.entry_clone(), item) == want && copied(EntryCopier.copy(item), item) == want
}

// Whether lists answer so with the flag at this place: one of options, one of items, and an option
// of that.
fn lists_answer(alloc: Global, place: usize, want: Answer) -> Result<bool, AllocError> {
    let items = flagged(alloc, &[1, 3, 5, 7], place..place.saturating_add(1))?;
    let mut options = Vec::new(alloc);
    options.push(None)?;
    for item in items.as_slice() {
        options.push(Some(*item))?;
    }
    Ok(both_answer(&options, want) && both_answer(&items, want) && both_answer(&Some(items), want))
}

#[test]
fn copies_of_elements_are_refused_by_flags(rt: HostRuntime) -> Result<(), AllocError> {
    for place in 0..5usize {
        let answer = lists_answer(rt.alloc(), place, wanted(place < 4))?;
        assert!(rt; answer, "a list, {place}");
    }
    for flag in [true, false] {
        let item = with_flag(7, flag);
        assert!(rt; both_answer(&item, wanted(flag)), "{flag}");
        assert!(rt; both_answer(&Some(item), wanted(flag)), "an option, {flag}");
    }
    assert!(rt; both_answer::<Option<Flagged>>(&None, Answer::Right));
    Ok(())
}

// Whether both copies of a range of flagged ends answer so, and its set is made of the ends
// themselves.
fn range_answers(
    alloc: Global,
    borrowed: &RangeSetRange<&Flagged>,
    range: RangeSetRange<Flagged>,
    ends: &[Flagged],
    want: Answer,
) -> bool {
    let copies = copied(borrowed.cloned(), &range) == want && copied(range.clone(), &range) == want;
    let made: Result<RangeSet<Flagged, 2>, AllocError> = RangeSet::from_range_set_range(
        alloc, range,
    );
    copies && set_is(made, ends) == Answer::Right
}

// Whether it is so of a range of these ends, of the reversed one, and of the one without an end.
fn ranges_answer(alloc: Global, low: Flagged, high: Flagged, flags: (bool, bool)) -> bool {
    let either = wanted(flags.0 || flags.1);
    let forth = RangeSetRange::from(&low..&high);
    let back = RangeSetRange::from(&high..&low);
    let endless = RangeSetRange::from(&low..);
    range_answers(
        alloc,
        &forth,
        RangeSetRange::from(low..high),
        &[low, high],
        either,
    ) && range_answers(alloc, &back, RangeSetRange::from(high..low), &[], either)
        && range_answers(
            alloc,
            &endless,
            RangeSetRange::from(low..),
            &[low],
            wanted(flags.0),
        )
}

#[test]
fn copies_of_ranges_are_refused_by_flags(rt: HostRuntime) {
    for flags in [(false, false), (true, false), (false, true), (true, true)] {
        let (low, high) = (with_flag(1, flags.0), with_flag(2, flags.1));
        assert!(rt; ranges_answer(rt.alloc(), low, high, flags), "{flags:?}");
    }
}

// What the clone of a set answers, and its negation where it is borrowed and where it is owned,
// with the flag at this place.
fn set_answers(alloc: Global, place: usize) -> Option<[Answer; 3]> {
    let items = flagged(alloc, &[20, 30, 40], place..place.saturating_add(1)).ok()?;
    let negated = flagged(alloc, &[LEAST, 20, 30, 40], 0..0).ok()?;
    let set: RangeSet<Flagged, 2> = own(alloc, items.as_slice())?;
    Some([
        set_is(set.clone(), items.as_slice()),
        set_is(!&set, negated.as_slice()),
        set_is(!set, negated.as_slice()),
    ])
}

#[test]
fn copies_of_sets_are_refused_by_flags(rt: HostRuntime) {
    for place in 0..4usize {
        let want = wanted(place < 3);
        let answers = set_answers(rt.alloc(), place);
        assert!(rt; answers == Some([want, want, Answer::Right]), "{place}");
    }
}

// Whether the union of two sets, and of two ranges, answer so with the flag at this number.
fn unions_answer(alloc: Global, flag: i64, want: Answer) -> bool {
    let [a, b, c, d] = [0, 2, 4, 6].map(|number| with_flag(number, number == flag));
    let (left, right) = ([a, c], [b, d]);
    let sets = [left.as_slice(), &right].map(|items| RangeSetRef::new(items).unwrap_or_default());
    let of_sets: Result<RangeSet<Flagged, 8>, AllocError> = RangeSet::union_all(alloc, &sets);
    let ranges = [RangeSetRange::from(a..c), RangeSetRange::from(b..d)];
    let of_ranges: Result<RangeSet<Flagged, 8>, AllocError> = RangeSet::from_ranges(alloc, &ranges);
    set_is(of_sets, &[a, d]) == want && set_is(of_ranges, &[a, d]) == want
}

#[test]
fn unions_are_refused_by_flags(rt: HostRuntime) {
    for flag in [0, 2, 4, 6, 9] {
        assert!(rt; unions_answer(rt.alloc(), flag, wanted(flag < 9)), "{flag}");
    }
}
