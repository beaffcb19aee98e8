//! Every comparison of a search goes through its counter, and none is made twice.
use crate::tallies::{alike, cost};
use range_collections::{
    BoolOpMergeState, Comparisons, RangeSet, RangeSet2, RangeSetRef, Run, count_up_to, run_length,
};
use range_entry::{EntryClone, RangeSetEntry};
use range_merge::search;
use range_tests_kit::elements::{Tallied, all_tallied, with_tally};
use range_tests_kit::lists::{every_other, own};
use std::alloc::{AllocError, Global};
use std::cell::Cell;
use std::default::MadeWith;

// A call that searches for an element, or for both ends of a range.
#[derive(Clone, Copy, PartialEq, Eq, Debug)]
enum Search {
    Contains,
    Split,
    RangeAt,
    ContainsRange,
    Gaps,
    RangesWithin,
}

const SEARCHES: [Search; 6] = [
    Search::Contains,
    Search::Split,
    Search::RangeAt,
    Search::ContainsRange,
    Search::Gaps,
    Search::RangesWithin,
];

// What a call and its counted form raise the tally by, of a set and of its view, and what the
// counted ones add to their counters.
macro_rules! costs {
    ($set:expr, $tally:expr, $plain:ident, $counted:ident, $with:expr) => {{
        let (mut count, mut again) = (Comparisons::new(), Comparisons::new());
        let (set, view, tally) = ($set, $set.as_ref(), $tally);
        [
            cost(tally, &set.$plain($with)),
            cost(tally, &view.$plain($with)),
            cost(tally, &set.$counted($with, &mut count)),
            count.made(),
            cost(tally, &view.$counted($with, &mut again)),
            again.made(),
        ]
    }};
}

impl Search {
    // The most comparisons, among boundaries whose number has `digits` binary digits.
    fn most(self, digits: u128) -> u128 {
        match self {
            Search::Contains | Search::Split | Search::RangeAt => digits,
            Search::ContainsRange => digits.saturating_add(2),
            Search::Gaps | Search::RangesWithin => digits.saturating_mul(2).saturating_add(1),
        }
    }

    fn costs<T: RangeSetEntry + EntryClone + MadeWith<Global> + Copy + Drop, const N: usize>(
        self,
        set: &RangeSet<T, N>,
        tally: &Cell<u128>,
        low: &T,
        high: &T,
    ) -> [u128; 6] {
        match self {
            Search::Contains => costs!(set, tally, contains, contains_counted, low),
            Search::Split => costs!(set, tally, split, split_counted, *low),
            Search::RangeAt => costs!(set, tally, range_at, range_at_counted, low),
            Search::ContainsRange => {
                costs!(
                    set,
                    tally,
                    contains_range,
                    contains_range_counted,
                    *low..*high
                )
            }
            Search::Gaps => costs!(set, tally, gaps, gaps_counted, low..high),
            Search::RangesWithin => {
                costs!(set, tally, ranges_within, ranges_within_counted, low..high)
            }
        }
    }
}

// Whether the next member and the next gap, of a set and of its view, cost one search.
fn nexts_hold<T: RangeSetEntry + EntryClone + MadeWith<Global> + Copy + Drop, const N: usize>(
    set: &RangeSet<T, N>,
    tally: &Cell<u128>,
    from: &T,
    most: u128,
) -> bool {
    let view = set.as_ref();
    let costs = [
        cost(tally, &set.next_member(from)),
        cost(tally, &view.next_member(from)),
        cost(tally, &set.next_gap(from)),
        cost(tally, &view.next_gap(from)),
    ];
    alike(&costs, most)
}

// Whether the searches that all of them make do.
fn search_holds<T: RangeSetEntry + EntryClone + MadeWith<Global> + Copy + Drop, const N: usize>(
    set: &RangeSet<T, N>,
    tally: &Cell<u128>,
    at: &T,
    most: u128,
) -> bool {
    let (mut count, mut again) = (Comparisons::new(), Comparisons::new());
    let place = search(set.boundaries(), at, &mut count);
    let found = [cost(tally, &place), count.made()];
    let below = count_up_to(set.boundaries(), at, &mut again);
    alike(&found, most) && alike(&[cost(tally, &below), again.made()], most)
}

/// Whether the first run of two lists does, if both have an item.
pub(crate) fn first_run_holds<T: RangeSetEntry + EntryClone + MadeWith<Global> + Copy + Drop>(
    left: RangeSetRef<T>,
    right: RangeSetRef<T>,
    tally: &Cell<u128>,
) -> bool {
    let (a, b) = (left.boundaries(), right.boundaries());
    if a.is_empty() || b.is_empty() {
        return true;
    }
    let mut count = Comparisons::new();
    let run = run_length(&BoolOpMergeState::new(a, b), &mut count);
    let len = match run {
        Run::Left(len) | Run::Right(len) => len,
        Run::Both => 1,
    };
    let most = digits(len).saturating_mul(2);
    alike(&[cost(tally, &run), count.made()], most)
}

// The call that compares otherwise than it counts, or more often than its searches of boundaries
// whose number has as many binary digits may. It is none where the search itself does, or a call
// that counts nothing.
fn wrong_search<T: RangeSetEntry + EntryClone + MadeWith<Global> + Copy + Drop, const N: usize>(
    set: &RangeSet<T, N>,
    tally: &Cell<u128>,
    low: &T,
    high: &T,
    digits: u128,
) -> Option<Option<Search>> {
    if !search_holds(set, tally, low, digits) || !nexts_hold(set, tally, low, digits) {
        return Some(None);
    }
    for call in SEARCHES {
        if !alike(&call.costs(set, tally, low, high), call.most(digits)) {
            return Some(Some(call));
        }
    }
    None
}

// How many binary digits a number has.
fn digits(number: usize) -> u128 {
    u128::from(usize::BITS - number.leading_zeros())
}

/// Whether the boundaries of both sides are sought in the left one so.
pub(crate) fn searches_hold<
    T: RangeSetEntry + EntryClone + MadeWith<Global> + Copy + Drop,
    const N: usize,
>(left: &RangeSet<T, N>, right: &RangeSet<T, N>, tally: &Cell<u128>) -> bool {
    let digits = digits(left.boundaries().len());
    for items in [left.boundaries(), right.boundaries()] {
        for item in items {
            if wrong_search(left, tally, item, item, digits).is_some() {
                return false;
            }
        }
    }
    true
}

// The first number from -1 on, up to `end`, at which a call in the even numbers below does, and
// that call.
fn wrong_number(
    alloc: Global,
    end: i64,
    digits: u128,
) -> Result<Option<(i64, Option<Search>)>, AllocError> {
    let tally = Cell::new(0);
    let items = all_tallied(alloc, every_other(alloc, 0, end)?.as_slice(), &tally)?;
    let set: Option<RangeSet2<Tallied>> = own(alloc, items.as_slice());
    let Some(set) = set else {
        return Ok(Some((end, None)));
    };
    tally.set(0);
    for number in -1..=end {
        for other in [number, -1, end / 2, end] {
            let (low, high) = (with_tally(number, &tally), with_tally(other, &tally));
            if let Some(call) = wrong_search(&set, &tally, &low, &high, digits) {
                return Ok(Some((number, call)));
            }
        }
    }
    Ok(None)
}

// Where even numbers end, and the binary digits of how many there are.
#[derive(Clone, Copy)]
struct EvenNumbers {
    end: i64,
    digits: u128,
}

#[rattlefmt::skip]
const EVENS: [EvenNumbers; 10] = [
    EvenNumbers { end: 0, digits: 0 },
    EvenNumbers { end: 1, digits: 1 },
    EvenNumbers { end: 3, digits: 2 },
    EvenNumbers { end: 5, digits: 2 },
    EvenNumbers { end: 7, digits: 3 },
    EvenNumbers { end: 13, digits: 3 },
    EvenNumbers { end: 15, digits: 4 },
    EvenNumbers { end: 39, digits: 5 },
    EvenNumbers { end: 125, digits: 6 },
    EvenNumbers { end: 127, digits: 7 },
];

#[test]
fn searches_compare_through_their_counter(rt: HostRuntime) -> Result<(), AllocError> {
    for EvenNumbers { end, digits } in EVENS {
        let wrong = wrong_number(rt.alloc(), end, digits)?;
        assert_eq!(rt; wrong, None, "the even numbers below {end}");
    }
    Ok(())
}
