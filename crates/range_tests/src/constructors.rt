//! Sets and views made of ranges, of every value, of lists in any order, and of other sets; and the
//! lists that come back.
use range_collections::{RangeSet, RangeSet2, RangeSetRef};
use range_entry::{NonZeroU8, RangeSetEntry};
use range_tests_kit::elements::{Only, from_end, letters_are, with_letter};
use range_tests_kit::lists::{gives, own, prints};
use smallvec::SmallVec;
use std::alloc::{AllocError, Global};
use std::default::MadeWith;

// What is amiss with the sets of a range, of one without an end and of one that begins with the
// least value, if something is.
fn wrong_of_ranges(
    alloc: Global,
    range: &RangeSet2<i64>,
    open: &RangeSet2<i64>,
    below: &RangeSet2<i64>,
) -> Option<&'static str> {
    let has = [0, 1, 9, 10].map(|value| range.contains(&value));
    let answers = [
        ("the text", prints(alloc, range, "RangeSet{0..10}")),
        ("the members", has == [true, true, true, false]),
        ("0..10 | 20..", gives(range | open, &[0, 10, 20])),
        ("0..10 & ..10", gives(range & below, &[0, 10])),
        ("0..10 | ..10", gives(range | below, &[i64::MIN, 10])),
        ("..10 & 20..", gives(below & open, &[])),
        ("whether they meet", below.is_disjoint(open.as_ref())),
    ];
    let (name, _) = answers.iter().find(|(_, is_right)| !*is_right)?;
    Some(*name)
}

#[test]
fn ranges_are_put_together(rt: HostRuntime) -> Result<(), AllocError> {
    let alloc = rt.alloc();
    let range = RangeSet::from_range(alloc, 0..10)?;
    let open = RangeSet::from_range_from(alloc, 20..)?;
    let below = RangeSet::from_range_until(alloc, ..10)?;
    let wrong = wrong_of_ranges(alloc, &range, &open, &below);
    assert_eq!(rt; wrong, None);
    Ok(())
}

// The number 1, of a type without 0.
fn one() -> Option<NonZeroU8> {
    NonZeroU8::new(1)
}

// Whether no such number is below 1, and all are from 1 on.
fn none_below_one(alloc: Global) -> bool {
    matches!(one(), Some(x) if gives(RangeSet::from_range_until(alloc, ..x), &[]))
}

fn all_from_one(alloc: Global) -> bool {
    matches!(one(), Some(x) if gives(RangeSet::all(alloc), &[x]))
}

#[test]
fn ranges_of_other_orders_are_sets(rt: HostRuntime) {
    let alloc = rt.alloc();
    let [most, high, five, three] = [from_end(255), from_end(250), from_end(5), from_end(3)];
    let right = [
        gives(RangeSet::from_range(alloc, three..five), &[]),
        gives(RangeSet::from_range(alloc, five..three), &[five, three]),
        gives(RangeSet::from_range_until(alloc, ..high), &[most, high]),
        gives(RangeSet::from_range(alloc, Only..Only), &[]),
        gives(RangeSet::from_range_until(alloc, ..Only), &[]),
        none_below_one(alloc),
    ];
    assert_eq!(rt; right, [true; 6]);
}

#[test]
fn every_value_is_from_the_least_on(rt: HostRuntime) {
    let alloc = rt.alloc();
    let right = [
        gives(RangeSet::all(alloc), &[0u8]),
        gives(RangeSet::from_bool(alloc, true), &[0u8]),
        gives::<u8, _>(RangeSet::from_bool(alloc, false), &[]),
        gives(RangeSet::all(alloc), &[""]),
        gives(RangeSet::all(alloc), &[Only]),
        gives(RangeSet::all(alloc), &[from_end(255)]),
        all_from_one(alloc),
    ];
    assert_eq!(rt; right, [true; 7]);
}

// Whether the set, and its view, have every value.
fn is_all<T: RangeSetEntry + Drop>(set: Option<RangeSet2<T>>) -> Option<[bool; 2]> {
    let set = set?;
    Some([set.is_all(), set.as_ref().is_all()])
}

#[test]
fn sets_of_every_value(rt: HostRuntime) {
    let alloc = rt.alloc();
    assert!(rt; is_all(own(alloc, &[from_end(255)])) == Some([true; 2]));
    assert!(rt; is_all(RangeSet::<char, 2>::all(alloc).ok()) == Some([true; 2]));
}

// Whether the set of these boundaries is empty, and its view.
fn is_empty<T: Ord + Drop>(set: Option<RangeSet2<T>>) -> Option<[bool; 2]> {
    let set = set?;
    Some([set.is_empty(), set.as_ref().is_empty()])
}

#[test]
fn a_set_of_the_greatest_value_alone_is_not_empty(rt: HostRuntime) {
    assert!(rt; is_empty(own::<u8, 2>(rt.alloc(), &[255])) == Some([false; 2]));
}

// Whether the set of these boundaries gives them back, in each form, and is what its list makes
// without a test.
fn gives_back(alloc: Global, items: &[i64]) -> Option<bool> {
    let set: RangeSet2<i64> = own(alloc, items)?;
    let view = RangeSetRef::new_unchecked(set.as_ref().boundaries());
    let is_same = set.boundaries() == items && view == set.as_ref();
    let list = RangeSet2::new_unchecked(set.into_inner()).into_inner();
    Some(is_same && list.as_slice() == items)
}

#[test]
fn lists_come_back(rt: HostRuntime) {
    for items in [[0, 10].as_slice(), &[0, 10, 20], &[]] {
        assert!(rt; gives_back(rt.alloc(), items) == Some(true), "{items:?}");
    }
}

#[test]
fn sets_have_no_boundary_or_a_single_one(rt: HostRuntime) {
    assert!(rt; RangeSetRef::<i64>::empty().boundaries().is_empty());
    assert!(rt; RangeSetRef::<i64>::default().boundaries().is_empty());
    assert!(rt; RangeSet2::<i64>::empty(rt.alloc()).boundaries().is_empty());
    let from_7 = RangeSetRef::single(&7i64);
    assert!(rt; from_7.boundaries() == [7].as_slice());
    assert!(rt; from_7.contains(&7) && from_7.contains(&i64::MAX) && !from_7.contains(&6));
}

// Whether ..'a' and 'a'..'{' are ..'{' together.
fn characters_are_united(alloc: Global) -> Option<bool> {
    let low: RangeSet2<char> = own(alloc, &['\0', 'a'])?;
    let high: RangeSet2<char> = own(alloc, &['a', '{'])?;
    Some(gives(&low | &high, &['\0', '{']))
}

#[test]
fn sets_of_characters_are_united(rt: HostRuntime) {
    assert!(rt; characters_are_united(rt.alloc()) == Some(true));
}

// The set of a list in any order.
fn sorted<T: Ord + MadeWith<Global> + Drop + Copy>(
    alloc: Global,
    items: &[T],
) -> Result<RangeSet2<T>, AllocError> {
    RangeSet::from_unsorted(SmallVec::from_slice(alloc, items)?)
}

#[test]
fn lists_in_any_order_are_sorted(rt: HostRuntime) {
    let [a, b] = [with_letter(5, b'a'), with_letter(5, b'b')];
    let (items, want) = ([a, with_letter(1, b'a'), b], [(1, b'a'), (5, b'a')]);
    let found = sorted(rt.alloc(), &items).ok();
    assert!(rt; matches!(&found, Some(set) if letters_are(set.boundaries(), &want)));
}
