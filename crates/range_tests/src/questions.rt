//! What is asked of sets of other types, answered by members: of sets and of their views, plain and
//! counted.
use range_collections::{BoolOpMergeState, Comparisons, IntersectionOp, RangeSet2, RangeSetRef};
use range_tests_kit::elements::{Only, from_end};
use range_tests_kit::lists::{numbers, own};
use std::alloc::Global;

// Whether the set and its view say of an element that it is a member or not, plain and counted, in
// at most `most` comparisons.
fn has<T: Ord + Drop>(set: Option<RangeSet2<T>>, item: &T, want: bool, most: u128) -> Option<bool> {
    let (set, mut count, mut again) = (set?, Comparisons::new(), Comparisons::new());
    let counted = set.contains_counted(item, &mut count) == want
        && set.as_ref().contains_counted(item, &mut again) == want;
    let few = count.made().max(again.made()) <= most;
    Some(counted && few && set.contains(item) == want && set.as_ref().contains(item) == want)
}

#[test]
fn elements_are_members(rt: HostRuntime) {
    let (alloc, back) = (rt.alloc(), [from_end(255), from_end(250)]);
    assert!(rt; has(own(alloc, &back), &from_end(251), true, 2) == Some(true));
    assert!(rt; has(own(alloc, &back), &from_end(250), false, 2) == Some(true));
    assert!(rt; has(own(alloc, &["b", "d"]), &"c", true, 2) == Some(true));
    assert!(rt; has(own(alloc, &["b", "d"]), &"d", false, 2) == Some(true));
}

// Whether all lies in the second part.
fn is_second<T: Ord>(parts: (RangeSetRef<T>, RangeSetRef<T>), want: &[T]) -> bool {
    parts.0.boundaries().is_empty() && parts.1.boundaries() == want
}

// Whether the set of the only value, and its view, are cut there, plain and counted, in at most one
// comparison.
fn is_cut(alloc: Global) -> Option<bool> {
    let (set, want) = (own::<Only, 2>(alloc, &[Only])?, [Only].as_slice());
    let (mut count, mut again) = (Comparisons::new(), Comparisons::new());
    let counted = is_second(set.split_counted(Only, &mut count), want)
        && is_second(set.as_ref().split_counted(Only, &mut again), want)
        && count.made().max(again.made()) <= 1;
    Some(counted && is_second(set.split(Only), want) && is_second(set.as_ref().split(Only), want))
}

#[test]
fn a_set_is_cut_at_its_only_value(rt: HostRuntime) {
    assert!(rt; is_cut(rt.alloc()) == Some(true));
}

// Whether two views, and their lists, are seen to meet in at most two comparisons.
fn meet_at_once(alloc: Global) -> Option<bool> {
    let items = numbers(alloc, 0, 64).ok()?;
    let set = RangeSetRef::new(items.as_slice())?;
    let (mut count, mut again, list) = (Comparisons::new(), Comparisons::new(), set.boundaries());
    let meet = set.merge_test(set, &IntersectionOp, &mut count)
        && BoolOpMergeState::merge(list, list, &IntersectionOp, &mut again);
    Some(meet && count.made() <= 2 && again.made() <= 2)
}

#[test]
fn a_test_stops_at_the_first_change(rt: HostRuntime) {
    assert!(rt; meet_at_once(rt.alloc()) == Some(true));
}
