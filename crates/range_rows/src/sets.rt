//! Two sets and more: what is asked of them, and what they are put together to.
use crate::row::{Kind, Row, Word};
use crate::table::Table;
use range_collections::{
    Comparisons, Connective, EntryClone, RangeSet2, RangeSetEntry, RangeSetRef,
};
use range_tests_kit::elements::{Flagged, with_flag};
use range_tests_kit::flags::flagged;
use range_tests_kit::lists::{gives, lettered, own};
use std::alloc::{AllocError, Global};
use std::cmp::Ordering;
use std::default::MadeWith;
use std::ops::Range;

/// What is asked, or made.
#[derive(Clone, Copy)]
pub enum Asked {
    TwoSets,
    Split,
    Insert,
    Connectives,
    UnionAll,
    IntersectionAll,
}

pub const TABLES: [Asked; 6] = [
    Asked::TwoSets,
    Asked::Split,
    Asked::Insert,
    Asked::Connectives,
    Asked::UnionAll,
    Asked::IntersectionAll,
];

impl Table for Asked {
    fn file(&self) -> &'static str {
        match self {
            Asked::TwoSets => "two_sets.txt",
            Asked::Split => "split.txt",
            Asked::Insert => "insert.txt",
            Asked::Connectives => "connectives.txt",
            Asked::UnionAll => "union_all.txt",
            Asked::IntersectionAll => "intersection_all.txt",
        }
    }

    fn holds(&self, alloc: Global, row: &mut Row) -> Option<bool> {
        match (self, row.kind()) {
            (Asked::TwoSets, Kind::I64) => two_sets(alloc, row),
            (Asked::Split, Kind::I64) => split(row.set::<i64>(alloc)?, alloc, row),
            (Asked::Split, Kind::U64) => split(row.set::<u64>(alloc)?, alloc, row),
            (Asked::Insert, Kind::I64) => insert(alloc, row),
            (Asked::Connectives, kind) => connectives_of(kind, alloc, row),
            (Asked::UnionAll, Kind::I64) => union_all(row.sets::<i64>(alloc)?, alloc, row),
            (Asked::UnionAll, Kind::Char) => union_all(row.sets::<char>(alloc)?, alloc, row),
            (Asked::IntersectionAll, Kind::U8) => intersection_all(alloc, row),
            _ => None,
        }
    }
}

// What a row says of two sets.
#[derive(Clone, Copy)]
struct Answers {
    meet: bool,
    within: bool,
    over: bool,
    order: Ordering,
}

// Two sets of numbers, and the same of elements that are more than their numbers.
fn two_sets(alloc: Global, row: &mut Row) -> Option<bool> {
    let (left, right) = (row.list::<i64>(alloc)?, row.list::<i64>(alloc)?);
    row.equals()?;
    let (left, right, want) = (left.as_slice(), right.as_slice(), wanted(row)?);
    Some(
        answer(own(alloc, left)?, own(alloc, right)?, want)
            && letters_answer(alloc, left, right, want)?,
    )
}

// Those of a row.
fn wanted(row: &mut Row) -> Option<Answers> {
    Some(Answers {
        meet: row.truth()?,
        within: row.truth()?,
        over: row.truth()?,
        order: row.order()?,
    })
}

fn letters_answer(alloc: Global, left: &[i64], right: &[i64], want: Answers) -> Option<bool> {
    let (left, right) = (
        lettered(alloc, left, b'a').ok()?,
        lettered(alloc, right, b'b').ok()?,
    );
    Some(answer(
        own(alloc, left.as_slice())?,
        own(alloc, right.as_slice())?,
        want,
    ))
}

// Whether two sets, and their views, answer so.
fn answer<T: Ord + Drop>(left: RangeSet2<T>, right: RangeSet2<T>, want: Answers) -> bool {
    sets_answer(&left, right.as_ref(), want)
        && views_answer(left.as_ref(), right.as_ref(), want)
        && are_equal(&left, &right, want.order.is_eq())
}

fn sets_answer<T: Ord>(left: &RangeSet2<T>, right: RangeSetRef<T>, want: Answers) -> bool {
    left.intersects(right) == want.meet
        && left.is_disjoint(right) != want.meet
        && left.is_subset(right) == want.within
        && left.is_superset(right) == want.over
}

fn views_answer<T: Ord>(left: RangeSetRef<T>, right: RangeSetRef<T>, want: Answers) -> bool {
    left.intersects(right) == want.meet
        && left.is_disjoint(right) != want.meet
        && left.is_subset(right) == want.within
        && left.is_superset(right) == want.over
        && left.cmp(&right) == want.order
        && (left < right) == want.order.is_lt()
}

fn are_equal<T: Ord>(left: &RangeSet2<T>, right: &RangeSet2<T>, want: bool) -> bool {
    (left == right) == want
        && (left.as_ref() == right.as_ref()) == want
        && left.eq_ref(right.as_ref()) == want
        && right.eq_ref(left.as_ref()) == want
}

// A set that is cut in two, and its view, plain and counted.
fn split<T: Ord + Word + Copy + Drop>(
    set: RangeSet2<T>,
    alloc: Global,
    row: &mut Row,
) -> Option<bool> {
    let at = row.value::<T>()?;
    row.equals()?;
    let (below, from) = (row.list::<T>(alloc)?, row.list::<T>(alloc)?);
    let (want, most) = ((below.as_slice(), from.as_slice()), row.value()?);
    Some(are_cut(&set, at, want) && are_cut_counted(&set, at, want, most))
}

fn are_cut<T: Ord + Copy>(set: &RangeSet2<T>, at: T, want: (&[T], &[T])) -> bool {
    are(set.split(at), want) && are(set.as_ref().split(at), want)
}

fn are_cut_counted<T: Ord + Copy>(
    set: &RangeSet2<T>,
    at: T,
    want: (&[T], &[T]),
    most: u128,
) -> bool {
    let (mut count, mut again) = (Comparisons::new(), Comparisons::new());
    are(set.split_counted(at, &mut count), want)
        && are(set.as_ref().split_counted(at, &mut again), want)
        && count.made().max(again.made()) <= most
}

// Whether the parts have these boundaries.
fn are<T: Ord>(parts: (RangeSetRef<T>, RangeSetRef<T>), want: (&[T], &[T])) -> bool {
    parts.0.boundaries() == want.0 && parts.1.boundaries() == want.1
}

// One range put into a set, and taken out of it.
fn insert(alloc: Global, row: &mut Row) -> Option<bool> {
    let (items, range) = (row.list::<i64>(alloc)?, row.range::<i64>()?);
    row.equals()?;
    let (with, without) = (row.list::<i64>(alloc)?, row.list::<i64>(alloc)?);
    let (items, ends) = (items.as_slice(), (range.start, range.end));
    Some(
        puts(alloc, items, ends, true, with.as_slice())?
            && puts(alloc, items, ends, false, without.as_slice())?,
    )
}

// Whether a range put in, or taken out, leaves these boundaries, without a copy, and the call that
// says if it changed the set says so exactly if they are others than before.
fn puts(alloc: Global, items: &[i64], ends: (i64, i64), is_in: bool, want: &[i64]) -> Option<bool> {
    let leaves = leaves(alloc, items, ends, (is_in, false), want)?
        && leaves(alloc, items, ends, (is_in, true), want)?;
    Some(leaves && says(own(alloc, items)?, ends.0..ends.1, is_in, want)? == (items != want))
}

// What the call says, if it leaves these boundaries.
fn says(mut set: RangeSet2<i64>, range: Range<i64>, is_in: bool, want: &[i64]) -> Option<bool> {
    let changed = if is_in {
        set.insert_changed(range)
    } else {
        set.remove_changed(range)
    };
    let changed = changed.ok()?;
    (set.boundaries() == want).then_some(changed)
}

// Whether a call, plain or counted, leaves these boundaries, of elements that can't be copied.
fn leaves(
    alloc: Global,
    items: &[i64],
    ends: (i64, i64),
    call: (bool, bool),
    want: &[i64],
) -> Option<bool> {
    let set = own(alloc, flagged(alloc, items, 0..usize::MAX).ok()?.as_slice())?;
    let set = changed(set, with_flag(ends.0, true)..with_flag(ends.1, true), call).ok()?;
    Some(set.boundaries() == flagged(alloc, want, 0..0).ok()?.as_slice())
}

fn changed(
    mut set: RangeSet2<Flagged>,
    range: Range<Flagged>,
    (is_in, is_counted): (bool, bool),
) -> Result<RangeSet2<Flagged>, AllocError> {
    let mut count = Comparisons::new();
    match (is_in, is_counted) {
        (true, false) => set.insert(range)?,
        (true, true) => set.insert_counted(range, &mut count)?,
        (false, false) => set.remove(range)?,
        (false, true) => set.remove_counted(range, &mut count)?,
    }
    Ok(set)
}

fn connectives_of(kind: Kind, alloc: Global, row: &mut Row) -> Option<bool> {
    let op = row.connective()?;
    match kind {
        Kind::I64 => connectives(&op, row.set::<i64>(alloc)?, row.set(alloc)?, alloc, row),
        Kind::U8 => connectives(&op, row.set::<u8>(alloc)?, row.set(alloc)?, alloc, row),
        _ => None,
    }
}

fn connectives<T: RangeSetEntry + EntryClone + Word + MadeWith<Global> + Drop>(
    op: &Connective,
    left: RangeSet2<T>,
    right: RangeSet2<T>,
    alloc: Global,
    row: &mut Row,
) -> Option<bool> {
    row.equals()?;
    let want = row.list::<T>(alloc)?;
    Some(combines(alloc, &left, right.as_ref(), op, want.as_slice()))
}

// Whether the connective of a set and a view, and of two views, is this list, made in at most twice
// as many comparisons as there are boundaries.
fn combines<T: RangeSetEntry + EntryClone + MadeWith<Global> + Drop>(
    alloc: Global,
    left: &RangeSet2<T>,
    right: RangeSetRef<T>,
    op: &Connective,
    want: &[T],
) -> bool {
    let (mut count, mut again) = (Comparisons::new(), Comparisons::new());
    let all = left
        .boundaries()
        .len()
        .saturating_add(right.boundaries().len());
    gives(left.as_ref().combine(alloc, right, op, &mut count), want)
        && gives(left.combine(right, op, &mut again), want)
        && count.made() <= 2 * all as u128
        && again.made() == count.made()
}

// The views of these sets.
fn views<T: Ord>(alloc: Global, sets: &[RangeSet2<T>]) -> Option<Vec<RangeSetRef<'_, T>>> {
    let mut views = Vec::new(alloc);
    for set in sets {
        views.push(set.as_ref()).ok()?;
    }
    Some(views)
}

// What is in at least one of some sets, plain and counted.
fn union_all<T: EntryClone + Word + MadeWith<Global> + Drop>(
    sets: Vec<RangeSet2<T>>,
    alloc: Global,
    row: &mut Row,
) -> Option<bool> {
    let (want, views) = (row.list::<T>(alloc)?, views(alloc, sets.as_slice())?);
    let (want, views) = (want.as_slice(), views.as_slice());
    let counted = RangeSet2::union_all_counted(alloc, views, &mut Comparisons::new());
    Some(gives(counted, want) && gives(RangeSet2::union_all(alloc, views), want))
}

// What is in all of some sets.
fn intersection_all(alloc: Global, row: &mut Row) -> Option<bool> {
    let sets = row.sets::<u8>(alloc)?;
    let views = views(alloc, sets.as_slice())?;
    let made = RangeSet2::intersection_all(alloc, views.as_slice());
    Some(gives(made, row.list(alloc)?.as_slice()))
}
