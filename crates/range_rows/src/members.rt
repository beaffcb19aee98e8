//! Single members: of sets and of their views, plain and counted.
use crate::row::{Kind, Row, Word};
use crate::table::Table;
use range_collections::{Comparisons, Countable, FromPlace, Members, RangeSet2};
use std::alloc::Global;

/// What is asked.
#[derive(Clone, Copy)]
pub enum Asked {
    Contains,
    Next,
    Prev,
    Rank,
    Select,
    Members,
}

pub const TABLES: [Asked; 6] = [
    Asked::Contains,
    Asked::Next,
    Asked::Prev,
    Asked::Rank,
    Asked::Select,
    Asked::Members,
];

impl Table for Asked {
    fn file(&self) -> &'static str {
        match self {
            Asked::Contains => "contains.txt",
            Asked::Next => "next.txt",
            Asked::Prev => "prev.txt",
            Asked::Rank => "rank.txt",
            Asked::Select => "select.txt",
            Asked::Members => "members.txt",
        }
    }

    fn holds(&self, alloc: Global, row: &mut Row) -> Option<bool> {
        match (self, row.kind()) {
            (Asked::Contains, kind) => contains_of(kind, alloc, row),
            (Asked::Next, Kind::I8) => next(row.set(alloc)?, row),
            (Asked::Prev, Kind::I8) => prev(row.set::<i8>(alloc)?, row),
            (Asked::Prev, Kind::Char) => prev(row.set::<char>(alloc)?, row),
            (Asked::Rank, kind) => rank_of(kind, alloc, row),
            (Asked::Select, kind) => select_of(kind, alloc, row),
            (Asked::Members, kind) => members_of(kind, alloc, row),
            _ => None,
        }
    }
}

fn contains_of(kind: Kind, alloc: Global, row: &mut Row) -> Option<bool> {
    match kind {
        Kind::Char => contains(row.set::<char>(alloc)?, row),
        Kind::I64 => contains(row.set::<i64>(alloc)?, row),
        Kind::U128 => contains(row.set::<u128>(alloc)?, row),
        Kind::U64 => contains(row.set::<u64>(alloc)?, row),
        Kind::U8 => contains(row.set::<u8>(alloc)?, row),
        _ => None,
    }
}

fn rank_of(kind: Kind, alloc: Global, row: &mut Row) -> Option<bool> {
    match kind {
        Kind::Char => rank(row.set::<char>(alloc)?, row),
        Kind::I8 => rank(row.set::<i8>(alloc)?, row),
        Kind::U128 => rank(row.set::<u128>(alloc)?, row),
        _ => None,
    }
}

fn select_of(kind: Kind, alloc: Global, row: &mut Row) -> Option<bool> {
    match kind {
        Kind::Char => select(row.set::<char>(alloc)?, row),
        Kind::I8 => select(row.set::<i8>(alloc)?, row),
        Kind::U128 => select(row.set::<u128>(alloc)?, row),
        _ => None,
    }
}

fn members_of(kind: Kind, alloc: Global, row: &mut Row) -> Option<bool> {
    match kind {
        Kind::Char => members(row.set::<char>(alloc)?, alloc, row),
        Kind::I128 => members(row.set::<i128>(alloc)?, alloc, row),
        Kind::I8 => members(row.set::<i8>(alloc)?, alloc, row),
        Kind::U128 => members(row.set::<u128>(alloc)?, alloc, row),
        _ => None,
    }
}

// Whether a value is a member, plain and counted, in at most as many comparisons as the row says.
fn contains<T: Ord + Word + Drop>(set: RangeSet2<T>, row: &mut Row) -> Option<bool> {
    let value = row.value()?;
    row.equals()?;
    let (want, most) = (row.truth()?, row.value::<u128>()?);
    let (mut count, mut again) = (Comparisons::new(), Comparisons::new());
    let counted = set.contains_counted(&value, &mut count) == want
        && set.as_ref().contains_counted(&value, &mut again) == want;
    let few = count.made().max(again.made()) <= most;
    let plain = set.contains(&value) == want && set.as_ref().contains(&value) == want;
    Some(counted && few && plain)
}

// The first member and the first gap from a value on.
fn next(set: RangeSet2<i8>, row: &mut Row) -> Option<bool> {
    let (view, from) = (set.as_ref(), row.value()?);
    row.equals()?;
    let (member, gap) = (row.value_if_any()?, row.value_if_any()?);
    let of_set = set.next_member(&from).copied() == member && set.next_gap(&from).copied() == gap;
    Some(
        of_set
            && view.next_member(&from).copied() == member
            && view.next_gap(&from).copied() == gap,
    )
}

// The last member and the last gap up to a value.
fn prev<T: FromPlace + Word + Drop>(set: RangeSet2<T>, row: &mut Row) -> Option<bool> {
    let (view, from) = (set.as_ref(), row.value()?);
    row.equals()?;
    let (member, gap) = (row.value_if_any()?, row.value_if_any()?);
    let of_set = set.prev_member(&from) == member && set.prev_gap(&from) == gap;
    Some(of_set && view.prev_member(&from) == member && view.prev_gap(&from) == gap)
}

// How many members are below a value.
fn rank<T: Countable + Word + Drop>(set: RangeSet2<T>, row: &mut Row) -> Option<bool> {
    let at = row.value()?;
    row.equals()?;
    let want = row.value()?;
    Some(set.rank(&at) == want && set.as_ref().rank(&at) == want)
}

// The member with `k` below it.
fn select<T: FromPlace + Word + Drop>(set: RangeSet2<T>, row: &mut Row) -> Option<bool> {
    let k = row.value()?;
    row.equals()?;
    let want = row.value_if_any()?;
    Some(set.select(k) == want && set.as_ref().select(k) == want)
}

// The members one by one, by each number of them from the front and the others from the back.
fn members<T: FromPlace + Word + Drop>(
    set: RangeSet2<T>,
    alloc: Global,
    row: &mut Row,
) -> Option<bool> {
    row.equals()?;
    are_members_each_way(&set, row.list(alloc)?.as_slice())
}

fn are_members_each_way<T: FromPlace>(set: &RangeSet2<T>, want: &[T]) -> Option<bool> {
    for ahead in 0..=want.len() {
        let (front, back) = want.split_at_checked(ahead)?;
        if !are_members(set.members(), front, back)
            || !are_members(set.as_ref().members(), front, back)
        {
            return Some(false);
        }
    }
    Some(true)
}

// Whether the members begin like that, and end like that, with none between.
fn are_members<T: FromPlace>(mut members: Members<T>, front: &[T], back: &[T]) -> bool {
    let mut right = true;
    for member in front {
        right = members.next() == Some(*member) && right;
    }
    for member in back.iter().rev() {
        right = members.next_back() == Some(*member) && right;
    }
    right && members.next().is_none() && members.next_back().is_none()
}
