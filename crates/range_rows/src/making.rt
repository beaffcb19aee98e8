//! Sets made of ranges, of values, of lists in any order, and of what is in no set.
use crate::row::{Kind, Part, Row, Word};
use crate::table::Table;
use range_collections::{
    EntryClone, FromPlace, RangeSet, RangeSet2, RangeSetEntry, RangeSetRange, RangeSetRef,
};
use range_tests_kit::lists::{gives, own};
use smallvec::SmallVec;
use std::alloc::Global;
use std::default::MadeWith;

/// What a set is made of.
#[derive(Clone, Copy)]
pub enum Made {
    FromRange,
    FromRanges,
    FromValues,
    FromUnsorted,
    Sorted,
    IsAll,
    Negation,
}

pub const TABLES: [Made; 7] = [
    Made::FromRange,
    Made::FromRanges,
    Made::FromValues,
    Made::FromUnsorted,
    Made::Sorted,
    Made::IsAll,
    Made::Negation,
];

impl Table for Made {
    fn file(&self) -> &'static str {
        match self {
            Made::FromRange => "from_range.txt",
            Made::FromRanges => "from_ranges.txt",
            Made::FromValues => "from_values.txt",
            Made::FromUnsorted => "from_unsorted.txt",
            Made::Sorted => "sorted.txt",
            Made::IsAll => "is_all.txt",
            Made::Negation => "negation.txt",
        }
    }

    fn holds(&self, alloc: Global, row: &mut Row) -> Option<bool> {
        match (self, row.kind()) {
            (Made::FromRange, kind) => from_range_of(kind, alloc, row),
            (Made::FromRanges, Kind::I64) => has(from_ranges(alloc, row)?, alloc, row),
            (Made::FromValues, kind) => from_values_of(kind, alloc, row),
            (Made::FromUnsorted, Kind::I64) => has(from_unsorted(alloc, row)?, alloc, row),
            (Made::Sorted, Kind::I64) => sorted(alloc, row),
            (Made::IsAll, kind) => is_all_of(kind, alloc, row),
            (Made::Negation, kind) => negation_of(kind, alloc, row),
            _ => None,
        }
    }
}

fn from_range_of(kind: Kind, alloc: Global, row: &mut Row) -> Option<bool> {
    match kind {
        Kind::Char => has(from_part::<char>(alloc, row)?, alloc, row),
        Kind::I64 => has(from_part::<i64>(alloc, row)?, alloc, row),
        Kind::I32 => has(from_part::<i32>(alloc, row)?, alloc, row),
        Kind::U8 => has(from_part::<u8>(alloc, row)?, alloc, row),
        _ => None,
    }
}

fn from_values_of(kind: Kind, alloc: Global, row: &mut Row) -> Option<bool> {
    match kind {
        Kind::Char => has(from_values::<char>(alloc, row)?, alloc, row),
        Kind::I64 => has(from_values::<i64>(alloc, row)?, alloc, row),
        Kind::I8 => has(from_values::<i8>(alloc, row)?, alloc, row),
        Kind::U128 => has(from_values::<u128>(alloc, row)?, alloc, row),
        _ => None,
    }
}

fn is_all_of(kind: Kind, alloc: Global, row: &mut Row) -> Option<bool> {
    match kind {
        Kind::Char => is_all(row.set::<char>(alloc)?, row),
        Kind::I64 => is_all(row.set::<i64>(alloc)?, row),
        Kind::U8 => is_all(row.set::<u8>(alloc)?, row),
        _ => None,
    }
}

fn negation_of(kind: Kind, alloc: Global, row: &mut Row) -> Option<bool> {
    match kind {
        Kind::Char => negation(row.set::<char>(alloc)?, alloc, row),
        Kind::I64 => negation(row.set::<i64>(alloc)?, alloc, row),
        Kind::I32 => negation(row.set::<i32>(alloc)?, alloc, row),
        Kind::U8 => negation(row.set::<u8>(alloc)?, alloc, row),
        _ => None,
    }
}

// Whether a set that was made has the boundaries that stand in the row.
fn has<T: Ord + Word + Drop>(made: RangeSet2<T>, alloc: Global, row: &mut Row) -> Option<bool> {
    row.equals()?;
    Some(made.boundaries() == row.list(alloc)?.as_slice())
}

// The set of a range that may have no start, and no end.
fn from_part<T: RangeSetEntry + Word + MadeWith<Global> + Copy + Drop>(
    alloc: Global,
    row: &mut Row,
) -> Option<RangeSet2<T>> {
    match row.part::<T>()? {
        Part::Range(range) => from_range(alloc, range),
        Part::Until(end) => RangeSet::from_range_until(alloc, ..end).ok(),
        Part::Full => RangeSet::from_range_full(alloc, ..).ok(),
    }
}

// The set of a range, if its own call makes the same as that of ranges of both kinds.
fn from_range<T: Ord + MadeWith<Global> + Copy + Drop>(
    alloc: Global,
    range: RangeSetRange<T>,
) -> Option<RangeSet2<T>> {
    let set = from_ends(alloc, &range)?;
    let again = RangeSet::from_range_set_range(alloc, range).ok()?;
    (set == again).then_some(set)
}

fn from_ends<T: Ord + MadeWith<Global> + Copy + Drop>(
    alloc: Global,
    range: &RangeSetRange<T>,
) -> Option<RangeSet2<T>> {
    match range {
        RangeSetRange::Range(range) => RangeSet::from_range(alloc, range.start..range.end).ok(),
        RangeSetRange::RangeFrom(range) => RangeSet::from_range_from(alloc, range.start..).ok(),
    }
}

// The set of ranges in any order.
fn from_ranges(alloc: Global, row: &mut Row) -> Option<RangeSet2<i64>> {
    let ranges = row.ranges(alloc)?;
    RangeSet::from_ranges(alloc, ranges.as_slice()).ok()
}

// The set of values in any order.
fn from_values<T: FromPlace + EntryClone + Word + MadeWith<Global>>(
    alloc: Global,
    row: &mut Row,
) -> Option<RangeSet2<T>> {
    let values = row.list(alloc)?;
    RangeSet::from_values(alloc, values.as_slice()).ok()
}

// The set of a list in any order.
fn from_unsorted(alloc: Global, row: &mut Row) -> Option<RangeSet2<i64>> {
    let items = row.list(alloc)?;
    let list = SmallVec::from_slice(alloc, items.as_slice()).ok()?;
    RangeSet::from_unsorted(list).ok()
}

// Whether a set, and a view, are made of a list.
fn sorted(alloc: Global, row: &mut Row) -> Option<bool> {
    let items = row.list::<i64>(alloc)?;
    row.equals()?;
    let (items, want) = (items.as_slice(), row.truth()?);
    let is_set = own::<i64, 2>(alloc, items).is_some();
    Some(is_set == want && RangeSetRef::new(items).is_some() == want)
}

// Whether every value is a member, of a set and of its view.
fn is_all<T: RangeSetEntry + Drop>(set: RangeSet2<T>, row: &mut Row) -> Option<bool> {
    row.equals()?;
    let want = row.truth()?;
    Some(set.is_all() == want && set.as_ref().is_all() == want)
}

// What is in no set, and back.
fn negation<T: RangeSetEntry + EntryClone + Word + MadeWith<Global> + Drop>(
    set: RangeSet2<T>,
    alloc: Global,
    row: &mut Row,
) -> Option<bool> {
    row.equals()?;
    let want = row.list::<T>(alloc)?;
    Some(is_cloned(&set) && leads_back(&set) && negates(set, want.as_slice()))
}

// Whether the set's clone is equal to it, in both forms.
fn is_cloned<T: EntryClone + MadeWith<Global> + Drop>(set: &RangeSet2<T>) -> bool {
    match set.clone() {
        Ok(copied) => copied == *set && copied.eq_ref(set.as_ref()),
        Err(_) => false,
    }
}

// Whether both forms of `!` lead back from what is not in the set.
fn leads_back<T: RangeSetEntry + EntryClone + MadeWith<Global> + Drop>(set: &RangeSet2<T>) -> bool {
    match !set {
        Ok(other) => gives(!&other, set.boundaries()) && gives(!other, set.boundaries()),
        Err(_) => false,
    }
}

// Whether both forms of `!` lead from the set to the other list.
fn negates<T: RangeSetEntry + EntryClone + MadeWith<Global> + Drop>(
    set: RangeSet2<T>,
    negated: &[T],
) -> bool {
    gives(!&set, negated) && gives(!set, negated)
}
