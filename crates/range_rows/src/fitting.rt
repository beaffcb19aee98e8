//! Values that stand in a row: how many of them are members, and where a number of them fit.
use crate::row::{Kind, Row, Word};
use crate::table::Table;
use range_collections::{Countable, FromPlace, RangeSet2, RangeSetRange, Unsigned};
use std::alloc::Global;
use std::ops::{Range, RangeFrom};

/// What is asked.
#[derive(Clone, Copy)]
pub enum Asked {
    Values,
    Covered,
    FirstFit,
    Fitting,
    Multiples,
}

pub const TABLES: [Asked; 5] = [
    Asked::Values,
    Asked::Covered,
    Asked::FirstFit,
    Asked::Fitting,
    Asked::Multiples,
];

impl Table for Asked {
    fn file(&self) -> &'static str {
        match self {
            Asked::Values => "values.txt",
            Asked::Covered => "covered.txt",
            Asked::FirstFit => "first_fit.txt",
            Asked::Fitting => "fitting.txt",
            Asked::Multiples => "multiples.txt",
        }
    }

    fn holds(&self, alloc: Global, row: &mut Row) -> Option<bool> {
        let kind = row.kind();
        match self {
            Asked::Values => values_of(kind, row),
            Asked::Covered => covered_of(kind, alloc, row),
            Asked::FirstFit => first_fit_of(kind, alloc, row),
            Asked::Fitting => fitting_of(kind, alloc, row),
            Asked::Multiples => multiples_of(kind, alloc, row),
        }
    }
}

// Each type of values.
fn values_of(kind: Kind, row: &mut Row) -> Option<bool> {
    match kind {
        Kind::Char => values::<char>(row),
        Kind::I128 => values::<i128>(row),
        Kind::I64 => values::<i64>(row),
        Kind::I32 => values::<i32>(row),
        Kind::I16 => values::<i16>(row),
        Kind::I8 => values::<i8>(row),
        Kind::Isize => values::<isize>(row),
        Kind::U128 => values::<u128>(row),
        Kind::U64 => values::<u64>(row),
        Kind::U32 => values::<u32>(row),
        Kind::U16 => values::<u16>(row),
        Kind::U8 => values::<u8>(row),
        Kind::Usize => values::<usize>(row),
    }
}

fn covered_of(kind: Kind, alloc: Global, row: &mut Row) -> Option<bool> {
    match kind {
        Kind::Char => covered(row.set::<char>(alloc)?, row),
        Kind::I128 => covered(row.set::<i128>(alloc)?, row),
        Kind::I64 => covered(row.set::<i64>(alloc)?, row),
        Kind::I32 => covered(row.set::<i32>(alloc)?, row),
        Kind::I16 => covered(row.set::<i16>(alloc)?, row),
        Kind::I8 => covered(row.set::<i8>(alloc)?, row),
        Kind::Isize => covered(row.set::<isize>(alloc)?, row),
        Kind::U128 => covered(row.set::<u128>(alloc)?, row),
        Kind::U64 => covered(row.set::<u64>(alloc)?, row),
        Kind::U32 => covered(row.set::<u32>(alloc)?, row),
        Kind::U16 => covered(row.set::<u16>(alloc)?, row),
        Kind::U8 => covered(row.set::<u8>(alloc)?, row),
        Kind::Usize => covered(row.set::<usize>(alloc)?, row),
    }
}

// The types without a sign.
fn first_fit_of(kind: Kind, alloc: Global, row: &mut Row) -> Option<bool> {
    match kind {
        Kind::U128 => first_fit(row.set::<u128>(alloc)?, row),
        Kind::U64 => first_fit(row.set::<u64>(alloc)?, row),
        Kind::U32 => first_fit(row.set::<u32>(alloc)?, row),
        Kind::U16 => first_fit(row.set::<u16>(alloc)?, row),
        Kind::U8 => first_fit(row.set::<u8>(alloc)?, row),
        Kind::Usize => first_fit(row.set::<usize>(alloc)?, row),
        _ => None,
    }
}

fn fitting_of(kind: Kind, alloc: Global, row: &mut Row) -> Option<bool> {
    match kind {
        Kind::Char => fitting(row.set::<char>(alloc)?, row),
        Kind::I128 => fitting(row.set::<i128>(alloc)?, row),
        Kind::I8 => fitting(row.set::<i8>(alloc)?, row),
        Kind::U128 => fitting(row.set::<u128>(alloc)?, row),
        _ => None,
    }
}

fn multiples_of(kind: Kind, alloc: Global, row: &mut Row) -> Option<bool> {
    match kind {
        Kind::I64 => multiples(row.set::<i64>(alloc)?, row),
        Kind::I32 => multiples(row.set::<i32>(alloc)?, row),
        Kind::U64 => multiples(row.set::<u64>(alloc)?, row),
        Kind::U32 => multiples(row.set::<u32>(alloc)?, row),
        _ => None,
    }
}

// How many values there are, the least and the greatest.
fn values<T: FromPlace + Word>(row: &mut Row) -> Option<bool> {
    let count = row.value_if_any::<u128>()?;
    row.equals()?;
    let (least, greatest) = (row.value::<T>()?, row.value::<T>()?);
    Some(
        T::greatest() == greatest
            && T::from_place(0) == Some(least)
            && is_last(greatest, count)
            && ends::<T>(count),
    )
}

// Whether a value is made from the last place.
fn is_last<T: FromPlace>(greatest: T, count: Option<u128>) -> bool {
    let last = match count {
        Some(count) => count.saturating_sub(1),
        None => u128::MAX,
    };
    T::from_place(last) == Some(greatest)
}

// Whether no value is made from the places after them.
fn ends<T: FromPlace>(count: Option<u128>) -> bool {
    let Some(count) = count else {
        return true;
    };
    T::from_place(count).is_none() && T::from_place(u128::MAX).is_none()
}

// How many values are members, of a set and of its view.
fn covered<T: Countable + Drop>(set: RangeSet2<T>, row: &mut Row) -> Option<bool> {
    row.equals()?;
    let want = row.value_if_any()?;
    Some(set.covered() == want && set.as_ref().covered() == want)
}

// The first place beside the members where a length fits.
fn first_fit<T: Unsigned + FromPlace + Word + Drop>(
    set: RangeSet2<T>,
    row: &mut Row,
) -> Option<bool> {
    let (within, len) = (row.any_range::<T>()?, row.value::<T>()?);
    row.equals()?;
    let (view, want) = (set.as_ref(), row.value_if_any::<T>()?);
    Some(match within {
        RangeSetRange::Range(Range { start, end }) => {
            set.first_fit(start..end, len) == want && view.first_fit(start..end, len) == want
        }
        RangeSetRange::RangeFrom(RangeFrom { start }) => {
            set.first_fit(start.., len) == want && view.first_fit(start.., len) == want
        }
    })
}

// The same of as many as a number says, that at a multiple of another, and the first such run of
// members.
fn fitting<T: FromPlace + Word + Drop>(set: RangeSet2<T>, row: &mut Row) -> Option<bool> {
    let within = row.any_range::<T>()?;
    let (count, align) = (row.value()?, row.value()?);
    row.equals()?;
    let fit = has_fit(&set, &within, count, row.value_if_any()?);
    let aligned = has_aligned_fit(&set, &within, (count, align), row.value_if_any()?);
    let run = has_run(&set, &within, count, row.value_if_any()?);
    Some(fit && aligned && run)
}

fn has_fit<T: FromPlace>(
    set: &RangeSet2<T>,
    within: &RangeSetRange<T>,
    count: u128,
    want: Option<T>,
) -> bool {
    let view = set.as_ref();
    match within {
        RangeSetRange::Range(range) => {
            let (start, end) = (range.start, range.end);
            set.first_fit_count(start..end, count) == want
                && view.first_fit_count(start..end, count) == want
        }
        RangeSetRange::RangeFrom(range) => {
            let start = range.start;
            set.first_fit_count(start.., count) == want
                && view.first_fit_count(start.., count) == want
        }
    }
}

fn has_run<T: FromPlace>(
    set: &RangeSet2<T>,
    within: &RangeSetRange<T>,
    count: u128,
    want: Option<T>,
) -> bool {
    let view = set.as_ref();
    match within {
        RangeSetRange::Range(range) => {
            let (start, end) = (range.start, range.end);
            set.first_run(start..end, count) == want && view.first_run(start..end, count) == want
        }
        RangeSetRange::RangeFrom(range) => {
            let start = range.start;
            set.first_run(start.., count) == want && view.first_run(start.., count) == want
        }
    }
}

fn has_aligned_fit<T: FromPlace>(
    set: &RangeSet2<T>,
    within: &RangeSetRange<T>,
    (count, align): (u128, u128),
    want: Option<T>,
) -> bool {
    let view = set.as_ref();
    match within {
        RangeSetRange::Range(range) => {
            let (start, end) = (range.start, range.end);
            set.first_fit_aligned(start..end, count, align) == want
                && view.first_fit_aligned(start..end, count, align) == want
        }
        RangeSetRange::RangeFrom(range) => {
            let start = range.start;
            set.first_fit_aligned(start.., count, align) == want
                && view.first_fit_aligned(start.., count, align) == want
        }
    }
}

// The first multiple of a number where a length fits.
fn multiples<T: FromPlace + Word + Drop>(set: RangeSet2<T>, row: &mut Row) -> Option<bool> {
    let within = row.any_range::<T>()?;
    let numbers = (row.value()?, row.value()?);
    row.equals()?;
    Some(has_aligned_fit(&set, &within, numbers, row.value_if_any()?))
}
