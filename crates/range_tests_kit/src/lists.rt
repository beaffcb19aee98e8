//! What the tests begin with, and how they look at an answer.
use crate::elements::{Lettered, with_letter};
use range_collections::{Iter, RangeSet, RangeSet2, RangeSetRange};
use smallvec::SmallVec;
use std::alloc::{AllocError, Global};
use std::default::MadeWith;
use std::fmt::Debug;
use std::ops::Range;

/// Whether a set was made, with these boundaries.
pub fn gives<T: Ord + Drop, E: Drop>(made: Result<RangeSet2<T>, E>, want: &[T]) -> bool {
    match made {
        Ok(set) => set.boundaries() == want,
        Err(_) => false,
    }
}

/// Whether the set of the range, if there is one, has these boundaries.
pub fn is_range<T: Ord>(range: Option<RangeSetRange<&T>>, want: &[T]) -> bool {
    let (start, end) = match range {
        Some(RangeSetRange::Range(range)) => (Some(range.start), Some(range.end)),
        Some(RangeSetRange::RangeFrom(range)) => (Some(range.start), None),
        None => (None, None),
    };
    want.len() <= 2 && want.first() == start && want.get(1) == end
}

/// Whether these are the ranges between the boundaries, each with its end.
pub fn are_ranges_between<T: Ord>(ranges: Iter<T>, boundaries: &[T]) -> bool {
    let mut ends = boundaries.iter();
    for range in ranges {
        match range {
            RangeSetRange::Range(Range { start, end })
                if ends.next() == Some(start) && ends.next() == Some(end) => {}
            _ => return false,
        }
    }
    ends.next().is_none()
}

/// The numbers from `low` on, below `high`.
pub fn numbers(alloc: Global, low: i64, high: i64) -> Result<Vec<i64>, AllocError> {
    let mut items = Vec::new(alloc);
    for x in low..high {
        items.push(x)?;
    }
    Ok(items)
}

/// Every other number from `low` on, below `high`.
pub fn every_other(alloc: Global, low: i64, high: i64) -> Result<Vec<i64>, AllocError> {
    let mut items = Vec::new(alloc);
    for x in low..high {
        if x % 2 == low % 2 {
            items.push(x)?;
        }
    }
    Ok(items)
}

/// Whether the value is printed so.
pub fn prints<T: Debug>(alloc: Global, value: &T, want: &str) -> bool {
    match format!(in alloc; "{value:?}") {
        Ok(text) => text.as_str() == want,
        Err(_) => false,
    }
}

/// The set of these boundaries, if they are strictly sorted.
pub fn own<T: Ord + MadeWith<Global> + Drop + Copy, const N: usize>(
    alloc: Global,
    items: &[T],
) -> Option<RangeSet<T, N>> {
    RangeSet::new(SmallVec::from_slice(alloc, items).ok()?)
}

/// The set of these numbers, with room for two.
pub fn set_of(alloc: Global, items: &[i64]) -> Option<RangeSet2<i64>> {
    own(alloc, items)
}

/// The numbers, each with the letter.
pub fn lettered(alloc: Global, numbers: &[i64], letter: u8) -> Result<Vec<Lettered>, AllocError> {
    let mut items = Vec::new(alloc);
    for number in numbers {
        items.push(with_letter(*number, letter))?;
    }
    Ok(items)
}
