//! Lists of numbers in which some have their flag set, so that their copies are refused.
use crate::elements::{Flagged, with_flag};
use crate::ways::Case;
use std::alloc::{AllocError, Global};
use std::ops::Range;

/// The items of these numbers, with the flag set at the places in the range.
pub fn flagged(
    alloc: Global,
    numbers: &[i64],
    places: Range<usize>,
) -> Result<Vec<Flagged>, AllocError> {
    let mut items = Vec::new(alloc);
    for (at, number) in numbers.iter().enumerate() {
        items.push(with_flag(*number, places.contains(&at)))?;
    }
    Ok(items)
}

/// Which items have their flag set: none, the one at this place of the left list or of the right
/// one, or in both lists all from this place on.
#[derive(Clone, Copy, PartialEq, Eq, Debug)]
pub enum Flags {
    None,
    Left(usize),
    Right(usize),
    From(usize),
}

impl Flags {
    /// The places of the left list.
    pub fn left(self) -> Range<usize> {
        match self {
            Flags::Left(at) => at..at.saturating_add(1),
            Flags::From(at) => at..usize::MAX,
            _ => 0..0,
        }
    }

    /// The places of the right list.
    pub fn right(self) -> Range<usize> {
        match self {
            Flags::Right(at) => at..at.saturating_add(1),
            Flags::From(at) => at..usize::MAX,
            _ => 0..0,
        }
    }

    /// Whether one of the first `n` items of the left list is flagged.
    pub fn left_within(self, n: usize) -> bool {
        matches!(self, Flags::Left(at) | Flags::From(at) if at < n)
    }

    /// Whether one of the first `n` items of the right list is flagged.
    pub fn right_within(self, n: usize) -> bool {
        matches!(self, Flags::Right(at) | Flags::From(at) if at < n)
    }
}

/// The items of a case, some of them flagged.
#[derive(Drop)]
pub struct Items {
    left: Vec<Flagged>,
    right: Vec<Flagged>,
    first: Vec<Flagged>,
    want: Vec<Flagged>,
}

impl Items {
    pub fn of(alloc: Global, case: &Case<i64>, flags: Flags) -> Result<Items, AllocError> {
        Ok(Items {
            left: flagged(alloc, case.left, flags.left())?,
            right: flagged(alloc, case.right, flags.right())?,
            first: flagged(alloc, case.first, 0..usize::MAX)?,
            want: flagged(alloc, case.want, 0..0)?,
        })
    }

    pub fn case<'a>(&'a self, numbers: &Case<i64>) -> Case<'a, Flagged> {
        Case {
            table: numbers.table,
            op: numbers.op,
            left: self.left.as_slice(),
            right: self.right.as_slice(),
            first: self.first.as_slice(),
            want: self.want.as_slice(),
            most: numbers.most,
        }
    }
}
