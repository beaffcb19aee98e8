//! Membership by the boundaries' count alone, and the sixteen connectives by their tables.
use range_collections::Connective;
use std::alloc::{AllocError, Global};

/// The answers of each connective where neither side is on, the left alone is, the right alone is,
/// and both are.
pub const TABLES: [[u8; 4]; 16] = [
    [0, 0, 0, 0],
    [0, 0, 0, 1],
    [0, 0, 1, 0],
    [0, 0, 1, 1],
    [0, 1, 0, 0],
    [0, 1, 0, 1],
    [0, 1, 1, 0],
    [0, 1, 1, 1],
    [1, 0, 0, 0],
    [1, 0, 0, 1],
    [1, 0, 1, 0],
    [1, 0, 1, 1],
    [1, 1, 0, 0],
    [1, 1, 0, 1],
    [1, 1, 1, 0],
    [1, 1, 1, 1],
];

pub const NOT_LEFT: [u8; 4] = [1, 0, 1, 0];

/// The connective with these answers.
pub fn connective(table: [u8; 4]) -> Connective {
    Connective {
        neither: table[0] == 1,
        left: table[1] == 1,
        right: table[2] == 1,
        both: table[3] == 1,
    }
}

/// Whether an odd number of the boundaries is at or below the value.
pub fn is_on<T: Ord>(items: &[T], value: &T) -> bool {
    let mut on = false;
    for item in items {
        if item <= value {
            on = !on;
        }
    }
    on
}

// The place of the first item above the value, which is not before this one.
fn passed<T: Ord>(items: &[T], place: usize, value: &T) -> usize {
    let rest = items.get(place..).unwrap_or(&[]);
    match rest.iter().position(|item| item > value) {
        Some(more) => place.saturating_add(more),
        None => items.len(),
    }
}

/// Whether the same of the points, which are in order, are on by both lists of boundaries.
pub fn agree<T: Ord>(points: &[T], items: &[T], others: &[T]) -> bool {
    let (mut a, mut b) = (0, 0);
    for point in points {
        a = passed(items, a, point);
        b = passed(others, b, point);
        if a % 2 != b % 2 {
            return false;
        }
    }
    true
}

/// Points in order, and which of two sides are on at each of them, as the place of the answer in a
/// table.
#[derive(Drop)]
pub struct Stands<'a, T> {
    points: &'a [T],
    places: Vec<usize>,
}

impl<'a, T: Ord + Copy> Stands<'a, T> {
    pub fn of(
        alloc: Global,
        points: &'a [T],
        left: &[T],
        right: &[T],
    ) -> Result<Stands<'a, T>, AllocError> {
        let mut places = Vec::with_capacity(alloc, points.len())?;
        let (mut a, mut b) = (0, 0);
        for point in points {
            a = passed(left, a, point);
            b = passed(right, b, point);
            places.push(a % 2 + b % 2 * 2)?;
        }
        Ok(Stands { points, places })
    }

    /// The points at which the table's answer turns, which is `on` below the first of them.
    pub fn turns(&self, alloc: Global, table: [u8; 4], mut on: bool) -> Result<Vec<T>, AllocError> {
        let mut items = Vec::with_capacity(alloc, self.points.len())?;
        for (point, place) in self.points.iter().zip(&self.places) {
            if (table.get(*place) == Some(&1)) != on {
                items.push(*point)?;
                on = !on;
            }
        }
        Ok(items)
    }
}

/// All values of `u8`.
pub fn all_u8(alloc: Global) -> Result<Vec<u8>, AllocError> {
    let mut values = Vec::new(alloc);
    for value in 0..=255u8 {
        values.push(value)?;
    }
    Ok(values)
}
