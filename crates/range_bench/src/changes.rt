//! Ranges put into a set and taken out of it, one after the other.
ghost use Rattle.std.specs.Ordering.{int_cmp};
ghost use Rattle.range_collections.specs.Boundaries.{IsAscending};

use crate::set::{Set, handed_over, owned};
use range_collections::RangeSetRange;
use std::alloc::{AllocError, Global};

/// A copy of the set with each range put in: from each of the starts up to the end at its place.
#[unsafe(no_mangle)]
pub extern "C" fn range_bench_insert(
    alloc: Global,
    left: &[i64],
    starts: &[i64],
    ends: &[i64],
    out: &mut [i64],
) -> usize
    requires { IsAscending int_cmp left.now }
{
    handed_over(inserted(alloc, left, starts, ends), out)
}

/// A copy of the set with each range taken out: from each of the starts up to the end at its place.
#[unsafe(no_mangle)]
pub extern "C" fn range_bench_remove(
    alloc: Global,
    left: &[i64],
    starts: &[i64],
    ends: &[i64],
    out: &mut [i64],
) -> usize
    requires { IsAscending int_cmp left.now }
{
    handed_over(removed(alloc, left, starts, ends), out)
}

/// A copy of the set with all the ranges put in at once: the set that they make is united with it.
#[unsafe(no_mangle)]
pub extern "C" fn range_bench_insert_all(
    alloc: Global,
    left: &[i64],
    starts: &[i64],
    ends: &[i64],
    out: &mut [i64],
) -> usize
    requires { IsAscending int_cmp left.now }
{
    handed_over(united(alloc, left, starts, ends), out)
}

#[inline(always)]
fn united(alloc: Global, left: &[i64], starts: &[i64], ends: &[i64]) -> Result<Set, AllocError>
    requires { IsAscending int_cmp left.now }
{
    let mut set = owned(alloc, left)?;
    let ranges = ranges_of(alloc, starts, ends)?;
    let all = Set::from_ranges(alloc, &ranges)?;
    set.union_with(all.as_ref())?;
    Ok(set)
}

fn ranges_of(
    alloc: Global,
    starts: &[i64],
    ends: &[i64],
) -> Result<Vec<RangeSetRange<i64>>, AllocError> {
    let mut ranges = Vec::with_capacity(alloc, starts.len())?;
    for (start, end) in starts.iter().zip(ends) {
        ranges.push(RangeSetRange::Range(*start..*end))?;
    }
    Ok(ranges)
}

#[inline(always)]
fn inserted(alloc: Global, left: &[i64], starts: &[i64], ends: &[i64]) -> Result<Set, AllocError>
    requires { IsAscending int_cmp left.now }
{
    let mut set = owned(alloc, left)?;
    for (start, end) in starts.iter().zip(ends) {
        set.insert(*start..*end)?;
    }
    Ok(set)
}

#[inline(always)]
fn removed(alloc: Global, left: &[i64], starts: &[i64], ends: &[i64]) -> Result<Set, AllocError>
    requires { IsAscending int_cmp left.now }
{
    let mut set = owned(alloc, left)?;
    for (start, end) in starts.iter().zip(ends) {
        set.remove(*start..*end)?;
    }
    Ok(set)
}
