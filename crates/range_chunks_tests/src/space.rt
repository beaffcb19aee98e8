//! A space that remembers its gaps finds what a `RangeSet` finds that reads each of them.
ghost use Rattle.std.specs.Prelude.{◌<◌};

use crate::made_up::are_alike;
use range_chunks::{ChunkedRangeSet, ChunkedSpace};
use range_collections::RangeSet2;
use range_tests_kit::generator::Generator;
use std::alloc::{AllocError, Global};
use std::ops::Range;

// Below which number the ends of a sequence's ranges lie, how long these and what is looked for are
// at most, how many changes there are, and of how many one frees.
#[derive(Clone, Copy)]
struct Shape {
    limit: u64,
    longest: u64,
    changes: u64,
    one_frees_of: u64,
}

// Short sequences, in which nearly all ranges touch others.
const SHORT: Shape = Shape {
    limit: 64,
    longest: 12,
    changes: 24,
    one_frees_of: 3,
};

// Long ones: what is remembered is of several parts, which are split and forgotten.
const LONG: Shape = Shape {
    limit: 65_536,
    longest: 8,
    changes: 16_000,
    one_frees_of: 3,
};

// The next range below the limit: mostly a short one, now and then a long, an empty or a reversed
// one.
fn next_range(generator: &mut Generator, shape: Shape) -> Range<u64> {
    let limit = shape.limit.max(1);
    let start = generator.below(limit);
    let longest = match generator.below(256) {
        0 => limit,
        _ => shape.longest.max(1),
    };
    let end = start.saturating_add(generator.below(longest)).min(limit);
    match generator.below(16) {
        0 => end..start,
        _ => start..end,
    }
}

// The range that is looked at next: mostly all numbers below the limit.
fn next_within(generator: &mut Generator, shape: Shape) -> Range<u64> {
    match generator.below(4) {
        0 => next_range(generator, shape),
        1 => generator.below(shape.limit.max(1))..shape.limit,
        _ => 0..shape.limit,
    }
}

// Frees the members of another set or takes them, in the space and in the set alike.
fn change_by_all(
    space: &mut ChunkedSpace<u64>,
    flat: &mut RangeSet2<u64>,
    those: &RangeSet2<u64>,
    frees: bool,
) -> Result<(), AllocError> {
    if frees {
        space.remove_all(those.as_ref())?;
        flat.difference_with(those.as_ref())
    } else {
        space.insert_all(those.as_ref())?;
        flat.union_with(those.as_ref())
    }
}

// Changes the space and the set alike.
fn change(
    alloc: Global,
    generator: &mut Generator,
    shape: Shape,
    space: &mut ChunkedSpace<u64>,
    flat: &mut RangeSet2<u64>,
) -> Result<(), AllocError> {
    let range = next_range(generator, shape);
    if generator.below(4_000) == 0 {
        let freed = RangeSet2::from_range_from(alloc, range.start..)?;
        space.remove_from(range.start..)?;
        return flat.difference_with(freed.as_ref());
    }
    if generator.below(4_000) == 0 {
        let taken = RangeSet2::from_range_from(alloc, range.start..)?;
        space.insert_from(range.start..)?;
        return flat.union_with(taken.as_ref());
    }
    if generator.below(200) == 0 {
        let mut both = RangeSet2::from_range(alloc, range)?;
        both.insert(next_range(generator, shape))?;
        return change_by_all(space, flat, &both, generator.below(2) == 0);
    }
    if generator.below(shape.one_frees_of.max(1)) == 0 {
        space.remove(range.start..range.end)?;
        flat.remove(range)
    } else {
        space.insert(range.start..range.end)?;
        flat.insert(range)
    }
}

// Whether the space finds what the set finds, after each change.
fn follow(alloc: Global, generator: &mut Generator, shape: Shape) -> Result<bool, AllocError> {
    let mut space = ChunkedSpace::new(alloc);
    let mut flat = RangeSet2::empty(alloc);
    for _ in 0..shape.changes {
        change(alloc, generator, shape, &mut space, &mut flat)?;
        let within = next_within(generator, shape);
        let len = generator.below(shape.longest.max(1));
        let found = space.first_fit(within.start..within.end, len);
        if found != flat.first_fit(within.start..within.end, len) {
            return Ok(false);
        }
        let (count, align) = (u128::from(len), u128::from(generator.below(5)));
        let found = space.first_fit_aligned(within.start..within.end, count, align);
        if found != flat.first_fit_aligned(within, count, align) {
            return Ok(false);
        }
    }
    let alike = are_alike(space.as_set(), &flat);
    space.clear();
    Ok(alike && space.first_fit(0..shape.limit, shape.limit) == Some(0))
}

#[test]
fn short_sequences_find_alike(rt: HostRuntime) -> Result<(), AllocError> {
    let mut generator = Generator::new();
    for sequence in 0..10_000u64 {
        let alike = follow(rt.alloc(), &mut generator, SHORT)?;
        assert!(rt; alike, "{sequence}");
    }
    Ok(())
}

#[test]
fn long_sequences_find_alike(rt: HostRuntime) -> Result<(), AllocError> {
    let mut generator = Generator::new();
    for sequence in 0..4u64 {
        let alike = follow(rt.alloc(), &mut generator, LONG)?;
        assert!(rt; alike, "{sequence}");
    }
    Ok(())
}
