//! Made-up changes: a set in chunks has the ranges of a `RangeSet` that is changed alike, and
//! answers alike.
ghost use Rattle.std.specs.Prelude.{◌<◌};

use range_chunks::ChunkedRangeSet;
use range_collections::RangeSet2;
use range_tests_kit::generator::Generator;
use std::alloc::{AllocError, Global};
use std::ops::Range;

// Below which number the ends of a sequence's ranges lie, how many changes it has, and how often
// both sets are compared.
#[derive(Clone, Copy)]
struct Shape {
    limit: u64,
    changes: u64,
    every: u64,
}

// Short sequences, in which nearly all ranges touch others.
const SHORT: Shape = Shape {
    limit: 64,
    changes: 24,
    every: 1,
};

// Long ones, which fill many chunks, and empty some.
const LONG: Shape = Shape {
    limit: 65_536,
    changes: 6_000,
    every: 200,
};

// The next range below the limit: mostly a short one, now and then a long, an empty or a reversed
// one.
fn next_range(generator: &mut Generator, limit: u64) -> Range<u64>
    requires { 0 < limit }
{
    let start = generator.below(limit);
    let longest = match generator.below(64) {
        0 => limit,
        _ => 12,
    };
    let end = start.saturating_add(generator.below(longest)).min(limit);
    match generator.below(16) {
        0 => end..start,
        _ => start..end,
    }
}

// Whether both sets have the same ranges, read from the lowest on and from both ends.
pub(crate) fn are_alike(set: &ChunkedRangeSet<u64>, flat: &RangeSet2<u64>) -> bool {
    are_alike_by(set, flat, 1) && are_alike_by(set, flat, 3)
}

// The same, where one in `every` ranges is taken from the front and the others from the back.
fn are_alike_by(set: &ChunkedRangeSet<u64>, flat: &RangeSet2<u64>, every: usize) -> bool {
    let (mut these, mut those) = (set.iter(), flat.iter());
    for step in 0..=flat.boundaries().len() {
        let both = if step % every.max(1) == 0 {
            (these.next(), those.next())
        } else {
            (these.next_back(), those.next_back())
        };
        match both {
            (None, None) => return set.is_empty() == flat.is_empty(),
            (one, other) if one == other => {}
            _ => return false,
        }
    }
    false
}

// Whether both sets have the same ranges after each change, and the same members among the numbers
// that are drawn.
fn follow(alloc: Global, generator: &mut Generator, shape: Shape) -> Result<bool, AllocError> {
    let mut set = ChunkedRangeSet::new(alloc);
    let mut flat = RangeSet2::empty(alloc);
    for change in 0..shape.changes {
        let range = next_range(generator, shape.limit.max(1));
        if generator.below(3) == 0 {
            set.remove(range.start..range.end)?;
            flat.remove(range)?;
        } else {
            set.insert(range.start..range.end)?;
            flat.insert(range)?;
        }
        let number = generator.below(shape.limit.max(1));
        if set.contains(&number) != flat.contains(&number) {
            return Ok(false);
        }
        if change % shape.every.max(1) == 0 && !are_alike_by(&set, &flat, 1) {
            return Ok(false);
        }
    }
    let alike = are_alike(&set, &flat);
    set.clear();
    Ok(alike && set.is_empty())
}

#[test]
fn short_sequences_change_both_alike(rt: HostRuntime) -> Result<(), AllocError> {
    let mut generator = Generator::new();
    for sequence in 0..10_000u64 {
        let alike = follow(rt.alloc(), &mut generator, SHORT)?;
        assert!(rt; alike, "{sequence}");
    }
    Ok(())
}

#[test]
fn long_sequences_change_both_alike(rt: HostRuntime) -> Result<(), AllocError> {
    let mut generator = Generator::new();
    for sequence in 0..40u64 {
        let alike = follow(rt.alloc(), &mut generator, LONG)?;
        assert!(rt; alike, "{sequence}");
    }
    Ok(())
}
