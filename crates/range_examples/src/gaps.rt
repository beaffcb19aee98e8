//! Numbers that come out of order, and the gaps between them.
ghost use Rattle.std.specs.Prelude.{◌≡◌, ◌↔◌, ◌&&◌, ℤ, not, IsTrue, IsOk, IfOk};
ghost use Rattle.std.specs.Ordering.{int_cmp, is_le, is_lt};
ghost use Rattle.range_collections.specs.Boundaries.{member};
ghost use Rattle.range_collections.specs.Sets.{IsSubset};
ghost use Rattle.range_collections.specs.Ranges.{range_items};
ghost use Rattle.range_collections.specs.Connective.{Means, difference_table};

use range_collections::{Gaps, RangeSet, RangeSet2};
use std::alloc::{AllocError, Global};
use std::ops::Range;

/// Numbers. Up to four ranges lie in the value itself.
pub type Numbers = RangeSet<i64, 8>;

/// The numbers from the start up to the end that are not there.
pub fn missing_between(
    alloc: Global,
    there: &Numbers,
    ends: Range<i64>,
) -> Result<Numbers, AllocError>
    ensures { IfOk result (λ missing. Means int_cmp difference_table missing
        (range_items int_cmp ends.start ends.end) there.now) }
{
    Numbers::from_range(alloc, ends)?.difference(there.as_ref())
}

/// Whether each number from the start up to the end is there. A set of one range takes no memory,
/// so this never fails.
pub fn has_all(alloc: Global, there: &Numbers, ends: Range<i64>) -> Result<bool, AllocError>
    ensures all { IfOk result (λ come.
        IsTrue come ↔ IsSubset int_cmp (range_items int_cmp ends.start ends.end) there.now) }
    ensures succeeds { IsOk result }
{
    let wanted = RangeSet2::from_range(alloc, ends)?;
    Ok(there.is_superset(wanted.as_ref()))
}

/// The ranges of the numbers from the start up to the end that are not there. It takes no memory.
pub fn gaps_between<'a>(there: &'a Numbers, ends: Range<&'a i64>) -> Gaps<'a, i64>
    ensures members { (n : ℤ) → member int_cmp result n ≡
        ((is_le (int_cmp ends.entry.start.now n) && is_lt (int_cmp n ends.entry.end.now))
        && not (member int_cmp there.now n)) }
{
    there.gaps(ends)
}
