//! The sets that the exports make, and how they cross.
ghost use Rattle.std.specs.Prelude.{◌≡◌, IfOk};
ghost use Rattle.std.specs.Ordering.{int_cmp};
ghost use Rattle.range_collections.specs.Boundaries.{IsAscending};

use range_collections::RangeSet2;
use smallvec::SmallVec;
use std::alloc::{AllocError, Global};

/// A set with one range in the value itself.
pub(crate) type Set = RangeSet2<i64>;

/// The set with these boundaries.
#[inline(always)]
pub(crate) fn owned(alloc: Global, boundaries: &[i64]) -> Result<Set, AllocError>
    requires { IsAscending int_cmp boundaries.now }
    ensures { IfOk result (λ set. set ≡ boundaries.now) }
{
    Ok(Set::new_unchecked(SmallVec::from_slice(alloc, boundaries)?))
}

/// Writes the front of the set's boundaries and returns how many there are.
#[inline(always)]
pub(crate) fn handed_over(made: Result<Set, AllocError>, out: &mut [i64]) -> usize {
    match made {
        Ok(set) => {
            write_front(set.boundaries(), out);
            set.boundaries().len()
        }
        Err(_) => usize::MAX,
    }
}

// Writes as many of the items as there is room for.
fn write_front(items: &[i64], out: &mut [i64]) {
    for (place, item) in out.iter_mut().zip(items) {
        *place = *item;
    }
}
