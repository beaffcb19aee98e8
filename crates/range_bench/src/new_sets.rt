//! New sets.
ghost use Rattle.std.specs.Prelude.{◌≡◌, false};
ghost use Rattle.std.specs.Ordering.{int_cmp};
ghost use Rattle.range_collections.specs.Boundaries.{IsAscending};

use crate::set::{Set, handed_over};
use range_collections::{
    Comparisons, DiffOp, IntersectionOp, MergeOperation, RangeSetRef, UnionOp, XorOp,
};
use std::alloc::{AllocError, Global};

/// The union, as a new set.
#[unsafe(no_mangle)]
pub extern "C" fn range_bench_union(
    alloc: Global,
    left: &[i64],
    right: &[i64],
    out: &mut [i64],
) -> usize
    requires left { IsAscending int_cmp left.now }
    requires right { IsAscending int_cmp right.now }
{
    handed_over(made(alloc, left, right, &UnionOp), out)
}

/// The intersection, as a new set.
#[unsafe(no_mangle)]
pub extern "C" fn range_bench_intersection(
    alloc: Global,
    left: &[i64],
    right: &[i64],
    out: &mut [i64],
) -> usize
    requires left { IsAscending int_cmp left.now }
    requires right { IsAscending int_cmp right.now }
{
    handed_over(made(alloc, left, right, &IntersectionOp), out)
}

/// The difference, as a new set.
#[unsafe(no_mangle)]
pub extern "C" fn range_bench_difference(
    alloc: Global,
    left: &[i64],
    right: &[i64],
    out: &mut [i64],
) -> usize
    requires left { IsAscending int_cmp left.now }
    requires right { IsAscending int_cmp right.now }
{
    handed_over(made(alloc, left, right, &DiffOp), out)
}

/// The symmetric difference, as a new set.
#[unsafe(no_mangle)]
pub extern "C" fn range_bench_symmetric_difference(
    alloc: Global,
    left: &[i64],
    right: &[i64],
    out: &mut [i64],
) -> usize
    requires left { IsAscending int_cmp left.now }
    requires right { IsAscending int_cmp right.now }
{
    handed_over(made(alloc, left, right, &XorOp), out)
}

// What the operation makes of two views.
#[inline(always)]
fn made<O: MergeOperation>(
    alloc: Global,
    left: &[i64],
    right: &[i64],
    op: &O,
) -> Result<Set, AllocError>
    requires off { O.connective op.now false false ≡ false }
    requires left { IsAscending int_cmp left.now }
    requires right { IsAscending int_cmp right.now }
{
    RangeSetRef::new_unchecked(left).merge_new(
        alloc,
        RangeSetRef::new_unchecked(right),
        op,
        &mut Comparisons::new(),
    )
}
