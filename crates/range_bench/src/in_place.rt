//! Sets changed in place. Each export copies what it changes or gives away: `range_bench_copy` and
//! `range_bench_copies` do that alone, so that their time can be taken off.
ghost use Rattle.std.specs.Prelude.{◌≡◌, false};
ghost use Rattle.std.specs.Ordering.{int_cmp};
ghost use Rattle.range_collections.specs.Boundaries.{IsAscending};

use crate::set::{Set, handed_over, owned};
use range_collections::{
    Comparisons, DiffOp, IntersectionOp, MergeOperation, RangeSetRef, UnionOp, XorOp,
};
use std::alloc::{AllocError, Global};

/// A set, and nothing done to it.
#[unsafe(no_mangle)]
pub extern "C" fn range_bench_copy(alloc: Global, left: &[i64], out: &mut [i64]) -> usize
    requires { IsAscending int_cmp left.now }
{
    handed_over(owned(alloc, left), out)
}

/// Two sets, and nothing done to them.
#[unsafe(no_mangle)]
pub extern "C" fn range_bench_copies(
    alloc: Global,
    left: &[i64],
    right: &[i64],
    out: &mut [i64],
) -> usize
    requires left { IsAscending int_cmp left.now }
    requires right { IsAscending int_cmp right.now }
{
    let made = owned(alloc, left);
    let _right = owned(alloc, right);
    handed_over(made, out)
}

/// The union with a view, in place.
#[unsafe(no_mangle)]
pub extern "C" fn range_bench_union_borrowed(
    alloc: Global,
    left: &[i64],
    right: &[i64],
    out: &mut [i64],
) -> usize
    requires left { IsAscending int_cmp left.now }
    requires right { IsAscending int_cmp right.now }
{
    handed_over(changed_by_view(alloc, left, right, &UnionOp), out)
}

/// The intersection with a view, in place.
#[unsafe(no_mangle)]
pub extern "C" fn range_bench_intersection_borrowed(
    alloc: Global,
    left: &[i64],
    right: &[i64],
    out: &mut [i64],
) -> usize
    requires left { IsAscending int_cmp left.now }
    requires right { IsAscending int_cmp right.now }
{
    handed_over(changed_by_view(alloc, left, right, &IntersectionOp), out)
}

/// The difference from a view, in place.
#[unsafe(no_mangle)]
pub extern "C" fn range_bench_difference_borrowed(
    alloc: Global,
    left: &[i64],
    right: &[i64],
    out: &mut [i64],
) -> usize
    requires left { IsAscending int_cmp left.now }
    requires right { IsAscending int_cmp right.now }
{
    handed_over(changed_by_view(alloc, left, right, &DiffOp), out)
}

/// The symmetric difference with a view, in place.
#[unsafe(no_mangle)]
pub extern "C" fn range_bench_symmetric_difference_borrowed(
    alloc: Global,
    left: &[i64],
    right: &[i64],
    out: &mut [i64],
) -> usize
    requires left { IsAscending int_cmp left.now }
    requires right { IsAscending int_cmp right.now }
{
    handed_over(changed_by_view(alloc, left, right, &XorOp), out)
}

/// The union with an owned set, in place.
#[unsafe(no_mangle)]
pub extern "C" fn range_bench_union_owned(
    alloc: Global,
    left: &[i64],
    right: &[i64],
    out: &mut [i64],
) -> usize
    requires left { IsAscending int_cmp left.now }
    requires right { IsAscending int_cmp right.now }
{
    handed_over(changed_by_owned(alloc, left, right, &UnionOp), out)
}

/// The intersection with an owned set, in place.
#[unsafe(no_mangle)]
pub extern "C" fn range_bench_intersection_owned(
    alloc: Global,
    left: &[i64],
    right: &[i64],
    out: &mut [i64],
) -> usize
    requires left { IsAscending int_cmp left.now }
    requires right { IsAscending int_cmp right.now }
{
    handed_over(changed_by_owned(alloc, left, right, &IntersectionOp), out)
}

/// The difference from an owned set, in place.
#[unsafe(no_mangle)]
pub extern "C" fn range_bench_difference_owned(
    alloc: Global,
    left: &[i64],
    right: &[i64],
    out: &mut [i64],
) -> usize
    requires left { IsAscending int_cmp left.now }
    requires right { IsAscending int_cmp right.now }
{
    handed_over(changed_by_owned(alloc, left, right, &DiffOp), out)
}

/// The symmetric difference with an owned set, in place.
#[unsafe(no_mangle)]
pub extern "C" fn range_bench_symmetric_difference_owned(
    alloc: Global,
    left: &[i64],
    right: &[i64],
    out: &mut [i64],
) -> usize
    requires left { IsAscending int_cmp left.now }
    requires right { IsAscending int_cmp right.now }
{
    handed_over(changed_by_owned(alloc, left, right, &XorOp), out)
}

// A copy of the left, changed by a view of the right.
#[inline(always)]
fn changed_by_view<O: MergeOperation>(
    alloc: Global,
    left: &[i64],
    right: &[i64],
    op: &O,
) -> Result<Set, AllocError>
    requires off { O.connective op.now false false ≡ false }
    requires left { IsAscending int_cmp left.now }
    requires right { IsAscending int_cmp right.now }
{
    let mut set = owned(alloc, left)?;
    set.merge_ref(
        RangeSetRef::new_unchecked(right),
        op,
        &mut Comparisons::new(),
    )?;
    Ok(set)
}

// A copy of the left, changed by an owned copy of the right.
#[inline(always)]
fn changed_by_owned<O: MergeOperation>(
    alloc: Global,
    left: &[i64],
    right: &[i64],
    op: &O,
) -> Result<Set, AllocError>
    requires off { O.connective op.now false false ≡ false }
    requires left { IsAscending int_cmp left.now }
    requires right { IsAscending int_cmp right.now }
{
    let mut set = owned(alloc, left)?;
    let that = owned(alloc, right)?;
    match set.merge_owned(that, op, &mut Comparisons::new()) {
        Ok(()) => Ok(set),
        Err((error, _that)) => Err(error),
    }
}
