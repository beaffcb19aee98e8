//! Copies of a set and of a list of boundaries, made by any copier.
ghost use Rattle.std.specs.Prelude.{◌≡◌, ◌≤◌, All, length, IsOk, IfOk};
ghost use Rattle.std.specs.List.{AllZip};
ghost use Rattle.std.specs.declared.cmp.Ordering.TheVariants.{Equal};

use crate::range_set::RangeSet;
use crate::view::RangeSetRef;
use range_merge::Copier;
use smallvec::SmallVec;
use std::alloc::{AllocError, Global};
use std::default::MadeWith;

// The set with a copy of each boundary of the view.
pub(super) fn copied<T: Ord + MadeWith<Global> + Drop, C: Copier<T>, const N: usize>(
    alloc: Global,
    set: RangeSetRef<T>,
    copier: &C,
) -> Result<RangeSet<T, N>, AllocError>
    requires copies { (x y : T) → C.alike x y → T.cmp x y ≡ Equal }
    ensures copies { IfOk result (λ made. AllZip C.alike set.entry.boundaries.now made) }
    ensures succeeds { length set.entry.boundaries.now ≤ N →
        All C.is_infallible set.entry.boundaries.now → IsOk result }
{
    Ok(RangeSet::new_unchecked(copies(alloc, set.boundaries, copier)?))
}

// A list of copies of the items, in their order. It asks for room once.
pub(crate) fn copies<T: MadeWith<Global> + Drop, C: Copier<T>, const N: usize>(
    alloc: Global,
    items: &[T],
    copier: &C,
) -> Result<SmallVec<T, N>, AllocError>
    ensures copies { IfOk result (λ list. AllZip C.alike items.now list.items) }
    ensures succeeds { length items.now ≤ N → All C.is_infallible items.now → IsOk result }
{
    if items.len() <= N {
        return copies_inline(alloc, items, copier);
    }
    let mut list = Vec::with_capacity(alloc, items.len())?;
    copier.append(&mut list, items)?;
    Ok(SmallVec::from_vec(list))
}

// Copies of so few items that they have room inline.
fn copies_inline<T: MadeWith<Global> + Drop, C: Copier<T>, const N: usize>(
    alloc: Global,
    items: &[T],
    copier: &C,
) -> Result<SmallVec<T, N>, AllocError>
    requires { length items.now ≤ N }
    ensures copies { IfOk result (λ list. AllZip C.alike items.now list.items) }
    ensures succeeds { All C.is_infallible items.now → IsOk result }
{
    let mut list = SmallVec::new(alloc);
    for item in items {
        list.push_reserved(copier.copy(item)?);
    }
    Ok(list)
}
