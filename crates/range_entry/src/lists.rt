//! Lists, ordered item by item. The empty list is the least value.
ghost use Rattle.std.specs.Prelude.{◌≡◌, ◌↔◌, [], ⊤, true, IsTrue, IsOk, IfOk};
ghost use Rattle.std.specs.List.{AllZip};
ghost use Rattle.std.specs.Cmp.Lexicographic.{slice_cmp};
ghost use Rattle.std.specs.declared.cmp.Ordering.TheVariants.{Equal};
ghost use Rattle.std.proofs.Common.{ap};
ghost use Rattle.range_entry.specs.Copies.{copies-equal, same_list-equal};
ghost use Rattle.range_entry.specs.Leasts.{empty_list, empty_reference, empty_list-lowest};

use crate::entry_clone::EntryClone;
use crate::range_set_entry::RangeSetEntry;
use std::alloc::{AllocError, Global};

/// Whether the list equals the empty one.
#[tactic(auto, using(crate::proofs::ItemOrder::empty_alone))]
pub(crate) fn is_empty_list<T: Ord>(list: &[T]) -> bool
    ensures { IsTrue result ↔ (slice_cmp T.cmp list.now [] ≡ Equal) }
{
    list.is_empty()
}

impl<T: Ord> RangeSetEntry for Vec<T> {
    ghost is_value = { λ _. ⊤ };

    ghost least = { empty_list };

    ghost is_min_infallible = { ⊥ };

    fn min_value(alloc: Global) -> Result<Vec<T>, AllocError> {
        Ok(Vec::new(alloc))
    }

    fn is_min_value(&self) -> bool {
        is_empty_list(self.as_slice())
    }

    fn known(&self) {}

    ghost least_is_value = { tt };

    ghost least_is_least = { λ x _. empty_list-lowest T.cmp x.items };
}

impl<T: EntryClone + Drop> EntryClone for Vec<T> {
    ghost is_infallible = { λ _. ⊥ };

    ghost is_copy = { λ xs ys. AllZip T.is_copy xs.items ys.items };

    /// A list of clones of the items, in their order.
    fn entry_clone(&self) -> Result<Vec<T>, AllocError> {
        let mut copied = Vec::with_capacity(*self.allocator(), self.len())?;
        for item in self {
            copied.push(item.entry_clone()?)?;
        }
        Ok(copied)
    }

    ghost copy_is_equal = { λ xs ys. copies-equal T.cmp T.is_copy T.copy_is_equal xs.items ys.items };
}

impl<T: Ord> RangeSetEntry for &[T] {
    ghost is_value = { λ _. ⊤ };

    ghost least = { empty_reference };

    ghost is_min_infallible = { ⊤ };

    fn min_value(_alloc: Global) -> Result<Self, AllocError> {
        Ok(&[])
    }

    fn is_min_value(&self) -> bool {
        is_empty_list(*self)
    }

    fn known(&self) {}

    ghost least_is_value = { tt };

    ghost least_is_least = { λ x _. empty_list-lowest T.cmp x.now };
}

impl<T: Ord> EntryClone for &[T] {
    ghost is_infallible = { λ _. ⊤ };

    ghost is_copy = { λ x y. y ≡ x };

    /// The same reference.
    #[tactic(auto, using(crate::proofs::ItemOrder::equals_itself))]
    #[inline(always)]
    fn entry_clone(&self) -> Result<Self, AllocError>
        ensures same { IfOk result (λ copied. slice_cmp T.cmp self.now.now copied.now ≡ Equal) }
        ensures copy { IfOk result (λ copied. copied ≡ self.now) }
        ensures succeeds { IsOk result }
        ensures same_reference { result ≡ Ok self.now }
    {
        Ok(*self)
    }

    #[inline(always)]
    fn all_infallible() -> bool
        ensures { result ≡ true }
    {
        true
    }

    ghost copy_is_equal = { λ x y e. same_list-equal T.cmp T.total x.now y.now (ap (λ z. z.now) e) };
}
