//! A type of one value.
ghost use Rattle.std.specs.Prelude.{◌≡◌, ⊤};
ghost use Rattle.std.proofs.Common.{rules};
ghost use Rattle.std.specs.Cmp.Rules.{comparing};
ghost use Rattle.range_entry.specs.Copies.{same-equal};

use range_entry::{EntryClone, RangeSetEntry};
use std::alloc::{AllocError, Global};

#[derive(Clone, Copy, Default, PartialEq, Eq, PartialOrd, Ord)]
pub struct Only;

impl RangeSetEntry for Only {
    ghost is_value = { λ _. ⊤ };

    ghost least = { record {} };

    ghost is_min_infallible = { ⊤ };

    fn min_value(_alloc: Global) -> Result<Only, AllocError> {
        Ok(Only)
    }

    fn is_min_value(&self) -> bool {
        true
    }

    fn known(&self) {}

    ghost least_is_value = { Prim.search rules };

    ghost least_is_least = { Prim.search rules };
}

impl EntryClone for Only {
    ghost is_infallible = { λ _. ⊤ };

    ghost is_copy = { λ x y. y ≡ x };

    fn entry_clone(&self) -> Result<Only, AllocError> {
        Ok(Only)
    }

    ghost copy_is_equal = { same-equal Self.cmp (Prim.search (comparing, rules)) };
}
