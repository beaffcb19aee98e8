//! Options. `None` is the least value, below every `Some`.
ghost use Rattle.std.specs.Prelude.{⊤, None, IfSome};
ghost use Rattle.range_entry.specs.Copies.{IsOptionCopy, option_copy-equal};
ghost use Rattle.range_entry.specs.Leasts.{None-lowest};

use crate::entry_clone::EntryClone;
use crate::range_set_entry::RangeSetEntry;
use std::alloc::{AllocError, Global};

impl<T: Ord> RangeSetEntry for Option<T> {
    ghost is_value = { λ _. ⊤ };

    ghost least = { None };

    ghost is_min_infallible = { ⊤ };

    fn min_value(_alloc: Global) -> Result<Option<T>, AllocError> {
        Ok(None)
    }

    fn is_min_value(&self) -> bool {
        self.is_none()
    }

    fn known(&self) {}

    ghost least_is_value = { tt };

    ghost least_is_least = { λ x _. None-lowest T.cmp x };
}

/// `None`, or `Some` of a clone of what it holds.
impl<T: EntryClone> EntryClone for Option<T> {
    ghost is_infallible = { λ x. IfSome x T.is_infallible };

    ghost is_copy = { IsOptionCopy T.is_copy };

    fn entry_clone(&self) -> Result<Option<T>, AllocError> {
        match self {
            None => Ok(None),
            Some(held) => Ok(Some(held.entry_clone()?)),
        }
    }

    ghost copy_is_equal = { option_copy-equal T.cmp T.is_copy T.copy_is_equal };
}
