//! A number from 0 to 255 in the reversed order, so that 255 is the least value.
ghost use Rattle.std.specs.Prelude.{◌≡◌, ◌<◌, ◌^◌, ⊤};
ghost use Rattle.std.proofs.Common.{rules};
ghost use Rattle.std.specs.Cmp.Rules.{comparing};
ghost use Rattle.range_entry.specs.Copies.{same-equal};

use range_entry::{EntryClone, RangeSetEntry};
use std::alloc::{AllocError, Global};
use std::cmp::Reverse;
use std::default::MadeWith;

#[derive(Copy, PartialEq, Eq, PartialOrd, Ord)]
pub struct Back {
    number: Reverse<u8>,
}

/// The number, in its place from the end.
pub fn from_end(number: u8) -> Back {
    Back {
        number: Reverse(number),
    }
}

impl Clone for Back {
    ghost is_clone = { λ x y. y ≡ x };

    ghost is_infallible = { λ _. ⊤ };

    fn clone(&self) -> Result<Back, AllocError> {
        Ok(*self)
    }
}

impl MadeWith<Global> for Back {
    ghost is_made_with = { λ made. ⊤ };

    fn made_with(_alloc: Global) -> Back {
        from_end(255)
    }
}

impl RangeSetEntry for Back {
    ghost is_value = { λ x. x.number.0 < 2 ^ 8 };

    ghost least = { record { number = record { 0 = 255 } } };

    ghost is_min_infallible = { ⊤ };

    fn min_value(_alloc: Global) -> Result<Back, AllocError> {
        Ok(Back {
            number: Reverse(255),
        })
    }

    fn is_min_value(&self) -> bool {
        self.cmp(&Back {
            number: Reverse(255),
        })
        .is_eq()
    }

    fn known(&self) {
        let _number = self.number.0;
    }

    ghost least_is_value = { Prim.search rules };

    ghost least_is_least = { Prim.search rules };
}

impl EntryClone for Back {
    ghost is_infallible = { λ _. ⊤ };

    ghost is_copy = { λ x y. y ≡ x };

    fn entry_clone(&self) -> Result<Back, AllocError> {
        Ok(*self)
    }

    ghost copy_is_equal = { same-equal Self.cmp (Prim.search (comparing, rules)) };
}
