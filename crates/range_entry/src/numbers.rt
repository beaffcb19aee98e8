//! Whole numbers. Each type says what its least number is and which numbers it has; the rest is
//! written once.
ghost use Rattle.std.specs.Prelude.{◌≡◌, ◌≢◌, ◌^◌, ◌-◌, ◌<◌, ⊤, true, negsuc, FitsSigned};
ghost use Rattle.std.specs.Int.{w8, w16, w32, w64, w128};
ghost use Rattle.std.specs.declared.cmp.Ordering.TheVariants.{Less};
ghost use Rattle.std.proofs.Common.{rules};
ghost use Rattle.range_entry.specs.Copies.{same-equal};

use crate::entry_clone::EntryClone;
use crate::range_set_entry::RangeSetEntry;
use std::alloc::{AllocError, Global};

/// A type of whole numbers.
pub trait Number: Ord + Copy {
    /// The least number of the type.
    const LEAST: Self;

    ghost LEAST: { Self };

    // The number is one that the type has.
    ghost in_range: { Self → Type 0 };

    /// Does nothing. A caller learns that the number is one that the type has.
    fn known_in_range(&self)
        ensures { in_range self.now };

    // The type has its least number.
    ghost least_in_range: { in_range LEAST };

    // No number of the type is below it.
    ghost least_is_lowest: { (x : Self) → in_range x → Self.cmp x LEAST ≢ Less };
}

impl<T: Number> RangeSetEntry for T {
    ghost is_value = { T.in_range };

    ghost least = { T.LEAST };

    ghost is_min_infallible = { ⊤ };

    fn min_value(_alloc: Global) -> Result<T, AllocError> {
        Ok(T::LEAST)
    }

    fn is_min_value(&self) -> bool {
        self.cmp(&T::LEAST).is_eq()
    }

    fn known(&self) {
        self.known_in_range();
    }

    ghost least_is_value = { T.least_in_range };

    ghost least_is_least = { T.least_is_lowest };
}

impl<T: Number> EntryClone for T {
    ghost is_infallible = { λ _. ⊤ };

    ghost is_copy = { λ x y. y ≡ x };

    /// The number itself.
    #[inline(always)]
    fn entry_clone(&self) -> Result<T, AllocError>
        ensures { result ≡ Ok self.now }
    {
        Ok(*self)
    }

    #[inline(always)]
    fn all_infallible() -> bool
        ensures { result ≡ true }
    {
        Self::is_plain()
    }

    #[inline(always)]
    fn is_plain() -> bool
        ensures { result ≡ true }
    {
        true
    }

    /// All at once.
    #[inline(always)]
    fn append_clones(list: &mut Vec<T>, items: &[T]) -> Result<(), AllocError> {
        list.extend_from_slice(items)?;
        Ok(())
    }

    ghost copy_is_equal = { same-equal T.cmp T.total };
}

impl Number for u8 {
    const LEAST: u8 = 0;

    ghost LEAST = { 0 };

    ghost in_range = { λ x. x < 2 ^ 8 };

    fn known_in_range(&self) {
        let _number = *self;
    }

    ghost least_in_range = { Prim.search rules };

    ghost least_is_lowest = { Prim.search rules };
}

impl Number for u16 {
    const LEAST: u16 = 0;

    ghost LEAST = { 0 };

    ghost in_range = { λ x. x < 2 ^ 16 };

    fn known_in_range(&self) {
        let _number = *self;
    }

    ghost least_in_range = { Prim.search rules };

    ghost least_is_lowest = { Prim.search rules };
}

impl Number for u32 {
    const LEAST: u32 = 0;

    ghost LEAST = { 0 };

    ghost in_range = { λ x. x < 2 ^ 32 };

    fn known_in_range(&self) {
        let _number = *self;
    }

    ghost least_in_range = { Prim.search rules };

    ghost least_is_lowest = { Prim.search rules };
}

impl Number for u64 {
    const LEAST: u64 = 0;

    ghost LEAST = { 0 };

    ghost in_range = { λ x. x < 2 ^ 64 };

    fn known_in_range(&self) {
        let _number = *self;
    }

    ghost least_in_range = { Prim.search rules };

    ghost least_is_lowest = { Prim.search rules };
}

impl Number for u128 {
    const LEAST: u128 = 0;

    ghost LEAST = { 0 };

    ghost in_range = { λ x. x < 2 ^ 128 };

    fn known_in_range(&self) {
        let _number = *self;
    }

    ghost least_in_range = { Prim.search rules };

    ghost least_is_lowest = { Prim.search rules };
}

impl Number for usize {
    const LEAST: usize = 0;

    ghost LEAST = { 0 };

    ghost in_range = { λ x. x < 2 ^ 64 };

    fn known_in_range(&self) {
        let _number = *self;
    }

    ghost least_in_range = { Prim.search rules };

    ghost least_is_lowest = { Prim.search rules };
}

impl Number for i8 {
    const LEAST: i8 = i8::MIN;

    ghost LEAST = { negsuc (2 ^ 7 - 1) };

    ghost in_range = { λ x. FitsSigned w8 x };

    fn known_in_range(&self) {
        let _number = *self;
    }

    ghost least_in_range = { Prim.search rules };

    ghost least_is_lowest = { Prim.search rules };
}

impl Number for i16 {
    const LEAST: i16 = i16::MIN;

    ghost LEAST = { negsuc (2 ^ 15 - 1) };

    ghost in_range = { λ x. FitsSigned w16 x };

    fn known_in_range(&self) {
        let _number = *self;
    }

    ghost least_in_range = { Prim.search rules };

    ghost least_is_lowest = { Prim.search rules };
}

impl Number for i32 {
    const LEAST: i32 = i32::MIN;

    ghost LEAST = { negsuc (2 ^ 31 - 1) };

    ghost in_range = { λ x. FitsSigned w32 x };

    fn known_in_range(&self) {
        let _number = *self;
    }

    ghost least_in_range = { Prim.search rules };

    ghost least_is_lowest = { Prim.search rules };
}

impl Number for i64 {
    const LEAST: i64 = i64::MIN;

    ghost LEAST = { negsuc (2 ^ 63 - 1) };

    ghost in_range = { λ x. FitsSigned w64 x };

    fn known_in_range(&self) {
        let _number = *self;
    }

    ghost least_in_range = { Prim.search rules };

    ghost least_is_lowest = { Prim.search rules };
}

impl Number for i128 {
    const LEAST: i128 = i128::MIN;

    ghost LEAST = { negsuc (2 ^ 127 - 1) };

    ghost in_range = { λ x. FitsSigned w128 x };

    fn known_in_range(&self) {
        let _number = *self;
    }

    ghost least_in_range = { Prim.search rules };

    ghost least_is_lowest = { Prim.search rules };
}

impl Number for isize {
    const LEAST: isize = isize::MIN;

    ghost LEAST = { negsuc (2 ^ 63 - 1) };

    ghost in_range = { λ x. FitsSigned w64 x };

    fn known_in_range(&self) {
        let _number = *self;
    }

    ghost least_in_range = { Prim.search rules };

    ghost least_is_lowest = { Prim.search rules };
}
