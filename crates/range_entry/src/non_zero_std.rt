//! The library's own whole numbers other than 0. They have no default value, so a slice can hold
//! them and a list with room inside itself can't.
ghost use Rattle.std.specs.Prelude.{◌^◌, ◌<◌};
ghost use Rattle.std.specs.Int.NonZero.{non_zero_u8_get, non_zero_u16_get, non_zero_u32_get, non_zero_u64_get, non_zero_u128_get, non_zero_usize_get};
ghost use Rattle.std.proofs.Common.{rules, lit<};

use crate::numbers::Number;
use std::num::{NonZeroU8, NonZeroU16, NonZeroU32, NonZeroU64, NonZeroU128, NonZeroUsize};

impl Number for NonZeroU8 {
    const LEAST: NonZeroU8 = NonZeroU8::MIN;

    ghost LEAST = { record { value = 1; ok = lit< tt } };

    ghost in_range = { λ x. (0 < non_zero_u8_get x) × (non_zero_u8_get x < 2 ^ 8) };

    fn known_in_range(&self) {
        let _number = self.get();
    }

    ghost least_in_range = { Prim.search rules };

    ghost least_is_lowest = { Prim.search rules };
}

impl Number for NonZeroU16 {
    const LEAST: NonZeroU16 = NonZeroU16::MIN;

    ghost LEAST = { record { value = 1; ok = lit< tt } };

    ghost in_range = { λ x. (0 < non_zero_u16_get x) × (non_zero_u16_get x < 2 ^ 16) };

    fn known_in_range(&self) {
        let _number = self.get();
    }

    ghost least_in_range = { Prim.search rules };

    ghost least_is_lowest = { Prim.search rules };
}

impl Number for NonZeroU32 {
    const LEAST: NonZeroU32 = NonZeroU32::MIN;

    ghost LEAST = { record { value = 1; ok = lit< tt } };

    ghost in_range = { λ x. (0 < non_zero_u32_get x) × (non_zero_u32_get x < 2 ^ 32) };

    fn known_in_range(&self) {
        let _number = self.get();
    }

    ghost least_in_range = { Prim.search rules };

    ghost least_is_lowest = { Prim.search rules };
}

impl Number for NonZeroU64 {
    const LEAST: NonZeroU64 = NonZeroU64::MIN;

    ghost LEAST = { record { value = 1; ok = lit< tt } };

    ghost in_range = { λ x. (0 < non_zero_u64_get x) × (non_zero_u64_get x < 2 ^ 64) };

    fn known_in_range(&self) {
        let _number = self.get();
    }

    ghost least_in_range = { Prim.search rules };

    ghost least_is_lowest = { Prim.search rules };
}

impl Number for NonZeroU128 {
    const LEAST: NonZeroU128 = NonZeroU128::MIN;

    ghost LEAST = { record { value = 1; ok = lit< tt } };

    ghost in_range = { λ x. (0 < non_zero_u128_get x) × (non_zero_u128_get x < 2 ^ 128) };

    fn known_in_range(&self) {
        let _number = self.get();
    }

    ghost least_in_range = { Prim.search rules };

    ghost least_is_lowest = { Prim.search rules };
}

impl Number for NonZeroUsize {
    const LEAST: NonZeroUsize = NonZeroUsize::MIN;

    ghost LEAST = { record { value = 1; ok = lit< tt } };

    ghost in_range = { λ x. (0 < non_zero_usize_get x) × (non_zero_usize_get x < 2 ^ 64) };

    fn known_in_range(&self) {
        let _number = self.get();
    }

    ghost least_in_range = { Prim.search rules };

    ghost least_is_lowest = { Prim.search rules };
}
