//! Whole numbers in a row: from 0 up each is its own place, and with a sign the least one stands at
//! place 0.
ghost use Rattle.std.specs.Prelude.{◌^◌};
ghost use Rattle.std.proofs.Common.{rules, refl};
ghost use Rattle.range_collections.specs.Countable.{signed_place, signed_value, signed_place-fits, signed_value-fits, signed_place-value, signed_place-order};

use crate::countable::{Countable, Unsigned};

impl Countable for u8 {
    ghost count = { 2 ^ 8 };

    ghost value = { λ n. n };

    ghost place = { λ x. x };

    fn place(&self) -> u128 {
        u128::from(*self)
    }

    ghost count_fits = { Prim.search rules };

    ghost place_fits = { λ x h. h };

    ghost value_is_value = { λ n h. h };

    ghost place_of_value = { λ n h. refl };

    ghost in_order = { λ x y h k. refl };
}

impl Countable for u16 {
    ghost count = { 2 ^ 16 };

    ghost value = { λ n. n };

    ghost place = { λ x. x };

    fn place(&self) -> u128 {
        u128::from(*self)
    }

    ghost count_fits = { Prim.search rules };

    ghost place_fits = { λ x h. h };

    ghost value_is_value = { λ n h. h };

    ghost place_of_value = { λ n h. refl };

    ghost in_order = { λ x y h k. refl };
}

impl Countable for u32 {
    ghost count = { 2 ^ 32 };

    ghost value = { λ n. n };

    ghost place = { λ x. x };

    fn place(&self) -> u128 {
        u128::from(*self)
    }

    ghost count_fits = { Prim.search rules };

    ghost place_fits = { λ x h. h };

    ghost value_is_value = { λ n h. h };

    ghost place_of_value = { λ n h. refl };

    ghost in_order = { λ x y h k. refl };
}

impl Countable for u64 {
    ghost count = { 2 ^ 64 };

    ghost value = { λ n. n };

    ghost place = { λ x. x };

    fn place(&self) -> u128 {
        u128::from(*self)
    }

    ghost count_fits = { Prim.search rules };

    ghost place_fits = { λ x h. h };

    ghost value_is_value = { λ n h. h };

    ghost place_of_value = { λ n h. refl };

    ghost in_order = { λ x y h k. refl };
}

impl Countable for u128 {
    ghost count = { 2 ^ 128 };

    ghost value = { λ n. n };

    ghost place = { λ x. x };

    fn place(&self) -> u128 {
        *self
    }

    ghost count_fits = { Prim.search rules };

    ghost place_fits = { λ x h. h };

    ghost value_is_value = { λ n h. h };

    ghost place_of_value = { λ n h. refl };

    ghost in_order = { λ x y h k. refl };
}

impl Countable for usize {
    ghost count = { 2 ^ 64 };

    ghost value = { λ n. n };

    ghost place = { λ x. x };

    fn place(&self) -> u128 {
        *self as u128
    }

    ghost count_fits = { Prim.search rules };

    ghost place_fits = { λ x h. h };

    ghost value_is_value = { λ n h. h };

    ghost place_of_value = { λ n h. refl };

    ghost in_order = { λ x y h k. refl };
}

impl Unsigned for u8 {
    ghost order_of_places = { λ x y. refl };
}

impl Unsigned for u16 {
    ghost order_of_places = { λ x y. refl };
}

impl Unsigned for u32 {
    ghost order_of_places = { λ x y. refl };
}

impl Unsigned for u64 {
    ghost order_of_places = { λ x y. refl };
}

impl Unsigned for u128 {
    ghost order_of_places = { λ x y. refl };
}

impl Unsigned for usize {
    ghost order_of_places = { λ x y. refl };
}

impl Countable for i8 {
    ghost count = { 2 ^ 8 };

    ghost value = { signed_value (2 ^ 7) };

    ghost place = { signed_place (2 ^ 7) };

    fn place(&self) -> u128 {
        u128::from(self.abs_diff(i8::MIN))
    }

    ghost count_fits = { Prim.search rules };

    ghost place_fits = { λ x h. signed_place-fits (2 ^ 7) x h.sfits };

    ghost value_is_value = { λ n h. record { sfits = signed_value-fits (2 ^ 7) n h } };

    ghost place_of_value = { signed_place-value (2 ^ 7) };

    ghost in_order = { λ x y h k. signed_place-order (2 ^ 7) x y h.sfits k.sfits };
}

impl Countable for i16 {
    ghost count = { 2 ^ 16 };

    ghost value = { signed_value (2 ^ 15) };

    ghost place = { signed_place (2 ^ 15) };

    fn place(&self) -> u128 {
        u128::from(self.abs_diff(i16::MIN))
    }

    ghost count_fits = { Prim.search rules };

    ghost place_fits = { λ x h. signed_place-fits (2 ^ 15) x h.sfits };

    ghost value_is_value = { λ n h. record { sfits = signed_value-fits (2 ^ 15) n h } };

    ghost place_of_value = { signed_place-value (2 ^ 15) };

    ghost in_order = { λ x y h k. signed_place-order (2 ^ 15) x y h.sfits k.sfits };
}

impl Countable for i32 {
    ghost count = { 2 ^ 32 };

    ghost value = { signed_value (2 ^ 31) };

    ghost place = { signed_place (2 ^ 31) };

    fn place(&self) -> u128 {
        u128::from(self.abs_diff(i32::MIN))
    }

    ghost count_fits = { Prim.search rules };

    ghost place_fits = { λ x h. signed_place-fits (2 ^ 31) x h.sfits };

    ghost value_is_value = { λ n h. record { sfits = signed_value-fits (2 ^ 31) n h } };

    ghost place_of_value = { signed_place-value (2 ^ 31) };

    ghost in_order = { λ x y h k. signed_place-order (2 ^ 31) x y h.sfits k.sfits };
}

impl Countable for i64 {
    ghost count = { 2 ^ 64 };

    ghost value = { signed_value (2 ^ 63) };

    ghost place = { signed_place (2 ^ 63) };

    fn place(&self) -> u128 {
        u128::from(self.abs_diff(i64::MIN))
    }

    ghost count_fits = { Prim.search rules };

    ghost place_fits = { λ x h. signed_place-fits (2 ^ 63) x h.sfits };

    ghost value_is_value = { λ n h. record { sfits = signed_value-fits (2 ^ 63) n h } };

    ghost place_of_value = { signed_place-value (2 ^ 63) };

    ghost in_order = { λ x y h k. signed_place-order (2 ^ 63) x y h.sfits k.sfits };
}

impl Countable for i128 {
    ghost count = { 2 ^ 128 };

    ghost value = { signed_value (2 ^ 127) };

    ghost place = { signed_place (2 ^ 127) };

    fn place(&self) -> u128 {
        self.abs_diff(i128::MIN)
    }

    ghost count_fits = { Prim.search rules };

    ghost place_fits = { λ x h. signed_place-fits (2 ^ 127) x h.sfits };

    ghost value_is_value = { λ n h. record { sfits = signed_value-fits (2 ^ 127) n h } };

    ghost place_of_value = { signed_place-value (2 ^ 127) };

    ghost in_order = { λ x y h k. signed_place-order (2 ^ 127) x y h.sfits k.sfits };
}

impl Countable for isize {
    ghost count = { 2 ^ 64 };

    ghost value = { signed_value (2 ^ 63) };

    ghost place = { signed_place (2 ^ 63) };

    fn place(&self) -> u128 {
        self.abs_diff(isize::MIN) as u128
    }

    ghost count_fits = { Prim.search rules };

    ghost place_fits = { λ x h. signed_place-fits (2 ^ 63) x h.sfits };

    ghost value_is_value = { λ n h. record { sfits = signed_value-fits (2 ^ 63) n h } };

    ghost place_of_value = { signed_place-value (2 ^ 63) };

    ghost in_order = { λ x y h k. signed_place-order (2 ^ 63) x y h.sfits k.sfits };
}
