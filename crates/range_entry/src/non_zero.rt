//! Whole numbers other than 0, in a form that a list with room inside itself can hold.
//!
//! The library has types of these names too. They have no default value, which such a list asks of
//! its items, so they serve in slices alone.
ghost use Rattle.std.specs.Prelude.{◌≡◌, ◌≢◌, ◌↔◌, ◌<◌, ℕ, ⊤, IsTrue, IsNone, IfSome};
ghost use Rattle.std.specs.declared.cmp.Ordering.TheVariants.{Less};
ghost use Rattle.std.proofs.Common.{rules};

use crate::numbers::Number;
use std::alloc::{AllocError, Global};
use std::default::MadeWith;
use std::marker::Model;

/// A type of whole numbers from 0 up.
pub trait Unsigned: Number {
    /// The number 1.
    const ONE: Self;

    ghost ONE: { Self };

    // The number, whatever its type.
    ghost number: { Self → ℕ };

    /// Whether this is 0.
    fn is_zero(&self) -> bool
        ensures { IsTrue result ↔ (number self.now ≡ 0) };

    ghost one_is_above_zero: { 0 < number ONE };

    ghost one_in_range: { Self.in_range ONE };

    // No number above 0 is below 1.
    ghost one_is_lowest: { (x : Self) → 0 < number x → Self.cmp x ONE ≢ Less };
}

/// A whole number other than 0. Contracts see the number.
#[derive(Copy, PartialEq, Eq, PartialOrd, Ord)]
pub struct NonZero<T: Unsigned> {
    held: T,
}

impl<T: Unsigned> Model for NonZero<T> {
    ghost Value = { T };

    ghost view = { λ s. s.held };

    ghost invariant = { λ s. 0 < T.number s.held };

    ghost inverse = { λ n. record { held = n } };
}

impl<T: Unsigned> Clone for NonZero<T> {
    ghost is_clone = { λ x y. y ≡ x };

    ghost is_infallible = { λ _. ⊤ };

    fn clone(&self) -> Result<NonZero<T>, AllocError> {
        Ok(*self)
    }
}

impl<T: Unsigned> NonZero<T> {
    /// The number as one that isn't 0. `None` for 0.
    pub fn new(n: T) -> Option<Self>
        ensures zero { IsNone result ↔ (T.number n ≡ 0) }
        ensures held { IfSome result (λ made. made ≡ n) }
    {
        if n.is_zero() {
            None
        } else {
            Some(NonZero { held: n })
        }
    }

    /// The number.
    pub fn get(self) -> T
        ensures value { result ≡ self }
        ensures nonzero { 0 < T.number result }
    {
        self.held
    }
}

/// A list fills the room inside itself with 1.
impl<T: Unsigned> MadeWith<Global> for NonZero<T> {
    ghost is_made_with = { λ made. made ≡ T.ONE };

    fn made_with(_alloc: Global) -> NonZero<T> {
        Self::LEAST
    }
}

impl<T: Unsigned> Number for NonZero<T> {
    const LEAST: NonZero<T> = NonZero { held: T::ONE };

    ghost LEAST = { T.ONE };

    ghost in_range = { λ x. T.in_range x × (0 < T.number x) };

    fn known_in_range(&self) {
        let number = self.get();
        number.known_in_range();
    }

    ghost least_in_range = { (T.one_in_range, T.one_is_above_zero) };

    ghost least_is_lowest = { λ x h. T.one_is_lowest x h.1 };
}

/// A `u8` other than 0.
pub type NonZeroU8 = NonZero<u8>;

/// A `u16` other than 0.
pub type NonZeroU16 = NonZero<u16>;

/// A `u32` other than 0.
pub type NonZeroU32 = NonZero<u32>;

/// A `u64` other than 0.
pub type NonZeroU64 = NonZero<u64>;

/// A `u128` other than 0.
pub type NonZeroU128 = NonZero<u128>;

/// A `usize` other than 0.
pub type NonZeroUsize = NonZero<usize>;

impl Unsigned for u8 {
    const ONE: u8 = 1;

    ghost ONE = { 1 };

    ghost number = { λ x. x };

    fn is_zero(&self) -> bool {
        *self == 0
    }

    ghost one_is_above_zero = { Prim.search rules };

    ghost one_in_range = { Prim.search rules };

    ghost one_is_lowest = { Prim.search rules };
}

impl Unsigned for u16 {
    const ONE: u16 = 1;

    ghost ONE = { 1 };

    ghost number = { λ x. x };

    fn is_zero(&self) -> bool {
        *self == 0
    }

    ghost one_is_above_zero = { Prim.search rules };

    ghost one_in_range = { Prim.search rules };

    ghost one_is_lowest = { Prim.search rules };
}

impl Unsigned for u32 {
    const ONE: u32 = 1;

    ghost ONE = { 1 };

    ghost number = { λ x. x };

    fn is_zero(&self) -> bool {
        *self == 0
    }

    ghost one_is_above_zero = { Prim.search rules };

    ghost one_in_range = { Prim.search rules };

    ghost one_is_lowest = { Prim.search rules };
}

impl Unsigned for u64 {
    const ONE: u64 = 1;

    ghost ONE = { 1 };

    ghost number = { λ x. x };

    fn is_zero(&self) -> bool {
        *self == 0
    }

    ghost one_is_above_zero = { Prim.search rules };

    ghost one_in_range = { Prim.search rules };

    ghost one_is_lowest = { Prim.search rules };
}

impl Unsigned for u128 {
    const ONE: u128 = 1;

    ghost ONE = { 1 };

    ghost number = { λ x. x };

    fn is_zero(&self) -> bool {
        *self == 0
    }

    ghost one_is_above_zero = { Prim.search rules };

    ghost one_in_range = { Prim.search rules };

    ghost one_is_lowest = { Prim.search rules };
}

impl Unsigned for usize {
    const ONE: usize = 1;

    ghost ONE = { 1 };

    ghost number = { λ x. x };

    fn is_zero(&self) -> bool {
        *self == 0
    }

    ghost one_is_above_zero = { Prim.search rules };

    ghost one_in_range = { Prim.search rules };

    ghost one_is_lowest = { Prim.search rules };
}
