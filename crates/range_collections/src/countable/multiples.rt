//! The multiples of a number, among values that stand in a row.
ghost use Rattle.std.specs.Prelude.{◌≡◌, ◌<◌, ◌≤◌, ◌+◌, ℕ};
ghost use Rattle.range_collections.specs.Fits.{IsOneOf};

use crate::countable::FromPlace;

/// The places of a number's multiples, those of numbers below 0 too: `zero` is the place of 0.
#[derive(Clone, Copy)]
pub struct Multiples {
    pub of: u128,
    pub zero: u128,
}

impl Multiples {
    /// Each place, as a multiple of 1.
    #[inline(always)]
    pub fn of_one() -> Multiples
        ensures { result.of ≡ 1 }
    {
        Multiples { of: 1, zero: 0 }
    }

    /// The multiples of `align` among the values of a type.
    #[inline(always)]
    pub fn among<T: FromPlace>(align: u128) -> Multiples
        ensures of { result.of ≡ align }
        ensures zero { result.zero ≡ T.zero }
    {
        Multiples {
            of: align,
            zero: T::zero(),
        }
    }

    /// How far the next of them is from a place: 0 if that is one.
    #[inline(always)]
    pub fn ahead(&self, place: u128) -> u128
        requires some { 0 < self.now.of }
        ensures reached { IsOneOf self.now (place + result) }
        ensures next { (n : ℕ) → IsOneOf self.now n → place ≤ n → place + result ≤ n }
    {
        if place <= self.zero {
            return (self.zero - place) % self.of;
        }
        let past = (place - self.zero) % self.of;
        if past == 0 { 0 } else { self.of - past }
    }
}
