//! Comparers and copiers of numbers, apart from those of range sets.
ghost use Rattle.std.specs.Prelude.{◌≡◌, ⊤};
ghost use Rattle.std.specs.Ordering.{int_cmp};
ghost use Rattle.std.proofs.lemmas.Cmp.{int_cmp_total};

use range_merge::{Compare, Copier, Work};
use std::alloc::AllocError;
use std::cmp::Ordering;

/// Compares numbers, and counts how often it did.
#[derive(Drop)]
pub struct Numbers {
    pub made: u128,
}

impl Compare<i64> for Numbers {
    ghost order = { int_cmp };

    ghost count = { λ numbers. numbers.made };

    fn compare(&mut self, a: &i64, b: &i64) -> Ordering {
        self.made += 1;
        a.cmp(b)
    }

    fn made(&self) -> u128 {
        self.made
    }

    fn apart<W: Work<i64, Self>>(&mut self, work: &mut W) -> W::Answer {
        let done = work.run(Numbers { made: 0 });
        self.made += done.cmp.made;
        done.answer
    }

    ghost total = { int_cmp_total };
}

/// Copies numbers.
pub struct Copies;

impl Copier<i64> for Copies {
    ghost alike = { λ x y. x ≡ y };

    ghost is_infallible = { λ _. ⊤ };

    fn copy(&self, item: &i64) -> Result<i64, AllocError> {
        Ok(*item)
    }
}

/// Refuses each copy.
pub struct NoCopies;

impl Copier<i64> for NoCopies {
    ghost alike = { λ x y. x ≡ y };

    ghost is_infallible = { λ _. ⊥ };

    fn copy(&self, _item: &i64) -> Result<i64, AllocError> {
        Err(AllocError)
    }
}
