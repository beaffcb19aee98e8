//! Made-up numbers, by one generator that always begins alike, so that a number names what it
//! makes.
ghost use Rattle.std.specs.Prelude.{◌<◌, ◌≤◌};

use std::alloc::{AllocError, Global};
use std::ops::Range;

/// A linear congruential generator that always begins alike, so a number names what it makes.
#[derive(Drop)]
pub struct Generator {
    state: u64,
}

impl Generator {
    pub fn new() -> Generator {
        Generator { state: 14 }
    }

    // The high half of the state that comes next.
    fn bits(&mut self) -> u64 {
        self.state = self
            .state
            .wrapping_mul(6_364_136_223_846_793_005)
            .wrapping_add(1_442_695_040_888_963_407);
        self.state / 4_294_967_296
    }

    /// The next number below the limit.
    pub fn below(&mut self, limit: u64) -> u64
        requires { 0 < limit }
        ensures { result < limit }
    {
        self.bits() % limit
    }

    /// The next range of numbers up to 256: mostly a short one, now and then a long, an empty or a
    /// reversed one.
    pub fn range(&mut self) -> Range<u64> {
        let start = self.below(256);
        let length = if self.below(16) == 0 { 200 } else { 12 };
        let end = (start + self.below(length)).min(256);
        if self.below(16) == 0 {
            end..start
        } else {
            start..end
        }
    }

    /// One of the items, where there is one.
    pub fn one_of<'a, T>(&mut self, items: &'a [T]) -> Option<&'a T> {
        let at = self.bits() as usize;
        items.get(at % items.len().max(1))
    }

    /// About one in `one_in` of the values, in their order.
    pub fn some_of<T: Copy>(
        &mut self,
        alloc: Global,
        values: &[T],
        one_in: u64,
    ) -> Result<Vec<T>, AllocError>
        requires { 1 ≤ one_in }
    {
        let mut items = Vec::new(alloc);
        for value in values {
            if self.bits() % one_in == 0 {
                items.push(*value)?;
            }
        }
        Ok(items)
    }
}
