//! A counter of comparisons by an element type's own order, and copies by its own clones.
ghost use Rattle.std.specs.Prelude.{◌≡◌, ℕ};
ghost use Rattle.range_merge.specs.Counting.{AddsAtMost};

use range_entry::EntryClone;
use range_merge::{Compare, Copier, Work};
use std::alloc::AllocError;
use std::cmp::Ordering;
use std::marker::Model;

/// Compares elements by the order of their type, and counts how often it did. A clause reads it as
/// that number.
#[derive(Drop)]
pub struct Comparisons {
    made: u128,
}

impl Model for Comparisons {
    ghost Value = { ℕ };

    ghost view = { λ counter. counter.made };
}

impl Comparisons {
    /// A counter that stands at zero.
    #[inline(always)]
    pub fn new() -> Self
        ensures { result ≡ 0 }
    {
        Comparisons { made: 0 }
    }

    /// How many comparisons were made.
    #[inline(always)]
    pub fn made(&self) -> u128
        ensures { result ≡ self.now }
    {
        self.made
    }

    // Adds what another counter has counted. The count stays at u128::MAX where it would be more.
    pub(crate) fn add(&mut self, others: &Comparisons)
        ensures { AddsAtMost self.old self.new others.now }
    {
        self.made = self.made.saturating_add(others.made);
    }
}

impl<T: Ord> Compare<T> for Comparisons {
    ghost order = { T.cmp };

    ghost count = { λ counter. counter };

    #[inline(always)]
    fn compare(&mut self, a: &T, b: &T) -> Ordering {
        self.made += 1;
        a.cmp(b)
    }

    #[inline(always)]
    fn made(&self) -> u128 {
        self.made
    }

    #[inline(always)]
    fn apart<W: Work<T, Self>>(&mut self, work: &mut W) -> W::Answer {
        let done = work.run(Comparisons::new());
        self.made += done.cmp.made;
        done.answer
    }

    ghost total = { T.total };
}

/// Copies elements by their own clones.
pub struct EntryCopier;

impl<T: EntryClone> Copier<T> for EntryCopier {
    ghost alike = { T.is_copy };

    ghost is_infallible = { T.is_infallible };

    #[inline(always)]
    fn copy(&self, item: &T) -> Result<T, AllocError> {
        item.entry_clone()
    }

    #[inline(always)]
    fn all_infallible(&self) -> bool {
        T::all_infallible()
    }

    #[inline(always)]
    fn is_plain(&self) -> bool {
        T::is_plain()
    }

    #[inline(always)]
    fn append(&self, list: &mut Vec<T>, items: &[T]) -> Result<(), AllocError> {
        T::append_clones(list, items)
    }
}
