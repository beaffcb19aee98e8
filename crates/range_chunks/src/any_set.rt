//! A set by reference, wherever its boundaries lie.
ghost use Rattle.std.specs.Prelude.{◌≡◌, List, length};
ghost use Rattle.range_merge.specs.Boundaries.{IsAscending};

use crate::set::ChunkedRangeSet;
use range_collections::{Boundaries, RangeSetRef, Unread};
use range_list::{Chunks, Items};

/// A set that another one is compared with: a view, or a set in chunks by reference.
pub trait AnySet<'a, T: Ord + 'a>: Copy {
    /// Its boundaries, as a search reads them.
    type Listed: Boundaries<'a, T>;

    /// Its boundaries, one by one.
    type Unread: Unread<'a, T>;

    // Its boundaries.
    ghost boundaries: { Self → List T };

    /// The boundaries, for a search.
    fn listed(&self) -> Self::Listed
        ensures boundaries { Self.Listed.items result ≡ boundaries self.now }
        ensures sorted { IsAscending T.cmp (boundaries self.now) };

    /// The boundaries, from the first on.
    fn unread(&self) -> Self::Unread
        ensures boundaries { Self.Unread.unread result ≡ boundaries self.now }
        ensures sorted { IsAscending T.cmp (boundaries self.now) };

    /// How many boundaries there are.
    fn len(&self) -> usize
        ensures { result ≡ length (boundaries self.now) };
}

impl<'a, T: Ord> AnySet<'a, T> for RangeSetRef<'a, T> {
    type Listed = &'a [T];

    type Unread = &'a [T];

    ghost boundaries = { λ set. set.boundaries.now };

    #[inline(always)]
    fn listed(&self) -> &'a [T] {
        self.boundaries()
    }

    #[inline(always)]
    fn unread(&self) -> &'a [T] {
        self.boundaries()
    }

    #[inline(always)]
    fn len(&self) -> usize {
        self.boundaries().len()
    }
}

impl<'a, T: Ord> AnySet<'a, T> for &'a ChunkedRangeSet<T> {
    type Listed = &'a Chunks<T, bool>;

    type Unread = Items<'a, T, bool>;

    ghost boundaries = { λ set. set.now };

    #[inline(always)]
    fn listed(&self) -> &'a Chunks<T, bool> {
        (*self).chunks()
    }

    #[inline(always)]
    fn unread(&self) -> Items<'a, T, bool> {
        (*self).chunks().items()
    }

    #[inline(always)]
    fn len(&self) -> usize {
        (*self).boundaries_len()
    }
}
