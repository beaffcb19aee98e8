//! Views compared: equal if their members are the same, which is that their boundaries are equal
//! item by item, and in the lexicographic order of their boundaries.
ghost use Rattle.std.specs.Prelude.{◌≡◌, ◌↔◌, IsTrue, Some};
ghost use Rattle.std.proofs.Common.{refl};
ghost use Rattle.std.specs.Cmp.{on_per, on_equiv, on_total, po};
ghost use Rattle.std.specs.Cmp.Lexicographic.{pointwise, slice_cmp, lists_per, lists_equiv, lists_total, lists_ties};
ghost use Rattle.std.specs.Ordering.{on, as_partial_cmp};
ghost use Rattle.range_merge.specs.Boundaries.{IsSameSet};

use crate::view::RangeSetRef;
use std::cmp::Ordering;

impl<'a, T: Ord> PartialEq for RangeSetRef<'a, T> {
    ghost eq = { on (λ set. set.boundaries.now) (pointwise T.eq) };

    ghost laws = { on_per _ (lists_per T.PartialEq.laws) };

    /// Whether both have the same members.
    #[inline]
    fn eq(&self, other: &Self) -> bool
        ensures value { result ≡ pointwise T.eq self.now.boundaries.now other.now.boundaries.now }
        ensures members { IsTrue result ↔
            IsSameSet T.cmp self.now.boundaries.now other.now.boundaries.now }
    {
        self.boundaries == other.boundaries
    }
}

impl<'a, T: Ord> Eq for RangeSetRef<'a, T> {
    ghost laws = { on_equiv _ (lists_equiv T.Eq.laws) };
}

impl<'a, T: Ord> Ord for RangeSetRef<'a, T> {
    ghost cmp = { on (λ set. set.boundaries.now) (slice_cmp T.cmp) };

    ghost total = { on_total _ (lists_total T.total) };

    ghost matches_partial_cmp = { λ x y. refl };

    ghost matches_eq = { λ x y. lists_ties T.cmp T.matches_eq x.boundaries.now y.boundaries.now };

    /// The first boundaries that are not equal decide, and where there are none, the lengths.
    #[inline]
    fn cmp(&self, other: &Self) -> Ordering
        ensures value { result ≡ slice_cmp T.cmp self.now.boundaries.now other.now.boundaries.now }
    {
        self.boundaries.cmp(other.boundaries)
    }
}

impl<'a, T: Ord> PartialOrd for RangeSetRef<'a, T> {
    ghost partial_cmp = { as_partial_cmp (on (λ set. set.boundaries.now) (slice_cmp T.cmp)) };

    ghost laws = { po (on_total _ (lists_total T.total)) (λ x y.
        lists_ties T.cmp T.matches_eq x.boundaries.now y.boundaries.now) };

    /// The order of `cmp`.
    #[inline]
    fn partial_cmp(&self, other: &Self) -> Option<Ordering> {
        Some(self.cmp(other))
    }
}
