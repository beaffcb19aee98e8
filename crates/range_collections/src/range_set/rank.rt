//! The members of a set by rank and one by one, by its view.
ghost use Rattle.std.specs.Prelude.{◌≡◌, ◌<◌, ◌≤◌, IfSome, IfNone, true, false};
ghost use Rattle.std.specs.Ordering.{is_le};
ghost use Rattle.range_merge.specs.Boundaries.{member};
ghost use Rattle.range_collections.specs.Covered.{members_below};
ghost use Rattle.range_collections.specs.Members.{IsPrevious, members_of};

use crate::countable::{Countable, FromPlace};
use crate::members::Members;
use crate::range_set::RangeSet;

impl<T: Countable, const N: usize> RangeSet<T, N> {
    /// How many members are below `at`.
    ///
    /// It looks at each boundary below `at` once, and takes no memory.
    pub fn rank(&self, at: &T) -> u128
        ensures fits { result < T.count }
        ensures value { result ≡ members_below T.cmp T.value self.now (T.place at.now) }
    {
        self.as_ref().rank(at)
    }
}

impl<T: FromPlace, const N: usize> RangeSet<T, N> {
    /// The greatest member at or below `from`, or `None` if there is none. It is `from` itself if
    /// that is a member, or else the value just below the end of the range before. It takes no
    /// memory, and makes at most as many comparisons as the number of boundaries has binary digits
    /// (seen by reading).
    #[inline]
    pub fn prev_member(&self, from: &T) -> Option<T>
        ensures previous { IfSome result (λ previous.
            IsPrevious T.cmp T.is_value true self.now from.now previous) }
        ensures none { IfNone result ((x : T) → T.is_value x → is_le (T.cmp x from.now) ≡ true →
            member T.cmp self.now x ≡ false) }
    {
        self.as_ref().prev_member(from)
    }

    /// The greatest value at or below `from` that isn't a member, or `None` if there is none. It is
    /// `from` itself if that isn't one, or else the value just below the start of the range that
    /// holds it. It takes no memory, and makes at most as many comparisons as the number of
    /// boundaries has binary digits (seen by reading).
    #[inline]
    pub fn prev_gap(&self, from: &T) -> Option<T>
        ensures previous { IfSome result (λ previous.
            IsPrevious T.cmp T.is_value false self.now from.now previous) }
        ensures none { IfNone result ((x : T) → T.is_value x → is_le (T.cmp x from.now) ≡ true →
            member T.cmp self.now x ≡ true) }
    {
        self.as_ref().prev_gap(from)
    }

    /// The member with `k` members below it, or `None` if there are no more than `k`.
    ///
    /// It looks at each boundary up to the result once, and takes no memory.
    pub fn select(&self, k: u128) -> Option<T>
        ensures value { IfSome result T.is_value }
        ensures member { IfSome result (λ at. member T.cmp self.now at ≡ true) }
        ensures rank { IfSome result (λ at.
            members_below T.cmp T.value self.now (T.place at) ≡ k) }
        ensures none { IfNone result (members_below T.cmp T.value self.now T.count ≤ k) }
    {
        self.as_ref().select(k)
    }

    /// The members one by one, from the lowest on or from the highest down.
    ///
    /// It takes no memory, and makes no comparison.
    pub fn members(&self) -> Members<'_, T>
        ensures { result ≡ members_of T.cmp T.value self.now 0 T.count }
    {
        self.as_ref().members()
    }
}
