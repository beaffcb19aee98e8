//! The members of a set one by one, of values that stand in a row.
ghost use Rattle.std.specs.Prelude.{◌≡◌, ◌<◌, ◌≤◌, IfSome, IfNone, true, false};
ghost use Rattle.std.specs.Ordering.{is_le};
ghost use Rattle.range_merge.specs.Boundaries.{member};
ghost use Rattle.range_collections.specs.Covered.{members_below};
ghost use Rattle.range_collections.specs.Members.{IsPrevious, members_of};

use crate::members::Members;
use crate::set::ChunkedRangeSet;
use range_collections::questions::{prev_at, rank, select};
use range_collections::{Countable, FromPlace};

impl<T: Countable> ChunkedRangeSet<T> {
    /// How many members are below `at`.
    ///
    /// It is one search, then looks at each boundary below `at` once. It takes no memory.
    pub fn rank(&self, at: &T) -> u128
        ensures fits { result < T.count }
        ensures value { result ≡ members_below T.cmp T.value self.now (T.place at.now) }
    {
        rank(&self.list, at)
    }
}

impl<T: FromPlace> ChunkedRangeSet<T> {
    /// The greatest member at or below `from`, or `None` if there is none. It is `from` itself if
    /// that is a member, or else the value just below the end of the range before. It is one search
    /// and takes no memory.
    pub fn prev_member(&self, from: &T) -> Option<T>
        ensures previous { IfSome result (λ previous.
            IsPrevious T.cmp T.is_value true self.now from.now previous) }
        ensures none { IfNone result ((x : T) → T.is_value x → is_le (T.cmp x from.now) ≡ true →
            member T.cmp self.now x ≡ false) }
    {
        prev_at(&self.list, from, true)
    }

    /// The greatest value at or below `from` that isn't a member, or `None` if there is none. It is
    /// `from` itself if that isn't one, or else the value just below the start of the range that
    /// holds it. It is one search and takes no memory.
    pub fn prev_gap(&self, from: &T) -> Option<T>
        ensures previous { IfSome result (λ previous.
            IsPrevious T.cmp T.is_value false self.now from.now previous) }
        ensures none { IfNone result ((x : T) → T.is_value x → is_le (T.cmp x from.now) ≡ true →
            member T.cmp self.now x ≡ true) }
    {
        prev_at(&self.list, from, false)
    }

    /// The member with `k` members below it, or `None` if there are no more than `k`.
    ///
    /// It looks at each boundary up to the result once, and takes no memory.
    pub fn select(&self, k: u128) -> Option<T>
        ensures value { IfSome result T.is_value }
        ensures member { IfSome result (λ at. member T.cmp self.now at ≡ true) }
        ensures rank { IfSome result (λ at.
            members_below T.cmp T.value self.now (T.place at) ≡ k) }
        ensures none { IfNone result (members_below T.cmp T.value self.now T.count ≤ k) }
    {
        select(self.list.items(), k)
    }
    /// The members one by one, from the lowest on or from the highest down.
    ///
    /// A step is one search. It takes no memory.
    pub fn members(&self) -> Members<'_, T>
        ensures { result ≡ members_of T.cmp T.value self.now 0 T.count }
    {
        Members::new(self)
    }
}
