//! Questions about this set and another one, a view or a set in chunks.
ghost use Rattle.std.specs.Prelude.{◌≡◌, ◌↔◌, ◌+◌, ◌<◌, ◌^◌, List, true, false, length, IsTrue};
ghost use Rattle.range_merge.specs.Changes.{changes};
ghost use Rattle.range_merge.specs.Connective.{Means};
ghost use Rattle.range_collections.specs.Sets.{HasMember, Intersects, IsDisjoint, IsSubset};

use crate::any_set::AnySet;
use crate::counting::count_merged;
use crate::relating::has_member;
use crate::set::ChunkedRangeSet;
use range_collections::{Comparisons, MergeOperation};
use range_merge::laws::changes_mean_the_connective;

/// Each takes a view, or a set in chunks by reference. It makes one search in the set with more
/// boundaries for each range of the one with fewer, and one comparison with the end of that range.
/// It stops where the result is known, and takes no memory.
///
/// ```text
/// busy.intersects(hours)                // hours is a view
/// busy.is_subset(&open)                 // open is a set in chunks
/// ```
impl<T: Ord> ChunkedRangeSet<T> {
    /// Whether some element is a member of both.
    pub fn intersects<'a, S: AnySet<'a, T>>(&'a self, that: S) -> bool
        ensures { IsTrue result ↔ Intersects T.cmp self.now (S.boundaries that) }
    {
        has_member(self, that, true)
    }

    /// Whether no element is a member of both.
    pub fn is_disjoint<'a, S: AnySet<'a, T>>(&'a self, that: S) -> bool
        ensures { IsTrue result ↔ IsDisjoint T.cmp self.now (S.boundaries that) }
    {
        !has_member(self, that, true)
    }

    /// Whether every member of this set is a member of `that`.
    pub fn is_subset<'a, S: AnySet<'a, T>>(&'a self, that: S) -> bool
        ensures { IsTrue result ↔ IsSubset T.cmp self.now (S.boundaries that) }
    {
        !has_member(self, that, false)
    }

    /// Whether every member of `that` is a member of this set.
    pub fn is_superset<'a, S: AnySet<'a, T>>(&'a self, that: S) -> bool
        ensures { IsTrue result ↔ IsSubset T.cmp (S.boundaries that) self.now }
    {
        !has_member(that, self, false)
    }

    /// Whether the operation's result has a member.
    pub fn merge_test<'a, S: AnySet<'a, T>, O: MergeOperation>(&'a self, that: S, op: &O) -> bool
        requires off { O.connective op.now false false ≡ false }
        ensures members { IsTrue result ↔
            HasMember T.cmp (O.connective op.now) self.now (S.boundaries that) }
    {
        (is_on_at_both(op) && has_member(self, that, true))
            || (op.takes_a(false) && has_member(self, that, false))
            || (op.takes_b(false) && has_member(that, self, false))
    }

    /// How many boundaries the operation's result has, without making it. Both lengths together
    /// must fit a `usize`. It makes one search for each boundary of `that`, and adds up the chunks
    /// between two of them.
    pub fn merge_len<'a, S: AnySet<'a, T>, O: MergeOperation>(&'a self, that: S, op: &O) -> usize
        requires off { O.connective op.now false false ≡ false }
        requires fits { length self.now + length (S.boundaries that) < 2 ^ 64 }
        ensures value { result ≡ length (changes T.cmp (O.connective op.now)
            self.now (S.boundaries that)) }

        // It is the length of every list that the operation may give.
        ensures means { (items : List T) → Means T.cmp (O.connective op.now) items
            self.now (S.boundaries that) → length items ≡ result }
    {
        changes_mean_the_connective::<T, Comparisons>();
        count_merged(&self.list, that.unread(), op)
    }
}

// The result where both sides are on.
fn is_on_at_both<O: MergeOperation>(op: &O) -> bool
    requires off { O.connective op.now false false ≡ false }
    ensures { result ≡ O.connective op.now true true }
{
    op.takes_b(false) != op.takes_a(true)
}
