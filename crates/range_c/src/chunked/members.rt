//! Members of a set in chunks one by one: the greatest at or below a number, the one with a given
//! number of others below it, and how many there are.
ghost use Rattle.std.specs.Prelude.{◌≡◌, ◌≤◌, ◌^◌, true, false, Some, None, IsTrue};
ghost use Rattle.std.specs.Ordering.{is_le};
ghost use Rattle.range_collections.specs.Boundaries.{member};
ghost use Rattle.range_collections.specs.Covered.{covered_of, members_below};
ghost use Rattle.range_collections.specs.Members.{IsPrevious};

use crate::parts::put;
use range_chunks::ChunkedRangeSet;
use range_collections::{Countable, FromPlace};

// Whether a number at or below `from` is a member, and then writes the greatest.
pub(crate) fn prev_member<T: FromPlace>(
    set: &ChunkedRangeSet<T>,
    from: &T,
    previous: &mut T,
) -> bool
    ensures previous { IsTrue result →
        IsPrevious T.cmp T.is_value true set.now from.now previous.new }
    ensures none { result ≡ false → (x : T) → T.is_value x →
        is_le (T.cmp x from.now) ≡ true → member T.cmp set.now x ≡ false }
    ensures no_answer { result ≡ false → previous.new ≡ previous.old }
{
    put(set.prev_member(from), previous)
}

// Whether a number at or below `from` is no member, and then writes the greatest.
pub(crate) fn prev_gap<T: FromPlace>(set: &ChunkedRangeSet<T>, from: &T, previous: &mut T) -> bool
    ensures previous { IsTrue result →
        IsPrevious T.cmp T.is_value false set.now from.now previous.new }
    ensures none { result ≡ false → (x : T) → T.is_value x →
        is_le (T.cmp x from.now) ≡ true → member T.cmp set.now x ≡ true }
    ensures no_answer { result ≡ false → previous.new ≡ previous.old }
{
    put(set.prev_gap(from), previous)
}

// Whether there is a member with `k` others below it, and then writes it.
pub(crate) fn select<T: FromPlace>(set: &ChunkedRangeSet<T>, k: u64, at: &mut T) -> bool
    ensures member { IsTrue result → member T.cmp set.now at.new ≡ true }
    ensures rank { IsTrue result → members_below T.cmp T.value set.now (T.place at.new) ≡ k }
    ensures none { result ≡ false → members_below T.cmp T.value set.now T.count ≤ k }
    ensures no_answer { result ≡ false → at.new ≡ at.old }
{
    put(set.select(u128::from(k)), at)
}

// How many members are below `at`.
pub(crate) fn rank<T: Countable>(set: &ChunkedRangeSet<T>, at: &T) -> u64
    requires few { T.count ≤ 2 ^ 64 }
    ensures { result ≡ members_below T.cmp T.value set.now (T.place at.now) }
{
    set.rank(at) as u64
}

// Whether the set has an end, and then writes how many numbers are members.
pub(crate) fn covered<T: Countable>(set: &ChunkedRangeSet<T>, count: &mut u64) -> bool
    requires few { T.count ≤ 2 ^ 64 }
    ensures value { IsTrue result → covered_of T.cmp T.value T.count set.now ≡ Some count.new }
    ensures no_end { result ≡ false → covered_of T.cmp T.value T.count set.now ≡ None }
    ensures no_answer { result ≡ false → count.new ≡ count.old }
{
    match set.covered() {
        Some(n) => {
            *count = n as u64;
            true
        }
        None => false,
    }
}
