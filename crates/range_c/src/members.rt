//! Members one by one: the greatest at or below a number, the one with a given number of others
//! below it, and how many lie below a number.
ghost use Rattle.std.specs.Prelude.{◌≡◌, ◌≤◌, ◌^◌, true, false, IsTrue};
ghost use Rattle.std.specs.Ordering.{is_le};
ghost use Rattle.range_collections.specs.Boundaries.{IsAscending, member};
ghost use Rattle.range_collections.specs.Covered.{members_below};
ghost use Rattle.range_collections.specs.Members.{IsPrevious};

use crate::parts::put;
use range_collections::{Countable, FromPlace, RangeSetRef};

// Whether a number at or below `from` is a member, and then writes the greatest.
pub(crate) fn prev_member<T: FromPlace>(a: &[T], from: &T, previous: &mut T) -> bool
    requires { IsAscending T.cmp a.now }
    ensures previous { IsTrue result →
        IsPrevious T.cmp T.is_value true a.now from.now previous.new }
    ensures none { result ≡ false → (x : T) → T.is_value x →
        is_le (T.cmp x from.now) ≡ true → member T.cmp a.now x ≡ false }
    ensures unchanged { result ≡ false → previous.new ≡ previous.old }
{
    put(RangeSetRef::new_unchecked(a).prev_member(from), previous)
}

// Whether a number at or below `from` is no member, and then writes the greatest.
pub(crate) fn prev_gap<T: FromPlace>(a: &[T], from: &T, previous: &mut T) -> bool
    requires { IsAscending T.cmp a.now }
    ensures previous { IsTrue result →
        IsPrevious T.cmp T.is_value false a.now from.now previous.new }
    ensures none { result ≡ false → (x : T) → T.is_value x →
        is_le (T.cmp x from.now) ≡ true → member T.cmp a.now x ≡ true }
    ensures unchanged { result ≡ false → previous.new ≡ previous.old }
{
    put(RangeSetRef::new_unchecked(a).prev_gap(from), previous)
}

// Whether there is a member with `k` others below it, and then writes it.
pub(crate) fn select<T: FromPlace>(a: &[T], k: u64, at: &mut T) -> bool
    requires { IsAscending T.cmp a.now }
    ensures member { IsTrue result → member T.cmp a.now at.new ≡ true }
    ensures rank { IsTrue result → members_below T.cmp T.value a.now (T.place at.new) ≡ k }
    ensures none { result ≡ false → members_below T.cmp T.value a.now T.count ≤ k }
    ensures unchanged { result ≡ false → at.new ≡ at.old }
{
    put(RangeSetRef::new_unchecked(a).select(u128::from(k)), at)
}

// How many members are below `at`.
pub(crate) fn rank<T: Countable>(a: &[T], at: &T) -> u64
    requires few { T.count ≤ 2 ^ 64 }
    requires sorted { IsAscending T.cmp a.now }
    ensures { result ≡ members_below T.cmp T.value a.now (T.place at.now) }
{
    RangeSetRef::new_unchecked(a).rank(at) as u64
}
