//! How many members there are, in all or below a value, and the one with a given number below it,
//! of values that stand in a row.
ghost use Rattle.std.specs.Prelude.{◌≡◌, ◌-◌, ◌<◌, ◌≤◌, true, IfSome, IfNone, option_copied};
ghost use Rattle.std.specs.declared.cmp.Ordering.TheVariants.{Less};
ghost use Rattle.range_merge.specs.Boundaries.{IsAscending, member};
ghost use Rattle.range_collections.specs.Covered.{covered_of, members_below};
ghost use Rattle.range_collections.specs.Ended.{CountsEnded};

use crate::boundaries::{Boundaries, Unread};
use crate::comparisons::Comparisons;
use crate::countable::{Countable, FromPlace};

/// How many members are below `at`.
#[inline]
pub fn rank<'a, T: Countable + 'a, L: Boundaries<'a, T>>(list: L, at: &T) -> u128
    requires { IsAscending T.cmp (L.items list) }
    ensures fits { result < T.count }
    ensures value { result ≡ members_below T.cmp T.value (L.items list) (T.place at.now) }
{
    at.known();
    let before = list.up_to(at, &mut Comparisons::new());
    let (count, endless) = count_ended(list.between(list.front(), before));
    match endless {
        Some(start) => {
            start.known();
            count + (at.place() - start.place())
        }
        None => count,
    }
}

/// The member with `k` members below it, if there is one.
#[inline]
pub fn select<'a, T: FromPlace + 'a, U: Unread<'a, T>>(boundaries: U, k: u128) -> Option<T>
    requires { IsAscending T.cmp (U.unread boundaries) }
    ensures value { IfSome result T.is_value }
    ensures member { IfSome result (λ at. member T.cmp (U.unread boundaries) at ≡ true) }
    ensures rank { IfSome result (λ at.
        members_below T.cmp T.value (U.unread boundaries) (T.place at) ≡ k) }
    ensures none { IfNone result (members_below T.cmp T.value (U.unread boundaries) T.count ≤ k) }
{
    let mut unread = boundaries;
    let mut remaining = k;
    while let Some(start) = unread.take_first() {
        let Some(end) = unread.take_first() else {
            start.known();
            return T::from_place(start.place().checked_add(remaining)?);
        };
        let values = between(start, end);
        if remaining < values {
            return T::from_place(start.place() + remaining);
        }
        remaining -= values;
    }
    None
}

/// How many values are members, or `None` if the last range has no end.
#[inline]
pub fn covered<'a, T: Countable + 'a, U: Unread<'a, T>>(boundaries: U) -> Option<u128>
    requires { IsAscending T.cmp (U.unread boundaries) }
    ensures fits { IfSome result (λ n. n < T.count) }
    ensures value { result ≡ covered_of T.cmp T.value T.count (U.unread boundaries) }
{
    match count_ended(boundaries) {
        (count, None) => Some(count),
        (_, Some(_)) => None,
    }
}

// How many values lie in the ranges with an end, and where the last range starts if it has none.
#[inline(always)]
fn count_ended<'a, T: Countable + 'a, U: Unread<'a, T>>(boundaries: U) -> (u128, Option<&'a T>)
    requires { IsAscending T.cmp (U.unread boundaries) }
    ensures fits { result.0 < T.count }
    ensures counted { CountsEnded T.cmp T.value T.count (U.unread boundaries)
        (option_copied result.1) result.0 }
{
    let mut unread = boundaries;
    let mut count: u128 = 0;
    while let Some(start) = unread.take_first() {
        let Some(end) = unread.take_first() else {
            return (count, Some(start));
        };
        count += between(start, end);
    }
    (count, None)
}

// How many values lie from one on and below another.
#[inline(always)]
fn between<T: Countable>(start: &T, end: &T) -> u128
    requires { T.cmp start.now end.now ≡ Less }
    ensures value { result ≡ T.place end.now - T.place start.now }
    ensures start_is_value { T.is_value start.now }
    ensures end_is_value { T.is_value end.now }
{
    start.known();
    end.known();
    end.place() - start.place()
}
