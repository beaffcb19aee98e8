//! The member, or the element that isn't one, next to an element.
ghost use Rattle.std.specs.Prelude.{◌≡◌, ◌+◌, ◌-◌, ◌<◌, true, not, length, get_or, IfSome, IfNone};
ghost use Rattle.std.specs.Ordering.{is_le};
ghost use Rattle.std.specs.declared.cmp.Ordering.TheVariants.{Less};
ghost use Rattle.range_merge.specs.Boundaries.{IsAscending, count_up_to, member};
ghost use Rattle.range_collections.specs.Extent.{IsNext};
ghost use Rattle.range_collections.specs.Members.{IsPrevious};

use crate::boundaries::{Boundaries, Unread};
use crate::comparisons::Comparisons;
use crate::countable::{Countable, FromPlace};
use range_entry::RangeSetEntry;

/// The least element at or above `from` that is a member, if `inside` is true, or else that is
/// none.
#[inline(always)]
pub fn next_at<'a, T: Ord + 'a, L: Boundaries<'a, T>>(
    list: L,
    from: &'a T,
    inside: bool,
) -> Option<&'a T>
    requires { IsAscending T.cmp (L.items list) }
    ensures next { IfSome result (λ next. IsNext T.cmp inside (L.items list) from.now next.now) }
    ensures none { IfNone result ((x : T) → is_le (T.cmp from.now x) ≡ true →
        member T.cmp (L.items list) x ≡ not inside) }
{
    let before = list.up_to(from, &mut Comparisons::new());
    if list.is_odd(before) == inside {
        return Some(from);
    }
    list.item_at(before)
}

/// The greatest value at or below `from` that is a member, if `inside` is true, or else that is
/// none.
#[inline]
pub fn prev_at<'a, T: FromPlace + 'a, L: Boundaries<'a, T>>(
    list: L,
    from: &T,
    inside: bool,
) -> Option<T>
    requires { IsAscending T.cmp (L.items list) }
    ensures previous { IfSome result (λ previous.
        IsPrevious T.cmp T.is_value inside (L.items list) from.now previous) }
    ensures none { IfNone result ((x : T) → T.is_value x → is_le (T.cmp x from.now) ≡ true →
        member T.cmp (L.items list) x ≡ not inside) }
{
    from.known();
    let before = list.up_to(from, &mut Comparisons::new());
    if list.is_odd(before) == inside {
        return Some(*from);
    }
    value_below(list.between(list.front(), before))
}

// The greatest value below the last of strictly sorted boundaries, if there is one.
#[inline(always)]
fn value_below<'a, T: FromPlace + 'a, U: Unread<'a, T>>(boundaries: U) -> Option<T>
    requires { IsAscending T.cmp (U.unread boundaries) }
    ensures value { IfSome result T.is_value }
    ensures below { IfSome result (λ at.
        count_up_to T.cmp (U.unread boundaries) at + 1 ≡ length (U.unread boundaries)) }
    ensures greatest { IfSome result (λ at. (x : T) → T.is_value x → T.cmp at x ≡ Less →
        count_up_to T.cmp (U.unread boundaries) x ≡ length (U.unread boundaries)) }
    ensures none { IfNone result ((x : T) → T.is_value x →
        count_up_to T.cmp (U.unread boundaries) x ≡ length (U.unread boundaries)) }
{
    let mut rest = boundaries;
    let last = rest.take_last()?;
    last.known();
    know_last(rest);
    T::from_place(last.place().checked_sub(1)?)
}

// A caller learns that the last boundary, if there is one, is a value.
#[inline(always)]
fn know_last<'a, T: RangeSetEntry + 'a, U: Unread<'a, T>>(boundaries: U)
    ensures { (d : T) → 0 < length (U.unread boundaries) →
        T.is_value (get_or (U.unread boundaries) (length (U.unread boundaries) - 1) d) }
{
    let mut rest = boundaries;
    if let Some(last) = rest.take_last() {
        last.known();
    }
}
