//! Whether some member of a set is one of another, or is none. Each range of the set that has fewer
//! is looked for in the other one.
ghost use Rattle.std.specs.Prelude.{◌≡◌, ◌⊎◌, ◌≤◌, ◌∷◌, true, false, not, length};
ghost use Rattle.std.specs.Ordering.{is_le};
ghost use Rattle.std.specs.declared.cmp.Ordering.TheVariants.{Less};
ghost use Rattle.range_merge.specs.Boundaries.{IsAscending, member};
ghost use Rattle.range_chunks.specs.Relating.{IsMet, IsNotMet};

use crate::any_set::AnySet;
use range_collections::questions::next_at;
use range_collections::{Boundaries, Unread};

/// Whether some member of `this` is a member of `that`, if `inside` is true, or else is none.
pub fn has_member<'a, T: Ord + 'a, A: AnySet<'a, T>, B: AnySet<'a, T>>(
    this: A,
    that: B,
    inside: bool,
) -> bool
    ensures some { result ≡ true → IsMet T.cmp inside (A.boundaries this) (B.boundaries that) }
    ensures none { result ≡ false → IsNotMet T.cmp inside (A.boundaries this) (B.boundaries that) }
{
    if this.len() <= that.len() {
        return meets(this.unread(), that.listed(), inside);
    }
    if inside {
        meets(that.unread(), this.listed(), true)
    } else {
        exceeds(this.listed(), that.unread())
    }
}

// Whether some element of these ranges is a member of the list, if `inside` is true, or else is
// none.
fn meets<'a, T: Ord + 'a, U: Unread<'a, T>, L: Boundaries<'a, T>>(
    ranges: U,
    list: L,
    inside: bool,
) -> bool
    requires ranges_sorted { IsAscending T.cmp (U.unread ranges) }
    requires sorted { IsAscending T.cmp (L.items list) }
    ensures some { result ≡ true → IsMet T.cmp inside (U.unread ranges) (L.items list) }
    ensures none { result ≡ false → IsNotMet T.cmp inside (U.unread ranges) (L.items list) }
{
    let mut unread = ranges;
    while let Some(start) = unread.take_first() {
        if first_meets(&mut unread, start, list, inside) {
            return true;
        }
    }
    false
}

// The same of the first range, from `start` to the first boundary that is unread, which is taken.
fn first_meets<'a, T: Ord + 'a, U: Unread<'a, T>, L: Boundaries<'a, T>>(
    unread: &mut U,
    start: &'a T,
    list: L,
    inside: bool,
) -> bool
    requires ranges_sorted { IsAscending T.cmp (start.now ∷ U.unread unread.old) }
    requires sorted { IsAscending T.cmp (L.items list) }
    ensures some { result ≡ true → IsMet T.cmp inside (start.now ∷ U.unread unread.old) (L.items list) }
    ensures none { result ≡ false → (x : T) →
        member T.cmp (start.now ∷ U.unread unread.old) x ≡ true →
        (member T.cmp (U.unread unread.new) x ≡ true) ⊎ (member T.cmp (L.items list) x ≡ not inside) }
    ensures later { (x : T) → member T.cmp (U.unread unread.new) x ≡ true →
        member T.cmp (start.now ∷ U.unread unread.old) x ≡ true }
    ensures ranges_sorted { IsAscending T.cmp (U.unread unread.new) }
    ensures fewer { length (U.unread unread.new) ≤ length (U.unread unread.old) }
{
    match unread.take_first() {
        Some(end) => meets_between(list, start, end, inside),
        None => next_at(list, start, inside).is_some(),
    }
}

// The same of the elements from `start` on and below `end`.
fn meets_between<'a, T: Ord + 'a, L: Boundaries<'a, T>>(
    list: L,
    start: &'a T,
    end: &T,
    inside: bool,
) -> bool
    requires sorted { IsAscending T.cmp (L.items list) }
    ensures some { result ≡ true → (x : T) × (is_le (T.cmp start.now x) ≡ true)
        × (T.cmp x end.now ≡ Less) × (member T.cmp (L.items list) x ≡ inside) }
    ensures none { result ≡ false → (x : T) → is_le (T.cmp start.now x) ≡ true →
        T.cmp x end.now ≡ Less → member T.cmp (L.items list) x ≡ not inside }
{
    match next_at(list, start, inside) {
        Some(next) => next.cmp(end).is_lt(),
        None => false,
    }
}

// Whether some member of the list is outside of these ranges: below the first of them, or between
// one and the next.
fn exceeds<'a, T: Ord + 'a, L: Boundaries<'a, T>, U: Unread<'a, T>>(list: L, ranges: U) -> bool
    requires sorted { IsAscending T.cmp (L.items list) }
    requires ranges_sorted { IsAscending T.cmp (U.unread ranges) }
    ensures some { result ≡ true → IsMet T.cmp false (L.items list) (U.unread ranges) }
    ensures none { result ≡ false → IsNotMet T.cmp false (L.items list) (U.unread ranges) }
{
    let mut gaps = ranges;
    match gaps.take_first() {
        Some(first) => starts_below(list, first) || meets(gaps, list, true),
        None => list.item_at(list.front()).is_some(),
    }
}

// Whether the first boundary of the list is below an element.
fn starts_below<'a, T: Ord + 'a, L: Boundaries<'a, T>>(list: L, at: &T) -> bool
    requires sorted { IsAscending T.cmp (L.items list) }
    ensures some { result ≡ true →
        (x : T) × (member T.cmp (L.items list) x ≡ true) × (T.cmp x at.now ≡ Less) }
    ensures none { result ≡ false → (x : T) → T.cmp x at.now ≡ Less →
        member T.cmp (L.items list) x ≡ false }
{
    match list.item_at(list.front()) {
        Some(first) => first.cmp(at).is_lt(),
        None => false,
    }
}
