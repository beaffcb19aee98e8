//! The members of a set one by one, from the lowest on and from the highest down, of values that
//! stand in a row.
ghost use Rattle.std.specs.Prelude.{◌≡◌, ◌+◌, ◌-◌, ◌<◌, ◌≤◌, ◌%◌, suc, true, false, [], ◌∷◌, ◌++◌, List, ℕ, length, IfSome, IfNone};
ghost use Rattle.std.specs.Iterator.{YieldsFirst, YieldsLast, item_count};
ghost use Rattle.range_merge.specs.Boundaries.{IsAscending, count_up_to, member};
ghost use Rattle.range_collections.specs.Members.{members_of, AreEnds};

use crate::countable::{Countable, FromPlace, know_last};
use crate::lists::is_odd;
use std::iter::FusedIterator;
use std::marker::Model;

/// The members of a set that are still unread, one by one. A clause reads it as their list, from
/// the lowest on.
#[derive(Drop)]
pub struct Members<'a, T: FromPlace> {
    // The boundaries of the ranges that the unread members lie in.
    unread: &'a [T],
    // The places of the lowest and of the highest of them.
    first: u128,
    last: u128,
}

impl<'a, T: FromPlace> Model for Members<'a, T> {
    ghost use Rattle.std.specs.Prelude.{List, suc, ◌-◌, ◌<◌, length};
    ghost use Rattle.range_collections.specs.Members.{members_of, AreEnds};

    ghost Value = { List T };

    ghost view = { λ it. members_of T.cmp T.value it.unread.now it.first (suc it.last - it.first) };

    ghost invariant = { λ it. 0 < length it.unread.now →
        AreEnds T.cmp T.value T.count it.unread.now it.first it.last };
}

impl<'a, T: FromPlace> Members<'a, T> {
    // The members of a set with these boundaries.
    pub(crate) fn new(boundaries: &'a [T]) -> Self
        requires { IsAscending T.cmp boundaries.now }
        ensures { result ≡ members_of T.cmp T.value boundaries.now 0 T.count }
    {
        match ends_of(boundaries) {
            Some((first, last)) => Members {
                unread: boundaries,
                first,
                last,
            },
            None => Members {
                unread: &[],
                first: 0,
                last: 0,
            },
        }
    }
}

impl<'a, T: FromPlace> Iterator for Members<'a, T> {
    type Item = T;

    ghost next_gives = { YieldsFirst (λ members. members) };

    ghost remaining = { item_count (λ members. members) };

    #[inline]
    fn next(&mut self) -> Option<T> {
        if self.unread.is_empty() {
            return None;
        }
        let lowest = T::from_place(self.first)?;
        match above(self.unread, self.first, self.last) {
            Some((unread, first)) => {
                self.unread = unread;
                self.first = first;
            }
            None => self.unread = &[],
        }
        Some(lowest)
    }
}

impl<'a, T: FromPlace> DoubleEndedIterator for Members<'a, T> {
    ghost next_back_gives = { YieldsLast (λ members. members) };

    #[inline]
    fn next_back(&mut self) -> Option<T> {
        if self.unread.is_empty() {
            return None;
        }
        let highest = T::from_place(self.last)?;
        match below(self.unread, self.first, self.last) {
            Some((unread, last)) => {
                self.unread = unread;
                self.last = last;
            }
            None => self.unread = &[],
        }
        Some(highest)
    }
}

impl<'a, T: FromPlace> FusedIterator for Members<'a, T> {}

// The places of the lowest member and of the highest, if there is one.
fn ends_of<T: FromPlace>(items: &[T]) -> Option<(u128, u128)>
    requires { IsAscending T.cmp items.now }
    ensures ends { IfSome result (λ ends. AreEnds T.cmp T.value T.count items.now ends.0 ends.1) }
    ensures all { IfSome result (λ ends. members_of T.cmp T.value items.now 0 T.count ≡
        members_of T.cmp T.value items.now ends.0 (suc ends.1 - ends.0)) }
    ensures none { IfNone result (items.now ≡ []) }
{
    let (start, _) = items.split_first()?;
    let (end, before) = items.split_last()?;
    start.known();
    Some((start.place(), last_place(before, end)))
}

// The place of the highest member, by the last boundary and those before it.
fn last_place<T: FromPlace>(before: &[T], end: &T) -> u128
    requires { IsAscending T.cmp (before.now ++ end.now ∷ []) }
    ensures fits { result < T.count }
    ensures is_member { member T.cmp (before.now ++ end.now ∷ []) (T.value result) ≡ true }
    ensures in_last { length before.now ≤
        count_up_to T.cmp (before.now ++ end.now ∷ []) (T.value result) }
    ensures highest { (n : ℕ) → result < n → n < T.count →
        member T.cmp (before.now ++ end.now ∷ []) (T.value n) ≡ false }
{
    end.known();
    know_last(before);
    if is_odd(before.len()) {
        end.place() - 1
    } else {
        T::greatest().place()
    }
}

// What is left above the lowest member: the boundaries from the next one's range on, and its place.
#[inline(always)]
fn above<T: Countable>(items: &[T], first: u128, last: u128) -> Option<(&[T], u128)>
    requires { AreEnds T.cmp T.value T.count items.now first last }
    ensures ends { IfSome result (λ left.
        AreEnds T.cmp T.value T.count left.0.now left.1 last) }
    ensures others { IfSome result (λ left.
        members_of T.cmp T.value items.now first (suc last - first) ≡
        T.value first ∷ members_of T.cmp T.value left.0.now left.1 (suc last - left.1)) }
    ensures none { IfNone result (members_of T.cmp T.value items.now first (suc last - first) ≡
        T.value first ∷ []) }
{
    if first >= last {
        return None;
    }
    let (_, others) = items.split_first()?;
    if let Some((end, rest)) = others.split_first() {
        end.known();
        if end.place() == first + 1 {
            let (start, _) = rest.split_first()?;
            start.known();
            return Some((rest, start.place()));
        }
    }
    Some((items, first + 1))
}

// What is left below the highest member: the boundaries up to the range of the one before it, and
// its place.
#[inline(always)]
fn below<T: Countable>(items: &[T], first: u128, last: u128) -> Option<(&[T], u128)>
    requires { AreEnds T.cmp T.value T.count items.now first last }
    ensures ends { IfSome result (λ left.
        AreEnds T.cmp T.value T.count left.0.now first left.1) }
    ensures others { IfSome result (λ left.
        members_of T.cmp T.value items.now first (suc last - first) ≡
        members_of T.cmp T.value left.0.now first (suc left.1 - first) ++ T.value last ∷ []) }
    ensures none { IfNone result (members_of T.cmp T.value items.now first (suc last - first) ≡
        T.value last ∷ []) }
{
    if first >= last {
        return None;
    }
    let (start, before) = last_start(items)?;
    start.known();
    if start.place() == last {
        let (end, others) = before.split_last()?;
        end.known();
        know_last(others);
        return Some((before, end.place() - 1));
    }
    Some((items, last - 1))
}

// The start of the last range, and the boundaries before it.
#[inline(always)]
fn last_start<T>(items: &[T]) -> Option<(&T, &[T])>
    ensures some { IfSome result (λ parts. (after : List T) ×
        (items.now ≡ parts.1.now ++ parts.0.now ∷ after) × (length after ≤ 1)) }
    ensures pairs { IfSome result (λ parts. length parts.1.now % 2 ≡ 0) }
    ensures none { IfNone result (items.now ≡ []) }
{
    let (last, before) = items.split_last()?;
    if is_odd(items.len()) {
        Some((last, before))
    } else {
        before.split_last()
    }
}
