//! The members of a set in chunks one by one, from the lowest on and from the highest down, of values
//! that stand in a row.
ghost use Rattle.std.specs.Prelude.{◌≡◌, ◌∷◌, ◌++◌, [], Some, IfSome};
ghost use Rattle.std.specs.Iterator.{YieldsFirst, YieldsLast, item_count};
ghost use Rattle.range_collections.specs.Members.{members_of};
ghost use Rattle.range_chunks.specs.Members.{members_between, AreOuter};

use crate::set::ChunkedRangeSet;
use range_collections::FromPlace;
use std::iter::FusedIterator;
use std::marker::Model;

/// The members of a set in chunks that are still unread, one by one. A clause reads it as their
/// list, from the lowest on.
#[derive(Drop)]
pub struct Members<'a, T: FromPlace> {
    set: &'a ChunkedRangeSet<T>,
    // The places of the lowest of them and of the highest, if there is one.
    ends: Option<(u128, u128)>,
}

impl<'a, T: FromPlace> Model for Members<'a, T> {
    ghost use Rattle.std.specs.Prelude.{List, IfSome};
    ghost use Rattle.range_chunks.specs.Members.{members_between, AreOuter};

    ghost Value = { List T };

    ghost view = { λ it. members_between T.cmp T.value it.set.now it.ends };

    ghost invariant = { λ it. IfSome it.ends (λ ends.
        AreOuter T.cmp T.value T.count it.set.now ends.0 ends.1) };
}

impl<'a, T: FromPlace> Members<'a, T> {
    // The members of the set.
    pub(crate) fn new(set: &'a ChunkedRangeSet<T>) -> Self
        ensures { result ≡ members_of T.cmp T.value set.now 0 T.count }
    {
        Members {
            set,
            ends: outer(set),
        }
    }
}

impl<'a, T: FromPlace> Iterator for Members<'a, T> {
    type Item = T;

    ghost next_gives = { YieldsFirst (λ members. members) };

    ghost remaining = { item_count (λ members. members) };

    fn next(&mut self) -> Option<T> {
        let (first, last) = self.ends?;
        let lowest = T::from_place(first)?;
        self.ends = above(self.set, first, last);
        Some(lowest)
    }
}

impl<'a, T: FromPlace> DoubleEndedIterator for Members<'a, T> {
    ghost next_back_gives = { YieldsLast (λ members. members) };

    fn next_back(&mut self) -> Option<T> {
        let (first, last) = self.ends?;
        let highest = T::from_place(last)?;
        self.ends = below(self.set, first, last);
        Some(highest)
    }
}

impl<'a, T: FromPlace> FusedIterator for Members<'a, T> {}

// The places of the lowest member and of the highest, if there is one.
fn outer<T: FromPlace>(set: &ChunkedRangeSet<T>) -> Option<(u128, u128)>
    ensures ends { IfSome result (λ ends.
        AreOuter T.cmp T.value T.count set.now ends.0 ends.1) }
    ensures all { members_of T.cmp T.value set.now 0 T.count ≡
        members_between T.cmp T.value set.now result }
{
    let least = T::from_place(0)?;
    let lowest = set.next_member(&least)?;
    lowest.known();
    let highest = set.prev_member(&T::greatest())?;
    Some((lowest.place(), highest.place()))
}

// The places of the outer members without the lowest one.
fn above<T: FromPlace>(set: &ChunkedRangeSet<T>, first: u128, last: u128) -> Option<(u128, u128)>
    requires { AreOuter T.cmp T.value T.count set.now first last }
    ensures ends { IfSome result (λ ends.
        AreOuter T.cmp T.value T.count set.now ends.0 ends.1) }
    ensures others { members_between T.cmp T.value set.now (Some (first, last)) ≡
        T.value first ∷ members_between T.cmp T.value set.now result }
{
    if first >= last {
        return None;
    }
    let next = T::from_place(first + 1)?;
    let lowest = set.next_member(&next)?;
    lowest.known();
    Some((lowest.place(), last))
}

// The places of the outer members without the highest one.
fn below<T: FromPlace>(set: &ChunkedRangeSet<T>, first: u128, last: u128) -> Option<(u128, u128)>
    requires { AreOuter T.cmp T.value T.count set.now first last }
    ensures ends { IfSome result (λ ends.
        AreOuter T.cmp T.value T.count set.now ends.0 ends.1) }
    ensures others { members_between T.cmp T.value set.now (Some (first, last)) ≡
        members_between T.cmp T.value set.now result ++ T.value last ∷ [] }
{
    if first >= last {
        return None;
    }
    let before = T::from_place(last - 1)?;
    let highest = set.prev_member(&before)?;
    Some((first, highest.place()))
}
