//! The ranges of a set in chunks, from the lowest on and from the highest down.
ghost use Rattle.std.specs.Prelude.{◌≡◌, ◌≤◌, ◌-◌, false, take, drop, length};
ghost use Rattle.std.specs.Cmp.Lexicographic.{pointwise};
ghost use Rattle.std.specs.Iterator.{YieldsFirstBy, YieldsLastBy, item_count};
ghost use Rattle.range_merge.specs.Boundaries.{is_odd};
ghost use Rattle.range_collections.specs.Ranges.{ranges_of, range_now};
ghost use Rattle.range_list.specs.Lists.{joined, place_at, IsPlaceAt};

use range_collections::RangeSetRange;
use range_list::{Chunks, Items, Place};
use std::iter::FusedIterator;
use std::marker::Model;
use std::ops::{Range, RangeFrom};

/// The ranges of the boundaries that are still unread. A clause reads it as the list of those
/// boundaries.
#[derive(Drop)]
pub struct Iter<'a, T> {
    unread: Items<'a, T, bool>,
    /// Whether the last range has no end.
    endless: bool,
}

impl<'a, T> Model for Iter<'a, T> {
    ghost use Rattle.std.specs.Prelude.{◌≡◌, List, length};
    ghost use Rattle.range_merge.specs.Boundaries.{is_odd};

    ghost Value = { List T };

    ghost view = { λ it. it.unread };

    ghost invariant = { λ it. it.endless ≡ is_odd (length it.unread) };
}

impl<'a, T> Iter<'a, T> {
    /// The ranges of these boundaries.
    #[inline(always)]
    pub fn new(list: &'a Chunks<T, bool>) -> Self
        ensures { result ≡ joined list.now }
    {
        Iter {
            unread: list.items(),
            endless: is_endless(list),
        }
    }

    // The ranges of the boundaries between two places, of which the first doesn't lie in a range.
    pub(crate) fn between(list: &'a Chunks<T, bool>, from: Place, to: Place) -> Self
        requires from { IsPlaceAt list.now from }
        requires to { IsPlaceAt list.now to }
        requires ordered { place_at list.now from ≤ place_at list.now to }
        requires even { is_odd (place_at list.now from) ≡ false }
        ensures { result ≡ take (place_at list.now to - place_at list.now from)
            (drop (place_at list.now from) (joined list.now)) }
    {
        Iter {
            unread: list.between(from, to),
            endless: list.mark_at(to),
        }
    }
}

impl<'a, T> Iterator for Iter<'a, T> {
    type Item = RangeSetRange<&'a T>;

    ghost next_gives = { YieldsFirstBy range_now ranges_of };

    ghost remaining = { item_count ranges_of };

    #[inline]
    fn next(&mut self) -> Option<RangeSetRange<&'a T>> {
        let start = self.unread.take_first()?;
        match self.unread.take_first() {
            Some(end) => Some(RangeSetRange::Range(Range { start, end })),
            None => {
                self.endless = false;
                Some(RangeSetRange::RangeFrom(RangeFrom { start }))
            }
        }
    }
}

impl<'a, T> DoubleEndedIterator for Iter<'a, T> {
    ghost next_back_gives = { YieldsLastBy range_now ranges_of };

    fn next_back(&mut self) -> Option<RangeSetRange<&'a T>> {
        let last = self.unread.take_last()?;
        if self.endless {
            self.endless = false;
            return Some(RangeSetRange::RangeFrom(RangeFrom { start: last }));
        }
        let start = self.unread.take_last()?;
        Some(RangeSetRange::Range(Range { start, end: last }))
    }
}

impl<'a, T> FusedIterator for Iter<'a, T> {}

/// Whether the last range of these boundaries has no end: their number is odd.
#[inline]
pub(crate) fn is_endless<T>(list: &Chunks<T, bool>) -> bool
    ensures { result ≡ is_odd (length (joined list.now)) }
{
    list.mark_at(list.end())
}

/// Whether both have equal boundaries, and as many.
pub(crate) fn are_equal<T: PartialEq>(these: &Chunks<T, bool>, those: &Chunks<T, bool>) -> bool
    ensures { result ≡ pointwise T.eq (joined these.now) (joined those.now) }
{
    let (mut these, mut those) = (these.items(), those.items());
    while let Some(this) = these.take_first() {
        match those.take_first() {
            Some(that) if this == that => {}
            _ => return false,
        }
    }
    those.take_first().is_none()
}
