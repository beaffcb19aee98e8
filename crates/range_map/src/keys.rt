//! The ranges of a map without their values, and the values without their ranges.
ghost use Rattle.std.specs.Prelude.{◌≡◌, map};
ghost use Rattle.std.specs.Iterator.{YieldsFirstBy, YieldsLastBy, item_count};
ghost use Rattle.range_collections.specs.Ranges.{range_now};

use crate::iter::Iter;
use range_collections::RangeSetRange;
use std::iter::FusedIterator;
use std::marker::Model;

/// The ranges that are still unread. A clause reads it as the list of these.
#[derive(Drop)]
pub struct Keys<'a, K, V> {
    entries: Iter<'a, K, V>,
}

impl<'a, K, V> Model for Keys<'a, K, V> {
    ghost use Rattle.std.specs.Prelude.{List, map};
    ghost use Rattle.range_collections.specs.declared.range_set_range.RangeSetRange.{RangeSetRange};

    ghost Value = { List (RangeSetRange K) };

    ghost view = { λ it. map (λ e. e.0) it.entries };
}

impl<'a, K, V> Keys<'a, K, V> {
    // The ranges of these entries.
    #[inline(always)]
    pub(crate) fn new(entries: Iter<'a, K, V>) -> Self
        ensures { result ≡ map (λ e. e.0) entries.entry }
    {
        Keys { entries }
    }
}

impl<'a, K, V> Iterator for Keys<'a, K, V> {
    type Item = RangeSetRange<&'a K>;

    ghost next_gives = { YieldsFirstBy range_now (λ ranges. ranges) };

    ghost remaining = { item_count (λ ranges. ranges) };

    #[inline]
    fn next(&mut self) -> Option<RangeSetRange<&'a K>> {
        let (range, _) = self.entries.next()?;
        Some(range)
    }
}

impl<'a, K, V> DoubleEndedIterator for Keys<'a, K, V> {
    ghost next_back_gives = { YieldsLastBy range_now (λ ranges. ranges) };

    #[inline]
    fn next_back(&mut self) -> Option<RangeSetRange<&'a K>> {
        let (range, _) = self.entries.next_back()?;
        Some(range)
    }
}

impl<'a, K, V> FusedIterator for Keys<'a, K, V> {}

/// The values that are still unread. A clause reads it as the list of these.
#[derive(Drop)]
pub struct Values<'a, K, V> {
    entries: Iter<'a, K, V>,
}

impl<'a, K, V> Model for Values<'a, K, V> {
    ghost use Rattle.std.specs.Prelude.{List, map};

    ghost Value = { List V };

    ghost view = { λ it. map (λ e. e.1) it.entries };
}

impl<'a, K, V> Values<'a, K, V> {
    // The values of these entries.
    #[inline(always)]
    pub(crate) fn new(entries: Iter<'a, K, V>) -> Self
        ensures { result ≡ map (λ e. e.1) entries.entry }
    {
        Values { entries }
    }
}

impl<'a, K, V> Iterator for Values<'a, K, V> {
    type Item = &'a V;

    ghost next_gives = { YieldsFirstBy (λ value. value.now) (λ values. values) };

    ghost remaining = { item_count (λ values. values) };

    #[inline]
    fn next(&mut self) -> Option<&'a V> {
        let (_, value) = self.entries.next()?;
        Some(value)
    }
}

impl<'a, K, V> DoubleEndedIterator for Values<'a, K, V> {
    ghost next_back_gives = { YieldsLastBy (λ value. value.now) (λ values. values) };

    #[inline]
    fn next_back(&mut self) -> Option<&'a V> {
        let (_, value) = self.entries.next_back()?;
        Some(value)
    }
}

impl<'a, K, V> FusedIterator for Values<'a, K, V> {}
