//! The ranges of a set, from the lowest on and from the highest down, and the ranges of a set
//! within two ends, each of which has an end.
ghost use Rattle.std.specs.Prelude.{◌≡◌, false, [], length};
ghost use Rattle.std.specs.Iterator.{YieldsFirstBy, YieldsLastBy, item_count};
ghost use Rattle.range_merge.specs.Boundaries.{is_odd};
ghost use Rattle.range_collections.specs.Ranges.{ranges_of, range_now};
ghost use Rattle.range_collections.specs.Within.{borrowed_items, with_end};

use crate::lists::is_odd;
use crate::questions::{Within, take_first};
use crate::range_set_range::RangeSetRange;
use std::iter::FusedIterator;
use std::marker::Model;
use std::ops::{Range, RangeFrom};

/// The ranges of the boundaries that are still unread. A clause reads it as the list of those
/// boundaries.
#[derive(Drop)]
pub struct Iter<'a, T> {
    unread: &'a [T],
}

impl<'a, T> Model for Iter<'a, T> {
    ghost use Rattle.std.specs.Prelude.{List};

    ghost Value = { List T };

    ghost view = { λ s. s.unread.now };
}

impl<'a, T> Iter<'a, T> {
    // The ranges of these boundaries.
    #[inline(always)]
    pub(crate) fn new(boundaries: &'a [T]) -> Self
        ensures { result ≡ boundaries.now }
    {
        Iter { unread: boundaries }
    }
}

impl<'a, T> Iterator for Iter<'a, T> {
    type Item = RangeSetRange<&'a T>;

    ghost next_gives = { YieldsFirstBy range_now ranges_of };

    ghost remaining = { item_count ranges_of };

    fn next(&mut self) -> Option<RangeSetRange<&'a T>> {
        let (start, others) = self.unread.split_first()?;
        match others.split_first() {
            Some((end, rest)) => {
                self.unread = rest;
                Some(RangeSetRange::Range(Range { start, end }))
            }
            None => {
                self.unread = others;
                Some(RangeSetRange::RangeFrom(RangeFrom { start }))
            }
        }
    }

    fn size_hint(&self) -> (usize, Option<usize>) {
        let left = self.len();
        (left, Some(left))
    }
}

impl<'a, T> DoubleEndedIterator for Iter<'a, T> {
    ghost next_back_gives = { YieldsLastBy range_now ranges_of };

    fn next_back(&mut self) -> Option<RangeSetRange<&'a T>> {
        let (last, before) = self.unread.split_last()?;
        match before.split_last() {
            Some((start, rest)) if !is_odd(rest.len()) => {
                self.unread = rest;
                Some(RangeSetRange::Range(Range { start, end: last }))
            }
            _ => {
                self.unread = before;
                Some(RangeSetRange::RangeFrom(RangeFrom { start: last }))
            }
        }
    }
}

impl<'a, T> ExactSizeIterator for Iter<'a, T> {
    /// Half as many as the unread boundaries, rounded up.
    #[inline]
    fn len(&self) -> usize {
        self.unread.len().div_ceil(2)
    }
}

impl<'a, T> FusedIterator for Iter<'a, T> {}

/// The parts of a range that a set leaves out, from the lowest on. A clause reads it as the list of
/// the boundaries that are still unread.
pub type Gaps<'a, T> = RangesWithin<'a, T>;

/// The parts of a range that are in a set, from the lowest on. A clause reads it as the list of the
/// boundaries that are still unread, of which there is an even number.
#[derive(Drop)]
pub struct RangesWithin<'a, T> {
    unread: Within<'a, T, &'a [T]>,
}

impl<'a, T> Model for RangesWithin<'a, T> {
    ghost use Rattle.std.specs.Prelude.{◌≡◌, List, false, length};
    ghost use Rattle.range_merge.specs.Boundaries.{is_odd};
    ghost use Rattle.range_collections.specs.Within.{borrowed_items};

    ghost Value = { List T };

    ghost view = { λ it. borrowed_items it.unread.first it.unread.between.now it.unread.last };

    ghost invariant = { λ it. is_odd (length
        (borrowed_items it.unread.first it.unread.between.now it.unread.last)) ≡ false };
}

impl<'a, T> RangesWithin<'a, T> {
    // The ranges of these boundaries, of which there has to be an even number.
    #[inline(always)]
    pub(crate) fn new(unread: Within<'a, T, &'a [T]>) -> Self
        requires { is_odd (length (borrowed_items unread.first unread.between.now unread.last)) ≡ false }
        ensures { result ≡
            borrowed_items unread.entry.first unread.entry.between.now unread.entry.last }
    {
        RangesWithin { unread }
    }
}

impl<'a, T> Iterator for RangesWithin<'a, T> {
    type Item = Range<&'a T>;

    ghost next_gives = { YieldsFirstBy with_end ranges_of };

    ghost remaining = { item_count ranges_of };

    fn next(&mut self) -> Option<Range<&'a T>> {
        let start = take_first(&mut self.unread)?;
        let end = take_first(&mut self.unread)?;
        Some(Range { start, end })
    }
}

impl<'a, T> FusedIterator for RangesWithin<'a, T> {}
