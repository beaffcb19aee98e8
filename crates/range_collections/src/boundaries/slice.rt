//! Boundaries in a slice: a position is its index.
ghost use Rattle.std.specs.Prelude.{◌<◌, ◌^◌, length};
ghost use Rattle.range_merge.specs.Boundaries.{IsAscending};
ghost use Rattle.range_merge.specs.Counting.{AddsAtMost};
ghost use Rattle.range_merge.specs.Runs.{digits};
ghost use Rattle.range_collections.specs.Splicing.{IsCut};

use crate::boundaries::Boundaries;
use crate::changes::cut;
use crate::comparisons::Comparisons;
use crate::lists::is_odd;
use range_merge::{count_up_to, search};

impl<'a, T: Ord> Boundaries<'a, T> for &'a [T] {
    ghost use Rattle.std.specs.Prelude.{◌≤◌};

    type Position = usize;

    type Unread = &'a [T];

    ghost items = { λ list. list.now };

    ghost is_position = { λ list at. at ≤ length list.now };

    ghost index = { λ _ at. at };

    ghost cost = { λ list. digits (length list.now) };

    ghost sharp_cost = { λ list. digits (length list.now) };

    #[inline(always)]
    fn up_to(&self, value: &T, count: &mut Comparisons) -> usize {
        // `len` is called for its clause that it is a `usize`, which the proof cites.
        let _length = self.len();
        count_up_to(*self, value, count)
    }

    #[inline(always)]
    fn below(&self, value: &T, count: &mut Comparisons) -> usize {
        // `len` is called for its clause that it is a `usize`, which the proof cites.
        let _length = self.len();
        match search(*self, value, count) {
            Ok(i) => i,
            Err(i) => i,
        }
    }

    #[inline(always)]
    fn find(&self, value: &T, count: &mut Comparisons) -> Result<usize, usize> {
        // `len` is called for its clause that it is a `usize`, which the proof cites.
        let _length = self.len();
        search(*self, value, count)
    }

    #[inline(always)]
    fn find_from(&self, _from: usize, value: &T, count: &mut Comparisons) -> Result<usize, usize> {
        search(*self, value, count)
    }

    #[inline(always)]
    fn front(&self) -> usize {
        0
    }

    #[inline(always)]
    fn is_odd(&self, at: usize) -> bool {
        is_odd(at)
    }

    #[inline(always)]
    fn item_at(&self, at: usize) -> Option<&'a T> {
        (*self).get(at)
    }

    #[inline(always)]
    fn item_before(&self, at: usize) -> Option<&'a T> {
        match at.checked_sub(1) {
            Some(i) => (*self).get(i),
            None => None,
        }
    }

    #[inline(always)]
    fn position_before(&self, at: usize) -> usize {
        at - 1
    }

    #[inline(always)]
    fn position_after(&self, at: usize) -> usize {
        // `len` is called for its clause that it is a `usize`, which the proof cites.
        let _length = self.len();
        at + 1
    }

    #[inline(always)]
    fn between(&self, from: usize, to: usize) -> &'a [T] {
        &(*self)[from..to]
    }
}

/// `changes::cut_at` for a slice. It takes a counter that has made more comparisons.
#[inline]
pub fn cut_at<T: Ord + Drop>(
    items: &[T],
    at: T,
    inside: bool,
    count: &mut Comparisons,
) -> (usize, Option<T>)
    requires sorted { IsAscending T.cmp items.now }
    requires made { count.old < 2 ^ 127 }
    ensures cut { IsCut T.cmp inside items.now at result.0 result.1 }
    ensures comparisons { AddsAtMost count.old count.new (digits (length items.now)) }
{
    let found = search(items, &at, count);
    cut(items, found, at, inside)
}
