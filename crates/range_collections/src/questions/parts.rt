//! The parts of a range that are in a set, those that the set leaves out, and the whole ranges that
//! share an element with a range.
ghost use Rattle.std.specs.Prelude.{◌≡◌, ◌<◌, ◌≤◌, ◌+◌, ◌-◌, ◌*◌, ◌%◌, ◌^◌, false, length, take, drop, filter};
ghost use Rattle.std.specs.Iterator.{YieldsFirstBy};
ghost use Rattle.range_merge.specs.Boundaries.{IsAscending, is_odd};
ghost use Rattle.range_merge.specs.Counting.{AddsAtMost};
ghost use Rattle.range_collections.specs.Overlapping.{overlaps};
ghost use Rattle.range_collections.specs.Ranges.{ranges_of};
ghost use Rattle.range_collections.specs.Within.{GivesParts, borrowed_items, within_table};

use crate::boundaries::{Boundaries, Unread};
use crate::comparisons::Comparisons;
use crate::range_set_range::has_elements;
use std::ops::Range;

/// Boundaries by reference: a first one and a last one, if they are given, and those between.
#[derive(Drop)]
pub struct Within<'a, T, U> {
    pub first: Option<&'a T>,
    pub between: U,
    pub last: Option<&'a T>,
}

/// The boundaries of the parts of `within` whose elements are members, if `inside` is true, or else
/// no members.
#[inline(always)]
pub fn parts_within<'a, T: Ord + 'a, L: Boundaries<'a, T>>(
    list: L,
    within: Range<&'a T>,
    inside: bool,
    count: &mut Comparisons,
) -> Within<'a, T, L::Unread>
    requires sorted { IsAscending T.cmp (L.items list) }
    requires made { count.old < 2 ^ 64 }
    ensures even { is_odd (length
        (borrowed_items result.first (L.Unread.unread result.between) result.last)) ≡ false }
    ensures gives { GivesParts T.cmp (within_table inside) within.entry (L.items list)
        (borrowed_items result.first (L.Unread.unread result.between) result.last) }
    ensures comparisons { AddsAtMost count.old count.new (2 * L.cost list + 1) }
    ensures sharp { AddsAtMost count.old count.new (2 * L.sharp_cost list + 1) }
{
    if !has_elements(within.start, within.end, count) {
        return Within {
            first: None,
            between: list.between(list.front(), list.front()),
            last: None,
        };
    }
    let from = list.up_to(within.start, count);
    let to = list.below(within.end, count);
    let first = (list.is_odd(from) == inside).then_some(within.start);
    let last = (list.is_odd(to) == inside).then_some(within.end);
    Within {
        first,
        between: list.between(from, to),
        last,
    }
}

/// Takes the first boundary out.
#[inline(always)]
pub fn take_first<'a, T: 'a, U: Unread<'a, T>>(it: &mut Within<'a, T, U>) -> Option<&'a T>
    ensures { YieldsFirstBy (λ x. x.now) (λ it. borrowed_items it.first (U.unread it.between) it.last)
        it.old result it.new }
{
    if let Some(first) = it.first.take() {
        return Some(first);
    }
    match it.between.take_first() {
        Some(first) => Some(first),
        None => it.last.take(),
    }
}

/// Between which positions the ranges lie that share an element with the one from `start` on and
/// below `end`. Both are the front if none does.
#[inline(always)]
pub fn overlapping<'a, T: Ord + 'a, L: Boundaries<'a, T>>(
    list: L,
    start: &T,
    end: &T,
) -> (L::Position, L::Position)
    requires { IsAscending T.cmp (L.items list) }
    ensures from { L.is_position list result.0 }
    ensures to { L.is_position list result.1 }
    ensures ordered { L.index list result.0 ≤ L.index list result.1 }
    ensures even { is_odd (L.index list result.0) ≡ false }
    ensures ranges { ranges_of (take (L.index list result.1 - L.index list result.0)
        (drop (L.index list result.0) (L.items list))) ≡
        filter (overlaps T.cmp start.now end.now) (ranges_of (L.items list)) }
{
    if !has_elements(start, end, &mut Comparisons::new()) {
        return (list.front(), list.front());
    }
    let from = list.up_to(start, &mut Comparisons::new());
    let to = list.below(end, &mut Comparisons::new());
    (before_range(list, from), after_range(list, to))
}

// The position before the range that a position lies in, or else the position itself.
#[inline(always)]
fn before_range<'a, T: Ord + 'a, L: Boundaries<'a, T>>(list: L, at: L::Position) -> L::Position
    requires { L.is_position list at }
    ensures position { L.is_position list result }
    ensures before { L.index list result + L.index list at % 2 ≡ L.index list at }
{
    if list.is_odd(at) {
        list.position_before(at)
    } else {
        at
    }
}

// The position after the range that a position lies in, which is the end if that range has none, or
// else the position itself.
#[inline(always)]
fn after_range<'a, T: Ord + 'a, L: Boundaries<'a, T>>(list: L, at: L::Position) -> L::Position
    requires position { L.is_position list at }
    requires within { L.index list at ≤ length (L.items list) }
    ensures position { L.is_position list result }
    ensures at_least { L.index list at ≤ L.index list result }
    ensures at_most { L.index list result ≤ L.index list at + L.index list at % 2 }
    ensures within { L.index list result ≤ length (L.items list) }
    ensures even { L.index list result < length (L.items list) → L.index list result % 2 ≡ 0 }
{
    match list.item_at(at) {
        Some(_) if list.is_odd(at) => list.position_after(at),
        _ => at,
    }
}
