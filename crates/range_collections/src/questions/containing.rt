//! Whether an element is a member, and all or some of those in a range.
ghost use Rattle.std.specs.Prelude.{◌≡◌, ◌↔◌, ◌<◌, ◌+◌, ◌^◌, IsTrue, length, min};
ghost use Rattle.range_merge.specs.Boundaries.{IsAscending, member};
ghost use Rattle.range_merge.specs.Counting.{AddsAtMost};
ghost use Rattle.range_collections.specs.Extent.{HasAllWithin};
ghost use Rattle.range_collections.specs.Intersects.{HasMemberWithin, IsItemBelow};
ghost use Rattle.range_collections.specs.Values.{IsEverything};

use crate::boundaries::{Boundaries, Unread};
use crate::comparisons::Comparisons;
use crate::range_set_range::has_elements;
use range_entry::RangeSetEntry;
use range_merge::Compare;

/// Whether the element is a member: an odd number of boundaries is at or below it.
#[inline(always)]
pub fn contains<'a, T: Ord + 'a, L: Boundaries<'a, T>>(
    list: L,
    value: &T,
    count: &mut Comparisons,
) -> bool
    requires sorted { IsAscending T.cmp (L.items list) }
    requires made { count.old < 2 ^ 64 }
    ensures member { result ≡ member T.cmp (L.items list) value.now }
    ensures comparisons { AddsAtMost count.old count.new (L.cost list) }
{
    list.is_odd(list.up_to(value, count))
}

/// Whether every element from `start` on and below `end` is a member. It is so if there is none.
#[inline(always)]
pub fn has_all<'a, T: Ord + 'a, L: Boundaries<'a, T>>(
    list: L,
    start: &T,
    end: &T,
    count: &mut Comparisons,
) -> bool
    requires sorted { IsAscending T.cmp (L.items list) }
    requires made { count.old < 2 ^ 64 }
    ensures members { IsTrue result ↔ HasAllWithin T.cmp (L.items list) start.now end.now }
    ensures comparisons { AddsAtMost count.old count.new
        (L.cost list + min 1 (length (L.items list)) + 1) }
{
    if !has_elements(start, end, count) {
        return true;
    }
    let before = list.up_to(start, count);
    if !list.is_odd(before) {
        return false;
    }
    !is_item_below(list, before, end, count)
}

/// Whether some element from `start` on and below `end` is a member.
#[inline(always)]
pub fn has_some<'a, T: Ord + 'a, L: Boundaries<'a, T>>(list: L, start: &T, end: &T) -> bool
    requires { IsAscending T.cmp (L.items list) }
    ensures { IsTrue result ↔ HasMemberWithin T.cmp (L.items list) start.now end.now }
{
    if !has_elements(start, end, &mut Comparisons::new()) {
        return false;
    }
    let before = list.up_to(start, &mut Comparisons::new());
    if list.is_odd(before) {
        return true;
    }
    is_item_below(list, before, end, &mut Comparisons::new())
}

/// Whether every value is a member.
#[inline]
pub fn is_all<'a, T: RangeSetEntry + 'a, U: Unread<'a, T>>(boundaries: U) -> bool
    requires { IsAscending T.cmp (U.unread boundaries) }
    ensures { IsTrue result ↔ IsEverything T.cmp T.is_value (U.unread boundaries) }
{
    let mut unread = boundaries;
    let Some(first) = unread.take_first() else {
        return false;
    };
    match unread.take_first() {
        Some(second) => {
            second.known();
            false
        }
        None => {
            first.known();
            first.is_min_value()
        }
    }
}

// Whether there is a boundary at a position, and it is below `end`.
#[inline(always)]
fn is_item_below<'a, T: Ord + 'a, L: Boundaries<'a, T>>(
    list: L,
    at: L::Position,
    end: &T,
    count: &mut Comparisons,
) -> bool
    requires position { L.is_position list at }
    requires made { count.old < 2 ^ 126 }
    ensures below { IsTrue result ↔ IsItemBelow T.cmp (L.items list) (L.index list at) end.now }
    ensures comparisons { AddsAtMost count.old count.new 1 }
{
    match list.item_at(at) {
        Some(next) => count.compare(next, end).is_lt(),
        None => false,
    }
}
