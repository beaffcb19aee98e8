//! The range at an element, and boundaries taken two by two.
ghost use Rattle.std.specs.Prelude.{◌≡◌, ◌↔◌, ◌<◌, ◌+◌, ◌-◌, ◌∷◌, ◌^◌, true, drop, Contains, IsSome, IfSome, MatchOption};
ghost use Rattle.std.specs.Iterator.{YieldsFirstBy};
ghost use Rattle.range_merge.specs.Boundaries.{IsAscending, member};
ghost use Rattle.range_merge.specs.Counting.{AddsAtMost};
ghost use Rattle.range_collections.specs.Ranges.{ranges_of, range_now, IsInRange};

use crate::boundaries::{Boundaries, Unread};
use crate::comparisons::Comparisons;
use crate::range_set_range::RangeSetRange;
use std::ops::{Range, RangeFrom};

/// The range that holds the element, or `None` if it isn't a member.
#[inline(always)]
pub fn range_at<'a, T: Ord + 'a, L: Boundaries<'a, T>>(
    list: L,
    value: &T,
    count: &mut Comparisons,
) -> Option<RangeSetRange<&'a T>>
    requires sorted { IsAscending T.cmp (L.items list) }
    requires made { count.old < 2 ^ 64 }
    ensures member { IsSome result ↔ (member T.cmp (L.items list) value.now ≡ true) }
    ensures of_set { IfSome result (λ range.
        Contains (ranges_of (L.items list)) (range_now range)) }
    ensures holds { IfSome result (λ range. IsInRange T.cmp (range_now range) value.now) }
    ensures members { IfSome result (λ range. (x : T) →
        IsInRange T.cmp (range_now range) x → member T.cmp (L.items list) x ≡ true) }
    ensures comparisons { AddsAtMost count.old count.new (L.cost list) }
{
    let after = list.up_to(value, count);
    if !list.is_odd(after) {
        return None;
    }
    range_around(list, after)
}

/// Takes the first range out of boundaries that are still unread.
#[inline(always)]
pub fn next_range<'a, T: 'a, U: Unread<'a, T>>(unread: &mut U) -> Option<RangeSetRange<&'a T>>
    ensures { YieldsFirstBy range_now (λ it. ranges_of (U.unread it)) unread.old result unread.new }
{
    let start = unread.take_first()?;
    match unread.take_first() {
        Some(end) => Some(RangeSetRange::Range(Range { start, end })),
        None => Some(RangeSetRange::RangeFrom(RangeFrom { start })),
    }
}

// The range that starts with the boundary before a position, or `None` at the front.
#[inline(always)]
fn range_around<'a, T: Ord + 'a, L: Boundaries<'a, T>>(
    list: L,
    at: L::Position,
) -> Option<RangeSetRange<&'a T>>
    requires { L.is_position list at }
    ensures { MatchOption result (L.index list at ≡ 0) (λ range.
        ranges_of (drop (L.index list at - 1) (L.items list)) ≡
        range_now range ∷ ranges_of (drop (L.index list at + 1) (L.items list))) }
{
    let start = list.item_before(at)?;
    match list.item_at(at) {
        Some(end) => Some(RangeSetRange::Range(Range { start, end })),
        None => Some(RangeSetRange::RangeFrom(RangeFrom { start })),
    }
}
