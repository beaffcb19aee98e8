//! Where boundaries are cut around an element, so that a range can be set from there on or up to
//! there.
ghost use Rattle.std.specs.Prelude.{◌≡◌, ◌+◌, ◌*◌, ◌<◌, ◌^◌, length, IfOk, MatchResult};
ghost use Rattle.std.specs.declared.cmp.Ordering.TheVariants.{Less};
ghost use Rattle.range_merge.specs.Boundaries.{IsAscending};
ghost use Rattle.range_merge.specs.Counting.{AddsAtMost};
ghost use Rattle.range_collections.specs.Splicing.{Finds, IsCut};

use crate::boundaries::Boundaries;
use crate::comparisons::Comparisons;

/// Where boundaries are cut around an element, so that the number of those before the cut is odd
/// exactly if `inside` is true. Returns the position of the cut, and the element if it has to be
/// put there for that. A boundary equal to the element stands before the cut or after it, by that
/// number.
#[inline]
pub fn cut_at<'a, T: Ord + Drop + 'a, L: Boundaries<'a, T>>(
    list: L,
    at: T,
    inside: bool,
    count: &mut Comparisons,
) -> (L::Position, Option<T>)
    requires sorted { IsAscending T.cmp (L.items list) }
    requires made { count.old < 2 ^ 126 }
    ensures position { L.is_position list result.0 }
    ensures cut { IsCut T.cmp inside (L.items list) at (L.index list result.0) result.1 }
    ensures comparisons { AddsAtMost count.old count.new (L.cost list) }
{
    let found = list.find(&at, count);
    cut(list, found, at, inside)
}

/// Where boundaries are cut around the start and around the end of a range.
#[inline(always)]
pub fn cut_around<'a, T: Ord + Drop + 'a, L: Boundaries<'a, T>>(
    list: L,
    start: T,
    end: T,
    inside: bool,
    count: &mut Comparisons,
) -> ((L::Position, Option<T>), (L::Position, Option<T>))
    requires less { T.cmp start end ≡ Less }
    requires sorted { IsAscending T.cmp (L.items list) }
    requires made { count.old < 2 ^ 65 }
    ensures from { L.is_position list result.0.0 }
    ensures to { L.is_position list result.1.0 }
    ensures start { IsCut T.cmp inside (L.items list) start (L.index list result.0.0) result.0.1 }
    ensures end { IsCut T.cmp inside (L.items list) end (L.index list result.1.0) result.1.1 }
    ensures comparisons { AddsAtMost count.old count.new (2 * L.cost list) }
{
    let found = list.find(&start, count);
    let above = position_above(list, found);
    let first = cut(list, found, start, inside);
    let found = list.find_from(above, &end, count);
    (first, cut(list, found, end, inside))
}

// Where boundaries are cut around an element that was found, or would go, at a known position.
#[inline(always)]
pub(crate) fn cut<'a, T: Ord + Drop + 'a, L: Boundaries<'a, T>>(
    list: L,
    found: Result<L::Position, L::Position>,
    at: T,
    inside: bool,
) -> (L::Position, Option<T>)
    requires sorted { IsAscending T.cmp (L.items list) }
    requires positions { MatchResult found (L.is_position list) (L.is_position list) }
    requires found { Finds T.cmp (L.items list) at (L.index list) found }
    ensures position { L.is_position list result.0 }
    ensures cut { IsCut T.cmp inside (L.items list) at (L.index list result.0) result.1 }
{
    match found {
        Ok(p) if list.is_odd(p) == inside => (p, None),
        Ok(p) => (list.position_after(p), None),
        Err(p) if list.is_odd(p) == inside => (p, None),
        Err(p) => (p, Some(at)),
    }
}

// The position after all boundaries at or below an element that was found, or would go, at a known
// position.
#[inline(always)]
fn position_above<'a, T: Ord + 'a, L: Boundaries<'a, T>>(
    list: L,
    found: Result<L::Position, L::Position>,
) -> L::Position
    requires positions { MatchResult found (L.is_position list) (L.is_position list) }
    requires within { IfOk found (λ p. L.index list p < length (L.items list)) }
    ensures position { L.is_position list result }
    ensures above { MatchResult found
        (λ p. L.index list result ≡ L.index list p + 1) (λ p. result ≡ p) }
{
    match found {
        Ok(p) => list.position_after(p),
        Err(p) => p,
    }
}
