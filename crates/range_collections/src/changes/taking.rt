//! The first range and the last one taken out of a list of boundaries, which takes no memory.
ghost use Rattle.std.specs.Prelude.{◌≡◌, ◌++◌, ◌∷◌, [], MatchOption};
ghost use Rattle.range_merge.specs.Boundaries.{IsAscending};
ghost use Rattle.range_collections.specs.Ranges.{ranges_of};

use crate::changes::Splice;
use crate::range_set_range::RangeSetRange;
use std::ops::{Range, RangeFrom};

/// Takes the first range out.
pub fn take_first_range<T: Ord + Drop, L: Splice<T>>(list: &mut L) -> Option<RangeSetRange<T>>
    requires { IsAscending T.cmp (L.items list.old) }
    ensures sorted { IsAscending T.cmp (L.items list.new) }
    ensures range { MatchOption result ((L.items list.old ≡ []) × (L.items list.new ≡ []))
        (λ range. ranges_of (L.items list.old) ≡ range ∷ ranges_of (L.items list.new)) }
{
    match list.take_first_two()? {
        (start, Some(end)) => Some(RangeSetRange::Range(Range { start, end })),
        (start, None) => Some(RangeSetRange::RangeFrom(RangeFrom { start })),
    }
}

/// Takes the last range out.
pub fn take_last_range<T: Ord + Drop, L: Splice<T>>(list: &mut L) -> Option<RangeSetRange<T>>
    requires { IsAscending T.cmp (L.items list.old) }
    ensures sorted { IsAscending T.cmp (L.items list.new) }
    ensures range { MatchOption result ((L.items list.old ≡ []) × (L.items list.new ≡ []))
        (λ range. ranges_of (L.items list.old) ≡ ranges_of (L.items list.new) ++ range ∷ []) }
{
    let endless = list.is_endless();
    let last = list.take_last()?;
    if endless {
        return Some(RangeSetRange::RangeFrom(RangeFrom { start: last }));
    }
    let start = list.take_last()?;
    Some(RangeSetRange::Range(Range { start, end: last }))
}
