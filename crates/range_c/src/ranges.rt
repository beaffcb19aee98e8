//! Sets from ranges in any order, in place. Of those without an end the one that starts first is
//! given apart.
ghost use Rattle.std.specs.Prelude.{◌≡◌, ◌+◌, ◌<◌, ◌≤◌, ◌||◌, ℕ, true, cond, All, Some, None, length, take, drop};
ghost use Rattle.std.specs.List.Sorted.{IsSortedByKey};
ghost use Rattle.std.specs.Option.{option_to_list};
ghost use Rattle.std.specs.Ordering.{is_le};
ghost use Rattle.range_collections.specs.Boundaries.{IsAscending};
ghost use Rattle.range_c.specs.Ranges.{ends_of, is_from, IsUnionOf, IsUnionFrom};
ghost use Rattle.range_c.specs.Joining.{IsPut};

use crate::ends::Ends;
use range_collections::{Comparisons, has_elements};

// Moves the ranges of the set of all numbers in the ranges to the front, as many as it returns.
// Empty and reversed ones have no number.
pub(crate) fn from_ranges<E: Ends>(ranges: &mut [E]) -> usize
    ensures within { result ≤ length ranges.old }
    ensures union { IsUnionOf E.Number.cmp E.first E.last ranges.old (take result ranges.new) }
{
    ranges.sort_unstable_by_key(|range| range.start());
    join(ranges)
}

// The same as `from_ranges`, for ranges that are sorted by their starts.
fn join<E: Ends>(ranges: &mut [E]) -> usize
    requires { IsSortedByKey E.first E.Number.cmp ranges.old }
    ensures within { result ≤ length ranges.old }
    ensures union { IsUnionOf E.Number.cmp E.first E.last ranges.old (take result ranges.new) }
{
    let mut kept = 0;
    for i in 0..ranges.len() {
        let range = ranges[i];
        kept = put(ranges, kept, range);
    }
    kept
}

// Puts a range after the first `kept`, none of which starts above it, or joins it to the last of
// them.
fn put<E: Ends>(ranges: &mut [E], kept: usize, range: E) -> usize
    requires room { kept < length ranges.old }
    requires sorted { IsAscending E.Number.cmp (ends_of E.first E.last (take kept ranges.old)) }
    requires low { All (λ r. is_le (E.Number.cmp (E.first r) (E.first range)) ≡ true)
        (take kept ranges.old) }
    ensures within { result ≤ kept + 1 }
    ensures put { IsPut E.Number.cmp E.first E.last (take kept ranges.old)
        range (take result ranges.new) }
    ensures after { drop (kept + 1) ranges.new ≡ drop (kept + 1) ranges.old }
{
    if !has_elements(&range.start(), &range.end(), &mut Comparisons::new()) {
        return kept;
    }
    if kept == 0 {
        ranges[0] = range;
        return 1;
    }
    let before = ranges[kept - 1];
    if before.end().cmp(&range.start()).is_lt() {
        ranges[kept] = range;
        return kept + 1;
    }
    if before.end().cmp(&range.end()).is_lt() {
        ranges[kept - 1] = E::of(before.start(), range.end());
    }
    kept
}

// Moves the ranges with an end of the set of all numbers in the ranges, and of all from `from` on
// if that is given, to the front. Returns how many these are, and where the range without an end
// starts.
pub(crate) fn union_from<E: Ends>(
    ranges: &mut [E],
    from: Option<E::Number>,
) -> (usize, Option<E::Number>)
    ensures within { result.0 ≤ length ranges.old }
    ensures as_many { length (option_to_list result.1) ≡ length (option_to_list from) }
    ensures union { IsUnionFrom E.Number.cmp E.first E.last ranges.old from
        (take result.0 ranges.new) result.1 }
{
    let kept = from_ranges(ranges);
    match from {
        None => (kept, None),
        Some(from) => {
            let (front, _rest) = ranges.split_at(kept);
            let (kept, start) = extended(front, from);
            (kept, Some(start))
        }
    }
}

// The same as `union_from`, but `is_open` says whether `from` is given. Returns how many ranges
// with an end there are, and writes to `from` where the one without an end starts.
pub(crate) fn union_told<E: Ends>(ranges: &mut [E], is_open: bool, from: &mut E::Number) -> usize
    ensures within { result ≤ length ranges.old }
    ensures union { IsUnionFrom E.Number.cmp E.first E.last
        ranges.old (cond is_open (Some from.old) None)
        (take result ranges.new) (cond is_open (Some from.new) None) }
{
    let (kept, start) = union_from(ranges, if is_open { Some(*from) } else { None });
    if let Some(start) = start {
        *from = start;
    }
    kept
}

// What `union_from` says, of ranges that ascend. Those that reach the start of the last one give
// way to it.
fn extended<E: Ends>(ranges: &[E], from: E::Number) -> (usize, E::Number)
    requires { IsAscending E.Number.cmp (ends_of E.first E.last ranges.now) }
    ensures within { result.0 ≤ length ranges.now }
    ensures union { IsUnionFrom E.Number.cmp E.first E.last ranges.now (Some from)
        (take result.0 ranges.now) (Some result.1) }
{
    let mut kept = ranges.len();
    let mut start = from;
    while kept > 0 && ranges[kept - 1].end().cmp(&start).is_ge() {
        kept -= 1;
        start = start.min(ranges[kept].start());
    }
    (kept, start)
}

// The lower one of the start and of another, if that is given.
pub(crate) fn lowest<T: Ord + Copy + Drop>(other: Option<T>, start: T) -> T
    ensures { (x : T) → is_le (T.cmp result x) ≡ (is_from T.cmp other x || is_le (T.cmp start x)) }
{
    match other {
        Some(other) => other.min(start),
        None => start,
    }
}

// Writes whether there is a range without an end, and if so where it starts.
pub(crate) fn tell_start<T: Copy>(start: Option<T>, is_open: &mut bool, from: &mut T)
    ensures { start ≡ cond is_open.new (Some from.new) None }
{
    match start {
        Some(start) => {
            *is_open = true;
            *from = start;
        }
        None => *is_open = false,
    }
}
