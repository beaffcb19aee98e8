//! Whole ranges kept by a filter, in place: the boundaries of those that stay move down.
ghost use Rattle.std.specs.Prelude.{◌≡◌, ◌≤◌, ◌<◌, ◌+◌, ◌∷◌, ◌++◌, [], false, Bool, List, cond, filter, length, take, drop, get_or};
ghost use Rattle.range_merge.specs.Boundaries.{IsAscending, is_odd as odd};
ghost use Rattle.range_collections.specs.Ranges.{ranges_of, range_now};
ghost use Rattle.range_collections.specs.declared.range_set_range.RangeSetRange.{RangeSetRange as Ranged};
ghost use Rattle.range_list.specs.Lists.{joined, place_at, IsPlaceAt, HasPlacesOf};

use crate::iter::Iter;
use range_collections::RangeSetRange;
use range_list::{Chunks, FRONT, Place};

/// Which ranges `retain` keeps: the trait that a caller implements.
pub trait RangeFilter<T> {
    // Whether this range stays.
    ghost is_kept: { Self → Ranged T → Bool };

    /// Whether this range stays.
    fn keeps(&self, range: RangeSetRange<&T>) -> bool
        ensures { result ≡ is_kept self.now (range_now range.entry) };
}

/// Removes each range that the filter doesn't keep.
pub fn retain_ranges<T: Ord + Drop, F: RangeFilter<T>>(list: &mut Chunks<T, bool>, by: &F)
    requires { IsAscending T.cmp (joined list.old) }
    ensures sorted { IsAscending T.cmp (joined list.new) }
    ensures ranges { ranges_of (joined list.new) ≡
        filter (F.is_kept by.now) (ranges_of (joined list.old)) }
{
    let mut end = FRONT;
    let mut at = FRONT;
    while list.is_before(at, list.end()) {
        end = keep_range(list, end, at, by);
        at = range_end(list, at);
    }
    list.truncate(end);
}

// Moves the range that starts at a place down to the end of those that were kept, if the filter keeps
// it. Returns the new end.
fn keep_range<T: Drop, F: RangeFilter<T>>(
    list: &mut Chunks<T, bool>,
    end: Place,
    at: Place,
    by: &F,
) -> Place
    requires end { IsPlaceAt list.old end }
    requires at { IsPlaceAt list.old at }
    requires ordered { place_at list.old end ≤ place_at list.old at }
    requires item { place_at list.old at < length (joined list.old) }
    requires even { odd (place_at list.old at) ≡ false }
    ensures places { HasPlacesOf list.old list.new }
    ensures len { length (joined list.new) ≡ length (joined list.old) }
    ensures later { drop (place_at list.old at + 2) (joined list.new) ≡
        drop (place_at list.old at + 2) (joined list.old) }
    ensures place { IsPlaceAt list.new result }
    ensures after { (range : Ranged T) (rest : List (Ranged T)) →
        ranges_of (drop (place_at list.old at) (joined list.old)) ≡ range ∷ rest →
        place_at list.new result ≡ place_at list.old end + length
        (cond (F.is_kept by.now range) (take 2 (drop (place_at list.old at) (joined list.old))) []) }
    ensures kept { (range : Ranged T) (rest : List (Ranged T)) →
        ranges_of (drop (place_at list.old at) (joined list.old)) ≡ range ∷ rest →
        take (place_at list.new result) (joined list.new) ≡ take (place_at list.old end) (joined list.old) ++
        cond (F.is_kept by.now range) (take 2 (drop (place_at list.old at) (joined list.old))) [] }
{
    if keeps_at(list, at, by) {
        move_range(list, end, at)
    } else {
        end
    }
}

// Whether the filter keeps the range that starts at a place.
fn keeps_at<T, F: RangeFilter<T>>(list: &Chunks<T, bool>, at: Place, by: &F) -> bool
    requires at { IsPlaceAt list.now at }
    requires even { odd (place_at list.now at) ≡ false }
    ensures { (range : Ranged T) (rest : List (Ranged T)) →
        ranges_of (drop (place_at list.now at) (joined list.now)) ≡ range ∷ rest →
        result ≡ F.is_kept by.now range }
{
    match Iter::between(list, at, list.end()).next() {
        Some(range) => by.keeps(range),
        None => false,
    }
}

// The place behind the range that starts at a place.
fn range_end<T>(list: &Chunks<T, bool>, at: Place) -> Place
    requires at { IsPlaceAt list.now at }
    requires item { place_at list.now at < length (joined list.now) }
    ensures place { IsPlaceAt list.now result }
    ensures two { place_at list.now at + 1 < length (joined list.now) →
        place_at list.now result ≡ place_at list.now at + 2 }
    ensures one { length (joined list.now) ≤ place_at list.now at + 1 →
        place_at list.now result ≡ place_at list.now at + 1 }
{
    let second = list.place_after(at);
    if list.is_before(second, list.end()) {
        list.place_after(second)
    } else {
        second
    }
}

// Moves the boundaries of the range that starts at a place down to the end of those that were kept.
// Returns the new end.
fn move_range<T: Drop>(list: &mut Chunks<T, bool>, end: Place, at: Place) -> Place
    requires end { IsPlaceAt list.old end }
    requires at { IsPlaceAt list.old at }
    requires ordered { place_at list.old end ≤ place_at list.old at }
    requires item { place_at list.old at < length (joined list.old) }
    ensures places { HasPlacesOf list.old list.new }
    ensures len { length (joined list.new) ≡ length (joined list.old) }
    ensures later { drop (place_at list.old at + 2) (joined list.new) ≡
        drop (place_at list.old at + 2) (joined list.old) }
    ensures place { IsPlaceAt list.new result }
    ensures after { place_at list.new result ≡ place_at list.old end
        + length (take 2 (drop (place_at list.old at) (joined list.old))) }
    ensures kept { take (place_at list.new result) (joined list.new) ≡
        take (place_at list.old end) (joined list.old)
        ++ take 2 (drop (place_at list.old at) (joined list.old)) }
{
    let second = list.place_after(at);
    let after = move_down(list, end, at);
    if list.is_before(second, list.end()) {
        move_down(list, after, second)
    } else {
        after
    }
}

// Moves the boundary at a place down to the end of those that were kept. Returns the new end.
fn move_down<T: Drop>(list: &mut Chunks<T, bool>, end: Place, at: Place) -> Place
    requires end { IsPlaceAt list.old end }
    requires at { IsPlaceAt list.old at }
    requires ordered { place_at list.old end ≤ place_at list.old at }
    requires item { place_at list.old at < length (joined list.old) }
    ensures places { HasPlacesOf list.old list.new }
    ensures len { length (joined list.new) ≡ length (joined list.old) }
    ensures later { drop (place_at list.old at + 1) (joined list.new) ≡
        drop (place_at list.old at + 1) (joined list.old) }
    ensures place { IsPlaceAt list.new result }
    ensures after { place_at list.new result ≡ place_at list.old end + 1 }
    ensures kept { (d : T) → take (place_at list.old end + 1) (joined list.new) ≡
        take (place_at list.old end) (joined list.old)
        ++ get_or (joined list.old) (place_at list.old at) d ∷ [] }
{
    list.swap(end, at);
    list.place_after(end)
}
