//! The window of a list of boundaries that those of another list can touch: behind all that are below
//! its first one, and before all that are above its last one. It begins where the set is off, and so it
//! ends, or with the list.
ghost use Rattle.std.specs.Prelude.{◌≡◌, ◌≤◌, ◌<◌, ◌+◌, ◌-◌, ◌∷◌, ◌++◌, [], List, true, false, length, take, drop, slice_get, Some, All};
ghost use Rattle.std.specs.List.{AllWithin};
ghost use Rattle.std.specs.Ordering.{is_le};
ghost use Rattle.std.specs.declared.cmp.Ordering.TheVariants.{Less, Greater};
ghost use Rattle.range_merge.specs.Boundaries.{IsAscending, is_odd as odd};
ghost use Rattle.range_list.specs.Lists.{joined, place_at, IsPlaceAt};
ghost use Rattle.range_chunks.specs.Window.{IsWindow};

use range_collections::Comparisons;
use range_list::{Chunks, FRONT, Itself, Place};

/// The window's start and end. At each it has at most one boundary more than `that` can touch.
pub fn window<T: Ord>(list: &Chunks<T, bool>, that: &[T]) -> (Place, Place)
    requires sorted { IsAscending T.cmp (joined list.now) }
    requires that_sorted { IsAscending T.cmp that.now }
    ensures from { IsPlaceAt list.now result.0 }
    ensures to { IsPlaceAt list.now result.1 }
    ensures window { IsWindow T.cmp (joined list.now) that.now
        (place_at list.now result.0) (place_at list.now result.1) }
    ensures from_near { (first : T) → slice_get that.now 0 ≡ Some first →
        AllWithin (λ y. is_le (T.cmp first y) ≡ true) (joined list.now)
        (place_at list.now result.0 + 1) (length (joined list.now)) }
    ensures to_near { (last : T) → slice_get that.now (length that.now - 1) ≡ Some last →
        odd (length that.now) ≡ false → AllWithin (λ y. is_le (T.cmp y last) ≡ true)
        (joined list.now) 0 (place_at list.now result.1 - 1) }
{
    let len = that.len();
    if len == 0 {
        return (FRONT, FRONT);
    }
    let from = start(list, &that[0]);
    if len % 2 == 1 {
        return (from, list.end());
    }
    (from, end(list, &that[len - 1]))
}

// An even place before which all boundaries are below an element. Behind it at most one is.
fn start<T: Ord>(list: &Chunks<T, bool>, first: &T) -> Place
    requires sorted { IsAscending T.cmp (joined list.now) }
    ensures place { IsPlaceAt list.now result }
    ensures within { place_at list.now result ≤ length (joined list.now) }
    ensures even { odd (place_at list.now result) ≡ false }
    ensures below { AllWithin (λ y. T.cmp y first.now ≡ Less) (joined list.now) 0 (place_at list.now result) }
    ensures near { AllWithin (λ y. is_le (T.cmp first.now y) ≡ true) (joined list.now)
        (place_at list.now result + 1) (length (joined list.now)) }
{
    let at = list.place_below(&Itself, first, &mut Comparisons::new());
    if list.mark_at(at) {
        list.place_before(at)
    } else {
        at
    }
}

// A place from which on all boundaries are above an element. It is even, or the end. Before it at
// most one is.
fn end<T: Ord>(list: &Chunks<T, bool>, last: &T) -> Place
    requires sorted { IsAscending T.cmp (joined list.now) }
    ensures place { IsPlaceAt list.now result }
    ensures within { place_at list.now result ≤ length (joined list.now) }
    ensures even { place_at list.now result < length (joined list.now) → odd (place_at list.now result) ≡ false }
    ensures above { AllWithin (λ y. T.cmp y last.now ≡ Greater) (joined list.now)
        (place_at list.now result) (length (joined list.now)) }
    ensures near { AllWithin (λ y. is_le (T.cmp y last.now) ≡ true) (joined list.now)
        0 (place_at list.now result - 1) }
{
    let at = list.place_up_to(&Itself, last, &mut Comparisons::new());
    if list.mark_at(at) && list.is_before(at, list.end()) {
        list.place_after(at)
    } else {
        at
    }
}
