//! The steps of a map that lie in a range.
ghost use Rattle.std.specs.Prelude.{◌≡◌, ◌-◌, ◌≤◌, None, filter, take, drop, option_copied, slice_get};
ghost use Rattle.range_list.specs.Lists.{joined, place_at, IsPlaceAt};
ghost use Rattle.range_map.specs.Steps.{IsCanonical};
ghost use Rattle.range_map.specs.Listed.{steps_in};
ghost use Rattle.range_map.specs.Entries.{entries, entries_of, overlaps};
ghost use Rattle.range_map.specs.Gaps.{AreGaps};

use crate::gaps::Gaps;
use crate::iter::Iter;
use crate::places::{key_at, option_before, place_below, place_up_to};
use crate::step::Step;
use range_collections::{Comparisons, has_elements};
use range_list::{Chunks, Items, Place};

/// The ranges that share a key with the one from the start up to the end.
pub fn overlapping_steps<'a, K: Ord, V: Eq>(
    steps: &'a Chunks<Step<K, V>, ()>,
    start: &K,
    end: &K,
) -> Iter<'a, K, V>
    requires { IsCanonical K.cmp V.eq (steps_in steps.now) }
    ensures { result ≡ filter (overlaps K.cmp start.now end.now) (entries (steps_in steps.now)) }
{
    if !has_elements(start, end, &mut Comparisons::new()) {
        return Iter::new(Items::none(), None);
    }
    // The step before the first one above the start may go on into the range.
    let above = place_up_to(steps, start, &mut Comparisons::new());
    let to = place_below(steps, end, &mut Comparisons::new());
    steps_between(steps, steps.place_before(above), to)
}

/// The parts of the range from the start up to the end whose keys have no value.
pub fn gaps_between<'a, K: Ord, V: Eq>(
    steps: &'a Chunks<Step<K, V>, ()>,
    start: &'a K,
    end: &'a K,
) -> Gaps<'a, K, V>
    requires { IsCanonical K.cmp V.eq (steps_in steps.now) }
    ensures { AreGaps K.cmp (steps_in steps.now) start.now end.now result }
{
    if !has_elements(start, end, &mut Comparisons::new()) {
        return Gaps::new(None, Items::none(), end);
    }
    let from = place_up_to(steps, start, &mut Comparisons::new());
    let to = place_below(steps, end, &mut Comparisons::new());
    let first = option_before(steps, from).is_none().then_some(start);
    Gaps::new(first, steps.between(from, to), end)
}

// The ranges of the steps from one place up to another.
fn steps_between<K, V>(steps: &Chunks<Step<K, V>, ()>, from: Place, to: Place) -> Iter<'_, K, V>
    requires from { IsPlaceAt steps.now from }
    requires to { IsPlaceAt steps.now to }
    requires ordered { place_at steps.now from ≤ place_at steps.now to }
    ensures { result ≡ entries_of (take (place_at steps.now to - place_at steps.now from)
        (drop (place_at steps.now from) (joined steps.now)))
        (slice_get (steps_in steps.now).keys (place_at steps.now to)) }
{
    Iter::new(steps.between(from, to), key_at(steps, to))
}
