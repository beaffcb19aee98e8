//! Where a range lies among the steps of a map, and what stands at a place.
ghost use Rattle.std.specs.Prelude.{◌≡◌, ◌↔◌, ◌<◌, ◌≤◌, ◌+◌, ◌*◌, ◌^◌, ◌∷◌, option_copied, map, IsTrue, None, Some, length, true, get_or, slice_get};
ghost use Rattle.std.specs.List.{AllWithin};
ghost use Rattle.std.specs.Option.{option_eq};
ghost use Rattle.std.specs.Ordering.{is_le};
ghost use Rattle.std.specs.declared.cmp.Ordering.TheVariants.{Less, Equal, Greater};
ghost use Rattle.range_merge.specs.Boundaries.{IsAscending};
ghost use Rattle.range_merge.specs.Counting.{AddsAtMost};
ghost use Rattle.range_merge.specs.Runs.{digits};
ghost use Rattle.range_list.specs.Lists.{joined, place_at, IsPlaceAt};
ghost use Rattle.range_map.specs.Listed.{steps_in};
ghost use Rattle.range_map.specs.Places.{ArePlaces, span_of, IsUpToEnd, IsAboveEnd};

use crate::step::{Step, StepKey};
use range_collections::Comparisons;
use range_list::{Chunks, Place};

/// The steps that lie in a range, from one place to another, and whether steps have to stand at its
/// start and at its end.
#[derive(Clone, Copy)]
pub struct Places {
    pub from: Place,
    pub to: Place,
    pub starts: bool,
    pub ends: bool,
}

/// The places of a range that is given the option.
pub fn find<K: Ord, V: Eq>(
    steps: &Chunks<Step<K, V>, ()>,
    start: &K,
    end: Option<&K>,
    option: &Option<V>,
    count: &mut Comparisons,
) -> Places
    requires ascending { IsAscending K.cmp (steps_in steps.now).keys }
    requires made { count.old < 2 ^ 125 }
    ensures from { IsPlaceAt steps.now result.from }
    ensures to { IsPlaceAt steps.now result.to }
    ensures places { ArePlaces K.cmp V.eq (steps_in steps.now)
        start.now (option_copied end.entry) option.now (span_of steps.now result) }
    ensures comparisons { AddsAtMost count.old count.new
        (2 * (digits (length (steps_in steps.now).keys) + 7)) }
{
    let from = place_below(steps, start, count);
    let to = place_up_to_end(steps, end, count);
    Places {
        from,
        to,
        starts: !holds_before(steps, from, option),
        ends: end.is_some() && !holds_before(steps, to, option),
    }
}

/// The place before which all keys are below this one, and from which on none is.
pub fn place_below<K: Ord, V>(
    steps: &Chunks<Step<K, V>, ()>,
    key: &K,
    count: &mut Comparisons,
) -> Place
    requires ascending { IsAscending K.cmp (steps_in steps.now).keys }
    requires made { count.old < 2 ^ 126 }
    ensures place { IsPlaceAt steps.now result }
    ensures within { place_at steps.now result ≤ length (steps_in steps.now).keys }
    ensures below { AllWithin (λ y. K.cmp y key.now ≡ Less) (steps_in steps.now).keys 0 (place_at steps.now result) }
    ensures from { AllWithin (λ y. is_le (K.cmp key.now y) ≡ true) (steps_in steps.now).keys
        (place_at steps.now result) (length (steps_in steps.now).keys) }
    ensures few { count.new < count.old + 2 ^ 65 }
    ensures comparisons { AddsAtMost count.old count.new
        (digits (length (steps_in steps.now).keys) + 7) }
{
    steps.place_below(&StepKey, key, count)
}

/// The place before which all keys are at or below this one, and from which on all are above it.
#[inline]
pub fn place_up_to<K: Ord, V>(
    steps: &Chunks<Step<K, V>, ()>,
    key: &K,
    count: &mut Comparisons,
) -> Place
    requires ascending { IsAscending K.cmp (steps_in steps.now).keys }
    requires made { count.old < 2 ^ 126 }
    ensures place { IsPlaceAt steps.now result }
    ensures within { place_at steps.now result ≤ length (steps_in steps.now).keys }
    ensures up_to { AllWithin (λ y. is_le (K.cmp y key.now) ≡ true) (steps_in steps.now).keys 0 (place_at steps.now result) }
    ensures above { AllWithin (λ y. K.cmp y key.now ≡ Greater) (steps_in steps.now).keys
        (place_at steps.now result) (length (steps_in steps.now).keys) }
    ensures few { count.new < count.old + 2 ^ 65 }
    ensures comparisons { AddsAtMost count.old count.new
        (digits (length (steps_in steps.now).keys) + 7) }
{
    steps.place_up_to(&StepKey, key, count)
}

// The place before which all keys are at or below the end: that of all steps, if there is none.
fn place_up_to_end<K: Ord, V>(
    steps: &Chunks<Step<K, V>, ()>,
    end: Option<&K>,
    count: &mut Comparisons,
) -> Place
    requires ascending { IsAscending K.cmp (steps_in steps.now).keys }
    requires made { count.old < 2 ^ 126 }
    ensures place { IsPlaceAt steps.now result }
    ensures within { place_at steps.now result ≤ length (steps_in steps.now).keys }
    ensures up_to { AllWithin (IsUpToEnd K.cmp (option_copied end.entry)) (steps_in steps.now).keys 0 (place_at steps.now result) }
    ensures above { AllWithin (IsAboveEnd K.cmp (option_copied end.entry)) (steps_in steps.now).keys
        (place_at steps.now result) (length (steps_in steps.now).keys) }
    ensures comparisons { AddsAtMost count.old count.new
        (digits (length (steps_in steps.now).keys) + 7) }
{
    match end {
        Some(end) => place_up_to(steps, end, count),
        None => steps.end(),
    }
}

/// Whether the option before a place equals this one; none stands before the first.
pub fn holds_before<K, V: Eq>(
    steps: &Chunks<Step<K, V>, ()>,
    place: Place,
    option: &Option<V>,
) -> bool
    requires { IsPlaceAt steps.now place }
    ensures { result ≡ option_eq V.eq
        (get_or (None ∷ (steps_in steps.now).options) (place_at steps.now place) None) option.now }
{
    match steps.item_before(place) {
        Some(step) => step.option == *option,
        None => option.is_none(),
    }
}

/// The option before a place; none stands before the first.
#[inline(always)]
pub fn option_before<K, V>(steps: &Chunks<Step<K, V>, ()>, place: Place) -> Option<&V>
    requires { IsPlaceAt steps.now place }
    ensures { option_copied result ≡
        get_or (None ∷ (steps_in steps.now).options) (place_at steps.now place) None }
{
    match steps.item_before(place) {
        Some(step) => step.option.as_ref(),
        None => None,
    }
}

/// The key before a place, or `None` at the first.
pub fn key_before<K, V>(steps: &Chunks<Step<K, V>, ()>, place: Place) -> Option<&K>
    requires { IsPlaceAt steps.now place }
    ensures { option_copied result ≡
        get_or (None ∷ map Some (steps_in steps.now).keys) (place_at steps.now place) None }
{
    match steps.item_before(place) {
        Some(step) => Some(&step.key),
        None => None,
    }
}

/// The key at a place, or `None` behind the last.
pub fn key_at<K, V>(steps: &Chunks<Step<K, V>, ()>, place: Place) -> Option<&K>
    requires { IsPlaceAt steps.now place }
    ensures { option_copied result ≡ slice_get (steps_in steps.now).keys (place_at steps.now place) }
{
    match steps.item_at(place) {
        Some(step) => Some(&step.key),
        None => None,
    }
}
