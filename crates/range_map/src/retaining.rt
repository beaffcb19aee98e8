//! Values taken away in place: what stays moves down, and steps with equal options become one.
ghost use Rattle.std.specs.Prelude.{◌≡◌, ◌+◌, ◌<◌, ◌≤◌, ◌∷◌, true, false, None, cond, length, take, drop, set, get_or, option_copied};
ghost use Rattle.std.specs.Option.{option_eq};
ghost use Rattle.range_collections.specs.Ranges.{range_now};
ghost use Rattle.range_list.specs.Lists.{joined, place_at, IsPlaceAt, HasPlacesOf};
ghost use Rattle.range_map.specs.Combining.{IsPut};
ghost use Rattle.range_map.specs.Listed.{steps_of, steps_in};
ghost use Rattle.range_map.specs.Steps.{IsCanonical};
ghost use Rattle.range_map.specs.Updated.{kept, kept_at, IsRetained};

use crate::filter::RangeFilter;
use crate::iter::range_until;
use crate::places::{holds_before, key_at};
use crate::step::{Step, StepOption};
use range_collections::RangeSetRange;
use range_list::{Chunks, FRONT, Place};

/// Takes away each value that the filter doesn't keep.
pub fn retain_entries<K: Ord + Drop, V: Eq + Drop, F: RangeFilter<K, V>>(
    steps: &mut Chunks<Step<K, V>, ()>,
    filter: &F,
)
    requires { IsCanonical K.cmp V.eq (steps_in steps.old) }
    ensures canonical { IsCanonical K.cmp V.eq (steps_in steps.new) }
    ensures values { IsRetained K.cmp V.eq (F.is_kept filter.now) (steps_in steps.old) (steps_in steps.new) }
{
    let mut end = FRONT;
    let mut at = FRONT;
    let mut more = is_item(steps, at);
    while more {
        end = keep_step(steps, end, at, filter);
        at = steps.place_after(at);
        more = is_item(steps, at);
    }
    steps.truncate(end);
}

// Whether there is a step at a place.
fn is_item<K, V>(steps: &Chunks<Step<K, V>, ()>, at: Place) -> bool
    requires { IsPlaceAt steps.now at }
    ensures item { result ≡ true → place_at steps.now at < length (joined steps.now) }
    ensures end { result ≡ false → length (joined steps.now) ≤ place_at steps.now at }
{
    steps.item_at(at).is_some()
}

// Moves the step at a place down to the end of those that were kept, without its value if that
// doesn't stay, and if its option then differs from the one before it. Returns the new end.
fn keep_step<K: Ord + Drop, V: Eq + Drop, F: RangeFilter<K, V>>(
    steps: &mut Chunks<Step<K, V>, ()>,
    end: Place,
    at: Place,
    filter: &F,
) -> Place
    requires end { IsPlaceAt steps.old end }
    requires at { IsPlaceAt steps.old at }
    requires ordered { place_at steps.old end ≤ place_at steps.old at }
    requires item { place_at steps.old at < length (joined steps.old) }
    ensures places { HasPlacesOf steps.old steps.new }
    ensures len { length (joined steps.new) ≡ length (joined steps.old) }
    ensures later { drop (place_at steps.old at + 1) (joined steps.new) ≡
        drop (place_at steps.old at + 1) (joined steps.old) }
    ensures place { IsPlaceAt steps.new result }
    ensures ordered { place_at steps.new result ≤ place_at steps.old at + 1 }
    ensures put { (d : Step K V) → IsPut K.cmp V.eq
        (steps_of (take (place_at steps.old end) (joined steps.old)))
        (get_or (joined steps.old) (place_at steps.old at) d).key
        (kept_at (F.is_kept filter.now) (joined steps.old) (place_at steps.old at) d).option
        (steps_of (take (place_at steps.new result) (joined steps.new))) }
{
    drop_unkept(steps, at, filter);
    if is_like_last(steps, end, at) {
        return end;
    }
    steps.swap(end, at);
    steps.place_after(end)
}

// Takes away the value at a place, if the filter doesn't keep it.
fn drop_unkept<K: Drop, V: Drop, F: RangeFilter<K, V>>(
    steps: &mut Chunks<Step<K, V>, ()>,
    at: Place,
    filter: &F,
)
    requires at { IsPlaceAt steps.old at }
    requires item { place_at steps.old at < length (joined steps.old) }
    ensures places { HasPlacesOf steps.old steps.new }
    ensures items { (d : Step K V) → joined steps.new ≡ set (joined steps.old) (place_at steps.old at)
        (kept_at (F.is_kept filter.now) (joined steps.old) (place_at steps.old at) d) }
{
    if !stays(steps, at, filter) {
        steps.set_key(at, &StepOption, None);
    }
}

// Whether the option at a place stays as it is.
fn stays<K, V, F: RangeFilter<K, V>>(steps: &Chunks<Step<K, V>, ()>, at: Place, filter: &F) -> bool
    requires at { IsPlaceAt steps.now at }
    requires item { place_at steps.now at < length (joined steps.now) }
    ensures { (d : Step K V) → kept_at (F.is_kept filter.now) (joined steps.now) (place_at steps.now at) d ≡
        record {
          key = (get_or (joined steps.now) (place_at steps.now at) d).key;
          option = cond result (get_or (joined steps.now) (place_at steps.now at) d).option None;
        } }
{
    match steps.item_at(at) {
        Some(step) => {
            let range = range_until(&step.key, key_at(steps, steps.place_after(at)));
            is_kept(range, step.option.as_ref(), filter)
        }
        None => true,
    }
}

// Whether the option of a range stays as it is.
fn is_kept<K, V, F: RangeFilter<K, V>>(
    range: RangeSetRange<&K>,
    option: Option<&V>,
    filter: &F,
) -> bool
    ensures { kept (λ v. F.is_kept filter.now (range_now range.entry, v)) (option_copied option.entry) ≡
        cond result (option_copied option.entry) None }
{
    match option {
        Some(value) => filter.keeps(range, value),
        None => true,
    }
}

// Whether the option at a place equals the one before another.
fn is_like_last<K, V: Eq>(steps: &Chunks<Step<K, V>, ()>, end: Place, at: Place) -> bool
    requires end { IsPlaceAt steps.now end }
    requires at { IsPlaceAt steps.now at }
    requires item { place_at steps.now at < length (joined steps.now) }
    ensures { result ≡ option_eq V.eq (get_or (None ∷ (steps_in steps.now).options) (place_at steps.now end) None)
        (get_or (steps_in steps.now).options (place_at steps.now at) None) }
{
    match steps.item_at(at) {
        Some(step) => holds_before(steps, end, &step.option),
        None => true,
    }
}
