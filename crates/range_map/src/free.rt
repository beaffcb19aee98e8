//! Where a range is free: no key in it has a value. It is put in there without a copy.
ghost use Rattle.std.specs.Prelude.{◌≡◌, ◌↔◌, None, Some, IsTrue, IsOk, OnOk, OnErr, IfErr, option_copied};
ghost use Rattle.std.specs.declared.cmp.Ordering.TheVariants.{Less};
ghost use Rattle.range_collections.specs.Intersects.{IsItemBelow};
ghost use Rattle.range_list.specs.Lists.{place_at, IsPlaceAt};
ghost use Rattle.range_map.specs.Steps.{IsCanonical};
ghost use Rattle.range_map.specs.Listed.{steps_in};
ghost use Rattle.range_map.specs.Changed.{IsSetTo, FitsAfter, IsFree};
ghost use Rattle.range_map.specs.Refused.{IsRefusal};

use crate::insert_error::InsertError;
use crate::places::{find, key_at, option_before, place_up_to};
use crate::replacing::put_range;
use crate::step::Step;
use range_collections::{Comparisons, has_elements};
use range_list::{Chunks, Place};

// Whether no key from the start up to the end has a value.
fn is_free_between<K: Ord, V: Eq>(steps: &Chunks<Step<K, V>, ()>, start: &K, end: &K) -> bool
    requires { IsCanonical K.cmp V.eq (steps_in steps.now) }
    ensures { IsTrue result ↔ IsFree K.cmp start.now (Some end.now) (steps_in steps.now) }
{
    if !has_elements(start, end, &mut Comparisons::new()) {
        return true;
    }
    let place = place_up_to(steps, start, &mut Comparisons::new());
    if option_before(steps, place).is_some() {
        return false;
    }
    !is_next_below(steps, place, end)
}

/// Whether no key from the start on has a value.
pub fn is_free_from<K: Ord, V: Eq>(steps: &Chunks<Step<K, V>, ()>, start: &K) -> bool
    requires { IsCanonical K.cmp V.eq (steps_in steps.now) }
    ensures { IsTrue result ↔ IsFree K.cmp start.now None (steps_in steps.now) }
{
    let place = place_up_to(steps, start, &mut Comparisons::new());
    if key_at(steps, place).is_some() {
        return false;
    }
    option_before(steps, place).is_none()
}

/// Whether no key from the start up to the end, if there is one, has a value.
pub fn is_free<K: Ord, V: Eq>(steps: &Chunks<Step<K, V>, ()>, start: &K, end: Option<&K>) -> bool
    requires { IsCanonical K.cmp V.eq (steps_in steps.now) }
    ensures { IsTrue result ↔ IsFree K.cmp start.now (option_copied end.entry) (steps_in steps.now) }
{
    match end {
        Some(end) => is_free_between(steps, start, end),
        None => is_free_from(steps, start),
    }
}

// Whether there is a key at the place, and it is below the end.
fn is_next_below<K: Ord, V>(steps: &Chunks<Step<K, V>, ()>, place: Place, end: &K) -> bool
    requires { IsPlaceAt steps.now place }
    ensures { IsTrue result ↔
        IsItemBelow K.cmp (steps_in steps.now).keys (place_at steps.now place) end.now }
{
    match key_at(steps, place) {
        Some(key) => key.cmp(end).is_lt(),
        None => false,
    }
}

/// Gives the elements from the start up to the end, if there is one, the value, if none of them has
/// one. It asks for memory only if steps are added, and before it changes anything.
pub fn set_free<K: Ord + Drop, V: Eq + Drop>(
    steps: &mut Chunks<Step<K, V>, ()>,
    start: K,
    end: Option<K>,
    value: V,
) -> Result<(), InsertError<V>>
    requires canonical { IsCanonical K.cmp V.eq (steps_in steps.old) }
    requires some { (e : K) → end ≡ Some e → K.cmp start e ≡ Less }
    ensures canonical { IsCanonical K.cmp V.eq (steps_in steps.new) }
    ensures values { OnOk result (IsSetTo K.cmp V.eq start end (Some value) (steps_in steps.old) (steps_in steps.new)) }
    ensures free { OnOk result (IsFree K.cmp start end (steps_in steps.old)) }
    ensures handed_back { IfErr result (IsRefusal (IsFree K.cmp start end (steps_in steps.old)) value) }
    ensures unchanged { OnErr result (steps_in steps.new ≡ steps_in steps.old) }
    ensures succeeds { IsFree K.cmp start end (steps_in steps.old) →
        FitsAfter K.cmp V.eq start end (Some value) (steps_in steps.old) → IsOk result }
{
    if !is_free(steps, &start, end.as_ref()) {
        return Err(InsertError::NotFree(value));
    }
    let option = Some(value);
    let places = find(
        steps,
        &start,
        end.as_ref(),
        &option,
        &mut Comparisons::new(),
    );
    match put_range(steps, places, start, end, option, None) {
        Ok(()) => Ok(()),
        Err(option) => Err(InsertError::OutOfMemory(option.unwrap())),
    }
}
