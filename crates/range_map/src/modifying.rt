//! The value of a key changed, and with it that of the longest range around the key that has it.
ghost use Rattle.std.specs.Prelude.{◌≡◌, ◌<◌, ◌-◌, true, false, Some, None, HoldsAt, IfOk, IsOk, OnOk, OnErr, length, option_copied, slice_get};
ghost use Rattle.std.specs.Option.{is_some};
ghost use Rattle.std.specs.declared.cmp.Ordering.TheVariants.{Equal};
ghost use Rattle.range_list.specs.Lists.{place_at, IsPlaceAt};
ghost use Rattle.range_map.specs.Changed.{IsSetTo};
ghost use Rattle.range_map.specs.Listed.{steps_in};
ghost use Rattle.range_map.specs.Steps.{value_at, IsCanonical};
ghost use Rattle.range_map.specs.Stretches.{AreEqualEnds, IsModified};

use crate::places::{key_at, key_before, option_before, place_up_to};
use crate::replacing::set_range;
use crate::step::Step;
use crate::update::MapUpdate;
use crate::value::MapValue;
use range_collections::{Comparisons, Copier};
use range_list::{Chunks, Place};
use std::alloc::AllocError;

/// Gives the stretch around the key what the update makes of its value. Returns whether it has one.
pub fn modify_stretch<K: Ord + Drop, V: MapValue, O: MapUpdate<V>, C: Copier<K>>(
    steps: &mut Chunks<Step<K, V>, ()>,
    key: &K,
    op: &O,
    copier: &C,
) -> Result<bool, AllocError>
    requires canonical { IsCanonical K.cmp V.eq (steps_in steps.old) }
    requires copies { (x y : K) → C.alike x y → K.cmp x y ≡ Equal }
    ensures canonical { IsCanonical K.cmp V.eq (steps_in steps.new) }
    ensures found { IfOk result (λ found. found ≡ is_some (value_at K.cmp (steps_in steps.old) key.now)) }
    ensures values { IfOk result (λ found. found ≡ true →
        IsModified K.cmp V.eq (O.gives op.now) key.now (steps_in steps.old) (steps_in steps.new)) }
    ensures unchanged { OnErr result (steps_in steps.new ≡ steps_in steps.old) }
    ensures none { value_at K.cmp (steps_in steps.old) key.now ≡ None →
        (steps_in steps.new ≡ steps_in steps.old) × IsOk result }
{
    let place = place_up_to(steps, key, &mut Comparisons::new());
    let Some(value) = option_before(steps, place) else {
        return Ok(false);
    };
    let option = op.apply(Some(value))?;
    set_before(steps, place, option, copier)?;
    Ok(true)
}

// Gives the keys from the one before a place up to the one at it, if there is one, an option.
fn set_before<K: Ord + Drop, V: MapValue, C: Copier<K>>(
    steps: &mut Chunks<Step<K, V>, ()>,
    place: Place,
    option: Option<V>,
    copier: &C,
) -> Result<(), AllocError>
    requires canonical { IsCanonical K.cmp V.eq (steps_in steps.old) }
    requires place { IsPlaceAt steps.old place }
    requires some { 0 < place_at steps.old place }
    requires copies { (x y : K) → C.alike x y → K.cmp x y ≡ Equal }
    ensures canonical { IsCanonical K.cmp V.eq (steps_in steps.new) }
    ensures values { OnOk result (HoldsAt
        (λ start. IsSetTo K.cmp V.eq start (slice_get (steps_in steps.old).keys (place_at steps.old place)) option
        (steps_in steps.old) (steps_in steps.new))
        (steps_in steps.old).keys (place_at steps.old place - 1)) }
    ensures unchanged { OnErr result (steps_in steps.new ≡ steps_in steps.old) }
{
    let start = copier.copy(key_before(steps, place).unwrap())?;
    let end = copied_key(key_at(steps, place), copier)?;
    set_range(steps, start, end, option, &mut Comparisons::new())
}

// A copy of a key, if there is one.
fn copied_key<K: Ord + Drop, C: Copier<K>>(
    key: Option<&K>,
    copier: &C,
) -> Result<Option<K>, AllocError>
    requires copies { (x y : K) → C.alike x y → K.cmp x y ≡ Equal }
    ensures { IfOk result (λ copied. AreEqualEnds K.cmp (option_copied key.entry) copied) }
{
    match key {
        Some(key) => Ok(Some(copier.copy(key)?)),
        None => Ok(None),
    }
}
