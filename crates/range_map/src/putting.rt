//! Steps put one by one behind those of a list, each with an option that differs from the last one.
ghost use Rattle.std.specs.Prelude.{◌≡◌, ◌∷◌, ◌++◌, None, List, OnOk, get_or, length, option_copied};
ghost use Rattle.std.specs.Option.{option_eq};
ghost use Rattle.std.specs.declared.cmp.Ordering.TheVariants.{Equal};
ghost use Rattle.range_map.specs.Combining.{IsPut, option_before};
ghost use Rattle.range_map.specs.Listed.{steps_of};
ghost use Rattle.range_map.specs.declared.step.Step.{Step};

use crate::step::Step;
use range_collections::Copier;
use std::alloc::AllocError;

/// Puts a step behind those of the list, with a copy of the key, if its option differs from the last
/// one: that of the list, or if it is empty the one before it.
#[inline(always)]
pub fn put<'a, K: Ord + Drop, U: Eq + Drop, C: Copier<K>>(
    before: Option<&'a U>,
    list: &'a mut Vec<Step<K, U>>,
    key: &K,
    option: Option<U>,
    copier: &C,
) -> Result<(), AllocError>
    requires copies { (x y : K) → C.alike x y → K.cmp x y ≡ Equal }
    ensures { (front : List (Step K U)) → option_copied before.entry ≡ option_before (steps_of front) (length front) →
        OnOk result (IsPut K.cmp U.eq (steps_of (front ++ list.old.items)) key.now option
        (steps_of (front ++ list.new.items))) }
{
    if is_last(before, list.as_slice(), &option) {
        return Ok(());
    }
    let key = copier.copy(key)?;
    list.push(Step { key, option })?;
    Ok(())
}

// Whether the option of the last step of a list equals this one, or of an empty list the one before.
#[inline(always)]
fn is_last<K, U: Eq>(before: Option<&U>, list: &[Step<K, U>], option: &Option<U>) -> bool
    ensures { (front : List (Step K U)) → option_copied before.entry ≡ option_before (steps_of front) (length front) →
        result ≡ option_eq U.eq (option_before (steps_of (front ++ list.now)) (length (front ++ list.now))) option.now }
{
    match list.last() {
        Some(step) => step.option == *option,
        None => are_alike(before, option),
    }
}

// Whether both are none, or both have equal values.
#[inline(always)]
fn are_alike<U: Eq>(this: Option<&U>, that: &Option<U>) -> bool
    ensures { result ≡ option_eq U.eq (option_copied this.entry) that.now }
{
    match (this, that) {
        (Some(this), Some(that)) => *this == *that,
        (None, None) => true,
        _ => false,
    }
}
