//! Copies of a map: equal to it, step by step.
ghost use Rattle.std.specs.Prelude.{◌≡◌, IsOk, IfOk, length};
ghost use Rattle.std.specs.List.{AllZip};
ghost use Rattle.range_map.specs.Steps.{AreAlike, AreEqualSteps, IsSameMap};

use crate::map::RangeMap;
use crate::step::Step;
use crate::value::{MapValue, copy_option};
use range_collections::{Copier, EntryClone};
use std::alloc::AllocError;

impl<K: EntryClone + Drop, V: MapValue> RangeMap<K, V> {
    /// A map of copies of the keys and the values, or an error if memory runs out.
    pub fn clone(&self) -> Result<Self, AllocError>
        ensures keys { IfOk result (λ map. AllZip K.is_copy self.now.keys map.keys) }
        ensures equal { IfOk result (λ map. AreEqualSteps K.cmp V.eq self.now map) }
        ensures values { IfOk result (λ map. IsSameMap K.cmp V.eq self.now map) }
        ensures succeeds { length self.now.keys ≡ 0 → IsOk result }
    {
        let steps = self.steps.copied(&StepCopier)?;
        Ok(RangeMap { steps })
    }
}

/// std's `Clone`, so that a struct that holds a map can derive it.
impl<K: EntryClone + Drop, V: MapValue> Clone for RangeMap<K, V> {
    ghost is_clone = { AreEqualSteps K.cmp V.eq };

    ghost is_infallible = { λ _. ⊥ };

    /// A map of copies of the keys and the values.
    fn clone(&self) -> Result<Self, AllocError> {
        RangeMap::clone(self)
    }
}

// Copies steps: a clone of the key, and a copy of the value, if there is one.
struct StepCopier;

impl<K: EntryClone + Drop, V: MapValue> Copier<Step<K, V>> for StepCopier {
    ghost alike = { λ s t. K.is_copy s.key t.key × AreAlike V.eq s.option t.option };

    ghost is_infallible = { λ _. ⊥ };

    #[inline(always)]
    fn copy(&self, step: &Step<K, V>) -> Result<Step<K, V>, AllocError> {
        Ok(Step {
            key: step.key.entry_clone()?,
            option: copy_option(step.option.as_ref())?,
        })
    }
}
