//! Maps and sets: the keys that have a value, or this one; a map on the members of a set, or on the
//! others.
ghost use Rattle.std.specs.Prelude.{◌≡◌, Some, None, cond, length, IsOk, IfOk, OnOk, OnErr};
ghost use Rattle.std.specs.Bool.{beq};
ghost use Rattle.std.specs.Option.{option_eq, is_some};
ghost use Rattle.std.specs.declared.cmp.Ordering.TheVariants.{Equal};
ghost use Rattle.range_merge.specs.Boundaries.{member};
ghost use Rattle.range_map.specs.Steps.{AreAlike, value_at};

use crate::borrowed_steps::{BorrowedSteps, units};
use crate::in_place::{combine_in_place, steps_within};
use crate::map::RangeMap;
use crate::operations::{HasThis, HasValue, Within};
use crate::step::StepKey;
use crate::value::MapValue;
use range_collections::{Comparisons, Copier, EntryClone, EntryCopier, RangeSet, RangeSetRef};
use smallvec::SmallVec;
use std::alloc::{AllocError, Global};
use std::default::MadeWith;

impl<K: EntryClone + MadeWith<Global> + Drop, V: Eq> RangeMap<K, V> {
    /// The set of the keys that have a value.
    pub fn domain<const N: usize>(&self, alloc: Global) -> Result<RangeSet<K, N>, AllocError>
        ensures members { IfOk result (λ set. (x : K) →
            member K.cmp set x ≡ is_some (value_at K.cmp self.now x)) }
        ensures succeeds { length self.now.keys ≡ 0 → IsOk result }
    {
        if self.steps.is_empty() {
            return Ok(RangeSet::empty(alloc));
        }
        let nothing: RangeMap<K, ()> = RangeMap::new(alloc);
        let units = self.combine(alloc, &nothing, &HasValue, &mut Comparisons::new())?;
        units.into_set()
    }

    /// The set of the keys that have this value.
    pub fn where_equal<const N: usize>(
        &self,
        alloc: Global,
        value: &V,
    ) -> Result<RangeSet<K, N>, AllocError>
        ensures members { IfOk result (λ set. (x : K) →
            member K.cmp set x ≡ option_eq V.eq (value_at K.cmp self.now x) (Some value.now)) }
        ensures succeeds { length self.now.keys ≡ 0 → IsOk result }
    {
        if self.steps.is_empty() {
            return Ok(RangeSet::empty(alloc));
        }
        let nothing: RangeMap<K, ()> = RangeMap::new(alloc);
        let units = self.combine(alloc, &nothing, &HasThis(value), &mut Comparisons::new())?;
        units.into_set()
    }
}

impl<K: EntryClone + Drop, V: MapValue> RangeMap<K, V> {
    /// The map on the members of the set alone. It looks at the ranges from the first member on, up
    /// to the last.
    pub fn restrict(&self, alloc: Global, set: RangeSetRef<K>) -> Result<Self, AllocError>
        ensures values { IfOk result (λ map. (x : K) → AreAlike V.eq (value_at K.cmp map x)
            (cond (member K.cmp set.entry.boundaries.now x) (value_at K.cmp self.now x) None)) }
        ensures succeeds { length self.now.keys ≡ 0 → IsOk result }
    {
        self.restrict_by(alloc, set, &EntryCopier)
    }

    /// The map without the members of the set: a clone, from which they are taken away.
    pub fn without(&self, alloc: Global, set: RangeSetRef<K>) -> Result<Self, AllocError>
        ensures values { IfOk result (λ map. (x : K) → AreAlike V.eq (value_at K.cmp map x)
            (cond (member K.cmp set.entry.boundaries.now x) None (value_at K.cmp self.now x))) }
        ensures succeeds { length self.now.keys ≡ 0 → IsOk result }
    {
        if self.steps.is_empty() {
            return Ok(RangeMap::new(alloc));
        }
        let mut map = self.clone()?;
        map.remove_all(set)?;
        Ok(map)
    }

    /// Takes the values of the members of the set away. It makes the steps from the first member on,
    /// up to the last, anew. If memory runs out, the map is as it was.
    pub fn remove_all(&mut self, set: RangeSetRef<K>) -> Result<(), AllocError>
        ensures values { OnOk result ((x : K) → AreAlike V.eq (value_at K.cmp self.new x)
            (cond (member K.cmp set.entry.boundaries.now x) None (value_at K.cmp self.old x))) }
        ensures unchanged { OnErr result (self.new ≡ self.old) }
        ensures none { length set.entry.boundaries.now ≡ 0 → (self.new ≡ self.old) × IsOk result }
    {
        self.remove_all_by(set, &EntryCopier)
    }

    /// Takes all values away but those of the members of the set, as `restrict` does. If memory runs
    /// out, the map is as it was.
    pub fn retain_all(&mut self, set: RangeSetRef<K>) -> Result<(), AllocError>
        ensures values { OnOk result ((x : K) → AreAlike V.eq (value_at K.cmp self.new x)
            (cond (member K.cmp set.entry.boundaries.now x) (value_at K.cmp self.old x) None)) }
        ensures unchanged { OnErr result (self.new ≡ self.old) }
        ensures none { length self.old.keys ≡ 0 → IsOk result }
    {
        *self = self.restrict_by(self.steps.allocator(), set, &EntryCopier)?;
        Ok(())
    }
}

impl<K: Ord + Drop, V: MapValue> RangeMap<K, V> {
    // The map on the members of the set alone, with copies of keys by any copier.
    pub(crate) fn restrict_by<C: Copier<K>>(
        &self,
        alloc: Global,
        set: RangeSetRef<K>,
        copier: &C,
    ) -> Result<Self, AllocError>
        requires copies { (x y : K) → C.alike x y → K.cmp x y ≡ Equal }
        ensures values { IfOk result (λ map. (x : K) → AreAlike V.eq (value_at K.cmp map x)
            (cond (member K.cmp set.entry.boundaries.now x) (value_at K.cmp self.now x) None)) }
        ensures succeeds { length self.now.keys ≡ 0 → IsOk result }
    {
        if self.steps.is_empty() {
            return Ok(RangeMap::new(alloc));
        }
        let units = units(alloc, set.boundaries)?;
        let right = BorrowedSteps::new(&units);
        let list = steps_within(&self.steps, &right, &Within { inside: true }, copier)?;
        RangeMap::of_steps(list)
    }

    // Takes the values of the members of the set away, with copies of keys by any copier.
    pub(crate) fn remove_all_by<C: Copier<K>>(
        &mut self,
        set: RangeSetRef<K>,
        copier: &C,
    ) -> Result<(), AllocError>
        requires copies { (x y : K) → C.alike x y → K.cmp x y ≡ Equal }
        ensures values { OnOk result ((x : K) → AreAlike V.eq (value_at K.cmp self.new x)
            (cond (member K.cmp set.entry.boundaries.now x) None (value_at K.cmp self.old x))) }
        ensures unchanged { OnErr result (self.new ≡ self.old) }
        ensures none { length set.entry.boundaries.now ≡ 0 → (self.new ≡ self.old) × IsOk result }
    {
        let units = units(self.steps.allocator(), set.boundaries)?;
        let right = BorrowedSteps::new(&units);
        combine_in_place(&mut self.steps, &right, &Within { inside: false }, copier)
    }
}

impl<K: Ord + MadeWith<Global> + Drop> RangeMap<K, ()> {
    // The set of the keys that have the unit.
    fn into_set<const N: usize>(self) -> Result<RangeSet<K, N>, AllocError>
        ensures { IfOk result (λ set. (x : K) → member K.cmp set x ≡ is_some (value_at K.cmp self x)) }
    {
        let RangeMap { steps } = self;
        match steps.into_list(&StepKey) {
            Ok(keys) => Ok(RangeSet::new_unchecked(SmallVec::from_vec(keys))),
            Err((error, _)) => Err(error),
        }
    }
}
