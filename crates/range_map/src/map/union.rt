//! Two maps in one, in which the values of the left or those of the right go first.
ghost use Rattle.std.specs.Prelude.{◌≡◌, Option, None, length, IsOk, IfOk, OnOk, OnErr};
ghost use Rattle.std.specs.Option.{option_or};
ghost use Rattle.std.specs.declared.cmp.Ordering.TheVariants.{Equal};
ghost use Rattle.range_map.specs.Changed.{IsCombined};

use crate::borrowed_steps::{BorrowedSteps, references};
use crate::in_place::combine_in_place;
use crate::map::RangeMap;
use crate::operation::MapOperation;
use crate::operations::{LeftFirst, RightFirst};
use crate::value::MapValue;
use range_collections::{Copier, EntryClone, EntryCopier};
use std::alloc::{AllocError, Global};

impl<K: EntryClone + Drop, V: MapValue> RangeMap<K, V> {
    /// The map that gives each key the value that it has here, or else the one that it has in the
    /// other map.
    pub fn union_with_left(&self, alloc: Global, that: &Self) -> Result<Self, AllocError>
        ensures values { IfOk result (λ map.
            IsCombined K.cmp V.eq (λ p q. option_or p q) self.now that.now map) }
        ensures succeeds { length self.now.keys ≡ 0 → length that.now.keys ≡ 0 → IsOk result }
    {
        let mut map = self.clone()?;
        map.combine_with(alloc, that, &LeftFirst, &EntryCopier)?;
        Ok(map)
    }

    /// The map that gives each key the value that it has in the other map, or else the one that it
    /// has here.
    pub fn union_with_right(&self, alloc: Global, that: &Self) -> Result<Self, AllocError>
        ensures values { IfOk result (λ map.
            IsCombined K.cmp V.eq (λ p q. option_or q p) self.now that.now map) }
        ensures succeeds { length self.now.keys ≡ 0 → length that.now.keys ≡ 0 → IsOk result }
    {
        let mut map = self.clone()?;
        map.combine_with(alloc, that, &RightFirst, &EntryCopier)?;
        Ok(map)
    }

    /// Puts copies of the ranges of the other map in, with their values, in the place of those that
    /// were there.
    ///
    /// ```text
    /// bookings.insert_all(&changes)?;
    /// ```
    ///
    /// It makes the steps from the first key of the other map on, up to its last, anew. If memory
    /// runs out, the map is as it was.
    pub fn insert_all(&mut self, that: &Self) -> Result<(), AllocError>
        ensures values { OnOk result (IsCombined K.cmp V.eq (λ p q. option_or q p) self.old that.now self.new) }
        ensures unchanged { OnErr result (self.new ≡ self.old) }
        ensures none { length that.now.keys ≡ 0 → (self.new ≡ self.old) × IsOk result }
    {
        let alloc = self.steps.allocator();
        self.combine_with(alloc, that, &RightFirst, &EntryCopier)
    }

    /// Gives each key without a value the one that it has in the other map. Else it is as
    /// `insert_all`.
    pub fn insert_where_free(&mut self, that: &Self) -> Result<(), AllocError>
        ensures values { OnOk result (IsCombined K.cmp V.eq (λ p q. option_or p q) self.old that.now self.new) }
        ensures unchanged { OnErr result (self.new ≡ self.old) }
        ensures none { length that.now.keys ≡ 0 → (self.new ≡ self.old) × IsOk result }
    {
        let alloc = self.steps.allocator();
        self.combine_with(alloc, that, &LeftFirst, &EntryCopier)
    }
}

impl<K: Ord + Drop, V: Eq + Drop> RangeMap<K, V> {
    // Gives each key what the operation makes of its values in both maps, with copies of keys by any
    // copier.
    pub(crate) fn combine_with<W: Eq, O: MapOperation<V, W, Output = V>, C: Copier<K>>(
        &mut self,
        alloc: Global,
        that: &RangeMap<K, W>,
        op: &O,
        copier: &C,
    ) -> Result<(), AllocError>
        requires keeps { (p : Option V) → O.gives op.now p None ≡ p }
        requires copies { (x y : K) → C.alike x y → K.cmp x y ≡ Equal }
        ensures values { OnOk result (IsCombined K.cmp V.eq (O.gives op.now) self.old that.now self.new) }
        ensures unchanged { OnErr result (self.new ≡ self.old) }
        ensures none { length that.now.keys ≡ 0 → (self.new ≡ self.old) × IsOk result }
    {
        let right = references(alloc, &that.steps)?;
        combine_in_place(&mut self.steps, &BorrowedSteps::new(&right), op, copier)
    }
}
