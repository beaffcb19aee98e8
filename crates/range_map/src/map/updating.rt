//! Values changed by what they were: those of a range by `update`, one by `modify`, all of a map by
//! `retain` and `retain_ranges`.
ghost use Rattle.std.specs.Prelude.{◌≡◌, true, false, None, Some, IsOk, IfOk, OnOk, OnErr};
ghost use Rattle.std.specs.Option.{is_some};
ghost use Rattle.std.specs.Ordering.{is_lt};
ghost use Rattle.std.specs.declared.cmp.Ordering.TheVariants.{Equal};
ghost use Rattle.range_map.specs.Steps.{AreAlike, value_at};
ghost use Rattle.range_map.specs.Stretches.{IsModified};
ghost use Rattle.range_map.specs.Updated.{IsUpdated, IsRetained, kept};

use crate::filter::{ByValue, MapFilter, RangeFilter};
use crate::map::RangeMap;
use crate::modifying::modify_stretch;
use crate::retaining::retain_entries;
use crate::update::MapUpdate;
use crate::updating::update_range;
use crate::value::MapValue;
use range_collections::{Comparisons, Copier, EntryClone, EntryCopier, has_elements};
use std::alloc::AllocError;
use std::ops::{Range, RangeFrom};

impl<K: EntryClone + Drop, V: MapValue> RangeMap<K, V> {
    /// Gives each key of the range what the update makes of its value, or of none. An empty or
    /// reversed range changes nothing.
    ///
    /// It makes the steps of the range anew, and copies the value behind it. If memory runs out, the
    /// map is as it was. An empty or reversed range takes none.
    pub fn update<O: MapUpdate<V>>(&mut self, range: Range<K>, op: &O) -> Result<(), AllocError>
        ensures values { OnOk result (IsUpdated K.cmp V.eq range.start (Some range.end) (O.gives op.now) self.old self.new) }
        ensures unchanged { OnErr result (self.new ≡ self.old) }
        ensures empty { is_lt (K.cmp range.start range.end) ≡ false → (self.new ≡ self.old) × IsOk result }
    {
        self.update_by(range, op, &EntryCopier)
    }

    /// Gives each key from the start on what the update makes of its value, or of none.
    ///
    /// It makes the steps from there on anew. If memory runs out, the map is as it was.
    pub fn update_from<O: MapUpdate<V>>(
        &mut self,
        range: RangeFrom<K>,
        op: &O,
    ) -> Result<(), AllocError>
        ensures values { OnOk result (IsUpdated K.cmp V.eq range.start None (O.gives op.now) self.old self.new) }
        ensures unchanged { OnErr result (self.new ≡ self.old) }
    {
        update_range(&mut self.steps, &range.start, &None, op, &EntryCopier)
    }

    /// Gives the longest range around `key` whose keys have its value what the update makes of that.
    /// Returns `false`, and changes nothing, if `key` has none.
    ///
    /// ```text
    /// bookings.modify(&10, &Moved)?    // 9..11 has what `Moved` makes of Guest::Ada
    /// ```
    ///
    /// It copies the ends of the range. If memory runs out, the map is as it was.
    pub fn modify<O: MapUpdate<V>>(&mut self, key: &K, op: &O) -> Result<bool, AllocError>
        ensures values { IfOk result (λ found. found ≡ true →
            IsModified K.cmp V.eq (O.gives op.now) key.now self.old self.new) }
        ensures found { IfOk result (λ found. found ≡ is_some (value_at K.cmp self.old key.now)) }
        ensures unchanged { OnErr result (self.new ≡ self.old) }
        ensures none { value_at K.cmp self.old key.now ≡ None → (self.new ≡ self.old) × IsOk result }
    {
        modify_stretch(&mut self.steps, key, op, &EntryCopier)
    }
}

impl<K: Ord + Drop, V: MapValue> RangeMap<K, V> {
    // Updates the range, with copies of keys by any copier.
    pub(crate) fn update_by<O: MapUpdate<V>, C: Copier<K>>(
        &mut self,
        range: Range<K>,
        op: &O,
        copier: &C,
    ) -> Result<(), AllocError>
        requires copies { (x y : K) → C.alike x y → K.cmp x y ≡ Equal }
        ensures values { OnOk result (IsUpdated K.cmp V.eq range.start (Some range.end) (O.gives op.now) self.old self.new) }
        ensures unchanged { OnErr result (self.new ≡ self.old) }
        ensures empty { is_lt (K.cmp range.start range.end) ≡ false → (self.new ≡ self.old) × IsOk result }
    {
        if !has_elements(&range.start, &range.end, &mut Comparisons::new()) {
            return Ok(());
        }
        let Range { start, end } = range;
        update_range(&mut self.steps, &start, &Some(end), op, copier)
    }
}

impl<K: Ord + Drop, V: Eq + Drop> RangeMap<K, V> {
    /// Takes away each value that the filter doesn't keep, in place. The filter is asked once for
    /// each range. It takes no memory and copies nothing.
    pub fn retain<F: MapFilter<V>>(&mut self, filter: &F)
        ensures { (x : K) → AreAlike V.eq (value_at K.cmp self.new x)
            (kept (F.is_kept filter.now) (value_at K.cmp self.old x)) }
    {
        retain_entries(&mut self.steps, &ByValue(filter));
    }

    /// Takes away each value that the filter doesn't keep with its range, as `retain` does.
    ///
    /// ```text
    /// bookings.retain_ranges(&Before(12)) // the filter is asked for 9..11, then for 11..14
    /// ```
    pub fn retain_ranges<F: RangeFilter<K, V>>(&mut self, filter: &F)
        ensures { IsRetained K.cmp V.eq (F.is_kept filter.now) self.old self.new }
    {
        retain_entries(&mut self.steps, filter);
    }
}
