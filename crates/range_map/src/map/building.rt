//! A map made of many ranges, of which later ones replace earlier ones.
ghost use Rattle.std.specs.Prelude.{◌≡◌, length, IsOk, IfOk, None};
ghost use Rattle.range_map.specs.Steps.{AreAlike, value_at};
ghost use Rattle.range_map.specs.Pairs.{last_at};

use crate::map::RangeMap;
use crate::value::MapValue;
use std::alloc::{AllocError, Global};
use std::ops::Range;

impl<K: Ord + Drop, V: MapValue> RangeMap<K, V> {
    /// The map in which each key has the value of the last range that holds it.
    ///
    /// The ranges may come in any order, and may overlap, touch or be empty; it inserts them one by
    /// one. If memory runs out, they are dropped.
    ///
    /// If no range ends below an earlier one, each is put at the end.
    pub fn from_ranges(alloc: Global, ranges: Vec<(Range<K>, V)>) -> Result<Self, AllocError>
        ensures values { IfOk result (λ map. (x : K) →
            AreAlike V.eq (value_at K.cmp map x) (last_at K.cmp ranges.items None x)) }
        ensures succeeds { length ranges.items ≡ 0 → IsOk result }
    {
        let mut map = RangeMap::new(alloc);
        for (range, value) in ranges {
            map.insert(range, value)?;
        }
        Ok(map)
    }
}
