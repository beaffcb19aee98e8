//! The map: strictly sorted keys, and the option that holds from each of them on.
ghost use Rattle.std.specs.Prelude.{◌≡◌, ◌↔◌, ◌+◌, ◌-◌, ◌*◌, ◌^◌, ◌<◌, [], false, filter, length, IsTrue, Some, None, OnOk, OnErr, IsOk, option_copied};
ghost use Rattle.std.specs.Option.{is_some};
ghost use Rattle.std.specs.Ordering.{is_lt};
ghost use Rattle.range_merge.specs.Counting.{AddsAtMost};
ghost use Rattle.range_merge.specs.Runs.{digits};
ghost use Rattle.range_map.specs.Steps.{value_at, ranges_len};
ghost use Rattle.range_map.specs.Listed.{steps_in};
ghost use Rattle.range_map.specs.Changed.{IsSetTo, FitsAfter, IsFree};

mod building;
mod combining;
mod copying;
mod depth;
mod equality;
mod insert_free;
mod ranges;
mod sets;
mod text;
mod union;
mod updating;

use crate::places::{option_before, place_up_to};
use crate::replacing::set_range;
use crate::step::Step;
use crate::value::MapValue;
use range_collections::{Comparisons, has_elements};
use range_list::Chunks;
pub use ranges::Stretch;
use std::alloc::{AllocError, Global};
use std::marker::Model;
use std::ops::{Range, RangeFrom};

/// A map from ranges to values, which is changed range by range.
///
/// Each key has the value of the last range that was put around it, or none. Ranges that touch and
/// have equal values are one: two maps are equal exactly if each key has equal values in both. A
/// map to one value is a `RangeSet` of the keys that have it.
///
/// ```text
/// let mut bookings = RangeMap::new(alloc);
/// bookings.insert(9..12, Guest::Ada)?;
/// bookings.insert(11..14, Guest::Bob)?;
/// bookings.get(&10)                    // Some(&Guest::Ada)
/// bookings.get(&11)                    // Some(&Guest::Bob)
/// ```
///
/// A range has its start and not its end; an empty or reversed range has no keys. Of two equal keys
/// where ranges begin, either may stay. If memory runs out, the map is as it was. A value is copied
/// only where a range becomes two or `update` ends, or into a new map.
///
/// Its keys lie in chunks of at most 128, and a change moves those of one chunk. A search makes at
/// most 7 comparisons more than the number of keys has binary digits; a range has two keys at most.
pub struct RangeMap<K: Ord, V: Eq> {
    steps: Chunks<Step<K, V>, ()>,
}

impl<K: Ord + Drop, V: Eq + Drop> Drop for RangeMap<K, V> {
    #[inline]
    fn drop(self) {
        let Self { steps: _steps } = self;
    }
}

impl<K: Ord, V: Eq> Model for RangeMap<K, V> {
    ghost use Rattle.range_map.specs.Steps.{Steps, IsCanonical, coded_steps};
    ghost use Rattle.range_map.specs.Listed.{steps_in};

    ghost Value = { Steps K V };

    ghost coded = { coded_steps K.code V.code };

    ghost view = { λ map. steps_in map.steps };

    ghost invariant = { λ map. IsCanonical K.cmp V.eq (steps_in map.steps) };
}

impl<K: Ord, V: Eq> RangeMap<K, V> {
    /// The empty map. It takes no memory.
    #[inline]
    pub fn new(alloc: Global) -> Self
        ensures steps { (result.keys ≡ []) × (result.options ≡ []) }
        ensures values { (x : K) → value_at K.cmp result x ≡ None }
    {
        RangeMap {
            steps: Chunks::new(alloc),
        }
    }

    /// The value of `key`, or `None` if it has none.
    pub fn get(&self, key: &K) -> Option<&V>
        ensures { option_copied result ≡ value_at K.cmp self.now key.now }
    {
        self.get_counted(key, &mut Comparisons::new())
    }

    /// The same as `get`, counted: at most 7 comparisons more than the number of the map's keys has
    /// binary digits.
    #[inline]
    pub fn get_counted(&self, key: &K, count: &mut Comparisons) -> Option<&V>
        requires { count.old < 2 ^ 64 }
        ensures value { option_copied result ≡ value_at K.cmp self.now key.now }
        ensures comparisons { AddsAtMost count.old count.new (digits (length self.now.keys) + 7) }
    {
        let place = place_up_to(&self.steps, key, count);
        option_before(&self.steps, place)
    }

    /// Whether `key` has a value.
    pub fn contains_key(&self, key: &K) -> bool
        ensures { result ≡ is_some (value_at K.cmp self.now key.now) }
    {
        self.get(key).is_some()
    }

    /// Whether no key has a value.
    #[inline]
    pub fn is_empty(&self) -> bool
        ensures { IsTrue result ↔ ((x : K) → value_at K.cmp self.now x ≡ None) }
    {
        self.steps.is_empty()
    }

    /// How many ranges there are, where those that touch and have equal values are one. It reads all
    /// of them.
    pub fn len(&self) -> usize
        ensures { result ≡ ranges_len self.now }
    {
        some_len(&self.steps)
    }
}

impl<K: Ord + Drop, V: Eq + Drop> RangeMap<K, V> {
    /// Takes all ranges out. It keeps the room for the list of chunks.
    pub fn clear(&mut self)
        ensures steps { (self.new.keys ≡ []) × (self.new.options ≡ []) }
        ensures values { (x : K) → value_at K.cmp self.new x ≡ None }
    {
        self.steps.clear();
    }
}

impl<K: Ord + Drop, V: MapValue> RangeMap<K, V> {
    /// Gives each key of the range the value, in the place of the one that it had. An empty or
    /// reversed range changes nothing.
    ///
    /// It asks for memory only if there are more steps after it, and before it changes anything. It
    /// copies a value only if the range lies within another one. If that fails, the map is as it
    /// was, and the range and the value are dropped.
    pub fn insert(&mut self, range: Range<K>, value: V) -> Result<(), AllocError>
        ensures values { OnOk result (IsSetTo K.cmp V.eq range.start (Some range.end) (Some value) self.old self.new) }
        ensures unchanged { OnErr result (self.new ≡ self.old) }
        ensures empty { is_lt (K.cmp range.start range.end) ≡ false → (self.new ≡ self.old) × IsOk result }
        ensures succeeds { FitsAfter K.cmp V.eq range.start (Some range.end) (Some value) self.old → IsOk result }
        ensures no_change { IsSetTo K.cmp V.eq range.start (Some range.end) (Some value) self.old self.old → IsOk result }
    {
        self.insert_counted(range, value, &mut Comparisons::new())
    }

    /// The same as `insert`, counted: one comparison of the start with the end, and for each of the
    /// two at most 7 more than the number of the map's keys has binary digits.
    pub fn insert_counted(
        &mut self,
        range: Range<K>,
        value: V,
        count: &mut Comparisons,
    ) -> Result<(), AllocError>
        requires made { count.old < 2 ^ 64 }
        ensures values { OnOk result (IsSetTo K.cmp V.eq range.start (Some range.end) (Some value) self.old self.new) }
        ensures unchanged { OnErr result (self.new ≡ self.old) }
        ensures empty { is_lt (K.cmp range.start range.end) ≡ false → (self.new ≡ self.old) × IsOk result }
        ensures succeeds { FitsAfter K.cmp V.eq range.start (Some range.end) (Some value) self.old → IsOk result }
        ensures no_change { IsSetTo K.cmp V.eq range.start (Some range.end) (Some value) self.old self.old → IsOk result }
        ensures comparisons { AddsAtMost count.old count.new (2 * (digits (length self.old.keys) + 7) + 1) }
    {
        self.set(range, Some(value), count)
    }

    /// Takes the value of each key of the range away. An empty or reversed range changes nothing.
    ///
    /// It asks for memory, and copies a value, only if the range lies within another one, and
    /// before it changes anything. If that fails, the map is as it was, and the range is dropped.
    pub fn remove(&mut self, range: Range<K>) -> Result<(), AllocError>
        ensures values { OnOk result (IsSetTo K.cmp V.eq range.start (Some range.end) None self.old self.new) }
        ensures unchanged { OnErr result (self.new ≡ self.old) }
        ensures empty { is_lt (K.cmp range.start range.end) ≡ false → (self.new ≡ self.old) × IsOk result }
        ensures succeeds { FitsAfter K.cmp V.eq range.start (Some range.end) None self.old → IsOk result }
        ensures free { IsFree K.cmp range.start (Some range.end) self.old → IsOk result }
    {
        self.remove_counted(range, &mut Comparisons::new())
    }

    /// The same as `remove`, counted: one comparison of the start with the end, and for each of the
    /// two at most 7 more than the number of the map's keys has binary digits.
    pub fn remove_counted(
        &mut self,
        range: Range<K>,
        count: &mut Comparisons,
    ) -> Result<(), AllocError>
        requires made { count.old < 2 ^ 64 }
        ensures values { OnOk result (IsSetTo K.cmp V.eq range.start (Some range.end) None self.old self.new) }
        ensures unchanged { OnErr result (self.new ≡ self.old) }
        ensures empty { is_lt (K.cmp range.start range.end) ≡ false → (self.new ≡ self.old) × IsOk result }
        ensures succeeds { FitsAfter K.cmp V.eq range.start (Some range.end) None self.old → IsOk result }
        ensures free { IsFree K.cmp range.start (Some range.end) self.old → IsOk result }
        ensures comparisons { AddsAtMost count.old count.new (2 * (digits (length self.old.keys) + 7) + 1) }
    {
        self.set(range, None, count)
    }

    /// Gives each key from the start on the value, in the place of the one that it had.
    ///
    /// It asks for memory only if there are more steps after it, and before it changes anything. If
    /// that fails, the map is as it was, and the start and the value are dropped. It copies nothing.
    pub fn insert_from(&mut self, range: RangeFrom<K>, value: V) -> Result<(), AllocError>
        ensures values { OnOk result (IsSetTo K.cmp V.eq range.start None (Some value) self.old self.new) }
        ensures unchanged { OnErr result (self.new ≡ self.old) }
        ensures succeeds { FitsAfter K.cmp V.eq range.start None (Some value) self.old → IsOk result }
        ensures no_change { IsSetTo K.cmp V.eq range.start None (Some value) self.old self.old → IsOk result }
    {
        self.set_from(range.start, Some(value))
    }

    /// Takes the value of each key from the start on away.
    ///
    /// It asks for memory only if there are more steps after it, and before it changes anything. If
    /// that fails, the map is as it was, and the start is dropped. It copies nothing.
    pub fn remove_from(&mut self, range: RangeFrom<K>) -> Result<(), AllocError>
        ensures values { OnOk result (IsSetTo K.cmp V.eq range.start None None self.old self.new) }
        ensures unchanged { OnErr result (self.new ≡ self.old) }
        ensures succeeds { FitsAfter K.cmp V.eq range.start None None self.old → IsOk result }
        ensures free { IsFree K.cmp range.start None self.old → IsOk result }
    {
        self.set_from(range.start, None)
    }

    // Gives each key from the start on an option.
    fn set_from(&mut self, start: K, option: Option<V>) -> Result<(), AllocError>
        ensures values { OnOk result (IsSetTo K.cmp V.eq start None option self.old self.new) }
        ensures unchanged { OnErr result (self.new ≡ self.old) }
        ensures succeeds { FitsAfter K.cmp V.eq start None option self.old → IsOk result }
        ensures no_change { IsSetTo K.cmp V.eq start None option self.old self.old → IsOk result }
    {
        set_range(
            &mut self.steps,
            start,
            None,
            option,
            &mut Comparisons::new(),
        )
    }

    // Gives each key of the range an option.
    fn set(
        &mut self,
        range: Range<K>,
        option: Option<V>,
        count: &mut Comparisons,
    ) -> Result<(), AllocError>
        requires made { count.old < 2 ^ 64 }
        ensures values { OnOk result (IsSetTo K.cmp V.eq range.start (Some range.end) option self.old self.new) }
        ensures unchanged { OnErr result (self.new ≡ self.old) }
        ensures empty { is_lt (K.cmp range.start range.end) ≡ false → (self.new ≡ self.old) × IsOk result }
        ensures succeeds { FitsAfter K.cmp V.eq range.start (Some range.end) option self.old → IsOk result }
        ensures no_change { IsSetTo K.cmp V.eq range.start (Some range.end) option self.old self.old → IsOk result }
        ensures comparisons { AddsAtMost count.old count.new (2 * (digits (length self.old.keys) + 7) + 1) }
    {
        let Range { start, end } = range;
        if !has_elements(&start, &end, count) {
            return Ok(());
        }
        set_range(&mut self.steps, start, Some(end), option, count)
    }
}

// How many of the steps have a value: all but those without one.
fn some_len<K, V>(steps: &Chunks<Step<K, V>, ()>) -> usize
    ensures { result ≡ length (filter is_some (steps_in steps.now).options) }
{
    let mut len = steps.len();
    let mut unread = steps.items();
    while let Some(step) = unread.take_first() {
        if step.option.is_none() {
            len -= 1;
        }
    }
    len
}
