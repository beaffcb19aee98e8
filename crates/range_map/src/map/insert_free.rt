//! Ranges that are put in only where no key has a value.
ghost use Rattle.std.specs.Prelude.{◌≡◌, ◌↔◌, false, None, Some, IsTrue, IsOk, OnOk, OnErr, IfErr};
ghost use Rattle.std.specs.Ordering.{is_lt};
ghost use Rattle.range_map.specs.Changed.{IsSetTo, FitsAfter, IsFree};
ghost use Rattle.range_map.specs.Refused.{IsRefusal};

use crate::free::{is_free, is_free_from, set_free};
use crate::insert_error::InsertError;
use crate::map::RangeMap;
use range_collections::{Comparisons, has_elements};
use std::ops::{Range, RangeFrom};

impl<K: Ord + Drop, V: Eq> RangeMap<K, V> {
    /// Whether no key of the range has a value. It is `true` for an empty or reversed range.
    pub fn is_free(&self, range: Range<K>) -> bool
        ensures { IsTrue result ↔ IsFree K.cmp range.start (Some range.end) self.now }
    {
        is_free(&self.steps, &range.start, Some(&range.end))
    }

    /// Whether no key from the start on has a value.
    pub fn is_free_from(&self, range: RangeFrom<K>) -> bool
        ensures { IsTrue result ↔ IsFree K.cmp range.start None self.now }
    {
        is_free_from(&self.steps, &range.start)
    }
}

impl<K: Ord + Drop, V: Eq + Drop> RangeMap<K, V> {
    /// Gives each key of the range the value, if none of them has one. An empty or reversed range
    /// changes nothing.
    ///
    /// It asks for memory only if there are more steps after it, and before it changes anything. If
    /// that fails, or a key has a value, the map is as it was, and the error has the value. It
    /// copies nothing.
    pub fn insert_free(&mut self, range: Range<K>, value: V) -> Result<(), InsertError<V>>
        ensures values { OnOk result (IsSetTo K.cmp V.eq range.start (Some range.end) (Some value) self.old self.new) }
        ensures free { OnOk result (IsFree K.cmp range.start (Some range.end) self.old) }
        ensures handed_back { IfErr result (IsRefusal (IsFree K.cmp range.start (Some range.end) self.old) value) }
        ensures unchanged { OnErr result (self.new ≡ self.old) }
        ensures succeeds { IsFree K.cmp range.start (Some range.end) self.old →
            FitsAfter K.cmp V.eq range.start (Some range.end) (Some value) self.old → IsOk result }
        ensures empty { is_lt (K.cmp range.start range.end) ≡ false → (self.new ≡ self.old) × IsOk result }
    {
        let Range { start, end } = range;
        if !has_elements(&start, &end, &mut Comparisons::new()) {
            return Ok(());
        }
        set_free(&mut self.steps, start, Some(end), value)
    }

    /// Gives each key from the start on the value, if none of them has one.
    ///
    /// It asks for memory only if there are more steps after it, and before it changes anything. If
    /// that fails, or a key has a value, the map is as it was, and the error has the value. It
    /// copies nothing.
    pub fn insert_free_from(&mut self, range: RangeFrom<K>, value: V) -> Result<(), InsertError<V>>
        ensures values { OnOk result (IsSetTo K.cmp V.eq range.start None (Some value) self.old self.new) }
        ensures free { OnOk result (IsFree K.cmp range.start None self.old) }
        ensures handed_back { IfErr result (IsRefusal (IsFree K.cmp range.start None self.old) value) }
        ensures unchanged { OnErr result (self.new ≡ self.old) }
        ensures succeeds { IsFree K.cmp range.start None self.old →
            FitsAfter K.cmp V.eq range.start None (Some value) self.old → IsOk result }
    {
        set_free(&mut self.steps, range.start, None, value)
    }
}
