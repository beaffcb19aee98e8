//! What the exports do with a map, for keys and values of any type.
ghost use Rattle.std.specs.Prelude.{◌≡◌, false, Some, None, filter};
ghost use Rattle.range_map.specs.Entries.{entries, overlaps};
ghost use Rattle.range_map.specs.Steps.{value_at};
ghost use Rattle.range_map.specs.Stretches.{IsStretch};
ghost use Rattle.range_c.specs.Mapped.{told, CopiesEntries, IsSetIfDone, Tells};

use crate::chunked::{is_done, put_ends, put_one};
use crate::parts::put;
use range_map::{Iter, MapValue, RangeMap};

// Gives the keys from `start` to below `end` the value, and returns whether there was memory for it.
pub(crate) fn insert<K: Ord + Drop, V: MapValue>(
    map: &mut RangeMap<K, V>,
    start: K,
    end: K,
    value: V,
) -> bool
    ensures { IsSetIfDone K.cmp V.eq start (Some end) (Some value) map.old map.new result }
{
    is_done(map.insert(start..end, value))
}

// Takes the values of the keys from `start` to below `end` away, and returns whether there was
// memory for it.
pub(crate) fn remove<K: Ord + Drop, V: MapValue>(map: &mut RangeMap<K, V>, start: K, end: K) -> bool
    ensures { IsSetIfDone K.cmp V.eq start (Some end) None map.old map.new result }
{
    is_done(map.remove(start..end))
}

// Gives the keys from `start` on the value, and returns whether there was memory for it.
pub(crate) fn insert_from<K: Ord + Drop, V: MapValue>(
    map: &mut RangeMap<K, V>,
    start: K,
    value: V,
) -> bool
    ensures { IsSetIfDone K.cmp V.eq start None (Some value) map.old map.new result }
{
    is_done(map.insert_from(start.., value))
}

// Takes the values of the keys from `start` on away, and returns whether there was memory for it.
pub(crate) fn remove_from<K: Ord + Drop, V: MapValue>(map: &mut RangeMap<K, V>, start: K) -> bool
    ensures { IsSetIfDone K.cmp V.eq start None None map.old map.new result }
{
    is_done(map.remove_from(start..))
}

// Whether the key has a value, and then writes it.
pub(crate) fn get<K: Ord, V: Eq + Copy>(map: &RangeMap<K, V>, key: &K, value: &mut V) -> bool
    ensures { Tells (value_at K.cmp map.now key.now) value.old value.new result }
{
    put(map.get(key).copied(), value)
}

// Whether the key has a value, and then writes it. It also writes the longest range around the key
// whose keys have one value, or none: its start and its end, and for each whether there is one.
pub(crate) fn range_at<K: Ord + Copy, V: Eq + Copy>(
    map: &RangeMap<K, V>,
    key: &K,
    start: &mut K,
    has_start: &mut bool,
    end: &mut K,
    has_end: &mut bool,
    value: &mut V,
) -> bool
    ensures value { Tells (value_at K.cmp map.now key.now) value.old value.new result }
    ensures around { IsStretch K.cmp V.eq map.now key.now
        (told has_start.new start.new) (told has_end.new end.new) }
    ensures no_start { has_start.new ≡ false → start.new ≡ start.old }
    ensures no_end { has_end.new ≡ false → end.new ≡ end.old }
{
    let found = map.range_at(key);
    *has_start = put(found.start.copied(), start);
    *has_end = put(found.end.copied(), end);
    put(found.value.copied(), value)
}

// Writes the first ranges that share a key with the one from `start` to below `end`, whole, and
// their values: as many as have room for two keys and for a value. Returns how many ends these are.
pub(crate) fn overlapping<K: Ord + Copy, V: Eq + Copy>(
    map: &RangeMap<K, V>,
    start: K,
    end: K,
    ends: &mut [K],
    values: &mut [V],
) -> usize
    ensures { CopiesEntries (filter (overlaps K.cmp start end) (entries map.now))
        ends.old ends.new values.old values.new result }
{
    put_entries(map.overlapping(&start..&end), ends, values)
}

// Puts the ends of the first ranges and their values to the front, of as many as there is room for.
fn put_entries<K: Copy, V: Copy>(entries: Iter<'_, K, V>, ends: &mut [K], values: &mut [V]) -> usize
    ensures { CopiesEntries entries.entry ends.old ends.new values.old values.new result }
{
    let room = (ends.len() / 2).min(values.len());
    let mut len = 0;
    let mut count = 0;
    for (range, value) in entries {
        if count == room {
            return len;
        }
        len = put_ends(ends, len, &range);
        count = put_one(values, count, value);
    }
    len
}
