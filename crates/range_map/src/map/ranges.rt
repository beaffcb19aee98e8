//! The ranges of a map: all of them with their values, and the one around a key.
ghost use Rattle.std.specs.Prelude.{◌≡◌, ◌≤◌, [], Some, None, filter, length, option_copied, slice_get, MatchOption};
ghost use Rattle.std.specs.List.{last_or};
ghost use Rattle.range_collections.specs.Extent.{IsSpan};
ghost use Rattle.range_collections.specs.Ranges.{range_now, range_start, range_end};
ghost use Rattle.range_map.specs.Steps.{value_at};
ghost use Rattle.range_map.specs.Entries.{entries, entry_now, overlaps, ranges_in, values_in};
ghost use Rattle.range_map.specs.Gaps.{AreGaps};
ghost use Rattle.range_map.specs.Stretches.{IsStretch};

use crate::gaps::Gaps;
use crate::iter::Iter;
use crate::keys::{Keys, Values};
use crate::map::RangeMap;
use crate::places::{key_at, key_before, option_before, place_up_to};
use crate::within::{gaps_between, overlapping_steps};
use range_collections::{Comparisons, RangeSetRange};
use std::ops::{Range, RangeFrom};

/// The longest range around a key whose keys all have one value, or all have none. It has no start
/// if all lower keys are in it too, and no end if all higher ones are.
#[derive(Drop)]
pub struct Stretch<'a, K, V> {
    pub start: Option<&'a K>,
    pub end: Option<&'a K>,
    pub value: Option<&'a V>,
}

impl<K: Ord, V: Eq> RangeMap<K, V> {
    /// The ranges with their values, from the lowest on and from the highest down. Ranges that
    /// touch and have equal values are one.
    #[inline]
    pub fn iter(&self) -> Iter<'_, K, V>
        ensures { result ≡ entries self.now }
    {
        Iter::new(self.steps.items(), None)
    }

    /// The ranges that have a value, from the lowest on and from the highest down.
    ///
    /// ```text
    /// bookings.keys()                  // 9..11, 11..14
    /// ```
    pub fn keys(&self) -> Keys<'_, K, V>
        ensures { result ≡ ranges_in self.now }
    {
        Keys::new(self.iter())
    }

    /// The values, from that of the lowest range on and from that of the highest down. A value comes
    /// as often as it has ranges.
    pub fn values(&self) -> Values<'_, K, V>
        ensures { result ≡ values_in self.now }
    {
        Values::new(self.iter())
    }

    /// The first range with its value, or `None` if the map is empty.
    #[inline]
    pub fn first(&self) -> Option<(RangeSetRange<&K>, &V)>
        ensures { MatchOption result (entries self.now ≡ []) (λ entry.
            slice_get (entries self.now) 0 ≡ Some (entry_now entry)) }
    {
        self.iter().next()
    }

    /// The last range with its value, or `None` if the map is empty.
    #[inline]
    pub fn last(&self) -> Option<(RangeSetRange<&K>, &V)>
        ensures { MatchOption result (entries self.now ≡ []) (λ entry.
            last_or None (entries self.now) ≡ Some (entry_now entry)) }
    {
        self.iter().next_back()
    }

    /// The hull: from the start of the first range to the end of the last one, or without an end if
    /// that has none. `None` if the map is empty.
    ///
    /// ```text
    /// bookings.span()                  // 9..14
    /// ```
    pub fn span(&self) -> Option<RangeSetRange<&K>>
        ensures { MatchOption result (ranges_in self.now ≡ []) (λ range.
            IsSpan (ranges_in self.now) (range_now range)) }
    {
        let (first, _) = self.first()?;
        let (last, _) = self.last()?;
        Some(hull(first, last))
    }

    /// The ranges that share a key with this one, whole, each with its value. It has none in common
    /// with an empty or reversed range.
    ///
    /// ```text
    /// bookings.overlapping(&10..&12)   // 9..11 with Guest::Ada, 11..14 with Guest::Bob
    /// ```
    pub fn overlapping<'a>(&'a self, range: Range<&K>) -> Iter<'a, K, V>
        ensures { result ≡ filter (overlaps K.cmp range.entry.start.now range.entry.end.now)
            (entries self.now) }
    {
        overlapping_steps(&self.steps, range.start, range.end)
    }

    /// The parts of a range whose keys have no value, from the lowest on and from the highest down.
    /// None is empty, and each ends below the start of the next. An empty or reversed range has none.
    ///
    /// ```text
    /// bookings.gaps(&10..&20)          // 14..20
    /// ```
    pub fn gaps<'a>(&'a self, within: Range<&'a K>) -> Gaps<'a, K, V>
        ensures { AreGaps K.cmp self.now within.entry.start.now within.entry.end.now result }
    {
        gaps_between(&self.steps, within.start, within.end)
    }

    /// The longest range around `key` with its value, or with none.
    ///
    /// ```text
    /// bookings.range_at(&13)           // Stretch { start: 11, end: 14, value: Guest::Bob }
    /// bookings.range_at(&20)           // Stretch { start: 14, end: None, value: None }
    /// ```
    pub fn range_at(&self, key: &K) -> Stretch<'_, K, V>
        ensures value { option_copied result.value ≡ value_at K.cmp self.now key.now }
        ensures around { IsStretch K.cmp V.eq self.now key.now
            (option_copied result.start) (option_copied result.end) }
    {
        let place = place_up_to(&self.steps, key, &mut Comparisons::new());
        Stretch {
            start: key_before(&self.steps, place),
            end: key_at(&self.steps, place),
            value: option_before(&self.steps, place),
        }
    }
}

impl<'a, K: Ord, V: Eq> IntoIterator for &'a RangeMap<K, V> {
    type Item = (RangeSetRange<&'a K>, &'a V);

    type IntoIter = Iter<'a, K, V>;

    ghost use Rattle.std.specs.Prelude.{◌≡◌};
    ghost use Rattle.range_map.specs.Entries.{entries};

    ghost into_iter_gives = { λ map it. it ≡ entries map.now };

    #[inline]
    fn into_iter(self) -> Iter<'a, K, V> {
        self.iter()
    }
}

// From the start of a range up to the end of another, if that has one.
fn hull<'a, K>(first: RangeSetRange<&'a K>, last: RangeSetRange<&'a K>) -> RangeSetRange<&'a K>
    ensures start { range_start (range_now result) ≡ range_start (range_now first.entry) }
    ensures end { range_end (range_now result) ≡ range_end (range_now last.entry) }
{
    let start = match first {
        RangeSetRange::Range(range) => range.start,
        RangeSetRange::RangeFrom(range) => range.start,
    };
    match last {
        RangeSetRange::Range(range) => RangeSetRange::Range(Range {
            start,
            end: range.end,
        }),
        RangeSetRange::RangeFrom(_) => RangeSetRange::RangeFrom(RangeFrom { start }),
    }
}
