//! The ranges of a map with their values, from the lowest on and from the highest down.
ghost use Rattle.std.specs.Prelude.{◌≡◌, ◌∷◌, ◌++◌, [], map, option_copied, MatchOption};
ghost use Rattle.std.specs.Iterator.{YieldsFirstBy, YieldsLastBy, item_count};
ghost use Rattle.range_collections.specs.Ranges.{range_now};
ghost use Rattle.range_map.specs.Entries.{range_until, first_or, entries_of, entry_now};

use crate::step::Step;
use range_collections::RangeSetRange;
use range_list::Items;
use std::iter::FusedIterator;
use std::marker::Model;
use std::ops::{Range, RangeFrom};

/// The ranges of the steps that are still unread, each with its value. A clause reads it as the
/// list of these.
#[derive(Drop)]
pub struct Iter<'a, K, V> {
    steps: Items<'a, Step<K, V>, ()>,
    end: Option<&'a K>,
}

impl<'a, K, V> Model for Iter<'a, K, V> {
    ghost use Rattle.std.specs.Prelude.{List, option_copied};
    ghost use Rattle.range_collections.specs.declared.range_set_range.RangeSetRange.{RangeSetRange};
    ghost use Rattle.range_map.specs.Entries.{entries_of};

    ghost Value = { List (RangeSetRange K × V) };

    ghost view = { λ it. entries_of it.steps (option_copied it.end) };
}

impl<'a, K, V> Iter<'a, K, V> {
    // The ranges of these steps up to the end, if there is one.
    #[inline(always)]
    pub(crate) fn new(steps: Items<'a, Step<K, V>, ()>, end: Option<&'a K>) -> Self
        ensures { result ≡ entries_of steps.entry (option_copied end.entry) }
    {
        Iter { steps, end }
    }
}

impl<'a, K, V> Iterator for Iter<'a, K, V> {
    type Item = (RangeSetRange<&'a K>, &'a V);

    ghost next_gives = { YieldsFirstBy entry_now (λ entries. entries) };

    ghost remaining = { item_count (λ entries. entries) };

    #[inline]
    fn next(&mut self) -> Option<(RangeSetRange<&'a K>, &'a V)> {
        take_first_entry(&mut self.steps, self.end)
    }
}

impl<'a, K, V> DoubleEndedIterator for Iter<'a, K, V> {
    ghost next_back_gives = { YieldsLastBy entry_now (λ entries. entries) };

    #[inline]
    fn next_back(&mut self) -> Option<(RangeSetRange<&'a K>, &'a V)> {
        take_last_entry(&mut self.steps, &mut self.end)
    }
}

impl<'a, K, V> FusedIterator for Iter<'a, K, V> {}

// Takes the steps out up to the first one with a value. Returns its range and the value.
fn take_first_entry<'a, K, V>(
    steps: &mut Items<'a, Step<K, V>, ()>,
    end: Option<&'a K>,
) -> Option<(RangeSetRange<&'a K>, &'a V)>
    ensures { MatchOption result ((entries_of steps.old (option_copied end.entry) ≡ []) × (steps.new ≡ []))
        (λ e. entries_of steps.old (option_copied end.entry) ≡
        entry_now e ∷ entries_of steps.new (option_copied end.entry)) }
{
    while let Some(step) = steps.take_first() {
        if let Some(value) = &step.option {
            let range = range_until(&step.key, first_key_or(steps, end));
            return Some((range, value));
        }
    }
    None
}

// Takes the steps out down to the last one with a value. Returns its range, which ends at the end,
// and the value. The end is then the lowest key that was taken out.
fn take_last_entry<'a, K, V>(
    steps: &mut Items<'a, Step<K, V>, ()>,
    end: &mut Option<&'a K>,
) -> Option<(RangeSetRange<&'a K>, &'a V)>
    ensures { MatchOption result ((entries_of steps.old (option_copied end.old) ≡ []) × (steps.new ≡ []))
        (λ e. entries_of steps.old (option_copied end.old) ≡
        entries_of steps.new (option_copied end.new) ++ entry_now e ∷ []) }
{
    while let Some(step) = steps.take_last() {
        let above = end.replace(&step.key);
        if let Some(value) = &step.option {
            return Some((range_until(&step.key, above), value));
        }
    }
    None
}

/// From the start up to the end, if there is one.
#[inline(always)]
pub fn range_until<'a, K>(start: &'a K, end: Option<&'a K>) -> RangeSetRange<&'a K>
    ensures { range_now result ≡ range_until start.now (option_copied end.entry) }
{
    match end {
        Some(end) => RangeSetRange::Range(Range { start, end }),
        None => RangeSetRange::RangeFrom(RangeFrom { start }),
    }
}

/// The first key of these steps, or else the end.
#[inline(always)]
pub fn first_key_or<'a, K, V>(
    steps: &Items<'a, Step<K, V>, ()>,
    end: Option<&'a K>,
) -> Option<&'a K>
    ensures { option_copied result ≡ first_or (map (λ s. s.key) steps.now) (option_copied end.entry) }
{
    match steps.first() {
        Some(step) => Some(&step.key),
        None => end,
    }
}
