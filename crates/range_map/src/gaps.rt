//! The parts of a range whose keys have no value, from the lowest on and from the highest down.
ghost use Rattle.std.specs.Prelude.{◌≡◌, ◌∷◌, ◌++◌, [], Some, map, option_copied, MatchOption};
ghost use Rattle.std.specs.Iterator.{YieldsFirstBy, YieldsLastBy, item_count};
ghost use Rattle.range_collections.specs.Within.{with_end};
ghost use Rattle.range_map.specs.Entries.{first_or};
ghost use Rattle.range_map.specs.Gaps.{gaps_of, free_of};

use crate::iter::first_key_or;
use crate::step::Step;
use range_list::Items;
use std::iter::FusedIterator;
use std::marker::Model;
use std::mem;
use std::ops::Range;

/// The parts of a range whose keys have no value. A clause reads it as the list of those that are
/// still unread.
#[derive(Drop)]
pub struct Gaps<'a, K, V> {
    // Where a part begins before the first step, if one does.
    first: Option<&'a K>,
    steps: Items<'a, Step<K, V>, ()>,
    end: &'a K,
}

impl<'a, K, V> Model for Gaps<'a, K, V> {
    ghost use Rattle.std.specs.Prelude.{List, option_copied};
    ghost use Rattle.range_collections.specs.declared.range_set_range.RangeSetRange.{RangeSetRange};
    ghost use Rattle.range_map.specs.Gaps.{gaps_of};

    ghost Value = { List (RangeSetRange K) };

    ghost view = { λ it. gaps_of (option_copied it.first) it.steps it.end.now };
}

impl<'a, K, V> Gaps<'a, K, V> {
    // The parts up to the end: one from the first key given, and one from each key that has none.
    #[inline(always)]
    pub(crate) fn new(first: Option<&'a K>, steps: Items<'a, Step<K, V>, ()>, end: &'a K) -> Self
        ensures { result ≡ gaps_of (option_copied first.entry) steps.entry end.now }
    {
        Gaps { first, steps, end }
    }
}

impl<'a, K, V> Iterator for Gaps<'a, K, V> {
    type Item = Range<&'a K>;

    ghost next_gives = { YieldsFirstBy with_end (λ gaps. gaps) };

    ghost remaining = { item_count (λ gaps. gaps) };

    fn next(&mut self) -> Option<Range<&'a K>> {
        take_first_gap(&mut self.first, &mut self.steps, self.end)
    }
}

impl<'a, K, V> DoubleEndedIterator for Gaps<'a, K, V> {
    ghost next_back_gives = { YieldsLastBy with_end (λ gaps. gaps) };

    fn next_back(&mut self) -> Option<Range<&'a K>> {
        take_last_gap(&mut self.first, &mut self.steps, &mut self.end)
    }
}

impl<'a, K, V> FusedIterator for Gaps<'a, K, V> {}

// Takes the first part out, with the steps up to its start.
fn take_first_gap<'a, K, V>(
    first: &mut Option<&'a K>,
    steps: &mut Items<'a, Step<K, V>, ()>,
    end: &'a K,
) -> Option<Range<&'a K>>
    ensures { MatchOption result
        ((gaps_of (option_copied first.old) steps.old end.now ≡ []) × (gaps_of (option_copied first.new) steps.new end.now ≡ []))
        (λ r. gaps_of (option_copied first.old) steps.old end.now ≡
        with_end r ∷ gaps_of (option_copied first.new) steps.new end.now) }
{
    let Some(start) = first.take() else {
        return take_first_free(steps, end);
    };
    Some(Range {
        start,
        end: next_key(steps, end),
    })
}

// Takes the steps out up to the first one without a value. Returns its range.
fn take_first_free<'a, K, V>(
    steps: &mut Items<'a, Step<K, V>, ()>,
    end: &'a K,
) -> Option<Range<&'a K>>
    ensures { MatchOption result ((free_of steps.old end.now ≡ []) × (steps.new ≡ []))
        (λ r. free_of steps.old end.now ≡ with_end r ∷ free_of steps.new end.now) }
{
    while let Some(step) = steps.take_first() {
        if step.option.is_none() {
            return Some(Range {
                start: &step.key,
                end: next_key(steps, end),
            });
        }
    }
    None
}

// Takes the last part out, with the steps down to its start. The end is then the lowest key that was
// taken out.
fn take_last_gap<'a, K, V>(
    first: &mut Option<&'a K>,
    steps: &mut Items<'a, Step<K, V>, ()>,
    end: &mut &'a K,
) -> Option<Range<&'a K>>
    ensures { MatchOption result
        ((gaps_of (option_copied first.old) steps.old end.old.now ≡ []) × (gaps_of (option_copied first.new) steps.new end.new.now ≡ []))
        (λ r. gaps_of (option_copied first.old) steps.old end.old.now ≡
        gaps_of (option_copied first.new) steps.new end.new.now ++ with_end r ∷ []) }
{
    while let Some(step) = steps.take_last() {
        let above = mem::replace(end, &step.key);
        if step.option.is_none() {
            return Some(Range {
                start: &step.key,
                end: above,
            });
        }
    }
    let start = first.take()?;
    Some(Range { start, end: *end })
}

// The first key of these steps, or else the end.
#[inline(always)]
fn next_key<'a, K, V>(steps: &Items<'a, Step<K, V>, ()>, end: &'a K) -> &'a K
    ensures { Some result.now ≡ first_or (map (λ s. s.key) steps.now) (Some end.now) }
{
    first_key_or(steps, None).unwrap_or(end)
}
