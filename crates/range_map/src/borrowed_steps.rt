//! The steps of a map that is combined with another, or those of a set, by reference.
ghost use Rattle.std.specs.Prelude.{◌≡◌, ◌<◌, ◌≤◌, [], true, IsOk, IfOk, map, length, drop, option_copied, HoldsAt};
ghost use Rattle.range_list.specs.Lists.{joined};
ghost use Rattle.range_map.specs.Combining.{option_before};
ghost use Rattle.range_map.specs.Listed.{steps_in};
ghost use Rattle.range_map.specs.Read.{steps_read};
ghost use Rattle.range_map.specs.Units.{on_off, unit_if};

use crate::step::Step;
use range_collections::RangeSetRef;
use range_list::Chunks;
use std::alloc::{AllocError, Global};
use std::marker::Model;

/// Keys, and the option that holds from each of them on. A clause reads it as these.
#[derive(Drop)]
pub struct BorrowedSteps<'a, K, V> {
    steps: &'a [Step<&'a K, &'a V>],
}

impl<'a, K, V> Model for BorrowedSteps<'a, K, V> {
    ghost use Rattle.range_map.specs.Steps.{Steps};
    ghost use Rattle.range_map.specs.Read.{steps_read};

    ghost Value = { Steps K V };

    ghost view = { λ side. steps_read side.steps.now };
}

impl<'a, K, V> BorrowedSteps<'a, K, V> {
    /// The steps of a list of references.
    #[inline(always)]
    pub fn new(steps: &'a [Step<&'a K, &'a V>]) -> Self
        ensures { result ≡ steps_read steps.now }
    {
        BorrowedSteps { steps }
    }

    /// How many steps there are.
    #[inline(always)]
    pub fn len(&self) -> usize
        ensures { result ≡ length self.now.keys }
    {
        self.steps.len()
    }

    /// The key at a place.
    #[inline(always)]
    pub fn key(&self, place: usize) -> &'a K
        requires { place < length self.now.keys }
        ensures { HoldsAt (λ k. result.now ≡ k) self.now.keys place }
    {
        let steps = self.steps;
        steps[place].key
    }

    /// The option before a place; none stands before the first.
    #[inline(always)]
    pub fn option_before(&self, place: usize) -> Option<&'a V>
        requires { place ≤ length self.now.keys }
        ensures { option_copied result ≡ option_before self.now place }
    {
        let steps = self.steps;
        if place == 0 {
            None
        } else {
            steps[place - 1].option
        }
    }

    /// The steps from a place on.
    #[inline(always)]
    pub fn behind(&self, place: usize) -> &'a [Step<&'a K, &'a V>]
        requires { place ≤ length self.now.keys }
        ensures { (steps_read result.now).keys ≡ drop place self.now.keys }
    {
        let steps = self.steps;
        &steps[place..]
    }
}

/// References to the steps of a map, in order.
pub fn references<'a, K, V>(
    alloc: Global,
    steps: &'a Chunks<Step<K, V>, ()>,
) -> Result<Vec<Step<&'a K, &'a V>>, AllocError>
    ensures steps { IfOk result (λ list. steps_read list.items ≡ steps_in steps.now) }
    ensures succeeds { joined steps.now ≡ [] → IsOk result }
{
    let mut list = Vec::with_capacity(alloc, steps.len())?;
    let mut unread = steps.items();
    while let Some(step) = unread.take_first() {
        list.push(Step {
            key: &step.key,
            option: step.option.as_ref(),
        })?;
    }
    Ok(list)
}

/// The steps of the map that has the unit on the members of a set alone: one at each boundary.
pub fn units<'a, K>(
    alloc: Global,
    boundaries: &'a [K],
) -> Result<Vec<Step<&'a K, &'a ()>>, AllocError>
    ensures keys { IfOk result (λ list. (steps_read list.items).keys ≡ boundaries.now) }
    ensures options { IfOk result (λ list. (steps_read list.items).options ≡ on_off true (length boundaries.now)) }
    ensures succeeds { boundaries.now ≡ [] → IsOk result }
{
    let mut list = Vec::with_capacity(alloc, boundaries.len())?;
    for i in 0..boundaries.len() {
        list.push(Step {
            key: &boundaries[i],
            option: unit_if(i % 2 == 0),
        })?;
    }
    Ok(list)
}

// The unit, if the condition is true.
fn unit_if<'a>(condition: bool) -> Option<&'a ()>
    ensures { option_copied result ≡ unit_if condition }
{
    condition.then_some(&())
}
