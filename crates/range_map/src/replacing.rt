//! A range given one option: the steps that lie in it give way to at most two.
ghost use Rattle.std.specs.Prelude.{◌≡◌, ◌<◌, ◌≤◌, ◌+◌, ◌*◌, ◌^◌, ◌∷◌, None, Some, Option, cond, length, true, false, get_or, IfOk, IfErr, OnOk, OnErr, IsOk};
ghost use Rattle.std.specs.Option.{option_to_list};
ghost use Rattle.std.specs.declared.cmp.Ordering.TheVariants.{Less};
ghost use Rattle.range_merge.specs.Counting.{AddsAtMost};
ghost use Rattle.range_merge.specs.Runs.{digits};
ghost use Rattle.range_collections.specs.Splicing.{spliced};
ghost use Rattle.range_list.specs.Lists.{joined, place_at, IsPlaceAt};
ghost use Rattle.range_map.specs.Steps.{AreAlike, IsCanonical};
ghost use Rattle.range_map.specs.Listed.{steps_in};
ghost use Rattle.range_map.specs.Changed.{IsSetTo, FitsAfter};
ghost use Rattle.range_map.specs.Places.{ArePlaces, span_of, end_step};

use crate::places::{Places, find, option_before};
use crate::step::{Step, StepKey};
use crate::value::{MapValue, copy_option};
use range_collections::Comparisons;
use range_list::Chunks;
use std::alloc::AllocError;

/// Gives the elements from the start up to the end, if there is one, an option. It asks for memory
/// only if steps are added or a range becomes two, and before it changes anything.
pub fn set_range<K: Ord + Drop, V: MapValue>(
    steps: &mut Chunks<Step<K, V>, ()>,
    start: K,
    end: Option<K>,
    option: Option<V>,
    count: &mut Comparisons,
) -> Result<(), AllocError>
    requires canonical { IsCanonical K.cmp V.eq (steps_in steps.old) }
    requires some { (e : K) → end ≡ Some e → K.cmp start e ≡ Less }
    requires made { count.old < 2 ^ 125 }
    ensures canonical { IsCanonical K.cmp V.eq (steps_in steps.new) }
    ensures values { OnOk result (IsSetTo K.cmp V.eq start end option (steps_in steps.old) (steps_in steps.new)) }
    ensures unchanged { OnErr result (steps_in steps.new ≡ steps_in steps.old) }
    ensures succeeds { FitsAfter K.cmp V.eq start end option (steps_in steps.old) → IsOk result }
    ensures comparisons { AddsAtMost count.old count.new
        (2 * (digits (length (steps_in steps.old).keys) + 7)) }
{
    let places = find(steps, &start, end.as_ref(), &option, count);
    let copied = copy_before(steps, places)?;
    match put_range(steps, places, start, end, option, copied) {
        Ok(()) => Ok(()),
        Err(_) => Err(AllocError),
    }
}

/// Puts the range at its places. Where it lies within one step, the copy holds from its end on. It
/// asks for memory only if steps are added, and before it changes anything. If that fails, it
/// hands the option back.
pub fn put_range<K: Ord + Drop, V: Eq + Drop>(
    steps: &mut Chunks<Step<K, V>, ()>,
    places: Places,
    start: K,
    end: Option<K>,
    option: Option<V>,
    copied: Option<V>,
) -> Result<(), Option<V>>
    requires canonical { IsCanonical K.cmp V.eq (steps_in steps.old) }
    requires some { (e : K) → end ≡ Some e → K.cmp start e ≡ Less }
    requires from { IsPlaceAt steps.old places.from }
    requires to { IsPlaceAt steps.old places.to }
    requires places { ArePlaces K.cmp V.eq (steps_in steps.old) start end option (span_of steps.old places) }
    requires copied { place_at steps.old places.from ≡ place_at steps.old places.to → places.ends ≡ true →
        AreAlike V.eq copied (get_or (None ∷ (steps_in steps.old).options) (place_at steps.old places.to) None) }
    ensures canonical { IsCanonical K.cmp V.eq (steps_in steps.new) }
    ensures values { OnOk result (IsSetTo K.cmp V.eq start end option (steps_in steps.old) (steps_in steps.new)) }
    ensures unchanged { OnErr result (steps_in steps.new ≡ steps_in steps.old) }
    ensures handed_back { IfErr result (λ back. back ≡ option) }
    ensures succeeds { FitsAfter K.cmp V.eq start end option (steps_in steps.old) → IsOk result }
{
    let end = end_if(places.ends, end);
    if !places.starts {
        match put_steps(steps, places, None, end, copied) {
            Ok(()) => return Ok(()),
            Err(_) => return Err(option),
        }
    }
    let first = Step { key: start, option };
    match put_steps(steps, places, Some(first), end, copied) {
        Ok(()) => Ok(()),
        Err(first) => Err(option_of(first)),
    }
}

// The end, if a step has to stand there.
fn end_if<K: Drop>(ends: bool, end: Option<K>) -> Option<K>
    ensures { result ≡ cond ends end None }
{
    if ends { end } else { None }
}

// The option of a step, if there is one.
fn option_of<K: Drop, V>(step: Option<Step<K, V>>) -> Option<V>
    ensures { (first : Step K V) → step ≡ Some first → result ≡ first.option }
{
    match step {
        Some(step) => step.option,
        None => None,
    }
}

// Puts the first step, if it is given, and one at the end, if that is, in the place of the steps in
// the range. The option at the end is that of the last of them, and if there is none it is the
// copy. If memory runs out, the first step is handed back.
fn put_steps<K: Drop, V: Drop>(
    steps: &mut Chunks<Step<K, V>, ()>,
    places: Places,
    first: Option<Step<K, V>>,
    end: Option<K>,
    copied: Option<V>,
) -> Result<(), Option<Step<K, V>>>
    requires from { IsPlaceAt steps.old places.from }
    requires to { IsPlaceAt steps.old places.to }
    requires ordered { place_at steps.old places.from ≤ place_at steps.old places.to }
    requires within { place_at steps.old places.to ≤ length (joined steps.old) }
    ensures items { OnOk result (joined steps.new ≡
        spliced (joined steps.old) (place_at steps.old places.from) (place_at steps.old places.to)
        first (end_step (joined steps.old) (span_of steps.old places) end copied)) }
    ensures unchanged { OnErr result (joined steps.new ≡ joined steps.old) }
    ensures handed_back { IfErr result (λ back. back ≡ first) }
    ensures succeeds { place_at steps.old places.from + length (option_to_list first)
        + length (option_to_list end) ≤ place_at steps.old places.to → IsOk result }
{
    match end {
        None => splice(steps, places, first, None),
        Some(key) => {
            if steps.is_before(places.from, places.to) {
                return steps.splice_last(places.from, places.to, first, &StepKey, key);
            }
            let last = Step {
                key,
                option: copied,
            };
            splice(steps, places, first, Some(last))
        }
    }
}

// Puts one step or two in the place of those in the range. If memory runs out, the first one is
// handed back.
fn splice<K: Drop, V: Drop>(
    steps: &mut Chunks<Step<K, V>, ()>,
    places: Places,
    first: Option<Step<K, V>>,
    last: Option<Step<K, V>>,
) -> Result<(), Option<Step<K, V>>>
    requires from { IsPlaceAt steps.old places.from }
    requires to { IsPlaceAt steps.old places.to }
    requires ordered { place_at steps.old places.from ≤ place_at steps.old places.to }
    ensures items { OnOk result (joined steps.new ≡ spliced (joined steps.old)
        (place_at steps.old places.from) (place_at steps.old places.to) first last) }
    ensures unchanged { OnErr result (joined steps.new ≡ joined steps.old) }
    ensures handed_back { IfErr result (λ back. back ≡ first) }
    ensures succeeds { place_at steps.old places.from + length (option_to_list first)
        + length (option_to_list last) ≤ place_at steps.old places.to → IsOk result }
{
    match steps.splice(places.from, places.to, first, last) {
        Ok(()) => Ok(()),
        Err((first, _)) => Err(first),
    }
}

// A copy of the option that holds at the end of a range, where the range lies within one step: then
// the option stays, and holds again from the end on. None where it is moved or isn't needed.
fn copy_before<K, V: MapValue>(
    steps: &Chunks<Step<K, V>, ()>,
    places: Places,
) -> Result<Option<V>, AllocError>
    requires from { IsPlaceAt steps.now places.from }
    requires to { IsPlaceAt steps.now places.to }
    requires ordered { place_at steps.now places.from ≤ place_at steps.now places.to }
    ensures copied { IfOk result (λ copied. place_at steps.now places.from ≡ place_at steps.now places.to →
        places.ends ≡ true → AreAlike V.eq copied
        (get_or (None ∷ (steps_in steps.now).options) (place_at steps.now places.to) None)) }
    ensures succeeds { place_at steps.now places.from < place_at steps.now places.to → IsOk result }
    ensures unneeded { places.ends ≡ false → IsOk result }
{
    if !places.ends || steps.is_before(places.from, places.to) {
        return Ok(None);
    }
    copy_option(option_before(steps, places.to))
}
