//! What an operation makes of a map and another one, where the other one has keys: steps that are
//! made aside, in a list, before they take the place of others.
ghost use Rattle.std.specs.Prelude.{◌≡◌, ◌<◌, ◌≤◌, ◌+◌, ◌^◌, ◌++◌, true, None, length, IfOk, IfSome, IsOk, OnOk, OnErr, Option, List, HoldsAt, option_copied};
ghost use Rattle.std.specs.List.{AllWithin};
ghost use Rattle.std.specs.declared.cmp.Ordering.TheVariants.{Less, Equal};
ghost use Rattle.range_merge.specs.Boundaries.{IsAscending};
ghost use Rattle.range_list.specs.Lists.{joined, place_at, IsPlaceAt};
ghost use Rattle.range_map.specs.Changed.{IsCombined};
ghost use Rattle.range_map.specs.Combining.{IsBelowFrom, IsMadeUpTo, option_before};
ghost use Rattle.range_map.specs.Listed.{steps_of, steps_in};
ghost use Rattle.range_map.specs.Places.{IsNext};
ghost use Rattle.range_map.specs.Steps.{IsCanonical};
ghost use Rattle.range_map.specs.declared.step.Step.{Step};

use crate::borrowed_steps::BorrowedSteps;
use crate::operation::MapOperation;
use crate::places::{key_at, option_before, place_below};
use crate::putting::put;
use crate::step::Step;
use range_collections::{Comparisons, Copier};
use range_list::{Chunks, FRONT, Place};
use std::alloc::AllocError;
use std::cmp::Ordering;

/// Gives each element what the operation makes of its options in both maps. Where the right has
/// none, the operation gives the left's. It changes nothing before all is made.
pub fn combine_in_place<
    K: Ord + Drop,
    V: Eq + Drop,
    W,
    O: MapOperation<V, W, Output = V>,
    C: Copier<K>,
>(
    steps: &mut Chunks<Step<K, V>, ()>,
    that: &BorrowedSteps<K, W>,
    op: &O,
    copier: &C,
) -> Result<(), AllocError>
    requires canonical { IsCanonical K.cmp V.eq (steps_in steps.old) }
    requires ascending { IsAscending K.cmp that.now.keys }
    requires keeps { (p : Option V) → O.gives op.now p None ≡ p }
    requires copies { (x y : K) → C.alike x y → K.cmp x y ≡ Equal }
    ensures canonical { IsCanonical K.cmp V.eq (steps_in steps.new) }
    ensures values { OnOk result (IsCombined K.cmp V.eq (O.gives op.now) (steps_in steps.old) that.now (steps_in steps.new)) }
    ensures unchanged { OnErr result (steps_in steps.new ≡ steps_in steps.old) }
    ensures none { length that.now.keys ≡ 0 → (steps_in steps.new ≡ steps_in steps.old) × IsOk result }
{
    if that.len() == 0 {
        return Ok(());
    }
    let from = place_below(steps, that.key(0), &mut Comparisons::new());
    let mut list = Vec::new(steps.allocator());
    let before = option_before(steps, from);
    let to = put_from(steps, from, before, &mut list, that, op, copier, false)?;
    steps.replace_between(from, to, list)
}

/// The steps of what the operation makes of both maps. Where the right has none, it gives none.
pub fn steps_within<
    'a,
    K: Ord + Drop,
    V: Eq + Drop,
    W,
    O: MapOperation<V, W, Output = V>,
    C: Copier<K>,
>(
    steps: &'a Chunks<Step<K, V>, ()>,
    that: &BorrowedSteps<'a, K, W>,
    op: &O,
    copier: &C,
) -> Result<Vec<Step<K, V>>, AllocError>
    requires ascending { IsAscending K.cmp (steps_in steps.now).keys }
    requires one_each { length (steps_in steps.now).options ≡ length (steps_in steps.now).keys }
    requires that_ascends { IsAscending K.cmp that.now.keys }
    requires drops { (p : Option V) → O.gives op.now p None ≡ None }
    requires copies { (x y : K) → C.alike x y → K.cmp x y ≡ Equal }
    ensures canonical { IfOk result (λ list. IsCanonical K.cmp V.eq (steps_of list.items)) }
    ensures values { IfOk result (λ list.
        IsCombined K.cmp V.eq (O.gives op.now) (steps_in steps.now) that.now (steps_of list.items)) }
{
    let mut list = Vec::new(steps.allocator());
    if that.len() == 0 {
        return Ok(list);
    }
    let from = place_below(steps, that.key(0), &mut Comparisons::new());
    put_from(steps, from, None, &mut list, that, op, copier, true)?;
    Ok(list)
}

// Puts what the operation makes from a place on, up to the last key of the right side, or up to the
// end if that has an option. Returns the place behind it. Keys where the right has no option may be
// skipped if the operation gives none there.
fn put_from<'a, K: Ord + Drop, V: Eq + Drop, W, O: MapOperation<V, W, Output = V>, C: Copier<K>>(
    steps: &'a Chunks<Step<K, V>, ()>,
    from: Place,
    before: Option<&'a V>,
    list: &mut Vec<Step<K, V>>,
    that: &BorrowedSteps<'a, K, W>,
    op: &O,
    copier: &C,
    skips: bool,
) -> Result<Place, AllocError>
    requires skips { skips ≡ true → (p : Option V) → O.gives op.now p None ≡ None }
    requires from { IsPlaceAt steps.now from }
    requires ascending { IsAscending K.cmp (steps_in steps.now).keys }
    requires that_ascends { IsAscending K.cmp that.now.keys }
    requires below { AllWithin (IsBelowFrom K.cmp that.now.keys 0) (steps_in steps.now).keys 0 (place_at steps.now from) }
    requires copies { (x y : K) → C.alike x y → K.cmp x y ≡ Equal }
    ensures place { IfOk result (IsPlaceAt steps.now) }
    ensures ordered { IfOk result (λ to. place_at steps.now from ≤ place_at steps.now to) }
    ensures off { IfOk result (λ to. place_at steps.now to < length (joined steps.now) →
        option_before that.now (length that.now.keys) ≡ None) }
    ensures made { IfOk result (λ to. (front : List (Step K V)) →
        option_copied before.entry ≡ option_before (steps_of front) (length front) →
        IsMadeUpTo K.cmp V.eq (O.gives op.now) (steps_in steps.now) that.now
        (place_at steps.now from) 0 (steps_of (front ++ list.old.items)) →
        IsMadeUpTo K.cmp V.eq (O.gives op.now) (steps_in steps.now) that.now
        (place_at steps.now to) (length that.now.keys) (steps_of (front ++ list.new.items))) }
{
    let few = that.len() < steps.len() / 16;
    let mut at = from;
    let mut below = from;
    let mut index = 0;
    while let Some(next) = next_of(steps, at, below, that, index, few) {
        at = put_next(
            steps, at, before, list, that, index, &next, op, copier, skips,
        )?;
        below = next.below;
        index = next.index;
    }
    Ok(at)
}

// Puts what the operation makes of the next key, or skips the left's keys up to the right's next one.
// Returns the place behind what is read.
#[inline(always)]
fn put_next<'a, K: Ord + Drop, V: Eq + Drop, W, O: MapOperation<V, W, Output = V>, C: Copier<K>>(
    steps: &'a Chunks<Step<K, V>, ()>,
    at: Place,
    before: Option<&'a V>,
    list: &mut Vec<Step<K, V>>,
    that: &BorrowedSteps<'a, K, W>,
    index: usize,
    next: &Next<'a, K>,
    op: &O,
    copier: &C,
    skips: bool,
) -> Result<Place, AllocError>
    requires skips { skips ≡ true → (p : Option V) → O.gives op.now p None ≡ None }
    requires place { IsPlaceAt steps.now at }
    requires within { index ≤ length that.now.keys }
    requires ascending { IsAscending K.cmp (steps_in steps.now).keys }
    requires that_ascends { IsAscending K.cmp that.now.keys }
    requires next { IsNext K.cmp steps.now that.now.keys (place_at steps.now at) index next.now }
    requires right_below { AllWithin (IsBelowFrom K.cmp (steps_in steps.now).keys (place_at steps.now at)) that.now.keys 0 index }
    requires copies { (x y : K) → C.alike x y → K.cmp x y ≡ Equal }
    ensures place { IfOk result (IsPlaceAt steps.now) }
    ensures onward { IfOk result (λ to. place_at steps.now next.now.at ≤ place_at steps.now to) }
    ensures ordered { IfOk result (λ to. place_at steps.now to ≤ place_at steps.now next.now.below) }
    ensures right_below { IfOk result (λ to.
        AllWithin (IsBelowFrom K.cmp (steps_in steps.now).keys (place_at steps.now to)) that.now.keys 0 next.now.index) }
    ensures made { IfOk result (λ to. (front : List (Step K V)) →
        option_copied before.entry ≡ option_before (steps_of front) (length front) →
        IsMadeUpTo K.cmp V.eq (O.gives op.now) (steps_in steps.now) that.now
        (place_at steps.now at) index (steps_of (front ++ list.old.items)) →
        IsMadeUpTo K.cmp V.eq (O.gives op.now) (steps_in steps.now) that.now
        (place_at steps.now to) next.now.index (steps_of (front ++ list.new.items))) }
{
    if skips && is_off(that, index, next.index) {
        return Ok(next.below);
    }
    let option = op.apply(
        option_before(steps, next.at),
        that.option_before(next.index),
    )?;
    put(before, list, next.key, option, copier)?;
    Ok(next.at)
}

// Whether the right side has no option before a key of the left, of which it has none.
#[inline(always)]
fn is_off<K, W>(that: &BorrowedSteps<K, W>, index: usize, behind: usize) -> bool
    requires { index ≤ length that.now.keys }
    ensures { result ≡ true → (behind ≡ index) × (option_before that.now index ≡ None) }
{
    behind == index && that.option_before(index).is_none()
}

/// The lowest of the keys of both sides that are unread, and the places behind it. The left's keys
/// before `below` are known to be below the right's.
#[derive(Drop)]
pub struct Next<'a, K> {
    pub key: &'a K,
    pub at: Place,
    pub below: Place,
    pub index: usize,
}

// The lowest of the keys from a place and from an index on. Behind the last key of the right side,
// those of the left count only if the right has an option there.
#[inline(always)]
fn next_of<'a, K: Ord, V, W>(
    steps: &'a Chunks<Step<K, V>, ()>,
    at: Place,
    below: Place,
    that: &BorrowedSteps<'a, K, W>,
    index: usize,
    few: bool,
) -> Option<Next<'a, K>>
    requires place { IsPlaceAt steps.now at }
    requires below_place { IsPlaceAt steps.now below }
    requires ordered { place_at steps.now at ≤ place_at steps.now below }
    requires within { index ≤ length that.now.keys }
    requires ascending { IsAscending K.cmp (steps_in steps.now).keys }
    requires that_ascends { IsAscending K.cmp that.now.keys }
    requires left_below { AllWithin (IsBelowFrom K.cmp that.now.keys index) (steps_in steps.now).keys 0 (place_at steps.now below) }
    requires right_below { AllWithin (IsBelowFrom K.cmp (steps_in steps.now).keys (place_at steps.now at)) that.now.keys 0 index }
    ensures next { IfSome result (IsNext K.cmp steps.now that.now.keys (place_at steps.now at) index) }
    ensures all { result ≡ None → index ≡ length that.now.keys }
    ensures off { result ≡ None → place_at steps.now at < length (joined steps.now) →
        option_before that.now index ≡ None }
{
    if steps.is_before(at, below) {
        return next_left(steps, at, below, index);
    }
    if index < that.len() {
        return Some(lower(steps, at, that, index, few));
    }
    that.option_before(index)?;
    next_left(steps, at, steps.end(), index)
}

// The left's key at a place, if there is one, as the next.
#[inline(always)]
fn next_left<'a, K, V>(
    steps: &'a Chunks<Step<K, V>, ()>,
    at: Place,
    below: Place,
    index: usize,
) -> Option<Next<'a, K>>
    requires { IsPlaceAt steps.now at }
    ensures key { IfSome result (λ n. HoldsAt (λ k. n.key.now ≡ k) (steps_in steps.now).keys (place_at steps.now at)) }
    ensures place { IfSome result (λ n. IsPlaceAt steps.now n.at) }
    ensures after { IfSome result (λ n. place_at steps.now n.at ≡ place_at steps.now at + 1) }
    ensures same { IfSome result (λ n. (n.below ≡ below) × (n.index ≡ index)) }
    ensures within { IfSome result (λ n. place_at steps.now at < length (joined steps.now)) }
    ensures end { result ≡ None → length (joined steps.now) ≤ place_at steps.now at }
{
    let key = key_at(steps, at)?;
    Some(Next {
        key,
        at: steps.place_after(at),
        below,
        index,
    })
}

// The lower one of the key at a place, if there is one, and of the right's key at an index. If the
// right has few keys, what else is below its key is searched for.
#[inline(always)]
fn lower<'a, K: Ord, V, W>(
    steps: &'a Chunks<Step<K, V>, ()>,
    at: Place,
    that: &BorrowedSteps<'a, K, W>,
    index: usize,
    few: bool,
) -> Next<'a, K>
    requires place { IsPlaceAt steps.now at }
    requires within { index < length that.now.keys }
    requires that_fits { length that.now.keys < 2 ^ 64 }
    requires ascending { IsAscending K.cmp (steps_in steps.now).keys }
    requires that_ascends { IsAscending K.cmp that.now.keys }
    requires left_below { AllWithin (IsBelowFrom K.cmp that.now.keys index) (steps_in steps.now).keys 0 (place_at steps.now at) }
    requires right_below { AllWithin (IsBelowFrom K.cmp (steps_in steps.now).keys (place_at steps.now at)) that.now.keys 0 index }
    ensures { IsNext K.cmp steps.now that.now.keys (place_at steps.now at) index result }
{
    let key = that.key(index);
    let Some(own) = key_at(steps, at) else {
        return Next {
            key,
            at,
            below: at,
            index: index + 1,
        };
    };
    match own.cmp(key) {
        Ordering::Less => {
            let behind = steps.place_after(at);
            Next {
                key: own,
                at: behind,
                below: known_below(steps, behind, key, few),
                index,
            }
        }
        Ordering::Equal => {
            let behind = steps.place_after(at);
            Next {
                key: own,
                at: behind,
                below: behind,
                index: index + 1,
            }
        }
        Ordering::Greater => Next {
            key,
            at,
            below: at,
            index: index + 1,
        },
    }
}

// A place from this one on before which all keys are below a key: the last such, or this one, if
// no search is asked for.
#[inline(always)]
fn known_below<K: Ord, V>(
    steps: &Chunks<Step<K, V>, ()>,
    from: Place,
    key: &K,
    searches: bool,
) -> Place
    requires place { IsPlaceAt steps.now from }
    requires ascending { IsAscending K.cmp (steps_in steps.now).keys }
    requires below { AllWithin (λ y. K.cmp y key.now ≡ Less) (steps_in steps.now).keys 0 (place_at steps.now from) }
    ensures place { IsPlaceAt steps.now result }
    ensures ordered { place_at steps.now from ≤ place_at steps.now result }
    ensures below { AllWithin (λ y. K.cmp y key.now ≡ Less) (steps_in steps.now).keys 0 (place_at steps.now result) }
{
    if searches {
        place_below(steps, key, &mut Comparisons::new())
    } else {
        from
    }
}
