//! An operation on boundaries that lie in chunks and those of a view. Where those of the view can touch
//! the others, the result is made aside as a list of clones.
ghost use Rattle.std.specs.Prelude.{◌≡◌, ◌≤◌, ◌-◌, ◌^◌, ◌<◌, true, false, List, map, take, drop, OnOk, OnErr, IfOk};
ghost use Rattle.range_merge.specs.Boundaries.{IsAscending};
ghost use Rattle.range_merge.specs.Changes.{changes};
ghost use Rattle.range_merge.specs.Copies.{AreCopies, IsAppended, items_if};
ghost use Rattle.range_collections.specs.Headline.{EveryElement, IsItselfOr, IsTheResult};
ghost use Rattle.range_list.specs.Lists.{joined, place_at, IsPlaceAt};

use crate::window::window;
use range_collections::{Comparisons, EntryClone};
use range_list::{Chunks, Items, Place};
use range_merge::laws::{changes_are_marked_truly, changes_mean_the_connective};
use range_merge::{Compare, MergeOperation, MergeState, MergeStateMut, SliceIterator, merge};
use std::alloc::{AllocError, Global};
use std::marker::Model;

/// Changes the boundaries to the operation's result. Those outside the window that the other ones can
/// touch stay, or all go; in the window it puts clones, of two equal boundaries of the one that lies in
/// the list. If memory runs out or a clone fails, the list is as it was.
pub fn merge_into<T: EntryClone + Drop, O: MergeOperation>(
    list: &mut Chunks<T, bool>,
    that: &[T],
    op: &O,
) -> Result<(), AllocError>
    requires off { O.connective op.now false false ≡ false }
    requires own_ascending { IsAscending T.cmp (joined list.old) }
    requires that_ascending { IsAscending T.cmp that.now }
    ensures result { OnOk result (IsTheResult T.cmp EveryElement (O.connective op.now)
        (joined list.old) that.now (IsItselfOr T.is_copy) T.is_copy (joined list.new)) }
    ensures unchanged { OnErr result (joined list.new ≡ joined list.old) }
{
    if !op.takes_a(false) {
        let taken = merged_apart(list, that, op)?;
        *list = taken;
        return Ok(());
    }
    let (from, to) = window(list, that);
    let made = merged_between(list, from, to, that, op)?;
    list.replace_between(from, to, made)
}

/// Clones of the result of an operation that takes nothing of the list where the other one has no
/// members. It clones no more than the window that the other boundaries can touch.
pub fn merged_apart<T: EntryClone + Drop, O: MergeOperation>(
    list: &Chunks<T, bool>,
    that: &[T],
    op: &O,
) -> Result<Chunks<T, bool>, AllocError>
    requires off { O.connective op.now false false ≡ false }
    requires apart { O.connective op.now true false ≡ false }
    requires own_ascending { IsAscending T.cmp (joined list.now) }
    requires that_ascending { IsAscending T.cmp that.now }
    ensures { IfOk result (λ made. IsTheResult T.cmp EveryElement (O.connective op.now)
        (joined list.now) that.now (IsItselfOr T.is_copy) T.is_copy (joined made)) }
{
    let (from, to) = window(list, that);
    Chunks::from_list(merged_between(list, from, to, that, op)?)
}

// Clones of the operation's result on the boundaries between two places and the other ones.
fn merged_between<T: EntryClone + Drop, O: MergeOperation>(
    list: &Chunks<T, bool>,
    from: Place,
    to: Place,
    that: &[T],
    op: &O,
) -> Result<Vec<T>, AllocError>
    requires from { IsPlaceAt list.now from }
    requires to { IsPlaceAt list.now to }
    requires ordered { place_at list.now from ≤ place_at list.now to }
    requires off { O.connective op.now false false ≡ false }
    requires own_ascending { IsAscending T.cmp (joined list.now) }
    requires that_ascending { IsAscending T.cmp that.now }
    ensures { IfOk result (λ made. IsTheResult T.cmp EveryElement (O.connective op.now)
        (take (place_at list.now to - place_at list.now from) (drop (place_at list.now from) (joined list.now)))
        that.now T.is_copy T.is_copy made.items) }
{
    changes_mean_the_connective::<T, Comparisons>();
    changes_are_marked_truly::<T, Comparisons>();
    let own = references(list.allocator(), list.between(from, to))?;
    merged(
        list.allocator(),
        own.as_slice(),
        that,
        op,
        &mut Comparisons::new(),
    )
}

// A merge of some boundaries by reference and a slice of others. It appends a clone of each that is
// taken to a list.
#[derive(Drop)]
struct CloningMergeState<'a, T: EntryClone + Drop> {
    own: SliceIterator<'a, &'a T>,
    that: SliceIterator<'a, T>,
    own_on: bool,
    that_on: bool,
    clones: Vec<T>,
}

impl<'a, T: EntryClone + Drop> Model for CloningMergeState<'a, T> {
    ghost use Rattle.std.specs.Prelude.{List, map};
    ghost use Rattle.range_merge.specs.States.{Merging};

    ghost Value = { Merging T (List T) };

    ghost view = { λ s. record {
      left = map (λ x. x.now) s.own;
      right = s.that;
      left_on = s.own_on;
      right_on = s.that_on;
      taken = s.clones.items;
      fixed = 0;
    } };
}

impl<'a, T: EntryClone + Drop> MergeState for CloningMergeState<'a, T> {
    type Item = T;

    ghost left = { λ s. s.left };

    ghost right = { λ s. s.right };

    fn a_len(&self) -> usize {
        self.own.as_slice().len()
    }

    fn b_len(&self) -> usize {
        self.that.as_slice().len()
    }

    fn a_at(&self, i: usize) -> &T {
        self.own.as_slice()[i]
    }

    fn b_at(&self, i: usize) -> &T {
        &self.that.as_slice()[i]
    }
}

impl<'a, T: EntryClone + Drop> MergeStateMut for CloningMergeState<'a, T> {
    ghost use Rattle.range_merge.specs.Copies.{AreKeptThenCopies};

    ghost left_on = { λ s. s.left_on };

    ghost right_on = { λ s. s.right_on };

    ghost output = { λ s ts. AreKeptThenCopies T.is_copy 0 ts s.taken };

    ghost fixed = { λ _. 0 };

    ghost can_stop = { false };

    // Nothing is said of when it succeeds, since it asks for memory.
    ghost is_infallible = { λ _. ⊥ };

    fn advance_a(&mut self, n: usize, take: bool) -> Result<bool, AllocError> {
        self.own_on = self.own_on != (n % 2 == 1);
        let front = self.own.take_front(n);
        append_own(&mut self.clones, front, take)?;
        Ok(true)
    }

    fn advance_b(&mut self, n: usize, take: bool) -> Result<bool, AllocError> {
        self.that_on = self.that_on != (n % 2 == 1);
        let front = self.that.take_front(n);
        append_others(&mut self.clones, front, take)?;
        Ok(true)
    }

    fn advance_both(&mut self, take: bool) -> Result<bool, AllocError> {
        self.own_on = !self.own_on;
        self.that_on = !self.that_on;
        let front = self.own.take_front(1);
        self.that.drop_front(1);
        append_own(&mut self.clones, front, take)?;
        Ok(true)
    }

    fn ac(&self) -> bool {
        self.own_on
    }

    fn bc(&self) -> bool {
        self.that_on
    }
}

// Appends clones of what the references lead to, if they are taken.
fn append_own<T: EntryClone + Drop>(
    list: &mut Vec<T>,
    items: &[&T],
    take: bool,
) -> Result<(), AllocError>
    ensures { OnOk result (IsAppended T.is_copy (items_if take (map (λ x. x.now) items.now))
        list.old.items list.new.items) }
{
    if !take {
        return Ok(());
    }
    for item in items {
        list.push(item.entry_clone()?)?;
    }
    Ok(())
}

// Appends clones of the items, if they are taken.
fn append_others<T: EntryClone + Drop>(
    list: &mut Vec<T>,
    items: &[T],
    take: bool,
) -> Result<(), AllocError>
    ensures { OnOk result (IsAppended T.is_copy (items_if take items.now)
        list.old.items list.new.items) }
{
    if take {
        T::append_clones(list, items)?;
    }
    Ok(())
}

// Clones of the items at which the connective of `op` changes between two strictly sorted lists. Of
// two equal items it is the left one that is cloned.
fn merged<T: EntryClone + Drop, O: MergeOperation, C: Compare<T>>(
    alloc: Global,
    own: &[&T],
    that: &[T],
    op: &O,
    cmp: &mut C,
) -> Result<Vec<T>, AllocError>
    requires own_ascending { IsAscending C.order (map (λ x. x.now) own.now) }
    requires that_ascending { IsAscending C.order that.now }
    requires made { C.count cmp.old < 2 ^ 64 }
    ensures { IfOk result (λ list. AreCopies T.is_copy (changes C.order (O.connective op.now)
        (map (λ x. x.now) own.now) that.now) list.items) }
{
    let mut state = CloningMergeState {
        own: SliceIterator::new(own),
        that: SliceIterator::new(that),
        own_on: false,
        that_on: false,
        clones: Vec::new(alloc),
    };
    let _went_through = merge(&mut state, op, cmp)?;
    let CloningMergeState { clones, .. } = state;
    Ok(clones)
}

// References to the items, in order.
fn references<'a, T>(alloc: Global, items: Items<'a, T, bool>) -> Result<Vec<&'a T>, AllocError>
    ensures { IfOk result (λ references. map (λ x. x.now) references.items ≡ items.entry) }
{
    let mut references = Vec::new(alloc);
    let mut unread = items;
    while let Some(boundary) = unread.take_first() {
        references.push(boundary)?;
    }
    Ok(references)
}
