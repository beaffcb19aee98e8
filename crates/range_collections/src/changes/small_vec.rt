//! Boundaries in a `SmallVec`, which are changed in place: a position is its index.
ghost use Rattle.std.specs.Prelude.{◌≡◌, ◌+◌, ◌≤◌, ◌⊎◌, ◌∷◌, ◌++◌, [], length, take, drop, IsOk, OnOk, OnErr, MatchOption};
ghost use Rattle.std.specs.Option.{option_to_list};
ghost use Rattle.range_merge.specs.Boundaries.{is_odd as odd};
ghost use Rattle.range_merge.specs.Runs.{digits};
ghost use Rattle.range_collections.specs.Splicing.{spliced};

use crate::changes::{Splice, cut_around};
use crate::comparisons::Comparisons;
use crate::lists::{append_both, is_odd};
use range_merge::move_last_two;
use smallvec::SmallVec;
use std::alloc::{AllocError, Global};
use std::default::MadeWith;
use std::mem;

impl<T: Ord + MadeWith<Global> + Drop, const N: usize> Splice<T> for SmallVec<T, N> {
    type Position = usize;

    ghost items = { λ list. list.items };

    ghost is_position = { λ list at. at ≤ length list.items };

    ghost index = { λ _ at. at };

    ghost cost = { λ list. digits (length list.items) };

    ghost room = { N };

    #[inline(always)]
    fn cuts(
        &self,
        start: T,
        end: T,
        inside: bool,
        count: &mut Comparisons,
    ) -> ((usize, Option<T>), (usize, Option<T>)) {
        cut_around(self.as_slice(), start, end, inside, count)
    }

    #[inline]
    fn splice(
        &mut self,
        from: usize,
        to: usize,
        start: Option<T>,
        end: Option<T>,
    ) -> Result<(), AllocError>
        requires from { from ≤ length self.old.items }
        requires to { to ≤ length self.old.items }
        requires ordered { from ≤ to }
        requires parity { odd (from + length (option_to_list start)) ≡
            odd (to + length (option_to_list end)) }
        ensures items { OnOk result (self.new.items ≡ spliced self.old.items from to start end) }
        ensures unchanged { OnErr result (self.new.items ≡ self.old.items) }
        ensures succeeds { (length (spliced self.old.items from to start end) ≤ length self.old.items)
            ⊎ (length (spliced self.old.items from to start end) ≤ N) → IsOk result }
    {
        if from < to {
            replace_between(self, from, to, start, end);
            return Ok(());
        }
        match (start, end) {
            (Some(start), Some(end)) => insert_both(self, from, start, end),
            _ => Ok(()),
        }
    }

    #[inline(always)]
    fn is_endless(&self) -> bool {
        is_odd(self.len())
    }

    #[inline(always)]
    fn take_first_two(&mut self) -> Option<(T, Option<T>)> {
        let start = take_first(self)?;
        let end = take_first(self);
        Some((start, end))
    }

    #[inline(always)]
    fn take_last(&mut self) -> Option<T> {
        self.pop()
    }
}

// Replaces the items between `from` and `to` by at most as many. In Rust a drop may panic, so those
// that give way to the start and the end are dropped once the list is whole.
fn replace_between<T: MadeWith<Global> + Drop, const N: usize>(
    list: &mut SmallVec<T, N>,
    from: usize,
    to: usize,
    start: Option<T>,
    end: Option<T>,
)
    requires room { from + length (option_to_list start) + length (option_to_list end) ≤ to }
    requires within { to ≤ length list.old.items }
    ensures items { list.new.items ≡ spliced list.old.items from to start end }
{
    let (after, _replaced) = replace_both(list.as_mut_slice(), from, start, end);
    list.drain(after..to);
}

// Replaces as many items from index `from` on by the start and the end, where they are given.
// Returns the index after them, and what they replaced.
#[inline(always)]
fn replace_both<T: Drop>(
    items: &mut [T],
    from: usize,
    start: Option<T>,
    end: Option<T>,
) -> (usize, (Option<T>, Option<T>))
    requires { from + length (option_to_list start) + length (option_to_list end) ≤
        length items.old }
    ensures items { items.new ≡ spliced items.old from result.0 start end }
    ensures after { result.0 ≡
        from + length (option_to_list start) + length (option_to_list end) }
{
    let (next, first) = replace(items, from, start);
    let (after, second) = replace(items, next, end);
    (after, (first, second))
}

// Replaces the item at index `at` by this one, if there is one. Returns the index after it, and
// what it replaced.
#[inline(always)]
fn replace<T: Drop>(items: &mut [T], at: usize, item: Option<T>) -> (usize, Option<T>)
    requires { at + length (option_to_list item) ≤ length items.old }
    ensures items { items.new ≡
        take at items.old ++ (option_to_list item ++ drop result.0 items.old) }
    ensures after { result.0 ≡ at + length (option_to_list item) }
{
    match item {
        Some(item) => (at + 1, Some(mem::replace(&mut items[at], item))),
        None => (at, None),
    }
}

// Inserts two items, and moves the later ones up once.
fn insert_both<T: MadeWith<Global> + Drop, const N: usize>(
    list: &mut SmallVec<T, N>,
    at: usize,
    start: T,
    end: T,
) -> Result<(), AllocError>
    requires within { at ≤ length list.old.items }
    ensures items { OnOk result
        (list.new.items ≡ take at list.old.items ++ (start ∷ end ∷ drop at list.old.items)) }
    ensures unchanged { OnErr result (list.new.items ≡ list.old.items) }
    ensures succeeds { length list.old.items + 2 ≤ N → IsOk result }
{
    append_both(list, start, end)?;
    move_last_two(list.as_mut_slice(), at);
    Ok(())
}

// Takes the first boundary out.
fn take_first<T: MadeWith<Global> + Drop, const N: usize>(list: &mut SmallVec<T, N>) -> Option<T>
    ensures { MatchOption result ((list.old.items ≡ []) × (list.new.items ≡ []))
        (λ item. list.old.items ≡ item ∷ list.new.items) }
{
    if list.is_empty() {
        return None;
    }
    Some(list.remove(0))
}
