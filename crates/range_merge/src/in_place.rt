//! A merge into its own left list, which leaves what it reads on the right to that side.
ghost use Rattle.std.specs.Prelude.{◌≡◌, ◌+◌, ◌*◌, ◌^◌, ◌<◌, ◌≤◌, false, List, [], ◌++◌, length, drop, ⊤};
ghost use Rattle.range_merge.specs.Boundaries.{IsAscending};
ghost use Rattle.range_merge.specs.Changes.{Taken, changes, taken_right};
ghost use Rattle.range_merge.specs.Counting.{AddsAtMost};
ghost use Rattle.range_merge.specs.Runs.{weight};

pub(crate) mod borrowed;
pub(crate) mod builder;
pub(crate) mod list;
pub(crate) mod memory;
pub(crate) mod owned;
pub(crate) mod right;

use crate::compare::Compare;
use crate::in_place::builder::InPlaceBuilder;
use crate::in_place::list::GrowsByHole;
use crate::in_place::right::Supply;
use crate::merge_state::{MergeState, MergeStateMut};
use crate::merging;
use crate::operations::MergeOperation;
use std::alloc::AllocError;
use std::marker::Model;

/// A state that keeps items of its left list, and puts what its right side gives between them. Once
/// made, it takes no memory and never fails. `L` is the list, by value where a caller makes the
/// state.
#[derive(Drop)]
pub struct InPlaceState<K, const N: usize, R: Supply<K>, L: GrowsByHole<K>> {
    builder: InPlaceBuilder<K, N, L>,
    right: R,
    ac: bool,
    bc: bool,
}

impl<K, const N: usize, R: Supply<K>, L: GrowsByHole<K>> Model for InPlaceState<K, N, R, L> {
    ghost use Rattle.std.specs.Prelude.{◌≤◌, length};
    ghost use Rattle.range_merge.specs.States.{MergingInPlace};

    ghost Value = { MergingInPlace K };

    ghost view = { λ s. record {
      left = s.builder.unread;
      right = R.items s.right;
      left_on = s.ac;
      right_on = s.bc;
      kept = s.builder.kept;
      room = s.builder.room;
    } };

    ghost invariant = { λ s. length (R.items s.right) ≤ s.builder.puts_left };
}

impl<K, const N: usize, R: Supply<K>, L: GrowsByHole<K>> InPlaceState<K, N, R, L> {
    // All items of both sides unread, both sides off, and nothing kept.
    pub(crate) fn over(list: L, right: R, extra: usize) -> Self
        requires room { length (L.items list) + extra ≤ L.room list }
        requires puts { length (R.items right) ≤ extra }
        ensures left { result.left ≡ L.items list }
        ensures right { result.right ≡ R.items right }
        ensures left_on { result.left_on ≡ false }
        ensures right_on { result.right_on ≡ false }
        ensures kept { result.kept ≡ [] }
        ensures room { result.room ≡ L.room list }
    {
        InPlaceState {
            builder: InPlaceBuilder::over(list, extra),
            right,
            ac: false,
            bc: false,
        }
    }

    // The list, with the items at which the connective of `op` changes. It stands here, and not
    // over the list and the right side, since a state made of those would owe the proof that it
    // fits in memory.
    #[inline(always)]
    pub(crate) fn merged<O: MergeOperation, C: Compare<K>>(mut self, op: &O, cmp: &mut C) -> L
        requires left_ascending { IsAscending C.order self.left }
        requires right_ascending { IsAscending C.order self.right }
        requires left_off { self.left_on ≡ false }
        requires right_off { self.right_on ≡ false }
        requires made { C.count cmp.old < 2 ^ 64 }
        ensures taken { R.may_be [] self.kept → R.may_be
            (changes C.order (O.connective op.now) self.left self.right) (L.items result) }
        ensures room { L.room result ≡ self.room }
        ensures comparisons { AddsAtMost (C.count cmp.old) (C.count cmp.new)
            (2 * weight C.order self.left self.right) }
    {
        // Nothing is lost: this merge never stops and never fails.
        let _ = merging::merge(&mut self, op, cmp);
        self.result()
    }

    /// The list, with the items that were taken. What is still unread is dropped.
    pub fn result(self) -> L
        ensures items { L.items result ≡ self.kept }
        ensures room { L.room result ≡ self.room }
    {
        self.builder.only_kept()
    }
}

impl<K, const N: usize, R: Supply<K>, L: GrowsByHole<K>> MergeState for InPlaceState<K, N, R, L> {
    type Item = K;

    ghost left = { λ s. s.left };

    ghost right = { λ s. s.right };

    #[inline(always)]
    fn a_len(&self) -> usize {
        self.builder.unread_len()
    }

    #[inline(always)]
    fn b_len(&self) -> usize {
        self.right.len()
    }

    #[inline(always)]
    fn a_at(&self, i: usize) -> &K {
        self.builder.unread_at(i)
    }

    #[inline(always)]
    fn b_at(&self, i: usize) -> &K {
        self.right.at(i)
    }
}

impl<K, const N: usize, R: Supply<K>, L: GrowsByHole<K>> MergeStateMut
    for InPlaceState<K, N, R, L> {
    ghost left_on = { λ s. s.left_on };

    ghost right_on = { λ s. s.right_on };

    ghost output = { λ s ts. R.may_be ts s.kept };

    ghost fixed = { λ s. s.room };

    ghost can_stop = { false };

    ghost is_infallible = { λ _. ⊤ };

    #[inline(always)]
    fn advance_a(&mut self, n: usize, take: bool) -> Result<bool, AllocError> {
        self.ac = self.ac != (n % 2 == 1);
        R::left_items_stay();
        self.builder.keep_if(n, take);
        Ok(true)
    }

    #[inline(always)]
    fn advance_b(&mut self, n: usize, take: bool) -> Result<bool, AllocError> {
        self.bc = self.bc != (n % 2 == 1);
        put_or_drop(&mut self.builder, &mut self.right, n, take);
        Ok(true)
    }

    #[inline(always)]
    fn advance_both(&mut self, take: bool) -> Result<bool, AllocError> {
        self.ac = !self.ac;
        self.bc = !self.bc;
        R::left_items_stay();
        self.builder.keep_if(1, take);
        self.right.drop_front(1);
        Ok(true)
    }

    #[inline(always)]
    fn ac(&self) -> bool {
        self.ac
    }

    #[inline(always)]
    fn bc(&self) -> bool {
        self.bc
    }
}

// Removes the first `n` unread items of the right side, and puts what stands for them if they are
// wanted.
#[inline(always)]
fn put_or_drop<K, const N: usize, R: Supply<K>, L: GrowsByHole<K>>(
    builder: &mut InPlaceBuilder<K, N, L>,
    right: &mut R,
    n: usize,
    wanted: bool,
)
    requires some { n ≤ length (R.items right.old) }
    requires puts { length (R.items right.old) ≤ builder.old.puts_left }
    ensures kept { (ts : List (Taken K)) → R.may_be ts builder.old.kept → R.may_be (ts ++ taken_right wanted n (R.items right.old)) builder.new.kept }
    ensures unread { builder.new.unread ≡ builder.old.unread }
    ensures rest { R.items right.new ≡ drop n (R.items right.old) }
    ensures puts { length (R.items right.new) ≤ builder.new.puts_left }
    ensures room { builder.new.room ≡ builder.old.room }
{
    if wanted {
        builder.put_from(n, right);
    } else {
        right.drop_front(n);
    }
}
