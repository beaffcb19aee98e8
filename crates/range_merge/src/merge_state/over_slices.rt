//! A merge over two slices, which leaves what it takes to its output.
ghost use Rattle.std.specs.Prelude.{◌≡◌, ◌+◌, false, length, All, ℕ, Bool, not, ◌&&◌, ◌≤◌, List, ◌++◌, IsTrue, true, IsOk, OnOk, IfOk};
ghost use Rattle.range_merge.specs.Changes.{Taken, taken_items};
ghost use Rattle.range_merge.specs.Copies.{items_if};

use crate::merge_state::{MergeState, MergeStateMut};
use crate::slice_iterator::SliceIterator;
use std::alloc::AllocError;
use std::marker::Model;

/// A state that reads two slices and appends what is taken to an output.
#[derive(Drop)]
pub struct SliceMergeState<'a, K, O: Output<K, By>, By = ()> {
    pub(crate) a: SliceIterator<'a, K>,
    pub(crate) b: SliceIterator<'a, K>,
    pub(crate) ac: bool,
    pub(crate) bc: bool,
    pub(crate) output: O,
    pub(crate) by: By,
}

impl<'a, K, O: Output<K, By>, By> Model for SliceMergeState<'a, K, O, By> {
    ghost use Rattle.std.specs.Prelude.{◌+◌, length};
    ghost use Rattle.range_merge.specs.States.{Merging};

    ghost Value = { Merging K O };

    ghost view = { λ s. record {
      left = s.a;
      right = s.b;
      left_on = s.ac;
      right_on = s.bc;
      taken = s.output;
      fixed = O.fixed s.output s.by;
    } };

    ghost invariant = { λ s. O.fits s.output (length s.a + length s.b) };
}

impl<'a, K, O: Output<K, By>, By: Drop> SliceMergeState<'a, K, O, By> {
    // All items of both slices unread, and both sides off.
    pub(crate) fn over(a: &'a [K], b: &'a [K], output: O, by: By) -> Self
        requires fits { O.fits output (length a.now + length b.now) }
        ensures left { result.left ≡ a.now }
        ensures right { result.right ≡ b.now }
        ensures left_on { result.left_on ≡ false }
        ensures right_on { result.right_on ≡ false }
        ensures taken { result.taken ≡ output }
        ensures fixed { result.fixed ≡ O.fixed output by }
    {
        SliceMergeState {
            a: SliceIterator::new(a),
            b: SliceIterator::new(b),
            ac: false,
            bc: false,
            output,
            by,
        }
    }

    /// What was taken: whether anything was, how many items, or a list with copies of them at its
    /// end.
    pub fn result(self) -> O
        ensures { result ≡ self.entry.taken }
    {
        self.output
    }
}

impl<'a, K, O: Output<K, By>, By> MergeState for SliceMergeState<'a, K, O, By> {
    type Item = K;

    ghost left = { λ s. s.left };

    ghost right = { λ s. s.right };

    #[inline(always)]
    fn a_len(&self) -> usize {
        self.a.as_slice().len()
    }

    #[inline(always)]
    fn b_len(&self) -> usize {
        self.b.as_slice().len()
    }

    #[inline(always)]
    fn a_at(&self, i: usize) -> &K {
        &self.a.as_slice()[i]
    }

    #[inline(always)]
    fn b_at(&self, i: usize) -> &K {
        &self.b.as_slice()[i]
    }
}

impl<'a, K, O: Output<K, By>, By> MergeStateMut for SliceMergeState<'a, K, O, By> {
    ghost left_on = { λ s. s.left_on };

    ghost right_on = { λ s. s.right_on };

    ghost output = { λ s ts. O.may_be s.taken s.fixed ts };

    ghost fixed = { λ s. s.fixed };

    ghost can_stop = { O.can_stop };

    ghost is_infallible = { λ s. O.has_room s.taken (length s.left + length s.right) × All O.is_infallible s.left × All O.is_infallible s.right };

    #[inline(always)]
    fn advance_a(&mut self, n: usize, take: bool) -> Result<bool, AllocError> {
        self.ac = self.ac != (n % 2 == 1);
        let front = self.a.take_front(n);
        self.output.append(front, take, &self.by)
    }

    #[inline(always)]
    fn advance_b(&mut self, n: usize, take: bool) -> Result<bool, AllocError> {
        self.bc = self.bc != (n % 2 == 1);
        let front = self.b.take_front(n);
        self.output.append(front, take, &self.by)
    }

    #[inline(always)]
    fn advance_both(&mut self, take: bool) -> Result<bool, AllocError> {
        self.ac = !self.ac;
        self.bc = !self.bc;
        let front = self.a.take_front(1);
        self.b.drop_front(1);
        self.output.append(front, take, &self.by)
    }

    #[inline(always)]
    fn ac(&self) -> bool {
        self.ac
    }

    #[inline(always)]
    fn bc(&self) -> bool {
        self.bc
    }

    #[inline(always)]
    fn stops(&self) -> bool {
        self.output.stops()
    }
}

/// From this number of items on a run is copied all at once, which costs more than it saves for a
/// few.
pub(crate) const COPIED_AT_ONCE: usize = 8;

/// What the items that are taken are appended to, by a means such as a copier. From which side they
/// come makes no difference.
pub trait Output<K, By> {
    // What was taken so far may be this list, by the number that no items change.
    ghost may_be: { Self → ℕ → List (Taken K) → Type 0 };

    // A number that no items change: how many there were at first, or which slice is filled.
    ghost fixed: { Self → By → ℕ };

    // Whether items that are taken stop the merge.
    ghost can_stop: { Bool };

    // It can take that number of items more.
    ghost fits: { Self → ℕ → Type 0 };

    // It takes that number of items more without asking for memory.
    ghost has_room: { Self → ℕ → Type 0 };

    // Copying this item never fails.
    ghost is_infallible: { K → Type 0 };

    /// Appends the items, if they are taken. `false` stops the merge. It is an error if an
    /// allocation or a copy fails.
    fn append(&mut self, items: &[K], take: bool, by: &By) -> Result<bool, AllocError>
        requires some { 1 ≤ length items.now }
        requires fits { (n : ℕ) × (length items.now ≤ n) × fits self.old n }
        ensures goes_on { IfOk result (λ more. more ≡ not (can_stop && take)) }
        ensures output { OnOk result ((first : ℕ) (before ts : List (Taken K)) → taken_items ts ≡ items_if take items.now →
            may_be self.old first before → may_be self.new first (before ++ ts)) }
        ensures fixed { (means : By) → fixed self.new means ≡ fixed self.old means }
        ensures fits { (m n : ℕ) → length items.now + m ≤ n → fits self.old n → fits self.new m }
        ensures succeeds { (n : ℕ) → length items.now ≤ n → has_room self.old n → All is_infallible items.now → IsOk result }
        ensures has_room { (m n : ℕ) → length items.now + m ≤ n → has_room self.old n → OnOk result (has_room self.new m) };

    /// Whether one item that is taken is as good as many: `true` only of an output that stops the
    /// merge there.
    #[inline(always)]
    fn stops(&self) -> bool
        ensures { IsTrue result → can_stop ≡ true }
    {
        false
    }
}

impl<K, By, L: Output<K, By>> Output<K, By> for &mut L {
    ghost may_be = { λ output. L.may_be output.now };

    ghost fixed = { λ output means. L.fixed output.now means };

    ghost can_stop = { L.can_stop };

    ghost fits = { λ output. L.fits output.now };

    ghost has_room = { λ output. L.has_room output.now };

    ghost is_infallible = { L.is_infallible };

    #[inline(always)]
    fn append(&mut self, items: &[K], take: bool, by: &By) -> Result<bool, AllocError> {
        (**self).append(items, take, by)
    }

    #[inline(always)]
    fn stops(&self) -> bool {
        (**self).stops()
    }
}
