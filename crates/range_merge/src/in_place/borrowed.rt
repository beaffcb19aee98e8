//! A merge into its own left list, which takes copies of the items of a right list that it borrows.
ghost use Rattle.std.specs.Prelude.{◌≡◌, ◌+◌, ◌*◌, ◌^◌, ◌<◌, ◌≤◌, false, [], length, All, IsOk, IfOk, IfErr, Ok, OnOk, OnErr};
ghost use Rattle.std.specs.List.{AllZip};
ghost use Rattle.range_merge.specs.Boundaries.{IsAscending};
ghost use Rattle.range_merge.specs.Changes.{changes};
ghost use Rattle.range_merge.specs.Copies.{AreOwnOrCopies};
ghost use Rattle.range_merge.specs.Counting.{AddsAtMost};
ghost use Rattle.range_merge.specs.Runs.{weight};

use crate::compare::{Compare, Copier};
use crate::fast::in_place_plain::merged_plainly;
use crate::in_place::InPlaceState;
use crate::in_place::list::{Exchanges, Slots};
use crate::in_place::memory::{prepared, prepared_copies};
use crate::in_place::owned::OwnedRight;
use crate::in_place::right::Supply;
use crate::indexed::Indexed;
use crate::operations::MergeOperation;
use crate::slice_iterator::SliceIterator;
use smallvec::SmallVec;
use std::alloc::{AllocError, Global};
use std::default::MadeWith;
use std::marker::{Model, PhantomData};
use std::mem;

/// A state that keeps items of its left list and puts copies of items of its right list between
/// them. The copies are made with the state, so once made, it takes no memory and never fails.
pub type InPlaceMergeStateRef<'a, K, P, const N: usize> = InPlaceState<
    K,
    N,
    CopiedRight<'a, K, P, SmallVec<K, N>>,
    SmallVec<K, N>,
>;

impl<'a, K: MadeWith<Global> + Drop, P: Copier<K>, const N: usize> InPlaceMergeStateRef<
    'a,
    K,
    P,
    N,
> {
    /// All items of both lists unread, both sides off, and nothing kept.
    ///
    /// It asks for room in `a` for the items of `b`, and for a copy of each item of `b`, even of
    /// those that will be dropped. If that fails, `a` comes back.
    pub fn new(
        mut a: SmallVec<K, N>,
        b: &'a [K],
        copier: &P,
    ) -> Result<Self, (AllocError, SmallVec<K, N>)>
        ensures left { IfOk result (λ state. state.left ≡ a.items) }
        ensures right { IfOk result (λ state. state.right ≡ b.now) }
        ensures left_on { IfOk result (λ state. state.left_on ≡ false) }
        ensures right_on { IfOk result (λ state. state.right_on ≡ false) }
        ensures kept { IfOk result (λ state. state.kept ≡ []) }
        ensures room { IfOk result (λ state. a.capacity ≤ state.room) }
        ensures handed_back { IfErr result (λ refused. refused.1.items ≡ a.items) }
        ensures succeeds { length a.items + length b.now ≤ N → All P.is_infallible b.now → IsOk result }
    {
        match prepared_copies(&mut a, b, copier) {
            Ok(copies) => {
                let right = CopiedRight::over(b, copies);
                Ok(Self::over(a, right, b.len()))
            }
            Err(error) => Err((error, a)),
        }
    }

    /// Leaves in `a` the items at which the connective of `op` changes between two strictly sorted
    /// lists: its own, and copies of those of `b`. Of two equal items it is the one of `a` that
    /// stays.
    ///
    /// It asks for room in `a` for the items of `b`, and, unless copies never fail, for a copy of
    /// each item of `b`, before it changes anything. Of plain data it asks first for copies of the
    /// items of `a`, or for a new list if `a` has no room for both, but it can do without. It
    /// succeeds if both lengths together are at most `N` and no copy fails. If it fails, the items
    /// of `a` are as they were. It makes at most twice the weight of the two lists in comparisons.
    pub fn merge<O: MergeOperation, C: Compare<K>>(
        a: &mut SmallVec<K, N>,
        b: &'a [K],
        copier: &P,
        op: &O,
        cmp: &mut C,
    ) -> Result<(), AllocError>
        requires left_ascending { IsAscending C.order a.old.items }
        requires right_ascending { IsAscending C.order b.now }
        requires made { C.count cmp.old < 2 ^ 64 }
        ensures taken { OnOk result (AreOwnOrCopies P.alike (changes C.order (O.connective op.now) a.old.items b.now) a.new.items) }
        ensures unchanged { OnErr result (a.new.items ≡ a.old.items) }
        ensures room { a.old.capacity ≤ a.new.capacity }
        ensures succeeds { length a.old.items + length b.now ≤ N → All P.is_infallible b.now → IsOk result }
        ensures comparisons { AddsAtMost (C.count cmp.old) (C.count cmp.new) (2 * weight C.order a.old.items b.now) }
    {
        let alloc = *a.allocator();
        if merged_plainly(a, b, copier, op, cmp)? {
            return Ok(());
        }
        if copier.all_infallible() {
            prepared(a, b.len())?;
            let right = BorrowedRight::over(b, copier);
            let state = InPlaceState::<K, N, _, _>::over(&mut *a, right, b.len());
            let kept = mem::replace(state.merged(op, cmp), SmallVec::new(alloc));
            *a = kept;
            return Ok(());
        }
        let mut copies = prepared_copies(a, b, copier)?;
        let items = copies.as_mut_slice();
        let right = CopiedRight::<'a, K, P, Slots<K>>::over(b, Slots { items });
        let state = InPlaceState::<K, N, _, _>::over(&mut *a, right, b.len());
        let kept = mem::replace(state.merged(op, cmp), SmallVec::new(alloc));
        *a = kept;
        Ok(())
    }
}

/// A right slice that is borrowed: its unread items, and a copy of each.
#[derive(Drop)]
pub struct CopiedRight<'a, K, P: Copier<K>, L: Exchanges<K>> {
    b: SliceIterator<'a, K>,
    copies: OwnedRight<K, L>,
    by: PhantomData<P>,
}

impl<'a, K, P: Copier<K>, L: Exchanges<K>> Model for CopiedRight<'a, K, P, L> {
    ghost use Rattle.std.specs.Prelude.{List};
    ghost use Rattle.std.specs.List.{AllZip};

    ghost Value = { List K };

    ghost view = { λ s. s.b };

    ghost invariant = { λ s. AllZip P.alike s.b s.copies };
}

impl<'a, K, P: Copier<K>, L: Exchanges<K>> CopiedRight<'a, K, P, L> {
    // All items of the slice unread, with their copies.
    fn over(b: &'a [K], copies: L) -> Self
        requires { AllZip P.alike b.now (L.items copies) }
        ensures { result ≡ b.now }
    {
        CopiedRight {
            b: SliceIterator::new(b),
            copies: OwnedRight::over(copies),
            by: PhantomData,
        }
    }
}

impl<'a, K, P: Copier<K>, L: Exchanges<K>> Indexed<K> for CopiedRight<'a, K, P, L> {
    ghost items = { λ s. s };

    #[inline(always)]
    fn len(&self) -> usize {
        self.b.as_slice().len()
    }

    #[inline(always)]
    fn at(&self, i: usize) -> &K {
        &self.b.as_slice()[i]
    }
}

impl<'a, K, P: Copier<K>, L: Exchanges<K>> Supply<K> for CopiedRight<'a, K, P, L> {
    ghost may_be = { AreOwnOrCopies P.alike };

    #[inline(always)]
    fn put_front(&mut self, slots: &mut [K]) {
        self.b.drop_front(slots.len());
        self.copies.put_front(slots);
    }

    #[inline(always)]
    fn drop_front(&mut self, n: usize) {
        self.b.drop_front(n);
        self.copies.drop_front(n);
    }

    #[inline(always)]
    fn left_items_stay() {}
}

/// A right slice that is borrowed, each item of which is copied as it is taken: no copy fails.
#[derive(Drop)]
pub struct BorrowedRight<'a, 'p, K, P: Copier<K>> {
    b: SliceIterator<'a, K>,
    copier: &'p P,
}

impl<'a, 'p, K, P: Copier<K>> Model for BorrowedRight<'a, 'p, K, P> {
    ghost use Rattle.std.specs.Prelude.{List};

    ghost Value = { List K };

    ghost view = { λ s. s.b };

    ghost invariant = { λ _. (x : K) → P.is_infallible x };
}

impl<'a, 'p, K, P: Copier<K>> BorrowedRight<'a, 'p, K, P> {
    // All items of the slice unread.
    fn over(b: &'a [K], copier: &'p P) -> Self
        requires { (x : K) → P.is_infallible x }
        ensures { result ≡ b.now }
    {
        BorrowedRight {
            b: SliceIterator::new(b),
            copier,
        }
    }
}

impl<'a, 'p, K, P: Copier<K>> Indexed<K> for BorrowedRight<'a, 'p, K, P> {
    ghost items = { λ s. s };

    #[inline(always)]
    fn len(&self) -> usize {
        self.b.as_slice().len()
    }

    #[inline(always)]
    fn at(&self, i: usize) -> &K {
        &self.b.as_slice()[i]
    }
}

impl<'a, 'p, K: Drop, P: Copier<K>> Supply<K> for BorrowedRight<'a, 'p, K, P> {
    ghost may_be = { AreOwnOrCopies P.alike };

    #[inline(always)]
    fn put_front(&mut self, slots: &mut [K]) {
        copy_each(slots, self.b.take_front(slots.len()), self.copier);
    }

    #[inline(always)]
    fn drop_front(&mut self, n: usize) {
        self.b.drop_front(n);
    }

    #[inline(always)]
    fn left_items_stay() {}
}

// Puts a copy of each item into the slot at its place.
#[inline(always)]
fn copy_each<K: Drop, P: Copier<K>>(slots: &mut [K], items: &[K], copier: &P)
    requires infallible { (x : K) → P.is_infallible x }
    requires as_many { length slots.old ≡ length items.now }
    ensures { AllZip P.alike items.now slots.new }
{
    for i in 0..slots.len() {
        match copier.copy(&items[i]) {
            Ok(copied) => slots[i] = copied,
            Err(_) => unreachable!(),
        }
    }
}
