//! A merge into its own left list, which takes the items of a right list that it owns.
ghost use Rattle.std.specs.Prelude.{◌≡◌, ◌+◌, ◌*◌, ◌^◌, ◌<◌, ◌≤◌, false, [], length, IsOk, IfOk, IfErr, OnOk, OnErr};
ghost use Rattle.range_merge.specs.Boundaries.{IsAscending};
ghost use Rattle.range_merge.specs.Changes.{changes, taken_items};
ghost use Rattle.range_merge.specs.Counting.{AddsAtMost};
ghost use Rattle.range_merge.specs.Runs.{weight};

use crate::compare::Compare;
use crate::in_place::InPlaceState;
use crate::in_place::list::{Exchanges, Slots};
use crate::in_place::memory::prepared;
use crate::in_place::right::Supply;
use crate::indexed::Indexed;
use crate::operations::MergeOperation;
use smallvec::SmallVec;
use std::alloc::{AllocError, Global};
use std::default::MadeWith;
use std::marker::{Model, PhantomData};
use std::mem;

/// A state that keeps items of its left list and puts items of its right list between them. Once
/// made, it takes no memory and never fails.
pub type InPlaceMergeState<K, const N: usize> = InPlaceState<
    K,
    N,
    OwnedRight<K, SmallVec<K, N>>,
    SmallVec<K, N>,
>;

impl<K: MadeWith<Global> + Drop, const N: usize> InPlaceMergeState<K, N> {
    /// All items of both lists unread, both sides off, and nothing kept.
    ///
    /// It asks for room in `a` for the items of `b`. If that fails, both lists come back.
    pub fn new(
        mut a: SmallVec<K, N>,
        b: SmallVec<K, N>,
    ) -> Result<Self, (AllocError, SmallVec<K, N>, SmallVec<K, N>)>
        ensures left { IfOk result (λ state. state.left ≡ a.items) }
        ensures right { IfOk result (λ state. state.right ≡ b.items) }
        ensures left_on { IfOk result (λ state. state.left_on ≡ false) }
        ensures right_on { IfOk result (λ state. state.right_on ≡ false) }
        ensures kept { IfOk result (λ state. state.kept ≡ []) }
        ensures room { IfOk result (λ state. a.capacity ≤ state.room) }
        ensures left_handed_back { IfErr result (λ refused. refused.1.items ≡ a.items) }
        ensures right_handed_back { IfErr result (λ refused. refused.2.items ≡ b.items) }
        ensures succeeds { length a.items + length b.items ≤ N → IsOk result }
    {
        let extra = b.len();
        match prepared(&mut a, extra) {
            Ok(()) => {
                let right = OwnedRight::over(b);
                Ok(Self::over(a, right, extra))
            }
            Err(error) => Err((error, a, b)),
        }
    }

    /// Leaves in `a` the items at which the connective of `op` changes between two strictly sorted
    /// lists. Of two equal items it is the one of `a` that stays.
    ///
    /// It asks for room in `a` for the items of `b` before it changes anything, and succeeds if
    /// both lengths together are at most `N`. If it fails, the items of `a` are as they were, and
    /// `b` comes back. It makes at most twice the weight of the two lists in comparisons.
    pub fn merge<O: MergeOperation, C: Compare<K>>(
        a: &mut SmallVec<K, N>,
        mut b: SmallVec<K, N>,
        op: &O,
        cmp: &mut C,
    ) -> Result<(), (AllocError, SmallVec<K, N>)>
        requires left_ascending { IsAscending C.order a.old.items }
        requires right_ascending { IsAscending C.order b.items }
        requires made { C.count cmp.old < 2 ^ 64 }
        ensures taken { OnOk result (a.new.items ≡ taken_items (changes C.order (O.connective op.now) a.old.items b.items)) }
        ensures unchanged { OnErr result (a.new.items ≡ a.old.items) }
        ensures room { a.old.capacity ≤ a.new.capacity }
        ensures handed_back { IfErr result (λ refused. refused.1.items ≡ b.items) }
        ensures succeeds { length a.old.items + length b.items ≤ N → IsOk result }
        ensures comparisons { AddsAtMost (C.count cmp.old) (C.count cmp.new) (2 * weight C.order a.old.items b.items) }
    {
        let alloc = *a.allocator();
        let extra = b.len();
        match prepared(a, extra) {
            Ok(()) => {
                let items = b.as_mut_slice();
                let right = OwnedRight::over(Slots { items });
                let state = InPlaceState::<K, N, _, _>::over(&mut *a, right, extra);
                let kept = mem::replace(state.merged(op, cmp), SmallVec::new(alloc));
                *a = kept;
                Ok(())
            }
            Err(error) => Err((error, b)),
        }
    }
}

/// A right list that is owned: its items, of which the first are done with. What was exchanged for
/// an item lies in its place.
#[derive(Drop)]
pub struct OwnedRight<K, L: Exchanges<K>> {
    list: L,
    start: usize,
    of: PhantomData<K>,
}

impl<K, L: Exchanges<K>> Model for OwnedRight<K, L> {
    ghost use Rattle.std.specs.Prelude.{◌≤◌, List, length, drop};

    ghost Value = { List K };

    ghost view = { λ s. drop s.start (L.items s.list) };

    ghost invariant = { λ s. s.start ≤ length (L.items s.list) };
}

impl<K, L: Exchanges<K>> OwnedRight<K, L> {
    // All items of the list unread.
    pub(crate) fn over(list: L) -> Self
        ensures { result ≡ L.items list }
    {
        OwnedRight {
            list,
            start: 0,
            of: PhantomData,
        }
    }
}

impl<K, L: Exchanges<K>> Indexed<K> for OwnedRight<K, L> {
    ghost items = { λ s. s };

    #[inline(always)]
    fn len(&self) -> usize {
        self.list.len() - self.start
    }

    #[inline(always)]
    fn at(&self, i: usize) -> &K {
        // `len` is called for its clause that the length is within usize, which the proof cites.
        let _len = self.list.len();
        self.list.at(self.start + i)
    }
}

impl<K, L: Exchanges<K>> Supply<K> for OwnedRight<K, L> {
    ghost may_be = { λ ts kept. taken_items ts ≡ kept };

    #[inline(always)]
    fn put_front(&mut self, slots: &mut [K]) {
        self.list.swap_with(self.start, slots);
        // `len` is called for its clause that the length is within usize, which the proof cites.
        let _len = self.list.len();
        self.start += slots.len();
    }

    #[inline(always)]
    fn drop_front(&mut self, n: usize) {
        // `len` is called for its clause that the length is within usize, which the proof cites.
        let _len = self.list.len();
        self.start += n;
    }

    #[inline(always)]
    fn left_items_stay() {}
}
