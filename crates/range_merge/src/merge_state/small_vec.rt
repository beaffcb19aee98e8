//! A merge that copies what is taken into a list.
ghost use Rattle.std.specs.Prelude.{◌≡◌, ◌+◌, ◌*◌, ◌^◌, ◌<◌, ◌≤◌, ◌↔◌, false, [], length, map, All, IsTrue, IfOk, ⊤, ℕ, true, List, ◌++◌, ◌∷◌, IsOk, OnOk};
ghost use Rattle.std.specs.Vec.{vec_capacity};
ghost use Rattle.smallvec.specs.SmallVec.{HasRoomFor};
ghost use Rattle.range_merge.specs.Boundaries.{IsAscending};
ghost use Rattle.range_merge.specs.Changes.{changes, from_left};
ghost use Rattle.range_merge.specs.Copies.{AreCopies, AreKeptThenCopies, IsAppended, items_if};
ghost use Rattle.range_merge.specs.Counting.{AddsAtMost};
ghost use Rattle.range_merge.specs.Filling.{FitInline, GivesCopies};
ghost use Rattle.range_merge.specs.Runs.{weight};
ghost use Rattle.range_merge.specs.States.{HasRoomForAll};

use crate::compare::{Compare, Copier};
use crate::fast::short_runs::into_output::CopyingReader;
use crate::fast::short_runs::merge_reading;
use crate::merge_state::over_slices::{COPIED_AT_ONCE, Output, SliceMergeState};
use crate::merging;
use crate::operations::MergeOperation;
use smallvec::SmallVec;
use std::alloc::{AllocError, Global};
use std::default::MadeWith;
use std::mem;

/// A state that appends copies of the items that are taken to a list.
pub type SmallVecMergeState<'a, K, P, const M: usize> = SliceMergeState<
    'a,
    K,
    SmallVec<K, M>,
    Copying<'a, P>,
>;

impl<'a, K: MadeWith<Global> + Drop, P: Copier<K>, const M: usize> SmallVecMergeState<'a, K, P, M> {
    /// All items of both slices unread, both sides off, and the items of `r` as what was taken so
    /// far, from the left.
    ///
    /// Copies of what is taken are appended to them. No advance fails if the items of `r` and those
    /// of both slices together are at most `M`, and no copy fails. It takes no memory.
    pub fn new(a: &'a [K], b: &'a [K], r: SmallVec<K, M>, copier: &'a P) -> Self
        ensures left { result.left ≡ a.now }
        ensures right { result.right ≡ b.now }
        ensures left_on { result.left_on ≡ false }
        ensures right_on { result.right_on ≡ false }
        ensures items { result.taken.items ≡ r.items }
        ensures fixed { result.fixed ≡ length r.items }
        ensures output { AreKeptThenCopies P.alike result.fixed (map from_left r.items) result.taken.items }
        ensures at_least_inline { M ≤ result.taken.capacity }
        ensures infallible { length r.items + length a.now + length b.now ≤ M → All P.is_infallible a.now → All P.is_infallible b.now → HasRoomForAll P.is_infallible result }
    {
        // `capacity` is called for its clause that it is at least M, which the proof cites.
        let _inline = r.capacity();
        let at_first = r.len();
        Self::over(a, b, r, Copying { copier, at_first })
    }

    /// Fills the empty list `r` with copies of the items at which the connective of `op` changes
    /// between two strictly sorted lists.
    ///
    /// It asks for room for both lengths at once if they are more than a few; if that fails, and
    /// for a few, it asks for each run that is taken. Copies ask for what they need (seen by
    /// reading). It succeeds if both lengths together are at most `M` and no copy fails. If it
    /// fails, `r` is dropped. It makes at most twice the weight of the two lists in comparisons,
    /// even if it fails.
    pub fn merge<O: MergeOperation, C: Compare<K>>(
        r: SmallVec<K, M>,
        a: &'a [K],
        b: &'a [K],
        copier: &'a P,
        op: &O,
        cmp: &mut C,
    ) -> Result<SmallVec<K, M>, AllocError>
        requires empty { r.items ≡ [] }
        requires left_ascending { IsAscending C.order a.now }
        requires right_ascending { IsAscending C.order b.now }
        requires made { C.count cmp.old < 2 ^ 64 }
        ensures gives { GivesCopies P.alike C.order (O.connective op.now) a.now b.now (FitInline P.is_infallible M a.now b.now) result }
        ensures comparisons { AddsAtMost (C.count cmp.old) (C.count cmp.new) (2 * weight C.order a.now b.now) }
    {
        if fit_together(a.len(), b.len(), FEW.max(M)) {
            Self::merge_few(r, a, b, copier, op, cmp)
        } else {
            Self::merge_many(r, a, b, copier, op, cmp)
        }
    }

    // Appends to the list where it lies, which is inline as far as there is room.
    fn merge_few<O: MergeOperation, C: Compare<K>>(
        mut r: SmallVec<K, M>,
        a: &'a [K],
        b: &'a [K],
        copier: &'a P,
        op: &O,
        cmp: &mut C,
    ) -> Result<SmallVec<K, M>, AllocError>
        requires empty { r.items ≡ [] }
        requires left_ascending { IsAscending C.order a.now }
        requires right_ascending { IsAscending C.order b.now }
        requires made { C.count cmp.old < 2 ^ 64 }
        ensures gives { GivesCopies P.alike C.order (O.connective op.now) a.now b.now (FitInline P.is_infallible M a.now b.now) result }
        ensures comparisons { AddsAtMost (C.count cmp.old) (C.count cmp.new) (2 * weight C.order a.now b.now) }
    {
        let alloc = *r.allocator();
        // `capacity` is called for its clause that it is at least M, which the proof cites.
        let _inline = r.capacity();
        let mut state = SliceMergeState::over(
            a,
            b,
            &mut r,
            Copying {
                copier,
                at_first: 0,
            },
        );
        let _went_through = merging::merge(&mut state, op, cmp)?;
        Ok(mem::replace(state.result(), SmallVec::new(alloc)))
    }

    // Appends to a `Vec`, whose end is found without a look at where it lies. What fits inline
    // comes to lie there at the end.
    fn merge_many<O: MergeOperation, C: Compare<K>>(
        r: SmallVec<K, M>,
        a: &'a [K],
        b: &'a [K],
        copier: &'a P,
        op: &O,
        cmp: &mut C,
    ) -> Result<SmallVec<K, M>, AllocError>
        requires empty { r.items ≡ [] }
        requires left_ascending { IsAscending C.order a.now }
        requires right_ascending { IsAscending C.order b.now }
        requires made { C.count cmp.old < 2 ^ 64 }

        // It may need memory, so nothing is said of when it succeeds.
        ensures gives { GivesCopies P.alike C.order (O.connective op.now) a.now b.now ⊥ result }
        ensures comparisons { AddsAtMost (C.count cmp.old) (C.count cmp.new) (2 * weight C.order a.now b.now) }
    {
        let mut list = r.into_vec()?;
        // Where there is no room for both at once, the list grows run by run.
        let _asked = list.reserve(a.len().saturating_add(b.len()));
        Ok(inline_if_few(Self::merge_to_vec(list, a, b, copier, op, cmp)?))
    }

    /// Appends to the empty list. It asks for no memory where there is room for both lengths (seen
    /// by reading).
    pub(crate) fn merge_to_vec<O: MergeOperation, C: Compare<K>>(
        list: Vec<K>,
        a: &'a [K],
        b: &'a [K],
        copier: &'a P,
        op: &O,
        cmp: &mut C,
    ) -> Result<Vec<K>, AllocError>
        requires empty { list.items ≡ [] }
        requires left_ascending { IsAscending C.order a.now }
        requires right_ascending { IsAscending C.order b.now }
        requires made { C.count cmp.old < 2 ^ 64 }

        // It may need memory, so nothing is said of when it succeeds.
        ensures copied { IfOk result (λ list. AreCopies P.alike (changes C.order (O.connective op.now) a.now b.now) list.items) }
        ensures comparisons { AddsAtMost (C.count cmp.old) (C.count cmp.new) (2 * weight C.order a.now b.now) }
    {
        let mut state = SliceMergeState::over(
            a,
            b,
            list,
            Copying {
                copier,
                at_first: 0,
            },
        );
        let _went_through = match CopyingReader::of(copier) {
            Some(mut reader) => merge_reading(&mut state, op, cmp, &mut reader)?,
            None => merging::merge(&mut state, op, cmp)?,
        };
        Ok(state.result())
    }
}

// Of so few items together, most merges take no more than fit inline or in a list that grows once.
const FEW: usize = 8;

/// The items inline if they fit there, and else where they lie.
pub(crate) fn inline_if_few<K: MadeWith<Global> + Drop, const M: usize>(
    items: Vec<K>,
) -> SmallVec<K, M>
    ensures { result.items ≡ items.items }
{
    let mut list = SmallVec::from_vec(items);
    if list.len() <= M {
        list.shrink_to_fit();
    }
    list
}

/// Whether `a` items and `b` items are together at most `room`.
pub(crate) fn fit_together(a: usize, b: usize, room: usize) -> bool
    ensures { IsTrue result ↔ (a + b ≤ room) }
{
    a <= room && b <= room - a
}

/// How a list is appended to: by copies that the copier makes, after the items that it had at
/// first.
#[derive(Drop)]
pub struct Copying<'a, P> {
    pub copier: &'a P,
    pub at_first: usize,
}

impl<'a, K: MadeWith<Global> + Drop, P: Copier<K>, const M: usize> Output<K, Copying<'a, P>>
    for SmallVec<K, M> {
    ghost may_be = { λ list at_first ts. AreKeptThenCopies P.alike at_first ts list.items };

    ghost fixed = { λ _ by. by.at_first };

    ghost can_stop = { false };

    ghost fits = { λ _ _. ⊤ };

    ghost has_room = { λ list n. length list.items + n ≤ list.capacity };

    ghost is_infallible = { P.is_infallible };

    #[inline(always)]
    fn append(&mut self, items: &[K], take: bool, by: &Copying<'a, P>) -> Result<bool, AllocError> {
        append_copies(self, items, take, by.copier)?;
        Ok(true)
    }
}

/// A list that grows at its end.
pub trait GrowsAtEnd<K> {
    // The items, and how many have room.
    ghost items: { Self → List K };

    ghost room: { Self → ℕ };

    /// Makes room for `n` more items.
    fn reserve(&mut self, n: usize) -> Result<(), AllocError>
        ensures items { items self.new ≡ items self.old }
        ensures ok { OnOk result (length (items self.new) + n ≤ room self.new) }
        ensures succeeds { length (items self.old) + n ≤ room self.old → IsOk result }
        ensures had_room { length (items self.old) + n ≤ room self.old → room self.new ≡ room self.old };

    /// Appends an item where there is room.
    fn push(&mut self, item: K)
        requires { length (items self.old) < room self.old }
        ensures items { items self.new ≡ items self.old ++ item ∷ [] }
        ensures room { room self.new ≡ room self.old };
}

impl<K: MadeWith<Global> + Drop, const M: usize> GrowsAtEnd<K> for SmallVec<K, M> {
    ghost items = { λ list. list.items };

    ghost room = { λ list. list.capacity };

    #[inline(always)]
    fn reserve(&mut self, n: usize) -> Result<(), AllocError> {
        SmallVec::reserve(self, n)
    }

    #[inline(always)]
    fn push(&mut self, item: K) {
        self.push_reserved(item);
    }
}

impl<K> GrowsAtEnd<K> for Vec<K> {
    ghost items = { λ list. list.items };

    ghost room = { λ list. vec_capacity list };

    #[inline(always)]
    fn reserve(&mut self, n: usize) -> Result<(), AllocError> {
        if n <= self.capacity() - self.len() {
            return Ok(());
        }
        Vec::reserve(self, n)
    }

    #[inline(always)]
    fn push(&mut self, item: K) {
        self.push_reserved(item);
    }
}

// Appends copies of the items, if they are taken. It asks for room once.
#[inline(always)]
pub(crate) fn append_copies<K, P: Copier<K>, L: GrowsAtEnd<K>>(
    list: &mut L,
    items: &[K],
    take: bool,
    copier: &P,
) -> Result<(), AllocError>
    ensures copied { OnOk result (IsAppended P.alike (items_if take items.now) (L.items list.old) (L.items list.new)) }
    ensures succeeds { length (L.items list.old) + length items.now ≤ L.room list.old → All P.is_infallible items.now → IsOk result }
    ensures had_room { OnOk result (length (L.items list.old) + length items.now ≤ L.room list.old → L.room list.new ≡ L.room list.old) }
{
    if !take {
        return Ok(());
    }
    list.reserve(items.len())?;
    for item in items {
        list.push(copier.copy(item)?);
    }
    Ok(())
}

/// Appends copies of items, for which there is room, and none of which fails.
pub(crate) fn append_within<K: MadeWith<Global> + Drop, P: Copier<K>, const N: usize>(
    list: &mut SmallVec<K, N>,
    items: &[K],
    copier: &P,
)
    requires room { HasRoomFor list.old (length items.now) }
    requires infallible { (x : K) → P.is_infallible x }
    ensures copied { IsAppended P.alike items.now list.old.items list.new.items }
    ensures room { list.new.capacity ≡ list.old.capacity }
{
    match append_copies(list, items, true, copier) {
        Ok(()) => {}
        Err(_) => unreachable!(),
    }
}

impl<'a, K, P: Copier<K>> Output<K, Copying<'a, P>> for Vec<K> {
    ghost may_be = { λ list at_first ts. AreKeptThenCopies P.alike at_first ts list.items };

    ghost fixed = { λ _ by. by.at_first };

    ghost can_stop = { false };

    ghost fits = { λ _ _. ⊤ };

    // Nothing is said of when it succeeds: it serves where memory may be asked for.
    ghost has_room = { λ _ _. ⊥ };

    ghost is_infallible = { P.is_infallible };

    #[inline(always)]
    fn append(&mut self, items: &[K], take: bool, by: &Copying<'a, P>) -> Result<bool, AllocError> {
        if items.len() < COPIED_AT_ONCE {
            append_copies(self, items, take, by.copier)?;
        } else if take {
            by.copier.append(self, items)?;
        }
        Ok(true)
    }
}
