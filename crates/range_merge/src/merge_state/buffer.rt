//! A merge that writes what is taken into a borrowed slice.
//!
//! The count goes on when the slice is full, so that it says how long a slice must be. While it is
//! within the slice, the slice begins with what was taken, and after that it is as it was.
ghost use Rattle.std.specs.Prelude.{◌≡◌, ◌↔◌, ◌+◌, ◌*◌, ◌^◌, ◌<◌, ◌≤◌, ◌++◌, false, length, take, drop, map, Some, IsErr, IfOk, IfErr, ⊤};
ghost use Rattle.range_merge.specs.Boundaries.{IsAscending};
ghost use Rattle.range_merge.specs.Changes.{changes, from_left, taken_items};
ghost use Rattle.range_merge.specs.Buffers.{IsFilled};
ghost use Rattle.range_merge.specs.Counting.{AddsAtMost};
ghost use Rattle.range_merge.specs.Runs.{weight};

use crate::compare::{Compare, Copier};
use crate::fast::short_runs::into_output::CopyingReader;
use crate::fast::short_runs::merge_reading;
use crate::merge_state::over_slices::{Output, SliceMergeState};
use crate::merging;
use crate::operations::MergeOperation;
use crate::searching::is_word;
use std::alloc::AllocError;

/// A state that writes the items that are taken into a borrowed slice, and counts them. It never
/// stops the merge, takes no memory and never fails.
pub type BufferMergeState<'a, 'o, K> = SliceMergeState<'a, K, Buffer<'o, K>>;

/// The borrowed slice is too short for the list.
#[derive(Clone, Copy, Debug, PartialEq, Eq)]
pub struct NoRoom {
    /// How long the list is.
    pub needed: usize,
}

/// A slice that is filled from its start, and how many items it was given.
#[derive(Drop)]
pub struct Buffer<'o, K> {
    /// It begins with the items that it was given, while it has room for them.
    pub items: &'o mut [K],
    /// How many items it was given, also where it had no room for them.
    pub given: usize,
}

impl<'a, 'o, K: Copy> BufferMergeState<'a, 'o, K> {
    /// All items of both slices unread, both sides off, and nothing written. Both lengths together
    /// fit a `usize`.
    pub fn new(a: &'a [K], b: &'a [K], out: &'o mut [K]) -> Self
        requires fits { length a.now + length b.now < 2 ^ 64 }
        ensures left { result.left ≡ a.now }
        ensures right { result.right ≡ b.now }
        ensures left_on { result.left_on ≡ false }
        ensures right_on { result.right_on ≡ false }
        ensures items { result.taken.items.now ≡ out.old }
        ensures given { result.taken.given ≡ 0 }
        ensures fixed { result.fixed ≡ out.entry.ghost_name }
        ensures borrowed { result.taken.items.ghost_name ≡ out.entry.ghost_name }
    {
        Self::over(
            a,
            b,
            Buffer {
                items: out,
                given: 0,
            },
            (),
        )
    }

    /// Writes the items at which the connective of `op` changes between two strictly sorted lists
    /// into `out`, whose lengths together fit a `usize`.
    ///
    /// It returns how many items it wrote; after them `out` is as it was. It is an error exactly if
    /// `out` is shorter than the list: the error says how long it must be, and nothing is said of
    /// what `out` then holds. It takes no memory, and makes at most twice the weight of the two
    /// lists in comparisons.
    pub fn merge<O: MergeOperation, C: Compare<K>>(
        a: &'a [K],
        b: &'a [K],
        out: &mut [K],
        op: &O,
        cmp: &mut C,
    ) -> Result<usize, NoRoom>
        requires left_ascending { IsAscending C.order a.now }
        requires right_ascending { IsAscending C.order b.now }
        requires fits { length a.now + length b.now < 2 ^ 64 }
        requires made { C.count cmp.old < 2 ^ 64 }
        ensures written { IfOk result (λ n. out.new ≡ taken_items (changes C.order (O.connective op.now) a.now b.now) ++ drop n out.old) }
        ensures length { IfOk result (λ n. n ≡ length (changes C.order (O.connective op.now) a.now b.now)) }
        ensures no_room { IsErr result ↔ (length out.old < length (changes C.order (O.connective op.now) a.now b.now)) }
        ensures needed { IfErr result (λ refused. refused.needed ≡ length (changes C.order (O.connective op.now) a.now b.now)) }
        ensures comparisons { AddsAtMost (C.count cmp.old) (C.count cmp.new) (2 * weight C.order a.now b.now) }
    {
        let room = out.len();
        let Buffer { items, given } = BufferMergeState::filled(a, b, out, op, cmp);
        take_back(items);
        if given > room {
            return Err(NoRoom { needed: given });
        }
        Ok(given)
    }

    // The borrowed slice, given the items at which the connective changes.
    fn filled<O: MergeOperation, C: Compare<K>>(
        a: &'a [K],
        b: &'a [K],
        out: &'o mut [K],
        op: &O,
        cmp: &mut C,
    ) -> Buffer<'o, K>
        requires left_ascending { IsAscending C.order a.now }
        requires right_ascending { IsAscending C.order b.now }
        requires fits { length a.now + length b.now < 2 ^ 64 }
        requires made { C.count cmp.old < 2 ^ 64 }
        ensures borrowed { result.items.ghost_name ≡ out.entry.ghost_name }
        ensures filled { IsFilled (map from_left out.old ++ changes C.order (O.connective op.now) a.now b.now) result.given result.items.now }
        ensures comparisons { AddsAtMost (C.count cmp.old) (C.count cmp.new) (2 * weight C.order a.now b.now) }
    {
        let mut state = Self::new(a, b, out);
        let copier = ByCopy {
            are_short: are_short(a),
        };
        // Nothing is lost: the buffer counts also what it has no room for.
        if let Some(mut reader) = CopyingReader::of(&copier) {
            let _ = merge_reading(&mut state, op, cmp, &mut reader);
            return state.result();
        }
        let _ = merging::merge(&mut state, op, cmp);
        state.result()
    }
}

// The items that the slice had at first count as taken before those that it is given. It stays the
// same slice.
impl<'o, K: Copy> Output<K, ()> for Buffer<'o, K> {
    ghost may_be = { λ buffer slice ts. (buffer.items.ghost_name ≡ slice) × IsFilled ts buffer.given buffer.items.now };

    ghost fixed = { λ buffer _. buffer.items.ghost_name };

    ghost can_stop = { false };

    ghost fits = { λ buffer n. buffer.given + n < 2 ^ 64 };

    ghost has_room = { λ _ _. ⊤ };

    ghost is_infallible = { λ _. ⊤ };

    #[inline(always)]
    fn append(&mut self, items: &[K], take: bool, _by: &()) -> Result<bool, AllocError> {
        if take {
            write_at(self.items, self.given, items);
            self.given += items.len();
        }
        Ok(true)
    }
}

/// Copies items that are `Copy`, which are plain data.
#[derive(Drop)]
pub(crate) struct ByCopy {
    // Whether they are short, so that to hold copies of them is worth it.
    are_short: bool,
}

impl<K: Copy> Copier<K> for ByCopy {
    ghost alike = { λ x y. y ≡ x };

    ghost is_infallible = { λ _. ⊤ };

    #[inline(always)]
    fn copy(&self, item: &K) -> Result<K, AllocError> {
        Ok(*item)
    }

    #[inline(always)]
    fn is_plain(&self) -> bool {
        self.are_short
    }
}

// Whether there are items, each a word at most.
#[inline(always)]
fn are_short<K>(items: &[K]) -> bool {
    match items.first() {
        Some(item) => is_word(item),
        None => false,
    }
}

/// Changes nothing. Using the slice ties it to the borrowed one, whose last items are then known.
#[inline(always)]
pub(crate) fn take_back<K>(items: &mut [K])
    ensures { items.new ≡ items.old }
{
    let _borrowed = items;
}

// Writes those of the items that have room into the slice, from the index `at` on.
#[inline(always)]
fn write_at<K: Copy>(out: &mut [K], at: usize, items: &[K])
    ensures len { length out.new ≡ length out.old }
    ensures written { at + length items.now ≤ length out.old → out.new ≡ take at out.old ++ (items.now ++ drop (at + length items.now) out.old) }
{
    if at < out.len() {
        write_front(&mut out[at..], items);
    }
}

// Writes those of the items that have room into the slice, from its front.
#[inline(always)]
fn write_front<K: Copy>(out: &mut [K], items: &[K])
    ensures len { length out.new ≡ length out.old }
    ensures written { length items.now ≤ length out.old → out.new ≡ items.now ++ drop (length items.now) out.old }
{
    let n = out.len().min(items.len());
    out[..n].copy_from_slice(&items[..n]);
}
