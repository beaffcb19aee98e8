//! A merge that only counts what is taken.
ghost use Rattle.std.specs.Prelude.{◌≡◌, ◌+◌, ◌*◌, ◌^◌, ◌<◌, false, length, ⊤};
ghost use Rattle.range_merge.specs.Boundaries.{IsAscending};
ghost use Rattle.range_merge.specs.Changes.{changes};
ghost use Rattle.range_merge.specs.Counting.{AddsAtMost};
ghost use Rattle.range_merge.specs.Runs.{weight};

use crate::compare::Compare;
use crate::fast::short_runs::counted::CountingReader;
use crate::fast::short_runs::merge_reading;
use crate::merge_state::over_slices::{Output, SliceMergeState};
use crate::merging;
use crate::operations::MergeOperation;
use std::alloc::AllocError;

/// A state that counts the items that are taken. It never stops the merge, takes no memory and
/// never fails.
pub type CountMergeState<'a, K> = SliceMergeState<'a, K, usize>;

impl<'a, K> CountMergeState<'a, K> {
    /// All items of both slices unread, both sides off, and nothing counted. Both lengths together
    /// fit a `usize`.
    pub fn new(a: &'a [K], b: &'a [K]) -> Self
        requires fits { length a.now + length b.now < 2 ^ 64 }
        ensures left { result.left ≡ a.now }
        ensures right { result.right ≡ b.now }
        ensures left_on { result.left_on ≡ false }
        ensures right_on { result.right_on ≡ false }
        ensures taken { result.taken ≡ 0 }
    {
        Self::over(a, b, 0, ())
    }

    /// At how many items the connective of `op` changes between two strictly sorted lists, whose
    /// lengths together fit a `usize`.
    ///
    /// It is the length of the list that a merge into a list would give. It takes no memory, and
    /// makes at most twice the weight of the two lists in comparisons.
    pub fn merge<O: MergeOperation, C: Compare<K>>(
        a: &'a [K],
        b: &'a [K],
        op: &O,
        cmp: &mut C,
    ) -> usize
        requires left_ascending { IsAscending C.order a.now }
        requires right_ascending { IsAscending C.order b.now }
        requires fits { length a.now + length b.now < 2 ^ 64 }
        requires made { C.count cmp.old < 2 ^ 64 }
        ensures value { result ≡ length (changes C.order (O.connective op.now) a.now b.now) }
        ensures comparisons { AddsAtMost (C.count cmp.old) (C.count cmp.new) (2 * weight C.order a.now b.now) }
    {
        let mut state = Self::new(a, b);
        let mut reader = CountingReader::of(&state);
        // Nothing is lost: a count never stops a merge, and never fails.
        let _ = merge_reading(&mut state, op, cmp, &mut reader);
        state.result()
    }
}

// How many items were taken. It has to stay a `usize`.
impl<K> Output<K, ()> for usize {
    ghost may_be = { λ s _ ts. s ≡ length ts };

    ghost fixed = { λ _ _. 0 };

    ghost can_stop = { false };

    ghost fits = { λ s n. s + n < 2 ^ 64 };

    ghost has_room = { λ _ _. ⊤ };

    ghost is_infallible = { λ _. ⊤ };

    #[inline(always)]
    fn append(&mut self, items: &[K], take: bool, _by: &()) -> Result<bool, AllocError> {
        if take {
            *self += items.len();
        }
        Ok(true)
    }
}
