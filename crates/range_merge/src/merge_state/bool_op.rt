//! A merge that only returns whether anything is taken.
ghost use Rattle.std.specs.Prelude.{◌≡◌, ◌*◌, ◌^◌, ◌<◌, true, false, ⊤};
ghost use Rattle.range_merge.specs.Boundaries.{IsAscending};
ghost use Rattle.range_merge.specs.Changes.{changes};
ghost use Rattle.range_merge.specs.Counting.{AddsAtMost};
ghost use Rattle.range_merge.specs.Runs.{weight};
ghost use Rattle.range_merge.specs.States.{any_item};

use crate::compare::Compare;
use crate::merge_state::over_slices::{Output, SliceMergeState};
use crate::merging;
use crate::operations::MergeOperation;
use std::alloc::AllocError;

/// A state that stops the merge at the first item that is taken, and remembers that there was one.
/// It takes no memory and never fails.
pub type BoolOpMergeState<'a, K> = SliceMergeState<'a, K, bool>;

impl<'a, K> BoolOpMergeState<'a, K> {
    /// All items of both slices unread, both sides off, and nothing taken.
    pub fn new(a: &'a [K], b: &'a [K]) -> Self
        ensures left { result.left ≡ a.now }
        ensures right { result.right ≡ b.now }
        ensures left_on { result.left_on ≡ false }
        ensures right_on { result.right_on ≡ false }
        ensures taken { result.taken ≡ false }
    {
        Self::over(a, b, false, ())
    }

    /// Whether the connective of `op` changes anywhere between the two strictly sorted lists.
    ///
    /// It stops at the first place where it does (no clause says so). It takes no memory, and makes
    /// at most twice the weight of the two lists in comparisons.
    pub fn merge<O: MergeOperation, C: Compare<K>>(
        a: &'a [K],
        b: &'a [K],
        op: &O,
        cmp: &mut C,
    ) -> bool
        requires left_ascending { IsAscending C.order a.now }
        requires right_ascending { IsAscending C.order b.now }
        requires made { C.count cmp.old < 2 ^ 64 }
        ensures value { result ≡ any_item (changes C.order (O.connective op.now) a.now b.now) }
        ensures comparisons { AddsAtMost (C.count cmp.old) (C.count cmp.new) (2 * weight C.order a.now b.now) }
    {
        let mut state = Self::new(a, b);
        // Nothing is lost: whether the merge stopped is what the state returns.
        let _ = merging::merge(&mut state, op, cmp);
        state.result()
    }
}

// Whether anything was taken. The first item stops the merge.
impl<K> Output<K, ()> for bool {
    ghost may_be = { λ s _ ts. s ≡ any_item ts };

    ghost fixed = { λ _ _. 0 };

    ghost can_stop = { true };

    ghost fits = { λ _ _. ⊤ };

    ghost has_room = { λ _ _. ⊤ };

    ghost is_infallible = { λ _. ⊤ };

    #[inline(always)]
    fn append(&mut self, _items: &[K], take: bool, _by: &()) -> Result<bool, AllocError> {
        *self = *self | take;
        Ok(!take)
    }

    #[inline(always)]
    fn stops(&self) -> bool {
        true
    }
}
