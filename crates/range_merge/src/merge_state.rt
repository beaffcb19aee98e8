//! What a merge goes over: two unread lists, and for a merge that takes items an output. The states
//! over slices are below; those in place are in `in_place`.
ghost use Rattle.std.specs.Prelude.{◌≡◌, ℕ, Bool, true, not, ◌&&◌, ◌≤◌, ◌<◌, List, ◌++◌, length, drop, Some, slice_get, IsTrue, IsOk, OnOk, IfOk};
ghost use Rattle.range_merge.specs.Boundaries.{is_odd};
ghost use Rattle.range_merge.specs.Connective.{differ};
ghost use Rattle.range_merge.specs.Changes.{Taken, taken_left, taken_right};

mod bool_op;
pub(crate) mod buffer;
mod count;
pub(crate) mod over_slices;
pub(crate) mod small_vec;

pub use bool_op::BoolOpMergeState;
pub use buffer::{Buffer, BufferMergeState, NoRoom};
pub use count::CountMergeState;
pub use small_vec::SmallVecMergeState;
use std::alloc::AllocError;

/// Two lists, each with the items that are still unread.
pub trait MergeState {
    /// What the lists hold.
    type Item;

    // The unread items of each side.
    ghost left: { Self → List Self.Item };

    ghost right: { Self → List Self.Item };

    /// How many items of the left list are unread.
    fn a_len(&self) -> usize
        ensures { result ≡ length (left self.now) };

    /// How many items of the right list are unread.
    fn b_len(&self) -> usize
        ensures { result ≡ length (right self.now) };

    /// The unread item of the left list at index `i`.
    fn a_at(&self, i: usize) -> &Self::Item
        requires { i < length (left self.now) }
        ensures { slice_get (left self.now) i ≡ Some result.now };

    /// The unread item of the right list at index `i`.
    fn b_at(&self, i: usize) -> &Self::Item
        requires { i < length (right self.now) }
        ensures { slice_get (right self.now) i ≡ Some result.now };
}

/// A state that a merge moves on. Each advance removes items from the front of an unread list and
/// either appends them to the output or drops them.
pub trait MergeStateMut: MergeState {
    // Whether the side is on: whether an odd number of its items was removed.
    ghost left_on: { Self → Bool };

    ghost right_on: { Self → Bool };

    // What was taken so far may be this list.
    ghost output: { Self → List (Taken Self.Item) → Type 0 };

    // A number that no advance changes, as how many items the output had at first.
    ghost fixed: { Self → ℕ };

    // Whether an advance that takes stops the merge.
    ghost can_stop: { Bool };

    // No advance from here on fails.
    ghost is_infallible: { Self → Type 0 };

    /// Removes the first `n` unread items of the left list, and appends them to the output if
    /// `take`. `false` stops the merge. It is an error if an allocation or a copy fails.
    fn advance_a(&mut self, n: usize, take: bool) -> Result<bool, AllocError>
        requires some { 1 ≤ n }
        requires within { n ≤ length (Self.left self.old) }
        ensures goes_on { IfOk result (λ more. more ≡ not (can_stop && take)) }
        ensures unread { IfOk result (λ more. more ≡ true → Self.left self.new ≡ drop n (Self.left self.old)) }
        ensures other { IfOk result (λ more. more ≡ true → Self.right self.new ≡ Self.right self.old) }
        ensures on { OnOk result (left_on self.new ≡ differ (left_on self.old) (is_odd n)) }
        ensures other_on { OnOk result (right_on self.new ≡ right_on self.old) }
        ensures output { OnOk result ((before : List (Taken Self.Item)) →
            output self.old before → output self.new (before ++ taken_left take n (Self.left self.old))) }
        ensures fixed { fixed self.new ≡ fixed self.old }
        ensures succeeds { is_infallible self.old → IsOk result }
        ensures still_infallible { is_infallible self.old → OnOk result (is_infallible self.new) };

    /// The same for the right list.
    fn advance_b(&mut self, n: usize, take: bool) -> Result<bool, AllocError>
        requires some { 1 ≤ n }
        requires within { n ≤ length (Self.right self.old) }
        ensures goes_on { IfOk result (λ more. more ≡ not (can_stop && take)) }
        ensures unread { IfOk result (λ more. more ≡ true → Self.right self.new ≡ drop n (Self.right self.old)) }
        ensures other { IfOk result (λ more. more ≡ true → Self.left self.new ≡ Self.left self.old) }
        ensures on { OnOk result (right_on self.new ≡ differ (right_on self.old) (is_odd n)) }
        ensures other_on { OnOk result (left_on self.new ≡ left_on self.old) }
        ensures output { OnOk result ((before : List (Taken Self.Item)) →
            output self.old before → output self.new (before ++ taken_right take n (Self.right self.old))) }
        ensures fixed { fixed self.new ≡ fixed self.old }
        ensures succeeds { is_infallible self.old → IsOk result }
        ensures still_infallible { is_infallible self.old → OnOk result (is_infallible self.new) };

    /// Removes the first unread item of each list, and appends the left one to the output if
    /// `take`.
    fn advance_both(&mut self, take: bool) -> Result<bool, AllocError>
        requires left_some { 1 ≤ length (Self.left self.old) }
        requires right_some { 1 ≤ length (Self.right self.old) }
        ensures goes_on { IfOk result (λ more. more ≡ not (can_stop && take)) }
        ensures unread_left { IfOk result (λ more. more ≡ true → Self.left self.new ≡ drop 1 (Self.left self.old)) }
        ensures unread_right { IfOk result (λ more. more ≡ true → Self.right self.new ≡ drop 1 (Self.right self.old)) }
        ensures left_on { OnOk result (left_on self.new ≡ not (left_on self.old)) }
        ensures right_on { OnOk result (right_on self.new ≡ not (right_on self.old)) }
        ensures output { OnOk result ((before : List (Taken Self.Item)) →
            output self.old before → output self.new (before ++ taken_left take 1 (Self.left self.old))) }
        ensures fixed { fixed self.new ≡ fixed self.old }
        ensures succeeds { is_infallible self.old → IsOk result }
        ensures still_infallible { is_infallible self.old → OnOk result (is_infallible self.new) };

    /// Whether the left side is on just before its first unread item.
    fn ac(&self) -> bool
        ensures { result ≡ left_on self.now };

    /// Whether the right side is on just before its first unread item.
    fn bc(&self) -> bool
        ensures { result ≡ right_on self.now };

    /// Whether the merge may pass only the first item of a run that is taken: `true` only of a
    /// state that stops there.
    #[inline(always)]
    fn stops(&self) -> bool
        ensures { IsTrue result → can_stop ≡ true }
    {
        false
    }
}
