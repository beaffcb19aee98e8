//! A merge that reads short runs item by item: whole runs for some rounds, then what a reader reads
//! of short ones, and so by turns.
ghost use Rattle.std.specs.Prelude.{◌≡◌, ◌+◌, ◌*◌, ◌^◌, ◌<◌, ◌≤◌, length, Some, IfSome, ◌-◌, ◌%◌, true, false, List, [], ◌++◌, IsOk, OnOk, IfOk, Ok, None};
ghost use Rattle.range_merge.specs.Boundaries.{IsAscending};
ghost use Rattle.range_merge.specs.Changes.{Taken, changes, StopsAmong};
ghost use Rattle.range_merge.specs.Counting.{AddsAtMost};
ghost use Rattle.range_merge.specs.Owners.{owners};
ghost use Rattle.range_merge.specs.Stages.{Begins, GoesOn, IfOn, Stage};
ghost use Rattle.range_merge.specs.Runs.{weight};
ghost use Rattle.range_merge.specs.ShortRuns.{odd_from};

pub(crate) mod copied;
pub(crate) mod counted;
pub(crate) mod into_output;

use crate::compare::Compare;
use crate::merge_state::MergeStateMut;
use crate::merging::{Went, take_rest, take_rounds};
use crate::operations::MergeOperation;
use crate::runs::order_at;
use std::alloc::AllocError;
use std::cmp::Ordering;

/// Reads short runs of a state, item by item. A merge takes whole runs for some rounds, then lets
/// this read on, and so by turns.
pub(crate) trait ShortRuns<S: MergeStateMut, O: MergeOperation, C: Compare<S::Item>> {
    /// For how many rounds the merge takes whole runs before it reads short ones: at least six,
    /// since those leave as many comparisons as a read may cost more. `None` if it reads none.
    fn rounds(&self) -> Option<u32>
        ensures { IfSome result (λ n. 6 ≤ n) };

    /// Reads on from the start of both lists, as far as their runs are short, and returns how the
    /// next two items stand to one another. It may read nothing.
    fn read(&mut self, state: &mut S, op: &O, next: Ordering, cmp: &mut C) -> Ordering
        requires begins { Begins S.MergeStateMut C.order state.old (Some next) }
        requires fits { length (S.left state.old) + length (S.right state.old) < 2 ^ 65 }
        requires made { C.count cmp.old < 2 ^ 126 }
        ensures goes_on { GoesOn S.MergeStateMut C.order (O.connective op.now) state.old state.new (Some result) }
        ensures no_longer { length (S.left state.new) + length (S.right state.new)
            ≤ length (S.left state.old) + length (S.right state.old) }
        ensures fixed { S.fixed state.new ≡ S.fixed state.old }
        ensures still_infallible { S.is_infallible state.old → S.is_infallible state.new }

        // Six more than twice the weight of what was read, if that.
        ensures comparisons { C.count cmp.new + 2 * weight C.order (S.left state.new) (S.right state.new)
            ≤ C.count cmp.old + 2 * weight C.order (S.left state.old) (S.right state.old) + 6 }
        ensures made { C.count cmp.old ≤ C.count cmp.new };
}

/// How many items stand before a place of each list, how many were put out, and how the next two
/// items stand to one another.
#[derive(Clone, Copy)]
pub(crate) struct ReadSoFar {
    pub(crate) i: usize,
    pub(crate) j: usize,
    pub(crate) k: usize,
    pub(crate) next: Ordering,
}

impl ReadSoFar {
    /// The first unread items of lists that begin at their last even places: the second item of one
    /// whose side is on, the first of one whose side is off.
    #[inline(always)]
    pub(crate) fn unread(ac: bool, bc: bool, next: Ordering) -> Self
        ensures lefts { result.i ≡ odd_from ac }
        ensures rights { result.j ≡ odd_from bc }
        ensures taken { result.k ≡ 0 }
        ensures next { result.next ≡ next }
    {
        ReadSoFar {
            i: ac as usize,
            j: bc as usize,
            k: 0,
            next,
        }
    }

    /// The same place in lists that begin at the last even places before it, where `k` items were
    /// put out.
    #[inline(always)]
    pub(crate) fn from_even(self, k: usize) -> Self
        ensures lefts { result.i ≡ self.i % 2 }
        ensures rights { result.j ≡ self.j % 2 }
        ensures taken { result.k ≡ k }
        ensures next { result.next ≡ self.next }
    {
        ReadSoFar {
            i: self.i % 2,
            j: self.j % 2,
            k,
            next: self.next,
        }
    }

    /// How far a read came from a place on, where nothing had been put out.
    #[inline(always)]
    pub(crate) fn since(self, from: Self) -> Self
        requires lefts { from.i ≤ self.i }
        requires rights { from.j ≤ self.j }
        ensures lefts { result.i ≡ self.i - from.i }
        ensures rights { result.j ≡ self.j - from.j }
        ensures taken { result.k ≡ self.k }
        ensures next { result.next ≡ self.next }
    {
        ReadSoFar {
            i: self.i - from.i,
            j: self.j - from.j,
            k: self.k,
            next: self.next,
        }
    }

    /// The same place in longer lists, with so many items more before it.
    #[inline(always)]
    pub(crate) fn behind(self, lefts: usize, rights: usize) -> Self
        requires lefts { lefts + self.i < 2 ^ 64 }
        requires rights { rights + self.j < 2 ^ 64 }
        ensures lefts { result.i ≡ lefts + self.i }
        ensures rights { result.j ≡ rights + self.j }
        ensures taken { result.k ≡ self.k }
        ensures next { result.next ≡ self.next }
    {
        ReadSoFar {
            i: lefts + self.i,
            j: rights + self.j,
            k: self.k,
            next: self.next,
        }
    }
}

/// The same merge as `merging::merge`, which lets `reader` read short runs.
#[inline(always)]
pub(crate) fn merge_reading<
    S: MergeStateMut,
    O: MergeOperation,
    C: Compare<S::Item>,
    R: ShortRuns<S, O, C>,
>(state: &mut S, op: &O, cmp: &mut C, reader: &mut R) -> Result<bool, AllocError>
    requires left_ascending { IsAscending C.order (S.left state.old) }
    requires right_ascending { IsAscending C.order (S.right state.old) }
    requires left_off { S.left_on state.old ≡ false }
    requires right_off { S.right_on state.old ≡ false }
    requires made { C.count cmp.old < 2 ^ 64 }
    ensures used_up { IfOk result (λ more.
        more ≡ true → (S.left state.new ≡ []) × (S.right state.new ≡ [])) }
    ensures taken { IfOk result (λ more. more ≡ true → (before : List (Taken S.Item)) →
        S.output state.old before → S.output state.new (before ++
        changes C.order (O.connective op.now) (S.left state.old) (S.right state.old))) }

    // Only a state that can stop does, and it stops exactly where something is taken: with a front
    // of the changes, one or more, all of the run in which the first one lies.
    ensures stopped { IfOk result (λ more. more ≡ false → (S.can_stop ≡ true)
        × StopsAmong (owners C.order (S.left state.old) (S.right state.old))
        (S.output state.old) (S.output state.new)
        (changes C.order (O.connective op.now) (S.left state.old) (S.right state.old))) }
    ensures not_stopped { S.can_stop ≡ true → IfOk result (λ more. more ≡ true
        → changes C.order (O.connective op.now) (S.left state.old) (S.right state.old) ≡ []) }
    ensures fixed { S.fixed state.new ≡ S.fixed state.old }

    // An infallible state doesn't fail, and stays infallible.
    ensures succeeds { S.is_infallible state.old → IsOk result }
    ensures still_infallible { S.is_infallible state.old → OnOk result (S.is_infallible state.new) }

    ensures comparisons { AddsAtMost (C.count cmp.old) (C.count cmp.new)
        (2 * weight C.order (S.left state.old) (S.right state.old)) }
{
    match take_runs(state, op, cmp, reader)? {
        Went::Stopped => Ok(false),
        Went::On(_) => take_rest(state, op),
    }
}

// Takes runs or drops them, while both lists have items: whole runs for some rounds, then what the
// reader reads of short ones, and so by turns.
#[inline(always)]
fn take_runs<S: MergeStateMut, O: MergeOperation, C: Compare<S::Item>, R: ShortRuns<S, O, C>>(
    state: &mut S,
    op: &O,
    cmp: &mut C,
    reader: &mut R,
) -> Result<Went, AllocError>
    requires left_ascending { IsAscending C.order (S.left state.old) }
    requires right_ascending { IsAscending C.order (S.right state.old) }
    requires made { C.count cmp.old < 2 ^ 64 }
    ensures stage { Stage S.MergeStateMut C.order (O.connective op.now) state.old state.new
        0 (C.count cmp.old) (C.count cmp.new) result }
    ensures used_up { IfOk result (IfOn (λ next. next ≡ None)) }
{
    // Both are called for their clause that a length is within usize, which the proof cites.
    let _lengths = (state.a_len(), state.b_len());
    let mut firsts = order_at(state, 0, cmp);
    while firsts.is_some() {
        let Went::On(next) = take_rounds(state, op, firsts, reader.rounds(), cmp)? else {
            return Ok(Went::Stopped);
        };
        firsts = read_on(state, op, next, cmp, reader);
    }
    Ok(Went::On(firsts))
}

// Lets the reader read short runs, if both lists have items.
#[inline(always)]
fn read_on<S: MergeStateMut, O: MergeOperation, C: Compare<S::Item>, R: ShortRuns<S, O, C>>(
    state: &mut S,
    op: &O,
    firsts: Option<Ordering>,
    cmp: &mut C,
    reader: &mut R,
) -> Option<Ordering>
    requires begins { Begins S.MergeStateMut C.order state.old firsts }
    requires fits { length (S.left state.old) + length (S.right state.old) < 2 ^ 65 }
    requires made { C.count cmp.old < 2 ^ 126 }
    ensures goes_on { GoesOn S.MergeStateMut C.order (O.connective op.now) state.old state.new result }
    ensures no_longer { length (S.left state.new) + length (S.right state.new)
        ≤ length (S.left state.old) + length (S.right state.old) }
    ensures fixed { S.fixed state.new ≡ S.fixed state.old }
    ensures still_infallible { S.is_infallible state.old → S.is_infallible state.new }
    ensures ended { firsts ≡ None →
        (result ≡ None) × (C.count cmp.new ≡ C.count cmp.old) × (state.new ≡ state.old) }
    ensures some { (how : Ordering) → firsts ≡ Some how →
        (next : Ordering) × (result ≡ Some next) }
    ensures comparisons { C.count cmp.new + 2 * weight C.order (S.left state.new) (S.right state.new)
        ≤ C.count cmp.old + 2 * weight C.order (S.left state.old) (S.right state.old) + 6 }
    ensures made { C.count cmp.old ≤ C.count cmp.new }
{
    match firsts {
        Some(next) => Some(reader.read(state, op, next, cmp)),
        None => None,
    }
}
