//! The merge: it takes the first run of the unread lists whole or drops it whole, until both lists
//! are used up.
ghost use Rattle.std.specs.Prelude.{◌≡◌, ◌+◌, ◌*◌, ◌^◌, ◌<◌, ◌≤◌, true, false, not, ◌&&◌, List, [], ◌++◌, length, IsOk, OnOk, IfOk, IfSome, Ok, None, Some, IsTrue, ◌↔◌, ℕ};
ghost use Rattle.std.specs.declared.cmp.Ordering.TheVariants.{Less, Greater};
ghost use Rattle.range_merge.specs.Boundaries.{IsAscending};
ghost use Rattle.range_merge.specs.Changes.{Taken, changes, StopsAmong};
ghost use Rattle.range_merge.specs.Counting.{AddsAtMost};
ghost use Rattle.range_merge.specs.Owners.{owners};
ghost use Rattle.range_merge.specs.Stages.{Begins, IfOn, IsFirstRun, IsTurn, Leaves, Ran, Stage};
ghost use Rattle.range_merge.specs.Runs.{weight};
ghost use Rattle.range_merge.specs.OneRun.{ahead_of, takes};
ghost use Rattle.range_merge.specs.declared.runs.Run.TheVariants.{Left, Right};

use crate::compare::Compare;
use crate::equal_pairs::steps_both;
use crate::merge_state::MergeStateMut;
use crate::operations::MergeOperation;
use crate::runs::{Below, LeftOf, RightOf, gallop, order_at, reversed};
use std::alloc::AllocError;
use std::cmp::Ordering;

/// Merges the unread lists of `state` by the operation `op`.
///
/// Both lists are strictly sorted by the order of `cmp`, and both sides are off at the start. The
/// merge appends to the output exactly the items at which the connective of `op` changes, in order;
/// of two equal items the left's. It returns `true` if it used up both lists, and `false` if the
/// state stopped, which a state that stops does at the first item that it takes. It fails only if
/// an advance of the state does (seen by reading; the clause says that it doesn't fail if the state
/// never does). It asks for no memory itself.
///
/// It makes at most twice the weight of the two lists in comparisons, whether it ends, stops or
/// fails.
pub fn merge<S: MergeStateMut, O: MergeOperation, C: Compare<S::Item>>(
    state: &mut S,
    op: &O,
    cmp: &mut C,
) -> Result<bool, AllocError>
    requires left_ascending { IsAscending C.order (S.left state.old) }
    requires right_ascending { IsAscending C.order (S.right state.old) }
    requires left_off { S.left_on state.old ≡ false }
    requires right_off { S.right_on state.old ≡ false }
    requires made { C.count cmp.old < 2 ^ 64 }
    ensures used_up { IfOk result (λ more.
        more ≡ true → (S.left state.new ≡ []) × (S.right state.new ≡ [])) }
    ensures taken { IfOk result (λ more. more ≡ true → (before : List (Taken S.Item)) →
        S.output state.old before → S.output state.new (before ++
        changes C.order (O.connective op.now) (S.left state.old) (S.right state.old))) }

    // Only a state that can stop does, and it stops exactly where something is taken: with a front
    // of the changes, one or more, all of the run in which the first one lies.
    ensures stopped { IfOk result (λ more. more ≡ false → (S.can_stop ≡ true)
        × StopsAmong (owners C.order (S.left state.old) (S.right state.old))
        (S.output state.old) (S.output state.new)
        (changes C.order (O.connective op.now) (S.left state.old) (S.right state.old))) }
    ensures not_stopped { S.can_stop ≡ true → IfOk result (λ more. more ≡ true
        → changes C.order (O.connective op.now) (S.left state.old) (S.right state.old) ≡ []) }
    ensures fixed { S.fixed state.new ≡ S.fixed state.old }

    // An infallible state doesn't fail, and stays infallible.
    ensures succeeds { S.is_infallible state.old → IsOk result }
    ensures still_infallible { S.is_infallible state.old → OnOk result (S.is_infallible state.new) }

    ensures comparisons { AddsAtMost (C.count cmp.old) (C.count cmp.new)
        (2 * weight C.order (S.left state.old) (S.right state.old)) }
{
    // Both are called for their clause that a length is within usize, which the proof cites.
    let _lengths = (state.a_len(), state.b_len());
    let firsts = order_at(state, 0, cmp);
    match take_rounds(state, op, firsts, None, cmp)? {
        Went::Stopped => Ok(false),
        Went::On(_) => take_rest(state, op),
    }
}

/// How a stage of a merge went.
#[derive(Clone, Copy)]
pub(crate) enum Went {
    /// The state stopped.
    Stopped,
    /// It goes on. The next two items stand so to one another, if both lists have one.
    On(Option<Ordering>),
}

/// Takes runs or drops them, for `rounds` rounds, or fewer if a list is used up; for `None`, until
/// then. Each round leaves one comparison of those that twice the weight allows.
#[inline(always)]
pub(crate) fn take_rounds<S: MergeStateMut, O: MergeOperation, C: Compare<S::Item>>(
    state: &mut S,
    op: &O,
    firsts: Option<Ordering>,
    rounds: Option<u32>,
    cmp: &mut C,
) -> Result<Went, AllocError>
    requires begins { Begins S.MergeStateMut C.order state.old firsts }
    requires fits { length (S.left state.old) + length (S.right state.old) < 2 ^ 65 }
    requires made { C.count cmp.old < 2 ^ 125 }
    ensures stage { Stage S.MergeStateMut C.order (O.connective op.now) state.old state.new
        (ahead_of firsts) (C.count cmp.old) (C.count cmp.new) result }
    ensures no_longer { IfOk result (IfOn (λ _.
        length (S.left state.new) + length (S.right state.new)
        ≤ length (S.left state.old) + length (S.right state.old))) }
    ensures shorter { (how : Ordering) → firsts ≡ Some how → IfSome rounds (λ n. 1 ≤ n) →
        IfOk result (IfOn (λ _.
        length (S.left state.new) + length (S.right state.new)
        < length (S.left state.old) + length (S.right state.old))) }
    ensures leaves { (n : ℕ) → rounds ≡ Some n → IfOk result (IfOn (λ next.
        (how : Ordering) → next ≡ Some how →
        C.count cmp.new + n + 2 * weight C.order (S.left state.new) (S.right state.new)
        ≤ C.count cmp.old + 2 * weight C.order (S.left state.old) (S.right state.old))) }
    ensures whole { rounds ≡ None → IfOk result (IfOn (λ next. next ≡ None)) }
{
    let mut firsts = firsts;
    let mut remaining = rounds;
    while firsts.is_some() {
        if remaining == Some(0) {
            return Ok(Went::On(firsts));
        }
        let Went::On(next) = step_left(state, op, firsts, cmp)? else {
            return Ok(Went::Stopped);
        };
        let Went::On(next) = step_right(state, op, next, cmp)? else {
            return Ok(Went::Stopped);
        };
        let Went::On(next) = steps_both(state, op, next, cmp)? else {
            return Ok(Went::Stopped);
        };
        firsts = next;
        remaining = one_less(remaining);
    }
    Ok(Went::On(firsts))
}

// One round less, if they are counted.
#[inline(always)]
fn one_less(rounds: Option<u32>) -> Option<u32>
    requires { IfSome rounds (λ n. 1 ≤ n) }
    ensures none { rounds ≡ None → result ≡ None }
    ensures some { (n : ℕ) → rounds ≡ Some n →
        (remaining : ℕ) × (result ≡ Some remaining) × (remaining + 1 ≡ n) }
{
    match rounds {
        Some(n) => Some(n - 1),
        None => None,
    }
}

// Takes or drops the first run, where it is of the left list.
#[inline(always)]
fn step_left<S: MergeStateMut, O: MergeOperation, C: Compare<S::Item>>(
    state: &mut S,
    op: &O,
    firsts: Option<Ordering>,
    cmp: &mut C,
) -> Result<Went, AllocError>
    requires begins { Begins S.MergeStateMut C.order state.old firsts }
    requires made { C.count cmp.old < 2 ^ 127 }
    ensures stage { Stage S.MergeStateMut C.order (O.connective op.now) state.old state.new
        (ahead_of firsts) (C.count cmp.old) (C.count cmp.new) result }
    ensures turn { IfOk result (IfOn (λ next. IsTurn Less firsts next
        (length (S.left state.old) + length (S.right state.old))
        (length (S.left state.new) + length (S.right state.new)))) }
    ensures leaves { IfOk result (IfOn (λ next. Leaves Less firsts next
        (C.count cmp.old) (weight C.order (S.left state.old) (S.right state.old))
        (C.count cmp.new) (weight C.order (S.left state.new) (S.right state.new)))) }
{
    if !stand(firsts, Ordering::Less) {
        return Ok(Went::On(firsts));
    }
    let take = op.takes_a(state.bc());
    let run = left_run(state, take, cmp);
    if !advance_left(state, run.len, take)? {
        return Ok(Went::Stopped);
    }
    Ok(Went::On(run.next))
}

// Takes or drops the first run, where it is of the right list.
#[inline(always)]
fn step_right<S: MergeStateMut, O: MergeOperation, C: Compare<S::Item>>(
    state: &mut S,
    op: &O,
    firsts: Option<Ordering>,
    cmp: &mut C,
) -> Result<Went, AllocError>
    requires begins { Begins S.MergeStateMut C.order state.old firsts }
    requires made { C.count cmp.old < 2 ^ 127 }
    ensures stage { Stage S.MergeStateMut C.order (O.connective op.now) state.old state.new
        (ahead_of firsts) (C.count cmp.old) (C.count cmp.new) result }
    ensures turn { IfOk result (IfOn (λ next. IsTurn Greater firsts next
        (length (S.left state.old) + length (S.right state.old))
        (length (S.left state.new) + length (S.right state.new)))) }
    ensures leaves { IfOk result (IfOn (λ next. Leaves Greater firsts next
        (C.count cmp.old) (weight C.order (S.left state.old) (S.right state.old))
        (C.count cmp.new) (weight C.order (S.left state.new) (S.right state.new)))) }
{
    if !stand(firsts, Ordering::Greater) {
        return Ok(Went::On(firsts));
    }
    let take = op.takes_b(state.ac());
    let run = right_run(state, take, cmp);
    if !advance_right(state, run.len, take)? {
        return Ok(Went::Stopped);
    }
    Ok(Went::On(run.next))
}

/// Whether the first items stand so to one another.
#[inline(always)]
pub(crate) fn stand(firsts: Option<Ordering>, how: Ordering) -> bool
    ensures { IsTrue result ↔ (firsts ≡ Some how) }
{
    firsts == Some(how)
}

/// Takes or drops what is left where one list is used up: it is one run, and needs no comparison.
#[inline(always)]
pub(crate) fn take_rest<S: MergeStateMut, O: MergeOperation>(
    state: &mut S,
    op: &O,
) -> Result<bool, AllocError>
    requires used_up { 1 ≤ length (S.left state.old) → length (S.right state.old) ≡ 0 }
    ensures left { 1 ≤ length (S.left state.old) →
        Ran S.MergeStateMut (Left (length (S.left state.old)))
        (takes (O.connective op.now) (S.left_on state.old) (S.right_on state.old)
        (Left (length (S.left state.old)))) state.old state.new result }
    ensures right { 1 ≤ length (S.right state.old) →
        Ran S.MergeStateMut (Right (length (S.right state.old)))
        (takes (O.connective op.now) (S.left_on state.old) (S.right_on state.old)
        (Right (length (S.right state.old)))) state.old state.new result }
    ensures nothing { length (S.left state.old) ≡ 0 → length (S.right state.old) ≡ 0 →
        (result ≡ Ok true) × (state.new ≡ state.old) }
    ensures used_up { IfOk result (λ more.
        more ≡ true → (S.left state.new ≡ []) × (S.right state.new ≡ [])) }
{
    match (state.a_len(), state.b_len()) {
        (0, 0) => Ok(true),
        (0, n) => {
            let take = op.takes_b(state.ac());
            state.advance_b(n, take)
        }
        (n, _) => {
            let take = op.takes_a(state.bc());
            state.advance_a(n, take)
        }
    }
}

// The first run, which is of the left list. Where the state stops at it, its first item is enough.
#[inline(always)]
fn left_run<S: MergeStateMut, C: Compare<S::Item>>(state: &S, take: bool, cmp: &mut C) -> Below
    requires begins { Begins S.MergeStateMut C.order state.now (Some Less) }
    requires made { C.count cmp.old < 2 ^ 127 }
    ensures { IsFirstRun C.order (Left result.len) (S.left state.now) (S.right state.now)
        result.next (not (S.can_stop && take)) 1 (C.count cmp.old) (C.count cmp.new) }
{
    if take && state.stops() {
        return Below { len: 1, next: None };
    }
    gallop(&LeftOf(state), state.b_at(0), cmp)
}

// The first run, which is of the right list. Where the state stops at it, its first item is enough.
#[inline(always)]
fn right_run<S: MergeStateMut, C: Compare<S::Item>>(state: &S, take: bool, cmp: &mut C) -> Below
    requires begins { Begins S.MergeStateMut C.order state.now (Some Greater) }
    requires made { C.count cmp.old < 2 ^ 127 }
    ensures { IsFirstRun C.order (Right result.len) (S.left state.now) (S.right state.now)
        result.next (not (S.can_stop && take)) 1 (C.count cmp.old) (C.count cmp.new) }
{
    if take && state.stops() {
        return Below { len: 1, next: None };
    }
    let run = gallop(&RightOf(state), state.a_at(0), cmp);
    Below {
        len: run.len,
        next: reversed(run.next),
    }
}

// Runs of one item have a call of their own, since most runs are.
#[inline(always)]
fn advance_left<S: MergeStateMut>(state: &mut S, n: usize, take: bool) -> Result<bool, AllocError>
    requires some { 1 ≤ n }
    requires within { n ≤ length (S.left state.old) }
    ensures { Ran S.MergeStateMut (Left n) take state.old state.new result }
{
    if n == 1 {
        return state.advance_a(1, take);
    }
    state.advance_a(n, take)
}

// Runs of one item have a call of their own, since most runs are.
#[inline(always)]
fn advance_right<S: MergeStateMut>(state: &mut S, n: usize, take: bool) -> Result<bool, AllocError>
    requires some { 1 ≤ n }
    requires within { n ≤ length (S.right state.old) }
    ensures { Ran S.MergeStateMut (Right n) take state.old state.new result }
{
    if n == 1 {
        return state.advance_b(1, take);
    }
    state.advance_b(n, take)
}
