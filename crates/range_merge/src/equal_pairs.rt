//! Items that stand in both lists. Pairs of equal ones are taken one by one, and after eight of
//! them the next eight are compared without a branch, and taken at once if all are equal.
ghost use Rattle.std.specs.Prelude.{◌≡◌, ◌+◌, ◌-◌, ◌*◌, ◌^◌, ◌<◌, ◌≤◌, true, not, ◌&&◌, List, ◌++◌, length, drop, Some, IsTrue, IsOk, OnOk, IfOk, if◌then◌else◌};
ghost use Rattle.std.specs.declared.cmp.Ordering.TheVariants.{Equal};
ghost use Rattle.range_merge.specs.Boundaries.{IsAscending};
ghost use Rattle.range_merge.specs.Changes.{Taken, taken_left};
ghost use Rattle.range_merge.specs.Stages.{Begins, IfOn, IsTurn, Leaves, Stage};
ghost use Rattle.range_merge.specs.Runs.{weight};
ghost use Rattle.range_merge.specs.OneRun.{ArePairs, FirstsStand, PairsGoOn, ahead_of};

use crate::compare::Compare;
use crate::merge_state::{MergeState, MergeStateMut};
use crate::merging::{Went, stand};
use crate::operations::MergeOperation;
use crate::runs::order_at;
use std::alloc::AllocError;
use std::cmp::Ordering;

// How many pairs are taken at once.
const EIGHT: usize = 8;

/// Takes or drops the first items, while they are equal.
#[inline(always)]
pub(crate) fn steps_both<S: MergeStateMut, O: MergeOperation, C: Compare<S::Item>>(
    state: &mut S,
    op: &O,
    mut firsts: Option<Ordering>,
    cmp: &mut C,
) -> Result<Went, AllocError>
    requires begins { Begins S.MergeStateMut C.order state.old firsts }
    requires fits { length (S.left state.old) + length (S.right state.old) < 2 ^ 65 }
    requires made { C.count cmp.old < 2 ^ 126 }
    ensures stage { Stage S.MergeStateMut C.order (O.connective op.now) state.old state.new
        (ahead_of firsts) (C.count cmp.old) (C.count cmp.new) result }
    ensures turn { IfOk result (IfOn (λ next. IsTurn Equal firsts next
        (length (S.left state.old) + length (S.right state.old))
        (length (S.left state.new) + length (S.right state.new)))) }
    ensures leaves { IfOk result (IfOn (λ next. Leaves Equal firsts next
        (C.count cmp.old) (weight C.order (S.left state.old) (S.right state.old))
        (C.count cmp.new) (weight C.order (S.left state.new) (S.right state.new)))) }
{
    let mut remaining = 0;
    while stand(firsts, Ordering::Equal) {
        let pairs = next_pairs(state, remaining, cmp);
        let Went::On(next) = step_pairs(state, op, pairs.eight, cmp)? else {
            return Ok(Went::Stopped);
        };
        firsts = next;
        remaining = pairs.remaining;
    }
    Ok(Went::On(firsts))
}

// Takes or drops the first items, or the first eight of each list, which are equal.
#[inline(always)]
fn step_pairs<S: MergeStateMut, O: MergeOperation, C: Compare<S::Item>>(
    state: &mut S,
    op: &O,
    eight: bool,
    cmp: &mut C,
) -> Result<Went, AllocError>
    requires begins { Begins S.MergeStateMut C.order state.old (Some Equal) }
    requires made { C.count cmp.old < 2 ^ 127 }
    requires pairs { IsTrue eight → ArePairs C.order 8 (S.left state.old) (S.right state.old) }
    requires go_on { IsTrue eight → PairsGoOn (O.connective op.now) S.can_stop
        (S.left_on state.old) (S.right_on state.old) }
    ensures stage { Stage S.MergeStateMut C.order (O.connective op.now) state.old state.new
        1 (C.count cmp.old) (C.count cmp.new) result }
    ensures shorter { IfOk result (IfOn (λ _.
        (length (S.left state.new) < length (S.left state.old))
        × (length (S.right state.new) < length (S.right state.old)))) }
    ensures go_on { IfOk result (IfOn (λ _. PairsGoOn (O.connective op.now) S.can_stop
        (S.left_on state.new) (S.right_on state.new))) }
    ensures leaves { IfOk result (IfOn (λ _. C.count cmp.new + (if eight then 15 else 1)
        + 2 * weight C.order (S.left state.new) (S.right state.new)
        ≤ C.count cmp.old + 2 * weight C.order (S.left state.old) (S.right state.old))) }
{
    if eight {
        return step_eight(state, op, cmp);
    }
    step_both(state, op, cmp)
}

// Takes or drops the first eight items of each list, which are equal.
#[inline(always)]
fn step_eight<S: MergeStateMut, O: MergeOperation, C: Compare<S::Item>>(
    state: &mut S,
    op: &O,
    cmp: &mut C,
) -> Result<Went, AllocError>
    requires pairs { ArePairs C.order 8 (S.left state.old) (S.right state.old) }
    requires go_on { PairsGoOn (O.connective op.now) S.can_stop
        (S.left_on state.old) (S.right_on state.old) }
    requires left_ascending { IsAscending C.order (S.left state.old) }
    requires right_ascending { IsAscending C.order (S.right state.old) }
    requires made { C.count cmp.old < 2 ^ 127 }
    ensures stage { Stage S.MergeStateMut C.order (O.connective op.now) state.old state.new
        1 (C.count cmp.old) (C.count cmp.new) result }
    ensures shorter { IfOk result (IfOn (λ _.
        (length (S.left state.new) + 8 ≡ length (S.left state.old))
        × (length (S.right state.new) + 8 ≡ length (S.right state.old)))) }
    ensures go_on { IfOk result (IfOn (λ _. PairsGoOn (O.connective op.now) S.can_stop
        (S.left_on state.new) (S.right_on state.new))) }
    ensures leaves { IfOk result (IfOn (λ _.
        C.count cmp.new + 15 + 2 * weight C.order (S.left state.new) (S.right state.new)
        ≤ C.count cmp.old + 2 * weight C.order (S.left state.old) (S.right state.old))) }
{
    let takes = op.takes_both(state.ac(), state.bc());
    match advance_eight(state, takes) {
        Ok(()) => Ok(Went::On(order_at(state, 0, cmp))),
        Err(error) => Err(error),
    }
}

// Takes or drops the first items, which are equal.
#[inline(always)]
fn step_both<S: MergeStateMut, O: MergeOperation, C: Compare<S::Item>>(
    state: &mut S,
    op: &O,
    cmp: &mut C,
) -> Result<Went, AllocError>
    requires begins { Begins S.MergeStateMut C.order state.old (Some Equal) }
    requires made { C.count cmp.old < 2 ^ 127 }
    ensures stage { Stage S.MergeStateMut C.order (O.connective op.now) state.old state.new
        1 (C.count cmp.old) (C.count cmp.new) result }
    ensures go_on { IfOk result (IfOn (λ _. PairsGoOn (O.connective op.now) S.can_stop
        (S.left_on state.new) (S.right_on state.new))) }
    ensures shorter { IfOk result (IfOn (λ _.
        (length (S.left state.new) + 1 ≡ length (S.left state.old))
        × (length (S.right state.new) + 1 ≡ length (S.right state.old)))) }
    ensures leaves { IfOk result (IfOn (λ _.
        C.count cmp.new + 1 + 2 * weight C.order (S.left state.new) (S.right state.new)
        ≤ C.count cmp.old + 2 * weight C.order (S.left state.old) (S.right state.old))) }
{
    let take = op.takes_both(state.ac(), state.bc());
    match state.advance_both(take) {
        Ok(true) => Ok(Went::On(order_at(state, 0, cmp))),
        Ok(false) => Ok(Went::Stopped),
        Err(error) => Err(error),
    }
}

// What comes next where the first items are equal.
#[derive(Clone, Copy)]
struct NextPairs {
    // Whether it is eight pairs, or one.
    eight: bool,
    // How many comparisons of those that twice the weight allows are left after them, or more.
    remaining: usize,
}

// Whether eight pairs come next. It looks if as many comparisons were left as that costs.
#[inline(always)]
fn next_pairs<S: MergeState, C: Compare<S::Item>>(
    state: &S,
    remaining: usize,
    cmp: &mut C,
) -> NextPairs
    requires first { FirstsStand C.order (S.left state.now) (S.right state.now) (Some Equal) }
    requires made { C.count cmp.old + 7 < 2 ^ 127 }
    ensures pairs { IsTrue result.eight →
        ArePairs C.order 8 (S.left state.now) (S.right state.now) }
    ensures some { 1 ≤ result.remaining }
    ensures went { IsTrue result.eight → 1 ≤ remaining }
    ensures made { C.count cmp.old ≤ C.count cmp.new }
    ensures at_most { C.count cmp.new ≤ C.count cmp.old + (remaining - 1) }
    ensures remaining { C.count cmp.new + result.remaining
        ≤ C.count cmp.old + remaining + (if result.eight then 15 else 1) }
{
    if remaining < EIGHT || state.a_len() < EIGHT || state.b_len() < EIGHT {
        return NextPairs {
            eight: false,
            remaining: remaining.min(EIGHT - 1) + 1,
        };
    }
    if are_eight(state, cmp) {
        return NextPairs {
            eight: true,
            remaining: EIGHT,
        };
    }
    NextPairs {
        eight: false,
        remaining: 2,
    }
}

// Whether the next seven pairs are equal, too.
#[inline(always)]
fn are_eight<S: MergeState, C: Compare<S::Item>>(state: &S, cmp: &mut C) -> bool
    requires first { FirstsStand C.order (S.left state.now) (S.right state.now) (Some Equal) }
    requires made { C.count cmp.old + 7 < 2 ^ 127 }
    ensures pairs { IsTrue result → ArePairs C.order 8 (S.left state.now) (S.right state.now) }
    ensures made { C.count cmp.old ≤ C.count cmp.new }
    ensures at_most { C.count cmp.new ≤ C.count cmp.old + 7 }
{
    let mut equal = true;
    for i in 1..EIGHT {
        equal = equal & (order_at(state, i, cmp) == Some(Ordering::Equal));
    }
    equal
}

// Removes eight items of each list, and appends the left's to the output if `take`, where the
// state doesn't stop at that.
#[inline(always)]
fn advance_eight<S: MergeStateMut>(state: &mut S, take: bool) -> Result<(), AllocError>
    requires lefts { 8 ≤ length (S.left state.old) }
    requires rights { 8 ≤ length (S.right state.old) }
    requires goes_on { true ≡ not (S.can_stop && take) }
    ensures unread_left { IfOk result (λ _. S.left state.new ≡ drop 8 (S.left state.old)) }
    ensures unread_right { IfOk result (λ _. S.right state.new ≡ drop 8 (S.right state.old)) }
    ensures left_on { IfOk result (λ _. S.left_on state.new ≡ S.left_on state.old) }
    ensures right_on { IfOk result (λ _. S.right_on state.new ≡ S.right_on state.old) }
    ensures output { IfOk result (λ _. (before : List (Taken S.Item)) → S.output state.old before →
        S.output state.new (before ++ taken_left take 8 (S.left state.old))) }
    ensures fixed { S.fixed state.new ≡ S.fixed state.old }
    ensures succeeds { S.is_infallible state.old → IsOk result }
    ensures still_infallible { S.is_infallible state.old →
        OnOk result (S.is_infallible state.new) }
{
    state.advance_a(EIGHT, take)?;
    state.advance_b(EIGHT, false)?;
    Ok(())
}
