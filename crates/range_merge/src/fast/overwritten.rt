//! A merge of plain data that writes over what a slice holds, from its front.
ghost use Rattle.std.specs.Prelude.{◌≡◌, ◌+◌, ◌*◌, ◌^◌, ◌<◌, ◌≤◌, false, length, take, drop, Some, All, IsOk, OnOk, ⊤};
ghost use Rattle.std.specs.List.{AllZip};
ghost use Rattle.range_merge.specs.Boundaries.{IsAscending};
ghost use Rattle.range_merge.specs.Changes.{changes};
ghost use Rattle.range_merge.specs.Copies.{AreCopies};
ghost use Rattle.range_merge.specs.Counting.{AddsAtMost};
ghost use Rattle.range_merge.specs.Runs.{weight};
ghost use Rattle.range_merge.specs.ShortRuns.{IsRead};
ghost use Rattle.range_merge.specs.Reading.{CanRead};

use crate::compare::{Compare, Copier, Done};
use crate::fast::short_runs::copied::copy_runs;
use crate::fast::short_runs::into_output::{CopyingReader, Room};
use crate::fast::short_runs::{ReadSoFar, merge_reading};
use crate::merge_state::buffer::take_back;
use crate::merge_state::over_slices::{COPIED_AT_ONCE, Output, SliceMergeState};
use crate::merging;
use crate::operations::MergeOperation;
use std::alloc::AllocError;

/// A slice that is written over from its front. It has room for all that it is given.
#[derive(Drop)]
pub struct Overwritten<'o, K> {
    items: &'o mut [K],
    given: usize,
}

impl<'o, 'p, K: Drop, P: Copier<K>> Output<K, &'p P> for Overwritten<'o, K> {
    ghost may_be = { λ over slice ts. (over.items.ghost_name ≡ slice) × AreCopies P.alike ts (take over.given over.items.now) };

    ghost fixed = { λ over _. over.items.ghost_name };

    ghost can_stop = { false };

    ghost fits = { λ over n. over.given + n ≤ length over.items.now };

    ghost has_room = { λ _ _. ⊤ };

    ghost is_infallible = { P.is_infallible };

    #[inline(always)]
    fn append(&mut self, items: &[K], take: bool, by: &&'p P) -> Result<bool, AllocError> {
        if take {
            write_copies(&mut self.items[self.given..], items, *by)?;
            self.given += items.len();
        }
        Ok(true)
    }
}

impl<'o, 'p, K: Drop, P: Copier<K>, O: MergeOperation, C: Compare<K>> Room<K, &'p P, P, O, C>
    for Overwritten<'o, K> {
    #[inline(always)]
    fn read(
        &mut self,
        a: &[K],
        b: &[K],
        from: ReadSoFar,
        op: &O,
        copier: &P,
        cmp: C,
        _n: usize,
    ) -> Done<C, ReadSoFar> {
        let read = read_over(&mut self.items[self.given..], cmp, a, b, from, op, copier);
        self.given += read.answer.k;
        read
    }
}

/// Writes copies of the items at which the connective of `op` changes between two strictly sorted
/// lists of plain data to the front of `out`, which has room for both lengths, and returns how many
/// they are. It takes no memory.
pub(crate) fn overwrite<K: Drop, P: Copier<K>, O: MergeOperation, C: Compare<K>>(
    out: &mut [K],
    a: &[K],
    b: &[K],
    copier: &P,
    op: &O,
    cmp: &mut C,
) -> usize
    requires left_ascending { IsAscending C.order a.now }
    requires right_ascending { IsAscending C.order b.now }
    requires room { length a.now + length b.now ≤ length out.old }
    requires infallible { (x : K) → P.is_infallible x }
    requires made { C.count cmp.old < 2 ^ 64 }
    ensures copied { AreCopies P.alike (changes C.order (O.connective op.now) a.now b.now) (take result out.new) }
    ensures comparisons { AddsAtMost (C.count cmp.old) (C.count cmp.new) (2 * weight C.order a.now b.now) }
{
    let Overwritten { items, given } = with_changes(a, b, out, copier, op, cmp);
    take_back(items);
    given
}

// The slice, with the items at which the connective changes at its front.
fn with_changes<'o, K: Drop, P: Copier<K>, O: MergeOperation, C: Compare<K>>(
    a: &[K],
    b: &[K],
    out: &'o mut [K],
    copier: &P,
    op: &O,
    cmp: &mut C,
) -> Overwritten<'o, K>
    requires left_ascending { IsAscending C.order a.now }
    requires right_ascending { IsAscending C.order b.now }
    requires room { length a.now + length b.now ≤ length out.old }
    requires infallible { (x : K) → P.is_infallible x }
    requires made { C.count cmp.old < 2 ^ 64 }
    ensures borrowed { result.items.ghost_name ≡ out.entry.ghost_name }
    ensures copied { AreCopies P.alike (changes C.order (O.connective op.now) a.now b.now) (take result.given result.items.now) }
    ensures comparisons { AddsAtMost (C.count cmp.old) (C.count cmp.new) (2 * weight C.order a.now b.now) }
{
    let mut state = SliceMergeState::over(
        a,
        b,
        Overwritten {
            items: out,
            given: 0,
        },
        copier,
    );
    // Nothing is lost: there is room for all, and no copy fails.
    let _ = match CopyingReader::of(copier) {
        Some(mut reader) => merge_reading(&mut state, op, cmp, &mut reader),
        None => merging::merge(&mut state, op, cmp),
    };
    state.result()
}

// Reads short runs to the front of the slice. What stands behind them may change.
#[inline(never)]
fn read_over<K: Drop, P: Copier<K>, O: MergeOperation, C: Compare<K>>(
    out: &mut [K],
    cmp: C,
    a: &[K],
    b: &[K],
    from: ReadSoFar,
    op: &O,
    by: &P,
) -> Done<C, ReadSoFar>
    requires can_read { CanRead C.order P.alike P.is_infallible (drop from.i a.now) (drop from.j b.now)
        from.next }
    requires made { C.count cmp < 2 ^ 126 }
    ensures read { IsRead P.alike C.order (O.connective op.now) a.now b.now from.i from.j
        result.answer.i result.answer.j (take result.answer.k out.new) result.answer.next }
    ensures within { result.answer.k ≤ length out.new }
    ensures at_most { result.answer.k + (from.i + from.j) ≤ result.answer.i + result.answer.j }
    ensures len { length out.new ≡ length out.old }
    ensures comparisons { C.count result.cmp
        + 2 * weight C.order (drop result.answer.i a.now) (drop result.answer.j b.now)
        ≤ C.count cmp + 2 * weight C.order (drop from.i a.now) (drop from.j b.now) + 6 }
    ensures made { C.count cmp ≤ C.count result.cmp }
{
    let mut cmp = cmp;
    let answer = copy_runs(a, b, from, op, by, &mut cmp, out, false);
    Done { cmp, answer }
}

// Writes a copy of each item to the front of `slots`.
#[inline(always)]
fn write_copies<K: Drop, P: Copier<K>>(
    slots: &mut [K],
    items: &[K],
    copier: &P,
) -> Result<(), AllocError>
    requires room { length items.now ≤ length slots.old }
    ensures len { length slots.new ≡ length slots.old }
    ensures copied { OnOk result (AllZip P.alike items.now (take (length items.now) slots.new)) }
    ensures succeeds { All P.is_infallible items.now → IsOk result }
{
    if items.len() < COPIED_AT_ONCE {
        write_each(slots, items, copier)
    } else {
        write_each(&mut slots[..items.len()], items, copier)
    }
}

// Writes a copy of each item to the front of `slots`, one by one.
#[inline(always)]
fn write_each<K: Drop, P: Copier<K>>(
    slots: &mut [K],
    items: &[K],
    copier: &P,
) -> Result<(), AllocError>
    requires room { length items.now ≤ length slots.old }
    ensures len { length slots.new ≡ length slots.old }
    ensures copied { OnOk result (AllZip P.alike items.now (take (length items.now) slots.new)) }
    ensures succeeds { All P.is_infallible items.now → IsOk result }
{
    for i in 0..items.len() {
        slots[i] = copier.copy(&items[i])?;
    }
    Ok(())
}
