//! What an operation makes of two maps: run by run, each step is put behind the others if its option
//! differs from the last one.
ghost use Rattle.std.specs.Prelude.{◌≡◌, ◌+◌, ◌*◌, ◌^◌, ◌<◌, ◌≤◌, None, length, IsOk, IfOk, OnOk};
ghost use Rattle.std.specs.List.{AllWithin};
ghost use Rattle.std.specs.declared.cmp.Ordering.TheVariants.{Less, Equal};
ghost use Rattle.range_merge.specs.Boundaries.{IsAscending};
ghost use Rattle.range_merge.specs.Counting.{AddsAtMost};
ghost use Rattle.range_merge.specs.Runs.{weight};
ghost use Rattle.range_map.specs.Steps.{IsCanonical};
ghost use Rattle.range_map.specs.Listed.{steps_of};
ghost use Rattle.range_map.specs.Changed.{IsCombined};
ghost use Rattle.range_map.specs.Combining.{IsRun, IsBelowFrom, IsMadeUpTo, left_len, right_len};

use crate::borrowed_steps::{BorrowedSteps, references};
use crate::map::RangeMap;
use crate::operation::MapOperation;
use crate::putting::put;
use crate::runs::{left_len, next_run, right_len};
use crate::step::Step;
use range_collections::{Comparisons, Copier, EntryClone, EntryCopier, Run};
use range_list::Chunks;
use std::alloc::{AllocError, Global};

// The steps of what the operation makes of both.
fn combined<K: Ord + Drop, V, W, O: MapOperation<V, W>, C: Copier<K>>(
    alloc: Global,
    a: &BorrowedSteps<K, V>,
    b: &BorrowedSteps<K, W>,
    op: &O,
    copier: &C,
    count: &mut Comparisons,
) -> Result<Vec<Step<K, O::Output>>, AllocError>
    requires off { O.gives op.now None None ≡ None }
    requires a_ascends { IsAscending K.cmp a.now.keys }
    requires b_ascends { IsAscending K.cmp b.now.keys }
    requires made { count.old < 2 ^ 64 }
    requires copies { (x y : K) → C.alike x y → K.cmp x y ≡ Equal }
    ensures made { IfOk result (λ list. IsMadeUpTo K.cmp O.Output.eq (O.gives op.now) a.now b.now
        (length a.now.keys) (length b.now.keys) (steps_of list.items)) }
    ensures comparisons { AddsAtMost count.old count.new
        (2 * weight K.cmp a.now.keys b.now.keys) }
{
    let mut list = Vec::new(alloc);
    let a_len = a.len();
    let b_len = b.len();
    let mut i = 0;
    let mut j = 0;
    while i < a_len && j < b_len {
        let run = next_run(a, i, b, j, count);
        put_run(&mut list, a, i, b, j, run, op, copier)?;
        i += left_len(run);
        j += right_len(run);
    }
    put_left(&mut list, a, i, a_len, b, j, op, copier)?;
    put_right(&mut list, a, a_len, b, j, b_len, op, copier)?;
    Ok(list)
}

// Puts the steps of a run.
#[inline]
fn put_run<K: Ord + Drop, V, W, O: MapOperation<V, W>, C: Copier<K>>(
    list: &mut Vec<Step<K, O::Output>>,
    a: &BorrowedSteps<K, V>,
    i: usize,
    b: &BorrowedSteps<K, W>,
    j: usize,
    run: Run,
    op: &O,
    copier: &C,
) -> Result<(), AllocError>
    requires run { IsRun K.cmp a.now.keys i b.now.keys j run }
    requires left_within { i ≤ length a.now.keys }
    requires right_within { j ≤ length b.now.keys }
    requires a_few { length a.now.keys < 2 ^ 64 }
    requires b_few { length b.now.keys < 2 ^ 64 }
    requires a_ascends { IsAscending K.cmp a.now.keys }
    requires b_ascends { IsAscending K.cmp b.now.keys }
    requires made { IsMadeUpTo K.cmp O.Output.eq (O.gives op.now) a.now b.now i j (steps_of list.old.items) }
    requires copies { (x y : K) → C.alike x y → K.cmp x y ≡ Equal }
    ensures { OnOk result (IsMadeUpTo K.cmp O.Output.eq (O.gives op.now) a.now b.now
        (i + left_len run) (j + right_len run) (steps_of list.new.items)) }
{
    match run {
        Run::Left(n) => put_left(list, a, i, i + n, b, j, op, copier),
        Run::Right(n) => put_right(list, a, i, b, j, j + n, op, copier),
        Run::Both => put_both(list, a, i, b, j, op, copier),
    }
}

// Puts the left's steps from a place up to another, which are below the right's from place `j` on.
#[inline]
fn put_left<K: Ord + Drop, V, W, O: MapOperation<V, W>, C: Copier<K>>(
    list: &mut Vec<Step<K, O::Output>>,
    a: &BorrowedSteps<K, V>,
    i: usize,
    to: usize,
    b: &BorrowedSteps<K, W>,
    j: usize,
    op: &O,
    copier: &C,
) -> Result<(), AllocError>
    requires ordered { i ≤ to }
    requires left_within { to ≤ length a.now.keys }
    requires right_within { j ≤ length b.now.keys }
    requires below { AllWithin (IsBelowFrom K.cmp b.now.keys j) a.now.keys i to }
    requires a_ascends { IsAscending K.cmp a.now.keys }
    requires b_ascends { IsAscending K.cmp b.now.keys }
    requires made { IsMadeUpTo K.cmp O.Output.eq (O.gives op.now) a.now b.now i j (steps_of list.old.items) }
    requires copies { (x y : K) → C.alike x y → K.cmp x y ≡ Equal }
    ensures made { OnOk result (IsMadeUpTo K.cmp O.Output.eq (O.gives op.now) a.now b.now to j (steps_of list.new.items)) }
{
    for n in i..to {
        let option = op.apply(a.option_before(n + 1), b.option_before(j))?;
        put(None, list, a.key(n), option, copier)?;
    }
    Ok(())
}

// Puts the right's steps from a place up to another, which are below the left's from place `i` on.
#[inline]
fn put_right<K: Ord + Drop, V, W, O: MapOperation<V, W>, C: Copier<K>>(
    list: &mut Vec<Step<K, O::Output>>,
    a: &BorrowedSteps<K, V>,
    i: usize,
    b: &BorrowedSteps<K, W>,
    j: usize,
    to: usize,
    op: &O,
    copier: &C,
) -> Result<(), AllocError>
    requires ordered { j ≤ to }
    requires left_within { i ≤ length a.now.keys }
    requires right_within { to ≤ length b.now.keys }
    requires below { AllWithin (IsBelowFrom K.cmp a.now.keys i) b.now.keys j to }
    requires a_ascends { IsAscending K.cmp a.now.keys }
    requires b_ascends { IsAscending K.cmp b.now.keys }
    requires made { IsMadeUpTo K.cmp O.Output.eq (O.gives op.now) a.now b.now i j (steps_of list.old.items) }
    requires copies { (x y : K) → C.alike x y → K.cmp x y ≡ Equal }
    ensures made { OnOk result (IsMadeUpTo K.cmp O.Output.eq (O.gives op.now) a.now b.now i to (steps_of list.new.items)) }
{
    for n in j..to {
        let option = op.apply(a.option_before(i), b.option_before(n + 1))?;
        put(None, list, b.key(n), option, copier)?;
    }
    Ok(())
}

// Puts one step of both, whose keys are equal.
#[inline]
fn put_both<K: Ord + Drop, V, W, O: MapOperation<V, W>, C: Copier<K>>(
    list: &mut Vec<Step<K, O::Output>>,
    a: &BorrowedSteps<K, V>,
    i: usize,
    b: &BorrowedSteps<K, W>,
    j: usize,
    op: &O,
    copier: &C,
) -> Result<(), AllocError>
    requires run { IsRun K.cmp a.now.keys i b.now.keys j Run.Both }
    requires a_few { length a.now.keys < 2 ^ 64 }
    requires b_few { length b.now.keys < 2 ^ 64 }
    requires a_ascends { IsAscending K.cmp a.now.keys }
    requires b_ascends { IsAscending K.cmp b.now.keys }
    requires made { IsMadeUpTo K.cmp O.Output.eq (O.gives op.now) a.now b.now i j (steps_of list.old.items) }
    requires copies { (x y : K) → C.alike x y → K.cmp x y ≡ Equal }
    ensures { OnOk result (IsMadeUpTo K.cmp O.Output.eq (O.gives op.now) a.now b.now (i + 1) (j + 1) (steps_of list.new.items)) }
{
    let option = op.apply(a.option_before(i + 1), b.option_before(j + 1))?;
    put(None, list, a.key(i), option, copier)
}

impl<K: EntryClone + Drop, V: Eq> RangeMap<K, V> {
    /// The map that gives each key what the operation makes of its values in both maps.
    ///
    /// ```text
    /// let both = bookings.combine(alloc, &repairs, &Overlap, &mut Comparisons::new())?;
    /// ```
    ///
    /// The operation is asked once for each step of either map. It must give nothing where both
    /// have nothing. It makes at most twice as many comparisons of keys as the weight of both lists
    /// of keys. It asks for memory for a reference to each step, and as the result grows.
    pub fn combine<W: Eq, O: MapOperation<V, W>>(
        &self,
        alloc: Global,
        that: &RangeMap<K, W>,
        op: &O,
        count: &mut Comparisons,
    ) -> Result<RangeMap<K, O::Output>, AllocError>
        requires off { O.gives op.now None None ≡ None }
        requires made { count.old < 2 ^ 64 }
        ensures values { IfOk result (λ map.
            IsCombined K.cmp O.Output.eq (O.gives op.now) self.now that.now map) }
        ensures comparisons { AddsAtMost count.old count.new
            (2 * weight K.cmp self.now.keys that.now.keys) }
        ensures succeeds { length self.now.keys ≡ 0 → length that.now.keys ≡ 0 → IsOk result }
    {
        self.combine_by(alloc, that, op, &EntryCopier, count)
    }
}

impl<K: Ord + Drop, V: Eq> RangeMap<K, V> {
    // What the operation makes of both maps, with copies of keys by any copier.
    pub(crate) fn combine_by<W: Eq, O: MapOperation<V, W>, C: Copier<K>>(
        &self,
        alloc: Global,
        that: &RangeMap<K, W>,
        op: &O,
        copier: &C,
        count: &mut Comparisons,
    ) -> Result<RangeMap<K, O::Output>, AllocError>
        requires off { O.gives op.now None None ≡ None }
        requires made { count.old < 2 ^ 64 }
        requires copies { (x y : K) → C.alike x y → K.cmp x y ≡ Equal }
        ensures values { IfOk result (λ map.
            IsCombined K.cmp O.Output.eq (O.gives op.now) self.now that.now map) }
        ensures comparisons { AddsAtMost count.old count.new
            (2 * weight K.cmp self.now.keys that.now.keys) }
        ensures succeeds { length self.now.keys ≡ 0 → length that.now.keys ≡ 0 → IsOk result }
    {
        if self.steps.is_empty() && that.steps.is_empty() {
            return Ok(RangeMap::new(alloc));
        }
        let left = references(alloc, &self.steps)?;
        let right = references(alloc, &that.steps)?;
        let list = combined(
            alloc,
            &BorrowedSteps::new(&left),
            &BorrowedSteps::new(&right),
            op,
            copier,
            count,
        )?;
        RangeMap::of_steps(list)
    }
}

impl<K: Ord + Drop, V: Eq + Drop> RangeMap<K, V> {
    // The map of these steps, which are moved.
    #[inline]
    pub(crate) fn of_steps(list: Vec<Step<K, V>>) -> Result<Self, AllocError>
        requires { IsCanonical K.cmp V.eq (steps_of list.items) }
        ensures { IfOk result (λ map. map ≡ steps_of list.items) }
    {
        let steps = Chunks::from_list(list)?;
        Ok(RangeMap { steps })
    }
}
