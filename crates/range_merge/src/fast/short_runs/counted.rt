//! Short runs of two slices of which only a number is wanted, read without a branch on what is
//! compared.
//!
//! Nothing is copied: a step compares two items where they lie, so items may be of any type. As in
//! a read item by item both slices begin at even places of the whole lists, and so does each window
//! on them.
ghost use Rattle.std.specs.Prelude.{◌≡◌, IsTrue, ◌+◌, ◌-◌, ◌*◌, ◌^◌, ◌<◌, ◌≤◌, false, length, drop, Some};
ghost use Rattle.range_merge.specs.Boundaries.{IsAscending};
ghost use Rattle.range_merge.specs.Counted.{Counts, IsCounted};
ghost use Rattle.range_merge.specs.Connective.{differ};
ghost use Rattle.range_merge.specs.Stages.{Progress};
ghost use Rattle.range_merge.specs.Reading.{CostsAtMost};
ghost use Rattle.range_merge.specs.Runs.{weight};
ghost use Rattle.range_merge.specs.ShortRuns.{odd_from, place, IsStep, AreFour, IsLooked, AreSixteen};
ghost use Rattle.range_merge.specs.OneRun.{FirstsStand};

use crate::compare::{Compare, Done, Work};
use crate::fast::rounds::{Rounds, are_few};
use crate::fast::short_runs::copied::{Looked, is_long, takes_left};
use crate::fast::short_runs::{ReadSoFar, ShortRuns};
use crate::merge_state::MergeState;
use crate::merge_state::over_slices::SliceMergeState;
use crate::operations::MergeOperation;
use crate::searching::is_word;
use std::cmp::Ordering;

/// Counts short runs, where items are read fast.
#[derive(Drop)]
pub(crate) struct CountingReader {
    rounds: Rounds,
    // Whether there are many items, each a word at most: else it mostly points to what is compared,
    // and a run's comparisons cost more than a branch.
    is_fast: bool,
}

impl CountingReader {
    /// A reader for the items of a state.
    #[inline(always)]
    pub(crate) fn of<S: MergeState>(state: &S) -> Self {
        CountingReader {
            rounds: Rounds::new(),
            is_fast: !are_few(state) && is_word(state.a_at(0)),
        }
    }
}

impl<'a, K, O: MergeOperation, C: Compare<K>> ShortRuns<SliceMergeState<'a, K, usize>, O, C>
    for CountingReader {
    #[inline(always)]
    fn rounds(&self) -> Option<u32> {
        if self.is_fast {
            Some(self.rounds.count())
        } else {
            None
        }
    }

    #[inline(always)]
    fn read(
        &mut self,
        state: &mut SliceMergeState<'a, K, usize>,
        op: &O,
        next: Ordering,
        cmp: &mut C,
    ) -> Ordering {
        if are_few(state) {
            return next;
        }
        if self.rounds.were_long(state.a_len()) {
            return next;
        }
        // There is an item before the first unread one where an odd number was read.
        let Some(a) = state.a.from_even(state.ac) else {
            return next;
        };
        let Some(b) = state.b.from_even(state.bc) else {
            return next;
        };
        let at = count_short_runs(state, a, b, op, next, cmp);
        self.rounds.learn(at);
        at.next
    }
}

// Counts short runs of a state, whose unread items are given from the last even places on, and
// returns how many items were read.
#[inline(always)]
fn count_short_runs<K, O: MergeOperation, C: Compare<K>>(
    state: &mut SliceMergeState<'_, K, usize>,
    a: &[K],
    b: &[K],
    op: &O,
    next: Ordering,
    cmp: &mut C,
) -> ReadSoFar
    requires lefts { drop (odd_from state.old.left_on) a.now ≡ state.old.left }
    requires rights { drop (odd_from state.old.right_on) b.now ≡ state.old.right }
    requires stands { FirstsStand C.order state.old.left state.old.right (Some next) }
    requires left_ascending { IsAscending C.order state.old.left }
    requires right_ascending { IsAscending C.order state.old.right }
    requires made { C.count cmp.old < 2 ^ 126 }
    ensures left { state.new.left ≡ drop result.i state.old.left }
    ensures right { state.new.right ≡ drop result.j state.old.right }
    ensures fixed { state.new.fixed ≡ state.old.fixed }
    ensures progress { Progress C.order (O.connective op.now) false
        state.old.left state.old.right state.old.left_on state.old.right_on
        (λ ts. state.old.taken ≡ length ts)
        state.new.left state.new.right state.new.left_on state.new.right_on
        (λ ts. state.new.taken ≡ length ts) }
    ensures stands { FirstsStand C.order state.new.left state.new.right (Some result.next) }
    ensures comparisons { C.count cmp.new + 2 * weight C.order state.new.left state.new.right
        ≤ C.count cmp.old + 2 * weight C.order state.old.left state.old.right + 6 }
    ensures made { C.count cmp.old ≤ C.count cmp.new }
{
    let from = ReadSoFar::unread(state.ac, state.bc, next);
    // By value, so that the merge can keep its own counter in registers.
    let at = cmp.apart(&mut Counting { a, b, from, op });
    let read = at.since(from);
    state.a.drop_front(read.i);
    state.b.drop_front(read.j);
    state.ac = at.i % 2 == 1;
    state.bc = at.j % 2 == 1;
    state.output += at.k;
    read
}

// What is to be counted.
#[derive(Drop)]
struct Counting<'r, K, O: MergeOperation> {
    a: &'r [K],
    b: &'r [K],
    from: ReadSoFar,
    op: &'r O,
}

impl<'r, K, O: MergeOperation, C: Compare<K>> Work<K, C> for Counting<'r, K, O> {
    type Answer = ReadSoFar;

    ghost is_ready = { λ it.
        IsAscending C.order (drop it.from.i it.a.now)
        × IsAscending C.order (drop it.from.j it.b.now)
        × FirstsStand C.order (drop it.from.i it.a.now) (drop it.from.j it.b.now) (Some it.from.next)
        × (length (drop it.from.i it.a.now) + length (drop it.from.j it.b.now) < 2 ^ 64)
        × (it.from.k ≡ 0) };

    ghost is_done = { λ it _ n at.
        IsCounted C.order (O.connective it.op.now) it.a.now it.b.now
        it.from.i it.from.j at.i at.j at.k at.next
        × (at.k + (it.from.i + it.from.j) ≤ at.i + at.j)
        × CostsAtMost C.order it.a.now it.b.now it.from.i it.from.j at.i at.j n };

    #[inline(always)]
    fn run(&mut self, cmp: C) -> Done<C, ReadSoFar> {
        read_apart(self.a, self.b, self.from, self.op, cmp)
    }

    #[inline(always)]
    fn undone(&self) -> ReadSoFar {
        self.from
    }
}

// Counts short runs, and what it compares in a counter of its own.
#[inline(never)]
fn read_apart<K, O: MergeOperation, C: Compare<K>>(
    a: &[K],
    b: &[K],
    from: ReadSoFar,
    op: &O,
    cmp: C,
) -> Done<C, ReadSoFar>
    requires left_ascending { IsAscending C.order (drop from.i a.now) }
    requires right_ascending { IsAscending C.order (drop from.j b.now) }
    requires stands { FirstsStand C.order (drop from.i a.now) (drop from.j b.now)
        (Some from.next) }
    requires fits { length (drop from.i a.now) + length (drop from.j b.now) < 2 ^ 64 }
    requires made { C.count cmp < 2 ^ 126 }
    ensures read { IsCounted C.order (O.connective op.now) a.now b.now from.i from.j
        result.answer.i result.answer.j result.answer.k result.answer.next }
    ensures comparisons { C.count result.cmp
        + 2 * weight C.order (drop result.answer.i a.now) (drop result.answer.j b.now)
        ≤ C.count cmp + 2 * weight C.order (drop from.i a.now) (drop from.j b.now) + 6 }
    ensures made { C.count cmp ≤ C.count result.cmp }
    ensures at_most { result.answer.k + (from.i + from.j) ≤ result.answer.i + result.answer.j }
{
    let mut cmp = cmp;
    let answer = count_runs(a, b, from, op, &mut cmp);
    Done { cmp, answer }
}

// Whether the result differs from the one where both sides are off.
#[inline(always)]
fn is_on<O: MergeOperation>(op: &O, ac: bool, bc: bool) -> bool
    ensures { result ≡ differ (O.connective op.now false false) (O.connective op.now ac bc) }
{
    (ac & takes_left(op, bc)) != (bc & op.takes_b(false))
}

// Reads the first item, or one of each list where they are equal, and compares the next two.
#[inline(always)]
fn step<K, O: MergeOperation, C: Compare<K>>(
    a: &[K],
    b: &[K],
    at: ReadSoFar,
    op: &O,
    cmp: &mut C,
) -> ReadSoFar
    requires left_some { at.i + 1 < length a.now }
    requires right_some { at.j + 1 < length b.now }
    requires room { at.k + 1 < 2 ^ 64 }
    requires made { C.count cmp.old < 2 ^ 128 - 1 }
    ensures step { Counts (IsStep (λ x y. x ≡ y) C.order (O.connective op.now) a.now b.now)
        at.k result.k (λ out. place at.i at.j out at.next false (C.count cmp.old))
        (λ out. place result.i result.j out result.next false (C.count cmp.new)) }
    ensures left_within { result.i ≤ at.i + 1 }
    ensures right_within { result.j ≤ at.j + 1 }
    ensures within { result.k ≤ at.k + 1 }
    ensures at_most { result.k + (at.i + at.j) ≤ at.k + (result.i + result.j) }
    ensures counted { C.count cmp.new ≡ C.count cmp.old + 1 }
{
    let i = at.i + at.next.is_le() as usize;
    let j = at.j + at.next.is_ge() as usize;
    let on = is_on(op, i % 2 == 1, j % 2 == 1);
    let takes = on != is_on(op, at.i % 2 == 1, at.j % 2 == 1);
    let k = at.k + takes as usize;
    let next = cmp.compare(&a[i], &b[j]);
    ReadSoFar { i, j, k, next }
}

// Four steps, as many as a read makes between two looks at the length of a run.
#[inline(always)]
fn four_steps<K, O: MergeOperation, C: Compare<K>>(
    a: &[K],
    b: &[K],
    at: ReadSoFar,
    op: &O,
    cmp: &mut C,
) -> ReadSoFar
    requires left_some { at.i + 4 < length a.now }
    requires right_some { at.j + 4 < length b.now }
    requires room { at.k + 4 < 2 ^ 64 }
    requires made { C.count cmp.old + 4 < 2 ^ 128 }
    ensures steps { Counts (AreFour (λ x y. x ≡ y) C.order (O.connective op.now) a.now b.now)
        at.k result.k (λ out. place at.i at.j out at.next false (C.count cmp.old))
        (λ out. place result.i result.j out result.next false (C.count cmp.new)) }
    ensures left_within { result.i ≤ at.i + 4 }
    ensures right_within { result.j ≤ at.j + 4 }
    ensures within { result.k ≤ at.k + 4 }
    ensures at_most { result.k + (at.i + at.j) ≤ at.k + (result.i + result.j) }
    ensures counted { C.count cmp.new ≡ C.count cmp.old + 4 }
{
    let one = step(a, b, at, op, cmp);
    let two = step(a, b, one, op, cmp);
    let three = step(a, b, two, op, cmp);
    step(a, b, three, op, cmp)
}

// Four steps more and a look, unless a run was long at the last one.
#[inline(always)]
fn four_more<K, O: MergeOperation, C: Compare<K>>(
    a: &[K],
    b: &[K],
    from: Looked,
    op: &O,
    cmp: &mut C,
) -> Looked
    requires left_some { from.at.i + 4 < length a.now }
    requires right_some { from.at.j + 4 < length b.now }
    requires room { from.at.k + 4 < 2 ^ 64 }
    requires made { C.count cmp.old + 4 < 2 ^ 128 }
    ensures looked { Counts (IsLooked (λ x y. x ≡ y) C.order (O.connective op.now) a.now b.now)
        from.at.k result.at.k
        (λ out. place from.at.i from.at.j out from.at.next from.is_long (C.count cmp.old))
        (λ out. place result.at.i result.at.j out result.at.next result.is_long
        (C.count cmp.new)) }
    ensures left_within { result.at.i ≤ from.at.i + 4 }
    ensures right_within { result.at.j ≤ from.at.j + 4 }
    ensures within { result.at.k ≤ from.at.k + 4 }
    ensures at_most { result.at.k + (from.at.i + from.at.j)
        ≤ from.at.k + (result.at.i + result.at.j) }
    ensures counted { C.count cmp.new ≤ C.count cmp.old + 4 }
{
    if from.is_long {
        return from;
    }
    let at = four_steps(a, b, from.at, op, cmp);
    // Two literals, so that no truth is kept where the read goes on.
    if is_long(from.at, at) {
        return Looked { at, is_long: true };
    }
    Looked { at, is_long: false }
}

// Up to sixteen steps from an even place of both slices, or the one after it, with a look after each
// four. A run that is long at a look ends them.
#[inline(always)]
fn sixteen_steps<K, O: MergeOperation, C: Compare<K>>(
    a: &[K],
    b: &[K],
    at: ReadSoFar,
    op: &O,
    cmp: &mut C,
) -> Looked
    requires left_some { 18 ≤ length a.now }
    requires right_some { 18 ≤ length b.now }
    requires left_few { at.i ≤ 1 }
    requires right_few { at.j ≤ 1 }
    requires room { at.k + 16 < 2 ^ 64 }
    requires made { C.count cmp.old + 16 < 2 ^ 128 }
    ensures steps { Counts (AreSixteen (λ x y. x ≡ y) C.order (O.connective op.now) a.now b.now)
        at.k result.at.k (λ out. place at.i at.j out at.next false (C.count cmp.old))
        (λ out. place result.at.i result.at.j out result.at.next result.is_long
        (C.count cmp.new)) }
    ensures left_within { result.at.i < length a.now }
    ensures right_within { result.at.j < length b.now }
    ensures at_most { result.at.k + (at.i + at.j) ≤ at.k + (result.at.i + result.at.j) }
{
    // The lengths of these are known, so each index is seen to be within them.
    let left = &a[..18];
    let right = &b[..18];
    let from = Looked {
        at: at.from_even(at.k),
        is_long: false,
    };
    let four = four_more(left, right, from, op, cmp);
    let eight = four_more(left, right, four, op, cmp);
    let twelve = four_more(left, right, eight, op, cmp);
    four_more(left, right, twelve, op, cmp)
}

// Whether there are unread items enough for sixteen steps from an even place on, or the one after
// it, of which each compares the next items.
#[inline(always)]
fn has_eighteen(lefts: usize, rights: usize) -> bool
    ensures lefts { IsTrue result → 18 ≤ lefts }
    ensures rights { IsTrue result → 18 ≤ rights }
{
    lefts >= 18 && rights >= 18
}

/// Reads items of both slices, one or both at a step, until a run is long or a slice is nearly used
/// up. Both slices begin at even places, and the read at `from`. It counts what is taken, and
/// returns how far it came.
///
/// It looks at the length of a run after each four steps, as a read item by item does.
#[inline(always)]
pub(crate) fn count_runs<K, O: MergeOperation, C: Compare<K>>(
    a: &[K],
    b: &[K],
    from: ReadSoFar,
    op: &O,
    cmp: &mut C,
) -> ReadSoFar
    requires left_ascending { IsAscending C.order (drop from.i a.now) }
    requires right_ascending { IsAscending C.order (drop from.j b.now) }
    requires stands { FirstsStand C.order (drop from.i a.now) (drop from.j b.now)
        (Some from.next) }
    requires fits { length (drop from.i a.now) + length (drop from.j b.now) < 2 ^ 64 }
    requires made { C.count cmp.old < 2 ^ 127 }
    ensures read { IsCounted C.order (O.connective op.now) a.now b.now from.i from.j
        result.i result.j result.k result.next }

    // Six more than twice the weight of what was read, if that.
    ensures comparisons { C.count cmp.new
        + 2 * weight C.order (drop result.i a.now) (drop result.j b.now)
        ≤ C.count cmp.old + 2 * weight C.order (drop from.i a.now) (drop from.j b.now) + 6 }
    ensures made { C.count cmp.old ≤ C.count cmp.new }
    ensures at_most { result.k + (from.i + from.j) ≤ result.i + result.j }
{
    let mut lefts = &a[from.i - from.i % 2..];
    let mut rights = &b[from.j - from.j % 2..];
    let mut at = from.from_even(0);
    while has_eighteen(lefts.len(), rights.len()) {
        let read = sixteen_steps(lefts, rights, at, op, cmp);
        if read.is_long {
            return read
                .at
                .behind(a.len() - lefts.len(), b.len() - rights.len());
        }
        lefts = &lefts[read.at.i - read.at.i % 2..];
        rights = &rights[read.at.j - read.at.j % 2..];
        at = read.at.from_even(read.at.k);
    }
    at.behind(a.len() - lefts.len(), b.len() - rights.len())
}
