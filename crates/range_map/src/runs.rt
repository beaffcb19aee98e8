//! The runs of the keys of two maps, each found with few comparisons.
ghost use Rattle.std.specs.Prelude.{◌≡◌, ◌+◌, ◌*◌, ◌^◌, ◌<◌, ◌≤◌, Some, length, drop, slice_get};
ghost use Rattle.range_merge.specs.Boundaries.{IsAscending};
ghost use Rattle.range_merge.specs.Counting.{AddsAtMost};
ghost use Rattle.range_merge.specs.Runs.{weight, runs, run_len, digits};
ghost use Rattle.range_map.specs.Combining.{IsRun, left_len, right_len};
ghost use Rattle.range_map.specs.Read.{steps_read};

use crate::borrowed_steps::BorrowedSteps;
use crate::step::Step;
use range_collections::{Comparisons, MergeState, Run, run_length};

// The steps of two maps that are unread.
#[derive(Drop)]
struct Unread<'a, 'l, 'r, K, V, W> {
    left: &'a [Step<&'l K, &'l V>],
    right: &'a [Step<&'r K, &'r W>],
}

impl<'a, 'l, 'r, K, V, W> MergeState for Unread<'a, 'l, 'r, K, V, W> {
    ghost use Rattle.range_map.specs.Read.{steps_read};

    type Item = K;

    ghost left = { λ s. (steps_read s.left.now).keys };

    ghost right = { λ s. (steps_read s.right.now).keys };

    #[inline(always)]
    fn a_len(&self) -> usize {
        self.left.len()
    }

    #[inline(always)]
    fn b_len(&self) -> usize {
        self.right.len()
    }

    #[inline(always)]
    fn a_at(&self, i: usize) -> &K {
        self.left[i].key
    }

    #[inline(always)]
    fn b_at(&self, i: usize) -> &K {
        self.right[i].key
    }
}

/// The first run of the keys from places `i` and `j` on.
#[inline(always)]
pub fn next_run<K: Ord, V, W>(
    a: &BorrowedSteps<'_, K, V>,
    i: usize,
    b: &BorrowedSteps<'_, K, W>,
    j: usize,
    count: &mut Comparisons,
) -> Run
    requires a_some { i < length a.now.keys }
    requires b_some { j < length b.now.keys }
    requires a_ascends { IsAscending K.cmp a.now.keys }
    requires b_ascends { IsAscending K.cmp b.now.keys }
    requires made { count.old < 2 ^ 127 }
    ensures run { IsRun K.cmp a.now.keys i b.now.keys j result }
    ensures onward { 0 < left_len result + right_len result }
    ensures at_least { count.old ≤ count.new }
    ensures paid { count.new + 2 * weight K.cmp (drop (i + left_len result) a.now.keys) (drop (j + right_len result) b.now.keys) ≤
        count.old + 2 * weight K.cmp (drop i a.now.keys) (drop j b.now.keys) }
{
    first_run(a.behind(i), b.behind(j), count)
}

// The first run of two lists of steps.
#[inline(always)]
fn first_run<K: Ord, V, W>(a: &[Step<&K, &V>], b: &[Step<&K, &W>], count: &mut Comparisons) -> Run
    requires a_some { 0 < length (steps_read a.now).keys }
    requires b_some { 0 < length (steps_read b.now).keys }
    requires a_ascends { IsAscending K.cmp (steps_read a.now).keys }
    requires b_ascends { IsAscending K.cmp (steps_read b.now).keys }
    requires made { count.old < 2 ^ 127 }
    ensures first { slice_get (runs K.cmp (steps_read a.now).keys (steps_read b.now).keys) 0 ≡ Some result }
    ensures comparisons { AddsAtMost count.old count.new (2 * digits (run_len result)) }
{
    let unread = Unread { left: a, right: b };
    run_length(&unread, count)
}

/// How many keys of the left side a run has.
#[inline(always)]
pub fn left_len(run: Run) -> usize
    ensures { result ≡ left_len run }
{
    match run {
        Run::Left(n) => n,
        Run::Right(_) => 0,
        Run::Both => 1,
    }
}

/// How many keys of the right side a run has.
#[inline(always)]
pub fn right_len(run: Run) -> usize
    ensures { result ≡ right_len run }
{
    match run {
        Run::Left(_) => 0,
        Run::Right(n) => n,
        Run::Both => 1,
    }
}
