//! Where a stretch of numbers fits beside the members of a set in chunks, from a multiple on, and
//! where members are in a row.
ghost use Rattle.std.specs.Prelude.{◌≡◌, ◌<◌, ◌≤◌, ℕ, true, false, IsTrue};
ghost use Rattle.range_collections.specs.Fits.{IsMultiple, IsFit};

use crate::parts::put;
use range_chunks::{ChunkedRangeSet, ChunkedSpace};
use range_collections::{Countable, FromPlace, ValueRange};

// Whether there is a multiple of `align` from which on `count` numbers lie in the range and none is
// a member, and then writes the least. The set remembers what it learns of its gaps.
pub(crate) fn first_fit_aligned<T: FromPlace, R: ValueRange<T>>(
    set: &mut ChunkedSpace<T>,
    within: R,
    count: u128,
    align: u128,
    at: &mut T,
) -> bool
    ensures fits { IsTrue result → IsFit T.cmp T.value false set.old
        (R.start within) (R.end within) count (T.place at.new) }
    ensures aligned { IsTrue result → IsMultiple T.zero align (T.place at.new) }
    ensures least { IsTrue result → (n : ℕ) → IsMultiple T.zero align n → IsFit T.cmp T.value false set.old
        (R.start within) (R.end within) count n → T.place at.new ≤ n }
    ensures none { result ≡ false → 0 < align → (n : ℕ) → n < T.count →
        IsMultiple T.zero align n → ¬ (IsFit T.cmp T.value false set.old
        (R.start within) (R.end within) count n) }
    ensures no_answer { result ≡ false → at.new ≡ at.old }
    ensures unchanged { set.new ≡ set.old }
{
    put(set.first_fit_aligned(within, count, align), at)
}

// Whether there is a number from which on `count` members in a row lie in the range, and then
// writes the least.
pub(crate) fn first_run<T: Countable + Copy, R: ValueRange<T>>(
    set: &ChunkedRangeSet<T>,
    within: R,
    count: u128,
    at: &mut T,
) -> bool
    ensures fits { IsTrue result → IsFit T.cmp T.value true set.now
        (R.start within) (R.end within) count (T.place at.new) }
    ensures least { IsTrue result → (n : ℕ) → IsFit T.cmp T.value true set.now
        (R.start within) (R.end within) count n → T.place at.new ≤ n }
    ensures none { result ≡ false → (n : ℕ) → ¬ (IsFit T.cmp T.value true set.now
        (R.start within) (R.end within) count n) }
    ensures no_answer { result ≡ false → at.new ≡ at.old }
{
    put(set.first_run(within, count), at)
}
