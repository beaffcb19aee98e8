//! Where a stretch of numbers fits, or fits from a multiple on, and where members are in a row.
ghost use Rattle.std.specs.Prelude.{◌≡◌, ◌<◌, ◌≤◌, ℕ, true, false, IsTrue};
ghost use Rattle.range_collections.specs.Boundaries.{IsAscending};
ghost use Rattle.range_collections.specs.Fits.{IsMultiple, IsFit};

use crate::parts::put;
use range_collections::{Countable, FromPlace, RangeSetRef, ValueRange};

// Whether there is a number from which on `count` numbers lie in the range and none is a member,
// and then writes the least.
pub(crate) fn first_fit_count<T: Countable + Copy, R: ValueRange<T>>(
    a: &[T],
    within: R,
    count: u128,
    at: &mut T,
) -> bool
    requires { IsAscending T.cmp a.now }
    ensures fits { IsTrue result → IsFit T.cmp T.value false a.now
        (R.start within) (R.end within) count (T.place at.new) }
    ensures least { IsTrue result → (n : ℕ) → IsFit T.cmp T.value false a.now
        (R.start within) (R.end within) count n → T.place at.new ≤ n }
    ensures none { result ≡ false → (n : ℕ) → ¬ (IsFit T.cmp T.value false a.now
        (R.start within) (R.end within) count n) }
    ensures unchanged { result ≡ false → at.new ≡ at.old }
{
    put(
        RangeSetRef::new_unchecked(a).first_fit_count(within, count),
        at,
    )
}

// Whether there is a multiple of `align` from which on `count` numbers lie in the range and none is
// a member, and then writes the least.
pub(crate) fn first_fit_aligned<T: FromPlace, R: ValueRange<T>>(
    a: &[T],
    within: R,
    count: u128,
    align: u128,
    at: &mut T,
) -> bool
    requires { IsAscending T.cmp a.now }
    ensures fits { IsTrue result → IsFit T.cmp T.value false a.now
        (R.start within) (R.end within) count (T.place at.new) }
    ensures aligned { IsTrue result → IsMultiple T.zero align (T.place at.new) }
    ensures least { IsTrue result → (n : ℕ) → IsMultiple T.zero align n → IsFit T.cmp T.value false a.now
        (R.start within) (R.end within) count n → T.place at.new ≤ n }
    ensures none { result ≡ false → 0 < align → (n : ℕ) → n < T.count →
        IsMultiple T.zero align n → ¬ (IsFit T.cmp T.value false a.now
        (R.start within) (R.end within) count n) }
    ensures unchanged { result ≡ false → at.new ≡ at.old }
{
    put(
        RangeSetRef::new_unchecked(a).first_fit_aligned(within, count, align),
        at,
    )
}

// Whether there is a number from which on `count` members in a row lie in the range, and then
// writes the least.
pub(crate) fn first_run<T: Countable + Copy, R: ValueRange<T>>(
    a: &[T],
    within: R,
    count: u128,
    at: &mut T,
) -> bool
    requires { IsAscending T.cmp a.now }
    ensures fits { IsTrue result → IsFit T.cmp T.value true a.now
        (R.start within) (R.end within) count (T.place at.new) }
    ensures least { IsTrue result → (n : ℕ) → IsFit T.cmp T.value true a.now
        (R.start within) (R.end within) count n → T.place at.new ≤ n }
    ensures none { result ≡ false → (n : ℕ) → ¬ (IsFit T.cmp T.value true a.now
        (R.start within) (R.end within) count n) }
    ensures unchanged { result ≡ false → at.new ≡ at.old }
{
    put(RangeSetRef::new_unchecked(a).first_run(within, count), at)
}
